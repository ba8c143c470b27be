//! The numbers of a key in bytes.
ghost use Rattle.std.specs.Prelude.{◌≡◌, ◌%◌, ◌++◌, IfOk, OnOk};
ghost use Rattle.mcs_explore_rows.specs.Bytes.{code, coded};

use std::alloc::{AllocError, Global};

/// The key of a state: the numbers of its rows, in bytes. Equal bytes mean equal numbers, and equal
/// numbers mean equal rows.
pub type Key = Vec<u8>;

/// Returns how many bytes the code of a number has.
fn length(number: u32) -> usize {
    if number < 192 {
        1
    } else if number < 16_128 {
        2
    } else {
        5
    }
}

/// Returns how many bytes encode these numbers.
fn length_of(numbers: &[u32]) -> usize {
    let mut sum: usize = 0;
    for number in numbers {
        sum = sum.saturating_add(length(*number));
    }
    sum
}

/// The lowest byte of a number.
fn low(number: u32) -> u8
    ensures { result ≡ number % 256 }
{
    (number % 256) as u8
}

/// Adds the bytes of a number.
fn put(key: &mut Key, number: u32) -> Result<(), AllocError>
    ensures { OnOk result (key.new.items ≡ key.old.items ++ code number) }
{
    if number < 192 {
        key.push(low(number))?;
        return Ok(());
    }
    if number < 16_128 {
        key.push(low(192 + number / 256))?;
        key.push(low(number))?;
        return Ok(());
    }
    key.push(255)?;
    key.push(low(number / 256 / 256 / 256))?;
    key.push(low(number / 256 / 256))?;
    key.push(low(number / 256))?;
    key.push(low(number))?;
    Ok(())
}

/// The key with these numbers.
pub fn key_of(alloc: Global, numbers: &[u32]) -> Result<Key, AllocError>
    ensures { IfOk result (λ k. k.items ≡ coded numbers.now) }
{
    let mut key = Vec::with_capacity(alloc, length_of(numbers))?;
    for number in numbers {
        put(&mut key, *number)?;
    }
    Ok(key)
}
