//! One level of lookup: the next bits of an address are the guard of a CNode's capability, and then
//! the index of a slot.
ghost use Rattle.std.specs.Prelude.{◌≡◌, ◌≤◌, ◌<◌, ◌/◌, ◌%◌, ◌^◌, IfOk};
ghost use Rattle.mcs_cspace.specs.Levels.{past_guard, level_at};

use mcs_types::{Guard, Refusal};

/// One level of a lookup: a slot of the CNode where the level began, and how many bits of the
/// address are left.
#[derive(Clone, Copy, PartialEq, Eq, Debug)]
pub(crate) struct Step {
    pub(crate) index: u8,
    pub(crate) left: u32,
}

/// Returns the low `count` bits of a word.
fn low_bits(word: u64, count: u32) -> u64
    requires { count ≤ 64 }
    ensures value { result ≡ word % 2 ^ count }
    ensures small { result < 2 ^ count }
{
    if count == 64 {
        return word;
    }
    let mask = (1u64 << count) - 1;
    word & mask
}

/// Returns `count` bits of a word, above its low `below` bits.
fn bits_at(word: u64, below: u32, count: u32) -> u64
    requires within { below ≤ 64 }
    requires few { count ≤ 64 }
    ensures value { result ≡ word / 2 ^ below % 2 ^ count }
    ensures small { result < 2 ^ count }
{
    let front = if below < 64 { word >> below } else { 0 };
    low_bits(front, count)
}

/// Returns `width` bits of a word, above its low `below` bits, as an index.
fn index_at(word: u64, below: u32, width: u32) -> u8
    requires within { below < 64 }
    requires few { width ≤ 8 }
    ensures value { result ≡ word / 2 ^ below % 2 ^ width }
    ensures small { result < 2 ^ width }
{
    let mask = (1u64 << width) - 1;
    (word >> below & mask) as u8
}

/// Returns how many bits are left after a guard, if the next of the `left` bits of the address are
/// the guard's. Most guards are empty.
#[tactic(auto, unfolding(crate::specs::Levels::past_guard))]
fn past_guard(guard: Guard, left: u32, address: u64) -> Result<u32, Refusal>
    requires { left ≤ 64 }
    ensures past { result ≡ past_guard guard left address }
    ensures fewer { IfOk result (λ n. n ≤ left) }
{
    let size = guard.bits as u32;
    if size == 0 {
        return Ok(left);
    }
    if size > left || bits_at(address, left - size, size) != low_bits(guard.value, size) {
        return Err(Refusal::GuardMismatch);
    }
    Ok(left - size)
}

/// Resolves one level: of the `left` bits of the address, the first have to be the guard, and the
/// next are the index. Of a guard's value its low bits count, as many as its size says.
#[tactic(auto, unfolding(crate::specs::Levels::level_at))]
pub(crate) fn level(guard: Guard, radix: u8, left: u32, address: u64) -> Result<Step, Refusal>
    requires within { left ≤ 64 }
    requires radix { radix ≤ 8 }
    ensures step { result ≡ level_at guard radix left address }
    ensures fewer { IfOk result (λ s. s.left ≤ left) }
    ensures within { IfOk result (λ s. s.index < 2 ^ radix) }
{
    let after = past_guard(guard, left, address)?;
    let width = radix as u32;
    if width > after {
        return Err(Refusal::DepthMismatch);
    }
    let left = after - width;
    let index = if width == 0 {
        0
    } else {
        index_at(address, left, width)
    };
    Ok(Step { index, left })
}
