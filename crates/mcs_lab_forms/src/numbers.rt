//! Numbers in the words of a step.
ghost use Rattle.std.specs.Prelude.{◌≡◌, ◌+◌, ◌-◌, ◌*◌};
ghost use Rattle.mcs_text.specs.Reading.{all_digits, is_number, small, value};
ghost use Rattle.mcs_lab_forms.specs.Numbers.{number_of};

/// Returns a number with one more digit; None from 2^64 on.
fn with_digit(n: u64, digit: u8) -> Option<u64>
    ensures { result ≡ small (10 * n + (digit - 48)) }
{
    n.checked_mul(10)?
        .checked_add(digit.saturating_sub(b'0') as u64)
}

/// Returns the number that digits write; None from 2^64 on.
fn digits(word: &[u8]) -> Option<u64>
    ensures { result ≡ small (value word.now) }
{
    let mut n = 0;
    for digit in word {
        match with_digit(n, *digit) {
            Some(more) => n = more,
            None => return None,
        }
    }
    Some(n)
}

/// Returns whether all bytes of a word are digits.
fn all_digits(word: &[u8]) -> bool
    ensures { result ≡ all_digits word.now }
{
    for b in word {
        if !b.is_ascii_digit() {
            return false;
        }
    }
    true
}

/// Returns whether a word is `0`, or digits that do not begin with 0.
fn is_number(word: &[u8]) -> bool
    ensures { result ≡ is_number word.now }
{
    match word {
        [] => false,
        [_] => all_digits(word),
        [first, ..] => *first != b'0' && all_digits(word),
    }
}

/// Returns the number of 64 bits that a word writes: `0`, or digits that do not begin with 0.
pub fn number_of(word: &[u8]) -> Option<u64>
    ensures { result ≡ number_of word.now }
{
    if !is_number(word) {
        return None;
    }
    digits(word)
}
