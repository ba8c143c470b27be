//! Names and numbers in the lines of `#?` and `#@`.
ghost use Rattle.std.specs.Prelude.{◌≡◌, ◌<◌, IfSome};
ghost use Rattle.mcs_lab_check.specs.Names.{digit, number_of, kind_of, object_of, queue_with, queue_of};

use mcs_types::{Kind, ObjId, Queue};

/// The value of a digit.
fn digit(byte: u8) -> Option<u32>
    ensures is { result ≡ digit byte }
    ensures few { IfSome result (λ d. d < 10) }
{
    if byte.is_ascii_digit() {
        return Some((byte - b'0') as u32);
    }
    None
}

/// Returns the number of a word of one to three digits, without leading zeros.
pub fn number_of(word: &[u8]) -> Option<u32>
    ensures is { result ≡ number_of word.now }
    ensures few { IfSome result (λ n. n < 1000) }
{
    match word {
        [ones] => digit(*ones),
        [tens, ones] if *tens != b'0' => {
            let tens = digit(*tens)?;
            let ones = digit(*ones)?;
            Some(10 * tens + ones)
        }
        [hundreds, tens, ones] if *hundreds != b'0' => {
            let hundreds = digit(*hundreds)?;
            let tens = digit(*tens)?;
            let ones = digit(*ones)?;
            Some(10 * (10 * hundreds + tens) + ones)
        }
        _ => None,
    }
}

/// The kind whose names begin with a letter.
fn kind_of(letter: u8) -> Option<Kind>
    ensures { result ≡ kind_of letter }
{
    match letter {
        b't' => Some(Kind::Thread),
        b'e' => Some(Kind::Endpoint),
        b'n' => Some(Kind::Notification),
        b'r' => Some(Kind::Reply),
        b's' => Some(Kind::Context),
        b'c' => Some(Kind::CNode),
        _ => None,
    }
}

/// The object that a word names.
pub fn object_of(word: &[u8]) -> Option<ObjId>
    ensures { result ≡ object_of word.now }
{
    let [letter, digits @ ..] = word else {
        return None;
    };
    let kind = kind_of(*letter)?;
    let serial = number_of(digits)?;
    if serial == 0 {
        return None;
    }
    Some(ObjId { kind, serial })
}

/// Returns the queue of an object with this suffix.
fn queue_with(object: ObjId, end: &[u8]) -> Option<Queue>
    ensures { result ≡ queue_with object.kind object end.now }
{
    match object.kind {
        Kind::Endpoint if end == b".send".as_slice() => Some(Queue::Senders(object)),
        Kind::Endpoint if end == b".recv".as_slice() => Some(Queue::Receivers(object)),
        Kind::Notification if end == b".wait".as_slice() => Some(Queue::Waiters(object)),
        _ => None,
    }
}

/// Returns the queue that a word names: an object, and a suffix of five bytes.
pub fn queue_of(word: &[u8]) -> Option<Queue>
    ensures { result ≡ queue_of word.now }
{
    let at = word.len().saturating_sub(5);
    let object = object_of(&word[..at])?;
    queue_with(object, &word[at..])
}
