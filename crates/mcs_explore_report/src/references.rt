//! What patterns name: messages, and objects that the boot did not make.
ghost use Rattle.std.specs.Prelude.{◌≡◌, false};
ghost use Rattle.std.specs.List.{list_all, list_any};
ghost use Rattle.mcs_text.specs.Reading.{is_digit, words_of};
ghost use Rattle.mcs_explore_report.specs.Judging.{IsDecided};
ghost use Rattle.mcs_text.specs.Spelling.{queue_name};
ghost use Rattle.mcs_explore_report.specs.Naming.{is_later, is_message, named, names_later, names_message};

use mcs_explore_questions::Asked;
use mcs_kernel::Boot;
use mcs_lab_check::{object_of, queue_of};
use mcs_text::Words;
use mcs_types::{ObjId, Queue};

/// Returns whether a byte is a digit.
fn is_digit(byte: u8) -> bool
    ensures { result ≡ is_digit byte }
{
    byte.is_ascii_digit()
}

/// Returns whether bytes are digits alone.
fn are_digits(bytes: &[u8]) -> bool
    ensures { result ≡ list_all is_digit bytes.now }
{
    bytes.iter().all(|byte| is_digit(*byte))
}

/// Returns whether a word is the name of a message: an `m` and digits.
fn is_message(word: &[u8]) -> bool
    ensures { result ≡ is_message word.now }
{
    match word {
        [first, digits @ ..] => *first == b'm' && !digits.is_empty() && are_digits(digits),
        [] => false,
    }
}

/// Returns whether a word of a pattern is the name of a message.
fn has_message(pattern: &[u8]) -> bool
    ensures { result ≡ list_any is_message (words_of pattern.now) }
{
    let mut words = Words::new(pattern);
    while let Some(word) = words.next_word() {
        if is_message(word) {
            return true;
        }
    }
    false
}

/// Returns whether a question names a message. Only patterns of `never` can, since they match lines
/// of a trace; answers name no message.
pub fn names_message(asked: &Asked) -> bool
    ensures names { result ≡ names_message asked.now }
    // if it names none, states that differ only in message numbers give it the same result
    ensures decided { result ≡ false → IsDecided false asked.now }
{
    match asked {
        Asked::Never { pattern } => has_message(pattern),
        Asked::Idle { .. }
        | Asked::Live { .. }
        | Asked::Answer { .. }
        | Asked::AnswerIf { .. }
        | Asked::Some { .. }
        | Asked::Apart { .. }
        | Asked::Before { .. }
        | Asked::Again { .. }
        | Asked::Ruled { .. } => false,
    }
}

/// Returns the object of a queue.
pub fn object_in(queue: Queue) -> ObjId
    ensures { result ≡ queue_name queue }
{
    match queue {
        Queue::Senders(object) | Queue::Receivers(object) | Queue::Waiters(object) => object,
    }
}

/// Returns the object that a word names, by itself or as one of its queues.
fn named(word: &[u8]) -> Option<ObjId>
    ensures { result ≡ named word.now }
{
    match queue_of(word) {
        Some(queue) => Some(object_in(queue)),
        None => object_of(word),
    }
}

/// Returns whether a word names an object that a boot did not make.
fn is_later(boot: &Boot, word: &[u8]) -> bool
    ensures { result ≡ is_later boot.now word.now }
{
    match named(word) {
        Some(object) => boot.made(object.kind) < object.serial,
        None => false,
    }
}

/// Returns whether a word of a pattern names an object that a boot did not make.
fn has_later(boot: &Boot, pattern: &[u8]) -> bool
    ensures { result ≡ list_any (is_later boot.now) (words_of pattern.now) }
{
    let mut words = Words::new(pattern);
    while let Some(word) = words.next_word() {
        if is_later(boot, word) {
            return true;
        }
    }
    false
}

/// Returns whether a question names an object that a boot did not make. Answers name no object.
pub fn names_later(boot: &Boot, asked: &Asked) -> bool
    ensures { result ≡ names_later boot.now asked.now }
{
    match asked {
        Asked::Never { pattern } => has_later(boot, pattern),
        Asked::Idle { .. }
        | Asked::Live { .. }
        | Asked::Answer { .. }
        | Asked::AnswerIf { .. }
        | Asked::Some { .. }
        | Asked::Apart { .. }
        | Asked::Before { .. }
        | Asked::Again { .. }
        | Asked::Ruled { .. } => false,
    }
}
