//! The values that words of a program mean.
use crate::fault::ProgramFault;
use crate::slots::Slots;
use crate::statement::{Statement, decimal, number_of};
use mcs_turns::Source;
use mcs_types::MESSAGE_WORDS;

/// What faults say about a value.
const VALUE: &str = "a value: a number, $badge, $word, $label, $1 to $120, or $ and a kept name";

/// Returns the source for a word of the message, counted from 1; None if no message has this many
/// words.
fn word_source(number: u64) -> Option<Source> {
    if number == 0 || number > MESSAGE_WORDS as u64 {
        return None;
    }
    match u8::try_from(number.saturating_sub(1)) {
        Ok(place) => Some(Source::Word(place)),
        Err(_) => None,
    }
}

/// Returns the source that a word means. `Not` if it is no value, `NotKept` if it names no kept
/// word.
pub fn source_of(
    statement: &Statement<'_>,
    slots: &Slots,
    word: &[u8],
) -> Result<Source, ProgramFault> {
    let source = match word {
        b"$badge" | b"$word" => Some(Source::Badge),
        b"$label" => Some(Source::Label),
        [b'$', name @ ..] => match decimal(name) {
            Some(number) => word_source(number),
            None => Some(Source::Saved(slots.need(name)?)),
        },
        word => match number_of(word) {
            Some(number) => Some(Source::Number(number)),
            None => None,
        },
    };
    match source {
        Some(source) => Ok(source),
        None => Err(statement.not(word, VALUE)),
    }
}

/// Takes a value.
pub fn read_value(statement: &mut Statement<'_>, slots: &Slots) -> Result<Source, ProgramFault> {
    let word = statement.need("a value")?;
    source_of(statement, slots, word)
}
