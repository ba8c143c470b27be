//! How reports on a plan spell numbers: from 2^32 on in hexadecimal, and badges and words of
//! messages also where the plan does.
use mcs_plan_source::{number, split_comment, split_words};
use std::alloc::{AllocError, Global};
use std::str;

/// From which number on numbers are written in hexadecimal.
const LARGE: u64 = 1 << 32;

/// What a number of a report is.
#[derive(Clone, Copy, PartialEq, Eq)]
pub(crate) enum Role {
    /// A badge, or a word of a message or of a notification.
    Value,
    /// A label, an address, a priority, or a count.
    Count,
}

/// What the next number of a report is, by the words before it.
#[derive(Clone, Copy, PartialEq, Eq)]
pub(crate) enum Next {
    Count,
    /// A badge, which a label and words follow.
    Badge,
    /// A label, which words follow.
    Label,
    Words,
}

impl Next {
    /// Returns what the next number is after a word that is no number.
    pub(crate) fn after_word(self, word: &[u8]) -> Next {
        if word == b"got".as_slice() || word == b"sent".as_slice() || is_message(word) {
            return Next::Badge;
        }
        if word == b"paid".as_slice() || word == b"answered".as_slice() {
            return Next::Label;
        }
        if is_before_word(word) || are_rights(word) {
            return Next::Words;
        }
        self
    }

    /// Returns what the next number is after a text between two words.
    pub(crate) fn after_text(self, between: &[u8]) -> Next {
        if between == b" ".as_slice() || between == b": ".as_slice() {
            return self;
        }
        Next::Count
    }

    /// Returns what the next number is after this one.
    pub(crate) fn after_number(self) -> Next {
        match self {
            Next::Badge => Next::Label,
            Next::Label | Next::Words => Next::Words,
            Next::Count => Next::Count,
        }
    }

    /// Returns what the number here is.
    pub(crate) fn role(self) -> Role {
        match self {
            Next::Badge | Next::Words => Role::Value,
            Next::Label | Next::Count => Role::Count,
        }
    }
}

/// Returns whether a word is the number of a message: `m3`.
fn is_message(word: &[u8]) -> bool {
    match word {
        [b'm', digits @ ..] => !digits.is_empty() && digits.iter().all(|b| b.is_ascii_digit()),
        _ => false,
    }
}

/// Returns whether a word of a notification follows.
fn is_before_word(word: &[u8]) -> bool {
    word == b"heard".as_slice() || word == b"raised".as_slice() || word == b"pending".as_slice()
}

/// Returns whether a word is the rights of a capability, which its badge follows.
fn are_rights(word: &[u8]) -> bool {
    !word.is_empty()
        && word
            .iter()
            .all(|byte| matches!(*byte, b'r' | b'w' | b'g' | b'p' | b'-'))
}

/// Returns the value of a word of a plan that ends in a hexadecimal number: `0x10`, `ep:w=0x10`.
fn hexadecimal_in(word: &str) -> Option<u64> {
    let text = match word.rsplit_once("=") {
        Some((_, text)) => text,
        None => word,
    };
    text.strip_prefix("0x")?;
    number(text)
}

/// Adds the values that a line of a plan writes in hexadecimal, outside its comment.
fn add_values(alloc: Global, values: &mut Vec<u64>, line: &str) -> Result<(), AllocError> {
    let (code, _) = split_comment(line);
    let words = split_words(alloc, code)?;
    for word in &words {
        if let Some(value) = hexadecimal_in(word) {
            values.push(value)?;
        }
    }
    Ok(())
}

/// Returns the values that a plan writes in hexadecimal, in ascending order.
pub(crate) fn hexadecimals(alloc: Global, plan: &[u8]) -> Result<Vec<u64>, AllocError> {
    let mut values = Vec::new(alloc);
    for line in plan.split(|byte| *byte == b'\n') {
        if let Ok(text) = str::from_utf8(line) {
            add_values(alloc, &mut values, text)?;
        }
    }
    values.sort_unstable();
    Ok(values)
}

/// How reports on a plan spell numbers, by the values that the plan writes in hexadecimal, in
/// ascending order.
#[derive(Clone, Copy)]
pub(crate) struct Spelling<'a> {
    pub(crate) values: &'a [u64],
}

impl Spelling<'_> {
    /// Returns whether a report spells a number in hexadecimal.
    fn is_hexadecimal(self, number: u64, role: Role) -> bool {
        number >= LARGE || (role == Role::Value && self.values.binary_search(&number).is_ok())
    }

    /// Appends a number.
    pub(crate) fn add_number(
        self,
        alloc: Global,
        to: &mut Vec<u8>,
        number: u64,
        role: Role,
    ) -> Result<(), AllocError> {
        let text = if self.is_hexadecimal(number, role) {
            format!(in alloc; "0x{number:x}")?
        } else {
            format!(in alloc; "{number}")?
        };
        to.extend_from_slice(text.as_bytes())
    }
}
