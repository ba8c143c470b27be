//! The words of a statement, and the numbers that they write.
ghost use Rattle.std.specs.Prelude.{◌≤◌};

use crate::alternatives::Word;
use crate::fault::ProgramFault;
use std::alloc::{AllocError, Global};

/// A statement whose words are taken one by one.
#[derive(Drop)]
pub struct Statement<'a> {
    alloc: Global,
    words: Vec<&'a [u8]>,
    taken: usize,
}

/// Returns whether a byte stands between two words.
fn is_blank(byte: u8) -> bool {
    byte == b' ' || byte == b'\t'
}

/// Returns the words of a text up to a comment, that is, a word that begins with `#`.
fn words_of<'a>(alloc: Global, text: &'a [u8]) -> Result<Vec<&'a [u8]>, AllocError> {
    let mut words = Vec::new(alloc);
    for word in text.split(|byte| is_blank(*byte)) {
        match word {
            [] => {}
            [b'#', ..] => break,
            word => words.push(word)?,
        }
    }
    Ok(words)
}

impl<'a> Statement<'a> {
    /// The statement of a text, before its first word.
    pub fn new(alloc: Global, text: &'a [u8]) -> Result<Statement<'a>, AllocError> {
        Ok(Statement {
            alloc,
            words: words_of(alloc, text)?,
            taken: 0,
        })
    }

    /// Returns how many words are left.
    pub fn left(&self) -> usize {
        self.words.len().saturating_sub(self.taken)
    }

    /// Returns the next word without taking it, if there is one.
    pub fn peek(&self) -> Option<&'a [u8]> {
        self.words.get(self.taken).copied()
    }

    /// Takes the next word, if there is one.
    pub fn next_word(&mut self) -> Option<&'a [u8]> {
        let word = self.peek()?;
        self.taken = self.taken.saturating_add(1);
        Some(word)
    }

    /// Takes the next word if it is this one.
    pub fn take(&mut self, word: &[u8]) -> bool {
        let is_next = self.peek().is_some_and(|next| next == word);
        if is_next {
            self.taken = self.taken.saturating_add(1);
        }
        is_next
    }

    /// Takes the next word. `Missing` if none is left.
    pub fn need(&mut self, wanted: &'static str) -> Result<&'a [u8], ProgramFault> {
        match self.next_word() {
            Some(word) => Ok(word),
            None => Err(ProgramFault::Missing { wanted }),
        }
    }

    /// Takes this word. `Missing` if none is left, `Not` for another word.
    pub fn expect(&mut self, wanted: &'static str) -> Result<(), ProgramFault> {
        let word = self.need(wanted)?;
        if word == wanted.as_bytes() {
            return Ok(());
        }
        Err(self.not(word, wanted))
    }

    /// Fails with `TooMany` if a word is left.
    pub fn end(&self) -> Result<(), ProgramFault> {
        match self.peek() {
            None => Ok(()),
            Some(word) => Err(ProgramFault::TooMany {
                word: Word::new(self.alloc, word)?,
            }),
        }
    }

    /// Takes `{`, which ends a line.
    pub fn open(&mut self) -> Result<(), ProgramFault> {
        self.expect("{")?;
        self.end()
    }

    /// Returns the fault for a word that is not what is wanted.
    pub fn not(&self, word: &[u8], wanted: &'static str) -> ProgramFault {
        match Word::new(self.alloc, word) {
            Ok(word) => ProgramFault::Not { word, wanted },
            Err(_) => ProgramFault::OutOfMemory,
        }
    }

    /// Takes a number between two bounds. `Not` if the next word is none.
    pub fn number(
        &mut self,
        least: u64,
        most: u64,
        wanted: &'static str,
    ) -> Result<u64, ProgramFault> {
        let word = self.need(wanted)?;
        match number_of(word) {
            Some(number) if least <= number && number <= most => Ok(number),
            _ => Err(self.not(word, wanted)),
        }
    }
}

/// Returns the number that digits of a base write; None from 2^64 on.
fn digits(word: &[u8], base: u32) -> Option<u64>
    requires least { 2 ≤ base }
    requires most { base ≤ 36 }
{
    if word.is_empty() {
        return None;
    }
    let mut number: u64 = 0;
    for byte in word {
        let digit = char::from(*byte).to_digit(base)?;
        number = number.checked_mul(base as u64)?.checked_add(digit as u64)?;
    }
    Some(number)
}

/// Returns the number that decimal digits write; None from 2^64 on.
pub fn decimal(word: &[u8]) -> Option<u64> {
    digits(word, 10)
}

/// Returns the number that digits after `0x` write; None from 2^64 on, or without `0x`.
pub fn hexadecimal(word: &[u8]) -> Option<u64> {
    match word {
        [b'0', b'x', hex @ ..] => digits(hex, 16),
        _ => None,
    }
}

/// The number that a word writes, decimal or after `0x`.
pub fn number_of(word: &[u8]) -> Option<u64> {
    hexadecimal(word).or_else(|| decimal(word))
}
