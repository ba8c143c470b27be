//! The words of a statement, taken one by one.
ghost use Rattle.std.specs.Prelude.{◌≤◌, IfOk};

use mcs_plan_source::{PlanError, not, number};
use std::alloc::Global;

/// The words of a statement, and how many of them were taken.
#[derive(Drop)]
pub struct Cursor<'a> {
    alloc: Global,
    words: &'a [&'a str],
    taken: usize,
}

impl<'a> Cursor<'a> {
    /// Returns the words of a statement after the first `taken`.
    pub fn new(alloc: Global, words: &'a [&'a str], taken: usize) -> Cursor<'a> {
        Cursor {
            alloc,
            words,
            taken,
        }
    }

    /// Returns the next word without taking it.
    pub fn peek(&self) -> Option<&'a str> {
        self.words.get(self.taken).copied()
    }

    /// Returns the words that are left.
    pub fn rest(&self) -> &'a [&'a str] {
        self.words.get(self.taken..).unwrap_or(&[])
    }

    /// Takes a word. `Missing` if none is left.
    pub fn need(&mut self, wanted: &'static str) -> Result<&'a str, PlanError> {
        let Some(word) = self.peek() else {
            return Err(PlanError::Missing { wanted });
        };
        self.taken = self.taken.saturating_add(1);
        Ok(word)
    }

    /// Takes this word, if it is the next, and returns whether it was.
    pub fn takes(&mut self, wanted: &str) -> bool {
        match self.peek() {
            Some(word) if word == wanted => {
                self.taken = self.taken.saturating_add(1);
                true
            }
            _ => false,
        }
    }

    /// Takes this word. `Missing` if none is left, `Not` for another word.
    pub fn expect(&mut self, wanted: &'static str) -> Result<(), PlanError> {
        let word = self.need(wanted)?;
        if word == wanted {
            Ok(())
        } else {
            Err(not(self.alloc, word, wanted))
        }
    }

    /// Takes a number up to a limit. `Missing` if no word is left, `Not` if the word is no such
    /// number.
    pub fn number(&mut self, wanted: &'static str, limit: u64) -> Result<u64, PlanError>
        ensures { IfOk result (λ n. n ≤ limit) }
    {
        let word = self.need(wanted)?;
        match number(word) {
            Some(n) if n <= limit => Ok(n),
            _ => Err(not(self.alloc, word, wanted)),
        }
    }

    /// Fails with `TooMany` if a word is left.
    pub fn end(&self) -> Result<(), PlanError> {
        match self.peek() {
            None => Ok(()),
            Some(word) => Err(PlanError::TooMany {
                word: String::from_str(self.alloc, word)?,
            }),
        }
    }
}
