//! The parts of a fault's text: a word of the script, and the alternatives.
use std::alloc::{AllocError, Global};
use std::fmt;

/// A word of a line, shown with unprintable bytes escaped.
#[derive(Debug, Drop)]
pub struct Word {
    bytes: Vec<u8>,
}

impl Word {
    /// A copy of these bytes.
    pub fn new(alloc: Global, bytes: &[u8]) -> Result<Word, AllocError> {
        Ok(Word {
            bytes: Vec::from_slice(alloc, bytes)?,
        })
    }
}

impl fmt::Display for Word {
    fn fmt<W: fmt::Write>(&self, f: &mut fmt::Formatter<W>) -> fmt::Result {
        write!(f, "\"{}\"", self.bytes.as_slice().escape_ascii())
    }
}

/// How many alternatives a fault lists at most.
const SHOWN: usize = 8;

/// A list of alternatives for a fault: at most eight.
#[derive(Debug, Drop)]
pub struct Listed {
    bytes: Vec<u8>,
    count: usize,
}

impl Listed {
    /// Returns an empty list.
    pub fn new(alloc: Global) -> Listed {
        Listed {
            bytes: Vec::new(alloc),
            count: 0,
        }
    }

    /// Adds an alternative; two dots stand for all after the eighth.
    pub fn add(&mut self, what: &[u8]) -> Result<(), AllocError> {
        let count = self.count;
        self.count = count.saturating_add(1);
        if count > SHOWN {
            return Ok(());
        }
        if count > 0 {
            self.bytes.extend_from_slice(b", ")?;
        }
        self.bytes
            .extend_from_slice(if count == SHOWN { b".." } else { what })
    }
}

impl fmt::Display for Listed {
    fn fmt<W: fmt::Write>(&self, f: &mut fmt::Formatter<W>) -> fmt::Result {
        if self.count == 0 {
            return f.write_str("none");
        }
        write!(f, "{}", self.bytes.as_slice().escape_ascii())
    }
}
