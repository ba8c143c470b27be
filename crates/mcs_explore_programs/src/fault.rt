//! Why a program is refused.
use crate::alternatives::{Listed, Word};
use mcs_text::LineFault;
use mcs_types::OutOfMemory;
use std::alloc::{AllocError, AllocFailed};
use thiserror::Error;

/// Why a line of a program is refused. The text names the word and lists what is possible.
#[derive(Debug, Drop, Error)]
pub enum ProgramFault {
    #[error("{word} names no thread; those are: {there}")]
    NoThread { word: Word, there: Listed },
    #[error("{word} is the name of two objects")]
    Several { word: Word },
    #[error("{thread} has lines of a user and a program")]
    HasUser { thread: String },
    #[error("{word} begins no statement; statements begin with an entry, NAME = or: {there}")]
    Unknown { word: Word, there: &'static str },
    #[error("{wanted} is missing at the end")]
    Missing { wanted: &'static str },
    #[error("{word} is one word too many")]
    TooMany { word: Word },
    #[error("{word} is not {wanted}")]
    Not { word: Word, wanted: &'static str },
    #[error("{word} is none of the tests, which are: {there}")]
    NoTest { word: Word, there: &'static str },
    #[error("{word} closes no block")]
    NoBlock { word: Word },
    #[error("{word} stands behind no arm of an if")]
    NoArm { word: Word },
    #[error("{word} stands in no loop")]
    NoLoop { word: Word },
    #[error("{word} is kept nowhere; these words are kept here: {there}")]
    NotKept { word: Word, there: Listed },
    #[error("{word} is kept already")]
    KeptTwice { word: Word },
    #[error("{word} can't be the name of a word that is kept")]
    NotAllowed { word: Word },
    #[error("more than {limit} words are kept at a time")]
    ManyWords { limit: usize },
    #[error("a program has {limit} lines at most")]
    ManyLines { limit: usize },
    #[error("blocks are {limit} deep at most")]
    Deep { limit: usize },
    #[error("{word} stands where no message is")]
    NoMessage { word: Word },
    #[error("{word} is the name of entry {number} already, or of a block that begins with it")]
    NamedTwice { word: Word, number: usize },
    #[error("{word} is the name of a block without an entry")]
    NamesNothing { word: Word },
    #[error("{word} begins no entry and opens no block")]
    NoEntry { word: Word },
    #[error("this entry is refused: {why}")]
    Entry { why: LineFault },
    #[error("the loop of line {opened} can go round without an entry")]
    EmptyRound { opened: u64 },
    #[error("the block that begins here is never closed")]
    Open,
    #[error("the program ends here and has no entry")]
    NoEntries,
    #[error("out of memory")]
    OutOfMemory,
}

impl From<AllocError> for ProgramFault {
    fn from(_error: AllocError) -> ProgramFault {
        ProgramFault::OutOfMemory
    }
}

impl<T: Drop> From<AllocFailed<T>> for ProgramFault {
    fn from(_error: AllocFailed<T>) -> ProgramFault {
        ProgramFault::OutOfMemory
    }
}

impl From<OutOfMemory> for ProgramFault {
    fn from(_error: OutOfMemory) -> ProgramFault {
        ProgramFault::OutOfMemory
    }
}

/// A fault, and the number of the script's line that it is about, from 1.
#[derive(Debug, Drop)]
pub struct FaultyLine {
    pub line: u64,
    pub why: ProgramFault,
}
