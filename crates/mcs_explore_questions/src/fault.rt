//! Why a question is refused.
use mcs_explore_programs::{FaultyLine, Listed, ProgramFault, Word};
use mcs_lab_check::LabFault;
use std::alloc::{AllocError, AllocFailed};
use std::{fmt, io};
use thiserror::Error;

/// Why a question is refused. The text names the word and lists what is possible.
#[derive(Debug, Drop, Error)]
pub enum QuestionFault {
    #[error("a blank is missing behind #!, before {word}")]
    NoBlank {
        word: Word,
    },
    #[error("nothing is asked; questions begin with: {there}")]
    Nothing {
        there: &'static str,
    },
    #[error("{word} asks nothing; questions begin with: {there}")]
    Unknown {
        word: Word,
        there: &'static str,
    },
    #[error("{wanted} is missing at the end")]
    Missing {
        wanted: &'static str,
    },
    #[error("{field} is missing at the end, or **")]
    Short {
        field: Word,
    },
    #[error("{word} is one word too many")]
    TooMany {
        word: Word,
    },
    #[error("{word} is not {wanted}")]
    Not {
        word: Word,
        wanted: &'static str,
    },
    #[error("{word} is not \"{wanted}\"")]
    Other {
        word: Word,
        wanted: &'static str,
    },
    #[error("an entry that waits has no answer yet, and {word} is none: ask never = waits")]
    Waits {
        word: Word,
    },
    #[error("{word} stands behind **, which stands for the rest")]
    AfterRest {
        word: Word,
    },
    #[error("{word} names no thread that has entries; those are: {there}")]
    NoUser {
        word: Word,
        there: Listed,
    },
    #[error("{word} is the name of two objects")]
    Several {
        word: Word,
    },
    #[error("{word} is not the number or name of an entry of {thread}, which has entries 1 to {count}")]
    NoEntry {
        word: Word,
        thread: String,
        count: usize,
    },
    #[error("{word} is a block, of entries {first} to {last}: name one of them")]
    Block {
        word: Word,
        first: usize,
        last: usize,
    },
    #[error("{word} has no entry in it")]
    Empty {
        word: Word,
    },
    #[error("{word} begins no answer; answers begin with: {there}")]
    NoAnswer {
        word: Word,
        there: Listed,
    },
    #[error("{word} begins no record; records begin with: {there}")]
    NoRecord {
        word: Word,
        there: Listed,
    },
    #[error("no line can have these {count} words")]
    NoLine {
        count: usize,
    },
    #[error("{word} is no object that can be there; there are: {there}")]
    NoObject {
        word: Word,
        there: Listed,
    },
    #[error("{thread} goes on again already")]
    AgainTwice {
        thread: String,
    },
    #[error("a line before this one sets this rule")]
    RuleTwice,
    #[error("entry {number} of {thread} comes again: ask {instead}")]
    ComesAgain {
        thread: String,
        number: usize,
        instead: &'static str,
    },
    #[error("{thread} has a program, and goes on by it alone")]
    AgainProgram {
        thread: String,
    },
    #[error("a program may pass by entry {number} of {thread}, or come to it again: ask {instead}")]
    OfProgram {
        thread: String,
        number: usize,
        instead: &'static str,
    },
    #[error("out of memory")]
    OutOfMemory,
}

impl From<AllocError> for QuestionFault {
    ghost use Rattle.std.specs.Prelude.{◌≡◌};
    ghost use Rattle.mcs_explore_questions.specs.declared.fault.QuestionFault.TheVariants.{OutOfMemory};

    ghost from_gives = { λ _ e. e ≡ OutOfMemory };

    fn from(_error: AllocError) -> QuestionFault {
        QuestionFault::OutOfMemory
    }
}

impl<T: Drop> From<AllocFailed<T>> for QuestionFault {
    ghost use Rattle.std.specs.Prelude.{◌≡◌};
    ghost use Rattle.mcs_explore_questions.specs.declared.fault.QuestionFault.TheVariants.{OutOfMemory};

    ghost from_gives = { λ _ e. e ≡ OutOfMemory };

    fn from(_error: AllocFailed<T>) -> QuestionFault {
        QuestionFault::OutOfMemory
    }
}

/// Why a script of users is not explored to the end.
#[derive(Debug, Drop)]
pub enum ExploreFault {
    /// A fault that other commands report, too.
    Lab(LabFault),
    /// A question of the script is refused; lines count from 1.
    Question { line: u64, why: QuestionFault },
    /// A line of a program is refused.
    Program { line: u64, why: ProgramFault },
}

impl ExploreFault {
    /// The fault of the question in a line.
    pub fn of_line(line: u64, why: QuestionFault) -> ExploreFault {
        match why {
            QuestionFault::OutOfMemory => ExploreFault::Lab(LabFault::OutOfMemory),
            why => ExploreFault::Question { line, why },
        }
    }

    /// The fault of a program in a line.
    pub fn of_program(fault: FaultyLine) -> ExploreFault {
        let FaultyLine { line, why } = fault;
        match why {
            ProgramFault::OutOfMemory => ExploreFault::Lab(LabFault::OutOfMemory),
            why => ExploreFault::Program { line, why },
        }
    }

    /// The exit status of the program, 2 to 6 (own).
    pub fn status(&self) -> u8 {
        match self {
            ExploreFault::Lab(fault) => fault.status(),
            ExploreFault::Question { .. } | ExploreFault::Program { .. } => 2,
        }
    }
}

impl From<LabFault> for ExploreFault {
    fn from(fault: LabFault) -> ExploreFault {
        ExploreFault::Lab(fault)
    }
}

impl From<io::Error> for ExploreFault {
    fn from(error: io::Error) -> ExploreFault {
        ExploreFault::Lab(LabFault::from(error))
    }
}

impl From<AllocError> for ExploreFault {
    fn from(error: AllocError) -> ExploreFault {
        ExploreFault::Lab(LabFault::from(error))
    }
}

impl<T: Drop> From<AllocFailed<T>> for ExploreFault {
    fn from(_error: AllocFailed<T>) -> ExploreFault {
        ExploreFault::Lab(LabFault::OutOfMemory)
    }
}

impl fmt::Display for ExploreFault {
    fn fmt<W: fmt::Write>(&self, f: &mut fmt::Formatter<W>) -> fmt::Result {
        match self {
            ExploreFault::Lab(fault) => write!(f, "{fault}"),
            ExploreFault::Question { line, why } => {
                write!(f, "mcslab: line {line}: question: {why}")
            }
            ExploreFault::Program { line, why } => {
                write!(f, "mcslab: line {line}: program: {why}")
            }
        }
    }
}

impl std::error::Error for ExploreFault {}
