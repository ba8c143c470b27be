//! Why a plan is refused.
use crate::Shown;
use mcs_types::{BootFault, OutOfMemory};
use std::alloc::{AllocError, AllocFailed};
use std::fmt;

/// Why a line of a plan is refused. The report names the word and, for an unknown name, lists the
/// known ones.
#[derive(Debug, Drop)]
pub enum PlanError {
    NotText,
    Unknown {
        word: String,
    },
    Missing {
        wanted: &'static str,
    },
    TooMany {
        word: String,
    },
    Not {
        word: String,
        wanted: &'static str,
    },
    Twice {
        word: String,
    },
    NoName {
        word: String,
        wanted: &'static str,
        there: String,
    },
    NoCapability {
        holder: String,
        word: String,
        there: String,
    },
    Limit {
        what: &'static str,
        limit: u32,
    },
    LateCores,
    Bound {
        word: String,
    },
    Late,
    NoStep,
    Mixed,
    PassiveUser,
    /// The program that begins in this line is not closed.
    Unclosed {
        opened: u64,
    },
    /// The message about a program.
    Program {
        message: String,
    },
    Boot(BootFault),
    OutOfMemory,
}

/// Writes a word, and a message about it.
fn say<W: fmt::Write>(f: &mut fmt::Formatter<W>, word: &String, what: &'static str) -> fmt::Result {
    let shown = Shown {
        text: word.as_str(),
    };
    write!(f, "{shown}{what}")
}

/// Writes that a word is no name of what is wanted, and the existing names.
fn say_no_name<W: fmt::Write>(
    f: &mut fmt::Formatter<W>,
    word: &String,
    wanted: &'static str,
    there: &String,
) -> fmt::Result {
    say(f, word, " is not the name of ")?;
    write!(f, "{wanted}; there are: {there}")
}

/// Writes that a thread or a space has no capability with a name, and those that it has.
fn say_no_capability<W: fmt::Write>(
    f: &mut fmt::Formatter<W>,
    holder: &String,
    word: &String,
    there: &String,
) -> fmt::Result {
    say(f, holder, " has no capability ")?;
    say(f, word, "; it has: ")?;
    f.write_str(there.as_str())
}

impl fmt::Display for PlanError {
    fn fmt<W: fmt::Write>(&self, f: &mut fmt::Formatter<W>) -> fmt::Result {
        match self {
            PlanError::NotText => f.write_str("its bytes are no text"),
            PlanError::Unknown { word } => say(f, word, " begins no line of a plan"),
            PlanError::Missing { wanted } => write!(f, "{wanted} is missing at the end"),
            PlanError::TooMany { word } => say(f, word, " is one word too many"),
            PlanError::Not { word, wanted } => {
                say(f, word, " is not ")?;
                f.write_str(wanted)
            }
            PlanError::Twice { word } => say(f, word, " is named twice"),
            PlanError::NoName {
                word,
                wanted,
                there,
            } => say_no_name(f, word, wanted, there),
            PlanError::NoCapability {
                holder,
                word,
                there,
            } => say_no_capability(f, holder, word, there),
            PlanError::Limit { what, limit } => write!(f, "more than {limit} {what}"),
            PlanError::LateCores => f.write_str("\"cores\" stands behind a thread or a context"),
            PlanError::Bound { word } => say(f, word, " is bound already"),
            PlanError::Late => f.write_str("this line stands behind the first step"),
            PlanError::NoStep => f.write_str("no step stands before this line"),
            PlanError::Mixed => f.write_str("steps and lines of users do not go together"),
            PlanError::PassiveUser => {
                f.write_str("a passive thread receives in a step, and these are lines of users")
            }
            PlanError::Unclosed { opened } => {
                write!(f, "the program that begins in line {opened} is not closed")
            }
            PlanError::Program { message } => write!(f, "program: {message}"),
            PlanError::Boot(fault) => write!(f, "the boot is refused: {fault}"),
            PlanError::OutOfMemory => f.write_str("out of memory"),
        }
    }
}

impl std::error::Error for PlanError {}

impl From<AllocError> for PlanError {
    ghost use Rattle.std.specs.Prelude.{◌≡◌};
    ghost use Rattle.mcs_plan_source.specs.declared.fault.PlanError.TheVariants.{OutOfMemory};

    ghost from_gives = { λ _ e. e ≡ OutOfMemory };

    fn from(_error: AllocError) -> PlanError {
        PlanError::OutOfMemory
    }
}

impl<T: Drop> From<AllocFailed<T>> for PlanError {
    ghost use Rattle.std.specs.Prelude.{◌≡◌};
    ghost use Rattle.mcs_plan_source.specs.declared.fault.PlanError.TheVariants.{OutOfMemory};

    ghost from_gives = { λ _ e. e ≡ OutOfMemory };

    fn from(_error: AllocFailed<T>) -> PlanError {
        PlanError::OutOfMemory
    }
}

impl From<OutOfMemory> for PlanError {
    fn from(_error: OutOfMemory) -> PlanError {
        PlanError::OutOfMemory
    }
}

impl From<BootFault> for PlanError {
    fn from(fault: BootFault) -> PlanError {
        match fault {
            BootFault::OutOfMemory => PlanError::OutOfMemory,
            _ => PlanError::Boot(fault),
        }
    }
}

/// A line of a plan that is refused; lines count from 1.
#[derive(Debug, Drop)]
pub struct PlanFault {
    pub line: u64,
    pub why: PlanError,
}

impl fmt::Display for PlanFault {
    fn fmt<W: fmt::Write>(&self, f: &mut fmt::Formatter<W>) -> fmt::Result {
        let line = self.line;
        let why = &self.why;
        match why {
            PlanError::OutOfMemory => write!(f, "{why}"),
            _ => write!(f, "line {line}: {why}"),
        }
    }
}

impl std::error::Error for PlanFault {}

impl PlanFault {
    /// The exit status of a program that is given the plan (own).
    pub fn status(&self) -> u8 {
        match self.why {
            PlanError::OutOfMemory => 6,
            _ => 2,
        }
    }
}
