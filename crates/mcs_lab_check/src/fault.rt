//! Why the program ends early, and how it reports that.
ghost use Rattle.std.specs.Prelude.{◌≡◌};
ghost use Rattle.mcs_lab_check.specs.Flaws.{flaw_of};
ghost use Rattle.mcs_lab_check.specs.Outcomes.{status_of};
ghost use Rattle.mcs_lab_check.specs.Faults.{outcome_of, with_flaw, seen_with};

use crate::flaw::{Flaw, flaw_of};
use crate::outcome::Outcome;
use mcs_sim::SimFault;
use mcs_text::LineFault;
use std::alloc::{AllocError, AllocFailed};
use std::{fmt, io};

/// Why a script is not read to its end.
#[derive(Clone, Copy, PartialEq, Eq, Debug)]
pub enum LabFault {
    /// A line of the script is refused, as `mcssim replay` refuses it; lines count from 1.
    Script {
        line: u64,
        why: LineFault,
    },
    /// A line `#?` or `#@` has none of their forms.
    Form {
        line: u64,
    },
    /// A line is refused, and contains bytes that no editor shows. `why` is None if the fault is
    /// otherwise `Form`.
    Flawed {
        line: u64,
        why: Option<LineFault>,
        flaw: Flaw,
    },
    /// The command names a line beyond the end of the script, which has this many.
    NoLine {
        line: u64,
        count: u64,
    },
    /// The command names a line beyond the end of the book, which has this many.
    NoBookLine {
        line: u64,
        count: u64,
    },
    /// A read failed.
    Read,
    /// A write failed.
    Write,
    /// The book is full at a step that would be accepted.
    BookFull,
    /// Memory was refused.
    OutOfMemory,
}

impl LabFault {
    /// Returns how the program ends.
    pub fn outcome(self) -> Outcome
        ensures { result ≡ outcome_of self }
    {
        match self {
            LabFault::Script { .. } | LabFault::Form { .. } | LabFault::Flawed { .. } => {
                Outcome::Refused
            }
            LabFault::NoLine { .. } | LabFault::NoBookLine { .. } => Outcome::Call,
            LabFault::Read => Outcome::Read,
            LabFault::Write => Outcome::Write,
            LabFault::BookFull => Outcome::BookFull,
            LabFault::OutOfMemory => Outcome::OutOfMemory,
        }
    }

    /// Returns the exit status of the program (own).
    pub fn status(self) -> u8
        ensures { result ≡ status_of (outcome_of self) }
    {
        self.outcome().status()
    }

    /// Returns the fault of a line that has a flaw.
    fn with_flaw(self, flaw: Flaw) -> LabFault
        ensures { result ≡ with_flaw flaw self }
    {
        match self {
            LabFault::Script { line, why } => LabFault::Flawed {
                line,
                why: Some(why),
                flaw,
            },
            LabFault::Form { line } => LabFault::Flawed {
                line,
                why: None,
                flaw,
            },
            LabFault::Flawed { .. }
            | LabFault::NoLine { .. }
            | LabFault::NoBookLine { .. }
            | LabFault::Read
            | LabFault::Write
            | LabFault::BookFull
            | LabFault::OutOfMemory => self,
        }
    }

    /// Returns the fault of a line of the script, with the line's flaw, if it has one.
    pub fn in_line(self, line: &[u8]) -> LabFault
        ensures { result ≡ seen_with (flaw_of line.now) self }
    {
        match flaw_of(line) {
            Some(flaw) => self.with_flaw(flaw),
            None => self,
        }
    }
}

impl From<SimFault> for LabFault {
    fn from(fault: SimFault) -> LabFault {
        match fault {
            SimFault::Script { line, why } => LabFault::Script { line, why },
            SimFault::Read | SimFault::Argument | SimFault::Failed | SimFault::NotStarted => {
                LabFault::Read
            }
            SimFault::Write => LabFault::Write,
            SimFault::BookFull => LabFault::BookFull,
            SimFault::OutOfMemory => LabFault::OutOfMemory,
        }
    }
}

impl From<io::Error> for LabFault {
    fn from(_error: io::Error) -> LabFault {
        LabFault::Write
    }
}

impl From<AllocError> for LabFault {
    fn from(_error: AllocError) -> LabFault {
        LabFault::OutOfMemory
    }
}

impl<T: Drop> From<AllocFailed<T>> for LabFault {
    fn from(_error: AllocFailed<T>) -> LabFault {
        LabFault::OutOfMemory
    }
}

/// A fault as TAP shows it: without the name of the program and the fault's number.
#[derive(Clone, Copy)]
pub struct Reason(pub LabFault);

/// The message for a line `#?` or `#@` without its form.
const NO_FORM: &str = "no question and no name has this form";

impl fmt::Display for Reason {
    fn fmt<W: fmt::Write>(&self, f: &mut fmt::Formatter<W>) -> fmt::Result {
        match self.0 {
            LabFault::Script { line, why } => write!(f, "line {line}: {why}"),
            LabFault::Form { line } => write!(f, "line {line}: {NO_FORM}"),
            LabFault::Flawed {
                line,
                why: Some(why),
                flaw,
            } => write!(f, "line {line}: {why}: {flaw}"),
            LabFault::Flawed {
                line,
                why: None,
                flaw,
            } => write!(f, "line {line}: {NO_FORM}: {flaw}"),
            LabFault::NoLine { line, count } => {
                write!(
                    f,
                    "there is no line {line} in the script, which has {count}"
                )
            }
            LabFault::NoBookLine { line, count } => {
                write!(f, "there is no line {line} in the book, which has {count}")
            }
            LabFault::Read => f.write_str("read fault"),
            LabFault::Write => f.write_str("write fault"),
            LabFault::BookFull => f.write_str("book full"),
            LabFault::OutOfMemory => f.write_str("out of memory"),
        }
    }
}

/// Writes the beginning of the message about a line: the program, the line and the fault's number.
fn put_line<W: fmt::Write>(f: &mut fmt::Formatter<W>, line: u64, why: LineFault) -> fmt::Result {
    let number = why.number();
    write!(f, "mcslab: line {line}: fault {number}: {why}")
}

impl fmt::Display for LabFault {
    fn fmt<W: fmt::Write>(&self, f: &mut fmt::Formatter<W>) -> fmt::Result {
        match *self {
            LabFault::Script { line, why } => put_line(f, line, why),
            LabFault::Flawed {
                line,
                why: Some(why),
                flaw,
            } => {
                put_line(f, line, why)?;
                write!(f, ": {flaw}")
            }
            LabFault::Flawed { why: None, .. }
            | LabFault::Form { .. }
            | LabFault::NoLine { .. }
            | LabFault::NoBookLine { .. }
            | LabFault::Read
            | LabFault::Write
            | LabFault::BookFull
            | LabFault::OutOfMemory => {
                let reason = Reason(*self);
                write!(f, "mcslab: {reason}")
            }
        }
    }
}

impl std::error::Error for LabFault {}
