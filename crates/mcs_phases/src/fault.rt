//! Why the program ends early, and how it reports that.
ghost use Rattle.std.specs.Prelude.{◌≡◌};

use mcs_text::LineFault;
use std::fmt;

/// Why the program ended early. Its text is the line that the program writes, without the newline.
#[derive(Clone, Copy, PartialEq, Eq, Debug)]
pub enum SimFault {
    /// An argument of the command line is not UTF-8.
    Argument,
    /// A line of the script is refused; lines count from 1.
    Script { line: u64, why: LineFault },
    /// A read failed.
    Read,
    /// A write failed.
    Write,
    /// The book is full at a step that would be accepted.
    BookFull,
    /// Memory was refused.
    OutOfMemory,
    /// A run of users failed: the book does not agree with the calls of the cores.
    Failed,
    /// A run of users failed: a host thread was not started.
    NotStarted,
}

impl SimFault {
    ghost use Rattle.mcs_phases.specs.Faults.{fault_status};

    /// The exit status of the program, 1 to 7 (own).
    pub fn status(self) -> u8
        ensures { result ≡ fault_status self }
    {
        match self {
            SimFault::Argument => 1,
            SimFault::Script { .. } => 2,
            SimFault::Read => 3,
            SimFault::Write => 4,
            SimFault::BookFull => 5,
            SimFault::OutOfMemory => 6,
            SimFault::Failed | SimFault::NotStarted => 7,
        }
    }
}

impl fmt::Display for SimFault {
    ghost use Rattle.std.specs.Prelude.{Some};
    ghost use Rattle.mcs_phases.specs.Faults.{fault_text};

    ghost output = { λ fault. Some (fault_text fault) };

    fn fmt<W: fmt::Write>(&self, f: &mut fmt::Formatter<W>) -> fmt::Result {
        match *self {
            SimFault::Argument => f.write_str("mcssim: an argument is not UTF-8"),
            SimFault::Script { line, why } => {
                let number = why.number();
                write!(f, "mcssim: line {line}: fault {number}")
            }
            SimFault::Read => f.write_str("mcssim: read fault"),
            SimFault::Write => f.write_str("mcssim: write fault"),
            SimFault::BookFull => f.write_str("mcssim: book full"),
            SimFault::OutOfMemory => f.write_str("mcssim: out of memory"),
            SimFault::Failed | SimFault::NotStarted => f.write_str("mcssim: run failed"),
        }
    }
}

impl std::error::Error for SimFault {}
