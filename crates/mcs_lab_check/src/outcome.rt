//! The exit statuses, in one table.
ghost use Rattle.std.specs.Prelude.{◌≡◌};
ghost use Rattle.mcs_lab_check.specs.Outcomes.{status_of};

/// How a command ends.
#[derive(Clone, Copy, PartialEq, Eq, Debug)]
pub enum Outcome {
    /// It did what was asked, and all expectations hold.
    Done,
    /// An expectation failed, or a thread or a user is stuck.
    Unmet,
    /// A line of the script, of the plan or of its questions is refused.
    Refused,
    /// A read failed.
    Read,
    /// A write failed.
    Write,
    /// The book is full.
    BookFull,
    /// Memory was refused.
    OutOfMemory,
    /// A budget ended a search, and nothing failed so far.
    Stopped,
    /// The command line names an option, a file or a line that does not exist.
    Call,
}

impl Outcome {
    /// Returns the exit status of the program (own).
    pub fn status(self) -> u8
        ensures { result ≡ status_of self }
    {
        match self {
            Outcome::Done => 0,
            Outcome::Unmet => 1,
            Outcome::Refused => 2,
            Outcome::Read => 8,
            Outcome::Write => 4,
            Outcome::BookFull => 5,
            Outcome::OutOfMemory => 6,
            Outcome::Stopped => 3,
            Outcome::Call => 64,
        }
    }
}
