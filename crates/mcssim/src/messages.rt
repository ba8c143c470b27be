//! Reports faults.
use clap::Error;
use clap::error::ErrorKind;
use mcs_command_line::answer_status;
use mcs_sim::SimFault;
use std::process::ExitCode;
use std::{fmt, io};

/// What it means if a run failed.
const FAILED: &str = "the book did not agree with what the cores got";

/// A fault, followed by its explanation.
#[derive(Drop)]
struct Explained(SimFault);

impl fmt::Display for Explained {
    fn fmt<W: fmt::Write>(&self, f: &mut fmt::Formatter<W>) -> fmt::Result {
        let fault = self.0;
        match fault {
            SimFault::Argument => write!(f, "{fault}: each word of the command line has to be"),
            SimFault::Script { why, .. } => write!(f, "{fault}: {why}"),
            SimFault::Read => write!(f, "{fault}: the script could not be read to its end"),
            SimFault::Write => write!(f, "{fault}: standard output did not take the trace"),
            SimFault::BookFull => write!(f, "{fault}: a book has at most 1,000,000 lines"),
            SimFault::OutOfMemory => write!(f, "{fault}: the system gave no more"),
            SimFault::Failed => write!(f, "{fault}: {FAILED}"),
            SimFault::NotStarted => write!(f, "{fault}: a host thread did not start"),
        }
    }
}

/// Reports a fault in its fixed line, and returns the exit status.
pub fn tell(rt: &HostRuntime, fault: SimFault) -> ExitCode {
    let _ = rt.eprintln(fault);
    ExitCode::from(fault.status())
}

/// Explains a fault in a line after the fixed one.
pub fn explain(rt: &HostRuntime, fault: SimFault) {
    let _ = rt.eprintln(Explained(fault));
}

/// Reports that a file could not be opened, in the system's words, and returns the exit status of a
/// read fault; a failed allocation is reported as such.
pub fn tell_unopened(rt: &HostRuntime, path: &str, error: &io::Error) -> ExitCode {
    if error.kind() == io::ErrorKind::OutOfMemory {
        return tell(rt, SimFault::OutOfMemory);
    }
    let path = path.escape_debug();
    let _ = eprintln!(rt; "mcssim: {path}: {error}");
    ExitCode::from(SimFault::Read.status())
}

/// Prints what `clap` returns in place of options, and returns the exit status.
pub fn tell_answer(rt: &HostRuntime, answer: &Error) -> ExitCode {
    if answer.kind() == ErrorKind::OutOfMemory {
        return tell(rt, SimFault::OutOfMemory);
    }
    let _ = answer.print(rt);
    ExitCode::from(answer_status(answer))
}
