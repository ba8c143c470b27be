//! The arguments of the program, and how it ends if they ask for no run.
ghost use Rattle.std.specs.Prelude.{◌≡◌, IfErr};
ghost use Rattle.clap.specs.Words.{kind_of};
ghost use Rattle.std.specs.IoError.{error_kind};
ghost use Rattle.mcs_command_line.specs.Startup.{IsOfArguments, answer_status, reading_fault};

use clap::Error;
use clap::error::ErrorKind;
use mcs_phases::SimFault;
use std::alloc::AllocGlobal;
use std::env::{self, Env};
use std::io;

/// Returns the fault for unreadable arguments: a failed allocation, or one that is not UTF-8.
fn reading_fault(error: &io::Error) -> SimFault
    ensures { result ≡ reading_fault (error_kind error.now) }
{
    match error.kind() {
        io::ErrorKind::OutOfMemory => SimFault::OutOfMemory,
        _ => SimFault::Argument,
    }
}

/// The arguments in order; the first is the program's name. Fault `Argument` if one is not UTF-8,
/// `OutOfMemory` if an allocation fails.
pub fn arguments<R: Env + AllocGlobal>(rt: &R) -> Result<Vec<String>, SimFault>
    ensures { IfErr result IsOfArguments }
{
    let mut all = Vec::new(rt.alloc());
    for argument in env::args(rt).map_err(|e| reading_fault(&e))? {
        all.push(argument).map_err(|_| SimFault::OutOfMemory)?;
    }
    Ok(all)
}

/// Returns the exit status if the command line asks for no run: 0 if it asks for the help or the
/// version, else that of a fault.
pub fn answer_status(answer: &Error) -> u8
    ensures { result ≡ answer_status (kind_of answer.now) }
{
    match answer.kind() {
        ErrorKind::DisplayHelp | ErrorKind::DisplayVersion => 0,
        ErrorKind::OutOfMemory => SimFault::OutOfMemory.status(),
        _ => SimFault::Argument.status(),
    }
}
