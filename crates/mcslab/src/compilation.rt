//! The script of a plan, as the command line asks for it.
use crate::command_line::with;
use crate::input::plan_bytes;
use crate::messages::tell_plan_fault;
use clap::{Arg, ArgAction, ArgMatches, Command as Words, Error};
use mcs_lab_check::LabFault;
use mcs_plan_compile::write_map;
use mcs_plan_validate::{CompileFault, Compiled, load};
use std::alloc::Global;
use std::io::{self, Write};
use std::process::ExitCode;

/// What `mcslab compile` writes of a plan.
#[derive(Clone, Copy)]
pub enum Made {
    Script,
    /// The table of its names and addresses.
    Map,
}

/// The option for the table.
fn map<'a>(alloc: Global) -> Arg<'a> {
    Arg::new(alloc, "map")
        .long("map")
        .help("Writes the names and their addresses in place of the script")
        .action(ArgAction::SetTrue)
}

/// The command that makes a script of a plan, with no option.
fn words<'a>(alloc: Global) -> Words<'a> {
    Words::new(alloc, "compile").about("Makes a script of a plan, which says a protocol by names")
}

/// The command that makes a script of a plan.
pub fn command<'a>(alloc: Global, file: Arg<'a>) -> Result<Words<'a>, Error> {
    with(with(Ok(words(alloc)), map(alloc)), file)
}

/// Returns what is asked.
pub fn asked(found: &ArgMatches<'_>) -> Made {
    if found.get_flag("map") {
        Made::Map
    } else {
        Made::Script
    }
}

/// Reports a write that failed, and returns the exit status.
pub fn written(rt: &HostRuntime, done: io::Result<()>) -> ExitCode {
    match done {
        Ok(()) => ExitCode::SUCCESS,
        Err(_) => {
            let _ = rt.eprintln(LabFault::Write);
            ExitCode::from(LabFault::Write.status())
        }
    }
}

/// Writes a text that was made, unless there was no memory for it, and returns the exit status.
pub fn write_whole(rt: &HostRuntime, made: io::Result<()>, text: &[u8]) -> ExitCode {
    match made {
        Ok(()) => written(rt, io::writer(rt).write_all(text)),
        Err(_) => {
            let _ = rt.eprintln(LabFault::OutOfMemory);
            ExitCode::from(LabFault::OutOfMemory.status())
        }
    }
}

/// Writes bytes to the standard output.
fn write_out(rt: &HostRuntime, first: &[u8], rest: &[u8]) -> io::Result<()> {
    let mut to = io::writer(rt);
    to.write_all(first)?;
    to.write_all(rest)
}

/// Writes what is made of a plan.
fn write_made(rt: &HostRuntime, compiled: &Compiled, made: Made) -> Result<ExitCode, CompileFault> {
    let done = match made {
        Made::Script => write_out(rt, &compiled.read, &compiled.users),
        Made::Map => {
            let map = write_map(rt.alloc(), &compiled.script)?;
            write_out(rt, map.as_bytes(), &[])
        }
    };
    Ok(written(rt, done))
}

/// Compiles a plan, and writes what is made of it.
fn make(rt: &HostRuntime, plan: &[u8], made: Made) -> Result<ExitCode, CompileFault> {
    let loaded = load(rt.alloc(), plan)?;
    write_made(rt, &loaded.compiled, made)
}

/// Makes what is asked of a plan.
pub fn compile_plan(rt: &HostRuntime, file: Option<&str>, made: Made) -> ExitCode {
    let plan = match plan_bytes(rt, file) {
        Ok(plan) => plan,
        Err(status) => return ExitCode::from(status),
    };
    match make(rt, &plan, made) {
        Ok(status) => status,
        Err(fault) => tell_plan_fault(rt, file, &plan, &fault),
    }
}
