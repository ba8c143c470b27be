//! Puts the names of a script into a trace as it comes.
use crate::command_line::with;
use crate::input::{open, tell_unopened};
use crate::messages::tell_fault;
use clap::{Arg, Command as Words, Error};
use mcs_explore_questions::ExploreFault;
use mcs_lab_check::{LabFault, Labels, TakesLines, take_lines};
use mcs_plan_source::tell_names;
use mcs_plan_words::{Place, line_of};
use mcs_sim::Source;
use mcs_text::LineFault;
use std::alloc::Global;
use std::io::{self, Read, Write};
use std::process::ExitCode;

/// How many lines a script or a trace may have.
const LINES: u64 = 2_000_000;

/// At how many bytes the output of a trace is written.
const HELD: usize = 65_536;

/// The file of a script that has names.
fn script<'a>(alloc: Global) -> Arg<'a> {
    Arg::new(alloc, "FILE").help("The script").required(true)
}

/// The command without its argument.
fn words<'a>(alloc: Global) -> Words<'a> {
    Words::new(alloc, "names").about(
        "Puts the names that a script gives into a trace, which is the standard input",
    )
}

/// The command that puts names into a trace.
pub fn command<'a>(alloc: Global) -> Result<Words<'a>, Error> {
    with(Ok(words(alloc)), script(alloc))
}

/// Returns the number of the next line. Fault `ManyLines` if there are too many.
fn next_line(taken: u64) -> Result<u64, LabFault> {
    let line = taken.saturating_add(1);
    if line <= LINES {
        return Ok(line);
    }
    Err(LabFault::Script {
        line,
        why: LineFault::ManyLines,
    })
}

/// The lines of a script that give names.
#[derive(Drop)]
struct NameLines {
    names: Labels,
    text: Vec<u8>,
    taken: u64,
}

impl TakesLines for NameLines {
    fn take_line(&mut self, alloc: Global, line: &[u8]) -> Result<(), LabFault> {
        self.taken = next_line(self.taken)?;
        self.names.hear(alloc, self.taken, line)?;
        if line.starts_with(b"#@ ") {
            self.text.extend_from_slice(line)?;
        }
        Ok(())
    }

    fn taken(&self) -> u64 {
        self.taken
    }
}

/// A trace that is read, and written with names.
#[derive(Drop)]
struct Trace<W> {
    alloc: Global,
    /// The lines that give the names.
    names: Vec<u8>,
    /// The lines that are not written yet.
    held: Vec<u8>,
    taken: u64,
    to: W,
}

impl<W: Write + Drop> Trace<W> {
    /// Writes the lines that are held.
    fn put_held(&mut self) -> Result<(), LabFault> {
        let text = tell_names(self.alloc, &self.names, &self.held)?;
        self.held.clear();
        self.to.write_all(&text)?;
        Ok(())
    }
}

impl<W: Write + Drop> TakesLines for Trace<W> {
    fn take_line(&mut self, _alloc: Global, line: &[u8]) -> Result<(), LabFault> {
        self.taken = next_line(self.taken)?;
        self.held.extend_from_slice(line)?;
        if self.held.len() < HELD {
            return Ok(());
        }
        self.put_held()
    }

    fn taken(&self) -> u64 {
        self.taken
    }

    fn pause(&mut self) -> Result<(), LabFault> {
        self.put_held()
    }
}

/// Returns the lines of a script that give names. Fault `Form` for one without its form; the others
/// are those of the lines and of a read.
fn name_lines<R: Read>(alloc: Global, from: &mut Source<R>) -> Result<Vec<u8>, LabFault> {
    let names = Labels::new(alloc);
    let text = Vec::new(alloc);
    let mut lines = NameLines {
        names,
        text,
        taken: 0,
    };
    take_lines(alloc, from, &mut lines)?;
    let NameLines { text, .. } = lines;
    Ok(text)
}

/// Returns the lines of a file, or of the standard input, that give names; if it could not be read,
/// reports that and returns the exit status.
fn names_in(rt: &HostRuntime, file: Option<&str>) -> Result<Vec<u8>, ExitCode> {
    let alloc = rt.alloc();
    let read = match file {
        Some(path) => match open(rt, path) {
            Ok(file) => name_lines(alloc, &mut Source::new(file)),
            Err(error) => return Err(ExitCode::from(tell_unopened(rt, path, &error))),
        },
        None => name_lines(alloc, &mut Source::new(rt.reader())),
    };
    match read {
        Ok(names) => Ok(names),
        Err(fault) => Err(tell(rt, file, fault)),
    }
}

/// Reports a fault of a file, or of the standard input, and returns the exit status.
fn tell(rt: &HostRuntime, file: Option<&str>, fault: LabFault) -> ExitCode {
    let fault = ExploreFault::Lab(fault);
    let line = line_of(&fault);
    tell_fault(rt, Place { file, line }, &fault)
}

/// Writes a trace with names.
fn put_trace<R: Read, W: Write + Drop>(
    alloc: Global,
    names: Vec<u8>,
    from: &mut Source<R>,
    to: W,
) -> Result<(), LabFault> {
    let mut trace = Trace {
        alloc,
        names,
        held: Vec::new(alloc),
        taken: 0,
        to,
    };
    take_lines(alloc, from, &mut trace)?;
    trace.put_held()
}

/// Puts the names of a script into the trace on the standard input, and returns the exit status.
pub fn tell_trace(rt: &HostRuntime, file: Option<&str>) -> ExitCode {
    let names = match names_in(rt, file) {
        Ok(names) => names,
        Err(status) => return status,
    };
    let mut from = Source::new(rt.reader());
    match put_trace(rt.alloc(), names, &mut from, io::writer(rt)) {
        Ok(()) => ExitCode::SUCCESS,
        Err(fault) => tell(rt, None, fault),
    }
}
