//! The messages about faults, as `mcslab` writes them: each with its newline, and with the place
//! before it where the fault has a line.
use crate::advice::message_of;
use crate::hints::hint_of;
use crate::line_message::{OfLine, flaw_place, has_no_form, line_of};
use crate::oddities::{Oddity, marked, oddity_of};
use crate::path::Path;
use crate::place::Place;
use crate::refusals::line_of_plan;
use crate::stranger::{Stranger, stranger_of};
use mcs_explore_questions::ExploreFault;
use mcs_lab_check::LabFault;
use mcs_plan_source::PlanFault;
use mcs_plan_validate::CompileFault;
use std::alloc::Global;
use std::io::{self, ErrorKind, Write};

/// Writes a line of a script, and below it a mark at this position; nothing without memory for it.
fn write_mark<W: Write>(alloc: Global, to: &mut W, line: &[u8], place: usize) -> io::Result<()> {
    match marked(alloc, line, place) {
        Ok(text) => to.write_all(&text),
        Err(_) => Ok(()),
    }
}

/// Writes what is odd in a line, after its place and its fault, and shows where.
fn write_odd<W: Write>(
    alloc: Global,
    to: &mut W,
    place: Place<'_>,
    what: OfLine<'_>,
    line: &[u8],
    odd: Oddity,
) -> io::Result<()> {
    let why = odd.what;
    writeln!(to, "{place}{what}: {why}")?;
    write_mark(alloc, to, line, odd.place)
}

/// Writes a fault of a line without a form, and what is odd in the line, or else a hint.
fn write_formless<W: Write>(
    alloc: Global,
    to: &mut W,
    place: Place<'_>,
    what: OfLine<'_>,
    line: &[u8],
) -> io::Result<()> {
    if let Some(odd) = oddity_of(line) {
        return write_odd(alloc, to, place, what, line, odd);
    }
    match hint_of(alloc, line) {
        Some(hint) => writeln!(to, "{place}{what}: {hint}"),
        None => writeln!(to, "{place}{what}"),
    }
}

/// Writes a fault of a line of a script, and the line if it has a flaw, with a mark below it.
fn write_flawed<W: Write>(
    alloc: Global,
    to: &mut W,
    place: Place<'_>,
    fault: &ExploreFault,
    line: &[u8],
) -> io::Result<()> {
    let what = OfLine(fault);
    writeln!(to, "{place}{what}")?;
    match flaw_place(fault, line) {
        Some(flaw) => write_mark(alloc, to, line, flaw),
        None => Ok(()),
    }
}

/// Writes the message about a fault at this line of a file, or without a line if it has none. If
/// the text of the line is given, the position of a flaw is marked; for a line that fits no form
/// the message says what is odd in it, or else gives a hint. The error is that of the writer.
pub fn write_fault<W: Write>(
    alloc: Global,
    to: &mut W,
    place: Place<'_>,
    fault: &ExploreFault,
    text: Option<&[u8]>,
) -> io::Result<()> {
    if place.line.is_none() {
        return writeln!(to, "{fault}");
    }
    let what = OfLine(fault);
    match text {
        Some(line) if has_no_form(fault) => write_formless(alloc, to, place, what, line),
        Some(line) => write_flawed(alloc, to, place, fault, line),
        None => writeln!(to, "{place}{what}"),
    }
}

/// Writes for which other command the input at this place is right.
pub fn write_stranger<W: Write>(
    to: &mut W,
    place: Place<'_>,
    stranger: Stranger,
) -> io::Result<()> {
    let text = stranger.text();
    writeln!(to, "{place}{text}")
}

/// Returns for which other command the refused line of a script would be right, if for any.
fn stranger_in(
    alloc: Global,
    reads_users: bool,
    fault: &ExploreFault,
    text: Option<&[u8]>,
) -> Option<Stranger> {
    match fault {
        ExploreFault::Lab(LabFault::Script { why, .. }) => {
            stranger_of(alloc, reads_users, *why, text?)
        }
        ExploreFault::Lab(_) | ExploreFault::Question { .. } | ExploreFault::Program { .. } => None,
    }
}

/// Writes the message about a fault of a script, for a command that reads users or steps: for which
/// other command its line would be right, or else `write_fault`. `text` is that of the line.
pub fn write_script_fault<W: Write>(
    alloc: Global,
    to: &mut W,
    file: Option<&str>,
    reads_users: bool,
    fault: &ExploreFault,
    text: Option<&[u8]>,
) -> io::Result<()> {
    let line = line_of(fault);
    let place = Place { file, line };
    match stranger_in(alloc, reads_users, fault, text) {
        Some(stranger) => write_stranger(to, place, stranger),
        None => write_fault(alloc, to, place, fault, text),
    }
}

/// Writes the message about a refused line of a plan, with a hint if there is memory for it.
fn write_plan_line<W: Write>(
    alloc: Global,
    to: &mut W,
    place: Place<'_>,
    plan: &[u8],
    fault: &PlanFault,
) -> io::Result<()> {
    match message_of(alloc, plan, fault) {
        Ok(message) => writeln!(to, "{place}{message}"),
        Err(_) => {
            let why = &fault.why;
            writeln!(to, "{place}{why}")
        }
    }
}

/// Writes why a plan becomes no script.
pub fn write_plan_fault<W: Write>(
    alloc: Global,
    to: &mut W,
    file: Option<&str>,
    plan: &[u8],
    fault: &CompileFault,
) -> io::Result<()> {
    match (line_of_plan(fault), fault) {
        (Some(line), CompileFault::Plan(fault)) => {
            let line = Some(line);
            write_plan_line(alloc, to, Place { file, line }, plan, fault)
        }
        _ => writeln!(to, "mcslab: {fault}"),
    }
}

/// Writes that a file which a command would write exists already.
pub fn write_there<W: Write>(to: &mut W, path: &str) -> io::Result<()> {
    let path = Path(path);
    writeln!(to, "mcslab: {path} is there already; --force overwrites it")
}

/// Writes why a file could not be opened.
pub fn write_unopened<W: Write>(to: &mut W, path: &str, error: &io::Error) -> io::Result<()> {
    if error.kind() == ErrorKind::OutOfMemory {
        let fault = LabFault::OutOfMemory;
        return writeln!(to, "{fault}");
    }
    let path = Path(path);
    writeln!(to, "mcslab: {path}: {error}")
}
