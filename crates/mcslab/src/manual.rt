//! The manual page of the program, by its own description of the command line.
use crate::command_line::{HELP, commands};
use crate::compilation::write_whole;
use clap::{Arg, Command as Words, Error};
use std::alloc::Global;
use std::io::{self, Write};
use std::process::ExitCode;

/// Returns the command `manual` for the parser of the command line.
pub fn command<'a>(alloc: Global) -> Result<Words<'a>, Error> {
    Ok(Words::new(alloc, "manual").about("Writes a manual page, for man"))
}

/// Writes a text of a manual page, with escapes for backslashes and hyphens.
fn put_text<W: Write>(to: &mut W, text: &str) -> io::Result<()> {
    for byte in text.as_bytes() {
        match *byte {
            b'\\' => to.write_all(b"\\e")?,
            b'-' => to.write_all(b"\\-")?,
            byte => to.write_all(&[byte])?,
        }
    }
    Ok(())
}

/// Writes a text with its lines as they are.
fn put_lines<W: Write>(to: &mut W, text: &str) -> io::Result<()> {
    to.write_all(b".nf\n")?;
    for line in text.lines() {
        // no line is a request of `roff`
        to.write_all(b"\\&")?;
        put_text(to, line)?;
        to.write_all(b"\n")?;
    }
    to.write_all(b".fi\n")
}

/// Writes the name of an argument: `--from LINE`, or `FILE`.
fn put_name<W: Write>(to: &mut W, arg: &Arg<'_>) -> io::Result<()> {
    match arg.get_long() {
        Some(long) => {
            to.write_all(b"\\fB\\-\\-")?;
            put_text(to, long)?;
            to.write_all(b"\\fR")?;
        }
        None => {
            to.write_all(b"\\fI")?;
            put_text(to, arg.get_id())?;
            return to.write_all(b"\\fR\n");
        }
    }
    if arg.get_action().takes_values() {
        return to.write_all(b" \\fIVALUE\\fR\n");
    }
    to.write_all(b"\n")
}

/// Writes an argument of a command.
fn put_arg<W: Write>(to: &mut W, arg: &Arg<'_>) -> io::Result<()> {
    to.write_all(b".TP\n")?;
    put_name(to, arg)?;
    put_text(to, arg.get_help().unwrap_or(""))?;
    to.write_all(b"\n")
}

/// Writes a command.
fn put_command<W: Write>(to: &mut W, command: &Words<'_>) -> io::Result<()> {
    let name = command.get_name();
    write!(to, ".SS {name}\n")?;
    put_text(to, command.get_about().unwrap_or(""))?;
    to.write_all(b".\n")?;
    for arg in command.get_arguments() {
        put_arg(to, arg)?;
    }
    Ok(())
}

/// The head of the page.
const HEAD: &str = "\
.TH MCSLAB 1
.SH NAME
mcslab \\- tests, draws and explores protocols of seL4
.SH SYNOPSIS
\\fBmcslab\\fR \\fICOMMAND\\fR [\\fIOPTION\\fR]... [\\fIFILE\\fR]
.SH DESCRIPTION
";

/// Writes a part of the help after its title, if it has this one.
fn put_part<W: Write>(to: &mut W, part: &str, title: &str, head: &str) -> io::Result<()> {
    match part.strip_prefix(title) {
        Some(text) => {
            to.write_all(head.as_bytes())?;
            put_lines(to, text)
        }
        None => Ok(()),
    }
}

/// Writes the page.
fn put<W: Write>(to: &mut W, program: &Words<'_>) -> io::Result<()> {
    to.write_all(HEAD.as_bytes())?;
    let (front, parts) = HELP.split_once("\n\n").unwrap_or((HELP, ""));
    put_lines(to, front)?;
    to.write_all(b".SH COMMANDS\n")?;
    for command in program.get_subcommands() {
        put_command(to, command)?;
    }
    for part in parts.split("\n\n") {
        put_part(to, part, "Examples:\n", ".SH EXAMPLES\n")?;
        put_part(to, part, "Exit status:\n", ".SH EXIT STATUS\n")?;
    }
    Ok(())
}

/// Writes the manual page, and returns the exit status.
pub fn write_manual(rt: &HostRuntime) -> Result<ExitCode, Error> {
    let program = commands(rt.alloc())?;
    let mut text = Vec::new(rt.alloc());
    let made = put(&mut text, &program);
    Ok(write_whole(rt, made, &text))
}
