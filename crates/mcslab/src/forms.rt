//! The forms of plans, scripts and questions, as `mcslab forms` shows them.
use crate::command_line::with;
use crate::compilation::write_whole;
use crate::orders::ASKED_OF_ALL;
use clap::{Arg, ArgMatches, Command as Words, Error};
use mcs_lab_forms::FORMS;
use mcs_plan_words::ENTRIES;
use std::alloc::Global;
use std::io::{self, Write};
use std::process::ExitCode;

/// Which forms are shown.
#[derive(Clone, Copy)]
pub enum Forms {
    Plan,
    Script,
    Questions,
}

/// The names of these; for any other the command line is refused.
const NAMES: &[&str] = &["plan", "script", "questions"];

/// The lines of a plan before its entries.
const PLAN: &str = "\
Before the first step; what stands in [ ] may be left out:
  cores COUNT
  endpoint NAME..
  notification NAME..
  reply NAME..
  context NAME [on core N]
  thread NAME prio P [max P] [on core N] [stopped] [without context] [in SPACE]
      [passive on ENDPOINT with REPLY]
  cnode NAME [RADIX]
  HOLDER has CAPABILITY..      OBJECT[:RIGHTS][=BADGE] [as NAME], or - as NAME
  tie THREAD NOTIFICATION
  pd NAME prio P [on core N] [passive] {      a domain of Microkit; its handlers, and }
  channel A.N B.N [pp [any priority]]

Steps, or lines and programs of users:
  NAME: ENTRY
  NAME on core N: ENTRY
  user NAME: ENTRY
  program NAME {               statements, and }
  ? ANSWER                     what the step before has to answer: done, got .., heard .., ..
  ? QUESTION                   what has to hold after it: mcslab forms questions
  ? away [REASON]              it has to be skipped
  #! QUESTION                  what has to hold in all orders, for mcslab explore

Numbers are decimal, or hexadecimal after 0x. A comment begins with # after white space.

Entries; a SLOT is a name, or an index and a depth; the other operands in capitals are names or
addresses, and numbers for LABEL, WORD, PRIORITY and BADGE:
";

/// What may follow the entries of a script.
const EXPECTED: &str = "
Users:
  user thread, and an entry

Comments, which mcssim skips. Of these `mcslab check` reads `#?`, `explore` and `walk` read `#!`, and
each command that reads a script reads `#@`:
  #? question              what has to hold after the step: mcslab forms questions
  #! question              what has to hold in all orders
  #! thread: statement     a line of a program of a user
  #@ object name           a name for an object: letters, digits, `-`, `_` and `.`
";

/// The questions about the state after a step.
const ASKED_OF_A_STEP: &str = "\
Lines after a step say what is wanted of it (mcslab check):
  = got 9 7 5          its answer
  + owes r1 t1 s1      a record among its own, in their order
  #? QUESTION          what stands behind it:
     away | away NotRunning | away NoContext | away WrongCore
     t1 waits e1.send | t1 owed r1 | t1 running | t1 restart | t1 inactive | t1 closed
     t1 got 9 7 5 | t1 heard 5 | t1 answered 7 5 | t1 got nothing
     t1 bound n1 | t1 holds s1 | t1 priority 10
     s1 held t1 | s1 chain r2 r1 | s1 homed n1
     r1 owes t1 | r1 with t2 | n1 pending 5
     e1.recv t2 t4 | c1 3 holds e1 rw 9         (`-` for nothing)
A plan says the same by `? ANSWER` and `? QUESTION`, with its names: `? fs waits fs.ep.recv`.

";

/// Returns the argument that says whose.
fn what<'a>(alloc: Global) -> Arg<'a> {
    Arg::new(alloc, "WHAT")
        .help("The text whose forms are shown")
        .required(true)
        .value_parser(NAMES)
}

/// Returns the command `forms` without its argument.
fn words<'a>(alloc: Global) -> Words<'a> {
    Words::new(alloc, "forms").about("Shows the forms of a plan, of a script, or of questions")
}

/// Returns the command `forms` for the parser of the command line.
pub fn command<'a>(alloc: Global) -> Result<Words<'a>, Error> {
    with(Ok(words(alloc)), what(alloc))
}

/// Returns what the words of the command line ask for.
pub fn asked(found: &ArgMatches<'_>) -> Forms {
    match found.get_str("WHAT") {
        Some("script") => Forms::Script,
        Some("questions") => Forms::Questions,
        _ => Forms::Plan,
    }
}

/// Writes the forms of a plan.
fn put_plan<W: Write>(to: &mut W) -> io::Result<()> {
    to.write_all(PLAN.as_bytes())?;
    for form in ENTRIES {
        writeln!(to, "  {form}")?;
    }
    Ok(())
}

/// Writes two texts.
fn put_both<W: Write>(to: &mut W, first: &str, second: &str) -> io::Result<()> {
    to.write_all(first.as_bytes())?;
    to.write_all(second.as_bytes())
}

/// Shows forms, and returns the exit status.
pub fn show_forms(rt: &HostRuntime, forms: Forms) -> ExitCode {
    let mut text = Vec::new(rt.alloc());
    let made = match forms {
        Forms::Plan => put_plan(&mut text),
        Forms::Script => put_both(&mut text, FORMS, EXPECTED),
        Forms::Questions => put_both(&mut text, ASKED_OF_A_STEP, ASKED_OF_ALL),
    };
    write_whole(rt, made, &text)
}
