//! The search through all orders, as the command line asks for it.
ghost use Rattle.std.specs.Prelude.{◌≡◌, IfOk};
ghost use Rattle.mcs_explore_report.specs.declared.report.Explored.TheVariants as Explored;
ghost use Rattle.mcs_explore_report.specs.Failing.{HasReadFailing};
ghost use Rattle.mcs_explore_report.specs.Holding.{HasReadHolding};

use crate::command_line::{strings, with, with_other};
use crate::folder::Folder;
use clap::{Arg, ArgAction, ArgMatches, Command as Words, Error, value_parser};
use mcs_explore_questions::ExploreFault;
use mcs_explore_report::{Explored, Output, Progress, Stop, Wanted, explore_and_tell};
use mcs_lab_check::Outcome;
use mcs_lab_forms::number_of;
use mcs_sim::Source;
use std::alloc::{AllocError, Global};
use std::fs;
use std::io::{self, IsTerminal, Read, Write};
use std::time::Instant;

/// How many states are found by default at most.
pub const STATES: u64 = 1_000_000;

/// The clock is read, and memory asked for, once in this many states, since both take time.
const LOOKS: usize = 16;

/// Bytes that a search leaves for its report, and for tables that grow before it asks again: this
/// many, and `RESERVE_STATE` for each state that was expanded.
const RESERVE: usize = 64 << 20;

const RESERVE_STATE: usize = 512;

/// The file in which the system says how many pages the program uses: its second number counts
/// those in memory.
const MEMORY_FILE: &str = "/proc/self/statm";

/// How many bytes a page has.
const PAGE: u64 = 4_096;

/// How many bytes a megabyte has.
const MEGABYTE: u64 = 1_000_000;

/// How far to search, the form of the report, and where to save scripts.
#[derive(Clone, Copy)]
pub struct Sought<'a> {
    pub wanted: Wanted,
    pub output: Output,
    pub scripts: Option<&'a str>,
    /// Whether a script may overwrite a file.
    pub is_forced: bool,
    /// After how many seconds the search stops, if that is asked for.
    pub seconds: Option<u64>,
    /// At how many megabytes of memory the search stops, if that is asked for.
    pub memory: Option<u64>,
}

/// What a script may ask of all orders.
pub const ASKED_OF_ALL: &str = "\
Lines that begin with `#! ` ask of all orders (mcslab explore), in scripts and in plans:
  #! idle t1                        t1 may wait for ever: that is no deadlock
  #! idle t1 2                      in its second entry; in the first two: 1..=2
  #! live t1                        from each state some order answers an entry of t1, or all were:
                                    asked without `idle`, too
  #! live t1 2                      the same of its second entry
  #! answer t1 2 got 9 *            each run that ends has answered its second entry, and all
                                    answers are so
  #! answer? t1 2 got 9 *           all answers are so, if it has some
  #! some t2 1 heard 3              some order gives this answer
  #! never = refused *              no line of a trace is so, of an answer or of a record
  #! never + void * * cancelled
  #! never t2 in 1..2 and t3 in 1..2    never have both been answered entry 1 and not yet given 2;
                                    answered 2: 1..=2
  #! before t1 2 t2 3               the second entry of t1 is given before the third of t2
  #! again t1 2                     after its last entry t1 goes on with its second
  #! schedule equal                 a core picks any thread of the greatest priority; any: any that
                                    may enter; serial, the default: as mcssim run does
  #! resumed goes on                an entry that was answered is not given again
In a pattern `*` stands for a word and `**` for the rest. A name of a line `#@`, or of the plan,
stands for its object.
";

/// What is read, and where more is said.
const READS: &str = "\
The script is one of `mcssim run`: a boot, and the entries of users. Its lines that begin with `#! `
ask of all orders: `mcslab forms questions`. The exit status is 0 if all holds, 1 if something fails,
and 3 if a budget ended the search and nothing failed so far; `mcslab --help` has the others.";

/// Returns an option with a number.
pub fn number<'a>(alloc: Global, name: &'a str, help: &'a str) -> Arg<'a> {
    Arg::new(alloc, name)
        .long(name)
        .value_name("N")
        .help(help)
        .value_parser(value_parser!(u64))
}

/// Returns the option for the most states.
pub fn states<'a>(alloc: Global) -> Arg<'a> {
    number(alloc, "states", "Stops after N states [default: 1000000]")
}

/// Returns the option for the depth.
pub fn depth<'a>(alloc: Global) -> Arg<'a> {
    number(alloc, "depth", "Does not expand states deeper than N turns")
}

/// Returns the option for the time.
fn seconds<'a>(alloc: Global) -> Arg<'a> {
    number(
        alloc,
        "seconds",
        "Stops after N seconds, and reports what was found",
    )
}

/// Returns the option for the memory.
fn memory<'a>(alloc: Global) -> Arg<'a> {
    Arg::new(alloc, "memory")
        .long("memory")
        .value_name("MB")
        .help("Stops when the program uses MB megabytes of memory, and reports what was found")
        .value_parser(value_parser!(u64))
}

/// Returns the option for scripts that overwrite files.
fn force<'a>(alloc: Global) -> Arg<'a> {
    Arg::new(alloc, "force")
        .long("force")
        .help("Lets scripts overwrite files that mcslab did not write")
        .action(ArgAction::SetTrue)
}

/// Returns the option for the folder of scripts.
fn scripts<'a>(alloc: Global) -> Arg<'a> {
    Arg::new(alloc, "scripts")
        .long("scripts")
        .value_name("DIR")
        .help("Writes the scripts of steps that show what is reported into this folder")
}

/// Returns the option that asks for a script of each answer.
fn answers<'a>(alloc: Global) -> Arg<'a> {
    Arg::new(alloc, "answers")
        .long("answers")
        .help("Writes a script for each answer, too")
        .action(ArgAction::SetTrue)
}

/// Returns the option for JSON.
fn json<'a>(alloc: Global) -> Arg<'a> {
    Arg::new(alloc, "json")
        .long("json")
        .help("Writes the report as one document of JSON")
        .action(ArgAction::SetTrue)
}

/// Returns the option for numbers as texts; it changes nothing, since no number of a report has
/// more than 53 bits.
fn texts<'a>(alloc: Global) -> Arg<'a> {
    strings(alloc).help("Writes numbers of 64 bits as texts; this report has none")
}

/// Returns the option for exact keys.
pub fn exact<'a>(alloc: Global) -> Arg<'a> {
    Arg::new(alloc, "exact")
        .long("exact")
        .help("Distinguishes states by the numbers of messages and of objects, too")
        .action(ArgAction::SetTrue)
}

/// Returns the command `explore` without options.
fn words<'a>(alloc: Global) -> Words<'a> {
    Words::new(alloc, "explore")
        .about("Goes through all orders of the users of a script")
        .after_help(READS)
}

/// Returns the command `explore` for the parser of the command line.
pub fn command<'a>(alloc: Global, file: Arg<'a>) -> Result<Words<'a>, Error> {
    let words = with(Ok(words(alloc)), states(alloc));
    let words = with(words, depth(alloc));
    let words = with(words, seconds(alloc));
    let words = with(words, memory(alloc));
    let words = with(words, scripts(alloc));
    let words = with(words, force(alloc));
    let words = with(words, answers(alloc));
    let words = with(words, json(alloc));
    let words = with_other(words, texts(alloc), "json");
    let words = with(words, exact(alloc));
    with(words, file)
}

/// Returns what the words of the command line ask for.
pub fn asked<'a>(found: &ArgMatches<'a>) -> Sought<'a> {
    let states: Option<u64> = found.get_one("states");
    let depth: Option<u64> = found.get_one("depth");
    Sought {
        wanted: Wanted {
            states: states.unwrap_or(STATES) as usize,
            depth: depth.unwrap_or(u64::MAX) as usize,
            is_exact: found.get_flag("exact"),
        },
        output: Output {
            with_answers: found.get_flag("answers"),
            is_json: found.get_flag("json"),
        },
        scripts: found.get_str("scripts"),
        is_forced: found.get_flag("force"),
        seconds: found.get_one("seconds"),
        memory: found.get_one("memory"),
    }
}

/// Returns the exit status of a search.
fn status_of(explored: Explored) -> u8
    ensures holds { result ≡ 0 → explored ≡ Explored.Holds }
    ensures fails { result ≡ 1 → explored ≡ Explored.Fails }
{
    match explored {
        Explored::Holds => Outcome::Done.status(),
        Explored::Fails => Outcome::Unmet.status(),
        Explored::Stopped => Outcome::Stopped.status(),
    }
}

/// Reports the progress of a search once a second, and stops it after a time, at a limit of memory,
/// or when the memory that is left suffices for the report alone.
#[derive(Drop)]
struct Meter<'a> {
    rt: &'a HostRuntime,
    /// The start of the search; None if there is no clock, or it is not needed.
    start: Option<Instant>,
    /// Whether the standard error is a terminal.
    is_seen: bool,
    seconds: u64,
    most: Option<u64>,
    /// Whether the reserve of memory was refused.
    is_short: bool,
    /// How many megabytes the program may use, if there is a limit.
    megabytes: Option<u64>,
    /// Whether the program uses as much.
    is_full: bool,
}

/// Returns whether there is memory for a report on so many states.
fn has_reserve(alloc: Global, states: usize) -> bool {
    let bytes = states.saturating_mul(RESERVE_STATE).saturating_add(RESERVE);
    let reserve: Result<Vec<u8>, AllocError> = Vec::with_capacity(alloc, bytes);
    reserve.is_ok()
}

/// Returns how many bytes of memory the program uses; None if the system does not say.
fn used_memory(rt: &HostRuntime) -> Option<u64> {
    let mut file = fs::open(rt, MEMORY_FILE).ok()?;
    let mut bytes = [0; 128];
    let count = file.read(&mut bytes).ok()?;
    let pages = bytes[..count].split(|byte| *byte == b' ').nth(1)?;
    number_of(pages)?.checked_mul(PAGE)
}

/// Returns a number with a comma before each three digits.
fn grouped(alloc: Global, number: usize) -> Result<String, AllocError> {
    let digits = format!(in alloc; "{number}")?;
    let mut text = String::new(alloc);
    let mut left = digits.len();
    for digit in digits.as_bytes() {
        if left % 3 == 0 && !text.is_empty() {
            text.push(',')?;
        }
        text.push(char::from(*digit))?;
        left = left.saturating_sub(1);
    }
    Ok(text)
}

impl<'a> Meter<'a> {
    /// Returns a meter that reports from now on, if the standard error is a terminal, and stops a
    /// search after `most` seconds, or at this many megabytes of memory: after one state if there
    /// is no clock, or the system does not say how much memory is used.
    fn new(rt: &'a HostRuntime, most: Option<u64>, megabytes: Option<u64>) -> Meter<'a> {
        let is_seen = rt.stderr().is_terminal();
        let start = if is_seen || most.is_some() {
            Instant::now(rt).ok()
        } else {
            None
        };
        Meter {
            rt,
            start,
            is_seen,
            seconds: 0,
            most,
            is_short: false,
            megabytes,
            is_full: false,
        }
    }

    /// Returns whether the program uses as much memory as it may.
    fn is_at_limit(&self) -> bool {
        let Some(most) = self.megabytes else {
            return false;
        };
        match used_memory(self.rt) {
            Some(used) => most <= used / MEGABYTE,
            None => true,
        }
    }

    /// Returns the seconds since the start, if a second has passed since the last report.
    fn second(&mut self) -> Option<u64> {
        let passed = self.start?.elapsed(self.rt).ok()?.as_secs();
        if passed <= self.seconds {
            return None;
        }
        self.seconds = passed;
        Some(passed)
    }

    /// Reports the progress of the search. A failed write is ignored.
    fn report(&self, before: usize, depth: usize, seconds: u64) {
        if let Ok(count) = grouped(self.rt.alloc(), before) {
            let _ = eprintln!(self.rt; "{count} states expanded, depth {depth}, {seconds} s");
        }
    }
}

impl Progress for Meter<'_> {
    fn looked(&mut self, before: usize, depth: usize) {
        if before % LOOKS != 0 {
            return;
        }
        self.is_short = !has_reserve(self.rt.alloc(), before);
        self.is_full = self.is_at_limit();
        if let Some(seconds) = self.second()
            && self.is_seen
        {
            self.report(before, depth, seconds);
        }
    }

    fn stop(&self) -> Option<Stop> {
        if self.is_short {
            return Some(Stop::Memory);
        }
        if self.is_full {
            return Some(Stop::MemoryLimit);
        }
        let is_over = match (self.most, &self.start) {
            (None, _) => false,
            (Some(_), None) => true,
            (Some(most), Some(_)) => most <= self.seconds,
        };
        if is_over { Some(Stop::Clock) } else { None }
    }
}

/// A writer that flushes each piece: what a search found is written before its scripts are saved,
/// whatever ends the program then. What cannot be written stays in its buffer, and the last flush
/// reports it.
#[derive(Drop)]
struct Prompt<W> {
    to: W,
}

impl<W: Write> Write for Prompt<W> {
    fn write(&mut self, piece: &[u8]) -> io::Result<usize> {
        let count = self.to.write(piece)?;
        let _ = self.to.flush();
        Ok(count)
    }

    fn flush(&mut self) -> io::Result<()> {
        self.to.flush()
    }
}

/// Explores all orders of a script, and returns the exit status.
pub fn explore<R: Read, W: Write + Drop>(
    rt: &HostRuntime,
    from: &mut Source<R>,
    to: W,
    sought: Sought<'_>,
) -> Result<u8, ExploreFault>
    // proved keys, status 0: a script was read, and all its questions hold in each run of its users
    ensures holds { IfOk result (λ status. status ≡ 0 → HasReadHolding sought.entry.wanted.is_exact
        (R.remaining from.old.reader) (R.remaining from.new.reader)) }
    // and status 1: some run shows why it fails
    ensures fails { IfOk result (λ status. status ≡ 1 → HasReadFailing sought.entry.wanted.is_exact
        (R.remaining from.old.reader) (R.remaining from.new.reader)) }
{
    let mut folder = Folder::new(rt, sought.scripts, sought.is_forced);
    let explored = explore_and_tell(
        rt.alloc(),
        from,
        Prompt { to },
        sought.wanted,
        sought.output,
        &mut folder,
        Meter::new(rt, sought.seconds, sought.memory),
    )?;
    Ok(status_of(explored))
}
