//! What the program reports of its faults, its arguments and its command line.
use mcs_command_line::{Options, Task, answer_status, arguments, options};
use mcs_sim::SimFault;
use mcs_text::LineFault;
use std::alloc::Global;
use std::env::{Env, FillError};
use std::test::Fail;

/// The faults of a line, by their numbers from 1.
const LINE_FAULTS: &[LineFault] = &[
    LineFault::NoCores,
    LineFault::Form,
    LineFault::Number,
    LineFault::NoObject,
    LineFault::Limit,
    LineFault::Taken,
    LineFault::LongLine,
    LineFault::LateBoot,
    LineFault::ManyLines,
];

/// Other faults, their statuses and their texts.
const FAULTS: &[(SimFault, u8, &str)] = &[
    (SimFault::Argument, 1, "mcssim: an argument is not UTF-8"),
    (SimFault::Read, 3, "mcssim: read fault"),
    (SimFault::Write, 4, "mcssim: write fault"),
    (SimFault::BookFull, 5, "mcssim: book full"),
    (SimFault::OutOfMemory, 6, "mcssim: out of memory"),
    (SimFault::Failed, 7, "mcssim: run failed"),
    (SimFault::NotStarted, 7, "mcssim: run failed"),
];

/// Returns whether a fault has this status and this text.
fn is_reported(alloc: Global, fault: SimFault, status: u8, text: &str) -> Result<bool, Fail> {
    Ok(fault.status() == status && fault.to_string(alloc)?.as_str() == text)
}

/// Returns whether a fault of a line has this number, and is reported with it.
fn is_numbered(alloc: Global, why: LineFault, number: usize) -> Result<bool, Fail> {
    for line in [1, 37, 2_000_001] {
        let text = format!(in alloc; "mcssim: line {line}: fault {number}")?;
        let fault = SimFault::Script { line, why };
        if !is_reported(alloc, fault, 2, text.as_str())? {
            return Ok(false);
        }
    }
    Ok(why.number() as usize == number)
}

#[test]
fn faults_are_reported(rt: HostRuntime) -> Result<(), Fail> {
    for (i, why) in LINE_FAULTS.iter().enumerate() {
        assert!(rt;
            is_numbered(rt.alloc(), *why, i.saturating_add(1))?,
            "fault {i}"
        );
    }
    for &(fault, status, text) in FAULTS {
        assert!(rt; is_reported(rt.alloc(), fault, status, text)?, "{text}");
    }
    Ok(())
}

/// An environment with these arguments.
#[derive(Drop)]
struct Given<'a> {
    arguments: &'a [&'a [u8]],
}

impl<'a> Env for Given<'a> {
    fn arg(&self, i: usize, buf: &mut [u8]) -> Result<usize, FillError> {
        let Some(argument) = self.arguments.get(i) else {
            return Err(FillError::NotPresent);
        };
        let length = argument.len();
        if length > buf.len() {
            return Err(FillError::TooLong);
        }
        buf[..length].copy_from_slice(argument);
        Ok(length)
    }

    fn var(&self, _name: &str, _buf: &mut [u8]) -> Result<usize, FillError> {
        Err(FillError::NotPresent)
    }

    fn var_at(&self, _i: usize, _buf: &mut [u8]) -> Result<usize, FillError> {
        Err(FillError::NotPresent)
    }
}

/// Returns whether these two arguments are words, of which the second asks for a replay.
fn asks_replay(alloc: Global, given: &[&[u8]]) -> Result<bool, SimFault> {
    match arguments(&(Given { arguments: given }, alloc)) {
        Ok(words) => Ok(words.len() == 2 && words[1].as_str() == "replay"),
        Err(fault) => Err(fault),
    }
}

#[test]
fn an_argument_that_is_no_text_is_a_fault(rt: HostRuntime) {
    assert!(rt; asks_replay(rt.alloc(), &[b"mcssim", b"replay"]) == Ok(true));
    let observed = asks_replay(rt.alloc(), &[b"mcssim", b"\xff"]);
    assert!(rt; observed == Err(SimFault::Argument));
}

/// Command lines, and their results: a command, with a number of cores, with `explain`, and with
/// the file after `<`; or an error or help with this status and text.
const LINES: &str = "\
mcssim replay = replay
mcssim replay -- = replay
mcssim replay a.mcs = replay < a.mcs
mcssim replay - = replay
mcssim replay -- - = replay
mcssim replay -- -a.mcs = replay < -a.mcs
mcssim replay -- -- = replay < --
mcssim replay help = replay < help
mcssim replay --explain = replay explain
mcssim replay --explain a.mcs = replay explain < a.mcs
mcssim replay a.mcs --explain -- = replay explain < a.mcs
mcssim replay --explain -- --explain = replay explain < --explain
mcssim run = run
mcssim run --cores 1 = run 1
mcssim run --cores 16 = run 16
mcssim run --cores=2 = run 2
mcssim run 3 = run < 3
mcssim run --cores 2 a.mcs = run 2 < a.mcs
mcssim run a.mcs --cores 2 = run 2 < a.mcs
mcssim run a.mcs --explain --cores=2 = run 2 explain < a.mcs
mcssim run --explain --cores 2 -- a.mcs = run 2 explain < a.mcs
mcssim --version = 0 mcssim 0.1.0
mcssim --help = 0 replay
mcssim replay --help = 0 FILE
mcssim run a.mcs -h = 0 FILE
mcssim = 1
mcssim again = 1
mcssim -- replay = 1
mcssim replay a.mcs b.mcs = 1 unexpected argument 'b.mcs' found
mcssim replay - - = 1 unexpected argument '-' found
mcssim replay -- a.mcs b.mcs = 1 unexpected argument 'b.mcs' found
mcssim replay -a.mcs = 1 unexpected argument '-a' found
mcssim replay --explain --explain = 1
mcssim replay --explain=yes = 1
mcssim replay --cores 2 = 1 unexpected argument '--cores' found
mcssim run --cores 0 = 1 0 is not in 1..=16
mcssim run --cores 17 = 1 17 is not in 1..=16
mcssim run --cores x = 1 invalid digit found in string
mcssim run --cores = 1 a value is required for '--cores <N>'
mcssim run --cores -- 2 = 1 a value is required for '--cores <N>'
mcssim run --cores 2 --cores 2 = 1
mcssim run a.mcs --cores 2 b.mcs = 1 unexpected argument 'b.mcs' found
";

/// Returns whether a text contains a part; for the version the part is all of it.
fn is_said(text: &str, part: &str) -> bool {
    if part == "mcssim 0.1.0" {
        text == "mcssim 0.1.0\n"
    } else {
        text.contains(part)
    }
}

/// Returns the task that the table names.
fn task(observed: &str) -> Option<Task> {
    if observed == "replay" {
        return Some(Task::Replay);
    }
    let cores = observed.strip_prefix("run")?.trim_start().parse().ok();
    Some(Task::Run { cores })
}

/// Returns whether options are those that the table names.
fn is_asked(asked: &Options<'_>, want: &str) -> bool {
    let (observed, file) = match want.split_once(" < ") {
        Some((observed, file)) => (observed, Some(file)),
        None => (want, None),
    };
    let (observed, explain) = match observed.strip_suffix(" explain") {
        Some(observed) => (observed, true),
        None => (observed, false),
    };
    task(observed) == Some(asked.task) && asked.file == file && asked.explain == explain
}

/// Returns whether a command line has this result.
fn comes(alloc: Global, words: &[&str], want: &str) -> Result<bool, Fail> {
    let answer = match options(alloc, words) {
        Ok(asked) => return Ok(is_asked(&asked, want)),
        Err(answer) => answer,
    };
    let (status, rest) = want.split_once(' ').unwrap_or((want, ""));
    let text = answer.to_string(alloc)?;
    let status = status.parse::<u8>().unwrap_or(u8::MAX);
    Ok(answer_status(&answer) == status && is_said(text.as_str(), rest))
}

/// Returns whether a line holds.
fn is_answered(alloc: Global, line: &str) -> Result<bool, Fail> {
    let Some((given, want)) = line.split_once(" = ") else {
        return Ok(false);
    };
    let words: Vec<&str> = given.split_whitespace().collect(alloc)?;
    comes(alloc, &words, want)
}

#[test]
fn command_lines_are_answered(rt: HostRuntime) -> Result<(), Fail> {
    for line in LINES.lines() {
        assert!(rt; is_answered(rt.alloc(), line)?, "{line}");
    }
    Ok(())
}
