//! Explores the scripts of users in `examples/explore/`, `examples/programs/` and
//! `examples/microkit/`: their reports, and whether the saved scripts replay.
use crate::walks::draw_walks;
use mcs_explore_questions::ExploreFault;
use mcs_explore_report::{Output, Saves, UserScript, Wanted, explore_script};
use mcs_lab_check::{LabFault, check};
use mcs_sim::{ReplayRun, Source};
use std::alloc::Global;
use std::fs;
use std::io::Write;

/// The scripts to explore.
pub const SCRIPTS: &[&str] = &[
    "explore/late-pick.mcs",
    "explore/suspended-calls.mcs",
    "explore/lost-signal.mcs",
    "explore/mutex.mcs",
    "explore/no-mutex.mcs",
    "explore/dining.mcs",
    "explore/dining-mended.mcs",
    "explore/moves.mcs",
    "explore/slots.mcs",
    "explore/prio.mcs",
    "explore/bound.mcs",
    "explore/named-message.mcs",
    "explore/named-object.mcs",
    "explore/made-objects.mcs",
    "explore/made.mcs",
    "explore/made-waits.mcs",
    "explore/part.mcs",
    "explore/disk-log.mcs",
    "explore/schedule-serial.mcs",
    "explore/schedule-equal.mcs",
    "explore/schedule-any.mcs",
    "explore/resumed-calls.mcs",
    "programs/lock.mcs",
    "programs/lock-twice.mcs",
    "programs/labels.mcs",
    "programs/files.mcs",
    "programs/files-closed.mcs",
    "programs/microkit.mcs",
    "programs/microkit-lost.mcs",
    "programs/retry.mcs",
    "programs/retry-forever.mcs",
    "programs/restarted.mcs",
    "microkit/files.mcs",
    "microkit/files-call-back.mcs",
    "microkit/files-notified.mcs",
];

/// Scripts that are explored also with exact keys.
const EXACT: &[&str] = &[
    "explore/moves.mcs",
    "explore/slots.mcs",
    "explore/prio.mcs",
    "explore/bound.mcs",
    "explore/made-objects.mcs",
    "explore/made.mcs",
    "explore/made-waits.mcs",
];

/// Scripts of users that make objects, each sensitive to something that a key might leave out
/// (`tests/canonical.py`): they are explored both ways.
const MADE: &[&str] = &[
    "explore/made-awaited.mcs",
    "explore/made-badge.mcs",
    "explore/made-bound.mcs",
    "explore/made-chain.mcs",
    "explore/made-context.mcs",
    "explore/made-core.mcs",
    "explore/made-guard-bits.mcs",
    "explore/made-guard.mcs",
    "explore/made-home.mcs",
    "explore/made-kind.mcs",
    "explore/made-late-pick.mcs",
    "explore/made-letter.mcs",
    "explore/made-mode.mcs",
    "explore/made-prio.mcs",
    "explore/made-queue.mcs",
    "explore/made-replies.mcs",
    "explore/made-rights.mcs",
    "explore/made-slot.mcs",
    "explore/made-turns.mcs",
    "explore/made-twice.mcs",
    "explore/made-waited.mcs",
    "explore/made-word.mcs",
    "explore/made-words.mcs",
];

/// A script that is also reported as JSON: its ends name objects made by users by slots.
const AS_JSON: &str = "explore/made-waits.mcs";

/// How many budgets of states are tried with each script, counted up from one.
const BUDGETS: usize = 24;

/// Scripts, and lines to append, each separately: questions and lines of programs, most with a
/// fault.
const ASKED: &[(&str, &str)] = &[
    ("explore/asked.mcs", "explore/questions.txt"),
    ("programs/faults.mcs", "programs/faults.txt"),
];

/// A boot, and after each line `%` random entries or programs of its users, made by
/// `tests/random-orders.py --data` and `--programs --data`.
const RANDOM: &[&str] = &["explore/random.txt", "programs/random.txt"];

/// Counts of the saved scripts: all; those whose every step the kernel accepts; those in which each
/// expected answer (the line after its step) holds; and the steps of all.
#[derive(Drop)]
struct Replayed {
    count: u64,
    whole: u64,
    checked: u64,
    steps: usize,
}

/// Returns how many steps a script has: lines that begin with a digit.
pub fn count_steps(text: &[u8]) -> usize {
    let mut count: usize = 0;
    let mut is_first = true;
    for byte in text {
        if is_first && byte.is_ascii_digit() {
            count = count.saturating_add(1);
        }
        is_first = *byte == b'\n';
    }
    count
}

/// Returns whether a replay of a script accepts each of its steps.
pub fn is_whole(alloc: Global, text: &[u8]) -> bool {
    let Ok(mut run) = ReplayRun::new(alloc) else {
        return false;
    };
    if run.feed(alloc, text).is_err() || run.end(alloc).is_err() {
        return false;
    }
    match run.book() {
        Some(book) => book.lines() == count_steps(text).saturating_add(1),
        None => false,
    }
}

/// Returns whether the answers in a script hold.
pub fn holds(alloc: Global, text: &[u8]) -> Result<bool, LabFault> {
    let mut report = Vec::new(alloc);
    let all_hold = check(alloc, &mut Source::new(text), &mut report)?;
    Ok(all_hold && report.len() > count_steps(text))
}

impl Saves for Replayed {
    fn wants(&self) -> bool {
        true
    }

    fn save(
        &mut self,
        alloc: Global,
        _script: &UserScript,
        _name: &str,
        text: &[u8],
    ) -> Result<(), LabFault> {
        self.count = self.count.saturating_add(1);
        self.steps = self.steps.saturating_add(count_steps(text));
        if is_whole(alloc, text) {
            self.whole = self.whole.saturating_add(1);
        }
        if holds(alloc, text)? {
            self.checked = self.checked.saturating_add(1);
        }
        Ok(())
    }
}

/// Returns the limits of a search; `is_exact` chooses its keys.
pub fn wanted(is_exact: bool) -> Wanted {
    Wanted {
        states: 10_000,
        depth: 1_000,
        is_exact,
    }
}

/// The form of the report.
const OUTPUT: Output = Output {
    with_answers: true,
    is_json: false,
};

/// Explores the script of a file.
fn explore_file<W: Write + Drop>(
    rt: &HostRuntime,
    to: &mut W,
    path: &str,
    is_exact: bool,
) -> Result<(), ExploreFault> {
    let mode = if is_exact { ", exact" } else { "" };
    writeln!(to, "# {path}{mode}")?;
    let Ok(file) = fs::open(rt, path) else {
        return Err(ExploreFault::Lab(LabFault::Read));
    };
    let mut replayed = Replayed {
        count: 0,
        whole: 0,
        checked: 0,
        steps: 0,
    };
    let explored = explore_script(
        rt.alloc(),
        &mut Source::new(file),
        &mut *to,
        wanted(is_exact),
        OUTPUT,
        &mut replayed,
    )?;
    let word = explored.text();
    let Replayed {
        count,
        whole,
        checked,
        steps,
    } = replayed;
    writeln!(
        to,
        "{word}; of {count} scripts of {steps} steps {whole} replayed whole, {checked} checked"
    )?;
    Ok(())
}

/// Explores the script of a file, and reports it as JSON.
fn explore_json<W: Write + Drop>(
    rt: &HostRuntime,
    to: &mut W,
    path: &str,
) -> Result<(), ExploreFault> {
    writeln!(to, "# {path}, json")?;
    let Ok(file) = fs::open(rt, path) else {
        return Err(ExploreFault::Lab(LabFault::Read));
    };
    let output = Output {
        is_json: true,
        ..OUTPUT
    };
    explore_script(
        rt.alloc(),
        &mut Source::new(file),
        &mut *to,
        wanted(false),
        output,
        &mut Nowhere,
    )?;
    Ok(())
}

/// Keeps no script.
#[derive(Drop)]
struct Nowhere;

impl Saves for Nowhere {
    fn wants(&self) -> bool {
        false
    }

    fn save(
        &mut self,
        _alloc: Global,
        _script: &UserScript,
        _name: &str,
        _text: &[u8],
    ) -> Result<(), LabFault> {
        Ok(())
    }
}

/// Returns whether a line is about an end, stuck users or a question.
fn is_reported(line: &[u8]) -> bool {
    line.starts_with(b"end") || line.starts_with(b"stuck") || line.starts_with(b"question")
}

/// Appends a question to a script, explores it, and writes the lines about questions, the verdict
/// and the exit status.
fn ask<W: Write>(
    alloc: Global,
    to: &mut W,
    script: &[u8],
    question: &[u8],
) -> Result<(), ExploreFault> {
    let mut text = Vec::from_slice(alloc, script)?;
    text.extend_from_slice(question)?;
    let mut report: Vec<u8> = Vec::new(alloc);
    let explored = explore_script(
        alloc,
        &mut Source::new(text.as_slice()),
        &mut report,
        wanted(false),
        OUTPUT,
        &mut Nowhere,
    );
    match explored {
        Ok(_) => {
            for line in report.split(|byte| *byte == b'\n') {
                if is_reported(line) {
                    to.write_all(line)?;
                    to.write_all(b"\n")?;
                }
            }
        }
        Err(fault) => writeln!(to, "{fault}")?,
    }
    Ok(())
}

/// Asks each question in the file of a script.
fn ask_all<W: Write>(
    rt: &HostRuntime,
    to: &mut W,
    script: &str,
    questions: &str,
) -> Result<(), ExploreFault> {
    let (Ok(script), Ok(questions)) = (fs::read(rt, script), fs::read(rt, questions)) else {
        return Err(ExploreFault::Lab(LabFault::Read));
    };
    for question in questions.split(|byte| *byte == b'%') {
        to.write_all(b"# asked: ")?;
        to.write_all(question)?;
        ask(rt.alloc(), to, script.as_slice(), question)?;
    }
    Ok(())
}

/// Returns the report on a script.
pub fn report_on(alloc: Global, script: &[u8], wanted: Wanted) -> Result<Vec<u8>, ExploreFault> {
    let mut report: Vec<u8> = Vec::new(alloc);
    explore_script(
        alloc,
        &mut Source::new(script),
        &mut report,
        wanted,
        OUTPUT,
        &mut Nowhere,
    )?;
    Ok(report)
}

/// Writes the first line of a report: how many states, turns and ends were found.
fn write_counts<W: Write>(to: &mut W, report: &[u8]) -> Result<(), ExploreFault> {
    if let Some(line) = report.split(|byte| *byte == b'\n').next() {
        to.write_all(line)?;
    }
    to.write_all(b"\n")?;
    Ok(())
}

/// Explores the script of a file, by default and with exact keys, and writes the counts.
fn explore_made<W: Write>(rt: &HostRuntime, to: &mut W, path: &str) -> Result<(), ExploreFault> {
    writeln!(to, "# {path}")?;
    let Ok(script) = fs::read(rt, path) else {
        return Err(ExploreFault::Lab(LabFault::Read));
    };
    write_counts(to, &report_on(rt.alloc(), &script, wanted(false))?)?;
    write_counts(to, &report_on(rt.alloc(), &script, wanted(true))?)
}

/// Returns the part of a line that is compared: of an end its kind, not its count.
fn compared(line: &[u8]) -> &[u8] {
    if line.starts_with(b"end ") {
        match line.iter().position(|byte| *byte == b',') {
            Some(comma) => line.get(..comma).unwrap_or(line),
            None => line,
        }
    } else {
        line
    }
}

/// Returns whether two reports are the same but for their first lines and how often ends come.
fn are_alike(one: &[u8], other: &[u8]) -> bool {
    let mut left = one.split(|byte| *byte == b'\n');
    let mut right = other.split(|byte| *byte == b'\n');
    for number in 0..=one.len() {
        let Some(line) = left.next() else {
            return right.next().is_none();
        };
        let Some(twin) = right.next() else {
            return false;
        };
        if number > 0 && compared(line) != compared(twin) {
            return false;
        }
    }
    false
}

/// Explores random scripts, by default and with exact keys, and writes how many reports are alike.
fn explore_random<W: Write>(rt: &HostRuntime, to: &mut W, path: &str) -> Result<(), ExploreFault> {
    let Ok(text) = fs::read(rt, path) else {
        return Err(ExploreFault::Lab(LabFault::Read));
    };
    let mut parts = text.split(|byte| *byte == b'%');
    let boot = parts.next().unwrap_or(b"");
    let mut count: u64 = 0;
    let mut alike: u64 = 0;
    for users in parts {
        let mut script = Vec::from_slice(rt.alloc(), boot)?;
        script.extend_from_slice(users)?;
        let report = report_on(rt.alloc(), &script, wanted(false))?;
        let exact = report_on(rt.alloc(), &script, wanted(true))?;
        count = count.saturating_add(1);
        alike = alike.saturating_add(u64::from(are_alike(&report, &exact)));
    }
    writeln!(
        to,
        "of {count} random scripts {alike} have the same report with exact keys"
    )?;
    Ok(())
}

/// Returns the first number of a report: how many states were found.
fn states_in(report: &[u8]) -> usize {
    let mut count: usize = 0;
    for byte in report {
        if byte.is_ascii_digit() {
            let digit = usize::from(byte.saturating_sub(b'0'));
            count = count.saturating_mul(10).saturating_add(digit);
        } else if count > 0 {
            break;
        }
    }
    count
}

/// Explores each script with several budgets of states, and writes how many searches used the whole
/// budget, and how many exceeded it.
fn explore_budgets<W: Write>(rt: &HostRuntime, to: &mut W) -> Result<(), ExploreFault> {
    let mut count: u64 = 0;
    let mut full: u64 = 0;
    let mut beyond: u64 = 0;
    for &path in SCRIPTS {
        let Ok(script) = fs::read(rt, path) else {
            return Err(ExploreFault::Lab(LabFault::Read));
        };
        for states in 1..=BUDGETS {
            let budget = Wanted {
                states,
                ..wanted(false)
            };
            let found = states_in(&report_on(rt.alloc(), &script, budget)?);
            count = count.saturating_add(1);
            full = full.saturating_add(u64::from(found == states));
            beyond = beyond.saturating_add(u64::from(found > states));
        }
    }
    writeln!(
        to,
        "of {count} searches with a budget of states {full} found as many, and {beyond} more"
    )?;
    Ok(())
}

/// Explores all scripts, also with budgets, and random ones, draws runs, and asks all questions.
fn try_all<W: Write + Drop>(rt: &HostRuntime, to: &mut W) -> Result<(), ExploreFault> {
    for &path in SCRIPTS {
        explore_file(rt, to, path, false)?;
    }
    for &path in EXACT {
        explore_file(rt, to, path, true)?;
    }
    for &path in MADE {
        explore_made(rt, to, path)?;
    }
    explore_json(rt, to, AS_JSON)?;
    explore_budgets(rt, to)?;
    draw_walks(rt, to)?;
    for &(script, questions) in ASKED {
        ask_all(rt, to, script, questions)?;
    }
    for &path in RANDOM {
        explore_random(rt, to, path)?;
    }
    Ok(())
}

/// Explores all scripts and random ones, and asks all questions. A fault is written in place of the
/// rest.
pub fn explore_all<W: Write + Drop>(rt: &HostRuntime, to: &mut W) -> Result<(), LabFault> {
    if let Err(fault) = try_all(rt, to) {
        writeln!(to, "{fault}")?;
        return Err(LabFault::Read);
    }
    Ok(())
}
