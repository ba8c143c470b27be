//! The commands of `mcslab` that read a script, and what comes of them.
use crate::orders::{report_on, wanted};
use mcs_explore_questions::ExploreFault;
use mcs_explore_run::draw_run;
use mcs_explore_script::read_script;
use mcs_lab_check::{LabFault, Outcome, check};
use mcs_lab_inspect::{Numbers, Wanted, explain, show_state, write_json};
use mcs_lab_render::{Asked, Format, draw_script};
use mcs_plan_words::{RangeFault, Steps, beyond, crossed};
use mcs_sim::Source;
use std::alloc::Global;
use std::io::Write;

/// A command, with the lines that it names.
#[derive(Clone, Copy)]
pub enum Command {
    Check,
    Why,
    State(Option<u64>),
    Json,
    Draw(Option<u64>, Option<u64>),
    Explore,
    Walk,
    Compile,
}

impl Command {
    /// Returns whether it reads users, not steps.
    pub fn reads_users(self) -> bool {
        match self {
            Command::Explore | Command::Walk => true,
            Command::Check
            | Command::Why
            | Command::State(_)
            | Command::Json
            | Command::Draw(_, _)
            | Command::Compile => false,
        }
    }

    /// Returns the lines that it names.
    fn lines(self) -> (Option<u64>, Option<u64>) {
        match self {
            Command::State(at) => (at, None),
            Command::Draw(from, to) => (from, to),
            Command::Check
            | Command::Why
            | Command::Json
            | Command::Explore
            | Command::Walk
            | Command::Compile => (None, None),
        }
    }

    /// Returns why it is refused before its file is read, if it is.
    pub fn crossed(self) -> Option<RangeFault> {
        let (from, to) = self.lines();
        crossed(from, to)
    }

    /// Returns why it is refused for a plan with this many lines, if it is.
    pub fn beyond(self, count: u64) -> Option<RangeFault> {
        let (one, other) = self.lines();
        beyond(one, other, count)
    }
}

/// How many turns a run makes at most.
const TURNS: u64 = 1_000;

/// Returns what is shown of the state after a line.
fn state_at(at: Option<u64>) -> Wanted {
    Wanted {
        at,
        stuck: false,
        json: false,
        numbers: Numbers::Integers,
    }
}

/// Draws a script, or the steps between two lines of its file; reports where there are none.
/// Returns the exit status.
fn draw<W: Write>(
    alloc: Global,
    to: &mut W,
    script: &[u8],
    numbers: &[u64],
    lines: (Option<u64>, Option<u64>),
) -> Result<u8, LabFault> {
    let (first, last) = lines;
    if first.is_some() || last.is_some() {
        let steps = Steps::read(alloc, &mut Source::new(script))?;
        if steps.between(numbers, first, last).is_none() {
            let fault = RangeFault::Idle;
            writeln!(to, "{fault}")?;
            return Ok(Outcome::Call.status());
        }
    }
    let asked = Asked::whole(Format::Svg);
    draw_script(
        alloc,
        &mut Source::new(script),
        &mut Vec::new(alloc),
        &asked,
    )?;
    Ok(Outcome::Done.status())
}

/// Draws a run of the users of a script.
fn walk(alloc: Global, script: &[u8]) -> Result<bool, ExploreFault> {
    let script = read_script(alloc, &mut Source::new(script))?;
    draw_run(alloc, &script, b"", 1, TURNS)?;
    Ok(true)
}

/// Goes through the orders of the users of a script.
fn explore(alloc: Global, script: &[u8]) -> Result<bool, ExploreFault> {
    report_on(alloc, script, wanted(false))?;
    Ok(true)
}

/// Returns the exit status of a command after which all that was wanted holds, or not.
fn status_if(holds: bool) -> u8 {
    if holds {
        Outcome::Done.status()
    } else {
        Outcome::Unmet.status()
    }
}

/// Performs a command on a script whose lines have these numbers in its file, writes what it
/// reports but no fault of the script, and returns the exit status.
pub fn perform<W: Write>(
    alloc: Global,
    to: &mut W,
    command: Command,
    script: &[u8],
    numbers: &[u64],
) -> Result<u8, ExploreFault> {
    let mut source = Source::new(script);
    let mut page = Vec::new(alloc);
    let holds = match command {
        Command::Check => check(alloc, &mut source, &mut page)?,
        Command::Why => explain(alloc, &mut source, &mut page)?,
        Command::State(at) => show_state(alloc, &mut source, &mut page, state_at(at))?,
        Command::Json => write_json(alloc, &mut source, &mut page, Numbers::Integers)?,
        Command::Draw(from, last) => return Ok(draw(alloc, to, script, numbers, (from, last))?),
        Command::Explore => explore(alloc, script)?,
        Command::Walk => walk(alloc, script)?,
        Command::Compile => true,
    };
    Ok(status_if(holds))
}
