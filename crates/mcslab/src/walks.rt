//! Random runs of the users of a script, as the command line asks for them.
ghost use Rattle.std.specs.Prelude.{◌≡◌, ◌⊎◌, IfOk, if◌then◌else◌};
ghost use Rattle.mcs_explore_run.specs.Samples.{HasReadFailing};

use crate::command_line::with;
use crate::orders::number;
use clap::builder::ValueParser;
use clap::{Arg, ArgMatches, Command as Words, Error};
use mcs_explore_questions::ExploreFault;
use mcs_explore_run::{Chances, Drawn, draw_run, tell_runs};
use mcs_explore_script::read_script;
use mcs_lab_check::Outcome;
use mcs_sim::Source;
use std::alloc::{AllocError, Global};
use std::io::{Read, Write};

/// The seed, if nothing else is said.
const SEED: u64 = 1;

/// How many turns a run makes at most, if nothing else is said.
const TURNS: u64 = 1_000;

/// The seed by which turns are drawn, how many at most, and how many runs are reported on; None if
/// one is written.
#[derive(Clone, Copy)]
pub struct Chance {
    pub seed: u64,
    pub turns: u64,
    pub runs: Option<u64>,
}

/// How the run ends, and what to do with it.
const ENDS: &str = "\
Each turn is drawn among those that are possible; the same seed gives the same run. The script that is written
shows this one run: it says nothing of other orders. Its last line says whether a turn is possible at its end.
`mcslab state --stuck` reports who is stuck there, `mcslab draw` draws it, and `mcslab explore` goes through all orders.

With --runs N it draws the runs of N seeds, one after the other, and reports how they end, what each entry was
answered, and which questions failed, each with the seed of the first run that shows it: `--seed` with that seed,
and the same --turns, writes this run. The status is 1 if something failed, and else 3: there may be other orders.

`mcslab --help` has the exit statuses.";

/// Returns the command `walk` without options.
fn words<'a>(alloc: Global) -> Words<'a> {
    Words::new(alloc, "walk")
        .about("Takes orders of the users of a script by chance: writes one, or reports on many")
        .after_help(ENDS)
}

/// Returns the option for the seed.
fn seed<'a>(alloc: Global) -> Arg<'a> {
    number(alloc, "seed", "By which seed turns are drawn [default: 1]")
}

/// Returns the option for the most turns.
fn turns<'a>(alloc: Global) -> Arg<'a> {
    number(
        alloc,
        "turns",
        "How many turns are made at most [default: 1000]",
    )
}

/// Returns the option for the number of runs.
fn runs<'a>(alloc: Global) -> Arg<'a> {
    Arg::new(alloc, "runs")
        .long("runs")
        .value_name("N")
        .help("Reports on so many runs, by this seed and those after it")
        .value_parser(ValueParser::unsigned(1, u64::MAX))
}

/// Returns the command `walk` for the parser of the command line.
pub fn command<'a>(alloc: Global, file: Arg<'a>) -> Result<Words<'a>, Error> {
    let words = with(Ok(words(alloc)), seed(alloc));
    let words = with(words, turns(alloc));
    let words = with(words, runs(alloc));
    with(words, file)
}

/// Returns what the words of the command line ask for.
pub fn asked(found: &ArgMatches<'_>) -> Chance {
    let seed: Option<u64> = found.get_one("seed");
    let turns: Option<u64> = found.get_one("turns");
    Chance {
        seed: seed.unwrap_or(SEED),
        turns: turns.unwrap_or(TURNS),
        runs: found.get_one("runs"),
    }
}

/// Returns the line that ends the script of a run.
fn last_line(alloc: Global, drawn: &Drawn) -> Result<String, AllocError> {
    let turns = drawn.turns;
    let end = if drawn.is_over {
        "no turn is possible here"
    } else {
        "stopped here by --turns"
    };
    format!(in alloc; "# after {turns} turns: {end}\n")
}

/// Draws a run of the users of a script, and writes its script.
fn write_run<R: Read, W: Write>(
    alloc: Global,
    from: &mut Source<R>,
    to: &mut W,
    chance: Chance,
) -> Result<(), ExploreFault> {
    let Chance { seed, turns, .. } = chance;
    let script = read_script(alloc, from)?;
    let comment = format!(in alloc; "# by mcslab walk --seed {seed}\n")?;
    let drawn = draw_run(alloc, &script, comment.as_bytes(), seed, turns)?;
    to.write_all(&drawn.text)?;
    to.write_all(last_line(alloc, &drawn)?.as_bytes())?;
    Ok(())
}

/// Returns the exit status for runs that show a failure, or none: they never show that all is well.
fn status_of(fails: bool) -> u8
    ensures { result ≡ (if fails then 1 else 3) }
{
    if fails {
        Outcome::Unmet.status()
    } else {
        Outcome::Stopped.status()
    }
}

/// Draws runs of the users of a script, reports on them, and returns the exit status.
fn report_runs<R: Read, W: Write>(
    alloc: Global,
    from: &mut Source<R>,
    to: &mut W,
    chances: Chances,
) -> Result<u8, ExploreFault>
    // status 1: a script was read, and some run of it shows the failure
    ensures fails { IfOk result (λ status. status ≡ 1
        → HasReadFailing (R.remaining from.old.reader) (R.remaining from.new.reader)) }
    // else it is 3: random runs never show that all is well
    ensures unsure { IfOk result (λ status. (status ≡ 1) ⊎ (status ≡ 3)) }
{
    let fails = tell_runs(alloc, from, chances, to)?;
    Ok(status_of(fails))
}

/// Draws one run of the users of a script, and writes its script; or draws many, and reports on
/// them. Returns the exit status.
pub fn walk<R: Read, W: Write>(
    alloc: Global,
    from: &mut Source<R>,
    to: &mut W,
    chance: Chance,
) -> Result<u8, ExploreFault> {
    let Chance { seed, turns, runs } = chance;
    match runs {
        None => {
            write_run(alloc, from, to, chance)?;
            Ok(Outcome::Done.status())
        }
        Some(runs) => {
            let runs = runs as usize;
            report_runs(alloc, from, to, Chances { seed, runs, turns })
        }
    }
}
