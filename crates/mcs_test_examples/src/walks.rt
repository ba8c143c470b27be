//! Draws runs: whether each replays, and what one shows; and the one run of each of some systems.
use crate::orders::{SCRIPTS, count_steps, holds, is_whole};
use crate::plans::{read_text, script_of};
use mcs_explore_questions::ExploreFault;
use mcs_explore_run::{Chances, Drawn, draw_run, tell_runs};
use mcs_explore_script::read_script;
use mcs_lab_check::LabFault;
use mcs_sim::Source;
use std::fs;
use std::io::Write;

/// How many runs are drawn of each script.
const SEEDS: u64 = 8;

/// How many turns each run makes at most.
const TURNS: u64 = 100;

/// The script of which a run is written out.
const WRITTEN: &str = "programs/restarted.mcs";

/// The scripts for which many runs are reported, and how many.
const SHOWN: &[&str] = &["explore/lost-signal.mcs", "explore/mutex.mcs"];

const RUNS: usize = 200;

/// Small systems of Microkit that have one run each, and the script of each run.
const CASES: &str = "microkit/cases";

/// The runs that were drawn: how many there are, how many turns they have, in how many no turn is
/// possible at the end, of how many the kernel accepts exactly these turns, and in how many each
/// answer is the one after its step.
#[derive(Drop)]
struct Walks {
    count: u64,
    turns: u64,
    over: u64,
    whole: u64,
    checked: u64,
}

/// Draws a run of the script of a file by a seed.
fn drawn(rt: &HostRuntime, path: &str, seed: u64) -> Result<Drawn, ExploreFault> {
    let Ok(file) = fs::open(rt, path) else {
        return Err(ExploreFault::Lab(LabFault::Read));
    };
    let script = read_script(rt.alloc(), &mut Source::new(file))?;
    let run = draw_run(rt.alloc(), &script, b"", seed, TURNS)?;
    Ok(run)
}

/// Reports many runs of the script of a file, and then whether something fails.
fn tell_many<W: Write>(rt: &HostRuntime, to: &mut W, path: &str) -> Result<(), ExploreFault> {
    let Ok(file) = fs::open(rt, path) else {
        return Err(ExploreFault::Lab(LabFault::Read));
    };
    let chances = Chances {
        seed: 1,
        runs: RUNS,
        turns: TURNS,
    };
    writeln!(to, "# runs of {path}")?;
    let fails = tell_runs(rt.alloc(), &mut Source::new(file), chances, to)?;
    writeln!(to, "{}", if fails { "a run fails" } else { "no run fails" })?;
    Ok(())
}

impl Walks {
    /// Counts a run.
    fn note(&mut self, rt: &HostRuntime, run: &Drawn) -> Result<(), LabFault> {
        let is_long = count_steps(&run.text) as u64 == run.turns;
        let whole = is_long && is_whole(rt.alloc(), &run.text);
        self.count = self.count.saturating_add(1);
        self.turns = self.turns.saturating_add(run.turns);
        self.over = self.over.saturating_add(u64::from(run.is_over));
        self.whole = self.whole.saturating_add(u64::from(whole));
        let checked = holds(rt.alloc(), &run.text)?;
        self.checked = self.checked.saturating_add(u64::from(checked));
        Ok(())
    }
}

/// Returns the script of the run of a system, the plan before a line `---`.
fn run_of(rt: &HostRuntime, case: &str) -> Result<String, ExploreFault> {
    let plan = case.split("---\n").next().unwrap_or("");
    let text = script_of(rt.alloc(), plan.as_bytes())?;
    let script = read_script(rt.alloc(), &mut Source::new(text.as_bytes()))?;
    let run = draw_run(rt.alloc(), &script, b"", 1, TURNS)?;
    Ok(String::from_utf8_lossy(rt.alloc(), &run.text)?)
}

/// Compares the run of each small system with the one that is kept.
fn compare_cases<W: Write>(rt: &HostRuntime, to: &mut W) -> Result<(), ExploreFault> {
    let cases = read_text(rt, format!(in rt.alloc(); "{CASES}.txt")?.as_str())?;
    let kept = read_text(rt, format!(in rt.alloc(); "{CASES}.told")?.as_str())?;
    let mut kept = kept.split("%%%\n");
    let mut count: usize = 0;
    for case in cases.split("%%%\n") {
        let run = run_of(rt, case)?;
        if kept.next() == Some(run.as_str()) {
            count = count.saturating_add(1);
        } else {
            writeln!(to, "# NOT AS KEPT: {run}")?;
        }
    }
    writeln!(to, "# {CASES}.txt: {count} as kept")?;
    Ok(())
}

/// Draws runs of all scripts of users, and writes how they replay; then writes one run, reports
/// many of two scripts, and compares the runs of small systems.
pub fn draw_walks<W: Write>(rt: &HostRuntime, to: &mut W) -> Result<(), ExploreFault> {
    let mut walks = Walks {
        count: 0,
        turns: 0,
        over: 0,
        whole: 0,
        checked: 0,
    };
    for path in SCRIPTS {
        for seed in 0..SEEDS {
            walks.note(rt, &drawn(rt, path, seed)?)?;
        }
    }
    let Walks {
        count,
        turns,
        over,
        whole,
        checked,
    } = walks;
    writeln!(
        to,
        "of {count} runs of {turns} turns {over} are over, {whole} replayed whole, {checked} checked"
    )?;
    to.write_all(&drawn(rt, WRITTEN, 1)?.text)?;
    for path in SHOWN {
        tell_many(rt, to, path)?;
    }
    compare_cases(rt, to)
}
