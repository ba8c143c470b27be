//! Many runs, each with its own seed, and what is collected of them.
ghost use Rattle.std.specs.Prelude.{◌≡◌, IfOk, OnOk};
ghost use Rattle.mcs_explore_run.specs.Samples.{IsKeptOfRuns, SeesRuns};

use crate::run::make_turns;
use mcs_explore_orders::Watch;
use mcs_explore_report::{Quiet, Watched};
use mcs_explore_script::{UserScript, fault_of};
use mcs_lab_check::LabFault;
use rand_core::SeedableRng;
use rand_pcg::Pcg32;
use std::alloc::Global;

/// How many runs are drawn, the seed of the first, and how many turns each makes at most.
#[derive(Clone, Copy)]
pub struct Chances {
    pub seed: u64,
    pub runs: usize,
    pub turns: u64,
}

impl Chances {
    /// Returns the seed of the run with this number, counted from 0: one more for each run, and 0
    /// after the largest seed.
    pub fn seed_of(&self, number: usize) -> u64 {
        self.seed.wrapping_add(number as u64)
    }
}

/// What is kept of runs: how many of them ended, their ends and answers, and where questions
/// failed. A state is named by the number of its run, from 0.
pub struct Sample<'a> {
    pub chances: Chances,
    pub ended: usize,
    pub watched: Watched<'a, Quiet>,
}

// Written by hand, so that it is proved once, as a separate function.
impl<'a> Drop for Sample<'a> {
    fn drop(self) {
        let Sample {
            chances: _,
            ended: _,
            watched: _,
        } = self;
    }
}

/// Draws the random run with this number, shows it to the watch, and returns whether it ended.
fn draw_one<W: Watch>(
    alloc: Global,
    script: &UserScript,
    chances: Chances,
    number: usize,
    watch: &mut W,
) -> Result<bool, LabFault>
    ensures aim { OnOk result (W.aim watch.new ≡ W.aim watch.old) }
    ensures sees { OnOk result
        (SeesRuns W.HasSeen watch.old watch.new script.now.users script.now.boot) }
{
    let mut random = Pcg32::seed_from_u64(chances.seed_of(number));
    match make_turns(alloc, script, &mut random, chances.turns, number, watch) {
        Ok(run) => Ok(run.is_over),
        Err(fault) => Err(fault_of(fault)),
    }
}

/// Returns what random runs of the users of a script show: their ends and answers, and where
/// questions fail. `BookFull` if a run's book has 1,000,000 lines, `OutOfMemory` if an allocation
/// fails.
pub fn draw_runs<'a>(
    alloc: Global,
    script: &'a UserScript,
    chances: Chances,
) -> Result<Sample<'a>, LabFault>
    // the kept ends, answers and failures are those of states and turns of runs
    ensures { IfOk result (λ s. IsKeptOfRuns script.entry.now.users script.entry.now.boot
        script.entry.now.asked.items s.watched.ends s.watched.answers s.watched.failed.items) }
{
    let mut watched = Watched::new(alloc, &script.users, &script.asked, &[], Quiet)?;
    let mut ended: usize = 0;
    for number in 0..chances.runs {
        let is_over = draw_one(alloc, script, chances, number, &mut watched)?;
        ended = ended.saturating_add(usize::from(is_over));
    }
    Ok(Sample {
        chances,
        ended,
        watched,
    })
}
