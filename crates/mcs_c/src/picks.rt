//! The thread that a core runs next after a script.
ghost use Rattle.std.specs.Prelude.{◌≡◌, ◌⊎◌, Some, IfOk, OnOk};
ghost use Rattle.mcs_phases.specs.Feeds.{answer_of};
ghost use Rattle.mcs_c.specs.Picking.{IsPickOf, IsPickRefused, IsPicked, Picks};
ghost use Rattle.mcs_c.specs.Replays.{after, going};

use crate::output::{McsEnd, NO_MEMORY};
use crate::pieces::is_refused;
use crate::replays::ending;
use mcs_kernel::Kernel;
use mcs_queues::LinkedLines;
use mcs_sim::{ReplayRun, SimFault};
use mcs_types::{CoreId, OutOfMemory, ThreadSet};
use std::alloc::Global;

/// Returns a replay of a script whose end has not come.
#[tactic(auto, using(crate::proofs::Replayed::fed_took))]
fn replay_of(alloc: Global, script: &[u8]) -> Result<ReplayRun, OutOfMemory>
    ensures { IfOk result (λ r. r ≡ going script.now) }
{
    let mut run = ReplayRun::new(alloc)?;
    let ended = run.feed(alloc, script);
    if is_refused(ended) {
        return Err(OutOfMemory);
    }
    Ok(run)
}

/// Takes a line, or the end of the input if it is empty, and returns what the replay answers.
#[tactic(auto, using(crate::proofs::Replayed::took))]
fn take(
    alloc: Global,
    run: &mut ReplayRun,
    line: &[u8],
) -> Result<Result<(), SimFault>, OutOfMemory>
    ensures takes { OnOk result (run.new ≡ after run.old line.now) }
    ensures answers { IfOk result (λ r. r ≡ answer_of run.new.course.fault) }
{
    let ended = run.take_piece(alloc, line);
    if is_refused(ended) {
        return Err(OutOfMemory);
    }
    Ok(ended)
}

/// Returns the serial of the thread that a core runs next; 0 if there is none.
#[tactic(auto, using(crate::proofs::Picked::picked_none, crate::proofs::Picked::picked_some))]
fn picked(kernel: &Kernel<LinkedLines>, core: u8) -> u32
    ensures { IsPicked (Some kernel.now) core result }
{
    kernel.is_fair();
    match kernel.pick(CoreId(core), &ThreadSet::new()) {
        None => 0,
        Some(thread) => thread.serial,
    }
}

/// A pick, and how the replay before it ended.
#[derive(Drop)]
struct Pick {
    thread: u32,
    ended: Result<(), SimFault>,
}

/// Returns the pick of a core after a script.
fn pick_after(alloc: Global, script: &[u8], core: u8) -> Result<Pick, OutOfMemory>
    ensures { IfOk result (λ p. IsPickOf script.now core p) }
{
    let mut run = replay_of(alloc, script)?;
    let ended = take(alloc, &mut run, &[])?;
    match run.kernel() {
        None => Ok(Pick { thread: 0, ended }),
        Some(kernel) => Ok(Pick {
            thread: picked(kernel, core),
            ended,
        }),
    }
}

/// Replays a script, and writes the serial of the thread that a core runs next: of those that may
/// enter there the one of greatest priority, then of lowest serial; 0 if there is none. The
/// statuses are those of `mcs_replay`; after 2 and 5 it is the pick after the steps before.
#[unsafe(no_mangle)]
pub extern "C" fn mcs_pick(
    alloc: Global,
    script: &[u8],
    core: u8,
    thread: &mut u32,
    end: &mut McsEnd,
) -> u32
    ensures { IsPickRefused result thread.old thread.new end.old end.new
        ⊎ Picks script.now core result thread.new end.new }
{
    match pick_after(alloc, script, core) {
        Ok(pick) => {
            let (status, ended) = ending(pick.ended, 0);
            *thread = pick.thread;
            *end = ended;
            status
        }
        Err(OutOfMemory) => NO_MEMORY,
    }
}
