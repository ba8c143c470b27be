//! Replays of scripts: whole, or with one more line.
ghost use Rattle.std.specs.Prelude.{◌≡◌, ◌⊎◌, IfOk};
ghost use Rattle.mcs_c.specs.Handing.{HandsOut, IsRefused};
ghost use Rattle.mcs_c.specs.Replays.{going, IsEnd, IsReplay, IsStep, Replays, Steps};

use crate::output::{McsEnd, NO_MEMORY, WRONG, hand_out};
use crate::pieces::{RunOutput, tell};
use mcs_sim::{SimFault, TracedRun};
use mcs_types::OutOfMemory;
use std::alloc::Global;

/// Returns the trace of a script, to the script's end or to its first fault.
#[tactic(auto, using(crate::proofs::Replayed::replayed, crate::proofs::Replayed::replayed_empty))]
fn replay(alloc: Global, script: &[u8]) -> Result<RunOutput, OutOfMemory>
    ensures { IfOk result (λ t. IsReplay script.now t.text.items t.ended) }
{
    let mut run = TracedRun::new(alloc)?;
    if script.is_empty() {
        return tell(alloc, &mut run, &[], Vec::new(alloc));
    }
    let RunOutput { text, ended: _ } = tell(alloc, &mut run, script, Vec::new(alloc))?;
    tell(alloc, &mut run, &[], text)
}

/// Returns a run that took a script whose end has not come.
#[tactic(auto, using(crate::proofs::Replayed::began, crate::proofs::Replayed::went))]
pub(crate) fn begin(alloc: Global, script: &[u8]) -> Result<TracedRun, OutOfMemory>
    ensures { IfOk result (λ r. r ≡ going script.now) }
{
    let mut run = TracedRun::new(alloc)?;
    if script.is_empty() {
        return Ok(run);
    }
    let _output = tell(alloc, &mut run, script, Vec::new(alloc))?;
    Ok(run)
}

/// Returns what a line adds to the trace of the script before it.
#[tactic(auto, using(crate::proofs::Replayed::stepped))]
fn step(alloc: Global, script: &[u8], line: &[u8]) -> Result<RunOutput, OutOfMemory>
    ensures { IfOk result (λ t. IsStep script.now line.now t.text.items t.ended) }
{
    let mut run = begin(alloc, script)?;
    tell(alloc, &mut run, line, Vec::new(alloc))
}

/// Returns the status and the end of a call after this result of a run, with a text of this length.
pub(crate) fn ending(ended: Result<(), SimFault>, length: usize) -> (u32, McsEnd)
    ensures ends { IsEnd ended result.0 result.1 }
    ensures length { result.1.length ≡ length }
{
    let (status, line, fault) = match ended {
        Ok(()) => (0, 0, 0),
        Err(SimFault::Script { line, why }) => (2, line, u64::from(why.number())),
        Err(SimFault::BookFull) => (5, 0, 0),
        Err(SimFault::OutOfMemory) => (NO_MEMORY, 0, 0),
        Err(
            SimFault::Argument
            | SimFault::Read
            | SimFault::Write
            | SimFault::Failed
            | SimFault::NotStarted,
        ) => (WRONG, 0, 0),
    };
    (
        status,
        McsEnd {
            length,
            line,
            fault,
        },
    )
}

/// Hands a text out, with how its run ended, and returns the status.
pub(crate) fn finish(output: &RunOutput, out: &mut [u8], end: &mut McsEnd) -> u32
    ensures wrote { HandsOut output.now.text.items out.old out.new end.new.length }
    ensures ends { IsEnd output.now.ended result end.new }
{
    let (status, ended) = ending(output.ended, hand_out(&output.text, out));
    *end = ended;
    status
}

/// Replays a script, and writes as much of its trace as there is room for. Returns 0 if the whole
/// script is replayed; 2 if a line is refused and 5 if the book is full, and the trace is that of
/// the steps before; 6 if an allocation fails, and nothing is written.
#[unsafe(no_mangle)]
#[tactic(auto, using(crate::proofs::Replayed::replays))]
pub extern "C" fn mcs_replay(alloc: Global, script: &[u8], out: &mut [u8], end: &mut McsEnd) -> u32
    ensures { IsRefused result out.old out.new end.old end.new
        ⊎ Replays script.now result out.old out.new end.new }
{
    match replay(alloc, script) {
        Ok(output) => finish(&output, out, end),
        Err(OutOfMemory) => NO_MEMORY,
    }
}

/// Takes a line after a script whose end has not come, and writes as much as there is room for of
/// what the line adds to the trace. An empty line is the end of the input. The statuses are those
/// of `mcs_replay`; a fault of the script before the line is that of the call.
#[unsafe(no_mangle)]
#[tactic(auto, using(crate::proofs::Replayed::steps))]
pub extern "C" fn mcs_step(
    alloc: Global,
    script: &[u8],
    line: &[u8],
    out: &mut [u8],
    end: &mut McsEnd,
) -> u32
    ensures { IsRefused result out.old out.new end.old end.new
        ⊎ Steps script.now line.now result out.old out.new end.new }
{
    match step(alloc, script, line) {
        Ok(output) => finish(&output, out, end),
        Err(OutOfMemory) => NO_MEMORY,
    }
}
