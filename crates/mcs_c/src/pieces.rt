//! A run that takes a piece of a script, and what that adds to the trace.
ghost use Rattle.std.specs.Prelude.{◌≡◌, IfOk};
ghost use Rattle.mcs_c.specs.Replays.{Tells, is_refused};

use mcs_sim::{SimFault, Sink, TracedRun};
use mcs_types::OutOfMemory;
use std::alloc::Global;

/// A text, and how the run that wrote it ended. A run that an allocation ended has no text.
#[derive(Drop)]
pub(crate) struct RunOutput {
    pub(crate) text: Vec<u8>,
    pub(crate) ended: Result<(), SimFault>,
}

/// Returns whether memory was refused.
pub(crate) fn is_refused(ended: Result<(), SimFault>) -> bool
    ensures { result ≡ is_refused ended }
{
    match ended {
        Err(SimFault::OutOfMemory) => true,
        Err(
            SimFault::Argument
            | SimFault::Script { .. }
            | SimFault::Read
            | SimFault::Write
            | SimFault::BookFull
            | SimFault::Failed
            | SimFault::NotStarted,
        )
        | Ok(()) => false,
    }
}

/// Feeds a piece of a script (its end, if the piece is empty) to a run, and appends what that adds
/// to the trace. Memory as a writer fails only if an allocation does.
#[tactic(auto, using(crate::proofs::Replayed::tells))]
pub(crate) fn tell(
    alloc: Global,
    run: &mut TracedRun,
    piece: &[u8],
    text: Vec<u8>,
) -> Result<RunOutput, OutOfMemory>
    ensures { IfOk result (λ t. Tells run.old piece.now run.new text.items t.text.items t.ended) }
{
    let Ok(mut sink) = Sink::new(alloc, text) else {
        return Err(OutOfMemory);
    };
    let ended = run.take_piece(alloc, piece, &mut sink);
    if sink.is_broken() || is_refused(ended) {
        return Err(OutOfMemory);
    }
    Ok(RunOutput {
        text: sink.into_writer(),
        ended,
    })
}
