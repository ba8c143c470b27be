//! Scripts: each is replayed as a whole and in pieces, and its trace is replayed again.
use mcs_sim::{ReplayRun, SimFault, Sink, Source, simulate, trace};
use mcs_types::OutOfMemory;
use std::alloc::Global;

/// The results of a script: its trace, and the fault that ended it, if any.
#[derive(Drop)]
pub struct RunResult {
    pub trace: Vec<u8>,
    pub fault: Option<SimFault>,
}

impl RunResult {
    fn is_same(&self, other: &RunResult) -> bool {
        self.trace == other.trace && self.fault == other.fault
    }
}

/// Returns the results; a failed write becomes OutOfMemory, since the writer is memory.
fn given(trace: Vec<u8>, ended: Result<(), SimFault>) -> Result<RunResult, OutOfMemory> {
    match ended {
        Ok(()) => Ok(RunResult { trace, fault: None }),
        Err(SimFault::OutOfMemory | SimFault::Write) => Err(OutOfMemory),
        Err(fault) => Ok(RunResult {
            trace,
            fault: Some(fault),
        }),
    }
}

/// Returns the results of a script that is read to its end.
fn replayed(alloc: Global, script: &[u8]) -> Result<RunResult, OutOfMemory> {
    let mut text = Vec::new(alloc);
    let result = simulate(
        alloc,
        &mut Source::new(script),
        &mut Sink::new(alloc, &mut text)?,
    );
    given(text, result)
}

/// Feeds a script in pieces of this many bytes.
fn feed(alloc: Global, run: &mut ReplayRun, script: &[u8], piece: usize) -> Result<(), SimFault> {
    let mut rest = script;
    while !rest.is_empty() {
        let count = piece.max(1).min(rest.len());
        run.feed(alloc, &rest[..count])?;
        rest = &rest[count..];
    }
    run.end(alloc)
}

/// Returns the results of a script that is fed in pieces of this many bytes: how it ended, and the
/// trace of the book at its end.
fn fed(
    alloc: Global,
    script: &[u8],
    piece: usize,
) -> Result<(Vec<u8>, Result<(), SimFault>), OutOfMemory> {
    let mut run = ReplayRun::new(alloc)?;
    let result = feed(alloc, &mut run, script, piece);
    let mut text = Vec::new(alloc);
    if let Some(book) = run.book() {
        trace(book, &mut Sink::new(alloc, &mut text)?).map_err(|_| OutOfMemory)?;
    }
    Ok((text, result))
}

/// Returns the results of a script as a whole, retrying once after a failed allocation.
fn replayed_again(alloc: Global, script: &[u8]) -> Result<RunResult, OutOfMemory> {
    match replayed(alloc, script) {
        Ok(result) => Ok(result),
        Err(OutOfMemory) => replayed(alloc, script),
    }
}

/// Returns whether a script gives these results in pieces, retrying once after a failed allocation;
/// after a fault the book's trace is a prefix.
fn is_fed(
    alloc: Global,
    script: &[u8],
    piece: usize,
    whole: &RunResult,
) -> Result<bool, OutOfMemory> {
    let (text, ended) = match fed(alloc, script, piece) {
        Ok((text, Err(SimFault::OutOfMemory))) if !whole.trace.starts_with(&text) => {
            return Ok(false);
        }
        Ok((text, ended)) if ended != Err(SimFault::OutOfMemory) => (text, ended),
        _ => fed(alloc, script, piece)?,
    };
    Ok(given(text, ended)?.is_same(whole))
}

/// Returns the results of a script, and what is wrong with them, if anything: fed in pieces of 1 or
/// 7 bytes or as a whole it gives others, or its trace does not replay to itself.
pub fn given_by(
    alloc: Global,
    script: &[u8],
) -> Result<(RunResult, Option<&'static str>), OutOfMemory> {
    let whole = replayed_again(alloc, script)?;
    for piece in [1, 7, usize::MAX] {
        if !is_fed(alloc, script, piece, &whole)? {
            return Ok((whole, Some("in pieces it gives something else")));
        }
    }
    if whole.fault.is_none() && !replayed_again(alloc, &whole.trace)?.is_same(&whole) {
        return Ok((whole, Some("its trace does not give itself")));
    }
    Ok((whole, None))
}
