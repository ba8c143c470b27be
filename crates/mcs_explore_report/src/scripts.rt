//! The scripts of steps that show what is reported.
ghost use Rattle.std.specs.Prelude.{◌≡◌, ◌++◌, IfOk, OnOk};
ghost use Rattle.mcs_turns.specs.Turns.{RunState, beginning};
ghost use Rattle.mcs_explore_search.specs.Paths.{Path};
ghost use Rattle.mcs_explore_search.specs.Search.{listed, path_of};
ghost use Rattle.mcs_explore_orders.specs.Trails.{Leads};
ghost use Rattle.mcs_explore_equivalence.specs.Runs.{IsReached};
ghost use Rattle.mcs_explore_report.specs.Scripts.{IsScriptBy};

use crate::judgement::Sighting;
use mcs_explore_orders::{Orders, Turn, Walk, Watch, retrace};
use mcs_explore_script::{UserScript, fault_of, run_text};
use mcs_lab_check::LabFault;
use mcs_queues::PlainLines;
use std::alloc::Global;

/// Returns the turns to a state, and the turn from it that shows something, if that is a turn.
pub fn turns_of<W: Watch>(orders: &Orders<'_, W>, seen: Sighting) -> Result<Vec<Turn>, LabFault>
    ensures { IfOk result (λ turns.
        turns.items ≡ path_of orders.now.search.map.entries seen.place ++ listed seen.turn) }
{
    let mut turns = match orders.path(seen.place) {
        Ok(turns) => turns,
        Err(fault) => return Err(fault_of(fault)),
    };
    push(&mut turns, seen.turn)?;
    Ok(turns)
}

/// Adds a turn, if there is one.
fn push(turns: &mut Vec<Turn>, turn: Option<Turn>) -> Result<(), LabFault>
    ensures { OnOk result (turns.new.items ≡ turns.old.items ++ listed turn) }
{
    if let Some(turn) = turn {
        turns.push(turn)?;
    }
    Ok(())
}

/// Replays turns from the boot of a script on, and returns the state after them. `BookFull` if the
/// book has 1,000,000 lines, `OutOfMemory` if an allocation fails.
pub fn walk_by(
    alloc: Global,
    script: &UserScript,
    turns: &[Turn],
) -> Result<Walk<PlainLines>, LabFault>
    ensures reached { IfOk result (λ walk.
        IsReached script.now.users script.now.boot walk) }
    ensures path { IfOk result (λ walk. (g : RunState)
        → Path (Leads script.now.users) (beginning script.now.users script.now.boot) turns.now g
        → walk ≡ g) }
{
    match retrace(alloc, &script.boot, &script.users, turns) {
        Ok(walk) => Ok(walk),
        Err(fault) => Err(fault_of(fault)),
    }
}

/// Replays turns from the boot of a script on, and returns their script, after a comment and the
/// names. `BookFull` if the book has 1,000,000 lines, `OutOfMemory` if an allocation fails.
pub fn script_by(
    alloc: Global,
    script: &UserScript,
    comment: &[u8],
    turns: &[Turn],
) -> Result<Vec<u8>, LabFault>
    ensures { IfOk result (λ text. IsScriptBy script.now turns.now comment.now text.items) }
{
    let walk = walk_by(alloc, script, turns)?;
    run_text(alloc, comment, &script.names, walk.kernel().book())
}
