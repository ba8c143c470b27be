//! States that were found and not expanded: their ends, and the entries given there.
ghost use Rattle.std.specs.Prelude.{IfOk, OnOk};
ghost use Rattle.mcs_explore_report.specs.Ends.{AreRunEnds};

use crate::ends::{End, Ends};
use mcs_explore_orders::{Orders, OrdersFault, Turn, Walk, Watch, retrace};
use mcs_explore_script::{UserScript, fault_of};
use mcs_lab_check::LabFault;
use mcs_queues::PlainLines;
use std::alloc::Global;

/// Notes the end in the state to which these turns lead, if that state is over. BookFull and
/// OutOfMemory as for a search.
fn note_end(
    alloc: Global,
    script: &UserScript,
    place: usize,
    turns: &[Turn],
    ends: &mut Ends,
) -> Result<(), OrdersFault>
    ensures { OnOk result (AreRunEnds script.now.users script.now.boot ends.old
        → AreRunEnds script.now.users script.now.boot ends.new) }
{
    let users = &script.users;
    let walk: Walk<PlainLines> = retrace(alloc, &script.boot, users, turns)?;
    let picks = walk.picks(alloc, users)?;
    let next = walk.turns(alloc, users, &picks)?;
    let is_over = walk.is_over(users, &picks, &next);
    ends.note_state(users, place, &walk, is_over)?;
    Ok(())
}

/// Notes the end in the state at an index, if it is over. BookFull and OutOfMemory as for a search.
fn note_deep<W: Watch>(
    alloc: Global,
    script: &UserScript,
    orders: &Orders<'_, W>,
    place: usize,
    ends: &mut Ends,
) -> Result<(), LabFault>
    ensures { OnOk result (AreRunEnds script.now.users script.now.boot ends.old
        → AreRunEnds script.now.users script.now.boot ends.new) }
{
    let turns = match orders.path(place) {
        Ok(turns) => turns,
        Err(fault) => return Err(fault_of(fault)),
    };
    match note_end(alloc, script, place, &turns, ends) {
        Ok(()) => Ok(()),
        Err(fault) => Err(fault_of(fault)),
    }
}

/// Returns the ends among the states that were found but not expanded, because they are at the
/// greatest depth. Fails with BookFull and OutOfMemory as a search does.
pub fn deep_ends<W: Watch>(
    alloc: Global,
    script: &UserScript,
    orders: &Orders<'_, W>,
    depth: usize,
) -> Result<Ends, LabFault>
    ensures { IfOk result (λ ends. AreRunEnds script.now.users script.now.boot ends) }
{
    let mut ends = Ends::new(alloc);
    if orders.is_whole() || orders.depth(orders.done()) < depth {
        return Ok(ends);
    }
    for place in orders.done()..orders.states() {
        note_deep(alloc, script, orders, place, &mut ends)?;
    }
    Ok(ends)
}

/// Returns how many ends there are of all kinds, up to `usize::MAX`.
pub fn count_of(kinds: &[End]) -> usize {
    let mut count: usize = 0;
    for kind in kinds {
        count = count.saturating_add(kind.count);
    }
    count
}

/// Returns whether an entry was given on the way to some state that was found, by the numbers of
/// its user and its own, from 0.
pub fn is_given<W: Watch>(
    orders: &Orders<'_, W>,
    user: usize,
    number: usize,
) -> Result<bool, LabFault> {
    for place in 0..orders.states() {
        let turns = match orders.path(place) {
            Ok(turns) => turns,
            Err(fault) => return Err(fault_of(fault)),
        };
        if let Some(turn) = turns.last()
            && turn.pick.user == user
            && turn.pick.number == number
        {
            return Ok(true);
        }
    }
    Ok(false)
}
