//! DeleteCap.
ghost use Rattle.std.specs.Prelude.{◌≡◌, false, Some, IfOk, IsTrue};
ghost use Rattle.mcs_types.specs.declared.entry.Answer.TheVariants.{Done};
ghost use Rattle.mcs_types.specs.declared.entry.Entry.{Entry};
ghost use Rattle.mcs_book.specs.Placing.{is_last_cnode, destroy_last as ends_last};
ghost use Rattle.mcs_book.specs.Objects.{is_alive};
ghost use Rattle.mcs_book.specs.Slots.{slot, count_of};
ghost use Rattle.mcs_cancel.specs.Releasing.{IsNoCNode};
ghost use Rattle.mcs_cspace.specs.Spaces.{named_by};
ghost use Rattle.mcs_state.specs.Doing.{Makes, HasRoomFor, ActsAwake, FitsAwake, Does, Fits, plain_answer};
ghost use Rattle.mcs_state.specs.Entering.{IsEntering};
ghost use Rattle.mcs_state.specs.Now.{so_far};
ghost use Rattle.mcs_caps.specs.Deletions.{IsSpared, deletable, deletes, takes_out};
ghost use Rattle.mcs_caps.specs.Placed.{IsSlot};

use mcs_cancel::destroy;
use mcs_object_queues::Waiting;
use mcs_slots::SlotId;
use mcs_state::{State, wake};
use mcs_types::{Cap, CoreId, Kind, ObjId, Place, Refusal};

/// Returns whether a slot holds the last capability to a CNode.
fn is_last_cnode<W: Waiting>(state: &State<W>, held: Option<Cap>) -> bool
    ensures { result ≡ is_last_cnode (so_far state.now) held }
{
    match held {
        None => false,
        Some(cap) => cap.obj.kind.is_same(Kind::CNode) && state.count_of(cap.obj) == 1,
    }
}

/// Returns the slot that a thread names, unless it holds the last capability to a CNode.
fn find_deletable<W: Waiting>(
    state: &State<W>,
    thread: ObjId,
    place: Place,
) -> Result<SlotId, Refusal>
    requires { IsEntering (so_far state.now) thread }
    ensures found { named_by result ≡ deletable (so_far state.now) thread place }
    ensures slot { IfOk result (IsSlot (so_far state.now)) }
{
    state.is_sound();
    let at = state.slot_named(thread, place)?;
    if is_last_cnode(state, state.slot(at)) {
        return Err(Refusal::LastCNode);
    }
    Ok(at.by_fields())
}

/// Destroys an existing object if no slot names it any more. Callers never pass a CNode without
/// slots that name it.
fn destroy_last<W: Waiting>(state: &mut State<W>, object: ObjId)
    requires there { IsTrue (is_alive (so_far state.old) object) }
    requires kind { count_of (so_far state.old) object ≡ 0 → IsNoCNode object }
    requires room { HasRoomFor (ends_last object) state.old }
    ensures { Makes (ends_last object) state.old state.new }
{
    if state.count_of(object) == 0 {
        destroy(state, object);
    }
}

/// Empties a slot, and destroys the object if that was the last capability to it.
fn take_out<W: Waiting>(state: &mut State<W>, at: SlotId, cap: Cap)
    requires slot { IsSlot (so_far state.old) at }
    requires held { slot (so_far state.old) at.cnode at.index ≡ Some cap }
    requires spared { is_last_cnode (so_far state.old) (Some cap) ≡ false }
    requires room { HasRoomFor (takes_out at cap.obj) state.old }
    ensures { Makes (takes_out at cap.obj) state.old state.new }
{
    state.is_sound();
    state.fills(at, None);
    destroy_last(state, cap.obj);
}

/// Wakes the thread, and deletes what a slot holds.
fn delete<W: Waiting>(state: &mut State<W>, thread: ObjId, at: SlotId)
    requires entering { IsEntering (so_far state.old) thread }
    requires slot { IsSlot (so_far state.old) at }
    requires spared { IsSpared (so_far state.old) at }
    requires room { FitsAwake thread (deletes (so_far state.old) at) state.old }
    ensures { ActsAwake thread (deletes (so_far state.old) at) state.old Done state.new }
{
    let held = state.slot(at);
    wake(state, thread);
    if let Some(cap) = held {
        take_out(state, at, cap);
    }
}

/// Performs DeleteCap: the slot is emptied, and where it held the last capability to an object, the
/// object is destroyed; an empty slot stays empty. The refusals are 6, 2 and 3 of the slot's
/// lookup, and 13 for the last capability to a CNode; they change nothing (manual: Capability
/// Spaces).
pub fn delete_cap<W: Waiting>(
    state: &mut State<W>,
    core: CoreId,
    thread: ObjId,
    place: Place,
) -> Result<(), Refusal>
    requires entering { IsEntering (so_far state.old) thread }
    requires room { Fits state.old core thread (Entry.DeleteCap place) }
    ensures { Does state.old core thread (Entry.DeleteCap place) (plain_answer result) state.new }
{
    let at = find_deletable(state, thread, place)?;
    delete(state, thread, at);
    Ok(())
}
