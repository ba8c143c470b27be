//! CopyCap, MintCap and MoveCap.
ghost use Rattle.std.specs.Prelude.{◌≡◌};
ghost use Rattle.mcs_types.specs.declared.entry.Answer.TheVariants.{Done};
ghost use Rattle.mcs_types.specs.declared.entry.Entry.{Entry};
ghost use Rattle.mcs_state.specs.Doing.{ActsAwake, FitsAwake, Does, Fits, plain_answer};
ghost use Rattle.mcs_state.specs.Entering.{IsEntering};
ghost use Rattle.mcs_state.specs.Now.{so_far};
ghost use Rattle.mcs_caps.specs.Placed.{IsPlaced};
ghost use Rattle.mcs_caps.specs.Rows.{fills_act, moves_act};

use crate::checks::{Placing, find_places, with_no_badge};
use mcs_object_queues::Waiting;
use mcs_slots::{with_badge, with_mask};
use mcs_state::{State, wake};
use mcs_types::{Badge, Cap, CoreId, ObjId, Place, Refusal, Rights};

/// Wakes the thread, and puts a capability to the found object into the empty slot.
// inlined, so that what was found stays in registers
#[inline(always)]
fn fill<W: Waiting>(state: &mut State<W>, thread: ObjId, at: &Placing, cap: Cap)
    requires entering { IsEntering (so_far state.old) thread }
    requires placed { IsPlaced (so_far state.old) at.now }
    requires object { cap.obj ≡ at.now.cap.obj }
    requires room { FitsAwake thread (fills_act at.now cap) state.old }
    ensures { ActsAwake thread (fills_act at.now cap) state.old Done state.new }
{
    state.is_sound();
    wake(state, thread);
    state.fills(at.dest, Some(cap));
}

/// Wakes the thread, and moves the found capability into the empty slot.
fn shift<W: Waiting>(state: &mut State<W>, thread: ObjId, at: &Placing)
    requires entering { IsEntering (so_far state.old) thread }
    requires placed { IsPlaced (so_far state.old) at.now }
    requires room { FitsAwake thread (moves_act at.now) state.old }
    ensures { ActsAwake thread (moves_act at.now) state.old Done state.new }
{
    state.is_sound();
    wake(state, thread);
    state.fills(at.dest, Some(at.cap));
    state.fills(at.source, None);
}

/// Performs CopyCap: the slot at the destination gets the capability at the source, with those of
/// its rights that are asked for. The refusals are 6, 2 and 3 of the source's and then of the
/// destination's lookup, 8 if the source is empty, and 7 if the destination is full; they change
/// nothing (manual: Capability Spaces).
pub fn copy_cap<W: Waiting>(
    state: &mut State<W>,
    core: CoreId,
    thread: ObjId,
    source: Place,
    dest: Place,
    rights: Rights,
) -> Result<(), Refusal>
    requires entering { IsEntering (so_far state.old) thread }
    requires room { Fits state.old core thread (Entry.CopyCap source dest rights) }
    ensures { Does state.old core thread (Entry.CopyCap source dest rights)
        (plain_answer result) state.new }
{
    let at = find_places(state, thread, source, dest)?;
    fill(state, thread, &at, with_mask(&at.cap, rights));
    Ok(())
}

/// Performs MintCap: as CopyCap, and the capability gets a badge. It is refused like CopyCap, and
/// then with 4 if the source is to no endpoint or notification and with 12 where it is badged,
/// whatever badge is asked for (manual: Capability Spaces).
pub fn mint_cap<W: Waiting>(
    state: &mut State<W>,
    core: CoreId,
    thread: ObjId,
    source: Place,
    dest: Place,
    rights: Rights,
    badge: Badge,
) -> Result<(), Refusal>
    requires entering { IsEntering (so_far state.old) thread }
    requires room { Fits state.old core thread (Entry.MintCap source dest rights badge) }
    ensures { Does state.old core thread (Entry.MintCap source dest rights badge)
        (plain_answer result) state.new }
{
    let at = with_no_badge(find_places(state, thread, source, dest))?;
    fill(state, thread, &at, with_badge(&at.cap, rights, badge));
    Ok(())
}

/// Performs MoveCap: the slot at the destination gets the capability at the source as it is, and
/// the source is emptied. It is refused like CopyCap (manual: Capability Spaces).
pub fn move_cap<W: Waiting>(
    state: &mut State<W>,
    core: CoreId,
    thread: ObjId,
    source: Place,
    dest: Place,
) -> Result<(), Refusal>
    requires entering { IsEntering (so_far state.old) thread }
    requires room { Fits state.old core thread (Entry.MoveCap source dest) }
    ensures { Does state.old core thread (Entry.MoveCap source dest)
        (plain_answer result) state.new }
{
    let at = find_places(state, thread, source, dest)?;
    shift(state, thread, &at);
    Ok(())
}
