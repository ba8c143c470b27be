//! The checks before any change.
ghost use Rattle.std.specs.Prelude.{◌≡◌, IfOk};
ghost use Rattle.mcs_book.specs.Placing.{source_and_dest};
ghost use Rattle.mcs_state.specs.Entering.{IsEntering};
ghost use Rattle.mcs_state.specs.Now.{so_far};
ghost use Rattle.mcs_caps.specs.Placed.{IsPlaced};
ghost use Rattle.mcs_caps.specs.Rows.{placed_by, mintable};

use mcs_object_queues::Waiting;
use mcs_slots::{SlotId, by_fields, takes_badge};
use mcs_state::State;
use mcs_types::{Cap, ObjId, Place, Refusal};

/// A capability, the slot that holds it, and an empty slot to put it in.
#[derive(Clone, Copy)]
pub struct Placing {
    pub cap: Cap,
    pub source: SlotId,
    pub dest: SlotId,
}

/// Returns the capability and the empty slot that a thread names by two places.
#[inline(always)]
pub fn find_places<W: Waiting>(
    state: &State<W>,
    thread: ObjId,
    source: Place,
    dest: Place,
) -> Result<Placing, Refusal>
    requires { IsEntering (so_far state.now) thread }
    ensures places { placed_by result ≡ source_and_dest (so_far state.now) thread source dest }
    ensures placed { IfOk result (IsPlaced (so_far state.now)) }
{
    state.is_sound();
    let source = state.slot_named(thread, source)?;
    // Read early, so that the load overlaps with the second lookup.
    let held = state.slot(source);
    let dest = state.slot_named(thread, dest)?;
    let Some(cap) = held else {
        return Err(Refusal::SlotEmpty);
    };
    if state.slot(dest).is_some() {
        return Err(Refusal::SlotFull);
    }
    Ok(Placing {
        cap: by_fields(&cap),
        source: source.by_fields(),
        dest: dest.by_fields(),
    })
}

/// Returns what was found if a badge may be set on it: else WrongKind if its kind carries none, or
/// BadgeNotAllowed if it has one.
pub fn with_no_badge(found: Result<Placing, Refusal>) -> Result<Placing, Refusal>
    ensures { result ≡ mintable found }
{
    let at = found?;
    if !takes_badge(&at.cap) {
        return Err(Refusal::WrongKind);
    }
    if at.cap.badge.0 != 0 {
        return Err(Refusal::BadgeNotAllowed);
    }
    Ok(at)
}
