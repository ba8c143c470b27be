//! Lookup of a capability by an address, and of a slot by an index and a depth.
ghost use Rattle.std.specs.Prelude.{◌≡◌, ◌==◌, if◌then◌else◌, option_copied, IfOk, IfErr, Ok, Err};
ghost use Rattle.mcs_book.specs.Lookup.{capability_from, slot_from, is_depth};
ghost use Rattle.mcs_types.specs.declared.entry.Refusal.TheVariants.{Missing, DepthMismatch};
ghost use Rattle.mcs_book.specs.Checks.{needed};
ghost use Rattle.mcs_book.specs.Paths.{IsNamedFrom};
ghost use Rattle.mcs_book.specs.LookupEnds.{IsUnnamedFrom};
ghost use Rattle.mcs_slots.specs.Pages.{page_slot};
ghost use Rattle.mcs_cspace.specs.Spaces.{slots_space, IsWithin, IsThereWithCNode, EndsAt, EndsNowhere, named_by};

use crate::paths::{End, find, slot_in};
use mcs_slots::{SlotId, Slots, by_fields};
use mcs_types::{Cap, Place, Refusal};

/// Returns the capability in the slot at the end of a path; Missing if the slot is empty.
#[inline(always)]
fn held(end: End<'_>) -> Result<Cap, Refusal>
    ensures { result
        ≡ needed (page_slot (option_copied end.entry.page) end.entry.slot.index) Missing }
{
    match slot_in(end.page, end.slot.index) {
        None => Err(Refusal::Missing),
        Some(cap) => Ok(by_fields(&cap)),
    }
}

/// Returns the slot at the end of a path, if no bits are left.
fn whole(end: End<'_>) -> Result<SlotId, Refusal>
    ensures { result ≡ (if end.entry.left == 0 then Ok end.entry.slot else Err DepthMismatch) }
{
    if end.left == 0 {
        Ok(end.slot.by_fields())
    } else {
        Err(Refusal::DepthMismatch)
    }
}

/// Returns whether a depth is of 1 to 64 bits, as slot operations need.
pub fn in_range(depth: u8) -> bool
    ensures { result ≡ is_depth depth }
{
    depth != 0 && depth <= 64
}

#[inline(always)]
fn cap_from(slots: &Slots, root: &Cap, address: u64) -> Result<Cap, Refusal>
    ensures { result ≡ capability_from (slots_space slots.now) root.now address }
{
    match find(slots, root, 64, address) {
        Err(refusal) => Err(refusal),
        Ok(end) => held(end),
    }
}

fn place_from(slots: &Slots, root: &Cap, place: Place) -> Result<SlotId, Refusal>
    ensures value { named_by result ≡ slot_from (slots_space slots.now) root.now place }
    ensures within { IfOk result (IsWithin slots.now) }
{
    if !in_range(place.depth) {
        return Err(Refusal::Range);
    }
    match find(slots, root, place.depth as u32, place.index) {
        Err(refusal) => Err(refusal),
        Ok(end) => whole(end),
    }
}

/// Returns the capability that a 64-bit address names from a root (manual: Capability Spaces). It
/// is in the slot at the end of the complete path; Missing if that slot is empty. If no path is
/// complete, the longest decides between GuardMismatch and DepthMismatch. Any root may be given: of
/// a guard's value the low bits count, as many as its size says, and a CNode that does not exist
/// has radix 0 and empty slots (own).
// inlined, so that the answer of 48 bytes is not stored and read again
#[inline(always)]
pub fn lookup(slots: &Slots, root: &Cap, address: u64) -> Result<Cap, Refusal>
    ensures value { result ≡ capability_from (slots_space slots.now) root.now address }
    ensures named { IfOk result (IsNamedFrom (slots_space slots.now) root.now address) }
    ensures unnamed { IfErr result (IsUnnamedFrom (slots_space slots.now) root.now address) }
{
    slots.are_pages();
    cap_from(slots, root, address)
}

/// The slot that an index and a depth name from a root (manual: Capability Spaces). Refused with
/// Range for a depth of 0 or above 64, which comes first, with DepthMismatch where bits are left at
/// the path's end, and else as the longest path says. Any root may be given, as for `lookup`. So
/// the slot exists exactly if its CNode does: each slot on the way is below 2 to the radix of its
/// CNode, and a path may end at index 0 of a CNode that does not exist (own).
pub fn lookup_slot(slots: &Slots, root: &Cap, place: Place) -> Result<SlotId, Refusal>
    ensures value { named_by result ≡ slot_from (slots_space slots.now) root.now place }
    ensures named { IfOk result (EndsAt slots.now root.now place) }
    ensures unnamed { IfErr result (EndsNowhere slots.now root.now place) }
    ensures there { IfOk result (IsThereWithCNode slots.now) }
{
    slots.are_pages();
    place_from(slots, root, place)
}
