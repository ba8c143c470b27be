//! Follows the path that an address spells from a root to its last slot.
ghost use Rattle.std.specs.Prelude.{◌≡◌, ◌≤◌, IfOk, option_copied};
ghost use Rattle.mcs_book.specs.Lookup.{cnode_cap};
ghost use Rattle.mcs_slots.specs.Pages.{page_at, page_slot};
ghost use Rattle.mcs_cspace.specs.Spaces.{slots_space, IsWithin, radix_on, next_on, walk_from, walked_by};

use crate::levels::{Step, level};
use mcs_slots::{Page, SlotId, Slots};
use mcs_types::{Cap, Kind, ObjId, Refusal};

/// The slot at which lookup ends, the slots of its CNode, and how many bits of the address are left
/// there.
#[derive(Clone, Copy)]
pub(crate) struct End<'a> {
    pub(crate) page: Option<&'a Page>,
    pub(crate) slot: SlotId,
    pub(crate) left: u32,
}

/// Returns the capability if it is to a CNode.
fn to_cnode(cap: Option<Cap>) -> Option<Cap>
    ensures { result ≡ cnode_cap cap }
{
    match cap {
        Some(cap) if cap.obj.kind as u8 == Kind::CNode as u8 => Some(cap),
        _ => None,
    }
}

/// The radix of a CNode with these slots, or 0 if it does not exist.
fn radix_of(page: Option<&Page>) -> u8
    ensures value { result ≡ radix_on (option_copied page.entry) }
    ensures few { result ≤ 8 }
{
    match page {
        None => 0,
        Some(page) => page.radix(),
    }
}

/// The radix of a CNode, or 0 if it does not exist.
pub fn radix_in(slots: &Slots, cnode: ObjId) -> u8
    ensures value { result ≡ (slots_space slots.now).radix cnode }
    ensures few { result ≤ 8 }
{
    radix_of(slots.page(cnode))
}

/// Returns what a slot of a CNode holds; None if the CNode does not exist.
pub(crate) fn slot_in(page: Option<&Page>, index: u8) -> Option<Cap>
    ensures { result ≡ page_slot (option_copied page.entry) index }
{
    page?.get(index)
}

/// Returns the capability to the CNode at which lookup continues: bits are left, and the slot of
/// this CNode holds it.
fn next_in(page: Option<&Page>, step: Step) -> Option<Cap>
    ensures { result ≡ next_on (option_copied page.entry) step }
{
    if step.left == 0 {
        return None;
    }
    to_cnode(slot_in(page, step.index))
}

/// Returns the end of lookup at a slot of a CNode that has these slots.
fn end_at<'a>(page: Option<&'a Page>, cnode: ObjId, step: Step) -> End<'a>
    ensures { result ≡ record {
      page = page.entry;
      slot = record { cnode = cnode; index = step.index };
      left = step.left;
    } }
{
    let slot = SlotId {
        cnode,
        index: step.index,
    };
    End {
        page,
        slot,
        left: step.left,
    }
}

/// Returns the slot at the end of the path from a root that spells the low `depth` bits of an
/// address, and how many of them are left.
// inlined, so that the end of a path is not moved
#[inline(always)]
pub(crate) fn find<'a>(
    slots: &'a Slots,
    root: &Cap,
    depth: u32,
    address: u64,
) -> Result<End<'a>, Refusal>
    requires { depth ≤ 64 }
    ensures value { walked_by address result ≡ walk_from slots.now root.now depth address }
    ensures within { IfOk result (λ end. IsWithin slots.now end.slot) }
    ensures page { IfOk result
        (λ end. option_copied end.page ≡ page_at slots.now end.slot.cnode) }
{
    let mut cap = *root;
    let mut left = depth;
    for _ in 0..64u32 {
        let page = slots.page(cap.obj);
        let step = level(cap.guard, radix_of(page), left, address)?;
        left = step.left;
        match next_in(page, step) {
            None => return Ok(end_at(page, cap.obj, step)),
            Some(next) => cap = next,
        }
    }
    Err(Refusal::DepthMismatch)
}
