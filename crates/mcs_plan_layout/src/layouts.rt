//! A layout for each space.
ghost use Rattle.std.specs.Prelude.{◌≡◌, ◌≤◌, ◌+◌, IfOk, map, slice_get};
ghost use Rattle.mcs_plan_source.specs.Saying.{said_space};
ghost use Rattle.mcs_plan_layout.specs.Layouts.{own_layout, own_bits, bits_held, bits_at, bits_within, layout_among, layouts_of};

use crate::Layout;
use crate::spaces::{slot_at, slot_count, space_of_cnode};
use mcs_plan_source::Space;
use mcs_types::Cap;
use std::alloc::{AllocError, Global};

/// Returns the layout of a space by its radix, or else by the number of its slots, without bits
/// after the index.
fn own_layout(space: &Space) -> Layout
    ensures value { result ≡ own_layout (said_space space.now) }
    ensures few { result.root + result.leaf ≤ 255 }
{
    match space.radix {
        Some(radix) => Layout::of_radix(radix),
        None => Layout::of_slots(space.slots()),
    }
}

/// Returns how many bits name one of its slots.
fn own_bits(space: &Space) -> u8
    ensures { result ≡ own_bits (said_space space.now) }
{
    let layout = own_layout(space);
    layout.root + layout.leaf
}

/// Returns how many bits name a slot of the CNode to which a slot holds a capability; 0 if it holds
/// none.
fn bits_held(spaces: &[Space], cap: Option<Cap>) -> u8
    ensures { result ≡ bits_held (map said_space spaces.now) cap }
{
    let Some(cap) = cap else {
        return 0;
    };
    match space_of_cnode(spaces, cap.obj) {
        Some(space) => own_bits(space),
        None => 0,
    }
}

/// Returns how many bits the slot at an index, from 0, needs after its own.
fn bits_at(spaces: &[Space], space: &Space, index: usize) -> u8
    ensures { result ≡ bits_at (map said_space spaces.now)
        (slice_get (said_space space.now).slots index) }
{
    match slot_at(space, index) {
        Some((_, slot)) => bits_held(spaces, slot.cap),
        None => 0,
    }
}

/// Returns how many bits the slots of all CNodes need to which a space holds capabilities.
#[tactic(auto, using(crate::proofs::Most::most_more))]
fn bits_within(spaces: &[Space], space: &Space) -> u8
    ensures { result ≡ bits_within (map said_space spaces.now) (said_space space.now) }
{
    let mut most: u8 = 0;
    for index in 0..slot_count(space) {
        most = bits_at(spaces, space, index).max(most);
    }
    most
}

/// Returns the layout of one space among all.
fn layout_among(spaces: &[Space], space: &Space) -> Layout
    ensures { result ≡ layout_among (map said_space spaces.now) (said_space space.now) }
{
    let own = own_layout(space);
    Layout {
        root: own.root,
        leaf: own.leaf,
        within: bits_within(spaces, space),
    }
}

/// The layouts of all spaces.
pub fn layouts_of(alloc: Global, spaces: &[Space]) -> Result<Vec<Layout>, AllocError>
    ensures { IfOk result (λ layouts. layouts.items ≡ layouts_of (map said_space spaces.now)) }
{
    let mut layouts = Vec::new(alloc);
    for space in spaces {
        layouts.push(layout_among(spaces, space))?;
    }
    Ok(layouts)
}
