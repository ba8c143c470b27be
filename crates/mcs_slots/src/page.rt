//! The slots of one CNode.
ghost use Rattle.std.specs.Prelude.{◌≡◌, ◌<◌, ◌≤◌, ◌^◌, IfOk, None, count_by, replicate, slice_index_or, slice_set};
ghost use Rattle.mcs_book.specs.Slots.{is_cap_to};
ghost use Rattle.mcs_types.specs.Ids.{same};

use crate::cell::Cell;
use mcs_types::{Cap, ObjId, OutOfMemory, copy_rows};
use std::alloc::{AllocError, Global};
use std::marker::Model;

/// The slots of a CNode (manual: Capability Spaces): 2 to the radix, which is 1 to 8.
#[derive(Drop)]
pub struct Page {
    radix: u8,
    caps: Vec<Cell>,
}

impl Model for Page {
    ghost use Rattle.std.specs.Prelude.{◌≡◌, ◌≤◌, ◌^◌, length};
    ghost use Rattle.mcs_slots.specs.Pages.{Page};

    ghost Value = { Page };

    ghost view = { λ p. record { radix = p.radix; caps = p.caps.items } };

    ghost invariant = { λ p. (1 ≤ p.radix) × (p.radix ≤ 8) × (length p.caps.items ≡ 2 ^ p.radix) };
}

/// Returns whether two ids name one object.
pub(crate) fn is_same(a: ObjId, b: ObjId) -> bool
    ensures { result ≡ same a b }
{
    a.kind as u8 == b.kind as u8 && a.serial == b.serial
}

/// Returns whether it is a capability to an object.
fn is_to(cap: &Option<Cap>, obj: ObjId) -> bool
    ensures { result ≡ is_cap_to obj cap.now }
{
    match cap {
        None => false,
        Some(cap) => is_same(cap.obj, obj),
    }
}

/// Returns how many slots a radix makes.
fn slots_of(radix: u8) -> usize
    requires { radix ≤ 8 }
    ensures value { result ≡ 2 ^ radix }
    ensures few { result ≤ 256 }
{
    1 << radix
}

/// Returns `count` empty slots.
fn empty_cells(alloc: Global, count: usize) -> Result<Vec<Cell>, AllocError>
    ensures { IfOk result (λ v. v.items ≡ replicate count None) }
{
    let mut cells = Vec::with_capacity(alloc, count)?;
    for _ in 0..count {
        cells.push(Cell::empty())?;
    }
    Ok(cells)
}

impl Page {
    ghost use Rattle.mcs_slots.specs.Pages.{empty_page, IsPage};

    /// Returns the empty slots of a CNode.
    pub(crate) fn empty(alloc: Global, radix: u8) -> Result<Page, OutOfMemory>
        requires some { 1 ≤ radix }
        requires few { radix ≤ 8 }
        ensures { IfOk result (λ p. p ≡ empty_page radix) }
    {
        let caps = empty_cells(alloc, slots_of(radix))?;
        Ok(Page { radix, caps })
    }

    /// Clones the page in the memory of a spare one. `OutOfMemory` if an allocation fails.
    pub(crate) fn copy(&self, alloc: Global, spare: Option<Page>) -> Result<Page, OutOfMemory>
        ensures { IfOk result (λ p. p ≡ self.now) }
    {
        let caps = match spare {
            Some(Page { caps, .. }) => caps,
            None => Vec::new(alloc),
        };
        Ok(Page {
            radix: self.radix,
            caps: copy_rows(caps, self.caps.as_slice(), self.caps.len())?,
        })
    }

    /// The radix.
    pub fn radix(&self) -> u8
        ensures value { result ≡ self.now.radix }
        ensures page { IsPage self.now }
    {
        self.radix
    }

    /// Returns how many slots there are.
    pub(crate) fn len(&self) -> usize
        ensures { result ≡ 2 ^ self.now.radix }
    {
        slots_of(self.radix)
    }

    /// The capability in a slot, or None if the slot is empty or not there.
    pub fn get(&self, index: u8) -> Option<Cap>
        ensures { result ≡ slice_index_or self.now.caps index None }
    {
        self.caps.get(index as usize)?.cap()
    }

    /// Fills or empties an existing slot, and returns what it held.
    pub(crate) fn set(&mut self, index: u8, cap: Option<Cap>) -> Option<Cap>
        requires { index < 2 ^ self.old.radix }
        ensures held { result ≡ slice_index_or self.old.caps index None }
        ensures filled { self.new ≡ record self.old { caps = slice_set self.old.caps index cap } }
    {
        let cell = &mut self.caps[index as usize];
        let held = cell.cap();
        *cell = Cell::of(cap);
        held
    }

    /// Returns how many slots hold a capability to an object.
    pub(crate) fn count_of(&self, obj: ObjId) -> u32
        ensures value { result ≡ count_by (is_cap_to obj) self.now.caps }
        ensures few { result ≤ 256 }
    {
        let mut count: u32 = 0;
        for cap in &self.caps {
            if is_to(&cap.cap(), obj) {
                count += 1;
            }
        }
        count
    }
}
