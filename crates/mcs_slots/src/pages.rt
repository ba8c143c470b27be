//! The pages of all CNodes.
ghost use Rattle.std.specs.Prelude.{◌≡◌, ◌≤◌, ◌<◌, ◌++◌, ◌∷◌, [], ◌↔◌, IsTrue, All, IfOk, OnOk, OnErr, length, map, option_copied};
ghost use Rattle.mcs_slots.specs.Numbers.{number_of};

use crate::page::Page;
use crate::slots::SlotId;
use mcs_types::{Cap, Kind, ObjId, OutOfMemory};
use std::alloc::Global;
use std::marker::Model;

/// A page for each CNode, that of serial 1 first: 64 at most.
#[derive(Drop)]
pub(crate) struct Pages {
    pages: Vec<Page>,
}

impl Model for Pages {
    ghost use Rattle.std.specs.Prelude.{List, ◌≤◌, length};
    ghost use Rattle.mcs_slots.specs.Pages.{Page, ArePages};

    ghost Value = { List Page };

    ghost view = { λ s. s.pages.items };

    ghost invariant = { λ s. (length s.pages.items ≤ 64) × ArePages s.pages.items };
}

/// Returns the index of a CNode's page, if the id is one of a CNode.
fn page_number(cnode: ObjId) -> Option<usize>
    ensures { result ≡ number_of cnode }
{
    if cnode.kind as u8 != Kind::CNode as u8 {
        return None;
    }
    if cnode.serial == 0 {
        return None;
    }
    Some((cnode.serial - 1) as usize)
}

/// Clones the pages in the memory of spare ones.
fn copied_pages(alloc: Global, spare: Vec<Page>, pages: &[Page]) -> Result<Vec<Page>, OutOfMemory>
    ensures { IfOk result (λ v. v.items ≡ pages.now) }
{
    let mut copied = Vec::with_capacity(alloc, pages.len())?;
    let mut spare = spare.into_iter();
    for page in pages {
        copied.push_reserved(page.copy(alloc, spare.next())?);
    }
    Ok(copied)
}

impl Pages {
    ghost use Rattle.mcs_slots.specs.Pages.{empty_page, page_at, radix_of, slot_at, HasSlot, held, ArePages};
    ghost use Rattle.mcs_slots.specs.Filling.{filled};

    /// Returns empty CNodes with these radices, each 1 to 8, and the serials 1, 2 and so on; at
    /// most 64.
    pub(crate) fn new(alloc: Global, radices: &[u8]) -> Result<Pages, OutOfMemory>
        requires few { length radices.now ≤ 64 }
        requires radices { All (λ r. (1 ≤ r) × (r ≤ 8)) radices.now }
        ensures { IfOk result (λ s. s ≡ map empty_page radices.now) }
    {
        let mut pages = Vec::with_capacity(alloc, radices.len())?;
        for radix in radices {
            pages.push_reserved(Page::empty(alloc, *radix)?);
        }
        Ok(Pages { pages })
    }

    /// Clones the pages in the memory of spare ones. `OutOfMemory` if an allocation fails.
    pub(crate) fn copy(&self, alloc: Global, spare: Option<Pages>) -> Result<Pages, OutOfMemory>
        ensures { IfOk result (λ s. s ≡ self.now) }
    {
        let spare = match spare {
            Some(Pages { pages }) => pages,
            None => Vec::new(alloc),
        };
        Ok(Pages {
            pages: copied_pages(alloc, spare, self.pages.as_slice())?,
        })
    }

    /// Adds an empty CNode with a radix from 1 to 8; fewer than 64 must exist, as `len` tells. Its
    /// serial is the next. If the allocation of its slots fails, nothing changes.
    pub(crate) fn add(&mut self, radix: u8) -> Result<(), OutOfMemory>
        requires few { length self.old < 64 }
        requires some { 1 ≤ radix }
        requires small { radix ≤ 8 }
        ensures added { OnOk result (self.new ≡ self.old ++ empty_page radix ∷ []) }
        ensures refused { OnErr result (self.new ≡ self.old) }
    {
        self.pages.reserve(1)?;
        let page = Page::empty(*self.pages.allocator(), radix)?;
        self.pages.push_reserved(page);
        Ok(())
    }

    /// Proves that there are at most 64 CNodes, each with a radix from 1 to 8 and with 2 to the
    /// radix slots.
    pub(crate) fn are_pages(&self)
        ensures few { length self.now ≤ 64 }
        ensures pages { ArePages self.now }
    {
        let _ = &self.pages;
    }

    /// Returns how many CNodes there are.
    pub(crate) fn len(&self) -> usize
        ensures { result ≡ length self.now }
    {
        self.pages.len()
    }

    /// Returns the slots of a CNode; None if it does not exist.
    pub(crate) fn page(&self, cnode: ObjId) -> Option<&Page>
        ensures { option_copied result ≡ page_at self.now cnode }
    {
        self.pages.get(page_number(cnode)?)
    }

    /// Returns the radix of a CNode; None if it does not exist.
    pub(crate) fn radix(&self, cnode: ObjId) -> Option<u8>
        ensures { result ≡ radix_of self.now cnode }
    {
        let page = self.page(cnode)?;
        Some(page.radix())
    }

    /// The capability in a slot, or None if the slot is empty or not there.
    pub(crate) fn get(&self, slot: SlotId) -> Option<Cap>
        ensures { result ≡ slot_at self.now slot.cnode slot.index }
    {
        let page = self.page(slot.cnode)?;
        page.get(slot.index)
    }

    /// Returns whether a slot exists: its index is below 2 to the radix of its CNode.
    pub(crate) fn has_slot(&self, slot: SlotId) -> bool
        ensures { IsTrue result ↔ HasSlot self.now slot }
    {
        match self.page(slot.cnode) {
            None => false,
            Some(page) => (slot.index as usize) < page.len(),
        }
    }

    /// Fills or empties an existing slot, and returns what it held.
    pub(crate) fn set(&mut self, slot: SlotId, cap: Option<Cap>) -> Option<Cap>
        requires { HasSlot self.old slot }
        ensures held { result ≡ slot_at self.old slot.cnode slot.index }
        ensures filled { self.new ≡ filled self.old slot cap }
    {
        match page_number(slot.cnode) {
            None => unreachable!(),
            Some(number) => {
                let page = &mut self.pages[number];
                page.set(slot.index, cap)
            }
        }
    }

    /// Returns how many slots hold a capability to an object.
    pub(crate) fn count_of(&self, obj: ObjId) -> u32
        ensures { result ≡ held self.now obj }
    {
        let mut count: u32 = 0;
        for page in &self.pages {
            count += page.count_of(obj);
        }
        count
    }
}
