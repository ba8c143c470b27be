//! The slots of all CNodes, and the calls on them.
ghost use Rattle.std.specs.Prelude.{◌≡◌, ◌≤◌, ◌<◌, ◌++◌, ◌∷◌, [], ◌↔◌, IsTrue, All, IfOk, OnOk, OnErr, Some, None, length, map, option_copied};

use crate::caps::{takes_badge, with_badge, with_mask};
use crate::page::Page;
use crate::pages::Pages;
use crate::tallies::{Tallied, Tallies};
use mcs_types::{Badge, Cap, ObjId, OutOfMemory, Refusal, Rights, cap_again};
use std::alloc::Global;
use std::marker::Model;

/// A slot of a CNode (manual: Capability Spaces): its index is below 2 to the CNode's radix.
#[derive(Clone, Copy, PartialEq, Eq, Debug)]
pub struct SlotId {
    pub cnode: ObjId,
    pub index: u8,
}

impl SlotId {
    /// Returns the same slot, built field by field, so that the compiler need not copy the padding.
    #[inline(always)]
    pub fn by_fields(self) -> SlotId
        ensures { result ≡ self }
    {
        SlotId {
            cnode: ObjId {
                kind: self.cnode.kind,
                serial: self.cnode.serial,
            },
            index: self.index,
        }
    }
}

/// The slots of up to 64 CNodes, with serials from 1 (own). Only `new` and `add` allocate; the boot
/// adds all CNodes. The tallies are counts of what the slots hold, and change with them.
pub struct Slots {
    pages: Pages,
    tallies: Tallies,
}

// Written by hand as a separate function: a derived drop would be proved again wherever it is
// dropped.
impl Drop for Slots {
    fn drop(self) {
        let Slots {
            pages: _,
            tallies: _,
        } = self;
    }
}

impl Model for Slots {
    ghost use Rattle.std.specs.Prelude.{List};
    ghost use Rattle.mcs_slots.specs.Pages.{Page};

    ghost Value = { List Page };

    ghost use Rattle.mcs_slots.specs.Tallies.{Tells};

    ghost view = { λ s. s.pages };

    ghost invariant = { λ s. Tells s.tallies s.pages };
}

impl Slots {
    ghost use Rattle.mcs_slots.specs.Pages.{empty_page, page_at, radix_of, slot_at, HasSlot, held, ArePages};
    ghost use Rattle.mcs_slots.specs.Filling.{filled, Fills, Moves};
    ghost use Rattle.mcs_slots.specs.Copying.{source_cap, copy_of, mint_of, answered};

    /// Returns empty CNodes with these radices, each 1 to 8, and the serials 1, 2 and so on; at
    /// most 64. `tallied` changes no result, but how long a count takes.
    pub fn new(alloc: Global, radices: &[u8], tallied: Tallied) -> Result<Slots, OutOfMemory>
        requires few { length radices.now ≤ 64 }
        requires radices { All (λ r. (1 ≤ r) × (r ≤ 8)) radices.now }
        ensures { IfOk result (λ s. s ≡ map empty_page radices.now) }
    {
        let tallies = Tallies::new(alloc, tallied)?;
        let pages = Pages::new(alloc, radices)?;
        Ok(Slots { pages, tallies })
    }

    /// The pages and the tallies.
    fn into_parts(self) -> (Pages, Tallies) {
        let Slots { pages, tallies } = self;
        (pages, tallies)
    }

    /// Clones the slots in the memory of spare ones. `OutOfMemory` if an allocation fails.
    pub fn copy_all(&self, alloc: Global, spare: Option<Slots>) -> Result<Slots, OutOfMemory>
        ensures { IfOk result (λ s. s ≡ self.now) }
    {
        let (pages, tallies) = match spare {
            Some(spare) => {
                let (pages, tallies) = spare.into_parts();
                (Some(pages), Some(tallies))
            }
            None => (None, None),
        };
        Ok(Slots {
            pages: self.pages.copy(alloc, pages)?,
            tallies: self.tallies.copy(alloc, tallies)?,
        })
    }

    /// Adds an empty CNode with a radix from 1 to 8; fewer than 64 must exist, as `len` tells. Its
    /// serial is the next. If the allocation of its slots fails, nothing changes.
    pub fn add(&mut self, radix: u8) -> Result<(), OutOfMemory>
        requires few { length self.old < 64 }
        requires some { 1 ≤ radix }
        requires small { radix ≤ 8 }
        ensures added { OnOk result (self.new ≡ self.old ++ empty_page radix ∷ []) }
        ensures refused { OnErr result (self.new ≡ self.old) }
    {
        self.pages.add(radix)?;
        Ok(())
    }

    /// Proves that there are at most 64 CNodes, each with a radix from 1 to 8 and with 2 to the
    /// radix slots.
    pub fn are_pages(&self)
        ensures few { length self.now ≤ 64 }
        ensures pages { ArePages self.now }
    {
        self.pages.are_pages();
    }

    /// Returns how many CNodes there are.
    pub fn len(&self) -> usize
        ensures { result ≡ length self.now }
    {
        self.pages.len()
    }

    /// Returns the slots of a CNode; None if it does not exist.
    pub fn page(&self, cnode: ObjId) -> Option<&Page>
        ensures { option_copied result ≡ page_at self.now cnode }
    {
        self.pages.page(cnode)
    }

    /// Returns the radix of a CNode; None if it does not exist.
    pub fn radix(&self, cnode: ObjId) -> Option<u8>
        ensures { result ≡ radix_of self.now cnode }
    {
        self.pages.radix(cnode)
    }

    /// The capability in a slot, or None if the slot is empty or not there.
    pub fn get(&self, slot: SlotId) -> Option<Cap>
        ensures { result ≡ slot_at self.now slot.cnode slot.index }
    {
        self.pages.get(slot)
    }

    /// Returns whether a slot exists: its index is below 2 to the radix of its CNode.
    pub fn has_slot(&self, slot: SlotId) -> bool
        ensures { IsTrue result ↔ HasSlot self.now slot }
    {
        self.pages.has_slot(slot)
    }

    /// Fills or empties an existing slot; what it held is dropped.
    // inlined, so that the capability stays in registers
    #[inline(always)]
    pub fn set(&mut self, slot: SlotId, cap: Option<Cap>)
        requires { HasSlot self.old slot }
        ensures { self.new ≡ filled self.old slot cap }
    {
        // There are few slots, so no tally overflows.
        self.pages.are_pages();
        let held = self.pages.set(slot, cap_again(&cap));
        self.tallies.let_go(&held);
        self.tallies.count(&cap);
    }

    /// Puts a capability into an existing slot; what it held is dropped.
    pub fn put(&mut self, slot: SlotId, cap: Cap)
        requires { HasSlot self.old slot }
        ensures { self.new ≡ filled self.old slot (Some cap) }
    {
        self.set(slot, Some(cap));
    }

    /// Empties an existing slot, and returns what it held.
    pub fn take(&mut self, slot: SlotId) -> Option<Cap>
        requires { HasSlot self.old slot }
        ensures cap { result ≡ slot_at self.old slot.cnode slot.index }
        ensures emptied { self.new ≡ filled self.old slot None }
    {
        let cap = self.get(slot);
        self.set(slot, None);
        cap
    }

    fn source_of(&self, source: SlotId, dest: SlotId) -> Result<Cap, Refusal>
        ensures { result ≡ source_cap self.now source dest }
    {
        match self.get(source) {
            None => Err(Refusal::SlotEmpty),
            Some(cap) if self.get(dest).is_none() => Ok(cap),
            Some(_) => Err(Refusal::SlotFull),
        }
    }

    fn copied(&self, source: SlotId, dest: SlotId, rights: Rights) -> Result<Cap, Refusal>
        ensures { result ≡ copy_of self.now source dest rights }
    {
        let cap = self.source_of(source, dest)?;
        Ok(with_mask(&cap, rights))
    }

    fn minted(
        &self,
        source: SlotId,
        dest: SlotId,
        rights: Rights,
        badge: Badge,
    ) -> Result<Cap, Refusal>
        ensures { result ≡ mint_of self.now source dest rights badge }
    {
        let cap = self.source_of(source, dest)?;
        if !takes_badge(&cap) {
            return Err(Refusal::WrongKind);
        }
        if cap.badge.0 != 0 {
            return Err(Refusal::BadgeNotAllowed);
        }
        Ok(with_badge(&cap, rights, badge))
    }

    /// Copies a capability into another slot with those of its rights that are asked for; both
    /// slots must exist (manual: Capability Spaces). Refused, in this order, if the source is empty
    /// (SlotEmpty) or the destination is full (SlotFull): then nothing changes.
    pub fn copy(&mut self, source: SlotId, dest: SlotId, rights: Rights) -> Result<(), Refusal>
        requires source { HasSlot self.old source }
        requires dest { HasSlot self.old dest }
        ensures answer { result ≡ answered (copy_of self.old source dest rights) }
        ensures filled { Fills self.old self.new dest (copy_of self.old source dest rights) }
        ensures refused { OnErr result (self.new ≡ self.old) }
    {
        let cap = self.copied(source, dest, rights)?;
        self.set(dest, Some(cap));
        Ok(())
    }

    /// Copies a capability like `copy`, and sets its badge. Refused like `copy`, then if the
    /// capability is to no endpoint or notification (WrongKind), and if the source's badge is not 0
    /// (BadgeNotAllowed): then nothing changes.
    pub fn mint(
        &mut self,
        source: SlotId,
        dest: SlotId,
        rights: Rights,
        badge: Badge,
    ) -> Result<(), Refusal>
        requires source { HasSlot self.old source }
        requires dest { HasSlot self.old dest }
        ensures answer { result ≡ answered (mint_of self.old source dest rights badge) }
        ensures filled { Fills self.old self.new dest (mint_of self.old source dest rights badge) }
        ensures refused { OnErr result (self.new ≡ self.old) }
    {
        let cap = self.minted(source, dest, rights, badge)?;
        self.set(dest, Some(cap));
        Ok(())
    }

    /// Moves a capability unchanged into another slot, and empties its own. Refused like `copy`:
    /// then nothing changes.
    pub fn move_cap(&mut self, source: SlotId, dest: SlotId) -> Result<(), Refusal>
        requires source { HasSlot self.old source }
        requires dest { HasSlot self.old dest }
        ensures answer { result ≡ answered (source_cap self.old source dest) }
        ensures moved { Moves self.old self.new source dest (source_cap self.old source dest) }
        ensures refused { OnErr result (self.new ≡ self.old) }
    {
        let cap = self.source_of(source, dest)?;
        self.set(dest, Some(cap));
        self.set(source, None);
        Ok(())
    }

    /// Returns how many slots hold a capability to an object: by the tally of its bucket, or, if
    /// the bucket counts another object or has no tally, by visiting all slots (own).
    pub fn count_of(&self, obj: ObjId) -> u32
        ensures { result ≡ held self.now obj }
    {
        match self.tallies.of_bucket(obj) {
            Some(tally) if tally.owns(obj) => tally.held(),
            _ => self.pages.count_of(obj),
        }
    }
}
