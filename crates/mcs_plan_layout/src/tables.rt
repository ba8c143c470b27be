//! The table of names of each thread.
ghost use Rattle.std.specs.Prelude.{◌≡◌, ◌<◌, ◌+◌, ◌++◌, ◌∷◌, ◌^◌, [], IfOk, OnOk, map, slice_get, string_bytes};
ghost use Rattle.mcs_plan_source.specs.Saying.{said, said_space};
ghost use Rattle.mcs_plan_layout.specs.SpaceLayouts.{IsLaidOut};
ghost use Rattle.mcs_plan_layout.specs.Tables.{row_of, rows_of, table_rows, row_at, held_then, address_in, naming_address, path_of, inner_row, inner_slot, inner_rows};
ghost use Rattle.mcs_plan_layout.specs.Tables.{rows_inside, own_rows, table_of, tables_by};

use crate::Layout;
use crate::laid::PlanLayout;
use crate::spaces::{slot_at, slot_count, space_at};
use mcs_plan_source::{Slot, Space};
use mcs_types::{Cap, Kind, Place};
use std::alloc::{AllocError, Global};

/// A name in a thread's table, what its slot holds after the boot, and how the plan wrote it.
#[derive(Drop)]
pub struct Named {
    pub name: String,
    pub written: String,
    /// The capability; None for an empty slot.
    pub cap: Option<Cap>,
    /// The address by which an entry names what the slot holds; None for a capability to a CNode,
    /// since lookup continues through it.
    pub address: Option<u64>,
    /// The place of the slot.
    pub place: Place,
}

/// An inner space: the name of the slot that holds a capability to it, the address of its slot 0,
/// and its index among the spaces.
#[derive(Clone, Copy)]
struct Held<'a> {
    outer: &'a str,
    first: u64,
    space: usize,
}

/// Returns a name in such an inner space: `OUTER/INNER`.
fn path_of(alloc: Global, outer: &str, inner: &str) -> Result<String, AllocError>
    ensures { IfOk result (λ path. string_bytes path ≡ path_of outer.now inner.now) }
{
    let mut path = String::from_str(alloc, outer)?;
    path.push_str("/")?;
    path.push_str(inner)?;
    Ok(path)
}

/// The address of a slot.
#[tactic(auto, using(crate::proofs::Addresses::address_few))]
fn address_in(layout: &Layout, index: u32) -> u64
    requires laid_out { IsLaidOut layout.now }
    requires within { index < 2 ^ (layout.now.root + layout.now.leaf) }
    ensures value { result ≡ address_in layout.now index }
    ensures few { result < 2 ^ 63 }
{
    layout.address(index)
}

/// Returns the address by which an entry names what a slot holds; None for a capability to a CNode,
/// since lookup continues through it.
fn naming_address(cap: Option<Cap>, address: u64) -> Option<u64>
    ensures { result ≡ naming_address cap address }
{
    match cap {
        Some(cap) if cap.obj.kind.is_same(Kind::CNode) => None,
        Some(_) | None => Some(address),
    }
}

/// Adds a row.
#[tactic(auto, using(crate::proofs::MoreRows::row_more))]
fn push(to: &mut Vec<Named>, named: Named) -> Result<(), AllocError>
    ensures { OnOk result (rows_of to.new.items ≡ rows_of to.old.items ++ row_of named ∷ []) }
{
    to.push(named)?;
    Ok(())
}

impl PlanLayout {
    /// Returns the capability that a slot of a space holds after the boot, with its guard if it is
    /// to a CNode; None for an empty slot.
    fn held(&self, space: usize, slot: &Slot) -> Option<Cap>
        ensures { result ≡ held_then self.now.layouts.items space slot.now.cap }
    {
        match &slot.cap {
            Some(cap) => Some(self.guarded(space, cap)),
            None => None,
        }
    }

    /// Returns the row of a slot at this address of an inner space.
    fn inner_row(
        &self,
        alloc: Global,
        held: Held<'_>,
        address: u64,
        name: &str,
        slot: &Slot,
    ) -> Result<Named, AllocError>
        ensures { IfOk result (λ n. row_of n ≡ inner_row self.now.layouts.items
            held.entry.outer.now held.entry.space address name.now slot.now.cap) }
    {
        Ok(Named {
            name: path_of(alloc, held.outer, name)?,
            written: slot.written.clone()?,
            cap: self.held(held.space, slot),
            address: naming_address(slot.cap, address),
            place: Place {
                index: address,
                depth: 64,
            },
        })
    }

    /// Adds the row of the slot at an index, from 0, of an inner space.
    fn add_inner_slot(
        &self,
        alloc: Global,
        to: &mut Vec<Named>,
        held: Held<'_>,
        space: &Space,
        index: usize,
    ) -> Result<(), AllocError>
        requires first { held.first < 2 ^ 63 }
        requires index { index < 2 ^ 63 }
        ensures { OnOk result (rows_of to.new.items ≡ rows_of to.old.items
            ++ row_at (inner_slot self.now.layouts.items held.entry.outer.now held.entry.first
            held.entry.space) index (slice_get (said_space space.now).slots index)) }
    {
        let Some((name, slot)) = slot_at(space, index) else {
            return Ok(());
        };
        let address = held.first + (index as u64 + 1);
        let named = self.inner_row(alloc, held, address, name, slot)?;
        push(to, named)
    }

    /// Adds the rows of an inner space.
    fn add_inner(
        &self,
        alloc: Global,
        to: &mut Vec<Named>,
        held: Held<'_>,
    ) -> Result<(), AllocError>
        requires { held.first < 2 ^ 63 }
        ensures { OnOk result (rows_of to.new.items ≡ rows_of to.old.items
            ++ inner_rows self.now.layouts.items held.entry.outer.now held.entry.first
            held.entry.space (slice_get (said self.now.plan).spaces held.entry.space)) }
    {
        let Some(space) = space_at(&self.plan.spaces, held.space) else {
            return Ok(());
        };
        for index in 0..slot_count(space) {
            self.add_inner_slot(alloc, to, held, space, index)?;
        }
        Ok(())
    }

    /// Adds the rows below a slot: those of the CNode to which it holds a capability.
    fn add_rows_inside(
        &self,
        alloc: Global,
        to: &mut Vec<Named>,
        outer: &str,
        first: u64,
        cap: Option<Cap>,
    ) -> Result<(), AllocError>
        requires { first < 2 ^ 63 }
        ensures { OnOk result (rows_of to.new.items ≡ rows_of to.old.items ++ rows_inside
            self.now.layouts.items (said self.now.plan).spaces outer.now first cap) }
    {
        let Some(cap) = cap else {
            return Ok(());
        };
        match cap.obj.place(Kind::CNode) {
            Some(space) => self.add_inner(
                alloc,
                to,
                Held {
                    outer,
                    first,
                    space,
                },
            ),
            None => Ok(()),
        }
    }

    /// Adds the row of the slot at an index, from 0, of the space at an index, and those below it.
    #[tactic(auto, using(crate::proofs::MoreRows::after_one))]
    fn add_own(
        &self,
        alloc: Global,
        to: &mut Vec<Named>,
        place: usize,
        space: &Space,
        index: usize,
    ) -> Result<(), AllocError>
        requires { index < 2 ^ 63 }
        ensures { OnOk result (rows_of to.new.items ≡ rows_of to.old.items
            ++ row_at (own_rows self.now.layouts.items (said self.now.plan).spaces place) index
            (slice_get (said_space space.now).slots index)) }
    {
        let Some((name, slot)) = slot_at(space, index) else {
            return Ok(());
        };
        let layout = self.layout(place);
        if !layout.has(index + 1) {
            return Ok(());
        }
        let number = index as u32 + 1;
        let address = address_in(&layout, number);
        let own = Named {
            name: String::from_str(alloc, name)?,
            written: slot.written.clone()?,
            cap: self.held(place, slot),
            address: naming_address(slot.cap, address),
            place: layout.place(number),
        };
        push(to, own)?;
        self.add_rows_inside(alloc, to, name, address, slot.cap)
    }

    /// Returns the table of names of a thread with this space.
    fn table(&self, alloc: Global, place: usize) -> Result<Vec<Named>, AllocError>
        ensures { IfOk result (λ table. rows_of table.items
            ≡ table_of self.now.layouts.items (said self.now.plan).spaces place) }
    {
        let mut table = Vec::new(alloc);
        let Some(space) = space_at(&self.plan.spaces, place) else {
            return Ok(table);
        };
        for index in 0..slot_count(space) {
            self.add_own(alloc, &mut table, place, space, index)?;
        }
        Ok(table)
    }

    /// Returns the table of names of each thread.
    pub fn tables_of(&self, alloc: Global) -> Result<Vec<Vec<Named>>, AllocError>
        ensures { IfOk result (λ tables. table_rows tables.items
            ≡ tables_by self.now.layouts.items (said self.now.plan)) }
    {
        let mut tables = Vec::new(alloc);
        for thread in &self.plan.threads {
            tables.push(self.table(alloc, thread.space)?)?;
        }
        Ok(tables)
    }
}
