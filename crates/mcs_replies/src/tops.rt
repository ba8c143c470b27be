//! The top of each context's chain, found by the serial of the context.
ghost use Rattle.std.specs.Prelude.{◌≡◌, ◌≤◌, ◌<◌, ◌++◌, ◌%◌, position, length, replicate, vec_len, vec_capacity, [], Some, None, IsSome, IfOk};
ghost use Rattle.mcs_types.specs.Limits.{object_limit};
ghost use Rattle.mcs_replies.specs.Places.{place_number};
ghost use Rattle.mcs_replies.specs.Tops.{is_for, top_among, row_of, entered_among, left_among, home, top_at, takes_home, entered, left, moved};

use crate::places::PlaceNo;
use mcs_types::{OBJECTS, ObjId, OutOfMemory, copy_rows};
use std::alloc::Global;
use std::marker::Model;

/// The top of the chain of a context, as the place of a reply object (own).
#[derive(Clone, Copy)]
pub struct Top {
    context: ObjId,
    top: PlaceNo,
}

/// The top of each chain that is not empty (own). The row of a context is at its home, which
/// follows from its serial, or among the others, if another context had taken that home: their
/// serials then differ by a multiple of 256, which is rare.
#[derive(Drop)]
pub struct Tops {
    homes: Vec<Option<Top>>,
    others: Vec<Top>,
}

impl Model for Tops {
    ghost use Rattle.std.specs.Prelude.{◌≡◌, ◌≤◌, length, vec_capacity};
    ghost use Rattle.mcs_types.specs.Limits.{object_limit};
    ghost use Rattle.mcs_replies.specs.Tops.{TopRows};

    ghost Value = { TopRows };

    ghost view = { λ t. record { homes = t.homes.items; others = t.others.items } };

    ghost invariant = { λ t. (length t.homes.items ≡ object_limit)
        × (object_limit ≤ vec_capacity t.others) };
}

/// Returns the index of a context's row among those not at home.
fn place_among(others: &[Top], context: ObjId) -> Option<usize>
    ensures { result ≡ position (is_for context) others.now }
{
    others.iter().position(|row| row.context.is_same(context))
}

/// Returns the top of the chain of a context whose row is not at home.
fn top_among(others: &[Top], context: ObjId) -> Option<PlaceNo>
    ensures { place_number result ≡ top_among others.now context }
{
    let at = place_among(others, context)?;
    Some(others[at].top)
}

/// Adds a row; there must be room.
fn push_row(others: &mut Vec<Top>, context: ObjId, top: PlaceNo)
    requires { vec_len others.old < vec_capacity others.old }
    ensures items { others.new.items ≡ others.old.items ++ row_of context top.0 }
    ensures capacity { vec_capacity others.old ≤ vec_capacity others.new }
{
    match others.push(Top { context, top }) {
        Ok(()) => {}
        Err(_) => unreachable!(),
    }
}

/// Sets the top in the row of a context, or adds a row; there must be room for one.
fn enter_among(others: &mut Vec<Top>, context: ObjId, top: PlaceNo)
    requires { top_among others.old.items context ≡ None
        → vec_len others.old < vec_capacity others.old }
    ensures items { others.new.items ≡ entered_among context top.0 others.old.items }
    ensures capacity { vec_capacity others.old ≤ vec_capacity others.new }
{
    match place_among(others, context) {
        Some(at) => others[at].top = top,
        None => push_row(others, context, top),
    }
}

/// Removes the row of a context, if it has one.
fn leave_among(others: &mut Vec<Top>, context: ObjId)
    ensures items { others.new.items ≡ left_among context others.old.items }
    ensures capacity { vec_capacity others.old ≤ vec_capacity others.new }
{
    if let Some(at) = place_among(others, context) {
        others.remove(at);
    }
}

/// Returns the home index of a context.
#[inline(always)]
fn home_of(context: ObjId) -> usize
    ensures home { result ≡ home context }
    ensures within { result < object_limit }
{
    (context.serial % OBJECTS as u32) as usize
}

impl Tops {
    /// Returns an empty table of tops, with room for those of 256 chains.
    pub(crate) fn new(alloc: Global) -> Result<Tops, OutOfMemory>
        ensures homes { IfOk result (λ t. t.homes ≡ replicate object_limit None) }
        ensures others { IfOk result (λ t. t.others ≡ []) }
    {
        let nothing: Option<Top> = None;
        Ok(Tops {
            homes: Vec::from_elem(alloc, nothing, OBJECTS as usize)?,
            others: Vec::with_capacity(alloc, OBJECTS as usize)?,
        })
    }

    /// Clones the tops in the memory of spare ones. `OutOfMemory` if an allocation fails.
    pub(crate) fn copy(&self, alloc: Global, spare: Option<Tops>) -> Result<Tops, OutOfMemory>
        ensures { IfOk result (λ t. t ≡ self.now) }
    {
        let (homes, others) = match spare {
            Some(Tops { homes, others }) => (homes, others),
            None => (Vec::new(alloc), Vec::new(alloc)),
        };
        Ok(Tops {
            homes: copy_rows(homes, &self.homes, OBJECTS as usize)?,
            others: copy_rows(others, &self.others, OBJECTS as usize)?,
        })
    }

    /// The top of the chain of a context, or None if the chain is empty.
    pub(crate) fn top(&self, context: ObjId) -> Option<PlaceNo>
        ensures { place_number result ≡ top_at self.now context }
    {
        match self.homes[home_of(context)] {
            Some(row) if row.context.is_same(context) => Some(row.top),
            _ => top_among(&self.others, context),
        }
    }

    /// Returns whether the row of a context belongs at home.
    fn takes_home(&self, context: ObjId) -> bool
        ensures { result ≡ takes_home self.now context }
    {
        match self.homes[home_of(context)] {
            Some(row) => row.context.is_same(context),
            None => top_among(&self.others, context).is_none(),
        }
    }

    /// Sets the top of the chain of a context.
    fn enter(&mut self, context: ObjId, top: PlaceNo)
        requires { top_at self.old context ≡ None → length self.old.others < object_limit }
        ensures { self.new ≡ entered context top.0 self.old }
    {
        if self.takes_home(context) {
            self.homes[home_of(context)] = Some(Top { context, top });
        } else {
            enter_among(&mut self.others, context, top);
        }
    }

    /// Clears the top of the chain of a context.
    fn leave(&mut self, context: ObjId)
        ensures { self.new ≡ left context self.old }
    {
        let home = home_of(context);
        match self.homes[home] {
            Some(row) if row.context.is_same(context) => self.homes[home] = None,
            _ => leave_among(&mut self.others, context),
        }
    }

    /// Sets the top of a context's chain, or clears it (None). A context that has no top yet needs
    /// room for one.
    // inlined: callers know whether there is one
    #[inline(always)]
    pub(crate) fn move_to(&mut self, context: ObjId, top: Option<PlaceNo>)
        requires { IsSome top → top_at self.old context ≡ None
            → length self.old.others < object_limit }
        ensures { self.new ≡ moved context (place_number top) self.old }
    {
        match top {
            Some(place) => self.enter(context, place),
            None => self.leave(context),
        }
    }
}
