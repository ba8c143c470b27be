//! A store of objects: a slab, and the place of each serial.
ghost use Rattle.std.specs.Prelude.{ℕ, ◌≡◌, ◌<◌, ◌≤◌, ◌↔◌, is_some, IsTrue, IfOk, OnOk, IfErr, OnErr, IsErr, IfNone, OnSome, IsSome, Some, None, false, option_copied, position};
ghost use Rattle.std.specs.List.{position_or_len};
ghost use Rattle.std.specs.Option.{option_copied_mut};
ghost use Rattle.std.specs.Borrow.{sem};
ghost use Rattle.mcs_objects.specs.Store.{IsMap, Adds, next_id, is_full, shape, empty_shape, one_more, IsOneFewer, WritesAt, PlacesOthers, HasPlaces, value_at, place_at, removed};
ghost use Rattle.mcs_types.specs.declared.id.ObjId.{ObjId};
ghost use Rattle.mcs_types.specs.Ids.{same, ChangesAt};
ghost use Rattle.mcs_objects.specs.Rows.{is_of, row_for, Rises};
ghost use Rattle.slab.specs.Slab.{slab_len};

use crate::full::NoRoom;
use mcs_types::{Kind, ObjId, OutOfMemory, copy_rows};
use slab::Slab;
use std::alloc::Global;
use std::marker::Model;

/// An object's serial, and the key of its value in the slab.
#[derive(Clone, Copy)]
struct Row {
    serial: u32,
    place: u16,
}

/// Up to 256 objects of one kind, each with a value (own). Serials count from 1 in the order of
/// making and are never reused, so the id of a removed object finds nothing. All memory is
/// allocated when it is made.
#[derive(Drop)]
pub struct Store<T> {
    kind: Kind,
    room: u16,
    given: u32,
    rows: Vec<Row>,
    values: Slab<T>,
}

impl<T> Model for Store<T> {
    ghost use Rattle.mcs_objects.specs.Store.{Objects};

    ghost Value = { Objects T };

    ghost use Rattle.mcs_objects.specs.Rows.{objects_of, IsSound};
    ghost use Rattle.std.specs.Prelude.{vec_capacity};

    ghost view = { λ s. record {
      kind = s.kind;
      room = s.room;
      given = s.given;
      list = objects_of s.rows.items s.values.slots;
    } };

    ghost invariant = { λ s. IsSound s.room s.given s.rows.items (vec_capacity s.rows) s.values };
}

/// Returns the index of the row with a serial, among rows in ascending order; their number if there
/// is none.
#[inline(always)]
fn position_of(rows: &[Row], serial: u32) -> usize
    requires { Rises 0 rows.now }
    ensures { result ≡ position_or_len (is_of serial) rows.now }
{
    // it is at the index of its serial until an earlier object is removed
    let first = serial.wrapping_sub(1) as usize;
    if first < rows.len() && rows[first].serial == serial {
        return first;
    }
    match search_row(rows, serial) {
        Some(at) => at,
        None => rows.len(),
    }
}

/// Returns the index of the row with a serial by binary search, if it exists.
#[inline(never)]
fn search_row(rows: &[Row], serial: u32) -> Option<usize>
    requires { Rises 0 rows.now }
    ensures { result ≡ position (is_of serial) rows.now }
{
    match rows.binary_search_by_key(&serial, |row| row.serial) {
        Ok(at) => Some(at),
        Err(_) => None,
    }
}

/// Returns the row of an id among the rows of objects of a kind.
fn find(rows: &[Row], kind: Kind, id: ObjId) -> Option<Row>
    requires { Rises 0 rows.now }
    ensures { result ≡ row_for kind id rows.now }
{
    if !id.kind.is_same(kind) {
        return None;
    }
    let at = position_of(rows, id.serial);
    if at < rows.len() {
        Some(rows[at])
    } else {
        None
    }
}

/// Returns a slab with the same values under the same keys, and capacity `room`.
fn copy_values<T: Clone>(values: &Slab<T>, room: u16) -> Result<Slab<T>, OutOfMemory>
    requires clones { (x y : T) → T.is_clone x y → y ≡ x }
    requires few { slab_len values.now ≤ room }
    ensures slots { IfOk result (λ s. s.slots ≡ values.now.slots) }
    ensures capacity { IfOk result (λ s. s.capacity ≡ room) }
{
    let mut copied = values.clone()?;
    copied.reserve_exact(room as usize - values.len())?;
    // A place must be below the room, and the slab's keys are below its capacity.
    if copied.capacity() > room as usize {
        return Err(OutOfMemory);
    }
    Ok(copied)
}

impl<T: Clone> Store<T> {
    /// The rows.
    fn into_rows(self) -> Vec<Row> {
        let Store {
            kind: _,
            room: _,
            given: _,
            rows,
            values: _,
        } = self;
        rows
    }

    /// Clones the store in the memory of a spare one; clones of values must equal the values (own).
    /// `OutOfMemory` if an allocation fails.
    pub fn copy(&self, alloc: Global, spare: Option<Store<T>>) -> Result<Store<T>, OutOfMemory>
        requires clones { (x y : T) → T.is_clone x y → y ≡ x }
        ensures { IfOk result (λ t. t ≡ self.now) }
    {
        let kind = self.kind;
        let rows = match spare {
            Some(spare) => spare.into_rows(),
            None => Vec::new(alloc),
        };
        Ok(Store {
            kind,
            room: self.room,
            given: self.given,
            rows: copy_rows(rows, &self.rows, self.room as usize)?,
            values: copy_values(&self.values, self.room)?,
        })
    }
}

impl<T: Drop> Store<T> {
    ghost use Rattle.mcs_objects.specs.Lends.{lends_value};

    /// Returns an empty store with room for n objects of this kind, 256 at most (own).
    pub fn with_room(alloc: Global, kind: Kind, n: u16) -> Result<Store<T>, OutOfMemory>
        requires { n ≤ 256 }
        ensures shape { IfOk result (λ s. shape s ≡ empty_shape kind n) }
        ensures values { IfOk result (λ s. (x : ObjId) → value_at s x ≡ None) }
        ensures places { IfOk result (λ s. (x : ObjId) → place_at s x ≡ None) }
    {
        let values = Slab::with_capacity(alloc, n as usize)?;
        // A place must be below n, and the slab's keys are below its capacity.
        if values.capacity() > n as usize {
            return Err(OutOfMemory);
        }
        Ok(Store {
            kind,
            room: n,
            given: 0,
            rows: Vec::with_capacity(alloc, n as usize)?,
            values,
        })
    }

    /// Proves that the store is a map: its serials ascend and were given, and its places differ and
    /// are below its room.
    fn is_map(&self)
        ensures { IsMap self.now }
    {
        let _ = &self.values;
    }

    /// Proves that two existing objects have different places below the store's room, so a place
    /// identifies its object. Existing objects were given serials (own).
    pub fn are_apart(&self)
        ensures { HasPlaces self.now }
    {
        self.is_map();
    }

    /// Returns whether no object can be made: the room is full, or each serial was given (own).
    pub fn is_full(&self) -> bool
        ensures { result ≡ is_full self.now }
    {
        self.rows.len() >= self.room as usize || self.given == u32::MAX
    }

    /// Adds an object at some place.
    fn push(&mut self, value: T) -> ObjId
        requires { is_full self.old ≡ false }
        ensures id { result ≡ next_id self.old }
        ensures added { Adds self.old self.new value }
    {
        let place = self.values.insert_reserved(value);
        self.given += 1;
        self.rows.push_reserved(Row {
            serial: self.given,
            place: place as u16,
        });
        ObjId {
            kind: self.kind,
            serial: self.given,
        }
    }

    /// Returns how many serials were given, one for each object made (own).
    pub fn given(&self) -> u32
        ensures { result ≡ (shape self.now).given }
    {
        self.given
    }

    /// Returns how many objects exist (own).
    pub fn len(&self) -> usize
        ensures { result ≡ (shape self.now).there }
    {
        self.rows.len()
    }

    /// Adds an object without allocating; there must be room. Its id has the store's kind and the
    /// next serial (own).
    pub fn add(&mut self, value: T) -> ObjId
        requires { is_full self.old ≡ false }
        ensures id { result ≡ next_id self.old }
        ensures shape { shape self.new ≡ one_more (shape self.old) }
        ensures values { WritesAt self.old self.new result value }
        ensures places { PlacesOthers self.old self.new result }
    {
        self.is_map();
        self.push(value)
    }

    /// Adds an object as `add` does. If the room is full or the last serial was given, it hands the
    /// value back, and changes nothing (own).
    pub fn make(&mut self, value: T) -> Result<ObjId, NoRoom<T>>
        ensures refused { IsErr result ↔ IsTrue (is_full self.old) }
        ensures id { IfOk result (λ id. id ≡ next_id self.old) }
        ensures shape { OnOk result (shape self.new ≡ one_more (shape self.old)) }
        ensures values { OnOk result (WritesAt self.old self.new (next_id self.old) value) }
        ensures places { OnOk result (PlacesOthers self.old self.new (next_id self.old)) }
        ensures value { IfErr result (λ e. e.value ≡ value) }
        ensures unchanged { OnErr result (self.new ≡ self.old) }
    {
        if self.is_full() {
            return Err(NoRoom { value });
        }
        Ok(self.add(value))
    }

    /// The value of an object, or None if it does not exist (own).
    pub fn get(&self, id: ObjId) -> Option<&T>
        ensures { option_copied result ≡ value_at self.now id }
    {
        let row = find(&self.rows, self.kind, id)?;
        self.values.get(row.place as usize)
    }

    /// Returns the value of an object for writing; None if it does not exist (own).
    pub fn get_mut(&mut self, id: ObjId) -> Option<&mut T>
        ensures* writes_back { sem 𝓛 (lends_value T.row self.entry id result) }
        ensures value { option_copied_mut result ≡ value_at self.old id }
    {
        let row = find(&self.rows, self.kind, id)?;
        self.values.get_mut(row.place as usize)
    }

    /// The value of an object that has this place (own).
    pub fn get_at(&self, id: ObjId, place: u16) -> Option<&T>
        requires { place_at self.now id ≡ Some place }
        ensures { option_copied result ≡ value_at self.now id }
    {
        self.values.get(place as usize)
    }

    /// Returns for writing the value of an object that has this place (own).
    pub fn get_mut_at(&mut self, id: ObjId, place: u16) -> Option<&mut T>
        requires { place_at self.old id ≡ Some place }
        ensures* writes_back { sem 𝓛 (lends_value T.row self.entry id result) }
        ensures value { option_copied_mut result ≡ value_at self.old id }
    {
        self.values.get_mut(place as usize)
    }

    /// Keeps another value for an existing object (own).
    pub fn set(&mut self, id: ObjId, value: T)
        requires { IsSome (value_at self.old id) }
        ensures shape { shape self.new ≡ shape self.old }
        ensures values { WritesAt self.old self.new id value }
        ensures places { (x : ObjId) → place_at self.new x ≡ place_at self.old x }
    {
        match self.get_mut(id) {
            None => unreachable!(),
            Some(place) => *place = value,
        }
    }

    /// Takes an object out.
    fn take(&mut self, id: ObjId) -> Option<T>
        ensures value { result ≡ value_at self.old id }
        ensures removed { self.new ≡ removed self.old id }
        ensures absent { IfNone result (self.new ≡ self.old) }
    {
        if !id.kind.is_same(self.kind) {
            return None;
        }
        let at = search_row(&self.rows, id.serial)?;
        let row = self.rows.remove(at);
        Some(self.values.remove(row.place as usize))
    }

    /// Removes an object and returns its value; None, and nothing changes, if it does not exist
    /// (own).
    pub fn remove(&mut self, id: ObjId) -> Option<T>
        ensures value { result ≡ value_at self.old id }
        ensures shape { OnSome result (IsOneFewer (shape self.old) (shape self.new)) }
        ensures values { ChangesAt (value_at self.old) (value_at self.new) id None }
        ensures places { ChangesAt (place_at self.old) (place_at self.new) id None }
        ensures absent { IfNone result (self.new ≡ self.old) }
    {
        self.is_map();
        self.take(id)
    }

    /// Returns the place of an object, below the store's room; None if it does not exist. It stays
    /// the same while the object exists, and differs between existing objects (own).
    pub fn place(&self, id: ObjId) -> Option<u16>
        ensures { result ≡ place_at self.now id }
    {
        let row = find(&self.rows, self.kind, id)?;
        Some(row.place)
    }
}
