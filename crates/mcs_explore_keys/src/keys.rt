//! The keys of states: two states with one key have the same future.
ghost use Rattle.std.specs.Prelude.{◌≡◌, [], true, length, IfOk};
ghost use Rattle.mcs_explore_rows.specs.Naming.{Keeps};
ghost use Rattle.mcs_turns.specs.Turns.{ArePicks};
ghost use Rattle.mcs_explore_rows.specs.Rows.{IsKey, NameRows};

use crate::names::{CanonicalNames, Counts};
use crate::rows::{put_object, put_queue, put_slots, put_stale, put_thread};
use mcs_explore_rows::{Key, Numbers, Row, RowInterner, exact_numbers, key_of};
use mcs_explore_walk::{OrdersFault, Picks, Users, Walk, picked};
use mcs_kernel::{Boot, Kernel};
use mcs_queues::Lines;
use mcs_types::{CoreId, Kind, ObjId};
use std::alloc::Global;
use std::marker::Model;

/// The rows interned so far, and what all keys of a search have in common. Clauses see the rows in
/// the order of their numbers, and whether keys are exact.
#[derive(Drop)]
pub struct Keys {
    alloc: Global,
    met: RowInterner,
    counts: Counts,
    is_exact: bool,
    numbered: bool,
    changes_slots: bool,
}

impl Model for Keys {
    ghost use Rattle.mcs_explore_rows.specs.Naming.{Known};

    ghost Value = { Known };

    ghost view = { λ k. record { met = k.met; is_exact = k.is_exact; numbered = k.numbered } };
}

/// How many numbers a row has room for before it grows.
const ROOM: usize = 128;

/// Returns the id of the object of a kind at this index.
fn object_at(kind: Kind, place: u32) -> ObjId {
    ObjId {
        kind,
        serial: place.saturating_add(1),
    }
}

/// The kinds of objects with state of their own, beyond what threads, queues and slots say of them.
const KINDS: [Kind; 3] = [Kind::Notification, Kind::Reply, Kind::Context];

/// Adds the canonical rows of all threads; one buffer serves all of them.
fn put_threads<L: Lines>(
    met: &mut RowInterner,
    row: &mut Row,
    numbers: &mut Numbers,
    threads: u32,
    users: &Users,
    walk: &Walk<L>,
    names: &CanonicalNames,
) -> Result<(), OrdersFault>
    ensures { Keeps met.old met.new }
{
    for place in 0..threads {
        let thread = object_at(Kind::Thread, place);
        let position = match users.find(thread) {
            Some(user) => walk.place(user),
            None => None,
        };
        row.clear();
        put_thread(row, walk.kernel(), names, thread, position)?;
        met.put(numbers, row.clone()?)?;
    }
    Ok(())
}

impl Keys {
    /// Returns an interner without rows. If keys are exact, equal keys mean states with the same
    /// future; message numbers are left out if `numbered` is false. Otherwise objects made after
    /// the boot are named by the lowest slot that names them.
    pub fn new(alloc: Global, boot: &Boot, users: &Users, is_exact: bool, numbered: bool) -> Keys
        ensures { result ≡ record { met = []; is_exact = is_exact; numbered = numbered } }
    {
        Keys {
            alloc,
            met: RowInterner::new(alloc),
            counts: Counts::new(boot),
            is_exact,
            numbered,
            changes_slots: users.change_slots(),
        }
    }

    /// Returns how many rows were interned.
    pub fn rows(&self) -> usize
        ensures { result ≡ length self.now.met }
    {
        self.met.len()
    }

    /// Appends the rows of the objects of one kind, including those made later.
    fn put_kind<L: Lines>(
        &self,
        row: &mut Row,
        kernel: &Kernel<L>,
        names: &CanonicalNames,
        kind: Kind,
    ) -> Result<(), OrdersFault> {
        for place in 0..self.counts.of(kind) {
            put_object(row, kernel, names, object_at(kind, place))?;
        }
        for object in names.later() {
            if object.kind.is_same(kind) {
                put_object(row, kernel, names, *object)?;
            }
        }
        Ok(())
    }

    /// Appends all objects but threads and CNodes.
    fn put_objects<L: Lines>(
        &self,
        row: &mut Row,
        kernel: &Kernel<L>,
        names: &CanonicalNames,
    ) -> Result<(), OrdersFault> {
        row.clear();
        for place in 0..self.counts.of(Kind::Thread) {
            put_queue(row, kernel, names, object_at(Kind::Thread, place))?;
        }
        for kind in KINDS.iter() {
            self.put_kind(row, kernel, names, *kind)?;
        }
        Ok(())
    }

    /// Appends all slots.
    fn put_all_slots<L: Lines>(
        &self,
        row: &mut Row,
        kernel: &Kernel<L>,
        names: &CanonicalNames,
    ) -> Result<(), OrdersFault> {
        row.clear();
        for place in 0..self.counts.of(Kind::CNode) {
            put_slots(row, kernel, names, object_at(Kind::CNode, place))?;
        }
        Ok(())
    }

    /// Adds the number of the row of all slots, if slots may change.
    fn name_slots<L: Lines>(
        &mut self,
        row: &mut Row,
        numbers: &mut Numbers,
        kernel: &Kernel<L>,
        names: &CanonicalNames,
    ) -> Result<(), OrdersFault>
        ensures kept { Keeps self.old.met self.new.met }
        ensures mode { self.new.is_exact ≡ self.old.is_exact }
        ensures apart { self.new.numbered ≡ self.old.numbered }
    {
        if !self.changes_slots {
            return Ok(());
        }
        self.put_all_slots(row, kernel, names)?;
        self.met.put(numbers, row.clone()?)?;
        Ok(())
    }

    /// Appends the stale picks of each core.
    fn put_all_stale<L: Lines>(
        &self,
        row: &mut Row,
        walk: &Walk<L>,
        picks: &[Picks],
    ) -> Result<(), OrdersFault> {
        row.clear();
        for core in 0..walk.kernel().book().cores() {
            let picks = picked(picks, core as usize);
            put_stale(row, walk, CoreId(core), picks)?;
        }
        Ok(())
    }

    /// Returns the numbers of the canonical rows of a state, given the picks of its cores.
    fn canonical_numbers<L: Lines>(
        &mut self,
        users: &Users,
        walk: &Walk<L>,
        picks: &[Picks],
    ) -> Result<Numbers, OrdersFault>
        ensures kept { Keeps self.old.met self.new.met }
        ensures mode { self.new.is_exact ≡ self.old.is_exact }
        ensures apart { self.new.numbered ≡ self.old.numbered }
    {
        let kernel = walk.kernel();
        let names = CanonicalNames::new(self.alloc, kernel, self.counts, self.changes_slots)?;
        let threads = self.counts.of(Kind::Thread);
        let mut row = Vec::with_capacity(self.alloc, ROOM)?;
        let mut numbers = Vec::with_capacity(self.alloc, (threads as usize).saturating_add(3))?;
        put_threads(
            &mut self.met,
            &mut row,
            &mut numbers,
            threads,
            users,
            walk,
            &names,
        )?;
        self.put_objects(&mut row, kernel, &names)?;
        self.met.put(&mut numbers, row.clone()?)?;
        self.name_slots(&mut row, &mut numbers, kernel, &names)?;
        self.put_all_stale(&mut row, walk, picks)?;
        self.met.put(&mut numbers, row.clone()?)?;
        Ok(numbers)
    }

    /// Returns the numbers of the rows of a state, given the picks of its cores.
    fn numbers<L: Lines>(
        &mut self,
        users: &Users,
        walk: &Walk<L>,
        picks: &[Picks],
    ) -> Result<Numbers, OrdersFault>
        requires { ArePicks users.now walk.now picks.now }
        ensures exact { self.old.is_exact ≡ true
            → IfOk result (λ n.
            NameRows self.old.numbered self.new.met users.now walk.now n.items) }
        ensures kept { Keeps self.old.met self.new.met }
        ensures mode { self.new.is_exact ≡ self.old.is_exact }
        ensures apart { self.new.numbered ≡ self.old.numbered }
    {
        if self.is_exact {
            let numbers = exact_numbers(
                self.alloc,
                &mut self.met,
                users,
                walk,
                picks,
                self.numbered,
            )?;
            return Ok(numbers);
        }
        self.canonical_numbers(users, walk, picks)
    }

    /// Returns the key of a state, given the picks of its cores. If keys are exact, it names the
    /// state's rows among those interned. `OutOfMemory` if an allocation fails.
    pub fn key<L: Lines>(
        &mut self,
        users: &Users,
        walk: &Walk<L>,
        picks: &[Picks],
    ) -> Result<Key, OrdersFault>
        requires { ArePicks users.now walk.now picks.now }
        ensures exact { self.old.is_exact ≡ true
            → IfOk result (λ k. IsKey self.old.numbered self.new.met users.now walk.now k.items) }
        ensures kept { Keeps self.old.met self.new.met }
        ensures mode { self.new.is_exact ≡ self.old.is_exact }
        ensures apart { self.new.numbered ≡ self.old.numbered }
    {
        let numbers = self.numbers(users, walk, picks)?;
        let key = key_of(self.alloc, &numbers)?;
        Ok(key)
    }
}
