//! A list of entries for each thread that has one, those of lower serials first.
ghost use Rattle.std.specs.Prelude.{ℕ, ◌≡◌, ◌<◌, ◌≤◌, ◌∷◌, ◌++◌, [], true, false, IfOk, OnOk, OnErr, option_copied, position, slice_get, take, drop, set, length, map, Some};
ghost use Rattle.mcs_types.specs.Ids.{same};
ghost use Rattle.mcs_turns.specs.Turns.{User, is_program};
ghost use Rattle.mcs_users.specs.Users.{again_at, begun_with, is_place_for, is_serial, gives_from, program_at, scheduled, straight, straightened, user_changes_slots, with_entry, with_more};

use mcs_turns::{Fill, Op, Schedule};
use mcs_types::{Entry, ObjId, OutOfMemory};
use std::alloc::Global;
use std::marker::Model;

/// A user: its thread, its entries, the entry from which the list repeats, from 0 (None if it
/// ends), its program with what that fills in, and its schedule. Without a program it gives its
/// entries in order.
#[derive(Drop)]
pub struct UserList {
    pub thread: ObjId,
    pub entries: Vec<Entry>,
    pub again: Option<usize>,
    pub ops: Vec<Op>,
    pub fills: Vec<Fill>,
    pub schedule: Schedule,
}

impl Model for UserList {
    ghost use Rattle.mcs_turns.specs.Turns.{User};

    ghost Value = { User };

    ghost view = { λ l. record {
      thread = l.thread;
      entries = l.entries.items;
      again = l.again;
      ops = l.ops.items;
      fills = l.fills.items;
      schedule = l.schedule;
    } };
}

/// Adds an element to the end. `OutOfMemory` if an allocation fails.
pub fn push<T: Drop>(items: &mut Vec<T>, item: T) -> Result<(), OutOfMemory>
    ensures { OnOk result (items.new.items ≡ items.old.items ++ item ∷ []) }
{
    match items.push(item) {
        Ok(()) => Ok(()),
        Err(_) => Err(OutOfMemory),
    }
}

impl UserList {
    /// A thread with one entry.
    fn new(alloc: Global, thread: ObjId, entry: Entry) -> Result<UserList, OutOfMemory>
        ensures { IfOk result (λ l. l ≡ begun_with thread entry) }
    {
        let mut entries = Vec::new(alloc);
        match entries.push(entry) {
            Ok(()) => Ok(UserList {
                thread,
                entries,
                again: None,
                ops: Vec::new(alloc),
                fills: Vec::new(alloc),
                schedule: Schedule::Serial,
            }),
            Err(_) => Err(OutOfMemory),
        }
    }

    /// The entry of a number, from 0, if there is one.
    pub fn at(&self, number: usize) -> Option<&Entry>
        ensures { option_copied result ≡ slice_get self.now.entries number }
    {
        self.entries.get(number)
    }

    /// Returns whether a program says which entry comes next.
    pub fn has_program(&self) -> bool
        ensures { result ≡ is_program self.now.ops }
    {
        !self.ops.is_empty()
    }

    /// Returns whether one of them may change capability slots.
    pub fn changes_slots(&self) -> bool
        ensures { result ≡ user_changes_slots self.now }
    {
        self.entries.iter().any(|entry| entry.changes_slots())
    }

    /// Returns whether its core picks its thread by the serial schedule.
    pub fn is_serial(&self) -> bool
        ensures { result ≡ is_serial self.now }
    {
        match self.schedule {
            Schedule::Serial => true,
            Schedule::Equal | Schedule::Any => false,
        }
    }

    /// Sets the schedule by which its core picks its thread.
    fn set_schedule(&mut self, schedule: Schedule)
        ensures { self.new ≡ scheduled schedule self.old }
    {
        self.schedule = schedule;
    }

    /// Returns its list as a program. `OutOfMemory` if an allocation fails.
    fn straight(&self, alloc: Global) -> Result<Vec<Op>, OutOfMemory>
        ensures { IfOk result (λ ops. ops.items ≡ straight self.now) }
    {
        let mut ops = Vec::with_capacity(alloc, self.entries.len())?;
        for number in 0..self.entries.len() {
            push(&mut ops, Op::Give(number))?;
        }
        if let Some(first) = self.again {
            push(&mut ops, Op::Jump(first))?;
        }
        Ok(ops)
    }

    /// Replaces the list by an equivalent program, unless it has a program. `OutOfMemory` if an
    /// allocation fails.
    fn straightened(self, alloc: Global) -> Result<UserList, OutOfMemory>
        ensures { IfOk result (λ l. l ≡ straightened self) }
    {
        if self.has_program() {
            return Ok(self);
        }
        let ops = self.straight(alloc)?;
        let mut list = self;
        list.ops = ops;
        Ok(list)
    }

    /// Adds an entry to the end. `OutOfMemory` if an allocation fails: then the list is as it was.
    fn push(&mut self, entry: Entry) -> Result<(), OutOfMemory>
        ensures added { OnOk result
            (self.new ≡ record self.old { entries = self.old.entries ++ entry ∷ [] }) }
        ensures unchanged { OnErr result (self.new ≡ self.old) }
    {
        self.entries.push(entry).map_err(|_| OutOfMemory)
    }
}

/// The lists of users, each of one thread. Clauses see a list of threads, each with its entries.
#[derive(Drop)]
pub(crate) struct Lists {
    alloc: Global,
    lists: Vec<UserList>,
}

impl Model for Lists {
    ghost use Rattle.std.specs.Prelude.{List};
    ghost use Rattle.mcs_turns.specs.Turns.{User};

    ghost Value = { List User };

    ghost view = { λ l. l.lists.items };
}

impl Lists {
    /// Returns the lists before any user has one.
    pub(crate) fn new(alloc: Global) -> Lists
        ensures { result ≡ [] }
    {
        Lists {
            alloc,
            lists: Vec::new(alloc),
        }
    }

    /// The lists, in order.
    pub(crate) fn as_slice(&self) -> &[UserList]
        ensures { result.now ≡ self.now }
    {
        self.lists.as_slice()
    }

    /// The list in a place, if there is one.
    pub(crate) fn at(&self, place: usize) -> Option<&UserList>
        ensures { option_copied result ≡ slice_get self.now place }
    {
        self.lists.get(place)
    }

    /// The place of a thread's list.
    pub(crate) fn find(&self, thread: ObjId) -> Option<usize>
        ensures { result ≡ position (λ u. same u.thread thread) self.now }
    {
        self.lists
            .iter()
            .position(|list| list.thread.is_same(thread))
    }

    /// Returns the index of a thread's list, or of the first list after where it belongs.
    fn place_for(&self, thread: ObjId) -> Option<usize>
        ensures { result ≡ position (λ u. is_place_for thread u) self.now }
    {
        self.lists.iter().position(|list| list.thread.is_same(thread)
            || thread.serial < list.thread.serial)
    }

    /// Returns whether the list at an index is that of a thread.
    fn is_at(&self, place: usize, thread: ObjId) -> bool
        ensures { (u : User) → slice_get self.now place ≡ Some u → result ≡ same u.thread thread }
    {
        match self.at(place) {
            Some(list) => list.thread.is_same(thread),
            None => false,
        }
    }

    /// Adds an entry to the end of the list at this index. `OutOfMemory` if an allocation fails:
    /// then the lists are as they were.
    fn push_at(&mut self, place: usize, entry: Entry) -> Result<(), OutOfMemory>
        requires { place < length self.old }
        ensures added { OnOk result ((u : User) → slice_get self.old place ≡ Some u
            → self.new ≡ set self.old place (with_more u entry)) }
        ensures unchanged { OnErr result (self.new ≡ self.old) }
    {
        let list = &mut self.lists[place];
        list.push(entry)
    }

    /// Inserts a list of one entry at an index.
    fn insert_at(&mut self, place: usize, thread: ObjId, entry: Entry) -> Result<(), OutOfMemory>
        requires { place ≤ length self.old }
        ensures added { OnOk result
            (self.new ≡ take place self.old ++ begun_with thread entry ∷ drop place self.old) }
        ensures unchanged { OnErr result (self.new ≡ self.old) }
    {
        let list = UserList::new(self.alloc, thread, entry)?;
        match self.lists.insert(place, list) {
            Ok(()) => Ok(()),
            Err(_) => Err(OutOfMemory),
        }
    }

    /// Adds an entry to the end of a thread's list. `OutOfMemory` if an allocation fails: then the
    /// lists are as they were.
    pub(crate) fn add(&mut self, thread: ObjId, entry: Entry) -> Result<(), OutOfMemory>
        ensures added { OnOk result (self.new ≡ with_entry self.old thread entry) }
        ensures unchanged { OnErr result (self.new ≡ self.old) }
    {
        let Some(place) = self.place_for(thread) else {
            let end = self.lists.len();
            return self.insert_at(end, thread, entry);
        };
        if self.is_at(place, thread) {
            self.push_at(place, entry)
        } else {
            self.insert_at(place, thread, entry)
        }
    }

    /// Makes the list at an index repeat from one of its entries, by the entry's number from 0.
    /// Nothing changes if it has no such entry.
    pub(crate) fn repeat_at(&mut self, place: usize, number: usize)
        requires { place < length self.old }
        ensures { self.new ≡ again_at self.old place number }
    {
        if number >= self.lists[place].entries.len() {
            return;
        }
        let list = &mut self.lists[place];
        list.again = Some(number);
    }

    /// Gives the list at an index a program, and the parts of messages that it fills in.
    pub(crate) fn program_at(&mut self, place: usize, ops: Vec<Op>, fills: Vec<Fill>)
        requires { place < length self.old }
        ensures { self.new ≡ program_at self.old place ops.items fills.items }
    {
        let list = &mut self.lists[place];
        list.ops = ops;
        list.fills = fills;
    }

    /// Sets the schedule by which cores pick the threads of all lists.
    pub(crate) fn set_schedule(&mut self, schedule: Schedule)
        ensures { self.new ≡ map (scheduled schedule) self.old }
    {
        for list in self.lists.iter_mut() {
            list.set_schedule(schedule);
        }
    }

    /// Replaces each list by an equivalent program, unless it has a program. `OutOfMemory` if an
    /// allocation fails.
    pub(crate) fn straightened(self) -> Result<Lists, OutOfMemory>
        ensures { IfOk result (λ l. l ≡ map straightened self) }
    {
        let Lists { alloc, lists } = self;
        let mut straight = Vec::with_capacity(alloc, lists.len())?;
        for list in lists {
            push(&mut straight, list.straightened(alloc)?)?;
        }
        Ok(Lists {
            alloc,
            lists: straight,
        })
    }
}
