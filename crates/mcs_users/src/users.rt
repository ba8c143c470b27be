//! Users: threads with their entries.
ghost use Rattle.std.specs.Prelude.{◌≡◌, [], IfOk, OnOk, OnErr, map, option_copied, position, slice_get};
ghost use Rattle.std.specs.List.{list_all};
ghost use Rattle.mcs_types.specs.Ids.{same};
ghost use Rattle.mcs_turns.specs.Turns.{User, AreApart};
ghost use Rattle.mcs_users.specs.Users.{change_slots, is_serial, scheduled, straightened, with_again, with_entry, with_program};

use crate::lists::{Lists, UserList};
use mcs_turns::{Fill, Op, Schedule};
use mcs_types::{Entry, ObjId, OutOfMemory};
use std::alloc::Global;
use std::marker::Model;

/// The users of a script, no two of one thread. Clauses see a list of threads, each with its
/// entries.
#[derive(Drop)]
pub struct Users {
    lists: Lists,
}

impl Model for Users {
    ghost use Rattle.std.specs.Prelude.{List};
    ghost use Rattle.mcs_turns.specs.Turns.{User};
    ghost use Rattle.mcs_users.specs.Users.{AreInOrder};

    ghost Value = { List User };

    ghost view = { λ u. u.lists };

    ghost invariant = { λ u. AreInOrder u.lists };
}

impl Users {
    /// Returns a list of no users.
    pub fn new(alloc: Global) -> Users
        ensures { result ≡ [] }
    {
        let lists = Lists::new(alloc);
        Users { lists }
    }

    /// The users, those of lower threads first.
    pub fn lists(&self) -> &[UserList]
        ensures { result.now ≡ self.now }
    {
        self.lists.as_slice()
    }

    /// Proves that no two users have one thread.
    pub fn are_apart(&self)
        ensures { AreApart self.now }
    {
        let _ = &self.lists;
    }

    /// The user in a place, if there is one.
    pub fn at(&self, place: usize) -> Option<&UserList>
        ensures { option_copied result ≡ slice_get self.now place }
    {
        self.lists.at(place)
    }

    /// The place of a thread's user.
    pub fn find(&self, thread: ObjId) -> Option<usize>
        ensures { result ≡ position (λ u. same u.thread thread) self.now }
    {
        self.lists.find(thread)
    }

    /// Returns whether an entry of some user may change capability slots.
    pub fn change_slots(&self) -> bool
        ensures { result ≡ change_slots self.now }
    {
        self.lists().iter().any(|user| user.changes_slots())
    }

    /// Adds an entry to the end of a thread's list. `OutOfMemory` if an allocation fails: then the
    /// lists are as they were.
    pub fn add(&mut self, thread: ObjId, entry: Entry) -> Result<(), OutOfMemory>
        ensures added { OnOk result (self.new ≡ with_entry self.old thread entry) }
        ensures unchanged { OnErr result (self.new ≡ self.old) }
    {
        self.lists.add(thread, entry)
    }

    /// Makes the list of a thread repeat from one of its entries, by the entry's number from 0.
    /// Nothing changes if it has no such entry.
    pub fn repeat(&mut self, thread: ObjId, number: usize)
        ensures { self.new ≡ with_again self.old thread number }
    {
        if let Some(place) = self.lists.find(thread) {
            self.lists.repeat_at(place, number);
        }
    }

    /// Gives the user of a thread a program, and the parts of messages that it fills in. Nothing
    /// changes if the thread has no user.
    pub fn program(&mut self, thread: ObjId, ops: Vec<Op>, fills: Vec<Fill>)
        ensures { self.new ≡ with_program self.old thread ops.items fills.items }
    {
        if let Some(place) = self.lists.find(thread) {
            self.lists.program_at(place, ops, fills);
        }
    }

    /// Sets the schedule by which cores pick the threads of all users.
    pub fn set_schedule(&mut self, schedule: Schedule)
        ensures { self.new ≡ map (scheduled schedule) self.old }
    {
        self.lists.set_schedule(schedule);
    }

    /// Replaces the list of each user by an equivalent program, unless it has a program: so it
    /// repeats no answered entry, even if its thread was restarted before it ran. `OutOfMemory` if
    /// an allocation fails.
    pub fn straightened(self) -> Result<Users, OutOfMemory>
        ensures { IfOk result (λ u. u ≡ map straightened self) }
    {
        let Users { lists } = self;
        let lists = lists.straightened()?;
        Ok(Users { lists })
    }

    /// Returns whether cores pick the threads of all users by the serial schedule.
    pub fn are_serial(&self) -> bool
        ensures { result ≡ list_all is_serial self.now }
    {
        self.lists().iter().all(|user| user.is_serial())
    }
}
