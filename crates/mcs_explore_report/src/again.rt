//! Answered entries that a path gives again, as the rule of runs lets lists do.
use crate::mail::{brought, mailed_to};
use mcs_explore_orders::{OrdersFault, Turn, Users, Walk};
use mcs_explore_questions::Event;
use mcs_explore_script::{UserScript, fault_of};
use mcs_lab_check::LabFault;
use mcs_queues::PlainLines;
use mcs_types::Status;
use std::alloc::Global;

/// A path of turns as far as it was made, and for each user the entry in which it waited and that
/// was answered since, by its number from 0.
struct Path<'a> {
    alloc: Global,
    users: &'a Users,
    walk: Walk<PlainLines>,
    answered: Vec<Option<usize>>,
}

// Written by hand, so that it is proved once, as a separate function.
impl<'a> Drop for Path<'a> {
    fn drop(self) {
        let Path {
            alloc: _,
            users: _,
            walk: _,
            answered: _,
        } = self;
    }
}

impl<'a> Path<'a> {
    /// Returns the path before its first turn. `OutOfMemory` if an allocation fails.
    fn new(alloc: Global, script: &'a UserScript) -> Result<Path<'a>, OrdersFault> {
        let users = &script.users;
        let walk = Walk::new(alloc, &script.boot, users)?;
        let mut answered = Vec::new(alloc);
        answered.resize(users.lists().len(), None)?;
        Ok(Path {
            alloc,
            users,
            walk,
            answered,
        })
    }

    /// Returns whether a turn repeats an entry that was answered: one of a list whose thread was
    /// restarted.
    fn gives_again(&self, turn: Turn) -> bool {
        let Some(list) = self.users.at(turn.pick.user) else {
            return false;
        };
        let is_restarted = matches!(
            self.walk.kernel().status(list.thread),
            Some(Status::Restart)
        );
        let answered = self.answered.get(turn.pick.user).copied().flatten();
        is_restarted && !list.has_program() && answered == Some(turn.pick.number)
    }

    /// Notes which entry of a user was answered.
    fn note(&mut self, user: usize, entry: Option<usize>) {
        if let Some(answered) = self.answered.get_mut(user) {
            *answered = entry;
        }
    }

    /// Makes a turn, and notes which waiting entries it answered. `OutOfMemory` if an allocation
    /// fails.
    fn step(&mut self, turn: Turn) -> Result<(), OrdersFault> {
        let from = Vec::from_slice(self.alloc, self.walk.places())?;
        let picks = self.walk.picks(self.alloc, self.users)?;
        self.walk.turn(self.alloc, self.users, &picks, turn)?;
        self.note(turn.pick.user, None);
        for reached in brought(self.alloc, &self.walk)? {
            if let Some(entry) = mailed_to(self.users, &from, turn, &reached) {
                self.note(entry.user, Some(entry.number));
            }
        }
        Ok(())
    }

    /// Makes turns up to the first that repeats an answered entry, and returns that one.
    fn find(&mut self, turns: &[Turn]) -> Result<Option<Turn>, OrdersFault> {
        for turn in turns {
            if self.gives_again(*turn) {
                return Ok(Some(*turn));
            }
            self.step(*turn)?;
        }
        Ok(None)
    }
}

/// Returns the first entry that these turns repeat after its answer, if any. `OutOfMemory` if an
/// allocation fails.
pub fn given_again(
    alloc: Global,
    script: &UserScript,
    turns: &[Turn],
) -> Result<Option<Event>, LabFault> {
    let found = match Path::new(alloc, script) {
        Ok(mut path) => path.find(turns),
        Err(fault) => Err(fault),
    };
    match found {
        Ok(Some(turn)) => Ok(
            script.users.at(turn.pick.user).map(|list| Event {
                thread: list.thread,
                number: turn.pick.number.saturating_add(1),
            }),
        ),
        Ok(None) => Ok(None),
        Err(fault) => Err(fault_of(fault)),
    }
}
