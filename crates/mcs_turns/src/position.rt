//! The position of a user (own).
ghost use Rattle.std.specs.Prelude.{◌≡◌, ◌+◌, ◌<◌, ◌^◌, nat_lt};
ghost use Rattle.mcs_turns.specs.Due.{due_by, begun, moved_past, is_same, is_ahead};

use crate::program::Saved;
use mcs_types::{Answer, Status};

/// The position of a user: the number of its next entry, from 0, the number of its last one if that
/// waits, and the words that its program keeps.
#[derive(Clone, Copy, Drop)]
pub struct Position {
    pub next: usize,
    pub waited: Option<usize>,
    pub saved: Saved,
}

/// Which threads a core may pick, of those that may enter there (own).
#[derive(Clone, Copy, Drop)]
pub enum Schedule {
    /// The one of the greatest priority; among equals, of the lowest serial.
    Serial,
    /// Any of the greatest priority: what budgets that end in turn allow.
    Equal,
    /// Any: what budgets that end at any point allow.
    Any,
}

/// An entry that a core picked: the number of the user, from 0, and that of the entry in the user's
/// list, from 0.
#[derive(Clone, Copy, Drop, Default)]
pub struct Pick {
    pub user: usize,
    pub number: usize,
}

impl Position {
    /// Returns the position before the first entry.
    pub fn start() -> Position
        ensures { result ≡ begun }
    {
        Position {
            next: 0,
            waited: None,
            saved: Saved::none(),
        }
    }

    /// Returns the number of the entry that the user gives now, by the status of its thread: the
    /// last one again if it waited and was restarted, and else the next.
    pub fn due(&self, status: Option<Status>) -> usize
        ensures { result ≡ due_by status self.now }
    {
        match (status, self.waited) {
            (Some(Status::Restart), Some(last)) => last,
            _ => self.next,
        }
    }

    /// Returns whether one of `entries` entries is due.
    pub fn is_left(&self, status: Option<Status>, entries: usize) -> bool
        ensures { result ≡ nat_lt (due_by status self.now) entries }
    {
        self.due(status) < entries
    }

    /// Returns the position after entry `number`, which was accepted with this answer.
    pub fn past(number: usize, answer: &Answer) -> Position
        requires room { number + 1 < 2 ^ 64 }
        ensures { result ≡ moved_past number answer.now }
    {
        let next = number + 1;
        match answer {
            Answer::Waits => Position {
                next,
                waited: Some(number),
                saved: Saved::none(),
            },
            _ => Position {
                next,
                waited: None,
                saved: Saved::none(),
            },
        }
    }
}

impl Pick {
    /// Returns whether both are the same entry of the same user.
    pub fn is_same(self, other: Pick) -> bool
        ensures { result ≡ is_same self other }
    {
        self.user == other.user && self.number == other.number
    }

    /// Returns whether its user has the lower number, or the user is the same and its entry has the
    /// lower number.
    pub fn is_ahead(self, other: Pick) -> bool
        ensures { result ≡ is_ahead self other }
    {
        self.user < other.user || (self.user == other.user && self.number < other.number)
    }
}
