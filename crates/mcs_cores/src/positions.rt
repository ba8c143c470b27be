//! The positions of a run's users, what they can enter, and which cores wait (own).

use crate::candidates::{Candidate, Candidates, Turn};
use crate::core_set::CoreSet;
use crate::machine::LockedKernel;
use mcs_kernel::{Kernel, is_ready};
use mcs_queues::Lines;
use mcs_seats::{Answered, CoreSeat, Prepared, Turned};
use mcs_turns::Position;
use mcs_types::{CoreId, ObjId, OutOfMemory};
use mcs_users::{UserList, Users, first_place, place_after};
use std::alloc::Global;
use std::sync::ledger::Ledger;

/// The position of a user: its thread, how many entries it has, and how often the position changed.
#[derive(Drop)]
struct UserPosition {
    thread: ObjId,
    entries: usize,
    place: Position,
    moves: u64,
}

/// The positions of all users, which cores wait, and whether the run is over.
#[derive(Drop)]
pub(crate) struct Positions {
    users: Vec<UserPosition>,
    pub(crate) asleep: CoreSet,
    pub(crate) over: bool,
}

impl UserPosition {
    /// Returns the position before the first entry.
    fn start(list: &UserList) -> UserPosition {
        UserPosition {
            thread: list.thread,
            entries: list.entries.len(),
            place: first_place(list),
            moves: 0,
        }
    }

    /// Returns what the user of this number can enter now; None if it has no entry left, or its
    /// thread may enter nowhere.
    fn candidate<L: Lines>(&self, kernel: &Kernel<L>, user: usize) -> Option<Candidate> {
        let row = kernel.thread(self.thread)?;
        let status = Some(row.status());
        if !is_ready(status) || !self.place.is_left(status, self.entries) {
            return None;
        }
        let core = kernel.core(kernel.context(self.thread)?)?;
        let turn = Turn {
            thread: self.thread,
            user,
            number: self.place.due(status),
            moves: self.moves,
        };
        Some(Candidate {
            core,
            priority: row.priority,
            turn,
        })
    }

    /// Moves the user to another position.
    fn move_to(&mut self, place: Position) {
        self.place = place;
        self.moves = self.moves.wrapping_add(1);
    }
}

impl Positions {
    /// Returns the positions at the beginning of a run of these users.
    pub(crate) fn new(alloc: Global, users: &Users) -> Result<Positions, OutOfMemory> {
        let lists = users.lists();
        let mut positions = Vec::with_capacity(alloc, lists.len())?;
        for list in lists {
            positions
                .push(UserPosition::start(list))
                .map_err(|_| OutOfMemory)?;
        }
        Ok(Positions {
            users: positions,
            asleep: CoreSet::new(),
            over: false,
        })
    }

    /// Returns what a core can pick now. Each user is asked once, since its thread may enter on one
    /// core alone.
    pub(crate) fn look<L: Lines>(&self, kernel: &Kernel<L>, core: CoreId) -> Candidates {
        let mut candidates = Candidates::new(core);
        for (user, position) in self.users.iter().enumerate() {
            if let Some(candidate) = position.candidate(kernel, user) {
                candidates.add(candidate);
            }
        }
        candidates
    }

    /// Enters what a core picked, and advances the user's position if it was accepted. Returns None
    /// if the position changed since the pick.
    pub(crate) fn enter<G: Ledger, L: Lines>(
        &mut self,
        alloc: Global,
        users: &Users,
        kernel: &mut LockedKernel<G, L>,
        seat: &mut CoreSeat<G>,
        turn: Turn,
        prepared: Prepared,
    ) -> Option<Result<Answered, Turned>> {
        let list = users.at(turn.user)?;
        let position = self.users.get_mut(turn.user)?;
        if position.moves != turn.moves || list.entries.len() <= turn.number {
            return None;
        }
        let saved = position.place.saved;
        let result = kernel.enter(alloc, seat, list.thread, prepared);
        if let Ok(answered) = &result {
            position.move_to(place_after(list, turn.number, saved, &answered.answer));
        }
        Some(result)
    }
}
