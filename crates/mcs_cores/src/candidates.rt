//! The candidates among which a core picks (own).
use crate::core_set::CoreSet;
use mcs_types::{CoreId, ObjId, Prio};

/// An entry that a core picked: the user and its thread, the number of the entry in the user's
/// list, and how often the user's position had changed by then.
#[derive(Clone, Copy, Drop)]
pub(crate) struct Turn {
    pub(crate) thread: ObjId,
    pub(crate) user: usize,
    pub(crate) number: usize,
    pub(crate) moves: u64,
}

/// A candidate: what a user can enter, on which core, and its thread's priority.
#[derive(Clone, Copy, Drop)]
pub(crate) struct Candidate {
    pub(crate) core: CoreId,
    pub(crate) priority: Prio,
    pub(crate) turn: Turn,
}

/// The best candidate of one core, and the cores that have candidates.
#[derive(Drop)]
pub(crate) struct Candidates {
    core: CoreId,
    best: Option<Candidate>,
    ready: CoreSet,
}

impl Candidate {
    /// Returns whether this candidate has the greater priority, or the same priority and the lower
    /// serial.
    fn goes_before(&self, other: &Candidate) -> bool {
        other.priority.0 < self.priority.0
            || (other.priority.0 == self.priority.0
                && self.turn.thread.serial < other.turn.thread.serial)
    }
}

impl Candidates {
    /// Returns what a core sees if no user can enter anything.
    pub(crate) fn new(core: CoreId) -> Candidates {
        Candidates {
            core,
            best: None,
            ready: CoreSet::new(),
        }
    }

    /// Adds a candidate.
    pub(crate) fn add(&mut self, candidate: Candidate) {
        self.ready.insert(candidate.core);
        if candidate.core != self.core {
            return;
        }
        match &self.best {
            Some(best) if !candidate.goes_before(best) => {}
            _ => self.best = Some(candidate),
        }
    }

    /// Returns what the core picks.
    pub(crate) fn pick(&self) -> Option<Turn> {
        match &self.best {
            Some(candidate) => Some(candidate.turn),
            None => None,
        }
    }

    /// Returns the cores that can pick something.
    pub(crate) fn ready(&self) -> CoreSet {
        self.ready
    }
}
