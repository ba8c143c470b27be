//! A set of cores.
use mcs_types::CoreId;

/// A set of the cores 0 to 15, one bit for each.
#[derive(Clone, Copy, Drop)]
pub(crate) struct CoreSet {
    marks: u16,
}

/// Returns the bit of a core; 0 for a core beyond 15.
fn mark_of(core: CoreId) -> u16 {
    if core.0 < 16 { 1 << core.0 } else { 0 }
}

impl CoreSet {
    /// Returns the empty set.
    pub(crate) fn new() -> CoreSet {
        CoreSet { marks: 0 }
    }

    /// Adds a core to the set; cores beyond 15 are ignored.
    pub(crate) fn insert(&mut self, core: CoreId) {
        self.marks |= mark_of(core);
    }

    /// Takes a core out of the set.
    pub(crate) fn remove(&mut self, core: CoreId) {
        self.marks &= !mark_of(core);
    }

    /// Returns whether a core is in the set.
    pub(crate) fn contains(&self, core: CoreId) -> bool {
        self.marks & mark_of(core) != 0
    }

    /// Returns whether no core is in the set.
    pub(crate) fn is_empty(&self) -> bool {
        self.marks == 0
    }

    /// Returns the intersection of both sets.
    pub(crate) fn common(&self, other: &CoreSet) -> CoreSet {
        CoreSet {
            marks: self.marks & other.marks,
        }
    }
}
