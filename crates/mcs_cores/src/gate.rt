//! Hooks by which a test observes a run (own).
use mcs_types::{CoreId, ObjId};

/// Observes a run, so that a test can hold a core at a point. No lock is held during either call.
pub trait Gate: Sync {
    /// Observes that a core picked a thread whose entry it has not entered yet.
    fn between(&self, core: CoreId, thread: ObjId);

    /// Observes that an entry of a core was accepted as line `line`.
    fn answered(&self, core: CoreId, line: u64);
}

/// A gate that does nothing.
#[derive(Clone, Copy)]
pub struct Open;

impl Gate for Open {
    fn between(&self, _core: CoreId, _thread: ObjId) {}

    fn answered(&self, _core: CoreId, _line: u64) {}
}
