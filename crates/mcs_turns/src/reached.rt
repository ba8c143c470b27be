//! What reaches threads by the lines of others.
use mcs_types::{Answer, ObjId};

/// What reached a thread.
#[derive(Drop)]
pub struct Reached {
    pub thread: ObjId,
    pub answer: Answer,
}
