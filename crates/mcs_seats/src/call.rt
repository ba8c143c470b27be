//! A core's record of an entry (own).
use mcs_kernel::EnterFault;
use mcs_types::{Answer, Entry, ObjId};

/// An accepted entry: the number of its line in the book, and its answer. The boot is line 0.
#[derive(Drop)]
pub struct Answered {
    pub line: usize,
    pub answer: Answer,
}

/// The outcome of an entry.
#[derive(Drop)]
pub enum Outcome {
    /// It was accepted.
    Entered(Answered),
    /// It was skipped when the book had `lines` lines, the boot's among them.
    Away { lines: usize, fault: EnterFault },
}

/// An entry of a thread on a core, and its outcome.
#[derive(Drop)]
pub struct Call {
    pub thread: ObjId,
    pub entry: Entry,
    pub outcome: Outcome,
}

/// Why an entry has no line.
#[derive(Clone, Copy, PartialEq, Eq, Debug)]
pub enum Turned {
    /// It was skipped (faults 1 to 4 of EnterFault) when the book had `lines` lines, the boot's
    /// among them.
    Away { lines: usize, fault: EnterFault },
    /// An allocation failed: of the seat, which comes first, or of the kernel.
    OutOfMemory,
}
