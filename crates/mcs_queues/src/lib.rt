//! Queues of threads, called lines: by priority, and FIFO within one priority.
#![tactic(auto)]

mod fingers;
mod lines;
mod linked;
mod plain;
mod slots;

pub use lines::{LineNo, Lines, ThreadNo};
pub use linked::LinkedLines;
pub use plain::PlainLines;
pub use slots::Steps;
