//! Why an entry is skipped, and why a replay ends.
use thiserror::Error;

/// Why an entry was skipped: the numbers 1 to 5, tested in this order. The kernel is unchanged.
#[derive(Clone, Copy, PartialEq, Eq, Debug, Error)]
pub enum EnterFault {
    /// The thread is unknown, closed, or neither running nor in restart.
    #[error("the thread does not run")]
    NotRunning = 1,
    /// The thread holds no scheduling context.
    #[error("the thread holds no scheduling context")]
    NoContext = 2,
    /// Its scheduling context is another core's.
    #[error("the scheduling context is of another core")]
    WrongCore = 3,
    /// The book has 1,000,000 lines.
    #[error("the book is full")]
    BookFull = 4,
    /// A growth was refused.
    #[error("out of memory")]
    OutOfMemory = 5,
}

/// Why a replay ended: the numbers 1 and 2, with the number of the step, counted from 1 (0 for the
/// boot). The kernel is dropped.
#[derive(Clone, Copy, PartialEq, Eq, Debug, Error)]
pub enum ReplayFault {
    /// The first accepted step for which the book is full.
    #[error("the book is full at step {step}")]
    BookFull { step: usize },
    /// A growth was refused.
    #[error("out of memory at step {step}")]
    OutOfMemory { step: usize },
}
