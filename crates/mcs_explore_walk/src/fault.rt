//! Why a search ends early.
ghost use Rattle.mcs_explore_walk.specs.Walks.{IsLimit};

use mcs_kernel::EnterFault;
use mcs_types::OutOfMemory;
use std::alloc::{AllocError, AllocFailed};

/// Why a search ends before its budget.
#[derive(Clone, Copy, PartialEq, Eq, Debug)]
pub enum OrdersFault {
    /// The book was full at an entry that would have been accepted.
    BookFull,
    /// Memory was refused.
    OutOfMemory,
}

impl From<OutOfMemory> for OrdersFault {
    fn from(_error: OutOfMemory) -> OrdersFault {
        OrdersFault::OutOfMemory
    }
}

impl From<AllocError> for OrdersFault {
    fn from(_error: AllocError) -> OrdersFault {
        OrdersFault::OutOfMemory
    }
}

impl<T: Drop> From<AllocFailed<T>> for OrdersFault {
    fn from(_error: AllocFailed<T>) -> OrdersFault {
        OrdersFault::OutOfMemory
    }
}

/// Returns why an entry was skipped although its thread may enter.
pub(crate) fn limit_of(fault: EnterFault) -> OrdersFault
    requires { IsLimit fault }
{
    match fault {
        EnterFault::BookFull => OrdersFault::BookFull,
        EnterFault::OutOfMemory => OrdersFault::OutOfMemory,
        EnterFault::NotRunning | EnterFault::NoContext | EnterFault::WrongCore => unreachable!(),
    }
}
