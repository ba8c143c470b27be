//! Why a domain cannot be lowered.
use mcs_plan_source::{PlanError, PlanFault};
use std::alloc::AllocError;

/// Why a statement is refused, and its line of the plan; line 0 if an allocation failed.
#[derive(Drop)]
pub struct Refused {
    pub line: u64,
    pub why: PlanError,
}

impl From<AllocError> for Refused {
    fn from(_error: AllocError) -> Refused {
        Refused {
            line: 0,
            why: PlanError::OutOfMemory,
        }
    }
}

impl From<Refused> for PlanFault {
    fn from(refused: Refused) -> PlanFault {
        let Refused { line, why } = refused;
        PlanFault { line, why }
    }
}

/// Returns a fault with its line.
pub fn at<T: Drop>(line: u64, done: Result<T, PlanError>) -> Result<T, Refused> {
    match done {
        Ok(value) => Ok(value),
        Err(why) => Err(Refused { line, why }),
    }
}
