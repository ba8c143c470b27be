//! Why a plan does not compile.
use mcs_plan_source::PlanFault;
use mcs_sim::SimFault;
use mcs_types::{BootFault, OutOfMemory};
use std::alloc::AllocError;
use thiserror::Error;

/// Why a plan does not compile. Only the first and the last are faults of the plan or the machine;
/// the others are faults of this program.
#[derive(Debug, Drop, Error)]
pub enum CompileFault {
    /// A line of the plan is refused.
    #[error("{0}")]
    Plan(PlanFault),
    /// The script of the plan has a fault.
    #[error("the script that this plan becomes has a fault: {0}")]
    Script(SimFault),
    /// The boot of the script has a fault.
    #[error("the boot that this plan becomes has a fault: {0}")]
    Boot(BootFault),
    /// The boot of the script differs from the plan's.
    #[error("the boot that this plan becomes is not the plan's")]
    OtherBoot,
    /// A name does not lead to what it means.
    #[error("\"{0}\" does not lead to its capability")]
    Astray(String),
    /// A line is not that of a user.
    #[error("\"{0}\" is not the line of a user")]
    User(String),
    #[error("out of memory")]
    OutOfMemory,
}

impl From<PlanFault> for CompileFault {
    fn from(fault: PlanFault) -> CompileFault {
        CompileFault::Plan(fault)
    }
}

impl From<SimFault> for CompileFault {
    fn from(fault: SimFault) -> CompileFault {
        CompileFault::Script(fault)
    }
}

impl From<BootFault> for CompileFault {
    fn from(fault: BootFault) -> CompileFault {
        CompileFault::Boot(fault)
    }
}

impl From<OutOfMemory> for CompileFault {
    fn from(_error: OutOfMemory) -> CompileFault {
        CompileFault::OutOfMemory
    }
}

impl From<AllocError> for CompileFault {
    fn from(_error: AllocError) -> CompileFault {
        CompileFault::OutOfMemory
    }
}

impl CompileFault {
    /// The exit status of a program that is given the plan (own).
    pub fn status(&self) -> u8 {
        match self {
            CompileFault::Plan(fault) => fault.status(),
            CompileFault::Script(fault) => fault.status(),
            CompileFault::Boot(_) | CompileFault::OtherBoot => 2,
            CompileFault::Astray(_) | CompileFault::User(_) => 2,
            CompileFault::OutOfMemory => 6,
        }
    }
}
