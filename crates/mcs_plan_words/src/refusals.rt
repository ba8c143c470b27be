//! Why a plan becomes no script, with the line that is refused and what may help.
use crate::advice::message_of;
use mcs_plan_source::{PlanError, PlanFault};
use mcs_plan_validate::CompileFault;
use std::alloc::{AllocError, Global};

/// Returns the line of the fault of a plan, where it has one.
pub fn line_of_plan(fault: &CompileFault) -> Option<u64> {
    match fault {
        CompileFault::Plan(
            PlanFault {
                why: PlanError::OutOfMemory,
                ..
            },
        ) => None,
        CompileFault::Plan(fault) if fault.line > 0 => Some(fault.line),
        CompileFault::Plan(_)
        | CompileFault::Script(_)
        | CompileFault::Boot(_)
        | CompileFault::OtherBoot
        | CompileFault::Astray(_)
        | CompileFault::User(_)
        | CompileFault::OutOfMemory => None,
    }
}

/// Returns a line that says why a plan becomes no script, behind the line of the plan where it has
/// one.
pub fn reason_line(alloc: Global, plan: &[u8], fault: &CompileFault) -> Result<String, AllocError> {
    match (line_of_plan(fault), fault) {
        (Some(line), CompileFault::Plan(fault)) => {
            let message = message_of(alloc, plan, fault)?;
            format!(in alloc; "line {line}: {message}\n")
        }
        _ => format!(in alloc; "{fault}\n"),
    }
}

/// Returns the last line of TAP where a plan becomes no script.
pub fn bail_line(alloc: Global, plan: &[u8], fault: &CompileFault) -> Result<String, AllocError> {
    let reason = reason_line(alloc, plan, fault)?;
    format!(in alloc; "Bail out! {reason}")
}
