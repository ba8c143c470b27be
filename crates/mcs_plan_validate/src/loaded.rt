//! The script of a plan, with or without protection domains, and the plan's line for each of its
//! lines.
ghost use Rattle.std.specs.Prelude.{IfOk};
ghost use Rattle.mcs_plan_validate.specs.Reading.{IsVouched};

use crate::compiled::{Compiled, compile_text};
use crate::fault::CompileFault;
use crate::origins::origins_of;
use mcs_plan_domains::{Lowered, lower};
use mcs_plan_source::{PlanError, PlanFault};
use std::alloc::{AllocError, Global};

/// The script of a plan, and for each of its lines the number of the plan's line from which it
/// came.
#[derive(Drop)]
pub struct Loaded {
    pub compiled: Compiled,
    pub numbers: Vec<u64>,
}

/// Returns a plan with its protection domains and passive threads lowered, if it has any.
fn lowered_of(alloc: Global, plan: &[u8]) -> Result<Option<Lowered>, PlanFault> {
    match std::str::from_utf8(plan) {
        Ok(text) => lower(alloc, text),
        Err(_) => Ok(None),
    }
}

/// Returns the number for a line, if these are the numbers of all lines.
fn line_in(lines: &[u64], line: u64) -> u64 {
    let place = line.saturating_sub(1) as usize;
    lines.get(place).copied().unwrap_or(line)
}

/// Returns a fault of a lowered plan with the line of the original plan.
fn in_lines(fault: CompileFault, lines: &[u64]) -> CompileFault {
    match fault {
        CompileFault::Plan(PlanFault { line, why }) => {
            let line = line_in(lines, line);
            let why = match why {
                PlanError::Unclosed { opened } => PlanError::Unclosed {
                    opened: line_in(lines, opened),
                },
                why => why,
            };
            CompileFault::Plan(PlanFault { line, why })
        }
        fault => fault,
    }
}

/// Returns line numbers of a lowered plan as numbers of the original plan.
fn all_in_lines(alloc: Global, numbers: &[u64], lines: &[u64]) -> Result<Vec<u64>, AllocError> {
    let mut all = Vec::new(alloc);
    for number in numbers {
        all.push(line_in(lines, *number))?;
    }
    Ok(all)
}

/// Compiles a plan without protection domains.
fn compile_plain(alloc: Global, plan: &[u8]) -> Result<Loaded, CompileFault>
    ensures { IfOk result (λ l. IsVouched l.compiled.read.items l.compiled.script.laid) }
{
    let compiled = compile_text(alloc, plan)?;
    let numbers = origins_of(alloc, plan, &compiled)?;
    Ok(Loaded { compiled, numbers })
}

/// Compiles a plan after lowering.
fn compile_lowered(alloc: Global, lowered: &Lowered) -> Result<Loaded, CompileFault>
    ensures { IfOk result (λ l. IsVouched l.compiled.read.items l.compiled.script.laid) }
{
    match compile_plain(alloc, lowered.text.as_bytes()) {
        Ok(Loaded { compiled, numbers }) => {
            let numbers = all_in_lines(alloc, &numbers, &lowered.lines)?;
            Ok(Loaded { compiled, numbers })
        }
        Err(fault) => Err(in_lines(fault, &lowered.lines)),
    }
}

/// Returns the script of a plan, which may have protection domains, and for each of its lines the
/// plan's line from which it came. The faults are those of `lower` and of `compile_text`, each at
/// its line of the plan.
pub fn load(alloc: Global, plan: &[u8]) -> Result<Loaded, CompileFault>
    ensures { IfOk result (λ l. IsVouched l.compiled.read.items l.compiled.script.laid) }
{
    match lowered_of(alloc, plan)? {
        Some(lowered) => compile_lowered(alloc, &lowered),
        None => compile_plain(alloc, plan),
    }
}
