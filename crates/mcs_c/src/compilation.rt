//! Plans that become scripts.
ghost use Rattle.std.specs.Prelude.{◌≡◌, ◌⊎◌, ◌++◌, IfOk};
ghost use Rattle.mcs_c.specs.Handing.{IsRefused, with_status};
ghost use Rattle.mcs_c.specs.Compiles.{Compiles, IsCompiled, IsNumbered, IsPlanRefused, Numbers, compile_ending, plan_ending};
ghost use Rattle.mcs_plan_words.specs.Scripts.{IsScriptOfPlan};

use crate::output::{Ending, Handed, McsEnd, NO_MEMORY, WRONG};
use mcs_plan_source::{PlanError, PlanFault};
use mcs_plan_validate::{CompileFault, Compiled, Loaded, load};
use mcs_plan_words::reason_line;
use mcs_sim::SimFault;
use mcs_types::{BootFault, OutOfMemory};
use std::alloc::Global;
use std::io::Write;

/// The number of a line of a plan that is refused.
const PLAN_LINE: u64 = 13;

/// Returns how a call ends by a refused line of a plan, or by a failed allocation.
fn plan_ending(fault: &PlanFault) -> Ending
    ensures { result ≡ plan_ending fault.now }
{
    match fault.why {
        PlanError::OutOfMemory => Ending::of_status(NO_MEMORY),
        _ => Ending::of_line(fault.line, PLAN_LINE),
    }
}

/// Returns how a call ends if a plan does not compile.
fn compile_ending(fault: &CompileFault) -> Ending
    ensures { result ≡ compile_ending fault.now }
{
    match fault {
        CompileFault::Plan(fault) => plan_ending(fault),
        CompileFault::OutOfMemory
        | CompileFault::Script(SimFault::OutOfMemory)
        | CompileFault::Boot(BootFault::OutOfMemory) => Ending::of_status(NO_MEMORY),
        CompileFault::Script(_)
        | CompileFault::Boot(_)
        | CompileFault::OtherBoot
        | CompileFault::Astray(_)
        | CompileFault::User(_) => Ending::of_status(WRONG),
    }
}

/// Returns the text of a script.
fn whole_text(compiled: Compiled) -> Result<Vec<u8>, OutOfMemory>
    ensures { IfOk result (λ t. t.items ≡ compiled.read.items ++ compiled.users.items) }
{
    let Compiled {
        script: _,
        read,
        users,
    } = compiled;
    let mut text = read;
    text.extend_from_slice(&users)?;
    Ok(text)
}

/// Returns a line that says why a plan does not compile, and how the C call ends.
pub(crate) fn refuse_with(
    alloc: Global,
    fault: &CompileFault,
    line: &str,
) -> Result<Handed, OutOfMemory>
    ensures { IfOk result (λ h. IsPlanRefused h.ending) }
{
    let ending = compile_ending(fault).granted()?;
    let text = Vec::from_slice(alloc, line.as_bytes())?;
    Ok(Handed { text, ending })
}

/// Returns a line that says why a plan does not compile, and how the C call ends.
pub(crate) fn refuse(
    alloc: Global,
    plan: &[u8],
    fault: &CompileFault,
) -> Result<Handed, OutOfMemory>
    ensures { IfOk result (λ h. IsPlanRefused h.ending) }
{
    let line = reason_line(alloc, plan, fault)?;
    refuse_with(alloc, fault, line.as_str())
}

/// Compiles a plan, and returns the script, or why there is none, and how the C call ends.
fn compile_text(alloc: Global, plan: &[u8]) -> Result<Handed, OutOfMemory>
    ensures { IfOk result (λ h. IsCompiled h.text.items h.ending) }
{
    match load(alloc, plan) {
        Ok(Loaded { compiled, .. }) => Ok(Handed {
            text: whole_text(compiled)?,
            ending: Ending::of_status(0),
        }),
        Err(fault) => refuse(alloc, plan, &fault),
    }
}

/// Returns numbers, one a line.
fn lines_of(alloc: Global, numbers: &[u64]) -> Result<Vec<u8>, OutOfMemory> {
    let mut text = Vec::new(alloc);
    for number in numbers {
        if writeln!(text, "{number}").is_err() {
            return Err(OutOfMemory);
        }
    }
    Ok(text)
}

/// Compiles a plan, and returns for each line of the script the plan's line from which it came, or
/// why there is no script, and how the C call ends.
fn number_text(alloc: Global, plan: &[u8]) -> Result<Handed, OutOfMemory>
    ensures { IfOk result (λ h. IsNumbered h.ending) }
{
    match load(alloc, plan) {
        Ok(Loaded { numbers, .. }) => Ok(Handed {
            text: lines_of(alloc, &numbers)?,
            ending: Ending::of_status(0),
        }),
        Err(fault) => refuse(alloc, plan, &fault),
    }
}

/// Compiles a plan, and writes as much of the script as fits. Returns 0 if there is a script; 2 if
/// a line is refused, and the text says why; 6 if an allocation fails, and nothing is written.
#[unsafe(no_mangle)]
pub extern "C" fn mcs_compile(alloc: Global, plan: &[u8], out: &mut [u8], end: &mut McsEnd) -> u32
    ensures { IsRefused result out.old out.new end.old end.new
        ⊎ Compiles result out.old out.new end.new }
{
    match compile_text(alloc, plan) {
        Ok(handed) => handed.hand_over(out, end),
        Err(OutOfMemory) => NO_MEMORY,
    }
}

/// Compiles a plan, and writes as many line numbers as fit: for each line of the script the plan's
/// line from which it came, one a line. The statuses are those of `mcs_compile`.
#[unsafe(no_mangle)]
pub extern "C" fn mcs_number(alloc: Global, plan: &[u8], out: &mut [u8], end: &mut McsEnd) -> u32
    ensures { IsRefused result out.old out.new end.old end.new
        ⊎ Numbers result out.old out.new end.new }
{
    match number_text(alloc, plan) {
        Ok(handed) => handed.hand_over(out, end),
        Err(OutOfMemory) => NO_MEMORY,
    }
}
