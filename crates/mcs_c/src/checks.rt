//! Scripts that test themselves.
ghost use Rattle.std.specs.Prelude.{◌≡◌, ◌⊎◌, true, IfOk};
ghost use Rattle.mcs_c.specs.Handing.{IsRefused};
ghost use Rattle.mcs_c.specs.Checks.{Checks, IsChecked, check_ending, lab_ending, why_number};
ghost use Rattle.mcs_c.specs.Verdicts.{holds_throughout};

use crate::judgement::holds_throughout;
use crate::output::{Ending, Handed, McsEnd, NO_MEMORY, WRONG};
use mcs_lab_check::{LabFault, check};
use mcs_sim::Source;
use mcs_text::LineFault;
use mcs_types::OutOfMemory;
use std::alloc::Global;

/// The number of a line that has the form of no question and of no name.
const NO_FORM: u64 = 10;

/// The number of a fault of a line; that of one without a form where it has none of its own.
fn why_number(why: Option<LineFault>) -> u64
    ensures { result ≡ why_number why }
{
    match why {
        Some(why) => u64::from(why.number()),
        None => NO_FORM,
    }
}

/// Returns how a call ends after a fault of a script that is checked or explored. Memory as a
/// writer fails only if an allocation does.
pub(crate) fn lab_ending(fault: LabFault) -> Ending
    ensures { result ≡ lab_ending fault }
{
    match fault {
        LabFault::Script { line, why } => Ending::of_line(line, u64::from(why.number())),
        LabFault::Form { line } => Ending::of_line(line, NO_FORM),
        LabFault::Flawed { line, why, flaw: _ } => Ending::of_line(line, why_number(why)),
        LabFault::BookFull => Ending::of_status(5),
        LabFault::Write | LabFault::OutOfMemory => Ending::of_status(NO_MEMORY),
        LabFault::NoLine { .. } | LabFault::NoBookLine { .. } | LabFault::Read => {
            Ending::of_status(WRONG)
        }
    }
}

/// Returns how a call of `mcs_check` ends after this answer of `check`.
pub(crate) fn check_ending(answer: Result<bool, LabFault>) -> Ending
    ensures { result ≡ check_ending answer }
{
    match answer {
        Ok(true) => Ending::of_status(0),
        Ok(false) => Ending::of_status(1),
        Err(fault) => lab_ending(fault),
    }
}

/// Judges the lines of a script a second time, and returns whether the result is `met`. No clause
/// of `check` says that its answer is that of the definition.
fn is_borne_out(alloc: Global, script: &[u8], met: bool) -> Result<bool, OutOfMemory>
    ensures { IfOk result (λ is. is ≡ true → met ≡ holds_throughout script.now) }
{
    match holds_throughout(alloc, script) {
        Ok(holds) => Ok(holds == met),
        Err(LabFault::OutOfMemory) => Err(OutOfMemory),
        Err(
            LabFault::Script { .. }
            | LabFault::Form { .. }
            | LabFault::Flawed { .. }
            | LabFault::NoLine { .. }
            | LabFault::NoBookLine { .. }
            | LabFault::Read
            | LabFault::Write
            | LabFault::BookFull,
        ) => Ok(false),
    }
}

/// Returns how a check ends, with status 7 if the second judgement differs.
#[tactic(auto, using(crate::proofs::Checked::checked_met, crate::proofs::Checked::checked_wrong))]
fn ending_of(
    alloc: Global,
    script: &[u8],
    answer: Result<bool, LabFault>,
) -> Result<Ending, OutOfMemory>
    ensures { IfOk result (λ e. IsChecked script.now e) }
{
    let met = match answer {
        Ok(met) => met,
        Err(fault) => return lab_ending(fault).granted(),
    };
    if !is_borne_out(alloc, script, met)? {
        return Ok(Ending::of_status(WRONG));
    }
    Ok(check_ending(Ok(met)))
}

/// Checks a script, and returns the verdicts and how the C call ends.
pub(crate) fn check_text(alloc: Global, script: &[u8]) -> Result<Handed, OutOfMemory>
    ensures { IfOk result (λ h. IsChecked script.now h.ending) }
{
    let mut text = Vec::new(alloc);
    let answer = check(alloc, &mut Source::new(script), &mut text);
    let ending = ending_of(alloc, script, answer)?;
    Ok(Handed { text, ending })
}

/// Checks what a script expects of its steps, and writes as much of the verdicts as fits. Returns 0
/// if all hold and 1 if some does not; 2 if a line is refused and 5 if the book is full, and the
/// last verdict says so; 6 if an allocation fails, and nothing is written; 7 if the verdicts differ
/// from the definition's, which was never seen.
#[unsafe(no_mangle)]
pub extern "C" fn mcs_check(alloc: Global, script: &[u8], out: &mut [u8], end: &mut McsEnd) -> u32
    ensures { IsRefused result out.old out.new end.old end.new
        ⊎ Checks script.now result out.old out.new end.new }
{
    match check_text(alloc, script) {
        Ok(handed) => handed.hand_over(out, end),
        Err(OutOfMemory) => NO_MEMORY,
    }
}
