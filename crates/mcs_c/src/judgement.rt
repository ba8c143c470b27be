//! A second judgement of a script's expectations, by the definition of verdicts.
ghost use Rattle.std.specs.Prelude.{◌≡◌, IfOk};
ghost use Rattle.mcs_lab_check.specs.Checked.{judged};
ghost use Rattle.mcs_c.specs.Verdicts.{holds_throughout, is_met, whole_line};

use mcs_lab_check::{Judge, LabFault, LineResult};
use mcs_text::Lines;
use std::alloc::Global;

/// Returns whether a line holds; a line that expects nothing does.
fn is_met(line_result: LineResult) -> bool
    ensures { result ≡ is_met line_result }
{
    match line_result {
        LineResult::Nothing | LineResult::Step => true,
        LineResult::Answer { holds } | LineResult::Record { holds } | LineResult::Asked { holds } =>
            holds,
        LineResult::NoQuestion => false,
    }
}

/// Judges a line, and returns whether it holds.
fn take(alloc: Global, judge: &mut Judge, line: &[u8]) -> Result<bool, LabFault>
    ensures { IfOk result (λ met. (met ≡ is_met (judged judge.old (whole_line line.now)).0)
        × (judge.new ≡ (judged judge.old (whole_line line.now)).1)) }
{
    let mut whole = Vec::new(alloc);
    whole.extend_from_slice(line)?;
    whole.push(b'\n')?;
    let line_result = judge.take(alloc, &whole)?;
    Ok(is_met(line_result))
}

/// Returns whether all lines of a script hold.
pub(crate) fn holds_throughout(alloc: Global, script: &[u8]) -> Result<bool, LabFault>
    ensures { IfOk result (λ holds. holds ≡ holds_throughout script.now) }
{
    let mut judge = Judge::new(alloc)?;
    let mut lines = Lines::new(script);
    let mut holds = true;
    while let Some(line) = lines.next_line() {
        holds &= take(alloc, &mut judge, line)?;
    }
    Ok(holds)
}
