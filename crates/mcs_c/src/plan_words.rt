//! Reports on the script of a plan, in the plan's words and lines.
ghost use Rattle.std.specs.Prelude.{IfOk, IfSome};
ghost use Rattle.mcs_c.specs.Plans.{IsInPlan, IsOfOtherKind};

use crate::output::{Ending, Handed};
use mcs_plan_validate::Numbered;
use mcs_plan_words::{Form, Planned, number_in};
use mcs_types::OutOfMemory;
use std::alloc::Global;
use std::io::Write;

/// The number of a plan that another call reads: of users where steps are wanted, or of steps.
const OTHER_KIND: u64 = 14;

/// Returns the ending of a call on a plan, from the ending of that call on its script: only the
/// line number changes, to that of the plan's line. `numbers` has the number for each line of the
/// script.
pub(crate) fn in_plan(ending: Ending, numbers: &[u64]) -> Ending
    ensures { IsInPlan ending result }
{
    let Ending {
        status,
        line,
        fault,
    } = ending;
    let line = if line == 0 {
        0
    } else {
        number_in(numbers, line)
    };
    Ending {
        status,
        line,
        fault,
    }
}

/// Returns a report of this form on a plan, from the report on its script, and the ending of the
/// call.
pub(crate) fn reworded(
    alloc: Global,
    planned: &Planned<'_>,
    script: &Numbered,
    report: &Handed,
    form: Form,
) -> Result<Handed, OutOfMemory>
    ensures { IfOk result (λ h. IsInPlan report.now.ending h.ending) }
{
    let text = planned.retell(alloc, script, &report.text, form)?;
    let ending = in_plan(report.ending, &script.numbers);
    Ok(Handed { text, ending })
}

/// Returns a line that says so, and how the C call ends, where a plan became a script that another
/// call reads.
pub(crate) fn turned_away(
    alloc: Global,
    planned: &Planned<'_>,
    reads_users: bool,
) -> Result<Option<Handed>, OutOfMemory>
    ensures { IfOk result (λ away. IfSome away (λ h. IsOfOtherKind h.ending)) }
{
    let Some(stranger) = planned.stranger(reads_users) else {
        return Ok(None);
    };
    let line = planned.first().unwrap_or(0);
    let what = stranger.text();
    let mut text = Vec::new(alloc);
    if writeln!(text, "mcslab: line {line}: {what}").is_err() {
        return Err(OutOfMemory);
    }
    let ending = Ending::of_line(line, OTHER_KIND);
    Ok(Some(Handed { text, ending }))
}
