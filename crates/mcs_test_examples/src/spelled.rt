//! Reports on a plan that writes numbers in hexadecimal.
use mcs_lab_check::{LabFault, check};
use mcs_lab_inspect::{Numbers, Wanted, explain, show_state};
use mcs_plan_words::{Form, Planned};
use mcs_sim::Source;
use std::alloc::Global;
use std::fs;
use std::io::Write;

/// The plan.
const PLAN: &str = "plans/hexadecimal.plan";

/// What is shown of the state: all of it, as text.
const WHOLE: Wanted = Wanted {
    at: None,
    stuck: false,
    json: false,
    numbers: Numbers::Integers,
};

/// Returns the reports on a plan's script, by the form of each: verdicts, explanations, the state.
fn reports_on(alloc: Global, script: &[u8]) -> Result<[(Form, Vec<u8>); 3], LabFault> {
    let mut verdicts = Vec::new(alloc);
    check(alloc, &mut Source::new(script), &mut verdicts)?;
    let mut explained = Vec::new(alloc);
    explain(alloc, &mut Source::new(script), &mut explained)?;
    let mut state = Vec::new(alloc);
    show_state(alloc, &mut Source::new(script), &mut state, WHOLE)?;
    Ok([
        (Form::Tap, verdicts),
        (Form::Lines, explained),
        (Form::State, state),
    ])
}

/// Writes the steps of the plan and the reports on it, in the plan's words.
pub fn tell_spelled<W: Write>(rt: &HostRuntime, to: &mut W) -> Result<(), LabFault> {
    let plan = fs::read(rt, PLAN).map_err(|_| LabFault::Read)?;
    let Ok(planned) = Planned::read(rt.alloc(), &plan) else {
        writeln!(to, "# {PLAN}: WITH A FAULT")?;
        return Ok(());
    };
    writeln!(to, "# {PLAN}")?;
    for step in &planned.step_texts(rt.alloc())? {
        if !step.is_empty() {
            writeln!(to, "{step}")?;
        }
    }
    let reports = reports_on(rt.alloc(), &planned.script.text)?;
    for (form, report) in &reports {
        let reworded = planned.retell(rt.alloc(), &planned.script, report, *form)?;
        to.write_all(&reworded)?;
    }
    Ok(())
}
