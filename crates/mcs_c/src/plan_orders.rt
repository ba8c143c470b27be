//! All orders of a plan of users, in its own words.
ghost use Rattle.std.specs.Prelude.{◌≡◌, ◌⊎◌, IfOk};
ghost use Rattle.mcs_plan_words.specs.Scripts.{IsScriptOfPlan};
ghost use Rattle.mcs_c.specs.Handing.{IsRefused};
ghost use Rattle.mcs_c.specs.Plans.{ExploresPlan, IsPlanExplored};

use crate::compilation::refuse;
use crate::exploration::{Kept, Nowhere, explore_text};
use crate::output::{Handed, McsEnd, NO_MEMORY};
use crate::plan_words::{reworded, turned_away};
use mcs_explore_report::Saves;
use mcs_plan_words::{Form, Planned};
use mcs_types::OutOfMemory;
use std::alloc::Global;

/// Returns the form of what a search with this status leaves: a report, or why there is none.
fn form_of(status: u32) -> Form {
    match status {
        0 | 1 | 3 => Form::Orders,
        _ => Form::NoOrders,
    }
}

/// Explores all orders of the script of a plan. Returns the report, or why there is none, and how
/// the C call ends.
#[tactic(auto, using(crate::proofs::Planned::script_explored))]
fn explore_script<S: Saves>(
    alloc: Global,
    planned: &Planned<'_>,
    states: u64,
    saves: &mut S,
) -> Result<Handed, OutOfMemory>
    requires { IsScriptOfPlan planned.now.script.text.items }
    ensures { IfOk result (λ h. IsPlanExplored h.ending) }
{
    if let Some(handed) = turned_away(alloc, planned, true)? {
        return Ok(handed);
    }
    let script = planned.asked(alloc)?;
    let report = explore_text(alloc, &script.text, states, saves)?;
    let form = form_of(report.ending.status);
    reworded(alloc, planned, &script, &report, form)
}

/// Goes through all orders of a plan, and returns the report, or why there is none, with how the
/// call ends.
fn explore_plan<S: Saves>(
    alloc: Global,
    plan: &[u8],
    states: u64,
    saves: &mut S,
) -> Result<Handed, OutOfMemory>
    ensures { IfOk result (λ h. IsPlanExplored h.ending) }
{
    match Planned::read(alloc, plan) {
        Ok(planned) => explore_script(alloc, &planned, states, saves),
        Err(fault) => refuse(alloc, plan, &fault),
    }
}

/// Does the same, and returns after the report the scripts of what it reports.
fn search_plan(alloc: Global, plan: &[u8], states: u64) -> Result<Handed, OutOfMemory>
    ensures { IfOk result (λ h. IsPlanExplored h.ending) }
{
    let mut kept = Kept::new(alloc);
    let report = explore_plan(alloc, plan, states, &mut kept)?;
    kept.add_to(report)
}

/// Goes through all orders of the users of a plan, as far as so many states, and writes as much of
/// the report as there is room for, in the plan's words and lines. The statuses are those of
/// `mcs_explore`; 2 also if the plan does not compile to a script of users, and the text says why.
#[unsafe(no_mangle)]
pub extern "C" fn mcs_explore_plan(
    alloc: Global,
    plan: &[u8],
    states: u64,
    out: &mut [u8],
    end: &mut McsEnd,
) -> u32
    ensures { IsRefused result out.old out.new end.old end.new
        ⊎ ExploresPlan result out.old out.new end.new }
{
    match explore_plan(alloc, plan, states, &mut Nowhere) {
        Ok(handed) => handed.hand_over(out, end),
        Err(OutOfMemory) => NO_MEMORY,
    }
}

/// Does the same, and writes after the report the shortest scripts of steps to each kind of end, to
/// users that are stuck and to what a question asks, each after a line `== NAME`.
#[unsafe(no_mangle)]
pub extern "C" fn mcs_search_plan(
    alloc: Global,
    plan: &[u8],
    states: u64,
    out: &mut [u8],
    end: &mut McsEnd,
) -> u32
    ensures { IsRefused result out.old out.new end.old end.new
        ⊎ ExploresPlan result out.old out.new end.new }
{
    match search_plan(alloc, plan, states) {
        Ok(handed) => handed.hand_over(out, end),
        Err(OutOfMemory) => NO_MEMORY,
    }
}
