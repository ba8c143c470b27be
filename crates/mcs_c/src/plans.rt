//! Reports on a plan, in its own words: its verdicts, why its steps did nothing, the state,
//! and its picture.
ghost use Rattle.std.specs.Prelude.{◌≡◌, ◌⊎◌, IfOk};
ghost use Rattle.mcs_plan_words.specs.Scripts.{IsScriptOfPlan};
ghost use Rattle.mcs_c.specs.Handing.{IsRefused};
ghost use Rattle.mcs_c.specs.Plans.{ChecksPlan, IsPlanChecked, IsPlanReported, TellsPlan};

use crate::checks::check_text;
use crate::compilation::{refuse, refuse_with};
use crate::output::{Handed, McsEnd, NO_MEMORY};
use crate::plan_words::{in_plan, reworded, turned_away};
use crate::views::{draw_text, state_text, why_text};
use mcs_lab_render::{Asked, Format};
use mcs_plan_validate::CompileFault;
use mcs_plan_words::{Form, Planned, bail_line};
use mcs_types::OutOfMemory;
use std::alloc::Global;

/// Checks the script of a plan, and returns the verdicts, and how the C call ends.
#[tactic(auto, using(crate::proofs::Planned::script_checked))]
fn check_script(alloc: Global, planned: &Planned<'_>) -> Result<Handed, OutOfMemory>
    requires { IsScriptOfPlan planned.now.script.text.items }
    ensures { IfOk result (λ h. IsPlanChecked h.ending) }
{
    if let Some(handed) = turned_away(alloc, planned, false)? {
        return Ok(handed);
    }
    let script = &planned.script;
    let report = check_text(alloc, &script.text)?;
    reworded(alloc, planned, script, &report, Form::Tap)
}

/// Returns the last line of verdicts on a plan of which no script comes, and how the C call ends.
fn bail_out(alloc: Global, plan: &[u8], fault: &CompileFault) -> Result<Handed, OutOfMemory>
    ensures { IfOk result (λ h. IsPlanChecked h.ending) }
{
    let line = bail_line(alloc, plan, fault)?;
    refuse_with(alloc, fault, line.as_str())
}

/// Checks a plan, and returns the verdicts, and how the C call ends.
fn check_plan(alloc: Global, plan: &[u8]) -> Result<Handed, OutOfMemory>
    ensures { IfOk result (λ h. IsPlanChecked h.ending) }
{
    match Planned::read(alloc, plan) {
        Ok(planned) => check_script(alloc, &planned),
        Err(fault) => bail_out(alloc, plan, &fault),
    }
}

/// Explains the script of a plan, and returns the text, and how the C call ends.
#[tactic(auto, using(crate::proofs::Planned::script_reported))]
fn explain_script(alloc: Global, planned: &Planned<'_>) -> Result<Handed, OutOfMemory>
    ensures { IfOk result (λ h. IsPlanReported h.ending) }
{
    if let Some(handed) = turned_away(alloc, planned, false)? {
        return Ok(handed);
    }
    let script = &planned.script;
    let report = why_text(alloc, &script.text)?;
    reworded(alloc, planned, script, &report, Form::Lines)
}

/// Explains a plan, and returns the text, and how the C call ends.
fn why_plan(alloc: Global, plan: &[u8]) -> Result<Handed, OutOfMemory>
    ensures { IfOk result (λ h. IsPlanReported h.ending) }
{
    match Planned::read(alloc, plan) {
        Ok(planned) => explain_script(alloc, &planned),
        Err(fault) => refuse(alloc, plan, &fault),
    }
}

/// Returns the state after a line of a plan, or at the plan's end if `line` is 0, and how the C
/// call ends.
#[tactic(auto, using(crate::proofs::Planned::script_reported))]
fn show_script(alloc: Global, planned: &Planned<'_>, line: u64) -> Result<Handed, OutOfMemory>
    ensures { IfOk result (λ h. IsPlanReported h.ending) }
{
    if let Some(handed) = turned_away(alloc, planned, false)? {
        return Ok(handed);
    }
    let script = &planned.script;
    let at = if line == 0 {
        None
    } else {
        Some(planned.last_line(line))
    };
    let Handed { text, ending } = state_text(alloc, &script.text, at)?;
    let ending = in_plan(ending, &script.numbers);
    Ok(Handed { text, ending })
}

/// Returns the state after a line of a plan, or at the plan's end if `line` is 0, and how the C
/// call ends.
fn state_plan(alloc: Global, plan: &[u8], line: u64) -> Result<Handed, OutOfMemory>
    ensures { IfOk result (λ h. IsPlanReported h.ending) }
{
    match Planned::read(alloc, plan) {
        Ok(planned) => show_script(alloc, &planned, line),
        Err(fault) => refuse(alloc, plan, &fault),
    }
}

/// Draws the script of a plan with the texts and the lines of the plan's steps, and returns the
/// picture, and how the C call ends.
#[tactic(auto, using(crate::proofs::Planned::script_reported))]
fn draw_script(alloc: Global, planned: &Planned<'_>) -> Result<Handed, OutOfMemory>
    ensures { IfOk result (λ h. IsPlanReported h.ending) }
{
    if let Some(handed) = turned_away(alloc, planned, false)? {
        return Ok(handed);
    }
    let script = &planned.script;
    let texts = planned.step_texts(alloc)?;
    let asked = Asked {
        texts: &texts,
        numbers: &script.numbers,
        ..Asked::whole(Format::Svg)
    };
    let Handed { text, ending } = draw_text(alloc, &script.text, &asked)?;
    let ending = in_plan(ending, &script.numbers);
    Ok(Handed { text, ending })
}

/// Draws a plan, and returns the picture as SVG, and how the C call ends.
fn draw_plan(alloc: Global, plan: &[u8]) -> Result<Handed, OutOfMemory>
    ensures { IfOk result (λ h. IsPlanReported h.ending) }
{
    match Planned::read(alloc, plan) {
        Ok(planned) => draw_script(alloc, &planned),
        Err(fault) => refuse(alloc, plan, &fault),
    }
}

/// Checks what a plan says of its steps, in its own words and lines, and writes as much of the
/// verdicts as there is room for. The statuses are those of `mcs_check`; 2 also where no script of
/// steps comes of the plan, and the text says why.
#[unsafe(no_mangle)]
pub extern "C" fn mcs_check_plan(
    alloc: Global,
    plan: &[u8],
    out: &mut [u8],
    end: &mut McsEnd,
) -> u32
    ensures { IsRefused result out.old out.new end.old end.new
        ⊎ ChecksPlan result out.old out.new end.new }
{
    match check_plan(alloc, plan) {
        Ok(handed) => handed.hand_over(out, end),
        Err(OutOfMemory) => NO_MEMORY,
    }
}

/// Explains each step of a plan that did nothing, and what is stuck at its end, in its own words
/// and lines, and writes as much of that as there is room for. Returns 0 where nothing is stuck and
/// 1 where something is; 2, 5 and 6 as `mcs_check_plan`.
#[unsafe(no_mangle)]
pub extern "C" fn mcs_why_plan(alloc: Global, plan: &[u8], out: &mut [u8], end: &mut McsEnd) -> u32
    ensures { IsRefused result out.old out.new end.old end.new
        ⊎ TellsPlan result out.old out.new end.new }
{
    match why_plan(alloc, plan) {
        Ok(handed) => handed.hand_over(out, end),
        Err(OutOfMemory) => NO_MEMORY,
    }
}

/// Writes as much as there is room for of the state after a line of a plan, or at its end where the
/// line is 0 or beyond the last, as JSON. Returns 0; 2, 5 and 6 as `mcs_check_plan`.
#[unsafe(no_mangle)]
pub extern "C" fn mcs_state_plan(
    alloc: Global,
    plan: &[u8],
    line: u64,
    out: &mut [u8],
    end: &mut McsEnd,
) -> u32
    ensures { IsRefused result out.old out.new end.old end.new
        ⊎ TellsPlan result out.old out.new end.new }
{
    match state_plan(alloc, plan, line) {
        Ok(handed) => handed.hand_over(out, end),
        Err(OutOfMemory) => NO_MEMORY,
    }
}

/// Draws a plan in its own words and lines, and writes as much of the picture as there is room for,
/// as SVG. Returns 0; 2, 5 and 6 as `mcs_check_plan`.
#[unsafe(no_mangle)]
pub extern "C" fn mcs_draw_plan(alloc: Global, plan: &[u8], out: &mut [u8], end: &mut McsEnd) -> u32
    ensures { IsRefused result out.old out.new end.old end.new
        ⊎ TellsPlan result out.old out.new end.new }
{
    match draw_plan(alloc, plan) {
        Ok(handed) => handed.hand_over(out, end),
        Err(OutOfMemory) => NO_MEMORY,
    }
}
