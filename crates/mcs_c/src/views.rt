//! Views of a script: why its steps did nothing, the state at its end, and its picture.
ghost use Rattle.std.specs.Prelude.{◌≡◌, ◌⊎◌, IfOk};
ghost use Rattle.mcs_c.specs.Handing.{IsRefused};
ghost use Rattle.mcs_c.specs.Checks.{IsReported, Tells};

use crate::checks::check_ending;
use crate::output::{Handed, McsEnd, NO_MEMORY};
use mcs_lab_check::LabFault;
use mcs_lab_inspect::{Numbers, Wanted, explain, show_state};
use mcs_lab_render::{Asked, Format, draw_script};
use mcs_sim::Source;
use mcs_types::OutOfMemory;
use std::alloc::Global;

/// Returns a text, and how the call that wrote it ends after this answer.
fn hand(text: Vec<u8>, answer: Result<bool, LabFault>) -> Result<Handed, OutOfMemory>
    ensures { IfOk result (λ h. IsReported h.ending) }
{
    let ending = check_ending(answer).granted()?;
    Ok(Handed { text, ending })
}

/// Explains a script, and returns the text, and how the C call ends.
pub(crate) fn why_text(alloc: Global, script: &[u8]) -> Result<Handed, OutOfMemory>
    ensures { IfOk result (λ h. IsReported h.ending) }
{
    let mut text = Vec::new(alloc);
    let answer = explain(alloc, &mut Source::new(script), &mut text);
    hand(text, answer)
}

/// Returns the state after a line of a script as JSON, or at its end where none is named, with how
/// the call ends.
pub(crate) fn state_text(
    alloc: Global,
    script: &[u8],
    at: Option<u64>,
) -> Result<Handed, OutOfMemory>
    ensures { IfOk result (λ h. IsReported h.ending) }
{
    let mut text = Vec::new(alloc);
    let wanted = Wanted {
        at,
        stuck: false,
        json: true,
        numbers: Numbers::Integers,
    };
    let answer = show_state(alloc, &mut Source::new(script), &mut text, wanted);
    hand(text, answer)
}

/// Draws what is asked for of a script, and returns the picture, and how the C call ends.
pub(crate) fn draw_text(
    alloc: Global,
    script: &[u8],
    asked: &Asked<'_>,
) -> Result<Handed, OutOfMemory>
    ensures { IfOk result (λ h. IsReported h.ending) }
{
    let mut text = Vec::new(alloc);
    let answer = match draw_script(alloc, &mut Source::new(script), &mut text, asked) {
        Ok(()) => Ok(true),
        Err(fault) => Err(fault),
    };
    hand(text, answer)
}

/// Explains each step of a script that did nothing, and what is stuck at its end, and writes as
/// much as fits. Returns 0 if nothing is stuck and 1 if something is; 2, 5 and 6 as `mcs_check`.
#[unsafe(no_mangle)]
pub extern "C" fn mcs_why(alloc: Global, script: &[u8], out: &mut [u8], end: &mut McsEnd) -> u32
    ensures { IsRefused result out.old out.new end.old end.new
        ⊎ Tells result out.old out.new end.new }
{
    match why_text(alloc, script) {
        Ok(handed) => handed.hand_over(out, end),
        Err(OutOfMemory) => NO_MEMORY,
    }
}

/// Writes as much of the state at the end of a script as there is room for, as JSON. Returns 0; 2,
/// 5 and 6 as `mcs_check`.
#[unsafe(no_mangle)]
pub extern "C" fn mcs_state(alloc: Global, script: &[u8], out: &mut [u8], end: &mut McsEnd) -> u32
    ensures { IsRefused result out.old out.new end.old end.new
        ⊎ Tells result out.old out.new end.new }
{
    match state_text(alloc, script, None) {
        Ok(handed) => handed.hand_over(out, end),
        Err(OutOfMemory) => NO_MEMORY,
    }
}

/// Draws a script, and writes as much of the picture as there is room for, as SVG: nothing for a
/// script without a boot. Returns 0; 2, 5 and 6 as `mcs_check`.
#[unsafe(no_mangle)]
pub extern "C" fn mcs_draw(alloc: Global, script: &[u8], out: &mut [u8], end: &mut McsEnd) -> u32
    ensures { IsRefused result out.old out.new end.old end.new
        ⊎ Tells result out.old out.new end.new }
{
    match draw_text(alloc, script, &Asked::whole(Format::Svg)) {
        Ok(handed) => handed.hand_over(out, end),
        Err(OutOfMemory) => NO_MEMORY,
    }
}
