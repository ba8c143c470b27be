//! Reports on scripts that end with stuck threads, each beside a similar one without stuck threads,
//! and on one whose messages are dropped; and the whole state at the end of two scripts.
use mcs_lab_check::LabFault;
use mcs_lab_inspect::{Numbers, Wanted, explain, show_state};
use mcs_sim::Source;
use std::fs;
use std::io::Write;

/// The scripts, and whether only stuck threads are shown at their ends.
const SCRIPTS: &[(&str, bool)] = &[
    ("stuck/lost-context.mcs", true),
    ("stuck/context-at-hand.mcs", true),
    ("stuck/receives-elsewhere.mcs", true),
    ("stuck/third-receives.mcs", true),
    ("stuck/dropped.mcs", true),
    ("kernel/lent.mcs", false),
    ("kernel/addresses.mcs", false),
];

/// Returns the text for whether some thread is stuck, on which both commands must agree.
fn word_of(is_free: bool, seems_free: bool) -> &'static str {
    match (is_free, seems_free) {
        (true, true) => "none is stuck",
        (false, false) => "stuck",
        _ => "STUCK BY ONE OF TWO",
    }
}

/// Writes why steps of a script did nothing and what is stuck at its end, and then the state or the
/// stuck threads at its end.
fn tell_script<W: Write + Drop>(
    rt: &HostRuntime,
    to: &mut W,
    path: &str,
    stuck: bool,
) -> Result<(), LabFault> {
    let (Ok(script), Ok(again)) = (fs::open(rt, path), fs::open(rt, path)) else {
        return Err(LabFault::Read);
    };
    writeln!(to, "# {path}")?;
    let is_free = explain(rt.alloc(), &mut Source::new(script), &mut *to)?;
    let wanted = Wanted {
        at: None,
        stuck,
        json: false,
        numbers: Numbers::Integers,
    };
    let seems_free = show_state(rt.alloc(), &mut Source::new(again), &mut *to, wanted)?;
    let verdict = word_of(is_free, seems_free);
    writeln!(to, "# {path}: {verdict}")?;
    Ok(())
}

/// Writes the results for all scripts.
pub fn tell_stuck<W: Write + Drop>(rt: &HostRuntime, to: &mut W) -> Result<(), LabFault> {
    for &(path, stuck) in SCRIPTS {
        tell_script(rt, to, path, stuck)?;
    }
    Ok(())
}
