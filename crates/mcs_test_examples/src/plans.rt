//! Plans: each of the gallery, and a small one, is compiled, and its script compared with the one
//! that is kept beside it; then each plan with a fault, and what is reported of it; then a plan of
//! two levels, the map and the names of one, and plans with a byte changed.
use mcs_lab_check::LabFault;
use mcs_plan_compile::write_map;
use mcs_plan_source::tell_names;
use mcs_plan_validate::{CompileFault, Compiled, compile_text, load};
use mcs_sim::{Sink, Source, simulate};
use rand_core::utils::NextWord;
use rand_pcg::Pcg32;
use std::alloc::Global;
use std::fs;
use std::io::Write;

/// The plans.
const PLANS: &[&str] = &[
    "gallery/passive-server",
    "gallery/nested-calls",
    "gallery/two-badges",
    "gallery/server-dies",
    "gallery/own-spaces",
    "gallery/revoked",
    "gallery/inversion",
    "gallery/two-cores",
    "gallery/deadlock",
    "gallery/started",
    "plans/two-threads",
];

/// Plans of users, whose scripts have no steps.
const USERS: &[&str] = &[
    "explore/disk-log",
    "programs/lock",
    "programs/files",
    "programs/microkit",
    "programs/retry",
    "programs/passive",
    "microkit/files",
    "microkit/files-call-back",
    "microkit/files-notified",
];

/// Plans with a fault, and what is reported of each.
const FAULTS: &[&str] = &["plans/faults", "microkit/faults"];

/// Returns what a file holds.
fn bytes_of(rt: &HostRuntime, path: &str) -> Result<Vec<u8>, LabFault> {
    fs::read(rt, path).map_err(|_| LabFault::Read)
}

/// The text that a file holds.
pub fn read_text(rt: &HostRuntime, path: &str) -> Result<String, LabFault> {
    fs::read_to_string(rt, path).map_err(|_| LabFault::Read)
}

/// The plan of a name.
fn plan_of(rt: &HostRuntime, name: &str) -> Result<Vec<u8>, LabFault> {
    bytes_of(rt, format!(in rt.alloc(); "{name}.plan")?.as_str())
}

/// Returns the word for whether a text is the expected one.
fn word_of(is_kept: bool) -> &'static str {
    if is_kept { "as kept" } else { "NOT AS KEPT" }
}

/// The text of a script.
fn text_of(alloc: Global, compiled: &Compiled) -> Result<String, LabFault> {
    let mut text = compiled.read.clone()?;
    text.extend_from_slice(&compiled.users)?;
    Ok(String::from_utf8_lossy(alloc, &text)?)
}

/// Returns the script of a plan, or the message about its fault.
pub fn script_of(alloc: Global, plan: &[u8]) -> Result<String, LabFault> {
    match load(alloc, plan) {
        Ok(loaded) => text_of(alloc, &loaded.compiled),
        Err(fault) => Ok(format!(in alloc; "{fault}")?),
    }
}

/// The trace of a script; None if it has a fault.
fn trace_of(alloc: Global, script: &[u8]) -> Result<Option<Vec<u8>>, LabFault> {
    let mut source = Source::new(script);
    let mut trace = Vec::new(alloc);
    let mut sink = Sink::new(alloc, &mut trace)?;
    let done = simulate(alloc, &mut source, &mut sink).is_ok();
    drop(sink);
    Ok(if done { Some(trace) } else { None })
}

/// Compares a plan's script with the expected one, and replays it if it has steps.
fn compare<W: Write>(
    rt: &HostRuntime,
    to: &mut W,
    name: &str,
    has_steps: bool,
) -> Result<(), LabFault> {
    let kept = read_text(rt, format!(in rt.alloc(); "{name}.mcs")?.as_str())?;
    let script = script_of(rt.alloc(), &plan_of(rt, name)?)?;
    let verdict = if has_steps && trace_of(rt.alloc(), script.as_bytes())?.is_none() {
        "WITH A FAULT"
    } else {
        word_of(script.as_str() == kept.as_str())
    };
    writeln!(to, "# {name}.plan: {verdict}")?;
    Ok(())
}

/// Returns whether the trace has two answers `done` and no refusal.
fn are_done(alloc: Global, trace: &[u8]) -> Result<bool, LabFault> {
    let text = String::from_utf8_lossy(alloc, trace)?;
    let done = text.lines().filter(|line| *line == "= done").count();
    Ok(done == 2 && !text.contains("= refused"))
}

/// Compiles a plan of 300 slots in one space, and runs steps over its first and its last name.
fn try_large<W: Write>(rt: &HostRuntime, to: &mut W) -> Result<(), LabFault> {
    let script = script_of(rt.alloc(), &plan_of(rt, "plans/large")?)?;
    let verdict = match trace_of(rt.alloc(), script.as_bytes())? {
        Some(trace) => {
            if are_done(rt.alloc(), &trace)? {
                "both done"
            } else {
                "NOT DONE"
            }
        }
        None => "WITH A FAULT",
    };
    writeln!(to, "# plans/large.plan: {verdict}")?;
    Ok(())
}

/// Some lines of a trace.
const LINES: &str = "\
0 t4 mint 1 62 9 64 wp 101
+ slot c1 1 e1 wp 101
+ joins t3 e1.recv r1
# t3
";

/// The same lines with names.
const NAMED: &str = "\
0 root mint 1 62 9 64 wp 101
+ slot anna.space 1 srv wp 101
+ joins server srv.recv srv.reply
# t3
";

/// Writes the table of a plan's names, and a trace with its names.
fn try_names<W: Write>(rt: &HostRuntime, to: &mut W) -> Result<(), LabFault> {
    let kept = read_text(rt, "gallery/own-spaces.map")?;
    let Ok(compiled) = compile_text(rt.alloc(), &plan_of(rt, "gallery/own-spaces")?) else {
        writeln!(to, "# gallery/own-spaces.map: WITH A FAULT")?;
        return Ok(());
    };
    let map = write_map(rt.alloc(), &compiled.script)?;
    let verdict = word_of(map.as_str() == kept.as_str());
    writeln!(to, "# gallery/own-spaces.map: {verdict}")?;
    let named = tell_names(rt.alloc(), &compiled.read, LINES.as_bytes())?;
    let verdict = word_of(named.as_slice() == NAMED.as_bytes());
    writeln!(to, "# names: {verdict}")?;
    Ok(())
}

/// Compares the messages about plans with a fault.
fn try_faults<W: Write>(rt: &HostRuntime, to: &mut W, name: &str) -> Result<(), LabFault> {
    let faults = read_text(rt, format!(in rt.alloc(); "{name}.txt")?.as_str())?;
    let wanted = read_text(rt, format!(in rt.alloc(); "{name}.told")?.as_str())?;
    let mut wanted = wanted.lines();
    let mut count: usize = 0;
    for plan in faults.split("%%%\n") {
        let verdict = script_of(rt.alloc(), plan.as_bytes())?;
        if wanted.next() == Some(verdict.as_str()) {
            count = count.saturating_add(1);
        } else {
            writeln!(to, "# NOT AS KEPT: {verdict}")?;
        }
    }
    writeln!(to, "# {name}.txt: {count} as kept")?;
    Ok(())
}

/// Returns whether a plan gives a script that replays without a fault, or has a fault itself.
fn is_right(alloc: Global, plan: &[u8]) -> Result<bool, LabFault> {
    match compile_text(alloc, plan) {
        Ok(compiled) => Ok(trace_of(alloc, &compiled.read)?.is_some()),
        Err(CompileFault::Plan(_)) => Ok(true),
        Err(_) => Ok(false),
    }
}

/// Returns a plan with one byte changed.
fn changed(plan: &[u8], alloc: Global, random: &mut Pcg32) -> Result<Vec<u8>, LabFault> {
    let mut changed = plan.to_vec(alloc)?;
    let at = random.next_word() as usize % changed.len().max(1);
    let byte = (random.next_word() % 256) as u8;
    if let Some(place) = changed.get_mut(at) {
        *place = byte;
    }
    Ok(changed)
}

/// Changes a byte of each plan `times` times: each result must give a script that replays without a
/// fault, or a fault of the plan. Writes how many did not.
pub fn try_changes<W: Write>(rt: &HostRuntime, to: &mut W, times: usize) -> Result<(), LabFault> {
    let mut random = Pcg32::new(1, 1);
    let mut wrong: usize = 0;
    for &name in PLANS {
        let plan = plan_of(rt, name)?;
        for _ in 0..times {
            if !is_right(rt.alloc(), &changed(&plan, rt.alloc(), &mut random)?)? {
                wrong = wrong.saturating_add(1);
            }
        }
    }
    writeln!(to, "# changed plans: {wrong} with a fault")?;
    Ok(())
}

/// Writes the results for all plans.
pub fn tell_plans<W: Write>(rt: &HostRuntime, to: &mut W) -> Result<(), LabFault> {
    for &name in PLANS {
        compare(rt, to, name, true)?;
    }
    for &name in USERS {
        compare(rt, to, name, false)?;
    }
    for &name in FAULTS {
        try_faults(rt, to, name)?;
    }
    try_large(rt, to)?;
    try_names(rt, to)
}
