//! Checks and draws the scripts of `examples/` that consist of steps, and compares each picture
//! with the one beside its script. Scripts about what a kernel reports are only checked. Explores
//! the scripts of users, compiles the plans, searches a small system, matches patterns, and reports
//! what is stuck at the end of some scripts, how a report spells numbers, and the messages about
//! plans and scripts that are refused. Then replays the scripts of standard input; without files it
//! does only this, so that `tests/each-allocation.sh` can fail each allocation in turn and compare
//! the traces. With a number as its only argument, it changes a byte of each plan this many times,
//! and does nothing else.
#![tactic(auto)]

mod calls;
mod commands;
mod faults;
mod flaws;
mod forms;
mod gallery;
mod given;
mod looks;
mod orders;
mod patterns;
mod pen;
mod places;
mod plans;
mod rings;
mod scripts;
mod spelled;
mod stuck;
mod walks;

use faults::tell_faults;
use flaws::tell_flaws;
use gallery::{draw_gallery, draw_lanes};
use given::tell_given;
use looks::look_at;
use mcs_command_line::arguments;
use mcs_lab_check::{LabFault, check};
use mcs_lab_render::Format;
use mcs_sim::{SimFault, Source};
use orders::explore_all;
use patterns::tell_patterns;
use plans::{tell_plans, try_changes};
use rings::tell_rings;
use spelled::tell_spelled;
use std::fs;
use std::io::{self, BufWriter, Write};
use std::process::ExitCode;
use stuck::tell_stuck;

/// Checks the script of a file, and writes its name before the verdicts.
fn check_file<W: Write + Drop>(rt: &HostRuntime, to: &mut W, path: &str) -> Result<bool, LabFault> {
    writeln!(to, "# {path}")?;
    let Ok(file) = fs::open(rt, path) else {
        return Err(LabFault::Read);
    };
    check(rt.alloc(), &mut Source::new(file), to)
}

/// Draws the script of a file, and writes how the picture compares with its file.
fn draw_file<W: Write>(
    rt: &HostRuntime,
    to: &mut W,
    script: &str,
    picture: &str,
    format: Format,
) -> Result<(), LabFault> {
    let (Ok(script), Ok(kept)) = (fs::open(rt, script), fs::read(rt, picture)) else {
        return Err(LabFault::Read);
    };
    let verdict = look_at(rt.alloc(), script, kept.as_slice(), format);
    writeln!(to, "# {picture}: {verdict}")?;
    Ok(())
}

/// Checks and draws the scripts of all files. Returns true if each holds.
fn check_all<W: Write + Drop>(
    rt: &HostRuntime,
    to: &mut W,
    paths: &[String],
) -> Result<bool, LabFault> {
    let mut all_hold = true;
    for path in paths {
        let holds = check_file(rt, to, path.as_str())?;
        let name = path.trim_end_matches(".mcs");
        let picture = format!(in rt.alloc(); "{name}.svg")?;
        draw_file(rt, to, path.as_str(), picture.as_str(), Format::Svg)?;
        all_hold = all_hold && holds;
    }
    Ok(all_hold)
}

/// Scripts about what a kernel reports: the status and mail of threads, other questions, and where
/// addresses lead.
const REPORTS: &[&str] = &[
    "kernel/message.mcs",
    "kernel/signal.mcs",
    "kernel/call.mcs",
    "kernel/cancelled.mcs",
    "kernel/away.mcs",
    "kernel/lent.mcs",
    "kernel/lookup.mcs",
];

/// Checks these scripts. Returns true if each holds.
fn check_reports<W: Write + Drop>(rt: &HostRuntime, to: &mut W) -> Result<bool, LabFault> {
    let mut all_hold = true;
    for path in REPORTS {
        let holds = check_file(rt, to, path)?;
        all_hold = all_hold && holds;
    }
    Ok(all_hold)
}

/// How many times a byte of each plan is changed by default.
const CHANGES: usize = 50;

/// Checks and draws the scripts of all files, draws the gallery, explores, compiles, and writes the
/// results. Returns true if each script holds.
fn tell_all(rt: &HostRuntime, paths: &[String]) -> Result<bool, LabFault> {
    let mut to = BufWriter::new(rt.alloc(), io::writer(rt))?;
    let all_hold = check_all(rt, &mut to, paths)?;
    let reports_hold = check_reports(rt, &mut to)?;
    draw_gallery(rt, &mut to)?;
    draw_lanes(rt, &mut to)?;
    tell_flaws(rt.alloc(), &mut to)?;
    explore_all(rt, &mut to)?;
    tell_plans(rt, &mut to)?;
    try_changes(rt, &mut to, CHANGES)?;
    tell_rings(rt.alloc(), &mut to)?;
    tell_patterns(&mut to)?;
    tell_stuck(rt, &mut to)?;
    tell_spelled(rt, &mut to)?;
    tell_faults(rt, &mut to)?;
    to.flush()?;
    Ok(all_hold && reports_hold)
}

/// Changes plans `times` times, and writes how many runs went wrong.
fn tell_changes(rt: &HostRuntime, times: usize) -> Result<bool, LabFault> {
    let mut to = BufWriter::new(rt.alloc(), io::writer(rt))?;
    try_changes(rt, &mut to, times)?;
    to.flush()?;
    Ok(true)
}

/// Returns the number given in place of files, if there is one.
fn number_of(paths: &[String]) -> Option<usize> {
    match paths {
        [word] => word.as_str().parse::<usize>().ok(),
        _ => None,
    }
}

/// Does what the words after the program's name ask for. Returns true if all holds.
fn tell(rt: &HostRuntime, paths: &[String]) -> Result<bool, LabFault> {
    if let Some(times) = number_of(paths) {
        return tell_changes(rt, times);
    }
    let all_hold = paths.is_empty() || tell_all(rt, paths)?;
    Ok(tell_given(rt) && all_hold)
}

/// Returns the words of the command line, retrying once after a failed allocation.
fn words(rt: &HostRuntime) -> Result<Vec<String>, SimFault> {
    match arguments(rt) {
        Ok(words) => Ok(words),
        Err(_) => arguments(rt),
    }
}

fn main(rt: HostRuntime) -> ExitCode {
    let Ok(words) = words(&rt) else {
        return ExitCode::FAILURE;
    };
    let paths = match words.as_slice() {
        [_, paths @ ..] => paths,
        [] => &[],
    };
    match tell(&rt, paths) {
        Ok(true) => ExitCode::SUCCESS,
        Ok(false) => ExitCode::FAILURE,
        Err(fault) => {
            let _ = rt.eprintln(fault);
            ExitCode::from(fault.status())
        }
    }
}
