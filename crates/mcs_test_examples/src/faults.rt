//! Calls of `mcslab` on plans and scripts that it refuses, each with its message and its exit
//! status, in the form of `tests/faults/table.txt`, with which `tests/faults.sh` compares them.
use crate::commands::{Command, perform};
use mcs_explore_questions::ExploreFault;
use mcs_lab_check::{LabFault, Outcome};
use mcs_plan_words::{
    Place, Planned, line_of, number_in, write_fault, write_plan_fault, write_script_fault,
    write_stranger, write_there, write_unopened,
};
use std::alloc::Global;
use std::fs;
use std::io::Write;

/// The words of calls, of which the last is a file of the cases, and what they ask for.
const CALLS: &[(&str, Command)] = &[
    ("check steps.txt", Command::Check),
    ("check < steps.plan", Command::Check),
    ("check users.mcs", Command::Check),
    ("why users.mcs", Command::Why),
    ("state < users.mcs", Command::State(None)),
    ("json users.mcs", Command::Json),
    ("draw users.mcs", Command::Draw(None, None)),
    ("explore steps.mcs", Command::Explore),
    ("walk - < steps.mcs", Command::Walk),
    ("check users.plan", Command::Check),
    ("why --plan < users.plan", Command::Why),
    ("draw program.plan", Command::Draw(None, None)),
    ("explore steps.plan", Command::Explore),
    ("walk steps.plan", Command::Walk),
    ("check misspelt.plan", Command::Check),
    ("check --plan - < misspelt.plan", Command::Check),
    ("explore misspelt.plan", Command::Explore),
    ("compile misspelt.plan", Command::Compile),
    ("draw capability.plan", Command::Draw(None, None)),
    ("why expectation.plan", Command::Why),
    ("check returns.plan", Command::Check),
    ("check mark.plan", Command::Check),
    ("explore question.plan", Command::Explore),
    ("walk question.plan", Command::Walk),
    ("explore open.plan", Command::Explore),
    ("check nearest.plan", Command::Check),
    ("draw nearest-line.plan", Command::Draw(None, None)),
    ("compile missing.plan", Command::Compile),
    ("why missing-depth.plan", Command::Why),
    ("compile cnode.plan", Command::Compile),
    ("compile --map cnode.plan", Command::Compile),
    ("state many.plan", Command::State(None)),
    ("explore nothing.plan", Command::Explore),
    ("json twice.plan", Command::Json),
    ("check twice-slot.plan", Command::Check),
    ("check misspelt.mcs", Command::Check),
    ("check < misspelt.mcs", Command::Check),
    ("check state.mcs", Command::Check),
    ("check blanks.mcs", Command::Check),
    ("json tab.mcs", Command::Json),
    ("state begins.mcs", Command::State(None)),
    ("draw ends.mcs", Command::Draw(None, None)),
    ("check missing.mcs", Command::Check),
    ("why return.mcs", Command::Why),
    ("explore misspelt-user.mcs", Command::Explore),
    ("explore question.mcs", Command::Explore),
    ("explore < question.mcs", Command::Explore),
    ("explore schedule.mcs", Command::Explore),
    ("explore schedules.mcs", Command::Explore),
    ("check none.plan", Command::Check),
    ("check none.mcs", Command::Check),
    ("check .", Command::Check),
    ("check --plan .", Command::Check),
    ("state --at 9 steps.plan", Command::State(Some(9))),
    ("state --at 8 steps.mcs", Command::State(Some(8))),
    ("draw --from 9 steps.plan", Command::Draw(Some(9), None)),
    ("draw --to 9 steps.plan", Command::Draw(None, Some(9))),
    ("draw --from 7 steps.plan", Command::Draw(Some(7), None)),
    (
        "draw --from 7 --to 6 steps.plan",
        Command::Draw(Some(7), Some(6)),
    ),
    (
        "draw --from 1 --to 6 steps.mcs",
        Command::Draw(Some(1), Some(6)),
    ),
    ("check unmet.plan", Command::Check),
];

/// A call: its command, the file that it names, None for the standard input, whether that is a
/// plan, and what it holds.
#[derive(Clone, Copy)]
struct Call<'a> {
    command: Command,
    file: Option<&'a str>,
    is_plan: bool,
    text: &'a [u8],
}

impl Call<'_> {
    /// Returns the line of this number, from 1, without its newline.
    fn line(&self, number: u64) -> Option<&[u8]> {
        let before = usize::try_from(number.checked_sub(1)?).ok()?;
        self.text.split(|byte| *byte == b'\n').nth(before)
    }
}

/// Writes the message about the script of a plan, and returns the exit status.
fn tell_made<W: Write>(
    alloc: Global,
    to: &mut W,
    call: Call<'_>,
    script: &[u8],
    numbers: &[u64],
) -> Result<u8, LabFault> {
    match perform(alloc, to, call.command, script, numbers) {
        Ok(status) => Ok(status),
        Err(fault) => {
            let file = call.file;
            let line = line_of(&fault).map(|line| number_in(numbers, line));
            write_fault(alloc, to, Place { file, line }, &fault, None)?;
            Ok(fault.status())
        }
    }
}

/// Writes the message about a plan that became a script, and returns the exit status.
fn tell_planned<W: Write>(
    alloc: Global,
    to: &mut W,
    call: Call<'_>,
    planned: &Planned<'_>,
) -> Result<u8, LabFault> {
    let reads_users = call.command.reads_users();
    if let Some(stranger) = planned.stranger(reads_users) {
        let file = call.file;
        let line = planned.first();
        write_stranger(to, Place { file, line }, stranger)?;
        return Ok(Outcome::Refused.status());
    }
    if let Some(fault) = call.command.beyond(planned.count()) {
        writeln!(to, "{fault}")?;
        return Ok(Outcome::Call.status());
    }
    if !reads_users {
        let script = &planned.script;
        return tell_made(alloc, to, call, &script.text, &script.numbers);
    }
    let script = planned.asked(alloc)?;
    tell_made(alloc, to, call, &script.text, &script.numbers)
}

/// Writes the message about a plan, and returns the exit status.
fn tell_plan<W: Write>(alloc: Global, to: &mut W, call: Call<'_>) -> Result<u8, LabFault> {
    match Planned::read(alloc, call.text) {
        Ok(planned) => tell_planned(alloc, to, call, &planned),
        Err(fault) => {
            write_plan_fault(alloc, to, call.file, call.text, &fault)?;
            Ok(fault.status())
        }
    }
}

/// Writes the message about a fault of a script, and returns the exit status.
fn tell_fault<W: Write>(
    alloc: Global,
    to: &mut W,
    call: Call<'_>,
    fault: &ExploreFault,
) -> Result<u8, LabFault> {
    let text = line_of(fault).and_then(|line| call.line(line));
    let reads_users = call.command.reads_users();
    write_script_fault(alloc, to, call.file, reads_users, fault, text)?;
    Ok(fault.status())
}

/// Writes the message about a script, and returns the exit status.
fn tell_script<W: Write>(alloc: Global, to: &mut W, call: Call<'_>) -> Result<u8, LabFault> {
    match perform(alloc, to, call.command, call.text, &[]) {
        Ok(status) => Ok(status),
        Err(fault) => tell_fault(alloc, to, call, &fault),
    }
}

/// Writes the message that these words call forth, and returns the exit status.
fn tell_words<W: Write>(
    rt: &HostRuntime,
    to: &mut W,
    words: &str,
    command: Command,
) -> Result<u8, LabFault> {
    if let Some(fault) = command.crossed() {
        writeln!(to, "{fault}")?;
        return Ok(Outcome::Call.status());
    }
    let (options, name) = words.rsplit_once(" ").unwrap_or(("", words));
    let path = format!(in rt.alloc(); "faults/{name}")?;
    let text = match fs::read(rt, path.as_str()) {
        Ok(text) => text,
        Err(error) => {
            write_unopened(to, name, &error)?;
            return Ok(Outcome::Call.status());
        }
    };
    let is_named = !options.ends_with("<");
    let call = Call {
        command,
        file: if is_named { Some(name) } else { None },
        is_plan: options.contains("--plan") || (is_named && name.ends_with(".plan")),
        text: &text,
    };
    if call.is_plan {
        return tell_plan(rt.alloc(), to, call);
    }
    tell_script(rt.alloc(), to, call)
}

/// Writes the call of `init` for a plan that exists, its message and its exit status.
fn tell_there<W: Write>(rt: &HostRuntime, to: &mut W) -> Result<(), LabFault> {
    if fs::open(rt, "faults/steps.plan").is_ok() {
        let status = Outcome::Call.status();
        writeln!(to, "$ mcslab init steps")?;
        write_there(to, "steps.plan")?;
        writeln!(to, "status {status}")?;
    }
    Ok(())
}

/// Writes each call, its message and its exit status.
pub fn tell_faults<W: Write>(rt: &HostRuntime, to: &mut W) -> Result<(), LabFault> {
    for &(words, command) in CALLS {
        writeln!(to, "$ mcslab {words}")?;
        let status = tell_words(rt, to, words, command)?;
        writeln!(to, "status {status}")?;
    }
    tell_there(rt, to)
}
