//! Messages about faults, on the standard error, and the exit statuses after them.
use crate::command_line::Command;
use mcs_explore_questions::ExploreFault;
use mcs_lab_check::Outcome;
use mcs_plan_validate::CompileFault;
use mcs_plan_words::{
    Place, Stranger, write_fault, write_plan_fault, write_script_fault, write_stranger,
};
use std::process::ExitCode;

/// Reports a fault at this line of a file, or without a line if it has none, and returns the exit
/// status.
pub fn tell_fault(rt: &HostRuntime, place: Place<'_>, fault: &ExploreFault) -> ExitCode {
    let _ = write_fault(rt.alloc(), &mut rt.stderr(), place, fault, None);
    ExitCode::from(fault.status())
}

/// Reports a fault of a script, or for which other command its line would be right, and returns the
/// exit status. `text` is that of the line.
pub fn tell_script_fault(
    rt: &HostRuntime,
    file: Option<&str>,
    command: Command<'_>,
    fault: &ExploreFault,
    text: Option<&[u8]>,
) -> ExitCode {
    let reads_users = reads_users(command);
    let mut to = rt.stderr();
    let _ = write_script_fault(rt.alloc(), &mut to, file, reads_users, fault, text);
    ExitCode::from(fault.status())
}

/// Reports why a plan does not compile, and returns the exit status.
pub fn tell_plan_fault(
    rt: &HostRuntime,
    file: Option<&str>,
    plan: &[u8],
    fault: &CompileFault,
) -> ExitCode {
    let _ = write_plan_fault(rt.alloc(), &mut rt.stderr(), file, plan, fault);
    ExitCode::from(fault.status())
}

/// Reports that a line is right for another command, and returns the exit status.
pub fn tell_stranger(rt: &HostRuntime, place: Place<'_>, stranger: Stranger) -> ExitCode {
    let _ = write_stranger(&mut rt.stderr(), place, stranger);
    ExitCode::from(Outcome::Refused.status())
}

/// Returns whether a command reads users, not steps.
pub fn reads_users(command: Command<'_>) -> bool {
    match command {
        Command::Explore(_) | Command::Graph(_) | Command::Walk(_) => true,
        Command::Check
        | Command::Why
        | Command::State(_)
        | Command::Json(_)
        | Command::Draw(_)
        | Command::Compile(_)
        | Command::Names
        | Command::Init(_)
        | Command::Forms(_)
        | Command::Manual
        | Command::Completions(_) => false,
    }
}
