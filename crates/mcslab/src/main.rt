//! The program: `mcslab check` checks what a script or a plan expects of its steps, `mcslab why`
//! explains steps without effect, `mcslab explore` searches all orders of users.
//!
//! ```text
//! words ── command_line ──> Request: a command, and its file
//! file ── input ──> a script, which is read as it comes, or a plan, which is read whole
//! plan ── plan ──> the command with the script that it becomes, and the report by the plan's lines
//!     and names (mcs_plan_words)
//! faults ── messages ──> FILE:LINE: .. (mcs_plan_words) on the standard error, and the exit status
//! ```
#![tactic(auto)]

mod command_line;
mod compilation;
mod completions;
mod first_plans;
mod folder;
mod forms;
mod graphs;
mod input;
mod manual;
mod messages;
mod orders;
mod pictures;
mod plan;
mod trace_names;
mod walks;

use clap::Error;
use clap::error::ErrorKind;
use command_line::{Command, Request, requested};
use completions::write_completions;
use first_plans::begin;
use folder::make_folder;
use forms::show_forms;
use graphs::graph;
use input::{Kept, open, tell_unopened};
use manual::write_manual;
use mcs_command_line::arguments;
use mcs_explore_questions::ExploreFault;
use mcs_lab_check::{LabFault, Outcome, check};
use mcs_lab_inspect::{explain, show_state, write_json};
use mcs_plan_words::{Path, crossed, line_of};
use mcs_sim::{SimFault, Source};
use messages::tell_script_fault;
use orders::{Sought, explore};
use pictures::{Drawn, Said, draw};
use plan::do_plan;
use std::alloc::{AllocError, Global};
use std::io::{self, BufWriter, Read, Write};
use std::process::ExitCode;
use trace_names::tell_trace;
use walks::walk;

/// Returns the exit code for an outcome.
fn ended(outcome: Outcome) -> ExitCode {
    ExitCode::from(outcome.status())
}

/// Prints what `clap` returns in place of a command: help, version or an error.
fn tell_answer(rt: &HostRuntime, answer: &Error) -> ExitCode {
    let _ = answer.print(rt);
    match answer.kind() {
        ErrorKind::DisplayHelp | ErrorKind::DisplayVersion => ExitCode::SUCCESS,
        ErrorKind::OutOfMemory => ended(Outcome::OutOfMemory),
        _ => ended(Outcome::Call),
    }
}

/// Returns the exit status for a check that holds or not.
fn status_if(holds: bool) -> u8 {
    if holds {
        Outcome::Done.status()
    } else {
        Outcome::Unmet.status()
    }
}

/// Performs a request on a script that is read, and returns the exit status.
fn read_script<R: Read + Drop>(
    rt: &HostRuntime,
    request: &Request<'_>,
    from: R,
) -> Result<u8, ExploreFault> {
    let mut source = Source::new(from);
    let mut to = BufWriter::new(rt.alloc(), io::writer(rt))?;
    let done = do_request(rt, request, &mut source, &mut to);
    to.flush()?;
    done
}

/// Performs a request on a source, writes the results, and returns the exit status.
fn do_request<R: Read + Drop, W: Write + Drop>(
    rt: &HostRuntime,
    request: &Request<'_>,
    source: &mut Source<R>,
    to: &mut W,
) -> Result<u8, ExploreFault> {
    let alloc = rt.alloc();
    let holds = match request.command {
        Command::Check => check(alloc, source, to)?,
        Command::Why => explain(alloc, source, to)?,
        Command::State(wanted) => show_state(alloc, source, to, wanted)?,
        Command::Json(numbers) => write_json(alloc, source, to, numbers)?,
        Command::Draw(drawn) => return Ok(draw(rt, source, to, drawn, Said::nothing())?),
        Command::Explore(sought) => return explore(rt, source, to, sought),
        Command::Graph(asked) => return graph(alloc, source, to, asked),
        Command::Walk(chance) => return walk(alloc, source, to, chance),
        // these read no script of steps
        Command::Compile(_) | Command::Names | Command::Init(_) => true,
        Command::Forms(_) | Command::Manual | Command::Completions(_) => true,
    };
    Ok(status_if(holds))
}

/// Reports a fault of a script, or for which other command the line would be right, and returns the
/// exit status.
fn tell<R>(
    rt: &HostRuntime,
    request: &Request<'_>,
    fault: &ExploreFault,
    kept: &Kept<R>,
) -> ExitCode {
    let text = line_of(fault).and_then(|line| kept.line(line));
    tell_script_fault(rt, request.file, request.command, fault, text)
}

/// Performs a request on a script, and returns the exit status.
fn do_script<R: Read + Drop>(rt: &HostRuntime, request: &Request<'_>, from: R) -> ExitCode {
    let mut kept = Kept::new(rt.alloc(), from);
    match read_script(rt, request, &mut kept) {
        Ok(status) => ExitCode::from(status),
        Err(fault) => tell(rt, request, &fault, &kept),
    }
}

/// Performs a request on the script of a file, or of the standard input.
fn do_file(rt: &HostRuntime, request: &Request<'_>) -> ExitCode {
    match request.file {
        None => do_script(rt, request, rt.reader()),
        Some(path) => match open(rt, path) {
            Ok(file) => do_script(rt, request, file),
            Err(error) => ExitCode::from(tell_unopened(rt, path, &error)),
        },
    }
}

/// Returns whether a picture would show no line, since its first is after its last; if so, reports
/// that on standard error.
fn shows_no_line(rt: &HostRuntime, drawn: Drawn<'_>) -> bool {
    match crossed(drawn.from, drawn.to) {
        Some(fault) => {
            let _ = rt.eprintln(fault);
            true
        }
        None => false,
    }
}

/// Returns the exit code for a text about the program itself: the manual or completions.
fn described(rt: &HostRuntime, made: Result<ExitCode, Error>) -> ExitCode {
    match made {
        Ok(status) => status,
        Err(error) => tell_answer(rt, &error),
    }
}

/// Performs a request, with its file or the standard input.
fn carry_out(rt: &HostRuntime, request: &Request<'_>) -> ExitCode {
    match request.command {
        Command::Compile(made) => return compilation::compile_plan(rt, request.file, made),
        Command::Names => return tell_trace(rt, request.file),
        Command::Init(begun) => return begin(rt, begun),
        Command::Forms(forms) => return show_forms(rt, forms),
        Command::Manual => return described(rt, write_manual(rt)),
        Command::Completions(shell) => return described(rt, write_completions(rt, shell)),
        Command::Explore(
            Sought {
                scripts: Some(path),
                ..
            },
        ) => {
            if let Err(error) = make_folder(rt, path) {
                let path = Path(path);
                let _ = eprintln!(rt; "mcslab: --scripts \"{path}\": {error}");
                return ended(Outcome::Call);
            }
        }
        Command::Draw(drawn) => {
            if shows_no_line(rt, drawn) {
                return ended(Outcome::Call);
            }
        }
        Command::Explore(Sought { scripts: None, .. })
        | Command::Graph(_)
        | Command::Walk(_)
        | Command::Check
        | Command::Why
        | Command::State(_)
        | Command::Json(_) => {}
    }
    if request.is_plan {
        return do_plan(rt, request);
    }
    do_file(rt, request)
}

/// The words as texts.
fn texts<'a>(alloc: Global, words: &'a [String]) -> Result<Vec<&'a str>, AllocError> {
    words.iter().map(|word| word.as_str()).collect(alloc)
}

/// Reports that memory was refused, and returns the exit status.
fn tell_no_memory(rt: &HostRuntime) -> ExitCode {
    let _ = rt.eprintln(LabFault::OutOfMemory);
    ended(Outcome::OutOfMemory)
}

fn main(rt: HostRuntime) -> ExitCode {
    let words = match arguments(&rt) {
        Ok(words) => words,
        Err(SimFault::OutOfMemory) => return tell_no_memory(&rt),
        Err(_) => {
            let _ = rt.eprintln("mcslab: an argument is not UTF-8");
            return ended(Outcome::Call);
        }
    };
    let Ok(texts) = texts(rt.alloc(), &words) else {
        return tell_no_memory(&rt);
    };
    match requested(rt.alloc(), &texts) {
        Ok(request) => carry_out(&rt, &request),
        Err(answer) => tell_answer(&rt, &answer),
    }
}
