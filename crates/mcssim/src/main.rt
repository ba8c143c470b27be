//! The program: `mcssim replay` replays a script of steps and writes its trace to standard output,
//! and `mcssim run` runs a script of users on a host thread for each core. The script comes from a
//! file or from standard input.
#![tactic(auto)]

mod input;
mod messages;

use input::open;
use mcs_command_line::{Options, Task, arguments, options};
use mcs_sim::{Open, SimFault, Sink, Source, run_text, simulate};
use messages::{explain, tell, tell_answer, tell_unopened};
use std::alloc::{AllocError, AllocGlobal};
use std::io::{self, Print, Read};
use std::process::ExitCode;
use std::sync::Wait;
use std::thread::Threads;

fn carry_out<R: AllocGlobal + Print + Threads + Wait + Sync, I: Read + Drop>(
    rt: &R,
    task: Task,
    from: I,
) -> Result<(), SimFault> {
    let mut source = Source::new(from);
    let Ok(mut sink) = Sink::new(rt.alloc(), io::writer(rt)) else {
        return Err(SimFault::OutOfMemory);
    };
    match task {
        Task::Replay => simulate(rt.alloc(), &mut source, &mut sink),
        Task::Run { cores } => run_text(rt, &mut source, &mut sink, cores, &Open),
    }
}

/// Reports the fault of a run, if there is one, and returns the exit status.
fn ended(rt: &HostRuntime, asked: &Options<'_>, done: Result<(), SimFault>) -> ExitCode {
    let Err(fault) = done else {
        return ExitCode::SUCCESS;
    };
    let status = tell(rt, fault);
    if asked.explain {
        explain(rt, fault);
    }
    status
}

fn texts<'a>(rt: &HostRuntime, words: &'a [String]) -> Result<Vec<&'a str>, AllocError> {
    words.iter().map(|word| word.as_str()).collect(rt.alloc())
}

fn main(rt: HostRuntime) -> ExitCode {
    let words = match arguments(&rt) {
        Ok(words) => words,
        Err(fault) => return tell(&rt, fault),
    };
    let Ok(texts) = texts(&rt, &words) else {
        return tell(&rt, SimFault::OutOfMemory);
    };
    let asked = match options(rt.alloc(), &texts) {
        Ok(asked) => asked,
        Err(answer) => return tell_answer(&rt, &answer),
    };
    let done = match asked.file {
        None => carry_out(&rt, asked.task, rt.reader()),
        Some(path) => match open(&rt, path) {
            Ok(file) => carry_out(&rt, asked.task, file),
            Err(error) => return tell_unopened(&rt, path, &error),
        },
    };
    ended(&rt, &asked, done)
}
