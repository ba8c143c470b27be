//! The first plans of a new user.
use crate::command_line::with;
use clap::{Arg, ArgAction, ArgMatches, Command as Words, Error};
use mcs_lab_check::{LabFault, Outcome};
use mcs_plan_words::{Path, write_there};
use std::alloc::Global;
use std::fs::{self, File};
use std::io::{self, ErrorKind, Write};
use std::process::ExitCode;

/// The name of the plans to write, and whether they overwrite files.
#[derive(Clone, Copy)]
pub struct Begun<'a> {
    pub name: &'a str,
    pub is_forced: bool,
}

/// A plan of steps.
const STEPS: &str = "\
# A client and a passive file server.

endpoint fs.ep                       # where clients send their requests
reply fs.reply                       # owes each of them an answer
thread client prio 10
thread fs prio 100 passive on fs.ep with fs.reply
client has fs.ep:wp=42               # it may send (w), and be answered (p); fs sees the badge 42
fs has fs.ep:r fs.reply              # it may receive (r)

# what each thread does, in this order, and what has to come of it
client: call fs.ep 1 0x1000          # label 1, one word
? fs got 42 1 0x1000
? client owed fs.reply
? fs holds client.context            # the server runs on the client's context
fs: replyrecv fs.ep fs.reply 0 512   # answers with 512, and waits for the next request
? client answered 0 512
? client holds client.context
? fs waits fs.ep.recv
";

/// A plan of users.
const USERS: &str = "\
# The same server with two clients, in each order that the scheduler allows.

endpoint fs.ep
reply fs.reply
thread anna prio 10
thread ben prio 10 on core 1
thread fs prio 100
anna has fs.ep:wp=1
ben has fs.ep:wp=2
fs has fs.ep:r fs.reply

# what each thread does; nothing says in which order
user anna: call fs.ep 1 3
user ben: call fs.ep 1 4
user fs: recv fs.ep fs.reply
user fs: replyrecv fs.ep fs.reply 0
user fs: send fs.reply 0

# what has to be so in each order, and what in some
#! answer anna 1 got **
#! some fs 1 got 2 **
";

/// How to continue.
const NEXT: &str = "\
NAME.plan is a protocol with steps, and NAME-users.plan one with users, whose orders are all looked at. Go on with

  mcslab check NAME.plan
  mcslab draw NAME.plan > NAME.svg
  mcslab explore NAME-users.plan

`mcslab --help` has the exit statuses.";

/// Returns the name of the plans.
fn name<'a>(alloc: Global) -> Arg<'a> {
    Arg::new(alloc, "NAME")
        .help("The name of the plans, without .plan")
        .required(true)
}

/// Returns the option for files that are overwritten.
fn force<'a>(alloc: Global) -> Arg<'a> {
    Arg::new(alloc, "force")
        .long("force")
        .help("Overwrites the files of these names")
        .action(ArgAction::SetTrue)
}

/// Returns the command `init` without options.
fn words<'a>(alloc: Global) -> Words<'a> {
    Words::new(alloc, "init")
        .about("Writes two small plans to begin with: NAME.plan and NAME-users.plan")
        .after_help(NEXT)
}

/// Returns the command `init` for the parser of the command line.
pub fn command<'a>(alloc: Global) -> Result<Words<'a>, Error> {
    with(with(Ok(words(alloc)), force(alloc)), name(alloc))
}

/// Returns what the words of the command line ask for.
pub fn asked<'a>(found: &ArgMatches<'a>) -> Begun<'a> {
    let name = found.get_str("NAME").unwrap_or("");
    Begun {
        name: name.strip_suffix(".plan").unwrap_or(name),
        is_forced: found.get_flag("force"),
    }
}

/// Writes a file. `AlreadyExists` if there is one that must not be overwritten.
fn write(rt: &HostRuntime, path: &str, text: &str, is_forced: bool) -> io::Result<()> {
    if is_forced {
        return fs::write(rt, path, text.as_bytes());
    }
    let mut file = File::create_new(rt, path)?;
    file.write_all(text.as_bytes())
}

/// Returns whether an existing file prevents writing one.
fn is_in_the_way(rt: &HostRuntime, path: &str, is_forced: bool) -> bool {
    !is_forced && fs::open(rt, path).is_ok()
}

/// Reports why a file is not written, and returns the exit status.
fn tell_unwritten(rt: &HostRuntime, path: &str, kind: ErrorKind, error: &io::Error) -> ExitCode {
    if kind == ErrorKind::AlreadyExists {
        return tell_there(rt, path);
    }
    let path = Path(path);
    let _ = eprintln!(rt; "mcslab: {path}: {error}");
    ExitCode::from(Outcome::Call.status())
}

/// Reports that a file exists already, and returns the exit status.
fn tell_there(rt: &HostRuntime, path: &str) -> ExitCode {
    let _ = write_there(&mut rt.stderr(), path);
    ExitCode::from(Outcome::Call.status())
}

/// Writes both plans under these names, and returns the exit status. Writes neither if a file
/// exists already.
fn write_both(rt: &HostRuntime, paths: [&str; 2], is_forced: bool) -> ExitCode {
    for path in paths {
        if is_in_the_way(rt, path, is_forced) {
            return tell_there(rt, path);
        }
    }
    for (path, text) in paths.into_iter().zip([STEPS, USERS]) {
        if let Err(error) = write(rt, path, text, is_forced) {
            return tell_unwritten(rt, path, error.kind(), &error);
        }
    }
    let [steps, users] = paths;
    let steps = Path(steps);
    let users = Path(users);
    let _ = println!(rt; "{steps} and {users} are written; go on with");
    let _ = println!(rt; "  mcslab check {steps}");
    let _ = println!(rt; "  mcslab explore {users}");
    ExitCode::SUCCESS
}

/// Writes the first plans of a new user, and returns the exit status.
pub fn begin(rt: &HostRuntime, begun: Begun<'_>) -> ExitCode {
    let alloc = rt.alloc();
    let name = begun.name;
    let steps = format!(in alloc; "{name}.plan");
    let users = format!(in alloc; "{name}-users.plan");
    match (steps, users) {
        (Ok(steps), Ok(users)) => {
            write_both(rt, [steps.as_str(), users.as_str()], begun.is_forced)
        }
        _ => {
            let _ = rt.eprintln(LabFault::OutOfMemory);
            ExitCode::from(LabFault::OutOfMemory.status())
        }
    }
}
