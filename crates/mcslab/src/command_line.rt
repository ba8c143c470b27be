//! What the command line asks for.
use crate::compilation::{self, Made};
use crate::completions::{self, Shell};
use crate::first_plans::{self, Begun};
use crate::forms::{self, Forms};
use crate::graphs::{self, Graphed};
use crate::orders::{self, Sought};
use crate::pictures::{self, Drawn};
use crate::walks::{self, Chance};
use crate::{manual, trace_names};
use clap::builder::ValueParser;
use clap::{Arg, ArgAction, ArgMatches, Command as Words, Error};
use mcs_command_line::VERSION;
use mcs_lab_inspect::{Numbers, Wanted};
use std::alloc::Global;

/// The option for numbers as texts.
const STRINGS: &str = "json-strings";

/// A command of the program, with its options.
#[derive(Clone, Copy)]
pub enum Command<'a> {
    /// Compares what follows each step with what it did.
    Check,
    /// Explains why steps did nothing, and reports what is stuck at the end.
    Why,
    /// Shows the state of each thread.
    State(Wanted),
    /// Writes the lines of the book as JSON, with this form of numbers.
    Json(Numbers),
    /// Draws the run.
    Draw(Drawn<'a>),
    /// Explores all orders of the users.
    Explore(Sought<'a>),
    /// Writes the graph of all orders of the users.
    Graph(Graphed),
    /// Draws orders of the users at random.
    Walk(Chance),
    /// Compiles a plan to a script.
    Compile(Made),
    /// Puts names into a trace.
    Names,
    /// Writes the first plans of a new user.
    Init(Begun<'a>),
    /// Shows the forms of a text.
    Forms(Forms),
    /// Writes the manual page.
    Manual,
    /// Writes completions for a shell.
    Completions(Shell),
}

/// A command, and the file that it reads; None for the standard input.
#[derive(Drop)]
pub struct Request<'a> {
    pub command: Command<'a>,
    pub file: Option<&'a str>,
    /// Whether the file is a plan, by its name or by an option.
    pub is_plan: bool,
}

/// Returns the file that is named; None for the standard input, which `-` names, too.
fn file_of<'a>(found: &ArgMatches<'a>) -> Option<&'a str> {
    match found.get_str("FILE") {
        Some("-") | None => None,
        Some(file) => Some(file),
    }
}

impl<'a> Request<'a> {
    /// Returns the request of a command whose file is always a plan, or always a script.
    fn plain(command: Command<'a>, found: &ArgMatches<'a>) -> Request<'a> {
        Request {
            command,
            file: file_of(found),
            is_plan: false,
        }
    }

    /// Returns the request of a command that reads a script or a plan.
    fn of_either(command: Command<'a>, found: &ArgMatches<'a>) -> Request<'a> {
        let file = file_of(found);
        Request {
            command,
            file,
            is_plan: found.get_flag("plan") || file.is_some_and(|file| file.ends_with(".plan")),
        }
    }
}

/// Notes on all commands, an example of each, and the exit statuses of `Outcome`.
pub const HELP: &str = "\
A command that reads steps or users reads a script or a plan: a file NAME.plan, or any with --plan.
Line numbers are those of the given file. A fault is reported as FILE:LINE: .., and `-` is the
standard input. `mcslab COMMAND --help` has the options of a command.

Examples:
  mcslab init first                               two plans to begin with, first.plan and first-users.plan
  mcslab check first.plan
  mcslab why first.plan
  mcslab state --at 11 first.plan
  mcslab json first.plan
  mcslab draw first.plan > first.svg
  mcslab explore --scripts found first-users.plan
  mcslab graph first-users.plan > first.aut
  mcslab walk --seed 7 first-users.plan > one-order.mcs
  mcslab compile first.plan > first.mcs
  mcslab names first.mcs < trace
  mcslab forms plan                               what a plan may say; a script; questions
  mcslab manual > mcslab.1
  mcslab completions bash > mcslab.bash

Exit status:
   0  it did what was asked, and all that was wanted holds
   1  something that was wanted does not hold, an order ends with users that have not done all,
      or a thread or a user is stuck
   2  a line of the script or of the plan is refused
   3  a budget ended the search, or `walk --runs` took some orders, and nothing failed so far
   4  a write failed
   5  the book is full
   6  memory was refused
   8  a read failed
  64  the command line: an option, a file that cannot be opened, or a line that is not there";

/// Where the help says what may be expected of a step.
const EXPECTED: &str = "\
Lines after a step say what is wanted of it: `mcslab forms questions`. The exit status is 1 if
something that is wanted does not hold; `mcslab --help` has the others.";

/// The file of a script or a plan.
fn file<'a>(alloc: Global) -> Arg<'a> {
    Arg::new(alloc, "FILE").help("The script, or the plan NAME.plan [default: standard input]")
}

/// The option for a plan.
fn as_plan<'a>(alloc: Global) -> Arg<'a> {
    Arg::new(alloc, "plan")
        .long("plan")
        .help("Reads a plan, whatever the file's name is")
        .action(ArgAction::SetTrue)
}

/// The file of a plan.
fn plan<'a>(alloc: Global) -> Arg<'a> {
    Arg::new(alloc, "FILE").help("The plan [default: standard input]")
}

/// Returns an option for the number of a line, 1 or more.
pub fn line<'a>(alloc: Global, name: &'a str, help: &'a str) -> Arg<'a> {
    Arg::new(alloc, name)
        .long(name)
        .value_name("LINE")
        .help(help)
        .value_parser(ValueParser::unsigned(1, u64::MAX))
}

/// The option that says after which line.
fn at<'a>(alloc: Global) -> Arg<'a> {
    line(
        alloc,
        "at",
        "Shows the state after this line of the file [default: its last]",
    )
}

/// Returns the option to report only the stuck threads.
fn stuck<'a>(alloc: Global) -> Arg<'a> {
    Arg::new(alloc, "stuck")
        .long("stuck")
        .help("Reports only which threads are stuck, and on whom; status 1 if some are")
        .action(ArgAction::SetTrue)
}

/// The option for programs.
fn json<'a>(alloc: Global) -> Arg<'a> {
    Arg::new(alloc, "json")
        .long("json")
        .help("Writes JSON, one object")
        .action(ArgAction::SetTrue)
}

/// The option for numbers as texts.
pub fn strings<'a>(alloc: Global) -> Arg<'a> {
    Arg::new(alloc, STRINGS)
        .long(STRINGS)
        .help(
            "Writes addresses, indexes, badges and words as texts, which JavaScript does not round",
        )
        .action(ArgAction::SetTrue)
}

/// Returns how the command line asks for numbers.
fn numbers_of(found: &ArgMatches<'_>) -> Numbers {
    if found.get_flag(STRINGS) {
        Numbers::Texts
    } else {
        Numbers::Integers
    }
}

/// Returns a command with one argument more. Each step that can fail drops what was made before, so
/// a chain of steps in one function takes long to prove, and single steps do not.
pub fn with<'a>(words: Result<Words<'a>, Error>, arg: Arg<'a>) -> Result<Words<'a>, Error> {
    Ok(words?.arg(arg)?)
}

/// Returns a command with one more argument, which needs another one.
pub fn with_other<'a>(
    words: Result<Words<'a>, Error>,
    arg: Arg<'a>,
    other: &'a str,
) -> Result<Words<'a>, Error> {
    with(words, arg.requires_arg(other)?)
}

/// Returns a command with one more subcommand.
fn add<'a>(words: Words<'a>, below: Words<'a>) -> Result<Words<'a>, Error> {
    Ok(words.subcommand(below)?)
}

/// Returns a command with a subcommand added, or the first error of making one of them.
fn over<'a>(
    words: Result<Words<'a>, Error>,
    below: Result<Words<'a>, Error>,
) -> Result<Words<'a>, Error> {
    add(words?, below?)
}

/// The command that compares what is wanted.
fn check<'a>(alloc: Global) -> Result<Words<'a>, Error> {
    let words = Words::new(alloc, "check")
        .about(
            "Compares what a script or a plan says of its steps with what they do, and writes TAP",
        )
        .after_help(EXPECTED);
    with(Ok(words), file(alloc))
}

/// The command that explains why steps did nothing.
fn why<'a>(alloc: Global) -> Result<Words<'a>, Error> {
    let words = Words::new(alloc, "why").about(
        "Explains why a step was skipped or refused, and at the end which threads are stuck",
    );
    with(Ok(words), file(alloc))
}

/// The command that shows the state of each thread.
fn state<'a>(alloc: Global) -> Result<Words<'a>, Error> {
    let words = Words::new(alloc, "state").about(
        "Shows the state after a line: threads, queues, contexts",
    );
    let words = with(Ok(words), at(alloc));
    let words = with(words, stuck(alloc));
    let words = with(words, json(alloc));
    let words = with_other(words, strings(alloc), "json");
    with(words, file(alloc))
}

/// The command that writes the book as JSON.
fn book<'a>(alloc: Global) -> Result<Words<'a>, Error> {
    let words = Words::new(alloc, "json")
        .about(
            "Writes the lines of the book as JSON, an object for each, by the words of the forms",
        )
        .after_help("`mcslab forms script` shows the forms.");
    let words = with(Ok(words), strings(alloc));
    with(words, file(alloc))
}

/// Returns the program without its commands.
fn program<'a>(alloc: Global) -> Words<'a> {
    Words::new(alloc, "mcslab")
        .version(VERSION)
        .about("Tests, draws and explores protocols of seL4, as scripts of mcssim or as plans")
        .after_help(HELP)
        .subcommand_required(true)
}

/// A command that reads a script or a plan.
fn either<'a>(
    alloc: Global,
    words: Result<Words<'a>, Error>,
    below: Result<Words<'a>, Error>,
) -> Result<Words<'a>, Error> {
    over(words, with(below, as_plan(alloc)))
}

/// The program with the commands that read a script or a plan.
fn readers<'a>(alloc: Global) -> Result<Words<'a>, Error> {
    let words = either(alloc, Ok(program(alloc)), check(alloc));
    let words = either(alloc, words, why(alloc));
    let words = either(alloc, words, state(alloc));
    let words = either(alloc, words, book(alloc));
    let words = either(alloc, words, pictures::command(alloc, file(alloc)));
    let words = either(alloc, words, orders::command(alloc, file(alloc)));
    let words = either(alloc, words, graphs::command(alloc, file(alloc)));
    either(alloc, words, walks::command(alloc, file(alloc)))
}

/// The program with the commands that read something.
fn workers<'a>(alloc: Global) -> Result<Words<'a>, Error> {
    let words = over(readers(alloc), compilation::command(alloc, plan(alloc)));
    over(words, trace_names::command(alloc))
}

/// Returns the program's commands.
pub fn commands<'a>(alloc: Global) -> Result<Words<'a>, Error> {
    let words = over(workers(alloc), first_plans::command(alloc));
    let words = over(words, forms::command(alloc));
    let words = over(words, manual::command(alloc));
    over(words, completions::command(alloc))
}

/// Returns the request of a command that reads no file.
fn without_file(command: Command<'_>) -> Request<'_> {
    Request {
        command,
        file: None,
        is_plan: false,
    }
}

/// Returns what is asked of the program itself, if anything.
fn requested_of_program<'a>(matches: &ArgMatches<'a>) -> Option<Request<'a>> {
    if let Some(found) = matches.subcommand_matches("init") {
        return Some(without_file(Command::Init(first_plans::asked(found))));
    }
    if let Some(found) = matches.subcommand_matches("forms") {
        return Some(without_file(Command::Forms(forms::asked(found))));
    }
    if let Some(found) = matches.subcommand_matches("completions") {
        return Some(without_file(Command::Completions(completions::asked(found))));
    }
    matches.subcommand_matches("manual")?;
    Some(without_file(Command::Manual))
}

/// Returns what is asked of a plan or of the names of a script, if anything.
fn requested_of_names<'a>(matches: &ArgMatches<'a>) -> Option<Request<'a>> {
    if let Some(found) = matches.subcommand_matches("compile") {
        return Some(Request::plain(Command::Compile(compilation::asked(found)), found));
    }
    let found = matches.subcommand_matches("names")?;
    Some(Request::plain(Command::Names, found))
}

/// Returns what is asked of the orders of users, if anything.
fn requested_of_users<'a>(matches: &ArgMatches<'a>) -> Option<Request<'a>> {
    if let Some(found) = matches.subcommand_matches("explore") {
        return Some(Request::of_either(Command::Explore(orders::asked(found)), found));
    }
    if let Some(found) = matches.subcommand_matches("graph") {
        return Some(Request::of_either(Command::Graph(graphs::asked(found)), found));
    }
    let found = matches.subcommand_matches("walk")?;
    Some(Request::of_either(Command::Walk(walks::asked(found)), found))
}

/// Returns what is asked of steps, if anything.
fn requested_of_steps<'a>(matches: &ArgMatches<'a>) -> Option<Request<'a>> {
    if let Some(found) = matches.subcommand_matches("why") {
        return Some(Request::of_either(Command::Why, found));
    }
    if let Some(found) = matches.subcommand_matches("json") {
        return Some(Request::of_either(Command::Json(numbers_of(found)), found));
    }
    if let Some(found) = matches.subcommand_matches("draw") {
        let drawn = pictures::asked(found)?;
        return Some(Request::of_either(Command::Draw(drawn), found));
    }
    if let Some(found) = matches.subcommand_matches("state") {
        let wanted = Wanted {
            at: found.get_one("at"),
            stuck: found.get_flag("stuck"),
            json: found.get_flag("json"),
            numbers: numbers_of(found),
        };
        return Some(Request::of_either(Command::State(wanted), found));
    }
    let found = matches.subcommand_matches("check")?;
    Some(Request::of_either(Command::Check, found))
}

/// Returns what the words of the command line ask for; the first is the program's name.
pub fn requested<'a>(alloc: Global, words: &'a [&'a str]) -> Result<Request<'a>, Error> {
    let matches = commands(alloc)?.try_get_matches_from(words)?;
    if let Some(request) = requested_of_program(&matches) {
        return Ok(request);
    }
    if let Some(request) = requested_of_names(&matches) {
        return Ok(request);
    }
    if let Some(request) = requested_of_users(&matches) {
        return Ok(request);
    }
    if let Some(request) = requested_of_steps(&matches) {
        return Ok(request);
    }
    // the command line has one of these commands
    Ok(without_file(Command::Check))
}
