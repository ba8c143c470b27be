//! What the command line asks for.
ghost use Rattle.std.specs.Prelude.{◌≡◌, ◌≢◌, ℕ, List, Some, None, IfOk, IfErr, IsErrAnd, false, map, codes, option_map};
ghost use Rattle.clap.specs.Words.{FailsBy, app_of, fault_of, found_of, rows_of, rule_of, subcommand_rows_of};
ghost use Rattle.mcs_command_line.specs.Asked.{Asks, Choice, Gives, IsChoice, IsChosen, IsCoreCount, IsFile, IsTask};
ghost use Rattle.mcs_command_line.specs.Asked.{choice_of, named, of_file, replays, runs};
ghost use Rattle.mcs_command_line.specs.CommandLine.{AsksFor, AsksForCores, AsksForFile, IsLocal, IsMemory, IsVersion};
ghost use Rattle.mcs_command_line.specs.CommandLine.{cores_option, explain_option, file_argument};
ghost use Rattle.mcs_command_line.specs.CommandLine.{mcssim_line, replay_line, run_line};

use crate::choice::{Options, Task};
use clap::{Arg, ArgAction, ArgMatches, Command, Error, value_parser};
use mcs_types::CORES;
use std::alloc::Global;

/// The version of both programs (own).
pub const VERSION: &str = "0.1.0";

/// The exit statuses of `SimFault`.
const STATUSES: &str = "\
Exit status:
   0  the whole trace was written
   1  the command line
   2  a line of the script is refused
   3  a read failed, or a file cannot be opened
   4  a write failed
   5  the book is full
   6  memory was refused
   7  a host thread did not start, or the book did not agree with what the cores got";

/// The option that says how many cores the machine has.
fn cores<'a>(alloc: Global) -> Arg<'a>
    ensures rule { rule_of result ≡ cores_option }
    ensures local { result.global ≡ false }
{
    Arg::new(alloc, "cores")
        .long("cores")
        .value_name("N")
        .help("How many cores the machine has, from 1 to 16 [default: as many as the script says]")
        .value_parser(value_parser!(u8).range(1..=i64::from(CORES)))
}

/// The option to explain a fault on a second line.
fn explain<'a>(alloc: Global) -> Arg<'a>
    ensures rule { rule_of result ≡ explain_option }
    ensures local { result.global ≡ false }
{
    Arg::new(alloc, "explain")
        .long("explain")
        .help("Explain a fault on a second line")
        .action(ArgAction::SetTrue)
}

/// The file that is read.
fn file<'a>(alloc: Global) -> Arg<'a>
    ensures rule { rule_of result ≡ file_argument }
    ensures local { result.global ≡ false }
{
    Arg::new(alloc, "file")
        .value_name("FILE")
        .help("The file to read, or - for standard input [default: -]")
}

/// The command that takes the steps of a script.
fn replay<'a>(alloc: Global) -> Result<Command<'a>, Error>
    ensures line { IfOk result (λ c. app_of c ≡ replay_line) }
    ensures local { IfOk result IsLocal }
    ensures memory { IfErr result IsMemory }
{
    let about = "Reads a script, and writes its trace to standard output";
    let command = Command::new(alloc, "replay").about(about);
    Ok(command.arg(explain(alloc))?.arg(file(alloc))?)
}

/// The command that runs the users of a script.
fn run<'a>(alloc: Global) -> Result<Command<'a>, Error>
    ensures line { IfOk result (λ c. app_of c ≡ run_line) }
    ensures local { IfOk result IsLocal }
    ensures memory { IfErr result IsMemory }
{
    let about =
        "Reads a boot and its users, runs them on one host thread for each core, and writes the \
        trace of the book to standard output";
    let command = Command::new(alloc, "run").about(about);
    Ok(
        command
            .arg(cores(alloc))?
            .arg(explain(alloc))?
            .arg(file(alloc))?,
    )
}

/// The program's commands.
fn commands<'a>(alloc: Global) -> Result<Command<'a>, Error>
    ensures line { IfOk result (λ c. app_of c ≡ mcssim_line) }
    ensures memory { IfErr result IsMemory }
{
    Ok(
        Command::new(alloc, "mcssim")
            .version(VERSION)
            .about("Simulates the message passing of seL4 MCS")
            .after_help(STATUSES)
            .subcommand_required(true)
            .subcommand(replay(alloc)?)?
            .subcommand(run(alloc)?)?,
    )
}

/// Returns the task of a command, by its name and its parsed arguments.
fn task(name: &str, found: &ArgMatches<'_>) -> Task
    ensures { IsTask name.now (rows_of (found_of found.now)) result }
{
    if name == "run" {
        Task::Run {
            cores: found.get_one("cores"),
        }
    } else {
        Task::Replay
    }
}

/// Returns the file that a word names: None for `-`, the standard input.
fn named<'a>(word: Option<&'a str>) -> Option<&'a str>
    ensures { option_map (λ f. f.now) result ≡ named (option_map (λ w. w.now) word.entry) }
{
    match word {
        Some("-") => None,
        _ => word,
    }
}

/// Returns the options of a parsed command line.
fn chosen<'a>(matches: &ArgMatches<'a>) -> Options<'a>
    ensures { IsChosen (subcommand_rows_of matches.now) (choice_of result) }
{
    match matches.subcommand() {
        Some((name, found)) => Options {
            task: task(name, found),
            file: named(found.get_str("file")),
            explain: found.get_flag("explain"),
        },
        None => Options {
            task: Task::Replay,
            file: None,
            explain: false,
        },
    }
}

/// Returns what the words of the command line ask for; the first is the program's name. An error
/// says what is wrong with them, or has the help or the version that was asked for. It is of a kind
/// that the rules of the command line give these words, or reports a failed allocation; if the
/// rules give an error, one is returned.
pub fn options<'a>(alloc: Global, words: &'a [&'a str]) -> Result<Options<'a>, Error>
    // The options are exactly those that the words ask for.
    ensures asked { IfOk result (λ given.
        Asks (map (λ w. w.now) words.entry.now) (choice_of given)) }
    ensures given { (choice : Choice) → Asks (map (λ w. w.now) words.entry.now) choice
        → Gives choice result }
    ensures choice { IfOk result (λ given. IsChoice given.task) }

    // For plain command lines in particular:
    ensures replay { AsksFor words.entry.now (codes "replay") → Gives replays result }
    ensures run { AsksFor words.entry.now (codes "run") → Gives (runs None) result }
    ensures cores { (n : ℕ) → IsCoreCount n → AsksForCores words.entry.now n
        → Gives (runs (Some n)) result }
    ensures file { (name : List ℕ) → IsFile name → name ≢ codes "-"
        → AsksForFile words.entry.now name → Gives (of_file name replays) result }
    ensures version { AsksFor words.entry.now (codes "--version") → IsErrAnd result IsVersion }

    ensures fails { FailsBy (fault_of mcssim_line (map (λ w. w.now) words.entry.now)) result }
{
    let matches = commands(alloc)?.try_get_matches_from(words)?;
    Ok(chosen(&matches))
}
