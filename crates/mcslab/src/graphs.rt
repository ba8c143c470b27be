//! The graph of all orders, as the command line asks for it.
ghost use Rattle.std.specs.Prelude.{◌≡◌, true, false, IfOk, if◌then◌else◌};
ghost use Rattle.mcs_explore_graph.specs.Graphs.{HasReadGraph};

use crate::command_line::with;
use crate::orders::{STATES, depth, exact, states};
use clap::{Arg, ArgAction, ArgMatches, Command as Words, Error};
use mcs_explore_graph::{Form, write_graph};
use mcs_explore_questions::ExploreFault;
use mcs_explore_report::Wanted;
use mcs_lab_check::Outcome;
use mcs_sim::Source;
use std::alloc::Global;
use std::io::{Read, Write};

/// How many states are drawn at most, if nothing else is said: a larger picture is no help.
const DRAWN: u64 = 500;

/// How far to search, and the form of the graph.
#[derive(Clone, Copy)]
pub struct Graphed {
    pub wanted: Wanted,
    pub form: Form,
}

/// What the graph says.
const READS: &str = "\
Each edge is a turn: its core, thread and entry, its answer, and what it delivered to threads that
waited. The words are those of the script, for a plan those of the script that it becomes. States
are merged as `mcslab explore` merges them. With --dot the search stops after 500 states if --states
does not say another number.

  mcslab graph two.mcs > two.aut                  for CADP, LTSmin and mCRL2
  mcslab graph --dot two.mcs | dot -Tsvg > two.svg

The exit status is 0 if the graph is whole, and 3 if a budget ended the search: then states at its
rim have no edges. `mcslab --help` has the others.";

/// Returns the option for the form of Graphviz.
fn dot<'a>(alloc: Global) -> Arg<'a> {
    Arg::new(alloc, "dot")
        .long("dot")
        .help("Writes the graph for Graphviz")
        .action(ArgAction::SetTrue)
}

/// Returns the command `graph` without options.
fn words<'a>(alloc: Global) -> Words<'a> {
    Words::new(alloc, "graph")
        .about("Writes the states and turns of all orders as a graph, in Aldebaran's form")
        .after_help(READS)
}

/// Returns the command `graph` for the parser of the command line.
pub fn command<'a>(alloc: Global, file: Arg<'a>) -> Result<Words<'a>, Error> {
    let words = with(Ok(words(alloc)), dot(alloc));
    let words = with(words, states(alloc));
    let words = with(words, depth(alloc));
    let words = with(words, exact(alloc));
    with(words, file)
}

/// Returns what the words of the command line ask for.
pub fn asked(found: &ArgMatches<'_>) -> Graphed {
    let states: Option<u64> = found.get_one("states");
    let depth: Option<u64> = found.get_one("depth");
    let (form, most) = if found.get_flag("dot") {
        (Form::Dot, DRAWN)
    } else {
        (Form::Aut, STATES)
    };
    Graphed {
        wanted: Wanted {
            states: states.unwrap_or(most) as usize,
            depth: depth.unwrap_or(u64::MAX) as usize,
            is_exact: found.get_flag("exact"),
        },
        form,
    }
}

/// Returns the exit status for a graph.
fn status_of(is_whole: bool) -> u8
    ensures { result ≡ (if is_whole then 0 else 3) }
{
    if is_whole {
        Outcome::Done.status()
    } else {
        Outcome::Stopped.status()
    }
}

/// Writes the graph of all orders of the users of a script, and returns the exit status.
pub fn graph<R: Read, W: Write>(
    alloc: Global,
    from: &mut Source<R>,
    to: &mut W,
    asked: Graphed,
) -> Result<u8, ExploreFault>
    // status 0: a script was read, and the text is the whole graph of its users' orders
    ensures { IfOk result (λ status. status ≡ 0 → HasReadGraph asked.form asked.wanted.is_exact
        true (R.remaining from.old.reader) (R.remaining from.new.reader)
        (W.contents to.old) (W.contents to.new)) }
{
    let is_whole = write_graph(alloc, from, asked.wanted, asked.form, to)?;
    Ok(status_of(is_whole))
}
