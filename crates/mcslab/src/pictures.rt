//! The picture of a script, as the command line asks for it.
use crate::command_line::{line, with};
use clap::{Arg, ArgMatches, Command as Words, Error};
use mcs_lab_check::{LabFault, Outcome};
use mcs_lab_render::{Asked, Format, NoThreads, Window, draw_script, threads_named};
use mcs_plan_source::Shown;
use mcs_plan_words::{RangeFault, Steps};
use mcs_sim::Source;
use std::alloc::Global;
use std::io::{Read, Write};

/// What to draw, and in which format: the steps between two lines of the file, by default from the
/// first to the last, with the lanes of these threads, a list of names or ids.
#[derive(Clone, Copy)]
pub struct Drawn<'a> {
    pub format: Format,
    pub from: Option<u64>,
    pub to: Option<u64>,
    pub threads: Option<&'a str>,
}

/// How a script relates to its file: for each line of the script the line of the file from which it
/// came, and for each step its text in the file. Both are empty if the script is the file.
#[derive(Clone, Copy)]
pub struct Said<'a> {
    pub numbers: &'a [u64],
    pub texts: &'a [String],
}

impl Said<'_> {
    /// Returns the relation of a script that is the file.
    pub fn nothing<'a>() -> Said<'a> {
        Said {
            numbers: &[],
            texts: &[],
        }
    }
}

/// The names of the formats; for any other the command line is refused.
const FORMATS: &[&str] = &["svg", "mermaid", "html"];

/// The option for the first line.
fn from<'a>(alloc: Global) -> Arg<'a> {
    line(
        alloc,
        "from",
        "From which line of the file on steps are shown [default: 1]",
    )
}

/// The option for the last line.
fn to<'a>(alloc: Global) -> Arg<'a> {
    line(
        alloc,
        "to",
        "Up to which line of the file steps are shown [default: the last]",
    )
}

/// The option for the format.
fn format<'a>(alloc: Global) -> Arg<'a> {
    Arg::new(alloc, "format")
        .long("format")
        .value_name("FORMAT")
        .help("The format [default: svg]")
        .value_parser(FORMATS)
}

/// The option for the threads.
fn threads<'a>(alloc: Global) -> Arg<'a> {
    Arg::new(alloc, "threads")
        .long("threads")
        .value_name("NAMES")
        .help(
            "The lanes of these threads alone, by names or ids with commas between [default: all but `starter`]",
        )
}

/// The command with no option.
fn words<'a>(alloc: Global) -> Words<'a> {
    Words::new(alloc, "draw").about(
        "Draws a run: a lane for each thread, a row for each step that took effect",
    )
}

/// The command.
pub fn command<'a>(alloc: Global, file: Arg<'a>) -> Result<Words<'a>, Error> {
    let words = with(Ok(words(alloc)), from(alloc));
    let words = with(words, to(alloc));
    let words = with(words, threads(alloc));
    let words = with(words, format(alloc));
    with(words, file)
}

/// Returns what is asked for; None for an unknown format.
pub fn asked<'a>(found: &ArgMatches<'a>) -> Option<Drawn<'a>> {
    let format = match found.get_str("format") {
        None | Some("svg") => Format::Svg,
        Some("mermaid") => Format::Mermaid,
        Some("html") => Format::Html,
        Some(_) => return None,
    };
    Some(Drawn {
        format,
        from: found.get_one("from"),
        to: found.get_one("to"),
        threads: found.get_str("threads"),
    })
}

/// The window of all lines.
const ALL: Window = Window {
    first: 1,
    last: usize::MAX,
};

/// Returns the lines of the book whose steps are in the lines asked for; None if there are none.
fn window_of(steps: &Steps, numbers: &[u64], drawn: Drawn<'_>) -> Option<Window> {
    if drawn.from.is_none() && drawn.to.is_none() {
        return Some(ALL);
    }
    let (first, last) = steps.between(numbers, drawn.from, drawn.to)?;
    Some(Window { first, last })
}

/// Reports a wrong list of threads, and returns the exit status.
fn tell_no_threads(rt: &HostRuntime, fault: NoThreads<'_>) -> Result<u8, LabFault> {
    match fault {
        NoThreads::OutOfMemory => Err(LabFault::OutOfMemory),
        NoThreads::Word { word, there } => {
            let word = Shown { text: word };
            let _ = eprintln!(rt;
                "mcslab: --threads: there is no thread {word}; there are {there}"
            );
            Ok(Outcome::Call.status())
        }
    }
}

/// Draws a window of a script with the lanes that are asked for, and returns the exit status.
fn draw_window<W: Write>(
    rt: &HostRuntime,
    steps: &Steps,
    to: &mut W,
    drawn: Drawn<'_>,
    window: Window,
    said: Said<'_>,
) -> Result<u8, LabFault> {
    let alloc = rt.alloc();
    let found = match drawn.threads {
        Some(words) => threads_named(alloc, &steps.judge, &steps.names, words),
        None => Ok(Vec::new(alloc)),
    };
    let threads = match found {
        Ok(threads) => threads,
        Err(fault) => return tell_no_threads(rt, fault),
    };
    let asked = Asked {
        format: drawn.format,
        window,
        threads: &threads,
        texts: said.texts,
        numbers: said.numbers,
    };
    draw_script(alloc, &mut Source::new(steps.text.as_slice()), to, &asked)?;
    Ok(Outcome::Done.status())
}

/// Draws a part of a script, and returns the exit status. Fault `NoLine` if a named line is beyond
/// the end of the script, unless its numbers are those of another text.
fn draw_part<R: Read, W: Write>(
    rt: &HostRuntime,
    from: &mut Source<R>,
    to: &mut W,
    drawn: Drawn<'_>,
    said: Said<'_>,
) -> Result<u8, LabFault> {
    let steps = Steps::read(rt.alloc(), from)?;
    if said.numbers.is_empty()
        && let Some(fault) = steps.missing(drawn.from).or(steps.missing(drawn.to))
    {
        return Err(fault);
    }
    match window_of(&steps, said.numbers, drawn) {
        Some(window) => draw_window(rt, &steps, to, drawn, window, said),
        None => {
            let _ = rt.eprintln(RangeFault::Idle);
            Ok(Outcome::Call.status())
        }
    }
}

/// Draws a script with this relation to its file, and returns the exit status. Its faults are those
/// of `draw_script`, and `NoLine` if a named line is beyond the end.
pub fn draw<R: Read, W: Write>(
    rt: &HostRuntime,
    from: &mut Source<R>,
    to: &mut W,
    drawn: Drawn<'_>,
    said: Said<'_>,
) -> Result<u8, LabFault> {
    if drawn.from.is_some() || drawn.to.is_some() || drawn.threads.is_some() {
        return draw_part(rt, from, to, drawn, said);
    }
    let asked = Asked {
        texts: said.texts,
        numbers: said.numbers,
        ..Asked::whole(drawn.format)
    };
    draw_script(rt.alloc(), from, to, &asked)?;
    Ok(Outcome::Done.status())
}
