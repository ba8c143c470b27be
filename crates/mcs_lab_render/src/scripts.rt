//! The picture of a script.
use crate::html::html_of;
use crate::mermaid::mermaid_of;
use crate::scene::{Scene, threads_shown};
use crate::script_names::ScriptNames;
use crate::steps::{Origin, Steps};
use crate::svg::svg_of;
use crate::titles::title_of;
use mcs_book::Book;
use mcs_kernel::Boot;
use mcs_lab_check::{Judge, LabFault, Labels, LineResult, TakesLines, take_lines};
use mcs_lab_diagram::{DrawFault, Drawing, Window};
use mcs_sim::Source;
use mcs_text::{Lines, read_step};
use mcs_types::{Kind, ObjId, Room, Step};
use std::alloc::{AllocError, Global};
use std::io::{Read, Write};
use std::marker::Model;
use std::str;

/// The format of a drawing.
#[derive(Clone, Copy, PartialEq, Eq, Debug)]
pub enum Format {
    /// A standalone SVG picture.
    Svg,
    /// A text from which Mermaid makes a picture.
    Mermaid,
    /// An HTML page with the picture, to step through.
    Html,
}

/// What is drawn of a script, and the texts of its steps.
#[derive(Clone, Copy)]
pub struct Asked<'a> {
    pub format: Format,
    /// The lines of the book that are shown, if they exist.
    pub window: Window,
    /// The threads that have lanes, in order. By default all have one, except a thread `starter`
    /// that is inactive after the last line: by it plans start passive servers.
    pub threads: &'a [ObjId],
    /// The texts of the steps, by their lines in the script. If a text is empty or missing, the
    /// picture shows the step as the script spells it, with the names of threads.
    pub texts: &'a [String],
    /// For each line of the script the line of the file; a line without an entry has its own
    /// number.
    pub numbers: &'a [u64],
}

impl Asked<'_> {
    /// Returns the request for all lines of a script that is the file itself.
    pub fn whole<'a>(format: Format) -> Asked<'a> {
        Asked {
            format,
            window: Window {
                first: 1,
                last: usize::MAX,
            },
            threads: &[],
            texts: &[],
            numbers: &[],
        }
    }

    /// Returns the origin of a step in a line of the script.
    fn origin(&self, alloc: Global, line: u64) -> Result<Origin, AllocError> {
        let place = line.saturating_sub(1) as usize;
        let mut text = String::new(alloc);
        if let Some(given) = self.texts.get(place) {
            text.push_str(given.as_str())?;
        }
        let line = self.numbers.get(place).copied().unwrap_or(line);
        Ok(Origin { line, text })
    }
}

/// A script that was read: its replay, its names, and its lines.
#[derive(Drop)]
struct Script {
    judge: Judge,
    names: Labels,
    text: Vec<u8>,
}

impl TakesLines for Script {
    fn take_line(&mut self, alloc: Global, line: &[u8]) -> Result<(), LabFault> {
        self.text.extend_from_slice(line)?;
        match self.judge.take(alloc, line)? {
            LineResult::Nothing => self.names.hear(alloc, self.judge.line(), line),
            _ => Ok(()),
        }
    }

    fn taken(&self) -> u64 {
        self.judge.line()
    }
}

/// A drawing of all lines of a book, and the positions of the steps.
#[derive(Drop)]
struct Drawn {
    drawing: Drawing,
    steps: Steps,
}

impl Model for Drawn {
    ghost use Rattle.mcs_book.specs.History.{Book};
    ghost use Rattle.mcs_lab_diagram.specs.Drawn.{AreDrawn};

    ghost Value = { Book };

    ghost view = { λ d. d.drawing.kernel };

    ghost invariant = { λ d. AreDrawn d.drawing.strokes d.drawing.looks.items
        d.drawing.picks.items d.drawing.kernel };
}

impl Drawn {
    /// Returns the drawing of a boot.
    fn new(alloc: Global, boot: &Boot) -> Result<Drawn, LabFault> {
        let drawing = Drawing::new(alloc, boot)?;
        let steps = Steps::new(alloc);
        Ok(Drawn { drawing, steps })
    }

    /// Returns the drawing with one more step, of this line and this origin. Its faults become
    /// those of a script.
    fn with_step(
        self,
        alloc: Global,
        step: &Step,
        line: &str,
        origin: Origin,
    ) -> Result<Drawn, LabFault> {
        let Drawn {
            mut drawing,
            mut steps,
        } = self;
        match drawing.enter(alloc, step, line) {
            Ok(()) => {
                steps.add(origin, drawing.lines())?;
                Ok(Drawn { drawing, steps })
            }
            Err(DrawFault::BookFull) => Err(LabFault::BookFull),
            Err(DrawFault::OutOfMemory) => Err(LabFault::OutOfMemory),
        }
    }
}

/// Returns room for the words of a message.
fn new_room(alloc: Global) -> Result<Room, LabFault> {
    match Room::new(alloc) {
        Ok(room) => Ok(room),
        Err(_) => Err(LabFault::OutOfMemory),
    }
}

/// Returns the boot of a book.
fn boot_of(alloc: Global, book: &Book) -> Result<Boot, LabFault> {
    let Ok(mut boot) = Boot::new(alloc, book.cores()) else {
        return Err(LabFault::OutOfMemory);
    };
    for line in book.boot() {
        if boot.add(*line).is_err() {
            return Err(LabFault::OutOfMemory);
        }
    }
    Ok(boot)
}

/// Draws the steps of a script that has no fault.
fn drawing_of(
    alloc: Global,
    boot: &Boot,
    text: &[u8],
    asked: &Asked<'_>,
) -> Result<Drawn, LabFault> {
    let mut drawn = Drawn::new(alloc, boot)?;
    let mut lines = Lines::new(text);
    let mut room = None;
    for before in 0..=text.len() {
        let Some(line) = lines.next_line() else {
            break;
        };
        if !matches!(line, [b'0'..=b'9', ..]) {
            continue;
        }
        if room.is_none() {
            room = Some(new_room(alloc)?);
        }
        let read = read_step(
            alloc,
            boot.cores(),
            boot.made(Kind::Thread),
            line,
            &mut room,
        );
        if let (Ok(step), Ok(said)) = (read, str::from_utf8(line)) {
            let origin = asked.origin(alloc, (before as u64).saturating_add(1))?;
            drawn = drawn.with_step(alloc, &step, said, origin)?;
        }
    }
    Ok(drawn)
}

/// Returns the page of a drawing.
fn page_with(
    alloc: Global,
    script: &Script,
    drawing: &Drawing,
    steps: &Steps,
    asked: &Asked<'_>,
) -> Result<String, AllocError> {
    let names = ScriptNames(&script.names);
    let window = drawing.shown(asked.window);
    let threads = threads_shown(alloc, drawing, &names, asked.threads, window.last)?;
    let title = title_of(alloc, &script.text)?;
    let scene = Scene {
        drawing,
        names: &names,
        steps,
        threads: &threads,
        window,
    };
    match asked.format {
        Format::Svg => svg_of(alloc, &scene, title.as_str()),
        Format::Mermaid => mermaid_of(alloc, &scene),
        Format::Html => html_of(alloc, &scene, title.as_str()),
    }
}

/// Returns the page of a script that was read whole; None if it has no boot.
fn page_of(alloc: Global, script: &Script, asked: &Asked<'_>) -> Result<Option<String>, LabFault> {
    let Some(kernel) = script.judge.kernel() else {
        return Ok(None);
    };
    let boot = boot_of(alloc, kernel.book())?;
    let Drawn { drawing, steps } = drawing_of(alloc, &boot, &script.text, asked)?;
    let page = page_with(alloc, script, &drawing, &steps, asked)?;
    Ok(Some(page))
}

/// Draws a script of steps, or a trace, in the format asked for. Its faults are those of
/// `mcs_lab_check`: of a line, of a name without its form, of a read or write, of a full book, or
/// of a failed allocation.
pub fn draw_script<R: Read, W: Write>(
    alloc: Global,
    from: &mut Source<R>,
    to: &mut W,
    asked: &Asked<'_>,
) -> Result<(), LabFault> {
    let mut script = Script {
        judge: Judge::new(alloc)?,
        names: Labels::new(alloc),
        text: Vec::new(alloc),
    };
    take_lines(alloc, from, &mut script)?;
    script.judge.end(alloc)?;
    if let Some(page) = page_of(alloc, &script, asked)? {
        to.write_all(page.as_bytes())?;
    }
    Ok(())
}
