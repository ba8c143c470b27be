//! What is asked of a plan: it is compiled in memory, and the command is done with its script. The
//! report has the plan's lines and names.
use crate::command_line::{Command, Request};
use crate::graphs::graph;
use crate::input::plan_bytes;
use crate::messages::{reads_users, tell_fault, tell_plan_fault, tell_stranger};
use crate::orders::{Sought, explore};
use crate::pictures::{Drawn, Said, draw};
use crate::status_if;
use crate::walks::walk;
use mcs_explore_questions::ExploreFault;
use mcs_lab_check::{LabFault, Outcome, check};
use mcs_lab_inspect::{Numbers, Wanted, explain, show_state, write_json};
use mcs_plan_validate::{CompileFault, Numbered};
use mcs_plan_words::{Form, Place, Planned, RangeFault, bail_line, beyond, line_of, number_in};
use mcs_sim::Source;
use std::alloc::AllocError;
use std::io::{self, BufWriter, Write};
use std::process::ExitCode;

/// Returns the fault of the first line beyond the end of a plan that a command names.
fn missing(plan: &Planned<'_>, command: Command<'_>) -> Option<RangeFault> {
    let (one, other) = match command {
        Command::State(wanted) => (wanted.at, None),
        Command::Draw(drawn) => (drawn.from, drawn.to),
        Command::Check
        | Command::Why
        | Command::Json(_)
        | Command::Explore(_)
        | Command::Graph(_)
        | Command::Walk(_)
        | Command::Compile(_)
        | Command::Names
        | Command::Init(_)
        | Command::Forms(_)
        | Command::Manual
        | Command::Completions(_) => (None, None),
    };
    beyond(one, other, plan.count())
}

/// A command that reads a plan, and the script of it as the command reads it.
#[derive(Clone, Copy)]
struct Asking<'a> {
    rt: &'a HostRuntime,
    plan: &'a Planned<'a>,
    script: &'a Numbered,
}

impl<'a> Asking<'a> {
    /// Returns a source of the script.
    fn source(self) -> Source<&'a [u8]> {
        Source::new(self.script.text.as_slice())
    }

    /// Writes a report on the script as one on the plan; as it is where memory is refused.
    fn put<W: Write>(self, report: &[u8], form: Form, to: &mut W) -> io::Result<()> {
        let alloc = self.rt.alloc();
        match self.plan.retell(alloc, self.script, report, form) {
            Ok(text) => to.write_all(&text),
            Err(AllocError) => to.write_all(report),
        }
    }

    /// Checks the script.
    fn check<W: Write>(self, to: &mut W) -> Result<bool, LabFault> {
        let alloc = self.rt.alloc();
        let mut report = Vec::new(alloc);
        let done = check(alloc, &mut self.source(), &mut report);
        self.put(&report, Form::Tap, to)?;
        done
    }

    /// Explains the script.
    fn explain<W: Write>(self, to: &mut W) -> Result<bool, LabFault> {
        let alloc = self.rt.alloc();
        let mut report = Vec::new(alloc);
        let done = explain(alloc, &mut self.source(), &mut report);
        self.put(&report, Form::Lines, to)?;
        done
    }

    /// Writes the book as JSON.
    fn write_json<W: Write>(self, to: &mut W, numbers: Numbers) -> Result<bool, LabFault> {
        let alloc = self.rt.alloc();
        let mut report = Vec::new(alloc);
        let done = write_json(alloc, &mut self.source(), &mut report, numbers);
        self.put(&report, Form::Json, to)?;
        done
    }

    /// Shows the state behind a line of the plan.
    fn show_state<W: Write>(self, to: &mut W, wanted: Wanted) -> Result<bool, LabFault> {
        let alloc = self.rt.alloc();
        let at = wanted.at.map(|line| self.plan.last_line(line));
        let Wanted {
            stuck,
            json,
            numbers,
            ..
        } = wanted;
        let wanted = Wanted {
            at,
            stuck,
            json,
            numbers,
        };
        if json {
            return show_state(alloc, &mut self.source(), to, wanted);
        }
        let mut report = Vec::new(alloc);
        let done = show_state(alloc, &mut self.source(), &mut report, wanted);
        self.put(&report, Form::State, to)?;
        done
    }

    /// Goes through all orders of the script, and returns the exit status.
    fn explore<W: Write + Drop>(self, to: &mut W, sought: Sought<'_>) -> Result<u8, ExploreFault> {
        if sought.output.is_json {
            return explore(self.rt, &mut self.source(), to, sought);
        }
        let asking = self;
        explore(self.rt, &mut self.source(), Orders { asking, to }, sought)
    }

    /// Draws the script.
    fn draw<W: Write>(self, to: &mut W, drawn: Drawn<'_>) -> Result<u8, LabFault> {
        let texts = self.plan.step_texts(self.rt.alloc())?;
        let said = Said {
            numbers: &self.script.numbers,
            texts: &texts,
        };
        draw(self.rt, &mut self.source(), to, drawn, said)
    }

    /// Performs a command on a plan of steps, and returns the exit status.
    fn do_command<W: Write + Drop>(
        self,
        command: Command<'_>,
        to: &mut W,
    ) -> Result<u8, ExploreFault> {
        let holds = match command {
            Command::Check => self.check(to)?,
            Command::Why => self.explain(to)?,
            Command::Json(numbers) => self.write_json(to, numbers)?,
            Command::State(wanted) => self.show_state(to, wanted)?,
            Command::Draw(drawn) => return Ok(self.draw(to, drawn)?),
            Command::Explore(sought) => return self.explore(to, sought),
            Command::Graph(asked) => {
                return graph(self.rt.alloc(), &mut self.source(), to, asked);
            }
            Command::Walk(chance) => {
                return walk(self.rt.alloc(), &mut self.source(), to, chance);
            }
            // these are done before
            Command::Compile(_) | Command::Names | Command::Init(_) => true,
            Command::Forms(_) | Command::Manual | Command::Completions(_) => true,
        };
        Ok(status_if(holds))
    }

    /// Does what a command asks, writes what comes of it, and returns the exit status.
    fn answer(self, command: Command<'_>) -> Result<u8, ExploreFault> {
        let mut to = BufWriter::new(self.rt.alloc(), io::writer(self.rt))?;
        let done = self.do_command(command, &mut to);
        to.flush()?;
        done
    }
}

/// A writer that turns a report on the orders of a script into one on the plan, piece by piece;
/// each piece has whole lines.
#[derive(Drop)]
struct Orders<'a, W> {
    asking: Asking<'a>,
    to: &'a mut W,
}

impl<W: Write> Write for Orders<'_, W> {
    fn write(&mut self, piece: &[u8]) -> io::Result<usize> {
        self.asking.put(piece, Form::Orders, self.to)?;
        Ok(piece.len())
    }

    fn flush(&mut self) -> io::Result<()> {
        self.to.flush()
    }
}

/// Writes the last line of TAP where a plan becomes no script.
fn bail_out(rt: &HostRuntime, plan: &[u8], fault: &CompileFault) {
    if let Ok(line) = bail_line(rt.alloc(), plan, fault) {
        let _ = io::writer(rt).write_all(line.as_bytes());
    }
}

/// Does what is asked with the script of a plan as the command reads it, and returns the exit
/// status.
fn do_script(
    rt: &HostRuntime,
    request: &Request<'_>,
    plan: &Planned<'_>,
    script: &Numbered,
) -> ExitCode {
    match (Asking { rt, plan, script }).answer(request.command) {
        Ok(status) => ExitCode::from(status),
        Err(fault) => {
            let file = request.file;
            let line = line_of(&fault).map(|line| number_in(&script.numbers, line));
            tell_fault(rt, Place { file, line }, &fault)
        }
    }
}

/// Does what is asked with a plan that became a script, and returns the exit status.
fn do_planned(rt: &HostRuntime, request: &Request<'_>, plan: &Planned<'_>) -> ExitCode {
    let file = request.file;
    let command = request.command;
    if let Some(stranger) = plan.stranger(reads_users(command)) {
        let line = plan.first();
        return tell_stranger(rt, Place { file, line }, stranger);
    }
    if let Some(fault) = missing(plan, command) {
        let _ = rt.eprintln(fault);
        return ExitCode::from(Outcome::Call.status());
    }
    if !reads_users(command) {
        return do_script(rt, request, plan, &plan.script);
    }
    match plan.asked(rt.alloc()) {
        Ok(script) => do_script(rt, request, plan, &script),
        Err(AllocError) => {
            let _ = rt.eprintln(LabFault::OutOfMemory);
            ExitCode::from(LabFault::OutOfMemory.status())
        }
    }
}

/// Performs a request on a plan, and returns the exit status.
pub fn do_plan(rt: &HostRuntime, request: &Request<'_>) -> ExitCode {
    let text = match plan_bytes(rt, request.file) {
        Ok(text) => text,
        Err(status) => return ExitCode::from(status),
    };
    match Planned::read(rt.alloc(), &text) {
        Ok(plan) => do_planned(rt, request, &plan),
        Err(fault) => {
            if let Command::Check = request.command {
                bail_out(rt, &text, &fault);
            }
            tell_plan_fault(rt, request.file, &text, &fault)
        }
    }
}
