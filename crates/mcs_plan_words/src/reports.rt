//! Turns reports on a plan's script into reports on the plan, with its lines and names.
use crate::line_numbers::{Form, found_in, number_in};
use crate::texts::{Speaker, Voice, add_step, add_text, thread_place};
use mcs_plan_source::{split_comment, split_words};
use std::alloc::{AllocError, Global};
use std::str;

/// A plan, and its script.
#[derive(Drop)]
pub(crate) struct Reworded<'a> {
    voice: Voice<'a>,
    /// The lines of the script, and for each the number of the plan's line from which it came.
    steps: Vec<&'a [u8]>,
    numbers: &'a [u64],
    /// The lines of the plan.
    lines: Vec<&'a [u8]>,
}

/// Returns the line of this number, from 1; an empty one if there is none.
fn line_at<'a>(lines: &[&'a [u8]], number: u64) -> &'a [u8] {
    let place = number.saturating_sub(1) as usize;
    lines.get(place).copied().unwrap_or(b"".as_slice())
}

/// Returns what a line of a plan expects of a step, without its sign and its comment.
fn wanted_of(line: &[u8]) -> Option<&str> {
    let (code, _) = split_comment(str::from_utf8(line).ok()?);
    code.trim().strip_prefix("?")
}

/// Adds words with a blank between two.
fn add_words(alloc: Global, to: &mut Vec<u8>, text: &str) -> Result<(), AllocError> {
    let mut between = "";
    let words = split_words(alloc, text)?;
    for word in &words {
        to.extend_from_slice(between.as_bytes())?;
        to.extend_from_slice(word.as_bytes())?;
        between = " ";
    }
    Ok(())
}

/// The parts of a line `t1 waits in e1.send in entry 1 (ENTRY), ..` of a report on all orders.
#[derive(Clone, Copy)]
struct Standing<'a> {
    head: &'a str,
    number: &'a str,
    entry: &'a str,
    after: &'a str,
}

/// Returns the parts of a line that says how an order leaves a user, if it is one.
fn standing_in(line: &str) -> Option<Standing<'_>> {
    let (head, rest) = line.split_once(" entry ")?;
    let (number, rest) = rest.split_once(" (")?;
    let (entry, after) = rest.split_once(")")?;
    Some(Standing {
        head,
        number,
        entry,
        after,
    })
}

/// The parts of a line `t1 1: ENTRY -> ..` of a report on all orders.
#[derive(Clone, Copy)]
struct Row<'a> {
    head: &'a str,
    entry: &'a str,
    after: &'a str,
}

/// Returns the parts of a line that says how an entry was answered, if it is one.
fn row_in(line: &str) -> Option<Row<'_>> {
    let (head, rest) = line.split_once(": ")?;
    let (entry, after) = rest.split_once(" ->")?;
    Some(Row { head, entry, after })
}

/// Returns the index of the thread with which a line begins, after blanks.
fn thread_of(line: &str) -> Option<usize> {
    let word = line.trim_start().split(' ').next()?;
    thread_place(word.as_bytes())
}

impl<'a> Reworded<'a> {
    /// Returns a plan and its script, by what speaks of it and by the texts of both.
    pub(crate) fn new(
        alloc: Global,
        voice: Voice<'a>,
        text: &'a [u8],
        numbers: &'a [u64],
        plan: &'a [u8],
    ) -> Result<Reworded<'a>, AllocError> {
        Ok(Reworded {
            voice,
            steps: text.split(|byte| *byte == b'\n').collect(alloc)?,
            numbers,
            lines: plan.split(|byte| *byte == b'\n').collect(alloc)?,
        })
    }

    /// Appends what a verdict is about: what the plan expects of the step.
    fn add_wanted(
        &self,
        alloc: Global,
        to: &mut Vec<u8>,
        line: u64,
        said: &[u8],
    ) -> Result<(), AllocError> {
        match wanted_of(line_at(&self.lines, number_in(self.numbers, line))) {
            Some(wanted) => add_words(alloc, to, wanted),
            None => add_text(alloc, to, self.voice, said),
        }
    }

    /// Appends the report on a step of the script, which begins with the step.
    fn add_report(
        &self,
        alloc: Global,
        to: &mut Vec<u8>,
        line: u64,
        said: &[u8],
    ) -> Result<(), AllocError> {
        let step = line_at(&self.steps, line);
        match said.strip_prefix(step) {
            Some(report) => {
                add_step(alloc, to, self.voice, step)?;
                add_text(alloc, to, self.voice, report)
            }
            None => add_text(alloc, to, self.voice, said),
        }
    }

    /// Appends what follows the number of a line.
    fn add_after(
        &self,
        alloc: Global,
        to: &mut Vec<u8>,
        form: Form,
        line: u64,
        after: &[u8],
    ) -> Result<(), AllocError> {
        let Some(said) = after.strip_prefix(b": ".as_slice()) else {
            return to.extend_from_slice(after);
        };
        to.extend_from_slice(b": ")?;
        match form {
            Form::Tap => self.add_wanted(alloc, to, line, said),
            Form::Lines => self.add_report(alloc, to, line, said),
            Form::Json | Form::NoOrders => to.extend_from_slice(said),
            Form::Orders | Form::State => add_text(alloc, to, self.voice, said),
        }
    }

    /// Appends the state of a user at an end.
    fn add_standing(
        &self,
        alloc: Global,
        to: &mut Vec<u8>,
        speaker: Speaker<'_>,
        line: Standing<'_>,
    ) -> Result<(), AllocError> {
        add_text(alloc, to, self.voice, line.head.as_bytes())?;
        to.extend_from_slice(b" entry ")?;
        to.extend_from_slice(line.number.as_bytes())?;
        to.extend_from_slice(b" (")?;
        speaker.add_entry(alloc, to, line.entry.as_bytes())?;
        to.extend_from_slice(b")")?;
        add_text(alloc, to, self.voice, line.after.as_bytes())
    }

    /// Appends the answers of an entry.
    fn add_row(
        &self,
        alloc: Global,
        to: &mut Vec<u8>,
        speaker: Speaker<'_>,
        line: Row<'_>,
    ) -> Result<(), AllocError> {
        add_text(alloc, to, self.voice, line.head.as_bytes())?;
        to.extend_from_slice(b": ")?;
        speaker.add_entry(alloc, to, line.entry.as_bytes())?;
        to.extend_from_slice(b" ->")?;
        add_text(alloc, to, self.voice, line.after.as_bytes())
    }

    /// Adds a line of a report on all orders that begins with a thread.
    fn add_of_thread(
        &self,
        alloc: Global,
        to: &mut Vec<u8>,
        place: usize,
        line: &str,
    ) -> Result<(), AllocError> {
        let voice = self.voice;
        let speaker = Speaker { voice, place };
        if let Some(standing) = standing_in(line) {
            return self.add_standing(alloc, to, speaker, standing);
        }
        match row_in(line) {
            Some(row) => self.add_row(alloc, to, speaker, row),
            None => add_text(alloc, to, voice, line.as_bytes()),
        }
    }

    /// Adds a line of a report on all orders.
    fn add_of_orders(
        &self,
        alloc: Global,
        to: &mut Vec<u8>,
        line: &[u8],
    ) -> Result<(), AllocError> {
        if let Ok(text) = str::from_utf8(line)
            && let Some(place) = thread_of(text)
        {
            return self.add_of_thread(alloc, to, place, text);
        }
        add_text(alloc, to, self.voice, line)
    }

    /// Appends a line without a number; `last` was the last number before it.
    fn add_other(
        &self,
        alloc: Global,
        to: &mut Vec<u8>,
        form: Form,
        last: u64,
        line: &[u8],
    ) -> Result<(), AllocError> {
        match form {
            Form::Json | Form::NoOrders => to.extend_from_slice(line),
            Form::Orders => self.add_of_orders(alloc, to, line),
            Form::Tap if line.starts_with(b"  behind: ") => {
                to.extend_from_slice(b"  behind: '")?;
                add_step(alloc, to, self.voice, line_at(&self.steps, last))?;
                to.extend_from_slice(b"'")
            }
            Form::Tap | Form::Lines | Form::State => add_text(alloc, to, self.voice, line),
        }
    }

    /// Appends a line of a report, and returns its line number, or else the last one.
    fn add_line(
        &self,
        alloc: Global,
        to: &mut Vec<u8>,
        form: Form,
        last: u64,
        line: &[u8],
    ) -> Result<u64, AllocError> {
        let Some(found) = found_in(form, line) else {
            self.add_other(alloc, to, form, last, line)?;
            return Ok(last);
        };
        to.extend_from_slice(found.before)?;
        let number = number_in(self.numbers, found.number);
        let digits = format!(in alloc; "{number}")?;
        to.extend_from_slice(digits.as_bytes())?;
        self.add_after(alloc, to, form, found.number, found.after)?;
        Ok(found.number)
    }

    /// Returns a report on the script as one on the plan.
    pub(crate) fn retell(
        &self,
        alloc: Global,
        report: &[u8],
        form: Form,
    ) -> Result<Vec<u8>, AllocError> {
        let mut text = Vec::new(alloc);
        let mut last: u64 = 0;
        for (before, line) in report.split(|byte| *byte == b'\n').enumerate() {
            if before > 0 {
                text.extend_from_slice(b"\n")?;
            }
            last = self.add_line(alloc, &mut text, form, last, line)?;
        }
        Ok(text)
    }
}
