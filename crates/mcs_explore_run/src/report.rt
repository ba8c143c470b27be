//! The report on drawn runs.
ghost use Rattle.std.specs.Prelude.{◌≡◌, ◌||◌, true, not, IfOk};
ghost use Rattle.mcs_explore_report.specs.Failing.{IsFailing};
ghost use Rattle.mcs_explore_report.specs.Outcomes.{are_done};
ghost use Rattle.mcs_explore_run.specs.Samples.{HasReadFailing, HasShownFailure, IsKeptOfRuns, any_fails};

use crate::evidence::{Judged, Showed, all_judged};
use crate::samples::{Chances, Sample, draw_runs};
use mcs_explore_questions::{Event, ExploreFault};
use mcs_explore_report::{
    End, Ending, Origin, are_idle, ending_of, put_asked, put_event, put_standing, text_of,
};
use mcs_explore_script::{UserScript, read_script};
use mcs_lab_check::LabFault;
use mcs_lab_inspect::TextBuffer;
use mcs_sim::Source;
use mcs_trace::Line;
use std::alloc::Global;
use std::io::{Read, Write};

/// The report on random runs: what was kept of them, and the result of each question.
struct Report<'a> {
    script: &'a UserScript,
    sample: Sample<'a>,
    judged: Vec<Judged<'a>>,
}

// Written by hand, so that it is proved once, as a separate function.
impl<'a> Drop for Report<'a> {
    fn drop(self) {
        let Report {
            script: _,
            sample: _,
            judged: _,
        } = self;
    }
}

/// Returns whether in each kind of end each user is done, or may wait for ever.
fn are_done(script: &UserScript, sample: &Sample<'_>) -> bool
    ensures { result ≡ are_done script.now.asked.items sample.now.watched.ends }
{
    let asked = script.asked.as_slice();
    let kinds = sample.watched.ends.kinds();
    kinds.iter().all(|end| are_idle(asked, &end.standing))
}

/// Returns whether one of these questions fails.
fn any_fails(judged: &[Judged<'_>]) -> bool
    ensures { result ≡ any_fails judged.now }
{
    judged.iter().any(|judged| judged.showed.fails())
}

impl<'a> Report<'a> {
    /// Draws runs, and judges all questions by what is kept of them. The faults are those of
    /// `draw_runs`.
    fn new(
        alloc: Global,
        script: &'a UserScript,
        chances: Chances,
        line: &mut Line,
    ) -> Result<Report<'a>, LabFault>
        ensures kept { IfOk result (λ r. IsKeptOfRuns script.entry.now.users script.entry.now.boot
            script.entry.now.asked.items r.sample.watched.ends r.sample.watched.answers
            r.sample.watched.failed.items) }
        ensures judged { IfOk result (λ r. any_fails r.judged.items ≡ true
            → HasShownFailure script.entry.now.users script.entry.now.asked.items
            r.sample.watched.ends r.sample.watched.answers r.sample.watched.failed.items) }
        ensures script { IfOk result (λ r. r.script.now ≡ script.entry.now) }
    {
        let sample = draw_runs(alloc, script, chances)?;
        let judged = all_judged(alloc, line, script, &sample)?;
        Ok(Report {
            script,
            sample,
            judged,
        })
    }

    /// Returns whether a run shows that a question fails, or ends with a user that is not done and
    /// may not wait.
    fn has_failure(&self) -> bool
        ensures { result ≡ (any_fails self.now.judged.items
            || not (are_done self.now.script.now.asked.items self.now.sample.watched.ends)) }
    {
        any_fails(&self.judged) || !are_done(self.script, &self.sample)
    }

    /// Returns how the runs with this kind of end ended: all done, in a deadlock, or with entries
    /// left.
    fn ending(&self, end: &End) -> Ending {
        ending_of(&self.script.asked, &end.standing)
    }

    /// Returns whether a kind of end is one of these.
    fn has_ending(&self, ending: Ending) -> bool {
        let kinds = self.sample.watched.ends.kinds();
        kinds.iter().any(|end| self.ending(end) == ending)
    }
}

/// Appends how many runs there are.
fn put_runs(page: &mut TextBuffer, chances: Chances) {
    page.counted(chances.runs, "run");
}

/// Appends the options that draw the run with this number again.
fn put_seed(page: &mut TextBuffer, chances: Chances, number: usize) {
    page.put(b"--seed ");
    page.number(chances.seed_of(number));
}

/// Appends how many runs were drawn, by which seeds, and how many of them ended.
fn put_head(page: &mut TextBuffer, sample: &Sample<'_>) {
    let chances = sample.chances;
    put_runs(page, chances);
    page.put(b" by the seeds ");
    page.number(chances.seed);
    page.put(b" to ");
    page.number(chances.seed_of(chances.runs.saturating_sub(1)));
    page.put(b": ");
    page.count(sample.ended);
    page.put(b" ended, ");
    page.count(chances.runs.saturating_sub(sample.ended));
    page.put(b" stopped at ");
    page.number(chances.turns);
    page.put(b" turns\n");
}

/// Appends a kind of end with its number, from 1 on.
fn put_end(page: &mut TextBuffer, report: &Report<'_>, number: usize, end: &End) {
    let chances = report.sample.chances;
    page.put(b"end ");
    page.count(number);
    page.put(b": ");
    page.put(report.ending(end).text().as_bytes());
    page.put(b", ");
    page.counted(end.count, "time");
    page.put(b", first by ");
    put_seed(page, chances, end.place);
    page.put(b"\n");
    for standing in end.standing.iter() {
        page.put(b"  ");
        // by its number in that run
        put_standing(page, report.script, standing, Origin::Boot);
    }
}

/// Appends all kinds of ends that are all done, or all others.
fn put_ends(page: &mut TextBuffer, report: &Report<'_>, wanted: bool) {
    for (index, end) in report.sample.watched.ends.kinds().iter().enumerate() {
        let is_done = report.ending(end) == Ending::AllDone;
        if is_done == wanted {
            put_end(page, report, index.saturating_add(1), end);
        }
    }
}

/// Appends an entry of a user with its answers; `line` is a buffer for their texts.
fn put_entry(
    page: &mut TextBuffer,
    alloc: Global,
    line: &mut Line,
    report: &Report<'_>,
    user: usize,
    event: Event,
) -> Result<(), LabFault> {
    let chances = report.sample.chances;
    put_event(page, report.script, event);
    page.put(b" ->");
    let answers = &report.sample.watched.answers;
    let answers = answers.of(user, event.number.saturating_sub(1));
    for (index, one) in answers.iter().enumerate() {
        let between = if index == 0 { " " } else { " | " };
        page.put(between.as_bytes());
        let text = text_of(alloc, line, &one.answer)?;
        page.put(&text);
        page.put(b" (");
        put_seed(page, chances, one.place);
        page.put(b")");
    }
    if answers.is_empty() {
        page.put(b" (no answer so far)");
    }
    page.put(b"\n");
    Ok(())
}

/// Appends all entries, in the order of users and entries; `line` is a buffer for the texts of
/// answers.
fn put_entries(
    page: &mut TextBuffer,
    alloc: Global,
    line: &mut Line,
    report: &Report<'_>,
) -> Result<(), LabFault> {
    let users = &report.script.users;
    for user in 0..users.lists().len() {
        let Some(list) = users.at(user) else {
            break;
        };
        for before in 0..list.entries.len() {
            let event = Event {
                thread: list.thread,
                number: before.saturating_add(1),
            };
            put_entry(page, alloc, line, report, user, event)?;
        }
    }
    Ok(())
}

/// Appends a question and what runs show of it.
fn put_question(page: &mut TextBuffer, chances: Chances, judged: &Judged<'_>) {
    put_asked(page, judged.line);
    page.put(b": ");
    match judged.showed {
        Showed::Fails(number) => {
            page.put(b"does not hold, first by ");
            put_seed(page, chances, number);
        }
        Showed::Came(number) => {
            page.put(b"seen, first by ");
            put_seed(page, chances, number);
        }
        Showed::CameNot => page.put(b"not seen so far"),
        Showed::FailedNot => page.put(b"did not fail so far"),
        Showed::NotShown => page.put(b"not shown by runs"),
    }
    page.put(b"\n");
}

/// Appends all questions that fail, or all others.
fn put_questions(page: &mut TextBuffer, report: &Report<'_>, wanted: bool) {
    for judged in report.judged.iter() {
        if judged.showed.fails() == wanted {
            put_question(page, report.sample.chances, judged);
        }
    }
}

/// Appends a clause of the verdict, after a semicolon unless it is the first.
fn put_clause(page: &mut TextBuffer, is_first: bool, text: &str) {
    if !is_first {
        page.put(b"; ");
    }
    page.put(text.as_bytes());
}

/// Appends the questions that fail, a clause for each.
fn put_failures(page: &mut TextBuffer, report: &Report<'_>, is_first: bool) {
    let mut is_first = is_first;
    for judged in report.judged.iter() {
        if judged.showed.fails() {
            put_clause(page, is_first, "question at line ");
            page.number(judged.line.line);
            is_first = false;
        }
    }
}

/// Appends the questions about which runs show nothing, a clause for each.
fn put_unseen(page: &mut TextBuffer, report: &Report<'_>) {
    for judged in report.judged.iter() {
        let what = match judged.showed {
            Showed::CameNot => " not seen so far",
            Showed::NotShown => " not shown by runs",
            Showed::Fails(_) | Showed::Came(_) | Showed::FailedNot => continue,
        };
        put_clause(page, false, "question at line ");
        page.number(judged.line.line);
        page.put(what.as_bytes());
    }
}

/// Appends what fails.
fn put_failure(page: &mut TextBuffer, report: &Report<'_>) {
    page.put(b"FAILS: ");
    let mut is_first = true;
    if report.has_ending(Ending::Deadlock) {
        put_clause(page, is_first, Ending::Deadlock.text());
        is_first = false;
    }
    if report.has_ending(Ending::EntriesLeft) {
        put_clause(page, is_first, Ending::EntriesLeft.text());
        is_first = false;
    }
    put_failures(page, report, is_first);
}

/// Appends the verdict: what fails, or that nothing did so far.
fn put_verdict(page: &mut TextBuffer, report: &Report<'_>) {
    put_runs(page, report.sample.chances);
    page.put(b", not whole: ");
    if report.has_failure() {
        put_failure(page, report);
    } else {
        page.put(b"no failure so far");
        put_unseen(page, report);
    }
    page.put(b"\n");
}

/// Writes a report as text: failures first, and the verdict last. `line` is a buffer for the texts
/// of answers.
fn write_report<W: Write>(
    alloc: Global,
    line: &mut Line,
    report: &Report<'_>,
    to: &mut W,
) -> Result<(), LabFault> {
    let mut page = TextBuffer::new(alloc)?;
    put_head(&mut page, &report.sample);
    put_ends(&mut page, report, false);
    put_questions(&mut page, report, true);
    put_ends(&mut page, report, true);
    put_entries(&mut page, alloc, line, report)?;
    put_questions(&mut page, report, false);
    put_verdict(&mut page, report);
    page.write(to)
}

/// Draws runs of the users of a script, and writes a report on them. Returns whether something
/// fails.
fn tell_of<W: Write>(
    alloc: Global,
    script: &UserScript,
    chances: Chances,
    to: &mut W,
) -> Result<bool, LabFault>
    // if something fails, some run of the script shows it
    ensures { IfOk result (λ b. b ≡ true → IsFailing script.now) }
{
    let mut line = Box::new(alloc, Line::new())?;
    let report = Report::new(alloc, script, chances, &mut line)?;
    write_report(alloc, &mut line, &report, to)?;
    Ok(report.has_failure())
}

/// Reads a script of users, draws runs of them, and reports on these: how many ended, the kinds of
/// their ends, the answers of each entry, and what they show of each question, each with the seed
/// of the first run that shows it. Returns whether something fails. Faults of the script come
/// first; then `BookFull` if a run's book has 1,000,000 lines, `OutOfMemory` if an allocation
/// fails, `Write` if a write failed.
pub fn tell_runs<R: Read, W: Write>(
    alloc: Global,
    from: &mut Source<R>,
    chances: Chances,
    to: &mut W,
) -> Result<bool, ExploreFault>
    // if something fails, a script was read, and some run of it shows the failure
    ensures { IfOk result (λ b. b ≡ true
        → HasReadFailing (R.remaining from.old.reader) (R.remaining from.new.reader)) }
{
    let script = read_script(alloc, from)?;
    let fails = tell_of(alloc, &script, chances, to)?;
    Ok(fails)
}
