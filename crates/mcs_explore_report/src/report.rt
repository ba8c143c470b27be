//! The report of a search.
ghost use Rattle.std.specs.Prelude.{true, false, ◌≡◌, ◌<◌, ◌≤◌, ◌++◌, IfOk, OnOk, length};
ghost use Rattle.mcs_explore_search.specs.Search.{listed, path_of};
ghost use Rattle.mcs_explore_report.specs.declared.report.Explored.TheVariants as Explored;
ghost use Rattle.mcs_explore_report.specs.Failing.{HasReadFailing, IsProvedToFail};
ghost use Rattle.mcs_explore_report.specs.Holding.{HasReadHolding, IsProvedToHold};
ghost use Rattle.mcs_explore_report.specs.Outcomes.{AreHeldBelow, HasMissed, IsJudgedMore, all_hold, any_fails, are_live, has_failure};
ghost use Rattle.mcs_explore_report.specs.Scripts.{IsScriptBy};

use crate::bounds::states_before;
use crate::exploration::{Wanted, watched};
use crate::findings::{AnsweredEntry, Findings, Judged};
use crate::json::write_json;
use crate::judgement::Sighting;
use crate::saver::{Saves, save_all};
use crate::scripts::{script_by, turns_of};
use crate::text::write_text;
use crate::watcher::{Progress, Quiet};
use mcs_explore_questions::ExploreFault;
use mcs_explore_script::{UserScript, read_script};
use mcs_lab_check::LabFault;
use mcs_sim::Source;
use mcs_trace::Line;
use std::alloc::Global;
use std::io::{Read, Write};

/// The result of a search.
#[derive(Clone, Copy, PartialEq, Eq, Debug)]
pub enum Explored {
    /// All orders were searched: all questions hold, and none ends in a deadlock.
    Holds,
    /// A question fails, or an order ends in a deadlock.
    Fails,
    /// A budget ended the search, and nothing failed so far.
    Stopped,
}

impl Explored {
    /// Returns the word for it.
    pub fn text(self) -> &'static str {
        match self {
            Explored::Holds => "holds",
            Explored::Fails => "fails",
            Explored::Stopped => "stopped",
        }
    }
}

/// The form of a report.
#[derive(Clone, Copy)]
pub struct Output {
    /// Whether a script is kept for each answer.
    pub with_answers: bool,
    /// Whether it is one document of JSON.
    pub is_json: bool,
}

/// The contents of the report on a search.
pub struct Report<'a, P: Progress> {
    pub findings: Findings<'a, P>,
    /// The questions, in the order of their lines.
    pub judged: Vec<Judged<'a>>,
    /// The entries, in the order of users and entries.
    pub entries: Vec<AnsweredEntry>,
    pub is_exact: bool,
}

// Written by hand, so that it is proved once, as a separate function.
impl<'a, P: Progress> Drop for Report<'a, P> {
    fn drop(self) {
        let Report {
            findings: _,
            judged: _,
            entries: _,
            is_exact: _,
        } = self;
    }
}

/// Adds the result of the question with a number, if that line holds or fails.
fn push_judged<'a, P: Progress>(
    all: &mut Vec<Judged<'a>>,
    findings: &Findings<'a, P>,
    line: &mut Line,
    number: usize,
) -> Result<(), LabFault>
    requires { number < length findings.now.script.now.asked.items }
    ensures { OnOk result (IsJudgedMore findings.now.script.now.users findings.now.ends
        findings.now.orders.now.explorer.watch.answers
        findings.now.orders.now.explorer.watch.failed.items
        findings.now.script.now.asked.items (are_live findings.now.places.items)
        (length findings.now.orders.now.search.map.entries) findings.now.orders.now.search.done
        number all.old.items all.new.items) }
{
    if findings.script.asked[number].asked.is_question() {
        all.push(findings.judged(line, number)?)?;
    }
    Ok(())
}

/// Returns the result of each question. `line` is a buffer for the text of an answer.
fn all_judged<'a, P: Progress>(
    findings: &Findings<'a, P>,
    line: &mut Line,
) -> Result<Vec<Judged<'a>>, LabFault>
    ensures held { IfOk result (λ all. all_hold all.items ≡ true
        → AreHeldBelow findings.now.script.now.users findings.now.ends
        findings.now.orders.now.explorer.watch.answers
        findings.now.orders.now.explorer.watch.failed.items
        findings.now.script.now.asked.items (length findings.now.script.now.asked.items)) }
    ensures missed { IfOk result (λ all. any_fails all.items ≡ true
        → HasMissed findings.now.script.now.users findings.now.ends
        findings.now.orders.now.explorer.watch.answers
        findings.now.orders.now.explorer.watch.failed.items
        findings.now.script.now.asked.items (are_live findings.now.places.items)
        (length findings.now.orders.now.search.map.entries)
        findings.now.orders.now.search.done) }
{
    let mut all = Vec::new(findings.alloc);
    for number in 0..findings.script.asked.len() {
        push_judged(&mut all, findings, line, number)?;
    }
    Ok(all)
}

impl<'a, P: Progress> Report<'a, P> {
    /// Judges all questions by the findings, and returns the report. `OutOfMemory` if an allocation
    /// fails.
    fn new(findings: Findings<'a, P>, is_exact: bool) -> Result<Report<'a, P>, LabFault>
        ensures findings { IfOk result (λ r. r.findings ≡ findings.entry) }
        ensures held { IfOk result (λ r. all_hold r.judged.items ≡ true
            → AreHeldBelow r.findings.script.now.users r.findings.ends
            r.findings.orders.now.explorer.watch.answers
            r.findings.orders.now.explorer.watch.failed.items
            r.findings.script.now.asked.items (length r.findings.script.now.asked.items)) }
        ensures missed { IfOk result (λ r. any_fails r.judged.items ≡ true
            → HasMissed r.findings.script.now.users r.findings.ends
            r.findings.orders.now.explorer.watch.answers
            r.findings.orders.now.explorer.watch.failed.items
            r.findings.script.now.asked.items (are_live r.findings.places.items)
            (length r.findings.orders.now.search.map.entries)
            r.findings.orders.now.search.done) }
    {
        let mut line = Box::new(findings.alloc, Line::new())?;
        let judged = all_judged(&findings, &mut line)?;
        let entries = findings.entries(&mut line)?;
        Ok(Report {
            findings,
            judged,
            entries,
            is_exact,
        })
    }

    /// Returns the script to a state, or to a turn from it, after a comment. BookFull and
    /// OutOfMemory as for a search.
    pub fn script_of(&self, comment: &[u8], seen: Sighting) -> Result<Vec<u8>, LabFault>
        ensures { IfOk result (λ text. IsScriptBy self.now.findings.script.now
            (path_of self.now.findings.orders.now.search.map.entries seen.place
            ++ listed seen.turn) comment.now text.items) }
    {
        let findings = &self.findings;
        let turns = turns_of(findings.orders, seen)?;
        script_by(findings.alloc, findings.script, comment, &turns)
    }

    /// Returns how many of the questions hold so far.
    pub fn count_held(&self) -> usize {
        let mut count: usize = 0;
        for judged in self.judged.iter() {
            count = count.saturating_add(usize::from(judged.outcome.holds()));
        }
        count
    }

    /// Returns whether all questions hold so far.
    fn are_held(&self) -> bool
        ensures { result ≡ all_hold self.now.judged.items }
    {
        self.judged.iter().all(|judged| judged.outcome.holds())
    }

    /// Returns whether one of the questions fails.
    fn any_fails(&self) -> bool
        ensures { result ≡ any_fails self.now.judged.items }
    {
        self.judged.iter().any(|judged| judged.outcome.fails())
    }

    /// Returns whether a question fails, a user is stuck, or a run ends with a user that is not
    /// done and may not wait.
    fn has_failure(&self) -> bool
        ensures { result ≡ has_failure self.now.judged.items self.now.findings.places.items
            self.now.findings.script.now.asked.items self.now.findings.ends }
    {
        self.any_fails() || !self.findings.are_live() || !self.findings.are_done()
    }

    /// Returns the result of the search.
    pub fn explored(&self) -> Explored
        ensures fails { has_failure self.now.judged.items self.now.findings.places.items
            self.now.findings.script.now.asked.items self.now.findings.ends ≡ true
            → result ≡ Explored.Fails }
        ensures shown { result ≡ Explored.Fails → has_failure self.now.judged.items
            self.now.findings.places.items self.now.findings.script.now.asked.items
            self.now.findings.ends ≡ true }
        ensures passes { has_failure self.now.judged.items self.now.findings.places.items
            self.now.findings.script.now.asked.items self.now.findings.ends ≡ false
            → length self.now.findings.orders.now.search.map.entries
            ≤ self.now.findings.orders.now.search.done → all_hold self.now.judged.items ≡ true
            → result ≡ Explored.Holds }
        ensures failure { result ≡ Explored.Holds → has_failure self.now.judged.items
            self.now.findings.places.items self.now.findings.script.now.asked.items
            self.now.findings.ends ≡ false }
        ensures whole { result ≡ Explored.Holds
            → length self.now.findings.orders.now.search.map.entries
            ≤ self.now.findings.orders.now.search.done }
        ensures held { result ≡ Explored.Holds → all_hold self.now.judged.items ≡ true }
    {
        if self.has_failure() {
            return Explored::Fails;
        }
        if self.findings.orders.is_whole() && self.are_held() {
            Explored::Holds
        } else {
            Explored::Stopped
        }
    }
}

/// Searches all orders of the users of a script, and reports the findings: how many states were
/// found, then failures, each kind of end, each answer of each entry, the questions that hold, and
/// the verdict. Each end and each answer is one of a run whose script is saved. The faults are
/// those of a search and of saving scripts; `Write` if a write failed.
pub fn explore_all<W: Write, S: Saves, P: Progress>(
    alloc: Global,
    script: &UserScript,
    to: &mut W,
    wanted: Wanted,
    output: Output,
    saves: &mut S,
    progress: P,
) -> Result<Explored, LabFault>
    // proved keys: if it holds, all questions of the script hold in each run of its users
    ensures holds { IfOk result (λ e. e ≡ Explored.Holds
        → IsProvedToHold wanted.is_exact script.now) }
    // and if it fails, some run shows it
    ensures fails { IfOk result (λ e. e ≡ Explored.Fails
        → IsProvedToFail wanted.is_exact script.now) }
{
    let budget = Wanted {
        states: states_before(script, wanted.states),
        ..wanted
    };
    let orders = watched(
        alloc,
        &script.boot,
        &script.users,
        &script.asked,
        &script.lives,
        budget,
        progress,
    )?;
    let findings = Findings::new(alloc, script, &orders, wanted.depth)?;
    let report = Report::new(findings, wanted.is_exact)?;
    if output.is_json {
        write_json(to, &report)?;
    } else {
        write_text(to, &report)?;
    }
    save_all(&report, saves, output.with_answers)?;
    Ok(report.explored())
}

/// Reads a script of users, searches all orders, and reports them. Faults of the script come first.
pub fn explore_script<R: Read, W: Write + Drop, S: Saves>(
    alloc: Global,
    from: &mut Source<R>,
    to: W,
    wanted: Wanted,
    output: Output,
    saves: &mut S,
) -> Result<Explored, ExploreFault>
    // proved keys: if it holds, a script was read, and all its questions hold in each run of its
    // users
    ensures holds { IfOk result (λ e. e ≡ Explored.Holds → HasReadHolding wanted.is_exact
        (R.remaining from.old.reader) (R.remaining from.new.reader)) }
    // and if it fails, some run shows it
    ensures fails { IfOk result (λ e. e ≡ Explored.Fails → HasReadFailing wanted.is_exact
        (R.remaining from.old.reader) (R.remaining from.new.reader)) }
{
    explore_and_tell(alloc, from, to, wanted, output, saves, Quiet)
}

/// Explores a script as `explore_script` does, and reports its progress.
pub fn explore_and_tell<R: Read, W: Write + Drop, S: Saves, P: Progress>(
    alloc: Global,
    from: &mut Source<R>,
    to: W,
    wanted: Wanted,
    output: Output,
    saves: &mut S,
    progress: P,
) -> Result<Explored, ExploreFault>
    // proved keys: if it holds, a script was read, and all its questions hold in each run of its
    // users
    ensures holds { IfOk result (λ e. e ≡ Explored.Holds → HasReadHolding wanted.is_exact
        (R.remaining from.old.reader) (R.remaining from.new.reader)) }
    // and if it fails, some run shows it
    ensures fails { IfOk result (λ e. e ≡ Explored.Fails → HasReadFailing wanted.is_exact
        (R.remaining from.old.reader) (R.remaining from.new.reader)) }
{
    let mut to = to;
    let script = read_script(alloc, from)?;
    let explored = explore_all(alloc, &script, &mut to, wanted, output, saves, progress)?;
    Ok(explored)
}
