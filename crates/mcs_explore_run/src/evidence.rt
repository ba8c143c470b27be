//! What runs show of questions.
ghost use Rattle.std.specs.Prelude.{◌≡◌, ◌<◌, ◌⊎◌, ◌++◌, ◌∷◌, [], true, false, IfOk, None, OnOk, is_some, length};
ghost use Rattle.mcs_explore_report.specs.Verdicts.{IsVerdict, failed_at};
ghost use Rattle.mcs_explore_run.specs.Samples.{HasShownFailure, IsShownToFail, any_fails, fails};

use crate::samples::Sample;
use mcs_explore_questions::Asked;
use mcs_explore_report::{Grounds, Verdict, verdict_on};
use mcs_explore_script::{AskedLine, UserScript};
use mcs_lab_check::LabFault;
use mcs_trace::Line;
use std::alloc::Global;

/// What runs show of a question. A run is named by its number, from 0.
#[derive(Clone, Copy, PartialEq, Eq)]
pub enum Showed {
    /// It fails, as this run shows.
    Fails(usize),
    /// The event that the question asks for came in this run.
    Came(usize),
    /// The event that the question asks for came in no run.
    CameNot,
    /// It failed in no run.
    FailedNot,
    /// A run cannot show it.
    NotShown,
}

/// A question, and what runs show of it.
#[derive(Clone, Copy)]
pub struct Judged<'a> {
    pub line: &'a AskedLine,
    pub showed: Showed,
}

impl Showed {
    /// Returns whether a run shows that the question fails.
    pub fn fails(self) -> bool
        ensures { result ≡ fails self }
    {
        match self {
            Showed::Fails(_) => true,
            Showed::Came(_) | Showed::CameNot | Showed::FailedNot | Showed::NotShown => false,
        }
    }
}

/// Returns what runs show of a question, by the verdict on what was kept.
fn showed_by(asked: &Asked, verdict: Verdict) -> Showed
    ensures { fails result ≡ true
        → (verdict.holds ≡ false) × (is_some verdict.seen ≡ true) }
{
    match (verdict.holds, verdict.seen) {
        (false, Some(seen)) => Showed::Fails(seen.place),
        (false, None) => Showed::CameNot,
        (true, Some(seen)) => Showed::Came(seen.place),
        (true, None) if asked.is_live() => Showed::NotShown,
        (true, None) => Showed::FailedNot,
    }
}

/// Returns the verdict on the question with a number, counted from 0, by what was kept of runs.
/// `line` is a buffer for the text of an answer. `OutOfMemory` if an allocation fails.
fn verdict_of(
    alloc: Global,
    line: &mut Line,
    script: &UserScript,
    sample: &Sample<'_>,
    number: usize,
    question: &AskedLine,
) -> Result<Verdict, LabFault>
    ensures { IfOk result (λ v. IsVerdict script.now.users sample.now.watched.ends
        sample.now.watched.answers (failed_at sample.now.watched.failed.items number) None
        question.now.asked v) }
{
    let grounds = Grounds {
        users: &script.users,
        ends: sample.watched.ends.kinds(),
        answers: &sample.watched.answers,
        failed: &sample.watched.failed,
    };
    verdict_on(alloc, line, grounds, number, None, question)
}

/// Returns what runs show of the question with a number, counted from 0. `line` is a buffer for the
/// text of an answer. `OutOfMemory` if an allocation fails.
fn showed_of(
    alloc: Global,
    line: &mut Line,
    script: &UserScript,
    sample: &Sample<'_>,
    number: usize,
    question: &AskedLine,
) -> Result<Showed, LabFault>
    ensures { IfOk result (λ s. fails s ≡ true → IsShownToFail script.now.users
        sample.now.watched.ends sample.now.watched.answers
        (failed_at sample.now.watched.failed.items number) question.now.asked) }
{
    let verdict = verdict_of(alloc, line, script, sample, number, question)?;
    Ok(showed_by(&question.asked, verdict))
}

/// Adds what runs show of a question.
fn push<'a>(all: &mut Vec<Judged<'a>>, judged: Judged<'a>) -> Result<(), LabFault>
    ensures { OnOk result (all.new.items ≡ all.old.items ++ judged.entry ∷ []) }
{
    all.push(judged)?;
    Ok(())
}

/// Adds what runs show of the question with this number, if that line is one that can hold or fail.
fn push_judged<'a>(
    alloc: Global,
    all: &mut Vec<Judged<'a>>,
    line: &mut Line,
    script: &'a UserScript,
    sample: &Sample<'_>,
    number: usize,
) -> Result<(), LabFault>
    requires { number < length script.now.asked.items }
    ensures { OnOk result (any_fails all.new.items ≡ true → (any_fails all.old.items ≡ true)
        ⊎ HasShownFailure script.entry.now.users script.entry.now.asked.items
        sample.now.watched.ends sample.now.watched.answers sample.now.watched.failed.items) }
{
    let question = &script.asked[number];
    if !question.asked.is_question() {
        return Ok(());
    }
    let showed = showed_of(alloc, line, script, sample, number, question)?;
    push(
        all,
        Judged {
            line: question,
            showed,
        },
    )
}

/// Returns what runs show of each question, in the order of their lines. `line` is a buffer for the
/// text of an answer. `OutOfMemory` if an allocation fails.
pub fn all_judged<'a>(
    alloc: Global,
    line: &mut Line,
    script: &'a UserScript,
    sample: &Sample<'_>,
) -> Result<Vec<Judged<'a>>, LabFault>
    ensures { IfOk result (λ all. any_fails all.items ≡ true
        → HasShownFailure script.entry.now.users script.entry.now.asked.items
        sample.now.watched.ends sample.now.watched.answers sample.now.watched.failed.items) }
{
    let mut all = Vec::new(alloc);
    for number in 0..script.asked.len() {
        push_judged(alloc, &mut all, line, script, sample, number)?;
    }
    Ok(all)
}
