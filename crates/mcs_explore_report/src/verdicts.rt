//! Verdicts on questions: whether they hold, and where that is seen.
ghost use Rattle.std.specs.Prelude.{◌≡◌, ◌↔◌, IsTrue, IfOk, is_none, is_some};
ghost use Rattle.mcs_explore_report.specs.Verdicts.{IsAlways, IsEndSearched, IsSearched, IsVerdict, answers_of, failed_at, is_said, lacks, lacks_one};

use crate::answer_texts::text_of;
use crate::answers::{Answers, Witness};
use crate::ends::{End, Standing};
use crate::judgement::Sighting;
use mcs_explore_orders::Users;
use mcs_explore_questions::{Asked, Event, is_match};
use mcs_explore_script::AskedLine;
use mcs_lab_check::LabFault;
use mcs_trace::Line;
use std::alloc::Global;

/// Whether a question holds, and where that is seen, if anywhere.
#[derive(Clone, Copy, Drop)]
pub struct Verdict {
    pub holds: bool,
    pub seen: Option<Sighting>,
}

/// Returns whether a pattern matches an answer, or does not match it, as the question asks.
fn is_wanted(
    alloc: Global,
    line: &mut Line,
    witness: &Witness,
    pattern: &[u8],
    wanted: bool,
) -> Result<bool, LabFault>
    ensures { IfOk result (λ b. IsTrue b ↔ (is_said pattern.now witness.now.answer ≡ wanted)) }
{
    let text = text_of(alloc, line, &witness.answer)?;
    Ok(is_match(pattern, &text) == wanted)
}

/// Returns where the first answer was found that matches, or does not match, as the question asks.
fn find_answer(
    alloc: Global,
    line: &mut Line,
    witnesses: &[Witness],
    pattern: &[u8],
    wanted: bool,
) -> Result<Option<Sighting>, LabFault>
    ensures { IfOk result (λ o. IsSearched witnesses.now pattern.now wanted o) }
{
    for index in 0..witnesses.len() {
        let one = &witnesses[index];
        if is_wanted(alloc, line, one, pattern, wanted)? {
            return Ok(Some(Sighting {
                place: one.place,
                turn: Some(one.turn),
            }));
        }
    }
    Ok(None)
}

/// Returns whether a user, in this state at an end, lacks the answer to an entry.
fn lacks_one(standing: &Standing, event: Event) -> bool
    ensures { result ≡ lacks_one event standing.now }
{
    standing.thread.is_same(event.thread) && standing.answered < event.number
}

/// Returns whether at an end with these states the answer to an entry is missing.
fn lacks(standing: &[Standing], event: Event) -> bool
    ensures { result ≡ lacks event standing.now }
{
    standing.iter().any(|one| lacks_one(one, event))
}

/// Returns the first end at which the answer to an entry is missing.
fn find_end(kinds: &[End], event: Event) -> Option<Sighting>
    ensures { IsEndSearched kinds.now event result }
{
    for index in 0..kinds.len() {
        let kind = &kinds[index];
        if lacks(&kind.standing, event) {
            return Some(Sighting {
                place: kind.place,
                turn: None,
            });
        }
    }
    None
}

/// The answers of an entry.
fn answers_of<'a>(users: &Users, answers: &'a Answers, event: Event) -> &'a [Witness]
    ensures { result.now ≡ answers_of users.now answers.entry.now event }
{
    match users.find(event.thread) {
        Some(user) => answers.of(user, event.number.saturating_sub(1)),
        None => &[],
    }
}

/// Returns where a question failed first, if it did.
fn failed_at(failed: &[Option<Sighting>], number: usize) -> Option<Sighting>
    ensures { result ≡ failed_at failed.now number }
{
    match failed.get(number) {
        Some(failed) => *failed,
        None => None,
    }
}

/// Returns the verdict if all answers of an entry have to match, by the first that does not.
fn all_are(found: Option<Sighting>) -> Verdict
    ensures holds { result.holds ≡ is_none result.seen }
    ensures seen { result.seen ≡ found }
{
    Verdict {
        holds: found.is_none(),
        seen: found,
    }
}

/// Returns the verdict on a question that one answer must match, by where the first match is.
fn some_is(found: Option<Sighting>) -> Verdict
    ensures holds { result.holds ≡ is_some result.seen }
    ensures seen { result.seen ≡ found }
{
    Verdict {
        holds: found.is_some(),
        seen: found,
    }
}

/// Returns where an answer does not match a pattern, or else the first end without an answer of the
/// entry.
#[tactic(auto, using(crate::proofs::Always::answer_always, crate::proofs::Always::ends_always))]
fn find_failure(
    alloc: Global,
    line: &mut Line,
    witnesses: &[Witness],
    pattern: &[u8],
    kinds: &[End],
    event: Event,
) -> Result<Option<Sighting>, LabFault>
    ensures { IfOk result (λ o. IsAlways witnesses.now pattern.now kinds.now event o) }
{
    match find_answer(alloc, line, witnesses, pattern, false)? {
        Some(seen) => Ok(Some(seen)),
        None => Ok(find_end(kinds, event)),
    }
}

/// What questions are judged by.
#[derive(Clone, Copy)]
pub struct Grounds<'a> {
    pub users: &'a Users,
    /// All kinds of ends.
    pub ends: &'a [End],
    pub answers: &'a Answers,
    /// Where each question failed first.
    pub failed: &'a [Option<Sighting>],
}

/// Returns the verdict on a question with this number. `line` is a buffer for the text of an
/// answer; `stuck` is the first state in which the question's user is stuck, if it asks that.
/// `OutOfMemory` if an allocation fails.
pub fn verdict_on(
    alloc: Global,
    line: &mut Line,
    grounds: Grounds<'_>,
    number: usize,
    stuck: Option<Sighting>,
    question: &AskedLine,
) -> Result<Verdict, LabFault>
    ensures { IfOk result (λ v. IsVerdict grounds.entry.users.now grounds.entry.ends.now
        grounds.entry.answers.now (failed_at grounds.entry.failed.now number) stuck
        question.now.asked v) }
{
    match &question.asked {
        Asked::Idle { .. } | Asked::Again { .. } | Asked::Ruled { .. } => Ok(all_are(None)),
        Asked::Live { .. } => Ok(all_are(stuck)),
        Asked::Answer { event, pattern } => {
            let witnesses = answers_of(grounds.users, grounds.answers, *event);
            let failure = find_failure(alloc, line, witnesses, pattern, grounds.ends, *event)?;
            Ok(all_are(failure))
        }
        Asked::AnswerIf { event, pattern } => {
            let witnesses = answers_of(grounds.users, grounds.answers, *event);
            Ok(all_are(find_answer(alloc, line, witnesses, pattern, false)?))
        }
        Asked::Some { event, pattern } => {
            let witnesses = answers_of(grounds.users, grounds.answers, *event);
            Ok(some_is(find_answer(alloc, line, witnesses, pattern, true)?))
        }
        Asked::Never { .. } | Asked::Apart { .. } | Asked::Before { .. } => {
            Ok(all_are(failed_at(grounds.failed, number)))
        }
    }
}
