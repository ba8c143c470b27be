//! The contents of a report, before they are written.
ghost use Rattle.std.specs.Prelude.{ℕ, true, false, ◌≡◌, ◌<◌, ◌≤◌, ◌⊎◌, IfOk, Some, is_some, length, slice_get};
ghost use Rattle.mcs_explore_script.specs.declared.questions.AskedLine.{AskedLine};
ghost use Rattle.mcs_explore_search.specs.Reaching.{AreWithin};
ghost use Rattle.mcs_explore_report.specs.Ends.{AreAllEnds, AreRunEnds, HasKind, Kind};
ghost use Rattle.mcs_explore_report.specs.Outcomes.{AreFirstPlaces, IsHeld, IsMissed, are_done, are_live, fails, holds, stuck_of};
ghost use Rattle.mcs_explore_report.specs.Verdicts.{IsVerdict, failed_at};

use crate::again::given_again;
use crate::answer_texts::text_of;
use crate::answers::Witness;
use crate::endings::{Ending, are_idle, ending_of};
use crate::ends::{End, Ends};
use crate::frontier::{deep_ends, is_given};
use crate::judgement::Sighting;
use crate::outcomes::{Outcome, Unseen, missed};
use crate::scripts::turns_of;
use crate::slots::{Origin, all_origins};
use crate::stuck_users::{StuckUsers, first_stuck, stuck_of, stuck_users};
use crate::verdicts::{Grounds, Verdict, verdict_on};
use crate::watcher::{Progress, Watched};
use mcs_explore_orders::{Orders, Users};
use mcs_explore_questions::{Asked, Event, Span};
use mcs_explore_script::{AskedLine, UserScript};
use mcs_lab_check::LabFault;
use mcs_trace::Line;
use mcs_types::ObjId;
use std::alloc::Global;

/// An answer of an entry, and where it was found first.
#[derive(Drop)]
pub struct Answered {
    pub text: Vec<u8>,
    pub seen: Sighting,
}

/// An entry of a user, and its answers.
#[derive(Drop)]
pub struct AnsweredEntry {
    pub event: Event,
    /// Sorted by their texts.
    pub answers: Vec<Answered>,
    /// Why it has no answer, if it has none.
    pub unanswered: Option<Unseen>,
}

/// A kind of end as it is reported.
#[derive(Drop)]
pub struct KindOfEnd<'a> {
    /// From 1 on.
    pub number: usize,
    pub end: &'a End,
    /// For each user, how its object is named; empty if the boot made all of them.
    origins: &'a [Origin],
}

impl KindOfEnd<'_> {
    /// Returns how the object is named on which the user at an index is blocked.
    pub fn origin(&self, place: usize) -> Origin {
        match self.origins.get(place) {
            Some(origin) => *origin,
            None => Origin::Boot,
        }
    }
}

/// A question and its result.
#[derive(Drop)]
pub struct Judged<'a> {
    pub line: &'a AskedLine,
    pub outcome: Outcome,
    /// Where it failed, or where the wanted event was seen.
    pub seen: Option<Sighting>,
}

/// What a search found, with its script.
pub struct Findings<'a, P: Progress> {
    pub alloc: Global,
    pub script: &'a UserScript,
    pub orders: &'a Orders<'a, Watched<'a, P>>,
    /// The kinds of all ends, with those of the deepest states.
    pub ends: Ends,
    /// For each kind of end, how its objects are named.
    origins: Vec<Vec<Origin>>,
    /// Stuck users that no line `live` names.
    pub stuck: Vec<StuckUsers>,
    /// For each user that must not get stuck, the first state from which on it is.
    places: Vec<Option<usize>>,
}

// Written by hand, so that it is proved once, as a separate function.
impl<'a, P: Progress> Drop for Findings<'a, P> {
    fn drop(self) {
        let Findings {
            alloc: _,
            script: _,
            orders: _,
            ends: _,
            origins: _,
            stuck: _,
            places: _,
        } = self;
    }
}

/// Returns all kinds of ends: those that a search noted, and those of the deepest states.
/// `OutOfMemory` if an allocation fails.
fn all_ends(alloc: Global, kept: &Ends, deep: &Ends) -> Result<Ends, LabFault>
    ensures { IfOk result (λ ends. AreAllEnds kept.now deep.now ends) }
{
    let mut ends = Ends::new(alloc);
    ends.merge_all(kept.kinds())?;
    ends.merge_all(deep.kinds())?;
    Ok(ends)
}

/// Returns for each user that must not get stuck the first state from which on it is. `OutOfMemory`
/// if an allocation fails.
fn first_places<P: Progress>(
    alloc: Global,
    count: usize,
    orders: &Orders<'_, Watched<'_, P>>,
) -> Result<Vec<Option<usize>>, LabFault>
    requires { AreWithin orders.now.search.edges.items (length orders.now.search.map.entries) }
    ensures { IfOk result (λ places. AreFirstPlaces orders.now.search.edges.items
        (length orders.now.search.map.entries) orders.now.explorer.watch.lives.notes count
        places.items) }
{
    let mut places = Vec::new(alloc);
    for number in 0..count {
        places.push(first_stuck(alloc, orders, number)?)?;
    }
    Ok(places)
}

/// Returns the text of an entry of a thread, by its number, counted from 1.
pub fn entry_text(script: &UserScript, thread: ObjId, number: usize) -> &[u8] {
    let mut count: usize = 0;
    for said in script.texts.iter() {
        if said.thread.is_same(thread) {
            count = count.saturating_add(1);
            if count == number {
                return said.text.as_slice();
            }
        }
    }
    b""
}

impl<'a, P: Progress> Findings<'a, P> {
    /// Returns the findings of a search with this depth. BookFull and OutOfMemory as for a search.
    pub fn new(
        alloc: Global,
        script: &'a UserScript,
        orders: &'a Orders<'a, Watched<'a, P>>,
        depth: usize,
    ) -> Result<Findings<'a, P>, LabFault>
        requires { AreWithin orders.now.search.edges.items
            (length orders.now.search.map.entries) }
        ensures script { IfOk result (λ f. f.script.now ≡ script.entry.now) }
        ensures orders { IfOk result (λ f. f.orders.now ≡ orders.entry.now) }
        ensures ends { IfOk result (λ f. (i : ℕ) (k : Kind)
            → slice_get orders.entry.now.explorer.watch.ends i ≡ Some k
            → HasKind f.ends k.standing) }
        // and each is that of a run, if the kept ones are
        ensures real { IfOk result (λ f. AreRunEnds script.entry.now.users script.entry.now.boot
            orders.entry.now.explorer.watch.ends
            → AreRunEnds script.entry.now.users script.entry.now.boot f.ends) }
        ensures places { IfOk result (λ f. AreFirstPlaces orders.entry.now.search.edges.items
            (length orders.entry.now.search.map.entries)
            orders.entry.now.explorer.watch.lives.notes
            (length script.entry.now.lives.items) f.places.items) }
    {
        let deep = deep_ends(alloc, script, orders, depth)?;
        let ends = all_ends(alloc, &orders.watch().ends, &deep)?;
        let origins = all_origins(alloc, script, orders, ends.kinds())?;
        let places = first_places(alloc, script.lives.len(), orders)?;
        let stuck = stuck_users(alloc, &script.asked, &script.lives, &places)?;
        Ok(Findings {
            alloc,
            script,
            orders,
            ends,
            origins,
            stuck,
            places,
        })
    }

    /// Returns the kind of end with a number, from 0 on; None if there is none.
    pub fn kind(&self, index: usize) -> Option<KindOfEnd<'_>> {
        match (self.ends.kinds().get(index), self.origins.get(index)) {
            (Some(end), Some(origins)) => Some(KindOfEnd {
                number: index.saturating_add(1),
                end,
                origins: origins.as_slice(),
            }),
            (Some(_), None) | (None, _) => None,
        }
    }

    /// Returns how runs of this kind end.
    pub fn ending(&self, end: &End) -> Ending {
        ending_of(&self.script.asked, &end.standing)
    }

    /// Returns whether a kind of end is one of these.
    pub fn has_ending(&self, ending: Ending) -> bool {
        self.ends
            .kinds()
            .iter()
            .any(|end| self.ending(end) == ending)
    }

    /// Returns whether in each kind of end each user is done, or may wait for ever.
    pub fn are_done(&self) -> bool
        ensures { result ≡ are_done self.now.script.now.asked.items self.now.ends }
    {
        let asked = self.script.asked.as_slice();
        self.ends
            .kinds()
            .iter()
            .all(|end| are_idle(asked, &end.standing))
    }

    /// Returns whether none of the users that the script's `lives` name gets stuck.
    pub fn are_live(&self) -> bool
        ensures { result ≡ are_live self.now.places.items }
    {
        self.places.iter().all(|place| place.is_none())
    }

    /// Returns whether a user is stuck that no line `live` names.
    pub fn is_stuck(&self, user: usize) -> bool {
        self.stuck
            .iter()
            .any(|stuck| stuck.users.iter().any(|one| *one == user))
    }

    /// Returns the first answered entry that is repeated on the way to what is seen, if any.
    /// `OutOfMemory` if an allocation fails.
    pub fn given_again(&self, seen: Sighting) -> Result<Option<Event>, LabFault> {
        let turns = turns_of(self.orders, seen)?;
        given_again(self.alloc, self.script, &turns)
    }

    /// Returns after how many turns something is seen.
    pub fn steps(&self, seen: Sighting) -> usize {
        let steps = self.orders.depth(seen.place);
        steps.saturating_add(usize::from(seen.turn.is_some()))
    }

    /// Returns the answers of an entry, sorted by their texts.
    fn answers(
        &self,
        line: &mut Line,
        user: usize,
        number: usize,
    ) -> Result<Vec<Answered>, LabFault> {
        let mut answers: Vec<Answered> = Vec::new(self.alloc);
        for witness in self.orders.watch().answers.of(user, number) {
            let answer = self.answered(line, witness)?;
            let place = answers
                .iter()
                .position(|other| answer.text < other.text)
                .unwrap_or(answers.len());
            answers.insert(place, answer)?;
        }
        Ok(answers)
    }

    /// Returns an answer with its text.
    fn answered(&self, line: &mut Line, witness: &Witness) -> Result<Answered, LabFault> {
        Ok(Answered {
            text: text_of(self.alloc, line, &witness.answer)?,
            seen: Sighting {
                place: witness.place,
                turn: Some(witness.turn),
            },
        })
    }

    /// Returns an entry of a user with its answers.
    fn entry(&self, line: &mut Line, user: usize, event: Event) -> Result<AnsweredEntry, LabFault> {
        let answers = self.answers(line, user, event.number.saturating_sub(1))?;
        let unanswered = if answers.is_empty() {
            Some(self.unanswered(event)?)
        } else {
            None
        };
        Ok(AnsweredEntry {
            event,
            answers,
            unanswered,
        })
    }

    /// Returns all entries with their answers, in the order of users and entries. `line` is a
    /// buffer for the text of an answer.
    pub fn entries(&self, line: &mut Line) -> Result<Vec<AnsweredEntry>, LabFault> {
        let users: &'a Users = &self.script.users;
        let mut all = Vec::new(self.alloc);
        for user in 0..users.lists().len() {
            let Some(list) = users.at(user) else {
                break;
            };
            for before in 0..list.entries.len() {
                let event = Event {
                    thread: list.thread,
                    number: before.saturating_add(1),
                };
                all.push(self.entry(line, user, event)?)?;
            }
        }
        Ok(all)
    }

    /// Returns whether an entry was answered in some order, by its number, counted from 1.
    fn is_answered(&self, event: Event) -> bool {
        match self.script.users.find(event.thread) {
            Some(user) => {
                let number = event.number.saturating_sub(1);
                !self.orders.watch().answers.of(user, number).is_empty()
            }
            None => false,
        }
    }

    /// Returns whether an entry was given in some order, by its number, counted from 1.
    fn is_given(&self, event: Event) -> Result<bool, LabFault> {
        if self.is_answered(event) {
            return Ok(true);
        }
        match self.script.users.find(event.thread) {
            Some(user) => is_given(self.orders, user, event.number.saturating_sub(1)),
            None => Ok(false),
        }
    }

    /// Returns why an entry has no answer.
    fn unanswered(&self, event: Event) -> Result<Unseen, LabFault> {
        if self.is_given(event)? {
            Ok(Unseen::NeverAnswered)
        } else {
            Ok(Unseen::NeverGiven)
        }
    }

    /// Returns why the verdict that a question holds says little; None if it does not.
    fn little(&self, asked: &Asked) -> Result<Option<Unseen>, LabFault> {
        match asked {
            Asked::Answer { event, .. } | Asked::AnswerIf { event, .. } => {
                if self.is_answered(*event) {
                    return Ok(None);
                }
                Ok(Some(self.unanswered(*event)?))
            }
            Asked::Never { .. } => Ok(Some(Unseen::NothingMatched)),
            Asked::Apart { spans } => {
                if spans.iter().any(|span| !self.is_begun(*span)) {
                    Ok(Some(Unseen::NeverAnswered))
                } else {
                    Ok(None)
                }
            }
            Asked::Before { second, .. } => {
                if self.is_given(*second)? {
                    Ok(None)
                } else {
                    Ok(Some(Unseen::NeverGiven))
                }
            }
            Asked::Live { .. }
            | Asked::Some { .. }
            | Asked::Idle { .. }
            | Asked::Again { .. }
            | Asked::Ruled { .. } => Ok(None),
        }
    }

    /// Returns whether a user is in its span in some order.
    fn is_begun(&self, span: Span) -> bool {
        let event = Event {
            thread: span.thread,
            number: span.from,
        };
        span.from == 0 || self.is_answered(event)
    }

    /// Returns the verdict on the question with a number, counted from 0. `line` is a buffer for
    /// the text of an answer. `OutOfMemory` if an allocation fails.
    fn verdict(
        &self,
        line: &mut Line,
        number: usize,
        question: &AskedLine,
    ) -> Result<Verdict, LabFault>
        ensures { IfOk result (λ v. IsVerdict self.now.script.now.users self.now.ends
            self.now.orders.now.explorer.watch.answers
            (failed_at self.now.orders.now.explorer.watch.failed.items number)
            (stuck_of self.now.script.now.asked.items self.now.places.items number)
            question.now.asked v) }
    {
        let script = self.script;
        let watched = self.orders.watch();
        let grounds = Grounds {
            users: &script.users,
            ends: self.ends.kinds(),
            answers: &watched.answers,
            failed: &watched.failed,
        };
        let stuck = stuck_of(&script.asked, &self.places, number);
        verdict_on(self.alloc, line, grounds, number, stuck, question)
    }

    /// Returns the result of a question that holds.
    fn held(&self, asked: &Asked) -> Result<Outcome, LabFault>
        ensures { IfOk result (λ o. holds o ≡ true) }
    {
        match self.little(asked)? {
            Some(why) => Ok(Outcome::HoldsSince(why)),
            None => Ok(Outcome::Holds),
        }
    }

    /// Returns the result of a question with this verdict.
    fn outcome(&self, asked: &Asked, verdict: Verdict) -> Result<Outcome, LabFault>
        ensures held { IfOk result (λ o. holds o ≡ true → verdict.holds ≡ true) }
        ensures missed { IfOk result (λ o. fails o ≡ true → (verdict.holds ≡ false)
            × ((is_some verdict.seen ≡ true)
            ⊎ (length self.now.orders.now.search.map.entries
            ≤ self.now.orders.now.search.done))) }
    {
        if verdict.holds {
            self.held(asked)
        } else {
            Ok(missed(self.orders.is_whole(), verdict.seen))
        }
    }

    /// Returns the question at index `number`, its result, and where it failed or the wanted event
    /// was seen. `line` is a buffer for the text of an answer. `OutOfMemory` if an allocation
    /// fails.
    pub fn judged(&self, line: &mut Line, number: usize) -> Result<Judged<'a>, LabFault>
        requires { number < length self.now.script.now.asked.items }
        ensures held { IfOk result (λ j. (q : AskedLine)
            → slice_get self.now.script.now.asked.items number ≡ Some q
            → holds j.outcome ≡ true → IsHeld self.now.script.now.users self.now.ends
            self.now.orders.now.explorer.watch.answers
            (failed_at self.now.orders.now.explorer.watch.failed.items number) q.asked) }
        ensures missed { IfOk result (λ j. (q : AskedLine)
            → slice_get self.now.script.now.asked.items number ≡ Some q
            → fails j.outcome ≡ true → IsMissed self.now.script.now.users self.now.ends
            self.now.orders.now.explorer.watch.answers
            (failed_at self.now.orders.now.explorer.watch.failed.items number)
            (are_live self.now.places.items)
            (length self.now.orders.now.search.map.entries)
            self.now.orders.now.search.done q.asked) }
    {
        let script: &'a UserScript = self.script;
        let question = &script.asked[number];
        let verdict = self.verdict(line, number, question)?;
        Ok(Judged {
            line: question,
            outcome: self.outcome(&question.asked, verdict)?,
            seen: verdict.seen,
        })
    }
}
