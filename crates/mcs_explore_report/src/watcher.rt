//! What a search collects: ends, answers, and where each question failed first.
ghost use Rattle.std.specs.Prelude.{◌≡◌, [], IfOk, OnOk, None, length, replicate};
ghost use Rattle.mcs_explore_report.specs.Answers.{no_answers};

use crate::answers::Answers;
use crate::ends::Ends;
use crate::judgement::{Sighting, judge};
use crate::live::Lives;
use crate::mail::{brought, note_mail};
use mcs_explore_orders::{OrdersFault, Turn, Users, Walk, Watch};
use mcs_explore_script::{AskedLine, Live};
use mcs_lab_check::LabFault;
use mcs_queues::PlainLines;
use mcs_trace::Line;
use mcs_turns::Position;
use mcs_types::Answer;
use std::alloc::Global;

/// Why a search was stopped before a budget of states or turns ended it.
#[derive(Clone, Copy, PartialEq, Eq, Debug)]
pub enum Stop {
    /// Its time is over.
    Clock,
    /// The memory that is left suffices for the report alone.
    Memory,
    /// It uses as much memory as it may.
    MemoryLimit,
}

/// Receives the progress of a search.
pub trait Progress: Drop {
    /// Receives that one more state was expanded, after `before` others; `depth` turns lead to it.
    fn looked(&mut self, before: usize, depth: usize);

    /// Returns why the search stops now; None if it continues.
    fn stop(&self) -> Option<Stop> {
        None
    }
}

/// Reports no progress.
#[derive(Drop)]
pub struct Quiet;

impl Progress for Quiet {
    fn looked(&mut self, _before: usize, _depth: usize) {}
}

/// What a search collects.
#[derive(Drop)]
pub struct Watched<'a, P: Progress> {
    alloc: Global,
    pub asked: &'a [AskedLine],
    text: Box<Line>,
    pub ends: Ends,
    pub answers: Answers,
    /// For each question, where it failed first in a turn or a state.
    pub failed: Vec<Option<Sighting>>,
    /// What is noted of users that must not get stuck.
    pub lives: Lives<'a>,
    progress: P,
}

/// Returns None, that is, no failure yet, for each of `count` questions.
fn no_failures(alloc: Global, count: usize) -> Result<Vec<Option<Sighting>>, LabFault>
    ensures { IfOk result (λ v. v.items ≡ replicate count None) }
{
    let mut failed = Vec::new(alloc);
    for number in 0..count {
        failed.push(None)?;
    }
    Ok(failed)
}

impl<'a, P: Progress> Watched<'a, P> {
    /// Returns what is collected before the search.
    pub fn new(
        alloc: Global,
        users: &Users,
        asked: &'a [AskedLine],
        lives: &'a [Live],
        progress: P,
    ) -> Result<Watched<'a, P>, LabFault>
        ensures ends { IfOk result (λ w. w.ends ≡ []) }
        ensures answers { IfOk result (λ w. w.answers ≡ no_answers users.now) }
        ensures asked { IfOk result (λ w. w.asked.now ≡ asked.entry.now) }
        ensures failed { IfOk result (λ w. w.failed.items ≡ replicate (length w.asked.now) None) }
        ensures lives { IfOk result (λ w. w.lives.lives ≡ lives.entry.now) }
        ensures notes { IfOk result (λ w. w.lives.notes
            ≡ replicate (length w.lives.lives) (record { settled = []; answered = [] })) }
    {
        Ok(Watched {
            alloc,
            asked,
            text: Box::new(alloc, Line::new())?,
            ends: Ends::new(alloc),
            answers: Answers::new(alloc, users)?,
            failed: no_failures(alloc, asked.len())?,
            lives: Lives::new(alloc, lives)?,
            progress,
        })
    }

    /// Returns why the search was stopped; None if it was not.
    pub fn stop(&self) -> Option<Stop> {
        self.progress.stop()
    }
}

impl<P: Progress> Watch for Watched<'_, P> {
    ghost use Rattle.mcs_explore_report.specs.Kept.{Aims, HasKept};

    ghost HasSeen = { λ w users shown. HasKept users w.asked.now w.lives.lives shown
        w.ends w.answers w.failed.items w.lives.notes };

    // the questions, and the users that must not get stuck
    ghost Aim = { Aims };

    ghost aim = { λ w. record { asked = w.asked.now; lives = w.lives.lives } };

    fn see_state(
        &mut self,
        users: &Users,
        place: usize,
        walk: &Walk<PlainLines>,
        is_over: bool,
    ) -> Result<(), OrdersFault> {
        self.progress.looked(place, walk.kernel().book().lines());
        let seen = Sighting { place, turn: None };
        judge(
            &mut self.text,
            users,
            self.asked,
            seen,
            walk,
            &mut self.failed,
        );
        self.ends.note_state(users, place, walk, is_over)?;
        self.lives.see_state(users, walk)
    }

    fn see_turn(
        &mut self,
        users: &Users,
        place: usize,
        turn: Turn,
        answer: &Answer,
        from: &[Position],
        walk: &Walk<PlainLines>,
    ) -> Result<(), OrdersFault> {
        let seen = Sighting {
            place,
            turn: Some(turn),
        };
        judge(
            &mut self.text,
            users,
            self.asked,
            seen,
            walk,
            &mut self.failed,
        );
        self.answers.note_turn(answer, place, turn)?;
        let reached = brought(self.alloc, walk)?;
        let all = reached.as_slice();
        note_mail(&mut self.answers, users, from, all, place, turn)?;
        self.lives.see_turn(users, place, turn, answer, from, all)
    }

    fn goes_on(&self) -> bool {
        self.progress.stop().is_none()
    }
}
