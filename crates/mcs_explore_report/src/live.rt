//! Whether entries of users can be answered yet: a user that cannot continue is stuck, even if
//! others continue for ever (own).
ghost use Rattle.std.specs.Prelude.{true, ◌≡◌, ◌++◌, ◌∷◌, [], IfOk, IfNone, IfSome, OnOk, Some, ◌≤◌, cond, length, not, position, replicate, slice_get};
ghost use Rattle.std.specs.List.{list_any};
ghost use Rattle.mcs_explore_search.specs.Reaching.{AreWithin};
ghost use Rattle.mcs_explore_report.specs.Stuck.{AreNotedOn, IsFirstUnled, answers, comes_again, first_marks, is_about, is_mailed, is_settled, is_waits, settled_by, with_made, with_mark, with_marks, with_sight};

use crate::judgement::answered;
use crate::mail::mailed_to;
use mcs_explore_orders::{Orders, OrdersFault, Turn, UserList, Users, Walk, Watch};
use mcs_explore_script::Live;
use mcs_explore_search::mark_all_led;
use mcs_lab_check::LabFault;
use mcs_queues::PlainLines;
use mcs_turns::{Pick, Position, Reached};
use mcs_types::Answer;
use std::alloc::Global;
use std::marker::Model;

/// What a search notes of a `live` question: whether it was settled in each state, and from which
/// states a turn answered it.
#[derive(Drop)]
pub struct Notes {
    settled: Vec<bool>,
    answered: Vec<usize>,
}

impl Model for Notes {
    ghost use Rattle.mcs_explore_report.specs.Stuck.{Noted};

    ghost Value = { Noted };

    ghost view = { λ n. record {
      settled = n.settled.items;
      answered = n.answered.items;
    } };
}

/// Returns whether a user comes to an entry again after its answer.
fn comes_again(list: &UserList, entry: usize) -> bool
    ensures { result ≡ comes_again list.now.again entry }
{
    match list.again {
        Some(first) => first <= entry,
        None => false,
    }
}

/// Returns whether a user with `count` final answers is done with the entry asked about; for an
/// entry of a program that is not known.
fn settled_by(list: &UserList, entry: Option<usize>, count: usize) -> bool
    ensures { result ≡ settled_by list.now entry count }
{
    match entry {
        Some(entry) => !list.has_program() && entry < count && !comes_again(list, entry),
        None => list.entries.len() <= count,
    }
}

/// Returns whether the user of a question is done with it; true if the user does not exist.
fn is_settled(users: &Users, live: Live, walk: &Walk<PlainLines>) -> bool
    ensures { result ≡ is_settled users.now live walk.now }
{
    match users.at(live.user) {
        Some(list) => settled_by(list, live.entry, answered(users, walk, live.user)),
        None => true,
    }
}

/// Returns whether a question is about the picked entry.
fn is_about(live: Live, pick: Pick) -> bool
    ensures { result ≡ is_about live pick }
{
    let is_entry = match live.entry {
        Some(entry) => pick.number == entry,
        None => true,
    };
    pick.user == live.user && is_entry
}

/// Returns whether what reached a thread answers the waiting entry that the question is about.
fn is_mailed(users: &Users, from: &[Position], turn: Turn, live: Live, reached: &Reached) -> bool
    ensures { result ≡ is_mailed users.now from.now turn live reached.now }
{
    match mailed_to(users, from, turn, reached) {
        Some(pick) => is_about(live, pick),
        None => false,
    }
}

/// Returns whether an answer is Waits.
fn is_waits(answer: &Answer) -> bool
    ensures { result ≡ is_waits answer.now }
{
    matches!(answer, Answer::Waits)
}

/// Returns whether anything that reached a thread at a turn answers the entry that the question is
/// about.
fn any_is_mailed(users: &Users, from: &[Position], turn: Turn, live: Live, all: &[Reached]) -> bool
    ensures { result ≡ list_any (is_mailed users.now from.now turn live) all.now }
{
    all.iter()
        .any(|reached| is_mailed(users, from, turn, live, reached))
}

/// Adds a mark to the end.
fn push_mark(marks: &mut Vec<bool>, mark: bool) -> Result<(), OrdersFault>
    ensures { OnOk result (marks.new.items ≡ marks.old.items ++ mark ∷ []) }
{
    marks.push(mark)?;
    Ok(())
}

/// Adds a place at the end, if the flag asks for it.
fn push_place(places: &mut Vec<usize>, place: usize, wanted: bool) -> Result<(), OrdersFault>
    ensures { OnOk result (places.new.items ≡ places.old.items ++ cond wanted (place ∷ []) []) }
{
    if wanted {
        places.push(place)?;
    }
    Ok(())
}

impl Notes {
    /// Returns notes of no state.
    fn new(alloc: Global) -> Notes
        ensures { result ≡ record { settled = []; answered = [] } }
    {
        Notes {
            settled: Vec::new(alloc),
            answered: Vec::new(alloc),
        }
    }

    /// Notes a state. `OutOfMemory` if an allocation fails.
    fn note_state(
        &mut self,
        users: &Users,
        walk: &Walk<PlainLines>,
        live: Live,
    ) -> Result<(), OrdersFault>
        ensures { OnOk result (self.new ≡ with_sight users.now walk.now live self.old) }
    {
        let mark = is_settled(users, live, walk);
        push_mark(&mut self.settled, mark)
    }

    /// Notes a turn from the state at an index, if it answers the entry asked about. `OutOfMemory`
    /// if an allocation fails.
    fn note_turn(&mut self, place: usize, is_answer: bool) -> Result<(), OrdersFault>
        ensures { OnOk result (self.new ≡ record self.old {
          answered = self.old.answered ++ cond is_answer (place ∷ []) [];
        }) }
    {
        push_place(&mut self.answered, place, is_answer)
    }
}

/// Returns whether a turn from these positions answers an entry asked about: the entry that it
/// gives, or a waiting one, by what the turn delivers to its thread.
fn answers(
    users: &Users,
    live: Live,
    turn: Turn,
    answer: &Answer,
    from: &[Position],
    all: &[Reached],
) -> bool
    ensures { result ≡ answers users.now live turn answer.now from.now all.now }
{
    let is_own = is_about(live, turn.pick) && !is_waits(answer);
    is_own || any_is_mailed(users, from, turn, live, all)
}

/// Returns empty notes for `count` questions.
fn no_notes(alloc: Global, count: usize) -> Result<Vec<Notes>, LabFault>
    ensures { IfOk result (λ v. v.items
        ≡ replicate count (record { settled = []; answered = [] })) }
{
    let mut notes = Vec::new(alloc);
    for number in 0..count {
        notes.push(Notes::new(alloc))?;
    }
    Ok(notes)
}

/// Notes a state for each question.
fn note_states(
    notes: &mut Vec<Notes>,
    lives: &[Live],
    users: &Users,
    walk: &Walk<PlainLines>,
) -> Result<(), OrdersFault>
    ensures { OnOk result (AreNotedOn (with_sight users.now walk.now)
        lives.now notes.old.items notes.new.items) }
{
    for number in 0..notes.len() {
        if let Some(live) = lives.get(number) {
            notes[number].note_state(users, walk, *live)?;
        }
    }
    Ok(())
}

/// A turn from the state at an index: its answer, the users' positions before it, and what it
/// delivered to threads.
#[derive(Clone, Copy)]
struct MadeTurn<'a> {
    place: usize,
    turn: Turn,
    answer: &'a Answer,
    from: &'a [Position],
    all: &'a [Reached],
}

/// Notes a turn for each question.
fn note_turns(
    notes: &mut Vec<Notes>,
    lives: &[Live],
    users: &Users,
    made: MadeTurn<'_>,
) -> Result<(), OrdersFault>
    ensures { OnOk result (AreNotedOn (with_made users.now made.entry.place made.entry.turn
        made.entry.answer.now made.entry.from.now made.entry.all.now)
        lives.now notes.old.items notes.new.items) }
{
    for number in 0..notes.len() {
        if let Some(live) = lives.get(number) {
            let is_answer = answers(users, *live, made.turn, made.answer, made.from, made.all);
            notes[number].note_turn(made.place, is_answer)?;
        }
    }
    Ok(())
}

/// The `live` questions, and what a search notes of each.
#[derive(Drop)]
pub struct Lives<'a> {
    lives: &'a [Live],
    notes: Vec<Notes>,
}

impl<'a> Model for Lives<'a> {
    ghost use Rattle.mcs_explore_report.specs.Stuck.{Asking};

    ghost Value = { Asking };

    ghost view = { λ l. record { lives = l.lives.now; notes = l.notes.items } };
}

impl<'a> Lives<'a> {
    /// Returns questions with empty notes.
    pub fn new(alloc: Global, lives: &'a [Live]) -> Result<Lives<'a>, LabFault>
        ensures lives { IfOk result (λ l. l.lives ≡ lives.entry.now) }
        ensures notes { IfOk result (λ l. l.notes
            ≡ replicate (length l.lives) (record { settled = []; answered = [] })) }
    {
        Ok(Lives {
            lives,
            notes: no_notes(alloc, lives.len())?,
        })
    }

    /// Returns the notes of the question with this number.
    pub fn notes(&self, number: usize) -> Option<&Notes>
        ensures some { IfSome result (λ n. slice_get self.now.notes number ≡ Some n.now) }
        ensures none { IfNone result (length self.now.notes ≤ number) }
    {
        self.notes.get(number)
    }

    /// Notes a state for each question. `OutOfMemory` if an allocation fails.
    pub fn see_state(&mut self, users: &Users, walk: &Walk<PlainLines>) -> Result<(), OrdersFault>
        ensures lives { self.new.lives ≡ self.old.lives }
        ensures notes { OnOk result (AreNotedOn (with_sight users.now walk.now)
            self.old.lives self.old.notes self.new.notes) }
    {
        note_states(&mut self.notes, self.lives, users, walk)
    }

    /// Notes for each question a turn from the state at an index, and what it delivered to threads.
    /// `OutOfMemory` if an allocation fails.
    pub fn see_turn(
        &mut self,
        users: &Users,
        place: usize,
        turn: Turn,
        answer: &Answer,
        from: &[Position],
        all: &[Reached],
    ) -> Result<(), OrdersFault>
        ensures lives { self.new.lives ≡ self.old.lives }
        ensures notes { OnOk result (AreNotedOn
            (with_made users.now place turn answer.now from.now all.now)
            self.old.lives self.old.notes self.new.notes) }
    {
        let made = MadeTurn {
            place,
            turn,
            answer,
            from,
            all,
        };
        note_turns(&mut self.notes, self.lives, users, made)
    }
}

/// Marks the state at an index, if there is one.
fn mark_place(marks: &mut Vec<bool>, place: usize)
    ensures { marks.new.items ≡ with_mark place marks.old.items }
{
    if place < marks.len() {
        marks[place] = true;
    }
}

/// Marks the states at these indices.
fn mark_places(marks: &mut Vec<bool>, places: &[usize])
    ensures { marks.new.items ≡ with_marks places.now marks.old.items }
{
    for place in places {
        mark_place(marks, *place);
    }
}

/// Appends `count` marks.
fn push_marks(marks: &mut Vec<bool>, count: usize) -> Result<(), LabFault>
    ensures { OnOk result (marks.new.items ≡ marks.old.items ++ replicate count true) }
{
    for number in 0..count {
        marks.push(true)?;
    }
    Ok(())
}

/// Returns a mark for each of `states` states: set where the question is settled, where a turn
/// answers it, and where nothing is known yet.
fn marks_of(alloc: Global, states: usize, notes: &Notes) -> Result<Vec<bool>, LabFault>
    ensures { IfOk result (λ v. v.items ≡ first_marks states notes.now) }
{
    let known = notes.settled.len().min(states);
    let mut marks = Vec::with_capacity(alloc, states)?;
    marks.extend_from_slice(&notes.settled[..known])?;
    push_marks(&mut marks, states - known)?;
    mark_places(&mut marks, &notes.answered);
    Ok(marks)
}

/// Returns the index of the first state that is not marked.
fn first_unmarked(marks: &[bool]) -> Option<usize>
    ensures { result ≡ position not marks.now }
{
    marks.iter().position(|mark| !*mark)
}

/// Returns the index of the first state from which no path leads to one where the question is
/// settled or a turn answers it; None if there is none. `OutOfMemory` if an allocation fails.
pub fn stuck_at<W: Watch>(
    alloc: Global,
    orders: &Orders<'_, W>,
    notes: &Notes,
) -> Result<Option<usize>, LabFault>
    requires { AreWithin orders.now.search.edges.items (length orders.now.search.map.entries) }
    ensures { IfOk result (λ o. IsFirstUnled orders.now.search.edges.items
        (first_marks (length orders.now.search.map.entries) notes.now) o) }
{
    let mut marks = marks_of(alloc, orders.states(), notes)?;
    mark_all_led(orders.edges(), &mut marks);
    Ok(first_unmarked(&marks))
}
