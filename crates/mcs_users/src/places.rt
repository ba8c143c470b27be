//! The positions of users: a list goes from entry to entry, a program follows the result of its
//! last entry.
ghost use Rattle.std.specs.Prelude.{◌≡◌, ◌<◌, length, slice_get};
ghost use Rattle.mcs_turns.specs.Programs.{goes_on};
ghost use Rattle.mcs_turns.specs.Turns.{position_after, comes_of, gone_on, is_send_at, listed_after, started, answered, waiting_after};

use crate::lists::UserList;
use mcs_turns::{AnswerRef, Position, Saved, Settled, goes_on, starts};
use mcs_types::Answer;

/// Returns the position at which a program continues, or that of the list if there is no program.
fn gone_on(settled: Option<Settled>, user: &UserList, place: Position) -> Position
    ensures { result ≡ gone_on settled user.now place }
{
    let Some(settled) = settled else {
        return place;
    };
    let next = match settled.number {
        Some(number) => number,
        None => user.entries.len(),
    };
    Position {
        next,
        waited: None,
        saved: settled.saved,
    }
}

/// The position of a user before the first turn.
pub fn first_place(user: &UserList) -> Position
    ensures { result ≡ started user.now }
{
    gone_on(starts(user.ops.as_slice()), user, Position::start())
}

/// Returns the position in a list after an entry that was accepted with this answer.
fn listed_after(user: &UserList, number: usize, saved: Saved, answer: &Answer) -> Position
    requires { number < length user.now.entries }
    ensures { result ≡ listed_after user.now number saved answer.now }
{
    let count = user.entries.len();
    let mut place = Position::past(number, answer);
    place.saved = saved;
    if let Some(first) = user.again
        && place.next >= count
    {
        place.next = first;
    }
    place
}

/// Returns the position of a program after this result of an entry.
fn next_of(user: &UserList, number: usize, answer: &AnswerRef<'_>, place: Position) -> Position
    ensures { result ≡ gone_on (goes_on user.now.ops number place.saved answer.now) user.now place }
{
    let settled = goes_on(user.ops.as_slice(), number, place.saved, answer);
    gone_on(settled, user, place)
}

/// Returns the position of a user whose entry waits; which entry its program gives next is not
/// known yet.
fn waiting_after(user: &UserList, number: usize, saved: Saved) -> Position
    requires { number < length user.now.entries }
    ensures { result ≡ waiting_after user.now.ops user.now number saved }
{
    let place = listed_after(user, number, saved, &Answer::Waits);
    if user.ops.is_empty() {
        return place;
    }
    Position {
        next: user.entries.len() + 1,
        waited: place.waited,
        saved,
    }
}

/// Returns the position of a user after an entry that was accepted with this answer. A program
/// continues with it at once, or, if the entry waits, with what later reaches the thread.
pub fn place_after(user: &UserList, number: usize, saved: Saved, answer: &Answer) -> Position
    requires { number < length user.now.entries }
    ensures { result ≡ position_after user.now number saved answer.now }
{
    match answer {
        Answer::Waits => waiting_after(user, number, saved),
        _ => {
            let place = listed_after(user, number, saved, answer);
            next_of(user, number, &AnswerRef::of(answer), place)
        }
    }
}

/// Returns whether the entry of a user with this number is Send.
pub fn is_send_at(user: &UserList, number: usize) -> bool
    ensures { result ≡ is_send_at user.now number }
{
    match user.at(number) {
        Some(entry) => entry.is_send(),
        None => false,
    }
}

/// Returns whether this is the answer of a waiting entry: that its thread runs again answers a Send
/// alone.
#[tactic(auto, using(crate::proofs::Coming::comes_done, crate::proofs::Coming::comes_other))]
fn comes_of(user: &UserList, number: usize, answer: &AnswerRef<'_>) -> bool
    ensures { result ≡ comes_of user.now number answer.now }
{
    if answer.is_done() {
        is_send_at(user, number)
    } else {
        true
    }
}

/// Returns the position of a user after this reached its thread: a waiting program continues with
/// it.
pub fn place_answered(user: &UserList, answer: &AnswerRef<'_>, place: Position) -> Position
    ensures { result ≡ answered user.now answer.now place }
{
    let Some(number) = place.waited else {
        return place;
    };
    if comes_of(user, number, answer) {
        next_of(user, number, answer, place)
    } else {
        place
    }
}
