//! What a line delivers to threads whose entries wait, and where their users continue.
ghost use Rattle.std.specs.Prelude.{◌≡◌, ◌<◌, IfSome, None, length, slice_get};
ghost use Rattle.mcs_types.specs.declared.entry.Answer.TheVariants as answer;
ghost use Rattle.mcs_packing.specs.Packing.{IsMessageAt, content_at};
ghost use Rattle.mcs_book.specs.History.{line_of_number};
ghost use Rattle.mcs_turns.specs.Mail.{got_with, reached_from, reaching, taken};
ghost use Rattle.mcs_turns.specs.Turns.{all_answered, place_answered, answered_all, answered_if};
ghost use Rattle.mcs_explore_walk.specs.Mail.{answered_by};

use mcs_book::Line;
use mcs_kernel::Kernel;
use mcs_packing::{KeptRecord, Packed, thread_id};
use mcs_queues::Lines;
use mcs_turns::{AnswerRef, Position};
use mcs_types::{Badge, Mode, ObjId, Rec};
use mcs_users::{UserList, place_answered};
use std::marker::Model;

/// What reaches a thread, borrowed from the book. Clauses see it as `Reached`.
#[derive(Drop)]
pub struct Reaches<'a> {
    pub thread: ObjId,
    pub answer: AnswerRef<'a>,
}

impl<'a> Model for Reaches<'a> {
    ghost use Rattle.mcs_turns.specs.declared.reached.Reached.{Reached};

    ghost Value = { Reached };

    ghost view = { λ r. record { thread = r.thread; answer = r.answer } };
}

/// Returns the words of a message at a position.
fn words_at(words: &[u64], at: u32, len: u8) -> &[u64]
    requires { IsMessageAt words.now at len }
    ensures { result.now ≡ (content_at words.now at len).words }
{
    let start = at as usize + 1;
    &words[start..start + len as usize]
}

/// Returns that the message at a position was received.
fn got_at<'a>(badge: Badge, words: &'a [u64], at: u32, len: u8) -> AnswerRef<'a>
    requires { IsMessageAt words.now at len }
    ensures { result ≡ answer.Got badge (content_at words.entry.now at len) }
{
    AnswerRef::got(badge, words[at as usize], words_at(words, at, len))
}

/// Returns what a receiver would get of the message last sent in a line, after one more record.
fn got_with<'a>(got: Option<AnswerRef<'a>>, fact: &KeptRecord<'a>) -> Option<AnswerRef<'a>>
    ensures { result ≡ got_with got.entry fact.now }
{
    match fact.packed {
        Packed::Sent { len, at, .. } => {
            let badge = Badge(fact.words[*at as usize + 1 + *len as usize]);
            Some(got_at(badge, fact.words, *at, *len))
        }
        Packed::Wide { at } => match &fact.wide[*at as usize] {
            Rec::Sent { badge, message, .. } => {
                Some(AnswerRef::got(*badge, message.label(), message.words()))
            }
            _ => got,
        },
        _ => got,
    }
}

/// Returns what reaches a thread that takes this message, if the line sent it.
fn taken<'a>(thread: ObjId, got: &Option<AnswerRef<'a>>) -> Option<Reaches<'a>>
    ensures { result ≡ taken thread got.now }
{
    match got {
        Some(answer) => Some(Reaches {
            thread,
            answer: answer.again(),
        }),
        None => None,
    }
}

/// Returns what reaches a thread by a record that is kept unpacked.
fn reaching_whole<'a>(got: &Option<AnswerRef<'a>>, fact: &'a Rec) -> Option<Reaches<'a>>
    ensures { result ≡ reaching got.now fact.entry.now }
{
    match fact {
        Rec::Took { thread, .. } => taken(*thread, got),
        Rec::Paid {
            caller,
            message,
            ..
        } => Some(Reaches {
            thread: *caller,
            answer: AnswerRef::got(Badge(0), message.label(), message.words()),
        }),
        Rec::Heard { thread, word, .. } => Some(Reaches {
            thread: *thread,
            answer: AnswerRef::heard(*word),
        }),
        Rec::Turns {
            thread,
            mode: Mode::Running,
        } => Some(Reaches {
            thread: *thread,
            answer: AnswerRef::done(),
        }),
        _ => None,
    }
}

/// Returns what reaches a thread by a record; `got` is what a taker receives of the message last
/// sent in the line.
fn reaching<'a>(got: &Option<AnswerRef<'a>>, fact: &KeptRecord<'a>) -> Option<Reaches<'a>>
    ensures { result ≡ reaching got.now fact.now }
{
    match fact.packed {
        Packed::Took { thread, .. } => taken(thread_id(*thread), got),
        Packed::Paid {
            len,
            caller,
            at,
            ..
        } => Some(Reaches {
            thread: thread_id(*caller),
            answer: got_at(Badge(0), fact.words, *at, *len),
        }),
        Packed::Heard { thread, at, .. } => Some(Reaches {
            thread: thread_id(*thread),
            answer: AnswerRef::heard(fact.words[*at as usize]),
        }),
        Packed::Turns {
            mode: Mode::Running,
            thread,
        } => Some(Reaches {
            thread: thread_id(*thread),
            answer: AnswerRef::done(),
        }),
        Packed::Wide { at } => reaching_whole(got, &fact.wide[*at as usize]),
        _ => None,
    }
}

/// Returns the position of a user after this reached a thread, its own or another.
fn answered_by(user: &UserList, reached: Option<Reaches<'_>>, place: Position) -> Position
    ensures { result ≡ answered_by user.now reached.entry place }
{
    let Some(reached) = reached else {
        return place;
    };
    if user.thread.is_same(reached.thread) {
        place_answered(user, &reached.answer, place)
    } else {
        place
    }
}

/// Returns the position of a user after a line of another user.
#[tactic(auto, using(crate::proofs::Telling::answered_nothing))]
fn answered_in(user: &UserList, line: &Line<'_>, place: Position) -> Position
    ensures { result ≡ answered_all (reached_from None line.now.records) user.now place }
{
    if !user.has_program() {
        return place;
    }
    let mut got = None;
    let mut now = place;
    for i in 0..line.record_count() {
        let Some(fact) = line.kept_record(i) else {
            unreachable!();
        };
        got = got_with(got, &fact);
        now = answered_by(user, reaching(&got, &fact), now);
    }
    now
}

/// Returns the position of the user at index `place` after a line of user `own`.
fn answered_at(
    line: &Line<'_>,
    own: usize,
    users: &[UserList],
    place: usize,
    now: Position,
) -> Position
    ensures { result ≡ place_answered (reached_from None line.now.records) own users.now place now }
{
    if place == own {
        return now;
    }
    match users.get(place) {
        Some(user) => answered_in(user, line, now),
        None => now,
    }
}

/// Advances all users but the one that entered past a line.
pub fn tell_all(line: &Line<'_>, own: usize, users: &[UserList], places: &mut Vec<Position>)
    ensures { places.new.items
        ≡ all_answered (reached_from None line.now.records) own 0 users.now places.old.items }
{
    for place in 0..places.len() {
        let now = places[place];
        places[place] = answered_at(line, own, users, place, now);
    }
}

/// The newest line of a kernel's book.
pub fn newest<L: Lines>(kernel: &Kernel<L>) -> Option<Line<'_>>
    ensures { result ≡ line_of_number kernel.now (length kernel.now.lines) }
{
    let book = kernel.book();
    book.line(book.lines().saturating_sub(1))
}
