//! What reaches threads whose entries wait, by a line.
ghost use Rattle.std.specs.Prelude.{◌≡◌, ◌++◌, IfOk, None, OnOk};
ghost use Rattle.mcs_explore_report.specs.Answers.{AreNotedMail, IsNotedMail, comes_to, gave_send, mailed_to, waiting};
ghost use Rattle.mcs_turns.specs.Mail.{brought, got_with, listed, reached_from, reaching, taken};

use crate::answers::Answers;
use mcs_book::Line;
use mcs_explore_orders::{OrdersFault, Turn, Users, Walk};
use mcs_explore_walk::newest;
use mcs_queues::PlainLines;
use mcs_turns::{Pick, Position, Reached};
use mcs_types::{Answer, Badge, Mode, ObjId, Rec};
use mcs_users::is_send_at;
use std::alloc::Global;

/// Returns what a taker would receive of the message last sent in a line, after one more record.
fn got_with(alloc: Global, got: Option<Answer>, fact: &Rec) -> Result<Option<Answer>, OrdersFault>
    ensures { IfOk result (λ o. o ≡ got_with got fact.now) }
{
    match fact {
        Rec::Sent { badge, message, .. } => {
            let message = message.copy(alloc)?;
            Ok(Some(Answer::Got {
                badge: *badge,
                message,
            }))
        }
        _ => Ok(got),
    }
}

/// Returns what reaches a thread that takes this message, if the line sent it.
fn taken(alloc: Global, thread: ObjId, got: &Option<Answer>) -> Result<Option<Reached>, OrdersFault>
    ensures { IfOk result (λ o. o ≡ taken thread got.now) }
{
    match got {
        Some(answer) => {
            let answer = answer.copy(alloc)?;
            Ok(Some(Reached { thread, answer }))
        }
        None => Ok(None),
    }
}

/// Returns what reaches a thread by a record; `got` is what a taker receives of the message last
/// sent in the line.
fn reaching(alloc: Global, got: &Option<Answer>, fact: &Rec) -> Result<Option<Reached>, OrdersFault>
    ensures { IfOk result (λ o. o ≡ reaching got.now fact.now) }
{
    match fact {
        Rec::Took { thread, .. } => taken(alloc, *thread, got),
        Rec::Paid {
            caller,
            message,
            ..
        } => {
            let message = message.copy(alloc)?;
            let answer = Answer::Got {
                badge: Badge(0),
                message,
            };
            Ok(Some(Reached {
                thread: *caller,
                answer,
            }))
        }
        Rec::Heard { thread, word, .. } => Ok(Some(Reached {
            thread: *thread,
            answer: Answer::Heard { word: *word },
        })),
        Rec::Turns {
            thread,
            mode: Mode::Running,
        } => Ok(Some(Reached {
            thread: *thread,
            answer: Answer::Done,
        })),
        _ => Ok(None),
    }
}

/// Adds what reached a thread, if anything.
fn push(all: &mut Vec<Reached>, reached: Option<Reached>) -> Result<(), OrdersFault>
    ensures { OnOk result (all.new.items ≡ all.old.items ++ listed reached) }
{
    if let Some(reached) = reached {
        all.push(reached)?;
    }
    Ok(())
}

/// Returns what reaches threads by a line.
pub fn reached_by(alloc: Global, line: &Line<'_>) -> Result<Vec<Reached>, OrdersFault>
    ensures { IfOk result (λ v. v.items ≡ reached_from None line.now.records) }
{
    let mut all = Vec::new(alloc);
    let mut got = None;
    for i in 0..line.record_count() {
        let Some(fact) = line.record(alloc, i)? else {
            unreachable!();
        };
        got = got_with(alloc, got, &fact)?;
        push(&mut all, reaching(alloc, &got, &fact)?)?;
    }
    Ok(all)
}

/// Returns whether the entry of a user with this number is Send.
fn gave_send(users: &Users, user: usize, number: usize) -> bool
    ensures { result ≡ gave_send users.now user number }
{
    match users.at(user) {
        Some(list) => is_send_at(list, number),
        None => false,
    }
}

/// Returns whether this is the answer of a waiting entry: that its thread runs again answers a Send
/// alone.
fn comes_to(users: &Users, user: usize, number: usize, answer: &Answer) -> bool
    ensures { result ≡ comes_to users.now user number answer.now }
{
    match answer {
        Answer::Done => gave_send(users, user, number),
        _ => true,
    }
}

/// Returns the number of the entry in which a user waited before a turn of another user, by the
/// users' positions then.
fn waiting(from: &[Position], user: usize, turn: Turn) -> Option<usize>
    ensures { result ≡ waiting from.now user turn }
{
    if user == turn.pick.user {
        return None;
    }
    from.get(user)?.waited
}

/// Returns the waiting entry that is answered by what reached its thread at a turn, if any.
pub fn mailed_to(users: &Users, from: &[Position], turn: Turn, reached: &Reached) -> Option<Pick>
    ensures { result ≡ mailed_to users.now from.now turn reached.now }
{
    let user = users.find(reached.thread)?;
    let number = waiting(from, user, turn)?;
    if comes_to(users, user, number, &reached.answer) {
        Some(Pick { user, number })
    } else {
        None
    }
}

/// Notes the answer of a waiting entry whose thread learns it.
fn note_reached(
    answers: &mut Answers,
    users: &Users,
    from: &[Position],
    reached: &Reached,
    place: usize,
    turn: Turn,
) -> Result<(), OrdersFault>
    ensures { OnOk result (IsNotedMail users.now from.now place turn
        reached.now answers.old answers.new) }
{
    match mailed_to(users, from, turn, reached) {
        Some(entry) => answers.note(entry.user, entry.number, &reached.answer, place, turn),
        None => Ok(()),
    }
}

/// Notes the answers of waiting entries, by what the newest line delivered to their threads.
pub fn note_mail(
    answers: &mut Answers,
    users: &Users,
    from: &[Position],
    all: &[Reached],
    place: usize,
    turn: Turn,
) -> Result<(), OrdersFault>
    ensures { OnOk result (AreNotedMail users.now from.now place turn
        all.now answers.old answers.new) }
{
    for reached in all {
        note_reached(answers, users, from, reached, place, turn)?;
    }
    Ok(())
}

/// Returns what the newest line delivered to threads.
#[tactic(auto, using(mcs_explore_walk::proofs::LastLine::brought_by, mcs_explore_walk::proofs::LastLine::brought_nothing))]
pub fn brought(alloc: Global, walk: &Walk<PlainLines>) -> Result<Vec<Reached>, OrdersFault>
    ensures { IfOk result (λ v. v.items ≡ brought walk.now.book) }
{
    match newest(walk.kernel()) {
        Some(line) => reached_by(alloc, &line),
        None => Ok(Vec::new(alloc)),
    }
}
