//! Recv, NBRecv, Wait, NBWait and ReplyRecv.
ghost use Rattle.std.specs.Prelude.{◌≡◌, true, IfSome};
ghost use Rattle.mcs_types.specs.declared.entry.Entry.{Entry};
ghost use Rattle.mcs_types.specs.declared.id.Kind.{Kind};
ghost use Rattle.mcs_book.specs.Pieces.{with_any};
ghost use Rattle.mcs_book.specs.Receiving.{free as freed, receive_message};
ghost use Rattle.mcs_book.specs.Sound.{IsThere};
ghost use Rattle.mcs_state.specs.Now.{so_far};
ghost use Rattle.mcs_state.specs.Doing.{Makes, HasRoomFor, Acts, FitsAct, Does, Fits};
ghost use Rattle.mcs_state.specs.Entering.{IsEntering, OpenStand};
ghost use Rattle.mcs_ipc.specs.Ready.{IsReceiving, IsReceivingFrom, IsReady};
ghost use Rattle.mcs_ipc.specs.Rows.{receive_entry, stand_act, take_act, receive_act, source_act};

use crate::checks::{Source, source_to_receive, source_to_reply};
use crate::replies::pay;
use crate::transfer::{Delivery, take};
use mcs_cancel::cancel;
use mcs_notify::take_bound;
use mcs_object_queues::Waiting;
use mcs_state::{State, wake};
use mcs_types::{Answer, Copies, CoreId, Mode, ObjId, Queue};

/// Cancels the thread that uses a reply object, whether it is owed a reply or queued with the
/// object as a receiver: it becomes Inactive (own).
fn free<W: Waiting>(state: &mut State<W>, reply: ObjId)
    requires there { IsThere (so_far state.old) Kind.Reply reply }
    requires room { HasRoomFor (freed reply) state.old }
    ensures { Makes (freed reply) state.old state.new }
{
    state.is_sound();
    match state.user_of(reply) {
        None => {}
        Some(user) => cancel(state, user, Mode::Inactive),
    }
}

/// Frees a reply object as `free` does, if one is given.
fn free_any<W: Waiting>(state: &mut State<W>, reply: Option<ObjId>)
    requires there { IfSome reply (λ r. IsThere (so_far state.old) Kind.Reply r) }
    requires room { HasRoomFor (with_any reply freed) state.old }
    ensures { Makes (with_any reply freed) state.old state.new }
{
    match reply {
        None => {}
        Some(reply) => free(state, reply),
    }
}

/// Queues the thread among the receivers. Its context goes home, if that is the notification bound
/// to the thread (own).
// inlined, so that registers and the reply object do not go through memory
#[inline(always)]
fn stand<W: Waiting>(
    state: &mut State<W>,
    thread: ObjId,
    endpoint: ObjId,
    reply: Option<ObjId>,
    blocks: bool,
    answer: &mut Answer,
)
    requires ready { IsReady (so_far state.old) thread endpoint reply }
    requires room { FitsAct (stand_act (so_far state.old) blocks thread endpoint reply) state.old }
    ensures { Acts (stand_act (so_far state.old) blocks thread endpoint reply) state.old answer.new
        state.new }
{
    if blocks {
        let notification = state.bound_of(thread);
        mcs_state::stand(
            state,
            thread,
            Queue::Receivers(endpoint),
            reply,
            notification,
        );
        *answer = Answer::Waits;
    } else {
        *answer = Answer::Empty;
    }
}

/// Takes the message of the first sender. If no thread sends, the thread waits if it blocks.
fn take_first<W: Waiting>(
    state: &mut State<W>,
    thread: ObjId,
    endpoint: ObjId,
    reply: Option<ObjId>,
    blocks: bool,
    answer: &mut Answer,
)
    requires ready { IsReady (so_far state.old) thread endpoint reply }
    requires room { FitsAct (take_act blocks thread endpoint reply) state.old }
    ensures { Acts (take_act blocks thread endpoint reply) state.old answer.new state.new }
{
    match state.first(Queue::Senders(endpoint)) {
        None => stand(state, thread, endpoint, reply, blocks, answer),
        Some(sender) => match state.letter(sender) {
            None => stand(state, thread, endpoint, reply, blocks, answer),
            Some(letter) => {
                let badge = letter.badge;
                let delivery = Delivery {
                    number: letter.number,
                    sender,
                    endpoint,
                    mode: letter.mode,
                };
                let message = take(state, delivery, thread, reply);
                *answer = Answer::Got { badge, message };
            }
        },
    }
}

/// Hears the pending word of the thread's notification, or else takes the message of the first
/// sender. If there is neither, the thread waits if it blocks (manual: Notifications; Message
/// Passing).
fn hear_or_take<W: Waiting>(
    state: &mut State<W>,
    thread: ObjId,
    endpoint: ObjId,
    reply: Option<ObjId>,
    blocks: bool,
    answer: &mut Answer,
)
    requires ready { IsReady (so_far state.old) thread endpoint reply }
    requires room { FitsAct (receive_message thread endpoint reply blocks) state.old }
    ensures { Acts (receive_message thread endpoint reply blocks) state.old answer.new
        state.new }
{
    state.is_sound();
    match take_bound(state, thread) {
        Some(word) => *answer = Answer::Heard { word },
        None => take_first(state, thread, endpoint, reply, blocks, answer),
    }
}

/// Frees the reply object, and receives: a pending word comes before a message. If there is
/// neither, the thread waits if it blocks.
fn receive_on<W: Waiting>(
    state: &mut State<W>,
    thread: ObjId,
    endpoint: ObjId,
    reply: Option<ObjId>,
    blocks: bool,
    answer: &mut Answer,
)
    requires receiving { IsReceiving (so_far state.old) thread endpoint reply }
    requires room { FitsAct (receive_act blocks thread endpoint reply) state.old }
    ensures { Acts (receive_act blocks thread endpoint reply) state.old answer.new state.new }
{
    state.is_sound();
    free_any(state, reply);
    hear_or_take(state, thread, endpoint, reply, blocks, answer)
}

/// Receives on an endpoint, or waits on a notification.
// inlined, so that the answer is moved once less
#[inline(always)]
pub fn receive_from<W: Waiting>(
    state: &mut State<W>,
    thread: ObjId,
    source: Source,
    blocks: bool,
    answer: &mut Answer,
)
    requires receiving { IsReceivingFrom (so_far state.old) thread source }
    requires room { FitsAct (source_act blocks thread source) state.old }
    ensures { Acts (source_act blocks thread source) state.old answer.new state.new }
{
    match source {
        Source::Endpoint(at) => receive_on(state, thread, at.endpoint, at.reply, blocks, answer),
        Source::Notification(notification) => {
            mcs_notify::wait(state, thread, notification, blocks, answer)
        }
    }
}

/// Performs Recv and Wait if it blocks, and NBRecv and NBWait if not; Recv and NBRecv name a reply
/// object. Over an endpoint the reply object's present user is cancelled; then the pending word of
/// the thread's notification is heard, or else the message of the first sender is taken. If there
/// is neither, the thread waits among the receivers, with the reply object, if it blocks, and
/// otherwise the answer is Empty; the reply object's user is cancelled all the same (own). Over a
/// notification its pending word is heard, or else the thread waits on it, or is answered Empty;
/// the reply object is not looked up. The refusals are 1 to 3 of the lookups, 4 for a capability of
/// another kind, 5 if Read is missing, and 9 if the notification is bound to another thread; they
/// change nothing (manual: Message Passing; Notifications).
pub fn receive<W: Waiting>(
    state: &mut State<W>,
    core: CoreId,
    thread: ObjId,
    address: u64,
    reply: Option<u64>,
    blocks: bool,
    answer: &mut Answer,
)
    requires entering { IsEntering (so_far state.old) thread }
    requires stand { OpenStand (so_far state.old) }
    requires room { Fits state.old core thread (receive_entry blocks address reply) }
    ensures { Does state.old core thread (receive_entry blocks address reply) answer.new state.new }
{
    state.is_sound();
    match source_to_receive(state, thread, address, reply) {
        Err(refusal) => *answer = Answer::Refused(refusal),
        Ok(source) => {
            wake(state, thread);
            receive_from(state, thread, source, blocks, answer)
        }
    }
}

/// Performs ReplyRecv: replies over the reply object, and then receives with it, as by Recv, or
/// waits on a notification. All checks come first, that of the reply object also for a
/// notification: the refusals are those of Recv, and change nothing (manual: Message Passing;
/// Notifications).
pub fn reply_receive<W: Waiting>(
    state: &mut State<W>,
    core: CoreId,
    thread: ObjId,
    address: u64,
    reply: u64,
    message: Copies<'_>,
    answer: &mut Answer,
)
    requires entering { IsEntering (so_far state.old) thread }
    requires stand { OpenStand (so_far state.old) }
    requires room { Fits state.old core thread (Entry.ReplyRecv address reply message) }
    ensures { Does state.old core thread (Entry.ReplyRecv address reply message.entry) answer.new
        state.new }
{
    state.is_sound();
    match source_to_reply(state, thread, address, reply) {
        Err(refusal) => *answer = Answer::Refused(refusal), // Nobody is paid yet.
        Ok(at) => {
            wake(state, thread);
            pay(state, at.reply, message);
            receive_from(state, thread, at.source, true, answer)
        }
    }
}
