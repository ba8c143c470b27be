//! Removes a thread from what it is blocked on.
ghost use Rattle.std.specs.Prelude.{◌≡◌, Some, None};
ghost use Rattle.mcs_types.specs.declared.id.Kind.{Kind};
ghost use Rattle.mcs_book.specs.Cancelling.{cancel as cancelled};
ghost use Rattle.mcs_book.specs.Queues.{queue_of};
ghost use Rattle.mcs_book.specs.Sound.{IsThere};
ghost use Rattle.mcs_state.specs.Now.{so_far};
ghost use Rattle.mcs_state.specs.Doing.{Makes, HasRoomFor};
ghost use Rattle.mcs_cancel.specs.Leaving.{drops_from, leaves_queue, reply_awaited, leaves_reply, leaves};

use mcs_object_queues::Waiting;
use mcs_state::State;
use mcs_types::{Ending, Mode, ObjId, Queue, Status};

/// Drops the open message of a thread that leaves this queue, if it is the queue of senders: no
/// thread receives it (own).
fn drop_letter<W: Waiting>(state: &mut State<W>, thread: ObjId, queue: Queue)
    requires room { HasRoomFor (drops_from thread queue) state.old }
    ensures { Makes (drops_from thread queue) state.old state.new }
{
    match queue {
        Queue::Receivers(_) | Queue::Waiters(_) => {}
        Queue::Senders(_) => match state.letter(thread) {
            None => {}
            Some(letter) => {
                let number = letter.number;
                state.drops(number, thread);
            }
        },
    }
}

/// Takes a thread out of its queue. The message of a sender is dropped first.
fn leave_queue<W: Waiting>(state: &mut State<W>, thread: ObjId, queue: Queue)
    requires stands { queue_of (so_far state.old) thread ≡ Some queue }
    requires room { HasRoomFor (leaves_queue thread queue) state.old }
    ensures { Makes (leaves_queue thread queue) state.old state.new }
{
    drop_letter(state, thread, queue);
    state.parts(thread, queue);
}

/// Returns the reply object on which a thread of this status is blocked, if any.
fn reply_awaited(status: Option<Status>) -> Option<ObjId>
    ensures { result ≡ reply_awaited status }
{
    match status {
        Some(Status::OnReply(reply)) => Some(reply),
        _ => None,
    }
}

/// Voids what a reply object owes a thread, if one does.
fn leave_reply<W: Waiting>(state: &mut State<W>, thread: ObjId)
    requires there { IsThere (so_far state.old) Kind.Thread thread }
    requires stands { queue_of (so_far state.old) thread ≡ None }
    requires room { HasRoomFor (leaves_reply thread) state.old }
    ensures { Makes (leaves_reply thread) state.old state.new }
{
    match reply_awaited(state.status(thread)) {
        None => {}
        Some(reply) => {
            // The context whose chain it topped stays with its holder.
            let _topped = state.voids(reply, thread, Ending::Cancelled);
        }
    }
}

/// Takes a thread off what it is blocked on.
fn leave<W: Waiting>(state: &mut State<W>, thread: ObjId)
    requires there { IsThere (so_far state.old) Kind.Thread thread }
    requires room { HasRoomFor (leaves thread) state.old }
    ensures { Makes (leaves thread) state.old state.new }
{
    match state.queue(thread) {
        None => leave_reply(state, thread),
        Some(queue) => leave_queue(state, thread, queue),
    }
}

/// Cancels what a thread is blocked on, and sets its mode: a queued sender's message is dropped,
/// the thread leaves its queue, and the reply object that owes it a reply owes none any more, and
/// leaves its chain with all below it (own; manual: Threads and Execution).
pub fn cancel<W: Waiting>(state: &mut State<W>, thread: ObjId, mode: Mode)
    requires there { IsThere (so_far state.old) Kind.Thread thread }
    requires room { HasRoomFor (cancelled thread mode) state.old }
    ensures { Makes (cancelled thread mode) state.old state.new }
{
    state.is_sound();
    leave(state, thread);
    state.turns(thread, mode);
}
