//! Waits, and pending words of the bound thread.
ghost use Rattle.std.specs.Prelude.{◌≡◌, not};
ghost use Rattle.mcs_types.specs.declared.id.Kind.{Kind};
ghost use Rattle.mcs_book.specs.Notifications.{bound_of, tied_to};
ghost use Rattle.mcs_book.specs.Receiving.{bound_elsewhere, pending_of_any, wait_on};
ghost use Rattle.mcs_book.specs.Sound.{IsThere};
ghost use Rattle.mcs_state.specs.Now.{so_far};
ghost use Rattle.mcs_state.specs.Doing.{Makes, HasRoomFor, Acts, FitsAct};
ghost use Rattle.mcs_state.specs.Entering.{IsActing};
ghost use Rattle.mcs_notify.specs.Waiting.{NoneElseBound, takes_bound};

use mcs_object_queues::Waiting;
use mcs_state::{State, stand};
use mcs_types::{Answer, ObjId, Queue};

/// Returns whether a thread may wait on a notification: only the bound thread may, if one is bound
/// (manual: Notifications; own).
pub fn may_wait<W: Waiting>(state: &State<W>, thread: ObjId, notification: ObjId) -> bool
    ensures { result ≡ not (bound_elsewhere (tied_to (so_far state.now) notification) thread) }
{
    match state.tied_to(notification) {
        None => true,
        Some(bound) => bound.is_same(thread),
    }
}

/// Takes the pending word of a notification. If none is pending, the thread waits if it blocks, and
/// otherwise the answer is Empty. The notification must not be bound to another thread (manual:
/// Notifications). A waiting thread gives up its context if that is homed at the notification
/// (own).
pub fn wait<W: Waiting>(
    state: &mut State<W>,
    thread: ObjId,
    notification: ObjId,
    blocks: bool,
    answer: &mut Answer,
)
    requires acting { IsActing (so_far state.old) thread }
    requires there { IsThere (so_far state.old) Kind.Notification notification }
    requires alone { NoneElseBound (so_far state.old) notification thread }
    requires room { FitsAct (wait_on thread notification blocks) state.old }
    ensures { Acts (wait_on thread notification blocks) state.old answer.new state.new }
{
    match state.pending(notification) {
        Some(word) => {
            state.hears(thread, notification, word);
            *answer = Answer::Heard { word };
        }
        None if blocks => {
            stand(
                state,
                thread,
                Queue::Waiters(notification),
                None,
                Some(notification),
            );
            *answer = Answer::Waits;
        }
        None => *answer = Answer::Empty,
    }
}

/// Takes the pending word of the notification bound to a thread; None if no notification is bound
/// or no word is pending (manual: Notifications).
pub fn take_bound<W: Waiting>(state: &mut State<W>, thread: ObjId) -> Option<u64>
    requires { HasRoomFor (takes_bound thread) state.old }
    ensures word { result ≡ pending_of_any (so_far state.old) (bound_of (so_far state.old) thread) }
    ensures heard { Makes (takes_bound thread) state.old state.new }
{
    state.is_sound();
    let notification = state.bound_of(thread)?;
    let word = state.pending(notification)?;
    state.hears(thread, notification, word);
    Some(word)
}
