//! Gives contexts to threads that hold none, and sends them home when their threads wait (own).
ghost use Rattle.std.specs.Prelude.{◌≡◌, IfSome};
ghost use Rattle.mcs_types.specs.declared.id.Kind.{Kind};
ghost use Rattle.mcs_types.specs.declared.record.Rec.{Rec};
ghost use Rattle.mcs_types.specs.Ids.{is_just};
ghost use Rattle.mcs_book.specs.Contexts.{context_of, home_of};
ghost use Rattle.mcs_book.specs.Receiving.{if_at_home, go_home as gone_home, stand as stood};
ghost use Rattle.mcs_book.specs.Sound.{Allowed, IsThere};
ghost use Rattle.mcs_book.specs.Taking.{give_back as given_back};
ghost use Rattle.mcs_state.specs.Now.{so_far};
ghost use Rattle.mcs_state.specs.Doing.{Makes, HasRoomFor};

use crate::state::State;
use mcs_object_queues::Waiting;
use mcs_types::{ObjId, Queue};

/// Gives a context, if there is one, to a thread that holds none.
// inlined, so that the context stays in registers
#[inline(always)]
pub fn give_back<W: Waiting>(state: &mut State<W>, context: Option<ObjId>, thread: ObjId)
    requires context { IfSome context (λ s. IsThere (so_far state.old) Kind.Context s) }
    requires thread { IsThere (so_far state.old) Kind.Thread thread }
    requires room { HasRoomFor (given_back context thread) state.old }
    ensures { Makes (given_back context thread) state.old state.new }
{
    state.is_sound();
    match context {
        None => {}
        Some(context) => match state.context(thread) {
            Some(_) => {}
            None => state.holds(context, Some(thread)),
        },
    }
}

/// Returns whether a context is homed at a notification.
fn is_homed_at<W: Waiting>(state: &State<W>, context: ObjId, notification: ObjId) -> bool
    ensures { result ≡ is_just (home_of (so_far state.now) context) notification }
{
    match state.home_of(context) {
        None => false,
        Some(home) => home.is_same(notification),
    }
}

/// Returns the context that a thread holds, if it is homed at this notification and its chain is
/// empty.
fn context_at_home<W: Waiting>(
    state: &State<W>,
    thread: ObjId,
    notification: Option<ObjId>,
) -> Option<ObjId>
    ensures { result
        ≡ if_at_home (so_far state.now) notification (context_of (so_far state.now) thread) }
{
    let notification = notification?;
    let context = state.context(thread)?;
    if is_homed_at(state, context, notification) && state.is_unlent(context) {
        Some(context)
    } else {
        None
    }
}

/// Takes the context from a thread, if it is homed at the notification by which the thread may
/// wake, and its chain is empty.
fn go_home<W: Waiting>(state: &mut State<W>, thread: ObjId, notification: Option<ObjId>)
    requires room { HasRoomFor (gone_home thread notification) state.old }
    ensures { Makes (gone_home thread notification) state.old state.new }
{
    match context_at_home(state, thread, notification) {
        None => {}
        Some(context) => state.holds(context, None),
    }
}

/// Queues a thread with a reply object. Its context goes home if it is homed at the notification by
/// which the thread may wake.
// inlined: callers know the kind of the queue
#[inline(always)]
pub fn stand<W: Waiting>(
    state: &mut State<W>,
    thread: ObjId,
    queue: Queue,
    reply: Option<ObjId>,
    notification: Option<ObjId>,
)
    requires allowed { Allowed (so_far state.old) (Rec.Joins thread queue reply) }
    requires room { HasRoomFor (stood thread queue reply notification) state.old }
    ensures { Makes (stood thread queue reply notification) state.old state.new }
{
    state.joins(thread, queue, reply);
    go_home(state, thread, notification);
}
