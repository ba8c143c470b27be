//! Destroys an object that no slot names any more (own; manual: Capability Spaces, deletion).
ghost use Rattle.std.specs.Prelude.{◌≡◌, None, IsTrue};
ghost use Rattle.mcs_types.specs.declared.id.Kind.{Kind};
ghost use Rattle.mcs_types.specs.declared.record.Queue.{Queue};
ghost use Rattle.mcs_book.specs.Cancelling.{destroy as destroyed, unbind as unbound, void_deleted as voided};
ghost use Rattle.mcs_book.specs.Contexts.{holder_of, home_of};
ghost use Rattle.mcs_book.specs.Notifications.{bound_of};
ghost use Rattle.mcs_book.specs.Objects.{is_alive};
ghost use Rattle.mcs_book.specs.Sound.{IsThere, IsEmptyLine, HoldsNone, IsUnbound, IsNoHome, IsUnattended, IsReleased};
ghost use Rattle.mcs_state.specs.Now.{so_far};
ghost use Rattle.mcs_state.specs.Doing.{Makes, HasRoomFor};
ghost use Rattle.mcs_cancel.specs.Emptying.{restarts_all, KeepsOthers};
ghost use Rattle.mcs_cancel.specs.Releasing.{IsNoCNode, IsUnnamed, releases, unties, lets_go, frees, clears, unhomes, unholds, dismisses};

use crate::cancellation::cancel;
use mcs_object_queues::Waiting;
use mcs_state::{State, give_back};
use mcs_types::{Ending, Kind, Mode, ObjId, Queue};

/// Cancels each thread of a queue, first to last, so that it restarts. The queue is empty
/// afterwards.
fn restart_all<W: Waiting>(state: &mut State<W>, queue: Queue)
    requires room { HasRoomFor (restarts_all (so_far state.old) queue) state.old }
    ensures made { Makes (restarts_all (so_far state.old) queue) state.old state.new }
    ensures empty { IsEmptyLine (so_far state.new) queue }
    ensures others { KeepsOthers queue (so_far state.old) (so_far state.new) }
{
    state.is_sound();
    while let Some(thread) = state.first(queue) {
        cancel(state, thread, Mode::Restart);
        state.is_sound();
    }
}

/// Restarts the senders of an endpoint, and then its receivers.
fn release_endpoint<W: Waiting>(state: &mut State<W>, endpoint: ObjId)
    requires room { HasRoomFor (releases endpoint Kind.Endpoint) state.old }
    ensures made { Makes (releases endpoint Kind.Endpoint) state.old state.new }
    ensures released { IsReleased (so_far state.new) Kind.Endpoint endpoint }
{
    restart_all(state, Queue::Senders(endpoint));
    restart_all(state, Queue::Receivers(endpoint));
    state.is_sound();
}

/// Unbinds the thread bound to a notification, if any.
fn free<W: Waiting>(state: &mut State<W>, notification: ObjId)
    requires room { HasRoomFor (frees notification) state.old }
    ensures made { Makes (frees notification) state.old state.new }
    ensures unbound { IsUnbound (so_far state.new) notification }
{
    state.is_sound();
    match state.tied_to(notification) {
        None => {}
        Some(thread) => state.ties(thread, None),
    }
}

/// Unhomes the context of a notification, if one is homed there.
fn clear<W: Waiting>(state: &mut State<W>, notification: ObjId)
    requires room { HasRoomFor (clears notification) state.old }
    ensures made { Makes (clears notification) state.old state.new }
    ensures homeless { IsNoHome (so_far state.new) notification }
{
    state.is_sound();
    match state.homed_at(notification) {
        None => {}
        Some(context) => state.homes(context, None),
    }
}

/// Restarts the waiters of a notification, unbinds its thread, and unhomes its context.
fn release_notification<W: Waiting>(state: &mut State<W>, notification: ObjId)
    requires room { HasRoomFor (releases notification Kind.Notification) state.old }
    ensures made { Makes (releases notification Kind.Notification) state.old state.new }
    ensures released { IsReleased (so_far state.new) Kind.Notification notification }
{
    restart_all(state, Queue::Waiters(notification));
    free(state, notification);
    clear(state, notification);
}

/// Unbinds the notification of a thread, if it has one.
fn untie<W: Waiting>(state: &mut State<W>, thread: ObjId)
    requires room { HasRoomFor (unties thread) state.old }
    ensures made { Makes (unties thread) state.old state.new }
    ensures unbound { bound_of (so_far state.new) thread ≡ None }
{
    match state.bound_of(thread) {
        None => {}
        Some(_) => state.ties(thread, None),
    }
}

/// Takes the context from a thread, if it holds one.
fn let_go<W: Waiting>(state: &mut State<W>, thread: ObjId)
    requires room { HasRoomFor (lets_go thread) state.old }
    ensures made { Makes (lets_go thread) state.old state.new }
    ensures none { HoldsNone (so_far state.new) thread }
{
    state.is_sound();
    match state.context(thread) {
        None => {}
        Some(context) => state.holds(context, None),
    }
}

/// Makes a thread Inactive, unbinds its notification, and takes its context.
fn release_thread<W: Waiting>(state: &mut State<W>, thread: ObjId)
    requires there { IsThere (so_far state.old) Kind.Thread thread }
    requires room { HasRoomFor (releases thread Kind.Thread) state.old }
    ensures made { Makes (releases thread Kind.Thread) state.old state.new }
    ensures released { IsReleased (so_far state.new) Kind.Thread thread }
{
    state.is_sound();
    cancel(state, thread, Mode::Inactive);
    untie(state, thread);
    let_go(state, thread);
}

/// Takes the thread that receives with a reply object, if any, out of its queue, and makes it
/// Inactive.
fn dismiss<W: Waiting>(state: &mut State<W>, reply: ObjId)
    requires room { HasRoomFor (dismisses reply) state.old }
    ensures made { Makes (dismisses reply) state.old state.new }
    ensures unattended { IsUnattended (so_far state.new) reply }
{
    state.is_sound();
    match state.receiver_with(reply) {
        None => {}
        Some(receiver) => cancel(state, receiver, Mode::Inactive),
    }
}

/// Voids the debt of a reply object, if it has one: the caller becomes Inactive. If the reply
/// object topped the chain of a context, that returns to the caller.
fn void_deleted<W: Waiting>(state: &mut State<W>, reply: ObjId)
    requires room { HasRoomFor (voided reply) state.old }
    ensures { Makes (voided reply) state.old state.new }
{
    state.is_sound();
    match state.owed(reply) {
        None => {}
        Some(caller) => {
            let lent = state.voids(reply, caller, Ending::Deleted);
            state.turns(caller, Mode::Inactive);
            give_back(state, lent, caller);
        }
    }
}

/// Dismisses the receiver queued with a reply object, and voids the debt.
fn release_reply<W: Waiting>(state: &mut State<W>, reply: ObjId)
    requires room { HasRoomFor (releases reply Kind.Reply) state.old }
    ensures made { Makes (releases reply Kind.Reply) state.old state.new }
    ensures released { IsReleased (so_far state.new) Kind.Reply reply }
{
    dismiss(state, reply);
    void_deleted(state, reply);
}

/// Unhomes a context.
fn unhome<W: Waiting>(state: &mut State<W>, context: ObjId)
    requires room { HasRoomFor (unhomes context) state.old }
    ensures made { Makes (unhomes context) state.old state.new }
    ensures homeless { home_of (so_far state.new) context ≡ None }
{
    match state.home_of(context) {
        None => {}
        Some(_) => state.homes(context, None),
    }
}

/// Takes a context from its holder, if one holds it.
fn unhold<W: Waiting>(state: &mut State<W>, context: ObjId)
    requires room { HasRoomFor (unholds context) state.old }
    ensures made { Makes (unholds context) state.old state.new }
    ensures unheld { holder_of (so_far state.new) context ≡ None }
{
    match state.holder(context) {
        None => {}
        Some(_) => state.holds(context, None),
    }
}

/// Unhomes a context, and takes it from its holder (own).
pub fn unbind<W: Waiting>(state: &mut State<W>, context: ObjId)
    requires room { HasRoomFor (unbound context) state.old }
    ensures made { Makes (unbound context) state.old state.new }
    ensures released { IsReleased (so_far state.new) Kind.Context context }
{
    unhome(state, context);
    unhold(state, context);
}

/// Unhomes a context, and takes it from its holder.
fn release_context<W: Waiting>(state: &mut State<W>, context: ObjId)
    requires room { HasRoomFor (releases context Kind.Context) state.old }
    ensures made { Makes (releases context Kind.Context) state.old state.new }
    ensures released { IsReleased (so_far state.new) Kind.Context context }
{
    unbind(state, context);
}

/// Frees an existing object from all that uses it.
fn release_object<W: Waiting>(state: &mut State<W>, object: ObjId)
    requires there { IsTrue (is_alive (so_far state.old) object) }
    requires kind { IsNoCNode object }
    requires room { HasRoomFor (releases object object.kind) state.old }
    ensures made { Makes (releases object object.kind) state.old state.new }
    ensures released { IsReleased (so_far state.new) object.kind object }
{
    match object.kind {
        Kind::CNode => unreachable!(),
        Kind::Thread => release_thread(state, object),
        Kind::Endpoint => release_endpoint(state, object),
        Kind::Notification => release_notification(state, object),
        Kind::Reply => release_reply(state, object),
        Kind::Context => release_context(state, object),
    }
}

/// Destroys an object that no slot names any more: threads blocked on it are cancelled, what holds
/// it is released, and it is closed (own; manual: Capability Spaces, deletion).
pub fn destroy<W: Waiting>(state: &mut State<W>, object: ObjId)
    requires there { IsTrue (is_alive (so_far state.old) object) }
    requires kind { IsNoCNode object }
    requires unnamed { IsUnnamed (so_far state.old) object }
    requires room { HasRoomFor (destroyed object) state.old }
    ensures { Makes (destroyed object) state.old state.new }
{
    release_object(state, object);
    state.closes(object);
}
