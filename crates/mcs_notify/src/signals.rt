//! Signals, and the threads that hear them.
ghost use Rattle.std.specs.Prelude.{◌≡◌, Some};
ghost use Rattle.mcs_types.specs.declared.entry.Entry.{Entry};
ghost use Rattle.mcs_types.specs.declared.id.Kind.{Kind};
ghost use Rattle.mcs_book.specs.Notifications.{pending};
ghost use Rattle.mcs_book.specs.Queues.{queue_of};
ghost use Rattle.mcs_book.specs.Contexts.{homed_at};
ghost use Rattle.mcs_book.specs.Signalling.{signal as signalled, if_spare};
ghost use Rattle.mcs_book.specs.Sound.{IsThere};
ghost use Rattle.mcs_state.specs.Now.{so_far};
ghost use Rattle.mcs_state.specs.Doing.{Makes, HasRoomFor, Does, Fits, plain_answer};
ghost use Rattle.mcs_state.specs.Entering.{IsEntering, OnlyBoundWait};
ghost use Rattle.mcs_notify.specs.Hearing.{bound_receiver, first_waiter, next_hearer, reached, left_by, goes_on, heard_by};
ghost use Rattle.mcs_notify.specs.Rows.{signalable};
ghost use Rattle.mcs_notify.specs.Waiting.{NoneElseBound};

use mcs_object_queues::Waiting;
use mcs_state::{State, give_back, of_kind, wake, with_write};
use mcs_types::{Badge, Cap, CoreId, Kind, Mode, ObjId, Queue, Refusal};

/// A thread that hears a word, and the queue that it is in.
#[derive(Clone, Copy)]
pub struct Hearer {
    pub thread: ObjId,
    pub queue: Queue,
}

/// Returns the thread to which a notification is bound, if it is queued among the receivers of an
/// endpoint.
fn bound_receiver<W: Waiting>(state: &State<W>, notification: ObjId) -> Option<Hearer>
    ensures { result ≡ bound_receiver (so_far state.now) notification }
{
    let thread = state.tied_to(notification)?;
    let queue = state.queue(thread)?;
    match queue {
        Queue::Receivers(_) => Some(Hearer { thread, queue }),
        Queue::Senders(_) | Queue::Waiters(_) => None,
    }
}

/// The first waiter of a notification.
fn first_waiter<W: Waiting>(state: &State<W>, notification: ObjId) -> Option<Hearer>
    ensures { result ≡ first_waiter (so_far state.now) notification }
{
    let queue = Queue::Waiters(notification);
    let thread = state.first(queue)?;
    Some(Hearer { thread, queue })
}

/// Returns the thread that hears the next word of a notification: the bound thread if it receives
/// on an endpoint, else the first waiter.
fn next_hearer<W: Waiting>(state: &State<W>, notification: ObjId) -> Option<Hearer>
    ensures { result ≡ next_hearer (so_far state.now) notification }
{
    match bound_receiver(state, notification) {
        Some(hearer) => Some(hearer),
        None => first_waiter(state, notification),
    }
}

/// Returns the thread that a signal reaches; None if a word is pending.
fn reached<W: Waiting>(state: &State<W>, notification: ObjId) -> Option<Hearer>
    requires { IsThere (so_far state.now) Kind.Notification notification }
    ensures { result ≡ reached (so_far state.now) notification }
{
    match state.pending(notification) {
        Some(_) => None,
        None => next_hearer(state, notification),
    }
}

/// Takes a hearer out of its queue.
fn leave<W: Waiting>(state: &mut State<W>, hearer: &Hearer)
    requires stands { queue_of (so_far state.old) hearer.now.thread ≡ Some hearer.now.queue }
    requires room { HasRoomFor (left_by hearer.now) state.old }
    ensures { Makes (left_by hearer.now) state.old state.new }
{
    state.parts(hearer.thread, hearer.queue);
}

/// Returns the context homed at a notification, if no thread holds it and its chain is empty (own).
fn spare_context<W: Waiting>(state: &State<W>, notification: ObjId) -> Option<ObjId>
    ensures { result ≡ if_spare (so_far state.now) (homed_at (so_far state.now) notification) }
{
    let context = state.homed_at(notification)?;
    if state.holder(context).is_none() && state.is_unlent(context) {
        Some(context)
    } else {
        None
    }
}

/// Gives a hearer the word, takes it out of its queue, and lets it run.
fn go_on<W: Waiting>(state: &mut State<W>, notification: ObjId, word: u64, hearer: &Hearer)
    requires stands { queue_of (so_far state.old) hearer.now.thread ≡ Some hearer.now.queue }
    requires pending { pending (so_far state.old) notification ≡ Some word }
    requires alone { NoneElseBound (so_far state.old) notification hearer.now.thread }
    requires room { HasRoomFor (goes_on notification word hearer.now) state.old }
    ensures { Makes (goes_on notification word hearer.now) state.old state.new }
{
    state.is_sound();
    state.hears(hearer.thread, notification, word);
    leave(state, hearer);
    state.turns(hearer.thread, Mode::Running);
}

/// Gives a hearer the word, takes it out of its queue, and lets it run. It gets the context homed
/// at the notification, if no thread holds that, its chain is empty, and the hearer holds none
/// (own).
fn hear<W: Waiting>(state: &mut State<W>, notification: ObjId, word: u64, hearer: &Hearer)
    requires stands { queue_of (so_far state.old) hearer.now.thread ≡ Some hearer.now.queue }
    requires pending { pending (so_far state.old) notification ≡ Some word }
    requires alone { NoneElseBound (so_far state.old) notification hearer.now.thread }
    requires room { HasRoomFor (heard_by notification word hearer.now) state.old }
    ensures { Makes (heard_by notification word hearer.now) state.old state.new }
{
    state.is_sound();
    let context = spare_context(state, notification);
    go_on(state, notification, word, hearer);
    give_back(state, context, hearer.thread);
}

/// Signals a notification with a badge, whose bits are added to the word. If no word was pending, a
/// thread hears it: the bound thread if it receives on an endpoint, else the first waiter. It
/// leaves its queue and runs (manual: Notifications), with the context homed at the notification if
/// that is free (own).
pub fn signal<W: Waiting>(state: &mut State<W>, notification: ObjId, badge: Badge)
    requires there { IsThere (so_far state.old) Kind.Notification notification }
    requires waiting { OnlyBoundWait (so_far state.old) }
    requires room { HasRoomFor (signalled notification badge) state.old }
    ensures { Makes (signalled notification badge) state.old state.new }
{
    state.is_sound();
    let hearer = reached(state, notification);
    state.raises(notification, badge);
    match hearer {
        None => {}
        Some(hearer) => hear(state, notification, badge.0, &hearer),
    }
}

/// Returns the capability over which a thread signals.
fn cap_to_signal<W: Waiting>(state: &State<W>, thread: ObjId, address: u64) -> Result<Cap, Refusal>
    requires { IsThere (so_far state.now) Kind.Thread thread }
    ensures { result ≡ signalable (so_far state.now) thread address }
{
    with_write(of_kind(state.capability(thread, address), Kind::Notification))
}

/// Performs Signal: the notification is signalled with the badge of the capability. The refusals
/// are 1 to 3 of the lookup, 4 for a capability of another kind, and 5 if Write is missing; they
/// change nothing (manual: Notifications).
pub fn signal_at<W: Waiting>(
    state: &mut State<W>,
    core: CoreId,
    thread: ObjId,
    address: u64,
) -> Result<(), Refusal>
    requires entering { IsEntering (so_far state.old) thread }
    requires waiting { OnlyBoundWait (so_far state.old) }
    requires room { Fits state.old core thread (Entry.Signal address) }
    ensures { Does state.old core thread (Entry.Signal address) (plain_answer result) state.new }
{
    state.is_sound();
    let cap = cap_to_signal(state, thread, address)?;
    wake(state, thread);
    signal(state, cap.obj, cap.badge);
    Ok(())
}
