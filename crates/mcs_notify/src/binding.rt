//! BindNtfn and UnbindNtfn.
ghost use Rattle.std.specs.Prelude.{◌≡◌};
ghost use Rattle.mcs_types.specs.declared.entry.Entry.{Entry};
ghost use Rattle.mcs_types.specs.declared.id.Kind.{Kind};
ghost use Rattle.mcs_book.specs.Sound.{IsThere};
ghost use Rattle.mcs_state.specs.Now.{so_far};
ghost use Rattle.mcs_state.specs.Doing.{Does, Fits, plain_answer};
ghost use Rattle.mcs_state.specs.Entering.{IsEntering};
ghost use Rattle.mcs_notify.specs.Tying.{bindable, unbindable};

use mcs_object_queues::Waiting;
use mcs_state::{Change, State, change_awake, find_object, of_kind, with_read};
use mcs_types::{CoreId, Kind, ObjId, Queue, Refusal};

/// Returns the binding to make, if the thread has no notification, the notification is bound to no
/// thread, and no thread waits on it.
fn tie_to_make<W: Waiting>(
    state: &State<W>,
    thread: ObjId,
    holder: u64,
    notification: u64,
) -> Result<Change, Refusal>
    requires { IsThere (so_far state.now) Kind.Thread thread }
    ensures { result ≡ bindable (so_far state.now) thread holder notification }
{
    let holder = find_object(state, thread, Kind::Thread, holder)?;
    let cap = with_read(of_kind(state.capability(thread, notification), Kind::Notification))?;
    if state.bound_of(holder).is_some()
        || state.tied_to(cap.obj).is_some()
        || state.first(Queue::Waiters(cap.obj)).is_some()
    {
        return Err(Refusal::AlreadyBound);
    }
    Ok(Change::Ties {
        thread: holder,
        notification: Some(cap.obj),
    })
}

/// Returns the binding to end, if the thread has a notification.
fn tie_to_end<W: Waiting>(state: &State<W>, thread: ObjId, holder: u64) -> Result<Change, Refusal>
    requires { IsThere (so_far state.now) Kind.Thread thread }
    ensures { result ≡ unbindable (so_far state.now) thread holder }
{
    let holder = find_object(state, thread, Kind::Thread, holder)?;
    if state.bound_of(holder).is_none() {
        return Err(Refusal::NotBound);
    }
    Ok(Change::Ties {
        thread: holder,
        notification: None,
    })
}

/// Performs BindNtfn: the notification is bound to the thread. The refusals are 1 to 3 of the
/// lookups, the thread's first, 4 for a capability of another kind, 5 if the notification's lacks
/// Read, and 9 if the thread has a notification, the notification is bound, or a thread waits on it
/// (own); they change nothing (manual: Notifications).
pub fn bind<W: Waiting>(
    state: &mut State<W>,
    core: CoreId,
    thread: ObjId,
    holder: u64,
    notification: u64,
) -> Result<(), Refusal>
    requires entering { IsEntering (so_far state.old) thread }
    requires room { Fits state.old core thread (Entry.BindNtfn holder notification) }
    ensures { Does state.old core thread (Entry.BindNtfn holder notification)
        (plain_answer result) state.new }
{
    state.is_sound();
    let change = tie_to_make(state, thread, holder, notification)?;
    change_awake(state, thread, change);
    Ok(())
}

/// Performs UnbindNtfn: the thread's notification is unbound. The refusals are 1 to 3 of the
/// lookup, 4 for a capability of another kind, and 10 where none is bound; they change nothing
/// (manual: Notifications).
pub fn unbind<W: Waiting>(
    state: &mut State<W>,
    core: CoreId,
    thread: ObjId,
    holder: u64,
) -> Result<(), Refusal>
    requires entering { IsEntering (so_far state.old) thread }
    requires room { Fits state.old core thread (Entry.UnbindNtfn holder) }
    ensures { Does state.old core thread (Entry.UnbindNtfn holder) (plain_answer result) state.new }
{
    let change = tie_to_end(state, thread, holder)?;
    change_awake(state, thread, change);
    Ok(())
}
