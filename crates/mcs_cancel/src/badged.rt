//! CancelBadged: the senders whose open messages have one badge restart (manual: Capability Spaces;
//! Message Passing).
ghost use Rattle.std.specs.Prelude.{◌≡◌, option_copied};
ghost use Rattle.mcs_types.specs.declared.entry.Entry.{Entry};
ghost use Rattle.mcs_types.specs.declared.id.Kind.{Kind};
ghost use Rattle.mcs_book.specs.Placing.{has_badge};
ghost use Rattle.mcs_book.specs.Sound.{IsThere};
ghost use Rattle.mcs_state.specs.Now.{so_far};
ghost use Rattle.mcs_state.specs.Doing.{Makes, HasRoomFor, Does, Fits, plain_answer};
ghost use Rattle.mcs_state.specs.Entering.{IsEntering};
ghost use Rattle.mcs_state.specs.Nexts.{next_of};
ghost use Rattle.mcs_cancel.specs.Badging.{cancellable, restarts_one, restarts_with, restarts_badged};

use crate::cancellation::cancel;
use mcs_object_queues::Waiting;
use mcs_state::{State, of_kind, wake};
use mcs_types::{ALL_RIGHTS, Badge, Cap, CoreId, Kind, Letter, Mode, ObjId, Queue, Refusal};

/// Returns whether there is a message, and it has this badge.
fn has_badge(letter: Option<&Letter>, badge: Badge) -> bool
    ensures { result ≡ has_badge badge.0 (option_copied letter.entry) }
{
    match letter {
        None => false,
        Some(letter) => letter.badge.0 == badge.0,
    }
}

/// Cancels a sender where its open message has this badge: it restarts. Returns the thread after
/// it.
fn restart_one<W: Waiting>(state: &mut State<W>, sender: ObjId, badge: Badge) -> Option<ObjId>
    requires there { IsThere (so_far state.old) Kind.Thread sender }
    requires room { HasRoomFor (restarts_one badge.0 sender) state.old }
    ensures made { Makes (restarts_one badge.0 sender) state.old state.new }
    ensures next { result ≡ next_of (so_far state.old) sender }
{
    let next = state.next(sender);
    if has_badge(state.letter(sender), badge) {
        cancel(state, sender, Mode::Restart);
    }
    next
}

/// Cancels each sender of an endpoint whose open message has this badge, first to last: it
/// restarts.
fn restart_senders<W: Waiting>(state: &mut State<W>, endpoint: ObjId, badge: Badge)
    requires room { HasRoomFor (restarts_with (so_far state.old) endpoint badge.0) state.old }
    ensures { Makes (restarts_with (so_far state.old) endpoint badge.0) state.old state.new }
{
    state.is_sound();
    let mut at = state.first(Queue::Senders(endpoint));
    while let Some(sender) = at {
        at = restart_one(state, sender, badge);
        state.is_sound();
    }
}

/// Cancels each sender of an endpoint whose open message has the badge of a capability to it; no
/// thread if that is 0.
fn restart_badged<W: Waiting>(state: &mut State<W>, cap: Cap)
    requires room { HasRoomFor (restarts_badged (so_far state.old) cap) state.old }
    ensures { Makes (restarts_badged (so_far state.old) cap) state.old state.new }
{
    if cap.badge.0 != 0 {
        restart_senders(state, cap.obj, cap.badge);
    }
}

/// The capability whose badge an existing thread cancels: one to an endpoint, with all four rights.
fn badged_endpoint<W: Waiting>(
    state: &State<W>,
    thread: ObjId,
    address: u64,
) -> Result<Cap, Refusal>
    requires { IsThere (so_far state.now) Kind.Thread thread }
    ensures { result ≡ cancellable (so_far state.now) thread address }
{
    let cap = of_kind(state.capability(thread, address), Kind::Endpoint)?;
    if cap.rights.bits() & ALL_RIGHTS != ALL_RIGHTS {
        return Err(Refusal::NoRight);
    }
    Ok(cap)
}

/// Performs CancelBadged: each queued sender whose message has the badge of the capability
/// restarts, and its message is dropped; badge 0 cancels no thread. The refusals are 1 to 3 of the
/// lookup, 4 for a capability of another kind, and 5 if one of the four rights is missing; they
/// change nothing (manual: Capability Spaces; Message Passing).
pub fn cancel_badged<W: Waiting>(
    state: &mut State<W>,
    core: CoreId,
    thread: ObjId,
    address: u64,
) -> Result<(), Refusal>
    requires entering { IsEntering (so_far state.old) thread }
    requires room { Fits state.old core thread (Entry.CancelBadged address) }
    ensures { Does state.old core thread (Entry.CancelBadged address)
        (plain_answer result) state.new }
{
    let cap = badged_endpoint(state, thread, address)?;
    wake(state, thread);
    restart_badged(state, cap);
    Ok(())
}
