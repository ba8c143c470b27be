//! Suspend and Resume.
ghost use Rattle.std.specs.Prelude.{◌≡◌};
ghost use Rattle.mcs_types.specs.declared.entry.Answer.TheVariants.{Done};
ghost use Rattle.mcs_types.specs.declared.entry.Entry.{Entry};
ghost use Rattle.mcs_types.specs.declared.id.Kind.{Kind};
ghost use Rattle.mcs_book.specs.Pieces.{with_any};
ghost use Rattle.mcs_book.specs.Cancelling.{cancel as cancelled};
ghost use Rattle.mcs_book.specs.Sound.{IsThere};
ghost use Rattle.mcs_state.specs.Now.{so_far};
ghost use Rattle.mcs_state.specs.Doing.{Makes, HasRoomFor, ActsAwake, FitsAwake, Does, Fits, plain_answer};
ghost use Rattle.mcs_state.specs.Entering.{IsEntering};
ghost use Rattle.mcs_cancel.specs.Turning.{sets_mode, mode_resumed};

use crate::cancellation::cancel;
use crate::checks::find_thread;
use mcs_object_queues::Waiting;
use mcs_state::{State, wake};
use mcs_types::{CoreId, Mode, ObjId, Refusal, Status};

/// Cancels what a thread is blocked on, and sets its mode, if a mode is given.
fn cancel_any<W: Waiting>(state: &mut State<W>, thread: ObjId, mode: Option<Mode>)
    requires there { IsThere (so_far state.old) Kind.Thread thread }
    requires room { HasRoomFor (with_any mode (cancelled thread)) state.old }
    ensures { Makes (with_any mode (cancelled thread)) state.old state.new }
{
    match mode {
        None => {}
        Some(mode) => cancel(state, thread, mode),
    }
}

/// Wakes the entering thread, and sets the mode of the thread that it names, if a mode is given.
fn set_mode<W: Waiting>(state: &mut State<W>, thread: ObjId, named: ObjId, mode: Option<Mode>)
    requires entering { IsEntering (so_far state.old) thread }
    requires there { IsThere (so_far state.old) Kind.Thread named }
    requires room { FitsAwake thread (sets_mode named mode) state.old }
    ensures { ActsAwake thread (sets_mode named mode) state.old Done state.new }
{
    wake(state, thread);
    cancel_any(state, named, mode);
}

/// Returns the mode that Resume gives a thread of this status: None if it can run already.
fn mode_resumed(status: Option<Status>) -> Option<Mode>
    ensures { result ≡ mode_resumed status }
{
    match status {
        Some(Status::Running | Status::Restart) => None,
        _ => Some(Mode::Restart),
    }
}

/// Performs Suspend: the thread leaves what it is blocked on, and becomes Inactive; it may be the
/// one that enters. The refusals are 1 to 3 of the lookup, and 4 for a capability of another kind;
/// they change nothing (manual: Threads and Execution).
pub fn suspend<W: Waiting>(
    state: &mut State<W>,
    core: CoreId,
    thread: ObjId,
    address: u64,
) -> Result<(), Refusal>
    requires entering { IsEntering (so_far state.old) thread }
    requires room { Fits state.old core thread (Entry.Suspend address) }
    ensures { Does state.old core thread (Entry.Suspend address) (plain_answer result) state.new }
{
    let named = find_thread(state, thread, address)?;
    set_mode(state, thread, named, Some(Mode::Inactive));
    Ok(())
}

/// Performs Resume: a thread that cannot run leaves what it is blocked on, and is in Restart from
/// now on; one that is Running or in Restart stays as it is. The refusals are those of Suspend
/// (manual: Threads and Execution).
pub fn resume<W: Waiting>(
    state: &mut State<W>,
    core: CoreId,
    thread: ObjId,
    address: u64,
) -> Result<(), Refusal>
    requires entering { IsEntering (so_far state.old) thread }
    requires room { Fits state.old core thread (Entry.Resume address) }
    ensures { Does state.old core thread (Entry.Resume address) (plain_answer result) state.new }
{
    let named = find_thread(state, thread, address)?;
    let mode = mode_resumed(state.status(named)); // Before the thread that enters wakes.
    set_mode(state, thread, named, mode);
    Ok(())
}
