//! Entries that make one change, with one record.
ghost use Rattle.std.specs.Prelude.{◌≡◌, ◌<◌, length, ◌+◌};
ghost use Rattle.mcs_types.specs.declared.entry.Answer.TheVariants.{Done};
ghost use Rattle.mcs_book.specs.Sound.{Allowed};
ghost use Rattle.mcs_state.specs.Changing.{record_of, changes};
ghost use Rattle.mcs_state.specs.Doing.{ActsAwake, FitsAwake};
ghost use Rattle.mcs_state.specs.Entering.{IsEntering};
ghost use Rattle.mcs_state.specs.Now.{so_far, adds};

use crate::state::State;
use crate::wakeup::wake;
use mcs_object_queues::Waiting;
use mcs_types::{ObjId, Prio};

/// One change that an entry makes: to the holder of a context, its home, the notification bound to
/// a thread, or a thread's priority.
#[derive(Clone, Copy)]
pub enum Change {
    Holds {
        context: ObjId,
        thread: Option<ObjId>,
    },
    Homes {
        context: ObjId,
        notification: Option<ObjId>,
    },
    Ties {
        thread: ObjId,
        notification: Option<ObjId>,
    },
    Sets {
        thread: ObjId,
        priority: Prio,
    },
}

/// Makes a change.
#[inline(always)]
fn make_change<W: Waiting>(state: &mut State<W>, change: Change)
    requires allowed { Allowed (so_far state.old) (record_of change) }
    requires room { length state.old.hand + 1 < state.old.room }
    ensures { state.new ≡ adds (record_of change) state.old }
{
    match change {
        Change::Holds { context, thread } => state.holds(context, thread),
        Change::Homes {
            context,
            notification,
        } => state.homes(context, notification),
        Change::Ties {
            thread,
            notification,
        } => state.ties(thread, notification),
        Change::Sets { thread, priority } => state.prio(thread, priority),
    }
}

/// Wakes the entering thread, and makes a change, which must be allowed (own).
// inlined: callers know what changes
#[inline(always)]
pub fn change_awake<W: Waiting>(state: &mut State<W>, thread: ObjId, change: Change)
    requires entering { IsEntering (so_far state.old) thread }
    requires allowed { Allowed (so_far state.old) (record_of change) }
    requires room { FitsAwake thread (changes change) state.old }
    ensures { ActsAwake thread (changes change) state.old Done state.new }
{
    wake(state, thread);
    make_change(state, change);
}
