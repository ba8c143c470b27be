//! A thread in Restart becomes Running with its first entry that is not refused (own).
ghost use Rattle.mcs_book.specs.Threads.{mode_of};
ghost use Rattle.mcs_book.specs.Table.{wakes};
ghost use Rattle.mcs_state.specs.Now.{so_far};
ghost use Rattle.mcs_state.specs.Entering.{IsEntering};
ghost use Rattle.mcs_state.specs.Doing.{Makes, HasRoomFor};

use crate::state::State;
use mcs_object_queues::Waiting;
use mcs_types::{Mode, ObjId};

/// Turns a thread in Restart to Running.
pub fn wake<W: Waiting>(state: &mut State<W>, thread: ObjId)
    requires entering { IsEntering (so_far state.old) thread }
    requires room { HasRoomFor (wakes (mode_of (so_far state.old) thread) thread) state.old }
    ensures { Makes (wakes (mode_of (so_far state.old) thread) thread) state.old state.new }
{
    match state.mode(thread) {
        Mode::Restart => state.turns(thread, Mode::Running),
        Mode::Running | Mode::Inactive => {}
    }
}
