//! SetPriority.
ghost use Rattle.std.specs.Prelude.{◌≡◌};
ghost use Rattle.mcs_types.specs.declared.entry.Entry.TheVariants.{SetPriority};
ghost use Rattle.mcs_state.specs.Now.{so_far};
ghost use Rattle.mcs_state.specs.Doing.{Does, Fits, plain_answer};
ghost use Rattle.mcs_state.specs.Entering.{IsEntering};

use crate::checks::thread_to_set;
use mcs_object_queues::Waiting;
use mcs_state::{Change, State, change_awake};
use mcs_types::{CoreId, ObjId, Prio, Refusal};

/// Performs SetPriority: the thread gets this priority; a thread in a queue is queued anew (own).
/// The refusals are 1 to 3 of the lookups, the thread's first, 4 for a capability of another kind,
/// and 6 if the priority is above the maximum controlled priority of the authority; they change
/// nothing (manual: Threads and Execution).
pub fn set_priority<W: Waiting>(
    state: &mut State<W>,
    core: CoreId,
    thread: ObjId,
    holder: u64,
    authority: u64,
    priority: Prio,
) -> Result<(), Refusal>
    requires entering { IsEntering (so_far state.old) thread }
    requires room { Fits state.old core thread (SetPriority holder authority priority) }
    ensures { Does state.old core thread (SetPriority holder authority priority)
        (plain_answer result) state.new }
{
    let holder = thread_to_set(state, thread, holder, authority, priority)?;
    let change = Change::Sets {
        thread: holder,
        priority,
    };
    change_awake(state, thread, change);
    Ok(())
}
