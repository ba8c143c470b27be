//! The checks before any change.
ghost use Rattle.std.specs.Prelude.{◌≡◌, IfOk};
ghost use Rattle.mcs_types.specs.declared.id.Kind.{Kind};
ghost use Rattle.mcs_book.specs.Sound.{IsThere};
ghost use Rattle.mcs_state.specs.Now.{so_far};
ghost use Rattle.mcs_state.specs.Checks.{object_named};
ghost use Rattle.mcs_cancel.specs.Priorities.{settable_thread};

use mcs_object_queues::Waiting;
use mcs_state::{State, find_object};
use mcs_types::{Kind, ObjId, Prio, Refusal};

/// Returns the thread that an existing thread names by an address.
pub fn find_thread<W: Waiting>(
    state: &State<W>,
    thread: ObjId,
    address: u64,
) -> Result<ObjId, Refusal>
    requires { IsThere (so_far state.now) Kind.Thread thread }
    ensures found { result ≡ object_named (so_far state.now) thread Kind.Thread address }
    ensures there { IfOk result (λ x. IsThere (so_far state.now) Kind.Thread x) }
{
    state.is_sound();
    find_object(state, thread, Kind::Thread, address)
}

/// Returns the thread whose priority is set, if the priority is at most the authority's maximum
/// controlled priority.
pub fn thread_to_set<W: Waiting>(
    state: &State<W>,
    thread: ObjId,
    holder: u64,
    authority: u64,
    priority: Prio,
) -> Result<ObjId, Refusal>
    requires { IsThere (so_far state.now) Kind.Thread thread }
    ensures found { result ≡ settable_thread (so_far state.now) thread holder authority priority }
    ensures there { IfOk result (λ x. IsThere (so_far state.now) Kind.Thread x) }
{
    let holder = find_thread(state, thread, holder)?;
    let authority = find_thread(state, thread, authority)?;
    if priority.0 <= state.maximum(authority).0 {
        Ok(holder)
    } else {
        Err(Refusal::Range)
    }
}
