//! The checks before any change.
ghost use Rattle.std.specs.Prelude.{◌≡◌};
ghost use Rattle.mcs_types.specs.declared.id.Kind.{Kind};
ghost use Rattle.mcs_book.specs.Sound.{IsThere};
ghost use Rattle.mcs_state.specs.Now.{so_far};
ghost use Rattle.mcs_state.specs.Checks.{kinded, writable, readable, object_named};

use crate::state::State;
use mcs_object_queues::Waiting;
use mcs_types::{Cap, Kind, ObjId, Refusal};

/// Returns a found capability if it is to an object of this kind; else WrongKind.
pub fn of_kind(found: Result<Cap, Refusal>, kind: Kind) -> Result<Cap, Refusal>
    ensures { result ≡ kinded kind found }
{
    let cap = found?;
    if !cap.obj.kind.is_same(kind) {
        return Err(Refusal::WrongKind);
    }
    Ok(cap)
}

/// Returns the capability if it has Write, else NoRight.
pub fn with_write(found: Result<Cap, Refusal>) -> Result<Cap, Refusal>
    ensures { result ≡ writable found }
{
    let cap = found?;
    if !cap.rights.can_write() {
        return Err(Refusal::NoRight);
    }
    Ok(cap)
}

/// Returns the capability if it has Read, else NoRight.
pub fn with_read(found: Result<Cap, Refusal>) -> Result<Cap, Refusal>
    ensures { result ≡ readable found }
{
    let cap = found?;
    if !cap.rights.can_read() {
        return Err(Refusal::NoRight);
    }
    Ok(cap)
}

/// Returns the object of a kind that an existing thread names by an address.
// inlined, so that the answer stays in registers
#[inline(always)]
pub fn object_at<W: Waiting>(
    state: &State<W>,
    thread: ObjId,
    kind: Kind,
    address: u64,
) -> Result<ObjId, Refusal>
    requires { IsThere (so_far state.now) Kind.Thread thread }
    ensures { result ≡ object_named (so_far state.now) thread kind address }
{
    let cap = of_kind(state.capability(thread, address), kind)?;
    Ok(cap.obj)
}

/// Returns what `object_at` does, in a function that is not inlined.
pub fn find_object<W: Waiting>(
    state: &State<W>,
    thread: ObjId,
    kind: Kind,
    address: u64,
) -> Result<ObjId, Refusal>
    requires { IsThere (so_far state.now) Kind.Thread thread }
    ensures { result ≡ object_named (so_far state.now) thread kind address }
{
    object_at(state, thread, kind, address)
}
