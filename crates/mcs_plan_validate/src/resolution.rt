//! Checks that names lead to what they mean.
ghost use Rattle.std.specs.Prelude.{◌≡◌, ◌↔◌, ◌<◌, IsTrue, true, IfNone, All, Ok, Some, length};
ghost use Rattle.mcs_book.specs.History.{log_of};
ghost use Rattle.mcs_state.specs.Questions.{named_for};
ghost use Rattle.mcs_plan_validate.specs.Leading.{IsNamed, Leads, AllLead, thread_at};

use mcs_kernel::Kernel;
use mcs_plan_layout::Named;
use mcs_queues::Lines;
use mcs_types::{Cap, Kind, ObjId};

/// Returns whether two capabilities are the same.
fn is_same_cap(one: &Cap, other: &Cap) -> bool
    ensures { IsTrue result ↔ (one.now ≡ other.now) }
{
    *one == *other
}

/// Returns whether two slots hold the same.
fn is_held(held: Option<Cap>, wanted: &Option<Cap>) -> bool
    ensures { result ≡ true → held ≡ wanted.now }
{
    match (held, wanted) {
        (None, None) => true,
        (Some(held), Some(wanted)) => is_same_cap(&held, wanted),
        _ => false,
    }
}

/// Returns whether an address names a capability. True proves it; false claims nothing.
fn names<L: Lines>(kernel: &Kernel<L>, thread: ObjId, address: u64, cap: &Cap) -> bool
    ensures { result ≡ true → named_for (log_of kernel.now) thread address ≡ Some (Ok cap.now) }
{
    match kernel.named(thread, address) {
        Some(Ok(found)) => is_same_cap(&found, cap),
        _ => false,
    }
}

/// Returns whether an address names what a slot holds, unless the slot is empty; a name without an
/// address has to be one of a CNode. True proves it; false claims nothing.
fn is_named<L: Lines>(
    kernel: &Kernel<L>,
    thread: ObjId,
    address: Option<u64>,
    cap: &Option<Cap>,
) -> bool
    ensures { result ≡ true → IsNamed (log_of kernel.now) thread address cap.now }
{
    match (address, cap) {
        (Some(_), None) => true,
        (Some(address), Some(cap)) => names(kernel, thread, address, cap),
        (None, None) => false,
        (None, Some(cap)) => cap.obj.kind.is_same(Kind::CNode),
    }
}

/// Returns whether a name of a thread leads to what it means: its place names a slot that holds
/// this, and so does its address. True proves it; false claims nothing.
fn leads<L: Lines>(kernel: &Kernel<L>, thread: ObjId, named: &Named) -> bool
    ensures { result ≡ true → Leads (log_of kernel.now) thread named.now }
{
    let Some(Ok(at)) = kernel.placed(thread, named.place) else {
        return false;
    };
    if is_held(kernel.capability(at.cnode, at.index), &named.cap) {
        return is_named(kernel, thread, named.address, &named.cap);
    }
    false
}

/// Returns the first name of a thread that does not lead to what its slot holds.
fn first_astray<'a, L: Lines>(
    kernel: &Kernel<L>,
    thread: ObjId,
    table: &'a Vec<Named>,
) -> Option<&'a Named>
    ensures { IfNone result (All (Leads (log_of kernel.now) thread) table.entry.now.items) }
{
    for named in table {
        if !leads(kernel, thread, named) {
            return Some(named);
        }
    }
    None
}

/// The thread at this place.
fn thread_at(place: usize) -> ObjId
    requires { place < 1000 }
    ensures { result ≡ thread_at place }
{
    ObjId {
        kind: Kind::Thread,
        serial: place as u32 + 1,
    }
}

/// The first name that does not lead to what its slot holds.
pub fn first_unresolved<'a, L: Lines>(
    kernel: &Kernel<L>,
    tables: &'a Vec<Vec<Named>>,
) -> Option<&'a Named>
    requires { length tables.now.items < 1000 }
    ensures { IfNone result (AllLead (log_of kernel.now) tables.entry.now.items) }
{
    for place in 0..tables.len() {
        if let Some(named) = first_astray(kernel, thread_at(place), &tables[place]) {
            return Some(named);
        }
    }
    None
}
