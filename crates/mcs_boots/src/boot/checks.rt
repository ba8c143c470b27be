//! What may be wrong with a line of the boot (own).
ghost use Rattle.std.specs.Prelude.{◌≡◌, ◌≤◌, ◌<◌, ◌^◌, ◌&&◌, nat_le, nat_lt, IsTrue, OnOk, IfErr, is_ok, Err};
ghost use Rattle.mcs_types.specs.declared.id.Kind.{Kind};
ghost use Rattle.mcs_book.specs.Objects.{number_of};
ghost use Rattle.mcs_book.specs.Boots.{is_object, fits_guard, has_no_guard, has_no_rights, fits_kind, fits_cnode, has_numbers, is_context_any, has_objects, has_room, is_free_any, is_free, boot_check};
ghost use Rattle.mcs_state.specs.Now.{so_far};
ghost use Rattle.mcs_boots.specs.Booted.{IsBooting};

use mcs_object_queues::Waiting;
use mcs_slots::SlotId;
use mcs_state::State;
use mcs_types::{BootFault, BootLine, CNODES, Cap, Guard, Kind, OBJECTS, ObjId, RADIX};

/// Returns whether an object of this kind was made.
pub(crate) fn exists_as<W: Waiting>(state: &State<W>, kind: Kind, object: ObjId) -> bool
    ensures { result ≡ is_object (so_far state.now) kind object }
{
    object.kind.is_same(kind) && state.was_made(object)
}

/// Returns whether fewer than `limit` objects of a kind exist.
fn are_fewer<W: Waiting>(state: &State<W>, kind: Kind, limit: u16) -> bool
    requires { IsBooting (so_far state.now) }
    ensures { result ≡ nat_lt (number_of (so_far state.now) kind) limit }
{
    state.made(kind) < limit as u32
}

/// Returns whether a guard's value fits its size.
fn guard_fits(guard: Guard) -> bool
    ensures { result ≡ fits_guard guard }
{
    guard.bits <= 63 && guard.value < 1 << guard.bits
}

/// Returns whether there is no guard.
fn is_unguarded(cap: &Cap) -> bool
    ensures { result ≡ has_no_guard cap.now }
{
    cap.guard.bits == 0 && cap.guard.value == 0
}

/// Returns whether there are no rights and no badge.
fn is_bare(cap: &Cap) -> bool
    ensures { result ≡ has_no_rights cap.now }
{
    cap.rights.bits() == 0 && cap.badge.0 == 0
}

/// Returns whether the rights, badge and guard of a capability are allowed for its kind.
fn kind_fits(cap: Cap) -> bool
    ensures { result ≡ fits_kind cap.obj.kind cap }
{
    match cap.obj.kind {
        Kind::CNode => is_bare(&cap) && guard_fits(cap.guard),
        Kind::Endpoint | Kind::Notification => is_unguarded(&cap),
        Kind::Thread | Kind::Reply | Kind::Context => is_bare(&cap) && is_unguarded(&cap),
    }
}

/// Returns whether an index has at most `bits` bits.
fn has_bits(index: u8, bits: u8) -> bool
    requires { bits ≤ 8 }
    ensures { result ≡ nat_lt index (2 ^ bits) }
{
    let end: u32 = 1 << bits;
    (index as u32) < end
}

/// Returns whether the index is below the number of slots of its CNode, which must exist.
fn index_fits<W: Waiting>(state: &State<W>, cnode: ObjId, index: u8) -> bool
    ensures { result ≡ fits_cnode (so_far state.now) cnode index }
{
    if !exists_as(state, Kind::CNode, cnode) {
        return true;
    }
    has_bits(index, state.radix(cnode))
}

/// Returns whether the numbers of a line are in their ranges.
fn numbers_fit<W: Waiting>(state: &State<W>, line: BootLine) -> bool
    ensures { result ≡ has_numbers state.now.book.boot.cores (so_far state.now) line }
{
    match line {
        BootLine::CNode { radix } => 1 <= radix && radix <= RADIX,
        BootLine::Context { core } => core.0 < state.book().cores(),
        BootLine::Thread { guard, .. } => guard_fits(guard),
        BootLine::Slot { cnode, index, cap } => index_fits(state, cnode, index) && kind_fits(cap),
        BootLine::Endpoint | BootLine::Notification | BootLine::Reply | BootLine::Tie { .. } =>
            true,
    }
}

/// Returns whether a context exists; true if none is named.
fn context_exists<W: Waiting>(state: &State<W>, context: Option<ObjId>) -> bool
    ensures { result ≡ is_context_any (so_far state.now) context }
{
    match context {
        None => true,
        Some(context) => exists_as(state, Kind::Context, context),
    }
}

/// Returns whether the objects that a line names exist.
fn objects_exist<W: Waiting>(state: &State<W>, line: &BootLine) -> bool
    ensures { result ≡ has_objects (so_far state.now) line.now }
{
    match *line {
        BootLine::Thread { root, context, .. } => {
            exists_as(state, Kind::CNode, root) && context_exists(state, context)
        }
        BootLine::Slot { cnode, cap, .. } => {
            exists_as(state, Kind::CNode, cnode) && state.was_made(cap.obj)
        }
        BootLine::Tie {
            thread,
            notification,
        } => {
            exists_as(state, Kind::Thread, thread)
                && exists_as(state, Kind::Notification, notification)
        }
        _ => true,
    }
}

/// Returns whether there is room for the object that a line makes.
fn is_room<W: Waiting>(state: &State<W>, line: &BootLine) -> bool
    requires { IsBooting (so_far state.now) }
    ensures { result ≡ has_room (so_far state.now) line.now }
{
    match *line {
        BootLine::CNode { .. } => are_fewer(state, Kind::CNode, CNODES),
        BootLine::Endpoint => are_fewer(state, Kind::Endpoint, OBJECTS),
        BootLine::Notification => are_fewer(state, Kind::Notification, OBJECTS),
        BootLine::Reply => are_fewer(state, Kind::Reply, OBJECTS),
        BootLine::Context { .. } => are_fewer(state, Kind::Context, OBJECTS),
        BootLine::Thread { .. } => are_fewer(state, Kind::Thread, OBJECTS),
        BootLine::Slot { .. } | BootLine::Tie { .. } => true,
    }
}

/// Returns whether no thread holds a context; true if none is named.
fn context_is_free<W: Waiting>(state: &State<W>, context: Option<ObjId>) -> bool
    ensures { result ≡ is_free_any (so_far state.now) context }
{
    match context {
        None => true,
        Some(context) => state.holder(context).is_none(),
    }
}

/// Returns whether the slot, context, thread or notification that a line needs is still free.
fn place_is_free<W: Waiting>(state: &State<W>, line: &BootLine) -> bool
    ensures { result ≡ is_free (so_far state.now) line.now }
{
    match *line {
        BootLine::Thread { context, .. } => context_is_free(state, context),
        BootLine::Slot { cnode, index, .. } => state.slot(SlotId { cnode, index }).is_none(),
        BootLine::Tie {
            thread,
            notification,
        } => state.bound_of(thread).is_none() && state.tied_to(notification).is_none(),
        _ => true,
    }
}

/// Checks a line of the boot. The first of these is the fault: `Number` if a number is out of its
/// range, `NoObject` if an object that it names was not made, `Limit` if there are too many
/// objects, and `Taken` if a slot is filled, a context is held, or a thread or a notification is
/// bound.
pub(crate) fn check<W: Waiting>(state: &State<W>, line: &BootLine) -> Result<(), BootFault>
    requires { IsBooting (so_far state.now) }
    ensures ok { OnOk result (IsTrue
        (is_ok (boot_check state.now.book.boot.cores (so_far state.now) line.now))) }
    ensures fault { IfErr result (λ f. boot_check state.now.book.boot.cores (so_far state.now)
        line.now ≡ Err f) }
{
    if !numbers_fit(state, *line) {
        return Err(BootFault::Number);
    }
    if !objects_exist(state, line) {
        return Err(BootFault::NoObject);
    }
    if !is_room(state, line) {
        return Err(BootFault::Limit);
    }
    if !place_is_free(state, line) {
        return Err(BootFault::Taken);
    }
    Ok(())
}
