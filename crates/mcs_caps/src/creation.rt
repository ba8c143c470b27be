//! MakeEndpoint, MakeNotification, MakeReply and MakeContext.
ghost use Rattle.std.specs.Prelude.{◌≡◌, ◌<◌, ◌+◌, true, IfOk, length};
ghost use Rattle.mcs_types.specs.declared.entry.Answer.TheVariants.{Done};
ghost use Rattle.mcs_types.specs.declared.id.Kind.{Kind};
ghost use Rattle.mcs_book.specs.Objects.{next_id};
ghost use Rattle.mcs_book.specs.Sound.{IsFormOf};
ghost use Rattle.mcs_cspace.specs.Spaces.{named_by};
ghost use Rattle.mcs_state.specs.Doing.{Makes, HasRoomFor, ActsAwake, FitsAwake, Does, Fits, plain_answer};
ghost use Rattle.mcs_state.specs.Entering.{IsEntering};
ghost use Rattle.mcs_state.specs.Making.{HasRoom, MayMake, makes_next, has_limit};
ghost use Rattle.mcs_state.specs.Now.{so_far};
ghost use Rattle.mcs_caps.specs.NewObjects.{HasSerials, entry_making, new_form, new_cap, vacant, makes_at, makes};
ghost use Rattle.mcs_caps.specs.Placed.{IsSlot};

use mcs_object_queues::Waiting;
use mcs_slots::SlotId;
use mcs_state::{State, wake};
use mcs_types::{ALL_RIGHTS, Badge, Cap, CoreId, Guard, Kind, ObjId, Place, Refusal, Rights};

/// Returns the first capability to a new object: with all rights if its kind carries rights.
fn new_cap(object: ObjId) -> Cap
    ensures { result ≡ new_cap object }
{
    let bits = match object.kind {
        Kind::Endpoint | Kind::Notification => ALL_RIGHTS,
        _ => 0,
    };
    match Rights::new(bits) {
        None => unreachable!(),
        Some(rights) => Cap {
            obj: object,
            rights,
            badge: Badge(0),
            guard: Guard { bits: 0, value: 0 },
        },
    }
}

/// Returns the slot that a thread names, if it is empty and there is room for one more object of a
/// kind.
fn find_vacant<W: Waiting>(
    state: &State<W>,
    thread: ObjId,
    kind: Kind,
    place: Place,
) -> Result<SlotId, Refusal>
    requires kind { has_limit kind ≡ true }
    requires entering { IsEntering (so_far state.now) thread }
    ensures found { named_by result ≡ vacant (so_far state.now) thread kind place }
    ensures slot { IfOk result (IsSlot (so_far state.now)) }
{
    state.is_sound();
    let at = state.slot_named(thread, place)?;
    if state.slot(at).is_some() {
        return Err(Refusal::SlotFull);
    }
    if !state.has_room(kind) {
        return Err(Refusal::NoRoom);
    }
    Ok(at.by_fields())
}

/// Makes an object of a kind; a context belongs to this core.
fn add<W: Waiting>(state: &mut State<W>, kind: Kind, core: CoreId)
    requires kind { has_limit kind ≡ true }
    requires allowed { MayMake (so_far state.old) kind (new_form kind core) }
    requires few { HasRoom (so_far state.old) kind }
    requires room { length state.old.hand + 1 < state.old.room }
    ensures { state.new ≡ makes_next kind (new_form kind core) state.old }
{
    match kind {
        Kind::Endpoint | Kind::Notification | Kind::Reply => state.makes(kind),
        Kind::Context => state.makes_context(core),
        Kind::CNode | Kind::Thread => unreachable!(),
    }
}

/// Makes an object of a kind, and puts a capability to it into an empty slot.
fn make_at<W: Waiting>(state: &mut State<W>, core: CoreId, kind: Kind, at: SlotId)
    requires kind { has_limit kind ≡ true }
    requires form { IsFormOf kind (new_form kind core) }
    requires slot { IsSlot (so_far state.old) at }
    requires few { HasRoom (so_far state.old) kind }
    requires room { HasRoomFor (makes_at (next_id (so_far state.old) kind) core at) state.old }
    ensures { Makes (makes_at (next_id (so_far state.old) kind) core at) state.old state.new }
{
    state.is_sound();
    let object = ObjId {
        kind,
        serial: state.made(kind) + 1,
    };
    add(state, kind, core);
    state.fills(at, Some(new_cap(object)));
}

/// Wakes the thread, and makes an object of a kind with a capability to it in an empty slot.
fn make_awake<W: Waiting>(state: &mut State<W>, core: CoreId, thread: ObjId, kind: Kind, at: SlotId)
    requires kind { has_limit kind ≡ true }
    requires form { IsFormOf kind (new_form kind core) }
    requires entering { IsEntering (so_far state.old) thread }
    requires slot { IsSlot (so_far state.old) at }
    requires few { HasRoom (so_far state.old) kind }
    requires room { FitsAwake thread (makes (so_far state.old) kind core at) state.old }
    ensures { ActsAwake thread (makes (so_far state.old) kind core at) state.old Done state.new }
{
    wake(state, thread);
    make_at(state, core, kind, at);
}

/// Performs MakeEndpoint, MakeNotification, MakeReply and MakeContext: an object of a kind is made,
/// and the slot gets a capability to it, with all rights to an endpoint or a notification, and with
/// none to another. A context is of the core on which the thread enters, one of the 16 that there
/// may be. The refusals are 6, 2 and 3 of the slot's lookup, 7 if it is full, and 11 if 256 objects
/// of the kind exist; they change nothing (own; manual: Capability Spaces).
pub fn make<W: Waiting>(
    state: &mut State<W>,
    core: CoreId,
    thread: ObjId,
    kind: Kind,
    place: Place,
) -> Result<(), Refusal>
    requires kind { has_limit kind ≡ true }
    requires form { IsFormOf kind (new_form kind core) }
    requires entering { IsEntering (so_far state.old) thread }
    requires serials { HasSerials (so_far state.old) }
    requires room { Fits state.old core thread (entry_making kind place) }
    ensures { Does state.old core thread (entry_making kind place) (plain_answer result) state.new }
{
    let at = find_vacant(state, thread, kind, place)?;
    make_awake(state, core, thread, kind, at);
    Ok(())
}
