//! BindCtx and UnbindCtx.
ghost use Rattle.std.specs.Prelude.{◌≡◌};
ghost use Rattle.mcs_types.specs.declared.entry.Answer.TheVariants.{Done};
ghost use Rattle.mcs_types.specs.declared.entry.Entry.{Entry};
ghost use Rattle.mcs_types.specs.declared.id.Kind.{Kind};
ghost use Rattle.mcs_book.specs.Binding.{is_loose};
ghost use Rattle.mcs_book.specs.Sound.{IsThere};
ghost use Rattle.mcs_state.specs.Now.{so_far};
ghost use Rattle.mcs_state.specs.Doing.{ActsAwake, FitsAwake, Does, Fits, plain_answer};
ghost use Rattle.mcs_state.specs.Entering.{IsEntering};
ghost use Rattle.mcs_ipc.specs.Holding.{given, bindable, unbindable, unbinds};

use mcs_cancel::unbind;
use mcs_object_queues::Waiting;
use mcs_state::{Change, State, change_awake, find_object, wake};
use mcs_types::{CoreId, Kind, ObjId, Refusal};

/// Returns whether a context is loose: no thread holds it, it is homed nowhere, and its chain is
/// empty.
fn is_loose<W: Waiting>(state: &State<W>, context: ObjId) -> bool
    ensures { result ≡ is_loose (so_far state.now) context }
{
    state.holder(context).is_none() && state.home_of(context).is_none() && state.is_unlent(context)
}

/// Returns the change that a bind makes: a loose context is given to a thread that holds none, or
/// homed at a notification that is no home.
fn give<W: Waiting>(state: &State<W>, context: ObjId, object: ObjId) -> Result<Change, Refusal>
    ensures { result ≡ given object.kind (so_far state.now) context object }
{
    match object.kind {
        Kind::Thread => {
            if !(is_loose(state, context) && state.context(object).is_none()) {
                return Err(Refusal::AlreadyBound);
            }
            let thread = Some(object);
            Ok(Change::Holds { context, thread })
        }
        Kind::Notification => {
            if !(is_loose(state, context) && state.homed_at(object).is_none()) {
                return Err(Refusal::AlreadyBound);
            }
            let notification = Some(object);
            Ok(Change::Homes {
                context,
                notification,
            })
        }
        Kind::CNode | Kind::Endpoint | Kind::Reply | Kind::Context => Err(Refusal::WrongKind),
    }
}

/// Returns the change that BindCtx makes.
fn find_change<W: Waiting>(
    state: &State<W>,
    thread: ObjId,
    context: u64,
    object: u64,
) -> Result<Change, Refusal>
    requires { IsThere (so_far state.now) Kind.Thread thread }
    ensures { result ≡ bindable (so_far state.now) thread context object }
{
    let context = find_object(state, thread, Kind::Context, context)?;
    let cap = state.capability(thread, object)?;
    give(state, context, cap.obj)
}

/// Performs BindCtx: a thread gets the context, or it is homed at a notification (own). The
/// refusals are 1 to 3 of the lookups, the context's first, and 4 for a capability of another kind;
/// then 9 if the context is held, homed, or a reply object is in its chain (own), and where the
/// thread holds one or another context is homed at the notification. They change nothing (manual:
/// Threads and Execution).
pub fn bind_context<W: Waiting>(
    state: &mut State<W>,
    core: CoreId,
    thread: ObjId,
    context: u64,
    object: u64,
) -> Result<(), Refusal>
    requires entering { IsEntering (so_far state.old) thread }
    requires room { Fits state.old core thread (Entry.BindCtx context object) }
    ensures { Does state.old core thread (Entry.BindCtx context object)
        (plain_answer result) state.new }
{
    state.is_sound();
    let change = find_change(state, thread, context, object)?;
    change_awake(state, thread, change);
    Ok(())
}

/// Returns the context that an unbind names, if a thread holds it or it is homed.
fn find_bound<W: Waiting>(state: &State<W>, thread: ObjId, context: u64) -> Result<ObjId, Refusal>
    requires { IsThere (so_far state.now) Kind.Thread thread }
    ensures { result ≡ unbindable (so_far state.now) thread context }
{
    let context = find_object(state, thread, Kind::Context, context)?;
    if state.holder(context).is_some() || state.home_of(context).is_some() {
        Ok(context)
    } else {
        Err(Refusal::NotBound)
    }
}

/// Wakes the entering thread, and takes a context from its home and its holder.
fn unbind_awake<W: Waiting>(state: &mut State<W>, thread: ObjId, context: ObjId)
    requires entering { IsEntering (so_far state.old) thread }
    requires room { FitsAwake thread (unbinds context) state.old }
    ensures { ActsAwake thread (unbinds context) state.old Done state.new }
{
    wake(state, thread);
    unbind(state, context);
}

/// Performs UnbindCtx: the context is taken from its holder, and homed nowhere. The refusals are 1
/// to 3 of the lookup, 4 for a capability of another kind, and 10 if no thread holds it and it is
/// homed nowhere; they change nothing (manual: Threads and Execution; own).
pub fn unbind_context<W: Waiting>(
    state: &mut State<W>,
    core: CoreId,
    thread: ObjId,
    context: u64,
) -> Result<(), Refusal>
    requires entering { IsEntering (so_far state.old) thread }
    requires room { Fits state.old core thread (Entry.UnbindCtx context) }
    ensures { Does state.old core thread (Entry.UnbindCtx context) (plain_answer result) state.new }
{
    state.is_sound();
    let context = find_bound(state, thread, context)?;
    unbind_awake(state, thread, context);
    Ok(())
}
