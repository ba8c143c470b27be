//! `starter`, the thread that makes others passive.
ghost use Rattle.std.specs.Prelude.{◌≡◌, Some, None, Ok, IfOk, IfErr, OnOk};
ghost use Rattle.mcs_plan_source.specs.declared.fault.PlanError.TheVariants as why;
ghost use Rattle.mcs_plan_source.specs.Naming.{next_of};
ghost use Rattle.mcs_types.specs.declared.id.Kind.TheVariants as kind;
ghost use Rattle.mcs_plan_source.specs.Refusals.{Refuses};
ghost use Rattle.mcs_plan_source.specs.Saying.{said, said_space, with_name, with_thread};
ghost use Rattle.mcs_plan_layout.specs.Boot.{bare};
ghost use Rattle.mcs_plan_layout.specs.Starting.{name_more, names_started, own_context, with_held, with_context_of, space_started, starter_with, with_parts, AddsStarter};

use indexmap::IndexMap;
use mcs_plan_source::{Plan, PlanError, STARTER, Slot, Space, Symbols, Thread};
use mcs_types::{Badge, Cap, CoreId, Guard, Kind, ObjId, Prio, Rights};
use std::alloc::{AllocError, Global};

/// The name of its context.
const CONTEXT: &str = "starter.context";

/// The name of its space.
const SPACE: &str = "starter.space";

/// Returns a capability without rights.
pub fn bare(obj: ObjId, guard: Guard) -> Option<Cap>
    ensures { result ≡ Some (bare obj guard) }
{
    let rights = Rights::new(0)?;
    Some(Cap {
        obj,
        rights,
        badge: Badge(0),
        guard,
    })
}

/// Adds a slot that holds a capability to this object under its name.
#[tactic(auto, using(crate::proofs::Started::put_held))]
fn add_slot(alloc: Global, space: &mut Space, obj: ObjId, name: &str) -> Result<(), AllocError>
    ensures { OnOk result (said_space space.new ≡ with_held name.now obj (said_space space.old)) }
{
    let slot = Slot {
        cap: bare(obj, Guard { bits: 0, value: 0 }),
        written: String::from_str(alloc, name)?,
    };
    space.slots.insert(String::from_str(alloc, name)?, slot)?;
    Ok(())
}

/// Adds the slot for the context of a thread, if it has one.
fn add_context(
    alloc: Global,
    space: &mut Space,
    plan: &Plan,
    thread: ObjId,
) -> Result<(), AllocError>
    ensures { OnOk result (said_space space.new
        ≡ with_context_of (said plan.now) thread (said_space space.old)) }
{
    match plan.context_of(thread) {
        Some(context) => add_slot(alloc, space, context, plan.names.name_of(context)),
        None => Ok(()),
    }
}

/// Returns the space of `starter`: the contexts of all passive threads, and itself.
#[tactic(auto, using(crate::proofs::Started::context_more, crate::proofs::Started::no_slots))]
fn space_of(alloc: Global, plan: &Plan, starter: ObjId) -> Result<Space, PlanError>
    ensures space { IfOk result (λ s. said_space s ≡ space_started (said plan.now) starter) }
    ensures error { IfErr result (λ w. w ≡ why.OutOfMemory) }
{
    let mut space = Space::new(alloc, None);
    for passive in &plan.passives {
        add_context(alloc, &mut space, plan, passive.thread)?;
    }
    add_slot(alloc, &mut space, starter, STARTER)?;
    Ok(space)
}

/// Gives an object its name.
fn add_name(alloc: Global, names: &mut Symbols, kind: Kind, name: &str) -> Result<ObjId, PlanError>
    ensures object { IfOk result (λ o. o ≡ next_of kind names.old) }
    ensures added { OnOk result (name_more kind name.now names.old ≡ Ok names.new) }
    ensures names { OnOk result (names.new ≡ with_name kind name.now names.old) }
    ensures error { IfErr result (Refuses (name_more kind name.now names.old)) }
{
    names.add(alloc, kind, name)
}

/// Names the starter and its context, and returns both. `Twice` if one of the names exists already.
fn add_names(alloc: Global, names: &mut Symbols) -> Result<(ObjId, ObjId), PlanError>
    ensures added { OnOk result (names_started names.old ≡ Ok names.new) }
    ensures thread { IfOk result (λ o. o.0 ≡ next_of kind.Thread names.old) }
    ensures context { IfOk result (λ o. o.1 ≡ own_context names.old) }
    ensures error { IfErr result (Refuses (names_started names.old)) }
{
    let thread = add_name(alloc, names, Kind::Thread, STARTER)?;
    let context = add_name(alloc, names, Kind::Context, CONTEXT)?;
    add_name(alloc, names, Kind::CNode, SPACE)?;
    Ok((thread, context))
}

/// Adds the starter after the other threads, with its context and its space.
fn put(plan: &mut Plan, space: Space, context: ObjId) -> Result<(), AllocError>
    ensures { OnOk result (said plan.new ≡ with_thread (starter_with context (said plan.old))
        (with_parts (said_space space) (said plan.old))) }
{
    let place = plan.spaces.len();
    plan.spaces.push(space)?;
    plan.contexts.push(CoreId(0))?;
    plan.threads.push(Thread {
        priority: Prio(255),
        maximum: Prio(255),
        space: place,
        runs: true,
        context: Some(context),
        core: CoreId(0),
    })?;
    Ok(())
}

/// Adds the starter. `Twice` if one of its names exists already.
pub fn add_starter(alloc: Global, plan: &mut Plan) -> Result<(), PlanError>
    ensures added { OnOk result (AddsStarter (said plan.old) (said plan.new)) }
    ensures error { IfErr result (Refuses (names_started plan.old.names)) }
{
    let (thread, context) = add_names(alloc, &mut plan.names)?;
    let space = space_of(alloc, plan, thread)?;
    put(plan, space, context)?;
    Ok(())
}
