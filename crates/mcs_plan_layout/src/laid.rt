//! A plan whose spaces are laid out.
ghost use Rattle.std.specs.Prelude.{◌≡◌, None, Some, Ok, IfOk, IfErr, find, fold, max, option_copied, option_map, slice_get};
ghost use Rattle.std.specs.Option.{unwrap_or};
ghost use Rattle.mcs_plan_layout.specs.Naming.{is_row, named_by, cores_of};
ghost use Rattle.mcs_plan_layout.specs.Starting.{IsStarted, first_line, RefusesStarter};
ghost use Rattle.mcs_plan_layout.specs.Unnamed.{Tells, cap_in, cnode_held, inner_in, named_read, no_inner, outer_in, unnamed};
ghost use Rattle.mcs_plan_layout.specs.Laid.{IsLaid, laid_said};
ghost use Rattle.mcs_plan_layout.specs.Tables.{row_of};
ghost use Rattle.mcs_plan_source.specs.Refusals.{Refuses, no_capability};
ghost use Rattle.mcs_plan_source.specs.Saying.{said, said_space};

use crate::Layout;
use crate::layouts::layouts_of;
use crate::spaces::{has_slot, space_at, space_of_cnode};
use crate::starter::add_starter;
use crate::tables::Named;
use mcs_plan_source::{Plan, PlanError, PlanFault, Space, not};
use mcs_types::{Cap, CoreId, Kind, ObjId};
use std::alloc::{AllocError, Global};

/// A plan with its spaces laid out, and the table of names of each thread.
#[derive(Drop)]
pub struct PlanLayout {
    pub plan: Plan,
    pub layouts: Vec<Layout>,
    pub tables: Vec<Vec<Named>>,
}

/// Returns the number of the line that declares the first passive thread; None if no thread is
/// passive.
fn first_passive(plan: &Plan) -> Option<u64>
    ensures { result ≡ first_line (said plan.now).passives }
{
    match plan.passives.as_slice() {
        [] => None,
        [first, ..] => Some(first.line),
    }
}

/// Returns a plan with the thread `starter`, if it has passive threads.
fn started(alloc: Global, plan: Plan) -> Result<Plan, PlanFault>
    ensures started { IfOk result (λ new. IsStarted (said plan) (said new)) }
    ensures error { IfErr result (RefusesStarter (said plan)) }
{
    let Some(line) = first_passive(&plan) else {
        return Ok(plan);
    };
    let mut plan = plan;
    match add_starter(alloc, &mut plan) {
        Ok(()) => Ok(plan),
        Err(why) => Err(PlanFault { line, why }),
    }
}

/// Returns the greatest core of contexts.
fn last_core(contexts: &[CoreId]) -> u8
    ensures { result ≡ fold (λ last core. max core.0 last) 0 contexts.now }
{
    let mut last: u8 = 0;
    for core in contexts {
        last = core.0.max(last);
    }
    last
}

/// Returns whether a row has this name.
fn is_row(named: &Named, word: &str) -> bool
    ensures { result ≡ is_row word.now named.now }
{
    named.name.as_str() == word
}

/// Returns the first row of a table with this name.
fn first_row<'a>(table: &'a [Named], word: &str) -> Option<&'a Named>
    ensures { option_copied result ≡ find (is_row word.now) table.now }
{
    for named in table {
        if is_row(named, word) {
            return Some(named);
        }
    }
    None
}

/// Returns the parts of a word: the name of a slot, and of a slot in the CNode to which the first
/// holds a capability.
#[tactic(auto, using(crate::proofs::Rows::no_rest, crate::proofs::Rows::one_rest))]
fn parts_of<'a>(word: &'a str) -> (&'a str, Option<&'a str>)
    ensures outer { result.0.now ≡ outer_in word.now }
    ensures inner { option_copied result.1 ≡ inner_in word.now }
{
    match word.split_once('/') {
        None => (word, None),
        Some((outer, inner)) => (outer, Some(inner)),
    }
}

/// The capability that the slot of this name holds.
fn cap_in(space: &Space, name: &str) -> Option<Cap>
    ensures { result ≡ cap_in (said_space space.now) name.now }
{
    match space.slots.get(name) {
        Some(slot) => slot.cap,
        None => None,
    }
}

/// Returns the fault of a name that no slot of a space has.
fn no_slot(alloc: Global, space: &Space, holder: &str, name: &str) -> Result<PlanError, AllocError>
    ensures { IfOk result (Tells (no_capability holder.now name.now)) }
{
    Ok(PlanError::NoCapability {
        holder: String::from_str(alloc, holder)?,
        word: String::from_str(alloc, name)?,
        there: space.listed(alloc)?,
    })
}

impl PlanLayout {
    /// Returns a plan, with `starter` if it needs it, with layouts and tables.
    fn with_layouts(alloc: Global, plan: Plan) -> Result<PlanLayout, AllocError>
        ensures plan { IfOk result (λ laid. laid.plan ≡ plan) }
        ensures laid { IfOk result IsLaid }
    {
        let layouts = layouts_of(alloc, &plan.spaces)?;
        let mut laid = PlanLayout {
            plan,
            layouts,
            tables: Vec::new(alloc),
        };
        laid.tables = laid.tables_of(alloc)?;
        Ok(laid)
    }

    /// Lays out the spaces of a plan. `Twice` at the line of the first passive thread if `starter`
    /// is a name already.
    pub fn new(alloc: Global, plan: Plan) -> Result<PlanLayout, PlanFault>
        ensures plan { IfOk result (λ laid. IsStarted (said plan) (said laid.plan)) }
        ensures laid { IfOk result IsLaid }
        ensures error { IfErr result (RefusesStarter (said plan)) }
    {
        let plan = started(alloc, plan)?;
        match PlanLayout::with_layouts(alloc, plan) {
            Ok(laid) => Ok(laid),
            Err(AllocError) => Err(PlanFault {
                line: 0,
                why: PlanError::OutOfMemory,
            }),
        }
    }

    /// Returns the layout of a space; that of a CNode of two slots if the space does not exist.
    pub fn layout(&self, space: usize) -> Layout
        ensures { result ≡ unwrap_or (slice_get self.now.layouts.items space)
            (record { root = 1; leaf = 0; within = 0 }) }
    {
        match self.layouts.get(space) {
            Some(layout) => *layout,
            None => Layout::of_radix(1),
        }
    }

    /// Returns the number of cores: the plan's, or one more than the greatest core that it names.
    pub fn cores(&self) -> u8
        ensures { result ≡ cores_of self.now.plan.cores self.now.plan.contexts.items }
    {
        match self.plan.cores {
            Some(cores) => cores,
            None => last_core(&self.plan.contexts).saturating_add(1),
        }
    }

    /// Returns the row of a thread for a word: `NAME`, or `NAME/NAME` for a slot of a CNode to
    /// which it has a capability.
    pub fn find(&self, thread: ObjId, word: &str) -> Option<&Named>
        ensures { option_copied result ≡ named_by self.now.tables.items thread word.now }
    {
        let table = self.tables.get(thread.place(Kind::Thread)?)?;
        first_row(table, word)
    }

    /// Returns the row of a thread for a word. `NoCapability` or `Not` if it has none.
    pub fn named(&self, alloc: Global, thread: ObjId, word: &str) -> Result<&Named, PlanError>
        ensures found { IfOk result
            (λ n. named_by self.now.tables.items thread word.now ≡ Some n.now) }
        ensures read { IfOk result
            (λ n. named_read (laid_said self.now) thread word.now ≡ Ok (row_of n.now)) }
        ensures error { IfErr result (Refuses (named_read (laid_said self.now) thread word.now)) }
    {
        match self.find(thread, word) {
            Some(named) => Ok(named),
            None => Err(self.unnamed(alloc, thread, word)?),
        }
    }

    /// Returns the fault of a word that names nothing.
    fn unnamed(&self, alloc: Global, thread: ObjId, word: &str) -> Result<PlanError, AllocError>
        ensures { IfOk result (Tells (unnamed (said self.now.plan) thread word.now)) }
    {
        let Some(space) = space_at(&self.plan.spaces, self.plan.space_of(thread)) else {
            return Ok(not(alloc, word, "a capability"));
        };
        let (outer, inner) = parts_of(word);
        if !has_slot(space, outer) {
            let holder = self.plan.names.name_of(thread);
            return no_slot(alloc, space, holder, outer);
        }
        match inner {
            None => Ok(not(alloc, word, "a capability")),
            Some(name) => self.no_inner(alloc, space, outer, name),
        }
    }

    /// Returns the fault of a name that no slot has in the CNode to which an outer slot holds a
    /// capability.
    fn no_inner(
        &self,
        alloc: Global,
        space: &Space,
        outer: &str,
        name: &str,
    ) -> Result<PlanError, AllocError>
        ensures { IfOk result (Tells (no_inner self.now.plan.names outer.now name.now
            (cnode_held (said self.now.plan).spaces (said_space space.now) outer.now))) }
    {
        match self.held_by(space, outer) {
            Some((cnode, held)) => no_slot(alloc, held, self.plan.names.name_of(cnode), name),
            None => Ok(not(alloc, outer, "a capability to a space")),
        }
    }

    /// Returns the CNode to which a named slot of `space` holds a capability, and the space of that
    /// CNode.
    fn held_by(&self, space: &Space, name: &str) -> Option<(ObjId, &Space)>
        ensures { option_map (λ h. h.0) result
            ≡ cnode_held (said self.now.plan).spaces (said_space space.now) name.now }
    {
        let cap = cap_in(space, name)?;
        let held = space_of_cnode(&self.plan.spaces, cap.obj)?;
        Some((cap.obj, held))
    }
}
