//! Checks the boot against the limits of a machine.
ghost use Rattle.std.specs.Prelude.{◌≡◌, ◌≤◌, true, Ok, Some, IfErr, OnOk};
ghost use Rattle.mcs_types.specs.Limits.{cnode_limit};
ghost use Rattle.mcs_types.specs.declared.id.Kind.TheVariants as kind;
ghost use Rattle.mcs_plan_source.specs.Naming.{count_of, limit_of};
ghost use Rattle.mcs_plan_source.specs.Refusals.{Refuses, limit, need, refusal_by};
ghost use Rattle.mcs_plan_source.specs.Saying.{said};
ghost use Rattle.mcs_plan_layout.specs.Fitting.{cnodes_of, may_be, is_housed, are_housed, boot_fits, HasFewCNodes, Fits};

use mcs_plan_source::{Plan, PlanError, Thread, limit_of, plural};
use mcs_types::{CNODES, Kind};

/// Returns the fault of a plan with too many objects of a kind.
fn too_many(kind: Kind) -> PlanError
    ensures { refusal_by result ≡ Some (limit (limit_of kind)) }
{
    PlanError::Limit {
        what: plural(kind),
        limit: limit_of(kind),
    }
}

/// Fails with `Limit` if the plan has more than 64 CNodes.
#[tactic(auto, using(crate::proofs::LimitLaws::few_said))]
fn has_few_cnodes(plan: &Plan) -> Result<(), PlanError>
    ensures few { OnOk result (HasFewCNodes plan.now) }
    ensures ok { OnOk result (may_be kind.CNode (cnodes_of (said plan.now)) ≡ Ok tt) }
    ensures error { IfErr result (Refuses (may_be kind.CNode (cnodes_of (said plan.now)))) }
{
    let count = plan.spaces.len().saturating_add(plan.leaves() as usize);
    if count <= CNODES as usize {
        return Ok(());
    }
    Err(too_many(Kind::CNode))
}

/// Fails with `Limit` if a plan has more objects of a kind than a machine may have.
fn has_few(plan: &Plan, kind: Kind) -> Result<(), PlanError>
    ensures few { OnOk result (count_of kind plan.now.names ≤ limit_of kind) }
    ensures ok { OnOk result (may_be kind (count_of kind plan.now.names) ≡ Ok tt) }
    ensures error { IfErr result (Refuses (may_be kind (count_of kind plan.now.names))) }
{
    if plan.names.count(kind) <= limit_of(kind) {
        return Ok(());
    }
    Err(too_many(kind))
}

/// Returns whether the space of a thread is among the 64 that there may be.
fn is_housed(thread: &Thread) -> bool
    ensures { result ≡ is_housed thread.now }
{
    thread.space < CNODES as usize
}

/// Returns whether the space of each thread is among the 64 that there may be.
fn are_housed(threads: &[Thread]) -> bool
    ensures { result ≡ are_housed threads.now }
{
    for thread in threads {
        if !is_housed(thread) {
            return false;
        }
    }
    true
}

/// Fails with `Limit` if the space of a thread is beyond the 64 that there may be.
fn has_housed(plan: &Plan) -> Result<(), PlanError>
    ensures housed { OnOk result (are_housed plan.now.threads.items ≡ true) }
    ensures ok { OnOk result
        (need (are_housed (said plan.now).threads) (limit cnode_limit) ≡ Ok tt) }
    ensures error { IfErr result
        (Refuses (need (are_housed (said plan.now).threads) (limit cnode_limit))) }
{
    if are_housed(&plan.threads) {
        return Ok(());
    }
    Err(too_many(Kind::CNode))
}

/// Fails with `Limit` if the boot of a plan makes more of a kind than a machine may have.
pub fn fits(plan: &Plan) -> Result<(), PlanError>
    ensures fits { OnOk result (Fits plan.now) }
    ensures ok { OnOk result (boot_fits (said plan.now) ≡ Ok tt) }
    ensures error { IfErr result (Refuses (boot_fits (said plan.now))) }
{
    has_few_cnodes(plan)?;
    has_housed(plan)?;
    has_few(plan, Kind::Endpoint)?;
    has_few(plan, Kind::Notification)?;
    has_few(plan, Kind::Reply)
}
