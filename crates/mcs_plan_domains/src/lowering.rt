//! A plan with protection domains, or with passive threads among users, as one without.
ghost use Rattle.std.specs.Prelude.{◌≡◌, IfOk, IfSome, OnOk};
ghost use Rattle.mcs_plan_domains.specs.Pages.{page_of};
ghost use Rattle.mcs_plan_domains.specs.Channels.{AllLead};
ghost use Rattle.mcs_plan_domains.specs.Lowered.{IsLowered, IsPlanOf, plain_put, system_put};

use crate::capabilities::put_boot;
use crate::fault::Refused;
use crate::lowered::Lowered;
use crate::monitors::put_monitor_programs;
use crate::parser::read_system;
use crate::passives::lower_passives;
use crate::programs::put_programs;
use crate::questions::put_questions;
use crate::system::{Plain, System};
use mcs_plan_source::PlanFault;
use std::alloc::{AllocError, Global};

/// Appends lines unchanged.
fn put_plain(out: &mut Lowered, lines: &[Plain<'_>]) -> Result<(), AllocError>
    ensures { OnOk result (page_of out.new ≡ plain_put (page_of out.old) lines.now) }
{
    for plain in lines {
        out.last(plain.line, plain.text)?;
    }
    Ok(())
}

/// Appends all lines of a system, with these programs of its domains.
fn put_system(out: &mut Lowered, system: &System<'_>, programs: &Lowered) -> Result<(), AllocError>
    ensures { OnOk result
        (page_of out.new ≡ system_put system.now (page_of programs.now) (page_of out.old)) }
{
    put_plain(out, &system.heads)?;
    put_boot(out, system)?;
    out.join(programs)?;
    put_monitor_programs(out, &system.domains)?;
    put_plain(out, &system.tails)?;
    put_questions(out, &system.questions)
}

/// Puts all lines of a system, which has its programs.
fn lowered_of(alloc: Global, system: &System<'_>) -> Result<Lowered, Refused>
    ensures { IfOk result (λ out. IsPlanOf system.now (page_of out)) }
{
    let mut programs = Lowered::new(alloc);
    put_programs(alloc, &mut programs, system)?;
    let mut out = Lowered::new(alloc);
    put_system(&mut out, system, &programs)?;
    Ok(out)
}

/// Returns the plan of a system: its other lines, the objects of its domains, their threads, what
/// each domain has, a program for each domain and each monitor, and its questions (`system_put`).
/// In it each end of a channel has its capabilities (`Leads`). The faults name the line and the
/// word; OutOfMemory where memory was refused.
#[tactic(auto, using(crate::proofs::Channels::plan_leads))]
pub fn lower_system(alloc: Global, system: &System<'_>) -> Result<Lowered, PlanFault>
    ensures plan { IfOk result (λ out. IsPlanOf system.now (page_of out)) }
    ensures channels { IfOk result (λ out. AllLead (page_of out) system.now) }
{
    Ok(lowered_of(alloc, system)?)
}

/// Returns a plan in which each protection domain is objects, capabilities and a program, or None
/// where the plan has neither a domain nor a channel.
#[tactic(auto, using(crate::proofs::Lowerings::of_some_system))]
fn lower_domains(alloc: Global, plan: &str) -> Result<Option<Lowered>, PlanFault>
    ensures { IfOk result (λ o. IfSome o (λ out. IsLowered (page_of out))) }
{
    match read_system(alloc, plan)? {
        Some(system) => Ok(Some(lower_system(alloc, &system)?)),
        None => Ok(None),
    }
}

/// Returns a plan in which each protection domain is objects, capabilities and a program, and each
/// passive thread among users one that a starter makes passive; None where the plan has none of
/// these. The faults name the line and the word; OutOfMemory where memory was refused.
pub fn lower(alloc: Global, plan: &str) -> Result<Option<Lowered>, PlanFault>
    ensures { IfOk result (λ o. IfSome o (λ out. IsLowered (page_of out))) }
{
    let Some(lowered) = lower_domains(alloc, plan)? else {
        return lower_passives(alloc, plan, &[]);
    };
    match lower_passives(alloc, lowered.text.as_str(), &lowered.lines)? {
        Some(more) => Ok(Some(more)),
        None => Ok(Some(lowered)),
    }
}
