//! The programs of the monitors, by which domains become passive.
ghost use Rattle.std.specs.Prelude.{◌≡◌, true, OnOk};
ghost use Rattle.mcs_plan_domains.specs.Pages.{page_of};
ghost use Rattle.mcs_plan_domains.specs.Monitors.{arm_word, arms_put, bound_put, head_put, idle_put, program_if, program_put, programs_put, tail_put, unbound_put};

use crate::capabilities::{CORES, passive_line};
use crate::lowered::Lowered;
use crate::system::Domain;
use std::alloc::AllocError;

/// Returns how an arm of a monitor's program begins.
fn arm_word(is_first: bool) -> &'static str
    ensures { result.now ≡ arm_word is_first }
{
    if is_first {
        "    if $badge == "
    } else {
        "    } else if $badge == "
    }
}

/// Appends the entry that binds the context of a domain to its notification.
fn put_bound(out: &mut Lowered, domain: &Domain<'_>) -> Result<(), AllocError>
    ensures { OnOk result (page_of out.new ≡ bound_put (page_of out.old) domain.now) }
{
    out.put("      bind ")?;
    out.put(domain.name)?;
    out.last_name(domain.line, ".context ", domain.name, ".ntfn")
}

/// Appends the arm of a monitor for a passive domain: its context moves from its thread to its
/// notification.
fn put_unbound(out: &mut Lowered, domain: &Domain<'_>, is_first: bool) -> Result<(), AllocError>
    ensures { OnOk result (page_of out.new ≡ unbound_put (page_of out.old) domain.now is_first) }
{
    out.counted(arm_word(is_first), domain.number)?;
    out.last(domain.line, " {")?;
    out.last_name(domain.line, "      unbind ", domain.name, ".context")?;
    put_bound(out, domain)
}

/// Appends the arms of the monitor of a core.
fn put_arms(out: &mut Lowered, domains: &[Domain<'_>], core: u64) -> Result<(), AllocError>
    ensures { OnOk result
        (page_of out.new ≡ arms_put (page_of out.old) core true domains.now) }
{
    let mut is_first = true;
    for domain in domains {
        if domain.is_passive && domain.core == core {
            put_unbound(out, domain, is_first)?;
            is_first = false;
        }
    }
    Ok(())
}

/// Appends the beginning of the program of a core's monitor, which waits.
fn put_head(out: &mut Lowered, core: u64, line: u64) -> Result<(), AllocError>
    ensures { OnOk result (page_of out.new ≡ head_put (page_of out.old) core line) }
{
    out.counted("program microkit.monitor", core)?;
    out.last(line, " {")?;
    out.last(line, "  forever {")?;
    out.last_number(line, "    input1: wait microkit.ep", core)
}

/// Appends the end of a monitor's program.
fn put_tail(out: &mut Lowered, line: u64) -> Result<(), AllocError>
    ensures { OnOk result (page_of out.new ≡ tail_put (page_of out.old) line) }
{
    out.last(line, "    }")?;
    out.last(line, "  }")?;
    out.last(line, "}")
}

/// Appends the question that lets the monitor of a core wait for ever.
fn put_idle(out: &mut Lowered, core: u64, line: u64) -> Result<(), AllocError>
    ensures { OnOk result (page_of out.new ≡ idle_put (page_of out.old) core line) }
{
    out.counted("#! idle microkit.monitor", core)?;
    out.last(line, " input1")
}

/// Appends the program of the monitor of a core; its lines come from the first passive domain's
/// line.
fn put_program(
    out: &mut Lowered,
    domains: &[Domain<'_>],
    core: u64,
    line: u64,
) -> Result<(), AllocError>
    ensures { OnOk result
        (page_of out.new ≡ program_put (page_of out.old) domains.now core line) }
{
    put_head(out, core, line)?;
    put_arms(out, domains, core)?;
    put_tail(out, line)?;
    put_idle(out, core, line)
}

/// Appends the program of the monitor of a core, if it has a passive domain.
fn put_program_if(
    out: &mut Lowered,
    domains: &[Domain<'_>],
    core: u64,
    line: Option<u64>,
) -> Result<(), AllocError>
    ensures { OnOk result
        (page_of out.new ≡ program_if (page_of out.old) domains.now core line) }
{
    match line {
        Some(line) => put_program(out, domains, core, line),
        None => Ok(()),
    }
}

/// Appends the programs of the monitors of all cores.
#[tactic(auto, using(crate::proofs::Turns::program_turn))]
pub fn put_monitor_programs(out: &mut Lowered, domains: &[Domain<'_>]) -> Result<(), AllocError>
    ensures { OnOk result
        (page_of out.new ≡ programs_put (page_of out.old) domains.now CORES) }
{
    for core in 0..CORES {
        put_program_if(out, domains, core, passive_line(domains, core))?;
    }
    Ok(())
}
