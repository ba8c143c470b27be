//! The objects and threads of a system, and each domain's capabilities.
ghost use Rattle.std.specs.Prelude.{◌≡◌, OnOk};
ghost use Rattle.mcs_plan_domains.specs.Pages.{page_of};
ghost use Rattle.mcs_plan_domains.specs.Boots.{begun_put, boot_put, call_put, channel_put, channels_put, each_put, end_put, has_put, inputs_put, monitor_if, monitor_input_put, monitor_put, monitor_thread_put, monitored_put, monitors_put};
ghost use Rattle.mcs_plan_domains.specs.Boots.{notify_put, object_put, objects_put, own_put, passive_line, passive_put, thread_put, tie_put, tied_put};

use crate::badges::{called_badge, notified_badge};
use crate::ends::End;
use crate::lowered::Lowered;
use crate::system::{Channel, Domain, System};
use std::alloc::AllocError;

/// How many cores there may be.
pub const CORES: u64 = 16;

/// Appends the line of an object of a domain.
fn put_object(
    out: &mut Lowered,
    kind: &str,
    domain: &Domain<'_>,
    ending: &str,
) -> Result<(), AllocError>
    ensures { OnOk result
        (page_of out.new ≡ object_put (page_of out.old) kind.now domain.now ending.now) }
{
    out.last_name(domain.line, kind, domain.name, ending)
}

/// Appends the lines of the objects of a domain.
fn put_objects(out: &mut Lowered, domain: &Domain<'_>) -> Result<(), AllocError>
    ensures { OnOk result (page_of out.new ≡ objects_put (page_of out.old) domain.now) }
{
    put_object(out, "notification ", domain, ".ntfn")?;
    if !domain.is_called {
        return Ok(());
    }
    put_object(out, "endpoint ", domain, ".ep")?;
    put_object(out, "reply ", domain, ".reply")
}

/// Appends the line of a domain's thread.
fn put_thread(out: &mut Lowered, domain: &Domain<'_>) -> Result<(), AllocError>
    ensures { OnOk result (page_of out.new ≡ thread_put (page_of out.old) domain.now) }
{
    out.put("thread ")?;
    out.put(domain.name)?;
    out.counted(" prio ", domain.priority)?;
    out.last_number(domain.line, " on core ", domain.core)
}

/// Appends the line that binds the notification of a domain to its thread.
fn put_tie(out: &mut Lowered, domain: &Domain<'_>) -> Result<(), AllocError>
    ensures { OnOk result (page_of out.new ≡ tie_put (page_of out.old) domain.now) }
{
    out.put("tie ")?;
    out.put(domain.name)?;
    out.last_name(domain.line, " ", domain.name, ".ntfn")
}

/// Appends the lines of a domain's thread and of its bound notification.
fn put_tied(out: &mut Lowered, domain: &Domain<'_>) -> Result<(), AllocError>
    ensures { OnOk result (page_of out.new ≡ tied_put (page_of out.old) domain.now) }
{
    put_thread(out, domain)?;
    put_tie(out, domain)
}

/// Appends the beginning of a line of capabilities of a domain: its name, and the name of an
/// object.
fn put_has(
    out: &mut Lowered,
    domain: &Domain<'_>,
    object: &str,
    ending: &str,
) -> Result<(), AllocError>
    ensures { OnOk result
        (page_of out.new ≡ has_put (page_of out.old) domain.now object.now ending.now) }
{
    out.put(domain.name)?;
    out.put(" has ")?;
    out.put(object)?;
    out.put(ending)
}

/// Appends the capabilities with which a domain receives: to its endpoint and its reply object, or
/// to its notification.
fn put_inputs(out: &mut Lowered, domain: &Domain<'_>) -> Result<(), AllocError>
    ensures { OnOk result (page_of out.new ≡ inputs_put (page_of out.old) domain.now) }
{
    if !domain.is_called {
        put_has(out, domain, domain.name, ".ntfn:r")?;
        return out.end(domain.line);
    }
    put_has(out, domain, domain.name, ".ep:r")?;
    out.end(domain.line)?;
    put_has(out, domain, domain.name, ".reply")?;
    out.end(domain.line)
}

/// Appends a domain's capability to notify another over a channel.
fn put_notify(
    out: &mut Lowered,
    domain: &Domain<'_>,
    own: End,
    line: u64,
    there: &Domain<'_>,
    other: End,
) -> Result<(), AllocError>
    ensures { OnOk result
        (page_of out.new ≡ notify_put (page_of out.old) domain.now own line there.now other) }
{
    put_has(out, domain, there.name, ".ntfn:w=")?;
    out.hex(notified_badge(other.channel))?;
    out.last_number(line, " as notify.", own.channel)
}

/// Appends a domain's capability to call another over a channel.
fn put_call(
    out: &mut Lowered,
    domain: &Domain<'_>,
    own: End,
    line: u64,
    there: &Domain<'_>,
    other: End,
) -> Result<(), AllocError>
    ensures { OnOk result
        (page_of out.new ≡ call_put (page_of out.old) domain.now own line there.now other) }
{
    put_has(out, domain, there.name, ".ep:wp=")?;
    out.hex(called_badge(other.channel))?;
    out.last_number(line, " as ppcall.", own.channel)
}

/// Appends a domain's capabilities at an end of a channel, over which it may call or not.
fn put_end(
    out: &mut Lowered,
    system: &System<'_>,
    calls: bool,
    line: u64,
    own: End,
    other: End,
) -> Result<(), AllocError>
    ensures { OnOk result
        (page_of out.new ≡ end_put (page_of out.old) system.now calls line own other) }
{
    let Some(domain) = system.domains.get(own.domain) else {
        return Ok(());
    };
    let Some(there) = system.domains.get(other.domain) else {
        return Ok(());
    };
    put_notify(out, domain, own, line, there, other)?;
    if !calls {
        return Ok(());
    }
    put_call(out, domain, own, line, there, other)
}

/// Appends the capabilities of both domains of a channel: the first may call the second, if the
/// channel has protected procedures.
fn put_channel(out: &mut Lowered, system: &System<'_>, channel: &Channel) -> Result<(), AllocError>
    ensures { OnOk result
        (page_of out.new ≡ channel_put (page_of out.old) system.now channel.now) }
{
    let (line, first, second) = (channel.line, channel.first, channel.second);
    put_end(out, system, channel.is_called, line, first, second)?;
    put_end(out, system, false, line, second, first)
}

/// Appends the capability with which a passive domain reports to the monitor of its core that it
/// has begun. Its badge is the number of the domain.
fn put_begun(out: &mut Lowered, domain: &Domain<'_>) -> Result<(), AllocError>
    ensures { OnOk result (page_of out.new ≡ begun_put (page_of out.old) domain.now) }
{
    put_has(out, domain, "microkit.ep", "")?;
    out.number(domain.core)?;
    out.counted(":w=", domain.number)?;
    out.last(domain.line, " as microkit.monitor")
}

/// Appends a capability of a core's monitor to an object of a passive domain.
fn put_monitored(out: &mut Lowered, domain: &Domain<'_>, ending: &str) -> Result<(), AllocError>
    ensures { OnOk result
        (page_of out.new ≡ monitored_put (page_of out.old) domain.now ending.now) }
{
    out.counted("microkit.monitor", domain.core)?;
    out.last_name(domain.line, " has ", domain.name, ending)
}

/// Appends the capabilities by which a passive domain reports to the monitor, and by which the
/// monitor moves its context to its notification.
fn put_passive(out: &mut Lowered, domain: &Domain<'_>) -> Result<(), AllocError>
    ensures { OnOk result (page_of out.new ≡ passive_put (page_of out.old) domain.now) }
{
    put_begun(out, domain)?;
    put_monitored(out, domain, ".context")?;
    put_monitored(out, domain, ".ntfn")
}

/// Appends the capabilities of a domain that come from no channel.
fn put_own(out: &mut Lowered, domain: &Domain<'_>) -> Result<(), AllocError>
    ensures { OnOk result (page_of out.new ≡ own_put (page_of out.old) domain.now) }
{
    put_inputs(out, domain)?;
    if !domain.is_passive {
        return Ok(());
    }
    put_passive(out, domain)
}

/// Returns the line of the first passive domain of a core, if it has one.
pub fn passive_line(domains: &[Domain<'_>], core: u64) -> Option<u64>
    ensures { result ≡ passive_line domains.now core }
{
    for domain in domains {
        if domain.is_passive && domain.core == core {
            return Some(domain.line);
        }
    }
    None
}

/// Puts the thread of a monitor.
fn put_monitor_thread(out: &mut Lowered, core: u64, line: u64) -> Result<(), AllocError>
    ensures { OnOk result (page_of out.new ≡ monitor_thread_put (page_of out.old) core line) }
{
    out.counted("thread microkit.monitor", core)?;
    out.last_number(line, " prio 255 on core ", core)
}

/// Puts with what a monitor receives.
fn put_monitor_input(out: &mut Lowered, core: u64, line: u64) -> Result<(), AllocError>
    ensures { OnOk result (page_of out.new ≡ monitor_input_put (page_of out.old) core line) }
{
    out.counted("microkit.monitor", core)?;
    out.counted(" has microkit.ep", core)?;
    out.last(line, ":r")
}

/// Puts the endpoint and the thread of a monitor, by which domains of a core become passive.
fn put_monitor(out: &mut Lowered, core: u64, line: u64) -> Result<(), AllocError>
    ensures { OnOk result (page_of out.new ≡ monitor_put (page_of out.old) core line) }
{
    out.last_number(line, "endpoint microkit.ep", core)?;
    put_monitor_thread(out, core, line)?;
    put_monitor_input(out, core, line)
}

/// Appends the monitor of a core, if the core has a passive domain; its lines come from that
/// domain's line.
fn put_monitor_if(out: &mut Lowered, core: u64, line: Option<u64>) -> Result<(), AllocError>
    ensures { OnOk result (page_of out.new ≡ monitor_if (page_of out.old) core line) }
{
    match line {
        Some(line) => put_monitor(out, core, line),
        None => Ok(()),
    }
}

/// Appends the monitors of all cores.
#[tactic(auto, using(crate::proofs::Turns::monitor_turn))]
fn put_monitors(out: &mut Lowered, domains: &[Domain<'_>]) -> Result<(), AllocError>
    ensures { OnOk result (page_of out.new ≡ monitors_put (page_of out.old) domains.now CORES) }
{
    for core in 0..CORES {
        put_monitor_if(out, core, passive_line(domains, core))?;
    }
    Ok(())
}

/// Appends the objects of all domains.
fn put_all_objects(out: &mut Lowered, domains: &[Domain<'_>]) -> Result<(), AllocError>
    ensures { OnOk result
        (page_of out.new ≡ each_put objects_put (page_of out.old) domains.now) }
{
    for domain in domains {
        put_objects(out, domain)?;
    }
    Ok(())
}

/// Appends the threads of all domains.
fn put_all_threads(out: &mut Lowered, domains: &[Domain<'_>]) -> Result<(), AllocError>
    ensures { OnOk result (page_of out.new ≡ each_put tied_put (page_of out.old) domains.now) }
{
    for domain in domains {
        put_tied(out, domain)?;
    }
    Ok(())
}

/// Appends the capabilities of all domains that come from no channel.
fn put_all_own(out: &mut Lowered, domains: &[Domain<'_>]) -> Result<(), AllocError>
    ensures { OnOk result (page_of out.new ≡ each_put own_put (page_of out.old) domains.now) }
{
    for domain in domains {
        put_own(out, domain)?;
    }
    Ok(())
}

/// Appends the capabilities that come from channels.
fn put_channels(out: &mut Lowered, system: &System<'_>) -> Result<(), AllocError>
    ensures { OnOk result (page_of out.new
        ≡ channels_put (page_of out.old) system.now system.now.channels.items) }
{
    for channel in &system.channels {
        put_channel(out, system, channel)?;
    }
    Ok(())
}

/// Appends all objects and threads of a system, and the capabilities of each thread.
pub fn put_boot(out: &mut Lowered, system: &System<'_>) -> Result<(), AllocError>
    ensures { OnOk result (page_of out.new ≡ boot_put (page_of out.old) system.now) }
{
    put_all_objects(out, &system.domains)?;
    put_all_threads(out, &system.domains)?;
    put_monitors(out, &system.domains)?;
    put_all_own(out, &system.domains)?;
    put_channels(out, system)
}
