//! How an end names objects: those that users made by slots, since states that differ only in the
//! serials of such objects are merged.
ghost use Rattle.std.specs.Prelude.{◌≡◌, IfOk, is_none};
ghost use Rattle.std.specs.List.{list_all};
ghost use Rattle.mcs_book.specs.History.{log_of};
ghost use Rattle.mcs_explore_report.specs.Origins.{AreOrigins, IsFirstSlot, IsOrigin, IsSlotIn, has_cap, made_object, not_of_boot};

use crate::ends::{End, Standing};
use crate::scripts::{turns_of, walk_by};
use crate::stuck_users::seen_at;
use mcs_explore_orders::{Orders, Watch};
use mcs_explore_script::UserScript;
use mcs_kernel::{Boot, Kernel};
use mcs_lab_check::LabFault;
use mcs_queues::PlainLines;
use mcs_types::{Kind, ObjId};
use std::alloc::{AllocError, Global};

/// A slot of a CNode.
#[derive(Clone, Copy)]
pub struct Slot {
    pub cnode: ObjId,
    pub index: u8,
}

/// How an end names the object on which a user is blocked.
#[derive(Clone, Copy)]
pub enum Origin {
    /// By its number: the boot made it, or the user is not blocked.
    Boot,
    /// By its number and the first slot with a capability to it: a user made it.
    Slot(Slot),
    /// By its number: a user made it, and no slot has a capability to it.
    NoSlot,
}

/// Returns an object, if the boot did not make it.
fn not_of_boot(boot: &Boot, object: ObjId) -> Option<ObjId>
    ensures { result ≡ not_of_boot boot.now object }
{
    if boot.made(object.kind) < object.serial {
        Some(object)
    } else {
        None
    }
}

/// Returns the object on which a user is blocked, if the boot did not make it.
fn made_object(boot: &Boot, standing: &Standing) -> Option<ObjId>
    ensures { result ≡ made_object boot.now standing.now }
{
    not_of_boot(boot, standing.object()?)
}

/// Returns whether a slot of a CNode has a capability to an object.
fn has_cap(kernel: &Kernel<PlainLines>, cnode: ObjId, index: u8, object: ObjId) -> bool
    ensures { result ≡ has_cap (log_of kernel.now) object cnode index }
{
    match kernel.capability(cnode, index) {
        Some(cap) => cap.obj.is_same(object),
        None => false,
    }
}

/// Returns the first slot of a CNode with a capability to an object.
fn slot_in(kernel: &Kernel<PlainLines>, cnode: ObjId, object: ObjId) -> Option<Slot>
    ensures { IsSlotIn (log_of kernel.now) object cnode result }
{
    for index in 0..=u8::MAX {
        if has_cap(kernel, cnode, index, object) {
            return Some(Slot { cnode, index });
        }
    }
    None
}

/// Returns the first slot with a capability to an object: that of the lowest CNode of the boot, and
/// there the lowest.
fn slot_of(boot: &Boot, kernel: &Kernel<PlainLines>, object: ObjId) -> Option<Slot>
    ensures { IsFirstSlot boot.now (log_of kernel.now) object result }
{
    for serial in 1..=boot.made(Kind::CNode) {
        let cnode = ObjId {
            kind: Kind::CNode,
            serial,
        };
        match slot_in(kernel, cnode, object) {
            Some(slot) => return Some(slot),
            None => {}
        }
    }
    None
}

/// Returns how an end names the object on which a user is blocked.
fn origin_of(boot: &Boot, kernel: &Kernel<PlainLines>, standing: &Standing) -> Origin
    ensures { IsOrigin boot.now (log_of kernel.now) standing.now result }
{
    let Some(object) = made_object(boot, standing) else {
        return Origin::Boot;
    };
    match slot_of(boot, kernel, object) {
        Some(slot) => Origin::Slot(slot),
        None => Origin::NoSlot,
    }
}

/// Returns how the objects are named on which these users are blocked in a state. `OutOfMemory` if
/// an allocation fails.
fn origins_in(
    alloc: Global,
    boot: &Boot,
    kernel: &Kernel<PlainLines>,
    standing: &[Standing],
) -> Result<Vec<Origin>, AllocError>
    ensures { IfOk result (λ v. AreOrigins boot.now (log_of kernel.now) standing.now v.items) }
{
    let mut origins = Vec::new(alloc);
    for place in 0..standing.len() {
        origins.push(origin_of(boot, kernel, &standing[place]))?;
    }
    Ok(origins)
}

/// Returns whether the boot made all objects on which these users are blocked.
fn are_of_boot(boot: &Boot, standing: &[Standing]) -> bool
    ensures { result ≡ list_all (λ s. is_none (made_object boot.now s)) standing.now }
{
    standing.iter().all(|one| made_object(boot, one).is_none())
}

/// Returns how a kind of end names the objects on which its users are blocked, by the first such
/// state; empty if the boot made all of them. BookFull and OutOfMemory as for a search.
fn origins_of<W: Watch>(
    alloc: Global,
    script: &UserScript,
    orders: &Orders<'_, W>,
    end: &End,
) -> Result<Vec<Origin>, LabFault> {
    if are_of_boot(&script.boot, &end.standing) {
        return Ok(Vec::new(alloc));
    }
    let turns = turns_of(orders, seen_at(end.place))?;
    let walk = walk_by(alloc, script, &turns)?;
    Ok(origins_in(alloc, &script.boot, walk.kernel(), &end.standing)?)
}

/// Returns for all kinds of ends, in their order, how their objects are named.
pub fn all_origins<W: Watch>(
    alloc: Global,
    script: &UserScript,
    orders: &Orders<'_, W>,
    ends: &[End],
) -> Result<Vec<Vec<Origin>>, LabFault> {
    let mut all = Vec::new(alloc);
    for number in 0..ends.len() {
        all.push(origins_of(alloc, script, orders, &ends[number])?)?;
    }
    Ok(all)
}
