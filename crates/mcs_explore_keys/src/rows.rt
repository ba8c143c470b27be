//! Canonical rows, which decide the future of a state: message numbers are left out, and objects
//! made after the boot have canonical names. That they decide it is tested.
use crate::names::CanonicalNames;
use mcs_explore_rows::{Row, kind_number, send_number};
use mcs_explore_walk::{Walk, has};
use mcs_kernel::Kernel;
use mcs_queues::Lines;
use mcs_turns::{Pick, Position};
use mcs_types::{Cap, CoreId, Kind, Letter, ObjId, Prio, Queue, Status};
use std::alloc::{AllocError, Global};

/// Returns one more than a number; 0 for None.
fn more(number: Option<usize>) -> u64 {
    match number {
        Some(number) => (number as u64).saturating_add(1),
        None => 0,
    }
}

/// Appends the position of a user.
fn put_place(row: &mut Row, place: Option<Position>) -> Result<(), AllocError> {
    match place {
        Some(place) => {
            row.extend_from_slice(&[
                place.next as u64,
                more(place.waited),
                place.saved.a,
                place.saved.b,
                place.saved.c,
                place.saved.d,
            ])?;
        }
        None => {}
    }
    Ok(())
}

/// The queue's kind as a number, and its object.
fn queue_parts(queue: Queue) -> (u64, ObjId) {
    match queue {
        Queue::Senders(object) => (1, object),
        Queue::Receivers(object) => (2, object),
        Queue::Waiters(object) => (3, object),
    }
}

/// Returns a thread's status as a number, and the object on which it is blocked.
fn status_parts(names: &CanonicalNames, status: Option<Status>) -> (u64, u64) {
    match status {
        None => (0, 0),
        Some(Status::Running) => (1, 0),
        Some(Status::Restart) => (2, 0),
        Some(Status::Inactive) => (3, 0),
        Some(Status::Closed) => (4, 0),
        Some(Status::OnReply(reply)) => (5, names.name(reply)),
        Some(Status::Queued(queue)) => {
            let (sort, object) = queue_parts(queue);
            (sort.saturating_add(5), names.name(object))
        }
    }
}

/// Appends a message that no thread has received, without its number.
fn put_letter(
    row: &mut Row,
    names: &CanonicalNames,
    letter: Option<&Letter>,
) -> Result<(), AllocError> {
    let Some(letter) = letter else {
        return Ok(());
    };
    row.extend_from_slice(&[
        send_number(letter.mode),
        names.name(letter.endpoint),
        letter.badge.0,
        letter.message.label(),
    ])?;
    row.extend_from_slice(letter.message.words())
}

/// The number of a priority.
fn priority_number(priority: Option<Prio>) -> u64 {
    match priority {
        Some(priority) => priority.0 as u64,
        None => 256,
    }
}

/// Appends the state of a thread, what it holds, and the position of its user.
pub fn put_thread<L: Lines>(
    row: &mut Row,
    kernel: &Kernel<L>,
    names: &CanonicalNames,
    thread: ObjId,
    place: Option<Position>,
) -> Result<(), AllocError> {
    put_place(row, place)?;
    let (status, object) = status_parts(names, kernel.status(thread));
    row.extend_from_slice(&[
        names.name_or_none(kernel.context(thread)),
        names.name_or_none(kernel.bound(thread)),
        priority_number(kernel.priority(thread)),
        status,
        object,
    ])?;
    put_letter(row, names, kernel.open(thread))
}

/// Appends the queue of which a thread is the head, if others are queued after it, so that each
/// such queue is written once. That a thread is alone in a queue follows from its status.
pub fn put_queue<L: Lines>(
    row: &mut Row,
    kernel: &Kernel<L>,
    names: &CanonicalNames,
    thread: ObjId,
) -> Result<(), AllocError> {
    let Some(Status::Queued(queue)) = kernel.status(thread) else {
        return Ok(());
    };
    let mut threads = kernel.queue(queue);
    let (Some(first), Some(second)) = (threads.next(), threads.next()) else {
        return Ok(());
    };
    if !first.is_same(thread) {
        return Ok(());
    }
    let (sort, object) = queue_parts(queue);
    row.push(sort.saturating_add(6))?;
    row.push(names.name(object))?;
    row.push(first.serial as u64)?;
    row.push(second.serial as u64)?;
    for thread in threads {
        row.push(thread.serial as u64)?;
    }
    row.push(0)?;
    Ok(())
}

/// Appends the pending word of a notification, if there is one.
fn put_word<L: Lines>(
    row: &mut Row,
    kernel: &Kernel<L>,
    names: &CanonicalNames,
    notification: ObjId,
) -> Result<(), AllocError> {
    if let Some(word) = kernel.word(notification) {
        row.push(1)?;
        row.push(names.name(notification))?;
        row.push(word)?;
    }
    Ok(())
}

/// Appends the receiver that is queued with a reply object. The caller that it owes follows from
/// that caller's status.
fn put_reply<L: Lines>(
    row: &mut Row,
    kernel: &Kernel<L>,
    names: &CanonicalNames,
    reply: ObjId,
) -> Result<(), AllocError> {
    if let Some(receiver) = kernel.receiver(reply) {
        row.push(2)?;
        row.push(names.name(reply))?;
        row.push(receiver.serial as u64)?;
    }
    Ok(())
}

/// Appends the home of a context and its chain.
fn put_standing<L: Lines>(
    row: &mut Row,
    kernel: &Kernel<L>,
    names: &CanonicalNames,
    context: ObjId,
) -> Result<(), AllocError> {
    let home = kernel.home(context);
    let mut chain = kernel.chain(context);
    let top = chain.next();
    if home.is_none() && top.is_none() {
        return Ok(());
    }
    row.push(3)?;
    row.push(names.name(context))?;
    row.push(names.name_or_none(home))?;
    row.push(names.name_or_none(top))?;
    for reply in chain {
        row.push(names.name(reply))?;
    }
    row.push(0)?;
    Ok(())
}

/// Appends a context: that it is gone, or its home and its chain, and its core if it was made after
/// the boot. The core of a context of the boot never changes.
fn put_context<L: Lines>(
    row: &mut Row,
    kernel: &Kernel<L>,
    names: &CanonicalNames,
    context: ObjId,
) -> Result<(), AllocError> {
    match kernel.core(context) {
        None => {
            row.push(4)?;
            row.push(names.name(context))?;
        }
        Some(core) if names.is_later(context) => {
            row.push(5)?;
            row.push(names.name(context))?;
            row.push(core.0 as u64)?;
        }
        Some(_) => {}
    }
    put_standing(row, kernel, names, context)
}

/// Appends the state of an object that threads and slots do not say.
pub fn put_object<L: Lines>(
    row: &mut Row,
    kernel: &Kernel<L>,
    names: &CanonicalNames,
    object: ObjId,
) -> Result<(), AllocError> {
    match object.kind {
        Kind::CNode | Kind::Thread | Kind::Endpoint => Ok(()),
        Kind::Notification => put_word(row, kernel, names, object),
        Kind::Reply => put_reply(row, kernel, names, object),
        Kind::Context => put_context(row, kernel, names, object),
    }
}

/// Appends a slot and its capability.
fn put_cap(row: &mut Row, names: &CanonicalNames, index: u8, cap: &Cap) -> Result<(), AllocError> {
    row.push(index as u64)?;
    row.push(kind_number(cap.obj.kind))?;
    row.push(names.name(cap.obj))?;
    row.push(cap.rights.bits() as u64)?;
    row.push(cap.badge.0)?;
    row.push(cap.guard.bits as u64)?;
    row.push(cap.guard.value)?;
    Ok(())
}

/// Appends the filled slots of a CNode.
pub fn put_slots<L: Lines>(
    row: &mut Row,
    kernel: &Kernel<L>,
    names: &CanonicalNames,
    cnode: ObjId,
) -> Result<(), AllocError> {
    for index in 0..=u8::MAX {
        if let Some(cap) = kernel.capability(cnode, index) {
            put_cap(row, names, index, &cap)?;
        }
    }
    row.push(256)?;
    Ok(())
}

/// Appends the stale picks of a core.
pub fn put_stale<L: Lines>(
    row: &mut Row,
    walk: &Walk<L>,
    core: CoreId,
    picks: &[Pick],
) -> Result<(), AllocError> {
    let Some(stale) = walk.stale(core) else {
        return Ok(());
    };
    for stale in stale.as_slice() {
        if !has(picks, *stale) {
            row.push(core.0 as u64)?;
            row.push(stale.user as u64)?;
            row.push(stale.number as u64)?;
        }
    }
    Ok(())
}
