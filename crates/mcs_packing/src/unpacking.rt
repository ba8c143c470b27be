//! Unpacks records.
ghost use Rattle.std.specs.Prelude.{◌≡◌, ◌+◌, IfOk};
ghost use Rattle.mcs_packing.specs.Packing.{Fits, IsOfBond, IsOfDebt, IsOfMarked, IsOfMessage, IsOfObject, IsOfSlot, IsOfThread, IsOfWord, IsPairAt, guarded_cap, queue_on, object, plain_cap, record_of, serial_behind};

use crate::arena::message_at;
use crate::packed::{Packed, Side};
use mcs_types::{Badge, Cap, Form, Guard, Kind, ObjId, OutOfMemory, Queue, Rec, Rights};
use std::alloc::Global;

/// The object of a kind with this serial.
pub fn id_of(kind: Kind, serial: u32) -> ObjId
    ensures { result ≡ object kind serial }
{
    ObjId { kind, serial }
}

/// Returns the thread with this serial less 1.
pub fn thread_id(thread: u8) -> ObjId
    ensures { result ≡ object Kind.Thread (thread + 1) }
{
    id_of(Kind::Thread, thread as u32 + 1)
}

/// The queue of this side of an object.
pub fn queue_of(side: Side, serial: u32) -> Queue
    ensures { result ≡ queue_on side serial }
{
    // the object is built once, so it stays in a register
    let kind = match side {
        Side::Senders | Side::Receivers => Kind::Endpoint,
        Side::Waiters => Kind::Notification,
    };
    let object = id_of(kind, serial);
    match side {
        Side::Senders => Queue::Senders(object),
        Side::Receivers => Queue::Receivers(object),
        Side::Waiters => Queue::Waiters(object),
    }
}

/// Returns the serial that follows the word at a position.
#[inline(always)]
pub fn serial_behind(words: &[u64], at: u32) -> u32
    requires { IsPairAt words.now at }
    ensures { result ≡ serial_behind words.now at }
{
    words[at as usize + 1] as u32
}

/// A capability without a guard.
pub fn plain(obj: ObjId, rights: Rights, badge: u64) -> Cap
    ensures { result ≡ plain_cap obj rights badge }
{
    Cap {
        obj,
        rights,
        badge: Badge(badge),
        guard: Guard { bits: 0, value: 0 },
    }
}

/// A capability to a CNode with a guard.
pub fn guarded(serial: u32, rights: Rights, bits: u8, value: u64) -> Cap
    ensures { result ≡ guarded_cap serial rights bits value }
{
    Cap {
        obj: id_of(Kind::CNode, serial),
        rights,
        badge: Badge(0),
        guard: Guard { bits, value },
    }
}

fn slot(cnode: u32, index: u8, cap: Option<Cap>) -> Rec
    ensures { result ≡ Rec.Slot (object Kind.CNode cnode) index cap }
{
    Rec::Slot {
        cnode: id_of(Kind::CNode, cnode),
        index,
        cap,
    }
}

fn joins(thread: u8, queue: Queue, reply: Option<ObjId>) -> Rec
    ensures { result ≡ Rec.Joins (object Kind.Thread (thread + 1)) queue reply }
{
    Rec::Joins {
        thread: thread_id(thread),
        queue,
        reply,
    }
}

fn heard(thread: u8, on: u32, word: u64) -> Rec
    ensures { result ≡ Rec.Heard (object Kind.Thread (thread + 1))
        (object Kind.Notification on) word }
{
    Rec::Heard {
        thread: thread_id(thread),
        notification: id_of(Kind::Notification, on),
        word,
    }
}

/// Unpacks a record of an object made or closed.
fn unpack_object(packed: &Packed, words: &[u64], wide: &[Rec]) -> Rec
    requires { IsOfObject packed.now }
    ensures { result ≡ record_of packed.now words.now wide.now }
{
    match packed {
        Packed::Made { kind, serial } => Rec::Made {
            object: id_of(*kind, *serial),
            form: Form::Plain,
        },
        Packed::MadeOn { core, context } => Rec::Made {
            object: id_of(Kind::Context, *context),
            form: Form::OnCore { core: *core },
        },
        Packed::Closed { kind, serial } => Rec::Closed {
            object: id_of(*kind, *serial),
        },
        _ => unreachable!(),
    }
}

/// Unpacks a record of a slot without a capability, or with one that has no badge and no guard.
fn unpack_slot(packed: &Packed, words: &[u64], wide: &[Rec]) -> Rec
    requires { IsOfSlot packed.now }
    ensures { result ≡ record_of packed.now words.now wide.now }
{
    match packed {
        Packed::Emptied { index, cnode } => slot(*cnode, *index, None),
        Packed::Filled {
            index,
            rights,
            kind,
            cnode,
            serial,
        } => {
            let cap = plain(id_of(*kind, *serial), *rights, 0);
            slot(*cnode, *index, Some(cap))
        }
        _ => unreachable!(),
    }
}

/// Unpacks a record of a thread's priority, mode or queue.
fn unpack_thread(packed: &Packed, words: &[u64], wide: &[Rec]) -> Rec
    requires { IsOfThread packed.now }
    ensures { result ≡ record_of packed.now words.now wide.now }
{
    match packed {
        Packed::Prio { priority, thread } => Rec::Prio {
            thread: thread_id(*thread),
            priority: *priority,
        },
        Packed::Turns { mode, thread } => Rec::Turns {
            thread: thread_id(*thread),
            mode: *mode,
        },
        Packed::Joins {
            side,
            thread,
            object,
        } => joins(*thread, queue_of(*side, *object), None),
        Packed::JoinsWith {
            side,
            thread,
            object,
            reply,
        } => {
            let reply = id_of(Kind::Reply, *reply);
            joins(*thread, queue_of(*side, *object), Some(reply))
        }
        Packed::Parts {
            side,
            thread,
            object,
        } => Rec::Parts {
            thread: thread_id(*thread),
            queue: queue_of(*side, *object),
        },
        _ => unreachable!(),
    }
}

/// Unpacks a record of a message taken or dropped, or of a debt.
fn unpack_debt(packed: &Packed, words: &[u64], wide: &[Rec]) -> Rec
    requires { IsOfDebt packed.now }
    ensures { result ≡ record_of packed.now words.now wide.now }
{
    match packed {
        Packed::Took { thread, message } => Rec::Took {
            message: *message,
            thread: thread_id(*thread),
        },
        Packed::Dropped { message } => Rec::Dropped { message: *message },
        Packed::Owes { caller, reply } => Rec::Owes {
            reply: id_of(Kind::Reply, *reply),
            caller: thread_id(*caller),
            context: None,
        },
        Packed::OwesWith {
            caller,
            reply,
            context,
        } => Rec::Owes {
            reply: id_of(Kind::Reply, *reply),
            caller: thread_id(*caller),
            context: Some(id_of(Kind::Context, *context)),
        },
        Packed::Void {
            ending,
            caller,
            reply,
        } => Rec::Void {
            reply: id_of(Kind::Reply, *reply),
            caller: thread_id(*caller),
            ending: *ending,
        },
        _ => unreachable!(),
    }
}

/// Unpacks a record of a context's holder or home, of a notification's thread, or of a small
/// signal.
fn unpack_bond(packed: &Packed, words: &[u64], wide: &[Rec]) -> Rec
    requires { IsOfBond packed.now }
    ensures { result ≡ record_of packed.now words.now wide.now }
{
    match packed {
        Packed::Held { thread, context } => Rec::Holds {
            context: id_of(Kind::Context, *context),
            thread: Some(thread_id(*thread)),
        },
        Packed::Unheld { context } => Rec::Holds {
            context: id_of(Kind::Context, *context),
            thread: None,
        },
        Packed::Raised {
            notification,
            badge,
        } => Rec::Raised {
            notification: id_of(Kind::Notification, *notification),
            badge: Badge(*badge as u64),
        },
        Packed::Tied {
            thread,
            notification,
        } => Rec::Tied {
            thread: thread_id(*thread),
            notification: Some(id_of(Kind::Notification, *notification)),
        },
        Packed::Untied { thread } => Rec::Tied {
            thread: thread_id(*thread),
            notification: None,
        },
        Packed::Homed {
            context,
            notification,
        } => Rec::Homed {
            context: id_of(Kind::Context, *context),
            notification: Some(id_of(Kind::Notification, *notification)),
        },
        Packed::Unhomed { context } => Rec::Homed {
            context: id_of(Kind::Context, *context),
            notification: None,
        },
        _ => unreachable!(),
    }
}

/// Unpacks a record of a slot with a capability that has a badge or a guard.
fn unpack_marked(packed: &Packed, words: &[u64], wide: &[Rec]) -> Rec
    requires of { IsOfMarked packed.now }
    requires fits { Fits packed.now words.now wide.now }
    ensures { result ≡ record_of packed.now words.now wide.now }
{
    match packed {
        Packed::FilledBadged {
            index,
            rights,
            kind,
            serial,
            at,
        } => {
            let cap = plain(id_of(*kind, *serial), *rights, words[*at as usize]);
            slot(serial_behind(words, *at), *index, Some(cap))
        }
        Packed::FilledGuarded {
            index,
            rights,
            bits,
            serial,
            at,
        } => {
            let cap = guarded(*serial, *rights, *bits, words[*at as usize]);
            slot(serial_behind(words, *at), *index, Some(cap))
        }
        _ => unreachable!(),
    }
}

/// Unpacks a record of one word: a large signal, or a word that was heard.
fn unpack_word(packed: &Packed, words: &[u64], wide: &[Rec]) -> Rec
    requires of { IsOfWord packed.now }
    requires fits { Fits packed.now words.now wide.now }
    ensures { result ≡ record_of packed.now words.now wide.now }
{
    match packed {
        Packed::RaisedAt { notification, at } => Rec::Raised {
            notification: id_of(Kind::Notification, *notification),
            badge: Badge(words[*at as usize]),
        },
        Packed::Heard {
            thread,
            notification,
            at,
        } => heard(*thread, *notification, words[*at as usize]),
        _ => unreachable!(),
    }
}

/// Unpacks a record of a message: Sent or Paid.
fn unpack_message(
    alloc: Global,
    packed: &Packed,
    words: &[u64],
    wide: &[Rec],
) -> Result<Rec, OutOfMemory>
    requires of { IsOfMessage packed.now }
    requires fits { Fits packed.now words.now wide.now }
    ensures { IfOk result (λ r. r ≡ record_of packed.now words.now wide.now) }
{
    Ok(match packed {
        Packed::Sent {
            mode,
            len,
            sender,
            endpoint,
            at,
        } => Rec::Sent {
            sender: thread_id(*sender),
            endpoint: id_of(Kind::Endpoint, *endpoint),
            mode: *mode,
            badge: Badge(words[*at as usize + 1 + *len as usize]),
            message: message_at(alloc, words, *at, *len)?,
        },
        Packed::Paid {
            len,
            caller,
            reply,
            at,
        } => Rec::Paid {
            reply: id_of(Kind::Reply, *reply),
            caller: thread_id(*caller),
            message: message_at(alloc, words, *at, *len)?,
        },
        _ => unreachable!(),
    })
}

/// Unpacks a record. A message of at most four words allocates nothing.
pub fn unpack(
    alloc: Global,
    packed: &Packed,
    words: &[u64],
    wide: &[Rec],
) -> Result<Rec, OutOfMemory>
    requires { Fits packed.now words.now wide.now }
    ensures { IfOk result (λ r. r ≡ record_of packed.now words.now wide.now) }
{
    Ok(match packed {
        Packed::Made { .. } | Packed::MadeOn { .. } | Packed::Closed { .. } => {
            unpack_object(packed, words, wide)
        }
        Packed::Emptied { .. } | Packed::Filled { .. } => unpack_slot(packed, words, wide),
        Packed::Prio { .. }
        | Packed::Turns { .. }
        | Packed::Joins { .. }
        | Packed::JoinsWith { .. }
        | Packed::Parts { .. } => unpack_thread(packed, words, wide),
        Packed::Took { .. }
        | Packed::Dropped { .. }
        | Packed::Owes { .. }
        | Packed::OwesWith { .. }
        | Packed::Void { .. } => unpack_debt(packed, words, wide),
        Packed::Held { .. }
        | Packed::Unheld { .. }
        | Packed::Raised { .. }
        | Packed::Tied { .. }
        | Packed::Untied { .. }
        | Packed::Homed { .. }
        | Packed::Unhomed { .. } => unpack_bond(packed, words, wide),
        Packed::FilledBadged { .. } | Packed::FilledGuarded { .. } => {
            unpack_marked(packed, words, wide)
        }
        Packed::RaisedAt { .. } | Packed::Heard { .. } => unpack_word(packed, words, wide),
        Packed::Sent { .. } | Packed::Paid { .. } => unpack_message(alloc, packed, words, wide)?,
        Packed::Wide { at } => wide[*at as usize].copy(alloc)?,
    })
}
