//! The first example, and a long call with its answer, as calls of the kernel.

use mcs_book::Book;
use mcs_kernel::{Boot, EnterFault, Kernel};
use mcs_queues::LinkedLines;
use mcs_sim::{SimFault, Sink, trace};
use mcs_types::{
    Badge, BootFault, BootLine, Cap, CoreId, Entry, Guard, Kind, MESSAGE_WORDS, Mail, Message,
    ObjId, OutOfMemory, Prio, Rights, Status,
};
use std::alloc::Global;

/// The objects that the boot makes first.
const OBJECTS: [BootLine; 11] = [
    BootLine::CNode { radix: 5 },
    BootLine::Endpoint,
    BootLine::Endpoint,
    BootLine::Notification,
    BootLine::Reply,
    BootLine::Reply,
    BootLine::Context { core: CoreId(0) },
    BootLine::Context { core: CoreId(0) },
    BootLine::Context { core: CoreId(0) },
    BootLine::Context { core: CoreId(0) },
    BootLine::Context { core: CoreId(0) },
];

/// The priorities of the threads, each with a context of the same serial.
const THREADS: &[(u32, u8)] = &[(1, 10), (2, 20), (3, 10), (4, 20), (5, 30)];

/// The slots that are filled: index, object, bits of the rights, badge.
const SLOTS: &[(u8, Kind, u32, u8, u64)] = &[
    (1, Kind::Endpoint, 1, 1, 9),
    (2, Kind::Endpoint, 1, 15, 0),
    (3, Kind::Endpoint, 2, 15, 0),
    (4, Kind::Notification, 1, 3, 0),
    (5, Kind::Notification, 1, 1, 1),
    (6, Kind::Notification, 1, 1, 2),
    (7, Kind::Notification, 1, 1, 4),
    (8, Kind::Reply, 1, 0, 0),
    (9, Kind::Reply, 2, 0, 0),
    (11, Kind::Thread, 1, 0, 0),
    (12, Kind::Thread, 2, 0, 0),
    (13, Kind::Thread, 3, 0, 0),
    (14, Kind::Thread, 4, 0, 0),
    (15, Kind::Thread, 5, 0, 0),
    (21, Kind::Context, 1, 0, 0),
    (22, Kind::Context, 2, 0, 0),
    (23, Kind::Context, 3, 0, 0),
    (24, Kind::Context, 4, 0, 0),
    (25, Kind::Context, 5, 0, 0),
];

/// A call failed twice, or changed something although it failed.
#[derive(Drop)]
pub struct Failed;

impl From<BootFault> for Failed {
    fn from(_fault: BootFault) -> Failed {
        Failed
    }
}

impl From<EnterFault> for Failed {
    fn from(_fault: EnterFault) -> Failed {
        Failed
    }
}

impl From<OutOfMemory> for Failed {
    fn from(_fault: OutOfMemory) -> Failed {
        Failed
    }
}

impl From<SimFault> for Failed {
    fn from(_fault: SimFault) -> Failed {
        Failed
    }
}

fn object(kind: Kind, serial: u32) -> ObjId {
    ObjId { kind, serial }
}

fn thread(serial: u32, priority: u8) -> BootLine {
    BootLine::Thread {
        priority: Prio(priority),
        maximum: Prio(255),
        root: object(Kind::CNode, 1),
        guard: Guard { bits: 59, value: 0 },
        runs: true,
        context: Some(object(Kind::Context, serial)),
    }
}

fn slot(index: u8, obj: ObjId, rights: Rights, badge: u64) -> BootLine {
    BootLine::Slot {
        cnode: object(Kind::CNode, 1),
        index,
        cap: Cap {
            obj,
            rights,
            badge: Badge(badge),
            guard: Guard { bits: 0, value: 0 },
        },
    }
}

/// Adds a line, retrying once after a failed allocation; a refusal adds none.
fn add(boot: &mut Boot, line: &BootLine) -> Result<(), Failed> {
    let before = boot.lines().len();
    match boot.add(*line) {
        Ok(()) => Ok(()),
        Err(BootFault::OutOfMemory) if boot.lines().len() == before => Ok(boot.add(*line)?),
        Err(_) => Err(Failed),
    }
}

/// The boot of the example.
pub fn booted(alloc: Global) -> Result<Boot, Failed> {
    let mut boot = match Boot::new(alloc, 1) {
        Ok(boot) => boot,
        Err(_) => Boot::new(alloc, 1)?,
    };
    for line in &OBJECTS {
        add(&mut boot, line)?;
    }
    for &(serial, priority) in THREADS {
        add(&mut boot, &thread(serial, priority))?;
    }
    for &(index, kind, serial, bits, badge) in SLOTS {
        let rights = Rights::new(bits).ok_or(Failed)?;
        add(&mut boot, &slot(index, object(kind, serial), rights, badge))?;
    }
    Ok(boot)
}

/// Returns a message of `count` words, the first two 5 and 6, retrying once after a failed
/// allocation.
fn message(alloc: Global, label: u64, count: usize) -> Result<Message, Failed> {
    let mut words = [0; MESSAGE_WORDS];
    for (i, word) in words.iter_mut().enumerate() {
        *word = (i as u64).wrapping_add(5);
    }
    let words = words.get(..count).ok_or(Failed)?;
    let made = match Message::new(alloc, label, words) {
        Ok(made) => made,
        Err(OutOfMemory) => Message::new(alloc, label, words)?,
    };
    made.ok_or(Failed)
}

/// Returns a copy of an entry, retrying once after a failed allocation.
pub fn copy(alloc: Global, entry: &Entry) -> Result<Entry, Failed> {
    match entry.copy(alloc) {
        Ok(entry) => Ok(entry),
        Err(OutOfMemory) => Ok(entry.copy(alloc)?),
    }
}

/// Returns the entries of the example: a message is received, and then a call of 120 words gets a
/// reply of 60 by ReplyRecv.
pub fn entries(alloc: Global) -> Result<[(ObjId, Entry); 5], Failed> {
    let (first, second) = (object(Kind::Thread, 1), object(Kind::Thread, 2));
    let (cap, reply) = (2, 8);
    let sends = Entry::Send {
        cap: 1,
        message: message(alloc, 7, 2)?,
    };
    let calls = Entry::Call {
        cap,
        message: message(alloc, 8, MESSAGE_WORDS)?,
    };
    let replies = Entry::ReplyRecv {
        cap,
        reply,
        message: message(alloc, 9, MESSAGE_WORDS / 2)?,
    };
    Ok([
        (first, sends),
        (second, Entry::Recv { cap, reply }),
        (first, calls),
        (second, Entry::Recv { cap, reply }),
        (second, replies),
    ])
}

/// Returns what a kernel reports of a thread: its status, and the label and the number of words of
/// its mail.
fn thread_state(
    kernel: &Kernel<LinkedLines>,
    thread: ObjId,
) -> (Option<Status>, Option<(u64, usize)>) {
    let mail = match kernel.mail(thread) {
        Some(Mail::Message { message, .. }) => Some((message.label(), message.words().len())),
        _ => None,
    };
    (kernel.status(thread), mail)
}

/// Returns what a kernel reports: how many lines its book has, and the same of both threads.
fn seen(kernel: &Kernel<LinkedLines>) -> (usize, [(Option<Status>, Option<(u64, usize)>); 2]) {
    let threads = [1, 2].map(|serial| thread_state(kernel, object(Kind::Thread, serial)));
    (kernel.book().lines(), threads)
}

/// Enters an entry, retrying once after a failed allocation; a refusal changes nothing.
fn enter(
    alloc: Global,
    kernel: &mut Kernel<LinkedLines>,
    thread: ObjId,
    entry: &Entry,
) -> Result<(), Failed> {
    let before = seen(kernel);
    match kernel.enter(alloc, CoreId(0), thread, copy(alloc, entry)?) {
        Ok(_) => Ok(()),
        Err(EnterFault::OutOfMemory) if seen(kernel) == before => {
            kernel.enter(alloc, CoreId(0), thread, copy(alloc, entry)?)?;
            Ok(())
        }
        Err(_) => Err(Failed),
    }
}

fn add_trace(alloc: Global, book: &Book, text: &mut Vec<u8>) -> Result<(), Failed> {
    let mut sink = Sink::new(alloc, text).map_err(|_| Failed)?;
    trace(book, &mut sink)?;
    Ok(())
}

/// Returns the trace of a book, retrying once after a failed allocation.
pub fn text_of(alloc: Global, book: &Book) -> Result<Vec<u8>, Failed> {
    let mut text = Vec::new(alloc);
    if add_trace(alloc, book, &mut text).is_err() {
        text.clear();
        add_trace(alloc, book, &mut text)?;
    }
    Ok(text)
}

/// Returns the trace of the example, made by calls of the kernel.
pub fn trace_of_calls(alloc: Global) -> Result<Vec<u8>, Failed> {
    let boot = booted(alloc)?;
    let mut kernel = match Kernel::new(alloc, &boot) {
        Ok(kernel) => kernel,
        Err(_) => Kernel::new(alloc, &boot).map_err(|_| Failed)?,
    };
    for (thread, entry) in &entries(alloc)? {
        enter(alloc, &mut kernel, *thread, entry)?;
    }
    text_of(alloc, kernel.book())
}
