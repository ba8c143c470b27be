//! A book returns the lines that were added to it.
use crate::tests::texts::{replay_of, trace_of};
use mcs_book::{Book, Line};
use mcs_types::{
    Badge, Cap, CoreId, Ending, Form, Guard, Kind, MESSAGE_WORDS, Message, Mode, ObjId, Prio,
    Queue, Rec, Rights, SendMode, Step,
};
use std::alloc::Global;
use std::test::Fail;

/// Each entry, with the greatest numbers if it is refused, and each answer: receives with a short
/// and with a long message.
const ENTRIES: &str = "\
cores 1
cnode 5
cnode 1
endpoint
notification
reply
context 0
context 0
thread 10 255 c1 59 0 run s1
thread 20 255 c1 59 0 run s2
slot c1 1 e1 rwgp 0
slot c1 2 n1 rw 18446744073709551615
slot c1 3 r1
slot c1 4 e1 w 18446744073709551615
slot c1 12 c2 0 0
0 t1 recv 18446744073709551615 1
0 t1 nbrecv 18446744073709551615 1
0 t1 wait 18446744073709551615
0 t1 nbwait 2
0 t1 signal 2
0 t1 nbwait 2
0 t1 setprio 18446744073709551614 4 255
0 t1 suspend 18446744073709551614
0 t1 resume 18446744073709551614
0 t1 bindntfn 18446744073709551614 2
0 t1 unbindntfn 18446744073709551614
0 t1 bind 18446744073709551613 18446744073709551614
0 t1 unbind 18446744073709551613
0 t1 cancel 3
0 t1 nbsend 18446744073709551615 4503599627370495 18446744073709551615
0 t1 send 4 4503599627370495 18446744073709551615 18446744073709551614 18446744073709551613 18446744073709551612
0 t2 nbrecv 1 3
0 t1 call 1 4503599627370495 18446744073709551615 18446744073709551614 18446744073709551613 18446744073709551612 18446744073709551611 18446744073709551610 18446744073709551609 18446744073709551608 18446744073709551607 18446744073709551606 18446744073709551605 18446744073709551604 18446744073709551603 18446744073709551602 18446744073709551601 18446744073709551600 18446744073709551599 18446744073709551598 18446744073709551597 18446744073709551596 18446744073709551595 18446744073709551594 18446744073709551593 18446744073709551592 18446744073709551591 18446744073709551590 18446744073709551589 18446744073709551588 18446744073709551587 18446744073709551586 18446744073709551585 18446744073709551584 18446744073709551583 18446744073709551582 18446744073709551581 18446744073709551580 18446744073709551579 18446744073709551578 18446744073709551577 18446744073709551576 18446744073709551575 18446744073709551574 18446744073709551573 18446744073709551572 18446744073709551571 18446744073709551570 18446744073709551569 18446744073709551568 18446744073709551567 18446744073709551566 18446744073709551565 18446744073709551564 18446744073709551563 18446744073709551562 18446744073709551561 18446744073709551560 18446744073709551559 18446744073709551558 18446744073709551557 18446744073709551556 18446744073709551555 18446744073709551554 18446744073709551553 18446744073709551552 18446744073709551551 18446744073709551550 18446744073709551549 18446744073709551548 18446744073709551547 18446744073709551546 18446744073709551545 18446744073709551544 18446744073709551543 18446744073709551542 18446744073709551541 18446744073709551540 18446744073709551539 18446744073709551538 18446744073709551537 18446744073709551536 18446744073709551535 18446744073709551534 18446744073709551533 18446744073709551532 18446744073709551531 18446744073709551530 18446744073709551529 18446744073709551528 18446744073709551527 18446744073709551526 18446744073709551525 18446744073709551524 18446744073709551523 18446744073709551522 18446744073709551521 18446744073709551520 18446744073709551519 18446744073709551518 18446744073709551517 18446744073709551516 18446744073709551515 18446744073709551514 18446744073709551513 18446744073709551512 18446744073709551511 18446744073709551510 18446744073709551509 18446744073709551508 18446744073709551507 18446744073709551506 18446744073709551505 18446744073709551504 18446744073709551503 18446744073709551502 18446744073709551501 18446744073709551500 18446744073709551499 18446744073709551498 18446744073709551497 18446744073709551496
0 t2 recv 1 3
0 t2 send 18446744073709551615 4503599627370495
0 t2 replyrecv 18446744073709551615 1 4503599627370495 18446744073709551615 18446744073709551614 18446744073709551613 18446744073709551612 18446744073709551611
0 t2 nbsendrecv 18446744073709551615 1 3 4503599627370495 18446744073709551615
0 t2 nbsendwait 18446744073709551615 1 4503599627370495 18446744073709551615 18446744073709551614 18446744073709551613 18446744073709551612 18446744073709551611
0 t2 copy 18446744073709551615 64 1 255 rwgp
0 t2 mint 18446744073709551615 64 1 255 rwgp 18446744073709551615
0 t2 move 18446744073709551615 64 1 255
0 t2 delete 1 255
0 t2 make endpoint 1 255
0 t2 make notification 1 255
0 t2 make reply 1 255
0 t2 make context 1 255
0 t2 delete 12 64
";

/// The number of these entries.
const COUNT: usize = 32;

/// A CNode, a thread, an endpoint, a notification, a reply object and a context, with large
/// serials.
const OWN: [ObjId; 6] = [
    ObjId {
        kind: Kind::CNode,
        serial: u32::MAX,
    },
    ObjId {
        kind: Kind::Thread,
        serial: 4_294_967_294,
    },
    ObjId {
        kind: Kind::Endpoint,
        serial: 4_294_967_293,
    },
    ObjId {
        kind: Kind::Notification,
        serial: 4_294_967_292,
    },
    ObjId {
        kind: Kind::Reply,
        serial: 4_294_967_291,
    },
    ObjId {
        kind: Kind::Context,
        serial: 4_294_967_290,
    },
];

/// Objects of other kinds in the same positions: no run makes such records, but a record may have
/// them.
const ODD: [ObjId; 6] = [
    ObjId {
        kind: Kind::Thread,
        serial: u32::MAX,
    },
    ObjId {
        kind: Kind::Endpoint,
        serial: 4_294_967_294,
    },
    ObjId {
        kind: Kind::Notification,
        serial: 4_294_967_293,
    },
    ObjId {
        kind: Kind::Reply,
        serial: 4_294_967_292,
    },
    ObjId {
        kind: Kind::Context,
        serial: 4_294_967_291,
    },
    ObjId {
        kind: Kind::CNode,
        serial: 4_294_967_290,
    },
];

/// A thread that enters.
const THREAD: ObjId = ObjId {
    kind: Kind::Thread,
    serial: 4_294_967_286,
};

fn cap_to(obj: ObjId, badge: u64, bits: u8, value: u64) -> Option<Cap> {
    Some(Cap {
        obj,
        rights: Rights::new(15)?,
        badge: Badge(badge),
        guard: Guard { bits, value },
    })
}

/// Returns the record with this number about objects made or closed, or slots.
fn of_objects(number: usize, names: [ObjId; 6]) -> Option<Rec> {
    let [cnode, thread, endpoint, notification, reply, context] = names;
    let (maximum, core) = (Prio(255), CoreId(255));
    let (object, form) = match number {
        0 => (endpoint, Form::Plain),
        1 => (cnode, Form::Slots { radix: 8 }),
        2 => (context, Form::OnCore { core }),
        3 => {
            let root = cap_to(cnode, 0, 63, u64::MAX)?;
            (thread, Form::Runner { maximum, root })
        }
        4 => return Some(Rec::Closed { object: reply }),
        _ => {
            let cap = match number {
                5 => None,
                6 => cap_to(endpoint, 0, 0, 0),
                7 => cap_to(endpoint, u64::MAX, 0, 0),
                8 => cap_to(cnode, 0, 63, u64::MAX),
                9 => cap_to(cnode, 0, 0, 1),
                10 => cap_to(notification, 7, 5, 3),
                _ => return None,
            };
            let index = 255;
            return Some(Rec::Slot { cnode, index, cap });
        }
    };
    Some(Rec::Made { object, form })
}

/// Returns the record with this number about a thread's mode, context or notification, or a
/// context's home.
fn of_threads(number: usize, names: [ObjId; 6]) -> Option<Rec> {
    let [_, thread, _, other, _, context] = names;
    let priority = Prio(255);
    let notification = if number % 2 == 0 { None } else { Some(other) };
    let mode = match number {
        0 => return Some(Rec::Prio { thread, priority }),
        1 => Mode::Running,
        2 => Mode::Restart,
        3 => Mode::Inactive,
        4 => {
            let thread = None;
            return Some(Rec::Holds { context, thread });
        }
        5 => {
            let thread = Some(thread);
            return Some(Rec::Holds { context, thread });
        }
        6 | 7 => {
            return Some(Rec::Tied {
                thread,
                notification,
            });
        }
        8 | 9 => {
            return Some(Rec::Homed {
                context,
                notification,
            });
        }
        _ => return None,
    };
    Some(Rec::Turns { thread, mode })
}

/// Returns the record with this number about a thread that joins a queue, with or without a reply
/// object, or leaves it.
fn of_queues(number: usize, names: [ObjId; 6]) -> Option<Rec> {
    let [_, thread, endpoint, notification, own, _] = names;
    let queue = match number {
        0..=2 => Queue::Senders(endpoint),
        3..=5 => Queue::Receivers(endpoint),
        6..=8 => Queue::Waiters(notification),
        _ => return None,
    };
    let reply = match number % 3 {
        0 => None,
        1 => Some(own),
        _ => return Some(Rec::Parts { thread, queue }),
    };
    Some(Rec::Joins {
        thread,
        queue,
        reply,
    })
}

/// Returns the record with this number about messages taken or dropped, words, or debts.
fn of_words(number: usize, names: [ObjId; 6]) -> Option<Rec> {
    let [_, thread, _, notification, reply, lent] = names;
    let caller = thread;
    let (message, word) = match number {
        0 | 1 => (0, 0),
        2 | 3 => (2, 0),
        4 | 5 => (u32::MAX, 0),
        6 | 7 => (0, 0),
        8 | 9 => (0, u64::MAX),
        10 | 11 => {
            let context = if number == 10 { None } else { Some(lent) };
            return Some(Rec::Owes {
                reply,
                caller,
                context,
            });
        }
        12 | 13 => {
            let ending = if number == 12 {
                Ending::Deleted
            } else {
                Ending::Cancelled
            };
            return Some(Rec::Void {
                reply,
                caller,
                ending,
            });
        }
        _ => return None,
    };
    Some(match (number < 6, number % 2 == 0) {
        (true, true) => Rec::Took { message, thread },
        (true, false) => Rec::Dropped { message },
        (false, true) => Rec::Raised {
            notification,
            badge: Badge(word),
        },
        (false, false) => Rec::Heard {
            thread,
            notification,
            word,
        },
    })
}

/// Returns a message with the greatest label and `count` words, from the greatest down.
fn message(alloc: Global, count: u64) -> Result<Message, Fail> {
    let mut words = Vec::new(alloc);
    for i in 0..count {
        words.push(!i)?;
    }
    Ok(Message::new(alloc, (1 << 52) - 1, &words)?.ok_or("message")?)
}

/// How messages are sent, with which badges, and with how many words. The first long one fits among
/// the words; the next, and that of a reply, are kept unpacked.
const SENT: &[(SendMode, u64, u64)] = &[
    (SendMode::Plain, 0, 0),
    (SendMode::Call, 9, 1),
    (SendMode::Mute, u64::MAX, 4),
    (SendMode::Call, 9, MESSAGE_WORDS as u64),
    (SendMode::Plain, 0, 5),
];

/// Returns the record with this number about messages: sent, and then a reply.
fn of_messages(alloc: Global, number: usize, names: [ObjId; 6]) -> Result<Rec, Fail> {
    let [_, thread, endpoint, _, reply, _] = names;
    match SENT.get(number) {
        Some(&(mode, badge, words)) => Ok(Rec::Sent {
            sender: thread,
            endpoint,
            mode,
            badge: Badge(badge),
            message: message(alloc, words)?,
        }),
        None => Ok(Rec::Paid {
            reply,
            caller: thread,
            message: message(alloc, MESSAGE_WORDS as u64)?,
        }),
    }
}

/// Notes a record in the open line of a book.
fn note(book: &mut Book, fact: Option<Rec>) -> Result<(), Fail> {
    if let Some(fact) = fact {
        book.reserve(1)?;
        book.note(fact);
    }
    Ok(())
}

/// Notes records of all kinds.
fn note_all(alloc: Global, book: &mut Book, names: [ObjId; 6]) -> Result<(), Fail> {
    for number in 0..14 {
        note(book, of_objects(number, names))?;
        note(book, of_threads(number, names))?;
        note(book, of_words(number, names))?;
    }
    for number in 0..9 {
        note(book, of_queues(number, names))?;
    }
    for number in 0..=SENT.len() {
        note(book, Some(of_messages(alloc, number, names)?))?;
    }
    Ok(())
}

/// Adds a line with the entry of one line, the answer of another, and records of all kinds; every
/// second line is about the objects in `ODD`, the others about those in `OWN`.
fn add_line(
    alloc: Global,
    book: &mut Book,
    entering: &Line<'_>,
    answered: &Line<'_>,
) -> Result<(), Fail> {
    let names = if book.lines() % 2 == 0 { OWN } else { ODD };
    note_all(alloc, book, names)?;
    let answer = answered.answer(alloc)?;
    let entered = entering.step(alloc)?;
    let step = Step {
        core: CoreId(255),
        thread: THREAD,
        entry: entered.entry,
    };
    book.reserve(0)?;
    book.close(&step, &answer);
    Ok(())
}

/// Adds a line for each line of a book, with the answers in reverse order.
fn add_lines(alloc: Global, book: &mut Book, from: &Book) -> Result<(), Fail> {
    let lines = from.lines();
    for i in 1..lines {
        let entering = from.line(i).ok_or("an entry")?;
        let answered = from.line(lines.saturating_sub(i)).ok_or("an answer")?;
        add_line(alloc, book, &entering, &answered)?;
    }
    Ok(())
}

/// Adds the records that a line returns.
fn put_again(alloc: Global, records: &mut Vec<Rec>, line: &Line<'_>) -> Result<(), Fail> {
    for i in 0..line.record_count() {
        records.push(line.record(alloc, i)?.ok_or("record")?)?;
    }
    Ok(())
}

/// Adds a line with what another line returns.
fn add_again(alloc: Global, book: &mut Book, line: &Line<'_>) -> Result<(), Fail> {
    let mut records = Vec::new(alloc);
    put_again(alloc, &mut records, line)?;
    book.reserve(records.len())?;
    book.append(&line.step(alloc)?, &line.answer(alloc)?, &mut records);
    Ok(())
}

/// Adds the lines of a book after its boot to another book.
fn add_lines_again(alloc: Global, other: &mut Book, book: &Book) -> Result<(), Fail> {
    for i in 1..book.lines() {
        add_again(alloc, other, &book.line(i).ok_or("line")?)?;
    }
    Ok(())
}

/// The beginning of the text: the first entry, the last answer, and its records with odd objects.
const BEGINNING: &str = "\
cores 2
255 t4294967286 recv 18446744073709551615 1
= refused 13
+ made n4294967293
+ prio e4294967294 255
+ took m0 e4294967294
+ made t4294967295
+ turns e4294967294 running
+ dropped m0
+ made c4294967290
+ turns e4294967294 restart
+ took m2 e4294967294
+ made e4294967294
+ turns e4294967294 inactive
+ dropped m2
+ closed s4294967291
+ holds c4294967290 -
+ took m4294967295 e4294967294
+ slot t4294967295 255 -
+ holds c4294967290 e4294967294
+ dropped m4294967295
+ slot t4294967295 255 n4294967293 rwgp 0
+ tied e4294967294 -
+ raised r4294967292 0
+ slot t4294967295 255 n4294967293 rwgp 18446744073709551615
+ tied e4294967294 r4294967292
+ heard e4294967294 r4294967292 0
+ slot t4294967295 255 t4294967295
+ homed c4294967290 -
+ raised r4294967292 18446744073709551615
+ slot t4294967295 255 t4294967295
+ homed c4294967290 r4294967292
+ heard e4294967294 r4294967292 18446744073709551615
+ slot t4294967295 255 r4294967292
";

/// Returns the text of a book with a line for each entry.
fn first_text(alloc: Global, book: &mut Book) -> Result<Vec<u8>, Fail> {
    let run = replay_of(alloc, ENTRIES)?;
    match run.book() {
        Some(from) => add_lines(alloc, book, from)?,
        None => return Err(Fail::from("a book")),
    }
    trace_of(alloc, book)
}

/// Returns the text of a book with what another book returns.
fn second_text(alloc: Global, book: &Book) -> Result<Vec<u8>, Fail> {
    let mut other = Book::new(alloc, 2);
    add_lines_again(alloc, &mut other, book)?;
    trace_of(alloc, &other)
}

#[test]
fn a_book_gives_back_its_lines(rt: HostRuntime) -> Result<(), Fail> {
    let mut book = Book::new(rt.alloc(), 2);
    let text = first_text(rt.alloc(), &mut book)?;
    assert!(rt; book.lines() == COUNT + 1);
    assert!(rt; text.starts_with(BEGINNING.as_bytes()) && text.len() > COUNT * 1_000);
    let again = second_text(rt.alloc(), &book)?;
    assert!(rt; again == text);
    Ok(())
}
