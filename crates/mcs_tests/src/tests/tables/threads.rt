//! The table of threads.
use super::names::{notification, object, reply, thread};
use super::rows::{named, row_of};
use crate::tests::texts::{NONE, byte};
use mcs_threads::{Block, Threads};
use mcs_types::{Badge, Cap, Guard, Kind, Mail, Message, Mode, ObjId, Prio, Queue, Rights, Status};
use std::alloc::Global;
use std::test::Fail;

/// A capability to the first CNode, with no guard.
fn root() -> Option<Cap> {
    Some(Cap {
        obj: object(Kind::CNode, 1),
        rights: Rights::new(0)?,
        badge: Badge(0),
        guard: Guard { bits: 0, value: 0 },
    })
}

const RECEIVERS: Queue = Queue::Receivers(ObjId {
    kind: Kind::Endpoint,
    serial: 3,
});

const OWN: ObjId = ObjId {
    kind: Kind::Reply,
    serial: 4,
};

const RECEIVES: Block = Block::Queued {
    queue: RECEIVERS,
    reply: Some(OWN),
};

const CALLS: Block = Block::OnReply { reply: OWN };

/// Returns whether a thread exists, and so is changed.
fn is_done(threads: &mut Threads, call: &str, id: ObjId, number: u32) -> bool {
    let done = match call {
        "run" => threads.set_mode(id, Mode::Running),
        "restart" => threads.set_mode(id, Mode::Restart),
        "prio" => threads.set_prio(id, Prio(byte(number))),
        "receive" => threads.block(id, RECEIVES),
        "call" => threads.block(id, CALLS),
        "unblock" => threads.unblock(id),
        "tie" => threads.tie(id, notification(number)),
        "untie" => threads.untie(id),
        "close" => threads.close(id),
        _ => None,
    };
    done.is_some()
}

/// Returns the status for a number of a row, and the queue that the thread is then in.
fn status_of(number: u32) -> (Status, Option<Queue>) {
    match number {
        1 => (Status::Running, None),
        2 => (Status::Restart, None),
        3 => (Status::Queued(RECEIVERS), Some(RECEIVERS)),
        4 => (Status::OnReply(OWN), None),
        _ => (Status::Inactive, None),
    }
}

/// Returns whether a thread has this priority, status and notification. A queued one receives with
/// its own reply object and with no other.
fn is_kept(threads: &Threads, serial: u32, kept: [u32; 3]) -> bool {
    let Some(row) = threads.get(thread(serial)) else {
        return kept[0] == NONE;
    };
    let (status, queue) = status_of(kept[1]);
    row.priority == Prio(byte(kept[0]))
        && row.status() == status
        && row.notification == named(Kind::Notification, kept[2])
        && row.queue() == queue
        && row.receives_with(OWN) == queue.is_some()
        && !row.receives_with(reply(5))
}

/// Adds a thread if there is room. Returns whether it has this serial, and keeps what it was given.
fn is_added(threads: &mut Threads, serial: u32, maximum: u8, root: &Cap) -> bool {
    if threads.made() >= 256 {
        return false;
    }
    let id = threads.add(Prio(maximum), root.again());
    match threads.get(id) {
        Some(row) => { id == thread(serial) && row.maximum == Prio(maximum) && row.root == *root }
        None => false,
    }
}

/// Changes of threads, whether they are done, and then the priority, the status (0 inactive, 1
/// running, 2 restart, 3 receiving, 4 owed a reply) and the notification of the first two.
const CHANGES: &str = "\
prio 1 5 = done 5 0 - 0 0 -
run 1 = done 5 1 - 0 0 -
tie 1 1 = done 5 1 1 0 0 -
untie 1 = done 5 1 - 0 0 -
run 3 = not 5 1 - 0 0 -
prio 3 1 = not 5 1 - 0 0 -
receive 2 = done 5 1 - 0 3 -
call 2 = done 5 1 - 0 4 -
unblock 2 = done 5 1 - 0 0 -
restart 2 = done 5 1 - 0 2 -
close 1 = done - - - 0 2 -
close 1 = not - - - 0 2 -
untie 1 = not - - - 0 2 -
";

/// Returns whether the change of a line is done or not, and the table agrees with it afterwards.
fn is_changed(threads: &mut Threads, line: &str) -> bool {
    let Some(row) = row_of(line) else {
        return false;
    };
    let (call, answer) = (row.0, row.2);
    let given = row.1;
    let kept = row.3;
    is_done(threads, call, thread(given[0]), given[1]) == (answer == "done")
        && is_kept(threads, 1, [kept[0], kept[1], kept[2]])
        && is_kept(threads, 2, [kept[3], kept[4], kept[5]])
}

/// Returns whether a thread keeps a message that reaches it, until it is closed.
fn keeps_mail(alloc: Global, threads: &mut Threads, id: ObjId) -> Result<bool, Fail> {
    let message = Message::new(alloc, 7, &[5, 6])?.ok_or("too many words")?;
    let badge = Badge(3);
    if threads.mail(id).is_some() {
        return Ok(false);
    }
    let is_set = threads
        .set_mail(id, Mail::Message { badge, message })
        .is_some();
    let is_kept = match threads.mail(id) {
        Some(Mail::Message { message, .. }) => message.label() == 7,
        _ => false,
    };
    Ok(is_set && is_kept && threads.close(id).is_some() && threads.mail(id).is_none())
}

#[test]
fn rows_of_threads_are_changed(rt: HostRuntime) -> Result<(), Fail> {
    let root = root().ok_or("no right")?;
    let mut threads = Threads::new(rt.alloc())?;
    assert!(rt; is_added(&mut threads, 1, 9, &root) && is_added(&mut threads, 2, 7, &root));
    threads.are_few();
    for line in CHANGES.lines() {
        assert!(rt; is_changed(&mut threads, line), "{line}");
    }
    // it is no thread
    let is_none = threads.set_prio(reply(2), Prio(1)).is_none();
    assert!(rt; is_none && threads.made() == 2 && is_added(&mut threads, 3, 1, &root));
    assert!(rt; keeps_mail(rt.alloc(), &mut threads, thread(3))?);
    Ok(())
}
