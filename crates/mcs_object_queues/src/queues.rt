//! The queues of endpoints and notifications as lines with numbers.
ghost use Rattle.std.specs.Prelude.{IfOk, ◌≡◌, ◌≤◌, ◌<◌, ◌+◌, IfSome};
ghost use Rattle.mcs_types.specs.declared.id.ObjId.{ObjId};
ghost use Rattle.mcs_types.specs.declared.id.Kind.{Kind};
ghost use Rattle.mcs_types.specs.Ids.{place_of};
ghost use Rattle.mcs_queues.specs.Numbers.{thread_number, line_number};
ghost use Rattle.mcs_objects.specs.Store.{shape, is_full};
ghost use Rattle.mcs_object_queues.specs.Places.{thread_at, below_room, number_of};

use crate::interface::Waiting;
use mcs_objects::Store;
use mcs_queues::{LineNo, Lines, ThreadNo};
use mcs_types::{Kind, OBJECTS, ObjId, OutOfMemory, Prio, Queue};
use std::alloc::Global;
use std::marker::Model;

/// The first line of receivers, and the first of waiters; the lines of senders begin at 0.
const RECEIVERS: u16 = OBJECTS;

const WAITERS: u16 = 2 * OBJECTS;

/// The number of lines.
const LINES: u16 = 3 * OBJECTS;

/// The queues of endpoints and notifications, each as a numbered line of `L`. The number follows
/// from the place of the object in its store, which a later object can reuse. An object is removed
/// only if its queues are empty, so the lines of a vacant place are empty (own).
pub struct ObjectQueues<L: Lines> {
    endpoints: Store<()>,
    notifications: Store<()>,
    lines: L,
}

// Written by hand as a separate function: a derived drop would be proved again wherever it is
// dropped.
impl<L: Lines> Drop for ObjectQueues<L> {
    fn drop(self) {
        let ObjectQueues {
            endpoints: _,
            notifications: _,
            lines: _,
        } = self;
    }
}

impl<L: Lines> Model for ObjectQueues<L> {
    ghost use Rattle.mcs_object_queues.specs.Places.{Placed, IsPlaced};

    ghost Value = { Placed (Unit {0}) L };

    ghost view = { λ s. record {
      endpoints = s.endpoints;
      notifications = s.notifications;
      lines = s.lines;
    } };

    ghost invariant = { λ s. IsPlaced s.endpoints s.notifications
        (L.line s.lines) (L.place s.lines) (L.rooms s.lines) };
}

/// Returns the number of a thread with a serial from 1 to 256.
fn thread_no(thread: ObjId) -> Option<ThreadNo>
    ensures { thread_number result ≡ below_room (place_of Kind.Thread thread) }
{
    let place = thread.place(Kind::Thread)?;
    if place < OBJECTS as usize {
        Some(ThreadNo(place as u16))
    } else {
        None
    }
}

/// The thread of a number.
fn thread_id(thread: ThreadNo) -> ObjId
    ensures { result ≡ thread_at thread.0 }
{
    ObjId {
        kind: Kind::Thread,
        serial: thread.0 as u32 + 1,
    }
}

/// Returns the number of the line of a queue, if its object exists.
// inlined: callers know the kind of the queue
#[inline(always)]
fn line_no(endpoints: &Store<()>, notifications: &Store<()>, queue: Queue) -> Option<LineNo>
    requires endpoints { (shape endpoints.now).room ≤ 256 }
    requires notifications { (shape notifications.now).room ≤ 256 }
    ensures number { line_number result ≡ number_of endpoints.now notifications.now queue }
    ensures below { IfSome result (λ n. n.0 < 768) }
{
    endpoints.are_apart();
    notifications.are_apart();
    match queue {
        Queue::Senders(endpoint) => Some(LineNo(endpoints.place(endpoint)?)),
        Queue::Receivers(endpoint) => Some(LineNo(RECEIVERS + endpoints.place(endpoint)?)),
        Queue::Waiters(notification) => Some(LineNo(WAITERS + notifications.place(notification)?)),
    }
}

impl<L: Lines> ObjectQueues<L> {
    /// The endpoints, the notifications and their lines.
    fn into_parts(self) -> (Store<()>, Store<()>, L) {
        let ObjectQueues {
            endpoints,
            notifications,
            lines,
        } = self;
        (endpoints, notifications, lines)
    }
}

impl<L: Lines> Waiting for ObjectQueues<L> {
    ghost use Rattle.mcs_object_queues.specs.Places.{line_of, queue_of, has_object, given_of, there_of};

    ghost line = { λ s. line_of s.endpoints s.notifications (L.line s.lines) };

    ghost queue = { λ s. queue_of s.endpoints s.notifications (L.place s.lines) };

    ghost has = { λ s. has_object s.endpoints s.notifications };

    ghost given = { λ s. given_of s.endpoints s.notifications };

    ghost there = { λ s. there_of s.endpoints s.notifications };

    fn new(alloc: Global) -> Result<ObjectQueues<L>, OutOfMemory> {
        Ok(ObjectQueues {
            endpoints: Store::with_room(alloc, Kind::Endpoint, OBJECTS)?,
            notifications: Store::with_room(alloc, Kind::Notification, OBJECTS)?,
            lines: L::new(alloc, OBJECTS, LINES)?,
        })
    }

    fn made(&self, kind: Kind) -> u32 {
        match kind {
            Kind::Endpoint => self.endpoints.given(),
            Kind::Notification => self.notifications.given(),
            _ => 0,
        }
    }

    fn count(&self, kind: Kind) -> usize {
        match kind {
            Kind::Endpoint => self.endpoints.len(),
            Kind::Notification => self.notifications.len(),
            _ => 0,
        }
    }

    fn is_full(&self, kind: Kind) -> bool {
        self.count(kind) == OBJECTS as usize || self.made(kind) == u32::MAX
    }

    fn is_there(&self, of: Queue) -> bool {
        match of {
            Queue::Senders(endpoint) | Queue::Receivers(endpoint) => {
                self.endpoints.place(endpoint).is_some()
            }
            Queue::Waiters(notification) => self.notifications.place(notification).is_some(),
        }
    }

    fn copy(
        &self,
        alloc: Global,
        spare: Option<ObjectQueues<L>>,
    ) -> Result<ObjectQueues<L>, OutOfMemory>
        ensures line { IfOk result (λ s. (q : Queue)
            → line_of s.endpoints s.notifications (L.line s.lines) q
            ≡ line_of self.now.endpoints self.now.notifications (L.line self.now.lines) q) }
        ensures queue { IfOk result (λ s. (t : ObjId)
            → queue_of s.endpoints s.notifications (L.place s.lines) t
            ≡ queue_of self.now.endpoints self.now.notifications (L.place self.now.lines) t) }
        ensures endpoints { IfOk result (λ s. s.endpoints ≡ self.now.endpoints) }
        ensures notifications { IfOk result (λ s. s.notifications ≡ self.now.notifications) }
    {
        let (endpoints, notifications, lines) = match spare {
            Some(spare) => {
                let (endpoints, notifications, lines) = spare.into_parts();
                (Some(endpoints), Some(notifications), Some(lines))
            }
            None => (None, None, None),
        };
        Ok(ObjectQueues {
            endpoints: self.endpoints.copy(alloc, endpoints)?,
            notifications: self.notifications.copy(alloc, notifications)?,
            lines: self.lines.copy(alloc, lines)?,
        })
    }

    fn open(&mut self, kind: Kind) -> ObjId {
        // For the proof: a place identifies its object, before and after.
        self.endpoints.are_apart();
        self.notifications.are_apart();
        let object = match kind {
            Kind::Endpoint => self.endpoints.add(()),
            Kind::Notification => self.notifications.add(()),
            _ => unreachable!(),
        };
        self.endpoints.are_apart();
        self.notifications.are_apart();
        object
    }

    fn close(&mut self, object: ObjId) {
        // For the proof: a place identifies its object, before and after.
        self.endpoints.are_apart();
        self.notifications.are_apart();
        match object.kind {
            Kind::Endpoint => self.endpoints.remove(object),
            Kind::Notification => self.notifications.remove(object),
            _ => unreachable!(),
        };
        self.endpoints.are_apart();
        self.notifications.are_apart();
    }

    // inlined: callers know the kind of the queue
    #[inline(always)]
    fn join(&mut self, thread: ObjId, into: Queue, priority: Prio) {
        // For the proof: a place identifies its object.
        self.endpoints.are_apart();
        self.notifications.are_apart();
        let line = line_no(&self.endpoints, &self.notifications, into);
        match (thread_no(thread), line) {
            (Some(number), Some(line)) => {
                self.lines.join(number, line, priority);
            }
            _ => unreachable!(),
        }
    }

    fn part(&mut self, thread: ObjId) {
        if let Some(number) = thread_no(thread) {
            self.lines.part(number);
        }
    }

    fn shift(&mut self, thread: ObjId, priority: Prio) {
        if let Some(number) = thread_no(thread) {
            self.lines.shift(number, priority);
        }
    }

    fn first(&self, of: Queue) -> Option<ObjId> {
        let line = line_no(&self.endpoints, &self.notifications, of)?;
        let first = self.lines.first(line)?;
        Some(thread_id(first))
    }

    fn next(&self, thread: ObjId) -> Option<ObjId> {
        // For the proof: a place identifies its object.
        self.endpoints.are_apart();
        self.notifications.are_apart();
        let number = thread_no(thread)?;
        let next = self.lines.next(number)?;
        Some(thread_id(next))
    }
}
