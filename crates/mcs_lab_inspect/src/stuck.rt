//! Which threads wait for which, and which are stuck: by the book and by questions to the kernel.
use crate::needs::{Need, Needs};
use crate::page::TextBuffer;
use crate::spaces::{Spaces, object};
use mcs_book::Book;
use mcs_kernel::Kernel;
use mcs_lab_check::{LabFault, Labels};
use mcs_queues::LinkedLines;
use mcs_types::{Kind, ObjId, OutOfMemory, Queue, Rec, Status, ThreadSet};
use std::alloc::Global;

/// Returns the thread that took the call of a reply object's last debt: the one that received in
/// the same line.
pub fn taker_of(alloc: Global, book: &Book, reply: ObjId) -> Result<Option<ObjId>, OutOfMemory> {
    for number in (1..book.lines()).rev() {
        let Some(line) = book.line(number) else {
            return Ok(None);
        };
        let mut owes = false;
        let mut taker = None;
        for i in 0..line.record_count() {
            match line.record(alloc, i)? {
                Some(Rec::Took { thread, .. }) => taker = Some(thread),
                Some(Rec::Owes { reply: owing, .. }) if owing.is_same(reply) => owes = true,
                _ => {}
            }
        }
        if owes {
            return Ok(taker);
        }
    }
    Ok(None)
}

/// Returns the thread that joins the receivers of an endpoint by a record.
fn receiver_of(record: Option<Rec>, endpoint: ObjId) -> Option<ObjId> {
    match record {
        Some(
            Rec::Joins {
                thread,
                queue: Queue::Receivers(place),
                ..
            },
        ) if place.is_same(endpoint) => Some(thread),
        _ => None,
    }
}

/// Adds the threads that received on an endpoint in some line of the book, except one.
fn add_receivers(
    alloc: Global,
    book: &Book,
    endpoint: ObjId,
    but: ObjId,
    to: &mut ThreadSet,
) -> Result<(), OutOfMemory> {
    for number in 1..book.lines() {
        let Some(line) = book.line(number) else {
            return Ok(());
        };
        for i in 0..line.record_count() {
            if let Some(thread) = receiver_of(line.record(alloc, i)?, endpoint)
                && !thread.is_same(but)
            {
                to.insert(thread);
            }
        }
    }
    Ok(())
}

/// Returns the threads that are likely to unblock a thread: the one that took its call, or those
/// that received on the endpoint before.
fn likely(
    alloc: Global,
    kernel: &Kernel<LinkedLines>,
    thread: ObjId,
) -> Result<ThreadSet, OutOfMemory> {
    let mut set = ThreadSet::new();
    match kernel.status(thread) {
        Some(Status::OnReply(reply)) => {
            if let Some(taker) = taker_of(alloc, kernel.book(), reply)? {
                set.insert(taker);
            }
        }
        Some(Status::Queued(Queue::Senders(endpoint))) => {
            add_receivers(alloc, kernel.book(), endpoint, thread, &mut set)?;
        }
        _ => {}
    }
    Ok(set)
}

/// Returns whether a thread waits: it is blocked, or it runs without a context.
fn is_waiting(kernel: &Kernel<LinkedLines>, thread: ObjId) -> bool {
    match kernel.status(thread) {
        Some(Status::Queued(_) | Status::OnReply(_)) => true,
        Some(Status::Running | Status::Restart) => kernel.context(thread).is_none(),
        Some(Status::Inactive | Status::Closed) | None => false,
    }
}

/// Returns the words between the reason why a thread waits and the threads that it waits for.
fn so(status: Option<Status>) -> &'static str {
    match status {
        Some(Status::OnReply(_)) => ", and so for ",
        _ => ", and so waits for ",
    }
}

/// Returns the words for a thread that no other can unblock.
fn nobody(status: Option<Status>) -> &'static str {
    match status {
        Some(Status::OnReply(_)) => ", and nobody can give it",
        Some(Status::Queued(Queue::Senders(_))) => ", and nobody can receive there",
        Some(Status::Queued(Queue::Receivers(_))) => ", and nobody can send there",
        Some(Status::Queued(Queue::Waiters(_))) => ", and nobody can signal there",
        Some(Status::Running | Status::Restart | Status::Inactive | Status::Closed) | None => {
            ", and nobody can give it one"
        }
    }
}

/// The waiting threads, and what each waits for.
#[derive(Drop)]
pub struct Waits {
    count: u32,
    sets: Vec<ThreadSet>,
    stuck: ThreadSet,
}

/// Returns the threads except one that may unblock it by a capability of their own.
fn able(count: u32, spaces: &Spaces, need: Need, thread: ObjId) -> ThreadSet {
    let mut set = ThreadSet::new();
    for serial in 1..=count {
        let other = object(Kind::Thread, serial);
        if !other.is_same(thread) && need.is_met_by(spaces.of(other)) {
            set.insert(other);
        }
    }
    set
}

/// Returns those of some threads that are also in `others`; if there are none, all of `others`.
fn preferred(count: u32, some: &ThreadSet, others: ThreadSet) -> ThreadSet {
    let mut set = ThreadSet::new();
    let mut is_empty = true;
    for serial in 1..=count {
        let thread = object(Kind::Thread, serial);
        if some.contains(thread) && others.contains(thread) {
            set.insert(thread);
            is_empty = false;
        }
    }
    if is_empty { others } else { set }
}

impl Waits {
    /// Returns which threads wait for which, and which are stuck: a stuck thread waits, and no
    /// thread that is not stuck itself can ever unblock it.
    pub fn new(alloc: Global, kernel: &Kernel<LinkedLines>) -> Result<Waits, LabFault> {
        let spaces = Spaces::new(alloc, kernel)?;
        let Ok(needs) = Needs::new(alloc, kernel) else {
            return Err(LabFault::OutOfMemory);
        };
        let free = needs.free(kernel, &spaces);
        let mut waits = Waits {
            count: kernel.made(Kind::Thread),
            sets: Vec::new(alloc),
            stuck: ThreadSet::new(),
        };
        for serial in 1..=waits.count {
            let thread = object(Kind::Thread, serial);
            waits.add(alloc, kernel, &spaces, &needs, thread)?;
            if is_waiting(kernel, thread) && !free.contains(thread) {
                waits.stuck.insert(thread);
            }
        }
        Ok(waits)
    }

    /// Adds the threads that the next thread waits for.
    fn add(
        &mut self,
        alloc: Global,
        kernel: &Kernel<LinkedLines>,
        spaces: &Spaces,
        needs: &Needs,
        thread: ObjId,
    ) -> Result<(), LabFault> {
        let Ok(likely) = likely(alloc, kernel, thread) else {
            return Err(LabFault::OutOfMemory);
        };
        let set = match needs.of(thread) {
            Some(need) if is_waiting(kernel, thread) => {
                let able = able(self.count, spaces, need, thread);
                preferred(self.count, &likely, able)
            }
            _ => ThreadSet::new(),
        };
        self.sets.push(set)?;
        Ok(())
    }

    /// Returns whether a thread waits for some.
    fn waits_for_some(&self, thread: ObjId) -> bool {
        (1..=self.count).any(|serial| self.is_waited(thread, object(Kind::Thread, serial)))
    }

    /// Returns whether a thread waits for another.
    pub fn is_waited(&self, thread: ObjId, other: ObjId) -> bool {
        match thread.place(Kind::Thread) {
            None => false,
            Some(place) => match self.sets.get(place) {
                None => false,
                Some(set) => set.contains(other),
            },
        }
    }

    /// Returns whether some thread is stuck.
    pub fn has_stuck(&self) -> bool {
        (1..=self.count).any(|serial| self.is_stuck(object(Kind::Thread, serial)))
    }

    /// Returns whether a thread is stuck.
    pub fn is_stuck(&self, thread: ObjId) -> bool {
        self.stuck.contains(thread)
    }

    /// Adds the stuck threads for which one of these, or the thread itself, waits. Returns false if
    /// there are no more.
    fn reach_more(&self, thread: ObjId, reached: &mut ThreadSet) -> bool {
        let mut grew = false;
        for from in 1..=self.count {
            let from = object(Kind::Thread, from);
            if !from.is_same(thread) && !reached.contains(from) {
                continue;
            }
            for to in 1..=self.count {
                let to = object(Kind::Thread, to);
                if self.is_stuck(to) && self.is_waited(from, to) && !reached.contains(to) {
                    reached.insert(to);
                    grew = true;
                }
            }
        }
        grew
    }

    /// Returns whether a cycle of stuck threads leads from a thread back to it.
    fn is_in_cycle(&self, thread: ObjId) -> bool {
        let mut reached = ThreadSet::new();
        for _ in 0..self.count {
            if !self.reach_more(thread, &mut reached) {
                break;
            }
        }
        reached.contains(thread)
    }

    /// Returns the word for how a thread is stuck: in a cycle of threads that wait for one another,
    /// or not.
    pub fn kind(&self, thread: ObjId) -> &'static str {
        if self.is_in_cycle(thread) {
            "deadlock"
        } else {
            "stranded"
        }
    }

    /// Appends what a thread is blocked on: a reply, its place in a queue, or a missing context.
    /// Appends nothing for a thread that is inactive or closed.
    fn put_cause(
        page: &mut TextBuffer,
        kernel: &Kernel<LinkedLines>,
        names: &Labels,
        thread: ObjId,
    ) {
        match kernel.status(thread) {
            Some(Status::OnReply(reply)) => {
                page.put(b" waits for the answer that ");
                page.object(names, reply);
                page.put(b" owes");
            }
            Some(Status::Queued(queue)) => {
                page.put(b" stands in ");
                page.queue(names, queue);
            }
            Some(Status::Running | Status::Restart) => page.put(b" runs, but holds no context"),
            Some(Status::Inactive | Status::Closed) | None => {}
        }
    }

    /// Appends the stuck threads, a line each. Returns true if there are none.
    pub fn put(&self, page: &mut TextBuffer, kernel: &Kernel<LinkedLines>, names: &Labels) -> bool {
        let mut is_free = true;
        for serial in 1..=self.count {
            let thread = object(Kind::Thread, serial);
            if !self.is_stuck(thread) {
                continue;
            }
            is_free = false;
            page.put(self.kind(thread).as_bytes());
            page.put(b": ");
            page.object(names, thread);
            Waits::put_cause(page, kernel, names, thread);
            if self.waits_for_some(thread) {
                page.put(so(kernel.status(thread)).as_bytes());
                self.put_waited(page, kernel, names, thread);
            } else {
                page.put(nobody(kernel.status(thread)).as_bytes());
            }
            page.put(b"\n");
        }
        is_free
    }

    /// Appends the threads that a thread waits for.
    fn put_waited(
        &self,
        page: &mut TextBuffer,
        kernel: &Kernel<LinkedLines>,
        names: &Labels,
        thread: ObjId,
    ) {
        let mut is_first = true;
        for serial in 1..=self.count {
            let other = object(Kind::Thread, serial);
            if !self.is_waited(thread, other) {
                continue;
            }
            if !is_first {
                page.put(b" or ");
            }
            is_first = false;
            page.object(names, other);
            match kernel.status(other) {
                Some(Status::Inactive) => page.put(b", which is inactive"),
                Some(Status::Closed) => page.put(b", which is closed"),
                _ => {}
            }
        }
    }
}
