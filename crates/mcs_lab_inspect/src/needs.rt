//! Which capabilities let another thread unblock a thread.
use crate::spaces::{CNodes, Sought, Spaces, object};
use mcs_book::Book;
use mcs_kernel::Kernel;
use mcs_queues::LinkedLines;
use mcs_types::{Entry, Kind, ObjId, OutOfMemory, Queue, Status, ThreadSet};
use std::alloc::Global;

/// For a thread that may not enter: which CNodes hold a capability by which another thread may
/// unblock it.
#[derive(Clone, Copy)]
pub struct Need {
    /// With these capabilities it continues.
    by: CNodes,
    /// With these capabilities it only retries its entry, which blocks as before unless its space
    /// has changed.
    again: CNodes,
    /// With these capabilities the object that it is blocked on can be deleted, which lets it
    /// continue.
    named: CNodes,
}

/// The address over which a thread sent last, if its last entry is one that waits for a receiver.
fn sent_over(alloc: Global, book: &Book, thread: ObjId) -> Result<Option<u64>, OutOfMemory> {
    for number in (1..book.lines()).rev() {
        let Some(line) = book.line(number) else {
            return Ok(None);
        };
        let step = line.step(alloc)?;
        if step.thread.is_same(thread) {
            return Ok(match step.entry {
                Entry::Send { cap, .. } | Entry::Call { cap, .. } => Some(cap),
                _ => None,
            });
        }
    }
    Ok(None)
}

/// Returns whether the entry of a queued sender would be sent to the same endpoint again.
fn sends_again(
    alloc: Global,
    kernel: &Kernel<LinkedLines>,
    thread: ObjId,
    endpoint: ObjId,
) -> Result<bool, OutOfMemory> {
    let Some(address) = sent_over(alloc, kernel.book(), thread)? else {
        return Ok(false);
    };
    Ok(match kernel.named(thread, address) {
        Some(Ok(cap)) => cap.obj.is_same(endpoint) && cap.rights.can_write(),
        _ => false,
    })
}

impl Need {
    /// Returns the need of a thread that only a capability to itself unblocks.
    fn new(kernel: &Kernel<LinkedLines>, thread: ObjId) -> Need {
        Need {
            by: Sought::Any(thread).holders(kernel),
            again: CNodes::new(),
            named: CNodes::new(),
        }
    }

    /// Adds the CNodes that hold the sought capability to the list of those through which the
    /// thread can continue.
    fn or(mut self, kernel: &Kernel<LinkedLines>, sought: Sought) -> Need {
        self.by.add(sought.holders(kernel));
        self
    }

    /// Sets the object on which the thread is blocked.
    fn blocked_on(mut self, kernel: &Kernel<LinkedLines>, place: ObjId) -> Need {
        self.named = Sought::Any(place).holders(kernel);
        self
    }

    /// Returns what a queued sender of an endpoint needs.
    fn of_sender(
        alloc: Global,
        kernel: &Kernel<LinkedLines>,
        thread: ObjId,
        endpoint: ObjId,
    ) -> Result<Need, OutOfMemory> {
        let mut need = Need::new(kernel, thread).blocked_on(kernel, endpoint);
        if sends_again(alloc, kernel, thread, endpoint)? {
            need.again = need.by;
            need.by = CNodes::new();
        }
        Ok(need.or(kernel, Sought::ToRead(endpoint)))
    }

    /// Returns what a thread needs now, if it may not enter.
    pub fn of(
        alloc: Global,
        kernel: &Kernel<LinkedLines>,
        thread: ObjId,
    ) -> Result<Need, OutOfMemory> {
        let need = Need::new(kernel, thread);
        match kernel.status(thread) {
            Some(Status::Queued(Queue::Senders(endpoint))) => {
                Need::of_sender(alloc, kernel, thread, endpoint)
            }
            Some(Status::Queued(Queue::Receivers(endpoint))) => {
                let need = need.blocked_on(kernel, endpoint);
                let need = need.or(kernel, Sought::ToWrite(endpoint));
                Ok(match kernel.bound(thread) {
                    Some(notification) => need.or(kernel, Sought::ToWrite(notification)),
                    None => need,
                })
            }
            Some(Status::Queued(Queue::Waiters(notification))) => {
                let need = need.blocked_on(kernel, notification);
                Ok(need.or(kernel, Sought::ToWrite(notification)))
            }
            Some(Status::OnReply(reply)) => Ok(need.or(kernel, Sought::Any(reply))),
            Some(Status::Running | Status::Restart | Status::Inactive | Status::Closed) | None => {
                Ok(need)
            }
        }
    }

    /// Returns whether threads with the CNodes `theirs` in their spaces may unblock a thread with
    /// the CNodes `own`.
    fn is_met(self, own: CNodes, theirs: CNodes) -> bool {
        theirs.meets(self.by)
            || theirs.meets(self.again) && theirs.meets(own)
            || !self.named.is_empty() && self.named.is_within(theirs)
    }

    /// Returns whether a thread with the CNodes `space` in its capability space may let the blocked
    /// thread continue, not only retry.
    pub fn is_met_by(self, space: CNodes) -> bool {
        space.meets(self.by)
    }
}

/// Returns whether a thread may enter on some core.
pub fn may_enter(kernel: &Kernel<LinkedLines>, thread: ObjId) -> bool {
    match kernel.status(thread) {
        Some(Status::Running | Status::Restart) => kernel.context(thread).is_some(),
        _ => false,
    }
}

/// The needs of all threads.
#[derive(Drop)]
pub struct Needs {
    needs: Vec<Need>,
}

impl Needs {
    /// Returns the needs of all threads of a kernel.
    pub fn new(alloc: Global, kernel: &Kernel<LinkedLines>) -> Result<Needs, OutOfMemory> {
        let mut needs = Vec::new(alloc);
        for serial in 1..=kernel.made(Kind::Thread) {
            let need = Need::of(alloc, kernel, object(Kind::Thread, serial))?;
            if needs.push(need).is_err() {
                return Err(OutOfMemory);
            }
        }
        Ok(Needs { needs })
    }

    /// Returns the need of a thread.
    pub fn of(&self, thread: ObjId) -> Option<Need> {
        Some(*self.needs.get(thread.place(Kind::Thread)?)?)
    }

    /// Returns whether a thread may enter now, or threads with these CNodes in their spaces may
    /// unblock it.
    fn is_free(
        &self,
        kernel: &Kernel<LinkedLines>,
        spaces: &Spaces,
        theirs: CNodes,
        thread: ObjId,
    ) -> bool {
        match self.of(thread) {
            Some(need) if kernel.is_there(thread) => {
                may_enter(kernel, thread) || need.is_met(spaces.of(thread), theirs)
            }
            _ => false,
        }
    }

    /// Returns the threads that may ever enter: those that may now, and all that these can unblock,
    /// by any capability in the spaces of all of them.
    pub fn free(&self, kernel: &Kernel<LinkedLines>, spaces: &Spaces) -> ThreadSet {
        let mut free = ThreadSet::new();
        let mut theirs = CNodes::new();
        let count = kernel.made(Kind::Thread);
        // each round but the last finds another thread
        for _ in 0..=count {
            for serial in 1..=count {
                let thread = object(Kind::Thread, serial);
                if self.is_free(kernel, spaces, theirs, thread) {
                    free.insert(thread);
                    theirs.add(spaces.of(thread));
                }
            }
        }
        free
    }
}
