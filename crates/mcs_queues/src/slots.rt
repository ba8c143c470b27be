//! The slots of threads and of lines, and the count of visits to them.
ghost use Rattle.std.specs.Prelude.{◌≡◌, ◌<◌, ◌+◌, length, IfOk, IfSome, replicate};
ghost use Rattle.mcs_queues.specs.Links.{slot_at, ends_at, blank_slot, blank_ends, with_slot, with_next, with_previous};

use crate::lines::{LineNo, ThreadNo};
use mcs_types::{OutOfMemory, Prio, copy_rows};
use std::alloc::Global;
use std::marker::Model;
use std::sync::ledger::{Blank, Book, Ledger, Share};

/// The line that a thread is in, and its neighbours there.
#[derive(Clone, Copy)]
pub struct ThreadSlot {
    pub line: Option<LineNo>,
    pub priority: Prio,
    pub previous: Option<ThreadNo>,
    pub next: Option<ThreadNo>,
}

/// The ends of a line.
#[derive(Clone, Copy)]
pub struct LineSlot {
    pub first: Option<ThreadNo>,
    pub last: Option<ThreadNo>,
}

/// Counts the reads of slots of threads other than the one that a call names. It takes no bytes at
/// run time, and only `LinkSlots::visit` adds to it (own).
#[derive(Drop)]
pub struct Steps<G: Ledger> {
    book: Book<G>,
    share: Share<G>,
}

impl<G: Ledger> Model for Steps<G> {
    ghost use Rattle.std.specs.Prelude.{ℕ, ◌<◌};

    ghost Value = { ℕ };

    ghost view = { λ s. s.book.total };

    ghost invariant = { λ s. 0 < s.share.parts };
}

impl<G: Ledger> Steps<G> {
    /// Returns a count of no visits.
    pub fn new(blank: Blank) -> Steps<G>
        requires name { blank.name ≡ G.name }
        requires parts { blank.parts ≡ G.parts }
        requires some { 0 < blank.parts }
        ensures { result ≡ 0 }
    {
        let (book, share) = blank.open::<G>();
        Steps { book, share }
    }

    fn tick(&mut self)
        ensures { self.new ≡ self.old + 1 }
    {
        self.book.add(&mut self.share, 1);
    }
}

/// The slots of all threads and of all lines.
#[derive(Drop)]
pub struct LinkSlots {
    threads: Vec<ThreadSlot>,
    lines: Vec<LineSlot>,
}

impl Model for LinkSlots {
    ghost use Rattle.mcs_queues.specs.Links.{Links};

    ghost Value = { Links };

    ghost view = { λ s. record { threads = s.threads.items; lines = s.lines.items } };
}

impl LinkSlots {
    /// Slots of threads in no line and of empty lines.
    pub fn new(alloc: Global, threads: u16, lines: u16) -> Result<LinkSlots, OutOfMemory>
        ensures threads { IfOk result (λ s. s.threads ≡ replicate threads blank_slot) }
        ensures lines { IfOk result (λ s. s.lines ≡ replicate lines blank_ends) }
    {
        let slot = ThreadSlot {
            line: None,
            priority: Prio(0),
            previous: None,
            next: None,
        };
        let ends = LineSlot {
            first: None,
            last: None,
        };
        Ok(LinkSlots {
            threads: Vec::from_elem(alloc, slot, threads as usize)?,
            lines: Vec::from_elem(alloc, ends, lines as usize)?,
        })
    }

    /// Clones the slots in the memory of spare ones. `OutOfMemory` if an allocation fails.
    pub fn copy(&self, alloc: Global, spare: Option<LinkSlots>) -> Result<LinkSlots, OutOfMemory>
        ensures { IfOk result (λ s. s ≡ self.now) }
    {
        let (threads, lines) = match spare {
            Some(LinkSlots { threads, lines }) => (threads, lines),
            None => (Vec::new(alloc), Vec::new(alloc)),
        };
        Ok(LinkSlots {
            threads: copy_rows(threads, &self.threads, self.threads.len())?,
            lines: copy_rows(lines, &self.lines, self.lines.len())?,
        })
    }

    /// Returns how many threads have slots.
    pub fn threads(&self) -> usize
        ensures { result ≡ length self.now.threads }
    {
        self.threads.len()
    }

    /// Returns how many lines have slots.
    pub fn lines(&self) -> usize
        ensures { result ≡ length self.now.lines }
    {
        self.lines.len()
    }

    /// The slot of the thread that a call names.
    pub fn named(&self, t: ThreadNo) -> ThreadSlot
        requires { t.0 < length self.now.threads }
        ensures { result ≡ slot_at self.now t.0 }
    {
        self.threads[t.0 as usize]
    }

    /// Returns the slot of another thread, and counts the visit.
    pub fn visit<G: Ledger>(&self, t: ThreadNo, steps: &mut Steps<G>) -> ThreadSlot
        requires { t.0 < length self.now.threads }
        ensures slot { result ≡ slot_at self.now t.0 }
        ensures steps { steps.new ≡ steps.old + 1 }
    {
        steps.tick();
        self.threads[t.0 as usize]
    }

    /// The ends of a line.
    pub fn ends(&self, q: LineNo) -> LineSlot
        requires { q.0 < length self.now.lines }
        ensures { result ≡ ends_at self.now q.0 }
    {
        self.lines[q.0 as usize]
    }

    /// Writes the slot of the thread that a call names.
    pub fn set(&mut self, t: ThreadNo, slot: ThreadSlot)
        requires { t.0 < length self.old.threads }
        ensures { self.new ≡ with_slot t.0 slot self.old }
    {
        self.threads[t.0 as usize] = slot;
    }

    /// Sets the thread after another in its line, or the line's first if there is no thread before.
    pub fn set_next(&mut self, q: LineNo, before: Option<ThreadNo>, next: Option<ThreadNo>)
        requires line { q.0 < length self.old.lines }
        requires thread { IfSome before (λ b. b.0 < length self.old.threads) }
        ensures { self.new ≡ with_next q.0 before next self.old }
    {
        match before {
            None => {
                let ends = &mut self.lines[q.0 as usize];
                ends.first = next;
            }
            Some(b) => {
                let slot = &mut self.threads[b.0 as usize];
                slot.next = next;
            }
        }
    }

    /// Sets the thread before another in its line, or the line's last if there is no thread after.
    pub fn set_previous(&mut self, q: LineNo, after: Option<ThreadNo>, previous: Option<ThreadNo>)
        requires line { q.0 < length self.old.lines }
        requires thread { IfSome after (λ a. a.0 < length self.old.threads) }
        ensures { self.new ≡ with_previous q.0 after previous self.old }
    {
        match after {
            None => {
                let ends = &mut self.lines[q.0 as usize];
                ends.last = previous;
            }
            Some(a) => {
                let slot = &mut self.threads[a.0 as usize];
                slot.previous = previous;
            }
        }
    }
}
