//! Lines as doubly linked lists of slots.
ghost use Rattle.std.specs.Prelude.{IfOk, cond, ◌≡◌, ℕ, ◌+◌, ◌-◌, ◌<◌, ◌≤◌, true, Some, None, is_some, length, IfSome};
ghost use Rattle.mcs_types.specs.Waiters.{without, lower, first_waiter, behind_in, NeverRises, IsPut};
ghost use Rattle.mcs_queues.specs.Changes.{waiter, may_join, JoinsLine, JoinsPlace, LeavesPlace, ShiftsLine, IsPutAnew, StandsAtPlace};
ghost use Rattle.mcs_queues.specs.Numbers.{thread_number, line_number};
ghost use Rattle.mcs_queues.specs.Links.{Ranged, relinked, rooms_of, spelled, stands_at, link_changes};
ghost use Rattle.mcs_queues.specs.Linked.{Linked, Between, Walked};
ghost use Rattle.mcs_queues.specs.Fingers.{Pointed, Points, AtMostOneGoes, finger};

use crate::fingers::Fingers;
use crate::lines::{LineNo, Lines, ThreadNo};
use crate::slots::{LinkSlots, Steps, ThreadSlot};
use mcs_types::{OutOfMemory, Prio};
use std::alloc::Global;
use std::marker::{Brand, Model};
use std::sync::ledger::{Blank, Ledger};

/// Lines as links: each thread's slot names the threads before and after it, and each line's slot
/// its first and its last. To leave a line or to ask for a neighbour reads no other thread's slot;
/// to join one visits threads of a lower priority, from the finger of the nearest lower one that
/// has a finger, or from the line's end (own). `new` takes all memory.
pub struct LinkedLines {
    slots: LinkSlots,
    fingers: Fingers,
}

// Written by hand as a separate function: a derived drop would be proved again wherever it is
// dropped.
impl Drop for LinkedLines {
    fn drop(self) {
        let LinkedLines {
            slots: _,
            fingers: _,
        } = self;
    }
}

impl Model for LinkedLines {
    ghost use Rattle.mcs_queues.specs.Links.{Links, spelled};
    ghost use Rattle.mcs_queues.specs.Linked.{Linked};
    ghost use Rattle.mcs_queues.specs.Fingers.{Pointed};

    ghost Value = { Links };

    ghost view = { λ s. s.slots };

    ghost invariant = { λ s. Linked s.slots (spelled s.slots)
        × Pointed s.fingers s.slots };
}

/// Finds where a traversal to a priority begins: at a finger of a lower priority, or at the line's
/// end. Returns the thread to visit next, and the one after it.
fn begin<G: Ledger>(
    slots: &LinkSlots,
    fingers: &Fingers,
    q: LineNo,
    p: Prio,
    steps: &mut Steps<G>,
) -> (Option<ThreadNo>, Option<ThreadNo>)
    requires line { q.0 < length slots.now.lines }
    requires linked { Linked slots.now (spelled slots.now) }
    requires pointed { Pointed fingers.now slots.now }
    ensures more { steps.old ≤ steps.new }
    ensures walked { Walked (spelled slots.now q.0) p.0 result.0 result.1 (steps.new - steps.old) }
{
    let end = (slots.ends(q).last, None);
    if end.0.is_none() {
        return end;
    }
    match fingers.below(q, p) {
        Some(t) => (slots.visit(t, steps).previous, Some(t)),
        None => end,
    }
}

/// Finds the two threads of a line between which a priority belongs. The traversal starts at a
/// finger or at the line's end.
fn seek<G: Ledger>(
    slots: &LinkSlots,
    fingers: &Fingers,
    q: LineNo,
    p: Prio,
    steps: &mut Steps<G>,
) -> (Option<ThreadNo>, Option<ThreadNo>)
    requires line { q.0 < length slots.now.lines }
    requires linked { Linked slots.now (spelled slots.now) }
    requires pointed { Pointed fingers.now slots.now }
    ensures between { Between (spelled slots.now q.0) p.0 result.0 result.1 }
    ensures steps { steps.new ≤ steps.old + 1 + lower p.0 (spelled slots.now q.0) }
{
    let (mut before, mut after) = begin(slots, fingers, q, p, steps);
    while let Some(t) = before {
        let slot = slots.visit(t, steps);
        if p.0 <= slot.priority.0 {
            return (before, after);
        }
        after = before;
        before = slot.previous;
    }
    (before, after)
}

/// Writes a thread's slot, and the links to it: `links.0` becomes the next thread of `around.0`,
/// and `links.1` the previous one of `around.1`. If `around.0` is None, `links.0` becomes the first
/// of the line; if `around.1` is None, `links.1` becomes its last.
fn relink(
    slots: &mut LinkSlots,
    q: LineNo,
    t: ThreadNo,
    around: (Option<ThreadNo>, Option<ThreadNo>),
    links: (Option<ThreadNo>, Option<ThreadNo>),
    slot: ThreadSlot,
)
    requires { Ranged q.0 t.0 around.0 around.1 slots.old }
    ensures { slots.new ≡ relinked q.0 t.0 around.0 around.1 links.0 links.1 slot slots.old }
{
    slots.set_next(q, around.0, links.0);
    slots.set_previous(q, around.1, links.1);
    slots.set(t, slot);
}

/// Takes a thread out of its line, and returns the line.
fn leave(slots: &mut LinkSlots, fingers: &mut Fingers, t: ThreadNo) -> Option<LineNo>
    requires linked { Linked slots.old (spelled slots.old) }
    requires pointed { Pointed fingers.old slots.old }
    ensures answer { line_number result ≡ stands_at slots.old t.0 }
    ensures thread { IfSome result (λ q. t.0 < length slots.new.threads) }
    ensures within { IfSome result (λ q. q.0 < length slots.new.lines) }
    ensures linked { Linked slots.new (spelled slots.new) }
    ensures pointed { Pointed fingers.new slots.new }
    ensures line { (k : ℕ) → spelled slots.new k ≡ without t.0 (spelled slots.old k) }
    ensures place { LeavesPlace (stands_at slots.old) (stands_at slots.new) t.0 }
    ensures threads { length slots.new.threads ≡ length slots.old.threads }
    ensures lines { length slots.new.lines ≡ length slots.old.lines }
    ensures changes { link_changes slots.old slots.new ≤ 4 }
    ensures finger { AtMostOneGoes fingers.old fingers.new }
{
    if slots.threads() <= t.0 as usize {
        return None;
    }
    let slot = slots.named(t);
    let q = slot.line?;
    let blank = ThreadSlot {
        line: None,
        priority: slot.priority,
        previous: None,
        next: None,
    };
    relink(
        slots,
        q,
        t,
        (slot.previous, slot.next),
        (slot.next, slot.previous),
        blank,
    );
    fingers.release(q, slot.priority, t);
    Some(q)
}

/// Makes a thread the finger of its priority, unless there is one. Returns whether it did. A thread
/// that is alone needs none, so a line that never has two uses no memory for fingers.
fn offer(
    fingers: &mut Fingers,
    q: LineNo,
    p: Prio,
    t: ThreadNo,
    around: (Option<ThreadNo>, Option<ThreadNo>),
) -> bool
    requires { q.0 < length fingers.old.places }
    ensures points { Points fingers.old fingers.new q.0 p.0
        (cond result (Some t) (finger fingers.old q.0 p.0)) }
    ensures lines { length fingers.new.places ≡ length fingers.old.places }
{
    if around.0.is_none() && around.1.is_none() {
        return false;
    }
    fingers.claim(q, p, t)
}

/// Queues a thread that is in no line after all of its priority.
fn enter<G: Ledger>(
    slots: &mut LinkSlots,
    fingers: &mut Fingers,
    t: ThreadNo,
    q: LineNo,
    p: Prio,
    steps: &mut Steps<G>,
)
    requires linked { Linked slots.old (spelled slots.old) }
    requires pointed { Pointed fingers.old slots.old }
    requires thread { t.0 < length slots.old.threads }
    requires line { q.0 < length slots.old.lines }
    requires free { stands_at slots.old t.0 ≡ None }
    ensures linked { Linked slots.new (spelled slots.new) }
    ensures pointed { Pointed fingers.new slots.new }
    ensures line { JoinsLine (spelled slots.old) (spelled slots.new) true (waiter t p) q.0 }
    ensures put { IsPut (waiter t p) (spelled slots.old q.0) (spelled slots.new q.0) }
    ensures place { JoinsPlace (stands_at slots.old) (stands_at slots.new) true t.0 q.0 }
    ensures threads { length slots.new.threads ≡ length slots.old.threads }
    ensures lines { length slots.new.lines ≡ length slots.old.lines }
    ensures steps { steps.new ≤ steps.old + 1 + lower p.0 (spelled slots.old q.0) }
{
    let (before, after) = seek(slots, fingers, q, p, steps);
    let slot = ThreadSlot {
        line: Some(q),
        priority: p,
        previous: before,
        next: after,
    };
    relink(slots, q, t, (before, after), (Some(t), Some(t)), slot);
    let _is_finger = offer(fingers, q, p, t, (before, after));
}

/// The first thread of a line.
fn first_in(slots: &LinkSlots, q: LineNo) -> Option<ThreadNo>
    requires { Linked slots.now (spelled slots.now) }
    ensures answer { thread_number result ≡ first_waiter (spelled slots.now q.0) }
    ensures ordered { NeverRises (spelled slots.now q.0) }
{
    if slots.lines() <= q.0 as usize {
        return None;
    }
    slots.ends(q).first
}

/// The thread after another in its line.
fn next_in(slots: &LinkSlots, t: ThreadNo) -> Option<ThreadNo>
    requires { Linked slots.now (spelled slots.now) }
    ensures { thread_number result ≡ behind_in (stands_at slots.now t.0) (spelled slots.now) t.0 }
{
    if slots.threads() <= t.0 as usize {
        return None;
    }
    let slot = slots.named(t);
    match slot.line {
        None => None,
        Some(_) => slot.next,
    }
}

/// The line of a thread.
fn line_of(slots: &LinkSlots, t: ThreadNo) -> Option<LineNo>
    requires { Linked slots.now (spelled slots.now) }
    ensures answer { line_number result ≡ stands_at slots.now t.0 }
    ensures stands { StandsAtPlace (spelled slots.now) (stands_at slots.now) t.0 }
{
    if slots.threads() <= t.0 as usize {
        return None;
    }
    slots.named(t).line
}

/// Returns whether a thread may join a line.
fn may_enter(slots: &LinkSlots, t: ThreadNo, q: LineNo) -> bool
    ensures { result ≡ may_join (rooms_of slots.now) (stands_at slots.now) t.0 q.0 }
{
    (t.0 as usize) < slots.threads()
        && (q.0 as usize) < slots.lines()
        && slots.named(t).line.is_none()
}

impl LinkedLines {
    /// Its slots and its fingers.
    fn into_parts(self) -> (LinkSlots, Fingers) {
        let LinkedLines { slots, fingers } = self;
        (slots, fingers)
    }

    /// Does what `join` does, and counts its visits: at most one more than the line has threads of
    /// a lower priority (own).
    pub fn join_counted<G: Ledger>(
        &mut self,
        t: ThreadNo,
        q: LineNo,
        p: Prio,
        steps: &mut Steps<G>,
    ) -> bool
        ensures answer { result ≡ may_join (rooms_of self.old) (stands_at self.old) t.0 q.0 }
        ensures line { JoinsLine (spelled self.old) (spelled self.new) result (waiter t p) q.0 }
        ensures put { result ≡ true
            → IsPut (waiter t p) (spelled self.old q.0) (spelled self.new q.0) }
        ensures place { JoinsPlace (stands_at self.old) (stands_at self.new) result t.0 q.0 }
        ensures rooms { rooms_of self.new ≡ rooms_of self.old }
        ensures steps { steps.new ≤ steps.old + 1 + lower p.0 (spelled self.old q.0) }
    {
        let may = may_enter(&self.slots, t, q);
        if may {
            enter(&mut self.slots, &mut self.fingers, t, q, p, steps);
        }
        may
    }

    /// Does what `shift` does, and counts its visits: none if the thread is in no line, else at
    /// most one more than its line has other threads of a lower priority (own).
    pub fn shift_counted<G: Ledger>(&mut self, t: ThreadNo, p: Prio, steps: &mut Steps<G>) -> bool
        ensures answer { result ≡ is_some (stands_at self.old t.0) }
        ensures line { ShiftsLine (spelled self.old) (spelled self.new) (stands_at self.old)
            (waiter t p) }
        ensures put { IsPutAnew (spelled self.old) (spelled self.new) (stands_at self.old)
            (waiter t p) }
        ensures place { (u : ℕ) → stands_at self.new u ≡ stands_at self.old u }
        ensures rooms { rooms_of self.new ≡ rooms_of self.old }
        ensures still { stands_at self.old t.0 ≡ None → steps.new ≡ steps.old }
        ensures steps { (q : ℕ) → stands_at self.old t.0 ≡ Some q
            → steps.new ≤ steps.old + 1 + lower p.0 (without t.0 (spelled self.old q)) }
    {
        match leave(&mut self.slots, &mut self.fingers, t) {
            None => false,
            Some(q) => {
                enter(&mut self.slots, &mut self.fingers, t, q, p, steps);
                true
            }
        }
    }
}

/// Does what `join` does, with its own count of visits.
fn join_alone<G: Ledger>(
    lines: &mut LinkedLines,
    t: ThreadNo,
    q: LineNo,
    p: Prio,
    blank: Blank,
) -> bool
    requires name { blank.name ≡ G.name }
    requires parts { blank.parts ≡ G.parts }
    requires some { 0 < blank.parts }
    ensures answer { result ≡ may_join (rooms_of lines.old) (stands_at lines.old) t.0 q.0 }
    ensures line { JoinsLine (spelled lines.old) (spelled lines.new) result (waiter t p) q.0 }
    ensures put { result ≡ true
        → IsPut (waiter t p) (spelled lines.old q.0) (spelled lines.new q.0) }
    ensures place { JoinsPlace (stands_at lines.old) (stands_at lines.new) result t.0 q.0 }
    ensures rooms { rooms_of lines.new ≡ rooms_of lines.old }
{
    let mut steps = Steps::<G>::new(blank);
    lines.join_counted(t, q, p, &mut steps)
}

/// Does what `shift` does, with its own count of visits.
fn shift_alone<G: Ledger>(lines: &mut LinkedLines, t: ThreadNo, p: Prio, blank: Blank) -> bool
    requires name { blank.name ≡ G.name }
    requires parts { blank.parts ≡ G.parts }
    requires some { 0 < blank.parts }
    ensures answer { result ≡ is_some (stands_at lines.old t.0) }
    ensures line { ShiftsLine (spelled lines.old) (spelled lines.new) (stands_at lines.old)
        (waiter t p) }
    ensures put { IsPutAnew (spelled lines.old) (spelled lines.new) (stands_at lines.old)
        (waiter t p) }
    ensures place { (u : ℕ) → stands_at lines.new u ≡ stands_at lines.old u }
    ensures rooms { rooms_of lines.new ≡ rooms_of lines.old }
{
    let mut steps = Steps::<G>::new(blank);
    lines.shift_counted(t, p, &mut steps)
}

impl Lines for LinkedLines {
    ghost use Rattle.std.specs.Prelude.{◌≡◌, ◌≤◌, ℕ};
    ghost use Rattle.mcs_types.specs.Waiters.{without};
    ghost use Rattle.mcs_queues.specs.Changes.{LeavesPlace};
    ghost use Rattle.mcs_queues.specs.Numbers.{line_number};
    ghost use Rattle.mcs_queues.specs.Links.{rooms_of, spelled, stands_at, link_changes};

    ghost line = { λ l. spelled l };

    ghost place = { λ l. stands_at l };

    ghost rooms = { λ l. rooms_of l };

    fn new(alloc: Global, threads: u16, lines: u16) -> Result<LinkedLines, OutOfMemory> {
        let slots = LinkSlots::new(alloc, threads, lines)?;
        let fingers = Fingers::new(alloc, lines)?;
        Ok(LinkedLines { slots, fingers })
    }

    fn copy(&self, alloc: Global, spare: Option<LinkedLines>) -> Result<LinkedLines, OutOfMemory>
        ensures { IfOk result (λ s. s ≡ self.now) }
    {
        let (slots, fingers) = match spare {
            Some(spare) => {
                let (slots, fingers) = spare.into_parts();
                (Some(slots), Some(fingers))
            }
            None => (None, None),
        };
        let slots = self.slots.copy(alloc, slots)?;
        let fingers = self.fingers.copy(alloc, fingers)?;
        Ok(LinkedLines { slots, fingers })
    }

    fn join(&mut self, t: ThreadNo, q: LineNo, p: Prio) -> bool {
        join_alone::<Brand>(self, t, q, p, Blank::new(1))
    }

    fn first(&self, q: LineNo) -> Option<ThreadNo> {
        first_in(&self.slots, q)
    }

    fn next(&self, t: ThreadNo) -> Option<ThreadNo> {
        next_in(&self.slots, t)
    }

    /// Does what the trait says. It changes at most four links and at most one finger, which is
    /// cleared (own).
    fn part(&mut self, t: ThreadNo) -> Option<LineNo>
        ensures answer { line_number result ≡ stands_at self.old t.0 }
        ensures line { (k : ℕ) → spelled self.new k ≡ without t.0 (spelled self.old k) }
        ensures place { LeavesPlace (stands_at self.old) (stands_at self.new) t.0 }
        ensures rooms { rooms_of self.new ≡ rooms_of self.old }
        ensures changes { link_changes self.old self.new ≤ 4 }
    {
        leave(&mut self.slots, &mut self.fingers, t)
    }

    fn shift(&mut self, t: ThreadNo, p: Prio) -> bool {
        shift_alone::<Brand>(self, t, p, Blank::new(1))
    }

    fn where_is(&self, t: ThreadNo) -> Option<LineNo> {
        line_of(&self.slots, t)
    }
}
