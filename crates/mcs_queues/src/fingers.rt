//! Fingers: where the traversal of a line may begin.
ghost use Rattle.std.specs.Prelude.{◌≡◌, ◌≢◌, ◌<◌, length, slice_index_or, IfOk, IfSome, Some, None, is_none, cond, not, ◌==◌};
ghost use Rattle.mcs_queues.specs.Fingers.{Points, IsReleased, IsLower, SameFingers, finger, row_of, no_fingers, blank_rows};

use crate::lines::{LineNo, ThreadNo};
use mcs_types::{OutOfMemory, Prio, copy_rows};
use std::alloc::Global;
use std::marker::Model;

/// How many priorities there are.
const PRIORITIES: usize = 256;

/// How many 64-bit words hold a bit for each priority.
const WORDS: usize = PRIORITIES / 64;

/// The fingers of a line, and a bit for each priority that has one.
#[derive(Clone, Copy)]
pub struct LineFingers {
    known: [u64; WORDS],
    threads: [Option<ThreadNo>; PRIORITIES],
}

impl LineFingers {
    /// Returns the fingers of a line that has none.
    fn none() -> LineFingers
        ensures { result ≡ no_fingers }
    {
        LineFingers {
            known: [0; WORDS],
            threads: [None; PRIORITIES],
        }
    }

    /// Returns the nearest priority below another that has a finger, or any priority if none has.
    /// No clause says so: the caller compares what it finds there.
    fn known_below(&self, p: Prio) -> u8 {
        let mut word = p.0 / 64;
        let mut bits = self.known[word as usize] & ((1 << (p.0 % 64)) - 1);
        while bits == 0 && 0 < word {
            word -= 1;
            bits = self.known[word as usize];
        }
        word * 64 + (63 - bits.leading_zeros().min(63) as u8)
    }
}

/// For each line and each priority a finger: a thread in the line with that priority (own). The
/// first thread that joins while there is none becomes it, so usually no other of its priority is
/// ahead of it. Lines without fingers share the first row, which has none: a line uses no memory
/// before it has a finger.
#[derive(Drop)]
pub struct Fingers {
    rows: Vec<LineFingers>,
    places: Vec<u16>,
}

impl Model for Fingers {
    ghost use Rattle.std.specs.Prelude.{◌<◌, length, vec_capacity};
    ghost use Rattle.mcs_queues.specs.Fingers.{FingerRows, IsKept};

    ghost Value = { FingerRows };

    ghost view = { λ f. record { rows = f.rows.items; places = f.places.items } };

    ghost invariant = { λ f. (length f.places.items < vec_capacity f.rows)
        × IsKept (record { rows = f.rows.items; places = f.places.items }) };
}

impl Fingers {
    /// Returns rows for this many lines, without fingers.
    pub fn new(alloc: Global, lines: u16) -> Result<Fingers, OutOfMemory>
        ensures { IfOk result (λ f. f ≡ blank_rows lines) }
    {
        let mut rows = Vec::with_capacity(alloc, lines as usize + 1)?;
        rows.push_reserved(LineFingers::none());
        let places = Vec::from_elem(alloc, 0, lines as usize)?;
        Ok(Fingers { rows, places })
    }

    /// Clones the fingers in the memory of spare ones. `OutOfMemory` if an allocation fails.
    pub fn copy(&self, alloc: Global, spare: Option<Fingers>) -> Result<Fingers, OutOfMemory>
        ensures { IfOk result (λ f. f ≡ self.now) }
    {
        let (rows, places) = match spare {
            Some(Fingers { rows, places }) => (rows, places),
            None => (Vec::new(alloc), Vec::new(alloc)),
        };
        let rows = copy_rows(rows, &self.rows, self.places.len() + 1)?;
        let places = copy_rows(places, &self.places, self.places.len())?;
        Ok(Fingers { rows, places })
    }

    /// Returns the fingers of a line.
    fn row(&self, q: LineNo) -> &LineFingers
        requires { q.0 < length self.now.places }
        ensures row { result.now ≡ row_of self.now q.0 }
        ensures shared { slice_index_or self.now.places q.0 0 ≡ 0 → result.now ≡ no_fingers }
    {
        &self.rows[self.places[q.0 as usize] as usize]
    }

    /// Returns whether a line has a row of its own.
    fn has_row(&self, q: LineNo) -> bool
        requires { q.0 < length self.now.places }
        ensures { result ≡ not (slice_index_or self.now.places q.0 0 == 0) }
    {
        self.places[q.0 as usize] != 0
    }

    /// The finger of a priority in a line.
    fn at(&self, q: LineNo, p: Prio) -> Option<ThreadNo>
        requires { q.0 < length self.now.places }
        ensures finger { result ≡ finger self.now q.0 p.0 }
        ensures own { IfSome result (λ t. slice_index_or self.now.places q.0 0 ≢ 0) }
    {
        let row = self.row(q);
        row.threads[p.0 as usize]
    }

    /// Returns the finger of the nearest priority below another, if there is one.
    pub fn below(&self, q: LineNo, p: Prio) -> Option<ThreadNo>
        requires { q.0 < length self.now.places }
        ensures { IfSome result (IsLower self.now q.0 p.0) }
    {
        let found = self.row(q).known_below(p);
        if p.0 <= found {
            return None;
        }
        self.at(q, Prio(found))
    }

    /// Gives a line a row of its own, if it has none.
    fn open(&mut self, q: LineNo)
        requires { q.0 < length self.old.places }
        ensures own { slice_index_or self.new.places q.0 0 ≢ 0 }
        ensures same { SameFingers self.old self.new }
        ensures lines { length self.new.places ≡ length self.old.places }
    {
        if self.places[q.0 as usize] == 0 {
            self.places[q.0 as usize] = self.rows.len() as u16;
            self.rows.push_reserved(LineFingers::none());
        }
    }

    /// Sets or clears the finger of a priority in a line, which must have a row of its own.
    fn point(&mut self, q: LineNo, p: Prio, to: Option<ThreadNo>)
        requires line { q.0 < length self.old.places }
        requires own { slice_index_or self.old.places q.0 0 ≢ 0 }
        ensures points { Points self.old self.new q.0 p.0 to }
        ensures places { self.new.places ≡ self.old.places }
    {
        let word = (p.0 / 64) as usize;
        let bit = 1 << (p.0 % 64);
        let row = &mut self.rows[self.places[q.0 as usize] as usize];
        row.threads[p.0 as usize] = to;
        row.known[word] = match to {
            Some(_) => row.known[word] | bit,
            None => row.known[word] & !bit,
        };
    }

    /// Makes a thread the finger of its priority, unless there is one. Returns whether it did.
    pub fn claim(&mut self, q: LineNo, p: Prio, t: ThreadNo) -> bool
        requires { q.0 < length self.old.places }
        ensures answer { result ≡ is_none (finger self.old q.0 p.0) }
        ensures points { Points self.old self.new q.0 p.0
            (cond result (Some t) (finger self.old q.0 p.0)) }
        ensures lines { length self.new.places ≡ length self.old.places }
    {
        let here = self.at(q, p);
        self.open(q);
        // Written in either case: the branch is unpredictable, and a misprediction costs more than
        // a write.
        let to = match here {
            Some(u) => u,
            None => t,
        };
        self.point(q, p, Some(to));
        here.is_none()
    }

    /// Clears the finger of a priority, if it is this thread.
    pub fn release(&mut self, q: LineNo, p: Prio, t: ThreadNo)
        requires { q.0 < length self.old.places }
        ensures released { IsReleased self.old self.new q.0 p.0 t }
        ensures lines { length self.new.places ≡ length self.old.places }
    {
        let here = self.at(q, p);
        if !self.has_row(q) {
            return;
        }
        let to = if here == Some(t) { None } else { here };
        self.point(q, p, to);
    }
}
