ghost use Rattle.std.specs.Prelude.{◌≡◌, ℕ, List, [], IfOk, Option, is_some, None, true};
ghost use Rattle.mcs_types.specs.Waiters.{Waiter, without, first_waiter, behind_in, NeverRises, IsPut};
ghost use Rattle.mcs_queues.specs.Changes.{Rooms, waiter, may_join, JoinsLine, JoinsPlace, LeavesPlace, ShiftsLine, IsPutAnew, StandsAtPlace};
ghost use Rattle.mcs_queues.specs.Numbers.{thread_number, line_number};

use mcs_types::{OutOfMemory, Prio};
use std::alloc::Global;

/// The number of a thread, counted from 0.
#[derive(Clone, Copy, PartialEq, Eq, Debug)]
pub struct ThreadNo(pub u16);

/// The number of a line, counted from 0.
#[derive(Clone, Copy, PartialEq, Eq, Debug)]
pub struct LineNo(pub u16);

/// Lines in which threads wait. The greatest priority is first, and within one priority the thread
/// that came first (seL4 Reference Manual, chapter Message Passing: the queue of an endpoint goes
/// by priority). A thread is in at most one line (own).
///
/// Lines are seen as the list of each line's threads, first to last, and the line of each thread.
/// Numbers of threads and of lines are in range where they are below those that `new` was given. No
/// call wants them so: a thread out of range is in no line, and no thread is in a line out of
/// range.
pub trait Lines: Sized + Drop {
    /// The threads of a line with their priorities, first to last.
    ghost line: { Self → ℕ → List Waiter };

    /// The line in which a thread is.
    ghost place: { Self → ℕ → Option ℕ };

    /// Returns empty lines, this many, for this many threads. `OutOfMemory` if an allocation fails:
    /// no later call allocates.
    ghost rooms: { Self → Rooms };

    /// Returns `lines` empty lines for `threads` threads. `OutOfMemory` if an allocation fails: no
    /// later call allocates.
    fn new(alloc: Global, threads: u16, lines: u16) -> Result<Self, OutOfMemory>
        ensures empty { IfOk result (λ s. (k : ℕ) → line s k ≡ []) }
        ensures nowhere { IfOk result (λ s. (u : ℕ) → place s u ≡ None) }
        ensures rooms { IfOk result (λ s. rooms s ≡ record { threads = threads; lines = lines }) };

    /// Clones the lines in the memory of spare ones. `OutOfMemory` if an allocation fails.
    fn copy(&self, alloc: Global, spare: Option<Self>) -> Result<Self, OutOfMemory>
        ensures line { IfOk result (λ s. (k : ℕ) → line s k ≡ line self.now k) }
        ensures place { IfOk result (λ s. (u : ℕ) → place s u ≡ place self.now u) }
        ensures rooms { IfOk result (λ s. rooms s ≡ rooms self.now) };

    /// Puts thread `t` into line `q`, as the last of priority `p`. Returns false, and changes
    /// nothing, if a number is out of range or the thread is in a line.
    fn join(&mut self, t: ThreadNo, q: LineNo, p: Prio) -> bool
        ensures answer { result ≡ may_join (rooms self.old) (place self.old) t.0 q.0 }
        ensures line { JoinsLine (line self.old) (line self.new) result (waiter t p) q.0 }
        ensures put { result ≡ true → IsPut (waiter t p) (line self.old q.0) (line self.new q.0) }
        ensures place { JoinsPlace (place self.old) (place self.new) result t.0 q.0 }
        ensures rooms { rooms self.new ≡ rooms self.old };

    /// The first thread of line `q`. None if no thread is in it.
    fn first(&self, q: LineNo) -> Option<ThreadNo>
        ensures answer { thread_number result ≡ first_waiter (line self.now q.0) }
        ensures ordered { NeverRises (line self.now q.0) };

    /// The thread after thread `t` in its line. None if it is the last of it or is in no line.
    fn next(&self, t: ThreadNo) -> Option<ThreadNo>
        ensures { thread_number result ≡ behind_in (place self.now t.0) (line self.now) t.0 };

    /// Takes thread `t` out of its line, and returns the line. Returns None, and changes nothing,
    /// if it is in none.
    fn part(&mut self, t: ThreadNo) -> Option<LineNo>
        ensures answer { line_number result ≡ place self.old t.0 }
        ensures line { (k : ℕ) → line self.new k ≡ without t.0 (line self.old k) }
        ensures place { LeavesPlace (place self.old) (place self.new) t.0 }
        ensures rooms { rooms self.new ≡ rooms self.old };

    /// Sets the priority of thread `t` to `p` in its line: it goes after all of that priority, even
    /// if it had that priority before (own). Returns false, and changes nothing, if it is in no
    /// line.
    fn shift(&mut self, t: ThreadNo, p: Prio) -> bool
        ensures answer { result ≡ is_some (place self.old t.0) }
        ensures line { ShiftsLine (line self.old) (line self.new) (place self.old) (waiter t p) }
        ensures put { IsPutAnew (line self.old) (line self.new) (place self.old) (waiter t p) }
        ensures place { (u : ℕ) → place self.new u ≡ place self.old u }
        ensures rooms { rooms self.new ≡ rooms self.old };

    /// The line in which thread `t` is. None if it is in none.
    fn where_is(&self, t: ThreadNo) -> Option<LineNo>
        ensures answer { line_number result ≡ place self.now t.0 }
        ensures stands { StandsAtPlace (line self.now) (place self.now) t.0 };
}
