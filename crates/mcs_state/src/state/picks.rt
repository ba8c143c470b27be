//! Which thread a core runs next (own).
ghost use Rattle.std.specs.Prelude.{◌≡◌, ◌≤◌, IfSome, IsTrue, option_and_then};
ghost use Rattle.mcs_types.specs.declared.id.Kind.{Kind};
ghost use Rattle.mcs_book.specs.Logs.{counted};
ghost use Rattle.mcs_book.specs.Objects.{makes_kind, form_of};
ghost use Rattle.mcs_book.specs.Contexts.{context_of};
ghost use Rattle.mcs_book.specs.Sound.{IsThere};
ghost use Rattle.mcs_book.specs.Statuses.{may_enter, is_ready, is_on_core};
ghost use Rattle.mcs_book.specs.Picking.{IsPick, is_candidate};
ghost use Rattle.mcs_state.specs.Now.{so_far};
ghost use Rattle.mcs_state.specs.Picking.{thread_at, is_above, better_of};

use super::State;
use mcs_object_queues::Waiting;
use mcs_types::{CoreId, Kind, ObjId, Status, ThreadSet};

/// Returns whether a thread of this status can run.
pub fn is_ready(status: Option<Status>) -> bool
    ensures { result ≡ is_ready status }
{
    matches!(status, Some(Status::Running | Status::Restart))
}

/// Returns the thread of a number: serial n has the number n - 1.
fn thread_id(number: u16) -> ObjId
    ensures { result ≡ thread_at number }
{
    ObjId {
        kind: Kind::Thread,
        serial: number as u32 + 1,
    }
}

impl<W: Waiting> State<W> {
    /// Returns whether a thread holds a context of a core.
    fn has_context_of(&self, core: CoreId, thread: ObjId) -> bool
        ensures { result ≡ is_on_core core
            (option_and_then (λ s. form_of (so_far self.now) s)
            (context_of (so_far self.now) thread)) }
    {
        match self.context(thread) {
            None => false,
            Some(context) => self.runs_on(context, core),
        }
    }

    /// Returns whether a thread may enter on a core: it is Running or in Restart, and holds a
    /// context of that core.
    pub fn may_enter(&self, core: CoreId, thread: ObjId) -> bool
        ensures { result ≡ may_enter (so_far self.now) core thread }
    {
        is_ready(self.status(thread)) && self.has_context_of(core, thread)
    }

    /// Returns whether a thread may enter on a core, and is not in `passed`.
    fn is_candidate(&self, core: CoreId, passed: &ThreadSet, thread: ObjId) -> bool
        ensures candidate { result ≡ is_candidate (so_far self.now) core passed.now thread }
        ensures there { IsTrue result → IsThere (so_far self.now) Kind.Thread thread }
    {
        self.may_enter(core, thread) && !passed.contains(thread)
    }

    /// Returns whether the thread of a number has a greater priority than the best of those before
    /// it, if there is one.
    fn is_above(&self, number: u16, best: Option<u16>) -> bool
        requires there { IsThere (so_far self.now) Kind.Thread (thread_at number) }
        requires best { IfSome best (λ n. IsThere (so_far self.now) Kind.Thread (thread_at n)) }
        ensures { result ≡ is_above (so_far self.now) number best }
    {
        match best {
            None => true,
            Some(before) => {
                self.priority(thread_id(before)).0 < self.priority(thread_id(number)).0
            }
        }
    }

    /// Returns the better of the thread of a number and the best of those before it; threads in
    /// `passed` do not count.
    fn better(
        &self,
        core: CoreId,
        passed: &ThreadSet,
        number: u16,
        best: Option<u16>,
    ) -> Option<u16>
        requires { IfSome best (λ n. IsThere (so_far self.now) Kind.Thread (thread_at n)) }
        ensures better { result ≡ better_of (so_far self.now) core passed.now number best }
        ensures there { IfSome result (λ n. IsThere (so_far self.now) Kind.Thread (thread_at n)) }
    {
        if self.is_candidate(core, passed, thread_id(number)) && self.is_above(number, best) {
            Some(number)
        } else {
            best
        }
    }

    /// Returns how many threads were made.
    fn thread_count(&self) -> u16
        ensures count { result ≡ counted (makes_kind Kind.Thread) (so_far self.now) }
        ensures few { result ≤ 256 }
    {
        self.threads.made()
    }

    /// Returns, of the threads that may enter on a core and are not in `passed`, the one of
    /// greatest priority, then of lowest serial; None if there is none (own).
    pub fn pick(&self, core: CoreId, passed: &ThreadSet) -> Option<ObjId>
        ensures { IsPick (so_far self.now) core passed.now result }
    {
        self.is_sound();
        let count = self.thread_count();
        let mut best = None;
        let mut number = 0;
        while number < count {
            best = self.better(core, passed, number, best);
            number += 1;
        }
        match best {
            None => None,
            Some(number) => Some(thread_id(number)),
        }
    }
}
