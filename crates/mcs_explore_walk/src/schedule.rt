//! What each core may pick, by the schedules of its users.
ghost use Rattle.std.specs.Prelude.{◌≡◌, ◌≤◌, true, false, Some, nat_lt, slice_get, IfNone, IfOk, IfSome};
ghost use Rattle.mcs_book.specs.History.{log_of};
ghost use Rattle.mcs_book.specs.Threads.{prio_of};
ghost use Rattle.mcs_turns.specs.declared.position.Pick.{Pick};
ghost use Rattle.mcs_turns.specs.Turns.{ArePicks, ArePicksOf, CanBePicked};
ghost use Rattle.mcs_explore_walk.specs.Walks.{EntersSomewhere, IsBest, IsBestOf, IsOffer, best_at};

use crate::walk::{Candidate, Walk, priority_of};
use mcs_kernel::Kernel;
use mcs_queues::Lines;
use mcs_turns::{Pick, Schedule};
use mcs_types::{CoreId, ObjId, OutOfMemory};
use mcs_users::{Picks, UserList, Users, push};
use std::alloc::Global;

/// Returns the best pick of a core; None if the core does not exist.
fn best_at(best: &[Option<Pick>], core: usize) -> Option<Pick>
    ensures { result ≡ best_at best.now core }
{
    match best.get(core) {
        Some(pick) => *pick,
        None => None,
    }
}

/// Returns whether a thread that may enter has a lower priority than another one.
fn is_below<L: Lines>(kernel: &Kernel<L>, thread: ObjId, other: ObjId) -> bool
    requires thread { EntersSomewhere (log_of kernel.now) thread }
    requires other { EntersSomewhere (log_of kernel.now) other }
    ensures { result ≡ nat_lt (prio_of (log_of kernel.now) thread)
        (prio_of (log_of kernel.now) other) }
{
    priority_of(kernel, thread) < priority_of(kernel, other)
}

impl<L: Lines> Walk<L> {
    /// Returns whether a core may pick a candidate, given the best candidate there.
    fn may_pick(&self, users: &Users, user: &UserList, candidate: Candidate, best: Pick) -> bool
        requires user { slice_get users.now candidate.pick.user ≡ Some user.now }
        requires candidate { IsOffer users.now self.now candidate.pick.user (Some candidate) }
        requires best { IsBest users.now self.now candidate.core best }
        ensures yes { result ≡ true → CanBePicked users.now self.now candidate.core candidate.pick }
        ensures no { result ≡ false → (k : Pick) → k.user ≡ candidate.pick.user
            → CanBePicked users.now self.now candidate.core k → ⊥ }
    {
        users.are_apart();
        match user.schedule {
            Schedule::Serial => candidate.pick.is_same(best),
            Schedule::Equal => {
                let Some(first) = users.at(best.user) else {
                    unreachable!();
                };
                !is_below(self.kernel(), candidate.thread, first.thread)
            }
            Schedule::Any => true,
        }
    }

    /// Returns what a core may pick of a user, given the best candidate there; None if it may not
    /// pick the user.
    fn pick_of(&self, users: &Users, user: usize, core: CoreId, best: Pick) -> Option<Pick>
        requires { IsBest users.now self.now core best }
        ensures some { IfSome result (λ k.
            (k.user ≡ user) × CanBePicked users.now self.now core k) }
        ensures none { IfNone result ((k : Pick) → k.user ≡ user
            → CanBePicked users.now self.now core k → ⊥) }
    {
        let Some(list) = users.at(user) else {
            return None;
        };
        let Some(candidate) = self.candidate(users, user) else {
            return None;
        };
        if candidate.core.0 == core.0 && self.may_pick(users, list, candidate, best) {
            Some(candidate.pick)
        } else {
            None
        }
    }

    /// Returns all that a core may pick, given the best candidate there. `OutOfMemory` if an
    /// allocation fails.
    fn picks_by(
        &self,
        alloc: Global,
        users: &Users,
        core: CoreId,
        best: Pick,
    ) -> Result<Picks, OutOfMemory>
        requires { IsBest users.now self.now core best }
        ensures { IfOk result (λ p. ArePicksOf users.now self.now core p) }
    {
        users.are_apart();
        let mut picks = Picks::new(alloc);
        if users.are_serial() {
            picks.push(best)?;
            return Ok(picks);
        }
        for user in 0..users.lists().len() {
            if let Some(pick) = self.pick_of(users, user, core, best) {
                picks.push(pick)?;
            }
        }
        Ok(picks)
    }

    /// Returns all that a core may pick, given the best candidate there, if any. `OutOfMemory` if
    /// an allocation fails.
    fn picks_on(
        &self,
        alloc: Global,
        users: &Users,
        core: CoreId,
        best: Option<Pick>,
    ) -> Result<Picks, OutOfMemory>
        requires { IsBestOf users.now self.now core best }
        ensures { IfOk result (λ p. ArePicksOf users.now self.now core p) }
    {
        match best {
            Some(best) => self.picks_by(alloc, users, core, best),
            None => Ok(Picks::new(alloc)),
        }
    }

    /// Returns what each core may pick: the due entries of those users that have one and whose
    /// threads their schedules let it pick. `OutOfMemory` if an allocation fails.
    pub fn picks(&self, alloc: Global, users: &Users) -> Result<Vec<Picks>, OutOfMemory>
        ensures { IfOk result (λ v. ArePicks users.now self.now v.items) }
    {
        let best = self.best(alloc, users)?;
        let cores = self.kernel().book().cores();
        let mut picks = Vec::with_capacity(alloc, cores as usize)?;
        for core in 0..cores {
            let best = best_at(&best, core as usize);
            let on_core = self.picks_on(alloc, users, CoreId(core), best)?;
            push(&mut picks, on_core)?;
        }
        Ok(picks)
    }
}
