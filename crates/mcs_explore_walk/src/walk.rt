//! A state of a run: a kernel, the position of each user, and what each core may enter.
ghost use Rattle.std.specs.Prelude.{◌≡◌, ◌≤◌, ◌<◌, ◌+◌, ◌^◌, ℕ, true, false, [], IfOk, IfSome, IfNone, OnOk, OnErr, Some, length, map, replicate, slice_get, option_copied};
ghost use Rattle.std.specs.List.{Contains, list_any};
ghost use Rattle.mcs_types.specs.declared.id.ObjId.{ObjId};
ghost use Rattle.mcs_book.specs.History.{IsLegal, log_of};
ghost use Rattle.mcs_book.specs.Picking.{GoesBefore};
ghost use Rattle.mcs_book.specs.Statuses.{may_enter, status_of};
ghost use Rattle.mcs_book.specs.Threads.{prio_of};
ghost use Rattle.mcs_turns.specs.declared.position.Position.{Position};
ghost use Rattle.mcs_turns.specs.Due.{is_same, none_stale, picks_at, stale_after};
ghost use Rattle.mcs_turns.specs.Mail.{brought};
ghost use Rattle.mcs_turns.specs.Turns.{RunState, IsStale, ArePicks, IsOver, IsTurn, Follows, all_answered, beginning, entered, put_at, saved_at, started};
ghost use Rattle.mcs_explore_walk.specs.Walks.{AreBest, AreBestBelow, EntersSomewhere, HasEachTurn, HasNoTurn, IsBestBelow, IsEntrant, IsEntryCore, IsOffer, IsPicked, is_let_in, last_answer, left_stale, step_of};

use crate::copies::copy_all;
use crate::fault::{OrdersFault, limit_of};
use crate::mail::{newest, tell_all};
use mcs_kernel::{Boot, EnterFault, Kernel, is_ready};
use mcs_queues::Lines;
use mcs_turns::{Pick, Position, Saved, filled};
use mcs_types::{Answer, CoreId, Entry, ObjId, OutOfMemory, Status, copy_rows};
use mcs_users::{Picks, UserList, Users, first_place, place_after, push};
use std::alloc::Global;
use std::marker::Model;

/// An entry of a user on a core.
#[derive(Clone, Copy, Drop)]
pub struct Turn {
    pub core: CoreId,
    pub pick: Pick,
}

/// A candidate: the core on which a user can enter now, its pick, and its thread.
#[derive(Clone, Copy, Drop)]
pub(crate) struct Candidate {
    pub core: CoreId,
    pub pick: Pick,
    pub thread: ObjId,
}

/// A state of a run: a kernel, the positions of its users, and for each core its stale picks, made
/// since its last line, whose users have not moved. Clauses see the run's state.
pub struct Walk<L: Lines> {
    kernel: Kernel<L>,
    places: Vec<Position>,
    stale: Vec<Picks>,
}

// Written by hand as a separate function: a derived drop would be proved again wherever a walk is
// dropped.
impl<L: Lines> Drop for Walk<L> {
    fn drop(self) {
        let Walk {
            kernel: _,
            places: _,
            stale: _,
        } = self;
    }
}

impl<L: Lines> Model for Walk<L> {
    ghost use Rattle.mcs_turns.specs.Turns.{RunState};

    ghost Value = { RunState };

    ghost view = { λ w. record {
      book = w.kernel;
      places = w.places.items;
      stale = w.stale.items;
    } };
}

/// Returns whether a thread may enter, given the fault that its entry would have, if any: a full
/// book is no fault of the thread.
fn is_let_in(fault: Option<EnterFault>) -> bool
    ensures { result ≡ is_let_in fault }
{
    match fault {
        None | Some(EnterFault::BookFull) => true,
        Some(_) => false,
    }
}

/// Returns whether a thread may enter on a core.
fn may_enter<L: Lines>(kernel: &Kernel<L>, core: CoreId, thread: ObjId) -> bool
    ensures { result ≡ may_enter (log_of kernel.now) core thread }
{
    is_let_in(kernel.fault(core, thread))
}

/// The core on which a thread with this status may enter; None if it may enter nowhere.
#[tactic(auto, using(crate::proofs::Walking::not_ready, crate::proofs::Walking::without_context, crate::proofs::Walking::with_context))]
fn entry_core<L: Lines>(kernel: &Kernel<L>, thread: ObjId, status: Option<Status>) -> Option<CoreId>
    requires { status ≡ status_of (log_of kernel.now) thread }
    ensures { IsEntryCore (log_of kernel.now) thread result }
{
    kernel.is_fair();
    if !is_ready(status) {
        return None;
    }
    match kernel.context(thread) {
        Some(context) => kernel.core(context),
        None => None,
    }
}

/// The priority of a thread that may enter.
pub(crate) fn priority_of<L: Lines>(kernel: &Kernel<L>, thread: ObjId) -> u8
    requires { EntersSomewhere (log_of kernel.now) thread }
    ensures { result ≡ prio_of (log_of kernel.now) thread }
{
    match kernel.priority(thread) {
        Some(priority) => priority.0,
        None => 0,
    }
}

/// Returns whether a thread that may enter on a core has precedence over another one.
fn goes_before<L: Lines>(kernel: &Kernel<L>, thread: ObjId, other: ObjId) -> bool
    requires thread { EntersSomewhere (log_of kernel.now) thread }
    requires other { EntersSomewhere (log_of kernel.now) other }
    ensures yes { result ≡ true → GoesBefore (log_of kernel.now) thread other }
    ensures no { result ≡ false → GoesBefore (log_of kernel.now) other thread }
{
    let one = priority_of(kernel, thread);
    let two = priority_of(kernel, other);
    two < one || (one == two && thread.serial < other.serial)
}

/// Returns the positions of `users` before the first turn.
fn first_places(alloc: Global, users: &[UserList]) -> Result<Vec<Position>, OutOfMemory>
    ensures { IfOk result (λ v. v.items ≡ map started users.now) }
{
    let mut places = Vec::with_capacity(alloc, users.len())?;
    for user in users {
        push(&mut places, first_place(user))?;
    }
    Ok(places)
}

/// Returns an empty set of stale picks for each core.
fn no_stale(alloc: Global, cores: u8) -> Result<Vec<Picks>, OutOfMemory>
    ensures { IfOk result (λ v. v.items ≡ none_stale cores) }
{
    let mut stale = Vec::with_capacity(alloc, cores as usize)?;
    for core in 0..cores {
        push(&mut stale, Picks::new(alloc))?;
    }
    Ok(stale)
}

/// Sets the position at an index, if there is such an index.
fn put(places: &mut Vec<Position>, user: usize, place: Position)
    ensures { places.new.items ≡ put_at user place places.old.items }
{
    if user < places.len() {
        places[user] = place;
    }
}

/// Returns the picks of a core; none if the core does not exist.
pub fn picked(picks: &[Picks], core: usize) -> &[Pick]
    ensures { result.now ≡ picks_at picks.now core }
{
    match picks.get(core) {
        Some(picks) => picks.as_slice(),
        None => &[],
    }
}

/// Returns None for each of this many cores.
fn no_picks(alloc: Global, cores: u8) -> Result<Vec<Option<Pick>>, OutOfMemory>
    ensures { IfOk result (λ v. v.items ≡ replicate cores None) }
{
    let mut picks = Vec::with_capacity(alloc, cores as usize)?;
    for core in 0..cores {
        push(&mut picks, None)?;
    }
    Ok(picks)
}

/// Returns whether a pick is among these.
pub fn has(picks: &[Pick], pick: Pick) -> bool
    ensures { result ≡ list_any (is_same pick) picks.now }
{
    picks.iter().any(|other| pick.is_same(*other))
}

/// Returns whether a turn enters a current pick of its core.
fn is_picked(picks: &[Picks], turn: Turn) -> bool
    ensures yes { result ≡ true → Contains (picks_at picks.now turn.core.0) turn.pick }
    ensures no { result ≡ false → Contains (picks_at picks.now turn.core.0) turn.pick → ⊥ }
{
    has(picked(picks, turn.core.0 as usize), turn.pick)
}

impl<L: Lines> Walk<L> {
    /// Returns the state before the first turn.
    pub fn new(alloc: Global, boot: &Boot, users: &Users) -> Result<Walk<L>, OutOfMemory>
        ensures { IfOk result (λ w. w ≡ beginning users.now boot.now) }
    {
        let kernel = Kernel::new(alloc, boot)?;
        let places = first_places(alloc, users.lists())?;
        let stale = no_stale(alloc, boot.cores())?;
        Ok(Walk {
            kernel,
            places,
            stale,
        })
    }

    /// The kernel.
    pub fn kernel(&self) -> &Kernel<L>
        ensures { result.now ≡ self.now.book }
    {
        &self.kernel
    }

    /// Returns the position of each user.
    pub fn places(&self) -> &[Position]
        ensures { result.now ≡ self.now.places }
    {
        self.places.as_slice()
    }

    /// Returns the position of the user at an index.
    pub fn place(&self, user: usize) -> Option<Position>
        ensures { result ≡ slice_get self.now.places user }
    {
        self.places.get(user).copied()
    }

    /// Returns the stale picks of a core, made since its last line, whose users have not moved;
    /// None if the core does not exist.
    pub fn stale(&self, core: CoreId) -> Option<&Picks>
        ensures { option_copied result ≡ slice_get self.now.stale core.0 }
    {
        self.stale.get(core.0 as usize)
    }

    /// Returns what a user can enter now; None if it has no entry left, or its thread may enter
    /// nowhere.
    pub(crate) fn candidate(&self, users: &Users, user: usize) -> Option<Candidate>
        ensures { IsOffer users.now self.now user result }
    {
        let list = users.at(user)?;
        let place = self.place(user)?;
        let status = self.kernel.status(list.thread);
        let number = place.due(status);
        if number >= list.entries.len() {
            return None;
        }
        let core = entry_core(&self.kernel, list.thread, status)?;
        Some(Candidate {
            core,
            pick: Pick { user, number },
            thread: list.thread,
        })
    }

    /// Returns the better of a user's candidate and the best of earlier users on that core.
    #[tactic(auto, using(crate::proofs::Picking::is_first))]
    fn better(&self, users: &Users, user: usize, candidate: Candidate, best: Option<Pick>) -> Pick
        requires candidate { IsOffer users.now self.now user (Some candidate) }
        requires best { IsBestBelow users.now self.now candidate.core user best }
        ensures { IsBestBelow users.now self.now candidate.core (user + 1) (Some result) }
    {
        let Some(before) = best else {
            return candidate.pick;
        };
        let Some(list) = users.at(before.user) else {
            unreachable!();
        };
        if goes_before(&self.kernel, candidate.thread, list.thread) {
            candidate.pick
        } else {
            before
        }
    }

    /// Keeps a user's candidate as the best of its core, if it has precedence over the best of
    /// earlier users.
    #[tactic(auto, using(crate::proofs::Picking::all_kept, crate::proofs::Picking::all_noted, crate::proofs::Picking::all_beyond))]
    fn note(&self, users: &Users, user: usize, best: &mut Vec<Option<Pick>>)
        requires { AreBestBelow users.now self.now user best.old.items }
        ensures best { AreBestBelow users.now self.now (user + 1) best.new.items }
        ensures length { length best.new.items ≡ length best.old.items }
    {
        let Some(candidate) = self.candidate(users, user) else {
            return;
        };
        let core = candidate.core.0 as usize;
        if core < best.len() {
            let before = best[core];
            let better = self.better(users, user, candidate, before);
            best[core] = Some(better);
        }
    }

    /// Returns the best candidate of each core: the due entry of the user whose thread has
    /// precedence over all others there.
    #[tactic(auto, using(crate::proofs::Picking::none_best, crate::proofs::Picking::best_picks))]
    pub(crate) fn best(
        &self,
        alloc: Global,
        users: &Users,
    ) -> Result<Vec<Option<Pick>>, OutOfMemory>
        ensures { IfOk result (λ v. AreBest users.now self.now v.items) }
    {
        let mut best = no_picks(alloc, self.kernel.book().cores())?;
        for user in 0..users.lists().len() {
            self.note(users, user, &mut best);
        }
        Ok(best)
    }

    /// Returns the stale picks of the core at an index after a line by a user on a core; `picks`
    /// are the cores' picks before the line.
    fn left_of(
        &self,
        alloc: Global,
        place: usize,
        core: CoreId,
        user: usize,
        picks: &[Picks],
    ) -> Result<Picks, OutOfMemory>
        ensures { IfOk result (λ p. IfSome (slice_get self.now.stale place) (λ stale.
            p ≡ left_stale core.0 user picks.now place stale)) }
    {
        let Some(stale) = self.stale.get(place) else {
            return Ok(Picks::new(alloc));
        };
        if place == core.0 as usize {
            Ok(Picks::new(alloc))
        } else {
            stale.after(alloc, picked(picks, place), user)
        }
    }

    /// Returns the stale picks of all cores after a line by a user on a core; `picks` are the
    /// cores' picks before the line.
    fn stale_after(
        &self,
        alloc: Global,
        core: CoreId,
        user: usize,
        picks: &[Picks],
    ) -> Result<Vec<Picks>, OutOfMemory>
        ensures { IfOk result (λ v.
            v.items ≡ stale_after core.0 user 0 picks.now self.now.stale) }
    {
        let mut after = Vec::with_capacity(alloc, self.stale.len())?;
        for other in 0..self.stale.len() {
            let left = self.left_of(alloc, other, core, user, picks)?;
            push(&mut after, left)?;
        }
        Ok(after)
    }

    /// Returns whether a core picked this earlier.
    fn was_picked(&self, turn: Turn) -> bool
        ensures yes { result ≡ true → IsStale self.now turn.core turn.pick }
        ensures no { result ≡ false → IsStale self.now turn.core turn.pick → ⊥ }
    {
        match self.stale(turn.core) {
            Some(stale) => stale.has(turn.pick),
            None => false,
        }
    }

    /// Returns whether a turn enters a current pick of its core, or a stale one.
    fn may_take(&self, picks: &[Picks], turn: Turn) -> bool
        ensures yes { result ≡ true → IsPicked self.now picks.now turn.core turn.pick }
        ensures no { result ≡ false → IsPicked self.now picks.now turn.core turn.pick → ⊥ }
    {
        is_picked(picks, turn) || self.was_picked(turn)
    }

    /// Returns the words that the user at an index keeps.
    fn saved(&self, user: usize) -> Saved
        ensures { result ≡ saved_at self.now user }
    {
        match self.place(user) {
            Some(place) => place.saved,
            None => Saved::none(),
        }
    }

    /// Advances all users but the one that entered past the newest line.
    #[tactic(auto, using(crate::proofs::Telling::answered_newest, crate::proofs::Telling::answered_no_line))]
    fn tell(&mut self, users: &Users, own: usize)
        ensures { self.new ≡ record self.old {
          places = all_answered (brought self.old.book) own 0 users.now self.old.places;
        } }
    {
        if let Some(line) = newest(&self.kernel) {
            tell_all(&line, own, users.lists(), &mut self.places);
        }
    }

    /// Enters entry `number` of a user, whose thread may enter on the turn's core, and advances
    /// this user and those that its line reaches. `picks` are the current picks of the cores. After
    /// an error nothing has changed.
    fn enter(
        &mut self,
        alloc: Global,
        users: &Users,
        list: &UserList,
        entry: Entry,
        picks: &[Picks],
        turn: Turn,
    ) -> Result<Answer, OrdersFault>
        requires number { turn.pick.number < length list.now.entries }
        requires enters { may_enter (log_of self.old.book) turn.core list.now.thread ≡ true }
        ensures entered { OnOk result (self.new ≡ entered users.now picks.now list.now
            (step_of turn.core list.now entry) turn.pick self.old) }
        ensures answer { IfOk result (λ a. last_answer self.new.book ≡ Some a) }
        ensures err { OnErr result (self.new ≡ self.old) }
    {
        let stale = self.stale_after(alloc, turn.core, turn.pick.user, picks)?;
        let saved = self.saved(turn.pick.user);
        match self.kernel.enter(alloc, turn.core, list.thread, entry) {
            Ok(answer) => {
                let place = place_after(list, turn.pick.number, saved, &answer);
                put(&mut self.places, turn.pick.user, place);
                self.stale = stale;
                self.tell(users, turn.pick.user);
                Ok(answer)
            }
            Err(fault) => Err(limit_of(fault)),
        }
    }

    /// Returns the user and the entry of a turn, given the picks of the cores; None if the rule
    /// does not allow it.
    fn entrant<'u>(
        &self,
        users: &'u Users,
        picks: &[Picks],
        turn: Turn,
    ) -> Option<(&'u UserList, &'u Entry)>
        requires { ArePicks users.now self.now picks.now }
        ensures some { IfSome result (λ e.
            IsEntrant users.now self.now picks.now turn e.0.now e.1.now) }
        ensures none { IfNone result (HasNoTurn users.now self.now turn.core turn.pick) }
    {
        let Some(list) = users.at(turn.pick.user) else {
            return None;
        };
        let Some(entry) = list.at(turn.pick.number) else {
            return None;
        };
        if !self.may_take(picks, turn) {
            return None;
        }
        if !may_enter(&self.kernel, turn.core, list.thread) {
            return None;
        }
        Some((list, entry))
    }

    /// Returns whether the rule allows a turn, given the picks of the cores.
    pub fn has_turn(&self, users: &Users, picks: &[Picks], turn: Turn) -> bool
        requires { ArePicks users.now self.now picks.now }
        ensures yes { result ≡ true → (h : RunState)
            × IsTurn users.now turn.core turn.pick self.now h }
        ensures no { result ≡ false → HasNoTurn users.now self.now turn.core turn.pick }
    {
        self.entrant(users, picks, turn).is_some()
    }

    /// Returns whether no turn is possible, given the picks of the cores and their turns.
    pub fn is_over(&self, users: &Users, picks: &[Picks], turns: &[Turn]) -> bool
        requires picks { ArePicks users.now self.now picks.now }
        requires turns { HasEachTurn users.now self.now turns.now }
        ensures over { result ≡ true → IsOver users.now self.now }
        ensures goes_on { result ≡ false → (h : RunState) × Follows users.now self.now h }
    {
        for index in 0..turns.len() {
            if self.has_turn(users, picks, turns[index]) {
                return false;
            }
        }
        true
    }

    /// Makes a turn, given the picks of the cores, and returns its answer; None if the rule does
    /// not allow it. Then, and after an error, nothing has changed. `BookFull` if the book has
    /// 1,000,000 lines, `OutOfMemory` if an allocation fails.
    pub fn turn(
        &mut self,
        alloc: Global,
        users: &Users,
        picks: &[Picks],
        turn: Turn,
    ) -> Result<Option<Answer>, OrdersFault>
        requires { ArePicks users.now self.old picks.now }
        ensures turn { IfOk result (λ o. IfSome o (λ a.
            IsTurn users.now turn.core turn.pick self.old self.new)) }
        ensures answer { IfOk result (λ o. IfSome o (λ a. last_answer self.new.book ≡ Some a)) }
        ensures no_turn { IfOk result (λ o.
            IfNone o (HasNoTurn users.now self.old turn.core turn.pick)) }
        ensures none { IfOk result (λ o. IfNone o (self.new ≡ self.old)) }
    {
        let Some((list, entry)) = self.entrant(users, picks, turn) else {
            return Ok(None);
        };
        let entry = entry.copy(alloc)?;
        let saved = self.saved(turn.pick.user);
        let fills = list.fills.as_slice();
        let given = filled(alloc, fills, turn.pick.number, saved, entry)?;
        let answer = self.enter(alloc, users, list, given, picks, turn)?;
        Ok(Some(answer))
    }

    /// The kernel and the positions.
    fn into_parts(self) -> (Kernel<L>, Vec<Position>) {
        let Walk {
            kernel,
            places,
            stale: _,
        } = self;
        (kernel, places)
    }

    /// Clones the walk in the memory of a spare one. `OutOfMemory` if an allocation fails.
    pub fn copy(&self, alloc: Global, spare: Option<Walk<L>>) -> Result<Walk<L>, OutOfMemory>
        ensures { IfOk result (λ w. w ≡ self.now) }
    {
        let (kernel, places) = match spare {
            Some(spare) => {
                let (kernel, places) = spare.into_parts();
                (Some(kernel), places)
            }
            None => (None, Vec::new(alloc)),
        };
        let kernel = self.kernel.copy(alloc, kernel)?;
        let places = copy_rows(places, self.places.as_slice(), self.places.len())?;
        let stale = copy_all(alloc, self.stale.as_slice())?;
        Ok(Walk {
            kernel,
            places,
            stale,
        })
    }
}
