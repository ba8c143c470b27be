//! The runs of users after a boot, as a system of states with keys.
ghost use Rattle.std.specs.Prelude.{◌≡◌, ◌++◌, ◌∷◌, [], IfOk, OnOk, IfSome, IfNone, List};
ghost use Rattle.mcs_turns.specs.Turns.{User, RunState, ArePicks, beginning};
ghost use Rattle.mcs_explore_walk.specs.declared.walk.Turn.{Turn};
ghost use Rattle.mcs_explore_walk.specs.Walks.{HasEachTurn};
ghost use Rattle.mcs_explore_orders.specs.Trails.{Leads};
ghost use Rattle.mcs_explore_orders.specs.Exploring.{AreNextsOf, IsKeyIn, numbers_of};
ghost use Rattle.mcs_explore_orders.specs.Shown.{HasCounted, IsShownState, IsShownTurn, SeesState, SeesTurn, Shown, Tells, TellsOn};
ghost use Rattle.mcs_explore_orders.specs.Watching.{GoesOn, counting};

use crate::packed::PackedTurn;
use crate::path_cache::PathCache;
use mcs_explore_keys::{Key, Keys};
use mcs_explore_search::System;
use mcs_explore_walk::{OrdersFault, Picks, Turn, Users, Walk};
use mcs_kernel::Boot;
use mcs_queues::PlainLines;
use mcs_turns::Position;
use mcs_types::{Answer, OutOfMemory};
use std::alloc::Global;
use std::marker::Model;

/// What a search reports its findings to. A state is named by its index in the order of discovery.
pub trait Watch: Drop {
    // what the watch was shown of runs of these users
    ghost HasSeen: { Self → List User → Shown → Type 0 };

    // what the watch looks for, which does not change
    ghost Aim: { Type 0 };

    ghost aim: { Self → Aim };

    /// Sees the state at this index, and whether it is over, that is, no turn is possible.
    fn see_state(
        &mut self,
        users: &Users,
        place: usize,
        walk: &Walk<PlainLines>,
        is_over: bool,
    ) -> Result<(), OrdersFault>
        ensures aim { aim self.new ≡ aim self.old }
        ensures sees { OnOk result (SeesState HasSeen self.old self.new
            users.now place walk.now is_over) };

    /// Sees a turn from the state at this index: its answer, the users' positions before it, and
    /// the state after it.
    fn see_turn(
        &mut self,
        users: &Users,
        place: usize,
        turn: Turn,
        answer: &Answer,
        from: &[Position],
        walk: &Walk<PlainLines>,
    ) -> Result<(), OrdersFault>
        ensures aim { aim self.new ≡ aim self.old }
        ensures sees { OnOk result (SeesTurn HasSeen self.old self.new
            users.now place turn answer.now from.now walk.now) };

    /// Returns whether the search continues after a state was expanded.
    fn goes_on(&self) -> bool;
}

/// The system that is searched: the runs of users after a boot, their keys, and the watch to which
/// they are reported.
pub struct Explorer<'a, W: Watch> {
    boot: &'a Boot,
    users: &'a Users,
    keys: Keys,
    trail: PathCache,
    watch: W,
    turns: usize,
    ends: usize,
}

// Written by hand as a separate function: a derived drop would be proved again wherever it is
// freed.
impl<'a, W: Watch> Drop for Explorer<'a, W> {
    fn drop(self) {
        let Explorer {
            boot: _,
            users: _,
            keys: _,
            trail: _,
            watch: _,
            turns: _,
            ends: _,
        } = self;
    }
}

impl<'a, W: Watch> Model for Explorer<'a, W> {
    ghost use Rattle.std.specs.Prelude.{◌≡◌};
    ghost use Rattle.mcs_turns.specs.Turns.{beginning};
    ghost use Rattle.mcs_explore_orders.specs.Trails.{IsTrail};
    ghost use Rattle.mcs_explore_orders.specs.Watching.{Watching};

    ghost Value = { Watching W };

    ghost view = { λ e. record {
      search = record {
        users = e.users.now;
        boot = e.boot.now;
        keys = e.keys;
        trail = e.trail;
      };
      watch = e.watch;
      turns = e.turns;
      ends = e.ends;
    } };

    ghost invariant = { λ e. (e.trail.start ≡ beginning e.users.now e.boot.now)
        × IsTrail e.users.now e.trail.start e.trail.points };
}

impl<'a, W: Watch> Explorer<'a, W> {
    /// Returns an explorer at the beginning of a run.
    pub fn new(
        alloc: Global,
        boot: &'a Boot,
        users: &'a Users,
        is_exact: bool,
        numbered: bool,
        watch: W,
    ) -> Result<Explorer<'a, W>, OrdersFault>
        ensures users { IfOk result (λ e. e.search.users ≡ users.now) }
        ensures boot { IfOk result (λ e. e.search.boot ≡ boot.now) }
        ensures exact { IfOk result (λ e. e.search.keys.is_exact ≡ is_exact) }
        ensures numbered { IfOk result (λ e. e.search.keys.numbered ≡ numbered) }
        ensures watch { IfOk result (λ e. e.watch ≡ watch) }
        ensures turns { IfOk result (λ e. e.turns ≡ 0) }
        ensures ends { IfOk result (λ e. e.ends ≡ 0) }
    {
        let start = Walk::new(alloc, boot, users)?;
        Ok(Explorer {
            boot,
            users,
            keys: Keys::new(alloc, boot, users, is_exact, numbered),
            trail: PathCache::new(alloc, start),
            watch,
            turns: 0,
            ends: 0,
        })
    }

    /// Returns how many rows the keys have.
    pub fn rows(&self) -> usize {
        self.keys.rows()
    }

    /// Returns how many turns were made, up to `usize::MAX`.
    pub fn turns(&self) -> usize
        ensures { result ≡ self.now.turns }
    {
        self.turns
    }

    /// Returns how many expanded states are over, up to `usize::MAX`.
    pub fn ends(&self) -> usize
        ensures { result ≡ self.now.ends }
    {
        self.ends
    }

    /// Returns the watch.
    pub fn watch(&self) -> &W
        ensures { result.now ≡ self.now.watch }
    {
        &self.watch
    }

    /// Reports the state at an index and, given the picks of its cores, its turns.
    fn report(
        &mut self,
        place: usize,
        walk: &Walk<PlainLines>,
        picks: &[Picks],
        turns: &[Turn],
    ) -> Result<(), OrdersFault>
        requires picks { ArePicks self.old.search.users walk.now picks.now }
        requires turns { HasEachTurn self.old.search.users walk.now turns.now }
        ensures search { self.new.search ≡ self.old.search }
        ensures aim { W.aim self.new.watch ≡ W.aim self.old.watch }
        ensures reported { OnOk result (IsShownState (HasCounted W.HasSeen)
            (counting self.old) (counting self.new) self.old.search.users place walk.now) }
    {
        let is_over = walk.is_over(self.users, picks, turns);
        self.ends = self.ends.saturating_add(usize::from(is_over));
        self.watch.see_state(self.users, place, walk, is_over)
    }

    /// Makes a turn on the walk, and returns the key of the state after it, given the picks of the
    /// cores before it; None if the rule does not allow the turn. The turn starts from the state at
    /// an index.
    fn after_turn(
        &mut self,
        alloc: Global,
        place: usize,
        turn: Turn,
        picks: &[Picks],
        walk: Box<Walk<PlainLines>>,
    ) -> Result<Option<Key>, OrdersFault>
        requires { ArePicks self.old.search.users walk.value picks.now }
        ensures later { GoesOn W.aim self.old self.new }
        ensures trail { self.new.search.trail ≡ self.old.search.trail }
        ensures some { IfOk result (λ o. IfSome o (λ k. (h : RunState)
            × (Leads self.old.search.users turn walk.value h
            × IsKeyIn self.new.search h k.items))) }
        ensures reported { IfOk result (λ o. IfSome o (λ k. IsShownTurn (HasCounted W.HasSeen)
            (counting self.old) (counting self.new) self.old.search.users
            place turn walk.value)) }
        ensures none { IfOk result (λ o. IfNone o ((h : RunState)
            → Leads self.old.search.users turn walk.value h → ⊥)) }
        ensures unseen { IfOk result (λ o. IfNone o (counting self.new ≡ counting self.old)) }
    {
        let mut walk = walk;
        let from = Vec::from_slice(alloc, walk.places())?;
        let Some(answer) = walk.turn(alloc, self.users, picks, turn)? else {
            return Ok(None);
        };
        self.turns = self.turns.saturating_add(1);
        self.watch
            .see_turn(self.users, place, turn, &answer, from.as_slice(), &walk)?;
        let picks = walk.picks(alloc, self.users)?;
        let key = self.keys.key(self.users, &walk, &picks)?;
        self.trail.let_go(walk);
        Ok(Some(key))
    }

    /// Makes a turn on the walk, and adds it with the key of the state after it, if the rule allows
    /// the turn.
    fn add_next(
        &mut self,
        alloc: Global,
        place: usize,
        turn: Turn,
        picks: &[Picks],
        walk: Box<Walk<PlainLines>>,
        nexts: &mut Vec<(PackedTurn, Key)>,
    ) -> Result<(), OrdersFault>
        requires { ArePicks self.old.search.users walk.value picks.now }
        ensures later { GoesOn W.aim self.old self.new }
        ensures trail { self.new.search.trail ≡ self.old.search.trail }
        ensures nexts { OnOk result ((ts : List Turn)
            → AreNextsOf self.old.search walk.value ts (numbers_of nexts.old.items)
            → AreNextsOf self.new.search walk.value (ts ++ turn ∷ [])
            (numbers_of nexts.new.items)) }
        ensures reported { OnOk result (TellsOn (HasCounted W.HasSeen)
            (counting self.old) (counting self.new)
            self.old.search.users place walk.value turn) }
    {
        if let Some(key) = self.after_turn(alloc, place, turn, picks, walk)? {
            let label = PackedTurn::of(turn)?;
            push(nexts, (label, key))?;
        }
        Ok(())
    }

    /// Clones a walk in the memory of a spare one.
    fn copy_of(
        &mut self,
        alloc: Global,
        walk: &Walk<PlainLines>,
    ) -> Result<Box<Walk<PlainLines>>, OutOfMemory>
        ensures copy { IfOk result (λ copy. copy.value ≡ walk.now) }
        ensures unchanged { self.new ≡ self.old }
    {
        self.trail.copy_of(alloc, walk)
    }

    /// Keeps a walk as a spare, so that its memory is reused.
    fn let_go(&mut self, walk: Box<Walk<PlainLines>>)
        ensures { self.new ≡ self.old }
    {
        self.trail.let_go(walk);
    }

    /// Makes a turn on a copy of the walk, and adds it with the key of the state after it.
    fn add_copy(
        &mut self,
        alloc: Global,
        place: usize,
        turn: Turn,
        picks: &[Picks],
        walk: &Walk<PlainLines>,
        nexts: &mut Vec<(PackedTurn, Key)>,
    ) -> Result<(), OrdersFault>
        requires { ArePicks self.old.search.users walk.now picks.now }
        ensures later { GoesOn W.aim self.old self.new }
        ensures trail { self.new.search.trail ≡ self.old.search.trail }
        ensures nexts { OnOk result ((ts : List Turn)
            → AreNextsOf self.old.search walk.now ts (numbers_of nexts.old.items)
            → AreNextsOf self.new.search walk.now (ts ++ turn ∷ []) (numbers_of nexts.new.items)) }
        ensures reported { OnOk result (TellsOn (HasCounted W.HasSeen)
            (counting self.old) (counting self.new)
            self.old.search.users place walk.now turn) }
    {
        let copy = self.copy_of(alloc, walk)?;
        self.add_next(alloc, place, turn, picks, copy, nexts)
    }

    /// Makes each of some turns on a copy of the walk, and adds it with the key of the state after
    /// it.
    fn add_nexts(
        &mut self,
        alloc: Global,
        place: usize,
        turns: &[Turn],
        picks: &[Picks],
        walk: &Walk<PlainLines>,
        nexts: &mut Vec<(PackedTurn, Key)>,
    ) -> Result<(), OrdersFault>
        requires picks { ArePicks self.old.search.users walk.now picks.now }
        requires none { nexts.old.items ≡ [] }
        ensures later { GoesOn W.aim self.old self.new }
        ensures trail { self.new.search.trail ≡ self.old.search.trail }
        ensures nexts { OnOk result
            (AreNextsOf self.new.search walk.now turns.now (numbers_of nexts.new.items)) }
        ensures reported { OnOk result (Tells (HasCounted W.HasSeen)
            (counting self.old) (counting self.new)
            self.old.search.users place walk.now turns.now) }
    {
        for index in 0..turns.len() {
            self.add_copy(alloc, place, turns[index], picks, walk, nexts)?;
        }
        Ok(())
    }

    /// Returns some turns from the state at an index, with the keys of the states after them. The
    /// last turn is made on the walk itself, which saves a copy.
    fn nexts_by(
        &mut self,
        alloc: Global,
        place: usize,
        turns: &[Turn],
        picks: &[Picks],
        walk: Box<Walk<PlainLines>>,
    ) -> Result<Vec<(PackedTurn, Key)>, OrdersFault>
        requires { ArePicks self.old.search.users walk.value picks.now }
        ensures later { GoesOn W.aim self.old self.new }
        ensures trail { self.new.search.trail ≡ self.old.search.trail }
        ensures nexts { IfOk result (λ nexts.
            AreNextsOf self.new.search walk.value turns.now (numbers_of nexts.items)) }
        ensures reported { OnOk result (Tells (HasCounted W.HasSeen)
            (counting self.old) (counting self.new)
            self.old.search.users place walk.value turns.now) }
    {
        let mut nexts = Vec::with_capacity(alloc, turns.len())?;
        let Some((last, others)) = turns.split_last() else {
            self.let_go(walk);
            return Ok(nexts);
        };
        self.add_nexts(alloc, place, others, picks, &walk, &mut nexts)?;
        self.add_next(alloc, place, *last, picks, walk, &mut nexts)?;
        Ok(nexts)
    }
}

/// Adds a turn and a key to the end.
fn push(nexts: &mut Vec<(PackedTurn, Key)>, next: (PackedTurn, Key)) -> Result<(), OrdersFault>
    ensures { OnOk result (nexts.new.items ≡ nexts.old.items ++ next ∷ []) }
{
    match nexts.push(next) {
        Ok(()) => Ok(()),
        Err(_) => Err(OrdersFault::OutOfMemory),
    }
}

impl<'a, W: Watch> System for Explorer<'a, W> {
    ghost use Rattle.std.specs.Prelude.{◌≡◌};
    ghost use Rattle.mcs_turns.specs.Turns.{RunState, beginning};
    ghost use Rattle.mcs_explore_orders.specs.Trails.{Leads};
    ghost use Rattle.mcs_explore_orders.specs.Exploring.{IsKeyIn, LooksLike};
    ghost use Rattle.mcs_explore_orders.specs.Shown.{HasCounted, HasSeenAll};
    ghost use Rattle.mcs_explore_orders.specs.Watching.{GoesOn, counting};
    ghost use Rattle.mcs_explore_orders.specs.Later.{goes-itself, goes-further, keeps-start, keeps-steps, keeps-likeness, keeps-keys, one-key, same-key};

    type Label = PackedTurn;

    type Key = Key;

    type Fault = OrdersFault;

    ghost State = { RunState };

    ghost start = { λ e. beginning e.search.users e.search.boot };

    ghost Leads = { λ e. Leads e.search.users };

    ghost Like = { λ e. LooksLike e.search };

    ghost IsKey = { λ e g k. IsKeyIn e.search g k.items };

    ghost HasSeen = { λ e paths. HasSeenAll (HasCounted W.HasSeen) (counting e) e.search.users
        (beginning e.search.users e.search.boot) paths };

    ghost Later = { λ e f. GoesOn W.aim e f };

    fn first(&mut self, alloc: Global) -> Result<Key, OrdersFault> {
        let walk = self.trail.walk_to(alloc, self.users, &[], &[])?;
        let picks = walk.picks(alloc, self.users)?;
        self.keys.key(self.users, &walk, &picks)
    }

    fn nexts(
        &mut self,
        alloc: Global,
        place: usize,
        path: &[PackedTurn],
        next: &[PackedTurn],
    ) -> Result<Vec<(PackedTurn, Key)>, OrdersFault> {
        let walk = self.trail.walk_to(alloc, self.users, path, next)?;
        let picks = walk.picks(alloc, self.users)?;
        let turns = walk.turns(alloc, self.users, &picks)?;
        self.report(place, &walk, &picks, &turns)?;
        let nexts = self.nexts_by(alloc, place, &turns, &picks, walk)?;
        Ok(nexts)
    }

    fn goes_on(&self) -> bool {
        self.watch.goes_on()
    }

    ghost same = { λ e. goes-itself W.aim e };

    ghost further = { λ e f g. goes-further W.aim e f g };

    ghost keeps_start = { λ e f later. keeps-start e.search f.search later.search };

    ghost keeps_steps = { λ e f later. keeps-steps e.search f.search later.search };

    ghost keeps_likeness = { λ e f later. keeps-likeness e.search f.search later.search };

    ghost keeps_keys = { λ e f later g k is.
        keeps-keys e.search f.search later.search g k.items is };

    ghost alike = { λ e p q g h k. one-key e.search p q g h k.items };

    ghost as_good = { λ e g k c same is. same-key e.search g k.items c.items same is };
}
