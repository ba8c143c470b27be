//! A cache of states along a path of turns, so that the next state need not be replayed from the
//! boot.
ghost use Rattle.std.specs.Prelude.{List, IfOk, ◌≡◌, ◌≤◌, ◌+◌, ◌∷◌, ◌++◌, [], true, OnOk, OnErr, length, take};
ghost use Rattle.mcs_turns.specs.Turns.{User, RunState};
ghost use Rattle.mcs_explore_search.specs.Paths.{Path};
ghost use Rattle.mcs_explore_orders.specs.Trails.{Adds, IsTrail, Leads, last_point, turns_of};

use crate::packed::{PackedTurn, unpacked};
use crate::replay::follow;
use mcs_explore_walk::{OrdersFault, Turn, Users, Walk};
use mcs_queues::PlainLines;
use mcs_types::OutOfMemory;
use std::alloc::Global;
use std::marker::Model;

/// How many turns a stage has. A state is cached after each stage only, since repeating a few turns
/// costs less than a copy.
const STRIDE: usize = 4;

/// Some turns, and the state after them.
#[derive(Drop)]
pub struct Stage {
    turns: Vec<Turn>,
    walk: Box<Walk<PlainLines>>,
}

impl Model for Stage {
    ghost use Rattle.mcs_explore_orders.specs.Trails.{Point};

    ghost Value = { Point };

    ghost view = { λ s. record { turns = s.turns.items; run_state = s.walk.value } };
}

/// The state where a path begins, and states cached along it. Walks that are no longer needed are
/// kept as spares for their memory.
// boxed, since a walk has 864 bytes and is moved often
pub struct PathCache {
    start: Walk<PlainLines>,
    stages: Vec<Stage>,
    spare: Vec<Box<Walk<PlainLines>>>,
}

// Written by hand as a separate function: a derived drop would be proved again wherever it is
// freed.
impl Drop for PathCache {
    fn drop(self) {
        let PathCache {
            start: _,
            stages: _,
            spare: _,
        } = self;
    }
}

impl Model for PathCache {
    ghost use Rattle.mcs_explore_orders.specs.Trails.{Points};

    ghost Value = { Points };

    ghost view = { λ t. record { start = t.start; points = t.stages.items } };
}

/// Returns whether both are one turn.
fn is_same(turn: Turn, other: Turn) -> bool
    ensures { result ≡ true → turn ≡ other }
{
    turn.core.0 == other.core.0 && turn.pick.is_same(other.pick)
}

/// Returns whether a path continues with these turns from an index.
fn goes_on(path: &[Turn], at: usize, turns: &[Turn]) -> bool
    requires { at ≤ length path.now }
    ensures few { result ≡ true → at + length turns.now ≤ length path.now }
    ensures same { result ≡ true
        → take (at + length turns.now) path.now ≡ take at path.now ++ turns.now }
{
    if path.len() - at < turns.len() {
        return false;
    }
    for index in 0..turns.len() {
        if !is_same(path[at + index], turns[index]) {
            return false;
        }
    }
    true
}

/// Returns the length of the common prefix of two paths.
fn shared(path: &[Turn], next: &[PackedTurn]) -> usize {
    let mut count: usize = 0;
    for (turn, other) in path.iter().zip(next.iter()) {
        if !is_same(*turn, other.turn()) {
            return count;
        }
        count = count.saturating_add(1);
    }
    count
}

/// Adds a stage to the end.
fn push(stages: &mut Vec<Stage>, stage: Stage) -> Result<(), OutOfMemory>
    ensures added { OnOk result (stages.new.items ≡ stages.old.items ++ stage ∷ []) }
    ensures unchanged { OnErr result (stages.new.items ≡ stages.old.items) }
{
    match stages.push(stage) {
        Ok(()) => Ok(()),
        Err(_) => Err(OutOfMemory),
    }
}

/// Returns the walk in a box.
fn inside(walk: &Box<Walk<PlainLines>>) -> &Walk<PlainLines>
    ensures { result.now ≡ walk.now.value }
{
    &**walk
}

/// Clones a walk in the memory of a spare one.
fn copy_of(
    alloc: Global,
    walk: &Walk<PlainLines>,
    spare: Option<Box<Walk<PlainLines>>>,
) -> Result<Box<Walk<PlainLines>>, OutOfMemory>
    ensures { IfOk result (λ copy. copy.value ≡ walk.now) }
{
    let spare = match spare {
        Some(spare) => Some(Box::into_inner(spare)),
        None => None,
    };
    let copy = walk.copy(alloc, spare)?;
    match Box::new(alloc, copy) {
        Ok(copy) => Ok(copy),
        Err(_) => Err(OutOfMemory),
    }
}

impl PathCache {
    /// Returns a cache for an empty path.
    pub fn new(alloc: Global, start: Walk<PlainLines>) -> PathCache
        ensures { result ≡ record { start = start; points = [] } }
    {
        PathCache {
            start,
            stages: Vec::new(alloc),
            spare: Vec::new(alloc),
        }
    }

    /// Returns the last cached state.
    pub fn last(&self) -> &Walk<PlainLines>
        ensures { result.now ≡ last_point self.now.start self.now.points }
    {
        match self.stages.last() {
            Some(stage) => inside(&stage.walk),
            None => &self.start,
        }
    }

    /// Returns how many stages agree with a path, and how many turns they have.
    fn common(&self, path: &[Turn]) -> (usize, usize)
        ensures there { result.1 ≤ length path.now }
        ensures same { turns_of (take result.0 self.now.points) ≡ take result.1 path.now }
    {
        let mut at = 0;
        for index in 0..self.stages.len() {
            let turns = self.stages[index].turns.as_slice();
            if !goes_on(path, at, turns) {
                return (index, at);
            }
            at += turns.len();
        }
        (self.stages.len(), at)
    }

    /// Keeps a walk as a spare, so that its memory is reused.
    pub fn let_go(&mut self, walk: Box<Walk<PlainLines>>)
        ensures { self.new ≡ self.old }
    {
        // freed if there is no memory for one more spare
        let _ = self.spare.push(walk);
    }

    /// Keeps the first `count` stages.
    fn keep(&mut self, count: usize)
        ensures { self.new ≡ record self.old { points = take count self.old.points } }
    {
        while self.stages.len() > count {
            if let Some(stage) = self.stages.pop() {
                self.let_go(stage.walk);
            }
        }
    }

    /// Clones a walk in the memory of a spare one.
    pub fn copy_of(
        &mut self,
        alloc: Global,
        walk: &Walk<PlainLines>,
    ) -> Result<Box<Walk<PlainLines>>, OutOfMemory>
        ensures copy { IfOk result (λ copy. copy.value ≡ walk.now) }
        ensures unchanged { self.new ≡ self.old }
    {
        let spare = self.spare.pop();
        copy_of(alloc, walk, spare)
    }

    /// Returns a copy of the last cached state.
    fn branch(&mut self, alloc: Global) -> Result<Box<Walk<PlainLines>>, OutOfMemory>
        ensures copy { IfOk result (λ walk. walk.value
            ≡ last_point self.old.start self.old.points) }
        ensures unchanged { self.new ≡ self.old }
    {
        let spare = self.spare.pop();
        copy_of(alloc, self.last(), spare)
    }

    /// Removes and returns the last cached state; returns a copy of the start if there is no stage.
    fn leave(&mut self, alloc: Global) -> Result<Box<Walk<PlainLines>>, OutOfMemory>
        ensures walk { IfOk result (λ walk. walk.value
            ≡ last_point self.old.start self.old.points) }
        ensures start { self.new.start ≡ self.old.start }
        ensures trail { (users : List User) → IsTrail users self.old.start self.old.points
            → IsTrail users self.new.start self.new.points }
    {
        match self.stages.pop() {
            Some(stage) => Ok(stage.walk),
            None => self.branch(alloc),
        }
    }

    /// Returns a walk at the last cached state: a copy if `stays`, since the next path passes
    /// there, else the cached one.
    fn depart(&mut self, alloc: Global, stays: bool) -> Result<Box<Walk<PlainLines>>, OutOfMemory>
        ensures walk { IfOk result (λ walk. walk.value
            ≡ last_point self.old.start self.old.points) }
        ensures start { self.new.start ≡ self.old.start }
        ensures trail { (users : List User) → IsTrail users self.old.start self.old.points
            → IsTrail users self.new.start self.new.points }
    {
        if stays {
            self.branch(alloc)
        } else {
            self.leave(alloc)
        }
    }

    /// Makes some turns, which the rule must allow, and caches the state after them. `BookFull` or
    /// `OutOfMemory`: then nothing changed.
    fn step(&mut self, alloc: Global, users: &Users, turns: &[Turn]) -> Result<(), OrdersFault>
        requires { (h : RunState)
            × Path (Leads users.now) (last_point self.old.start self.old.points) turns.now h }
        ensures added { OnOk result (Adds users.now turns.now self.old self.new) }
        ensures unchanged { OnErr result (self.new ≡ self.old) }
    {
        let mut walk = self.branch(alloc)?;
        follow(alloc, users, &mut walk, turns)?;
        let turns = Vec::from_slice(alloc, turns)?;
        push(&mut self.stages, Stage { turns, walk })?;
        Ok(())
    }

    /// Moves the cache along a path to an existing state, stage by stage: back to the prefix that
    /// both share, and on from there, by at most `most` turns. Returns how many turns of the path
    /// it then has.
    fn go_along(
        &mut self,
        alloc: Global,
        users: &Users,
        path: &[Turn],
        most: usize,
    ) -> Result<usize, OrdersFault>
        requires trail { IsTrail users.now self.old.start self.old.points }
        requires path { (s : RunState) × Path (Leads users.now) self.old.start path.now s }
        ensures start { self.new.start ≡ self.old.start }
        ensures trail { IsTrail users.now self.new.start self.new.points }
        ensures within { IfOk result (λ n. n ≤ length path.now) }
        ensures turns { IfOk result (λ n. turns_of self.new.points ≡ take n path.now) }
    {
        let (stages, turns) = self.common(path);
        self.keep(stages);
        let last = most.min(path.len()).saturating_sub(STRIDE - 1);
        let mut at = turns;
        while at < last {
            let end = at.saturating_add(STRIDE);
            self.step(alloc, users, &path[at..end])?;
            at = end;
        }
        Ok(at)
    }

    /// Returns the walk at the end of a path to an existing state. Caches states along the prefix
    /// that the path shares with the next one (a hint).
    pub fn walk_to(
        &mut self,
        alloc: Global,
        users: &Users,
        path: &[PackedTurn],
        next: &[PackedTurn],
    ) -> Result<Box<Walk<PlainLines>>, OrdersFault>
        requires trail { IsTrail users.now self.old.start self.old.points }
        requires path { (s : RunState) × Path (Leads users.now) self.old.start path.now s }
        ensures start { self.new.start ≡ self.old.start }
        ensures trail { IsTrail users.now self.new.start self.new.points }
        ensures walk { IfOk result (λ w. Path (Leads users.now) self.old.start path.now w.value) }
    {
        let turns = unpacked(alloc, path)?;
        let shared = shared(&turns, next);
        let at = self.go_along(alloc, users, &turns, shared)?;
        let mut walk = self.depart(alloc, at <= shared)?;
        follow(alloc, users, &mut walk, &turns[at..])?;
        Ok(walk)
    }
}
