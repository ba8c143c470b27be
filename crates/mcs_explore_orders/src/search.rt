//! The search, nearest states first.
ghost use Rattle.std.specs.Prelude.{ℕ, true, ◌≡◌, ◌≤◌, ◌-◌, ◌⊎◌, ◌↔◌, IsTrue, IfOk, OnOk, length};
ghost use Rattle.mcs_turns.specs.Turns.{RunState, beginning};
ghost use Rattle.mcs_explore_equivalence.specs.Runs.{IsReached};
ghost use Rattle.mcs_explore_search.specs.Paths.{Path};
ghost use Rattle.mcs_explore_search.specs.Reaching.{AreWithin};
ghost use Rattle.mcs_explore_search.specs.Search.{AreFoundLast, AreNear, AreSorted, IsSpent, depth_at, label_at, path_of, paths_below};
ghost use Rattle.mcs_explore_orders.specs.Seen.{AreAllSeen, AreFoundRuns, IsAllExpanded, IsByExactKeys, IsGraphOfRuns};
ghost use Rattle.mcs_explore_orders.specs.Shown.{HasCounted, HasSeenAll, nothing};
ghost use Rattle.mcs_explore_orders.specs.Trails.{Leads};
ghost use Rattle.mcs_explore_orders.specs.Watching.{counting};

use crate::explorer::{Explorer, Watch};
use crate::packed::{PackedTurn, unpacked};
use crate::replay::follow;
use mcs_explore_keys::Key;
use mcs_explore_search::{Budget, Edge, Search};
use mcs_explore_walk::{OrdersFault, Turn, Users, Walk};
use mcs_kernel::Boot;
use mcs_queues::Lines;
use std::alloc::Global;

/// The result of a search: the states that were found, and the watch.
pub struct Orders<'a, W: Watch> {
    alloc: Global,
    search: Search<Key, PackedTurn>,
    explorer: Explorer<'a, W>,
}

// Written by hand as a separate function: a derived drop would be proved again wherever it is
// freed.
impl<'a, W: Watch> Drop for Orders<'a, W> {
    fn drop(self) {
        let Orders {
            alloc: _,
            search: _,
            explorer: _,
        } = self;
    }
}

/// Replays turns from the boot on, skipping those that the rule does not allow; so the result is a
/// run. `BookFull` if the book has 1,000,000 lines, `OutOfMemory` if an allocation fails.
pub fn retrace<L: Lines>(
    alloc: Global,
    boot: &Boot,
    users: &Users,
    turns: &[Turn],
) -> Result<Walk<L>, OrdersFault>
    ensures reached { IfOk result (λ walk. IsReached users.now boot.now walk) }
    // the result is the state that the path leads to, if the path is possible
    ensures path { IfOk result (λ walk. (g : RunState)
        → Path (Leads users.now) (beginning users.now boot.now) turns.now g → walk ≡ g) }
{
    let mut walk = Walk::new(alloc, boot, users)?;
    follow(alloc, users, &mut walk, turns)?;
    Ok(walk)
}

impl<'a, W: Watch> Orders<'a, W> {
    /// Returns how many states were found.
    pub fn states(&self) -> usize
        ensures { result ≡ length self.now.search.map.entries }
    {
        self.search.states()
    }

    /// Returns how many of the states were expanded.
    pub fn done(&self) -> usize
        ensures { result ≡ self.now.search.done }
    {
        self.search.done
    }

    /// Returns whether all states were expanded.
    pub fn is_whole(&self) -> bool
        ensures { IsTrue result ↔ (length self.now.search.map.entries ≤ self.now.search.done) }
    {
        self.search.is_whole()
    }

    /// Returns whether the watch stopped the search.
    pub fn is_stopped(&self) -> bool
        ensures { result ≡ self.now.search.is_stopped }
    {
        self.search.is_stopped
    }

    /// Returns the turns between states, each with the indices of both.
    pub fn edges(&self) -> &[Edge<PackedTurn>]
        ensures { result.now ≡ self.now.search.edges.items }
    {
        &self.search.edges
    }

    /// Returns how many rows the keys have.
    pub fn rows(&self) -> usize {
        self.explorer.rows()
    }

    /// Returns how many turns lead from states that were expanded, up to `usize::MAX`.
    pub fn turns(&self) -> usize
        ensures { result ≡ self.now.explorer.turns }
    {
        self.explorer.turns()
    }

    /// Returns how many of the states that were expanded are over, up to `usize::MAX`.
    pub fn ends(&self) -> usize
        ensures { result ≡ self.now.explorer.ends }
    {
        self.explorer.ends()
    }

    /// Returns the watch.
    pub fn watch(&self) -> &W
        ensures { result.now ≡ self.now.explorer.watch }
    {
        self.explorer.watch()
    }

    /// Returns by how many turns the state at an index was found.
    pub fn depth(&self, place: usize) -> usize
        ensures { result ≡ depth_at self.now.search.map.entries place }
    {
        self.search.depth(place)
    }

    /// Returns by how many turns the last state was found; no other state took more.
    pub fn deepest(&self) -> usize
        ensures last { result ≡ depth_at self.now.search.map.entries
            (length self.now.search.map.entries - 1) }
        ensures greatest { AreSorted self.now.search.map.entries
            → (place : ℕ) → depth_at self.now.search.map.entries place ≤ result }
    {
        self.depth(self.states().saturating_sub(1))
    }

    /// Returns the last turn by which the state at an index was found; None if there is no such
    /// index. For the start, at index 0, it means nothing.
    pub fn last_turn(&self, place: usize) -> Option<Turn>
        ensures { result ≡ label_at self.now.search.map.entries place }
    {
        match self.search.label(place) {
            Some(turn) => Some(turn.turn()),
            None => None,
        }
    }

    /// Returns the turns by which the state at an index was found, first to last.
    pub fn path(&self, place: usize) -> Result<Vec<Turn>, OrdersFault>
        ensures { IfOk result (λ turns. turns.items ≡ path_of self.now.search.map.entries place) }
    {
        let packed = self.search.path(self.alloc, place)?;
        let turns = unpacked(self.alloc, &packed)?;
        Ok(turns)
    }
}

/// Expands one state after another in the order of discovery, until none is left, the budget ends,
/// or the watch stops it. `BookFull` if a book has 1,000,000 lines; `OutOfMemory` if an allocation
/// fails, if a user's number has more than 16 bits, or if the number of an entry, a row or an
/// expanded state has more than 32.
pub fn explore<'a, W: Watch>(
    alloc: Global,
    boot: &'a Boot,
    users: &'a Users,
    is_exact: bool,
    numbered: bool,
    budget: Budget,
    watch: W,
) -> Result<Orders<'a, W>, OrdersFault>
    // each state that was found is that of a run, by the turns of its path
    ensures runs { IfOk result (λ o. AreFoundRuns users.now boot.now o.search.map.entries) }
    ensures sorted { IfOk result (λ o. AreSorted o.search.map.entries) }
    // it ends when all were expanded, by the budget, or because the watch stops it
    ensures budget { IfOk result (λ o. (length o.search.map.entries ≤ o.search.done)
        ⊎ IsSpent budget.states budget.depth o.search.done o.search.map.entries
        ⊎ (o.search.is_stopped ≡ true)) }
    // it expands no state beyond a budget
    ensures near { IfOk result (λ o.
        AreNear budget.depth o.search.done o.search.map.entries) }
    ensures few { IfOk result (λ o.
        AreFoundLast budget.states o.search.done o.search.map.entries) }
    // if keys are exact and all states were expanded, each run ends in a state that no later turn
    // can distinguish from one that was found by no more turns; up to message numbers, if keys do
    // not distinguish these
    ensures whole { IfOk result (λ o. IsAllExpanded is_exact users.now boot.now
        o.search.done o.search.map.entries
        → AreAllSeen numbered users.now boot.now o.search.map.entries) }
    // edges are between states that were found; if keys are exact they are the turns and the runs
    // of the users, as far as states were expanded
    ensures within { IfOk result (λ o. AreWithin o.search.edges.items
        (length o.search.map.entries)) }
    ensures graph { IfOk result (λ o. IsByExactKeys is_exact users.now boot.now
        → IsGraphOfRuns numbered users.now boot.now o.search.map.entries o.search.done
        o.search.edges.items) }
    // the watch was shown each expanded state and each turn from it, and nothing else; these were
    // counted
    ensures shown { IfOk result (λ o. W.HasSeen watch users.now nothing
        → HasSeenAll (HasCounted W.HasSeen) (counting o.explorer)
        users.now (beginning users.now boot.now)
        (paths_below o.search.map.entries o.search.done)) }
    // the watch still looks for the same
    ensures aim { IfOk result (λ o. W.aim o.explorer.watch ≡ W.aim watch) }
{
    let mut explorer = Explorer::new(alloc, boot, users, is_exact, numbered, watch)?;
    let search = mcs_explore_search::explore(alloc, &mut explorer, budget)?;
    Ok(Orders {
        alloc,
        search,
        explorer,
    })
}
