//! Replays of turns.
ghost use Rattle.std.specs.Prelude.{◌≡◌, OnOk};
ghost use Rattle.mcs_book.specs.Boots.{Boot};
ghost use Rattle.mcs_turns.specs.Turns.{RunState};
ghost use Rattle.mcs_explore_equivalence.specs.Runs.{IsReached};
ghost use Rattle.mcs_explore_search.specs.Paths.{Path};
ghost use Rattle.mcs_explore_orders.specs.Steps.{Moves};
ghost use Rattle.mcs_explore_orders.specs.Trails.{Leads};

use mcs_explore_walk::{OrdersFault, Turn, Users, Walk};
use mcs_queues::Lines;
use mcs_types::Answer;
use std::alloc::Global;

/// Makes a turn if the rule allows it, and returns its answer; else None, and nothing changes.
fn step<L: Lines>(
    alloc: Global,
    users: &Users,
    walk: &mut Walk<L>,
    turn: Turn,
) -> Result<Option<Answer>, OrdersFault>
    ensures moves { OnOk result (Moves users.now walk.old walk.new) }
    ensures leads { OnOk result ((h : RunState) → Leads users.now turn walk.old h → walk.new ≡ h) }
{
    let picks = walk.picks(alloc, users)?;
    walk.turn(alloc, users, &picks, turn)
}

/// Makes turns, skipping those that the rule does not allow.
pub fn follow<L: Lines>(
    alloc: Global,
    users: &Users,
    walk: &mut Walk<L>,
    turns: &[Turn],
) -> Result<(), OrdersFault>
    // a state that a run reached is still one that a run reached
    ensures reached { OnOk result ((boot : Boot)
        → IsReached users.now boot walk.old → IsReached users.now boot walk.new) }
    // the result is the state that these turns lead to, if they are possible
    ensures path { OnOk result ((g : RunState)
        → Path (Leads users.now) walk.old turns.now g → walk.new ≡ g) }
{
    for index in 0..turns.len() {
        step(alloc, users, walk, turns[index])?;
    }
    Ok(())
}
