//! Draws a turn at random.
ghost use Rattle.std.specs.Prelude.{◌≡◌, ◌⊎◌, Some, true, false, IfNone, IfSome, IsSome};
ghost use Rattle.mcs_turns.specs.Turns.{ArePicks, IsOver};
ghost use Rattle.mcs_explore_walk.specs.Walks.{HasEachTurn};
ghost use Rattle.mcs_explore_run.specs.Runs.{CanTurn};

use mcs_explore_walk::{Picks, Turn, Users, Walk};
use mcs_queues::Lines;
use rand_core::Rng;
use rand_pcg::Pcg32;

/// Draws with probability 1/`count` whether the newest of `count` turns replaces the one chosen
/// before.
fn is_drawn(random: &mut Pcg32, count: u32) -> bool {
    count == 0 || random.next_u32() % count == 0
}

/// Returns the chosen turn after one more candidate, which counts only if it is possible.
fn redrawn(
    random: &mut Pcg32,
    count: u32,
    before: Option<Turn>,
    turn: Turn,
    is_possible: bool,
) -> Option<Turn>
    ensures same { is_possible ≡ false → result ≡ before }
    ensures one { is_possible ≡ true
        → (result ≡ Some turn) ⊎ ((result ≡ before) × IsSome before) }
{
    if !is_possible {
        return before;
    }
    match before {
        Some(_) if !is_drawn(random, count) => before,
        _ => Some(turn),
    }
}

/// Draws one of the possible turns, each with the same probability, given the picks of the cores.
pub fn draw<L: Lines>(
    walk: &Walk<L>,
    users: &Users,
    picks: &[Picks],
    turns: &[Turn],
    random: &mut Pcg32,
) -> Option<Turn>
    requires picks { ArePicks users.now walk.now picks.now }
    requires turns { HasEachTurn users.now walk.now turns.now }
    ensures some { IfSome result (CanTurn users.now walk.now) }
    ensures none { IfNone result (IsOver users.now walk.now) }
{
    let mut drawn = None;
    let mut count: u32 = 0;
    for index in 0..turns.len() {
        let turn = turns[index];
        let is_possible = walk.has_turn(users, picks, turn);
        count = count.saturating_add(u32::from(is_possible));
        drawn = redrawn(random, count, drawn, turn, is_possible);
    }
    drawn
}
