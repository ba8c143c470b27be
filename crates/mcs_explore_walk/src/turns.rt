//! The possible turns: each core's current and stale picks.
ghost use Rattle.std.specs.Prelude.{◌≡◌, ◌∷◌, ◌++◌, [], map, IfOk, OnOk};
ghost use Rattle.mcs_turns.specs.Turns.{ArePicks};
ghost use Rattle.mcs_explore_walk.specs.Walks.{ArePicked, HasEachTurn, is_other, stale_turns, turn_of, turns_below, turns_of, turns_on};

use crate::walk::{Turn, Walk, has, picked};
use mcs_queues::Lines;
use mcs_turns::Pick;
use mcs_types::{CoreId, OutOfMemory};
use mcs_users::{Picks, Users, push};
use std::alloc::Global;

/// Returns whether a pick is none of these.
fn is_other(picks: &[Pick], pick: Pick) -> bool
    ensures { result ≡ is_other picks.now pick }
{
    !has(picks, pick)
}

/// Adds the turn of a core that enters a stale pick, unless the core picks it now.
fn push_stale(
    turns: &mut Vec<Turn>,
    core: CoreId,
    now: &[Pick],
    pick: Pick,
) -> Result<(), OutOfMemory>
    ensures { OnOk result
        (turns.new.items ≡ turns.old.items ++ stale_turns core now.now (pick ∷ [])) }
{
    if is_other(now, pick) {
        push(turns, Turn { core, pick })?;
    }
    Ok(())
}

/// Adds the turns of a core that enter its current picks.
fn push_now(turns: &mut Vec<Turn>, core: CoreId, now: &[Pick]) -> Result<(), OutOfMemory>
    ensures { OnOk result (turns.new.items ≡ turns.old.items ++ map (turn_of core) now.now) }
{
    for pick in now {
        push(turns, Turn { core, pick: *pick })?;
    }
    Ok(())
}

/// Adds the turns of a core, with its current and its stale picks.
fn add_turns(
    turns: &mut Vec<Turn>,
    core: CoreId,
    now: &[Pick],
    stale: &[Pick],
) -> Result<(), OutOfMemory>
    ensures { OnOk result
        (turns.new.items ≡ turns.old.items ++ turns_of core now.now stale.now) }
{
    push_now(turns, core, now)?;
    for pick in stale {
        push_stale(turns, core, now, *pick)?;
    }
    Ok(())
}

impl<L: Lines> Walk<L> {
    /// Adds the turns of a core, given the picks of the cores.
    fn add_core(
        &self,
        turns: &mut Vec<Turn>,
        picks: &[Picks],
        core: CoreId,
    ) -> Result<(), OutOfMemory>
        ensures { OnOk result
            (turns.new.items ≡ turns.old.items ++ turns_on self.now picks.now core.0) }
    {
        let now = picked(picks, core.0 as usize);
        match self.stale(core) {
            Some(stale) => add_turns(turns, core, now, stale.as_slice()),
            None => add_turns(turns, core, now, &[]),
        }
    }

    /// Returns the turns of the first cores, given the picks of the cores.
    fn turns_below(
        &self,
        alloc: Global,
        picks: &[Picks],
        cores: u8,
    ) -> Result<Vec<Turn>, OutOfMemory>
        ensures { IfOk result (λ v. v.items ≡ turns_below self.now picks.now cores) }
    {
        let mut turns = Vec::new(alloc);
        for core in 0..cores {
            self.add_core(&mut turns, picks, CoreId(core))?;
        }
        Ok(turns)
    }

    /// Returns the turns of all cores, given their picks: each that the rule allows, and those of
    /// threads that may not enter. `OutOfMemory` if an allocation fails.
    pub fn turns(
        &self,
        alloc: Global,
        users: &Users,
        picks: &[Picks],
    ) -> Result<Vec<Turn>, OutOfMemory>
        requires { ArePicks users.now self.now picks.now }
        ensures all { IfOk result (λ v. HasEachTurn users.now self.now v.items) }
        ensures picked { IfOk result (λ v. ArePicked self.now picks.now v.items) }
    {
        let cores = self.kernel().book().cores();
        self.turns_below(alloc, picks, cores)
    }
}
