//! The search, and the collection of its findings.
ghost use Rattle.std.specs.Prelude.{ℕ, true, ◌≡◌, ◌≤◌, ◌⊎◌, Bool, IfOk, Some, length, slice_get};
ghost use Rattle.mcs_types.specs.declared.entry.Entry.{Entry};
ghost use Rattle.mcs_types.specs.Ranges.{InRange};
ghost use Rattle.mcs_turns.specs.Turns.{AreInRange};
ghost use Rattle.mcs_explore_search.specs.Reaching.{AreWithin};
ghost use Rattle.mcs_explore_search.specs.Search.{AreFoundLast, AreNear, AreSorted, IsSpent};
ghost use Rattle.mcs_explore_orders.specs.Seen.{AreAllSeen, AreFoundRuns};
ghost use Rattle.mcs_explore_report.specs.Found.{AreAnswersFound, AreAnswersInRuns, AreCountedFound, AreEndsFound, AreEndsInRuns, AreFirstFound, AreHeldInRuns, AreJudgedFound, AreShortest, IsMailFound};
ghost use Rattle.mcs_explore_report.specs.declared.modes.Mode.TheVariants.{Proved};
ghost use Rattle.mcs_explore_report.specs.Modes.{IsWholeSearch, mode_of};
ghost use Rattle.mcs_explore_report.specs.Stuck.{AreDecided, AreStuckUnled};

use crate::modes::mode_of;
use crate::watcher::{Progress, Watched};
use mcs_explore_orders::{Budget, Orders, Users, explore};
use mcs_explore_script::{AskedLine, Live, fault_of};
use mcs_kernel::Boot;
use mcs_lab_check::LabFault;
use mcs_types::Entry;
use std::alloc::Global;

/// The limits of a search, and whether it distinguishes states by all that a book records.
#[derive(Clone, Copy)]
pub struct Wanted {
    pub states: usize,
    pub depth: usize,
    pub is_exact: bool,
}

/// Proves that the numbers of entries are in their ranges.
fn entries_are_in_range(entries: &[Entry])
    ensures { (j : ℕ) (e : Entry) → slice_get entries.now j ≡ Some e → InRange e }
{
    for index in 0..entries.len() {
        if let Some(entry) = entries.get(index) {
            entry.is_in_range();
        }
    }
}

/// Proves that the numbers of all entries of users are in their ranges.
pub fn are_in_range(users: &Users)
    ensures { AreInRange users.now }
{
    let lists = users.lists();
    for index in 0..lists.len() {
        if let Some(list) = lists.get(index) {
            entries_are_in_range(&list.entries);
        }
    }
}

/// Searches all orders of users after a boot up to the wanted limits, reports its progress, and
/// collects the findings. `mode_of` gives which states it distinguishes.
pub fn watched<'a, P: Progress>(
    alloc: Global,
    boot: &'a Boot,
    users: &'a Users,
    asked: &'a [AskedLine],
    lives: &'a [Live],
    wanted: Wanted,
    progress: P,
) -> Result<Orders<'a, Watched<'a, P>>, LabFault>
    // each state that was found is that of a run, by the turns of its path
    ensures runs { IfOk result (λ o. AreFoundRuns users.now boot.now o.search.map.entries) }
    // a whole search: each run ends in a state that is like one that was found, by no more turns
    ensures whole { IfOk result (λ o. (is : IsWholeSearch boot.now users.now asked.entry.now
        wanted.is_exact o.search.map.entries o.search.done)
        → AreAllSeen is.numbered users.now boot.now o.search.map.entries) }
    // it ends when all were expanded, by the budget, or because `progress` stops it
    ensures budget { IfOk result (λ o. (length o.search.map.entries ≤ o.search.done)
        ⊎ IsSpent wanted.states wanted.depth o.search.done o.search.map.entries
        ⊎ (o.search.is_stopped ≡ true)) }
    // and it expands no state beyond the budget
    ensures near { IfOk result (λ o.
        AreNear wanted.depth o.search.done o.search.map.entries) }
    ensures few { IfOk result (λ o.
        AreFoundLast wanted.states o.search.done o.search.map.entries) }
    // each kept end is that of such a state, and the end of each expanded state that is over is
    // kept
    ensures ends { IfOk result (λ o. AreEndsFound users.now boot.now
        o.search.map.entries o.search.done o.explorer.watch.ends) }
    // each kept answer came by a turn from such a state, and the answer of each such turn is kept,
    // unless Waits
    ensures answers { IfOk result (λ o. AreAnswersFound users.now boot.now
        o.search.map.entries o.search.done o.explorer.watch.answers) }
    // what each such turn delivered to a waiting entry is kept
    ensures mail { IfOk result (λ o. IsMailFound users.now boot.now
        o.search.map.entries o.search.done o.explorer.watch.answers) }
    // whole search: the end of each run that is over is kept
    ensures run_ends { IfOk result (λ o. IsWholeSearch boot.now users.now asked.entry.now
        wanted.is_exact o.search.map.entries o.search.done
        → AreEndsInRuns users.now boot.now o.explorer.watch.ends) }
    // and so is each answer of each turn of each run, unless Waits, and what it delivered to a
    // waiting entry
    ensures run_answers { IfOk result (λ o. IsWholeSearch boot.now users.now asked.entry.now
        wanted.is_exact o.search.map.entries o.search.done
        → AreAnswersInRuns users.now boot.now o.explorer.watch.answers) }
    // each question failed where it says, in such a state or at a turn from one; one without such a
    // place failed nowhere
    ensures judged { IfOk result (λ o. AreJudgedFound users.now boot.now
        o.search.map.entries o.search.done asked.entry.now o.explorer.watch.failed.items) }
    // whole search: questions without such a place fail in no run
    ensures held { IfOk result (λ o. IsWholeSearch boot.now users.now asked.entry.now
        wanted.is_exact o.search.map.entries o.search.done
        → AreHeldInRuns users.now boot.now asked.entry.now o.explorer.watch.failed.items) }
    // each end, answer and failure is kept where it was found first, that is, after the fewest
    // turns
    ensures first { IfOk result (λ o. AreFirstFound users.now boot.now
        o.search.map.entries o.search.done asked.entry.now o.explorer.watch.ends
        o.explorer.watch.answers o.explorer.watch.failed.items) }
    // whole search: no shorter run has the same end, answer or failure
    ensures shortest { IfOk result (λ o. IsWholeSearch boot.now users.now asked.entry.now
        wanted.is_exact o.search.map.entries o.search.done
        → AreShortest users.now boot.now o.search.map.entries asked.entry.now
        o.explorer.watch.ends o.explorer.watch.answers o.explorer.watch.failed.items) }
    // the counted turns and ends are those of such states, up to the largest count; the last state
    // is the deepest
    ensures counts { IfOk result (λ o. AreCountedFound users.now boot.now
        o.search.map.entries o.search.done o.explorer.turns o.explorer.ends) }
    ensures sorted { IfOk result (λ o. AreSorted o.search.map.entries) }
    // whole search: the notes and the edges decide for each user from which state on it is stuck
    ensures decided { IfOk result (λ o. IsWholeSearch boot.now users.now asked.entry.now
        wanted.is_exact o.search.map.entries o.search.done
        → AreDecided users.now boot.now lives.entry.now o.search.map.entries
        o.search.edges.items o.explorer.watch.lives.notes) }
    // proved keys: from a state where a user is reported stuck no run answers what is asked of it
    ensures stuck { IfOk result (λ o. (numbered : Bool)
        → mode_of boot.now users.now asked.entry.now wanted.is_exact ≡ Proved numbered
        → AreStuckUnled users.now boot.now lives.entry.now o.search.map.entries
        o.search.edges.items o.explorer.watch.lives.notes) }
    // its edges are between states that were found
    ensures within { IfOk result (λ o. AreWithin o.search.edges.items
        (length o.search.map.entries)) }
{
    boot.is_faultless();
    are_in_range(users);
    let mode = mode_of(boot, users, asked, wanted.is_exact);
    let watched = Watched::new(alloc, users, asked, lives, progress)?;
    let budget = Budget {
        states: wanted.states,
        depth: wanted.depth,
    };
    let orders = match explore(
        alloc,
        boot,
        users,
        mode.is_proved(),
        mode.are_numbered(),
        budget,
        watched,
    ) {
        Ok(orders) => orders,
        Err(fault) => return Err(fault_of(fault)),
    };
    Ok(orders)
}
