//! How runs end: all users are done, some wait that may not, or entries are left.
ghost use Rattle.std.specs.Prelude.{◌≡◌};
ghost use Rattle.std.specs.List.{list_any};
ghost use Rattle.mcs_explore_report.specs.Endings.{are_idle, ending_of, is_deadlocked, is_excused, is_idle};

use crate::ends::Standing;
use mcs_explore_script::AskedLine;

/// How a run ends.
#[derive(Clone, Copy, PartialEq, Eq)]
pub enum Ending {
    /// Each user has given all its entries and is not blocked, or may wait there for ever.
    AllDone,
    /// Some user is blocked, and may not wait for ever.
    Deadlock,
    /// A user has entries left, and is not blocked.
    EntriesLeft,
}

impl Ending {
    /// Returns the words for it in a report.
    pub fn text(self) -> &'static str {
        match self {
            Ending::AllDone => "all done",
            Ending::Deadlock => "deadlock",
            Ending::EntriesLeft => "entries left",
        }
    }
}

/// Returns whether a question excuses that the user waits in its entry.
fn is_excused(asked: &[AskedLine], standing: &Standing) -> bool
    ensures { result ≡ is_excused asked.now standing.now }
{
    let number = standing.entry();
    asked
        .iter()
        .any(|line| line.asked.excuses(standing.thread, number))
}

/// Returns whether a user is blocked, and a question lets it wait for ever.
pub fn is_idle(asked: &[AskedLine], standing: &Standing) -> bool
    ensures { result ≡ is_idle asked.now standing.now }
{
    standing.is_waiting() && is_excused(asked, standing)
}

/// Returns whether each of these users is idle: blocked where a question lets it wait for ever.
pub fn are_idle(asked: &[AskedLine], standing: &[Standing]) -> bool
    ensures { result ≡ are_idle asked.now standing.now }
{
    standing.iter().all(|one| is_idle(asked, one))
}

/// Returns whether a user is blocked in this state, and may not wait for ever.
fn is_deadlocked(asked: &[AskedLine], standing: &Standing) -> bool
    ensures { result ≡ is_deadlocked asked.now standing.now }
{
    standing.is_waiting() && !is_excused(asked, standing)
}

/// Returns whether one of these users is blocked and may not wait for ever.
fn any_deadlocked(asked: &[AskedLine], standing: &[Standing]) -> bool
    ensures { result ≡ list_any (is_deadlocked asked.now) standing.now }
{
    standing.iter().any(|one| is_deadlocked(asked, one))
}

/// Returns the kind of end at which these users are not done.
pub fn ending_of(asked: &[AskedLine], standing: &[Standing]) -> Ending
    ensures { result ≡ ending_of asked.now standing.now }
{
    if are_idle(asked, standing) {
        Ending::AllDone
    } else if any_deadlocked(asked, standing) {
        Ending::Deadlock
    } else {
        Ending::EntriesLeft
    }
}
