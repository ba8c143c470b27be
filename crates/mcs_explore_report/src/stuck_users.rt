//! Users that are stuck from some state on: no order answers any of their entries any more (own).
ghost use Rattle.std.specs.Prelude.{◌≡◌, IfOk, Some, None, length, slice_get};
ghost use Rattle.mcs_explore_search.specs.Reaching.{AreWithin};
ghost use Rattle.mcs_explore_report.specs.Outcomes.{count_lives, stuck_of};
ghost use Rattle.mcs_explore_report.specs.Stuck.{IsFirstUnled, Noted, first_marks};

use crate::judgement::Sighting;
use crate::live::stuck_at;
use crate::watcher::{Progress, Watched};
use mcs_explore_orders::Orders;
use mcs_explore_script::{AskedLine, Live};
use mcs_lab_check::LabFault;
use std::alloc::{AllocError, Global};

/// Users that are stuck from one state on, which is the first such state for each of them.
#[derive(Drop)]
pub struct StuckUsers {
    pub place: usize,
    pub users: Vec<usize>,
}

/// Returns the state at an index as a sighting.
pub fn seen_at(place: usize) -> Sighting
    ensures { result ≡ record { place = place; turn = None } }
{
    Sighting { place, turn: None }
}

/// Returns the index of the first state from which on the user of the question with this number is
/// stuck; None if there is none. `OutOfMemory` if an allocation fails.
pub fn first_stuck<P: Progress>(
    alloc: Global,
    orders: &Orders<'_, Watched<'_, P>>,
    number: usize,
) -> Result<Option<usize>, LabFault>
    requires { AreWithin orders.now.search.edges.items (length orders.now.search.map.entries) }
    ensures { IfOk result (λ o. (n : Noted)
        → slice_get orders.now.explorer.watch.lives.notes number ≡ Some n
        → IsFirstUnled orders.now.search.edges.items
        (first_marks (length orders.now.search.map.entries) n) o) }
{
    match orders.watch().lives.notes(number) {
        Some(notes) => stuck_at(alloc, orders, notes),
        None => Ok(None),
    }
}

/// Returns how many of the first lines ask that a user never gets stuck.
fn count_lives(asked: &[AskedLine], lines: usize) -> usize
    ensures { result ≡ count_lives asked.now lines }
{
    let mut count = 0;
    for number in 0..lines.min(asked.len()) {
        if asked[number].asked.is_live() {
            count += 1;
        }
    }
    count
}

/// Returns the first state from which on the user of a line is stuck, by the number of the line
/// from 0, and the first states of all users.
pub fn stuck_of(asked: &[AskedLine], places: &[Option<usize>], number: usize) -> Option<Sighting>
    ensures { result ≡ stuck_of asked.now places.now number }
{
    match places.get(count_lives(asked, number)) {
        Some(Some(place)) => Some(seen_at(*place)),
        Some(None) | None => None,
    }
}

/// Adds a user that is stuck from the state at index `place` on. The list stays sorted by these
/// indices.
fn add_stuck(
    alloc: Global,
    all: &mut Vec<StuckUsers>,
    place: usize,
    user: usize,
) -> Result<(), AllocError> {
    for stuck in all.iter_mut() {
        if stuck.place == place {
            stuck.users.push(user)?;
            return Ok(());
        }
    }
    let mut users = Vec::new(alloc);
    users.push(user)?;
    let following = all.iter().position(|stuck| place < stuck.place);
    let number = following.unwrap_or(all.len());
    all.insert(number, StuckUsers { place, users })?;
    Ok(())
}

/// Returns the stuck users that no line `live` names, sorted by the first states from which on they
/// are stuck.
pub fn stuck_users(
    alloc: Global,
    asked: &[AskedLine],
    lives: &[Live],
    places: &[Option<usize>],
) -> Result<Vec<StuckUsers>, AllocError> {
    let mut all = Vec::new(alloc);
    for number in count_lives(asked, asked.len())..lives.len() {
        if let (Some(live), Some(Some(place))) = (lives.get(number), places.get(number)) {
            add_stuck(alloc, &mut all, *place, live.user)?;
        }
    }
    Ok(all)
}
