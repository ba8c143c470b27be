//! How runs end.
ghost use Rattle.std.specs.Prelude.{◌≡◌, ◌↔◌, ◌++◌, ◌<◌, [], IsTrue, IfOk, IfSome, IfNone, OnOk, Some, is_some, length, set, slice_get};
ghost use Rattle.mcs_explore_report.specs.Standings.{is_blocked, listed, standing_of, standings};
ghost use Rattle.mcs_explore_report.specs.Endings.{entry_of, waits_for};
ghost use Rattle.mcs_explore_report.specs.Ends.{AreMerged, Kind, IsKindAt, IsMerged, IsNoKind, IsNoted, IsNotedIf, with_more};

use crate::judgement::answered_by;
use crate::references::object_in;
use mcs_explore_orders::{OrdersFault, Users, Walk};
use mcs_queues::PlainLines;
use mcs_types::{ObjId, Status};
use std::alloc::{AllocError, Global};
use std::marker::Model;

/// A user that has entries left, or whose last entry waits.
#[derive(Clone, Copy, Debug)]
pub struct Standing {
    pub thread: ObjId,
    pub status: Option<Status>,
    pub has_entries: bool,
    /// How many of its entries have a final answer: it waits in the next one, or has not given
    /// that.
    pub answered: usize,
}

/// A kind of end, by the users that are not done and their states: at how many states it occurs,
/// and the first of them.
#[derive(Drop)]
pub struct End {
    pub standing: Vec<Standing>,
    pub count: usize,
    pub place: usize,
}

impl Model for End {
    ghost use Rattle.mcs_explore_report.specs.Ends.{Kind};

    ghost Value = { Kind };

    ghost view = { λ e. record { standing = e.standing.items; count = e.count; place = e.place } };
}

impl End {
    /// Counts more ends of this kind, up to `usize::MAX`.
    fn add(&mut self, count: usize)
        ensures { self.new ≡ with_more self.old count }
    {
        self.count = self.count.saturating_add(count);
    }
}

/// The kinds of ends that a search found, in the order in which they were found first. (Only if
/// that is the order kept; the clause `first` of `watched` says so.)
#[derive(Drop)]
pub struct Ends {
    alloc: Global,
    kinds: Vec<End>,
}

impl Model for Ends {
    ghost use Rattle.std.specs.Prelude.{List};
    ghost use Rattle.mcs_explore_report.specs.Ends.{Kind};

    ghost Value = { List Kind };

    ghost view = { λ e. e.kinds.items };
}

/// Returns whether a status is the same as another one.
fn is_same_status(status: Status, other: Status) -> bool
    ensures { IsTrue result ↔ (status ≡ other) }
{
    status == other
}

/// Returns whether two statuses are the same; both may be None.
#[tactic(auto, using(crate::proofs::SameStanding::some_status, crate::proofs::SameStanding::none_left, crate::proofs::SameStanding::none_right))]
fn is_same_or_none(status: Option<Status>, other: Option<Status>) -> bool
    ensures { IsTrue result ↔ (status ≡ other) }
{
    match (status, other) {
        (Some(status), Some(other)) => is_same_status(status, other),
        (None, None) => true,
        (Some(_), None) | (None, Some(_)) => false,
    }
}

impl Standing {
    /// Returns whether the other user is this one, in the same state.
    #[tactic(auto, using(crate::proofs::SameStanding::other_thread, crate::proofs::SameStanding::other_entries, crate::proofs::SameStanding::other_answered, crate::proofs::SameStanding::same_rest))]
    fn is_same(&self, other: &Standing) -> bool
        ensures { IsTrue result ↔ (self.now ≡ other.now) }
    {
        if !self.thread.is_same(other.thread) {
            return false;
        }
        if self.has_entries != other.has_entries {
            return false;
        }
        if self.answered != other.answered {
            return false;
        }
        is_same_or_none(self.status, other.status)
    }

    /// Returns the number of the entry in which it waits, or that it gives next, counted from 1.
    pub fn entry(&self) -> usize
        ensures { result ≡ entry_of self.now }
    {
        self.answered.saturating_add(1)
    }

    /// Returns what it is blocked on: the object of a queue, or the reply object that owes it a
    /// reply; None if it is not blocked.
    pub fn object(&self) -> Option<ObjId>
        ensures { result ≡ waits_for self.now.status }
    {
        match self.status {
            Some(Status::Queued(queue)) => Some(object_in(queue)),
            Some(Status::OnReply(reply)) => Some(reply),
            Some(Status::Running | Status::Restart | Status::Inactive | Status::Closed) | None =>
                None,
        }
    }

    /// Returns whether it is blocked: in a queue, or on a reply object.
    pub fn is_waiting(&self) -> bool
        ensures { result ≡ is_some (waits_for self.now.status) }
    {
        self.object().is_some()
    }
}

/// Returns whether a thread with this status neither runs nor restarts.
fn is_blocked(status: Option<Status>) -> bool
    ensures { result ≡ is_blocked status }
{
    !matches!(status, Some(Status::Running | Status::Restart))
}

/// Returns the state of the user at an index; None if it is done and not blocked.
fn standing_of(users: &Users, walk: &Walk<PlainLines>, user: usize) -> Option<Standing>
    ensures { result ≡ standing_of users.now walk.now user }
{
    let list = users.at(user)?;
    let place = walk.place(user)?;
    let status = walk.kernel().status(list.thread);
    let has_entries = place.is_left(status, list.entries.len());
    let waits = is_blocked(status) && place.waited.is_some();
    if has_entries || waits {
        Some(Standing {
            thread: list.thread,
            status,
            has_entries,
            answered: answered_by(status, place),
        })
    } else {
        None
    }
}

/// Adds the state of a user, if there is one.
fn push(standing: &mut Vec<Standing>, stands: Option<Standing>) -> Result<(), OrdersFault>
    ensures { OnOk result (standing.new.items ≡ standing.old.items ++ listed stands) }
{
    if let Some(stands) = stands {
        standing.push(stands)?;
    }
    Ok(())
}

/// Returns the users that are not done, with their states.
pub fn standings(
    alloc: Global,
    users: &Users,
    walk: &Walk<PlainLines>,
) -> Result<Vec<Standing>, OrdersFault>
    ensures { IfOk result (λ v. v.items ≡ standings users.now walk.now) }
{
    let mut standing = Vec::new(alloc);
    for user in 0..users.lists().len() {
        push(&mut standing, standing_of(users, walk, user))?;
    }
    Ok(standing)
}

/// Returns whether both ends have the same users in the same states.
pub fn is_same_kind(standing: &[Standing], other: &[Standing]) -> bool
    ensures { IsTrue result ↔ (standing.now ≡ other.now) }
{
    if standing.len() != other.len() {
        return false;
    }
    for index in 0..standing.len() {
        if !standing[index].is_same(&other[index]) {
            return false;
        }
    }
    true
}

impl Ends {
    /// Returns an empty list of ends.
    pub fn new(alloc: Global) -> Ends
        ensures { result ≡ [] }
    {
        Ends {
            alloc,
            kinds: Vec::new(alloc),
        }
    }

    /// Returns the kinds, in the order in which they were found.
    pub fn kinds(&self) -> &[End]
        ensures { result.now ≡ self.now }
    {
        self.kinds.as_slice()
    }

    /// Returns the index of the kind with these users; None if there is none.
    fn find(&self, standing: &[Standing]) -> Option<usize>
        ensures within { IfSome result (λ i. i < length self.now) }
        ensures some { IfSome result (λ i. IsKindAt self.now standing.now i) }
        ensures none { IfNone result (IsNoKind self.now standing.now (length self.now)) }
    {
        for index in 0..self.kinds.len() {
            let kind = &self.kinds[index];
            if is_same_kind(&kind.standing, standing) {
                return Some(index);
            }
        }
        None
    }

    /// Counts more ends of the kind at an index.
    fn count(&mut self, index: usize, count: usize)
        requires { index < length self.old }
        ensures { (kind : Kind) → slice_get self.old index ≡ Some kind
            → self.new ≡ set self.old index (with_more kind count) }
    {
        let kind = &mut self.kinds[index];
        kind.add(count);
    }

    /// Notes the end in a state.
    fn note(
        &mut self,
        users: &Users,
        place: usize,
        walk: &Walk<PlainLines>,
    ) -> Result<(), OrdersFault>
        ensures { OnOk result (IsNoted (standings users.now walk.now) place self.old self.new) }
    {
        let end = End {
            standing: standings(self.alloc, users, walk)?,
            count: 1,
            place,
        };
        self.merge(&end)?;
        Ok(())
    }

    /// Adds ends of one kind: counts them if the kind exists, and else adds the kind. `OutOfMemory`
    /// if an allocation fails.
    fn merge(&mut self, more: &End) -> Result<(), AllocError>
        ensures { OnOk result (IsMerged more.now self.old self.new) }
    {
        if let Some(index) = self.find(&more.standing) {
            self.count(index, more.count);
            return Ok(());
        }
        self.kinds.push(End {
            standing: Vec::from_slice(self.alloc, &more.standing)?,
            count: more.count,
            place: more.place,
        })?;
        Ok(())
    }

    /// Adds ends of these kinds, each where its kind is, or as a new one. `OutOfMemory` if an
    /// allocation fails.
    pub fn merge_all(&mut self, more: &[End]) -> Result<(), AllocError>
        ensures { OnOk result (AreMerged more.now self.old self.new) }
    {
        for index in 0..more.len() {
            self.merge(&more[index])?;
        }
        Ok(())
    }

    /// Notes the end in a state, if it is over.
    pub fn note_state(
        &mut self,
        users: &Users,
        place: usize,
        walk: &Walk<PlainLines>,
        is_over: bool,
    ) -> Result<(), OrdersFault>
        ensures { OnOk result (IsNotedIf is_over
            (standings users.now walk.now) place self.old self.new) }
    {
        if !is_over {
            return Ok(());
        }
        self.note(users, place, walk)
    }
}
