//! The current picks of a core, or its stale ones: made since its last line, for users that have
//! not moved.
ghost use Rattle.std.specs.Prelude.{◌≡◌, ◌∷◌, ◌++◌, [], IfOk, OnOk};
ghost use Rattle.std.specs.List.{list_any};
ghost use Rattle.mcs_turns.specs.Due.{is_same, with_picks, without_user};
ghost use Rattle.mcs_users.specs.Picks.{with_any_pick, without_any_user};

use mcs_turns::Pick;
use mcs_types::OutOfMemory;
use smallvec::SmallVec;
use std::alloc::Global;
use std::marker::Model;

/// A set of picks, ordered by user and then by entry. Clauses see a list.
#[derive(Drop)]
pub struct Picks {
    // few cores have more than two
    picks: SmallVec<Pick, 2>,
}

impl Model for Picks {
    ghost use Rattle.std.specs.Prelude.{List};
    ghost use Rattle.mcs_turns.specs.declared.position.Pick.{Pick};

    ghost Value = { List Pick };

    ghost view = { λ p. p.picks.items };
}

/// Adds a pick to the end. `OutOfMemory` if an allocation fails.
fn add(picks: &mut SmallVec<Pick, 2>, pick: Pick) -> Result<(), OutOfMemory>
    ensures { OnOk result (picks.new.items ≡ picks.old.items ++ pick ∷ []) }
{
    match picks.push(pick) {
        Ok(()) => Ok(()),
        Err(_) => Err(OutOfMemory),
    }
}

/// Adds a pick to the end, unless it is of this user. `OutOfMemory` if an allocation fails.
fn add_of_others(
    picks: &mut SmallVec<Pick, 2>,
    pick: Pick,
    user: Option<usize>,
) -> Result<(), OutOfMemory>
    ensures { OnOk result
        (picks.new.items ≡ picks.old.items ++ without_any_user user (pick ∷ [])) }
{
    match user {
        Some(user) if pick.user == user => Ok(()),
        _ => add(picks, pick),
    }
}

impl Picks {
    /// Returns an empty set of picks.
    pub fn new(alloc: Global) -> Picks
        ensures { result ≡ [] }
    {
        Picks {
            picks: SmallVec::new(alloc),
        }
    }

    /// Returns the picks, ordered by user and then by entry.
    pub fn as_slice(&self) -> &[Pick]
        ensures { result.now ≡ self.now }
    {
        self.picks.as_slice()
    }

    /// Returns whether a pick is among them.
    pub fn has(&self, pick: Pick) -> bool
        ensures { result ≡ list_any (is_same pick) self.now }
    {
        self.picks.iter().any(|other| pick.is_same(*other))
    }

    /// Returns these picks without those of `user`, if given, and with one more, if given and new.
    fn merged(
        &self,
        alloc: Global,
        pick: Option<Pick>,
        user: Option<usize>,
    ) -> Result<Picks, OutOfMemory>
        ensures { IfOk result (λ p. p ≡ without_any_user user (with_any_pick pick self.now)) }
    {
        let mut picks = SmallVec::new(alloc);
        let mut more = pick;
        for other in self.picks.iter() {
            let other = *other;
            if let Some(one) = more {
                if one.is_same(other) {
                    more = None;
                } else if one.is_ahead(other) {
                    add_of_others(&mut picks, one, user)?;
                    more = None;
                }
            }
            add_of_others(&mut picks, other, user)?;
        }
        if let Some(one) = more {
            add_of_others(&mut picks, one, user)?;
        }
        Ok(Picks { picks })
    }

    /// Returns these picks without those of `user`, if given, and with all new ones of `more`.
    fn merged_all(
        &self,
        alloc: Global,
        more: &[Pick],
        user: Option<usize>,
    ) -> Result<Picks, OutOfMemory>
        ensures { IfOk result (λ p. p ≡ without_any_user user (with_picks more.now self.now)) }
    {
        if more.len() < 2 {
            return self.merged(alloc, more.first().copied(), user);
        }
        let mut all = self.copy(alloc)?;
        for pick in more {
            all = all.merged(alloc, Some(*pick), None)?;
        }
        all.merged(alloc, None, user)
    }

    /// Returns the union with these picks. `OutOfMemory` if an allocation fails.
    pub fn with(&self, alloc: Global, picks: &[Pick]) -> Result<Picks, OutOfMemory>
        ensures { IfOk result (λ p. p ≡ with_picks picks.now self.now) }
    {
        self.merged_all(alloc, picks, None)
    }

    /// Returns the union with these picks, without those of a user. `OutOfMemory` if an allocation
    /// fails.
    pub fn after(&self, alloc: Global, picks: &[Pick], user: usize) -> Result<Picks, OutOfMemory>
        ensures { IfOk result (λ p. p ≡ without_user user (with_picks picks.now self.now)) }
    {
        self.merged_all(alloc, picks, Some(user))
    }

    /// Adds a pick to the end. `OutOfMemory` if an allocation fails.
    pub fn push(&mut self, pick: Pick) -> Result<(), OutOfMemory>
        ensures { OnOk result (self.new ≡ self.old ++ pick ∷ []) }
    {
        add(&mut self.picks, pick)
    }

    /// Returns a copy. `OutOfMemory` if an allocation fails.
    pub fn copy(&self, alloc: Global) -> Result<Picks, OutOfMemory>
        ensures { IfOk result (λ p. p ≡ self.now) }
    {
        let picks = SmallVec::from_slice(alloc, self.picks.as_slice())?;
        Ok(Picks { picks })
    }
}
