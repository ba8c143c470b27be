//! A small system for the search.
ghost use Rattle.std.specs.Prelude.{◌≡◌, ◌<◌, ◌^◌};
ghost use Rattle.mcs_test_examples.specs.Rings.{turned, turned_all};

use mcs_explore_search::{Budget, System, explore};
use mcs_lab_check::LabFault;
use std::alloc::{AllocError, Global};
use std::io::Write;

/// A system of n states, numbered from 0, with two steps from each: to the next and to the double.
/// The number of steps so far is not part of the key.
#[derive(Drop)]
pub struct Ring {
    pub n: u32,
}

impl Ring {
    fn turned(&self, at: u64, doubles: bool) -> u64
        requires some { 0 < self.now.n }
        requires small { at < 2 ^ 32 }
        ensures place { result ≡ turned self.now.n doubles at }
        ensures small { result < 2 ^ 32 }
    {
        let n = u64::from(self.n);
        if doubles { (at + at) % n } else { (at + 1) % n }
    }

    fn turned_all(&self, path: &[bool]) -> u64
        requires some { 0 < self.now.n }
        ensures place { result ≡ turned_all self.now.n path.now 0 }
        ensures small { result < 2 ^ 32 }
    {
        let mut at = 0;
        for doubles in path {
            at = self.turned(at, *doubles);
        }
        at
    }
}

impl System for Ring {
    ghost use Rattle.std.specs.Prelude.{◌≡◌, ℕ, refl};
    ghost use Rattle.mcs_test_examples.specs.Rings.{StandsAt, Turns};
    ghost use Rattle.std.proofs.Common.{sym, ◌∙◌};
    ghost use Rattle.std.proofs.lemmas.Bool.{eqb-true};

    type Label = bool;

    type Key = u64;

    type Fault = AllocError;

    ghost State = { ℕ × ℕ };

    ghost start = { λ m. (0, 0) };

    ghost Leads = { λ m. Turns m.n };

    ghost Like = { λ m s t. s.0 ≡ t.0 };

    ghost IsKey = { λ m. StandsAt };

    ghost HasSeen = { λ m ps. Unit {0} };

    ghost Later = { λ m n. n ≡ m };

    fn first(&mut self, alloc: Global) -> Result<u64, AllocError> {
        Ok(0)
    }

    fn nexts(
        &mut self,
        alloc: Global,
        place: usize,
        path: &[bool],
        _next: &[bool],
    ) -> Result<Vec<(bool, u64)>, AllocError> {
        let mut nexts = Vec::new(alloc);
        if self.n == 0 {
            return Ok(nexts);
        }
        let at = self.turned_all(path);
        nexts.push((false, self.turned(at, false)))?;
        nexts.push((true, self.turned(at, true)))?;
        Ok(nexts)
    }

    ghost same = { λ m. refl };

    ghost further = { λ m n o h k. k ∙ h };

    ghost keeps_start = { λ m n h. refl };

    ghost keeps_steps = { λ m n h l s t. rw h (λ x. x, λ x. x) };

    ghost keeps_likeness = { λ m n h s t. (λ x. x, λ x. x) };

    ghost keeps_keys = { λ m n h s k x. x };

    ghost alike = { λ m p q s t k x y h g. h ∙ sym g };

    ghost as_good = { λ m s k c same is. is ∙ eqb-true k c same };
}

/// Budgets of states and of steps; 2,000 is enough for a ring of 1,000.
const BUDGETS: &[(usize, usize)] = &[(2000, 2000), (2000, 3), (10, 2000)];

/// Writes how much of the ring each budget finds, the depth of the next state to expand, and of the
/// last state.
pub fn tell_rings<W: Write>(alloc: Global, to: &mut W) -> Result<(), LabFault> {
    for &(states, depth) in BUDGETS {
        let found = explore(alloc, &mut Ring { n: 1000 }, Budget { states, depth })?;
        writeln!(to, "# a ring, {states} states and {depth} steps")?;
        if !found.is_whole() {
            let next = found.depth(found.done);
            writeln!(to, "not all: the next lies {next} steps off")?;
        }
        let count = found.states();
        let last = count.saturating_sub(1);
        let off = found.depth(last);
        let path = found.path(alloc, last)?;
        let steps = path.len();
        writeln!(
            to,
            "{count} found, the last {off} steps off, by a path of {steps}"
        )?;
    }
    Ok(())
}
