//! When visited states cover the ends of all runs (own).
ghost use Rattle.std.specs.Prelude.{ℕ, List};
ghost use Rattle.mcs_explore_search.specs.Closure.{AreFar, IsClosed, IsClosedTo, IsLikeness, IsVisited, Visit};
ghost use Rattle.mcs_explore_search.specs.Paths.{Run};

/// Steps between states, and which states are alike.
pub trait Likeness {
    ghost State: { Type 0 };

    ghost Step: { State → State → Type 0 };

    ghost Like: { State → State → Type 0 };

    fn is_likeness()
        ensures { IsLikeness Step Like };
}

/// Proves that, if steps from visited states lead to states that are like visited ones, every run
/// ends in a state that is like a visited one, which took no more steps.
pub fn every_run<L: Likeness>()
    ghost at: { L.State × List (Visit L.State) }
    requires { IsClosed L.Step L.Like at.0 at.1 }
    ensures { (n : ℕ) (t : L.State) → Run L.Step at.0 n t → IsVisited L.Like at.1 t n }
{
    L::is_likeness();
}

/// Proves the same if only the first at.1 visited states were expanded: for every run that is no
/// longer than each of the other visits is deep.
pub fn near_run<L: Likeness>()
    ghost at: { L.State × ℕ × List (Visit L.State) }
    requires { IsClosedTo L.Step L.Like at.0 at.1 at.2 }
    ensures { (n : ℕ) (t : L.State) → AreFar n at.1 at.2
        → Run L.Step at.0 n t → IsVisited L.Like at.2 t n }
{
    L::is_likeness();
}
