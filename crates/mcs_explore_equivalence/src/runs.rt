//! Runs that no later turn can distinguish: they have the same possible turns, which lead to such
//! runs again (own). Each law is about definitions, and its function does nothing.
ghost use Rattle.std.specs.Prelude.{Bool, List, true, false};
ghost use Rattle.mcs_book.specs.Boots.{Boot, IsFaultless};
ghost use Rattle.mcs_turns.specs.Turns.{User, RunState, AreInRange, Follows, IsOver};
ghost use Rattle.mcs_explore_search.specs.Closure.{IsLikeness};
ghost use Rattle.mcs_explore_equivalence.specs.Runs.{AreAlike, AreSameTurns};

/// Law: the turns of users (at.1) after a boot without fault (at.2) respect likeness, which may
/// distinguish message numbers (at.0). A turn of one of two alike runs can be made in the other, by
/// the same core with the same pick; it has the same answer, the same records up to message
/// numbers, and leads to alike runs.
pub fn turns_respect()
    ghost at: { Bool × List User × Boot }
    requires boot { IsFaultless at.2 }
    requires in_range { AreInRange at.1 }
    ensures turns { AreSameTurns at.0 at.1 at.2 }
    // so is likeness: alike runs stay alike after such turns
    ensures likeness { IsLikeness (Follows at.1) (AreAlike at.0 at.1 at.2) }
{}

/// Law: if one of two alike runs (at.3, at.4) is over, so is the other.
pub fn over_alike()
    ghost at: { Bool × List User × Boot × RunState × RunState }
    requires alike { AreAlike at.0 at.1 at.2 at.3 at.4 }
    requires over { IsOver at.1 at.3 }
    ensures { IsOver at.1 at.4 }
{}

/// Law: alike runs (at.2, at.3) are also alike if message numbers are not distinguished.
pub fn alike_unnumbered()
    ghost at: { List User × Boot × RunState × RunState }
    requires { AreAlike true at.0 at.1 at.2 at.3 }
    ensures { AreAlike false at.0 at.1 at.2 at.3 }
{}

/// Law: likeness is symmetric (at.3, at.4).
pub fn alike_back()
    ghost at: { Bool × List User × Boot × RunState × RunState }
    requires { AreAlike at.0 at.1 at.2 at.3 at.4 }
    ensures { AreAlike at.0 at.1 at.2 at.4 at.3 }
{}
