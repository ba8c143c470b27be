//! What keys decide (own). Each law is about definitions, and its function does nothing.
ghost use Rattle.std.specs.Prelude.{ℕ, Bool, List};
ghost use Rattle.mcs_book.specs.Boots.{Boot, IsFaultless};
ghost use Rattle.mcs_turns.specs.Turns.{User, RunState, AreInRange};
ghost use Rattle.mcs_explore_equivalence.specs.Runs.{IsReached, AreAlike};
ghost use Rattle.mcs_explore_rows.specs.Naming.{Keeps};
ghost use Rattle.mcs_explore_rows.specs.Rows.{HaveSameRows, IsKey};

/// Law: two runs (at.3, at.4) of users (at.1) after a boot without fault (at.2) are alike if their
/// rows are equal; rows may contain message numbers (at.0).
pub fn rows_decide()
    ghost at: { Bool × List User × Boot × RunState × RunState }
    requires boot { IsFaultless at.2 }
    requires in_range { AreInRange at.1 }
    requires left { IsReached at.1 at.2 at.3 }
    requires right { IsReached at.1 at.2 at.4 }
    requires rows { HaveSameRows at.0 at.1 at.3 at.4 }
    ensures { AreAlike at.0 at.1 at.2 at.3 at.4 }
{}

/// Law: two runs are alike if they have one key (at.6) among the same rows (at.5).
pub fn key_decides()
    ghost at: { Bool × List User × Boot × RunState × RunState × List (List ℕ) × List ℕ }
    requires boot { IsFaultless at.2 }
    requires in_range { AreInRange at.1 }
    requires left { IsReached at.1 at.2 at.3 }
    requires right { IsReached at.1 at.2 at.4 }
    requires one { IsKey at.0 at.5 at.1 at.3 at.6 }
    requires other { IsKey at.0 at.5 at.1 at.4 at.6 }
    ensures { AreAlike at.0 at.1 at.2 at.3 at.4 }
{}

/// Law: a key (at.5) of a state (at.4) of users (at.3) remains its key as more rows are interned
/// (at.1 before, at.2 after).
pub fn key_stays()
    ghost at: { Bool × List (List ℕ) × List (List ℕ) × List User × RunState × List ℕ }
    requires kept { Keeps at.1 at.2 }
    requires key { IsKey at.0 at.1 at.3 at.4 at.5 }
    ensures { IsKey at.0 at.2 at.3 at.4 at.5 }
{}
