//! Laws of every run (own). Each is about definitions, and its function does nothing.
ghost use Rattle.std.specs.Prelude.{◌≡◌, ℕ, List, length};
ghost use Rattle.mcs_types.specs.declared.id.CoreId.{CoreId};
ghost use Rattle.mcs_book.specs.Boots.{Boot, IsFaultless};
ghost use Rattle.mcs_book.specs.History.{IsLegal};
ghost use Rattle.mcs_turns.specs.declared.position.Pick.{Pick};
ghost use Rattle.mcs_turns.specs.Turns.{User, RunState, AreInRange, ArePicks, IsRun, IsTurn};

/// Law: the book of a run of users (at.0) after a boot without fault (at.1), by this many turns
/// (at.2), is legal, if the numbers of all their entries are in their ranges.
pub fn run_legal()
    ghost at: { List User × Boot × ℕ × RunState }
    requires boot { IsFaultless at.1 }
    requires in_range { AreInRange at.0 }
    requires run { IsRun at.0 at.1 at.2 at.3 }
    ensures { IsLegal at.3.book }
{}

/// Law: a run has as many lines after its boot as turns, and each user has one position.
pub fn run_long()
    ghost at: { List User × Boot × ℕ × RunState }
    requires run { IsRun at.0 at.1 at.2 at.3 }
    ensures boot { at.3.book.boot ≡ at.1 }
    ensures lines { length at.3.book.lines ≡ at.2 }
    ensures places { length at.3.places ≡ length at.0 }
    ensures stale { length at.3.stale ≡ at.1.cores }
{}

/// Law: the picks of the cores in a state of a run (at.1) of users (at.0) are unique (at.2 and
/// at.3).
pub fn one_pick()
    ghost at: { List User × RunState × List (List Pick) × List (List Pick) }
    requires one { ArePicks at.0 at.1 at.2 }
    requires other { ArePicks at.0 at.1 at.3 }
    ensures { at.2 ≡ at.3 }
{}

/// Law: an entry (at.2) of users (at.0) that a core (at.1) enters in a state of a run (at.3) leads
/// to a unique state (at.4 and at.5).
pub fn one_turn()
    ghost at: { List User × CoreId × Pick × RunState × RunState × RunState }
    requires one { IsTurn at.0 at.1 at.2 at.3 at.4 }
    requires other { IsTurn at.0 at.1 at.2 at.3 at.5 }
    ensures { at.4 ≡ at.5 }
{}
