//! Laws that lookup finds what paths name, each the contract of a function that does nothing.
ghost use Rattle.std.specs.Prelude.{ℕ, Bool, List};
ghost use Rattle.mcs_types.specs.declared.cap.Place.{Place};
ghost use Rattle.mcs_types.specs.declared.id.ObjId.{ObjId};
ghost use Rattle.mcs_book.specs.LookupEnds.{HasOnePath, FindsNamed, RefusesUnnamed, FindsSlot, RefusesSlot};
ghost use Rattle.mcs_book.specs.History.{Book, log_of, IsLegal};

/// Law: after a legal book at most one complete path from a thread's root spells given bits.
pub fn one_path()
    ghost at: { Book × ObjId × List Bool }
    requires { IsLegal at.0 }
    ensures { HasOnePath (log_of at.0) at.1 at.2 }
{}

/// Law: after a legal book lookup finds a capability at an address exactly if a complete path names
/// it. It is refused exactly if the path ends in an empty slot, or as the longest path says where
/// none is complete.
pub fn capability_lookup()
    ghost at: { Book × ObjId × ℕ }
    requires { IsLegal at.0 }
    ensures found { FindsNamed (log_of at.0) at.1 at.2 }
    ensures refused { RefusesUnnamed (log_of at.0) at.1 at.2 }
{}

/// Law: after a legal book lookup finds a slot by an index and a depth exactly if a complete path
/// ends there with no bits left. It is refused exactly if its depth is out of range, bits remain at
/// the path's end, or as the longest path says where none is complete.
pub fn slot_lookup()
    ghost at: { Book × ObjId × Place }
    requires { IsLegal at.0 }
    ensures found { FindsSlot (log_of at.0) at.1 at.2 }
    ensures refused { RefusesSlot (log_of at.0) at.1 at.2 }
{}
