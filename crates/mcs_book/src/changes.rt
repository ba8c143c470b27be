//! Laws about what entries do not change, each the contract of a function that does nothing.
ghost use Rattle.std.specs.Prelude.{false, ◌≡◌};
ghost use Rattle.mcs_types.specs.Changes.{changes_slots, makes_object};
ghost use Rattle.mcs_types.specs.declared.id.CoreId.{CoreId};
ghost use Rattle.mcs_types.specs.declared.id.ObjId.{ObjId};
ghost use Rattle.mcs_types.specs.declared.entry.Entry.{Entry};
ghost use Rattle.mcs_book.specs.Logs.{Log};
ghost use Rattle.mcs_book.specs.SlotRecords.{HasNone, is_making, is_of_slots};
ghost use Rattle.mcs_book.specs.Table.{does};

/// Law: an entry that does not change slots has no record of a slot, nor of an object made or
/// closed.
pub fn slots_stay()
    ghost at: { Log × CoreId × ObjId × Entry }
    requires { changes_slots at.3 ≡ false }
    ensures { HasNone is_of_slots (does at.0 at.1 at.2 at.3).records }
{}

/// Law: an entry that does not make an object has no record of one made.
pub fn none_made()
    ghost at: { Log × CoreId × ObjId × Entry }
    requires { makes_object at.3 ≡ false }
    ensures { HasNone is_making (does at.0 at.1 at.2 at.3).records }
{}
