//! Laws: packed values keep their meaning when more is packed. Each is the contract of a function
//! that does nothing.
ghost use Rattle.std.specs.Prelude.{◌≡◌};
ghost use Rattle.mcs_packing.specs.declared.arena.Arena.{Arena};
ghost use Rattle.mcs_packing.specs.declared.packed.Packed.{Packed};
ghost use Rattle.mcs_packing.specs.declared.entries.PackedEntry.{PackedEntry};
ghost use Rattle.mcs_packing.specs.declared.heads.PackedAnswer.{PackedAnswer};
ghost use Rattle.mcs_packing.specs.Packing.{Grew, FitsIn, record_in};
ghost use Rattle.mcs_packing.specs.Entries.{EntryFits, entry_of};
ghost use Rattle.mcs_packing.specs.Heads.{AnswerFits, answer_of};

/// Law: a packed record unpacks to the same record after its arena grew.
pub fn records_kept()
    ghost at: { Packed × Arena × Arena }
    requires fits { FitsIn at.0 at.1 }
    requires grew { Grew at.1 at.2 }
    ensures value { record_in at.0 at.2 ≡ record_in at.0 at.1 }
    ensures fits { FitsIn at.0 at.2 }
{}

/// Law: a packed entry unpacks to the same entry after its arena grew.
pub fn entries_kept()
    ghost at: { PackedEntry × Arena × Arena }
    requires fits { EntryFits at.0 at.1.words.items }
    requires grew { Grew at.1 at.2 }
    ensures value { entry_of at.0 at.2.words.items ≡ entry_of at.0 at.1.words.items }
    ensures fits { EntryFits at.0 at.2.words.items }
{}

/// Law: a packed answer unpacks to the same answer after its arena grew.
pub fn answers_kept()
    ghost at: { PackedAnswer × Arena × Arena }
    requires fits { AnswerFits at.0.form at.0.at at.1.words.items }
    requires grew { Grew at.1 at.2 }
    ensures value { answer_of at.0.form at.0.at at.2.words.items
        ≡ answer_of at.0.form at.0.at at.1.words.items }
    ensures fits { AnswerFits at.0.form at.0.at at.2.words.items }
{}
