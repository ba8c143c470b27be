//! Borrowed records, steps and answers of a book in packed form.
ghost use Rattle.std.specs.Prelude.{◌≡◌, IfOk};
ghost use Rattle.mcs_packing.specs.Kept.{is_sent};

use crate::entries::{PackedEntry, unpack_entry};
use crate::heads::{AnswerForm, unpack_answer};
use crate::packed::Packed;
use crate::unpacking::unpack;
use mcs_types::{Answer, CoreId, Kind, ObjId, OutOfMemory, Rec, Step};
use std::alloc::Global;
use std::marker::Model;

/// A record in packed form. Clauses see the record.
#[derive(Drop)]
pub struct KeptRecord<'a> {
    pub packed: &'a Packed,
    pub words: &'a [u64],
    pub wide: &'a [Rec],
}

impl<'a> Model for KeptRecord<'a> {
    ghost use Rattle.mcs_types.specs.declared.record.Rec.{Rec};
    ghost use Rattle.mcs_packing.specs.Packing.{Fits, record_of};

    ghost Value = { Rec };

    ghost view = { λ r. record_of r.packed.now r.words.now r.wide.now };

    ghost invariant = { λ r. Fits r.packed.now r.words.now r.wide.now };
}

impl<'a> KeptRecord<'a> {
    /// Unpacks the record.
    pub fn unpack(&self, alloc: Global) -> Result<Rec, OutOfMemory>
        ensures { IfOk result (λ r. r ≡ self.now) }
    {
        unpack(alloc, self.packed, self.words, self.wide)
    }

    /// Returns whether it is a Sent record.
    pub fn is_sent(&self) -> bool
        ensures { result ≡ is_sent self.now }
    {
        match self.packed {
            Packed::Sent { .. } => true,
            Packed::Wide { at } => matches!(&self.wide[*at as usize], Rec::Sent { .. }),
            _ => false,
        }
    }
}

/// A step in packed form: the thread that entered, its core and the entry. Clauses see the step.
#[derive(Drop)]
pub struct KeptStep<'a> {
    pub core: CoreId,
    pub kind: Kind,
    pub serial: u32,
    pub entry: &'a PackedEntry,
    pub words: &'a [u64],
}

impl<'a> Model for KeptStep<'a> {
    ghost use Rattle.mcs_types.specs.declared.entry.Step.{Step};
    ghost use Rattle.mcs_packing.specs.Entries.{EntryFits, entry_of};

    ghost Value = { Step };

    ghost view = { λ s. record {
      core = s.core;
      thread = record { kind = s.kind; serial = s.serial };
      entry = entry_of s.entry.now s.words.now;
    } };

    ghost invariant = { λ s. EntryFits s.entry.now s.words.now };
}

impl<'a> KeptStep<'a> {
    /// Unpacks the step.
    pub fn unpack(&self, alloc: Global) -> Result<Step, OutOfMemory>
        ensures { IfOk result (λ s. s ≡ self.now) }
    {
        Ok(Step {
            core: self.core,
            thread: ObjId {
                kind: self.kind,
                serial: self.serial,
            },
            entry: unpack_entry(alloc, self.entry, self.words)?,
        })
    }
}

/// An answer in packed form. Clauses see the answer.
#[derive(Drop)]
pub struct KeptAnswer<'a> {
    pub form: AnswerForm,
    pub at: u32,
    pub words: &'a [u64],
}

impl<'a> Model for KeptAnswer<'a> {
    ghost use Rattle.mcs_types.specs.declared.entry.Answer.{Answer};
    ghost use Rattle.mcs_packing.specs.Heads.{AnswerFits, answer_of};

    ghost Value = { Answer };

    ghost view = { λ a. answer_of a.form a.at a.words.now };

    ghost invariant = { λ a. AnswerFits a.form a.at a.words.now };
}

impl<'a> KeptAnswer<'a> {
    /// Unpacks the answer.
    pub fn unpack(&self, alloc: Global) -> Result<Answer, OutOfMemory>
        ensures { IfOk result (λ a. a ≡ self.now) }
    {
        unpack_answer(alloc, self.form, self.at, self.words)
    }
}
