//! Spells a single line into a buffer.
ghost use Rattle.std.specs.Prelude.{◌≡◌};
ghost use Rattle.mcs_text.specs.Table.{step_text, answer_text, record_text};
ghost use Rattle.mcs_text.specs.Spelling.{token_text};

use crate::line::Line;
use crate::records::{write_kept, write_kept_answer};
use crate::steps::write_kept_step;
use mcs_packing::{KeptAnswer, KeptRecord, KeptStep, id_of};
use mcs_text::{Entrant, Token};

/// Spells a word.
pub fn spell(line: &mut Line, token: &Token)
    ensures { line.new ≡ token_text token.now }
{
    line.clear();
    line.word(token);
}

/// Spells the line of a step.
pub fn spell_step(line: &mut Line, step: &KeptStep<'_>)
    ensures { line.new ≡ step_text step.now }
{
    line.clear();
    let from = Entrant {
        core: step.core,
        thread: id_of(step.kind, step.serial),
    };
    write_kept_step(line, from, step.entry, step.words);
}

/// Spells the line of an answer.
pub fn spell_answer(line: &mut Line, answer: &KeptAnswer<'_>)
    ensures { line.new ≡ answer_text answer.now }
{
    line.clear();
    write_kept_answer(line, answer.form, answer.at, answer.words);
}

/// Spells the line of a record, before which `sent` messages were sent.
pub fn spell_record(line: &mut Line, sent: u128, fact: &KeptRecord<'_>)
    ensures { line.new ≡ record_text sent fact.now }
{
    line.clear();
    write_kept(line, sent, fact.packed, fact.words, fact.wide, None);
}
