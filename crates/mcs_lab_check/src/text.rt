//! A text buffer.
ghost use Rattle.std.specs.Prelude.{◌≡◌, ◌∷◌, [], ◌++◌, IfOk, OnOk, bytes_eq};
ghost use Rattle.mcs_text.specs.Spelling.{then_text, token_text};
ghost use Rattle.mcs_text.specs.Table.{answer_text, record_text};

use crate::fault::LabFault;
use mcs_packing::{KeptAnswer, KeptRecord};
use mcs_text::Token;
use mcs_trace::{Line, spell, spell_answer, spell_record};
use std::alloc::Global;
use std::marker::Model;

/// A text buffer, and a line buffer for its words. Clauses see the text.
#[derive(Drop)]
pub struct Text {
    bytes: Vec<u8>,
    word: Box<Line>,
}

impl Model for Text {
    ghost use Rattle.std.specs.Prelude.{ℕ, List};

    ghost Value = { List ℕ };

    ghost view = { λ t. t.bytes.items };
}

impl Text {
    /// Returns an empty text.
    pub fn new(alloc: Global) -> Result<Text, LabFault>
        ensures { IfOk result (λ t. t ≡ []) }
    {
        Ok(Text {
            bytes: Vec::new(alloc),
            word: Box::new(alloc, Line::new())?,
        })
    }

    /// The text.
    pub fn text(&self) -> &[u8]
        ensures { result.now ≡ self.now }
    {
        self.bytes.as_slice()
    }

    /// Empties the buffer.
    pub fn clear(&mut self)
        ensures { self.new ≡ [] }
    {
        self.bytes.clear();
    }

    /// Appends bytes.
    pub fn put(&mut self, bytes: &[u8]) -> Result<(), LabFault>
        ensures { OnOk result (self.new ≡ self.old ++ bytes.now) }
    {
        self.bytes.extend_from_slice(bytes)?;
        Ok(())
    }

    /// Appends a word.
    pub fn word(&mut self, token: &Token) -> Result<(), LabFault>
        ensures { OnOk result (self.new ≡ self.old ++ token_text token.now) }
    {
        spell(&mut self.word, token);
        self.bytes.extend_from_slice(self.word.text())?;
        Ok(())
    }

    /// Appends a space and a word.
    pub fn spaced(&mut self, token: &Token) -> Result<(), LabFault>
        ensures { OnOk result (self.new ≡ self.old ++ then_text (token_text token.now)) }
    {
        self.put(b" ")?;
        self.word(token)
    }

    /// Returns whether an answer is spelled as this line.
    pub fn is_answer(&mut self, answer: &KeptAnswer<'_>, line: &[u8]) -> bool
        ensures holds { result ≡ bytes_eq (answer_text answer.now) line.now }
        ensures same { self.new ≡ self.old }
    {
        spell_answer(&mut self.word, answer);
        self.word.text() == line
    }

    /// Returns whether a record, before which `sent` messages were sent, is spelled as this line.
    pub fn is_record(&mut self, sent: u128, fact: &KeptRecord<'_>, line: &[u8]) -> bool
        ensures holds { result ≡ bytes_eq (record_text sent fact.now) line.now }
        ensures same { self.new ≡ self.old }
    {
        spell_record(&mut self.word, sent, fact);
        self.word.text() == line
    }
}
