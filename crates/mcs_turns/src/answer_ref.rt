//! The result of an entry: its answer, or what reached its thread while it waited (own).
ghost use Rattle.std.specs.Prelude.{◌≡◌, []};
ghost use Rattle.mcs_types.specs.declared.entry.Answer.TheVariants as answer;
ghost use Rattle.mcs_turns.specs.AnswerRef.{answer_of};
ghost use Rattle.mcs_turns.specs.Programs.{answer_badge, is_done, is_empty, is_got, is_heard, answer_label, refused_by, answer_word};

use mcs_types::{Answer, Badge, Refusal};
use std::marker::Model;

/// Which answer it is.
#[derive(Clone, Copy, Drop)]
pub enum Form {
    Done,
    Waits,
    Got,
    Heard,
    Empty,
    Refused(Refusal),
}

/// An answer whose message is borrowed. Clauses see the answer.
#[derive(Drop)]
pub struct AnswerRef<'a> {
    pub form: Form,
    /// The badge of a message, or the word that was heard.
    pub word: u64,
    pub label: u64,
    pub words: &'a [u64],
}

impl<'a> Model for AnswerRef<'a> {
    ghost use Rattle.mcs_types.specs.declared.entry.Answer.{Answer};
    ghost use Rattle.mcs_turns.specs.AnswerRef.{answer_of};

    ghost Value = { Answer };

    ghost view = { λ t. answer_of t.form t.word t.label t.words.now };
}

impl<'a> AnswerRef<'a> {
    /// Returns an answer without a message or a word.
    fn plain(form: Form) -> AnswerRef<'a>
        ensures { result ≡ answer_of form 0 0 [] }
    {
        AnswerRef {
            form,
            word: 0,
            label: 0,
            words: &[],
        }
    }

    /// Returns the result before the first entry: every test is false, and every value 0.
    pub fn nothing() -> AnswerRef<'a>
        ensures { result ≡ answer.Waits }
    {
        AnswerRef::plain(Form::Waits)
    }

    /// Returns that the entry is done.
    pub fn done() -> AnswerRef<'a>
        ensures { result ≡ answer.Done }
    {
        AnswerRef::plain(Form::Done)
    }

    /// Returns that a word was heard.
    pub fn heard(word: u64) -> AnswerRef<'a>
        ensures { result ≡ answer.Heard word }
    {
        AnswerRef {
            form: Form::Heard,
            word,
            label: 0,
            words: &[],
        }
    }

    /// Returns that a message was received, with this badge, label and words.
    pub fn got(badge: Badge, label: u64, words: &'a [u64]) -> AnswerRef<'a>
        ensures { result ≡ answer.Got badge (record { label = label; words = words.entry.now }) }
    {
        AnswerRef {
            form: Form::Got,
            word: badge.0,
            label,
            words,
        }
    }

    /// Borrows an answer.
    pub fn of(answer: &'a Answer) -> AnswerRef<'a>
        ensures { result ≡ answer.entry.now }
    {
        match answer {
            Answer::Done => AnswerRef::done(),
            Answer::Waits => AnswerRef::nothing(),
            Answer::Got { badge, message } => {
                AnswerRef::got(*badge, message.label(), message.words())
            }
            Answer::Heard { word } => AnswerRef::heard(*word),
            Answer::Empty => AnswerRef::plain(Form::Empty),
            Answer::Refused(refusal) => AnswerRef::plain(Form::Refused(*refusal)),
        }
    }

    /// Borrows the same answer once more.
    pub fn again(&self) -> AnswerRef<'a>
        ensures { result ≡ self.now }
    {
        AnswerRef {
            form: self.form,
            word: self.word,
            label: self.label,
            words: self.words,
        }
    }

    /// Returns the badge of the message, or the word that was heard; 0 without either.
    pub fn badge(&self) -> u64
        ensures { result ≡ answer_badge self.now }
    {
        match self.form {
            Form::Got | Form::Heard => self.word,
            Form::Done | Form::Waits | Form::Empty | Form::Refused(_) => 0,
        }
    }

    /// The label of the message; 0 if there is none.
    pub fn label(&self) -> u64
        ensures { result ≡ answer_label self.now }
    {
        match self.form {
            Form::Got => self.label,
            Form::Done | Form::Waits | Form::Heard | Form::Empty | Form::Refused(_) => 0,
        }
    }

    /// A word of the message, by its number from 0; 0 if it has no such word.
    pub fn word(&self, number: u8) -> u64
        ensures { result ≡ answer_word self.now number }
    {
        match self.form {
            Form::Got => match self.words.get(number as usize) {
                Some(word) => *word,
                None => 0,
            },
            Form::Done | Form::Waits | Form::Heard | Form::Empty | Form::Refused(_) => 0,
        }
    }

    /// The number of the refusal; 0 if nothing was refused.
    pub fn refused_by(&self) -> u8
        ensures { result ≡ refused_by self.now }
    {
        match self.form {
            Form::Refused(refusal) => refusal.number(),
            Form::Done | Form::Waits | Form::Got | Form::Heard | Form::Empty => 0,
        }
    }

    /// Returns whether a message came.
    pub fn is_got(&self) -> bool
        ensures { result ≡ is_got self.now }
    {
        matches!(self.form, Form::Got)
    }

    /// Returns whether a word was heard.
    pub fn is_heard(&self) -> bool
        ensures { result ≡ is_heard self.now }
    {
        matches!(self.form, Form::Heard)
    }

    /// Returns whether there was nothing to receive.
    pub fn is_empty(&self) -> bool
        ensures { result ≡ is_empty self.now }
    {
        matches!(self.form, Form::Empty)
    }

    /// Returns whether the entry is done.
    pub fn is_done(&self) -> bool
        ensures { result ≡ is_done self.now }
    {
        matches!(self.form, Form::Done)
    }
}
