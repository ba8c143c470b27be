//! The words of a question.
ghost use Rattle.std.specs.Prelude.{◌≡◌, ◌<◌, ◌≤◌, ◌∷◌, [], length, Some, IfOk, IfErr, OnOk, OnErr, IfSome, IfNone, option_copied, option_map, slice_get, ◌++◌};
ghost use Rattle.mcs_text.specs.Reading.{words_of};
ghost use Rattle.mcs_explore_questions.specs.Questions.{ink_len, trimmed};
ghost use Rattle.mcs_explore_questions.specs.Reading.{Refuses, after_word, end_of, has_words, texts, word_then};

use crate::fault::QuestionFault;
use mcs_explore_programs::Word;
use mcs_text::Words;
use std::alloc::{AllocError, Global};
use std::marker::Model;

/// The remaining words of a question.
#[derive(Drop)]
pub(crate) struct Reader<'a> {
    words: &'a [&'a [u8]],
}

impl<'a> Model for Reader<'a> {
    ghost use Rattle.std.specs.Prelude.{ℕ, List};
    ghost use Rattle.mcs_explore_questions.specs.Reading.{texts};

    ghost Value = { List (List ℕ) };

    ghost view = { λ r. texts r.words.now };
}

impl<'a> Reader<'a> {
    /// Returns a reader of all words.
    pub(crate) fn new(words: &'a [&'a [u8]]) -> Reader<'a>
        ensures { result ≡ texts words.now }
    {
        Reader { words }
    }

    /// Takes a word.
    pub(crate) fn next(&mut self) -> Option<&'a [u8]>
        ensures word { IfSome result (λ w. self.old ≡ w.now ∷ self.new) }
        ensures none { IfNone result ((self.old ≡ []) × (self.new ≡ [])) }
    {
        match self.words {
            [word, rest @ ..] => {
                self.words = rest;
                Some(*word)
            }
            [] => None,
        }
    }

    /// Returns whether a word is left.
    pub(crate) fn has_more(&self) -> bool
        ensures { result ≡ has_words self.now }
    {
        !self.words.is_empty()
    }

    /// The words that are left.
    pub(crate) fn left(&self) -> &'a [&'a [u8]]
        ensures { texts result.now ≡ self.now }
    {
        self.words
    }

    /// Takes a word. `Missing` if none is left.
    pub(crate) fn need(&mut self, wanted: &'static str) -> Result<&'a [u8], QuestionFault>
        ensures word { IfOk result (λ w. word_then self.old ≡ Some (w.now, self.new)) }
        ensures error { IfErr result (Refuses (word_then self.old)) }
        ensures shorter { OnOk result (length self.new < length self.old) }
    {
        match self.next() {
            Some(word) => Ok(word),
            None => Err(QuestionFault::Missing { wanted }),
        }
    }

    /// Takes this word. `Missing` if none is left, Other for another.
    pub(crate) fn expect(
        &mut self,
        alloc: Global,
        wanted: &'static str,
    ) -> Result<(), QuestionFault>
        ensures ok { OnOk result (after_word wanted.now self.old ≡ Some self.new) }
        ensures error { IfErr result (Refuses (after_word wanted.now self.old)) }
        ensures shorter { OnOk result (length self.new < length self.old) }
    {
        let word = self.need(wanted)?;
        if word == wanted.as_bytes() {
            return Ok(());
        }
        Err(QuestionFault::Other {
            word: Word::new(alloc, word)?,
            wanted,
        })
    }

    /// Fails with `TooMany` if a word is left.
    pub(crate) fn end(&mut self, alloc: Global) -> Result<(), QuestionFault>
        ensures ok { OnOk result (end_of self.old ≡ Some tt) }
        ensures error { IfErr result (Refuses (end_of self.old)) }
    {
        match self.next() {
            None => Ok(()),
            Some(word) => Err(QuestionFault::TooMany {
                word: Word::new(alloc, word)?,
            }),
        }
    }
}

/// Adds a word to others.
fn push_word<'a>(all: &mut Vec<&'a [u8]>, word: &'a [u8]) -> Result<(), AllocError>
    ensures { OnOk result (texts all.new.items ≡ texts all.old.items ++ word.entry.now ∷ []) }
{
    all.push(word)?;
    Ok(())
}

/// The words of a text.
pub(crate) fn words_of<'a>(alloc: Global, text: &'a [u8]) -> Result<Vec<&'a [u8]>, AllocError>
    ensures { IfOk result (λ words. texts words.items ≡ words_of text.entry.now) }
{
    let mut all = Vec::new(alloc);
    let mut words = Words::new(text);
    while let Some(word) = words.next_word() {
        push_word(&mut all, word)?;
    }
    Ok(all)
}

/// Returns how many bytes are before the blanks at the end of a text.
fn ink_len(text: &[u8]) -> usize
    ensures is { result ≡ ink_len 0 0 text.now }
    ensures within { result ≤ length text.now }
{
    let mut kept = 0;
    for (place, byte) in text.iter().enumerate() {
        if *byte != b' ' && *byte != b'\t' {
            kept = place + 1;
        }
    }
    kept
}

/// A text without the blanks at its end.
pub(crate) fn trimmed(text: &[u8]) -> &[u8]
    ensures { result.now ≡ trimmed text.entry.now }
{
    &text[..ink_len(text)]
}
