//! The words of a line of a plan.
ghost use Rattle.std.specs.Prelude.{◌≡◌, ◌≤◌, ◌∷◌, [], true, IfOk, IfErr, OnOk, OnSome, IfSome, IfNone, option_map, slice_get, slice_index, ◌==◌, length};
ghost use Rattle.std.specs.List.{list_all};
ghost use Rattle.mcs_plan_source.specs.Cutting.{is_white, words_of, code_len, code_of, comment_of};
ghost use Rattle.mcs_plan_source.specs.Naming.{is_letter, is_digit, is_kind_letter, is_like_id, is_name_byte, is_name_text, is_name, begins_with_digit, texts};
ghost use Rattle.mcs_plan_source.specs.Numbers.{number_in, number_of, ReadsNumber, TellsNoNumber};
ghost use Rattle.mcs_plan_source.specs.Telling.{TellsNot, TellsMissing, TellsTooMany, TellsOther, TakesNumber};

use crate::fault::PlanError;
use std::alloc::{AllocError, Global};
use std::marker::Model;

/// The words of a line, and how many of them were taken.
#[derive(Drop)]
pub struct Tokens<'a> {
    words: &'a [&'a str],
    taken: usize,
}

/// The word of a number, from 0.
fn word_at<'a>(words: &'a [&'a str], index: usize) -> Option<&'a str>
    ensures { result ≡ slice_get words.now index }
{
    words.get(index).copied()
}

impl<'a> Model for Tokens<'a> {
    ghost use Rattle.std.specs.Prelude.{ℕ, List, drop};
    ghost use Rattle.mcs_plan_source.specs.Naming.{texts};

    ghost Value = { List (List ℕ) };

    ghost view = { λ w. drop w.taken (texts w.words.now) };
}

impl<'a> Tokens<'a> {
    /// Returns a cursor before the first word.
    pub fn new(words: &'a [&'a str]) -> Tokens<'a>
        ensures { result ≡ texts words.now }
    {
        Tokens { words, taken: 0 }
    }

    /// Takes a word.
    pub fn next(&mut self) -> Option<&'a str>
        ensures word { IfSome result (λ w. self.old ≡ w.now ∷ self.new) }
        ensures none { IfNone result ((self.old ≡ []) × (self.new ≡ [])) }
    {
        match self.words.get(self.taken) {
            Some(word) => {
                self.taken += 1;
                Some(*word)
            }
            None => None,
        }
    }

    /// Returns the next word without taking it.
    pub fn peek(&self) -> Option<&'a str>
        ensures { option_map (λ w. w.now) result ≡ slice_get self.now 0 }
    {
        word_at(self.words, self.taken)
    }

    /// Returns how many words are left.
    #[tactic(auto, using(crate::proofs::Entries::words_left))]
    pub fn len(&self) -> usize
        ensures { result ≡ length self.now }
    {
        self.words.len().saturating_sub(self.taken)
    }

    /// Takes a word. `Missing` if none is left.
    pub fn need(&mut self, wanted: &'static str) -> Result<&'a str, PlanError>
        ensures word { IfOk result (λ w. self.old ≡ w.now ∷ self.new) }
        ensures error { IfErr result (TellsMissing self.old) }
    {
        match self.next() {
            Some(word) => Ok(word),
            None => Err(PlanError::Missing { wanted }),
        }
    }

    /// Takes this word. `Missing` if none is left, `Not` for another word.
    pub fn expect(&mut self, alloc: Global, wanted: &'static str) -> Result<(), PlanError>
        ensures ok { OnOk result (self.old ≡ wanted.now ∷ self.new) }
        ensures error { IfErr result (TellsOther wanted.now self.old) }
    {
        let word = self.need(wanted)?;
        if word == wanted {
            Ok(())
        } else {
            Err(not(alloc, word, wanted))
        }
    }

    /// Fails with `TooMany` if a word is left.
    pub fn end(&mut self, alloc: Global) -> Result<(), PlanError>
        ensures ok { OnOk result (self.old ≡ []) }
        ensures error { IfErr result (TellsTooMany self.old) }
    {
        match self.next() {
            None => Ok(()),
            Some(word) => Err(PlanError::TooMany {
                word: String::from_str(alloc, word)?,
            }),
        }
    }

    /// Takes a number, in decimal or hexadecimal. `Missing` if no word is left, `Not` if it is no
    /// number or above the limit.
    #[tactic(auto, using(crate::proofs::Entries::takes_number, crate::proofs::Spelled::reads_number, crate::proofs::Spelled::too_large, crate::proofs::Spelled::no_number))]
    pub fn number(
        &mut self,
        alloc: Global,
        wanted: &'static str,
        limit: u64,
    ) -> Result<u64, PlanError>
        ensures taken { OnOk result (TakesNumber self.old self.new) }
        ensures within { IfOk result (λ n. n ≤ limit) }
        ensures value { IfOk result (λ n. ReadsNumber limit self.old n self.new) }
        ensures error { IfErr result (TellsNoNumber limit self.old) }
    {
        let word = self.need(wanted)?;
        if let Some(n) = number(word) {
            if n <= limit {
                return Ok(n);
            }
        }
        Err(not(alloc, word, wanted))
    }
}

/// Returns the fault for a word that is not what is wanted; OutOfMemory if the word could not be
/// copied.
pub fn not(alloc: Global, word: &str, wanted: &'static str) -> PlanError
    ensures { TellsNot word.now result }
{
    match String::from_str(alloc, word) {
        Ok(word) => PlanError::Not { word, wanted },
        Err(AllocError) => PlanError::OutOfMemory,
    }
}

/// Returns the words of a line, which spaces and tabs separate.
pub fn split_words<'a>(alloc: Global, line: &'a str) -> Result<Vec<&'a str>, AllocError>
    ensures { IfOk result (λ words. texts words.items ≡ words_of line.now) }
{
    line.split([' ', '\t'])
        .filter(|part| !part.is_empty())
        .collect(alloc)
}

/// Returns whether a byte is a space or a tab.
pub fn is_white(byte: u8) -> bool
    ensures { result ≡ is_white byte }
{
    byte == 32 || byte == 9
}

/// Returns how many bytes of a line are before its comment; all if it has none.
fn code_len(line: &[u8]) -> usize
    ensures { result ≡ code_len true line.now }
{
    let mut begins = true;
    for (place, byte) in line.iter().enumerate() {
        if begins && *byte == b'#' {
            return place;
        }
        begins = is_white(*byte);
    }
    line.len()
}

/// A line without its comment, and the comment. A comment begins with `#`, at the line's beginning
/// or after a space or a tab.
pub fn split_comment<'a>(line: &'a str) -> (&'a str, Option<&'a str>)
    ensures code { result.0.now ≡ code_of line.now }
    ensures comment { option_map (λ c. c.now) result.1 ≡ comment_of line.now }
{
    let (code, rest) = line.split_at(code_len(line.as_bytes()));
    (code, rest.strip_prefix('#'))
}

/// Returns whether a word begins with a digit.
fn begins_with_digit(word: &str) -> bool
    ensures { result ≡ begins_with_digit word.now }
{
    match word.as_bytes() {
        [] => false,
        [first, ..] => 48 <= *first && *first <= 57,
    }
}

/// Returns whether a word begins with a plus, which other parsers allow before digits.
fn begins_with_plus(word: &str) -> bool
    ensures { result ≡ (slice_index word.now 0 == 43) }
{
    match word.as_bytes() {
        [] => false,
        [first, ..] => *first == 43,
    }
}

/// Returns the number that digits of this base spell. None if they are no digits of it, or spell
/// 2^64 or more.
#[tactic(auto, using(crate::proofs::Spelled::parsed, crate::proofs::Spelled::signed))]
fn number_in(radix: u32, digits: &str) -> Option<u64>
    requires lower { 2 ≤ radix }
    requires upper { radix ≤ 36 }
    ensures { result ≡ number_in radix digits.now }
{
    if begins_with_plus(digits) {
        return None;
    }
    u64::from_str_radix(digits, radix).ok()
}

/// Returns the 64-bit number that a word spells: decimal, or hexadecimal after `0x`. None if it
/// spells none.
#[tactic(auto, using(crate::proofs::Spelled::hexadecimal, crate::proofs::Spelled::not_hexadecimal))]
pub fn number(word: &str) -> Option<u64>
    ensures digit { OnSome result (begins_with_digit word.now ≡ true) }
    ensures value { result ≡ number_of word.now }
{
    if !begins_with_digit(word) {
        return None;
    }
    match word.strip_prefix("0x") {
        None => number_in(10, word),
        Some(digits) => number_in(16, digits),
    }
}

/// Returns whether a byte is a letter.
fn is_letter(byte: u8) -> bool
    ensures { result ≡ is_letter byte }
{
    (65 <= byte && byte <= 90) || (97 <= byte && byte <= 122)
}

/// Returns whether a byte is a digit.
fn is_digit(byte: u8) -> bool
    ensures { result ≡ is_digit byte }
{
    48 <= byte && byte <= 57
}

/// Returns whether a byte may be in a name.
fn is_name_byte(byte: u8) -> bool
    ensures { result ≡ is_name_byte byte }
{
    is_letter(byte) || is_digit(byte) || byte == 45 || byte == 46 || byte == 95
}

/// Returns whether all bytes may be in a name.
fn are_name_bytes(bytes: &[u8]) -> bool
    ensures { result ≡ list_all is_name_byte bytes.now }
{
    for byte in bytes {
        if !is_name_byte(*byte) {
            return false;
        }
    }
    true
}

/// Returns whether all bytes are digits.
fn are_digits(bytes: &[u8]) -> bool
    ensures { result ≡ list_all is_digit bytes.now }
{
    for byte in bytes {
        if !is_digit(*byte) {
            return false;
        }
    }
    true
}

/// Returns whether a byte is the letter of a kind of objects.
fn is_kind_letter(byte: u8) -> bool
    ensures { result ≡ is_kind_letter byte }
{
    byte == 99 || byte == 101 || byte == 110 || byte == 114 || byte == 115 || byte == 116
}

/// Returns whether a word has the shape of an object's id, as `t1`: the letter of a kind, and
/// digits.
pub fn is_like_id(word: &[u8]) -> bool
    ensures { result ≡ is_like_id word.now }
{
    match word {
        [letter, first, rest @ ..] => {
            is_kind_letter(*letter) && is_digit(*first) && are_digits(rest)
        }
        _ => false,
    }
}

/// Returns whether a word begins with a letter, and has letters, digits, `-`, `_` and `.`.
fn is_name_text(word: &[u8]) -> bool
    ensures { result ≡ is_name_text word.now }
{
    match word {
        [] => false,
        [first, rest @ ..] => is_letter(*first) && are_name_bytes(rest),
    }
}

/// Returns whether a word may be a name: it begins with a letter, has letters, digits, `-`, `_` and
/// `.`, and does not look like an id.
pub fn is_name(word: &str) -> bool
    ensures { result ≡ is_name word.now }
{
    is_name_text(word.as_bytes()) && !is_like_id(word.as_bytes())
}
