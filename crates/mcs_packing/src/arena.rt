//! The words of messages, each once, and the records that fit no packed form.
ghost use Rattle.std.specs.Prelude.{ℕ, ◌≡◌, ◌<◌, ◌≤◌, ◌+◌, ◌-◌, ◌^◌, [], ◌∷◌, ◌++◌, IsTrue, IfOk, IfSome, IfNone, length, vec_len, vec_capacity};
ghost use Rattle.mcs_packing.specs.Addresses.{GrewWords};
ghost use Rattle.mcs_packing.specs.Packing.{FitsIn, Grew, GrewHead, GrowsBy, HasBadgeAt, HasMessageRoom, HasRoom, HoldsAt, IsBadgedAt, IsMessageAt, IsPairAt, content_at, record_in, serial_behind, word_at};

use crate::packed::Packed;
use mcs_types::{Badge, INLINE_WORDS, Message, OutOfMemory, Rec, copy_rows, emptied};
use std::alloc::Global;

/// The words that packed records, entries and answers refer to by position, and the records that
/// fit no packed form. A message is stored as its label and its words, and a badge after them if it
/// has one; a large address is stored alone. Both lists only grow. `spare` is how many words beyond
/// six each the long messages of records may still take.
#[derive(Drop)]
pub struct Arena {
    pub words: Vec<u64>,
    pub wide: Vec<Rec>,
    pub spare: usize,
}

/// Clones the records, with this capacity, in the memory of spare ones.
fn copy_records(
    alloc: Global,
    spare: Vec<Rec>,
    records: &[Rec],
    room: usize,
) -> Result<Vec<Rec>, OutOfMemory>
    requires { length records.now ≤ room }
    ensures items { IfOk result (λ v. v.items ≡ records.now) }
    ensures len { IfOk result (λ v. vec_len v ≡ length records.now) }
    ensures capacity { IfOk result (λ v. room ≤ vec_capacity v) }
{
    let mut copy = emptied(spare, room)?;
    for fact in records {
        copy.push_reserved(fact.copy(alloc)?);
    }
    Ok(copy)
}

/// Returns how many words a message has.
pub fn length_of(message: &Message) -> u8
    ensures { result ≡ length message.now.words }
{
    message.is_in_range();
    message.words().len() as u8
}

/// Returns the message of this many words at a position. At most four words allocate nothing.
pub fn message_at(alloc: Global, words: &[u64], at: u32, len: u8) -> Result<Message, OutOfMemory>
    requires { IsMessageAt words.now at len }
    ensures { IfOk result (λ m. m ≡ content_at words.now at len) }
{
    let start = at as usize + 1;
    let end = start + len as usize;
    match Message::new(alloc, words[at as usize], &words[start..end])? {
        Some(message) => Ok(message),
        None => unreachable!(),
    }
}

/// Returns whether this message is at a position.
#[inline(always)]
fn is_at(words: &[u64], at: u32, message: &Message) -> bool
    ensures there { IsTrue result → IsMessageAt words.now at (length message.now.words) }
    ensures value { IsTrue result → HoldsAt words.now at message.now }
{
    message.is_in_range();
    let place = at as usize;
    let end = place + 1 + message.words().len();
    end <= words.len()
        && words[place] == message.label()
        && &words[place + 1..end] == message.words()
}

/// Returns whether this badge follows the message at a position.
fn is_badge_at(words: &[u64], at: u32, message: &Message, badge: Badge) -> bool
    requires { IsMessageAt words.now at (length message.now.words) }
    ensures there { IsTrue result → IsBadgedAt words.now at (length message.now.words) }
    ensures value { IsTrue result → HasBadgeAt words.now at message.now badge.0 }
{
    let end = at as usize + 1 + message.words().len();
    end < words.len() && words[end] == badge.0
}

/// Returns how many words a message has in memory of its own.
fn long_words(message: &Message) -> usize
    ensures { result ≡ length message.now.words - INLINE_WORDS }
{
    message.words().len().saturating_sub(INLINE_WORDS)
}

/// Adds a word; there must be room.
fn push_word(words: &mut Vec<u64>, word: u64)
    requires { vec_len words.old < vec_capacity words.old }
    ensures items { words.new.items ≡ words.old.items ++ word ∷ [] }
    ensures capacity { vec_capacity words.old ≤ vec_capacity words.new }
    ensures len { vec_len words.new ≡ vec_len words.old + 1 }
{
    words.push_reserved(word);
}

/// Adds words; there must be room.
fn push_words(words: &mut Vec<u64>, more: &[u64])
    requires { vec_len words.old + length more.now ≤ vec_capacity words.old }
    ensures items { words.new.items ≡ words.old.items ++ more.now }
    ensures capacity { vec_capacity words.old ≤ vec_capacity words.new }
    ensures len { vec_len words.new ≡ vec_len words.old + length more.now }
{
    // a message has few words: a call of a general copy costs more
    for word in more {
        words.push_reserved(*word);
    }
}

/// Stores a message, and returns its position; there must be room.
fn keep_message(words: &mut Vec<u64>, message: &Message) -> u32
    requires room { vec_len words.old + length message.now.words + 1 ≤ vec_capacity words.old }
    requires named { vec_len words.old < 2 ^ 32 }
    ensures value { HoldsAt words.new.items result message.now }
    ensures fits { IsMessageAt words.new.items result (length message.now.words) }
    ensures last { result + 1 + length message.now.words ≡ length words.new.items }
    ensures grew { GrowsBy words.old.items words.new.items }
    ensures len { vec_len words.new ≡ vec_len words.old + length message.now.words + 1 }
    ensures capacity { vec_capacity words.old ≤ vec_capacity words.new }
{
    message.is_in_range();
    let at = words.len() as u32;
    push_word(words, message.label());
    push_words(words, message.words());
    at
}

/// Stores a message and a badge after it, and returns their position; there must be room.
fn keep_badged(words: &mut Vec<u64>, message: &Message, badge: Badge) -> u32
    requires room { vec_len words.old + length message.now.words + 2 ≤ vec_capacity words.old }
    requires named { vec_len words.old < 2 ^ 32 }
    ensures value { HoldsAt words.new.items result message.now }
    ensures badge { HasBadgeAt words.new.items result message.now badge.0 }
    ensures fits { IsBadgedAt words.new.items result (length message.now.words) }
    ensures grew { GrowsBy words.old.items words.new.items }
    ensures len { vec_len words.new ≡ vec_len words.old + length message.now.words + 2 }
    ensures capacity { vec_capacity words.old ≤ vec_capacity words.new }
{
    let at = keep_message(words, message);
    push_word(words, badge.0);
    at
}

/// Stores a word, and returns its position; there must be room.
pub(crate) fn keep_one(words: &mut Vec<u64>, word: u64) -> u32
    requires room { vec_len words.old < vec_capacity words.old }
    requires named { vec_len words.old < 2 ^ 32 }
    ensures value { word_at words.new.items result ≡ word }
    ensures last { result + 1 ≡ length words.new.items }
    ensures grew { GrowsBy words.old.items words.new.items }
    ensures len { vec_len words.new ≡ vec_len words.old + 1 }
    ensures capacity { vec_capacity words.old ≤ vec_capacity words.new }
{
    let at = words.len() as u32;
    push_word(words, word);
    at
}

/// Stores a word and an object's serial after it, and returns their position; there must be room.
fn keep_two(words: &mut Vec<u64>, word: u64, serial: u32) -> u32
    requires room { vec_len words.old + 2 ≤ vec_capacity words.old }
    requires named { vec_len words.old < 2 ^ 32 }
    ensures value { word_at words.new.items result ≡ word }
    ensures serial { serial_behind words.new.items result ≡ serial }
    ensures there { result + 1 < length words.new.items }
    ensures grew { GrowsBy words.old.items words.new.items }
    ensures len { vec_len words.new ≡ vec_len words.old + 2 }
    ensures capacity { vec_capacity words.old ≤ vec_capacity words.new }
{
    let at = keep_one(words, word);
    push_word(words, serial as u64);
    at
}

impl Arena {
    /// Clones the words and records, with as much capacity, in the memory of a spare one.
    /// `OutOfMemory` if an allocation fails.
    pub fn copy(&self, alloc: Global, spare: Option<Arena>) -> Result<Arena, OutOfMemory>
        ensures words { IfOk result (λ a. a.words.items ≡ self.now.words.items) }
        ensures wide { IfOk result (λ a. a.wide.items ≡ self.now.wide.items) }
        ensures room { IfOk result (λ a. (n : ℕ) → HasRoom self.now n → HasRoom a n) }
        ensures word_room { IfOk result (λ a. vec_capacity self.now.words ≤ vec_capacity a.words) }
        ensures wide_room { IfOk result (λ a. vec_capacity self.now.wide ≤ vec_capacity a.wide) }
    {
        let (words, wide) = match spare {
            Some(Arena { words, wide, .. }) => (words, wide),
            None => (Vec::new(alloc), Vec::new(alloc)),
        };
        Ok(Arena {
            words: copy_rows(words, &self.words, self.words.capacity())?,
            wide: copy_records(alloc, wide, &self.wide, self.wide.capacity())?,
            spare: self.spare,
        })
    }

    /// Stores the message of a record, and returns its position. Returns None, and changes nothing,
    /// if the message is long and the spare words are used up.
    pub(crate) fn keep(&mut self, message: &Message) -> Option<u32>
        requires { HasRoom self.old 1 }
        ensures value { IfSome result (λ at. HoldsAt self.new.words.items at message.now) }
        ensures fits { IfSome result
            (λ at. IsMessageAt self.new.words.items at (length message.now.words)) }
        ensures grew { Grew self.old self.new }
        ensures none { IfNone result (self.new ≡ self.old) }
    {
        self.spare = self.spare.checked_sub(long_words(message))?;
        message.is_in_range();
        Some(keep_message(&mut self.words, message))
    }

    /// Stores the message of a record and a badge after it, as `keep` does.
    pub(crate) fn keep_with_badge(&mut self, message: &Message, badge: Badge) -> Option<u32>
        requires { HasRoom self.old 1 }
        ensures value { IfSome result (λ at. HoldsAt self.new.words.items at message.now) }
        ensures badge { IfSome result
            (λ at. HasBadgeAt self.new.words.items at message.now badge.0) }
        ensures fits { IfSome result
            (λ at. IsBadgedAt self.new.words.items at (length message.now.words)) }
        ensures grew { Grew self.old self.new }
        ensures none { IfNone result (self.new ≡ self.old) }
    {
        self.spare = self.spare.checked_sub(long_words(message))?;
        message.is_in_range();
        Some(keep_badged(&mut self.words, message, badge))
    }

    /// Stores the message of an answer and a badge after it, and returns their position: `place`,
    /// if they are there already.
    pub(crate) fn share(&mut self, message: &Message, badge: Badge, place: u32) -> u32
        requires { HasMessageRoom self.old 1 }
        ensures value { HoldsAt self.new.words.items result message.now }
        ensures badge { HasBadgeAt self.new.words.items result message.now badge.0 }
        ensures fits { IsBadgedAt self.new.words.items result (length message.now.words) }
        ensures grew { GrewHead self.old self.new }
        ensures few { GrewWords 122 self.old self.new }
    {
        if is_at(&self.words, place, message) && is_badge_at(&self.words, place, message, badge) {
            place
        } else {
            message.is_in_range();
            keep_badged(&mut self.words, message, badge)
        }
    }

    /// Stores the message of an entry, and returns its position: `place`, if it is there already.
    #[inline(always)]
    pub(crate) fn share_plain(&mut self, message: &Message, place: u32) -> u32
        requires { HasMessageRoom self.old 1 }
        ensures value { HoldsAt self.new.words.items result message.now }
        ensures fits { IsMessageAt self.new.words.items result (length message.now.words) }
        ensures grew { GrewWords 121 self.old self.new }
    {
        if is_at(&self.words, place, message) {
            place
        } else {
            message.is_in_range();
            keep_message(&mut self.words, message)
        }
    }

    /// Stores the word of a record, and returns its position.
    pub(crate) fn keep_word(&mut self, word: u64) -> u32
        requires { HasRoom self.old 1 }
        ensures value { word_at self.new.words.items result ≡ word }
        ensures there { result < length self.new.words.items }
        ensures grew { Grew self.old self.new }
    {
        keep_one(&mut self.words, word)
    }

    /// Stores the word of a record and an object's serial after it, and returns their position.
    pub(crate) fn keep_pair(&mut self, word: u64, serial: u32) -> u32
        requires { HasRoom self.old 1 }
        ensures value { word_at self.new.words.items result ≡ word }
        ensures serial { serial_behind self.new.words.items result ≡ serial }
        ensures fits { IsPairAt self.new.words.items result }
        ensures grew { Grew self.old self.new }
    {
        keep_two(&mut self.words, word, serial)
    }

    /// Stores the word of an entry or an answer, and returns its position: `place`, if it is there
    /// already.
    pub(crate) fn share_word(&mut self, word: u64, place: u32) -> u32
        requires { HasMessageRoom self.old 1 }
        ensures value { word_at self.new.words.items result ≡ word }
        ensures there { result < length self.new.words.items }
        ensures grew { GrewHead self.old self.new }
        ensures few { GrewWords 1 self.old self.new }
    {
        if (place as usize) < self.words.len() && self.words[place as usize] == word {
            place
        } else {
            keep_one(&mut self.words, word)
        }
    }

    /// Stores a record unpacked.
    pub(crate) fn keep_wide(&mut self, fact: Rec) -> Packed
        requires { HasRoom self.old 1 }
        ensures value { record_in result self.new ≡ fact }
        ensures fits { FitsIn result self.new }
        ensures grew { Grew self.old self.new }
    {
        let at = self.wide.len() as u32;
        self.wide.push_reserved(fact);
        Packed::Wide { at }
    }
}
