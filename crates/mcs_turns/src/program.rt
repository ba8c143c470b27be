//! What a user does between its entries: a program continues with the result of the last one (own).
ghost use Rattle.std.specs.Prelude.{◌≡◌, ◌<◌, ◌+◌, ◌^◌, length, position, slice_get, IfOk};
ghost use Rattle.mcs_types.specs.Limits.{label_bits};
ghost use Rattle.mcs_turns.specs.Programs.{filled, filled_label, filled_message, filled_words, gives, goes_on, holds, nothing_saved, op_given, op_next, op_saved, read, saved_in, settled, starts, with_saved, label_by, words_by};

use crate::answer_ref::AnswerRef;
use mcs_types::{Entry, LABEL_BITS, Message, OutOfMemory};
use std::alloc::Global;

/// The names of the four words that a user keeps.
#[derive(Clone, Copy, Drop)]
pub enum Slot {
    A,
    B,
    C,
    D,
}

/// The words that a user keeps.
#[derive(Clone, Copy, Drop)]
pub struct Saved {
    pub a: u64,
    pub b: u64,
    pub c: u64,
    pub d: u64,
}

/// A number: a constant, a part of the last result (0 if it has none), or a kept word.
#[derive(Clone, Copy, Drop)]
pub enum Source {
    Number(u64),
    Badge,
    Label,
    Word(u8),
    Saved(Slot),
}

/// A test of the last result.
#[derive(Clone, Copy, Drop)]
pub enum Test {
    Got,
    Heard,
    Empty,
    Done,
    Refused,
    RefusedBy(u8),
    Is(Source, Source),
    IsLess(Source, Source),
    Has(Source, Source),
}

/// A line of a program. Execution stops at a line that gives an entry, and continues after it with
/// the entry's result.
#[derive(Clone, Copy, Drop)]
pub enum Op {
    /// Gives the entry with this number.
    Give(usize),
    /// Jumps to this line if the test fails.
    Unless(Test, usize),
    /// Jumps to this line.
    Jump(usize),
    /// Sets a kept word.
    Keep(Slot, Source),
    /// Adds a number to a kept word, modulo 2^64.
    Add(Slot, u64),
}

/// A part of an entry's message that is filled from a kept word: its label, or one of its words.
#[derive(Clone, Copy, Drop)]
pub struct Fill {
    pub number: usize,
    pub word: Option<u8>,
    pub from: Slot,
}

/// Which entry a program gives next, if any, and the words kept then.
#[derive(Clone, Copy, Drop)]
pub struct Settled {
    pub number: Option<usize>,
    pub saved: Saved,
}

impl Saved {
    /// Returns words that are all 0.
    pub fn none() -> Saved
        ensures { result ≡ nothing_saved }
    {
        Saved {
            a: 0,
            b: 0,
            c: 0,
            d: 0,
        }
    }

    /// Returns a kept word.
    pub fn at(self, slot: Slot) -> u64
        ensures { result ≡ saved_in self slot }
    {
        match slot {
            Slot::A => self.a,
            Slot::B => self.b,
            Slot::C => self.c,
            Slot::D => self.d,
        }
    }

    /// Returns the words with another one in a slot.
    fn with(self, slot: Slot, word: u64) -> Saved
        ensures { result ≡ with_saved self slot word }
    {
        match slot {
            Slot::A => Saved { a: word, ..self },
            Slot::B => Saved { b: word, ..self },
            Slot::C => Saved { c: word, ..self },
            Slot::D => Saved { d: word, ..self },
        }
    }
}

/// Returns the value of a source.
fn read(last: &AnswerRef<'_>, saved: Saved, source: Source) -> u64
    ensures { result ≡ read last.now saved source }
{
    match source {
        Source::Number(number) => number,
        Source::Badge => last.badge(),
        Source::Label => last.label(),
        Source::Word(number) => last.word(number),
        Source::Saved(slot) => saved.at(slot),
    }
}

/// Returns whether a test holds.
fn holds(last: &AnswerRef<'_>, saved: Saved, test: Test) -> bool
    ensures { result ≡ holds last.now saved test }
{
    match test {
        Test::Got => last.is_got(),
        Test::Heard => last.is_heard(),
        Test::Empty => last.is_empty(),
        Test::Done => last.is_done(),
        Test::Refused => 0 < last.refused_by(),
        Test::RefusedBy(number) => last.refused_by() == number,
        Test::Is(one, other) => read(last, saved, one) == read(last, saved, other),
        Test::IsLess(one, other) => read(last, saved, one) < read(last, saved, other),
        Test::Has(one, other) => {
            let bits = read(last, saved, other);
            read(last, saved, one) & bits == bits
        }
    }
}

impl Op {
    /// Returns the entry that a line gives.
    fn given(self) -> Option<usize>
        ensures { result ≡ op_given self }
    {
        match self {
            Op::Give(number) => Some(number),
            _ => None,
        }
    }

    /// Returns whether the line gives this entry.
    fn gives(self, number: usize) -> bool
        ensures { result ≡ gives number self }
    {
        match self {
            Op::Give(given) => given == number,
            _ => false,
        }
    }

    /// Returns the kept words after a line.
    fn saved(self, last: &AnswerRef<'_>, saved: Saved) -> Saved
        ensures { result ≡ op_saved last.now saved self }
    {
        match self {
            Op::Keep(slot, from) => saved.with(slot, read(last, saved, from)),
            Op::Add(slot, number) => saved.with(slot, saved.at(slot).wrapping_add(number)),
            _ => saved,
        }
    }

    /// Returns where a program continues after the line at an index.
    fn next(self, last: &AnswerRef<'_>, saved: Saved, at: usize) -> usize
        requires { at + 1 < 2 ^ 64 }
        ensures { result ≡ op_next last.now saved at self }
    {
        match self {
            Op::Unless(test, to) => { if holds(last, saved, test) { at + 1 } else { to } }
            Op::Jump(to) => to,
            _ => at + 1,
        }
    }
}

/// The line in a place, if there is one.
fn op_at(ops: &[Op], place: usize) -> Option<Op>
    ensures { result ≡ slice_get ops.now place }
{
    ops.get(place).copied()
}

/// Returns the entry that a program gives next, from an index on; none if it stops.
fn settle(ops: &[Op], last: &AnswerRef<'_>, saved: Saved, at: usize) -> Settled
    ensures { result ≡ settled (length ops.now) ops.now last.now saved at }
{
    let mut kept = saved;
    let mut place = at;
    for done in 0..ops.len() {
        let Some(op) = op_at(ops, place) else {
            return Settled {
                number: None,
                saved: kept,
            };
        };
        if let Some(number) = op.given() {
            return Settled {
                number: Some(number),
                saved: kept,
            };
        }
        let next = op.next(last, kept, place);
        kept = op.saved(last, kept);
        place = next;
    }
    Settled {
        number: None,
        saved: kept,
    }
}

/// Returns the index of the line that gives an entry.
fn place_of(ops: &[Op], number: usize) -> Option<usize>
    ensures { result ≡ position (gives number) ops.now }
{
    ops.iter().position(|op| op.gives(number))
}

/// Returns the entry that a program gives next after this result of an entry; None if it has no
/// such entry.
pub fn goes_on(ops: &[Op], number: usize, saved: Saved, last: &AnswerRef<'_>) -> Option<Settled>
    ensures { result ≡ goes_on ops.now number saved last.now }
{
    match place_of(ops, number) {
        Some(place) => Some(settle(ops, last, saved, place + 1)),
        None => None,
    }
}

/// The first entry that a program gives; None if there is no program.
pub fn starts(ops: &[Op]) -> Option<Settled>
    ensures { result ≡ starts ops.now }
{
    if ops.is_empty() {
        return None;
    }
    Some(settle(ops, &AnswerRef::nothing(), Saved::none(), 0))
}

/// Returns a label, or the kept word that fills it.
fn label_by(fill: Fill, number: usize, saved: Saved, label: u64) -> u64
    requires { label < 2 ^ label_bits }
    ensures value { result ≡ label_by fill number saved label }
    ensures range { result < 2 ^ label_bits }
{
    if fill.word.is_none() && fill.number == number {
        saved.at(fill.from) % (1 << LABEL_BITS)
    } else {
        label
    }
}

/// Returns the label of an entry's message, filled from kept words.
fn filled_label(fills: &[Fill], number: usize, saved: Saved, label: u64) -> u64
    requires { label < 2 ^ label_bits }
    ensures value { result ≡ filled_label fills.now number saved label }
    ensures range { result < 2 ^ label_bits }
{
    let mut now = label;
    for fill in fills {
        now = label_by(*fill, number, saved, now);
    }
    now
}

/// Puts a kept word into its place in a message, if this fills a word of the entry and the place
/// exists.
fn put(words: &mut Vec<u64>, fill: Fill, number: usize, saved: Saved)
    ensures { words.new.items ≡ words_by fill number saved words.old.items }
{
    if fill.number != number {
        return;
    }
    let Some(place) = fill.word else {
        return;
    };
    let place = place as usize;
    if place < words.len() {
        words[place] = saved.at(fill.from);
    }
}

/// Fills the words of an entry's message that come from kept words.
fn put_words(fills: &[Fill], number: usize, saved: Saved, words: &mut Vec<u64>)
    ensures { words.new.items ≡ filled_words fills.now number saved words.old.items }
{
    for fill in fills {
        put(words, *fill, number, saved);
    }
}

/// Returns an entry's message, filled from kept words. `OutOfMemory` if an allocation fails.
fn filled_message(
    alloc: Global,
    fills: &[Fill],
    number: usize,
    saved: Saved,
    message: &Message,
) -> Result<Message, OutOfMemory>
    ensures { IfOk result (λ m. m ≡ filled_message fills.now number saved message.now) }
{
    message.is_in_range();
    let mut words = Vec::new(alloc);
    words.extend_from_slice(message.words())?;
    put_words(fills, number, saved, &mut words);
    let label = filled_label(fills, number, saved, message.label());
    match Message::new(alloc, label, &words)? {
        Some(message) => Ok(message),
        None => unreachable!(),
    }
}

/// Returns an entry with its message filled from kept words. `OutOfMemory` if an allocation fails.
pub fn filled(
    alloc: Global,
    fills: &[Fill],
    number: usize,
    saved: Saved,
    entry: Entry,
) -> Result<Entry, OutOfMemory>
    ensures { IfOk result (λ e. e ≡ filled fills.now number saved entry) }
{
    let filled = match entry {
        Entry::Send { cap, message } => Entry::Send {
            cap,
            message: filled_message(alloc, fills, number, saved, &message)?,
        },
        Entry::NbSend { cap, message } => Entry::NbSend {
            cap,
            message: filled_message(alloc, fills, number, saved, &message)?,
        },
        Entry::Call { cap, message } => Entry::Call {
            cap,
            message: filled_message(alloc, fills, number, saved, &message)?,
        },
        Entry::ReplyRecv {
            cap,
            reply,
            message,
        } => Entry::ReplyRecv {
            cap,
            reply,
            message: filled_message(alloc, fills, number, saved, &message)?,
        },
        Entry::NbSendRecv {
            cap,
            source,
            reply,
            message,
        } => Entry::NbSendRecv {
            cap,
            source,
            reply,
            message: filled_message(alloc, fills, number, saved, &message)?,
        },
        Entry::NbSendWait {
            cap,
            source,
            message,
        } => Entry::NbSendWait {
            cap,
            source,
            message: filled_message(alloc, fills, number, saved, &message)?,
        },
        other => other,
    };
    Ok(filled)
}
