//! The book: all lines, kept packed, with their records side by side.
ghost use Rattle.std.specs.Prelude.{ℕ, ◌≡◌, ◌<◌, ◌≤◌, ◌∷◌, ◌++◌, [], ◌+◌, ◌-◌, ◌^◌, take, drop, IsTrue, false, IfOk, OnOk, OnErr, max, reverse, length, slice_get, vec_len, vec_capacity};
ghost use Rattle.mcs_types.specs.declared.record.Rec.{Rec};
ghost use Rattle.mcs_packing.specs.Packing.{AllFit, Grew, HasRoom, records_of};
ghost use Rattle.mcs_packing.specs.Heads.{AllHeadsFit, all_entered};
ghost use Rattle.mcs_book.specs.History.{with_boot_line, with_line, line_of_number};
ghost use Rattle.mcs_book.specs.Pages.{EndsWithin, HasSpace, facts, line_head, lines_of, start_at};

use mcs_packing::{
    Arena, Head, KeptAnswer, KeptRecord, KeptStep, Lent, OverAddress, Packed, PackedAddress,
    PackedAnswer, PackedEntry,
};
use mcs_types::{Answer, Badge, BootLine, ObjId, OutOfMemory, Rec, SendMode, Step, copy_rows};
use std::alloc::Global;
use std::marker::Model;
use std::mem;

/// A line of the book: a thread's entry on a core, its answer and its records. It borrows the book
/// and allocates nothing.
#[derive(Drop)]
pub struct Line<'a> {
    head: &'a Head,
    packed: &'a [Packed],
    words: &'a [u64],
    wide: &'a [Rec],
}

impl<'a> Model for Line<'a> {
    ghost use Rattle.mcs_packing.specs.Packing.{AllFit, records_of};
    ghost use Rattle.mcs_packing.specs.Heads.{HeadFits, entered_of};
    ghost use Rattle.mcs_book.specs.History.{Line};

    ghost Value = { Line };

    ghost view = { λ l. record {
      step = (entered_of l.head.now l.words.now).step;
      answer = (entered_of l.head.now l.words.now).answer;
      records = records_of l.packed.now l.words.now l.wide.now;
    } };

    ghost invariant = { λ l. HeadFits l.head.now l.words.now
        × AllFit l.packed.now l.words.now l.wide.now };
}

impl<'a> Line<'a> {
    /// Returns the thread that entered, its core and the entry, in packed form.
    pub fn kept_step(&self) -> KeptStep<'_>
        ensures { result ≡ self.now.step }
    {
        KeptStep {
            core: self.head.core,
            kind: self.head.kind,
            serial: self.head.serial,
            entry: &self.head.entry,
            words: self.words,
        }
    }

    /// Returns the thread that entered, its core and the entry. A message of at most four words
    /// allocates nothing.
    pub fn step(&self, alloc: Global) -> Result<Step, OutOfMemory>
        ensures { IfOk result (λ s. s ≡ self.now.step) }
    {
        self.kept_step().unpack(alloc)
    }

    /// Returns the answer to the entry, in packed form.
    pub fn kept_answer(&self) -> KeptAnswer<'_>
        ensures { result ≡ self.now.answer }
    {
        KeptAnswer {
            form: self.head.answer,
            at: self.head.answer_at,
            words: self.words,
        }
    }

    /// Returns the answer to the entry. A message of at most four words allocates nothing.
    pub fn answer(&self, alloc: Global) -> Result<Answer, OutOfMemory>
        ensures { IfOk result (λ a. a ≡ self.now.answer) }
    {
        self.kept_answer().unpack(alloc)
    }

    /// Returns how many records the line has.
    pub fn record_count(&self) -> usize
        ensures { result ≡ length self.now.records }
    {
        self.packed.len()
    }

    /// Returns record `i` of the line in packed form, oldest first; None if there is none.
    pub fn kept_record(&self, i: usize) -> Option<KeptRecord<'_>>
        ensures { result ≡ slice_get self.now.records i }
    {
        record_at(self.packed, self.words, self.wide, i)
    }

    /// Returns record `i` of the line, oldest first; None if there is none. A message of at most
    /// four words allocates nothing.
    pub fn record(&self, alloc: Global, i: usize) -> Result<Option<Rec>, OutOfMemory>
        ensures { IfOk result (λ o. o ≡ slice_get self.now.records i) }
    {
        match self.kept_record(i) {
            None => Ok(None),
            Some(kept) => Ok(Some(kept.unpack(alloc)?)),
        }
    }
}

/// Returns record `i` in packed form; None if there is none.
fn record_at<'a>(
    packed: &'a [Packed],
    words: &'a [u64],
    wide: &'a [Rec],
    i: usize,
) -> Option<KeptRecord<'a>>
    requires { AllFit packed.now words.now wide.now }
    ensures { result ≡ slice_get (records_of packed.now words.now wide.now) i }
{
    match packed.get(i) {
        None => None,
        Some(one) => Some(KeptRecord {
            packed: one,
            words,
            wide,
        }),
    }
}

/// The boot, and a line for each accepted entry. All is packed: a head for each line, the records
/// of all lines side by side, and the words that they name. `sent` has the position of each
/// message's words. The packed records from `start` on are those of the open line; `room` is 0, or
/// one more than the records that it may still have. Besides, the lists have capacity for `ahead`
/// records, heads included. Two hints serve the open line's head: its words begin at `first`, and
/// those of its answer may be at `place`.
pub struct Book {
    cores: u8,
    boot: Vec<BootLine>,
    heads: Vec<Head>,
    packed: Vec<Packed>,
    arena: Arena,
    sent: Vec<u32>,
    start: usize,
    room: usize,
    ahead: usize,
    first: usize,
    place: u32,
}

// Written by hand as a separate function: a derived drop would be proved again wherever a book is
// dropped.
impl Drop for Book {
    fn drop(self) {
        let Book {
            cores: _,
            boot: _,
            heads: _,
            packed: _,
            arena: _,
            sent: _,
            start: _,
            room: _,
            ahead: _,
            first: _,
            place: _,
        } = self;
    }
}

impl Model for Book {
    ghost use Rattle.std.specs.Prelude.{reverse, drop, vec_len, vec_capacity, ◌<◌, ◌≤◌, ◌+◌, ◌-◌, ◌^◌};
    ghost use Rattle.mcs_packing.specs.Packing.{AllFit, HasRoom};
    ghost use Rattle.mcs_packing.specs.Heads.{AllHeadsFit, all_entered};
    ghost use Rattle.mcs_book.specs.Pages.{EndsRise, HasSpace, Written, facts, lines_of};

    ghost Value = { Written };

    ghost view = { λ b. record {
      book = record {
        boot = record { cores = b.cores; lines = reverse b.boot.items };
        lines = reverse (lines_of b.heads.items b.packed.items
            b.arena.words.items b.arena.wide.items);
      };
      hand = reverse (drop b.start (facts b.packed.items b.arena));
      boot_room = vec_capacity b.boot - vec_len b.boot;
      room = b.room;
    } };

    ghost invariant = { λ b. AllHeadsFit b.heads.items b.arena.words.items
        × AllFit b.packed.items b.arena.words.items b.arena.wide.items
        × EndsRise 0 (all_entered b.heads.items b.arena.words.items) b.start
        × (b.start ≤ vec_len b.packed)
        × (0 < b.room → HasRoom b.arena (b.room - 1 + b.ahead))
        × (0 < b.room → vec_len b.packed + b.room + b.ahead ≤ vec_capacity b.packed + 1)
        × (0 < b.room → vec_len b.heads + b.ahead < vec_capacity b.heads)
        × (0 < b.room → vec_len b.packed + b.room + b.ahead ≤ 2 ^ 32)
        × HasSpace b.heads b.packed b.arena b.ahead };
}

/// Returns where the records of a line begin: where those of the line before it end.
fn start_of(heads: &[Head], words: &[u64], at: usize) -> usize
    requires { at < length heads.now }
    ensures { result ≡ start_at 0 (all_entered heads.now words.now) at }
{
    if at == 0 {
        0
    } else {
        heads[at - 1].end as usize
    }
}

/// Returns the packed records from one position to another.
fn part(packed: &[Packed], start: usize, end: usize) -> &[Packed]
    requires starts { start ≤ end }
    requires ends { end ≤ length packed.now }
    ensures { result.now ≡ take (end - start) (drop start packed.now) }
{
    &packed[start..end]
}

/// Returns the line of an entry, with its part of the records.
fn line_at<'a>(
    heads: &'a [Head],
    packed: &'a [Packed],
    words: &'a [u64],
    wide: &'a [Rec],
    at: usize,
) -> Option<Line<'a>>
    requires heads { AllHeadsFit heads.now words.now }
    requires records { AllFit packed.now words.now wide.now }
    requires rise { EndsWithin (all_entered heads.now words.now) (length packed.now) }
    ensures { result ≡ slice_get (lines_of heads.now packed.now words.now wide.now) at }
{
    match heads.get(at) {
        None => None,
        Some(head) => {
            let start = start_of(heads, words, at);
            Some(Line {
                head,
                packed: part(packed, start, head.end as usize),
                words,
                wide,
            })
        }
    }
}

// What packs a record, makes room for it or closes its line is inlined into callers, which know the
// kind of the record.

/// Notes where the words of a sent message are, and where those of the line's answer may be: the
/// words of the message that was taken or heard. A position is a hint: the code compares what is
/// there before it shares it.
#[inline(always)]
fn note_place(sent: &mut Vec<u32>, place: &mut u32, packed: &Packed) {
    match packed {
        Packed::Sent { at, .. } => match sent.push(*at) {
            Ok(()) => {}
            Err(_) => {}
        },
        Packed::Heard { at, .. } => *place = *at,
        Packed::Took { message, .. } => match sent.get(*message as usize) {
            Some(at) => *place = *at,
            None => {}
        },
        _ => {}
    }
}

/// Packs a record after the others; the lists need room for it.
#[inline(always)]
fn push_packed(
    arena: &mut Arena,
    packed: &mut Vec<Packed>,
    sent: &mut Vec<u32>,
    place: &mut u32,
    fact: Rec,
)
    requires room { HasRoom arena.old 1 }
    requires packed { vec_len packed.old < vec_capacity packed.old }
    requires fit { AllFit packed.old.items arena.old.words.items arena.old.wide.items }
    ensures value { facts packed.new.items arena.new
        ≡ facts packed.old.items arena.old ++ fact ∷ [] }
    ensures fit { AllFit packed.new.items arena.new.words.items arena.new.wide.items }
    ensures grew { Grew arena.old arena.new }
    ensures len { vec_len packed.new ≡ vec_len packed.old + 1 }
    ensures capacity { vec_capacity packed.old ≤ vec_capacity packed.new }
{
    let one = arena.pack(fact);
    note_place(sent, place, &one);
    packed.push_reserved(one);
}

/// How a message is sent: by whom, to what, in which mode, with which badge.
#[derive(Clone, Copy)]
struct Sending {
    sender: ObjId,
    endpoint: ObjId,
    mode: SendMode,
    badge: Badge,
}

/// Packs the record of a sent message after the others, as `push_packed` does.
#[inline(always)]
fn push_sent(
    arena: &mut Arena,
    packed: &mut Vec<Packed>,
    sent: &mut Vec<u32>,
    place: &mut u32,
    sending: Sending,
    message: Lent<'_>,
)
    requires room { HasRoom arena.old 1 }
    requires packed { vec_len packed.old < vec_capacity packed.old }
    requires fit { AllFit packed.old.items arena.old.words.items arena.old.wide.items }
    ensures value { facts packed.new.items arena.new
        ≡ facts packed.old.items arena.old
        ++ Rec.Sent sending.sender sending.endpoint sending.mode sending.badge message.entry ∷ [] }
    ensures fit { AllFit packed.new.items arena.new.words.items arena.new.wide.items }
    ensures grew { Grew arena.old arena.new }
    ensures len { vec_len packed.new ≡ vec_len packed.old + 1 }
    ensures capacity { vec_capacity packed.old ≤ vec_capacity packed.new }
{
    let Sending {
        sender,
        endpoint,
        mode,
        badge,
    } = sending;
    let one = arena.pack_lent_sent(sender, endpoint, mode, badge, message);
    note_place(sent, place, &one);
    packed.push_reserved(one);
}

/// Packs the record of a reply to a caller after the others, as `push_packed` does.
#[inline(always)]
fn push_paid(
    arena: &mut Arena,
    packed: &mut Vec<Packed>,
    sent: &mut Vec<u32>,
    place: &mut u32,
    reply: ObjId,
    caller: ObjId,
    message: Lent<'_>,
)
    requires room { HasRoom arena.old 1 }
    requires packed { vec_len packed.old < vec_capacity packed.old }
    requires fit { AllFit packed.old.items arena.old.words.items arena.old.wide.items }
    ensures value { facts packed.new.items arena.new
        ≡ facts packed.old.items arena.old ++ Rec.Paid reply caller message.entry ∷ [] }
    ensures fit { AllFit packed.new.items arena.new.words.items arena.new.wide.items }
    ensures grew { Grew arena.old arena.new }
    ensures len { vec_len packed.new ≡ vec_len packed.old + 1 }
    ensures capacity { vec_capacity packed.old ≤ vec_capacity packed.new }
{
    let one = arena.pack_lent_paid(reply, caller, message);
    note_place(sent, place, &one);
    packed.push_reserved(one);
}

/// Returns a copy of the lines of a boot, with room for exactly `room` lines. `OutOfMemory` if that
/// is refused.
fn copy_boot(alloc: Global, boot: &[BootLine], room: usize) -> Result<Vec<BootLine>, OutOfMemory>
    requires { length boot.now ≤ room }
    ensures items { IfOk result (λ v. v.items ≡ boot.now) }
    ensures len { IfOk result (λ v. vec_len v ≡ length boot.now) }
    ensures capacity { IfOk result (λ v. vec_capacity v ≡ room) }
{
    let mut copy = Vec::with_capacity(alloc, room)?;
    for line in boot {
        copy.push_reserved(*line);
    }
    Ok(copy)
}

/// Keeps only the first packed records.
fn keep_first(packed: &mut Vec<Packed>, count: usize)
    ensures items { packed.new.items ≡ take count packed.old.items }
    ensures capacity { vec_capacity packed.new ≡ vec_capacity packed.old }
{
    packed.truncate(count);
}

/// Returns where the packed records end.
fn end_of(packed: &Vec<Packed>) -> u32
    requires { vec_len packed.now < 2 ^ 32 }
    ensures { result ≡ vec_len packed.now }
{
    packed.len() as u32
}

/// Returns the head of a line whose records end at a position.
fn line_head(step: &Step, entry: PackedEntry, answer: PackedAnswer, end: u32) -> Head
    ensures { result ≡ line_head step.now entry answer end }
{
    Head {
        entry,
        end,
        serial: step.thread.serial,
        answer_at: answer.at,
        answer: answer.form,
        kind: step.thread.kind,
        core: step.core,
    }
}

/// A placeholder for an entry that is not packed yet.
const BLANK: PackedEntry = PackedEntry::Address(OverAddress::Wait, PackedAddress(0));

/// The most words that one record keeps, but for long messages.
const MOST_WORDS: usize = 6;

/// The most words that a record with a long message keeps, and an answer.
const MESSAGE_ROOM: usize = 122;

/// The most words that one entry keeps: two large addresses besides.
const ENTRY_ROOM: usize = MESSAGE_ROOM + 2;

/// How many words long messages of records may take beyond six each: a line has at most one record
/// with a message.
const SPARE_WORDS: usize = MESSAGE_ROOM - MOST_WORDS;

/// The words of one line's entry, answer and long messages need as much room as this many records.
const HEAD_RECORDS: usize = (SPARE_WORDS + 2 * ENTRY_ROOM) / MOST_WORDS + 1;

/// The most records of one line for which room can be reserved.
const MOST_RECORDS: usize = 1_000_000;

/// For how many lines of the same size room is reserved ahead. Long lists grow in place, so early
/// growth saves copies.
const LINES_AHEAD: usize = 16;

/// Beyond this many records, words or wide records nothing is added, so positions stay below 3
/// times 2 to the 30.
const MOST_KEPT: usize = 1 << 31;

/// The most records for which there is room ahead.
const MOST_AHEAD: usize = 1 << 27;

/// Returns for how many records, with the heads of their lines, the lists have capacity.
fn space_of(heads: &Vec<Head>, packed: &Vec<Packed>, arena: &Arena, sent: &Vec<u32>) -> usize
    requires packed { vec_len packed.now ≤ MOST_KEPT }
    requires words { vec_len arena.now.words ≤ MOST_KEPT }
    requires wide { vec_len arena.now.wide ≤ MOST_KEPT }
    ensures space { HasSpace heads.now packed.now arena.now result }
    ensures most { (n : ℕ) → HasSpace heads.now packed.now arena.now n
        → vec_len sent.now + n ≤ vec_capacity sent.now → n ≤ MOST_AHEAD → n ≤ result }
{
    let words = (arena.words.capacity() - arena.words.len()) / MOST_WORDS;
    (heads.capacity() - heads.len())
        .min(packed.capacity() - packed.len())
        .min(words)
        .min(arena.wide.capacity() - arena.wide.len())
        .min(sent.capacity() - sent.len())
        .min(MOST_AHEAD)
}

impl Book {
    /// Returns a book whose boot has only the line of the cores.
    pub fn new(alloc: Global, cores: u8) -> Book
        ensures cores { result.book.boot.cores ≡ cores }
        ensures boot { result.book.boot.lines ≡ [] }
        ensures lines { result.book.lines ≡ [] }
        ensures hand { result.hand ≡ [] }
        ensures room { result.room ≡ 0 }
    {
        Book {
            cores,
            boot: Vec::new(alloc),
            heads: Vec::new(alloc),
            packed: Vec::new(alloc),
            arena: Arena {
                words: Vec::new(alloc),
                wide: Vec::new(alloc),
                spare: 0,
            },
            sent: Vec::new(alloc),
            start: 0,
            room: 0,
            ahead: 0,
            first: 0,
            place: 0,
        }
    }

    /// The heads, the packed records, the arena and where each message was sent.
    fn into_parts(self) -> (Vec<Head>, Vec<Packed>, Arena, Vec<u32>) {
        let Book {
            heads,
            packed,
            arena,
            sent,
            cores: _,
            boot: _,
            start: _,
            room: _,
            ahead: _,
            first: _,
            place: _,
        } = self;
        (heads, packed, arena, sent)
    }

    /// Clones the book in the memory of a spare one, with as much room, so that the clone takes
    /// memory for a line only if this one would. `OutOfMemory` if an allocation fails.
    pub fn copy(&self, alloc: Global, spare: Option<Book>) -> Result<Book, OutOfMemory>
        ensures { IfOk result (λ b. b ≡ self.now) }
    {
        let (heads, packed, arena, sent) = match spare {
            Some(spare) => {
                let (heads, packed, arena, sent) = spare.into_parts();
                (heads, packed, Some(arena), sent)
            }
            None => (Vec::new(alloc), Vec::new(alloc), None, Vec::new(alloc)),
        };
        Ok(Book {
            cores: self.cores,
            boot: copy_boot(alloc, &self.boot, self.boot.capacity())?,
            heads: copy_rows(heads, &self.heads, self.heads.capacity())?,
            packed: copy_rows(packed, &self.packed, self.packed.capacity())?,
            arena: self.arena.copy(alloc, arena)?,
            sent: copy_rows(sent, &self.sent, self.sent.capacity())?,
            start: self.start,
            room: self.room,
            ahead: self.ahead,
            first: self.first,
            place: self.place,
        })
    }

    /// Makes room for one line of the boot; if there is room it takes no memory. The book is as it
    /// was.
    pub fn reserve_boot_line(&mut self) -> Result<(), OutOfMemory>
        ensures room { OnOk result (0 < self.new.boot_room) }
        ensures full { OnErr result (self.old.boot_room ≡ 0) }
        ensures unchanged { self.new.book ≡ self.old.book }
        ensures hand { self.new.hand ≡ self.old.hand }
        ensures line_room { self.new.room ≡ self.old.room }
    {
        self.boot.reserve(1)?;
        Ok(())
    }

    /// Drops the records of the open line. Their words stay.
    fn drop_open(&mut self)
        ensures book { self.new.book ≡ self.old.book }
        ensures hand { self.new.hand ≡ [] }
        ensures boot_room { self.new.boot_room ≡ self.old.boot_room }
        ensures room { self.new.room ≡ self.old.room }
    {
        keep_first(&mut self.packed, self.start);
        self.first = self.arena.words.len();
        self.place = 0;
    }

    /// Adds a line to the boot, for which there is room, and drops the records of the open line.
    pub fn add_boot_line(&mut self, line: BootLine)
        requires { 0 < self.old.boot_room }
        ensures line { self.new.book ≡ with_boot_line self.old.book line }
        ensures hand { self.new.hand ≡ [] }
        ensures room { self.new.room ≡ self.old.room }
    {
        self.drop_open();
        match self.boot.push(line) {
            Ok(()) => {}
            Err(_) => unreachable!(),
        }
    }

    /// Takes room for `records` more records of the open line from the room reserved ahead. Returns
    /// whether that is enough.
    #[inline(always)]
    fn give_room(&mut self, records: usize) -> bool
        ensures room { IsTrue result → records < self.new.room }
        ensures few { self.new.room ≤ max self.old.room (records + 1) }
        ensures unchanged { self.new.book ≡ self.old.book }
        ensures hand { self.new.hand ≡ self.old.hand }
        ensures none { result ≡ false → self.new.room ≡ self.old.room }
    {
        // keeping the number saves a test of each list for every line
        if MOST_RECORDS < records || self.ahead < records + HEAD_RECORDS {
            return false;
        }
        self.ahead -= records + HEAD_RECORDS;
        self.arena.spare = SPARE_WORDS;
        self.room = records + 1;
        true
    }

    /// Makes room in the lists, as `reserve` says.
    // not inlined, so that a line with room pays only for the test
    #[cold]
    #[inline(never)]
    fn grow(&mut self, records: usize) -> Result<(), OutOfMemory>
        ensures room { OnOk result (records < self.new.room) }
        ensures few { self.new.room ≤ max self.old.room (records + 1) }
        ensures unchanged { self.new.book ≡ self.old.book }
        ensures hand { self.new.hand ≡ self.old.hand }
    {
        if MOST_RECORDS < records
            || MOST_KEPT < self.packed.len()
            || MOST_KEPT < self.arena.words.len()
            || MOST_KEPT < self.arena.wide.len()
        {
            return Err(OutOfMemory);
        }
        let ahead = LINES_AHEAD * (records + HEAD_RECORDS);
        self.heads.reserve(ahead)?;
        self.packed.reserve(ahead)?;
        self.arena.words.reserve(MOST_WORDS * ahead)?;
        self.arena.wide.reserve(ahead)?;
        self.sent.reserve(ahead)?;
        let space = space_of(&self.heads, &self.packed, &self.arena, &self.sent);
        self.ahead = space - (records + HEAD_RECORDS);
        self.arena.spare = SPARE_WORDS;
        self.room = records + 1;
        Ok(())
    }

    /// Makes room for one line with that many records beside those that it has; if there is room it
    /// takes no memory. The book is as it was. It is out of memory as well for more than 1,000,000
    /// records, and where more than 2 to the 31 records or words are kept and what there is room
    /// for ahead is used up.
    #[inline(always)]
    pub fn reserve(&mut self, records: usize) -> Result<(), OutOfMemory>
        ensures room { OnOk result (records < self.new.room) }
        ensures few { self.new.room ≤ max self.old.room (records + 1) }
        ensures full { OnErr result (self.old.room ≤ records) }
        ensures unchanged { self.new.book ≡ self.old.book }
        ensures hand { self.new.hand ≡ self.old.hand }
    {
        if records < self.room || self.give_room(records) {
            return Ok(());
        }
        self.grow(records)
    }

    /// Notes a record in the open line, for which there is room: it is packed where it is made.
    #[inline(always)]
    pub fn note(&mut self, fact: Rec)
        requires { 1 < self.old.room }
        ensures hand { self.new.hand ≡ fact ∷ self.old.hand }
        ensures book { self.new.book ≡ self.old.book }
        ensures boot_room { self.new.boot_room ≡ self.old.boot_room }
        ensures room { self.new.room + 1 ≡ self.old.room }
        ensures whole { self.new.room + length self.new.hand
            ≡ self.old.room + length self.old.hand }
    {
        push_packed(
            &mut self.arena,
            &mut self.packed,
            &mut self.sent,
            &mut self.place,
            fact,
        );
        self.room -= 1;
    }

    /// Notes like `note` that a message was sent, which is lent.
    #[inline(always)]
    pub fn note_sent(
        &mut self,
        sender: ObjId,
        endpoint: ObjId,
        mode: SendMode,
        badge: Badge,
        message: Lent<'_>,
    )
        requires { 1 < self.old.room }
        ensures hand { self.new.hand
            ≡ Rec.Sent sender endpoint mode badge message.entry ∷ self.old.hand }
        ensures book { self.new.book ≡ self.old.book }
        ensures boot_room { self.new.boot_room ≡ self.old.boot_room }
        ensures room { self.new.room + 1 ≡ self.old.room }
        ensures whole { self.new.room + length self.new.hand
            ≡ self.old.room + length self.old.hand }
    {
        push_sent(
            &mut self.arena,
            &mut self.packed,
            &mut self.sent,
            &mut self.place,
            Sending {
                sender,
                endpoint,
                mode,
                badge,
            },
            message,
        );
        self.room -= 1;
    }

    /// Notes like `note` that a caller was answered, with a message that is lent.
    #[inline(always)]
    pub fn note_paid(&mut self, reply: ObjId, caller: ObjId, message: Lent<'_>)
        requires { 1 < self.old.room }
        ensures hand { self.new.hand ≡ Rec.Paid reply caller message.entry ∷ self.old.hand }
        ensures book { self.new.book ≡ self.old.book }
        ensures boot_room { self.new.boot_room ≡ self.old.boot_room }
        ensures room { self.new.room + 1 ≡ self.old.room }
        ensures whole { self.new.room + length self.new.hand
            ≡ self.old.room + length self.old.hand }
    {
        push_paid(
            &mut self.arena,
            &mut self.packed,
            &mut self.sent,
            &mut self.place,
            reply,
            caller,
            message,
        );
        self.room -= 1;
    }

    /// Notes records in order; the lists need room for them. Afterwards the slice holds no
    /// meaningful values.
    fn note_all(&mut self, records: &mut [Rec])
        requires { length records.old < self.old.room }
        ensures hand { self.new.hand ≡ reverse records.old ++ self.old.hand }
        ensures book { self.new.book ≡ self.old.book }
        ensures room { self.new.room + length records.old ≡ self.old.room }
    {
        for fact in records.iter_mut() {
            self.note(mem::replace(fact, Rec::Dropped { message: 0 }));
        }
    }

    /// Adds a line with the records of the open line. The new open line has no records and no room.
    #[inline(always)]
    pub fn close(&mut self, step: &Step, answer: &Answer)
        requires { 0 < self.old.room }
        ensures line { self.new.book
            ≡ with_line self.old.book step.now answer.now (reverse self.old.hand) }
        ensures hand { self.new.hand ≡ [] }
        ensures boot_room { self.new.boot_room ≡ self.old.boot_room }
        ensures room { self.new.room ≡ 0 }
    {
        let first = self.first.min(MOST_KEPT) as u32;
        let told = self.arena.pack_answer(answer, self.place);
        let end = end_of(&self.packed);
        self.start = end as usize;
        let last = self.heads.len();
        self.heads.push_reserved(line_head(step, BLANK, told, end));
        self.arena
            .pack_entry(&step.entry, first, &mut self.heads[last].entry);
        self.room = 0;
        self.first = self.arena.words.len();
        self.place = 0;
    }

    /// Adds a line, and empties the records, whose room stays. Drops the records of the open line.
    pub fn append(&mut self, step: &Step, answer: &Answer, records: &mut Vec<Rec>)
        requires { vec_len records.old < self.old.room }
        ensures line { self.new.book
            ≡ with_line self.old.book step.now answer.now records.old.items }
        ensures empty { records.new.items ≡ [] }
        ensures capacity { vec_capacity records.new ≡ vec_capacity records.old }
    {
        self.drop_open();
        self.note_all(records);
        records.clear();
        self.close(step, answer);
    }

    /// Returns how many records the open line has.
    pub fn open_records(&self) -> usize
        ensures { result ≡ length self.now.hand }
    {
        let end = self.packed.len();
        end - self.start
    }

    /// Returns how many lines there are, the boot's among them.
    pub fn lines(&self) -> usize
        ensures { result ≡ length self.now.book.lines + 1 }
    {
        self.heads.len() + 1
    }

    /// The line of number `i`, if there is one: the boot is number 0 and no line, and the first
    /// line after it is number 1.
    pub fn line(&self, i: usize) -> Option<Line<'_>>
        ensures { result ≡ line_of_number self.now.book i }
    {
        if i == 0 {
            return None;
        }
        line_at(
            &self.heads,
            &self.packed,
            &self.arena.words,
            &self.arena.wide,
            i - 1,
        )
    }

    /// The number of cores.
    pub fn cores(&self) -> u8
        ensures { result ≡ self.now.book.boot.cores }
    {
        self.cores
    }

    /// The boot's lines after that of the cores, in order.
    pub fn boot(&self) -> &[BootLine]
        ensures { result.now ≡ reverse self.now.book.boot.lines }
    {
        &self.boot
    }
}
