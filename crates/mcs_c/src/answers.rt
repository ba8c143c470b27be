//! Answers and records as C has them.
ghost use Rattle.std.specs.Prelude.{◌≡◌, ◌≤◌, ◌<◌, ◌∷◌, [], ◌++◌, length, map, take, IfOk, OnOk, Some, None};
ghost use Rattle.mcs_text.specs.Spelling.{queue_name};
ghost use Rattle.mcs_text.specs.Table.{answer_form};
ghost use Rattle.mcs_c.specs.Answering.{FillsWith, IsAnswer, IsBrought, about, answer_kind, letter_in, newest, record_of, serial_of};

use mcs_book::{Book, Line};
use mcs_text::letter;
use mcs_types::{Answer, MESSAGE_WORDS, ObjId, OutOfMemory, Queue, Rec};
use std::alloc::Global;

/// How many words an answer may have: a badge, a label and the words of a message.
pub const ANSWER_WORDS: usize = 2 + MESSAGE_WORDS;

/// The answer of a step, as C has it (`mcs_answer` of `mcs.h`).
#[repr(C)]
#[derive(Clone, Copy)]
pub struct McsAnswer {
    /// Which answer it is, from 1 on; 0 if the step added no line.
    pub kind: u32,
    /// How many of the words count.
    pub count: u32,
    /// How many records the step made.
    pub records: usize,
    /// The numbers of the answer, as its form has them.
    pub words: [u64; ANSWER_WORDS],
}

/// A record of a step, as C has it (`mcs_record` of `mcs.h`).
#[repr(C)]
#[derive(Clone, Copy, Drop)]
pub struct McsRecord {
    /// The number of the kind of the record, from 1 on.
    pub kind: u32,
    /// The serial of its thread; 0 if it has none.
    pub thread: u32,
    /// The letter of its other object; 0 if it has none.
    pub letter: u32,
    /// The serial of that object; 0 if it has none.
    pub object: u32,
}

/// Returns the serial of an object, if there is one.
fn serial_of(object: Option<ObjId>) -> u32
    ensures { result ≡ serial_of object }
{
    match object {
        None => 0,
        Some(object) => object.serial,
    }
}

/// Returns the letter of an object, if there is one.
fn letter_in(object: Option<ObjId>) -> u32
    ensures { result ≡ letter_in object }
{
    match object {
        None => 0,
        Some(object) => u32::from(letter(object.kind)),
    }
}

/// Returns a record of this kind, about a thread and another object.
fn about(kind: u32, thread: Option<ObjId>, object: Option<ObjId>) -> McsRecord
    ensures { result ≡ about kind thread object }
{
    McsRecord {
        kind,
        thread: serial_of(thread),
        letter: letter_in(object),
        object: serial_of(object),
    }
}

/// Returns the object of a queue.
fn queue_name(queue: Queue) -> ObjId
    ensures { result ≡ queue_name queue }
{
    match queue {
        Queue::Senders(object) | Queue::Receivers(object) | Queue::Waiters(object) => object,
    }
}

/// Returns a record as C has it: a table, with a row for each record.
fn record_of(fact: &Rec) -> McsRecord
    ensures { result ≡ record_of fact.now }
{
    match fact {
        Rec::Slot { cnode, .. } => about(1, None, Some(*cnode)),
        Rec::Turns { thread, .. } => about(2, Some(*thread), None),
        Rec::Joins { thread, queue, .. } => about(3, Some(*thread), Some(queue_name(*queue))),
        Rec::Parts { thread, queue } => about(4, Some(*thread), Some(queue_name(*queue))),
        Rec::Sent {
            sender,
            endpoint,
            ..
        } => about(5, Some(*sender), Some(*endpoint)),
        Rec::Took { thread, .. } => about(6, Some(*thread), None),
        Rec::Dropped { .. } => about(7, None, None),
        Rec::Holds { context, thread } => about(8, *thread, Some(*context)),
        Rec::Homed { context, .. } => about(9, None, Some(*context)),
        Rec::Prio { thread, .. } => about(10, Some(*thread), None),
        Rec::Owes { reply, caller, .. } => about(11, Some(*caller), Some(*reply)),
        Rec::Paid { reply, caller, .. } => about(12, Some(*caller), Some(*reply)),
        Rec::Void { reply, caller, .. } => about(13, Some(*caller), Some(*reply)),
        Rec::Raised { notification, .. } => about(14, None, Some(*notification)),
        Rec::Heard {
            thread,
            notification,
            ..
        } => about(15, Some(*thread), Some(*notification)),
        Rec::Tied {
            thread,
            notification,
        } => about(16, Some(*thread), *notification),
        Rec::Made { object, .. } => about(17, None, Some(*object)),
        Rec::Closed { object } => about(18, None, Some(*object)),
    }
}

/// Adds a record.
fn push(records: &mut Vec<McsRecord>, fact: McsRecord) -> Result<(), OutOfMemory>
    ensures { OnOk result (records.new.items ≡ records.old.items ++ fact ∷ []) }
{
    match records.push(fact) {
        Ok(()) => Ok(()),
        Err(_) => Err(OutOfMemory),
    }
}

/// Returns the records of a line.
#[tactic(auto, using(crate::proofs::Answered::mapped_next, crate::proofs::Answered::none_within))]
fn records_of(alloc: Global, line: &Line<'_>) -> Result<Vec<McsRecord>, OutOfMemory>
    ensures { IfOk result (λ v. v.items ≡ map record_of line.now.records) }
{
    let mut records = Vec::new(alloc);
    for i in 0..line.record_count() {
        match line.record(alloc, i)? {
            Some(fact) => push(&mut records, record_of(&fact))?,
            None => unreachable!(),
        }
    }
    Ok(records)
}

/// Returns the numbers of an answer, in the order of its form.
fn numbers_of(alloc: Global, answer: &Answer) -> Result<Vec<u64>, OutOfMemory>
    ensures value { IfOk result (λ v. v.items ≡ (answer_form answer.now).numbers) }
    ensures few { IfOk result (λ v. length v.items ≤ ANSWER_WORDS) }
{
    let mut numbers = Vec::new(alloc);
    match answer {
        Answer::Done | Answer::Empty | Answer::Waits => {}
        Answer::Got { badge, message } => {
            message.is_in_range();
            numbers.extend_from_slice(&[badge.0, message.label()])?;
            numbers.extend_from_slice(message.words())?;
        }
        Answer::Heard { word } => numbers.extend_from_slice(&[*word])?,
        Answer::Refused(why) => numbers.extend_from_slice(&[u64::from(why.number())])?,
    }
    Ok(numbers)
}

/// Returns the number of the kind of an answer.
fn answer_kind(answer: &Answer) -> u32
    ensures { result ≡ answer_kind answer.now }
{
    match answer {
        Answer::Done => 1,
        Answer::Got { .. } => 2,
        Answer::Heard { .. } => 3,
        Answer::Empty => 4,
        Answer::Waits => 5,
        Answer::Refused(_) => 6,
    }
}

/// Returns words that begin with these.
fn padded(first: &[u64]) -> [u64; ANSWER_WORDS]
    requires { length first.now ≤ ANSWER_WORDS }
    ensures { take (length first.now) result ≡ first.now }
{
    let mut words = [0; ANSWER_WORDS];
    words[..first.len()].copy_from_slice(first);
    words
}

/// Returns the answer of a line as C has it.
fn answer_of(alloc: Global, line: &Line<'_>) -> Result<McsAnswer, OutOfMemory>
    ensures { IfOk result (λ a. IsAnswer (Some line.now) a) }
{
    let answer = line.answer(alloc)?;
    let numbers = numbers_of(alloc, &answer)?;
    Ok(McsAnswer {
        kind: answer_kind(&answer),
        count: numbers.len() as u32,
        records: line.record_count(),
        words: padded(&numbers),
    })
}

/// An answer of C, and records.
#[derive(Drop)]
pub struct Brought {
    pub answer: McsAnswer,
    pub records: Vec<McsRecord>,
}

/// Returns the answer and the records of a step that added no line: there are none.
pub fn nothing(alloc: Global) -> Brought
    ensures { IsBrought None result }
{
    Brought {
        answer: McsAnswer {
            kind: 0,
            count: 0,
            records: 0,
            words: [0; ANSWER_WORDS],
        },
        records: Vec::new(alloc),
    }
}

/// Returns the answer and the records of a line.
fn brought_by(alloc: Global, line: &Line<'_>) -> Result<Brought, OutOfMemory>
    ensures { IfOk result (λ b. IsBrought (Some line.now) b) }
{
    Ok(Brought {
        answer: answer_of(alloc, line)?,
        records: records_of(alloc, line)?,
    })
}

/// Returns the newest line of a book that has more lines than so many.
fn newest(book: &Book, before: usize) -> Option<Line<'_>>
    ensures { result ≡ newest before (Some book.now.book) }
{
    let lines = book.lines() - 1;
    if lines <= before {
        return None;
    }
    book.line(lines)
}

/// Returns the answer and the records of a step. `before` is the number of lines before it.
pub fn added_to(alloc: Global, book: &Book, before: usize) -> Result<Brought, OutOfMemory>
    ensures { IfOk result (λ b. IsBrought (newest before (Some book.now.book)) b) }
{
    match newest(book, before) {
        None => Ok(nothing(alloc)),
        Some(line) => brought_by(alloc, &line),
    }
}

impl Brought {
    /// Hands the answer out, and as many records as there is room for.
    pub fn hand_over(&self, answer: &mut McsAnswer, records: &mut [McsRecord])
        ensures answer { answer.new ≡ self.now.answer }
        ensures records { FillsWith self.now.records.items records.old records.new }
    {
        *answer = self.answer;
        let n = self.records.len().min(records.len());
        records[..n].copy_from_slice(&self.records[..n]);
    }
}
