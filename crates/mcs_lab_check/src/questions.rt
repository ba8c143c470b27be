//! The questions of `#?` lines.
ghost use Rattle.std.specs.Prelude.{◌≡◌, bytes_eq};
ghost use Rattle.mcs_lab_check.specs.Names.{object_of, queue_of};
ghost use Rattle.mcs_lab_check.specs.Asking.{reason_of, away_asked, is_status, owed_question, thread_question, context_question, reply_question, slot_asked, object_question, named_question, asked_by, asked_of};

use crate::words::{number_of, object_of, queue_of};
use mcs_kernel::EnterFault;
use mcs_text::Words;
use mcs_types::{Kind, ObjId, Queue};

/// What a question asks about, as its first words say. The question holds if its whole text equals
/// the text of the actual answer.
#[derive(Clone, Copy)]
pub enum Question {
    /// `t1 waits e1.send`, `t1 owed r1`, `t1 running`, `restart`, `inactive`, `closed`.
    /// Or `t1 owed by r1`.
    Status { thread: ObjId, by: bool },
    /// `t3 got 9 7 5` (badge, label, words), `t3 heard 5`, `t3 got nothing`.
    Mail { thread: ObjId },
    /// `t1 answered 7 5` (label, words).
    Answered { thread: ObjId },
    /// `t2 bound n1`, or `-`.
    Bound { thread: ObjId },
    /// `t1 holds s1`, or `-`.
    Context { thread: ObjId },
    /// `t1 priority 10`, or `-`.
    Priority { thread: ObjId },
    /// `s1 held t1`, or `-`.
    Held { context: ObjId },
    /// `s1 chain r2 r1`, from the top, or `-`.
    Chain { context: ObjId },
    /// `s1 homed n1`, or `-`.
    Homed { context: ObjId },
    /// `r1 owes t1`, or `-`.
    Owes { reply: ObjId },
    /// `r1 with t2`: the thread that receives with it, or `-`.
    With { reply: ObjId },
    /// `n1 pending 5`, or `-`.
    Pending { notification: ObjId },
    /// `e1.recv t2 t4`: the threads there, first to last, or `-`.
    Queue { queue: Queue },
    /// `c1 3 holds e1 rw 9`, or `-`.
    Slot { cnode: ObjId, index: u8 },
}

/// What a line `#?` asks.
#[derive(Clone, Copy)]
pub enum Asked {
    /// `away`, or `away NoContext`: whether the step before was skipped, and for this reason.
    Away { why: Option<EnterFault> },
    /// A question about the state after the step.
    State { question: Question },
}

/// Returns whether a word is this one.
fn is(word: &[u8], text: &[u8]) -> bool
    ensures { result ≡ bytes_eq text.now word.now }
{
    word == text
}

/// The reason that a word names.
fn reason_of(word: &[u8]) -> Option<EnterFault>
    ensures { result ≡ reason_of word.now }
{
    if is(word, b"NotRunning") {
        return Some(EnterFault::NotRunning);
    }
    if is(word, b"NoContext") {
        return Some(EnterFault::NoContext);
    }
    if is(word, b"WrongCore") {
        return Some(EnterFault::WrongCore);
    }
    None
}

/// Reads the question whether a step was skipped, from the words after `away`.
fn away_asked(words: &mut Words<'_>) -> Option<Asked>
    ensures { result ≡ away_asked words.old }
{
    let Some(word) = words.next_word() else {
        return Some(Asked::Away { why: None });
    };
    if words.has_more() {
        return None;
    }
    let why = reason_of(word)?;
    Some(Asked::Away { why: Some(why) })
}

/// Returns whether a word says what a thread does.
fn is_status(word: &[u8]) -> bool
    ensures { result ≡ is_status word.now }
{
    is(word, b"waits")
        || is(word, b"running")
        || is(word, b"restart")
        || is(word, b"inactive")
        || is(word, b"closed")
}

/// Reads the question what owes a thread a reply, with or without `by`.
fn owed_question(thread: ObjId, words: &mut Words<'_>) -> Option<Question>
    ensures { result ≡ owed_question thread words.old }
{
    let word = words.next_word()?;
    let by = is(word, b"by");
    Some(Question::Status { thread, by })
}

/// Reads a question about a thread, from this word on.
fn thread_question(thread: ObjId, word: &[u8], words: &mut Words<'_>) -> Option<Question>
    ensures { result ≡ thread_question thread word.now words.old }
{
    if is_status(word) {
        return Some(Question::Status { thread, by: false });
    }
    if is(word, b"owed") {
        return owed_question(thread, words);
    }
    if is(word, b"got") || is(word, b"heard") {
        return Some(Question::Mail { thread });
    }
    if is(word, b"answered") {
        return Some(Question::Answered { thread });
    }
    if is(word, b"bound") {
        return Some(Question::Bound { thread });
    }
    if is(word, b"holds") {
        return Some(Question::Context { thread });
    }
    if is(word, b"priority") {
        return Some(Question::Priority { thread });
    }
    None
}

/// Returns the question about a context with this word.
fn context_question(context: ObjId, word: &[u8]) -> Option<Question>
    ensures { result ≡ context_question context word.now }
{
    if is(word, b"held") {
        return Some(Question::Held { context });
    }
    if is(word, b"chain") {
        return Some(Question::Chain { context });
    }
    if is(word, b"homed") {
        return Some(Question::Homed { context });
    }
    None
}

/// Returns the question about a reply object with this word.
fn reply_question(reply: ObjId, word: &[u8]) -> Option<Question>
    ensures { result ≡ reply_question reply word.now }
{
    if is(word, b"owes") {
        return Some(Question::Owes { reply });
    }
    if is(word, b"with") {
        return Some(Question::With { reply });
    }
    None
}

/// Reads a question about a slot, by its index and the words after it.
fn slot_asked(cnode: ObjId, index: Option<u32>, words: &mut Words<'_>) -> Option<Question>
    ensures { result ≡ slot_asked cnode index words.old }
{
    let index = index?;
    let word = words.next_word()?;
    if index > u8::MAX as u32 || !is(word, b"holds") {
        return None;
    }
    Some(Question::Slot {
        cnode,
        index: index as u8,
    })
}

/// Reads a question about an object, from this word on.
fn object_question(object: ObjId, word: &[u8], words: &mut Words<'_>) -> Option<Question>
    ensures { result ≡ object_question object.kind object word.now words.old }
{
    match object.kind {
        Kind::Thread => thread_question(object, word, words),
        Kind::Context => context_question(object, word),
        Kind::Reply => reply_question(object, word),
        Kind::CNode => slot_asked(object, number_of(word), words),
        Kind::Notification if is(word, b"pending") => Some(Question::Pending {
            notification: object,
        }),
        Kind::Notification | Kind::Endpoint => None,
    }
}

/// Reads a question about the object that a word names, from the words after it.
fn named_question(first: &[u8], words: &mut Words<'_>) -> Option<Question>
    ensures { result ≡ named_question (queue_of first.now) (object_of first.now) words.old }
{
    if let Some(queue) = queue_of(first) {
        return Some(Question::Queue { queue });
    }
    let object = object_of(first)?;
    let word = words.next_word()?;
    object_question(object, word, words)
}

/// Reads what the words of a line `#?` ask.
fn asked_by(words: &mut Words<'_>) -> Option<Asked>
    ensures { result ≡ asked_by words.old }
{
    let first = words.next_word()?;
    if is(first, b"away") {
        return away_asked(words);
    }
    let question = named_question(first, words)?;
    Some(Asked::State { question })
}

/// Returns what a text after `#? ` asks; None if it has no form of a question.
pub fn asked_of(text: &[u8]) -> Option<Asked>
    ensures { result ≡ asked_of text.now }
{
    asked_by(&mut Words::new(text))
}
