//! The notes beside lanes and arrows.
use crate::labels::{Naming, put_name, put_queue};
use crate::numbers::{is_large, put_number};
use mcs_book::{Book, Line};
use mcs_kernel::is_ready;
use mcs_lab_diagram::{Arrow, Look, Point, Shown, Strokes};
use mcs_lab_inspect::TextBuffer;
use mcs_types::{Ending, Entry, Kind, Message, ObjId, Rec, SendMode, Status};
use std::alloc::Global;

/// Appends a text and a number.
fn put_numbered(to: &mut TextBuffer, text: &str, number: u64) {
    to.put(text.as_bytes());
    to.number(number);
}

/// Appends a text and a name.
fn put_named<N: Naming>(to: &mut TextBuffer, names: &N, text: &str, object: ObjId) {
    to.put(text.as_bytes());
    put_name(to, names, object);
}

/// Appends a name and a text.
fn put_said<N: Naming>(to: &mut TextBuffer, names: &N, object: ObjId, text: &str) {
    put_name(to, names, object);
    to.put(text.as_bytes());
}

/// How many words of a message a label shows; one in hexadecimal counts twice.
pub const FEW: usize = 4;

/// Appends at most `most` words of a message.
fn put_words(alloc: Global, to: &mut TextBuffer, words: &[u64], most: usize) {
    let mut left = most;
    for (before, word) in words.iter().enumerate() {
        if before > 0 {
            to.put(b" ");
        }
        let weight: usize = if is_large(*word) { 2 } else { 1 };
        if weight > left {
            return to.put("…".as_bytes());
        }
        left = left.saturating_sub(weight);
        put_number(alloc, to, *word);
    }
}

/// Appends a message with at most `most` of its words: `10(4096 1)`.
fn put_message(alloc: Global, to: &mut TextBuffer, message: &Message, most: usize) {
    put_number(alloc, to, message.label());
    to.put(b"(");
    put_words(alloc, to, message.words(), most);
    to.put(b")");
}

/// Appends a text, and the value of a word or a badge.
fn put_valued(alloc: Global, to: &mut TextBuffer, text: &str, value: u64) {
    to.put(text.as_bytes());
    put_number(alloc, to, value);
}

/// Returns the word for how a message was sent.
fn mode_word(mode: SendMode) -> &'static str {
    match mode {
        SendMode::Plain => "",
        SendMode::Call => " call",
        SendMode::Mute => " mute call",
        SendMode::Give => " give",
    }
}

/// Appends the message of a Sent record, with at most `most` words.
fn put_sent<N: Naming>(alloc: Global, to: &mut TextBuffer, names: &N, fact: &Rec, most: usize) {
    if let Rec::Sent {
        endpoint,
        mode,
        badge,
        message,
        ..
    } = fact
    {
        to.put(mode_word(*mode).as_bytes());
        put_named(to, names, " ", *endpoint);
        to.put(b" ");
        put_message(alloc, to, message, most);
        put_valued(alloc, to, " badge ", badge.0);
    }
}

/// Appends the message that a line sent, with at most `most` words.
fn put_sent_by<N: Naming>(
    alloc: Global,
    to: &mut TextBuffer,
    names: &N,
    line: &Line<'_>,
    most: usize,
) {
    for i in 0..line.record_count() {
        let Some(kept) = line.kept_record(i) else {
            continue;
        };
        if kept.is_sent() {
            return match kept.unpack(alloc) {
                Ok(fact) => put_sent(alloc, to, names, &fact, most),
                Err(_) => to.cut(),
            };
        }
    }
}

/// Appends the name of a message.
fn put_message_name(to: &mut TextBuffer, number: u32) {
    put_numbered(to, "m", number as u64);
}

/// Appends the text for the record of an arrow: the label, words and badge of a message, the label
/// and words of a reply, or a notification word. A message shows at most `most` words.
pub fn put_label<N: Naming>(
    alloc: Global,
    to: &mut TextBuffer,
    names: &N,
    book: &Book,
    arrow: &Arrow,
    fact: &Rec,
    most: usize,
) {
    match (arrow.shown, fact) {
        (Shown::Message(number), _) => {
            put_message_name(to, number);
            if let Some(line) = book.line(arrow.from.row) {
                put_sent_by(alloc, to, names, &line, most);
            }
        }
        (Shown::Answer(reply), Rec::Paid { message, .. }) => {
            put_said(to, names, reply, " answers ");
            put_message(alloc, to, message, most)
        }
        (Shown::Word(notification), Rec::Heard { word, .. }) => {
            put_name(to, names, notification);
            put_valued(alloc, to, " heard: ", *word)
        }
        _ => {}
    }
}

/// Appends what an entry sent that reached no thread.
pub fn put_lost(alloc: Global, to: &mut TextBuffer, entry: &Entry) {
    to.put(b"to nobody: ");
    match entry {
        Entry::Send { message, .. }
        | Entry::NbSend { message, .. }
        | Entry::ReplyRecv { message, .. }
        | Entry::NbSendRecv { message, .. }
        | Entry::NbSendWait { message, .. } => put_message(alloc, to, message, FEW),
        _ => {}
    }
}

/// Appends the status of a thread.
pub fn put_look<N: Naming>(to: &mut TextBuffer, names: &N, look: Look) {
    match (look.status, look.context) {
        (Some(Status::Running | Status::Restart), Some(context)) => {
            put_named(to, names, "on ", context)
        }
        (Some(Status::Running | Status::Restart), None) => to.put(b"no context"),
        (Some(Status::Queued(queue)), _) => {
            to.put(b"waits in ");
            put_queue(to, names, queue)
        }
        (Some(Status::OnReply(reply)), _) => put_named(to, names, "waits for an answer by ", reply),
        (Some(Status::Inactive), _) => to.put(b"inactive"),
        (Some(Status::Closed) | None, _) => to.put(b"closed"),
    }
}

/// Appends the status of a thread, and the context that it holds while it does not run.
pub fn put_whole_look<N: Naming>(to: &mut TextBuffer, names: &N, look: Look) {
    put_look(to, names, look);
    if is_ready(look.status) {
        return;
    }
    if let Some(context) = look.context {
        put_named(to, names, ", holds ", context);
    }
}

/// Returns whether a look gets a note after the look in the row before: a running thread gets one
/// if its context changed.
pub fn has_note(before: Look, now: Look) -> bool {
    if is_ready(now.status) {
        return now.context != before.context;
    }
    now.status != before.status
}

/// Returns the thread at whose lane the mark of a record is; None if it has no mark. The entering
/// thread stands in for an object that is no thread.
pub fn marked(strokes: &Strokes, here: Point, fact: &Rec) -> Option<ObjId> {
    match fact {
        Rec::Dropped { message } => Some(strokes.start_of(here, *message).thread),
        Rec::Void { caller, .. } => Some(*caller),
        Rec::Prio { thread, .. } | Rec::Tied { thread, .. } => Some(*thread),
        Rec::Closed { object } if object.kind.is_same(Kind::Thread) => Some(*object),
        Rec::Made { .. } | Rec::Closed { .. } | Rec::Homed { .. } | Rec::Raised { .. } => {
            Some(here.thread)
        }
        Rec::Holds { thread: None, .. } => Some(here.thread),
        _ => None,
    }
}

/// Appends words and a name, or that there is none.
fn put_end<N: Naming>(to: &mut TextBuffer, names: &N, words: &str, object: Option<ObjId>) {
    match object {
        Some(object) => put_named(to, names, words, object),
        None => {
            to.put(words.as_bytes());
            to.put(b"none")
        }
    }
}

/// Appends the mark of a raised notification, or of a context without a holder.
fn put_word_mark<N: Naming>(alloc: Global, to: &mut TextBuffer, names: &N, fact: &Rec) {
    match fact {
        Rec::Raised {
            notification,
            badge,
        } => {
            put_name(to, names, *notification);
            put_valued(alloc, to, " raised: ", badge.0)
        }
        Rec::Holds { context, .. } => put_said(to, names, *context, " held by none"),
        Rec::Homed {
            context,
            notification,
        } => {
            put_name(to, names, *context);
            put_end(to, names, " homed at ", *notification)
        }
        Rec::Tied { notification, .. } => put_end(to, names, "bound to ", *notification),
        _ => {}
    }
}

/// Returns the word for how a debt was voided.
fn void_word(ending: Ending) -> &'static str {
    match ending {
        Ending::Deleted => " void (deleted)",
        Ending::Cancelled => " void (cancelled)",
    }
}

/// Appends what ended, after a cross.
fn put_ended<N: Naming>(to: &mut TextBuffer, names: &N, object: ObjId, text: &str) {
    to.put("✗ ".as_bytes());
    put_said(to, names, object, text);
}

/// Appends the mark of a record.
pub fn put_mark<N: Naming>(alloc: Global, to: &mut TextBuffer, names: &N, fact: &Rec) {
    match fact {
        Rec::Dropped { message } => {
            put_numbered(to, "✗ m", *message as u64);
            to.put(b" dropped")
        }
        Rec::Void { reply, ending, .. } => put_ended(to, names, *reply, void_word(*ending)),
        Rec::Prio { priority, .. } => put_numbered(to, "priority ", priority.0 as u64),
        Rec::Made { object, .. } => put_said(to, names, *object, " made"),
        Rec::Closed { object } => put_ended(to, names, *object, " closed"),
        _ => put_word_mark(alloc, to, names, fact),
    }
}
