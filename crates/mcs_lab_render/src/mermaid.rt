//! The picture as a `sequenceDiagram` of Mermaid.
use crate::labels::{Naming, put_full_name, put_id};
use crate::layout::plan_of;
use crate::plans::{Note, NoteKind, Plan, Row, RowKind, Stroke};
use crate::scene::Scene;
use crate::texts::{Words, take_text};
use mcs_lab_diagram::Shown;
use mcs_lab_inspect::TextBuffer;
use mcs_types::ObjId;
use std::alloc::{AllocError, Global};

/// Keywords of Mermaid, which no participant may have as its name.
const OWN_WORDS: &[&str] = &["actor", "as", "end", "note", "participant"];

/// Returns whether a word is a keyword of Mermaid, in any case.
fn is_own(word: &[u8]) -> bool {
    for own in OWN_WORDS {
        if word.eq_ignore_ascii_case(own.as_bytes()) {
            return true;
        }
    }
    false
}

/// Appends a letter as its character code.
fn put_number(to: &mut TextBuffer, letter: u8) {
    to.put(b"#");
    to.number(letter as u64);
    to.put(b";");
}

/// Appends a word; of a keyword of Mermaid the first letter becomes a character code.
fn put_word(to: &mut TextBuffer, word: &[u8]) {
    match word {
        [first, rest @ ..] if is_own(word) => {
            put_number(to, *first);
            to.put(rest)
        }
        _ => to.put(word),
    }
}

/// Appends a separator of words, after the byte `before`. Bytes that end a statement or belong to
/// an arrow become character codes or names.
fn put_between(to: &mut TextBuffer, before: u8, one: u8) {
    match one {
        b';' | b'#' => put_number(to, one),
        b'-' if before == b'-' => put_number(to, one),
        b'<' => to.put(b"#lt;"),
        b'>' => to.put(b"#gt;"),
        _ => to.put(&[one]),
    }
}

/// Appends the word between two positions of a text.
fn put_word_in(to: &mut TextBuffer, text: &[u8], first: usize, end: usize) {
    if let Some(word) = text.get(first..end) {
        put_word(to, word);
    }
}

/// Appends a text, with escapes for what Mermaid would parse.
fn put_text(to: &mut TextBuffer, text: &str) {
    let text = text.as_bytes();
    let mut first = 0;
    let mut before = b' ';
    for (at, one) in text.iter().enumerate() {
        if !one.is_ascii_alphanumeric() && *one != b'_' {
            put_word_in(to, text, first, at);
            put_between(to, before, *one);
            first = at.saturating_add(1);
        }
        before = *one;
    }
    put_word_in(to, text, first, text.len());
}

/// Appends a text, and ends the line.
fn put_plain(to: &mut TextBuffer, text: &str) {
    put_text(to, text);
    to.put(b"\n");
}

/// Appends the declaration of a lane.
fn put_participant<N: Naming>(words: &mut Words, to: &mut TextBuffer, names: &N, thread: ObjId) {
    to.put(b"    participant ");
    put_id(to, thread);
    to.put(b" as ");
    put_full_name(&mut words.page, names, thread);
    match words.take() {
        Ok(name) => put_plain(to, name.as_str()),
        Err(_) => to.cut(),
    }
}

/// Appends an arrow.
fn put_message(to: &mut TextBuffer, stroke: &Stroke) {
    let line = match stroke.arrow.shown {
        Shown::Message(_) => "->>",
        Shown::Answer(_) => "-->>",
        Shown::Word(_) => "-)",
    };
    to.put(b"    ");
    put_id(to, stroke.arrow.from.thread);
    to.put(line.as_bytes());
    put_id(to, stroke.arrow.to.thread);
    to.put(b": ");
    put_plain(to, stroke.label.as_str());
}

/// Appends the beginning of a note beside the lane of a thread.
fn put_over(to: &mut TextBuffer, thread: ObjId) {
    to.put(b"    Note over ");
    put_id(to, thread);
    to.put(b": ");
}

/// Appends a note beside a lane; the text of an arrow is at the arrow.
fn put_note(to: &mut TextBuffer, plan: &Plan, note: &Note) {
    let Some(thread) = plan.threads.get(note.lane) else {
        return;
    };
    if !matches!(note.kind, NoteKind::Label) {
        put_over(to, *thread);
        put_plain(to, note.text.as_str());
    }
}

/// Appends a step that did nothing, skipped or refused, at its thread.
fn put_idle_step(to: &mut TextBuffer, row: &Row) {
    let (Some(thread), RowKind::Away | RowKind::Refused) = (row.thread, row.kind) else {
        return;
    };
    put_over(to, thread);
    put_text(to, row.step.as_str());
    to.put(b" ");
    put_plain(to, row.result.as_str());
}

/// Appends the arrows of a row, from an index on. Returns the index of the first one after the row.
fn put_messages(to: &mut TextBuffer, strokes: &[Stroke], first: usize, row: usize) -> usize {
    for at in first..strokes.len() {
        match strokes.get(at) {
            Some(stroke) if stroke.row == row => put_message(to, stroke),
            _ => return at,
        }
    }
    strokes.len()
}

/// Appends the notes of a row, from an index on. Returns the index of the first one after the row.
fn put_notes(to: &mut TextBuffer, plan: &Plan, first: usize, row: usize) -> usize {
    for at in first..plan.notes.len() {
        match plan.notes.get(at) {
            Some(note) if note.row == row => put_note(to, plan, note),
            _ => return at,
        }
    }
    plan.notes.len()
}

/// Appends the rows of a page.
fn put_rows(to: &mut TextBuffer, plan: &Plan) {
    let mut stroke = 0;
    let mut note = 0;
    for (at, row) in plan.rows.iter().enumerate() {
        put_idle_step(to, row);
        stroke = put_messages(to, plan.strokes.as_slice(), stroke, at);
        note = put_notes(to, plan, note, at);
    }
}

/// Returns the picture of a scene as a diagram for Mermaid.
pub fn mermaid_of<N: Naming>(alloc: Global, scene: &Scene<'_, N>) -> Result<String, AllocError> {
    let plan = plan_of(alloc, scene)?;
    let mut words = Words::new(alloc)?;
    let mut page = TextBuffer::new(alloc)?;
    page.put(b"sequenceDiagram\n");
    for thread in scene.threads {
        put_participant(&mut words, &mut page, scene.names, *thread);
    }
    put_rows(&mut page, &plan);
    take_text(alloc, &mut page)
}
