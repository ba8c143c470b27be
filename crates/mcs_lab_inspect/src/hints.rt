//! Hints for a line that fits no form.
use crate::page::TextBuffer;
use mcs_lab_check::object_of;
use mcs_lab_forms::{Field, Fields, form_of, meant_by, number_of};
use mcs_text::Words;

/// What a form wants at a position.
#[derive(Clone, Copy, PartialEq, Eq)]
enum Wants {
    Number,
    Name,
    /// Rights, a mode, a kind or a capability: any word.
    Word,
}

/// Returns what a form wants for a word with this name.
fn wanted(name: &[u8], is_address: bool) -> Wants {
    if is_address {
        return Wants::Number;
    }
    match name {
        b"cnode" | b"thread" | b"notification" | b"context" => Wants::Name,
        b"rights" | b"mode" | b"kind" | b"capability" => Wants::Word,
        _ => Wants::Number,
    }
}

/// Returns whether a word fits what is expected.
fn fits(word: &[u8], wants: Wants) -> bool {
    match wants {
        Wants::Number => number_of(word).is_some(),
        Wants::Name => word == b"-".as_slice() || object_of(word).is_some(),
        Wants::Word => !word.is_empty(),
    }
}

/// Returns what is wrong with a word by itself; None if nothing is.
fn fault_of(word: &[u8]) -> Option<&'static [u8]> {
    match word {
        [] => Some(b" is empty: one space stands between two words\n".as_slice()),
        [b'#', ..] => Some(b": a remark has a line of its own\n".as_slice()),
        [b'0'..=b'9', ..] if number_of(word).is_none() => {
            Some(b": numbers are decimal, of 64 bits, and do not begin with 0\n".as_slice())
        }
        _ => None,
    }
}

/// Appends the number of a word.
fn put_number(page: &mut TextBuffer, number: u64) {
    page.put(b"  word ");
    page.number(number);
}

/// Appends what is wrong with a word by itself. Returns false if nothing is.
fn put_word_hint(page: &mut TextBuffer, number: u64, word: &[u8]) -> bool {
    match fault_of(word) {
        None => false,
        Some(fault) => {
            put_number(page, number);
            page.put(fault);
            true
        }
    }
}

/// Appends which key was meant, if one is near.
fn put_meant(page: &mut TextBuffer, number: u64, word: &[u8]) {
    put_number(page, number);
    page.put(b" \"");
    page.shown(word);
    match meant_by(word) {
        None => page.put(b"\" begins no entry and no line of the boot\n"),
        Some(key) => {
            page.put(b"\": ");
            page.put(key);
            page.put(b"?\n");
        }
    }
}

/// Appends that a word is missing or does not fit, and the word.
fn put_unlike(page: &mut TextBuffer, number: u64, fault: &[u8], name: &[u8]) {
    put_number(page, number);
    page.put(fault);
    page.put(name);
    page.put(b"\n");
}

/// Appends what is wrong with the word of this number, if the form has one there. Returns true if
/// no later word need be tried.
fn put_pair(page: &mut TextBuffer, number: u64, field: Field<'_>, word: Option<&[u8]>) -> bool {
    let Some(word) = word else {
        if !field.is_last {
            put_unlike(page, number, b" is missing: ", field.name);
        }
        return true;
    };
    if put_word_hint(page, number, word) || field.is_last {
        return true;
    }
    if fits(word, wanted(field.name, field.is_looked_up())) {
        return false;
    }
    put_unlike(page, number, b" does not fit: ", field.name);
    true
}

/// Appends the first word that a form does not allow.
fn put_misfit(
    page: &mut TextBuffer,
    fields: &mut Fields<'_>,
    words: &mut Words<'_>,
    before: u64,
    most: usize,
) {
    let mut number = before;
    for _ in 0..=most {
        number = number.saturating_add(1);
        let word = words.next_word();
        match fields.next_field() {
            None => {
                if word.is_some() {
                    put_number(page, number);
                    page.put(b" is one too many\n");
                }
                return;
            }
            Some(field) => {
                if put_pair(page, number, field, word) {
                    return;
                }
            }
        }
    }
}

/// Appends what may be wrong with the words after a key, which is the word of this number.
fn put_key_hints(
    page: &mut TextBuffer,
    words: &mut Words<'_>,
    key: &[u8],
    number: u64,
    most: usize,
) {
    if put_word_hint(page, number, key) {
        return;
    }
    match form_of(None, key) {
        None => put_meant(page, number, key),
        Some(mut fields) => put_misfit(page, &mut fields, words, number, most),
    }
}

/// Appends what may be wrong with a step, after its core.
fn put_step_hints(page: &mut TextBuffer, words: &mut Words<'_>, most: usize) {
    let Some(thread) = words.next_word() else {
        return page.put(b"  word 2 is missing: the thread that enters\n");
    };
    if object_of(thread).is_none() {
        return page.put(b"  word 2 names no thread, as t1 does\n");
    }
    match words.next_word() {
        None => page.put(b"  word 3 is missing: the entry\n"),
        Some(key) => put_key_hints(page, words, key, 3, most),
    }
}

/// Appends what may be wrong with a line that fits no form, or has a number out of range.
pub fn put_hints(page: &mut TextBuffer, line: &[u8]) {
    let mut words = Words::new(line);
    let Some(first) = words.next_word() else {
        return;
    };
    match first {
        [b'0'..=b'9', ..] => {
            if !put_word_hint(page, 1, first) {
                put_step_hints(page, &mut words, line.len());
            }
        }
        _ => put_key_hints(page, &mut words, first, 1, line.len()),
    }
}
