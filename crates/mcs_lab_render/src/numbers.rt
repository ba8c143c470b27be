//! Numbers as a picture has them: from 2^32 on in hexadecimal.
use mcs_lab_inspect::TextBuffer;
use std::alloc::Global;

/// From this number on, numbers are hexadecimal.
const LARGE: u64 = 4_294_967_296;

/// Returns whether a number is shown in hexadecimal.
pub fn is_large(number: u64) -> bool {
    number >= LARGE
}

/// Appends a number.
pub fn put_number(alloc: Global, to: &mut TextBuffer, number: u64) {
    if is_large(number) {
        to.made(format!(in alloc; "0x{number:x}"));
    } else {
        to.number(number);
    }
}

/// Appends a word, in the form for pictures if it is a number.
fn put_word(alloc: Global, to: &mut TextBuffer, word: &str) {
    match word.parse::<u64>() {
        Ok(number) if is_large(number) => put_number(alloc, to, number),
        _ => to.put(word.as_bytes()),
    }
}

/// Appends words separated by blanks, with numbers in the form for pictures.
pub fn put_words(alloc: Global, to: &mut TextBuffer, text: &str) {
    for (before, word) in text.split(' ').enumerate() {
        if before > 0 {
            to.put(b" ");
        }
        put_word(alloc, to, word);
    }
}
