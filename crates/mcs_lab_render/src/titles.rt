//! The title of a picture, from its script.
use crate::texts::{cut, take_text};
use mcs_lab_inspect::TextBuffer;
use mcs_text::Lines;
use std::alloc::{AllocError, Global};
use std::str;

/// The most columns of a title.
const TITLE_COLUMNS: u64 = 200;

/// Returns the text of a comment: a line that begins with `#` and a blank, and has more than
/// blanks.
fn comment_of(line: &[u8]) -> Option<&str> {
    let [b'#', b' ', rest @ ..] = line else {
        return None;
    };
    let Ok(text) = str::from_utf8(rest) else {
        return None;
    };
    let words = text.trim();
    if words.is_empty() { None } else { Some(words) }
}

/// Appends a line of a comment up to the end of its first sentence. Returns true if the sentence
/// ends there.
fn put_sentence(to: &mut TextBuffer, words: &str) -> bool {
    if let Some((sentence, _)) = words.split_once(". ") {
        to.put(sentence.as_bytes());
        return true;
    }
    to.put(words.trim_end_matches(".").as_bytes());
    words.ends_with(".")
}

/// Appends the first sentence of the first comment, without its full stop; nothing if there is no
/// comment.
fn put_first_sentence(to: &mut TextBuffer, text: &[u8]) {
    let mut has_begun = false;
    let mut lines = Lines::new(text);
    for _ in 0..=text.len() {
        let Some(line) = lines.next_line() else {
            return;
        };
        match comment_of(line) {
            Some(words) => {
                if has_begun {
                    to.put(b" ");
                }
                if put_sentence(to, words) {
                    return;
                }
                has_begun = true;
            }
            None if has_begun => return,
            None => {}
        }
    }
}

/// Returns whether a text has lines with answers of steps, as traces have.
fn is_trace(text: &[u8]) -> bool {
    let mut lines = Lines::new(text);
    for _ in 0..=text.len() {
        match lines.next_line() {
            Some([b'=', ..]) => return true,
            Some(_) => {}
            None => return false,
        }
    }
    false
}

/// Returns what kind of file a script is.
fn kind_of(text: &[u8]) -> &'static str {
    if is_trace(text) {
        "A trace of mcssim"
    } else {
        "A script of steps"
    }
}

/// Returns the title of a script: the first sentence of its first comment, or what kind of file it
/// is.
pub fn title_of(alloc: Global, text: &[u8]) -> Result<String, AllocError> {
    let mut page = TextBuffer::new(alloc)?;
    put_first_sentence(&mut page, text);
    let said = take_text(alloc, &mut page)?;
    let title = if said.is_empty() {
        kind_of(text)
    } else {
        said.as_str()
    };
    cut(alloc, title, TITLE_COLUMNS)
}
