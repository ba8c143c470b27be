//! Texts on a page: their width, cutting, and escapes.
use mcs_lab_inspect::TextBuffer;
use std::alloc::{AllocError, Global};
use unicode_width::{UnicodeWidthChar, UnicodeWidthStr};

/// Returns how many columns a text takes.
pub fn columns(text: &str) -> u64 {
    text.width() as u64
}

/// Returns a text of at most `most` columns: a wider one is cut, and ends with dots.
pub fn cut(alloc: Global, text: &str, most: u64) -> Result<String, AllocError> {
    let mut kept = String::new(alloc);
    if columns(text) <= most {
        kept.push_str(text)?;
        return Ok(kept);
    }
    let mut taken: u64 = 1;
    for one in text.chars() {
        taken = taken.saturating_add(one.width().unwrap_or(0) as u64);
        if taken > most {
            break;
        }
        kept.push(one)?;
    }
    kept.push('…')?;
    Ok(kept)
}

/// Returns the escape for a byte on a page of XML, after the two bytes `before`; None if it needs
/// none. What XML cannot contain becomes a blank, or U+FFFD.
fn form_of(before: [u8; 2], one: u8) -> Option<&'static [u8]> {
    match one {
        b'&' => Some(b"&amp;"),
        b'<' => Some(b"&lt;"),
        b'>' => Some(b"&gt;"),
        b'"' => Some(b"&quot;"),
        b'\0'..=b' ' => Some(b" "),
        // the last byte of U+FFFE and of U+FFFF
        0xbe | 0xbf if before == [0xef, 0xbf] => Some(b"\xbd"),
        _ => None,
    }
}

/// Appends the bytes of a text between two positions.
fn put_part(to: &mut TextBuffer, text: &[u8], first: usize, end: usize) {
    if let Some(part) = text.get(first..end) {
        to.put(part);
    }
}

/// Appends a text, escaped for XML.
pub fn put_escaped(to: &mut TextBuffer, text: &str) {
    let text = text.as_bytes();
    let mut first = 0;
    let mut before = [0, 0];
    for (at, one) in text.iter().enumerate() {
        if let Some(form) = form_of(before, *one) {
            put_part(to, text, first, at);
            to.put(form);
            first = at.saturating_add(1);
        }
        before = [before[1], *one];
    }
    put_part(to, text, first, text.len());
}

/// Returns the contents of a page as a text, and empties the page.
pub fn take_text(alloc: Global, page: &mut TextBuffer) -> Result<String, AllocError> {
    let mut bytes = Vec::new(alloc);
    if page.write(&mut bytes).is_err() {
        return Err(AllocError);
    }
    match String::from_utf8(bytes) {
        Ok(text) => Ok(text),
        Err(_) => Err(AllocError),
    }
}

/// Words that are joined before they are written on a page.
#[derive(Drop)]
pub struct Words {
    alloc: Global,
    pub page: TextBuffer,
}

impl Words {
    /// Returns an empty list of words. `AllocError` if an allocation fails.
    pub fn new(alloc: Global) -> Result<Words, AllocError> {
        let page = TextBuffer::new(alloc)?;
        Ok(Words { alloc, page })
    }

    /// Returns the words as a text, and empties the list.
    pub fn take(&mut self) -> Result<String, AllocError> {
        take_text(self.alloc, &mut self.page)
    }

    /// Returns the words as a text of at most `most` columns, and empties the list.
    pub fn take_cut(&mut self, most: u64) -> Result<String, AllocError> {
        let text = self.take()?;
        cut(self.alloc, text.as_str(), most)
    }
}
