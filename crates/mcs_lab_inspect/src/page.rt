//! A text buffer for reports.
use mcs_lab_check::{LabFault, Labels, put_shown};
use mcs_text::Token;
use mcs_trace::{Line, spell};
use mcs_types::{ObjId, Queue};
use std::alloc::{AllocError, Global};
use std::io::Write;

/// How JSON writes numbers of up to 64 bits; JavaScript rounds those above 2^53.
#[derive(Clone, Copy, PartialEq, Eq)]
pub enum Numbers {
    Integers,
    Texts,
}

/// A text buffer. After a failed allocation it ignores all that is appended and writes nothing any
/// more, so callers need not check each append.
#[derive(Drop)]
pub struct TextBuffer {
    text: Vec<u8>,
    word: Box<Line>,
    numbers: Numbers,
    is_cut: bool,
}

/// Returns whether a byte needs no escape in a JSON text.
fn is_plain(byte: u8) -> bool {
    byte >= b' ' && byte <= b'~' && byte != b'"' && byte != b'\\'
}

impl TextBuffer {
    /// Returns an empty text. `AllocError` if an allocation fails.
    pub fn new(alloc: Global) -> Result<TextBuffer, AllocError> {
        Ok(TextBuffer {
            text: Vec::new(alloc),
            word: Box::new(alloc, Line::new())?,
            numbers: Numbers::Integers,
            is_cut: false,
        })
    }

    /// Sets how `wide` appends numbers; at first as integers.
    pub fn set_numbers(&mut self, numbers: Numbers) {
        self.numbers = numbers;
    }

    /// Marks the buffer as incomplete: an allocation failed.
    pub fn cut(&mut self) {
        self.is_cut = true;
    }

    /// Appends bytes.
    pub fn put(&mut self, bytes: &[u8]) {
        if self.text.extend_from_slice(bytes).is_err() {
            self.is_cut = true;
        }
    }

    /// Appends bytes of the input as messages show them: unprintable ones as `\x1b`.
    pub fn shown(&mut self, bytes: &[u8]) {
        if put_shown(&mut self.text, bytes).is_err() {
            self.is_cut = true;
        }
    }

    /// Appends a word as traces spell it.
    pub fn word(&mut self, token: &Token) {
        spell(&mut self.word, token);
        if self.text.extend_from_slice(self.word.text()).is_err() {
            self.is_cut = true;
        }
    }

    /// Appends a number.
    pub fn number(&mut self, number: u64) {
        self.word(&Token::Number(number));
    }

    /// Appends a text, or notes that its allocation failed.
    pub fn made(&mut self, text: Result<String, AllocError>) {
        match text {
            Ok(text) => self.put(text.as_bytes()),
            Err(_) => self.is_cut = true,
        }
    }

    /// Appends a count.
    pub fn count(&mut self, count: usize) {
        self.number(count as u64);
    }

    /// Appends a count with its noun: `1 step`, `2 steps`.
    pub fn counted(&mut self, count: usize, noun: &str) {
        self.count(count);
        self.put(b" ");
        self.put(noun.as_bytes());
        if count != 1 {
            self.put(b"s");
        }
    }

    /// Appends the escape of an unprintable byte in JSON.
    fn put_code(&mut self, byte: u8) {
        if write!(&mut self.text, "\\u{byte:04x}").is_err() {
            self.is_cut = true;
        }
    }

    /// Appends a text as JSON has it in quotes: a backslash before quotes and backslashes, and
    /// escapes for unprintable characters.
    pub fn escaped(&mut self, text: &[u8]) {
        if text.iter().all(|byte| is_plain(*byte)) {
            return self.put(text);
        }
        for byte in text {
            match *byte {
                b'"' | b'\\' => self.put(&[b'\\', *byte]),
                b' '..=b'~' => self.put(&[*byte]),
                other => self.put_code(other),
            }
        }
    }

    /// Appends the name of an object in parentheses, if it has one.
    fn name(&mut self, names: &Labels, object: ObjId) {
        if let Some(name) = names.of(object) {
            self.put(b" (");
            self.put(name);
            self.put(b")");
        }
    }

    /// Appends an object, with its name where it has one: `t1 (client)`.
    pub fn object(&mut self, names: &Labels, object: ObjId) {
        self.word(&Token::Name(object));
        self.name(names, object);
    }

    /// Appends a queue, with the name of its object where it has one.
    pub fn queue(&mut self, names: &Labels, queue: Queue) {
        self.word(&Token::Line(queue));
        match queue {
            Queue::Senders(object) | Queue::Receivers(object) | Queue::Waiters(object) => {
                self.name(names, object)
            }
        }
    }

    /// Returns what was appended since the last write. `OutOfMemory` if an allocation failed.
    pub fn text(&self) -> Result<&[u8], LabFault> {
        if self.is_cut {
            return Err(LabFault::OutOfMemory);
        }
        Ok(self.text.as_slice())
    }

    /// Writes what was appended, and empties the buffer.
    pub fn write<W: Write>(&mut self, to: &mut W) -> Result<(), LabFault> {
        if self.is_cut {
            return Err(LabFault::OutOfMemory);
        }
        to.write_all(self.text.as_slice())?;
        self.text.clear();
        Ok(())
    }
}

/// Appends the parts of a JSON text. A later member is one that is not the first of its object.
impl TextBuffer {
    /// Appends a text between quotes.
    pub fn quoted(&mut self, text: &[u8]) {
        self.put(b"\"");
        self.escaped(text);
        self.put(b"\"");
    }

    /// Appends a word of traces between quotes.
    pub fn quoted_word(&mut self, token: &Token) {
        self.put(b"\"");
        self.word(token);
        self.put(b"\"");
    }

    /// Appends a number of a kind that has up to 64 bits.
    pub fn wide(&mut self, number: u64) {
        match self.numbers {
            Numbers::Integers => self.number(number),
            Numbers::Texts => self.quoted_word(&Token::Number(number)),
        }
    }

    /// Appends an object, or `null`.
    pub fn maybe(&mut self, object: Option<ObjId>) {
        match object {
            Some(object) => self.quoted_word(&Token::Name(object)),
            None => self.put(b"null"),
        }
    }

    /// Appends the separator before an item, unless it is the first.
    pub fn between(&mut self, is_first: bool) {
        if !is_first {
            self.put(b",");
        }
    }

    /// Appends the name of a later member, up to its value.
    pub fn key(&mut self, name: &str) {
        self.put(b",\"");
        self.put(name.as_bytes());
        self.put(b"\":");
    }

    /// Appends a later member whose value is a text.
    pub fn text_member(&mut self, name: &str, text: &[u8]) {
        self.key(name);
        self.quoted(text);
    }

    /// Appends a later member whose value is a count.
    pub fn count_member(&mut self, name: &str, count: usize) {
        self.key(name);
        self.count(count);
    }

    /// Appends a later member whose value is true or false.
    pub fn flag_member(&mut self, name: &str, flag: bool) {
        let word = if flag { "true" } else { "false" };
        self.key(name);
        self.put(word.as_bytes());
    }

    /// Appends the name of an object as a later member, if it has one.
    pub fn name_member(&mut self, names: &Labels, object: ObjId) {
        if let Some(name) = names.of(object) {
            self.text_member("name", name);
        }
    }
}
