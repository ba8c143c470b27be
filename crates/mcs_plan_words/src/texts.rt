//! Texts of a plan's script with the plan's names: `fs: recv fs.ep fs.reply` for `0 t3 recv 1 2`,
//! and `fs.ep.recv` for `e1.recv (fs.ep)`.
use crate::numbers::{Next, Role, Spelling};
use mcs_lab_check::object_of;
use mcs_lab_forms::{Field, Fields, LooksUp, form_of, number_of};
use mcs_plan_compile::Script;
use mcs_text::Words;
use std::alloc::{AllocError, Global};
use std::str;

/// A plan's script, and how reports on it spell numbers.
#[derive(Clone, Copy)]
pub(crate) struct Voice<'a> {
    pub(crate) script: &'a Script,
    pub(crate) spelling: Spelling<'a>,
}

/// A thread of a script, by its index among the threads.
#[derive(Clone, Copy)]
pub(crate) struct Speaker<'a> {
    pub(crate) voice: Voice<'a>,
    pub(crate) place: usize,
}

/// Returns the index of a thread; None for a word that names no thread.
pub(crate) fn thread_place(word: &[u8]) -> Option<usize> {
    let object = object_of(word)?;
    match word {
        [b't', ..] => Some(object.serial.checked_sub(1)? as usize),
        _ => None,
    }
}

/// Returns what the number of a field of a step is. Only the words of a message repeat, so they
/// are also behind the last field.
fn role_of(field: Option<Field<'_>>) -> Role {
    match field {
        Some(field) if field.name == b"badge".as_slice() || field.is_last => Role::Value,
        Some(_) => Role::Count,
        None => Role::Value,
    }
}

impl<'a> Voice<'a> {
    /// Appends a word as it is, or as a number.
    fn add_plain(
        self,
        alloc: Global,
        to: &mut Vec<u8>,
        word: &[u8],
        role: Role,
    ) -> Result<(), AllocError> {
        match number_of(word) {
            Some(number) => self.spelling.add_number(alloc, to, number, role),
            None => to.extend_from_slice(word),
        }
    }
}

impl<'a> Speaker<'a> {
    /// Returns the name that the thread has for an address, if it has one.
    fn of_address(self, address: u64) -> Option<&'a str> {
        for named in self.voice.script.laid.tables.get(self.place)?.iter() {
            if named.address == Some(address) {
                return Some(named.name.as_str());
            }
        }
        None
    }

    /// Returns the name that the thread has for an index and a depth, if it has one.
    fn of_place(self, index: u64, depth: u64) -> Option<&'a str> {
        for named in self.voice.script.laid.tables.get(self.place)?.iter() {
            if named.place.index == index && u64::from(named.place.depth) == depth {
                return Some(named.name.as_str());
            }
        }
        None
    }

    /// Appends an address by its name; any other word unchanged.
    fn add_address(self, alloc: Global, to: &mut Vec<u8>, word: &[u8]) -> Result<(), AllocError> {
        let Some(address) = number_of(word) else {
            return to.extend_from_slice(word);
        };
        match self.of_address(address) {
            Some(name) => to.extend_from_slice(name.as_bytes()),
            None => {
                let spelling = self.voice.spelling;
                spelling.add_number(alloc, to, address, Role::Count)
            }
        }
    }

    /// Appends an index and the depth after it as the name of the slot, or both unchanged.
    fn add_place(
        self,
        alloc: Global,
        to: &mut Vec<u8>,
        word: &[u8],
        depth: &[u8],
    ) -> Result<(), AllocError> {
        if let (Some(index), Some(depth)) = (number_of(word), number_of(depth))
            && let Some(name) = self.of_place(index, depth)
        {
            return to.extend_from_slice(name.as_bytes());
        }
        self.voice.add_plain(alloc, to, word, Role::Count)?;
        to.extend_from_slice(b" ")?;
        self.voice.add_plain(alloc, to, depth, Role::Count)
    }

    /// Appends the word of an operand, or two for a place.
    fn add_operand(
        self,
        alloc: Global,
        to: &mut Vec<u8>,
        fields: &mut Fields<'_>,
        word: &[u8],
        words: &mut Words<'_>,
    ) -> Result<(), AllocError> {
        let field = fields.next_field();
        let looks_up = match field {
            Some(field) => field.looks_up,
            None => LooksUp::Nothing,
        };
        match looks_up {
            LooksUp::Nothing => self.voice.add_plain(alloc, to, word, role_of(field)),
            LooksUp::Address => self.add_address(alloc, to, word),
            LooksUp::Place => {
                fields.next_field();
                let depth = words.next_word().unwrap_or(b"".as_slice());
                self.add_place(alloc, to, word, depth)
            }
        }
    }

    /// Appends an entry of the thread, as a script spells it, with the names that the thread has.
    pub(crate) fn add_entry(
        self,
        alloc: Global,
        to: &mut Vec<u8>,
        entry: &[u8],
    ) -> Result<(), AllocError> {
        let mut words = Words::new(entry);
        let key = words.next_word().unwrap_or(b"".as_slice());
        to.extend_from_slice(key)?;
        let mut fields = match form_of(None, key) {
            Some(fields) => fields,
            None => Fields::none(),
        };
        for _ in 0..entry.len() {
            let Some(word) = words.next_word() else {
                break;
            };
            to.extend_from_slice(b" ")?;
            self.add_operand(alloc, to, &mut fields, word, &mut words)?;
        }
        Ok(())
    }
}

/// Appends the thread of a step, and its core if the machine has several.
fn add_head(
    to: &mut Vec<u8>,
    script: &Script,
    core: &[u8],
    thread: &[u8],
) -> Result<(), AllocError> {
    match named_word(script, thread) {
        Some(named) => to.extend_from_slice(named.name.as_bytes())?,
        None => to.extend_from_slice(thread)?,
    }
    if script.cores > 1 {
        to.extend_from_slice(b" on core ")?;
        to.extend_from_slice(core)?;
    }
    to.extend_from_slice(b": ")
}

/// Appends a step of a script with the plan's names; unchanged if it is none.
pub(crate) fn add_step(
    alloc: Global,
    to: &mut Vec<u8>,
    voice: Voice<'_>,
    step: &[u8],
) -> Result<(), AllocError> {
    let mut parts = step.splitn(3, |byte| *byte == b' ');
    let (Some(core), Some(thread), Some(entry)) = (parts.next(), parts.next(), parts.next()) else {
        return to.extend_from_slice(step);
    };
    let Some(place) = thread_place(thread) else {
        return to.extend_from_slice(step);
    };
    add_head(to, voice.script, core, thread)?;
    Speaker { voice, place }.add_entry(alloc, to, entry)
}

/// Returns a step of a script with the plan's names; an empty text for a line that is no step.
fn step_text(alloc: Global, voice: Voice<'_>, line: &[u8]) -> Result<String, AllocError> {
    let mut text = Vec::new(alloc);
    if matches!(line, [b'0'..=b'9', ..]) {
        add_step(alloc, &mut text, voice, line)?;
    }
    let mut step = String::new(alloc);
    if let Ok(said) = str::from_utf8(&text) {
        step.push_str(said)?;
    }
    Ok(step)
}

/// Returns for each line of a script the plan's text of its step; an empty one if it is none.
pub(crate) fn step_texts(
    alloc: Global,
    voice: Voice<'_>,
    text: &[u8],
) -> Result<Vec<String>, AllocError> {
    let mut texts = Vec::new(alloc);
    for line in text.split(|byte| *byte == b'\n') {
        texts.push(step_text(alloc, voice, line)?)?;
    }
    Ok(texts)
}

/// What a word of a report names: the name of an object, and the word's suffix, as `.recv`.
#[derive(Clone, Copy)]
struct NamedWord<'a> {
    name: &'a str,
    end: &'a [u8],
}

/// Returns how many bytes of a word are before its first dot; all if it has none.
fn object_len(word: &[u8]) -> usize {
    word.iter()
        .position(|byte| *byte == b'.')
        .unwrap_or(word.len())
}

/// Returns what a word names; None if it names no object that has a name.
fn named_word<'a>(script: &'a Script, word: &'a [u8]) -> Option<NamedWord<'a>> {
    let (object, end) = word.split_at_checked(object_len(word))?;
    let name = script.laid.plan.names.name_of(object_of(object)?);
    if name.as_bytes().is_empty() {
        return None;
    }
    Some(NamedWord { name, end })
}

/// Returns whether a byte may be one of a word that names an object, or of a number.
fn is_of_word(byte: u8) -> bool {
    byte.is_ascii_alphanumeric() || byte == b'.' || byte == b'_' || byte == b'-'
}

/// Returns the length of the run of word bytes, or of other bytes, at the beginning of a text.
fn run_len(text: &[u8], is_word: bool) -> usize {
    text.iter()
        .position(|byte| is_of_word(*byte) != is_word)
        .unwrap_or(text.len())
}

/// Returns a text after the name in parentheses with which it begins, if it is this one.
fn after_name<'a>(text: &'a [u8], name: &str) -> &'a [u8] {
    let Some(inner) = text.strip_prefix(b" (".as_slice()) else {
        return text;
    };
    let Some(inner) = inner.strip_prefix(name.as_bytes()) else {
        return text;
    };
    inner.strip_prefix(b")".as_slice()).unwrap_or(text)
}

/// Appends a word of a report that names no object, and returns what the next number is.
fn add_other(
    alloc: Global,
    to: &mut Vec<u8>,
    voice: Voice<'_>,
    next: Next,
    word: &[u8],
) -> Result<Next, AllocError> {
    voice.add_plain(alloc, to, word, next.role())?;
    match number_of(word) {
        Some(_) => Ok(next.after_number()),
        None => Ok(next.after_word(word)),
    }
}

/// Appends a text of a report, with the plan's names for objects.
pub(crate) fn add_text(
    alloc: Global,
    to: &mut Vec<u8>,
    voice: Voice<'_>,
    text: &[u8],
) -> Result<(), AllocError> {
    let mut left = text;
    let mut next = Next::Count;
    // each round takes at least one byte
    for _ in 0..text.len() {
        let Some((between, rest)) = left.split_at_checked(run_len(left, false)) else {
            break;
        };
        to.extend_from_slice(between)?;
        let Some((word, rest)) = rest.split_at_checked(run_len(rest, true)) else {
            break;
        };
        if word.is_empty() {
            break;
        }
        next = next.after_text(between);
        left = rest;
        if let Some(named) = named_word(voice.script, word) {
            to.extend_from_slice(named.name.as_bytes())?;
            to.extend_from_slice(named.end)?;
            left = after_name(rest, named.name);
        } else {
            next = add_other(alloc, to, voice, next, word)?;
        }
    }
    Ok(())
}
