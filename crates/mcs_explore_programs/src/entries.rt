//! The entries of a program: how they are read, with the values in their messages.
use crate::alternatives::Word;
use crate::code::{Code, Filled, ProgramEntry};
use crate::fault::ProgramFault;
use crate::keywords::label_place;
use crate::slots::Slots;
use crate::statement::{Statement, hexadecimal};
use crate::values::source_of;
use mcs_text::read_user;
use mcs_turns::{Op, Slot, Source};
use mcs_types::{MESSAGE_WORDS, ObjId, Room};
use std::alloc::{AllocError, Global};

/// An entry that is read word by word.
#[derive(Drop)]
struct EntryLine {
    alloc: Global,
    /// The entry as a line of a user, with 0 for each value.
    line: Vec<u8>,
    /// The entry as the script has it.
    text: Vec<u8>,
    /// The place of the label, if the entry has a message.
    label: Option<usize>,
    /// How many words were taken.
    count: usize,
}

/// Returns whether a word is a value that is filled in.
fn is_filled(word: &[u8]) -> bool {
    matches!(word, [b'$', ..])
}

impl EntryLine {
    /// Returns the entry of a thread, as far as its first word.
    fn new(alloc: Global, thread: ObjId, key: &[u8]) -> Result<EntryLine, AllocError> {
        let serial = thread.serial;
        let head = format!(in alloc; "user t{serial} ")?;
        let mut line = Vec::from_slice(alloc, head.as_bytes())?;
        line.extend_from_slice(key)?;
        Ok(EntryLine {
            alloc,
            line,
            text: Vec::from_slice(alloc, key)?,
            label: label_place(key),
            count: 1,
        })
    }

    /// Adds a word to the line: 0 for a value, and decimal for a number after `0x`.
    fn add_to_line(&mut self, word: &[u8]) -> Result<(), AllocError> {
        self.line.push(b' ')?;
        if is_filled(word) {
            return Ok(self.line.push(b'0')?);
        }
        match hexadecimal(word) {
            Some(number) => {
                let digits = format!(in self.alloc; "{number}")?;
                self.line.extend_from_slice(digits.as_bytes())?;
            }
            None => self.line.extend_from_slice(word)?,
        }
        Ok(())
    }

    /// Adds the next word.
    fn add(&mut self, word: &[u8]) -> Result<(), AllocError> {
        self.add_to_line(word)?;
        self.text.push(b' ')?;
        self.text.extend_from_slice(word)?;
        self.count = self.count.saturating_add(1);
        Ok(())
    }

    /// Returns which word of the message the next word is; None for the label. `NoMessage` if it is
    /// neither.
    fn message_word(&self, word: &[u8]) -> Result<Option<u8>, ProgramFault> {
        if let Some(label) = self.label {
            if self.count == label {
                return Ok(None);
            }
            if let Some(place) = self.count.checked_sub(label.saturating_add(1))
                && place < MESSAGE_WORDS
                && let Ok(place) = u8::try_from(place)
            {
                return Ok(Some(place));
            }
        }
        Err(ProgramFault::NoMessage {
            word: Word::new(self.alloc, word)?,
        })
    }

    /// Reads the entry.
    fn read(self, thread: ObjId) -> Result<ProgramEntry, ProgramFault> {
        let mut room = Some(Room::new(self.alloc)?);
        match read_user(self.alloc, thread.serial, self.line.as_slice(), &mut room) {
            Ok(said) => Ok(ProgramEntry {
                entry: said.entry,
                text: self.text,
            }),
            Err(why) => Err(ProgramFault::Entry { why }),
        }
    }
}

/// Returns the slot for a value in a message: that of the kept word, or a slot of its own, to which
/// the value is assigned before the entry.
fn slot_of(code: &mut Code, slots: &mut Slots, source: Source) -> Result<Slot, ProgramFault> {
    match source {
        Source::Saved(slot) => Ok(slot),
        source => {
            let slot = slots.hold_value()?;
            code.push(Op::Keep(slot, source))?;
            Ok(slot)
        }
    }
}

/// Takes the rest of an entry of a thread after its first word, and adds the lines that give the
/// entry.
pub fn read_entry(
    alloc: Global,
    thread: ObjId,
    key: &[u8],
    statement: &mut Statement<'_>,
    code: &mut Code,
    slots: &mut Slots,
) -> Result<(), ProgramFault> {
    let kept = slots.count();
    let mut filled = Vec::new(alloc);
    let mut line = EntryLine::new(alloc, thread, key)?;
    for _ in 0..statement.left() {
        let word = statement.need("a word")?;
        if is_filled(word) {
            let place = line.message_word(word)?;
            let source = source_of(statement, slots, word)?;
            let from = slot_of(code, slots, source)?;
            filled.push(Filled { word: place, from })?;
        }
        line.add(word)?;
    }
    let entry = line.read(thread)?;
    code.give(entry, filled.as_slice())?;
    code.release(slots, kept)?;
    Ok(())
}
