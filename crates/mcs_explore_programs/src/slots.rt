//! The kept words of a program: each has a slot for the duration of its block or its entry.
use crate::alternatives::{Listed, Word};
use crate::fault::ProgramFault;
use mcs_turns::Slot;
use std::alloc::{AllocError, Global};

/// How many words are kept at a time.
const SLOTS: usize = 4;

/// What a slot is for.
#[derive(Drop)]
enum Holder {
    /// A word of this name.
    Name(Vec<u8>),
    /// The rounds of a loop.
    Rounds,
    /// A value in the message of an entry.
    Value,
}

/// The slots in use; the last one taken is freed first.
#[derive(Drop)]
pub struct Slots {
    alloc: Global,
    holders: Vec<Holder>,
}

/// The slot of a number, from 0.
fn slot_at(number: usize) -> Option<Slot> {
    match number {
        0 => Some(Slot::A),
        1 => Some(Slot::B),
        2 => Some(Slot::C),
        3 => Some(Slot::D),
        _ => None,
    }
}

impl Holder {
    /// Returns whether it is the kept word of this name.
    fn is_named(&self, name: &[u8]) -> bool {
        match self {
            Holder::Name(other) => other.as_slice() == name,
            Holder::Rounds | Holder::Value => false,
        }
    }
}

impl Slots {
    /// Returns slots that are all free.
    pub fn new(alloc: Global) -> Slots {
        Slots {
            alloc,
            holders: Vec::new(alloc),
        }
    }

    /// Returns how many are taken.
    pub fn count(&self) -> usize {
        self.holders.len()
    }

    /// The slot with a number, from 0, of those that are taken.
    pub fn at(&self, number: usize) -> Option<Slot> {
        if number < self.holders.len() {
            slot_at(number)
        } else {
            None
        }
    }

    /// The slot of a name, if a word of it is kept.
    pub fn find(&self, name: &[u8]) -> Option<Slot> {
        slot_at(
            self.holders
                .iter()
                .position(|holder| holder.is_named(name))?,
        )
    }

    /// Returns the slot of a name. `NotKept` if no word of this name is kept.
    pub fn need(&self, name: &[u8]) -> Result<Slot, ProgramFault> {
        match self.find(name) {
            Some(slot) => Ok(slot),
            None => Err(ProgramFault::NotKept {
                word: Word::new(self.alloc, name)?,
                there: self.names()?,
            }),
        }
    }

    /// The names of the words that are kept.
    fn names(&self) -> Result<Listed, AllocError> {
        let mut there = Listed::new(self.alloc);
        for holder in self.holders.iter() {
            match holder {
                Holder::Name(name) => there.add(name.as_slice())?,
                Holder::Rounds | Holder::Value => {}
            }
        }
        Ok(there)
    }

    /// Takes a slot. `ManyWords` if all are in use.
    fn hold(&mut self, holder: Holder) -> Result<Slot, ProgramFault> {
        let Some(slot) = slot_at(self.holders.len()) else {
            return Err(ProgramFault::ManyWords { limit: SLOTS });
        };
        self.holders.push(holder)?;
        Ok(slot)
    }

    /// Takes a slot for a word of this name.
    pub fn hold_name(&mut self, name: &[u8]) -> Result<Slot, ProgramFault> {
        let name = Vec::from_slice(self.alloc, name)?;
        self.hold(Holder::Name(name))
    }

    /// Takes a slot for the rounds of a loop.
    pub fn hold_rounds(&mut self) -> Result<Slot, ProgramFault> {
        self.hold(Holder::Rounds)
    }

    /// Takes a slot for a value in a message.
    pub fn hold_value(&mut self) -> Result<Slot, ProgramFault> {
        self.hold(Holder::Value)
    }

    /// Frees the slot taken last, if more than `count` are in use.
    pub fn release(&mut self, count: usize) -> Option<Slot> {
        let last = self.holders.len().checked_sub(1)?;
        if last < count {
            return None;
        }
        self.holders.pop();
        slot_at(last)
    }
}
