//! What a call of a seat needs besides the kernel, allocated before the lock is taken (own).
ghost use Rattle.std.specs.Prelude.{◌≡◌, ◌⊎◌, true, IfOk, IsSome};
ghost use Rattle.mcs_types.specs.Brings.{IsPlain};

use mcs_types::{Answer, Entry, OutOfMemory, Room};
use std::alloc::Global;
use std::marker::Model;

/// An entry, the seat's copy of it, and room for the seat's copy of a received message. Clauses see
/// the entry.
#[derive(Drop)]
pub struct Prepared {
    pub(crate) entry: Entry,
    pub(crate) kept: Entry,
    pub(crate) room: Option<Room>,
}

impl Model for Prepared {
    ghost use Rattle.std.specs.Prelude.{◌≡◌, true, IsSome};
    ghost use Rattle.mcs_types.specs.Brings.{receives};
    ghost use Rattle.mcs_types.specs.declared.entry.Entry.{Entry};

    ghost Value = { Entry };

    ghost view = { λ p. p.entry };

    ghost invariant = { λ p. (p.kept ≡ p.entry) × (receives p.entry ≡ true → IsSome p.room) };
}

impl Prepared {
    /// Returns an entry with its copy, and with room if it receives. `OutOfMemory` if an allocation
    /// fails.
    pub(crate) fn new(alloc: Global, entry: Entry) -> Result<Prepared, OutOfMemory>
        ensures { IfOk result (λ p. p ≡ entry) }
    {
        let kept = entry.copy(alloc)?;
        let room = if entry.receives() {
            Some(Room::new(alloc)?)
        } else {
            None
        };
        Ok(Prepared { entry, kept, room })
    }
}

/// Returns an equal answer; there must be room, unless it has no message.
pub(crate) fn copy_answer(alloc: Global, answer: &Answer, room: Option<Room>) -> Answer
    requires { IsSome room ⊎ IsPlain answer.now }
    ensures { result ≡ answer.now }
{
    match room {
        Some(room) => answer.copy_into(alloc, room),
        None => answer.copy_plain(),
    }
}
