//! The open messages.
ghost use Rattle.std.specs.Prelude.{◌≡◌, ◌≤◌, IfOk, IsSome, None, Some, length, option_copied, vec_capacity, vec_len};
ghost use Rattle.mcs_types.specs.declared.id.ObjId.{ObjId};
ghost use Rattle.mcs_types.specs.declared.id.Kind.{Kind};
ghost use Rattle.mcs_types.specs.Ids.{IsThread};
ghost use Rattle.mcs_objects.specs.Places.{KeepsAt, kept_at};
ghost use Rattle.mcs_book.specs.Statuses.{letter_mail};
ghost use Rattle.mcs_threads.specs.Tables.{made, row_of, SameRows, SetsMail};
ghost use Rattle.mcs_state.specs.Tables.{ROOM};

use mcs_objects::{keep, kept_at, take};
use mcs_threads::Threads;
use mcs_types::{Kind, Letter, Mail, Message, OBJECTS, ObjId, OutOfMemory, emptied};
use std::alloc::Global;
use std::marker::Model;

/// An open message, with a spare copy for the receiver's answer. Clauses see the letter.
#[derive(Drop)]
pub struct OpenLetter {
    pub letter: Letter,
    pub answer: Option<Box<Message>>,
}

impl Model for OpenLetter {
    ghost use Rattle.mcs_types.specs.declared.record.Letter.{Letter};
    ghost use Rattle.mcs_types.specs.Messages.{IsSpare};

    ghost Value = { Letter };

    ghost view = { λ o. o.letter };

    ghost invariant = { λ o. IsSpare o.answer o.letter.message };
}

impl OpenLetter {
    /// The letter.
    pub fn letter(&self) -> &Letter
        ensures { result.now ≡ self.now }
    {
        &self.letter
    }

    /// Returns a copy. `OutOfMemory` if an allocation fails.
    fn copy(&self, alloc: Global) -> Result<OpenLetter, OutOfMemory>
        ensures { IfOk result (λ o. o ≡ self.now) }
    {
        let letter = &self.letter;
        let answer = letter.message.spare(alloc)?;
        let letter = Letter {
            number: letter.number,
            sender: letter.sender,
            endpoint: letter.endpoint,
            mode: letter.mode,
            badge: letter.badge,
            message: letter.message.copy(alloc)?,
        };
        Ok(OpenLetter { letter, answer })
    }
}

/// Returns a copy of the open message of a place, if there is one.
fn copied(alloc: Global, letter: &Option<OpenLetter>) -> Result<Option<OpenLetter>, OutOfMemory>
    ensures { IfOk result (λ o. o ≡ letter.now) }
{
    match letter {
        Some(letter) => Ok(Some(letter.copy(alloc)?)),
        None => Ok(None),
    }
}

/// The open messages of threads, each at the index of its sender, up to the last sender there was,
/// so that copies are small. All memory is allocated when the list is made. Clauses see the places.
pub struct Letters {
    places: Vec<Option<OpenLetter>>,
}

impl Model for Letters {
    ghost use Rattle.std.specs.Prelude.{List, Option, ◌≤◌, vec_len, vec_capacity};
    ghost use Rattle.mcs_types.specs.declared.record.Letter.{Letter};
    ghost use Rattle.mcs_state.specs.Tables.{ROOM};

    ghost Value = { List (Option Letter) };

    ghost view = { λ l. l.places.items };

    ghost invariant = { λ l. (vec_len l.places ≤ ROOM) × (ROOM ≤ vec_capacity l.places) };
}

// Written by hand as a separate function: a derived drop would be proved again wherever a state is
// dropped.
impl Drop for Letters {
    fn drop(self) {
        let Letters { places: _ } = self;
    }
}

/// Clones open messages, at most 256, with this capacity, in the memory of spare ones.
fn copied_places(
    alloc: Global,
    spare: Vec<Option<OpenLetter>>,
    places: &[Option<OpenLetter>],
) -> Result<Vec<Option<OpenLetter>>, OutOfMemory>
    requires { length places.now ≤ ROOM }
    ensures places { IfOk result (λ v. v.items ≡ places.now) }
    ensures room { IfOk result (λ v. ROOM ≤ vec_capacity v) }
{
    let mut copies = emptied(spare, OBJECTS as usize)?;
    for place in places {
        copies.push_reserved(copied(alloc, place)?);
    }
    Ok(copies)
}

/// Lengthens the list to at least `count` places; new ones have no open message.
fn make_places(places: &mut Vec<Option<OpenLetter>>, count: usize)
    requires count { count ≤ ROOM }
    requires few { vec_len places.old ≤ ROOM }
    requires room { ROOM ≤ vec_capacity places.old }
    ensures kept { (x : ObjId)
        → kept_at Kind.Thread places.new.items x ≡ kept_at Kind.Thread places.old.items x }
    ensures many { count ≤ length places.new.items }
    ensures few { vec_len places.new ≤ ROOM }
    ensures room { ROOM ≤ vec_capacity places.new }
{
    for _ in places.len()..count {
        places.push_reserved(None);
    }
}

impl Letters {
    /// Returns a list without open messages, with room for all threads.
    pub fn new(alloc: Global) -> Result<Letters, OutOfMemory>
        ensures { IfOk result (λ l. (x : ObjId) → kept_at Kind.Thread l x ≡ None) }
    {
        Ok(Letters {
            places: Vec::with_capacity(alloc, OBJECTS as usize)?,
        })
    }

    /// The places.
    fn into_places(self) -> Vec<Option<OpenLetter>> {
        let Letters { places } = self;
        places
    }

    /// Clones the open messages in the memory of spare ones. `OutOfMemory` if an allocation fails.
    pub fn copy(&self, alloc: Global, spare: Option<Letters>) -> Result<Letters, OutOfMemory>
        ensures { IfOk result (λ l. l ≡ self.now) }
    {
        let spare = match spare {
            Some(spare) => spare.into_places(),
            None => Vec::new(alloc),
        };
        Ok(Letters {
            places: copied_places(alloc, spare, &self.places)?,
        })
    }

    /// The open message of a thread.
    pub fn of(&self, thread: ObjId) -> Option<&Letter>
        ensures { option_copied result ≡ kept_at Kind.Thread self.now thread }
    {
        match kept_at(Kind::Thread, &self.places, thread) {
            None => None,
            Some(open) => Some(open.letter()),
        }
    }

    /// Adds an open message of a thread whose serial is at most 256.
    pub fn open(&mut self, sender: ObjId, letter: OpenLetter)
        requires { IsThread sender }
        ensures { KeepsAt Kind.Thread self.old self.new sender (Some letter) }
    {
        make_places(&mut self.places, sender.serial as usize);
        keep(Kind::Thread, &mut self.places, sender, Some(letter));
    }

    /// Removes and returns the open message of a thread. Returns None, and changes nothing, if it
    /// has none.
    pub fn close(&mut self, sender: ObjId) -> Option<OpenLetter>
        ensures value { result ≡ kept_at Kind.Thread self.old sender }
        ensures kept { KeepsAt Kind.Thread self.old self.new sender None }
    {
        take(Kind::Thread, &mut self.places, sender)
    }
}

/// Delivers a letter to the mail of its receiver, which must exist. Returns an equal message.
// inlined, so that the letter is moved once less
#[inline(always)]
pub fn deliver(threads: &mut Threads, receiver: ObjId, letter: OpenLetter) -> Message
    requires { IsSome (row_of threads.old receiver) }
    ensures mails { SetsMail threads.old threads.new receiver (Some (letter_mail letter)) }
    ensures rows { SameRows threads.old threads.new }
    ensures made { made threads.new ≡ made threads.old }
    ensures answer { result ≡ letter.message }
{
    let OpenLetter { letter, answer } = letter;
    let answer = letter.message.spared(answer);
    let mail = Mail::Message {
        badge: letter.badge,
        message: letter.message,
    };
    threads.set_mail(receiver, mail).unwrap();
    answer
}
