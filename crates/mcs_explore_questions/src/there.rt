//! What a word of a question may name: threads, their entries, objects and their names.
ghost use Rattle.std.specs.Prelude.{◌≡◌, false, true, Some, OnOk, IfOk, IfErr, option_copied, string_bytes};
ghost use Rattle.std.specs.List.{find};
ghost use Rattle.mcs_text.specs.Spelling.{name_text};
ghost use Rattle.mcs_explore_questions.specs.Reading.{Refuses, is_of_memory};
ghost use Rattle.mcs_explore_questions.specs.There.{can_be, is_made_later, made, makes, makes_objects, user_makes_object, entries_by, entry_at, entry_by, event_of, is_label, labelled, named_by, numbered, object_by, scene_of, user_by, user_of};

use crate::fault::QuestionFault;
use crate::questions::{Entries, Event};
use mcs_explore_programs::{Label, Listed, ProgramFault, Word};
use mcs_lab_check::{Labels, Named, object_of};
use mcs_lab_forms::number_of;
use mcs_text::letter;
use mcs_types::{BootLine, Kind, ObjId};
use mcs_users::{UserList, Users};
use std::alloc::{AllocError, Global};

/// What a script has that questions can name: its boot, its users, the names of objects, and the
/// names of entries of programs.
#[derive(Clone, Copy)]
pub struct There<'a> {
    pub boot: &'a [BootLine],
    pub users: &'a Users,
    pub names: &'a Labels,
    pub labels: &'a [Label],
}

/// Returns whether a line of the boot makes an object of a kind.
fn makes(kind: Kind, line: &BootLine) -> bool
    ensures { result ≡ makes kind line.now }
{
    match line {
        BootLine::CNode { .. } => Kind::CNode.is_same(kind),
        BootLine::Endpoint => Kind::Endpoint.is_same(kind),
        BootLine::Notification => Kind::Notification.is_same(kind),
        BootLine::Reply => Kind::Reply.is_same(kind),
        BootLine::Context { .. } => Kind::Context.is_same(kind),
        BootLine::Thread { .. } => Kind::Thread.is_same(kind),
        BootLine::Slot { .. } | BootLine::Tie { .. } => false,
    }
}

/// Returns whether objects of a kind can be made after the boot.
fn is_made_later(kind: Kind) -> bool
    ensures { result ≡ is_made_later kind }
{
    match kind {
        Kind::CNode | Kind::Thread => false,
        Kind::Endpoint | Kind::Notification | Kind::Reply | Kind::Context => true,
    }
}

/// The id of an object as traces have it.
pub fn id_text(alloc: Global, object: ObjId) -> Result<String, AllocError>
    ensures { IfOk result (λ text. string_bytes text ≡ name_text object) }
{
    let serial = object.serial;
    let mut text = String::new(alloc);
    text.push(letter(object.kind) as char)?;
    let digits = format!(in alloc; "{serial}")?;
    text.push_str(digits.as_str())?;
    Ok(text)
}

/// The list of the user of a thread, if it has one.
pub(crate) fn list_of(users: &Users, thread: ObjId) -> Option<&UserList>
    ensures { option_copied result ≡ user_of users.now thread }
{
    users.at(users.find(thread)?)
}

/// Returns whether a user has an entry that makes an object.
fn user_makes_object(list: &UserList) -> bool
    ensures { result ≡ user_makes_object list.now }
{
    list.entries.iter().any(|entry| entry.makes_object())
}

impl<'a> There<'a> {
    /// Returns what a word names: an object, by its id or by a name of the script.
    fn named(&self, word: &[u8]) -> Named
        ensures { result ≡ named_by (scene_of self.now) word.now }
    {
        match object_of(word) {
            Some(object) => Named::One(object),
            None => self.names.find(word),
        }
    }

    /// Returns the object that a word names. `Several` if two have the name.
    pub fn object(&self, alloc: Global, word: &[u8]) -> Result<Option<ObjId>, QuestionFault>
        ensures said { IfOk result (λ o. object_by (scene_of self.now) word.now ≡ Some o) }
        ensures error { IfErr result (Refuses (object_by (scene_of self.now) word.now)) }
    {
        match self.named(word) {
            Named::Nothing => Ok(None),
            Named::One(object) => Ok(Some(object)),
            Named::Several => Err(QuestionFault::Several {
                word: Word::new(alloc, word)?,
            }),
        }
    }

    /// Returns how many objects of a kind the boot makes.
    fn count(&self, kind: Kind) -> usize
        ensures { result ≡ made (scene_of self.now) kind }
    {
        self.boot.iter().filter(|line| makes(kind, line)).count()
    }

    /// Returns whether a user has an entry that makes an object.
    fn makes_objects(&self) -> bool
        ensures { result ≡ makes_objects self.now.users.now }
    {
        self.users
            .lists()
            .iter()
            .any(|list| user_makes_object(list))
    }

    /// Returns whether an object can exist: the boot makes it, or a user may.
    fn can_be(&self, object: ObjId) -> bool
        ensures { result ≡ can_be (scene_of self.now) object }
    {
        object.serial as usize <= self.count(object.kind)
            || (is_made_later(object.kind) && self.makes_objects())
    }

    /// Fails with `NoObject` if the object that a word names can never exist.
    pub fn expect(&self, alloc: Global, word: &[u8], object: ObjId) -> Result<(), QuestionFault>
        ensures said { OnOk result (can_be (scene_of self.now) object ≡ true) }
        ensures error { IfErr result (λ e.
            is_of_memory e ≡ false → can_be (scene_of self.now) object ≡ false) }
    {
        if self.can_be(object) {
            return Ok(());
        }
        Err(QuestionFault::NoObject {
            word: Word::new(alloc, word)?,
            there: self.objects(alloc, object.kind)?,
        })
    }

    /// Returns the objects of a kind that the boot makes, as a list for a fault.
    fn objects(&self, alloc: Global, kind: Kind) -> Result<Listed, AllocError> {
        let mut listed = Listed::new(alloc);
        let mut serial: u32 = 0;
        for _ in 0..self.count(kind) {
            serial = serial.saturating_add(1);
            listed.add(id_text(alloc, ObjId { kind, serial })?.as_bytes())?;
        }
        Ok(listed)
    }

    /// The thread of the boot that a word names. `NoThread` if it names none, `Several` if two
    /// objects have the name.
    pub fn thread(&self, alloc: Global, word: &[u8]) -> Result<ObjId, ProgramFault> {
        match self.named(word) {
            Named::One(object) if self.is_thread(object) => Ok(object),
            Named::Several => Err(ProgramFault::Several {
                word: Word::new(alloc, word)?,
            }),
            Named::One(_) | Named::Nothing => Err(ProgramFault::NoThread {
                word: Word::new(alloc, word)?,
                there: self.objects(alloc, Kind::Thread)?,
            }),
        }
    }

    /// Returns whether an object is a thread of the boot.
    fn is_thread(&self, object: ObjId) -> bool {
        object.kind.is_same(Kind::Thread) && self.can_be(object)
    }

    /// Returns the threads that have entries, as a list for a fault.
    fn threads(&self, alloc: Global) -> Result<Listed, AllocError> {
        let mut listed = Listed::new(alloc);
        for list in self.users.lists() {
            listed.add(id_text(alloc, list.thread)?.as_bytes())?;
        }
        Ok(listed)
    }

    /// The fault of a word that names no user.
    fn no_user(&self, alloc: Global, word: &[u8]) -> Result<QuestionFault, AllocError>
        ensures { IfOk result (λ e. is_of_memory e ≡ false) }
    {
        Ok(QuestionFault::NoUser {
            word: Word::new(alloc, word)?,
            there: self.threads(alloc)?,
        })
    }

    /// The list of the user that a word names. `NoUser` if it names none.
    pub fn user(&self, alloc: Global, word: &[u8]) -> Result<&'a UserList, QuestionFault>
        ensures said { IfOk result (λ l. user_by (scene_of self.now) word.now ≡ Some l.now) }
        ensures error { IfErr result (Refuses (user_by (scene_of self.now) word.now)) }
    {
        let Some(thread) = self.object(alloc, word)? else {
            return Err(self.no_user(alloc, word)?);
        };
        match list_of(self.users, thread) {
            Some(list) => Ok(list),
            None => Err(self.no_user(alloc, word)?),
        }
    }
}

/// The entry of a user of this number, from 1 on.
fn entry_at(list: &UserList, number: u64) -> Option<Entries>
    ensures { result ≡ entry_at list.now number }
{
    if number == 0 || number > list.entries.len() as u64 {
        return None;
    }
    Some(Entries {
        first: number as usize,
        last: number as usize,
    })
}

/// Returns the entry of a user with the number that a word writes.
fn numbered(list: &UserList, word: &[u8]) -> Option<Entries>
    ensures { result ≡ numbered list.now word.now }
{
    entry_at(list, number_of(word)?)
}

/// Returns whether a label is the name of entries of this thread.
fn is_label(thread: ObjId, word: &[u8], label: &Label) -> bool
    ensures { result ≡ is_label thread word.now label.now }
{
    label.thread.is_same(thread) && label.name.as_slice() == word
}

/// Returns the first label of a thread that is this word.
fn label_of<'l>(labels: &'l [Label], thread: ObjId, word: &[u8]) -> Option<&'l Label>
    ensures { option_copied result ≡ find (is_label thread word.now) labels.now }
{
    labels.iter().find(|label| is_label(thread, word, label))
}

impl<'a> There<'a> {
    /// Returns the entries of a user that a word names.
    pub fn labelled(&self, list: &UserList, word: &[u8]) -> Option<Entries>
        ensures { result ≡ labelled (scene_of self.now) list.now word.now }
    {
        let label = label_of(self.labels, list.thread, word)?;
        Some(Entries {
            first: label.first,
            last: label.last,
        })
    }

    /// Returns the entries of a user that a word means, if any.
    fn entries_by(&self, list: &UserList, word: &[u8]) -> Option<Entries>
        ensures { result ≡ entries_by (scene_of self.now) list.now word.now }
    {
        match numbered(list, word) {
            Some(entries) => Some(entries),
            None => self.labelled(list, word),
        }
    }

    /// Returns the entries of a user that a word means: one by its number, or those with the name.
    /// `NoEntry` if it means none.
    pub fn entries(
        &self,
        alloc: Global,
        list: &UserList,
        word: &[u8],
    ) -> Result<Entries, QuestionFault>
        ensures said { IfOk result (λ es.
            entries_by (scene_of self.now) list.now word.now ≡ Some es) }
        ensures error { IfErr result (Refuses
            (entries_by (scene_of self.now) list.now word.now)) }
    {
        match self.entries_by(list, word) {
            Some(entries) => Ok(entries),
            None => Err(no_entry(alloc, list, word)?),
        }
    }

    /// Returns the entry of a user that a word means. `NoEntry` if it means none, `Block` if it
    /// means several.
    pub fn entry(&self, alloc: Global, list: &UserList, word: &[u8]) -> Result<Event, QuestionFault>
        ensures said { IfOk result (λ e. entry_by (scene_of self.now) list.now word.now ≡ Some e) }
        ensures error { IfErr result (Refuses (entry_by (scene_of self.now) list.now word.now)) }
    {
        let Entries { first, last } = self.entries(alloc, list, word)?;
        if first == last {
            return Ok(Event {
                thread: list.thread,
                number: first,
            });
        }
        Err(QuestionFault::Block {
            word: Word::new(alloc, word)?,
            first,
            last,
        })
    }
}

/// Returns the fault for a word that is no number of an entry of a user.
pub fn no_entry(alloc: Global, list: &UserList, word: &[u8]) -> Result<QuestionFault, AllocError>
    ensures { IfOk result (λ e. is_of_memory e ≡ false) }
{
    Ok(QuestionFault::NoEntry {
        word: Word::new(alloc, word)?,
        thread: id_text(alloc, list.thread)?,
        count: list.entries.len(),
    })
}
