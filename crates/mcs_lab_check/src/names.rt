//! The names that a script gives to objects.
ghost use Rattle.std.specs.Prelude.{◌≡◌, ℕ, List, ◌++◌, ◌∷◌, ◌==◌, [], true, length, map, option_copied, bytes_eq, OnOk, OnErr};
ghost use Rattle.std.specs.List.{list_all};
ghost use Rattle.mcs_text.specs.Reading.{words_of};
ghost use Rattle.mcs_types.specs.declared.id.ObjId.{ObjId};
ghost use Rattle.mcs_lab_check.specs.NamesHad.{name_in, named_now};
ghost use Rattle.mcs_lab_check.specs.GivenTo.{given_to, named_by, renamed};
ghost use Rattle.mcs_lab_check.specs.Naming.{answered, given_at, is_formed, is_name, is_of_name, is_this, line_names, name_of, name_text, naming_of, what_named};

use crate::by_name::ByName;
use crate::fault::LabFault;
use crate::latest::Latest;
use crate::words::{object_of, queue_of};
use mcs_plan_source::is_like_id;
use mcs_text::{Words, letter};
use mcs_types::{ObjId, Queue};
use std::alloc::{AllocError, Global};
use std::io::{self, Write};
use std::marker::Model;

/// An object and a name that it was given.
#[derive(Drop)]
struct Given {
    object: ObjId,
    name: Vec<u8>,
}

impl Model for Given {
    ghost use Rattle.mcs_lab_check.specs.Naming.{Naming};

    ghost Value = { Naming };

    ghost view = { λ g. record { object = g.object; name = g.name.items } };
}

/// What a name refers to.
#[derive(Clone, Copy)]
pub enum Named {
    Nothing,
    One(ObjId),
    /// It is the name of two objects or more.
    Several,
}

/// The names that were given; for an object, the last one holds. Clauses see all of them, in order.
#[derive(Drop)]
pub struct Labels {
    all: Vec<Given>,
    latest: Latest,
    by_name: ByName,
}

impl Model for Labels {
    ghost use Rattle.std.specs.Prelude.{List};
    ghost use Rattle.mcs_lab_check.specs.GivenTo.{AreIndexed};
    ghost use Rattle.mcs_lab_check.specs.Naming.{Naming};

    ghost Value = { List Naming };

    ghost view = { λ n. n.all.items };

    ghost invariant = { λ n. AreIndexed n.latest n.by_name n.all.items };
}

/// Returns the text after `#@ ` of a line, without its newline; None if the line begins otherwise.
fn name_text(line: &[u8]) -> Option<&[u8]>
    ensures { option_copied result ≡ name_text line.now }
{
    match line {
        [b'#', b'@', b' ', text @ .., b'\n'] => Some(text),
        [b'#', b'@', b' ', text @ ..] => Some(text),
        _ => None,
    }
}

/// Returns whether a name may contain this byte: names are single words and need no quotes.
fn is_of_name(byte: u8) -> bool
    ensures { result ≡ is_of_name byte }
{
    byte.is_ascii_alphanumeric() || byte == b'-' || byte == b'_' || byte == b'.'
}

/// Returns whether a name may have these bytes.
fn are_of_name(word: &[u8]) -> bool
    ensures { result ≡ list_all is_of_name word.now }
{
    word.iter().all(|byte| is_of_name(*byte))
}

/// Returns whether a word may be a name: it is not empty, and does not look like an object's id.
fn is_name(word: &[u8]) -> bool
    ensures { result ≡ is_name word.now }
{
    !word.is_empty() && are_of_name(word) && !is_like_id(word)
}

/// Returns the object and the name in the text after `#@ `; None if it has another form.
fn naming_of(text: &[u8]) -> Option<(ObjId, &[u8])>
    ensures { answered result ≡ naming_of (words_of text.now) }
{
    let mut words = Words::new(text);
    let first = words.next_word()?;
    let name = words.next_word()?;
    if words.has_more() {
        return None;
    }
    let object = object_of(first)?;
    if is_name(name) {
        Some((object, name))
    } else {
        None
    }
}

/// Returns whether an object has this name.
fn has_name(latest: &Latest, object: ObjId, name: &[u8]) -> bool
    ensures { result ≡ is_this (name_in latest.now object) name.now }
{
    match latest.of(object) {
        Some(last) => last == name,
        None => false,
    }
}

/// Returns what a name refers to by the objects that have it.
fn named_by(objects: &[ObjId]) -> Named
    ensures { result ≡ named_by objects.now }
{
    match objects {
        [] => Named::Nothing,
        [object] => Named::One(*object),
        _ => Named::Several,
    }
}

/// Gives an object a name in both tables; if memory is refused, they answer as before.
fn rename(
    latest: &mut Latest,
    by_name: &mut ByName,
    alloc: Global,
    object: ObjId,
    word: &[u8],
) -> Result<(), AllocError>
    ensures named { OnOk result ((o : ObjId) → name_in latest.new o
        ≡ named_now object word.now (name_in latest.old o) o) }
    ensures moved { OnOk result ((q : List ℕ) → given_to by_name.new q
        ≡ renamed (name_in latest.old object) word.now object (given_to by_name.old q) q) }
    ensures names_stay { OnErr result ((o : ObjId) → name_in latest.new o ≡ name_in latest.old o) }
    ensures objects_stay { OnErr result ((q : List ℕ) → given_to by_name.new q
        ≡ given_to by_name.old q) }
{
    if has_name(latest, object, word) {
        return Ok(());
    }
    let name = Vec::from_slice(alloc, word)?;
    by_name.add(alloc, word, object)?;
    match latest.put(object, name) {
        Ok(Some(had)) => by_name.remove(&had, object),
        Ok(None) => {}
        Err(failed) => {
            by_name.take_back(word);
            return Err(failed);
        }
    }
    Ok(())
}

/// Returns the object of a queue, and the suffix of the queue: `.send`, `.recv` or `.wait`.
fn queue_parts(queue: Queue) -> (ObjId, &'static str) {
    match queue {
        Queue::Senders(object) => (object, ".send"),
        Queue::Receivers(object) => (object, ".recv"),
        Queue::Waiters(object) => (object, ".wait"),
    }
}

impl Labels {
    /// Returns an empty list of names.
    pub fn new(alloc: Global) -> Labels
        ensures { result ≡ [] }
    {
        Labels {
            all: Vec::new(alloc),
            latest: Latest::new(alloc),
            by_name: ByName::new(alloc),
        }
    }

    /// Gives an object a name.
    fn give(&mut self, alloc: Global, object: ObjId, word: &[u8]) -> Result<(), AllocError>
        ensures given { OnOk result (self.new
            ≡ self.old ++ record { object = object; name = word.now } ∷ []) }
        ensures unchanged { OnErr result (self.new ≡ self.old) }
    {
        let name = Vec::from_slice(alloc, word)?;
        self.all.reserve(1)?;
        rename(&mut self.latest, &mut self.by_name, alloc, object, word)?;
        // there is room
        self.all.push(Given { object, name })?;
        Ok(())
    }

    /// Takes a line of a script, with its newline or without. A line `#@ OBJECT NAME` gives a name:
    /// one word of letters, digits, `-`, `_` and `.`, which does not look like an object's id.
    /// Fault `Form` if it has another form.
    pub fn hear(&mut self, alloc: Global, number: u64, line: &[u8]) -> Result<(), LabFault>
        ensures given { OnOk result (self.new ≡ self.old ++ line_names line.now) }
        ensures formed { OnOk result (is_formed line.now ≡ true) }
        ensures unchanged { OnErr result (self.new ≡ self.old) }
    {
        let Some(text) = name_text(line) else {
            return Ok(());
        };
        let Some((object, word)) = naming_of(text) else {
            return Err(LabFault::Form { line: number });
        };
        self.give(alloc, object, word)?;
        Ok(())
    }

    /// Returns the name of an object: the last that it was given.
    pub fn of(&self, object: ObjId) -> Option<&[u8]>
        ensures { option_copied result ≡ name_of self.now object }
    {
        self.latest.of(object)
    }

    /// Returns what a name refers to. The last name given to an object counts.
    pub fn find(&self, name: &[u8]) -> Named
        ensures { result ≡ what_named self.now name.now }
    {
        named_by(self.by_name.of(name))
    }

    /// Writes the name of an object in parentheses, if it has one.
    fn put_name<W: Write>(&self, to: &mut W, object: ObjId) -> io::Result<()> {
        let Some(name) = self.of(object) else {
            return Ok(());
        };
        to.write_all(b" (")?;
        to.write_all(name)?;
        to.write_all(b")")
    }

    /// Writes an object, with its name if it has one: `t1 (client)`.
    pub fn put<W: Write>(&self, to: &mut W, object: ObjId) -> io::Result<()> {
        to.write_all(&[letter(object.kind)])?;
        let serial = object.serial;
        write!(to, "{serial}")?;
        self.put_name(to, object)
    }

    /// Writes an object or a dash.
    pub fn put_maybe<W: Write>(&self, to: &mut W, object: Option<ObjId>) -> io::Result<()> {
        match object {
            Some(object) => self.put(to, object),
            None => to.write_all(b"-"),
        }
    }

    /// Writes a queue, with the name of its object, if it has one.
    pub fn put_queue<W: Write>(&self, to: &mut W, queue: Queue) -> io::Result<()> {
        let (object, end) = queue_parts(queue);
        to.write_all(&[letter(object.kind)])?;
        let serial = object.serial;
        write!(to, "{serial}{end}")?;
        self.put_name(to, object)
    }

    /// Writes in parentheses the name of the object that a word means, if it has one.
    pub fn put_name_of<W: Write>(&self, to: &mut W, word: &[u8]) -> io::Result<()> {
        if let Some(queue) = queue_of(word) {
            return self.put_name(to, queue_parts(queue).0);
        }
        match object_of(word) {
            Some(object) => self.put_name(to, object),
            None => Ok(()),
        }
    }

    /// Returns an object and its name, by its index among the names given; None if the object has a
    /// newer name, or there is no such index.
    pub fn given(&self, number: usize) -> Option<(ObjId, &[u8])>
        ensures { answered result ≡ given_at self.now number }
    {
        let given = self.all.get(number)?;
        let name = given.name.as_slice();
        if has_name(&self.latest, given.object, name) {
            Some((given.object, name))
        } else {
            None
        }
    }

    /// Returns how many names were given.
    pub fn count(&self) -> usize
        ensures { result ≡ length self.now }
    {
        self.all.len()
    }

    /// Returns whether no name was given.
    pub fn is_empty(&self) -> bool
        ensures { result ≡ (length self.now == 0) }
    {
        self.all.is_empty()
    }
}
