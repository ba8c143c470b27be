//! Objects by their names.
ghost use Rattle.std.specs.Prelude.{◌≡◌, ◌++◌, ◌∷◌, [], min, Some, IfOk, IfErr, OnOk, OnErr, None, slice_get, option_map, length, string_bytes};
ghost use Rattle.mcs_plan_source.specs.Naming.{limit_of, find, name_of, count_of, next_of, is_of_kind, with_word};
ghost use Rattle.mcs_plan_source.specs.Telling.{MayAdd, MayNotAdd, Adds, TellsNoName, IsOfKind, HasNoneOfKind};

use crate::fault::PlanError;
use crate::words::{is_name, not};
use indexmap::IndexMap;
use mcs_types::{CNODES, Kind, OBJECTS, ObjId};
use std::alloc::{AllocError, Global};
use std::marker::Model;

/// The names of all objects, in the order of the plan.
#[derive(Drop)]
pub struct Symbols {
    objects: IndexMap<String, ObjId>,
}

impl Model for Symbols {
    ghost use Rattle.mcs_plan_source.specs.Naming.{NameList, named_in};

    ghost Value = { NameList };

    ghost view = { λ n. named_in n.objects.entries };
}

/// Returns how many objects of a kind there may be.
pub fn limit_of(kind: Kind) -> u32
    ensures { result ≡ limit_of kind }
{
    match kind {
        Kind::CNode => CNODES as u32,
        _ => OBJECTS as u32,
    }
}

/// The plural of a kind.
pub fn plural(kind: Kind) -> &'static str {
    match kind {
        Kind::CNode => "CNodes",
        Kind::Thread => "threads",
        Kind::Endpoint => "endpoints",
        Kind::Notification => "notifications",
        Kind::Reply => "reply objects",
        Kind::Context => "scheduling contexts",
    }
}

/// A kind, with its article.
pub fn singular(kind: Kind) -> &'static str {
    match kind {
        Kind::CNode => "a space",
        Kind::Thread => "a thread",
        Kind::Endpoint => "an endpoint",
        Kind::Notification => "a notification",
        Kind::Reply => "a reply object",
        Kind::Context => "a scheduling context",
    }
}

/// Appends a word, after a space unless it is the first.
#[tactic(auto, using(crate::proofs::Entries::first_of_all, crate::proofs::Entries::one_more))]
pub fn add_word(text: &mut String, word: &str) -> Result<(), AllocError>
    ensures { OnOk result (string_bytes text.new ≡ with_word (string_bytes text.old) word.now) }
{
    if text.as_bytes().is_empty() {
        return text.push_str(word);
    }
    text.push_str(" ")?;
    text.push_str(word)
}

impl Symbols {
    /// Returns an empty table of names.
    pub fn new(alloc: Global) -> Symbols
        ensures { result ≡ [] }
    {
        Symbols {
            objects: IndexMap::new(alloc),
        }
    }

    /// Returns whether the name at an index is of this kind.
    fn is_of_kind(&self, index: usize, kind: Kind) -> bool
        ensures { result ≡ is_of_kind kind (slice_get self.now index) }
    {
        match self.at(index) {
            Some((_, object)) => object.kind.is_same(kind),
            None => false,
        }
    }

    /// Returns how many objects of a kind there are.
    fn counted(&self, kind: Kind) -> usize
        ensures { result ≡ count_of kind self.now }
    {
        let mut count: usize = 0;
        for index in 0..self.len() {
            if self.is_of_kind(index, kind) {
                count += 1;
            }
        }
        count
    }

    /// Returns how many objects of a kind there are, up to 2^32 - 1.
    pub fn count(&self, kind: Kind) -> u32
        ensures { result ≡ min (count_of kind self.now) 4294967295 }
    {
        self.counted(kind).min(4_294_967_295) as u32
    }

    /// Returns the next object of a kind, if it may have this name.
    fn next(&self, alloc: Global, kind: Kind, name: &str) -> Result<ObjId, PlanError>
        ensures may { OnOk result (MayAdd self.now kind name.now) }
        ensures next { IfOk result (λ o. o ≡ next_of kind self.now) }
        ensures error { IfErr result (MayNotAdd self.now kind name.now) }
    {
        if !is_name(name) {
            return Err(not(alloc, name, "a name"));
        }
        if self.find(name).is_some() {
            return Err(PlanError::Twice {
                word: String::from_str(alloc, name)?,
            });
        }
        let count = self.count(kind);
        let limit = limit_of(kind);
        if count >= limit {
            return Err(PlanError::Limit {
                what: plural(kind),
                limit,
            });
        }
        Ok(ObjId {
            kind,
            serial: count + 1,
        })
    }

    /// Gives an object a name, which must be new.
    #[tactic(auto, using(crate::proofs::Entries::put_last))]
    fn put(&mut self, alloc: Global, name: &str, object: ObjId) -> Result<(), AllocError>
        requires { find self.old name.now ≡ None }
        ensures ok { OnOk result (self.new ≡ self.old ++ (name.now, object) ∷ []) }
        ensures unchanged { OnErr result (self.new ≡ self.old) }
    {
        let key = String::from_str(alloc, name)?;
        self.objects.insert(key, object)?;
        Ok(())
    }

    /// Names the next object of a kind. `Not` if the word is no name, `Twice` if it is one already,
    /// and `Limit` if there are as many objects of the kind as there may be.
    pub fn add(&mut self, alloc: Global, kind: Kind, name: &str) -> Result<ObjId, PlanError>
        ensures added { IfOk result (λ o. Adds self.old kind name.now o self.new) }
        ensures error { IfErr result (MayNotAdd self.old kind name.now) }
        ensures unchanged { OnErr result (self.new ≡ self.old) }
    {
        let object = self.next(alloc, kind, name)?;
        self.put(alloc, name, object)?;
        Ok(object)
    }

    /// The object of this name.
    pub fn find(&self, name: &str) -> Option<ObjId>
        ensures { result ≡ find self.now name.now }
    {
        self.objects.get(name).copied()
    }

    /// The object of this name. `NoName` if there is none.
    pub fn object(&self, alloc: Global, name: &str) -> Result<ObjId, PlanError>
        ensures found { IfOk result (λ o. find self.now name.now ≡ Some o) }
        ensures unknown { OnErr result (find self.now name.now ≡ None) }
        ensures error { IfErr result (TellsNoName name.now) }
    {
        match self.find(name) {
            Some(object) => Ok(object),
            None => Err(self.not_there(alloc, name)?),
        }
    }

    /// The object of this kind and name. `NoName` if there is none.
    pub fn of_kind(&self, alloc: Global, kind: Kind, name: &str) -> Result<ObjId, PlanError>
        ensures found { IfOk result (IsOfKind self.now kind name.now) }
        ensures unknown { OnErr result (HasNoneOfKind self.now kind name.now) }
        ensures error { IfErr result (TellsNoName name.now) }
    {
        if let Some(object) = self.find(name) {
            if object.kind.is_same(kind) {
                return Ok(object);
            }
        }
        Err(self.no_name(alloc, name, singular(kind), Some(kind))?)
    }

    /// Returns the fault of a name that no object has.
    pub fn not_there(&self, alloc: Global, name: &str) -> Result<PlanError, AllocError>
        ensures { IfOk result (TellsNoName name.now) }
    {
        self.no_name(alloc, name, "an object", None)
    }

    /// Returns the fault of an unknown name, with the known ones.
    fn no_name(
        &self,
        alloc: Global,
        name: &str,
        wanted: &'static str,
        kind: Option<Kind>,
    ) -> Result<PlanError, AllocError>
        ensures { IfOk result (TellsNoName name.now) }
    {
        Ok(PlanError::NoName {
            word: String::from_str(alloc, name)?,
            wanted,
            there: self.listed(alloc, kind)?,
        })
    }

    /// The names of the objects of a kind, or of all.
    fn listed(&self, alloc: Global, kind: Option<Kind>) -> Result<String, AllocError> {
        let mut there = String::new(alloc);
        for (name, object) in self.objects.iter() {
            if kind.is_none_or(|kind| object.kind == kind) {
                add_word(&mut there, name.as_str())?;
            }
        }
        Ok(there)
    }

    /// The name of an object; an empty one where it has none.
    pub fn name_of(&self, object: ObjId) -> &str
        ensures { result.now ≡ name_of self.now object }
    {
        for index in 0..self.len() {
            if let Some((name, named)) = self.at(index) {
                if named.is_same(object) {
                    return name;
                }
            }
        }
        ""
    }

    /// Returns how many names there are.
    pub fn len(&self) -> usize
        ensures { result ≡ length self.now }
    {
        self.objects.len()
    }

    /// A name and its object, in the order in which they were given.
    pub fn at(&self, index: usize) -> Option<(&str, ObjId)>
        ensures { option_map (λ n. (n.0.now, n.1)) result ≡ slice_get self.now index }
    {
        let (name, object) = self.objects.get_index(index)?;
        Some((name.as_str(), *object))
    }
}
