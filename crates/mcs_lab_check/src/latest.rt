//! The current name of each object: the last one given.
ghost use Rattle.std.specs.Prelude.{◌≡◌, ◌≤◌, None, IfOk, OnOk, OnErr, option_copied, option_map};
ghost use Rattle.mcs_types.specs.declared.id.ObjId.{ObjId};
ghost use Rattle.mcs_types.specs.Ids.{kind_number};
ghost use Rattle.mcs_lab_check.specs.NamesHad.{key_of, name_in, named_now};

use indexmap::IndexMap;
use mcs_types::{Kind, ObjId};
use std::alloc::{AllocError, Global};
use std::marker::Model;

/// The current names of objects, by the objects' keys, so that lookup needs no search.
#[derive(Drop)]
pub struct Latest {
    names: IndexMap<u64, Vec<u8>>,
}

impl Model for Latest {
    ghost use Rattle.std.specs.Prelude.{ℕ, List, map};

    ghost Value = { List (ℕ × List ℕ) };

    ghost view = { λ n. map (λ e. (e.0, e.1.items)) n.names.entries };
}

/// Returns the number of a kind, below 8 and different for each kind.
fn kind_number(kind: Kind) -> u64
    ensures is { result ≡ kind_number kind }
    ensures few { result ≤ 7 }
{
    match kind {
        Kind::CNode => 0,
        Kind::Thread => 1,
        Kind::Endpoint => 2,
        Kind::Notification => 3,
        Kind::Reply => 4,
        Kind::Context => 5,
    }
}

/// Returns a unique number for an object.
fn key_of(object: ObjId) -> u64
    ensures { result ≡ key_of object }
{
    8 * object.serial as u64 + kind_number(object.kind)
}

impl Latest {
    /// Returns an empty table of names.
    pub fn new(alloc: Global) -> Latest
        ensures { (o : ObjId) → name_in result o ≡ None }
    {
        Latest {
            names: IndexMap::new(alloc),
        }
    }

    /// Returns the name of an object.
    pub fn of(&self, object: ObjId) -> Option<&[u8]>
        ensures { option_copied result ≡ name_in self.now object }
    {
        let key = key_of(object);
        match self.names.get(&key) {
            Some(name) => Some(name.as_slice()),
            None => None,
        }
    }

    /// Gives an object a name, and returns the one that it had.
    pub fn put(&mut self, object: ObjId, name: Vec<u8>) -> Result<Option<Vec<u8>>, AllocError>
        ensures had { IfOk result (λ had. option_map (λ n. n.items) had
            ≡ name_in self.old object) }
        ensures given { OnOk result ((o : ObjId) → name_in self.new o
            ≡ named_now object name.items (name_in self.old o) o) }
        ensures unchanged { OnErr result ((o : ObjId) → name_in self.new o ≡ name_in self.old o) }
    {
        let key = key_of(object);
        let had = self.names.insert(key, name)?;
        Ok(had)
    }
}
