//! The objects that have each name, by names.
ghost use Rattle.std.specs.Prelude.{◌≡◌, ℕ, [], ◌∷◌, List, None, OnOk, OnErr, bytes_eq};
ghost use Rattle.std.specs.Map.{lookup};
ghost use Rattle.mcs_types.specs.declared.id.ObjId.{ObjId};
ghost use Rattle.mcs_lab_check.specs.GivenTo.{but_last, given_to, with_last, without, without_object};

use indexmap::IndexMap;
use mcs_types::ObjId;
use std::alloc::{AllocError, Global};
use std::marker::Model;

/// The objects that have each name now, so that lookup needs no search.
#[derive(Drop)]
pub struct ByName {
    objects: IndexMap<Vec<u8>, Vec<ObjId>>,
}

impl Model for ByName {
    ghost use Rattle.std.specs.Prelude.{ℕ, List, map};
    ghost use Rattle.mcs_types.specs.declared.id.ObjId.{ObjId};

    ghost Value = { List (List ℕ × List ObjId) };

    ghost view = { λ h. map (λ e. (e.0.items, e.1.items)) h.objects.entries };
}

/// Removes an object.
fn remove_object(objects: &mut Vec<ObjId>, object: ObjId)
    ensures { objects.new.items ≡ without_object object objects.old.items }
{
    objects.retain(|other| !object.is_same(*other));
}

impl ByName {
    /// Returns an empty table.
    pub fn new(alloc: Global) -> ByName
        ensures { (name : List ℕ) → given_to result name ≡ [] }
    {
        ByName {
            objects: IndexMap::new(alloc),
        }
    }

    /// Returns the objects that have a name.
    pub fn of(&self, name: &[u8]) -> &[ObjId]
        ensures { result.now ≡ given_to self.now name.now }
    {
        match self.objects.get(name) {
            Some(objects) => objects.as_slice(),
            None => &[],
        }
    }

    /// Adds the first object of a name.
    fn add_first(&mut self, alloc: Global, name: &[u8], object: ObjId) -> Result<(), AllocError>
        requires { lookup (bytes_eq name.now) self.old ≡ None }
        ensures added { OnOk result ((q : List ℕ) → given_to self.new q
            ≡ with_last name.now object (given_to self.old q) q) }
        ensures unchanged { OnErr result ((q : List ℕ) → given_to self.new q
            ≡ given_to self.old q) }
    {
        let key = Vec::from_slice(alloc, name)?;
        let objects = Vec::from_slice(alloc, &[object])?;
        self.objects.insert(key, objects)?;
        Ok(())
    }

    /// Adds an object to those that have a name.
    pub fn add(&mut self, alloc: Global, name: &[u8], object: ObjId) -> Result<(), AllocError>
        ensures added { OnOk result ((q : List ℕ) → given_to self.new q
            ≡ with_last name.now object (given_to self.old q) q) }
        ensures unchanged { OnErr result ((q : List ℕ) → given_to self.new q
            ≡ given_to self.old q) }
    {
        if let Some(objects) = self.objects.get_mut(name) {
            objects.push(object)?;
            return Ok(());
        }
        self.add_first(alloc, name, object)
    }

    /// Takes back the object that was added last to those that have a name.
    pub fn take_back(&mut self, name: &[u8])
        ensures { (q : List ℕ) → given_to self.new q ≡ but_last name.now (given_to self.old q) q }
    {
        let Some(objects) = self.objects.get_mut(name) else {
            return;
        };
        objects.pop();
    }

    /// Takes an object from those that have a name.
    pub fn remove(&mut self, name: &[u8], object: ObjId)
        ensures { (q : List ℕ) → given_to self.new q
            ≡ without name.now object (given_to self.old q) q }
    {
        let Some(objects) = self.objects.get_mut(name) else {
            return;
        };
        remove_object(objects, object);
    }
}
