//! Counts of the slots that hold a capability to each object.
ghost use Rattle.std.specs.Prelude.{◌≡◌, All, IfOk, length, slice_get};
ghost use Rattle.mcs_slots.specs.declared.tallies.Tallied.{Tallied};
ghost use Rattle.mcs_slots.specs.Buckets.{bucket_of, owns};
ghost use Rattle.mcs_slots.specs.Tallies.{no_tally};

use mcs_types::{Cap, ObjId, OutOfMemory, copy_rows};
use std::alloc::Global;
use std::marker::Model;

/// Objects of one kind whose serials differ by a multiple of this share a bucket (own).
const SERIALS: u32 = 4_096;

/// How many buckets there are: one for each kind and each remainder of a serial.
const BUCKETS: usize = 6 * SERIALS as usize;

/// How many buckets a copy keeps tallies of: search makes copies of small systems all the time
/// (own).
const COPIED: usize = 6 * 64;

/// Which buckets have a tally: all, or the first ones, for systems that hardly ever count
/// capabilities (own).
#[derive(Clone, Copy, PartialEq, Eq, Debug)]
pub enum Tallied {
    All,
    First,
}

impl Tallied {
    /// Returns how many buckets have a tally.
    fn count(self) -> usize
        ensures all { self ≡ Tallied.All → result ≡ BUCKETS }
        ensures first { self ≡ Tallied.First → result ≡ COPIED }
    {
        match self {
            Tallied::All => BUCKETS,
            Tallied::First => COPIED,
        }
    }
}

/// The tally of a bucket, whose objects are of one kind: the serial of its owner, which is the
/// object that came first, how many slots hold a capability to the owner, and how many to any of
/// its objects. 16 bits suffice for the counts: there are fewer slots.
#[derive(Clone, Copy)]
pub(crate) struct Tally {
    owner: u32,
    held: u16,
    total: u16,
}

/// A tally for each bucket of objects, or for the first ones. They change with the slots, one
/// capability at a time.
#[derive(Drop)]
pub(crate) struct Tallies {
    tallies: Vec<Tally>,
}

impl Model for Tallies {
    ghost use Rattle.std.specs.Prelude.{List};
    ghost use Rattle.mcs_slots.specs.declared.tallies.Tally.{Tally};

    ghost Value = { List Tally };

    ghost view = { λ t. t.tallies.items };
}

/// The bucket of an object.
fn bucket_of(obj: ObjId) -> usize
    ensures { result ≡ bucket_of obj }
{
    (obj.serial % SERIALS) as usize * 6 + obj.kind as usize
}

impl Tally {
    ghost use Rattle.mcs_slots.specs.Tallies.{one_less, one_more};

    /// Returns whether this object of the bucket is the one that it counts.
    pub(crate) fn owns(&self, obj: ObjId) -> bool
        ensures { result ≡ owns self.now.owner obj }
    {
        self.owner == obj.serial
    }

    /// Returns how many slots hold a capability to its owner.
    pub(crate) fn held(&self) -> u32
        ensures { result ≡ self.now.held }
    {
        self.held as u32
    }

    /// Counts one capability less to an object of the bucket.
    fn count_down(&mut self, obj: ObjId)
        ensures { self.new ≡ one_less obj self.old }
    {
        if self.owns(obj) {
            self.held = self.held.saturating_sub(1);
        }
        self.total = self.total.saturating_sub(1);
    }

    /// Counts one capability more to an object of the bucket. The object becomes the bucket's owner
    /// if no slot held a capability to any of its objects. The counts cannot overflow: there are
    /// too few slots.
    fn count_up(&mut self, obj: ObjId)
        ensures { self.new ≡ one_more obj self.old }
    {
        if self.total == 0 {
            self.owner = obj.serial;
            self.held = 0;
        }
        if self.owns(obj) {
            self.held = self.held.saturating_add(1);
        }
        self.total = self.total.saturating_add(1);
    }
}

/// Returns `count` tallies of empty buckets.
fn no_tallies(alloc: Global, count: usize) -> Result<Vec<Tally>, OutOfMemory>
    ensures empty { IfOk result (λ v. All (λ t. t ≡ no_tally) v.items) }
    ensures len { IfOk result (λ v. length v.items ≡ count) }
{
    let none = Tally {
        owner: 0,
        held: 0,
        total: 0,
    };
    let tallies = vec![in alloc; none; count]?;
    Ok(tallies)
}

impl Tallies {
    ghost use Rattle.mcs_slots.specs.Tallies.{LetsGo, Counts, AreFrom};

    /// Returns the tallies of empty slots.
    pub(crate) fn new(alloc: Global, tallied: Tallied) -> Result<Tallies, OutOfMemory>
        ensures { IfOk result (All (λ t. t ≡ no_tally)) }
    {
        Ok(Tallies {
            tallies: no_tallies(alloc, tallied.count())?,
        })
    }

    /// Clones the tallies of the first buckets in the memory of spare ones. `OutOfMemory` if an
    /// allocation fails.
    pub(crate) fn copy(&self, alloc: Global, spare: Option<Tallies>) -> Result<Tallies, OutOfMemory>
        ensures { IfOk result (λ t. AreFrom t self.now) }
    {
        let tallies = match spare {
            Some(Tallies { tallies }) => tallies,
            None => Vec::new(alloc),
        };
        let count = self.tallies.len().min(COPIED);
        Ok(Tallies {
            tallies: copy_rows(tallies, &self.tallies[..count], count)?,
        })
    }

    /// The tally of the bucket of an object, if there is one.
    pub(crate) fn of_bucket(&self, obj: ObjId) -> Option<Tally>
        ensures { result ≡ slice_get self.now (bucket_of obj) }
    {
        self.tallies.get(bucket_of(obj)).copied()
    }

    /// Counts a capability that a slot no longer holds.
    pub(crate) fn let_go(&mut self, cap: &Option<Cap>)
        ensures { LetsGo self.old cap.now self.new }
    {
        let Some(cap) = cap else {
            return;
        };
        if let Some(tally) = self.tallies.get_mut(bucket_of(cap.obj)) {
            tally.count_down(cap.obj);
        }
    }

    /// Counts a capability that an empty slot now holds.
    pub(crate) fn count(&mut self, cap: &Option<Cap>)
        ensures { Counts self.old cap.now self.new }
    {
        let Some(cap) = cap else {
            return;
        };
        if let Some(tally) = self.tallies.get_mut(bucket_of(cap.obj)) {
            tally.count_up(cap.obj);
        }
    }
}
