//! The names of objects in canonical keys.
use mcs_kernel::{Boot, Kernel};
use mcs_queues::Lines;
use mcs_types::{Kind, ObjId};
use std::alloc::{AllocError, Global};

/// How many objects of each kind a boot made.
#[derive(Clone, Copy)]
pub struct Counts {
    cnodes: u32,
    threads: u32,
    endpoints: u32,
    notifications: u32,
    replies: u32,
    contexts: u32,
}

impl Counts {
    /// Returns the counts of a boot.
    pub fn new(boot: &Boot) -> Counts {
        Counts {
            cnodes: boot.made(Kind::CNode),
            threads: boot.made(Kind::Thread),
            endpoints: boot.made(Kind::Endpoint),
            notifications: boot.made(Kind::Notification),
            replies: boot.made(Kind::Reply),
            contexts: boot.made(Kind::Context),
        }
    }

    /// Returns the count of a kind.
    pub fn of(&self, kind: Kind) -> u32 {
        match kind {
            Kind::CNode => self.cnodes,
            Kind::Thread => self.threads,
            Kind::Endpoint => self.endpoints,
            Kind::Notification => self.notifications,
            Kind::Reply => self.replies,
            Kind::Context => self.contexts,
        }
    }
}

/// The existing objects that were made after the boot, in the order of the lowest slots that name
/// them. Each is in a slot as long as it exists.
#[derive(Drop)]
pub struct CanonicalNames {
    counts: Counts,
    later: Vec<ObjId>,
}

/// The least name of an object that is neither of the boot nor in a slot: 2^32.
const APART: u64 = 1 << 32;

impl CanonicalNames {
    /// Names the objects of a kernel; only those of the boot if no entry of a user changes slots.
    pub fn new<L: Lines>(
        alloc: Global,
        kernel: &Kernel<L>,
        counts: Counts,
        has_later: bool,
    ) -> Result<CanonicalNames, AllocError> {
        let mut names = CanonicalNames {
            counts,
            later: Vec::new(alloc),
        };
        if has_later {
            for place in 0..counts.cnodes {
                let cnode = ObjId {
                    kind: Kind::CNode,
                    serial: place.saturating_add(1),
                };
                names.add_slots(kernel, cnode)?;
            }
        }
        Ok(names)
    }

    /// Adds the objects that the slots of a CNode name.
    fn add_slots<L: Lines>(&mut self, kernel: &Kernel<L>, cnode: ObjId) -> Result<(), AllocError> {
        for index in 0..=u8::MAX {
            if let Some(cap) = kernel.capability(cnode, index) {
                self.add(cap.obj)?;
            }
        }
        Ok(())
    }

    /// Adds an object, if it was made after the boot and is not in the list yet.
    fn add(&mut self, object: ObjId) -> Result<(), AllocError> {
        if self.is_later(object) && self.place(object).is_none() {
            self.later.push(object)?;
        }
        Ok(())
    }

    /// Returns the index of an object among those made after the boot.
    fn place(&self, object: ObjId) -> Option<usize> {
        self.later.iter().position(|other| other.is_same(object))
    }

    /// Returns whether an object was made after the boot.
    pub fn is_later(&self, object: ObjId) -> bool {
        self.counts.of(object.kind) < object.serial
    }

    /// The objects that were made after the boot.
    pub fn later(&self) -> &[ObjId] {
        self.later.as_slice()
    }

    /// Returns the name of an object, from 1 on, unique within its kind. An object in no slot is
    /// named by its serial, above all other names.
    pub fn name(&self, object: ObjId) -> u64 {
        let serial = object.serial as u64;
        let count = self.counts.of(object.kind) as u64;
        if serial <= count {
            return serial;
        }
        match self.place(object) {
            Some(place) => count.saturating_add(1).saturating_add(place as u64),
            None => serial.saturating_add(APART),
        }
    }

    /// The name of an object; 0 for none.
    pub fn name_or_none(&self, object: Option<ObjId>) -> u64 {
        match object {
            Some(object) => self.name(object),
            None => 0,
        }
    }
}
