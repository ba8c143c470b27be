//! Which CNodes the capability spaces of threads contain, and which CNodes hold a capability.
use mcs_kernel::Kernel;
use mcs_queues::LinkedLines;
use mcs_types::{Cap, Kind, ObjId};
use std::alloc::{AllocError, Global};

/// The object of a kind and a serial.
pub fn object(kind: Kind, serial: u32) -> ObjId {
    ObjId { kind, serial }
}

/// How many CNodes there are at most.
const MOST: usize = 64;

/// A set of CNodes, one bit for each.
#[derive(Clone, Copy, PartialEq, Eq)]
pub struct CNodes {
    bits: u64,
}

impl CNodes {
    /// Returns the empty set.
    pub fn new() -> CNodes {
        CNodes { bits: 0 }
    }

    /// The bit of a CNode.
    fn bit(cnode: ObjId) -> u64 {
        match cnode.place(Kind::CNode) {
            Some(place) if place < MOST => 1u64 << place,
            _ => 0,
        }
    }

    /// Adds a CNode.
    pub fn insert(&mut self, cnode: ObjId) {
        self.bits |= CNodes::bit(cnode);
    }

    /// Adds all of another set.
    pub fn add(&mut self, others: CNodes) {
        self.bits |= others.bits;
    }

    /// Returns whether a CNode is one of them.
    pub fn contains(self, cnode: ObjId) -> bool {
        self.bits & CNodes::bit(cnode) != 0
    }

    /// Returns whether the set is empty.
    pub fn is_empty(self) -> bool {
        self.bits == 0
    }

    /// Returns whether both sets have a common CNode.
    pub fn meets(self, others: CNodes) -> bool {
        self.bits & others.bits != 0
    }

    /// Returns whether all its CNodes are in another set.
    pub fn is_within(self, others: CNodes) -> bool {
        self.bits & !others.bits == 0
    }
}

/// A capability that is sought: to which object, and which rights it must have.
#[derive(Clone, Copy)]
pub enum Sought {
    Any(ObjId),
    ToRead(ObjId),
    ToWrite(ObjId),
}

impl Sought {
    /// Returns whether a capability is the sought one.
    fn is(self, cap: &Cap) -> bool {
        match self {
            Sought::Any(object) => cap.obj.is_same(object),
            Sought::ToRead(object) => cap.obj.is_same(object) && cap.rights.can_read(),
            Sought::ToWrite(object) => cap.obj.is_same(object) && cap.rights.can_write(),
        }
    }

    /// Returns whether a slot of a CNode holds the sought capability.
    fn is_in(self, kernel: &Kernel<LinkedLines>, cnode: ObjId) -> bool {
        for index in 0..=u8::MAX {
            if let Some(cap) = kernel.capability(cnode, index)
                && self.is(&cap)
            {
                return true;
            }
        }
        false
    }

    /// Returns the CNodes that hold the sought capability.
    pub fn holders(self, kernel: &Kernel<LinkedLines>) -> CNodes {
        let mut cnodes = CNodes::new();
        for serial in 1..=kernel.made(Kind::CNode) {
            let cnode = object(Kind::CNode, serial);
            if self.is_in(kernel, cnode) {
                cnodes.insert(cnode);
            }
        }
        cnodes
    }
}

/// Returns the CNodes to which slots of a CNode hold capabilities.
fn next(kernel: &Kernel<LinkedLines>, cnode: ObjId) -> CNodes {
    let mut cnodes = CNodes::new();
    for index in 0..=u8::MAX {
        if let Some(cap) = kernel.capability(cnode, index) {
            cnodes.insert(cap.obj);
        }
    }
    cnodes
}

/// Returns the CNodes of a space: its root, and all reachable from it, whatever the guards.
fn space(kernel: &Kernel<LinkedLines>, root: ObjId) -> CNodes {
    let mut cnodes = CNodes::new();
    cnodes.insert(root);
    let count = kernel.made(Kind::CNode);
    for _ in 0..count {
        let before = cnodes;
        for serial in 1..=count {
            let cnode = object(Kind::CNode, serial);
            if before.contains(cnode) {
                cnodes.add(next(kernel, cnode));
            }
        }
        if cnodes == before {
            break;
        }
    }
    cnodes
}

/// The capability spaces of all threads.
#[derive(Drop)]
pub struct Spaces {
    spaces: Vec<CNodes>,
}

impl Spaces {
    /// Returns the spaces of all threads of a kernel.
    pub fn new(alloc: Global, kernel: &Kernel<LinkedLines>) -> Result<Spaces, AllocError> {
        let mut spaces = Vec::new(alloc);
        for serial in 1..=kernel.made(Kind::Thread) {
            let cnodes = match kernel.root(object(Kind::Thread, serial)) {
                Some(root) => space(kernel, root.obj),
                None => CNodes::new(),
            };
            spaces.push(cnodes)?;
        }
        Ok(Spaces { spaces })
    }

    /// The CNodes of a thread's space.
    pub fn of(&self, thread: ObjId) -> CNodes {
        match thread.place(Kind::Thread) {
            None => CNodes::new(),
            Some(place) => match self.spaces.get(place) {
                Some(cnodes) => *cnodes,
                None => CNodes::new(),
            },
        }
    }
}
