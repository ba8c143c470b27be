//! Objects by their kinds and serials, and a list of numbers.
use mcs_slots::SlotId;
use mcs_types::{Kind, ObjId};

pub fn object(kind: Kind, serial: u32) -> ObjId {
    ObjId { kind, serial }
}

pub fn thread(serial: u32) -> ObjId {
    object(Kind::Thread, serial)
}

pub fn context(serial: u32) -> ObjId {
    object(Kind::Context, serial)
}

pub fn reply(serial: u32) -> ObjId {
    object(Kind::Reply, serial)
}

pub fn notification(serial: u32) -> ObjId {
    object(Kind::Notification, serial)
}

/// A slot of a CNode.
pub fn slot(cnode: u32, index: u8) -> SlotId {
    SlotId {
        cnode: object(Kind::CNode, cnode),
        index,
    }
}

/// Returns the next number of a fixed pseudo-random sequence.
pub fn next_number(n: u64) -> u64 {
    n.wrapping_mul(6_364_136_223_846_793_005)
        .wrapping_add(1_442_695_040_888_963_407)
}
