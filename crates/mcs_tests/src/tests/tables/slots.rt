//! Slots of CNodes.
use super::names::{object, slot};
use super::rows::{done, row_of, word_of};
use crate::tests::texts::byte;
use mcs_slots::{SlotId, Slots, Tallied};
use mcs_types::{Badge, Cap, Guard, Kind, ObjId, Refusal, Rights};
use std::test::Fail;

/// The last slot of the first CNode, which has 8 slots, and both slots of the second.
const A: SlotId = SlotId {
    cnode: ObjId {
        kind: Kind::CNode,
        serial: 1,
    },
    index: 7,
};

const B: SlotId = SlotId {
    cnode: ObjId {
        kind: Kind::CNode,
        serial: 2,
    },
    index: 0,
};

const C: SlotId = SlotId {
    cnode: ObjId {
        kind: Kind::CNode,
        serial: 2,
    },
    index: 1,
};

const FIRST: ObjId = ObjId {
    kind: Kind::Endpoint,
    serial: 1,
};

/// A second endpoint whose capabilities are counted.
const SECOND: ObjId = ObjId {
    kind: Kind::Endpoint,
    serial: 8193,
};

const REPLY: ObjId = ObjId {
    kind: Kind::Reply,
    serial: 1,
};

/// Returns a capability without a guard, to the endpoint with this serial, or to a reply object for
/// 0, with these rights and this badge; None for NONE.
fn cap_to(serial: u32, bits: u32, badge: u32) -> Option<Cap> {
    let obj = match serial {
        0 => REPLY,
        1 => FIRST,
        8193 => SECOND,
        _ => return None,
    };
    Some(Cap {
        obj,
        rights: Rights::new(byte(bits))?,
        badge: Badge(badge as u64),
        guard: Guard { bits: 0, value: 0 },
    })
}

/// The slot of this number.
fn slot_of(number: u32) -> SlotId {
    match number {
        1 => A,
        2 => B,
        _ => C,
    }
}

/// Copies with these rights, or mints with this badge, between existing slots.
fn copy(
    slots: &mut Slots,
    (source, dest): (SlotId, SlotId),
    mints: bool,
    (bits, badge): (u32, u32),
) -> Result<bool, Refusal> {
    let Some(mask) = Rights::new(byte(bits)) else {
        return Ok(false);
    };
    if !slots.has_slot(source) || !slots.has_slot(dest) {
        return Ok(false);
    }
    done(if mints {
        slots.mint(source, dest, mask, Badge(badge as u64))
    } else {
        slots.copy(source, dest, mask)
    })
}

/// Returns whether a call is done, or its refusal. Its numbers are slots, then what is put or
/// taken, or the bits of rights and a badge.
fn on(slots: &mut Slots, call: &str, given: [u32; 12]) -> Result<bool, Refusal> {
    let (at, dest) = (slot_of(given[0]), slot_of(given[1]));
    let cap = cap_to(given[1], given[2], given[3]);
    if !slots.has_slot(at) || !slots.has_slot(dest) {
        return Ok(false);
    }
    match call {
        "put" => {
            let Some(cap) = cap else {
                return Ok(false);
            };
            slots.put(at, cap);
            Ok(true)
        }
        "empty" => {
            slots.set(at, None);
            Ok(true)
        }
        "take" => Ok(slots.take(at) == cap),
        "move" => done(slots.move_cap(at, dest)),
        _ => copy(slots, (at, dest), call == "mint", (given[2], given[3])),
    }
}

/// Calls, their results, then the contents of the three slots, and how many capabilities to the two
/// endpoints there are. A capability of another kind is not minted, and the endpoints share a
/// tally.
const CALLS: &str = "\
copy 1 2 2 = empty - - - - - - - - - 0 0
put 1 1 15 0 = done 1 15 0 - - - - - - 1 0
copy 1 2 2 = done 1 15 0 1 2 0 - - - 2 0
mint 1 2 2 5 = full 1 15 0 1 2 0 - - - 2 0
mint 1 3 2 5 = done 1 15 0 1 2 0 1 2 5 3 0
take 2 1 2 0 = done 1 15 0 - - - 1 2 5 2 0
mint 3 2 15 6 = badged 1 15 0 - - - 1 2 5 2 0
move 1 2 = done - - - 1 15 0 1 2 5 2 0
empty 2 = done - - - - - - 1 2 5 1 0
empty 3 = done - - - - - - - - - 0 0
put 1 0 0 0 = done 0 0 0 - - - - - - 0 0
mint 1 2 0 1 = kind 0 0 0 - - - - - - 0 0
put 1 1 15 0 = done 1 15 0 - - - - - - 1 0
put 2 8193 15 0 = done 1 15 0 8193 15 0 - - - 1 1
copy 2 3 15 = done 1 15 0 8193 15 0 8193 15 0 1 2
empty 1 = done - - - 8193 15 0 8193 15 0 0 2
empty 2 = done - - - - - - 8193 15 0 0 1
put 3 1 15 0 = done - - - - - - 1 15 0 1 0
put 1 8193 15 7 = done 8193 15 7 - - - 1 15 0 1 1
empty 3 = done 8193 15 7 - - - - - - 0 1
empty 1 = done - - - - - - - - - 0 0
";

/// Returns whether the three slots hold these, and there are this many capabilities to the two
/// endpoints.
fn are_as(slots: &Slots, kept: [u32; 12]) -> bool {
    slots.get(A) == cap_to(kept[0], kept[1], kept[2])
        && slots.get(B) == cap_to(kept[3], kept[4], kept[5])
        && slots.get(C) == cap_to(kept[6], kept[7], kept[8])
        && [slots.count_of(FIRST), slots.count_of(SECOND)] == [kept[9], kept[10]]
}

/// Returns whether the call of a line has its result, and the slots agree with it afterwards.
fn is_row(slots: &mut Slots, line: &str) -> bool {
    let Some(row) = row_of(line) else {
        return false;
    };
    let (call, answer) = (row.0, row.2);
    let given = row.1;
    let kept = row.3;
    word_of(on(slots, call, given)) == answer && are_as(slots, kept)
}

#[test]
fn calls_on_slots_answer(rt: HostRuntime) -> Result<(), Fail> {
    let mut slots = Slots::new(rt.alloc(), &[3, 1], Tallied::All)?;
    for line in CALLS.lines() {
        assert!(rt; is_row(&mut slots, line), "{line}");
    }
    Ok(())
}

/// Objects, and the radices of those that are CNodes.
const RADICES: &[(Kind, u32, Option<u8>)] = &[
    (Kind::CNode, 1, Some(3)),
    (Kind::CNode, 2, Some(1)),
    (Kind::CNode, 3, None),
    (Kind::CNode, 0, None),
    (Kind::Thread, 1, None),
];

/// Slots, and whether they exist in two CNodes of 8 and of 2.
const SLOTS: &[(u32, u8, bool)] = &[
    (1, 0, true),
    (1, 7, true),
    (1, 8, false),
    (2, 1, true),
    (2, 2, false),
    (3, 0, false),
    (0, 0, false),
];

#[test]
fn cnodes_have_their_slots(rt: HostRuntime) -> Result<(), Fail> {
    let slots = Slots::new(rt.alloc(), &[3, 1], Tallied::All)?;
    slots.are_pages();
    for &(kind, serial, radix) in RADICES {
        assert!(rt; slots.radix(object(kind, serial)) == radix);
    }
    for &(cnode, index, is_there) in SLOTS {
        assert!(rt;
            slots.has_slot(slot(cnode, index)) == is_there,
            "slot {index} of {cnode}"
        );
        assert!(rt; slots.get(slot(cnode, index)).is_none());
    }
    Ok(())
}
