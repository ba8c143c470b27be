//! Lookup in capability spaces, from roots that no boot makes. Other lookups are in `data/kernel`
//! of `mcs_test_examples`.
use super::names::slot;
use mcs_cspace::lookup_slot;
use mcs_slots::{Slots, Tallied};
use mcs_types::{Badge, Cap, Guard, Place, Rights};
use std::test::Fail;

#[test]
fn any_root_may_be_given(rt: HostRuntime) -> Result<(), Fail> {
    let slots = Slots::new(rt.alloc(), &[4], Tallied::All)?;
    let none = Rights::new(0).ok_or("no right")?;
    let found = [
        // of a guard's value its low bits count, here 10
        (1, (2, 0b11_10), (0b10_0111, 6), slot(1, 7)),
        // a missing CNode has radix 0 and no slot
        (9, (1, 1), (1, 1), slot(9, 0)),
    ];
    for (cnode, (bits, value), (index, depth), want) in found {
        let root = Cap {
            obj: slot(cnode, 0).cnode,
            rights: none,
            badge: Badge(0),
            guard: Guard { bits, value },
        };
        let place = Place { index, depth };
        assert!(rt;
            lookup_slot(&slots, &root, place) == Ok(want),
            "in CNode {cnode}"
        );
    }
    assert!(rt; !slots.has_slot(slot(9, 0)));
    Ok(())
}
