//! Picks, and questions about missing objects. The scripts in `data/kernel` of `mcs_test_examples`
//! ask about existing ones.
use crate::tests::texts::{FIVE_THREADS, LOOSE_THREADS, replay_of, thread};
use mcs_kernel::Kernel;
use mcs_queues::Lines;
use mcs_slots::SlotId;
use mcs_types::{CoreId, Kind, ObjId, Place, ThreadSet};
use std::alloc::Global;
use std::test::Fail;

/// Returns the serials of the threads picked on a core one after the other, each passed over
/// afterwards; 0 if none is left.
fn picked<L: Lines>(kernel: &Kernel<L>, core: u8) -> [u32; 6] {
    let mut passed = ThreadSet::new();
    let mut all = [0; 6];
    for place in &mut all {
        if let Some(thread) = kernel.pick(CoreId(core), &passed) {
            passed.insert(thread);
            *place = thread.serial;
        }
    }
    all
}

/// Boots, a core, and the threads picked there; the last core does not exist in its boot.
const PICKS: &[(&str, u8, [u32; 6])] = &[
    (FIVE_THREADS, 0, [5, 2, 4, 1, 3, 0]),
    (LOOSE_THREADS, 0, [1, 0, 0, 0, 0, 0]),
    (LOOSE_THREADS, 1, [2, 3, 0, 0, 0, 0]),
    (LOOSE_THREADS, 2, [0; 6]),
];

fn object(kind: Kind, serial: u32) -> ObjId {
    ObjId { kind, serial }
}

/// The place of an empty slot.
const PLACE: Place = Place {
    index: 3,
    depth: 64,
};

/// Returns whether questions about missing objects return nothing.
fn are_missing<L: Lines>(kernel: &Kernel<L>) -> bool {
    kernel.radix(object(Kind::CNode, 2)) == 0
        && kernel.core(object(Kind::Context, 6)).is_none()
        && kernel.named(thread(6), 1).is_none()
        && kernel.placed(thread(6), PLACE).is_none()
        && kernel.root(thread(6)).is_none()
}

/// Returns whether a place is found, the first thread may enter, and nothing was sent or bound.
fn is_idle<L: Lines>(kernel: &Kernel<L>) -> bool {
    let slot = SlotId {
        cnode: object(Kind::CNode, 1),
        index: 3,
    };
    kernel.placed(thread(1), PLACE) == Some(Ok(slot))
        && kernel.fault(CoreId(0), thread(1)).is_none()
        && kernel.open(thread(1)).is_none()
        && kernel.tied(object(Kind::Notification, 1)).is_none()
        && kernel.sent() == 0
}

/// Returns whether these threads are picked on a core after a boot, before any entry.
fn are_picked(alloc: Global, boot: &str, core: u8, want: [u32; 6]) -> Result<bool, Fail> {
    let run = replay_of(alloc, boot)?;
    match run.kernel() {
        Some(kernel) => {
            Ok(picked(kernel, core) == want && are_missing(kernel) && is_idle(kernel))
        }
        None => Ok(false),
    }
}

#[test]
fn those_that_may_enter_are_picked_in_order(rt: HostRuntime) -> Result<(), Fail> {
    for (i, &(boot, core, want)) in PICKS.iter().enumerate() {
        assert!(rt; are_picked(rt.alloc(), boot, core, want)?, "row {i}");
    }
    Ok(())
}
