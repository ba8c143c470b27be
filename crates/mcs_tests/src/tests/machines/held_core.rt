//! Five cores of which one is held at a pick.
use crate::tests::streams::run_users;
use crate::tests::texts::{FIVE_CORES, gives_itself, occurrences};
use mcs_sim::Gate;
use mcs_types::{CoreId, ObjId};
use std::alloc::AllocGlobal;
use std::hint::spin_loop;
use std::sync::Wait;
use std::sync::atomic::{AtomicU64, Ordering};
use std::test::Fail;
use std::thread::Threads;

/// A gate that holds a core at its pick with this number, counted from 1, until another core has an
/// answer, or for a bounded time.
#[derive(Drop)]
struct Holding {
    core: CoreId,
    pick: u64,
    picks: AtomicU64,
    answers_of_others: AtomicU64,
}

impl Gate for Holding {
    fn between(&self, core: CoreId, _thread: ObjId) {
        if core != self.core
            || self.picks.fetch_add(1, Ordering::SeqCst).wrapping_add(1) != self.pick
        {
            return;
        }
        let seen = self.answers_of_others.load(Ordering::SeqCst);
        for _ in 0..1_000_000u32 {
            if self.answers_of_others.load(Ordering::SeqCst) != seen {
                return;
            }
            spin_loop();
        }
    }

    fn answered(&self, core: CoreId, _line: u64) {
        if core != self.core {
            self.answers_of_others.fetch_add(1, Ordering::SeqCst);
        }
    }
}

/// Four senders, and a receiver that polls four times.
const USERS: &str = "\
user t1 send 1 1
user t2 send 1 2
user t3 send 1 3
user t4 send 1 4
user t5 nbrecv 2 8
user t5 nbrecv 2 8
user t5 nbrecv 2 8
user t5 nbrecv 2 8
";

/// Returns whether a run, with this core held at this pick, has all entries and replays to itself.
fn is_settled<R: AllocGlobal + Threads + Wait + Sync>(
    rt: &R,
    script: &[u8],
    core: u8,
    pick: u64,
) -> bool {
    let gate = Holding {
        core: CoreId(core),
        pick,
        picks: AtomicU64::new(0),
        answers_of_others: AtomicU64::new(0),
    };
    let (result, written) = run_users(rt, script, None, &gate);
    result.is_ok() && occurrences(&written, b"\n= ") == 8 && gives_itself(rt.alloc(), &written)
}

#[test]
fn held_picks_settle(rt: HostRuntime) -> Result<(), Fail> {
    let script = format!(in rt.alloc(); "{FIVE_CORES}{USERS}")?;
    for core in 0..5u8 {
        for pick in 1..5u64 {
            assert!(rt;
                is_settled(&rt, script.as_bytes(), core, pick),
                "core {core} at pick {pick}"
            );
        }
    }
    Ok(())
}
