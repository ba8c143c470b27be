//! Users on one core, and two cores that have both picked before one enters.
use crate::tests::machines::runs::{Away, Ran, run_users};
use crate::tests::texts::{FREE_CONTEXT, ONE_CORE, TWO_CORES, has_trace, thread};
use mcs_cores::Gate;
use mcs_kernel::EnterFault;
use mcs_queues::LinkedLines;
use mcs_types::{CoreId, ObjId};
use std::alloc::Global;
use std::hint::spin_loop;
use std::sync::Wait;
use std::sync::atomic::{AtomicU64, Ordering};
use std::test::Fail;
use std::thread::Threads;

/// A gate that holds core 1 until core 0 has picked, and core 0 until core 1 has this many answers.
#[derive(Drop)]
struct Crossing {
    answers: u64,
    picked: AtomicU64,
    answered: AtomicU64,
    late: AtomicU64,
}

impl Crossing {
    /// Waits until a count is reached; the run fails if that takes too long.
    fn await_count(&self, count: &AtomicU64, least: u64) {
        for _ in 0..1_000_000_000u64 {
            if count.load(Ordering::SeqCst) >= least {
                return;
            }
            spin_loop();
        }
        self.late.store(1, Ordering::SeqCst);
    }
}

impl Gate for Crossing {
    fn between(&self, core: CoreId, _thread: ObjId) {
        if core == CoreId(0) {
            self.picked.store(1, Ordering::SeqCst);
            self.await_count(&self.answered, self.answers);
        } else {
            self.await_count(&self.picked, 1);
        }
    }

    fn answered(&self, core: CoreId, _line: u64) {
        if core == CoreId(1) {
            self.answered.fetch_add(1, Ordering::SeqCst);
        }
    }
}

/// What may be skipped: nothing, or an entry of the first thread on core 0, with the length of the
/// book at that time, and the reason.
type TurnedAway = Option<(usize, EnterFault)>;

/// Returns whether this is all that was skipped.
fn is_away(observed: Away, away: &TurnedAway) -> bool {
    match *away {
        None => observed.0 == 0,
        Some((lines, fault)) => observed == (1, Some((CoreId(0), thread(1), lines, fault))),
    }
}

/// A boot, the steps of its threads, for how many answers of core 1 core 0 waits, the possible
/// outcomes of what core 0 picked, and the trace after the boot.
type Row = (
    &'static str,
    &'static str,
    u64,
    &'static [TurnedAway],
    &'static str,
);

/// Runs the steps of threads after a boot. Core 0 enters its first pick after this many answers of
/// core 1.
fn crossed<R: Threads + Wait + Sync>(
    rt: &R,
    alloc: Global,
    script: &str,
    answers: u64,
) -> Result<Ran<LinkedLines>, Fail> {
    let gate = Crossing {
        answers,
        picked: AtomicU64::new(0),
        answered: AtomicU64::new(0),
        late: AtomicU64::new(0),
    };
    let ran = run_users(rt, alloc, script, &gate)?;
    if gate.late.load(Ordering::SeqCst) != 0 {
        return Err(Fail::from("the cores run side by side"));
    }
    Ok(ran)
}

/// Returns whether such a run skips one of these, and has this trace.
fn is_crossed<R: Threads + Wait + Sync>(
    rt: &R,
    alloc: Global,
    (boot, steps, answers, aways, trace): Row,
) -> Result<bool, Fail> {
    let script = format!(in alloc; "{boot}{steps}")?;
    let ran = crossed(rt, alloc, script.as_str(), answers)?;
    let observed = ran.away;
    Ok(
        aways.iter().any(|away| is_away(observed, away))
            && has_trace(alloc, ran.settled.book(), boot, trace)?,
    )
}

/// The trace of a send whose receiver comes first.
pub const RECEIVER_FIRST: &str = "\
0 t2 recv 2 8
= waits
+ joins t2 e1.recv r1
0 t1 send 1 7
= done
+ sent m0 t1 e1 send 9 7
+ took m0 t2
+ parts t2 e1.recv
+ turns t2 running
";

/// The trace of a send that waits, and is retried after its thread was restarted.
pub const GIVEN_AGAIN: &str = "\
0 t2 send 1 7
= waits
+ sent m0 t2 e1 send 9 7
+ joins t2 e1.send
0 t1 resume 12
= done
+ dropped m0
+ parts t2 e1.send
+ turns t2 restart
0 t2 send 1 7
= waits
+ turns t2 running
+ sent m1 t2 e1 send 9 7
+ joins t2 e1.send
0 t1 nbrecv 2 8
= got 9 7
+ took m1 t1
+ parts t2 e1.send
+ turns t2 running
0 t2 nbsend 1 8
= done
";

/// A thread is suspended between its pick and its entry.
const SUSPENDED: Row = (
    TWO_CORES,
    "0 t1 signal 1\n1 t2 suspend 1\n",
    1,
    &[Some((2, EnterFault::NotRunning))],
    "1 t2 suspend 1\n= done\n+ turns t1 inactive\n",
);

#[test]
fn gate_row_16(rt: HostRuntime) -> Result<(), Fail> {
    assert!(rt; is_crossed(&rt, rt.alloc(), SUSPENDED)?);
    Ok(())
}

/// Users on one core, and what the second thread may do on another core between the pick and the
/// entry of the first.
const CROSSINGS: &[Row] = &[
    (
        ONE_CORE,
        "0 t1 send 1 7\n0 t2 recv 2 8\n",
        0,
        &[None],
        RECEIVER_FIRST,
    ),
    (
        ONE_CORE,
        "0 t2 send 1 7\n0 t1 resume 12\n0 t2 nbsend 1 8\n0 t1 nbrecv 2 8\n",
        0,
        &[None],
        GIVEN_AGAIN,
    ),
    // A restarted exchange sends again.
    (
        ONE_CORE,
        "\
0 t1 resume 12
0 t2 nbsendrecv 1 3 9 7
0 t1 send 3 5
0 t2 nbsend 1 8
0 t1 recv 2 8
",
        0,
        &[None],
        "\
0 t2 nbsendrecv 1 3 9 7
= waits
+ joins t2 e2.recv r2
0 t1 resume 12
= done
+ parts t2 e2.recv
+ turns t2 restart
0 t2 nbsendrecv 1 3 9 7
= waits
+ turns t2 running
+ joins t2 e2.recv r2
0 t1 send 3 5
= done
+ sent m0 t1 e2 send 0 5
+ took m0 t2
+ parts t2 e2.recv
+ turns t2 running
0 t2 nbsend 1 8
= done
0 t1 recv 2 8
= waits
+ joins t1 e1.recv r1
",
    ),
    (
        FREE_CONTEXT,
        "0 t1 signal 1\n1 t2 delete 1 64\n",
        1,
        &[Some((2, EnterFault::NotRunning))],
        "\
1 t2 delete 1 64
= done
+ slot c1 1 -
+ turns t1 inactive
+ holds s1 -
+ closed t1
",
    ),
    (
        FREE_CONTEXT,
        "0 t1 signal 1\n1 t2 unbind 2\n",
        1,
        &[Some((2, EnterFault::NoContext))],
        "\
1 t2 unbind 2
= done
+ holds s1 -
",
    ),
    // A lower priority keeps the pick.
    (
        FREE_CONTEXT,
        "0 t1 signal 1\n1 t2 setprio 1 3 5\n",
        1,
        &[None],
        "\
1 t2 setprio 1 3 5
= done
+ prio t1 5
0 t1 signal 1
= refused 4
",
    ),
    // Core 1 may enter the entry first, which the position shows, or after it was skipped.
    (
        FREE_CONTEXT,
        "0 t1 signal 1\n1 t2 unbind 2\n1 t2 bind 4 1\n",
        2,
        &[None, Some((3, EnterFault::WrongCore))],
        "\
1 t2 unbind 2
= done
+ holds s1 -
1 t2 bind 4 1
= done
+ holds s3 t1
1 t1 signal 1
= refused 4
",
    ),
    // The thread comes back to core 0, where its only entry was picked before core 1 entered it.
    (
        FREE_CONTEXT,
        "0 t1 signal 1\n1 t2 unbind 2\n1 t2 bind 4 1\n1 t2 unbind 4\n1 t2 bind 2 1\n",
        5,
        &[None],
        "\
1 t2 unbind 2
= done
+ holds s1 -
1 t2 bind 4 1
= done
+ holds s3 t1
1 t1 signal 1
= refused 4
1 t2 unbind 4
= done
+ holds s3 -
1 t2 bind 2 1
= done
+ holds s1 t1
",
    ),
];

#[test]
fn what_was_picked_is_entered_where_it_may(rt: HostRuntime) -> Result<(), Fail> {
    for (i, row) in CROSSINGS.iter().enumerate() {
        assert!(rt; is_crossed(&rt, rt.alloc(), *row)?, "row {i}");
    }
    Ok(())
}
