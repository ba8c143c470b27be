//! Reads and writes that fail.
use crate::tests::streams::{Input, Output, pipe};
use crate::tests::texts::{BOOT, repeated};
use mcs_sim::SimFault;
use std::alloc::Global;
use std::test::Fail;

/// Returns the result of replaying a script from a reader to a writer, and the bytes written.
fn piped(alloc: Global, input: Input<'_>, mut output: Output) -> (Result<(), SimFault>, Vec<u8>) {
    let result = pipe(alloc, input, &mut output);
    let Output { taken, .. } = output;
    (result, taken)
}

/// How often reads are interrupted, how many reads succeed, how often writes are interrupted, how
/// many bytes a write takes, and how many fit in all.
type Limits = (u32, u32, u32, usize, usize);

/// All bytes.
const ALL: usize = usize::MAX;

/// Limits, the result of a boot within them, and how many bytes are written: as many interruptions
/// as are retried, or one more, or a write without room.
const LIMITS: &[(Limits, Result<(), SimFault>, usize)] = &[
    ((0, 1, 0, ALL, ALL), Err(SimFault::Read), 0),
    ((999, u32::MAX, 0, ALL, ALL), Ok(()), ALL),
    ((1000, u32::MAX, 0, ALL, ALL), Err(SimFault::Read), 0),
    ((0, u32::MAX, 999, ALL, ALL), Ok(()), ALL),
    ((0, u32::MAX, 1000, ALL, ALL), Err(SimFault::Write), 0),
    ((0, u32::MAX, 0, 7, 100), Err(SimFault::Write), 100),
];

/// Returns whether a boot has this result within limits, and this many of its bytes are written.
fn is_limited(
    alloc: Global,
    (reads, reads_left, writes, piece, room): Limits,
    want: Result<(), SimFault>,
    count: usize,
) -> bool {
    let boot = BOOT.as_bytes();
    let input = Input {
        text: boot,
        piece: ALL,
        reads_left,
        interruptions: reads,
    };
    let output = Output {
        taken: Vec::new(alloc),
        piece,
        room,
        writes_left: u32::MAX,
        interruptions: writes,
    };
    let (result, taken) = piped(alloc, input, output);
    result == want && taken.as_slice() == boot.get(..count).unwrap_or(boot)
}

#[test]
fn failed_reads_and_writes_are_reported(rt: HostRuntime) {
    for (i, &(limits, want, count)) in LIMITS.iter().enumerate() {
        assert!(rt; is_limited(rt.alloc(), limits, want, count), "row {i}");
    }
}

/// How many bytes of a script come with one read, and of its trace go with one write.
const READ_PIECE: usize = 50;

const WRITE_PIECE: usize = 7;

/// Two calls on one context, of which the first gets its reply before the second; the last step is
/// skipped.
const MIDDLE_STEPS: &str = "\
0 t2 recv 2 8
0 t3 recv 3 9
0 t5 unbind 22
0 t5 unbind 23
0 t1 call 2 1
0 t2 call 3 2
0 t4 send 8 5
0 t3 send 9 6
0 t1 nbrecv 2 8
";

/// The trace of these steps.
const MIDDLE_TRACE: &str = "\
0 t2 recv 2 8
= waits
+ joins t2 e1.recv r1
0 t3 recv 3 9
= waits
+ joins t3 e2.recv r2
0 t5 unbind 22
= done
+ holds s2 -
0 t5 unbind 23
= done
+ holds s3 -
0 t1 call 2 1
= waits
+ sent m0 t1 e1 call 0 1
+ took m0 t2
+ parts t2 e1.recv
+ owes r1 t1 s1
+ holds s1 t2
+ turns t2 running
0 t2 call 3 2
= waits
+ sent m1 t2 e2 call 0 2
+ took m1 t3
+ parts t3 e2.recv
+ owes r2 t2 s1
+ holds s1 t3
+ turns t3 running
0 t4 send 8 5
= done
+ paid r1 t1 5
+ turns t1 running
0 t3 send 9 6
= done
+ paid r2 t2 6
+ turns t2 running
+ holds s1 t2
";

/// Returns how a script with this trace ends if reads and writes fail after this many, or by this
/// fault: then it has written a prefix of the trace, and without fault all of it. None if what is
/// written is wrong.
fn ended(
    alloc: Global,
    (script, trace): (&[u8], &[u8]),
    (reads_left, writes_left): (u32, u32),
    fault: SimFault,
) -> Option<Result<(), SimFault>> {
    let input = Input {
        text: script,
        piece: READ_PIECE,
        reads_left,
        interruptions: 0,
    };
    let output = Output {
        taken: Vec::new(alloc),
        piece: WRITE_PIECE,
        room: ALL,
        writes_left,
        interruptions: 0,
    };
    let (result, taken) = piped(alloc, input, output);
    let is_reported = match result {
        Ok(()) => taken.as_slice() == trace,
        Err(observed) => observed == fault && trace.starts_with(&taken),
    };
    is_reported.then_some(result)
}

#[test]
fn each_read_fails_in_turn(rt: HostRuntime) -> Result<(), Fail> {
    let script = repeated(rt.alloc(), (BOOT, MIDDLE_STEPS, 1, ""))?;
    let trace = repeated(rt.alloc(), (BOOT, MIDDLE_TRACE, 1, ""))?;
    // this many pieces, and the one that finds the end
    let pieces = u32::try_from(script.len().div_ceil(READ_PIECE)).unwrap_or(u32::MAX);
    let reads = pieces.saturating_add(1);
    for left in 0..=reads {
        let observed = ended(
            rt.alloc(),
            (&script, &trace),
            (left, u32::MAX),
            SimFault::Read,
        );
        let is_ok = observed == Some(Ok(()));
        assert!(rt;
            observed.is_some() && is_ok == (left == reads),
            "read {left}"
        );
    }
    Ok(())
}

/// Returns how many writes a script with this trace needs to end well; None if something is wrong
/// before.
fn writes(alloc: Global, texts: (&[u8], &[u8])) -> Option<u32> {
    for left in 0..10_000 {
        if ended(alloc, texts, (u32::MAX, left), SimFault::Write)?.is_ok() {
            return Some(left);
        }
    }
    None
}

#[test]
fn each_write_fails_in_turn(rt: HostRuntime) -> Result<(), Fail> {
    let script = repeated(rt.alloc(), (BOOT, MIDDLE_STEPS, 1, ""))?;
    let trace = repeated(rt.alloc(), (BOOT, MIDDLE_TRACE, 1, ""))?;
    let writes = writes(rt.alloc(), (&script, &trace)).ok_or("so many writes are enough")?;
    // a write takes no more
    assert!(rt; writes as usize >= trace.len() / WRITE_PIECE);
    Ok(())
}
