//! Scripts of users.
use crate::tests::machines::overlap::{GIVEN_AGAIN, RECEIVER_FIRST};
use crate::tests::streams::{Input, Output, pipe_users, run_users};
use crate::tests::texts::{ONE_CORE, gives_itself, occurrences, repeated};
use mcs_sim::{Open, SimFault, Source};
use mcs_text::LineFault;
use std::alloc::AllocGlobal;
use std::sync::Wait;
use std::test::Fail;
use std::thread::Threads;

/// Lines of users after the boot, and their trace after it.
const RUNS: &[(&str, &str)] = &[
    ("", ""),
    // The thread of greater priority comes first, whatever the order of lines.
    (
        "\
user t1 send 1 7
user t2 recv 2 8
",
        RECEIVER_FIRST,
    ),
    (
        "\
user t2 send 1 7
user t2 nbsend 1 8
user t1 resume 12
user t1 nbrecv 2 8
",
        GIVEN_AGAIN,
    ),
];

/// A client on each of two cores, and a server on the second, which receives at the end.
const TWO_CORES: &str = "\
cores 2
cnode 5
endpoint
reply
context 0
context 1
context 1
thread 10 255 c1 59 0 run s1
thread 10 255 c1 59 0 run s2
thread 20 255 c1 59 0 run s3
slot c1 1 e1 wg 7
slot c1 2 e1 r 0
slot c1 3 r1
user t1 call 1 101
user t1 call 1 102
user t2 call 1 103
user t3 recv 2 3
user t3 replyrecv 2 3 201
user t3 replyrecv 2 3 202
user t3 replyrecv 2 3 203
";

/// Returns whether these users on one core give this trace, which replays to itself.
fn give_trace<R: AllocGlobal + Threads + Wait + Sync>(
    rt: &R,
    users: &str,
    trace: &str,
) -> Result<bool, Fail> {
    let script = format!(in rt.alloc(); "{ONE_CORE}{users}")?;
    let want = format!(in rt.alloc(); "{ONE_CORE}{trace}")?;
    for cores in [None, Some(1)] {
        let (result, written) = run_users(rt, script.as_bytes(), cores, &Open);
        if result.is_err() || written.as_slice() != want.as_bytes() {
            return Ok(false);
        }
    }
    Ok(gives_itself(rt.alloc(), want.as_bytes()))
}

#[test]
fn users_on_one_core_give_their_traces(rt: HostRuntime) -> Result<(), Fail> {
    for &(users, trace) in RUNS {
        assert!(rt; give_trace(&rt, users, trace)?, "{users}");
    }
    Ok(())
}

/// Two clients of the first core call with nine words, and a server of the second answers with
/// seven.
const LONG_CALLS: &str = "\
cores 2
cnode 5
endpoint
reply
context 0
context 0
context 1
thread 10 255 c1 59 0 run s1
thread 10 255 c1 59 0 run s2
thread 20 255 c1 59 0 run s3
slot c1 1 e1 wg 7
slot c1 2 e1 r 0
slot c1 3 r1
user t1 call 1 101 1 2 3 4 5 6 7 8 9
user t1 call 1 102 1 2 3 4 5 6 7 8 9
user t2 call 1 103 1 2 3 4 5 6 7 8 9
user t3 recv 2 3
user t3 replyrecv 2 3 201 11 12 13 14 15 16 17
user t3 replyrecv 2 3 202 11 12 13 14 15 16 17
user t3 replyrecv 2 3 203 11 12 13 14 15 16 17
";

/// Words of a trace, and how often they come, at least and at most.
type Count = (&'static [u8], usize, usize);

/// Scripts for two cores, and how often words come. Each entry has an answer. All words of long
/// messages are written: of a call in its step, its record, and the answer if the server received
/// later; of a reply in its step and its record.
const SIDE_BY_SIDE: &[(&str, &[Count])] = &[
    (TWO_CORES, &[(b"\n= ", 7, 7)]),
    (
        LONG_CALLS,
        &[
            (b" 1 2 3 4 5 6 7 8 9", 6, 9),
            (b" 11 12 13 14 15 16 17", 6, 6),
        ],
    ),
];

/// Returns whether a run on two cores replays to itself, and words come this often.
fn is_side_by_side<R: AllocGlobal + Threads + Wait + Sync>(
    rt: &R,
    script: &str,
    counts: &[Count],
) -> bool {
    let (result, written) = run_users(rt, script.as_bytes(), Some(2), &Open);
    for &(words, least, most) in counts {
        let count = occurrences(&written, words);
        if count < least || count > most {
            return false;
        }
    }
    result.is_ok() && gives_itself(rt.alloc(), &written)
}

#[test]
fn runs_on_two_cores_are_replayed(rt: HostRuntime) {
    for (i, &(script, counts)) in SIDE_BY_SIDE.iter().enumerate() {
        for _ in 0..20 {
            assert!(rt; is_side_by_side(&rt, script, counts), "script {i}");
        }
    }
}

/// Returns whether a run of a script ends so, and writes nothing.
fn ends<R: AllocGlobal + Threads + Wait + Sync>(
    rt: &R,
    script: &[u8],
    cores: Option<u8>,
    fault: SimFault,
) -> bool {
    let (result, written) = run_users(rt, script, cores, &Open);
    result == Err(fault) && written.is_empty()
}

/// A script whose last line has no form.
const NONSENSE: &str = "# users\ncores 1\nendpoint\nnonsense\n";

/// Scripts, the number of cores asked for, the faulty line, and its fault: a wrong number of cores
/// is reported before later lines.
const FAULTS: &[(&str, Option<u8>, u64, LineFault)] = &[
    ("", None, 1, LineFault::NoCores),
    (NONSENSE, None, 4, LineFault::Form),
    (NONSENSE, Some(2), 2, LineFault::Number),
    (NONSENSE, Some(16), 2, LineFault::Number),
];

#[test]
fn another_number_of_cores_is_a_fault(rt: HostRuntime) {
    for (i, &(script, cores, line, why)) in FAULTS.iter().enumerate() {
        let fault = SimFault::Script { line, why };
        assert!(rt; ends(&rt, script.as_bytes(), cores, fault), "script {i}");
    }
}

#[test]
fn a_run_fills_the_book(rt: HostRuntime) -> Result<(), Fail> {
    // one line more than the book has room for
    let parts = (ONE_CORE, "user t1 recv 1 8\n", 1_000_000, "");
    let script = repeated(rt.alloc(), parts)?;
    assert!(rt; ends(&rt, &script, None, SimFault::BookFull));
    Ok(())
}

/// Returns the result of a run whose reads and writes fail after this many, and how many failed.
fn failed<R: AllocGlobal + Threads + Wait + Sync>(
    rt: &R,
    reads_left: u32,
    writes_left: u32,
) -> (Result<(), SimFault>, u64, u64) {
    let mut input = Input::new(TWO_CORES.as_bytes());
    input.reads_left = reads_left;
    let mut output = Output::new(rt.alloc());
    output.writes_left = writes_left;
    let mut source = Source::new(input);
    let (result, unwritten) = pipe_users(rt, &mut source, &mut output, None, &Open);
    (result, source.failed(), unwritten)
}

#[test]
fn a_failing_read_or_write_is_reported(rt: HostRuntime) {
    assert!(rt; failed(&rt, 0, u32::MAX) == (Err(SimFault::Read), 1, 0));
    assert!(rt; failed(&rt, u32::MAX, 0) == (Err(SimFault::Write), 0, 1));
}
