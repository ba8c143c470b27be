//! Queues of threads.
ghost use Rattle.std.specs.Prelude.{◌≡◌, ◌<◌};

use super::names::next_number;
use mcs_queues::{LineNo, Lines, LinkedLines, PlainLines, Steps, ThreadNo};
use mcs_types::Prio;
use std::marker::Brand;
use std::sync::ledger::{Blank, Ledger};
use std::test::Fail;

/// How many calls both implementations get.
const CALLS: u32 = 10_000;

/// How many threads and lines they have room for. Some calls name others.
const THREADS: u16 = 256;

const LINES: u16 = 768;

/// A call on lines.
#[derive(Clone, Copy)]
enum Call {
    Join(ThreadNo, LineNo, Prio),
    Part(ThreadNo),
    Shift(ThreadNo, Prio),
    WhereIs(ThreadNo),
}

impl Call {
    /// Returns the call for a random number. Three of four calls name one of three lines, so that
    /// lines get long.
    fn numbered(n: u64) -> Call {
        let t = ThreadNo(((n >> 20) % (THREADS as u64 + 2)) as u16);
        let lines = if (n >> 60) % 4 == 0 {
            LINES as u64 + 2
        } else {
            3
        };
        let q = LineNo(((n >> 36) % lines) as u16);
        let p = Prio(((n >> 50) % 6) as u8);
        match (n >> 56) % 8 {
            0..=3 => Call::Join(t, q, p),
            4 | 5 => Call::Part(t),
            6 => Call::Shift(t, p),
            _ => Call::WhereIs(t),
        }
    }

    /// Returns whether the call changed something, and the line that it returned.
    fn on<L: Lines>(self, lines: &mut L) -> (bool, Option<LineNo>) {
        match self {
            Call::Join(t, q, p) => (lines.join(t, q, p), None),
            Call::Part(t) => (true, lines.part(t)),
            Call::Shift(t, p) => (lines.shift(t, p), None),
            Call::WhereIs(t) => (false, lines.where_is(t)),
        }
    }
}

/// Returns whether a line has the same threads in the same order in both.
fn has_same_threads<A: Lines, B: Lines>(a: &A, b: &B, line: LineNo) -> bool {
    let mut x = a.first(line);
    let mut y = b.first(line);
    for _ in 0..=THREADS {
        if x != y {
            return false;
        }
        let Some(thread) = x else {
            return true;
        };
        x = a.next(thread);
        y = b.next(thread);
    }
    false
}

/// Returns whether both give the same result for a call, and then have the same threads in all
/// lines.
fn agree<A: Lines, B: Lines>(a: &mut A, b: &mut B, call: Call) -> bool {
    if call.on(a) != call.on(b) {
        return false;
    }
    for line in 0..LINES {
        if !has_same_threads(a, b, LineNo(line)) {
            return false;
        }
    }
    true
}

#[test]
fn both_bodies_agree(rt: HostRuntime) -> Result<(), Fail> {
    let mut plain = PlainLines::new(rt.alloc(), THREADS, LINES)?;
    let mut linked = LinkedLines::new(rt.alloc(), THREADS, LINES)?;
    let mut n = 1;
    for call in 0..CALLS {
        n = next_number(n);
        assert!(rt;
            agree(&mut plain, &mut linked, Call::numbered(n)),
            "call {call}"
        );
    }
    Ok(())
}

const A: ThreadNo = ThreadNo(0);

const B: ThreadNo = ThreadNo(1);

const C: ThreadNo = ThreadNo(2);

const Q: LineNo = LineNo(1);

/// Calls on lines for three threads, their results, and the threads of the second line afterwards.
const ANSWERS: &[(Call, (bool, Option<LineNo>), &[ThreadNo])] = &[
    (Call::Join(A, Q, Prio(5)), (true, None), &[A]),
    (Call::Join(B, Q, Prio(9)), (true, None), &[B, A]),
    (Call::Join(C, Q, Prio(5)), (true, None), &[B, A, C]),
    // The thread is in a line.
    (Call::Join(C, LineNo(0), Prio(5)), (false, None), &[B, A, C]),
    (Call::Shift(A, Prio(5)), (true, None), &[B, C, A]),
    (Call::Part(B), (true, Some(Q)), &[C, A]),
    (Call::WhereIs(B), (false, None), &[C, A]),
    (Call::WhereIs(A), (false, Some(Q)), &[C, A]),
];

/// Returns whether a line has exactly these threads, first to last.
fn is_line<L: Lines>(lines: &L, line: LineNo, threads: &[ThreadNo]) -> bool {
    let mut next = lines.first(line);
    for thread in threads {
        if next != Some(*thread) {
            return false;
        }
        next = lines.next(*thread);
    }
    next.is_none()
}

#[test]
fn plain_lines_answer(rt: HostRuntime) -> Result<(), Fail> {
    let mut lines = PlainLines::new(rt.alloc(), 3, 2)?;
    for (i, &(call, answer, threads)) in ANSWERS.iter().enumerate() {
        assert!(rt; call.on(&mut lines) == answer, "the answer of call {i}");
        assert!(rt; is_line(&lines, Q, threads), "the line after call {i}");
    }
    assert!(rt; lines.next(A).is_none(), "it is the last");
    Ok(())
}

/// Returns whether two threads join a line, and the first moves after the second, with counted
/// visits.
fn move_counted<G: Ledger>(lines: &mut LinkedLines, blank: Blank) -> bool
    requires name { blank.name ≡ G.name }
    requires parts { blank.parts ≡ G.parts }
    requires some { 0 < blank.parts }
{
    let mut steps = Steps::<G>::new(blank);
    lines.join_counted(A, Q, Prio(9), &mut steps)
        && lines.join_counted(B, Q, Prio(5), &mut steps)
        && lines.shift_counted(A, Prio(5), &mut steps)
        && lines.next(B) == Some(A)
}

#[test]
fn visits_are_counted(rt: HostRuntime) -> Result<(), Fail> {
    let mut lines = LinkedLines::new(rt.alloc(), 2, 2)?;
    assert!(rt; move_counted::<Brand>(&mut lines, Blank::new(1)));
    Ok(())
}
