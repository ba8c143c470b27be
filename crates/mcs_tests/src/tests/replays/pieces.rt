//! Scripts that are fed piece by piece.
use mcs_sim::{ReplayRun, SimFault};
use mcs_text::LineFault;
use std::alloc::Global;
use std::test::Fail;

/// A piece of a script, how often it is fed without a fault, and the line and fault that it gives
/// if it is then fed once more; None if it is not.
type Fed = (&'static [u8], u32, Option<(u64, LineFault)>);

/// A line to which no form fits.
const NO_FORM: &[Fed] = &[
    (b"cores 1\nco", 1, None),
    (b"re 1\n\n", 0, Some((2, LineFault::Form))),
    (b"endpoint\n", 0, Some((2, LineFault::Form))),
];

/// A line that is too long at its 4,097th byte.
const LONG: &[Fed] = &[
    (b"x", 4_096, None),
    (b"x", 0, Some((1, LineFault::LongLine))),
];

/// Feeds a piece this often, and once more if that gives a fault. Returns whether all went so, and
/// the run has no book.
fn is_fed(alloc: Global, run: &mut ReplayRun, (piece, count, fault): Fed) -> bool {
    for _ in 0..count {
        if run.feed(alloc, piece).is_err() {
            return false;
        }
    }
    let want = match fault {
        Some((line, why)) => Err(SimFault::Script { line, why }),
        None => Ok(()),
    };
    (want.is_ok() || run.feed(alloc, piece) == want) && run.book().is_none()
}

#[test]
fn a_fault_stays(rt: HostRuntime) -> Result<(), Fail> {
    for pieces in [NO_FORM, LONG] {
        let mut run = ReplayRun::new(rt.alloc())?;
        for (i, piece) in pieces.iter().enumerate() {
            assert!(rt; is_fed(rt.alloc(), &mut run, *piece), "piece {i}");
        }
        let observed = run.feed(rt.alloc(), b"\n");
        assert!(rt; observed.is_err() && run.end(rt.alloc()) == observed && run.book().is_none());
    }
    Ok(())
}
