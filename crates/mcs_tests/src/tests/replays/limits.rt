//! Scripts that are cut, long lines and full books.
use crate::tests::streams::{run, run_users};
use crate::tests::texts::{BOOT, repeated};
use mcs_sim::{Open, SimFault};
use mcs_text::LineFault;
use std::alloc::{AllocGlobal, Global};
use std::sync::Wait;
use std::test::Fail;
use std::thread::Threads;

/// A message that waits for its receiver.
const FIRST_STEPS: &str = "\
0 t1 send 1 7 5 6
0 t2 recv 2 8
";

/// Returns what is wrong with a script of the first example that ends within one of its lines, if
/// anything.
fn cut_fault(number: u64, beginning: &str) -> Option<LineFault> {
    let is_whole = beginning.is_empty() || BOOT.lines().any(|line| line == beginning);
    let is_step = FIRST_STEPS.lines().any(|line| line == beginning);
    // a message of fewer words
    let is_shorter = beginning == "0 t1 send 1 7" || beginning == "0 t1 send 1 7 5";
    if number == 1 && !beginning.starts_with("cores") {
        Some(LineFault::NoCores)
    } else if is_whole || is_step || is_shorter {
        None
    } else {
        Some(LineFault::Form)
    }
}

/// Returns the result of a script that is cut after this many bytes.
fn cut(script: &str, end: usize) -> Result<(), SimFault> {
    let mut line: u64 = 1;
    let mut start: usize = 0;
    for (i, byte) in script.bytes().enumerate() {
        if i < end && byte == b'\n' {
            line = line.wrapping_add(1);
            start = i.wrapping_add(1);
        }
    }
    match cut_fault(line, script.get(start..end).unwrap_or("")) {
        None => Ok(()),
        Some(why) => Err(SimFault::Script { line, why }),
    }
}

#[test]
fn a_script_cut_anywhere_is_read_or_faulty(rt: HostRuntime) -> Result<(), Fail> {
    let script = format!(in rt.alloc(); "{BOOT}{FIRST_STEPS}")?;
    for end in 0..=script.len() {
        let (result, _) = run(rt.alloc(), &script.as_bytes()[..end]);
        assert!(rt; result == cut(script.as_str(), end), "{end} bytes");
    }
    Ok(())
}

/// A text, this many pieces after it, and an end.
type Parts = (&'static str, &'static str, u32, &'static str);

/// Such scripts of steps, and the line and fault, if any.
const LONG_SCRIPTS: &[(Parts, Option<(u64, LineFault)>)] = &[
    (("cores 1\n", "#", 4_096, "\nendpoint\n"), None),
    (
        ("cores 1\n", "#", 4_097, "\nendpoint\n"),
        Some((2, LineFault::LongLine)),
    ),
    (
        ("cores 1\n0 t1 recv 2 ", "9", 4_084, "\n"),
        Some((2, LineFault::Number)),
    ),
    (("cores 1", "\n", 2_000_000, ""), None),
    (
        ("cores 1", "\n", 2_000_000, "#"),
        Some((2_000_001, LineFault::ManyLines)),
    ),
    (("cores 1\n", "endpoint\n", 256, ""), None),
    (
        ("cores 1\n", "endpoint\n", 257, ""),
        Some((258, LineFault::Limit)),
    ),
];

/// Such scripts that are also tried as scripts of users: the line after the boot is as long as
/// allowed, or longer.
const LONG_LINES: &[(Parts, Option<(u64, LineFault)>)] = &[
    ((BOOT, "#", 4_096, ""), None),
    ((BOOT, "#", 4_096, "\n"), None),
    ((BOOT, "#", 4_096, "\nendpoint\n"), None),
    ((BOOT, "#", 4_097, ""), Some((37, LineFault::LongLine))),
    ((BOOT, "#", 4_097, "\n"), Some((37, LineFault::LongLine))),
    (
        (BOOT, "#", 4_097, "\nendpoint\n"),
        Some((37, LineFault::LongLine)),
    ),
];

/// Returns whether this is the result, and something was written exactly if it is a success.
fn is_end(
    (ended, written): (Result<(), SimFault>, Vec<u8>),
    fault: Option<(u64, LineFault)>,
) -> bool {
    let want = match fault {
        None => Ok(()),
        Some((line, why)) => Err(SimFault::Script { line, why }),
    };
    ended == want && written.is_empty() == want.is_err()
}

#[test]
fn long_scripts_are_read_or_faulty(rt: HostRuntime) -> Result<(), Fail> {
    for scripts in [LONG_SCRIPTS, LONG_LINES] {
        for (i, &(parts, fault)) in scripts.iter().enumerate() {
            let script = repeated(rt.alloc(), parts)?;
            assert!(rt; is_end(run(rt.alloc(), &script), fault), "script {i}");
        }
    }
    Ok(())
}

/// Returns whether a run of users ends so.
fn is_run<R: AllocGlobal + Threads + Wait + Sync>(
    rt: &R,
    (parts, fault): (Parts, Option<(u64, LineFault)>),
) -> Result<bool, Fail> {
    let script = repeated(rt.alloc(), parts)?;
    Ok(is_end(run_users(rt, &script, None, &Open), fault))
}

#[test]
fn a_line_has_4096_bytes_at_most(rt: HostRuntime) -> Result<(), Fail> {
    for (i, line) in LONG_LINES.iter().enumerate() {
        assert!(rt; is_run(&rt, *line)?, "line {i}");
    }
    Ok(())
}

/// A step that is refused, and its trace.
const REFUSED: &str = "0 t1 recv 1 8\n";

const ANSWERED: &str = "0 t1 recv 1 8\n= refused 5\n";

/// Returns whether a script ends so and writes this, or a prefix of it after a fault.
fn writes(alloc: Global, script: &[u8], want: &[u8], end: Result<(), SimFault>) -> bool {
    let (result, written) = run(alloc, script);
    let is_written = match end {
        Ok(()) => written.as_slice() == want,
        Err(_) => want.starts_with(&written),
    };
    result == end && is_written
}

#[test]
fn a_full_book_takes_no_step(rt: HostRuntime) -> Result<(), Fail> {
    let want = repeated(rt.alloc(), (BOOT, ANSWERED, 999_999, ""))?;
    let script = repeated(rt.alloc(), (BOOT, REFUSED, 1_000_000, ""))?;
    let full = &script[..script.len().saturating_sub(REFUSED.len())];
    assert!(rt; writes(rt.alloc(), full, &want, Ok(())));
    assert!(rt; writes(rt.alloc(), &script, &want, Err(SimFault::BookFull)));
    Ok(())
}
