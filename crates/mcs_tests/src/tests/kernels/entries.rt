//! Entries by calls of the kernel, full books, and replays of steps.
use crate::tests::texts::{
    FIVE_THREADS, LOOSE_THREADS, boot_of, boot_of_script, is_mail, replay_of, thread,
};
use mcs_book::Book;
use mcs_kernel::{Boot, EnterFault, Kernel, ReplayFault, replay};
use mcs_queues::{Lines, LinkedLines};
use mcs_types::{Answer, BootFault, CoreId, Entry, Status, Step};
use std::alloc::Global;
use std::test::Fail;

/// Returns the cores of a boot, given the number asked for.
fn cores(alloc: Global, count: u8) -> Result<u8, BootFault> {
    Ok(Boot::new(alloc, count)?.cores())
}

#[test]
fn cores_are_limited(rt: HostRuntime) {
    let answers = [
        (0, Err(BootFault::Number)),
        (16, Ok(16)),
        (17, Err(BootFault::Number)),
    ];
    for (count, answer) in answers {
        assert!(rt; cores(rt.alloc(), count) == answer, "{count} cores");
    }
}

/// The addresses of a capability without Read, of an empty slot, and of a reply object.
const CAP: u64 = 1;

const OWN: u64 = 8;

/// Returns whether the receive of a thread is refused, or why it is skipped.
fn is_refused<L: Lines>(
    alloc: Global,
    kernel: &mut Kernel<L>,
    core: u8,
    serial: u32,
) -> Result<bool, EnterFault> {
    let entry = Entry::Recv {
        cap: CAP,
        reply: OWN,
    };
    match kernel.enter(alloc, CoreId(core), thread(serial), entry) {
        Ok(Answer::Refused(_)) => Ok(true),
        Ok(_) => Ok(false),
        Err(fault) => Err(fault),
    }
}

/// Returns a kernel after the boot of a script.
fn booted(alloc: Global, script: &str) -> Result<Kernel<LinkedLines>, Fail> {
    let boot = boot_of_script(alloc, script)?;
    Ok(Kernel::new(alloc, &boot)?)
}

/// Threads that enter on a core, and the results.
const ENTERING: &[(u8, u32, Result<bool, EnterFault>)] = &[
    (1, 1, Err(EnterFault::WrongCore)),
    (0, 2, Err(EnterFault::WrongCore)),
    (0, 4, Err(EnterFault::NoContext)),
    (0, 5, Err(EnterFault::NotRunning)),
    (0, 6, Err(EnterFault::NotRunning)),
    (1, 2, Ok(true)),
];

#[test]
fn who_may_not_enter_is_turned_away(rt: HostRuntime) -> Result<(), Fail> {
    let mut kernel = booted(rt.alloc(), LOOSE_THREADS)?;
    for &(core, serial, want) in ENTERING {
        assert!(rt; kernel.book().lines() == 1, "t{serial} on {core}");
        let observed = is_refused(rt.alloc(), &mut kernel, core, serial);
        assert!(rt; observed == want, "t{serial} on {core}");
    }
    assert!(rt; kernel.book().lines() == 2);
    Ok(())
}

/// How many lines a book has at most, the boot's included.
const LINES: usize = 1_000_000;

/// Fills a book. Returns whether each receive is refused.
fn is_filled<L: Lines>(alloc: Global, kernel: &mut Kernel<L>) -> bool {
    for _ in 1..LINES {
        if is_refused(alloc, kernel, 0, 1) != Ok(true) {
            return false;
        }
    }
    kernel.book().lines() == LINES
}

/// Threads that enter at a full book, and why they are skipped: other reasons come before the full
/// book.
const FULL: &[(u32, EnterFault)] = &[(1, EnterFault::BookFull), (6, EnterFault::NotRunning)];

#[test]
fn a_full_book_takes_no_line(rt: HostRuntime) -> Result<(), Fail> {
    let mut kernel = booted(rt.alloc(), FIVE_THREADS)?;
    assert!(rt; is_filled(rt.alloc(), &mut kernel));
    for &(serial, fault) in FULL {
        let observed = is_refused(rt.alloc(), &mut kernel, 0, serial);
        assert!(rt; observed == Err(fault) && kernel.book().lines() == LINES);
    }
    Ok(())
}

/// A message that waits for its receiver.
const MESSAGE: &str = "\
0 t1 send 1 7 5 6
0 t2 recv 2 8
";

/// Adds the first step of a book twice, of which the second is skipped, and the second step.
fn add_steps(alloc: Global, steps: &mut Vec<Step>, book: &Book) -> Result<(), Fail> {
    for i in [1, 1, 2] {
        steps.push(book.line(i).ok_or("a line")?.step(alloc)?)?;
    }
    Ok(())
}

/// Returns whether the steps of a book were replayed except the skipped second one.
fn are_replayed(alloc: Global, book: &Book) -> Result<bool, Fail> {
    let mut steps = Vec::new(alloc);
    add_steps(alloc, &mut steps, book)?;
    let kernel: Kernel<LinkedLines> = replay(alloc, boot_of(alloc, book)?, &steps)?;
    Ok(
        kernel.book().lines() == 3
            && kernel.status(thread(1)) == Some(Status::Running)
            && is_mail(kernel.mail(thread(2))),
    )
}

#[test]
fn steps_are_replayed(rt: HostRuntime) -> Result<(), Fail> {
    let script = format!(in rt.alloc(); "{FIVE_THREADS}{MESSAGE}")?;
    let run = replay_of(rt.alloc(), script.as_str())?;
    let book = run.book().ok_or("a book")?;
    assert!(rt; are_replayed(rt.alloc(), book)?);
    Ok(())
}

/// Adds receives that are refused, one more than the book has room for.
fn add_refused(steps: &mut Vec<Step>) -> Result<(), Fail> {
    for _ in 0..LINES {
        steps.push(Step {
            core: CoreId(0),
            thread: thread(1),
            entry: Entry::Recv {
                cap: CAP,
                reply: OWN,
            },
        })?;
    }
    Ok(())
}

#[test]
fn a_replay_tells_the_step_for_which_the_book_is_full(rt: HostRuntime) -> Result<(), Fail> {
    let mut steps = Vec::with_capacity(rt.alloc(), LINES)?;
    add_refused(&mut steps)?;
    let boot = boot_of_script(rt.alloc(), FIVE_THREADS)?;
    let ended = replay::<LinkedLines>(rt.alloc(), boot, &steps).err();
    assert!(rt; ended == Some(ReplayFault::BookFull { step: LINES }));
    Ok(())
}
