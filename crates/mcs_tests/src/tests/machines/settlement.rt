//! Machines whose entries are made by hand.
ghost use Rattle.std.specs.Prelude.{◌≡◌};

use crate::tests::texts::{
    ONE_CORE, TWO_CORES, boot_of, boot_of_script, has_trace, is_mail, replay_of, thread,
};
use mcs_book::{Book, Line};
use mcs_cores::{CoreSeat, FinishFault, Machine, Settled};
use mcs_kernel::{Boot, Kernel};
use mcs_queues::{Lines, LinkedLines};
use mcs_types::CORES;
use std::alloc::Global;
use std::marker::Brand;
use std::sync::Wait;
use std::sync::ledger::{Blank, Ledger};
use std::test::Fail;

/// A send and its receive.
const STEPS: &str = "\
0 t1 send 1 7 5 6
0 t2 recv 2 8
";

const TRACE: &str = "\
0 t1 send 1 7 5 6
= waits
+ sent m0 t1 e1 send 9 7 5 6
+ joins t1 e1.send
0 t2 recv 2 8
= got 9 7 5 6
+ took m0 t2
+ parts t1 e1.send
+ turns t1 running
";

/// Which seats are given back when a machine is finished.
#[derive(Clone, Copy)]
enum Seats {
    /// All of them.
    All,
    /// All but one.
    NotOne,
    /// They were never created.
    NeverGiven,
}

/// Enters the step of a line, and compares the answer.
fn enter_step<G: Ledger, L: Lines, R: Wait>(
    rt: &R,
    alloc: Global,
    machine: &Machine<G, L>,
    seat: &mut CoreSeat<G>,
    (number, line): (usize, &Line<'_>),
) -> Result<(), Fail> {
    let answer = line.answer(alloc)?;
    let step = line.step(alloc)?;
    match machine.enter(rt, alloc, seat, step.thread, step.entry) {
        Ok(observed) if observed.line == number && observed.answer.is_same(&answer) => Ok(()),
        _ => Err(Fail::from("the entry is let in as its line")),
    }
}

/// Enters the steps of a book, and compares the answers.
fn enter_steps<G: Ledger, L: Lines, R: Wait>(
    rt: &R,
    alloc: Global,
    machine: &Machine<G, L>,
    seat: &mut CoreSeat<G>,
    book: &Book,
) -> Result<(), Fail> {
    for i in 1..book.lines() {
        let line = book.line(i).ok_or("a line of the book")?;
        enter_step(rt, alloc, machine, seat, (i, &line))?;
    }
    Ok(())
}

/// Returns the seats with which a machine is finished; the first has entered the steps of a book.
fn seats_for<G: Ledger, L: Lines, R: Wait>(
    rt: &R,
    alloc: Global,
    machine: &mut Machine<G, L>,
    book: &Book,
    kept: Seats,
) -> Result<Vec<CoreSeat<G>>, Fail> {
    if let Seats::NeverGiven = kept {
        return Ok(Vec::new(alloc));
    }
    let Ok(mut seats) = machine.seats(rt, alloc) else {
        return Err(Fail::from("seats are given"));
    };
    match seats.first_mut() {
        Some(seat) => enter_steps(rt, alloc, machine, seat, book)?,
        None => return Err(Fail::from("there is a seat")),
    }
    if let Seats::NotOne = kept {
        let _ = seats.pop();
    }
    Ok(seats)
}

/// How a machine ends.
type Ended<L> = Result<Settled<L>, FinishFault>;

/// Enters the steps of a book on a machine with this ledger, and finishes it with this boot and
/// these seats.
fn finish_steps<G: Ledger, L: Lines, R: Wait>(
    rt: &R,
    alloc: Global,
    blank: Blank,
    book: &Book,
    end: (&Boot, Seats),
) -> Result<Ended<L>, Fail>
    requires name { blank.name ≡ G.name }
    requires parts { blank.parts ≡ G.parts }
    requires sixteen { blank.parts ≡ CORES }
{
    let (boot, kept) = end;
    let begun = boot_of(alloc, book)?;
    let kernel: Kernel<L> = Kernel::new(alloc, &begun)?;
    let mut machine = Machine::<G, L>::new(kernel, blank);
    let seats = seats_for(rt, alloc, &mut machine, book, kept)?;
    Ok(machine.finish(alloc, boot, seats))
}

/// Enters a send and its receive on a machine of one core, and finishes it with this boot and these
/// seats.
fn finished<R: Wait>(
    rt: &R,
    alloc: Global,
    boot: &Boot,
    kept: Seats,
) -> Result<Ended<LinkedLines>, Fail> {
    let script = format!(in alloc; "{ONE_CORE}{STEPS}")?;
    let replay = replay_of(alloc, script.as_str())?;
    match replay.book() {
        Some(book) => {
            let end = (boot, kept);
            finish_steps::<Brand, LinkedLines, R>(rt, alloc, Blank::new(16), book, end)
        }
        None => Err(Fail::from("a book")),
    }
}

#[test]
fn settles(rt: HostRuntime) -> Result<(), Fail> {
    let boot = boot_of_script(rt.alloc(), ONE_CORE)?;
    let Ok(settled) = finished(&rt, rt.alloc(), &boot, Seats::All)? else {
        return Err(Fail::from("the machine settles"));
    };
    let is_mail = is_mail(settled.kernel().mail(thread(2)));
    assert!(rt; is_mail && has_trace(rt.alloc(), settled.book(), ONE_CORE, TRACE)?);
    Ok(())
}

/// Boots with which a machine of one core is finished, which seats are given back, and the result.
const FAULTS: &[(&str, Seats, FinishFault)] = &[
    (ONE_CORE, Seats::NotOne, FinishFault::MissingSeat),
    (ONE_CORE, Seats::NeverGiven, FinishFault::MissingSeat),
    (TWO_CORES, Seats::NotOne, FinishFault::MissingSeat),
    (TWO_CORES, Seats::All, FinishFault::OtherBoot),
];

/// Returns whether a machine of one core, finished with this boot and these seats, ends so.
fn is_fault<R: Wait>(
    rt: &R,
    alloc: Global,
    (script, kept, want): (&str, Seats, FinishFault),
) -> Result<bool, Fail> {
    let boot = boot_of_script(alloc, script)?;
    Ok(finished(rt, alloc, &boot, kept)?.err() == Some(want))
}

#[test]
fn others_do_not_settle(rt: HostRuntime) -> Result<(), Fail> {
    for (i, fault) in FAULTS.iter().enumerate() {
        assert!(rt; is_fault(&rt, rt.alloc(), *fault)?, "machine {i}");
    }
    Ok(())
}
