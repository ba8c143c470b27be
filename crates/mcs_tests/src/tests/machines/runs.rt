//! A run from its boot to its settled book.
ghost use Rattle.std.specs.Prelude.{◌≡◌};

use crate::tests::texts::{boot_of, replay_of};
use mcs_book::Book;
use mcs_cores::{CoreSeat, Gate, Machine, Outcome, SeatsFault, Settled, Users};
use mcs_kernel::{Boot, EnterFault, Kernel};
use mcs_queues::{Lines, LinkedLines};
use mcs_types::{CORES, CoreId, ObjId};
use std::alloc::Global;
use std::marker::Brand;
use std::sync::Wait;
use std::sync::ledger::{Blank, Ledger};
use std::test::Fail;
use std::thread::Threads;

/// How many entries were skipped, and of the last one its core, its thread, the length of the book
/// at that time, and the reason.
pub type Away = (usize, Option<(CoreId, ObjId, usize, EnterFault)>);

/// A run that ended well and was settled.
#[derive(Drop)]
pub struct Ran<L: Lines> {
    pub settled: Settled<L>,
    pub away: Away,
}

/// Returns what was skipped.
fn away_of<G: Ledger>(seats: &[CoreSeat<G>]) -> Away {
    let mut count: usize = 0;
    let mut last = None;
    for seat in seats {
        for call in seat.calls() {
            if let Outcome::Away { lines, fault } = &call.outcome {
                count = count.saturating_add(1);
                last = Some((seat.core(), call.thread, *lines, *fault));
            }
        }
    }
    (count, last)
}

/// Returns the seats of a machine, which are given once.
fn seats_of<G: Ledger, L: Lines, R: Wait>(
    rt: &R,
    alloc: Global,
    machine: &mut Machine<G, L>,
) -> Result<Vec<CoreSeat<G>>, Fail> {
    let Ok(seats) = machine.seats(rt, alloc) else {
        return Err(Fail::from("seats are given"));
    };
    if machine.seats(rt, alloc).err() == Some(SeatsFault::AlreadyGiven) {
        Ok(seats)
    } else {
        Err(Fail::from("seats are given once"))
    }
}

/// Runs the users on a machine. The seats come back, and what was skipped.
fn run_seats<G: Ledger + Send + Sync, L: Lines + Send + Sync, R: Threads + Wait + Sync, T: Gate>(
    rt: &R,
    alloc: Global,
    machine: &Machine<G, L>,
    seats: Vec<CoreSeat<G>>,
    users: &Users,
    gate: &T,
) -> Result<(Vec<CoreSeat<G>>, Away), Fail> {
    let (seats, ended) = machine.run(rt, alloc, seats, users, gate);
    if ended.is_err() {
        return Err(Fail::from("the run ends well"));
    }
    let away = away_of(seats.as_slice());
    Ok((seats, away))
}

/// Runs the users on a machine with this ledger, and settles it.
fn settle_run<G: Ledger + Send + Sync, L: Lines + Send + Sync, R: Threads + Wait + Sync, T: Gate>(
    rt: &R,
    alloc: Global,
    blank: Blank,
    boot: &Boot,
    users: &Users,
    gate: &T,
) -> Result<Ran<L>, Fail>
    requires name { blank.name ≡ G.name }
    requires parts { blank.parts ≡ G.parts }
    requires sixteen { blank.parts ≡ CORES }
{
    let kernel: Kernel<L> = Kernel::new(alloc, boot)?;
    let mut machine = Machine::<G, L>::new(kernel, blank);
    let seats = seats_of(rt, alloc, &mut machine)?;
    let (seats, away) = run_seats(rt, alloc, &machine, seats, users, gate)?;
    match machine.finish(alloc, boot, seats) {
        Ok(settled) => Ok(Ran { settled, away }),
        Err(_) => Err(Fail::from("the machine settles")),
    }
}

/// Adds the entries of a book to the lists of their threads.
fn add_entries(alloc: Global, users: &mut Users, book: &Book) -> Result<(), Fail> {
    for i in 1..book.lines() {
        let step = book.line(i).ok_or("a line of the book")?.step(alloc)?;
        users.add(step.thread, step.entry)?;
    }
    Ok(())
}

/// The entries of a book in the lists of their threads.
fn users_of(alloc: Global, book: &Book) -> Result<Users, Fail> {
    let mut users = Users::new(alloc);
    add_entries(alloc, &mut users, book)?;
    Ok(users)
}

/// Runs the boot and the entries of a book on a machine, and settles it.
fn run_book<R: Threads + Wait + Sync, T: Gate>(
    rt: &R,
    alloc: Global,
    book: &Book,
    gate: &T,
) -> Result<Ran<LinkedLines>, Fail> {
    let boot = boot_of(alloc, book)?;
    let users = users_of(alloc, book)?;
    settle_run::<Brand, LinkedLines, R, T>(rt, alloc, Blank::new(16), &boot, &users, gate)
}

/// Runs the boot and the entries of a script without fault on a machine, and settles it. The
/// entries are those of a replay, so some core must accept each.
pub fn run_users<R: Threads + Wait + Sync, T: Gate>(
    rt: &R,
    alloc: Global,
    script: &str,
    gate: &T,
) -> Result<Ran<LinkedLines>, Fail> {
    let replay = replay_of(alloc, script)?;
    match replay.book() {
        Some(book) => run_book(rt, alloc, book, gate),
        None => Err(Fail::from("a book")),
    }
}
