//! The machine: a kernel under a lock, and the seats of its cores (own).
ghost use Rattle.std.specs.Prelude.{◌≡◌, ◌≤◌, ◌+◌, [], length, IfOk, IfErr, OnErr, OnOk, IsTrue, ◌↔◌, ◌||◌, is_ok, false};
ghost use Rattle.mcs_book.specs.History.{IsLegal};
ghost use Rattle.mcs_book.specs.Fair.{IsFair};
ghost use Rattle.mcs_seats.specs.Seats.{AreNew, Enters, noted, count_entered_by};
ghost use Rattle.mcs_seats.specs.Settling.{AllAgree, AreCounted, Because, HasSeats, HasReason};

use mcs_kernel::{Boot, Kernel};
use mcs_queues::Lines;
use mcs_seats::{
    Answered, CoreSeat, FinishFault, Prepared, Settled, Turned, audit_seats, settle_seats,
};
use mcs_types::{CORES, CoreId, Entry, ObjId, OutOfMemory};
use std::alloc::Global;
use std::marker::Model;
use std::sync::ledger::{Blank, Book, Ledger, Share};
use std::sync::{Mutex, MutexGuard, Wait};

/// What the lock guards: the kernel, and a ledger of the lines reported to seats. Clauses see the
/// kernel's book. The ledger's total is the number of lines after the boot; each core has a share
/// of it.
#[derive(Drop)]
pub struct LockedKernel<G: Ledger, L: Lines> {
    kernel: Kernel<L>,
    book: Book<G>,
    rest: Share<G>,
    given: bool,
}

impl<G: Ledger, L: Lines> Model for LockedKernel<G, L> {
    ghost use Rattle.std.specs.Prelude.{◌≡◌, ◌+◌, length, if◌then◌else◌};
    ghost use Rattle.mcs_types.specs.Limits.{core_limit};
    ghost use Rattle.mcs_book.specs.History.{Book};

    ghost Value = { Book };

    ghost view = { λ k. k.kernel };

    ghost invariant = { λ k. (k.book.total ≡ length k.kernel.lines)
        × (k.rest.parts + (if k.given then k.kernel.boot.cores else 0) ≡ core_limit)
        × (k.rest.amount ≡ 0) × (G.parts ≡ core_limit) };
}

impl<G: Ledger, L: Lines> LockedKernel<G, L> {
    /// Returns the kernel for reading.
    pub(crate) fn kernel(&self) -> &Kernel<L>
        ensures { result.now ≡ self.now }
    {
        &self.kernel
    }

    /// Makes a prepared entry of a thread on the seat's core, and notes it in the seat.
    /// `Turned::Away` if the thread may not enter or the book is full; `OutOfMemory` if an
    /// allocation of the kernel fails.
    pub(crate) fn enter(
        &mut self,
        alloc: Global,
        seat: &mut CoreSeat<G>,
        thread: ObjId,
        prepared: Prepared,
    ) -> Result<Answered, Turned>
        ensures { Enters seat.old seat.new self.old self.new thread prepared result }
    {
        seat.enter(alloc, &mut self.kernel, &mut self.book, thread, prepared)
    }

    /// Creates a seat for each of `cores` cores. `OutOfMemory` if an allocation fails, if seats
    /// were created before, or if the boot has another number of cores. No invariant says outside
    /// of the lock what is true under it, so the last two are tested again.
    fn seats(&mut self, alloc: Global, cores: u8) -> Result<Vec<CoreSeat<G>>, OutOfMemory>
        ensures unchanged { self.new ≡ self.old }
        ensures seats { IfOk result (λ v. AreNew v.items) }
        ensures count { IfOk result (λ v. length v.items ≡ cores) }
    {
        let booted = self.kernel.book().cores();
        if self.given || booted != cores {
            return Err(OutOfMemory);
        }
        let seats = new_seats(alloc, &mut self.rest, cores)?;
        self.given = true;
        Ok(seats)
    }

    /// Compares the calls of the seats with the book, and audits the ledger with all shares.
    fn settle(
        self,
        alloc: Global,
        boot: &Boot,
        seats: Vec<CoreSeat<G>>,
    ) -> Result<Settled<L>, FinishFault>
        ensures same { IfOk result (λ s. s ≡ self) }
        ensures legal { IsLegal self }
        ensures fair { IsFair self }
        ensures boot { IfOk result (λ s. s.boot ≡ boot.now) }
        ensures seats { IfOk result (λ s. HasSeats s seats.items) }
        ensures agree { IfOk result (λ s. AllAgree s seats.items) }
        ensures counted { AreCounted self seats.items }
        ensures fault { IfErr result (Because self boot.now seats.items) }
    {
        let LockedKernel {
            kernel,
            mut book,
            rest,
            given: _,
        } = self;
        let settled = compare(alloc, kernel, boot, &seats);
        audit_seats(&mut book, rest, seats);
        settled
    }
}

/// Compares the calls of seats with the book of a kernel.
fn compare<G: Ledger, L: Lines>(
    alloc: Global,
    kernel: Kernel<L>,
    boot: &Boot,
    seats: &Vec<CoreSeat<G>>,
) -> Result<Settled<L>, FinishFault>
    ensures same { IfOk result (λ s. s ≡ kernel) }
    ensures legal { IsLegal kernel }
    ensures fair { IsFair kernel }
    ensures boot { IfOk result (λ s. s.boot ≡ boot.now) }
    ensures seats { IfOk result (λ s. HasSeats s seats.now.items) }
    ensures agree { IfOk result (λ s. AllAgree s seats.now.items) }
    ensures fault { IfErr result (Because kernel boot.now seats.now.items) }
{
    settle_seats(alloc, kernel, boot, seats)
}

/// Creates `cores` seats, each with a share of the ledger.
fn new_seats<G: Ledger>(
    alloc: Global,
    rest: &mut Share<G>,
    cores: u8,
) -> Result<Vec<CoreSeat<G>>, OutOfMemory>
    requires parts { cores ≤ rest.old.parts }
    requires amount { rest.old.amount ≡ 0 }
    ensures seats { IfOk result (λ v. AreNew v.items) }
    ensures count { IfOk result (λ v. length v.items ≡ cores) }
    ensures given { OnOk result (rest.new.parts + cores ≡ rest.old.parts) }
    ensures kept { OnErr result (rest.new.parts ≡ rest.old.parts) }
    ensures amount { rest.new.amount ≡ 0 }
{
    let mut seats = Vec::with_capacity(alloc, cores as usize)?;
    for core in 0..cores {
        let seat = CoreSeat::new(alloc, CoreId(core), rest.split_off(1, 0));
        match seats.push(seat) {
            Ok(()) => {}
            Err(_) => unreachable!(),
        }
    }
    Ok(seats)
}

/// A kernel that several cores share: each entry holds the lock from its first test to its last
/// record.
#[derive(Drop)]
pub struct Machine<G: Ledger, L: Lines> {
    kernel: Mutex<LockedKernel<G, L>>,
    cores: u8,
    given: bool,
}

/// Why seats were not created.
#[derive(Clone, Copy, PartialEq, Eq, Debug)]
pub enum SeatsFault {
    /// They were created before.
    AlreadyGiven = 1,
    /// An allocation failed; nothing was created, and the call can be retried.
    OutOfMemory = 2,
}

impl<G: Ledger, L: Lines> Machine<G, L> {
    /// Returns a machine over a kernel whose book has only line 0, with a new ledger that has a
    /// share for each of 16 cores.
    pub fn new(kernel: Kernel<L>, blank: Blank) -> Machine<G, L>
        requires name { blank.name ≡ G.name }
        requires parts { blank.parts ≡ G.parts }
        requires sixteen { blank.parts ≡ CORES }
        requires booted { kernel.lines ≡ [] }
        ensures given { result.given ≡ false }
        ensures cores { result.cores ≡ kernel.boot.cores }
    {
        let (book, rest) = blank.open::<G>();
        let cores = kernel.book().cores();
        Machine {
            kernel: Mutex::new(LockedKernel {
                kernel,
                book,
                rest,
                given: false,
            }),
            cores,
            given: false,
        }
    }

    /// Creates a seat for each core of the boot, in order; only the first call succeeds.
    pub fn seats<R: Wait>(&mut self, rt: &R, alloc: Global) -> Result<Vec<CoreSeat<G>>, SeatsFault>
        ensures seats { IfOk result (λ v. AreNew v.items) }
        ensures count { IfOk result (λ v. length v.items ≡ self.old.cores) }
        ensures cores { self.new.cores ≡ self.old.cores }
        ensures given { self.new.given ≡ (is_ok result || self.old.given) }
        ensures again { IfErr result (λ f. f ≡ SeatsFault.AlreadyGiven ↔ IsTrue self.old.given) }
        ensures once { OnOk result (self.old.given ≡ false) }
    {
        if self.given {
            return Err(SeatsFault::AlreadyGiven);
        }
        match self.kernel.lock(rt).seats(alloc, self.cores) {
            Ok(seats) => {
                self.given = true;
                Ok(seats)
            }
            Err(OutOfMemory) => Err(SeatsFault::OutOfMemory),
        }
    }

    /// Takes the lock.
    pub(crate) fn lock<R: Wait>(&self, rt: &R) -> MutexGuard<'_, LockedKernel<G, L>> {
        self.kernel.lock(rt)
    }

    /// Returns what the lock guarded.
    fn into_locked(self) -> LockedKernel<G, L> {
        let Machine {
            kernel,
            cores: _,
            given: _,
        } = self;
        kernel.into_inner()
    }

    /// Enters an entry of a thread on the seat's core. The seat keeps the entry, and how it was
    /// accepted or skipped. It waits for the lock, and allocates nothing for the seat while holding
    /// it. `OutOfMemory` if an allocation fails: then seat and kernel are unchanged, and the entry
    /// is dropped.
    pub fn enter<R: Wait>(
        &self,
        rt: &R,
        alloc: Global,
        seat: &mut CoreSeat<G>,
        thread: ObjId,
        entry: Entry,
    ) -> Result<Answered, Turned>
        ensures { seat.new ≡ noted seat.old thread entry result }
    {
        let Ok(prepared) = seat.prepare(alloc, entry) else {
            return Err(Turned::OutOfMemory);
        };
        self.kernel.lock(rt).enter(alloc, seat, thread, prepared)
    }

    /// Compares the calls of the seats with the book, as `settle_seats` does, and returns the
    /// kernel if all agree. After a fault no clause can name the book that was under the lock: so
    /// `fault` says only that the fault is right for some legal book. If no core lacks a seat, that
    /// book has as many lines after the boot as the seats have, since the ledger counts both.
    pub fn finish(
        self,
        alloc: Global,
        boot: &Boot,
        seats: Vec<CoreSeat<G>>,
    ) -> Result<Settled<L>, FinishFault>
        ensures legal { IfOk result (λ s. IsLegal s) }
        ensures fair { IfOk result (λ s. IsFair s) }
        ensures boot { IfOk result (λ s. s.boot ≡ boot.now) }
        ensures seats { IfOk result (λ s. HasSeats s seats.items) }
        ensures agree { IfOk result (λ s. AllAgree s seats.items) }
        ensures counted { IfOk result (λ s. count_entered_by seats.items ≡ length s.lines) }
        ensures fault { IfErr result (HasReason boot.now seats.items) }
    {
        self.into_locked().settle(alloc, boot, seats)
    }
}
