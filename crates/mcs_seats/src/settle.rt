//! Checks whether the seats of a machine agree with its book (own).
ghost use Rattle.std.specs.Prelude.{◌≡◌, ◌==◌, IfOk, IfErr, IsTrue, ◌↔◌, OnOk, true, false};
ghost use Rattle.std.specs.List.{list_any};
ghost use Rattle.mcs_book.specs.History.{IsLegal};
ghost use Rattle.mcs_book.specs.Fair.{IsFair};
ghost use Rattle.mcs_seats.specs.Settling.{AllAgree, HasSeats, LacksSeat, Because};

use crate::retrace::first_torn;
use crate::seat::CoreSeat;
use mcs_book::Book;
use mcs_kernel::{Boot, Kernel, are_same_lines};
use mcs_queues::Lines;
use mcs_types::{CoreId, OutOfMemory};
use std::alloc::Global;
use std::marker::Model;
use std::sync::ledger::Ledger;

/// Why a machine was not settled: the numbers 1 to 4. The first three are tested in this order.
#[derive(Clone, Copy, PartialEq, Eq, Debug)]
pub enum FinishFault {
    /// A core of the machine has no seat among those given.
    MissingSeat,
    /// The machine did not begin with the boot given.
    OtherBoot,
    /// The n-th call of a core, counted from 1, is the first that does not agree with the book; one
    /// more than it made, if it lacks a line of its core.
    Torn { core: CoreId, n: usize },
    /// A growth was refused.
    OutOfMemory,
}

/// Returns whether a core has a seat.
fn has_seat<G: Ledger>(seats: &Vec<CoreSeat<G>>, core: u8) -> bool
    ensures { result ≡ list_any (λ s. s.core.0 == core) seats.now.items }
{
    seats.iter().any(|seat| seat.core().0 == core)
}

/// Returns whether each core has a seat.
fn has_seats<G: Ledger>(seats: &Vec<CoreSeat<G>>, book: &Book) -> bool
    ensures all { result ≡ true → HasSeats book.now.book seats.now.items }
    ensures lacks { result ≡ false → LacksSeat book.now.book seats.now.items }
{
    for core in 0..book.cores() {
        if !has_seat(seats, core) {
            return false;
        }
    }
    true
}

/// Returns whether a book begins with a boot.
fn begins_with(book: &Book, boot: &Boot) -> bool
    ensures { IsTrue result ↔ (book.now.book.boot ≡ boot.now) }
{
    book.cores() == boot.cores() && are_same_lines(book.boot(), boot.lines())
}

/// Compares each seat with a kernel's book.
fn compare<G: Ledger, L: Lines>(
    alloc: Global,
    kernel: &Kernel<L>,
    boot: &Boot,
    seats: &Vec<CoreSeat<G>>,
) -> Result<(), FinishFault>
    ensures legal { IsLegal kernel.now }
    ensures fair { IsFair kernel.now }
    ensures boot { OnOk result (kernel.now.boot ≡ boot.now) }
    ensures seats { OnOk result (HasSeats kernel.now seats.now.items) }
    ensures agree { OnOk result (AllAgree kernel.now seats.now.items) }
    ensures fault { IfErr result (Because kernel.now boot.now seats.now.items) }
{
    let book = kernel.book();
    if !has_seats(seats, book) {
        return Err(FinishFault::MissingSeat);
    }
    if !begins_with(book, boot) {
        return Err(FinishFault::OtherBoot);
    }
    match first_torn::<G, L>(alloc, book, boot, seats) {
        Ok(None) => Ok(()),
        Ok(Some((core, n))) => Err(FinishFault::Torn { core, n }),
        Err(OutOfMemory) => Err(FinishFault::OutOfMemory),
    }
}

/// A kernel with whose book all seats agree.
#[derive(Drop)]
pub struct Settled<L: Lines> {
    kernel: Kernel<L>,
}

impl<L: Lines> Model for Settled<L> {
    ghost use Rattle.mcs_book.specs.History.{Book};

    ghost Value = { Book };

    ghost view = { λ s. s.kernel };
}

impl<L: Lines> Settled<L> {
    /// The book.
    pub fn book(&self) -> &Book
        ensures { result.now.book ≡ self.now }
    {
        self.kernel.book()
    }

    /// The kernel, with its book.
    pub fn kernel(&self) -> &Kernel<L>
        ensures { result.now ≡ self.now }
    {
        &self.kernel
    }
}

/// Settles a kernel with these seats: its book is legal and fair, it begins with the given boot,
/// and each seat has its core's lines and no others, in order, with their numbers and answers, and
/// was skipped rightly. MissingSeat (1) if a core of the book has no seat, OtherBoot (2) if the
/// book begins otherwise, Torn (3) with the first call of a core that does not agree, tested in
/// this order; OutOfMemory (4) if an allocation fails. After a fault nothing is returned.
pub fn settle_seats<G: Ledger, L: Lines>(
    alloc: Global,
    kernel: Kernel<L>,
    boot: &Boot,
    seats: &Vec<CoreSeat<G>>,
) -> Result<Settled<L>, FinishFault>
    ensures same { IfOk result (λ s. s ≡ kernel) }
    ensures legal { IsLegal kernel }
    ensures fair { IsFair kernel }
    ensures boot { IfOk result (λ s. s.boot ≡ boot.now) }
    ensures seats { IfOk result (λ s. HasSeats s seats.now.items) }
    ensures agree { IfOk result (λ s. AllAgree s seats.now.items) }
    ensures fault { IfErr result (Because kernel boot.now seats.now.items) }
{
    compare(alloc, &kernel, boot, seats)?;
    Ok(Settled { kernel })
}
