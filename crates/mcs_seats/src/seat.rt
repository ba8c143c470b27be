//! The seat of a core: its calls, and its share of the ledger of lines (own).
ghost use Rattle.std.specs.Prelude.{◌≡◌, ◌<◌, ◌+◌, ◌++◌, ◌∷◌, [], reverse, vec_len, vec_capacity, is_ok, if◌then◌else◌, IfOk};

use crate::call::{Answered, Call, Outcome, Turned};
use crate::prepared::{Prepared, copy_answer};
use mcs_kernel::{EnterFault, Kernel};
use mcs_queues::Lines;
use mcs_types::{CoreId, Entry, ObjId, OutOfMemory};
use std::alloc::Global;
use std::marker::Model;
use std::sync::ledger::{Book, Ledger, Share};

/// The calls of a core. Its share of the ledger counts its lines. Clauses see the core and the
/// calls, newest first.
#[derive(Drop)]
pub struct CoreSeat<G: Ledger> {
    core: CoreId,
    calls: Vec<Call>,
    share: Share<G>,
}

impl<G: Ledger> Model for CoreSeat<G> {
    ghost use Rattle.std.specs.Prelude.{◌≡◌, reverse};
    ghost use Rattle.mcs_seats.specs.Seats.{Seat, count_entered};

    ghost Value = { Seat };

    ghost view = { λ s. record { core = s.core; calls = reverse s.calls.items } };

    ghost invariant = { λ s. (s.share.parts ≡ 1)
        × (s.share.amount ≡ count_entered (reverse s.calls.items)) };
}

/// Keeps a call; there must be room.
fn keep(calls: &mut Vec<Call>, thread: ObjId, entry: Entry, outcome: Outcome)
    requires { vec_len calls.old < vec_capacity calls.old }
    ensures { calls.new.items ≡ calls.old.items
        ++ record { thread = thread; entry = entry; outcome = outcome } ∷ [] }
{
    match calls.push(Call {
        thread,
        entry,
        outcome,
    }) {
        Ok(()) => {}
        Err(_) => unreachable!(),
    }
}

impl<G: Ledger> CoreSeat<G> {
    ghost use Rattle.mcs_seats.specs.Seats.{Enters, count_entered};

    /// Returns a seat with a share of the ledger.
    pub fn new(alloc: Global, core: CoreId, share: Share<G>) -> CoreSeat<G>
        requires parts { share.parts ≡ 1 }
        requires amount { share.amount ≡ 0 }
        ensures { result ≡ record { core = core; calls = [] } }
    {
        CoreSeat {
            core,
            calls: Vec::new(alloc),
            share,
        }
    }

    /// The core.
    pub fn core(&self) -> CoreId
        ensures { result ≡ self.now.core }
    {
        self.core
    }

    /// Returns all calls in order, except those that failed with OutOfMemory.
    pub fn calls(&self) -> &[Call]
        ensures { result.now ≡ reverse self.now.calls }
    {
        self.calls.as_slice()
    }

    /// Returns its share of the ledger, and drops the seat.
    pub(crate) fn into_share(self) -> Share<G>
        ensures parts { result.parts ≡ 1 }
        ensures amount { result.amount ≡ count_entered self.calls }
    {
        let CoreSeat {
            core: _,
            calls: _,
            share,
        } = self;
        share
    }

    /// Allocates what a call of the seat needs before the kernel's lock is taken: room for the
    /// call, a copy of the entry, and for an entry that receives room for a copy of its answer.
    /// `OutOfMemory` if an allocation fails.
    pub fn prepare(&mut self, alloc: Global, entry: Entry) -> Result<Prepared, OutOfMemory>
        ensures same { self.new ≡ self.old }
        ensures entry { IfOk result (λ p. p ≡ entry) }
    {
        self.calls.reserve(1)?;
        Prepared::new(alloc, entry)
    }

    /// Performs or skips an entry of a thread on the seat's core, as `Kernel::enter` does; the seat
    /// keeps the entry and its outcome. `OutOfMemory` if the seat has no room for the call, which
    /// `prepare` makes, or an allocation of the kernel fails: then seat and kernel are unchanged.
    pub fn enter<L: Lines>(
        &mut self,
        alloc: Global,
        kernel: &mut Kernel<L>,
        book: &mut Book<G>,
        thread: ObjId,
        prepared: Prepared,
    ) -> Result<Answered, Turned>
        ensures entered { Enters self.old self.new kernel.old kernel.new thread prepared result }
        ensures total { book.new.total ≡ book.old.total + (if is_ok result then 1 else 0) }
    {
        if self.calls.len() >= self.calls.capacity() {
            return Err(Turned::OutOfMemory);
        }
        let Prepared { entry, kept, room } = prepared;
        let lines = kernel.book().lines();
        match kernel.enter(alloc, self.core, thread, entry) {
            Ok(answer) => {
                book.add(&mut self.share, 1);
                let outcome = Outcome::Entered(Answered {
                    line: lines,
                    answer: copy_answer(alloc, &answer, room),
                });
                keep(&mut self.calls, thread, kept, outcome);
                Ok(Answered {
                    line: lines,
                    answer,
                })
            }
            Err(EnterFault::OutOfMemory) => Err(Turned::OutOfMemory),
            Err(fault) => {
                keep(
                    &mut self.calls,
                    thread,
                    kept,
                    Outcome::Away { lines, fault },
                );
                Err(Turned::Away { lines, fault })
            }
        }
    }
}
