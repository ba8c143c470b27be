//! A replay, step by step.
ghost use Rattle.std.specs.Prelude.{◌≡◌, false, IfOk, OnOk, IfErr, OnErr};
ghost use Rattle.mcs_book.specs.History.{IsLegal};
ghost use Rattle.mcs_book.specs.Fair.{IsFair};
ghost use Rattle.mcs_kernel.specs.Faults.{fault_of};
ghost use Rattle.mcs_kernel.specs.Runs.{is_book_full, begun, after_step, answer_to, next_count, StepEnds};

use crate::fault::{EnterFault, ReplayFault};
use crate::kernel::Kernel;
use mcs_boots::Boot;
use mcs_queues::Lines;
use mcs_types::{Answer, OutOfMemory, Step};
use std::alloc::Global;
use std::marker::Model;

/// A replay in progress: a kernel, and how many steps it took. Clauses see its book and that count.
#[derive(Drop)]
pub struct Replay<L: Lines> {
    kernel: Kernel<L>,
    taken: usize,
}

impl<L: Lines> Model for Replay<L> {
    ghost use Rattle.mcs_kernel.specs.Runs.{Run};

    ghost Value = { Run };

    ghost view = { λ r. record { book = r.kernel; taken = r.taken } };
}

impl<L: Lines> Replay<L> {
    /// Returns a replay on a kernel with this boot, before the first step. `OutOfMemory` if the
    /// allocation of its tables fails.
    pub fn new(alloc: Global, boot: Boot) -> Result<Replay<L>, OutOfMemory>
        ensures { IfOk result (λ r. r ≡ begun boot) }
    {
        let kernel = Kernel::after(alloc, boot)?;
        Ok(Replay { kernel, taken: 0 })
    }

    /// Performs the next step and returns its answer, or None if it is skipped and the book stays
    /// as it is. Either way the step is counted, up to `usize::MAX`. BookFull comes exactly at a
    /// step that would be accepted and for which the book is full, and `OutOfMemory` if an
    /// allocation for its line fails, each with the number of the step, counted from 1. After a
    /// fault nothing has changed, and the step may be retried.
    pub fn advance(&mut self, alloc: Global, step: &Step) -> Result<Option<Answer>, ReplayFault>
        ensures room { OnOk result
            (is_book_full (fault_of self.old.book step.now.core step.now.thread) ≡ false) }
        ensures answer { IfOk result (λ a. a ≡ answer_to self.old.book step.now) }
        ensures taken { OnOk result (self.new ≡ after_step self.old step.now) }
        ensures unchanged { OnErr result (self.new ≡ self.old) }
        ensures full { IfErr result (StepEnds (next_count self.old.taken)
            (is_book_full (fault_of self.old.book step.now.core step.now.thread))) }
        ensures legal { IsLegal self.new.book }
        ensures fair { IsFair self.new.book }
    {
        let number = self.taken.saturating_add(1);
        let answer = match self.kernel.admit(alloc, step) {
            Ok(answer) => Some(answer),
            Err(EnterFault::NotRunning) => None,
            Err(EnterFault::NoContext) => None,
            Err(EnterFault::WrongCore) => None,
            Err(EnterFault::BookFull) => return Err(ReplayFault::BookFull { step: number }),
            Err(EnterFault::OutOfMemory) => return Err(ReplayFault::OutOfMemory { step: number }),
        };
        self.taken = number;
        Ok(answer)
    }

    /// Performs the next step, as `advance` does.
    pub fn step(&mut self, alloc: Global, step: Step) -> Result<Option<Answer>, ReplayFault>
        ensures room { OnOk result
            (is_book_full (fault_of self.old.book step.core step.thread) ≡ false) }
        ensures answer { IfOk result (λ a. a ≡ answer_to self.old.book step) }
        ensures taken { OnOk result (self.new ≡ after_step self.old step) }
        ensures unchanged { OnErr result (self.new ≡ self.old) }
        ensures full { IfErr result (StepEnds (next_count self.old.taken)
            (is_book_full (fault_of self.old.book step.core step.thread))) }
        ensures legal { IsLegal self.new.book }
        ensures fair { IsFair self.new.book }
    {
        self.advance(alloc, &step)
    }

    /// Returns the kernel after the steps so far.
    pub fn kernel(&self) -> &Kernel<L>
        ensures { result.now ≡ self.now.book }
    {
        &self.kernel
    }

    /// Returns the kernel, and ends the replay.
    pub fn into_kernel(self) -> Kernel<L>
        ensures { result ≡ self.book }
    {
        let Replay { kernel, taken: _ } = self;
        kernel
    }
}
