//! A replay of a whole list of steps.
ghost use Rattle.std.specs.Prelude.{◌≡◌, length, IfOk, OnOk, IfErr, None};
ghost use Rattle.mcs_book.specs.History.{IsLegal, book_of};
ghost use Rattle.mcs_book.specs.Each.{EachRecord, EachLine, AfterEachLine};
ghost use Rattle.mcs_book.specs.Fair.{EndsOpen, IsWholeLine, TakesFirst, TakesInOrder, TakesAlive, SendersAreOpen, AnswersOwed, AnswersWhole, NoneWaitBeside};
ghost use Rattle.mcs_kernel.specs.Runs.{full_in, EndsAt};

use crate::fault::ReplayFault;
use crate::kernel::Kernel;
use crate::stepper::Replay;
use mcs_boots::Boot;
use mcs_queues::Lines;
use mcs_types::{OutOfMemory, Step};
use std::alloc::Global;

/// Replays steps on a kernel with this boot; skipped steps leave no line. BookFull comes exactly at
/// the first step that would be accepted and for which the book is full, unless an allocation
/// failed before.
pub fn replay<L: Lines>(alloc: Global, boot: Boot, steps: &[Step]) -> Result<Kernel<L>, ReplayFault>
    ensures book { IfOk result (λ k. k ≡ book_of boot steps.now) }
    ensures room { OnOk result (full_in boot steps.now ≡ None) }
    ensures full { IfErr result (EndsAt (length steps.now) (full_in boot steps.now)) }
    ensures legal { IfOk result (λ k. IsLegal k) }
    ensures taken_once { IfOk result (λ k. EachRecord EndsOpen k) }
    ensures whole { IfOk result (λ k. EachLine IsWholeLine k) }
    ensures by_priority { IfOk result (λ k. EachRecord TakesFirst k) }
    ensures in_order { IfOk result (λ k. EachRecord TakesInOrder k) }
    ensures not_deleted { IfOk result (λ k. EachRecord TakesAlive k) }
    ensures not_cancelled { IfOk result (λ k. AfterEachLine SendersAreOpen k) }
    ensures answered_once { IfOk result (λ k. EachRecord AnswersOwed k) }
    ensures answered_whole { IfOk result (λ k. EachLine AnswersWhole k) }
    ensures none_beside { IfOk result (λ k. AfterEachLine NoneWaitBeside k) }
{
    let mut run: Replay<L> = match Replay::new(alloc, boot) {
        Ok(run) => run,
        Err(OutOfMemory) => return Err(ReplayFault::OutOfMemory { step: 0 }),
    };
    for step in steps {
        match run.advance(alloc, step) {
            Ok(_) => {}
            Err(fault) => return Err(fault),
        }
    }
    let kernel = run.into_kernel();
    kernel.is_fair();
    Ok(kernel)
}
