//! A text, read as a script.
ghost use Rattle.std.specs.Prelude.{◌≡◌, [], IfOk};
ghost use Rattle.mcs_plan_validate.specs.Reading.{IsScriptOf};

use mcs_book::Book;
use mcs_kernel::{Boot, Kernel};
use mcs_queues::LinkedLines;
use mcs_sim::{ReplayRun, SimFault};
use mcs_types::{BootFault, OutOfMemory};
use std::alloc::Global;

/// Replays a script of steps to its end. Fails with the first of its faults.
pub fn take_script(alloc: Global, text: &[u8]) -> Result<ReplayRun, SimFault>
    ensures { IfOk result (λ r. IsScriptOf text.now r.course.stands.book) }
{
    let mut run = match ReplayRun::new(alloc) {
        Ok(run) => run,
        Err(OutOfMemory) => return Err(SimFault::OutOfMemory),
    };
    run.feed(alloc, text)?;
    run.end(alloc)?;
    Ok(run)
}

/// Returns the boot of a book, made anew.
fn boot_again(alloc: Global, book: &Book) -> Result<Boot, BootFault>
    ensures { IfOk result (λ b. b ≡ book.now.book.boot) }
{
    let mut boot = Boot::new(alloc, book.cores())?;
    for line in book.boot() {
        boot.add(*line)?;
    }
    Ok(boot)
}

/// A kernel with the boot of a book, and no line after it.
pub fn booted(alloc: Global, book: &Book) -> Result<Kernel<LinkedLines>, BootFault>
    ensures { IfOk result (λ k. k ≡ record { boot = book.now.book.boot; lines = [] }) }
{
    let boot = boot_again(alloc, book)?;
    match Kernel::new(alloc, &boot) {
        Ok(kernel) => Ok(kernel),
        Err(OutOfMemory) => Err(BootFault::OutOfMemory),
    }
}
