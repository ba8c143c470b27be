//! How threads look: their status, and which context they hold.
ghost use Rattle.std.specs.Prelude.{◌≡◌, ◌++◌, OnOk};
ghost use Rattle.mcs_book.specs.History.{log_of};
ghost use Rattle.mcs_lab_diagram.specs.Looks.{look_of, looks_in, thread_of};

use mcs_kernel::Kernel;
use mcs_queues::LinkedLines;
use mcs_types::{Kind, ObjId, Status};
use std::alloc::AllocError;

/// How a thread looks in a row: its status, and the context that it holds, which gives its bar the
/// colour.
#[derive(Clone, Copy, PartialEq, Eq, Debug)]
pub struct Look {
    pub status: Option<Status>,
    pub context: Option<ObjId>,
}

/// The thread of a serial.
pub fn thread_of(serial: u32) -> ObjId
    ensures { result ≡ thread_of serial }
{
    ObjId {
        kind: Kind::Thread,
        serial,
    }
}

/// Returns how a thread looks now.
pub fn look_at(kernel: &Kernel<LinkedLines>, thread: ObjId) -> Look
    ensures { result ≡ look_of (log_of kernel.now) thread }
{
    Look {
        status: kernel.status(thread),
        context: kernel.context(thread),
    }
}

/// Adds a row: how all threads look now.
#[tactic(auto, using(crate::proofs::LookLaws::looks_none, crate::proofs::LookLaws::looks_next))]
pub fn add_looks(looks: &mut Vec<Look>, kernel: &Kernel<LinkedLines>) -> Result<(), AllocError>
    ensures { OnOk result (looks.new.items ≡ looks.old.items ++ looks_in (log_of kernel.now)) }
{
    for before in 0..kernel.made(Kind::Thread) {
        looks.push(look_at(kernel, thread_of(before + 1)))?;
    }
    Ok(())
}
