//! Copies of lists.
ghost use Rattle.std.specs.Prelude.{◌≡◌, IfOk};

use mcs_types::OutOfMemory;
use mcs_users::{Picks, push};
use std::alloc::Global;

/// Returns a copy of the picks of each core. `OutOfMemory` if an allocation fails.
pub(crate) fn copy_all(alloc: Global, all: &[Picks]) -> Result<Vec<Picks>, OutOfMemory>
    ensures { IfOk result (λ v. v.items ≡ all.now) }
{
    let mut copies = Vec::with_capacity(alloc, all.len())?;
    for picks in all {
        let copy = picks.copy(alloc)?;
        push(&mut copies, copy)?;
    }
    Ok(copies)
}
