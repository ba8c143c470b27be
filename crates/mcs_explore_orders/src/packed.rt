//! Packed turns.
ghost use Rattle.std.specs.Prelude.{◌≡◌, IfOk, take};

use mcs_explore_walk::Turn;
use mcs_turns::Pick;
use mcs_types::{CoreId, OutOfMemory};
use std::alloc::{AllocError, Global};
use std::marker::Model;

/// A turn in 8 bytes instead of 24, since each discovered state has one. Clauses see the turn.
#[derive(Clone, Copy, Drop)]
pub struct PackedTurn {
    number: u32,
    user: u16,
    core: CoreId,
}

impl Model for PackedTurn {
    ghost use Rattle.mcs_explore_walk.specs.declared.walk.Turn.{Turn};

    ghost Value = { Turn };

    ghost view = { λ t. record {
      core = t.core;
      pick = record { user = t.user; number = t.number };
    } };

    ghost inverse = { λ t. record {
      number = t.pick.number;
      user = t.pick.user;
      core = t.core;
    } };
}

const _: () = prove!(size_of::<PackedTurn>() == 8);

impl Default for PackedTurn {
    fn default() -> PackedTurn {
        PackedTurn {
            number: 0,
            user: 0,
            core: CoreId(0),
        }
    }
}

impl PackedTurn {
    /// Packs a turn. `OutOfMemory` if the user's number has more than 16 bits, or the entry's more
    /// than 32.
    pub fn of(turn: Turn) -> Result<PackedTurn, OutOfMemory>
        ensures { IfOk result (λ t. t ≡ turn) }
    {
        match (
            u32::try_from(turn.pick.number),
            u16::try_from(turn.pick.user),
        ) {
            (Ok(number), Ok(user)) => Ok(PackedTurn {
                number,
                user,
                core: turn.core,
            }),
            _ => Err(OutOfMemory),
        }
    }

    /// Unpacks the turn.
    pub fn turn(self) -> Turn
        ensures { result ≡ self }
    {
        Turn {
            core: self.core,
            pick: Pick {
                user: self.user as usize,
                number: self.number as usize,
            },
        }
    }
}

/// Unpacks turns.
pub fn unpacked(alloc: Global, packed: &[PackedTurn]) -> Result<Vec<Turn>, AllocError>
    ensures { IfOk result (λ turns. turns.items ≡ packed.now) }
{
    let mut turns = Vec::with_capacity(alloc, packed.len())?;
    for turn in packed {
        turns.push(turn.turn())?;
    }
    Ok(turns)
}
