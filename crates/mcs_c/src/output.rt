//! The result of a call: its text in the caller's buffer, and how it ended.
ghost use Rattle.std.specs.Prelude.{◌≡◌, IfOk, OnErr};
ghost use Rattle.mcs_c.specs.Handing.{Ends, HandsOut, at_line, with_status};

use mcs_types::OutOfMemory;

/// How a call ended, as C has it (`mcs_end` of `mcs.h`).
#[repr(C)]
#[derive(Clone, Copy)]
pub struct McsEnd {
    /// How many bytes the whole text has, even if there was no room for all of them.
    pub length: usize,
    /// The line that is refused; 0 if none is.
    pub line: u64,
    /// Why it is, by the numbers of `docs/FORMS.md`; 0 if none is.
    pub fault: u64,
}

/// The status if an allocation fails.
pub(crate) const NO_MEMORY: u32 = 6;

/// A status that only a fault of the library could give.
pub(crate) const WRONG: u32 = 7;

/// Writes as much of a text as there is room for, and returns how many bytes the whole text has.
pub(crate) fn hand_out(text: &[u8], out: &mut [u8]) -> usize
    ensures { HandsOut text.now out.old out.new result }
{
    let n = text.len().min(out.len());
    out[..n].copy_from_slice(&text[..n]);
    text.len()
}

/// A status, with the line that is refused and why; both are 0 if none is.
#[derive(Clone, Copy)]
pub(crate) struct Ending {
    pub(crate) status: u32,
    pub(crate) line: u64,
    pub(crate) fault: u64,
}

impl Ending {
    /// The ending with a status that names no line.
    pub(crate) fn of_status(status: u32) -> Ending
        ensures { result ≡ with_status status }
    {
        Ending {
            status,
            line: 0,
            fault: 0,
        }
    }

    /// The ending by a line that is refused.
    pub(crate) fn of_line(line: u64, fault: u64) -> Ending
        ensures { result ≡ at_line line fault }
    {
        Ending {
            status: 2,
            line,
            fault,
        }
    }

    /// Fails if the ending is that of a failed allocation.
    pub(crate) fn granted(self) -> Result<Ending, OutOfMemory>
        ensures same { IfOk result (λ e. e ≡ self) }
        ensures granted { IfOk result (λ e. e.status ≡ 6 → ⊥) }
        ensures refused { OnErr result (self.status ≡ 6) }
    {
        if self.status == NO_MEMORY {
            return Err(OutOfMemory);
        }
        Ok(self)
    }
}

/// A whole text, and how the C call that wrote it ends.
#[derive(Drop)]
pub(crate) struct Handed {
    pub(crate) text: Vec<u8>,
    pub(crate) ending: Ending,
}

impl Handed {
    /// Writes the text and how the call ended, and returns the status.
    pub(crate) fn hand_over(&self, out: &mut [u8], end: &mut McsEnd) -> u32
        ensures wrote { HandsOut self.now.text.items out.old out.new end.new.length }
        ensures ends { Ends self.now.ending result end.new }
    {
        let Ending {
            status,
            line,
            fault,
        } = self.ending;
        *end = McsEnd {
            length: hand_out(&self.text, out),
            line,
            fault,
        };
        status
    }
}
