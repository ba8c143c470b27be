//! The lines of an input that comes in pieces.
use crate::fault::LabFault;
use crate::tap::bare;
use mcs_sim::Source;
use mcs_text::LineFault;
use mcs_types::SCRIPT_LINE_BYTES;
use memchr::memchr;
use std::alloc::Global;
use std::io::Read;

/// Receives the lines of a script, one after the other.
pub trait TakesLines {
    /// Takes a line, with its newline.
    fn take_line(&mut self, alloc: Global, line: &[u8]) -> Result<(), LabFault>;

    /// Returns how many lines were taken.
    fn taken(&self) -> u64;

    /// Flushes the results of the lines so far, before more input is read. Does nothing by default.
    fn pause(&mut self) -> Result<(), LabFault> {
        Ok(())
    }
}

/// Keeps a part of a line. Fault `LongLine` (7) if the line has more than 4,096 bytes.
fn keep(left: &mut Vec<u8>, part: &[u8], taken: u64) -> Result<(), LabFault> {
    if part.len() > SCRIPT_LINE_BYTES.saturating_sub(left.len()) {
        return Err(LabFault::Script {
            line: taken.saturating_add(1),
            why: LineFault::LongLine,
        });
    }
    left.extend_from_slice(part)?;
    Ok(())
}

/// Passes on a line. A fault of the line says which flaw it has.
fn hand_on<T: TakesLines>(alloc: Global, line: &[u8], to: &mut T) -> Result<(), LabFault> {
    match to.take_line(alloc, line) {
        Ok(()) => Ok(()),
        Err(fault) => Err(fault.in_line(line)),
    }
}

/// Passes on the lines that a piece ends, and keeps the rest of it.
fn take_piece<T: TakesLines>(
    alloc: Global,
    left: &mut Vec<u8>,
    piece: &[u8],
    to: &mut T,
) -> Result<(), LabFault> {
    let mut rest = piece;
    // no piece has more lines than bytes
    for _ in 0..piece.len() {
        let Some(end) = memchr(b'\n', rest) else {
            break;
        };
        let Some((line, following)) = rest.split_at_checked(end.saturating_add(1)) else {
            break;
        };
        if left.is_empty() {
            hand_on(alloc, line, to)?;
        } else {
            keep(left, bare(line), to.taken())?;
            left.push(b'\n')?;
            hand_on(alloc, left.as_slice(), to)?;
            left.clear();
        }
        rest = following;
    }
    keep(left, rest, to.taken())
}

/// Passes on the lines of an input; the last may lack its newline.
pub fn take_lines<R: Read, T: TakesLines>(
    alloc: Global,
    from: &mut Source<R>,
    to: &mut T,
) -> Result<(), LabFault> {
    let mut left = Vec::new(alloc);
    let mut piece = [0; 4_096];
    for _ in 0..u64::MAX {
        let Ok(count) = from.read_piece(&mut piece) else {
            return Err(LabFault::Read);
        };
        if count == 0 {
            break;
        }
        take_piece(alloc, &mut left, &piece[..count], to)?;
        to.pause()?;
    }
    if left.is_empty() {
        return Ok(());
    }
    left.push(b'\n')?;
    hand_on(alloc, left.as_slice(), to)
}
