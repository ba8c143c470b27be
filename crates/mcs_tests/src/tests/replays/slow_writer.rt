//! A writer of steps that waits for their results before it writes more.
use crate::tests::texts::{BOOT, add_pieces};
use mcs_sim::{Sink, Source, simulate};
use std::alloc::Global;
use std::cell::Cell;
use std::io::{self, Read, Write};
use std::test::Fail;

/// A step without a receiver, and its trace.
const STEP: &str = "0 t1 nbsend 1 7\n";

const ANSWERED: &str = "0 t1 nbsend 1 7\n= done\n";

/// How many pieces of steps follow the one with the boot.
const ROUNDS: usize = 3;

/// Returns how many bytes are written before this read: nothing, then the boot and the first
/// answer, then the answers of one piece more each.
fn wanted(piece: usize, reads: usize) -> usize {
    if reads == 0 {
        return 0;
    }
    let steps = (piece / STEP.len()).saturating_mul(reads.saturating_sub(1));
    let answers = steps.saturating_add(1).saturating_mul(ANSWERED.len());
    answers.saturating_add(BOOT.len())
}

/// Counts the bytes that are written.
#[derive(Drop)]
struct Counting<'a> {
    written: &'a Cell<usize>,
}

impl<'a> Write for Counting<'a> {
    fn write(&mut self, buf: &[u8]) -> io::Result<usize> {
        let count = self.written.get().saturating_add(buf.len());
        self.written.set(count);
        Ok(buf.len())
    }

    fn flush(&mut self) -> io::Result<()> {
        Ok(())
    }
}

/// A reader of a text in pieces of this many bytes. It counts the pieces, and before how many of
/// them the bytes that it waits for were written.
#[derive(Drop)]
struct Waiting<'a> {
    text: &'a [u8],
    piece: usize,
    left: usize,
    pieces: usize,
    written: &'a Cell<usize>,
    answered: &'a Cell<usize>,
}

impl<'a> Read for Waiting<'a> {
    fn read(&mut self, buf: &mut [u8]) -> io::Result<usize> {
        if self.left == 0 {
            if self.written.get() == wanted(self.piece, self.pieces) {
                self.answered.set(self.answered.get().saturating_add(1));
            }
            self.pieces = self.pieces.saturating_add(1);
            self.left = self.piece;
        }
        let count = buf.len().min(self.left);
        let given = self.text.read(&mut buf[..count])?;
        self.left = self.left.saturating_sub(given);
        Ok(given)
    }
}

/// Returns a piece of this many bytes with the boot and one step, and then pieces with this many
/// steps each.
fn script_of(alloc: Global, piece: u32, steps: u32) -> Result<Vec<u8>, Fail> {
    let mut script = Vec::from_slice(alloc, BOOT.as_bytes())?;
    let taken = script.len().saturating_add(STEP.len());
    let rest = (piece as usize).saturating_sub(taken);
    add_pieces(&mut script, "\n", u32::try_from(rest).unwrap_or(0))?;
    for _ in 0..ROUNDS {
        add_pieces(&mut script, STEP, steps)?;
    }
    add_pieces(&mut script, STEP, 1)?;
    Ok(script)
}

/// Replays a script that is read in pieces of this many bytes. Returns how many pieces were read
/// only after all results due by then were written; None if the script has a fault.
fn answered(alloc: Global, script: &[u8], piece: usize) -> Option<usize> {
    let written = Cell::new(0);
    let answered = Cell::new(0);
    let reader = Waiting {
        text: script,
        piece,
        left: 0,
        pieces: 0,
        written: &written,
        answered: &answered,
    };
    let mut sink = Sink::new(alloc, Counting { written: &written }).ok()?;
    simulate(alloc, &mut Source::new(reader), &mut sink).ok()?;
    Some(answered.get())
}

/// Sizes of pieces, and the number of steps in one.
const PIECES: &[(u32, u32)] = &[(4_096, 256), (8_192, 512), (16_384, 1_024), (65_536, 4_096)];

#[test]
fn each_piece_is_answered_before_the_next_read(rt: HostRuntime) -> Result<(), Fail> {
    for &(piece, steps) in PIECES {
        let script = script_of(rt.alloc(), piece, steps)?;
        let size = piece as usize;
        assert!(rt;
            script.len() == size.saturating_mul(ROUNDS + 1),
            "{piece} bytes"
        );
        let answered = answered(rt.alloc(), &script, size);
        // each piece of the script, and the end
        assert!(rt; answered == Some(ROUNDS + 2), "{piece} bytes");
    }
    Ok(())
}
