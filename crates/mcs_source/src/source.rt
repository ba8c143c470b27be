//! Reading from any reader.
ghost use Rattle.std.specs.Prelude.{◌≡◌, ◌<◌, ◌≤◌, length, take, [], IfOk, OnErr, Err};
ghost use Rattle.std.specs.Io.KnownBytes.{Consumes, Keeps, IsAtEnd};
ghost use Rattle.mcs_trace.specs.Output.{Rose};

use mcs_types::RETRIES;
use std::io::{ErrorKind, Read};

/// A reader, and how many of its calls failed.
#[derive(Drop)]
pub struct Source<R> {
    reader: R,
    failed: u64,
}

/// Why no piece could be read.
#[derive(Clone, Copy, Debug, PartialEq, Eq)]
pub enum ReadFault {
    Read,
}

/// How many bytes a read asks for.
pub const PIECE: usize = 4_096;

/// Reads once; an interrupted read is retried, at most 1,000 times in a row.
fn read_some<R: Read>(reader: &mut R, failed: &mut u64, buf: &mut [u8]) -> Result<usize, ReadFault>
    ensures ok { IfOk result (λ n. n ≤ length buf.new) }
    ensures consumed { IfOk result (λ n. Consumes (R.remaining reader.old) (R.remaining reader.new)
        (take n buf.new)) }
    ensures end { IfOk result (λ n. n ≡ 0 → 0 < length buf.old → IsAtEnd (R.remaining reader.new)) }
    ensures err { OnErr result (Keeps (R.remaining reader.old) (R.remaining reader.new)) }
    ensures count { failed.old ≤ failed.new }
    ensures rose { OnErr result (Rose failed.old failed.new) }
    ensures fault { OnErr result (result ≡ Err ReadFault.Read) }
{
    for _ in 0..RETRIES {
        match reader.read(buf) {
            Ok(n) => return Ok(n),
            Err(e) => {
                *failed = failed.saturating_add(1);
                if e.kind() != ErrorKind::Interrupted {
                    return Err(ReadFault::Read);
                }
            }
        }
    }
    Err(ReadFault::Read)
}

impl<R> Source<R> {
    /// A source of which no call has failed.
    pub fn new(reader: R) -> Source<R>
        ensures { (result.reader ≡ reader) × (result.failed ≡ 0) }
    {
        Source { reader, failed: 0 }
    }

    /// Returns how many calls of the reader failed; the count saturates.
    pub fn failed(&self) -> u64
        ensures { result ≡ self.now.failed }
    {
        self.failed
    }
}

impl<R: Read> Source<R> {
    ghost use Rattle.mcs_source.specs.Input.{Reads};

    /// Reads the next bytes, as many as one read gives; none at the end of the input.
    pub fn read_piece(&mut self, piece: &mut [u8]) -> Result<usize, ReadFault>
        requires some { 0 < length piece.old }
        ensures ok { IfOk result (λ n. n ≤ length piece.new) }
        ensures bytes { IfOk result (λ n. Reads R.remaining self.old self.new (take n piece.new)) }
        ensures end { IfOk result (λ n. n ≡ 0 → IsAtEnd (R.remaining self.new.reader)) }
        ensures err { OnErr result (Reads R.remaining self.old self.new []) }
        ensures count { self.old.failed ≤ self.new.failed }
        ensures rose { OnErr result (Rose self.old.failed self.new.failed) }
        ensures fault { OnErr result (result ≡ Err ReadFault.Read) }
    {
        read_some(&mut self.reader, &mut self.failed, piece)
    }
}
