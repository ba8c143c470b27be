//! Writing to any writer.
ghost use Rattle.std.specs.Prelude.{◌≡◌, ◌<◌, ◌≤◌, ◌+◌, List, ℕ, [], ◌∷◌, length, take, drop, IfOk, OnOk, OnErr, ◌++◌, Bool, true, false};
ghost use Rattle.std.specs.Io.KnownBytes.{Appends, Keeps};
ghost use Rattle.mcs_trace.specs.Output.{Rose, Moves, kept};

use crate::line::{Line, SIZE};
use crate::rooms::LINE;
use mcs_types::RETRIES;
use std::alloc::{AllocError, Global};
use std::io::{Error, ErrorKind, Write};

/// A writer with a buffer, and how many of its calls failed.
#[derive(Drop)]
pub struct Sink<W> {
    pub(crate) line: Box<Line>,
    writer: W,
    failed: u64,
    is_broken: bool,
}

/// The writer failed.
#[derive(Clone, Copy, Debug, PartialEq, Eq)]
pub struct WriteFault;

/// Writes at least one byte; an interrupted write is retried.
fn write_some<W: Write>(writer: &mut W, failed: &mut u64, bytes: &[u8]) -> Result<usize, WriteFault>
    ensures ok { IfOk result (λ n. n ≤ length bytes.now) }
    ensures some { IfOk result (λ n. 0 < n) }
    ensures wrote { IfOk result (λ n. Appends (W.contents writer.old) (W.contents writer.new)
        (take n bytes.now)) }
    ensures err { OnErr result (Keeps (W.contents writer.old) (W.contents writer.new)) }
    ensures count { failed.old ≤ failed.new }
    ensures rose { OnErr result (Rose failed.old failed.new) }
{
    for _ in 0..RETRIES {
        match writer.write(bytes) {
            Ok(0) => {
                *failed = failed.saturating_add(1);
                return Err(WriteFault);
            }
            Ok(n) => return Ok(n),
            Err(e) => {
                *failed = failed.saturating_add(1);
                if e.kind() != ErrorKind::Interrupted {
                    return Err(WriteFault);
                }
            }
        }
    }
    Err(WriteFault)
}

/// Writes all of the bytes, or a prefix of them.
fn write_out<W: Write>(writer: &mut W, failed: &mut u64, bytes: &[u8]) -> Result<(), WriteFault>
    ensures ok { OnOk result (Moves (W.contents writer.old) (W.contents writer.new) bytes.now []) }
    ensures err { OnErr result ((rest : List ℕ)
        × Moves (W.contents writer.old) (W.contents writer.new) bytes.now rest) }
    ensures count { failed.old ≤ failed.new }
    ensures rose { OnErr result (Rose failed.old failed.new) }
{
    let mut rest = bytes;
    while !rest.is_empty() {
        let n = write_some(writer, failed, rest)?;
        rest = &rest[n..];
    }
    Ok(())
}

impl<W: Drop> Sink<W> {
    /// Returns a sink with an empty buffer for some lines, so that not each is a write of its own.
    pub fn new(alloc: Global, writer: W) -> Result<Sink<W>, AllocError>
        ensures writer { IfOk result (λ s. s.writer ≡ writer) }
        ensures kept { IfOk result (λ s. kept s ≡ []) }
        ensures failed { IfOk result (λ s. s.failed ≡ 0) }
        ensures whole { IfOk result (λ s. s.is_broken ≡ false) }
    {
        Ok(Sink {
            line: Box::new(alloc, Line::new())?,
            writer,
            failed: 0,
            is_broken: false,
        })
    }

    /// Returns the writer, and drops the buffer.
    pub fn into_writer(self) -> W
        ensures { result ≡ self.writer }
    {
        self.writer
    }
}

impl<W> Sink<W> {
    /// Empties the buffer; its bytes are dropped.
    pub fn start(&mut self)
        ensures same { (self.new.writer ≡ self.old.writer) × (self.new.failed ≡ self.old.failed) }
        ensures fresh { (kept self.new ≡ []) × (self.new.is_broken ≡ false) }
    {
        self.line.clear();
        self.is_broken = false;
    }

    /// Returns whether a call of the writer failed for good.
    pub fn is_broken(&self) -> bool
        ensures { result ≡ self.now.is_broken }
    {
        self.is_broken
    }

    /// Returns how many calls of the writer failed.
    pub fn failed(&self) -> u64
        ensures { result ≡ self.now.failed }
    {
        self.failed
    }
}

impl<W: Write> Sink<W> {
    ghost use Rattle.mcs_trace.specs.Output.{Puts};
    ghost use Rattle.mcs_trace.specs.Room.{HasRoom};

    /// Writes the buffer, unless a call of the writer failed for good.
    fn send_kept(&mut self)
        requires { self.old.is_broken ≡ false }
        ensures puts { Puts W.contents self.old self.new [] }
        ensures kept { kept self.new ≡ [] }
    {
        self.is_broken = write_out(&mut self.writer, &mut self.failed, self.line.text()).is_err();
        self.line.clear();
    }

    /// Writes the buffer. It is not inlined, so that the caller only tests whether the buffer has
    /// bytes.
    #[cold]
    #[inline(never)]
    pub fn flush(&mut self)
        ensures puts { Puts W.contents self.old self.new [] }
        ensures kept { kept self.new ≡ [] }
    {
        if self.is_broken {
            self.line.clear();
            return;
        }
        self.send_kept();
    }

    /// Makes room for a line: writes the buffer if it has none.
    #[inline(always)]
    pub(crate) fn make_room(&mut self)
        ensures puts { Puts W.contents self.old self.new [] }
        ensures room { HasRoom (kept self.new) LINE }
    {
        if self.line.len() > SIZE - LINE {
            self.flush();
        }
    }
}
