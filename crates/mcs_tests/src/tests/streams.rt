//! Readers and writers that interrupt and fail on request, and replays of scripts with them.
use mcs_sim::{Gate, SimFault, Sink, Source, run_text, simulate};
use std::alloc::{AllocGlobal, Global};
use std::io::{self, ErrorKind, Read, Write};
use std::sync::Wait;
use std::thread::Threads;

/// A reader of a text a piece at a time, then of this many interruptions, then the end; after the
/// last read it fails.
#[derive(Drop)]
pub struct Input<'a> {
    pub text: &'a [u8],
    pub piece: usize,
    pub reads_left: u32,
    pub interruptions: u32,
}

impl<'a> Input<'a> {
    /// Returns a reader of the whole text that never fails.
    pub fn new(text: &'a [u8]) -> Input<'a> {
        Input {
            text,
            piece: usize::MAX,
            reads_left: u32::MAX,
            interruptions: 0,
        }
    }
}

impl<'a> Read for Input<'a> {
    fn read(&mut self, buf: &mut [u8]) -> io::Result<usize> {
        if self.text.is_empty() && self.interruptions > 0 {
            self.interruptions -= 1;
            return Err(io::Error::from(ErrorKind::Interrupted));
        }
        if self.reads_left == 0 {
            return Err(io::Error::from(ErrorKind::TimedOut));
        }
        self.reads_left -= 1;
        let count = buf.len().min(self.piece);
        self.text.read(&mut buf[..count])
    }
}

/// A writer that interrupts this many writes, then takes a piece at a time while there is room;
/// after the last write it fails.
#[derive(Drop)]
pub struct Output {
    pub taken: Vec<u8>,
    pub piece: usize,
    pub room: usize,
    pub writes_left: u32,
    pub interruptions: u32,
}

impl Output {
    /// Returns a writer that takes everything and never fails.
    pub fn new(alloc: Global) -> Output {
        Output {
            taken: Vec::new(alloc),
            piece: usize::MAX,
            room: usize::MAX,
            writes_left: u32::MAX,
            interruptions: 0,
        }
    }
}

impl Write for Output {
    fn write(&mut self, buf: &[u8]) -> io::Result<usize> {
        if self.interruptions > 0 {
            self.interruptions -= 1;
            return Err(io::Error::from(ErrorKind::Interrupted));
        }
        if self.writes_left == 0 {
            return Err(io::Error::from(ErrorKind::TimedOut));
        }
        self.writes_left -= 1;
        let count = buf.len().min(self.piece).min(self.room);
        self.taken.extend_from_slice(&buf[..count])?;
        self.room -= count;
        Ok(count)
    }

    fn flush(&mut self) -> io::Result<()> {
        Ok(())
    }
}

/// Returns the result of replaying a script from a reader to a writer.
pub fn pipe<F: Read + Drop>(alloc: Global, input: F, output: &mut Output) -> Result<(), SimFault> {
    simulate(
        alloc,
        &mut Source::new(input),
        &mut Sink::new(alloc, output).map_err(|_| SimFault::OutOfMemory)?,
    )
}

/// Returns the result of a script, and the bytes that it writes.
pub fn run(alloc: Global, script: &[u8]) -> (Result<(), SimFault>, Vec<u8>) {
    let mut output = Output::new(alloc);
    let result = pipe(alloc, Input::new(script), &mut output);
    let Output { taken, .. } = output;
    (result, taken)
}

/// Returns the result of a run of users, from a reader to a writer, and how many writes failed.
pub fn pipe_users<R: AllocGlobal + Threads + Wait + Sync, F: Read, T: Gate>(
    rt: &R,
    source: &mut Source<F>,
    output: &mut Output,
    cores: Option<u8>,
    gate: &T,
) -> (Result<(), SimFault>, u64) {
    match Sink::new(rt.alloc(), output) {
        Ok(mut sink) => {
            let result = run_text(rt, source, &mut sink, cores, gate);
            (result, sink.failed())
        }
        Err(_) => (Err(SimFault::OutOfMemory), 0),
    }
}

/// Returns the result of the users of a script, and the bytes that they write.
pub fn run_users<R: AllocGlobal + Threads + Wait + Sync, T: Gate>(
    rt: &R,
    script: &[u8],
    cores: Option<u8>,
    gate: &T,
) -> (Result<(), SimFault>, Vec<u8>) {
    let mut output = Output::new(rt.alloc());
    let (result, _) = pipe_users(rt, &mut Source::new(script), &mut output, cores, gate);
    let Output { taken, .. } = output;
    (result, taken)
}
