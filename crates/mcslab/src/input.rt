//! What a command reads: a file or the standard input, whole or as it comes.
use mcs_lab_check::{LabFault, Outcome};
use mcs_plan_words::write_unopened;
use mcs_sim::Source;
use std::alloc::Global;
use std::fs::{self, File};
use std::io::{self, ErrorKind, Read};

/// The system's error number for a file that is a folder.
const IS_A_FOLDER: i32 = 21;

/// How many bytes of the input are kept, for the message about a refused line.
const KEPT: usize = 65_536;

/// A reader that keeps the first bytes of its input.
#[derive(Drop)]
pub struct Kept<R> {
    from: R,
    bytes: Vec<u8>,
}

impl<R> Kept<R> {
    /// Returns a reader before its first read.
    pub fn new(alloc: Global, from: R) -> Kept<R> {
        Kept {
            from,
            bytes: Vec::new(alloc),
        }
    }

    /// Returns the line of this number, from 1, without its newline, as far as it was kept.
    pub fn line(&self, number: u64) -> Option<&[u8]> {
        let before = usize::try_from(number.checked_sub(1)?).ok()?;
        self.bytes.split(|byte| *byte == b'\n').nth(before)
    }
}

/// Keeps bytes, as far as there is room. What is not kept is only missing in messages.
fn keep(kept: &mut Vec<u8>, bytes: &[u8]) {
    let room = KEPT.saturating_sub(kept.len()).min(bytes.len());
    let _ = kept.extend_from_slice(&bytes[..room]);
}

impl<R: Read> Read for Kept<R> {
    ghost remaining = { λ k. R.remaining k.from };

    fn read(&mut self, buf: &mut [u8]) -> io::Result<usize> {
        let count = self.from.read(buf)?;
        keep(&mut self.bytes, &buf[..count]);
        Ok(count)
    }
}

/// Opens a file to read it. The error is the system's; a folder is one.
pub fn open(rt: &HostRuntime, path: &str) -> io::Result<File> {
    let file = fs::open(rt, path)?;
    if file.metadata()?.is_dir() {
        return Err(io::Error::from_raw_os_error(IS_A_FOLDER));
    }
    Ok(file)
}

/// After how many bytes of a line of a plan reading stops: the line's limit, and a character.
const LINE: usize = 4_004;

/// How many lines a plan may have.
const LINES: usize = 900_000;

/// How much of a plan was read: its lines, and the bytes of the last, unended one.
#[derive(Clone, Copy)]
struct Measure {
    lines: usize,
    line: usize,
}

impl Measure {
    /// Counts bytes, and returns whether the plan may go on after them.
    fn take(&mut self, bytes: &[u8]) -> bool {
        for byte in bytes {
            if *byte == b'\n' {
                self.lines = self.lines.saturating_add(1);
                self.line = 0;
            } else {
                self.line = self.line.saturating_add(1);
            }
            if self.line > LINE || self.lines > LINES {
                return false;
            }
        }
        true
    }
}

/// Returns how many bytes at the end of a text may be part of a character: at most four.
fn count_cut(bytes: &[u8]) -> usize {
    let mut count: usize = 0;
    for byte in bytes.iter().rev() {
        if *byte < 128 || count >= 4 {
            return count;
        }
        count = count.saturating_add(1);
        if *byte >= 192 {
            return count;
        }
    }
    count
}

/// Reads a plan, up to a line that is too long, or one line too many.
fn read_plan<R: Read + Drop>(alloc: Global, from: R) -> Result<Vec<u8>, LabFault> {
    let mut source = Source::new(from);
    let mut bytes = Vec::new(alloc);
    let mut measure = Measure { lines: 0, line: 0 };
    let mut piece = [0; 4_096];
    for _ in 0..u64::MAX {
        let Ok(count) = source.read_piece(&mut piece) else {
            return Err(LabFault::Read);
        };
        if count == 0 {
            break;
        }
        bytes.extend_from_slice(&piece[..count])?;
        if !measure.take(&piece[..count]) {
            let end = bytes.len().saturating_sub(count_cut(&bytes));
            bytes.truncate(end);
            break;
        }
    }
    Ok(bytes)
}

/// Reports that a file could not be opened, and returns the exit status.
pub fn tell_unopened(rt: &HostRuntime, path: &str, error: &io::Error) -> u8 {
    let _ = write_unopened(&mut rt.stderr(), path, error);
    match error.kind() {
        ErrorKind::OutOfMemory => Outcome::OutOfMemory.status(),
        _ => Outcome::Call.status(),
    }
}

/// Returns the bytes of a plan; if it could not be read, reports that and returns the exit status.
fn plan_read(rt: &HostRuntime, read: Result<Vec<u8>, LabFault>) -> Result<Vec<u8>, u8> {
    match read {
        Ok(bytes) => Ok(bytes),
        Err(fault) => {
            let _ = rt.eprintln(fault);
            Err(fault.status())
        }
    }
}

/// Returns the bytes of a plan, from a file or the standard input, up to where it is refused for
/// its size; if they cannot be read, reports that and returns the exit status.
pub fn plan_bytes(rt: &HostRuntime, file: Option<&str>) -> Result<Vec<u8>, u8> {
    match file {
        Some(path) => match open(rt, path) {
            Ok(file) => plan_read(rt, read_plan(rt.alloc(), file)),
            Err(error) => Err(tell_unopened(rt, path, &error)),
        },
        None => plan_read(rt, read_plan(rt.alloc(), rt.reader())),
    }
}
