//! Replays the first example by calls of the kernel, and then each script of standard input, also
//! in pieces, and each trace again. `#!` begins a line that names the script after it; `#!+` one
//! that names lines to append to the script that `#!` named last. A call whose allocation fails is
//! retried once.
ghost use Rattle.std.specs.Prelude.{◌≤◌, length};

use crate::calls::trace_of_calls;
use crate::scripts::given_by;
use mcs_sim::{SimFault, Source};
use std::alloc::{AllocError, Global};
use std::io::{self, Input, Write};

/// The beginning of a line that names a script.
const NAME: &[u8] = b"#!";

/// The beginning of a line that names lines to follow the script named last.
const MORE: &[u8] = b"#!+";

/// The most bytes of all scripts.
const MOST: usize = 1 << 20;

/// Returns the scripts of standard input. Retries the allocation of their buffer once.
fn read_scripts(rt: &HostRuntime) -> Result<Vec<u8>, SimFault> {
    let mut text = match Vec::with_capacity(rt.alloc(), MOST) {
        Ok(text) => text,
        Err(_) => Vec::with_capacity(rt.alloc(), MOST).map_err(|_| SimFault::OutOfMemory)?,
    };
    let mut source = Source::new(rt.reader());
    let mut piece = [0; 4_096];
    for _ in 0..MOST {
        let Ok(count) = source.read_piece(&mut piece) else {
            return Err(SimFault::Read);
        };
        if count == 0 {
            return Ok(text);
        }
        let Ok(()) = text.extend_from_slice(&piece[..count]) else {
            return Err(SimFault::OutOfMemory);
        };
    }
    Err(SimFault::Read)
}

/// Returns the length of a text's first line with its newline, if it names a script; else 0.
fn name_length(text: &[u8]) -> usize
    ensures { result ≤ length text.now }
{
    if !text.starts_with(NAME) {
        return 0;
    }
    match text.iter().position(|byte| *byte == b'\n') {
        None => text.len(),
        Some(end) => end + 1,
    }
}

/// Returns how many bytes precede the next name of a script.
fn script_length(text: &[u8]) -> usize
    ensures { result ≤ length text.now }
{
    match text.windows(2).position(|bytes| bytes == NAME) {
        None => text.len(),
        Some(start) => start,
    }
}

/// Writes the name of a script, its trace and fault, and what is wrong with these, if anything.
fn write_given(rt: &HostRuntime, name: &[u8], script: &[u8]) -> io::Result<()> {
    let Ok((given, wrong)) = given_by(rt.alloc(), script) else {
        return rt.println("memory was refused twice");
    };
    let mut output = io::writer(rt);
    output.write_all(name)?;
    output.write_all(&given.trace)?;
    if let Some(fault) = given.fault {
        rt.println(fault)?;
    }
    if let Some(wrong) = wrong {
        rt.println(wrong)?;
    }
    Ok(())
}

/// Returns two texts, one after the other.
fn joined(alloc: Global, text: &[u8], more: &[u8]) -> Result<Vec<u8>, AllocError> {
    let mut script = Vec::with_capacity(alloc, text.len().saturating_add(more.len()))?;
    script.extend_from_slice(text)?;
    script.extend_from_slice(more)?;
    Ok(script)
}

/// Writes the trace and fault of a script that continues another. Retries the allocation of both
/// once.
fn write_after(rt: &HostRuntime, name: &[u8], base: &[u8], lines: &[u8]) -> io::Result<()> {
    let script = match joined(rt.alloc(), base, lines) {
        Ok(script) => script,
        Err(_) => joined(rt.alloc(), base, lines)?,
    };
    write_given(rt, name, &script)
}

/// Writes for each script of a text its name, its trace and its fault.
fn write_all(rt: &HostRuntime, text: &[u8]) -> io::Result<()> {
    let mut rest = text;
    let mut base: &[u8] = &[];
    // Each round takes at least one byte.
    for _ in 0..text.len() {
        if rest.is_empty() {
            break;
        }
        let (name, after) = rest.split_at(name_length(rest));
        let (script, others) = after.split_at(script_length(after));
        if name.starts_with(MORE) {
            write_after(rt, name, base, script)?;
        } else {
            write_given(rt, name, script)?;
            base = script;
        }
        rest = others;
    }
    Ok(())
}

/// Writes the trace of the first example by calls, and the results of each script of standard
/// input. Returns true if all could be read and written.
pub fn tell_given(rt: &HostRuntime) -> bool {
    match trace_of_calls(rt.alloc()) {
        Ok(text) => {
            let _ = io::writer(rt).write_all(&text);
        }
        Err(_) => {
            let _ = rt.println("a call failed, or changed something where it failed");
        }
    }
    let Ok(text) = read_scripts(rt) else {
        let _ = rt.println("the scripts could not be read");
        return false;
    };
    write_all(rt, &text).is_ok()
}
