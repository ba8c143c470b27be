//! What is odd in a line of a script, and the mark below it.
ghost use Rattle.std.specs.Prelude.{◌<◌, length, IfSome};

use mcs_lab_check::put_shown;
use std::alloc::Global;
use std::io;

/// Something odd in a line of a script, such as two blanks in a row: its position, and what it is.
#[derive(Clone, Copy)]
pub(crate) struct Oddity {
    pub(crate) place: usize,
    pub(crate) what: &'static str,
}

/// Returns the position of the second of two adjacent blanks.
fn double_blank(line: &[u8]) -> Option<usize>
    ensures { IfSome result (λ place. place < length line.now) }
{
    let mut is_after = false;
    for (place, byte) in line.iter().enumerate() {
        let is_blank = *byte == b' ';
        if is_blank && is_after {
            return Some(place);
        }
        is_after = is_blank;
    }
    None
}

/// Returns what is odd in a line: a tab, a blank at its beginning or its end, or two in a row.
pub(crate) fn oddity_of(line: &[u8]) -> Option<Oddity>
    ensures { IfSome result (λ odd. odd.place < length line.now) }
{
    if let Some(place) = line.iter().position(|byte| *byte == b'\t') {
        let what = "a tab stands in it";
        return Some(Oddity { place, what });
    }
    if line.starts_with(b" ") {
        let what = "a blank stands at its beginning";
        return Some(Oddity { place: 0, what });
    }
    if let Some(place) = double_blank(line) {
        let what = "two blanks stand side by side";
        return Some(Oddity { place, what });
    }
    if line.ends_with(b" ") {
        let place = line.len().saturating_sub(1);
        let what = "a blank stands at its end";
        return Some(Oddity { place, what });
    }
    None
}

/// Returns a line as messages show it, and below it a mark at this position.
pub(crate) fn marked(alloc: Global, line: &[u8], place: usize) -> io::Result<Vec<u8>> {
    let mut before = Vec::new(alloc);
    put_shown(&mut before, line.get(..place).unwrap_or(line))?;
    let mut text = Vec::new(alloc);
    text.extend_from_slice(b"  ")?;
    put_shown(&mut text, line)?;
    text.extend_from_slice(b"\n  ")?;
    for _ in 0..before.len() {
        text.extend_from_slice(b" ")?;
    }
    text.extend_from_slice(b"^\n")?;
    Ok(text)
}
