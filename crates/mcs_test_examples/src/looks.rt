//! Draws pictures and checks them.
use crate::forms::is_sequence;
use crate::places::is_clear;
use mcs_lab_render::{Asked, Format, draw_script};
use mcs_sim::Source;
use mcs_types::ObjId;
use std::alloc::{AllocError, Global};
use std::io::Read;
use std::str;

/// Returns what is wrong with the parts of a page; None if nothing is.
fn flaw_of(alloc: Global, page: &[u8], format: Format) -> Result<Option<&'static str>, AllocError> {
    let Ok(page) = str::from_utf8(page) else {
        return Ok(Some("NO TEXT"));
    };
    if format == Format::Mermaid {
        return Ok(if is_sequence(page) {
            None
        } else {
            Some("NOT OF MERMAID'S FORMS")
        });
    }
    Ok(if is_clear(alloc, page)? {
        None
    } else {
        Some("A TEXT STANDS ON SOMETHING")
    })
}

/// Draws a script, and returns whether the picture is the expected one, and whether its texts touch
/// nothing.
pub fn look_at<R: Read + Drop>(
    alloc: Global,
    script: R,
    kept: &[u8],
    format: Format,
) -> &'static str {
    let mut source = Source::new(script);
    let mut drawn = Vec::new(alloc);
    if draw_script(alloc, &mut source, &mut drawn, &Asked::whole(format)).is_err() {
        return "NOT DRAWN";
    }
    match flaw_of(alloc, drawn.as_slice(), format) {
        Ok(Some(flaw)) => flaw,
        Ok(None) if drawn.as_slice() == kept => "as kept",
        Ok(None) => "NOT AS KEPT",
        Err(_) => "OUT OF MEMORY",
    }
}

/// Returns how many lanes a page has, by their heads.
fn count_lanes(page: &[u8]) -> usize {
    let Ok(page) = str::from_utf8(page) else {
        return 0;
    };
    let mut count: usize = 0;
    for line in page.lines() {
        if line.starts_with("<rect class=\"head\"") {
            count = count.saturating_add(1);
        }
    }
    count
}

/// Draws a script with the lanes of these threads, and returns whether it has these, and whether
/// its texts touch nothing.
pub fn look_at_lanes<R: Read + Drop>(alloc: Global, script: R, threads: &[ObjId]) -> &'static str {
    let mut drawn = Vec::new(alloc);
    let asked = Asked {
        threads,
        ..Asked::whole(Format::Svg)
    };
    if draw_script(alloc, &mut Source::new(script), &mut drawn, &asked).is_err() {
        return "NOT DRAWN";
    }
    match flaw_of(alloc, drawn.as_slice(), Format::Svg) {
        Ok(Some(flaw)) => flaw,
        Ok(None) if count_lanes(drawn.as_slice()) == threads.len() => "a lane each",
        Ok(None) => "NOT A LANE EACH",
        Err(_) => "OUT OF MEMORY",
    }
}
