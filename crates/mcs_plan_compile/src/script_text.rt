//! The text of a script.
use crate::script::Script;
use mcs_text::Key;
use mcs_trace::Line as Text;
use std::alloc::{AllocError, Global};

/// Appends lines, each with its newline.
fn add_lines(to: &mut Vec<u8>, lines: &[String]) -> Result<(), AllocError> {
    for line in lines {
        to.extend_from_slice(line.as_bytes())?;
        to.extend_from_slice(b"\n")?;
    }
    Ok(())
}

/// Adds the lines of the boot.
fn add_boot(to: &mut Vec<u8>, text: &mut Text, script: &Script) -> Result<(), AllocError> {
    text.clear();
    text.numbered(Key::Cores, script.cores as u64);
    to.extend_from_slice(text.text())?;
    for line in &script.boot {
        text.clear();
        text.boot_line(line);
        to.extend_from_slice(text.text())?;
    }
    Ok(())
}

/// The text of a script's front and boot.
pub fn write_boot(alloc: Global, script: &Script) -> Result<Vec<u8>, AllocError> {
    let mut text = Box::new(alloc, Text::new())?;
    let mut to = Vec::new(alloc);
    add_lines(&mut to, &script.front)?;
    add_boot(&mut to, &mut text, script)?;
    Ok(to)
}

/// The text of the lines after a script's boot.
pub fn write_lines(alloc: Global, script: &Script) -> Result<Vec<u8>, AllocError> {
    let mut to = Vec::new(alloc);
    add_lines(&mut to, &script.lines)?;
    Ok(to)
}

/// The text of a script.
pub fn write_script(alloc: Global, script: &Script) -> Result<Vec<u8>, AllocError> {
    let mut to = write_boot(alloc, script)?;
    add_lines(&mut to, &script.lines)?;
    Ok(to)
}
