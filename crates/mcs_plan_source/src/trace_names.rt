//! Puts the names of a script into a trace.
use indexmap::IndexMap;
use std::alloc::{AllocError, Global};

/// Adds the name that a line `#@ OBJECT NAME` of a script gives.
fn add_name<'a>(
    alloc: Global,
    names: &mut IndexMap<Vec<u8>, &'a [u8]>,
    line: &'a [u8],
) -> Result<(), AllocError> {
    let [b'#', b'@', b' ', text @ ..] = line else {
        return Ok(());
    };
    let mut words = text.split(|byte| *byte == b' ');
    let (Some(object), Some(name)) = (words.next(), words.next()) else {
        return Ok(());
    };
    names.insert(Vec::from_slice(alloc, object)?, name)?;
    Ok(())
}

/// The names that the lines `#@ OBJECT NAME` of a script give; the last for an object holds.
fn names_of<'a>(
    alloc: Global,
    script: &'a [u8],
) -> Result<IndexMap<Vec<u8>, &'a [u8]>, AllocError> {
    let mut names = IndexMap::new(alloc);
    for line in script.split(|byte| *byte == b'\n') {
        add_name(alloc, &mut names, line)?;
    }
    Ok(names)
}

/// Appends a word. An object, also in the word of a queue as `e1.send`, gets its name for its id.
fn add_named(
    to: &mut Vec<u8>,
    names: &IndexMap<Vec<u8>, &[u8]>,
    word: &[u8],
) -> Result<(), AllocError> {
    let mut parts = word.splitn(2, |byte| *byte == b'.');
    let object = parts.next().unwrap_or(word);
    let Some(name) = names.get(object) else {
        return to.extend_from_slice(word);
    };
    to.extend_from_slice(name)?;
    if let Some(end) = parts.next() {
        to.extend_from_slice(b".")?;
        to.extend_from_slice(end)?;
    }
    Ok(())
}

/// Appends the words of a line, with names for ids.
fn add_words(
    to: &mut Vec<u8>,
    names: &IndexMap<Vec<u8>, &[u8]>,
    line: &[u8],
) -> Result<(), AllocError> {
    let mut between: &[u8] = b"";
    for word in line.split(|byte| *byte == b' ') {
        to.extend_from_slice(between)?;
        between = b" ";
        add_named(to, names, word)?;
    }
    Ok(())
}

/// Appends a line, with names for ids. A line that begins with `#` stays unchanged.
fn add_line(
    to: &mut Vec<u8>,
    names: &IndexMap<Vec<u8>, &[u8]>,
    line: &[u8],
) -> Result<(), AllocError> {
    if line.first() == Some(&b'#') {
        return to.extend_from_slice(line);
    }
    add_words(to, names, line)
}

/// Appends the lines of a trace, with names for ids.
fn add_lines(
    to: &mut Vec<u8>,
    names: &IndexMap<Vec<u8>, &[u8]>,
    trace: &[u8],
) -> Result<(), AllocError> {
    let mut between: &[u8] = b"";
    for line in trace.split(|byte| *byte == b'\n') {
        to.extend_from_slice(between)?;
        between = b"\n";
        add_line(to, names, line)?;
    }
    Ok(())
}

/// Returns a trace in which each object has the name that the script gives it. Lines that begin
/// with `#` stay unchanged.
pub fn tell_names(alloc: Global, script: &[u8], trace: &[u8]) -> Result<Vec<u8>, AllocError> {
    let names = names_of(alloc, script)?;
    let mut to = Vec::new(alloc);
    add_lines(&mut to, &names, trace)?;
    Ok(to)
}
