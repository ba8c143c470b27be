//! The lines of a plan's text, and which of them are those of steps.
ghost use Rattle.std.specs.Prelude.{◌≡◌, ◌≤◌, ◌<◌, ◌==◌, Ok, IfOk, IfErr, OnOk, length, count_by, option_map};
ghost use Rattle.std.specs.Str.Lines.{lines};
ghost use Rattle.mcs_plan_source.specs.Naming.{texts};
ghost use Rattle.mcs_plan_source.specs.Refusals.{Refuses};
ghost use Rattle.mcs_plan_compile.specs.Reading.{short};
ghost use Rattle.mcs_plan_compile.specs.Telling.{line_of};
ghost use Rattle.mcs_plan_compile.specs.Stepping.{cut_at_colon, asks, begins_program, begins_steps, count_before, is_program_word};

use mcs_plan_source::{PlanError, is_white, split_comment};
use std::alloc::{AllocError, Global};

/// How many bytes a line of a plan, or of the script made from it, may have (own); a script may
/// have lines of 4,096.
pub const LINE_BYTES: usize = 4_000;

/// The lines of a text.
pub fn lines_of<'a>(alloc: Global, text: &'a str) -> Result<Vec<&'a str>, AllocError>
    ensures { IfOk result (λ found. texts found.items ≡ lines text.now) }
{
    text.lines().collect(alloc)
}

/// Returns how many newlines there are.
fn count_newlines(bytes: &[u8]) -> usize
    ensures value { result ≡ count_by (λ b. b == 10) bytes.now }
    ensures bound { result ≤ length bytes.now }
{
    let mut count: usize = 0;
    for byte in bytes {
        if *byte == b'\n' {
            count += 1;
        }
    }
    count
}

/// Returns the number of the line that contains the byte at this index.
pub fn line_of(bytes: &[u8], place: usize) -> u64
    requires { place < length bytes.now }
    ensures { result ≡ line_of bytes.now place }
{
    count_newlines(&bytes[..place]) as u64 + 1
}

/// Fails with Limit for a line that is too long.
pub fn is_short(line: &str) -> Result<(), PlanError>
    ensures ok { OnOk result (short line.now ≡ Ok tt) }
    ensures error { IfErr result (Refuses (short line.now)) }
{
    if line.len() <= LINE_BYTES {
        return Ok(());
    }
    Err(PlanError::Limit {
        what: "bytes in a line",
        limit: LINE_BYTES as u32,
    })
}

/// Returns a comment of a script; one that begins with `!` is a question to all orders, and stays
/// as it is.
fn comment_of(alloc: Global, comment: &str) -> Result<String, AllocError> {
    let comment = comment.trim();
    if comment.is_empty() {
        return String::from_str(alloc, "#");
    }
    let front = if comment.starts_with("!") { "#" } else { "# " };
    let mut text = String::from_str(alloc, front)?;
    text.push_str(comment)?;
    Ok(text)
}

/// Adds the comment of a line, if it has one.
pub fn add_comment(
    alloc: Global,
    to: &mut Vec<String>,
    comment: Option<&str>,
) -> Result<(), AllocError> {
    if let Some(comment) = comment {
        to.push(comment_of(alloc, comment)?)?;
    }
    Ok(())
}

/// Returns a text before its first colon with a space after it, and what follows both.
pub fn split_colon(text: &str) -> Option<(&str, &str)>
    ensures { option_map (λ p. (p.0.now, p.1.now)) result ≡ cut_at_colon text.now }
{
    text.split_once(": ")
}

/// Returns whether a text, after white space, begins with `?`.
fn asks(text: &[u8]) -> bool
    ensures { result ≡ asks text.now }
{
    for byte in text {
        if !is_white(*byte) {
            return *byte == b'?';
        }
    }
    false
}

/// Returns whether a text is the word `program`.
fn is_program_word(text: &[u8]) -> bool
    ensures { result ≡ is_program_word text.now }
{
    match text {
        [b'p', b'r', b'o', b'g', b'r', b'a', b'm'] => true,
        [b'p', b'r', b'o', b'g', b'r', b'a', b'm', next, ..] => is_white(*next),
        _ => false,
    }
}

/// Returns whether the first word is `program`.
fn begins_program(text: &[u8]) -> bool
    ensures { result ≡ begins_program text.now }
{
    for (place, byte) in text.iter().enumerate() {
        if !is_white(*byte) {
            return is_program_word(&text[place..]);
        }
    }
    false
}

/// Returns whether a line is a step, an expectation, a line of a user, or the first of a program.
fn begins_steps(line: &str) -> bool
    ensures { result ≡ begins_steps line.now }
{
    let (code, _) = split_comment(line);
    let bytes = code.as_bytes();
    split_colon(code).is_some() || asks(bytes) || begins_program(bytes)
}

/// Returns how many lines are before the first step.
pub fn count_before(lines: &[&str]) -> usize
    ensures value { result ≡ count_before (texts lines.now) }
    ensures bound { result ≤ length lines.now }
{
    for (place, line) in lines.iter().enumerate() {
        if begins_steps(line) {
            return place;
        }
    }
    lines.len()
}
