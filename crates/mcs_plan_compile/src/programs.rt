//! The lines of programs: `program NAME {`, statements, and `}`. A statement becomes a line
//! `#! THREAD: STATEMENT` of the script, with addresses for the names in its entry.
ghost use Rattle.std.specs.Prelude.{◌≡◌, Ok, None, IfOk, IfErr, OnOk, map};
ghost use Rattle.mcs_types.specs.declared.id.Kind.TheVariants as kind;
ghost use Rattle.mcs_plan_source.specs.Naming.{texts};
ghost use Rattle.mcs_plan_source.specs.Refusals.{Refuses, refusal_by};
ghost use Rattle.mcs_plan_layout.specs.Laid.{laid_said};
ghost use Rattle.mcs_plan_compile.specs.Programs.{after_name, closes, ends_with_colon, entry_said, is_end, is_entry, is_value, open_after, open_still, opens, program_head, statement_said, zeroed};

use crate::fields::fields_of;
use crate::lines::LINE_BYTES;
use crate::steps::{Head, thread_named, write_entry};
use mcs_explore_programs::{DEPTH, ProgramFault};
use mcs_plan_layout::PlanLayout;
use mcs_plan_source::{PlanError, Tokens, add_word, split_words};
use mcs_types::ObjId;
use std::alloc::{AllocError, Global};

/// Returns whether a word names what follows it: it ends with a colon.
fn ends_with_colon(word: &[u8]) -> bool
    ensures { result ≡ ends_with_colon word.now }
{
    match word.last() {
        Some(byte) => *byte == b':',
        None => false,
    }
}

/// Returns the words after the name of an entry or a block, if they begin with one.
fn after_name<'w, 'a>(words: &'w [&'a str]) -> &'w [&'a str]
    ensures { texts result.now ≡ after_name (texts words.now) }
{
    match words {
        [word, rest @ ..] if ends_with_colon(word.as_bytes()) => rest,
        _ => words,
    }
}

/// Returns whether words spell an entry, by the first of them.
fn is_entry(words: &[&str]) -> bool
    ensures { result ≡ is_entry (texts words.now) }
{
    match words {
        [key, ..] => fields_of(key).is_some(),
        [] => false,
    }
}

/// Returns whether a word is a value: it begins with `$`.
fn is_value(word: &[u8]) -> bool
    ensures { result ≡ is_value word.now }
{
    match word {
        [first, ..] => *first == b'$',
        [] => false,
    }
}

/// Returns a word of an entry, or 0 for a value.
fn zeroed<'a>(word: &'a str) -> &'a str
    ensures { result.now ≡ zeroed word.now }
{
    if is_value(word.as_bytes()) { "0" } else { word }
}

/// The words of an entry, with 0 for each value.
fn without_values<'a>(alloc: Global, words: &[&'a str]) -> Result<Vec<&'a str>, AllocError>
    ensures { IfOk result (λ v. texts v.items ≡ map zeroed (texts words.now)) }
{
    let mut plain = Vec::new(alloc);
    for i in 0..words.len() {
        plain.push(zeroed(words[i]))?;
    }
    Ok(plain)
}

/// Returns the `left`-th word of an entry, counted from its end, if that word is a value (`$..`).
fn value_at<'a>(words: &[&'a str], left: usize) -> Option<&'a str> {
    let word = *words.get(words.len().checked_sub(left)?)?;
    if is_value(word.as_bytes()) {
        Some(word)
    } else {
        None
    }
}

/// Appends an entry as a script spells it, after its thread, with the values of the statement's
/// words: in both, the message is at the end.
fn add_entry(alloc: Global, to: &mut String, line: &str, words: &[&str]) -> Result<(), AllocError> {
    let spelled = split_words(alloc, line)?;
    for place in 2..spelled.len() {
        let word = spelled[place];
        let left = spelled.len() - place;
        add_word(to, value_at(words, left).unwrap_or(word))?;
    }
    Ok(())
}

/// Adds words.
fn add_words(to: &mut String, words: &[&str]) -> Result<(), AllocError> {
    for word in words {
        add_word(to, word)?;
    }
    Ok(())
}

/// Returns the entry of a program as a line of a user, with 0 for each value.
fn plain_entry(
    alloc: Global,
    laid: &PlanLayout,
    thread: ObjId,
    words: &[&str],
) -> Result<String, PlanError>
    ensures said { OnOk result
        (entry_said (laid_said laid.now) thread (texts words.now) ≡ Ok tt) }
    ensures error { IfErr result
        (Refuses (entry_said (laid_said laid.now) thread (texts words.now))) }
{
    let plain = without_values(alloc, words)?;
    let head = Head { thread, core: None };
    write_entry(alloc, laid, head, &plain)
}

/// Returns the statement that words spell, as a script has it.
pub fn statement_text(
    alloc: Global,
    laid: &PlanLayout,
    thread: ObjId,
    words: &[&str],
) -> Result<String, PlanError>
    ensures said { OnOk result
        (statement_said (laid_said laid.now) thread (texts words.now) ≡ Ok tt) }
    ensures error { IfErr result
        (Refuses (statement_said (laid_said laid.now) thread (texts words.now))) }
{
    let mut text = String::new(alloc);
    let entry = after_name(words);
    if !is_entry(entry) {
        add_words(&mut text, words)?;
        return Ok(text);
    }
    let line = plain_entry(alloc, laid, thread, entry)?;
    let name = words.len().saturating_sub(entry.len());
    add_words(&mut text, words.get(..name).unwrap_or(&[]))?;
    add_entry(alloc, &mut text, line.as_str(), entry)?;
    Ok(text)
}

/// Returns whether a statement closes a block.
fn closes(words: &[&str]) -> bool
    ensures { result ≡ closes (texts words.now) }
{
    match words {
        [word, ..] => *word == "}",
        [] => false,
    }
}

/// Returns whether a statement opens a block.
fn opens(words: &[&str]) -> bool
    ensures { result ≡ opens (texts words.now) }
{
    match words.last() {
        Some(word) => *word == "{",
        None => false,
    }
}

/// Returns how many blocks are open after what a statement closes.
pub fn open_still(blocks: usize, words: &[&str]) -> usize
    ensures { result ≡ open_still blocks (texts words.now) }
{
    if closes(words) {
        blocks.saturating_sub(1)
    } else {
        blocks
    }
}

/// Returns how many blocks are open after a statement. `Limit` if these are too many.
pub fn open_after(blocks: usize, words: &[&str]) -> Result<usize, PlanError>
    ensures blocks { IfOk result (λ n. open_after blocks (texts words.now) ≡ Ok n) }
    ensures error { IfErr result (Refuses (open_after blocks (texts words.now))) }
{
    let still = open_still(blocks, words);
    if !opens(words) {
        return Ok(still);
    }
    if still < DEPTH {
        return Ok(still + 1);
    }
    Err(PlanError::Limit {
        what: "open blocks",
        limit: DEPTH as u32,
    })
}

/// Returns whether a statement closes the program.
pub fn is_end(blocks: usize, words: &[&str]) -> bool
    ensures { result ≡ is_end blocks (texts words.now) }
{
    closes(words) && blocks == 0
}

/// Reads `NAME {`, the words after `program`.
pub fn program_head(
    alloc: Global,
    laid: &PlanLayout,
    words: &mut Tokens<'_>,
) -> Result<ObjId, PlanError>
    ensures head { IfOk result (λ t. program_head (laid_said laid.now) words.old ≡ Ok t) }
    ensures error { IfErr result (Refuses (program_head (laid_said laid.now) words.old)) }
{
    let name = words.need("the name of a thread")?;
    let thread = thread_named(alloc, laid, name)?;
    words.expect(alloc, "{")?;
    words.end(alloc)?;
    Ok(thread)
}

/// Returns the plan's fault for a fault of a program.
pub fn fault_of(alloc: Global, fault: ProgramFault) -> PlanError
    ensures { refusal_by result ≡ None }
{
    match format!(in alloc; "{fault}") {
        Ok(message) => PlanError::Program { message },
        Err(_) => PlanError::OutOfMemory,
    }
}

/// Returns the script's line for a statement of the thread with this name, inside of `blocks`
/// blocks. Fails if it is too long for a script.
pub fn program_line(
    alloc: Global,
    name: &str,
    blocks: usize,
    text: &str,
) -> Result<String, PlanError>
    ensures { IfErr result (λ w. refusal_by w ≡ None) }
{
    let mut line = String::from_str(alloc, "#! ")?;
    line.push_str(name)?;
    line.push_str(": ")?;
    for _ in 0..blocks {
        line.push_str("  ")?;
    }
    line.push_str(text)?;
    if line.len() > LINE_BYTES {
        let message = format!(in alloc; "the line has more than {LINE_BYTES} bytes in a script")?;
        return Err(PlanError::Program { message });
    }
    Ok(line)
}
