//! Whether two texts of users have the same lines.
ghost use Rattle.std.specs.Prelude.{◌≡◌, true, ◌++◌, ◌∷◌, [], IfOk, OnOk};
ghost use Rattle.mcs_text.specs.Reading.{lines_of, words_of};
ghost use Rattle.mcs_plan_words.specs.Alignment.{HasLinesOf, first_of, is_of, is_of_user, is_question, kept};

use mcs_text::{Lines, Words};
use std::alloc::{AllocError, Global};

/// Returns whether a word names a user, or begins what may wait for ever.
fn is_of_user(word: &[u8]) -> bool
    ensures { result ≡ is_of_user word.now }
{
    word == b"idle".as_slice() || word.ends_with(b":")
}

/// Returns whether the first word of a text is such a word.
fn begins_of_user(text: &[u8]) -> bool
    ensures { result ≡ is_of_user (first_of (words_of text.now)) }
{
    match Words::new(text).next_word() {
        Some(word) => is_of_user(word),
        None => false,
    }
}

/// Returns whether a line asks something of all orders that is reported by its line.
fn is_question(line: &[u8]) -> bool
    ensures { result ≡ is_question line.now }
{
    match line {
        [b'#', b'!', b' ', text @ ..] => !begins_of_user(text),
        [b'#', b'!', ..] => true,
        _ => false,
    }
}

/// Returns whether a line is a question, where questions are wanted, or is another line; a comment
/// without words is neither.
fn is_of(asks: bool, line: &[u8]) -> bool
    ensures { result ≡ is_of asks line.now }
{
    if asks {
        is_question(line)
    } else {
        !is_question(line) && line != b"#".as_slice()
    }
}

/// Adds a line with its newline.
fn add_line(to: &mut Vec<u8>, line: &[u8]) -> Result<(), AllocError>
    ensures { OnOk result (to.new.items ≡ to.old.items ++ (line.now ++ 10 ∷ [])) }
{
    to.extend_from_slice(line)?;
    to.push(b'\n')?;
    Ok(())
}

/// Returns the text of the lines that are questions, or of the others.
fn kept(alloc: Global, text: &[u8], asks: bool) -> Result<Vec<u8>, AllocError>
    ensures { IfOk result (λ k. k.items ≡ kept asks (lines_of text.now)) }
{
    let mut lines = Lines::new(text);
    let mut all = Vec::new(alloc);
    while let Some(line) = lines.next_line() {
        if is_of(asks, line) {
            add_line(&mut all, line)?;
        }
    }
    Ok(all)
}

/// Returns whether the lines of two texts that are questions are the same, or the others.
fn are_kept(alloc: Global, text: &[u8], aligned: &[u8], asks: bool) -> Result<bool, AllocError>
    ensures { IfOk result (λ are. are ≡ true
        → kept asks (lines_of aligned.now) ≡ kept asks (lines_of text.now)) }
{
    let old = kept(alloc, text, asks)?;
    let new = kept(alloc, aligned, asks)?;
    Ok(new == old)
}

/// Returns whether a text has the questions of another in their order, and its other lines in
/// theirs.
pub(crate) fn has_lines_of(alloc: Global, text: &[u8], aligned: &[u8]) -> Result<bool, AllocError>
    ensures { IfOk result (λ has. has ≡ true → HasLinesOf text.now aligned.now) }
{
    Ok(are_kept(alloc, text, aligned, true)? && are_kept(alloc, text, aligned, false)?)
}
