//! The names of a script, and the texts of its entries.
ghost use Rattle.std.specs.Prelude.{◌≡◌, IfOk};
ghost use Rattle.mcs_lab_check.specs.Naming.{text_names};

use mcs_lab_check::{LabFault, Labels};
use mcs_text::{Lines, UserEntry, Words, find_boot_key};
use mcs_types::ObjId;
use std::alloc::Global;

/// The text of an entry, as the script has it.
#[derive(Drop)]
pub struct EntryText {
    pub thread: ObjId,
    pub text: Vec<u8>,
}

/// Returns the names that the lines of a text give. Fault `Form` if a line `#@` does not have its
/// form.
pub fn read_names(alloc: Global, text: &[u8]) -> Result<Labels, LabFault>
    ensures { IfOk result (λ names. names ≡ text_names text.now) }
{
    let mut names = Labels::new(alloc);
    let mut lines = Lines::new(text);
    let mut number: u64 = 1;
    while let Some(line) = lines.next_line() {
        names.hear(alloc, number, line)?;
        number = number.saturating_add(1);
    }
    Ok(names)
}

/// Returns whether a line is one of an entry: it is not skipped, and not one of the boot.
fn is_entry(line: &[u8]) -> bool {
    if matches!(line, [] | [b'#' | b'=' | b'+', ..]) {
        return false;
    }
    let mut words = Words::new(line);
    match words.next_word() {
        Some(word) => find_boot_key(word).is_none(),
        None => false,
    }
}

/// Returns what follows the first two words of a line.
fn after_two(line: &[u8]) -> &[u8] {
    let mut rest = line;
    for _ in 0..2 {
        let Some(space) = rest.iter().position(|byte| *byte == b' ') else {
            return &[];
        };
        match rest.get(space.saturating_add(1)..) {
            Some(after) => rest = after,
            None => return &[],
        }
    }
    rest
}

/// Returns the texts of the entries of a text.
pub fn entry_texts(
    alloc: Global,
    text: &[u8],
    entries: &[UserEntry],
) -> Result<Vec<EntryText>, LabFault> {
    let mut texts = Vec::new(alloc);
    let lines = text
        .split(|byte| *byte == b'\n')
        .filter(|line| is_entry(line));
    for (line, said) in lines.zip(entries.iter()) {
        texts.push(EntryText {
            thread: said.thread,
            text: Vec::from_slice(alloc, after_two(line))?,
        })?;
    }
    Ok(texts)
}
