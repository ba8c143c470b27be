//! Rows of calls on tables, as texts: a call and its numbers, the word of its answer, and the
//! numbers of what is kept then, as `bind 1 256 = bound 3 1 - - - -`.
use crate::tests::texts::{NONE, numbers};
use mcs_types::{Kind, ObjId, Refusal};

/// A call, its numbers, the word of its result, and the numbers of the table afterwards.
pub type Row<'a> = (&'a str, [u32; 12], &'a str, [u32; 12]);

/// The row of a line.
pub fn row_of(line: &str) -> Option<Row<'_>> {
    let (call, want) = line.split_once(" = ")?;
    let (call, given) = call.split_once(' ')?;
    let (answer, kept) = want.split_once(' ')?;
    Some((call, numbers(given), answer, numbers(kept)))
}

/// Returns true, or the refusal.
pub fn done(answer: Result<(), Refusal>) -> Result<bool, Refusal> {
    match answer {
        Ok(()) => Ok(true),
        Err(refusal) => Err(refusal),
    }
}

/// Returns the word for a result.
pub fn word_of(answer: Result<bool, Refusal>) -> &'static str {
    match answer {
        Ok(true) => "done",
        Ok(false) => "not",
        Err(Refusal::Missing) => "missing",
        Err(Refusal::Range) => "range",
        Err(Refusal::AlreadyBound) => "bound",
        Err(Refusal::NotBound) => "free",
        Err(Refusal::SlotEmpty) => "empty",
        Err(Refusal::SlotFull) => "full",
        Err(Refusal::BadgeNotAllowed) => "badged",
        Err(Refusal::WrongKind) => "kind",
        Err(_) => "refused",
    }
}

/// An object of a kind, or none.
pub fn named(kind: Kind, serial: u32) -> Option<ObjId> {
    if serial == NONE {
        None
    } else {
        Some(ObjId { kind, serial })
    }
}
