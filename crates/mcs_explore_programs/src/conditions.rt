//! Conditions: tests with `and` between them.
use crate::alternatives::Word;
use crate::fault::ProgramFault;
use crate::slots::Slots;
use crate::statement::Statement;
use crate::values::{read_value, source_of};
use mcs_turns::{Source, Test};
use std::alloc::Global;

/// What faults say about a test.
const TESTS: &str =
    "got, heard, empty, done, refused, and two values with ==, !=, <, >= or has between them";

/// What may be between two values.
const SIGNS: &str = "==, !=, <, >= or has";

/// The greatest number of a refusal.
const REFUSALS: u64 = 13;

/// The greatest number of a bit.
const LAST_BIT: u64 = 63;

/// A test, and whether it has to hold or to fail.
#[derive(Clone, Copy, Drop)]
pub struct Check {
    pub test: Test,
    pub is_to_hold: bool,
}

/// Returns the test that a single word names.
fn named_test(word: &[u8]) -> Option<Test> {
    match word {
        b"got" => Some(Test::Got),
        b"heard" => Some(Test::Heard),
        b"empty" => Some(Test::Empty),
        b"done" => Some(Test::Done),
        b"refused" => Some(Test::Refused),
        _ => None,
    }
}

/// Returns whether a word may begin a value.
fn is_value(word: &[u8]) -> bool {
    match word {
        [b'$', ..] => true,
        [first, ..] => first.is_ascii_digit(),
        [] => false,
    }
}

/// Takes the number of a refusal, if there is one, and returns the test for that refusal or for
/// any.
fn refused(statement: &mut Statement<'_>) -> Result<Test, ProgramFault> {
    match statement.peek() {
        None | Some(b"{") | Some(b"and") => Ok(Test::Refused),
        Some(_) => {
            let number = statement.number(1, REFUSALS, "the number of a refusal, 1 to 13")?;
            Ok(Test::RefusedBy(number.min(REFUSALS) as u8))
        }
    }
}

/// Takes the bits that a value is tested for: another value, or the single bit of a number.
fn bits(statement: &mut Statement<'_>, slots: &Slots) -> Result<Source, ProgramFault> {
    if !statement.take(b"bit") {
        return read_value(statement, slots);
    }
    let number = statement.number(0, LAST_BIT, "the number of a bit, 0 to 63")?;
    Ok(Source::Number(1 << number.min(LAST_BIT)))
}

/// Takes a sign and a second value, and returns the test that compares both.
fn compared(
    statement: &mut Statement<'_>,
    slots: &Slots,
    one: Source,
) -> Result<Check, ProgramFault> {
    let sign = statement.need(SIGNS)?;
    let (test, is_to_hold) = match sign {
        b"==" => (Test::Is(one, read_value(statement, slots)?), true),
        b"!=" => (Test::Is(one, read_value(statement, slots)?), false),
        b"<" => (Test::IsLess(one, read_value(statement, slots)?), true),
        b">=" => (Test::IsLess(one, read_value(statement, slots)?), false),
        b"has" => (Test::Has(one, bits(statement, slots)?), true),
        sign => return Err(statement.not(sign, SIGNS)),
    };
    Ok(Check { test, is_to_hold })
}

/// Takes a test after its `not`, if it has one.
fn bare_check(
    alloc: Global,
    statement: &mut Statement<'_>,
    slots: &Slots,
) -> Result<Check, ProgramFault> {
    let word = statement.need("a test")?;
    let test = match named_test(word) {
        Some(Test::Refused) => refused(statement)?,
        Some(test) => test,
        None if is_value(word) => {
            let one = source_of(statement, slots, word)?;
            return compared(statement, slots, one);
        }
        None => {
            return Err(ProgramFault::NoTest {
                word: Word::new(alloc, word)?,
                there: TESTS,
            });
        }
    };
    Ok(Check {
        test,
        is_to_hold: true,
    })
}

/// Takes a test.
fn read_check(
    alloc: Global,
    statement: &mut Statement<'_>,
    slots: &Slots,
) -> Result<Check, ProgramFault> {
    let is_negated = statement.take(b"not");
    let check = bare_check(alloc, statement, slots)?;
    Ok(Check {
        test: check.test,
        is_to_hold: check.is_to_hold != is_negated,
    })
}

/// Takes a condition and the `{` after it.
pub fn read_condition(
    alloc: Global,
    statement: &mut Statement<'_>,
    slots: &Slots,
) -> Result<Vec<Check>, ProgramFault> {
    let mut checks = Vec::new(alloc);
    checks.push(read_check(alloc, statement, slots)?)?;
    for _ in 0..statement.left() {
        if !statement.take(b"and") {
            break;
        }
        checks.push(read_check(alloc, statement, slots)?)?;
    }
    statement.open()?;
    Ok(checks)
}
