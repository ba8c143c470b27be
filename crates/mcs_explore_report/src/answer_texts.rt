//! The texts of answers.
ghost use Rattle.std.specs.Prelude.{◌≡◌, ◌++◌, IfOk, OnOk, codes};
ghost use Rattle.std.specs.List.{flat_map};
ghost use Rattle.mcs_explore_report.specs.Saying.{number_text, said};

use mcs_lab_check::LabFault;
use mcs_text::Token;
use mcs_trace::{Line, spell};
use mcs_types::{Answer, Badge, Message};
use std::alloc::Global;

/// Appends bytes to a text.
pub fn put(text: &mut Vec<u8>, bytes: &[u8]) -> Result<(), LabFault>
    ensures { OnOk result (text.new.items ≡ text.old.items ++ bytes.now) }
{
    text.extend_from_slice(bytes)?;
    Ok(())
}

/// Appends a space and a number to a text; `line` is a buffer for its digits.
fn put_number(text: &mut Vec<u8>, line: &mut Line, number: u64) -> Result<(), LabFault>
    ensures { OnOk result (text.new.items ≡ text.old.items ++ number_text number) }
{
    put(text, b" ")?;
    spell(line, &Token::Number(number));
    put(text, line.text())
}

/// Appends numbers to a text, each after a space.
fn put_numbers(text: &mut Vec<u8>, line: &mut Line, numbers: &[u64]) -> Result<(), LabFault>
    ensures { OnOk result (text.new.items ≡ text.old.items ++ flat_map number_text numbers.now) }
{
    for index in 0..numbers.len() {
        put_number(text, line, numbers[index])?;
    }
    Ok(())
}

/// Appends the label and words of a message to a text.
fn put_message(
    text: &mut Vec<u8>,
    line: &mut Line,
    badge: Badge,
    message: &Message,
) -> Result<(), LabFault>
    ensures { OnOk result (text.new.items
        ≡ text.old.items ++ said (Answer.Got badge message.now)) }
{
    put(text, b"got")?;
    put_number(text, line, badge.0)?;
    put_number(text, line, message.label())?;
    put_numbers(text, line, message.words())
}

/// Appends a word and a number to a text.
fn put_one(text: &mut Vec<u8>, line: &mut Line, word: &[u8], number: u64) -> Result<(), LabFault>
    ensures { OnOk result (text.new.items
        ≡ text.old.items ++ word.now ++ number_text number) }
{
    put(text, word)?;
    put_number(text, line, number)
}

/// Appends an answer to a text, as traces spell it.
fn put_answer(text: &mut Vec<u8>, line: &mut Line, answer: &Answer) -> Result<(), LabFault>
    ensures { OnOk result (text.new.items ≡ text.old.items ++ said answer.now) }
{
    match answer {
        Answer::Done => put(text, b"done"),
        Answer::Got { badge, message } => put_message(text, line, *badge, message),
        Answer::Heard { word } => put_one(text, line, b"heard", *word),
        Answer::Empty => put(text, b"empty"),
        Answer::Waits => put(text, b"waits"),
        Answer::Refused(refusal) => put_one(text, line, b"refused", refusal.number() as u64),
    }
}

/// Returns the text of an answer, as traces spell it; `line` is a buffer for it.
pub fn text_of(alloc: Global, line: &mut Line, answer: &Answer) -> Result<Vec<u8>, LabFault>
    ensures { IfOk result (λ text. text.items ≡ said answer.now) }
{
    let mut text = Vec::new(alloc);
    put_answer(&mut text, line, answer)?;
    Ok(text)
}
