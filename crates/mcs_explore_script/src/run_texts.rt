//! The scripts that show runs: a comment, the names of objects, the boot, and steps with their
//! answers.
ghost use Rattle.std.specs.Prelude.{◌≡◌, ◌++◌, IfOk, OnOk};
ghost use Rattle.mcs_lab_check.specs.Naming.{answered};
ghost use Rattle.mcs_explore_script.specs.RunTexts.{given_text, name_line, names_text, run_text};
ghost use Rattle.mcs_explore_script.specs.Steps.{script_text};

use crate::steps::write_steps;
use mcs_book::Book;
use mcs_explore_walk::OrdersFault;
use mcs_lab_check::{LabFault, Labels};
use mcs_text::Token;
use mcs_trace::{Line, Sink, spell};
use mcs_types::ObjId;
use std::alloc::{AllocError, Global};

/// Returns the fault of the command for a fault of a search or a run.
pub fn fault_of(fault: OrdersFault) -> LabFault {
    match fault {
        OrdersFault::BookFull => LabFault::BookFull,
        OrdersFault::OutOfMemory => LabFault::OutOfMemory,
    }
}

/// Adds the lines that give the names. `OutOfMemory` if an allocation fails.
fn push_names(alloc: Global, text: &mut Vec<u8>, names: &Labels) -> Result<(), LabFault>
    ensures { OnOk result (text.new.items ≡ text.old.items ++ names_text names.now) }
{
    let mut line = Box::new(alloc, Line::new())?;
    for number in 0..names.count() {
        push_given(text, &mut line, names.given(number))?;
    }
    Ok(())
}

/// Adds the line that gives a name, if the name is given; `line` is a buffer for the object's id.
fn push_given(
    text: &mut Vec<u8>,
    line: &mut Line,
    given: Option<(ObjId, &[u8])>,
) -> Result<(), AllocError>
    ensures { OnOk result (text.new.items
        ≡ text.old.items ++ given_text (answered given.entry)) }
{
    match given {
        Some((object, name)) => push_name(text, line, object, name),
        None => Ok(()),
    }
}

/// Adds the line that gives an object its name; `line` is a buffer for the object's id.
fn push_name(
    text: &mut Vec<u8>,
    line: &mut Line,
    object: ObjId,
    name: &[u8],
) -> Result<(), AllocError>
    ensures { OnOk result (text.new.items ≡ text.old.items ++ name_line object name.now) }
{
    spell(line, &Token::Name(object));
    text.extend_from_slice(b"#@ ")?;
    text.extend_from_slice(line.text())?;
    text.extend_from_slice(b" ")?;
    text.extend_from_slice(name)?;
    text.extend_from_slice(b"\n")
}

/// Appends the boot and the steps of a book to a text, each step with its answer. `OutOfMemory` if
/// an allocation fails.
fn with_steps(alloc: Global, text: Vec<u8>, book: &Book) -> Result<Vec<u8>, LabFault>
    ensures { IfOk result (λ v. v.items ≡ text.items ++ script_text book.now.book) }
{
    let mut sink = Sink::new(alloc, text)?;
    write_steps(&mut sink, book)?;
    Ok(sink.into_writer())
}

/// Returns the script that shows a run: a comment, names, and the boot and the steps of the run's
/// book, each step with its answer. `OutOfMemory` if an allocation fails.
pub fn run_text(
    alloc: Global,
    comment: &[u8],
    names: &Labels,
    book: &Book,
) -> Result<Vec<u8>, LabFault>
    ensures { IfOk result (λ text. text.items ≡ run_text comment.now names.now book.now.book) }
{
    let mut text = Vec::from_slice(alloc, comment)?;
    push_names(alloc, &mut text, names)?;
    with_steps(alloc, text, book)
}
