//! The labels of turns.
ghost use Rattle.std.specs.Prelude.{◌≡◌, ◌++◌, IfOk, OnOk};
ghost use Rattle.std.specs.List.{flat_map};
ghost use Rattle.mcs_explore_graph.specs.Graphs.{answered_text, but_last, label_text, reached_text};

use mcs_book::Line;
use mcs_explore_report::{put, reached_by, text_of};
use mcs_explore_script::fault_of;
use mcs_lab_check::LabFault;
use mcs_text::Token;
use mcs_trace::{Line as Buffer, spell, spell_step};
use mcs_turns::Reached;
use std::alloc::Global;

/// Returns a text without its last byte.
fn but_last(text: &[u8]) -> &[u8]
    ensures { result.now ≡ but_last text.now }
{
    &text[..text.len().saturating_sub(1)]
}

/// Appends what reached a waiting thread; `buffer` is for its words.
fn put_reached(
    alloc: Global,
    text: &mut Vec<u8>,
    buffer: &mut Buffer,
    reached: &Reached,
) -> Result<(), LabFault>
    ensures { OnOk result (text.new.items ≡ text.old.items ++ reached_text reached.now) }
{
    put(text, b"; ")?;
    spell(buffer, &Token::Name(reached.thread));
    put(text, buffer.text())?;
    put(text, b" ")?;
    put(text, &text_of(alloc, buffer, &reached.answer)?)
}

/// Appends what reached waiting threads.
fn put_all_reached(
    alloc: Global,
    text: &mut Vec<u8>,
    buffer: &mut Buffer,
    all: &[Reached],
) -> Result<(), LabFault>
    ensures { OnOk result (text.new.items ≡ text.old.items ++ flat_map reached_text all.now) }
{
    for index in 0..all.len() {
        put_reached(alloc, text, buffer, &all[index])?;
    }
    Ok(())
}

/// Appends the step of a line and its answer; `buffer` is for their words.
fn put_step(
    alloc: Global,
    text: &mut Vec<u8>,
    buffer: &mut Buffer,
    line: &Line<'_>,
) -> Result<(), LabFault>
    ensures { OnOk result (text.new.items ≡ text.old.items ++ answered_text line.now) }
{
    spell_step(buffer, &line.kept_step());
    put(text, but_last(buffer.text()))?;
    put(text, b" -> ")?;
    let Ok(answer) = line.answer(alloc) else {
        return Err(LabFault::OutOfMemory);
    };
    put(text, &text_of(alloc, buffer, &answer)?)
}

/// Returns the label of a turn by its line: the step, its answer, and what reached waiting threads.
/// `OutOfMemory` if an allocation fails.
pub fn label_of(alloc: Global, buffer: &mut Buffer, line: &Line<'_>) -> Result<Vec<u8>, LabFault>
    ensures { IfOk result (λ text. text.items ≡ label_text line.now) }
{
    let mut text = Vec::new(alloc);
    put_step(alloc, &mut text, buffer, line)?;
    let all = match reached_by(alloc, line) {
        Ok(all) => all,
        Err(fault) => return Err(fault_of(fault)),
    };
    put_all_reached(alloc, &mut text, buffer, &all)?;
    Ok(text)
}
