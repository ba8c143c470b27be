//! The lines of a graph.
ghost use Rattle.std.specs.Prelude.{◌≡◌, ◌++◌, IfOk, OnOk, decimal};
ghost use Rattle.mcs_explore_graph.specs.Graphs.{aut_head, aut_line, dot_line, end_text, head_text, line_text};

use mcs_explore_report::put;
use mcs_lab_check::LabFault;
use mcs_text::Token;
use mcs_trace::{Line as Buffer, spell};
use std::alloc::Global;

/// The form of a graph.
#[derive(Clone, Copy)]
pub enum Form {
    /// That of Aldebaran (`.aut`), which CADP, LTSmin and mCRL2 read.
    Aut,
    /// That of Graphviz (`.dot`).
    Dot,
}

/// The states at the ends of an edge, by their indices.
#[derive(Clone, Copy)]
pub struct Between {
    pub from: u32,
    pub to: u32,
}

/// Appends a number to a text; `buffer` is for its digits.
fn put_number(text: &mut Vec<u8>, buffer: &mut Buffer, number: usize) -> Result<(), LabFault>
    ensures { OnOk result (text.new.items ≡ text.old.items ++ decimal number) }
{
    spell(buffer, &Token::Number(number as u64));
    put(text, buffer.text())
}

/// Appends the first line of a graph in Aldebaran's form: the first state, and the numbers of turns
/// and of states.
fn put_aut_head(
    text: &mut Vec<u8>,
    buffer: &mut Buffer,
    states: usize,
    turns: usize,
) -> Result<(), LabFault>
    ensures { OnOk result (text.new.items ≡ text.old.items ++ aut_head states turns) }
{
    put(text, b"des (0,")?;
    put_number(text, buffer, turns)?;
    put(text, b",")?;
    put_number(text, buffer, states)?;
    put(text, b")\n")
}

/// Appends an edge in Aldebaran's form.
fn put_aut_line(
    text: &mut Vec<u8>,
    buffer: &mut Buffer,
    between: Between,
    label: &[u8],
) -> Result<(), LabFault>
    ensures { OnOk result (text.new.items
        ≡ text.old.items ++ aut_line between.from label.now between.to) }
{
    put(text, b"(")?;
    put_number(text, buffer, between.from as usize)?;
    put(text, b",\"")?;
    put(text, label)?;
    put(text, b"\",")?;
    put_number(text, buffer, between.to as usize)?;
    put(text, b")\n")
}

/// Appends an edge for Graphviz.
fn put_dot_line(
    text: &mut Vec<u8>,
    buffer: &mut Buffer,
    between: Between,
    label: &[u8],
) -> Result<(), LabFault>
    ensures { OnOk result (text.new.items
        ≡ text.old.items ++ dot_line between.from label.now between.to) }
{
    put(text, b"  ")?;
    put_number(text, buffer, between.from as usize)?;
    put(text, b" -> ")?;
    put_number(text, buffer, between.to as usize)?;
    put(text, b" [label=\"")?;
    put(text, label)?;
    put(text, b"\"];\n")
}

/// Returns the line of an edge; `buffer` is for its numbers. `OutOfMemory` if an allocation fails.
pub fn line_of(
    alloc: Global,
    buffer: &mut Buffer,
    form: Form,
    between: Between,
    label: &[u8],
) -> Result<Vec<u8>, LabFault>
    ensures { IfOk result (λ text.
        text.items ≡ line_text form between.from label.now between.to) }
{
    let mut text = Vec::new(alloc);
    match form {
        Form::Aut => put_aut_line(&mut text, buffer, between, label)?,
        Form::Dot => put_dot_line(&mut text, buffer, between, label)?,
    }
    Ok(text)
}

/// Returns the first line of a graph with so many states and turns; `buffer` is for its numbers.
/// `OutOfMemory` if an allocation fails.
pub fn head_of(
    alloc: Global,
    buffer: &mut Buffer,
    form: Form,
    states: usize,
    turns: usize,
) -> Result<Vec<u8>, LabFault>
    ensures { IfOk result (λ text. text.items ≡ head_text form states turns) }
{
    let mut text = Vec::new(alloc);
    match form {
        Form::Aut => put_aut_head(&mut text, buffer, states, turns)?,
        Form::Dot => put(&mut text, b"digraph orders {\n")?,
    }
    Ok(text)
}

/// Returns the last line of a graph.
pub fn end_of(form: Form) -> &'static [u8]
    ensures { result.now ≡ end_text form }
{
    match form {
        Form::Aut => b"",
        Form::Dot => b"}\n",
    }
}
