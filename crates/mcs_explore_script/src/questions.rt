//! The questions of a script.
ghost use Rattle.std.specs.Prelude.{◌≡◌, ◌++◌, ◌∷◌, [], cond, map, Some, IfOk, OnOk};
ghost use Rattle.mcs_text.specs.Reading.{lines_of};
ghost use Rattle.mcs_explore_questions.specs.Questions.{said_of};
ghost use Rattle.mcs_explore_questions.specs.There.{scene_of};
ghost use Rattle.mcs_explore_script.specs.Questions.{is_marked, is_question, line_asks, questions_from, said_by};

use crate::programs::is_program_line;
use mcs_explore_questions::{Asked, ExploreFault, QuestionFault, There, asked_of, question_of};
use mcs_text::Lines;
use std::alloc::Global;

/// A question, the text of its line after `#! `, and the number of that line.
#[derive(Drop)]
pub struct AskedLine {
    pub asked: Asked,
    pub text: Vec<u8>,
    pub line: u64,
}

/// Returns whether a line asks something, that is, is no line of a program.
fn is_marked(line: &[u8]) -> bool
    ensures { result ≡ is_marked line.now }
{
    match line {
        [first, second, ..] => *first == b'#' && *second == b'!',
        _ => false,
    }
}

/// Returns whether a line asks something: it is none of a program.
fn is_question(line: &[u8]) -> bool
    ensures { result ≡ is_question line.now }
{
    is_marked(line) && !is_program_line(line)
}

/// Returns the text of a question and its meaning for a script.
fn parts_of(alloc: Global, there: There<'_>, line: &[u8]) -> Result<(Vec<u8>, Asked), QuestionFault>
    ensures { IfOk result (λ r. line_asks (scene_of there.entry) line.now ≡ Some (said_of r.1)) }
{
    let text = question_of(alloc, line)?;
    let asked = asked_of(alloc, there, text)?;
    Ok((Vec::from_slice(alloc, text)?, asked))
}

/// Adds the question of a line, if it asks something. Fails if it has no form of a question, or
/// names what does not exist.
fn add_line(
    alloc: Global,
    there: There<'_>,
    number: u64,
    line: &[u8],
    all: &mut Vec<AskedLine>,
) -> Result<(), ExploreFault>
    ensures { OnOk result (map said_by all.new.items ≡ map said_by all.old.items
        ++ cond (is_question line.now)
        ((number, line_asks (scene_of there.entry) line.now) ∷ []) []) }
{
    if !is_question(line) {
        return Ok(());
    }
    match parts_of(alloc, there, line) {
        Ok((text, asked)) => all.push(AskedLine {
            asked,
            text,
            line: number,
        })?,
        Err(why) => return Err(ExploreFault::of_line(number, why)),
    }
    Ok(())
}

/// Returns the questions of all lines of a text about a script.
pub fn read_questions(
    alloc: Global,
    there: There<'_>,
    text: &[u8],
) -> Result<Vec<AskedLine>, ExploreFault>
    ensures { IfOk result (λ all. map said_by all.items
        ≡ questions_from (scene_of there.entry) 1 (lines_of text.now)) }
{
    let mut all = Vec::new(alloc);
    let mut lines = Lines::new(text);
    let mut number: u64 = 1;
    while let Some(line) = lines.next_line() {
        add_line(alloc, there, number, line, &mut all)?;
        number += 1;
    }
    Ok(all)
}
