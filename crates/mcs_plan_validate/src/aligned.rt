//! Aligns a script of users with its plan: each question is at its line of the plan.
use std::alloc::{AllocError, Global};

/// A text, and for each of its lines the number of the plan's line from which it came.
#[derive(Drop)]
pub struct Numbered {
    pub text: Vec<u8>,
    pub numbers: Vec<u64>,
}

/// A line, and the number of the plan's line from which it came.
#[derive(Clone, Copy)]
struct Line<'a> {
    text: &'a [u8],
    number: u64,
}

/// The lines of a script of users: its questions, and the others.
#[derive(Drop)]
struct Sorted<'a> {
    questions: Vec<Line<'a>>,
    others: Vec<Line<'a>>,
}

/// Returns whether a line asks something of all orders that is reported by its line: it begins with
/// `#!`, and its next word, if any, is not `idle` and does not end with `:`, as in a statement.
fn is_question(line: &[u8]) -> bool {
    match line {
        [b'#', b'!', b' ', text @ ..] => {
            let word = text.split(|byte| *byte == b' ').next();
            !word.is_some_and(|word| word == b"idle".as_slice() || word.ends_with(b":"))
        }
        [b'#', b'!', ..] => true,
        _ => false,
    }
}

impl<'a> Sorted<'a> {
    /// Returns the lines of a text with these numbers.
    fn new(alloc: Global, text: &'a [u8], numbers: &[u64]) -> Result<Sorted<'a>, AllocError> {
        let mut sorted = Sorted {
            questions: Vec::new(alloc),
            others: Vec::new(alloc),
        };
        for (text, number) in text.split(|byte| *byte == b'\n').zip(numbers.iter()) {
            sorted.add(Line {
                text,
                number: *number,
            })?;
        }
        Ok(sorted)
    }

    /// Adds a line.
    fn add(&mut self, line: Line<'a>) -> Result<(), AllocError> {
        if is_question(line.text) {
            self.questions.push(line)?;
        } else {
            self.others.push(line)?;
        }
        Ok(())
    }

    /// Returns how many lines are needed for all, with each question in its line.
    fn count(&self) -> u64 {
        let all = self.questions.len().saturating_add(self.others.len()) as u64;
        match self.questions.last() {
            Some(line) => all.saturating_add(line.number),
            None => all,
        }
    }
}

impl Numbered {
    /// Adds a line.
    fn add(&mut self, line: Line<'_>) -> Result<(), AllocError> {
        self.text.extend_from_slice(line.text)?;
        self.text.push(b'\n')?;
        self.numbers.push(line.number)?;
        Ok(())
    }

    /// Adds the next line with this number: the question that has it, else the next other line,
    /// else a comment if questions follow. Returns whether it added one; counts those that it took.
    fn add_next(
        &mut self,
        sorted: &Sorted<'_>,
        number: u64,
        taken: &mut (usize, usize),
    ) -> Result<bool, AllocError> {
        let question = sorted.questions.get(taken.0).copied();
        if let Some(line) = question
            && line.number <= number
        {
            taken.0 = taken.0.saturating_add(1);
            self.add(line)?;
            return Ok(true);
        }
        if let Some(line) = sorted.others.get(taken.1).copied() {
            taken.1 = taken.1.saturating_add(1);
            self.add(line)?;
            return Ok(true);
        }
        if question.is_none() {
            return Ok(false);
        }
        self.add(Line { text: b"#", number })?;
        Ok(true)
    }
}

/// Returns the script of users with the same lines, in which each question is at its line of the
/// plan, so that a report on a question names that line. The other lines keep their order, and so
/// do the questions; what a question means does not depend on its position.
pub fn align_questions(
    alloc: Global,
    text: &[u8],
    numbers: &[u64],
) -> Result<Numbered, AllocError> {
    let sorted = Sorted::new(alloc, text, numbers)?;
    let mut all = Numbered {
        text: Vec::new(alloc),
        numbers: Vec::new(alloc),
    };
    let mut taken = (0, 0);
    for before in 0..sorted.count() {
        if !all.add_next(&sorted, before.saturating_add(1), &mut taken)? {
            break;
        }
    }
    Ok(all)
}
