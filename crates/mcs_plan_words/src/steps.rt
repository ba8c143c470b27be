//! The steps of a script that took effect, and which of them stand between two lines of its file.
use crate::line_numbers::number_in;
use mcs_lab_check::{Judge, LabFault, Labels, Last, LineResult, TakesLines, take_lines};
use mcs_sim::Source;
use std::alloc::Global;
use std::io::Read;

/// A script that was read whole: its text, its names, and the line of each step in its book.
#[derive(Drop)]
pub struct Steps {
    pub judge: Judge,
    pub names: Labels,
    pub text: Vec<u8>,
    lines: Vec<u64>,
}

impl TakesLines for Steps {
    fn take_line(&mut self, alloc: Global, line: &[u8]) -> Result<(), LabFault> {
        self.text.extend_from_slice(line)?;
        match (self.judge.take(alloc, line)?, self.judge.last()) {
            (LineResult::Step, Last::LetIn { .. }) => {
                self.lines.push(self.judge.line())?;
                Ok(())
            }
            (LineResult::Nothing, _) => self.names.hear(alloc, self.judge.line(), line),
            _ => Ok(()),
        }
    }

    fn taken(&self) -> u64 {
        self.judge.line()
    }
}

impl Steps {
    /// Reads a script. Its faults are those of its lines, of a read, of a full book and of a failed
    /// allocation.
    pub fn read<R: Read>(alloc: Global, from: &mut Source<R>) -> Result<Steps, LabFault> {
        let mut steps = Steps {
            judge: Judge::new(alloc)?,
            names: Labels::new(alloc),
            text: Vec::new(alloc),
            lines: Vec::new(alloc),
        };
        take_lines(alloc, from, &mut steps)?;
        steps.judge.end(alloc)?;
        Ok(steps)
    }

    /// Returns the fault of a line beyond the end, if it is.
    pub fn missing(&self, line: Option<u64>) -> Option<LabFault> {
        let line = line?;
        let count = self.judge.line();
        if line <= count {
            return None;
        }
        Some(LabFault::NoLine { line, count })
    }

    /// Returns how many steps of the book are before a line; `numbers` are the numbers of the
    /// script's lines.
    fn count_before(&self, numbers: &[u64], line: u64) -> usize {
        self.lines
            .iter()
            .filter(|step| number_in(numbers, **step) < line)
            .count()
    }

    /// Returns the first and the last line of the book whose steps are between these lines of the
    /// file; None if there are none.
    pub fn between(
        &self,
        numbers: &[u64],
        from: Option<u64>,
        to: Option<u64>,
    ) -> Option<(usize, usize)> {
        let before = match from {
            Some(line) => self.count_before(numbers, line),
            None => 0,
        };
        let last = match to {
            Some(line) => self.count_before(numbers, line.saturating_add(1)),
            None => self.lines.len(),
        };
        if before >= last {
            return None;
        }
        Some((before.saturating_add(1), last))
    }
}
