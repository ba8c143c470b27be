//! A script that is read whole first.
use mcs_lab_check::{Judge, LabFault, TakesLines, take_lines};
use mcs_sim::Source;
use std::alloc::Global;
use std::io::Read;

/// A script without a fault: its text, and how many lines its book has after the boot.
#[derive(Drop)]
pub struct Whole {
    judge: Judge,
    text: Vec<u8>,
}

impl Whole {
    /// Returns the text.
    pub fn text(&self) -> &[u8] {
        self.text.as_slice()
    }

    /// Returns how many lines the book has after its boot.
    pub fn book_lines(&self) -> u64 {
        match self.judge.kernel() {
            Some(kernel) => kernel.book().lines().saturating_sub(1) as u64,
            None => 0,
        }
    }
}

impl TakesLines for Whole {
    fn take_line(&mut self, alloc: Global, line: &[u8]) -> Result<(), LabFault> {
        self.text.extend_from_slice(line)?;
        self.judge.take(alloc, line)?;
        Ok(())
    }

    fn taken(&self) -> u64 {
        self.judge.line()
    }
}

/// Reads a whole script. Its faults are those of its lines, of a read, of a full book and of a
/// failed allocation.
pub fn read_whole<R: Read>(alloc: Global, from: &mut Source<R>) -> Result<Whole, LabFault> {
    let text = Vec::new(alloc);
    let judge = Judge::new(alloc)?;
    let mut whole = Whole { judge, text };
    take_lines(alloc, from, &mut whole)?;
    whole.judge.end(alloc)?;
    Ok(whole)
}
