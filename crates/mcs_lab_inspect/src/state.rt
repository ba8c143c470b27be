//! The state of each thread after a line of a script.
use crate::page::{Numbers, TextBuffer};
use crate::stuck::Waits;
use crate::tables::put_tables;
use crate::values::put_values;
use mcs_kernel::Kernel;
use mcs_lab_check::{Judge, LabFault, Labels, LineResult, TakesLines, take_lines};
use mcs_queues::LinkedLines;
use mcs_sim::Source;
use std::alloc::Global;
use std::io::{Read, Write};

/// What `mcslab state` shows: after which line, whether only stuck threads, and whether as JSON,
/// with which form of numbers.
#[derive(Clone, Copy)]
pub struct Wanted {
    pub at: Option<u64>,
    pub stuck: bool,
    pub json: bool,
    pub numbers: Numbers,
}

/// A script that is read up to a line.
#[derive(Drop)]
struct Reader {
    judge: Judge,
    names: Labels,
    at: Option<u64>,
}

impl Reader {
    /// Returns whether the requested lines were read.
    fn is_done(&self) -> bool {
        match self.at {
            Some(at) => self.judge.line() >= at,
            None => false,
        }
    }

    /// Returns the fault that the requested line is beyond the end, if it is.
    fn missing(&self) -> Option<LabFault> {
        let line = self.at?;
        let count = self.judge.line();
        if line <= count {
            return None;
        }
        Some(LabFault::NoLine { line, count })
    }
}

impl TakesLines for Reader {
    fn take_line(&mut self, alloc: Global, line: &[u8]) -> Result<(), LabFault> {
        if self.is_done() {
            return Ok(());
        }
        if let LineResult::Nothing = self.judge.take(alloc, line)? {
            self.names.hear(alloc, self.judge.line(), line)?;
        }
        Ok(())
    }

    fn taken(&self) -> u64 {
        self.judge.line()
    }
}

/// Appends the requested part of a state. Returns false if only stuck threads are requested, and
/// there are some.
fn put_state(
    page: &mut TextBuffer,
    kernel: &Kernel<LinkedLines>,
    names: &Labels,
    waits: &Waits,
    wanted: Wanted,
) -> bool {
    if wanted.json {
        put_values(page, kernel, names, waits, wanted.stuck);
        return !wanted.stuck || !waits.has_stuck();
    }
    if !wanted.stuck {
        put_tables(page, kernel, names);
    }
    waits.put(page, kernel, names) || !wanted.stuck
}

/// Reads a script up to the requested line, and appends the requested part of its state. Returns
/// false if only stuck threads are requested, and there are some.
fn read_state<R: Read>(
    alloc: Global,
    from: &mut Source<R>,
    reader: &mut Reader,
    page: &mut TextBuffer,
    wanted: Wanted,
) -> Result<bool, LabFault> {
    take_lines(alloc, from, reader)?;
    if let Some(fault) = reader.missing() {
        return Err(fault);
    }
    reader.judge.end(alloc)?;
    let Some(kernel) = reader.judge.kernel() else {
        return Ok(true);
    };
    let waits = Waits::new(alloc, kernel)?;
    Ok(put_state(page, kernel, &reader.names, &waits, wanted))
}

/// Shows the state of each thread after a line of a script, or at its end, and what is stuck.
/// Returns false if only stuck threads are requested, and there are some. Fault `NoLine` if the
/// line is beyond the end.
pub fn show_state<R: Read, W: Write + Drop>(
    alloc: Global,
    from: &mut Source<R>,
    mut to: W,
    wanted: Wanted,
) -> Result<bool, LabFault> {
    let mut page = TextBuffer::new(alloc)?;
    page.set_numbers(wanted.numbers);
    let names = Labels::new(alloc);
    let judge = Judge::new(alloc)?;
    let at = wanted.at;
    let mut reader = Reader { judge, names, at };
    let is_free = read_state(alloc, from, &mut reader, &mut page, wanted)?;
    page.write(&mut to)?;
    Ok(is_free)
}
