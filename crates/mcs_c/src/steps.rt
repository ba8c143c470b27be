//! Steps by entries as C has them.
ghost use Rattle.std.specs.Prelude.{◌≡◌, ◌⊎◌, [], IfOk};
ghost use Rattle.mcs_c.specs.Answering.{FillsWith, IsBrought, line_count, newest};
ghost use Rattle.mcs_c.specs.Entering.{Gives, step_after, step_said};
ghost use Rattle.mcs_c.specs.Handing.{Ends, HandsOut, IsRefused, at_line};
ghost use Rattle.mcs_c.specs.Stepping.{Enters, HandsOutput, HasEntered, IsRefusedAll, IsSpelled, IsTaken, Spells, entry_fault};

use crate::answers::{Brought, McsAnswer, McsRecord, added_to, nothing};
use crate::entries::{EntryFault, McsEntry, write_entry};
use crate::output::{Ending, Handed, McsEnd, NO_MEMORY, hand_out};
use crate::pieces::{RunOutput, tell};
use crate::replays::{begin, finish};
use mcs_sim::TracedRun;
use mcs_trace::Line;
use mcs_types::OutOfMemory;
use std::alloc::Global;

/// Returns the number of the fault of an entry.
fn entry_fault(fault: EntryFault) -> u64
    ensures { result ≡ entry_fault fault }
{
    match fault {
        EntryFault::Form => 15,
        EntryFault::Range => 16,
    }
}

/// Returns an empty line.
fn empty_line(alloc: Global) -> Result<Box<Line>, OutOfMemory>
    ensures { IfOk result (λ l. l.value ≡ []) }
{
    match Box::new(alloc, Line::new()) {
        Ok(line) => Ok(line),
        Err(_) => Err(OutOfMemory),
    }
}

/// Returns the line of the step that an entry encodes, or why it encodes none.
fn spell(alloc: Global, entry: &McsEntry) -> Result<Result<Vec<u8>, EntryFault>, OutOfMemory>
    ensures { IfOk result (λ r. Gives (λ v. v.items) r (step_after [] (step_said entry.now))) }
{
    let mut line = empty_line(alloc)?;
    if let Err(fault) = write_entry(&mut line, entry) {
        return Ok(Err(fault));
    }
    let text = Vec::from_slice(alloc, line.text())?;
    Ok(Ok(text))
}

/// Returns the line of the step that an entry encodes, and how the C call ends.
#[tactic(auto, using(crate::proofs::Stepped::spelled, crate::proofs::Stepped::unspelled))]
fn spelled(alloc: Global, entry: &McsEntry) -> Result<Handed, OutOfMemory>
    ensures { IfOk result (λ h. IsSpelled (step_said entry.now) h) }
{
    match spell(alloc, entry)? {
        Ok(text) => Ok(Handed {
            text,
            ending: Ending::of_status(0),
        }),
        Err(fault) => Ok(Handed {
            text: Vec::new(alloc),
            ending: Ending::of_line(0, entry_fault(fault)),
        }),
    }
}

/// Returns how many lines of steps the book of a replay has.
fn line_count(run: &TracedRun) -> usize
    ensures { result ≡ line_count run.now.course.stands.book }
{
    match run.book() {
        None => 0,
        Some(book) => book.lines() - 1,
    }
}

/// Returns the answer and the records of the line that the book of a replay has beyond so many
/// lines of steps; none if it has no more.
fn bring(alloc: Global, run: &TracedRun, before: usize) -> Result<Brought, OutOfMemory>
    ensures { IfOk result (λ b. IsBrought (newest before run.now.course.stands.book) b) }
{
    match run.book() {
        None => Ok(nothing(alloc)),
        Some(book) => added_to(alloc, book, before),
    }
}

/// What a line adds to the trace of a script, and its answer and records.
#[derive(Drop)]
struct Taken {
    output: RunOutput,
    brought: Brought,
}

/// Takes a line after a script.
#[tactic(auto, using(crate::proofs::Stepped::taken))]
fn take_line(alloc: Global, script: &[u8], line: &[u8]) -> Result<Taken, OutOfMemory>
    ensures { IfOk result (λ t. IsTaken script.now line.now t.output t.brought) }
{
    let mut run = begin(alloc, script)?;
    let before = line_count(&run);
    let output = tell(alloc, &mut run, line, Vec::new(alloc))?;
    let brought = bring(alloc, &run, before)?;
    Ok(Taken { output, brought })
}

/// What an entry adds to the trace of a script, or why it encodes no step; and its answer and
/// records.
#[derive(Drop)]
pub(crate) struct Entered {
    output: Result<RunOutput, EntryFault>,
    brought: Brought,
}

/// Takes the step that an entry encodes after a script.
#[tactic(auto, using(crate::proofs::Stepped::entered, crate::proofs::Stepped::not_entered))]
fn enter(alloc: Global, script: &[u8], entry: &McsEntry) -> Result<Entered, OutOfMemory>
    ensures { IfOk result (λ e. HasEntered script.now (step_said entry.now) e.output e.brought) }
{
    let line = match spell(alloc, entry)? {
        Ok(line) => line,
        Err(fault) => {
            return Ok(Entered {
                output: Err(fault),
                brought: nothing(alloc),
            });
        }
    };
    let Taken { output, brought } = take_line(alloc, script, &line)?;
    Ok(Entered {
        output: Ok(output),
        brought,
    })
}

/// Writes that an entry encodes no step, and returns the status.
fn refuse(fault: EntryFault, out: &mut [u8], end: &mut McsEnd) -> u32
    ensures wrote { HandsOut [] out.old out.new end.new.length }
    ensures ends { Ends (at_line 0 (entry_fault fault)) result end.new }
{
    *end = McsEnd {
        length: hand_out(&[], out),
        line: 0,
        fault: entry_fault(fault),
    };
    2
}

impl Entered {
    /// Writes the text of the step, or why there is none, and returns the status.
    fn hand_output(&self, out: &mut [u8], end: &mut McsEnd) -> u32
        ensures { HandsOutput self.now.output result out.old out.new end.new }
    {
        match &self.output {
            Ok(output) => finish(output, out, end),
            Err(fault) => refuse(*fault, out, end),
        }
    }

    /// Writes the text, the answer and the records of the entry, and returns the status.
    fn hand_over(
        &self,
        answer: &mut McsAnswer,
        records: &mut [McsRecord],
        out: &mut [u8],
        end: &mut McsEnd,
    ) -> u32
        ensures output { HandsOutput self.now.output result out.old out.new end.new }
        ensures answer { answer.new ≡ self.now.brought.answer }
        ensures records { FillsWith self.now.brought.records.items records.old records.new }
    {
        self.brought.hand_over(answer, records);
        self.hand_output(out, end)
    }
}

/// Writes as much as there is room for of the line of the step that an entry encodes, as `mcs_step`
/// reads it. Returns 0; 2 if the entry encodes no step, and the line has no bytes; 6 if an
/// allocation fails, and nothing is written.
#[unsafe(no_mangle)]
#[tactic(auto, using(crate::proofs::Stepped::spells))]
pub extern "C" fn mcs_step_line(
    alloc: Global,
    entry: &McsEntry,
    out: &mut [u8],
    end: &mut McsEnd,
) -> u32
    ensures { IsRefused result out.old out.new end.old end.new
        ⊎ Spells (step_said entry.now) result out.old out.new end.new }
{
    match spelled(alloc, entry) {
        Ok(handed) => handed.hand_over(out, end),
        Err(OutOfMemory) => NO_MEMORY,
    }
}

/// Takes the step that an entry encodes after a script whose end has not come, as `mcs_step` takes
/// its line, and writes its answer, and as many of its records as there is room for. The statuses
/// are those of `mcs_step`; 2 also if the entry encodes no step, and then nothing is taken.
#[unsafe(no_mangle)]
#[tactic(auto, using(crate::proofs::Stepped::enters))]
pub extern "C" fn mcs_step_entry(
    alloc: Global,
    script: &[u8],
    entry: &McsEntry,
    answer: &mut McsAnswer,
    records: &mut [McsRecord],
    out: &mut [u8],
    end: &mut McsEnd,
) -> u32
    ensures { IsRefusedAll result out.old out.new end.old end.new answer.old answer.new
        records.old records.new
        ⊎ Enters script.now (step_said entry.now) result out.old out.new end.new answer.new
        records.old records.new }
{
    match enter(alloc, script, entry) {
        Ok(entered) => entered.hand_over(answer, records, out, end),
        Err(OutOfMemory) => NO_MEMORY,
    }
}
