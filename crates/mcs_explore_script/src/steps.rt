//! The steps of a book, as a script.
ghost use Rattle.std.specs.Prelude.{OnOk, reverse};
ghost use Rattle.std.specs.List.{flat_map};
ghost use Rattle.mcs_trace.specs.Output.{Puts};
ghost use Rattle.mcs_sim.specs.Runs.{Writes};
ghost use Rattle.mcs_explore_script.specs.Steps.{script_text, step_lines};

use mcs_book::{Book, Line};
use mcs_lab_check::LabFault;
use mcs_sim::put_boot;
use mcs_trace::{Sink, put_cores, put_kept_answer, put_kept_step};
use std::io::Write;

/// Writes the step of a line of the book, and its answer.
fn put_line<W: Write>(sink: &mut Sink<W>, line: &Line<'_>)
    ensures { Puts W.contents sink.old sink.new (step_lines line.now) }
{
    put_kept_step(sink, &line.kept_step());
    put_kept_answer(sink, &line.kept_answer());
}

/// Writes the steps of a book, each with its answer.
fn put_lines<W: Write>(sink: &mut Sink<W>, book: &Book)
    ensures { Puts W.contents sink.old sink.new
        (flat_map step_lines (reverse book.now.book.lines)) }
{
    for number in 1..book.lines() {
        match book.line(number) {
            Some(line) => put_line(sink, &line),
            None => unreachable!(),
        }
    }
}

/// Writes the boot and the steps of a book, each with its answer.
#[tactic(auto, unfolding(crate::specs::Steps::script_text))]
fn put_script<W: Write>(sink: &mut Sink<W>, book: &Book)
    ensures { Puts W.contents sink.old sink.new (script_text book.now.book) }
{
    put_cores(sink, book.cores());
    put_boot(sink, book.boot());
    put_lines(sink, book);
}

/// Writes the boot and the steps of a book to a sink, each step with its answer. Bytes that the
/// sink had buffered are dropped first. `OutOfMemory` if the writer failed; then a part is written.
pub fn write_steps<W: Write>(sink: &mut Sink<W>, book: &Book) -> Result<(), LabFault>
    ensures { OnOk result (Writes W.contents sink.old sink.new (script_text book.now.book)) }
{
    sink.start();
    put_script(sink, book);
    sink.flush();
    if sink.is_broken() {
        return Err(LabFault::OutOfMemory);
    }
    Ok(())
}
