//! The trace of a book.
ghost use Rattle.std.specs.Prelude.{◌≡◌, ◌+◌, ◌-◌, ◌*◌, ◌^◌, ◌<◌, ◌≤◌, ◌∷◌, [], ◌++◌, OnOk, OnErr, length, Err, None};
ghost use Rattle.mcs_text.specs.Table.{step_text};
ghost use Rattle.mcs_trace.specs.Output.{Puts, Rose};
ghost use Rattle.mcs_sim.specs.Trace.{sent_with, sent_after, sent_in, boot_lines_trace, records_trace, line_trace, lines_trace, trace, unwritten_lines, unwritten_boot, unwritten, all_written, written_of, IsWrittenOf, IsReadOf};
ghost use Rattle.mcs_sim.specs.Runs.{Writes, WritesPart};

use mcs_book::{Book, Line};
use mcs_packing::KeptRecord;
use mcs_phases::SimFault;
use mcs_trace::{
    LINE, ReadStep, Sink, put_boot_line, put_cores, put_kept_answer, put_kept_step,
    put_read_record, put_spelled,
};
use mcs_types::BootLine;
use std::io::Write;

/// Writes the lines of a boot after its first.
pub fn put_boot<W: Write>(sink: &mut Sink<W>, lines: &[BootLine])
    ensures { Puts W.contents sink.old sink.new (boot_lines_trace lines.now) }
{
    for line in lines {
        put_boot_line(sink, line);
    }
}

/// Returns how many messages were sent after one more record.
#[tactic(auto, using(crate::proofs::TraceLaws::sent_with_more))]
fn count_sent(sent: u128, fact: &KeptRecord<'_>) -> u128
    requires { sent + 1 < 2 ^ 128 }
    ensures { result ≡ sent_with sent fact.now }
{
    if fact.is_sent() { sent + 1 } else { sent }
}

/// Writes the records of a line before which `sent` messages were sent, and returns how many were
/// sent after it. The text of a message is copied from its step's line, if that was read.
#[inline(always)]
fn put_records<W: Write>(
    sink: &mut Sink<W>,
    sent: u128,
    line: &Line<'_>,
    read: Option<&ReadStep<'_>>,
) -> u128
    requires { sent + 2 ^ 64 < 2 ^ 128 }
    ensures puts { Puts W.contents sink.old sink.new (records_trace sent line.now.records) }
    ensures sent { result ≡ sent_after sent line.now.records }
    ensures few { result ≤ sent + 2 ^ 64 }
{
    let mut count = sent;
    for i in 0..line.record_count() {
        match line.kept_record(i) {
            Some(fact) => {
                put_read_record(sink, count, &fact, read);
                count = count_sent(count, &fact);
            }
            None => unreachable!(),
        }
    }
    count
}

/// Writes a line. `sent` counts the messages sent before it; returns the count after it.
#[inline(always)]
fn put_book_line<W: Write>(sink: &mut Sink<W>, sent: u128, line: &Line<'_>) -> u128
    requires { sent + 2 ^ 64 < 2 ^ 128 }
    ensures puts { Puts W.contents sink.old sink.new (line_trace sent line.now) }
    ensures sent { result ≡ sent_after sent line.now.records }
    ensures few { result ≤ sent + 2 ^ 64 }
{
    put_kept_step(sink, &line.kept_step());
    put_kept_answer(sink, &line.kept_answer());
    put_records(sink, sent, line, None)
}

/// Writes a line before which `sent` messages were sent, and whose step was read from this text, as
/// `put_book_line` does.
#[inline(always)]
fn put_read_line<W: Write>(sink: &mut Sink<W>, sent: u128, line: &Line<'_>, text: &[u8]) -> u128
    requires few { sent + 2 ^ 64 < 2 ^ 128 }
    requires text { step_text line.now.step ≡ text.now ++ 10 ∷ [] }
    requires short { length text.now < LINE }
    ensures puts { Puts W.contents sink.old sink.new (line_trace sent line.now) }
    ensures sent { result ≡ sent_after sent line.now.records }
    ensures few { result ≤ sent + 2 ^ 64 }
{
    put_spelled(sink, text);
    put_kept_answer(sink, &line.kept_answer());
    let read = ReadStep {
        step: line.kept_step(),
        line: text,
    };
    put_records(sink, sent, line, Some(&read))
}

/// How much of a book's trace was written: how many of its lines, the boot's included, and how many
/// messages were sent in them.
#[derive(Clone, Copy)]
pub struct Written {
    lines: usize,
    sent: u128,
}

impl Written {
    /// Returns that nothing was written.
    pub fn nothing() -> Written
        ensures { result ≡ written_of None }
    {
        Written { lines: 0, sent: 0 }
    }
}

/// Writes the lines after those already written, and returns how many messages were sent in all of
/// them.
// inlined, as what it calls: the parts of a packed line stay in registers
#[inline(always)]
fn put_lines<W: Write>(sink: &mut Sink<W>, written: Written, book: &Book) -> u128
    requires fits { written.sent ≤ (written.lines - 1) * 2 ^ 64 }
    requires few { written.lines ≤ length book.now.book.lines + 1 }
    ensures puts { Puts W.contents sink.old sink.new
        (lines_trace written.sent (unwritten_lines written book.now.book)) }
    ensures sent { result ≡ sent_in written.sent (unwritten_lines written book.now.book) }
    ensures fits { result ≤ length book.now.book.lines * 2 ^ 64 }
{
    // a book of 2 to the 64 lines, with as many records in each, would fill this count
    let mut sent = written.sent;
    for i in written.lines.max(1)..book.lines() {
        match book.line(i) {
            Some(line) => sent = put_book_line(sink, sent, &line),
            None => unreachable!(),
        }
    }
    sent
}

/// Writes the lines of the boot, if nothing was written yet.
fn put_unwritten_boot<W: Write>(sink: &mut Sink<W>, written: Written, book: &Book)
    ensures { Puts W.contents sink.old sink.new (unwritten_boot written book.now.book) }
{
    if written.lines != 0 {
        return;
    }
    put_cores(sink, book.cores());
    put_boot(sink, book.boot());
}

/// Writes what of a book's trace was not written yet.
#[tactic(auto, unfolding(crate::specs::Trace::unwritten))]
pub fn put_unwritten<W: Write>(sink: &mut Sink<W>, written: &mut Written, book: &Book)
    requires written { IsWrittenOf written.old book.now.book }
    ensures puts { Puts W.contents sink.old sink.new (unwritten written.old book.now.book) }
    ensures written { written.new ≡ all_written book.now.book }
    ensures fits { written.new.sent ≤ (written.new.lines - 1) * 2 ^ 64 }
{
    put_unwritten_boot(sink, *written, book);
    written.sent = put_lines(sink, *written, book);
    written.lines = book.lines();
}

/// Writes what of a book's trace was not written yet, as `put_unwritten` does. If the book has a
/// single new line, its step was read from this text, which is copied.
#[tactic(auto, unfolding(crate::specs::Trace::unwritten))]
pub fn put_read<W: Write>(sink: &mut Sink<W>, written: &mut Written, book: &Book, text: &[u8])
    requires written { IsWrittenOf written.old book.now.book }
    requires text { IsReadOf text.now written.old book.now.book }
    ensures puts { Puts W.contents sink.old sink.new (unwritten written.old book.now.book) }
    ensures written { written.new ≡ all_written book.now.book }
    ensures fits { written.new.sent ≤ (written.new.lines - 1) * 2 ^ 64 }
{
    if written.lines == 0 || book.lines() - 1 != written.lines || text.len() >= LINE {
        put_unwritten(sink, written, book);
        return;
    }
    match book.line(written.lines) {
        Some(line) => {
            written.sent = put_read_line(sink, written.sent, &line, text);
            written.lines = book.lines();
        }
        None => unreachable!(),
    }
}

/// Writes the trace of a book: its boot, and then for each line its step, its answer and its
/// records. Bytes that the sink had buffered are dropped first. It fails only if the writer does.
pub fn trace<W: Write>(book: &Book, sink: &mut Sink<W>) -> Result<(), SimFault>
    ensures ok { OnOk result (Writes W.contents sink.old sink.new (trace book.now.book)) }
    ensures err { OnErr result (WritesPart W.contents sink.old sink.new (trace book.now.book)) }
    ensures fault { OnErr result (result ≡ Err SimFault.Write) }
    ensures rose { OnErr result (Rose sink.old.failed sink.new.failed) }
    ensures count { sink.old.failed ≤ sink.new.failed }
{
    sink.start();
    put_unwritten(sink, &mut Written::nothing(), book);
    sink.flush();
    if sink.is_broken() {
        return Err(SimFault::Write);
    }
    Ok(())
}
