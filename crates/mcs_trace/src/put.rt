//! Writes lines of a book into a sink.
ghost use Rattle.std.specs.Prelude.{◌≡◌, ◌<◌, ◌∷◌, [], ◌++◌, length};
ghost use Rattle.mcs_text.specs.Table.{cores_text, boot_text, step_text, answer_text, record_text};
ghost use Rattle.mcs_trace.specs.Output.{Puts};

use crate::read_lines::ReadStep;
use crate::records::{write_kept, write_kept_answer};
use crate::rooms::LINE;
use crate::sink::Sink;
use crate::steps::write_kept_step;
use mcs_packing::{KeptAnswer, KeptRecord, KeptStep, id_of};
use mcs_text::{Entrant, Key};
use mcs_types::BootLine;
use std::io::Write;

/// Writes the first line of the boot.
#[tactic(auto, using(crate::proofs::Outputs::puts_line_then))]
pub fn put_cores<W: Write>(sink: &mut Sink<W>, cores: u8)
    ensures { Puts W.contents sink.old sink.new (cores_text cores) }
{
    sink.make_room();
    sink.line.numbered(Key::Cores, cores as u64);
}

/// Writes another line of the boot.
#[tactic(auto, using(crate::proofs::Outputs::puts_line_then))]
pub fn put_boot_line<W: Write>(sink: &mut Sink<W>, line: &BootLine)
    ensures { Puts W.contents sink.old sink.new (boot_text line.now) }
{
    sink.make_room();
    sink.line.boot_line(line);
}

/// Writes the line of a step.
#[tactic(auto, using(crate::proofs::Outputs::puts_line_then))]
#[inline(always)]
pub fn put_kept_step<W: Write>(sink: &mut Sink<W>, step: &KeptStep<'_>)
    ensures { Puts W.contents sink.old sink.new (step_text step.now) }
{
    sink.make_room();
    let from = Entrant {
        core: step.core,
        thread: id_of(step.kind, step.serial),
    };
    write_kept_step(&mut sink.line, from, step.entry, step.words);
}

/// Writes a line that is spelled already, and its newline.
#[tactic(auto, using(crate::proofs::Outputs::puts_line_then))]
#[inline(always)]
pub fn put_spelled<W: Write>(sink: &mut Sink<W>, line: &[u8])
    requires { length line.now < LINE }
    ensures { Puts W.contents sink.old sink.new (line.now ++ 10 ∷ []) }
{
    sink.make_room();
    sink.line.spelled(line);
}

/// Writes the line of an answer.
#[tactic(auto, using(crate::proofs::Outputs::puts_line_then))]
// inlined: most answers are one word, and the end of the line need not be read back
#[inline(always)]
pub fn put_kept_answer<W: Write>(sink: &mut Sink<W>, answer: &KeptAnswer<'_>)
    ensures { Puts W.contents sink.old sink.new (answer_text answer.now) }
{
    sink.make_room();
    write_kept_answer(&mut sink.line, answer.form, answer.at, answer.words);
}

/// Writes the line of a record, before which `sent` messages were sent. If it has the message of
/// this step, whose line was read, the text is copied from there.
#[tactic(auto, using(crate::proofs::Outputs::puts_line_then))]
#[inline(always)]
pub fn put_read_record<W: Write>(
    sink: &mut Sink<W>,
    sent: u128,
    fact: &KeptRecord<'_>,
    read: Option<&ReadStep<'_>>,
)
    ensures { Puts W.contents sink.old sink.new (record_text sent fact.now) }
{
    sink.make_room();
    write_kept(
        &mut sink.line,
        sent,
        fact.packed,
        fact.words,
        fact.wide,
        read,
    );
}

/// Writes the line of a record without a step that was read.
#[inline(always)]
pub fn put_kept_record<W: Write>(sink: &mut Sink<W>, sent: u128, fact: &KeptRecord<'_>)
    ensures { Puts W.contents sink.old sink.new (record_text sent fact.now) }
{
    put_read_record(sink, sent, fact, None);
}
