//! A script of steps, from bytes to bytes.
ghost use Rattle.std.specs.Prelude.{◌≡◌, ◌⊎◌, ◌<◌, ◌≤◌, ◌∷◌, [], ◌++◌, IfOk, IfErr, OnOk, Err, None};
ghost use Rattle.mcs_trace.specs.Output.{Rose, Puts, kept};
ghost use Rattle.mcs_sim.specs.Trace.{IsWrittenBy, IsWrittenUpTo, IsReadOfAny, unwritten_of};
ghost use Rattle.mcs_phases.specs.Feeds.{Takes, TakesPiece, HasNoNewline, answer_of, book_lent, IsFairBook, no_line, at_line};
ghost use Rattle.mcs_sim.specs.Runs.{Finished, EndedBy, TellsMore, WritesMore, HasFailed, answer_with};

use crate::feed::ReplayRun;
use crate::trace_text::{Written, put_read, put_unwritten};
use mcs_book::Book;
use mcs_phases::SimFault;
use mcs_source::{PIECE, Source};
use mcs_trace::Sink;
use mcs_types::OutOfMemory;
use memchr::memchr;
use std::alloc::Global;
use std::io::{Read, Write};
use std::marker::Model;

/// Writes what of a run's book was not written yet, if it has one.
#[tactic(auto, using(crate::proofs::TraceLaws::puts_nothing))]
fn put_more<W: Write>(to: &mut Sink<W>, written: &mut Written, run: &ReplayRun)
    requires written { IsWrittenUpTo written.old run.now.course.stands.book }
    ensures puts { Puts W.contents to.old to.new
        (unwritten_of written.old run.now.course.stands.book) }
    ensures written { IsWrittenBy written.new run.now.course.stands.book }
    ensures fair { IsFairBook run.now.course.stands.book }
{
    if let Some(book) = run.book() {
        put_unwritten(to, written, book);
    }
}

/// Writes what of a run's book was not written yet, if it has one; the step of a single new line
/// was read from this text.
#[tactic(auto, using(crate::proofs::TraceLaws::puts_nothing))]
fn put_line<W: Write>(to: &mut Sink<W>, written: &mut Written, run: &ReplayRun, text: &[u8])
    requires written { IsWrittenUpTo written.old run.now.course.stands.book }
    requires text { IsReadOfAny text.now written.old run.now.course.stands.book }
    ensures puts { Puts W.contents to.old to.new
        (unwritten_of written.old run.now.course.stands.book) }
    ensures written { IsWrittenBy written.new run.now.course.stands.book }
{
    if let Some(book) = run.book() {
        put_read(to, written, book, text);
    }
}

/// A replay of a script that comes in pieces, and writes its trace with each.
#[derive(Drop)]
pub struct TracedRun {
    run: ReplayRun,
    written: Written,
}

impl Model for TracedRun {
    ghost use Rattle.mcs_sim.specs.Trace.{IsWrittenBy};
    ghost use Rattle.mcs_phases.specs.Feeds.{FeedState};

    ghost Value = { FeedState };

    ghost view = { λ r. r.run };

    ghost invariant = { λ r. IsWrittenBy r.written r.run.course.stands.book };
}

impl TracedRun {
    /// Returns a replay of no bytes, with nothing written.
    pub fn new(alloc: Global) -> Result<TracedRun, OutOfMemory>
        ensures { IfOk result (λ r. r ≡ at_line no_line) }
    {
        let run = ReplayRun::new(alloc)?;
        Ok(TracedRun {
            run,
            written: Written::nothing(),
        })
    }

    /// Returns the book of the steps so far; None until the boot has ended, by the first step or
    /// the end of the input.
    pub fn book(&self) -> Option<&Book>
        ensures lent { book_lent result ≡ self.now.course.stands.book }
        ensures fair { IsFairBook self.now.course.stands.book }
    {
        self.run.book()
    }

    /// Takes the rest of a line and its newline, and writes what they add to the trace.
    fn end_line<W: Write>(
        &mut self,
        alloc: Global,
        part: &[u8],
        to: &mut Sink<W>,
    ) -> Result<(), SimFault>
        requires goes { self.old.course.fault ≡ None }
        requires one_line { HasNoNewline part.now }
        ensures takes { Takes self.old (part.now ++ 10 ∷ []) self.new }
        ensures puts { TellsMore W.contents to.old to.new self.old.course.stands.book
            self.new.course.stands.book }
        ensures answer { result ≡ answer_of self.new.course.fault }
    {
        if self.run.is_amid() {
            let taken = self.run.end_line(alloc, part);
            put_more(to, &mut self.written, &self.run);
            return taken;
        }
        let taken = self.run.take_line(alloc, part);
        put_line(to, &mut self.written, &self.run, part);
        taken
    }

    /// Takes a piece of a script, and writes after each of its lines what that adds to the trace;
    /// the text of a step is copied from its line.
    fn feed<W: Write>(
        &mut self,
        alloc: Global,
        piece: &[u8],
        to: &mut Sink<W>,
    ) -> Result<(), SimFault>
        requires goes { self.old.course.fault ≡ None }
        ensures takes { Takes self.old piece.now self.new }
        ensures puts { TellsMore W.contents to.old to.new self.old.course.stands.book
            self.new.course.stands.book }
        ensures answer { result ≡ answer_of self.new.course.fault }
    {
        let mut rest = piece;
        while let Some(i) = memchr(b'\n', rest) {
            self.end_line(alloc, &rest[..i], to)?;
            rest = &rest[i + 1..];
        }
        let taken = self.run.keep(rest);
        put_more(to, &mut self.written, &self.run);
        taken
    }

    /// Takes a piece of a script, or its end if the piece is empty, and writes what it adds to the
    /// trace.
    fn put_piece<W: Write>(
        &mut self,
        alloc: Global,
        piece: &[u8],
        to: &mut Sink<W>,
    ) -> Result<(), SimFault>
        ensures takes { TakesPiece self.old piece.now self.new }
        ensures puts { TellsMore W.contents to.old to.new self.old.course.stands.book
            self.new.course.stands.book }
        ensures answer { result ≡ answer_of self.new.course.fault }
    {
        if !piece.is_empty() && self.run.goes_on() {
            return self.feed(alloc, piece, to);
        }
        let taken = self.run.take_piece(alloc, piece);
        put_more(to, &mut self.written, &self.run);
        taken
    }

    /// Proves that the book is legal and fair, if there is one.
    fn is_fair(&self)
        ensures { IsFairBook self.now.course.stands.book }
    {
        let _ = self.run.book();
    }

    /// Takes a piece of a script, or its end if the piece is empty, and writes what it adds to the
    /// trace: the boot once that has ended, and each line of the book. So the trace of all lines so
    /// far is written before the caller reads the next piece. Fault `Write` if a call of the writer
    /// failed; else the fault of the script; even then the trace of the steps before that fault is
    /// written.
    pub fn take_piece<W: Write>(
        &mut self,
        alloc: Global,
        piece: &[u8],
        to: &mut Sink<W>,
    ) -> Result<(), SimFault>
        ensures takes { TakesPiece self.old piece.now self.new }
        ensures puts { TellsMore W.contents to.old to.new self.old.course.stands.book
            self.new.course.stands.book }
        ensures kept { kept to.new ≡ [] }
        ensures written { WritesMore W.contents to.old to.new self.old.course.stands.book
            self.new.course.stands.book ⊎ HasFailed to.old to.new }
        ensures answer { result ≡ answer_with to.new.is_broken self.new.course.fault }
        ensures fair { IsFairBook self.new.course.stands.book }
    {
        let taken = self.put_piece(alloc, piece, to);
        to.flush();
        self.is_fair();
        if to.is_broken() {
            return Err(SimFault::Write);
        }
        taken
    }
}

/// Replays a script as it comes, and writes its trace: the boot once that has ended, and each new
/// line of the book. Before each read, the trace of all lines read is written. After Ok the whole
/// trace is written, of a legal and fair book. If a line is faulty, the trace of the steps before
/// it is written, of such a book, and nothing if the fault is in the boot. After a read fault the
/// trace of the lines read is written; after any other fault a prefix of the trace of the steps.
/// BookFull comes only if the book is full at a step. Nothing is read after the piece of at most
/// 4,096 bytes that contains a fault. An interrupted read or write is retried at most 1,000 times
/// in a row; a write of no bytes is a fault.
pub fn simulate<R: Read, W: Write>(
    alloc: Global,
    from: &mut Source<R>,
    to: &mut Sink<W>,
) -> Result<(), SimFault>
    ensures ok { OnOk result (Finished R.remaining W.contents from.old from.new to.old to.new) }
    ensures err { IfErr result (EndedBy R.remaining W.contents from.old from.new to.old to.new) }
    ensures read_failed { result ≡ Err SimFault.Read → Rose from.old.failed from.new.failed }
    ensures write_failed { result ≡ Err SimFault.Write → Rose to.old.failed to.new.failed }
    ensures counts { (from.old.failed ≤ from.new.failed) × (to.old.failed ≤ to.new.failed) }
{
    to.start();
    let Ok(mut run) = TracedRun::new(alloc) else {
        return Err(SimFault::OutOfMemory);
    };
    let mut piece = [0; PIECE];
    loop {
        let Ok(n) = from.read_piece(&mut piece) else {
            return Err(SimFault::Read);
        };
        run.take_piece(alloc, &piece[..n], to)?;
        if n == 0 {
            return Ok(());
        }
    }
}
