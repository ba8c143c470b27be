//! Checks whether the calls of seats agree with a book, by one replay of the book for all of them
//! (own).
ghost use Rattle.std.specs.Prelude.{◌≡◌, ◌==◌, ◌≤◌, ◌+◌, ◌-◌, true, All, IfOk, IfNone, IfSome, OnOk, IsTrue, ◌↔◌, Some, drop, length, map};
ghost use Rattle.mcs_book.specs.History.{line_of_number};
ghost use Rattle.mcs_kernel.specs.Faults.{fault_of};
ghost use Rattle.mcs_seats.specs.Settling.{noted_line, entered_note, cut, AllAgree, HasTorn};
ghost use Rattle.mcs_seats.specs.Trails.{IsKernelBook, IsLineAt, IsBeside, place_of, trail_of, past_line, AreRightTo, IsLater, IsReady, IsProgress, AllRight, IsTornOf, HasTornTrail};

use crate::call::{Answered, Call, Outcome};
use crate::seat::CoreSeat;
use mcs_book::{Book, Line};
use mcs_kernel::{Boot, EnterFault, Kernel};
use mcs_queues::Lines;
use mcs_types::{Answer, CoreId, ObjId, OutOfMemory, Step};
use std::alloc::Global;
use std::marker::Model;
use std::sync::ledger::Ledger;

/// The step and the answer of a line, as copies.
#[derive(Drop)]
struct LineCopy {
    step: Step,
    answer: Answer,
}

impl LineCopy {
    /// Copies a line. `OutOfMemory` if an allocation fails.
    fn new(alloc: Global, line: &Line<'_>) -> Result<LineCopy, OutOfMemory>
        ensures step { IfOk result (λ c. c.step ≡ line.now.step) }
        ensures answer { IfOk result (λ c. c.answer ≡ line.now.answer) }
    {
        Ok(LineCopy {
            step: line.step(alloc)?,
            answer: line.answer(alloc)?,
        })
    }
}

/// A replay of a book, line by line; the lines before line `at` were made again. Clauses see the
/// book and that number.
#[derive(Drop)]
struct Retrace<'a, L: Lines> {
    book: &'a Book,
    replay: Kernel<L>,
    at: usize,
}

impl<'a, L: Lines> Model for Retrace<'a, L> {
    ghost use Rattle.mcs_seats.specs.Trails.{Place, IsKernelBook, StandsAt};

    ghost Value = { Place };

    ghost view = { λ r. record { book = r.book.now.book; at = r.at } };

    ghost invariant = { λ r. IsKernelBook r.book.now.book
        × StandsAt r.book.now.book r.replay r.at };
}

impl<'a, L: Lines> Retrace<'a, L> {
    /// Returns a replay before the first line after the boot.
    fn new(alloc: Global, book: &'a Book, boot: &Boot) -> Result<Retrace<'a, L>, OutOfMemory>
        requires kept { IsKernelBook book.now.book }
        requires boot { book.now.book.boot ≡ boot.now }
        ensures { IfOk result (λ r. r ≡ record { book = book.now.book; at = 1 }) }
    {
        Ok(Retrace {
            book,
            replay: Kernel::new(alloc, boot)?,
            at: 1,
        })
    }

    /// Returns why an entry would be skipped before the next line.
    fn fault(&self, core: CoreId, thread: ObjId) -> Option<EnterFault>
        ensures found { result ≡ fault_of (cut self.now.book (self.now.at - 1)) core thread }
        ensures within { self.now.at ≤ length self.now.book.lines + 1 }
    {
        self.replay.fault(core, thread)
    }

    /// Makes the next line again.
    fn make_line(&mut self, alloc: Global, line: &LineCopy) -> Result<(), OutOfMemory>
        requires { IsLineAt self.old line.now }
        ensures { OnOk result (self.new ≡ record self.old { at = self.old.at + 1 }) }
    {
        match self.replay.admit(alloc, &line.step) {
            Ok(_) => {
                self.at += 1;
                Ok(())
            }
            // It was accepted before, so only an allocation can fail.
            Err(_) => Err(OutOfMemory),
        }
    }
}

/// How far the calls of a seat agree with the book.
#[derive(Clone, Copy)]
pub(crate) enum Progress {
    /// This many agree; of the others none was skipped before the next line.
    Right(usize),
    /// The call with this number, counted from 1, is the first that does not agree; one more than
    /// there are, if the core has more lines.
    Torn(usize),
}

/// The calls of a seat, compared with a book up to line `at`. Clauses see the book, the core, the
/// calls and that number.
#[derive(Drop)]
struct Follower<'a> {
    book: &'a Book,
    core: CoreId,
    calls: &'a [Call],
    at: usize,
    progress: Progress,
}

impl<'a> Model for Follower<'a> {
    ghost use Rattle.mcs_seats.specs.Trails.{Trail, IsKernelBook, IsFollowed};

    ghost Value = { Trail };

    ghost view = { λ f. record {
      book = f.book.now.book;
      core = f.core;
      calls = f.calls.now;
      at = f.at;
    } };

    ghost invariant = { λ f. IsFollowed f.book.now.book f.core f.calls.now f.at f.progress };
}

/// Returns whether both faults are the same.
fn is_same_fault(found: Option<EnterFault>, fault: EnterFault) -> bool
    ensures { IsTrue result ↔ (found ≡ Some fault) }
{
    found == Some(fault)
}

/// Returns whether a call was reported this line with this number.
fn is_noted(number: usize, line: &LineCopy, call: &Call, answered: &Answered) -> bool
    ensures { IsTrue result
        ↔ (noted_line number line.now.step line.now.answer ≡ entered_note call.now answered.now) }
{
    answered.line == number
        && line.step.thread == call.thread
        && line.step.entry.is_same(&call.entry)
        && line.answer.is_same(&answered.answer)
}

impl<'a> Follower<'a> {
    /// Returns a follower before the first line after the boot.
    fn new<G: Ledger>(book: &'a Book, seat: &'a CoreSeat<G>) -> Follower<'a>
        requires { IsKernelBook book.now.book }
        ensures { result ≡ trail_of book.now.book 1 seat.now }
    {
        Follower {
            book,
            core: seat.core(),
            calls: seat.calls(),
            at: 1,
            progress: Progress::Right(0),
        }
    }

    /// Returns how far the calls agree after those that were skipped before the next line.
    fn follow_away<L: Lines>(&self, retrace: &Retrace<'_, L>) -> Progress
        requires { IsBeside retrace.now self.now }
        ensures { IsReady self.now result }
    {
        let count = match self.progress {
            Progress::Right(count) => count,
            Progress::Torn(n) => return Progress::Torn(n),
        };
        for i in count..self.calls.len() {
            let call = &self.calls[i];
            match &call.outcome {
                Outcome::Entered(_) => return Progress::Right(i),
                Outcome::Away { lines, fault } => {
                    if self.at < *lines {
                        return Progress::Right(i);
                    }
                    if *lines < self.at {
                        return Progress::Torn(i + 1);
                    }
                    if !is_same_fault(retrace.fault(self.core, call.thread), *fault) {
                        return Progress::Torn(i + 1);
                    }
                }
            }
        }
        Progress::Right(self.calls.len())
    }

    /// Returns how far the calls agree after the next line, which is of this core: the next call
    /// must have it.
    fn follow_own(&self, count: usize, line: &LineCopy) -> Progress
        requires right { AreRightTo self.now count }
        requires later { IsLater self.now.at (drop count self.now.calls) }
        requires line { IsLineAt (place_of self.now) line.now }
        requires own { (line.now.step.core.0 == self.now.core.0) ≡ true }
        ensures { IsProgress (past_line self.now) result }
    {
        let Some(call) = self.calls.get(count) else {
            return Progress::Torn(count + 1);
        };
        match &call.outcome {
            Outcome::Away { .. } => Progress::Torn(count + 1),
            Outcome::Entered(answered) => {
                if is_noted(self.at, line, call, answered) {
                    Progress::Right(count + 1)
                } else {
                    Progress::Torn(count + 1)
                }
            }
        }
    }

    /// Returns how far the calls agree with the book up to and including its next line.
    fn follow_line(&self, count: usize, line: &LineCopy) -> Progress
        requires right { AreRightTo self.now count }
        requires later { IsLater self.now.at (drop count self.now.calls) }
        requires line { IsLineAt (place_of self.now) line.now }
        ensures { IsProgress (past_line self.now) result }
    {
        if line.step.core == self.core {
            return self.follow_own(count, line);
        }
        Progress::Right(count)
    }

    /// Compares with the book the calls that were skipped before its next line, and the call of
    /// that line if it is of this core; then advances past the line.
    fn pass_line<L: Lines>(&mut self, retrace: &Retrace<'_, L>, line: &LineCopy)
        requires beside { IsBeside retrace.now self.old }
        requires line { IsLineAt retrace.now line.now }
        ensures { self.new ≡ past_line self.old }
    {
        self.progress = match self.follow_away(retrace) {
            Progress::Right(count) => self.follow_line(count, line),
            Progress::Torn(n) => Progress::Torn(n),
        };
        self.at += 1;
    }

    /// Returns the number of the first call that does not agree with the book, after its last line.
    fn torn_call<L: Lines>(&self, retrace: &Retrace<'_, L>) -> Option<usize>
        requires beside { IsBeside retrace.now self.now }
        requires end { retrace.now.at ≡ length retrace.now.book.lines + 1 }
        ensures none { IfNone result (AllRight self.now) }
        ensures torn { IfSome result (IsTornOf self.now) }
    {
        match self.follow_away(retrace) {
            Progress::Torn(n) => Some(n),
            Progress::Right(count) => {
                if count < self.calls.len() {
                    Some(count + 1)
                } else {
                    None
                }
            }
        }
    }
}

/// Returns a follower for each seat, before the first line after the boot.
fn followers<'a, G: Ledger>(
    alloc: Global,
    book: &'a Book,
    seats: &'a Vec<CoreSeat<G>>,
) -> Result<Vec<Follower<'a>>, OutOfMemory>
    requires { IsKernelBook book.now.book }
    ensures { IfOk result (λ v. v.items ≡ map (trail_of book.now.book 1) seats.now.items) }
{
    let mut followers = Vec::with_capacity(alloc, seats.len())?;
    for seat in seats {
        match followers.push(Follower::new(book, seat)) {
            Ok(()) => {}
            Err(_) => unreachable!(),
        }
    }
    Ok(followers)
}

/// Advances all followers past the next line.
fn pass_all<L: Lines>(followers: &mut Vec<Follower<'_>>, retrace: &Retrace<'_, L>, line: &LineCopy)
    requires beside { All (IsBeside retrace.now) followers.old.items }
    requires line { IsLineAt retrace.now line.now }
    ensures { followers.new.items ≡ map past_line followers.old.items }
{
    for follower in followers.iter_mut() {
        follower.pass_line(retrace, line);
    }
}

/// Advances all followers past the next line, and makes the line again.
fn pass_next<L: Lines>(
    alloc: Global,
    followers: &mut Vec<Follower<'_>>,
    retrace: &mut Retrace<'_, L>,
    line: &Line<'_>,
) -> Result<(), OutOfMemory>
    requires beside { All (IsBeside retrace.old) followers.old.items }
    requires line { line_of_number retrace.old.book retrace.old.at ≡ Some line.now }
    ensures followed { OnOk result (followers.new.items ≡ map past_line followers.old.items) }
    ensures made { OnOk result (retrace.new ≡ record retrace.old { at = retrace.old.at + 1 }) }
{
    let line = LineCopy::new(alloc, line)?;
    pass_all(followers, retrace, &line);
    retrace.make_line(alloc, &line)
}

/// Returns the core of the first follower whose calls do not agree with the book, and the number of
/// the first such call; all followers are past the last line.
fn torn_follower<L: Lines>(
    followers: &Vec<Follower<'_>>,
    retrace: &Retrace<'_, L>,
) -> Option<(CoreId, usize)>
    requires beside { All (IsBeside retrace.now) followers.now.items }
    requires end { retrace.now.at ≡ length retrace.now.book.lines + 1 }
    ensures none { IfNone result (All AllRight followers.now.items) }
    ensures torn { IfSome result (λ t. HasTornTrail followers.now.items t.0 t.1) }
{
    for follower in followers {
        if let Some(n) = follower.torn_call(retrace) {
            return Some((follower.core, n));
        }
    }
    None
}

/// Returns the first seat whose calls do not agree with a book, by its core and the number of the
/// first such call. One replay compares all seats: before each line the calls that were skipped
/// there, and then the line with the next call of its core.
pub(crate) fn first_torn<G: Ledger, L: Lines>(
    alloc: Global,
    book: &Book,
    boot: &Boot,
    seats: &Vec<CoreSeat<G>>,
) -> Result<Option<(CoreId, usize)>, OutOfMemory>
    requires kept { IsKernelBook book.now.book }
    requires boot { book.now.book.boot ≡ boot.now }
    ensures none { IfOk result (λ o. IfNone o (AllAgree book.now.book seats.now.items)) }
    ensures torn { IfOk result (λ o. IfSome o
        (λ t. HasTorn book.now.book seats.now.items t.0 t.1)) }
{
    let mut followers = followers(alloc, book, seats)?;
    let mut retrace: Retrace<'_, L> = Retrace::new(alloc, book, boot)?;
    for at in 1..book.lines() {
        match book.line(at) {
            None => unreachable!(),
            Some(line) => pass_next(alloc, &mut followers, &mut retrace, &line)?,
        }
    }
    Ok(torn_follower(&followers, &retrace))
}
