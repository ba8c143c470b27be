//! Judges the expectations of a script, line by line.
ghost use Rattle.std.specs.Prelude.{◌≡◌, ◌+◌, ◌-◌, ◌^◌, ◌<◌, ◌≤◌, ◌++◌, ◌∷◌, [], IfOk, OnOk, IfSome, length, take, drop, option_map};
ghost use Rattle.mcs_book.specs.History.{line_of_number};
ghost use Rattle.mcs_phases.specs.Feeds.{fed};
ghost use Rattle.mcs_sim.specs.Trace.{sent_with};
ghost use Rattle.mcs_text.specs.Reading.{words_of};
ghost use Rattle.mcs_lab_check.specs.Asking.{asked_of};
ghost use Rattle.mcs_lab_check.specs.Verdicts.{line_count, sent_count, newest, is_answer, answers_so, found_from, found_in, found, entrant_in, reason, away_text, was_away, says_so};
ghost use Rattle.mcs_lab_check.specs.Checked.{unread, book_of, fed_line, last_of, stepped, with_found, is_so, answered, question_text, remarked, judged};

use crate::fault::LabFault;
use crate::last::{Last, LineResult};
use crate::questions::{Asked, Question, asked_of};
use crate::seen_answers::see;
use crate::text::Text;
use crate::words::{number_of, object_of};
use mcs_book::Line;
use mcs_kernel::{EnterFault, Kernel};
use mcs_packing::KeptRecord;
use mcs_queues::LinkedLines;
use mcs_sim::ReplayRun;
use mcs_text::Words;
use mcs_types::{CoreId, ObjId};
use std::alloc::Global;
use std::marker::Model;

/// Returns how many lines a book has after its boot.
fn count_lines(run: &ReplayRun) -> usize
    ensures { result ≡ line_count run.now.course.stands.book }
{
    let Some(kernel) = run.kernel() else {
        return 0;
    };
    kernel.book().lines() - 1
}

/// Returns how many messages were sent.
fn count_sent(run: &ReplayRun) -> u32
    ensures { result ≡ sent_count run.now.course.stands.book }
{
    let Some(kernel) = run.kernel() else {
        return 0;
    };
    kernel.sent()
}

/// The newest line of the book.
fn newest(run: &ReplayRun) -> Option<Line<'_>>
    ensures { result ≡ newest run.now.course.stands.book }
{
    let book = run.kernel()?.book();
    book.line(book.lines() - 1)
}

/// Compares the answer of a line with a text: true if it is spelled so.
fn is_answer(seen: &mut Text, line: Option<Line<'_>>, text: &[u8]) -> bool
    ensures holds { result ≡ is_answer line.entry text.now }
    ensures same { seen.new ≡ seen.old }
{
    let Some(line) = line else {
        return false;
    };
    seen.is_answer(&line.kept_answer(), text)
}

/// Returns how many messages were sent after one more record.
pub fn with_sent(sent: u128, fact: &KeptRecord<'_>) -> u128
    requires { sent + 1 < 2 ^ 128 }
    ensures { result ≡ sent_with sent fact.now }
{
    if fact.is_sent() { sent + 1 } else { sent }
}

/// Finds the first record that is spelled so. Returns the index after it, and how many messages
/// were sent before that index.
fn found_from(
    seen: &mut Text,
    line: &Line<'_>,
    next: usize,
    sent: u128,
    text: &[u8],
) -> Option<(usize, u128)>
    requires { sent + 2 ^ 64 < 2 ^ 128 + next }
    ensures found { result ≡ found_from next sent (drop next line.now.records) text.now }
    ensures few { IfSome result (λ at. at.1 + next ≤ sent + at.0) }
    ensures same { seen.new ≡ seen.old }
{
    let mut count = sent;
    for i in next..line.record_count() {
        let Some(fact) = line.kept_record(i) else {
            unreachable!();
        };
        let is_it = seen.is_record(count, &fact, text);
        count = with_sent(count, &fact);
        if is_it {
            return Some((i + 1, count));
        }
    }
    None
}

/// Returns the core and the thread at the beginning of a step's line.
pub fn entrant_of(step: &[u8]) -> Option<(CoreId, ObjId)>
    ensures { result ≡ entrant_in (words_of step.now) }
{
    let mut words = Words::new(step);
    let core = words.next_word()?;
    let thread = words.next_word()?;
    let core = number_of(core)?;
    let thread = object_of(thread)?;
    if core > u8::MAX as u32 {
        return None;
    }
    Some((CoreId(core as u8), thread))
}

/// Appends the text for a skipped step.
fn put_away(to: &mut Text, reason: Option<EnterFault>) -> Result<(), LabFault>
    ensures { OnOk result (to.new ≡ to.old ++ away_text reason) }
{
    match reason {
        Some(EnterFault::NotRunning) => to.put(b"away NotRunning"),
        Some(EnterFault::NoContext) => to.put(b"away NoContext"),
        Some(EnterFault::WrongCore) => to.put(b"away WrongCore"),
        Some(EnterFault::BookFull | EnterFault::OutOfMemory) | None => to.put(b"away"),
    }
}

/// Returns the text after `#? ` of a line, without the newline.
fn question_text(text: &[u8]) -> Option<&[u8]>
    ensures { option_map (λ t. t.now) result ≡ question_text text.now }
{
    match text {
        [b'#', b'?', b' ', asked @ ..] => Some(&asked[..asked.len().saturating_sub(1)]),
        _ => None,
    }
}

/// The judge of a script: its replay, its last step, and what was seen last.
#[derive(Drop)]
pub struct Judge {
    run: ReplayRun,
    last: Last,
    step: Vec<u8>,
    seen: Text,
    sent_before: u32,
    lines: u64,
    step_line: u64,
}

impl Model for Judge {
    ghost use Rattle.std.specs.Prelude.{ℕ, ◌+◌, ◌^◌, ◌≤◌};
    ghost use Rattle.mcs_lab_check.specs.Checked.{Checked};
    ghost use Rattle.mcs_lab_check.specs.Lasts.{IsCounted};

    ghost Value = { Checked };

    ghost view = { λ j. record { run = j.run; last = j.last; step = j.step.items } };

    ghost invariant = { λ j. IsCounted j.last };
}

impl Judge {
    /// Returns the judge before the first line.
    pub fn new(alloc: Global) -> Result<Judge, LabFault>
        ensures { IfOk result (λ j. j ≡ unread) }
    {
        let Ok(run) = ReplayRun::new(alloc) else {
            return Err(LabFault::OutOfMemory);
        };
        Ok(Judge {
            run,
            last: Last::NoStep,
            step: Vec::new(alloc),
            seen: Text::new(alloc)?,
            sent_before: 0,
            lines: 0,
            step_line: 0,
        })
    }

    /// Returns the number of the last line, counted from 1.
    pub fn line(&self) -> u64 {
        self.lines
    }

    /// The number of the line of the last step, and that line.
    pub fn step(&self) -> (u64, &[u8]) {
        (self.step_line, self.step.as_slice())
    }

    /// Returns whether the last step was accepted or skipped.
    pub fn last(&self) -> Last
        ensures { result ≡ self.now.last }
    {
        self.last
    }

    /// Returns what was seen instead of what the last line expects.
    pub fn seen(&self) -> &[u8] {
        self.seen.text()
    }

    /// Returns the kernel after the last line; None before the boot has ended.
    pub fn kernel(&self) -> Option<&Kernel<LinkedLines>> {
        self.run.kernel()
    }

    /// Returns the book's line of the last step, if it was accepted, and how many messages were
    /// sent before it.
    pub fn entered(&self) -> Option<(Line<'_>, u128)> {
        match self.last {
            Last::LetIn { .. } => Some((newest(&self.run)?, self.sent_before as u128)),
            Last::NoStep | Last::Away => None,
        }
    }

    /// Feeds a line to the replay.
    #[tactic(auto, using(crate::proofs::Feeding::fed_whole))]
    fn feed(&mut self, alloc: Global, text: &[u8]) -> Result<(), LabFault>
        ensures { OnOk result (self.new ≡ fed_line self.old text.now) }
    {
        self.lines = self.lines.saturating_add(1);
        match self.run.feed(alloc, text) {
            Ok(()) => Ok(()),
            Err(fault) => Err(LabFault::from(fault)),
        }
    }

    /// Ends the input, and with it the boot, if there was no step.
    pub fn end(&mut self, alloc: Global) -> Result<(), LabFault> {
        match self.run.end(alloc) {
            Ok(()) => Ok(()),
            Err(fault) => Err(LabFault::from(fault)),
        }
    }

    /// Compares the answer of the last step with a text: true if it is spelled so.
    fn answers_so(&mut self, text: &[u8]) -> bool
        ensures holds { result ≡ answers_so self.old.last (newest (book_of self.old)) text.now }
        ensures same { self.new ≡ self.old }
    {
        match self.last {
            Last::LetIn { .. } => is_answer(&mut self.seen, newest(&self.run), text),
            Last::NoStep | Last::Away => false,
        }
    }

    /// Finds the first record of the last step that is spelled so, after those already matched.
    /// Returns the index after it, and how many messages were sent before that index.
    fn found(&mut self, text: &[u8]) -> Option<(usize, u128)>
        ensures found { result ≡ found self.old.last (newest (book_of self.old)) text.now }
        ensures few { IfSome result (λ at. at.1 ≤ 2 ^ 32 + at.0) }
        ensures same { self.new ≡ self.old }
    {
        let Last::LetIn { next, sent } = self.last else {
            return None;
        };
        let line = newest(&self.run)?;
        found_from(&mut self.seen, &line, next, sent, text)
    }

    /// Judges a line `+`.
    fn take_record(&mut self, text: &[u8]) -> LineResult
        ensures { (result, self.new)
            ≡ with_found (found self.old.last (newest (book_of self.old)) text.now) self.old }
    {
        let Some((next, sent)) = self.found(text) else {
            return LineResult::Record { holds: false };
        };
        self.last = Last::LetIn { next, sent };
        LineResult::Record { holds: true }
    }

    /// Returns why the last step was skipped: nothing has changed since.
    fn reason(&self) -> Option<EnterFault>
        ensures { result ≡ reason (book_of self.now) self.now.step }
    {
        let kernel = self.run.kernel()?;
        let (core, thread) = entrant_of(self.step.as_slice())?;
        kernel.fault(core, thread)
    }

    /// Returns whether the last step was skipped, for the reason in the text, if it gives one.
    fn was_away(&mut self, why: Option<EnterFault>, text: &[u8]) -> Result<bool, LabFault>
        ensures holds { IfOk result (λ holds. holds
            ≡ was_away self.old.last (reason (book_of self.old) self.old.step) why text.now) }
        ensures same { OnOk result (self.new ≡ self.old) }
    {
        self.seen.clear();
        let Last::Away = self.last else {
            return Ok(false);
        };
        let reason = self.reason();
        put_away(&mut self.seen, reason)?;
        Ok(why.is_none() || self.seen.text() == text)
    }

    /// Returns whether the state gives this answer to a question.
    fn says_so(&mut self, question: &Question, text: &[u8]) -> Result<bool, LabFault>
        ensures holds { IfOk result
            (λ holds. holds ≡ says_so (book_of self.old) question.now text.now) }
        ensures same { OnOk result (self.new ≡ self.old) }
    {
        self.seen.clear();
        let Some(kernel) = self.run.kernel() else {
            return Ok(false);
        };
        see(&mut self.seen, kernel, question)?;
        Ok(self.seen.text() == text)
    }

    /// Judges a line `#?`.
    fn answer(&mut self, text: &[u8]) -> Result<LineResult, LabFault>
        ensures line_result { IfOk result
            (λ line_result. line_result ≡ answered self.old text.now (asked_of text.now)) }
        ensures same { OnOk result (self.new ≡ self.old) }
    {
        let holds = match asked_of(text) {
            None => return Ok(LineResult::NoQuestion),
            Some(Asked::Away { why }) => self.was_away(why, text)?,
            Some(Asked::State { question }) => self.says_so(&question, text)?,
        };
        Ok(LineResult::Asked { holds })
    }

    /// Takes a line of the boot, or of a step.
    fn take_step(&mut self, alloc: Global, text: &[u8]) -> Result<LineResult, LabFault>
        ensures { IfOk result (λ line_result. (line_result, self.new)
            ≡ stepped (book_of self.old) (book_of (fed_line self.old text.now))
            (fed_line self.old text.now) text.now) }
    {
        let before = count_lines(&self.run);
        let sent = count_sent(&self.run);
        self.feed(alloc, text)?;
        if self.run.kernel().is_none() {
            return Ok(LineResult::Nothing);
        }
        if count_lines(&self.run) == before {
            self.last = Last::Away;
        } else {
            self.last = Last::LetIn {
                next: 0,
                sent: sent as u128,
            };
            self.sent_before = sent;
        }
        self.step_line = self.lines;
        self.step.clear();
        self.step.extend_from_slice(text)?;
        Ok(LineResult::Step)
    }

    /// Judges a line, which ends in a newline.
    pub fn take(&mut self, alloc: Global, text: &[u8]) -> Result<LineResult, LabFault>
        ensures { IfOk result (λ line_result. (line_result, self.new) ≡ judged self.old text.now) }
    {
        match text {
            [b'=', ..] => {
                self.feed(alloc, text)?;
                let holds = self.answers_so(text);
                Ok(LineResult::Answer { holds })
            }
            [b'+', ..] => {
                self.feed(alloc, text)?;
                Ok(self.take_record(text))
            }
            [b'#', ..] => {
                self.feed(alloc, text)?;
                match question_text(text) {
                    None => Ok(LineResult::Nothing),
                    Some(asked) => self.answer(asked),
                }
            }
            [] | [b'\n', ..] => {
                self.feed(alloc, text)?;
                Ok(LineResult::Nothing)
            }
            _ => self.take_step(alloc, text),
        }
    }
}
