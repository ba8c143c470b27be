//! The drawing of a run, step by step.
ghost use Rattle.std.specs.Prelude.{◌≡◌, ℕ, IfOk, OnOk, Some, None, [], map, option_map, slice_get};
ghost use Rattle.std.specs.String.{string_bytes};
ghost use Rattle.mcs_book.specs.Boots.{boot_log};
ghost use Rattle.mcs_book.specs.History.{log_of, with_step};
ghost use Rattle.mcs_kernel.specs.Faults.{fault_of};
ghost use Rattle.mcs_kernel.specs.Runs.{is_book_full};
ghost use Rattle.mcs_lab_diagram.specs.Arrows.{strokes_of};
ghost use Rattle.mcs_book.specs.Each.{EachRecord};
ghost use Rattle.mcs_lab_diagram.specs.Ends.{ends_of, ends_in, sender_of, HasSender};
ghost use Rattle.mcs_lab_diagram.specs.Picks.{AddsPicks};
ghost use Rattle.mcs_lab_diagram.specs.Turned.{noted, with_away};
ghost use Rattle.mcs_lab_diagram.specs.Drawn.{AreDrawn, AreDrawnBefore, IsDrawnBefore};

use crate::arrows::{Point, Strokes};
use crate::looks::{Look, add_looks, thread_of};
use mcs_book::Book;
use mcs_kernel::{Boot, EnterFault, Kernel};
use mcs_queues::LinkedLines;
use mcs_types::{CoreId, Kind, ObjId, Step, ThreadSet};
use std::alloc::{AllocError, Global};

/// A step that was skipped.
#[derive(Drop)]
pub struct Away {
    /// How many lines the book had then.
    pub after: usize,
    pub core: CoreId,
    pub thread: ObjId,
    /// The step's line in the script.
    pub text: String,
    pub why: EnterFault,
}

/// Why a run is not drawn.
#[derive(Clone, Copy, PartialEq, Eq, Debug)]
pub enum DrawFault {
    /// The book is full at a step that would be accepted.
    BookFull,
    /// An allocation failed.
    OutOfMemory,
}

impl From<AllocError> for DrawFault {
    fn from(_error: AllocError) -> DrawFault {
        DrawFault::OutOfMemory
    }
}

/// The lines of the book that are shown, from the first to the last number.
#[derive(Clone, Copy)]
pub struct Window {
    pub first: usize,
    pub last: usize,
}

/// The drawing of a run so far: the arrows, the looks of all threads in each row, the pick of each
/// core in each row, and the skipped steps.
#[derive(Drop)]
pub struct Drawing {
    pub kernel: Kernel<LinkedLines>,
    pub strokes: Strokes,
    pub looks: Vec<Look>,
    pub picks: Vec<Option<ObjId>>,
    pub away: Vec<Away>,
}

/// Returns whether a step is skipped because the book is full.
fn is_full(why: EnterFault) -> bool
    ensures { result ≡ is_book_full (Some why) }
{
    matches!(why, EnterFault::BookFull)
}

/// Returns a copy of a text.
fn kept(alloc: Global, text: &str) -> Result<String, AllocError>
    ensures { IfOk result (λ s. string_bytes s ≡ text.now) }
{
    let mut kept = String::new(alloc);
    kept.push_str(text)?;
    Ok(kept)
}

/// Adds a row: the current pick of each core.
#[tactic(auto, using(crate::proofs::PickLaws::picks_none, crate::proofs::PickLaws::picks_next))]
fn add_picks(picks: &mut Vec<Option<ObjId>>, kernel: &Kernel<LinkedLines>) -> Result<(), AllocError>
    ensures { OnOk result (AddsPicks (log_of kernel.now) kernel.now.boot.cores picks.old.items
        picks.new.items) }
{
    let passed = ThreadSet::new();
    for core in 0..kernel.book().cores() {
        picks.push(kernel.pick(CoreId(core), &passed))?;
    }
    Ok(())
}

/// Draws the last line of a book, in which this thread enters; the lines before it were drawn.
#[tactic(auto, using(crate::proofs::StrokeLaws::drawn_last, crate::proofs::StrokeLaws::drawn_none))]
fn add_last(
    alloc: Global,
    strokes: &mut Strokes,
    kernel: &Kernel<LinkedLines>,
    thread: ObjId,
) -> Result<(), AllocError>
    requires { IsDrawnBefore strokes.old thread kernel.now.lines }
    ensures { OnOk result (strokes.new ≡ strokes_of kernel.now.lines) }
{
    let row = kernel.book().lines() - 1;
    match kernel.book().line(row) {
        Some(line) => strokes.add_line(alloc, Point { row, thread }, &line),
        None => unreachable!(),
    }
}

impl Drawing {
    /// Returns the drawing before the first line.
    #[tactic(auto, using(crate::proofs::DrawnLaws::drawn_boot))]
    pub fn new(alloc: Global, boot: &Boot) -> Result<Drawing, AllocError>
        ensures book { IfOk result (λ d. d.kernel ≡ record { boot = boot.now; lines = [] }) }
        ensures drawn { IfOk result
            (λ d. AreDrawn d.strokes d.looks.items d.picks.items d.kernel) }
    {
        let Ok(kernel) = Kernel::new(alloc, boot) else {
            return Err(AllocError);
        };
        let mut looks = Vec::new(alloc);
        add_looks(&mut looks, &kernel)?;
        let mut picks = Vec::new(alloc);
        add_picks(&mut picks, &kernel)?;
        Ok(Drawing {
            kernel,
            strokes: Strokes::new(alloc),
            looks,
            picks,
            away: Vec::new(alloc),
        })
    }

    /// Draws the last line of the book, in which this thread enters; the lines before it were
    /// drawn.
    #[tactic(auto, using(crate::proofs::DrawnLaws::drawn_row))]
    fn add_row(&mut self, alloc: Global, thread: ObjId) -> Result<(), AllocError>
        requires before { AreDrawnBefore self.old.strokes self.old.looks.items self.old.picks.items
            thread self.old.kernel }
        ensures book { OnOk result (self.new.kernel ≡ self.old.kernel) }
        ensures away { OnOk result (self.new.away.items ≡ self.old.away.items) }
        ensures drawn { OnOk result
            (AreDrawn self.new.strokes self.new.looks.items self.new.picks.items self.new.kernel) }
    {
        add_last(alloc, &mut self.strokes, &self.kernel, thread)?;
        add_looks(&mut self.looks, &self.kernel)?;
        add_picks(&mut self.picks, &self.kernel)
    }

    /// Notes a step that was skipped.
    #[tactic(auto, using(crate::proofs::TurnedLaws::away_more))]
    fn turn_away(
        &mut self,
        alloc: Global,
        step: &Step,
        text: &str,
        why: EnterFault,
    ) -> Result<(), AllocError>
        ensures away { OnOk result (map noted self.new.away.items ≡ with_away
            (map noted self.old.away.items) self.old.kernel step.now text.now (Some why)) }
        ensures book { OnOk result (self.new.kernel ≡ self.old.kernel) }
        ensures strokes { OnOk result (self.new.strokes ≡ self.old.strokes) }
        ensures looks { OnOk result (self.new.looks.items ≡ self.old.looks.items) }
        ensures picks { OnOk result (self.new.picks.items ≡ self.old.picks.items) }
    {
        self.away.push(Away {
            after: self.kernel.book().lines() - 1,
            core: step.core,
            thread: step.thread,
            text: kept(alloc, text)?,
            why,
        })?;
        Ok(())
    }

    /// Draws an accepted step. `OutOfMemory` if an allocation fails.
    #[tactic(auto, using(crate::proofs::DrawnLaws::drawn_before, crate::proofs::DrawnLaws::step_let_in))]
    fn let_in(&mut self, alloc: Global, step: &Step) -> Result<(), AllocError>
        requires drawn { AreDrawn self.old.strokes self.old.looks.items self.old.picks.items
            self.old.kernel }
        requires let_in { fault_of self.old.kernel step.now.core step.now.thread ≡ None }
        ensures book { OnOk result (self.new.kernel ≡ with_step self.old.kernel step.now) }
        ensures away { OnOk result (self.new.away.items ≡ self.old.away.items) }
        ensures drawn { OnOk result
            (AreDrawn self.new.strokes self.new.looks.items self.new.picks.items self.new.kernel) }
    {
        match self.kernel.admit(alloc, step) {
            Ok(_) => self.add_row(alloc, step.thread),
            Err(_) => Err(AllocError),
        }
    }

    /// Notes a skipped step with its reason. `BookFull` if the reason is a full book, and
    /// `OutOfMemory` if an allocation fails.
    #[tactic(auto, using(crate::proofs::DrawnLaws::step_turned))]
    fn keep_out(
        &mut self,
        alloc: Global,
        step: &Step,
        text: &str,
        why: EnterFault,
    ) -> Result<(), DrawFault>
        requires turned { fault_of self.old.kernel step.now.core step.now.thread ≡ Some why }
        ensures book { OnOk result (self.new.kernel ≡ with_step self.old.kernel step.now) }
        ensures same { OnOk result (self.new.kernel ≡ self.old.kernel) }
        ensures away { OnOk result (map noted self.new.away.items ≡ with_away
            (map noted self.old.away.items) self.old.kernel step.now text.now (Some why)) }
        ensures strokes { OnOk result (self.new.strokes ≡ self.old.strokes) }
        ensures looks { OnOk result (self.new.looks.items ≡ self.old.looks.items) }
        ensures picks { OnOk result (self.new.picks.items ≡ self.old.picks.items) }
    {
        if is_full(why) {
            return Err(DrawFault::BookFull);
        }
        self.turn_away(alloc, step, text, why)?;
        Ok(())
    }

    /// Draws a step, whose line in the script is `text`; notes a skipped step, which leaves the
    /// book unchanged. `BookFull` if the book has no room for the step. `OutOfMemory` if an
    /// allocation fails. After a fault the drawing cannot be used any more.
    #[tactic(auto, using(crate::proofs::DrawnLaws::drawn_same))]
    pub fn enter(&mut self, alloc: Global, step: &Step, text: &str) -> Result<(), DrawFault>
        requires drawn { AreDrawn self.old.strokes self.old.looks.items self.old.picks.items
            self.old.kernel }
        ensures book { OnOk result (self.new.kernel ≡ with_step self.old.kernel step.now) }
        ensures away { OnOk result (map noted self.new.away.items ≡ with_away
            (map noted self.old.away.items) self.old.kernel step.now text.now
            (fault_of self.old.kernel step.now.core step.now.thread)) }
        ensures drawn { OnOk result
            (AreDrawn self.new.strokes self.new.looks.items self.new.picks.items self.new.kernel) }
    {
        match self.kernel.fault(step.core, step.thread) {
            Some(why) => self.keep_out(alloc, step, text, why),
            None => {
                self.let_in(alloc, step)?;
                Ok(())
            }
        }
    }

    /// Proves that the arrows join the threads that the questions about the book name, and that
    /// each message begins at its sender.
    #[tactic(auto, using(crate::proofs::EndLaws::drawn_ends, crate::proofs::EndLaws::drawn_sender))]
    pub fn joins_as_asked(&self)
        requires drawn { AreDrawn self.now.strokes self.now.looks.items self.now.picks.items
            self.now.kernel }
        ensures ends { map ends_of self.now.strokes.arrows
            ≡ ends_in (boot_log self.now.kernel.boot.lines) self.now.kernel.lines }
        ensures senders { (m : ℕ) → option_map (λ (p : Point). p.thread)
            (slice_get self.now.strokes.sent m) ≡ sender_of (log_of self.now.kernel) m }
    {
        let _ = &self.strokes;
    }

    /// Proves that each taken message has a sender, so that `joins_as_asked` never uses its
    /// default.
    #[tactic(auto, using(crate::proofs::SenderLaws::senders_there))]
    pub fn senders_known(&self)
        ensures { EachRecord HasSender self.now.kernel }
    {
        self.kernel.is_fair();
    }

    /// Returns how many threads there are.
    pub fn threads(&self) -> usize {
        self.kernel.made(Kind::Thread) as usize
    }

    /// The book.
    pub fn book(&self) -> &Book {
        self.kernel.book()
    }

    /// Returns how many lines the book has, without that of the boot.
    pub fn lines(&self) -> usize {
        self.kernel.book().lines().saturating_sub(1)
    }

    /// Returns how a thread looks after a line, by its index among the threads.
    pub fn look(&self, row: usize, lane: usize) -> Look {
        let at = row.saturating_mul(self.threads()).saturating_add(lane);
        match self.looks.get(at) {
            Some(look) => *look,
            None => Look {
                status: None,
                context: None,
            },
        }
    }

    /// Returns whether a core picks a thread after a line.
    pub fn is_picked(&self, row: usize, thread: ObjId) -> bool {
        let cores = self.kernel.book().cores() as usize;
        for core in 0..cores {
            let at = row.saturating_mul(cores).saturating_add(core);
            if let Some(Some(picked)) = self.picks.get(at)
                && picked.is_same(thread)
            {
                return true;
            }
        }
        false
    }

    /// The thread of a lane.
    pub fn thread(&self, lane: usize) -> ObjId {
        thread_of(lane.saturating_add(1).min(u32::MAX as usize) as u32)
    }

    /// Returns the part of a window whose lines exist; it may be empty.
    pub fn shown(&self, window: Window) -> Window {
        let last = window.last.min(self.lines());
        Window {
            first: window.first.max(1).min(last.saturating_add(1)),
            last,
        }
    }
}
