//! A replay that is fed its script piece by piece.
ghost use Rattle.std.specs.Prelude.{◌≡◌, ◌∷◌, [], ◌++◌, true, false, IfOk, Err, None, option_copied};
ghost use Rattle.mcs_phases.specs.Feeds.{Takes, TakesLine, TakesEnd, TakesPiece, EndsBoot, HasNoNewline, answer_of, no_line, at_line, ended_by, refused_for, book_lent, IsFairBook};

use mcs_book::Book;
use mcs_kernel::Kernel;
use mcs_phases::{Phase, SimFault};
use mcs_queues::LinkedLines;
use mcs_text::LineFault;
use mcs_types::{OutOfMemory, SCRIPT_LINE_BYTES, SCRIPT_LINES};
use memchr::memchr;
use std::alloc::Global;
use std::marker::Model;
use std::mem;

/// A replay of a script of steps that comes in pieces. It holds the boot until that has ended, then
/// the book, and of the text only the current line (own). After a fault it takes no more bytes.
#[derive(Drop)]
pub struct ReplayRun {
    phase: Phase,
    lines: u64,
    fault: Option<SimFault>,
    line: Vec<u8>,
}

impl Model for ReplayRun {
    ghost use Rattle.std.specs.Prelude.{◌≤◌, length};
    ghost use Rattle.mcs_phases.specs.Feeds.{FeedState, feed_state_of, line_count_limit, line_length_limit};
    ghost use Rattle.mcs_phases.specs.Phases.{seen, HasNoItems};

    ghost Value = { FeedState };

    ghost view = { λ r. feed_state_of r.fault (seen r.phase) r.lines r.line.items };

    ghost invariant = { λ r. HasNoItems r.phase
        × (r.lines ≤ line_count_limit)
        × (length r.line.items ≤ line_length_limit) };
}

impl ReplayRun {
    /// Returns a replay that has taken no bytes yet, with room for one line. `OutOfMemory` if an
    /// allocation fails.
    pub fn new(alloc: Global) -> Result<ReplayRun, OutOfMemory>
        ensures { IfOk result (λ r. r ≡ at_line no_line) }
    {
        let line = Vec::with_capacity(alloc, SCRIPT_LINE_BYTES).map_err(|_| OutOfMemory)?;
        Ok(ReplayRun {
            phase: Phase::new(alloc),
            lines: 0,
            fault: None,
            line,
        })
    }

    /// Returns the kernel after the steps so far; None until the boot has ended, by the first step
    /// or the end of the input.
    pub fn kernel(&self) -> Option<&Kernel<LinkedLines>>
        ensures { option_copied result ≡ self.now.course.stands.book }
    {
        self.phase.kernel()
    }

    /// Returns the book of the steps so far; None until the boot has ended, by the first step or
    /// the end of the input.
    pub fn book(&self) -> Option<&Book>
        ensures lent { book_lent result ≡ self.now.course.stands.book }
        ensures fair { IsFairBook self.now.course.stands.book }
    {
        let Some(kernel) = self.kernel() else {
            return None;
        };
        Some(kernel.book())
    }

    /// Returns whether no fault has ended it.
    pub(crate) fn goes_on(&self) -> bool
        ensures { result ≡ true → self.now.course.fault ≡ None }
    {
        self.fault.is_none()
    }

    /// Returns whether the input so far ends within a line.
    pub(crate) fn is_amid(&self) -> bool
        ensures { result ≡ false → self.now.line ≡ [] }
    {
        !self.line.is_empty()
    }

    /// Ends the replay with this fault.
    fn end_by(&mut self, fault: SimFault) -> Result<(), SimFault>
        requires goes { self.old.course.fault ≡ None }
        ensures ended { self.new ≡ at_line (ended_by fault self.old.course) }
        ensures answer { result ≡ Err fault }
    {
        self.fault = Some(fault);
        Err(fault)
    }

    /// Ends the replay with a fault of the current line.
    fn refuse(&mut self, why: LineFault) -> Result<(), SimFault>
        requires goes { self.old.course.fault ≡ None }
        ensures ended { self.new ≡ at_line (refused_for why self.old.course) }
        ensures answer { result ≡ answer_of self.new.course.fault }
    {
        let line = self.lines + 1;
        self.end_by(SimFault::Script { line, why })
    }

    /// Keeps a part of a line.
    pub(crate) fn keep(&mut self, part: &[u8]) -> Result<(), SimFault>
        requires goes { self.old.course.fault ≡ None }
        requires one_line { HasNoNewline part.now }
        ensures takes { Takes self.old part.now self.new }
        ensures answer { result ≡ answer_of self.new.course.fault }
    {
        if part.is_empty() {
            return Ok(());
        }
        if self.lines >= SCRIPT_LINES {
            return self.refuse(LineFault::ManyLines);
        }
        if part.len() > SCRIPT_LINE_BYTES - self.line.len() {
            return self.refuse(LineFault::LongLine);
        }
        match self.line.extend_from_slice(part) {
            Ok(()) => Ok(()),
            Err(_) => self.end_by(SimFault::OutOfMemory),
        }
    }

    /// Takes a whole line.
    #[tactic(auto, unfolding(mcs_phases::specs::Feeds::with_line))]
    pub(crate) fn take_line(&mut self, alloc: Global, line: &[u8]) -> Result<(), SimFault>
        requires goes { self.old.course.fault ≡ None }
        requires begins { self.old.line ≡ [] }
        ensures takes { TakesLine self.old.course line.now self.new.course }
        ensures begins { self.new.line ≡ [] }
        ensures answer { result ≡ answer_of self.new.course.fault }
    {
        let number = self.lines + 1;
        match self.phase.take_line(alloc, number, line) {
            Ok(()) => {
                self.lines = number;
                Ok(())
            }
            Err(fault) => self.end_by(fault),
        }
    }

    /// Takes the line that was kept.
    fn take_kept(&mut self, alloc: Global) -> Result<(), SimFault>
        requires goes { self.old.course.fault ≡ None }
        ensures takes { TakesLine self.old.course self.old.line self.new.course }
        ensures begins { self.new.line ≡ [] }
        ensures answer { result ≡ answer_of self.new.course.fault }
    {
        let mut line = mem::replace(&mut self.line, Vec::new(alloc));
        let taken = self.take_line(alloc, &line);
        line.clear();
        self.line = line;
        taken
    }

    /// Takes the rest of a line, and its newline.
    pub(crate) fn end_line(&mut self, alloc: Global, part: &[u8]) -> Result<(), SimFault>
        requires goes { self.old.course.fault ≡ None }
        requires one_line { HasNoNewline part.now }
        ensures takes { Takes self.old (part.now ++ 10 ∷ []) self.new }
        ensures answer { result ≡ answer_of self.new.course.fault }
    {
        if self.line.is_empty() {
            return self.take_line(alloc, part);
        }
        self.keep(part)?;
        self.take_kept(alloc)
    }

    /// Ends the boot at the end of the input, if no step did.
    #[tactic(auto, unfolding(mcs_phases::specs::Feeds::boot_ended))]
    fn end_boot(&mut self, alloc: Global) -> Result<(), SimFault>
        requires goes { self.old.course.fault ≡ None }
        requires begins { self.old.line ≡ [] }
        ensures ends { EndsBoot self.old.course self.new.course }
        ensures begins { self.new.line ≡ [] }
        ensures answer { result ≡ answer_of self.new.course.fault }
    {
        let next = self.lines + 1;
        if let Err(fault) = self.phase.end_boot(alloc, next) {
            return self.end_by(fault);
        }
        Ok(())
    }

    /// Takes a piece of the input, which may end within a line. A fault `Script` is returned at the
    /// latest when the newline or the 4,097th byte of its line is taken, or the first byte of line
    /// 2,000,001. After a fault the book is that of the steps before it, and each later call
    /// returns the same fault.
    pub fn feed(&mut self, alloc: Global, piece: &[u8]) -> Result<(), SimFault>
        ensures takes { Takes self.old piece.now self.new }
        ensures answer { result ≡ answer_of self.new.course.fault }
    {
        if let Some(fault) = self.fault {
            return Err(fault);
        }
        let mut rest = piece;
        while let Some(i) = memchr(b'\n', rest) {
            self.end_line(alloc, &rest[..i])?;
            rest = &rest[i + 1..];
        }
        self.keep(rest)
    }

    /// Ends the input: a last line may lack its newline, and without a step the boot ends here.
    /// Fault `Script` with `NoCores` (1) if no line said the number of cores.
    pub fn end(&mut self, alloc: Global) -> Result<(), SimFault>
        ensures takes { TakesEnd self.old self.new }
        ensures answer { result ≡ answer_of self.new.course.fault }
    {
        if let Some(ended) = self.fault {
            return Err(ended);
        }
        if self.line.is_empty() {
            return self.end_boot(alloc);
        }
        self.take_kept(alloc)?;
        self.end_boot(alloc)
    }

    /// Takes a piece of the input, or its end if the piece is empty.
    pub fn take_piece(&mut self, alloc: Global, piece: &[u8]) -> Result<(), SimFault>
        ensures takes { TakesPiece self.old piece.now self.new }
        ensures answer { result ≡ answer_of self.new.course.fault }
    {
        if piece.is_empty() {
            return self.end(alloc);
        }
        self.feed(alloc, piece)
    }
}
