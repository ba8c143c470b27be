//! The phase of a replay: the boot so far, or the run of the steps after it.
ghost use Rattle.std.specs.Prelude.{ℕ, ◌≡◌, ◌≤◌, ◌∷◌, IfOk, OnOk, OnErr, IsSome, [], Err, None, option_copied, option_to_list};
ghost use Rattle.mcs_text.specs.Reading.{Gives};
ghost use Rattle.mcs_phases.specs.Script.{threads_of, read_line, of_steps};
ghost use Rattle.mcs_phases.specs.Feeds.{ComesOf, not_begun, begun_by, said, stepped, step_line, book_after, read_at, opened, after_line, after_end};
ghost use Rattle.mcs_phases.specs.Phases.{opened_to, seen, HasNoItems, answer_at};

use crate::fault::SimFault;
use crate::script::{Script, ScriptFault, make_ready, says_something};
use mcs_kernel::{Boot, Kernel, Replay, ReplayFault};
use mcs_queues::LinkedLines;
use mcs_text::{LineFault, blank_step, first_boot_key, read_step_into};
use mcs_types::{Kind, OutOfMemory, Room, SCRIPT_LINES, Step};
use std::alloc::Global;
use std::marker::Model;

/// The run of the steps after a boot with these numbers of cores and threads, with room for the
/// words of the next step if that is allocated and unused, and a step into which the next one is
/// read.
pub struct StepRun {
    cores: u8,
    threads: u32,
    replay: Replay<LinkedLines>,
    room: Option<Room>,
    step: Step,
}

// Written by hand as a separate function: a derived drop would be proved again wherever a run is
// dropped.
impl Drop for StepRun {
    fn drop(self) {
        let StepRun {
            cores: _,
            threads: _,
            replay: _,
            room: _,
            step: _,
        } = self;
    }
}

impl Model for StepRun {
    ghost use Rattle.std.specs.Prelude.{◌≡◌};
    ghost use Rattle.mcs_book.specs.History.{Book};
    ghost use Rattle.mcs_phases.specs.Script.{threads_of};

    ghost Value = { Book };

    ghost view = { λ s. s.replay.book };

    ghost invariant = { λ s. (s.cores ≡ s.replay.book.boot.cores)
        × (s.threads ≡ threads_of s.replay.book.boot) };
}

/// The outcome of a line, without the line's number.
// two values, so that it is returned in registers, unlike a fault with a number
#[derive(Clone, Copy)]
enum Outcome {
    Taken,
    Script(LineFault),
    BookFull,
    OutOfMemory,
}

impl Outcome {
    /// Returns the outcome with the line's number.
    #[inline(always)]
    fn at(self, number: u64) -> Result<(), SimFault>
        ensures { result ≡ answer_at number self }
    {
        match self {
            Outcome::Taken => Ok(()),
            Outcome::Script(why) => Err(SimFault::Script { line: number, why }),
            Outcome::BookFull => Err(SimFault::BookFull),
            Outcome::OutOfMemory => Err(SimFault::OutOfMemory),
        }
    }
}

/// Takes a step.
// not inlined: otherwise each line would save and clear its registers and locals
#[inline(never)]
#[tactic(auto, unfolding(crate::specs::Feeds::stepped))]
fn take_step(replay: &mut Replay<LinkedLines>, alloc: Global, step: &Step) -> Outcome
    ensures takes { (number : ℕ) → ComesOf (λ u. replay.new.book) (answer_at number result)
        (stepped replay.old.book step.now) }
    ensures unchanged { (number : ℕ) → OnErr (answer_at number result)
        (replay.new.book ≡ replay.old.book) }
    ensures boot { replay.new.book.boot ≡ replay.old.book.boot }
{
    match replay.advance(alloc, step) {
        Ok(_) => Outcome::Taken,
        Err(ReplayFault::BookFull { step: _ }) => Outcome::BookFull,
        Err(ReplayFault::OutOfMemory { step: _ }) => Outcome::OutOfMemory,
    }
}

impl StepRun {
    /// Returns the run before its first step.
    fn new(alloc: Global, boot: Boot) -> Result<StepRun, OutOfMemory>
        ensures { IfOk result (λ s. s ≡ begun_by boot) }
    {
        let cores = boot.cores();
        let threads = boot.made(Kind::Thread);
        let replay = Replay::new(alloc, boot)?;
        Ok(StepRun {
            cores,
            threads,
            replay,
            room: None,
            step: blank_step(),
        })
    }

    /// The kernel after the steps so far.
    fn kernel(&self) -> &Kernel<LinkedLines>
        ensures { result.now ≡ self.now }
    {
        self.replay.kernel()
    }

    /// Returns the run after this boot and its first step.
    fn start(alloc: Global, boot: Boot, step: Step) -> Result<StepRun, SimFault>
        ensures { ComesOf (λ k. k) result (stepped (begun_by boot) step) }
    {
        let Ok(mut run) = StepRun::new(alloc, boot) else {
            return Err(SimFault::OutOfMemory);
        };
        // A step is never refused by its line, so no fault has this number.
        take_step(&mut run.replay, alloc, &step).at(0)?;
        Ok(run)
    }

    /// Takes the line of this number.
    #[tactic(auto, unfolding(crate::specs::Feeds::book_after))]
    fn take_line(&mut self, alloc: Global, number: u64, line: &[u8]) -> Outcome
        ensures takes { ComesOf (λ u. self.new) (answer_at number result)
            (book_after self.old number line.now) }
        ensures unchanged { OnErr (answer_at number result) (self.new ≡ self.old) }
        ensures numbered { OnOk (answer_at number result) (number ≤ SCRIPT_LINES) }
    {
        if make_ready(alloc, &mut self.room).is_err() {
            return Outcome::OutOfMemory;
        }
        match read_step_line(
            alloc,
            self.cores,
            self.threads,
            number,
            line,
            &mut self.room,
            &mut self.step,
        ) {
            Ok(false) => Outcome::Taken,
            Ok(true) => take_step(&mut self.replay, alloc, &self.step),
            Err(why) => Outcome::Script(why),
        }
    }
}

/// Reads the step of the line with this number after a boot with these numbers of cores and
/// threads, if the line is not skipped. Returns whether it has one. A message of more than four
/// words uses the room up.
#[tactic(auto, unfolding(crate::specs::Feeds::step_line))]
fn read_step_line(
    alloc: Global,
    cores: u8,
    threads: u32,
    number: u64,
    line: &[u8],
    room: &mut Option<Room>,
    step: &mut Step,
) -> Result<bool, LineFault>
    requires { IsSome room.old }
    ensures reads { Gives (λ says. said says step.new) result
        (step_line cores threads number line.now) }
    ensures numbered { OnOk result (number ≤ SCRIPT_LINES) }
{
    if !says_something(number, line)? {
        return Ok(false);
    }
    if first_boot_key(line).is_some() {
        return Err(LineFault::LateBoot);
    }
    read_step_into(alloc, cores, threads, line, room, step)?;
    Ok(true)
}

/// Reads the line with this number while the boot lasts, and returns its step, if it has one: that
/// ends the boot.
fn read_opening(
    opening: &mut Script<Step>,
    alloc: Global,
    number: u64,
    line: &[u8],
) -> Result<Option<Step>, SimFault>
    requires { opening.old.items ≡ [] }
    ensures reads { ComesOf
        (λ step. record { boot = opening.new.boot; items = option_to_list step }) result
        (read_at number (read_line of_steps opening.old number line.now)) }
    ensures kept { opening.new.items ≡ [] }
    ensures numbered { OnOk result (number ≤ SCRIPT_LINES) }
{
    match opening.read_line(alloc, None, number, line) {
        Ok(()) => Ok(opening.items.pop()),
        Err(ScriptFault::Line(why)) => Err(SimFault::Script { line: number, why }),
        Err(ScriptFault::OutOfMemory) => Err(SimFault::OutOfMemory),
    }
}

/// Ends the boot with a step, and returns the run after it, if there is a boot.
fn end_opening(
    opening: &mut Script<Step>,
    alloc: Global,
    step: Step,
) -> Result<Option<StepRun>, SimFault>
    ensures takes { ComesOf (λ run. opened_to opening.new.boot run) result
        (opened opening.old.boot (step ∷ [])) }
    ensures kept { opening.new.items ≡ opening.old.items }
{
    let Some(boot) = opening.boot.take() else {
        return Ok(None);
    };
    let run = StepRun::start(alloc, boot, step)?;
    Ok(Some(run))
}

/// Reads the line with this number while the boot lasts, and returns the run after its step, if it
/// has one.
fn open(
    opening: &mut Script<Step>,
    alloc: Global,
    number: u64,
    line: &[u8],
) -> Result<Option<StepRun>, SimFault>
    requires { opening.old.items ≡ [] }
    ensures takes { ComesOf (λ run. opened_to opening.new.boot run) result
        (after_line (opened_to opening.old.boot None) number line.now) }
    ensures kept { opening.new.items ≡ [] }
    ensures numbered { OnOk result (number ≤ SCRIPT_LINES) }
{
    match read_opening(opening, alloc, number, line) {
        Ok(None) => Ok(None),
        Ok(Some(step)) => end_opening(opening, alloc, step),
        Err(fault) => Err(fault),
    }
}

/// The state of a replay between two lines of its script.
#[derive(Drop)]
pub enum Phase {
    /// The boot so far.
    Booting(Script<Step>),
    /// After the boot, the run of the steps.
    Running(StepRun),
}

impl Phase {
    /// Returns the phase before the first line.
    pub fn new(alloc: Global) -> Phase
        ensures begins { seen result ≡ not_begun }
        ensures kept { HasNoItems result }
    {
        Phase::Booting(Script::new(alloc))
    }

    /// The kernel after the steps so far, once the boot has ended.
    pub fn kernel(&self) -> Option<&Kernel<LinkedLines>>
        ensures { option_copied result ≡ (seen self.now).book }
    {
        match self {
            Phase::Booting(_) => None,
            Phase::Running(run) => Some(run.kernel()),
        }
    }

    /// Takes the line with this number, with which the run may begin.
    // not inlined, since the run that it may return is cleared first in each call
    #[cold]
    #[inline(never)]
    fn take_opening_line(&mut self, alloc: Global, number: u64, line: &[u8]) -> Result<(), SimFault>
        requires { HasNoItems self.old }
        ensures takes { ComesOf (λ u. seen self.new) result
            (after_line (seen self.old) number line.now) }
        ensures unchanged { OnErr result ((seen self.new).book ≡ (seen self.old).book) }
        ensures numbered { OnOk result (number ≤ SCRIPT_LINES) }
        ensures kept { HasNoItems self.new }
    {
        let opening = match self {
            Phase::Running(run) => return run.take_line(alloc, number, line).at(number),
            Phase::Booting(opening) => opening,
        };
        if let Some(run) = open(opening, alloc, number, line)? {
            *self = Phase::Running(run);
        }
        Ok(())
    }

    /// Takes the line of this number. A fault leaves the book as it was.
    pub fn take_line(&mut self, alloc: Global, number: u64, line: &[u8]) -> Result<(), SimFault>
        requires { HasNoItems self.old }
        ensures takes { ComesOf (λ u. seen self.new) result
            (after_line (seen self.old) number line.now) }
        ensures unchanged { OnErr result ((seen self.new).book ≡ (seen self.old).book) }
        ensures numbered { OnOk result (number ≤ SCRIPT_LINES) }
        ensures kept { HasNoItems self.new }
    {
        if let Phase::Running(run) = self {
            return run.take_line(alloc, number, line).at(number);
        }
        self.take_opening_line(alloc, number, line)
    }

    /// Ends the boot at the end of the input, if no step did. Fault `Script` with `NoCores` (1) and
    /// this line number if no line said the number of cores.
    #[tactic(auto, unfolding(crate::specs::Feeds::after_end))]
    pub fn end_boot(&mut self, alloc: Global, number: u64) -> Result<(), SimFault>
        requires { HasNoItems self.old }
        ensures ends { ComesOf (λ u. seen self.new) result (after_end (seen self.old) number) }
        ensures memory { result ≡ Err SimFault.OutOfMemory → (seen self.old).book ≡ None }
        ensures unchanged { OnErr result ((seen self.new).book ≡ (seen self.old).book) }
        ensures kept { HasNoItems self.new }
    {
        let Phase::Booting(opening) = self else {
            return Ok(());
        };
        let Some(boot) = opening.boot.take() else {
            return Err(SimFault::Script {
                line: number,
                why: LineFault::NoCores,
            });
        };
        match StepRun::new(alloc, boot) {
            Ok(run) => {
                *self = Phase::Running(run);
                Ok(())
            }
            Err(OutOfMemory) => Err(SimFault::OutOfMemory),
        }
    }
}
