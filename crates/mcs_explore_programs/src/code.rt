//! The lines of a program as they are put together, and the entries that they give.
ghost use Rattle.std.specs.Prelude.{◌≡◌, ◌<◌, [], IfOk, OnOk, length, map};
ghost use Rattle.mcs_explore_programs.specs.Programs.{AreLines, GivesOneOf, lines, within};

use crate::conditions::Check;
use crate::slots::Slots;
use mcs_turns::{Fill, Op, Slot, Source};
use mcs_types::Entry;
use std::alloc::{AllocError, Global};
use std::marker::Model;

/// An entry of a program, and its text as the script has it, with the values in its message.
#[derive(Drop)]
pub struct ProgramEntry {
    pub entry: Entry,
    pub text: Vec<u8>,
}

/// A part of an entry's message that is filled from a kept word: its label, or one of its words.
#[derive(Clone, Copy, Drop)]
pub struct Filled {
    pub word: Option<u8>,
    pub from: Slot,
}

/// The jump target after the last line, wherever that will be.
pub const END: usize = usize::MAX;

/// The lines of a program, its entries, and what is filled into their messages. A jump targets the
/// end until it is aimed.
#[derive(Drop)]
pub struct Code {
    ops: Vec<Op>,
    entries: Vec<ProgramEntry>,
    fills: Vec<Fill>,
}

impl Model for Code {
    ghost use Rattle.mcs_explore_programs.specs.Programs.{Lines, NameEntries, lines};

    ghost Value = { Lines };

    ghost view = { λ c. lines c.ops.items c.entries.items c.fills.items };

    ghost invariant = { λ c. NameEntries (lines c.ops.items c.entries.items c.fills.items) };
}

/// Returns the line with its jump target limited to `count`.
fn within(op: Op, count: usize) -> Op
    ensures { result ≡ within count op }
{
    match op {
        Op::Unless(test, to) => Op::Unless(test, to.min(count)),
        Op::Jump(to) => Op::Jump(to.min(count)),
        Op::Give(_) | Op::Keep(..) | Op::Add(..) => op,
    }
}

impl Code {
    /// Returns a program without lines.
    pub fn new(alloc: Global) -> Code
        ensures { result ≡ lines [] [] [] }
    {
        Code {
            ops: Vec::new(alloc),
            entries: Vec::new(alloc),
            fills: Vec::new(alloc),
        }
    }

    /// The lines.
    pub fn ops(&self) -> &[Op]
        ensures { result.now ≡ self.now.ops }
    {
        self.ops.as_slice()
    }

    /// Returns how many entries there are.
    pub fn entries(&self) -> usize
        ensures { result ≡ length self.now.entries }
    {
        self.entries.len()
    }

    /// Adds a line that gives no entry.
    pub fn push(&mut self, op: Op) -> Result<(), AllocError>
        requires { GivesOneOf 0 op }
        ensures { OnOk result (self.new.entries ≡ self.old.entries) }
    {
        self.ops.push(op)?;
        Ok(())
    }

    /// Adds what is filled into a part of the message of an entry.
    fn fill(&mut self, number: usize, part: Filled) -> Result<(), AllocError>
        requires { number < length self.old.entries }
        ensures { OnOk result (self.new.entries ≡ self.old.entries) }
    {
        self.fills.push(Fill {
            number,
            word: part.word,
            from: part.from,
        })?;
        Ok(())
    }

    /// Adds all that is filled into the message of an entry.
    fn fill_all(&mut self, number: usize, filled: &[Filled]) -> Result<(), AllocError>
        requires { number < length self.old.entries }
    {
        for part in filled {
            self.fill(number, *part)?;
        }
        Ok(())
    }

    /// Adds an entry, and returns its number.
    #[tactic(auto, using(crate::proofs::Lines::names_more))]
    fn add_entry(&mut self, entry: ProgramEntry) -> Result<usize, AllocError>
        ensures { IfOk result (λ number. number < length self.new.entries) }
    {
        let number = self.entries.len();
        self.entries.push(entry)?;
        Ok(number)
    }

    /// Adds a line that gives an entry.
    fn push_give(&mut self, number: usize) -> Result<(), AllocError>
        requires { number < length self.old.entries }
        ensures { OnOk result (self.new.entries ≡ self.old.entries) }
    {
        self.ops.push(Op::Give(number))?;
        Ok(())
    }

    /// Adds a line that gives an entry, the next one, and what is filled into its message.
    pub fn give(&mut self, entry: ProgramEntry, filled: &[Filled]) -> Result<(), AllocError> {
        let number = self.add_entry(entry)?;
        self.push_give(number)?;
        self.fill_all(number, filled)
    }

    /// Adds a jump to an index, and returns the jump's own index.
    pub fn jump(&mut self, to: usize) -> Result<usize, AllocError> {
        let at = self.ops.len();
        self.push(Op::Jump(to))?;
        Ok(at)
    }

    /// Adds the lines of a check, and returns the index of the one that jumps if the check fails.
    fn check(&mut self, check: Check) -> Result<usize, AllocError> {
        let at = self.ops.len();
        if check.is_to_hold {
            self.push(Op::Unless(check.test, END))?;
            return Ok(at);
        }
        self.push(Op::Unless(check.test, at.saturating_add(2)))?;
        self.jump(END)
    }

    /// Adds the lines of a condition, and to `skips` the indices of those that jump if it fails.
    pub fn checks(&mut self, checks: &[Check], skips: &mut Vec<usize>) -> Result<(), AllocError> {
        for check in checks {
            let at = self.check(*check)?;
            skips.push(at)?;
        }
        Ok(())
    }

    /// Aims the jump at an index to another index; does nothing if it is no jump.
    fn aim(&mut self, at: usize, to: usize) {
        let aimed = match self.ops.get(at).copied() {
            Some(Op::Unless(test, _)) => Op::Unless(test, to),
            Some(Op::Jump(_)) => Op::Jump(to),
            Some(Op::Give(_) | Op::Keep(..) | Op::Add(..)) | None => return,
        };
        if at < self.ops.len() {
            self.ops[at] = aimed;
        }
    }

    /// Aims the jumps at these indices to the next line.
    pub fn aim_here(&mut self, places: &[usize]) {
        let here = self.ops.len();
        for at in places {
            self.aim(*at, here);
        }
    }

    /// Adds lines that clear all kept words but the first few.
    pub fn clear(&mut self, slots: &Slots, from: usize) -> Result<(), AllocError> {
        for number in from..slots.count() {
            if let Some(slot) = slots.at(number) {
                self.push(Op::Keep(slot, Source::Number(0)))?;
            }
        }
        Ok(())
    }

    /// Adds lines that clear all kept words but the first few, and frees their slots.
    pub fn release(&mut self, slots: &mut Slots, to: usize) -> Result<(), AllocError>
        ensures { OnOk result (self.new.entries ≡ self.old.entries) }
    {
        for _ in to..slots.count() {
            if let Some(slot) = slots.release(to) {
                self.push(Op::Keep(slot, Source::Number(0)))?;
            }
        }
        Ok(())
    }

    /// Returns the lines, with each jump within them or to their end.
    fn aimed_ops(&self, alloc: Global) -> Result<Vec<Op>, AllocError>
        ensures { IfOk result (λ o. o.items ≡ map (within (length self.now.ops)) self.now.ops) }
    {
        let count = self.ops.len();
        self.ops.iter().map(|op| within(*op, count)).collect(alloc)
    }

    /// Returns the lines, with each jump within them or to their end, the entries, and what is
    /// filled into their messages.
    #[tactic(auto, using(crate::proofs::Lines::lines_within))]
    pub fn into_parts(
        self,
        alloc: Global,
    ) -> Result<(Vec<Op>, Vec<ProgramEntry>, Vec<Fill>), AllocError>
        requires { 0 < length self.entries }
        ensures { IfOk result (λ p. AreLines (lines p.0.items p.1.items p.2.items)) }
    {
        let ops = self.aimed_ops(alloc)?;
        Ok((ops, self.entries, self.fills))
    }
}
