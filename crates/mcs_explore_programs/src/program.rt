//! A program of a thread, statement by statement.
ghost use Rattle.std.specs.Prelude.{◌<◌, IfOk, length};

use crate::alternatives::Word;
use crate::blocks::{Arms, Block, Counter, Round, RoundHead, Shape};
use crate::code::{Code, END, ProgramEntry};
use crate::conditions::read_condition;
use crate::entries::read_entry;
use crate::fault::{FaultyLine, ProgramFault};
use crate::keywords::{Change, KEYWORDS, Keyword, is_entry, is_kept_name, is_name};
use crate::rounds::goes_round;
use crate::slots::Slots;
use crate::statement::Statement;
use crate::values::read_value;
use mcs_turns::{Fill, Op, Source, Test};
use mcs_types::ObjId;
use std::alloc::{AllocError, Global};

/// How many lines a program has at most.
const LINES: usize = 4096;

/// How many blocks of a program may be open at a time (own).
pub const DEPTH: usize = 32;

/// The name of an entry of a thread, or of a block, and the numbers of its first and its last
/// entry, from 1 on.
#[derive(Drop)]
pub struct Label {
    pub thread: ObjId,
    pub name: Vec<u8>,
    pub first: usize,
    pub last: usize,
}

/// A program: its entries in the order of the script, its lines, what is filled into messages, and
/// the names of entries and blocks.
#[derive(Drop)]
pub struct Program {
    pub thread: ObjId,
    pub entries: Vec<ProgramEntry>,
    pub ops: Vec<Op>,
    pub fills: Vec<Fill>,
    pub labels: Vec<Label>,
}

/// The program of a thread, as far as its lines were read.
#[derive(Drop)]
pub struct ProgramLines {
    alloc: Global,
    thread: ObjId,
    /// How many lines were read, and the script's number of the last one.
    count: usize,
    line: u64,
    code: Code,
    slots: Slots,
    blocks: Vec<Block>,
    labels: Vec<Label>,
}

impl ProgramLines {
    ghost use Rattle.mcs_explore_programs.specs.Programs.{IsProgram};

    /// Returns a program of which no line was read yet.
    pub fn new(alloc: Global, thread: ObjId) -> ProgramLines {
        ProgramLines {
            alloc,
            thread,
            count: 0,
            line: 0,
            code: Code::new(alloc),
            slots: Slots::new(alloc),
            blocks: Vec::new(alloc),
            labels: Vec::new(alloc),
        }
    }

    /// The thread.
    pub fn thread(&self) -> ObjId {
        self.thread
    }

    /// Returns a copy of a word for a fault.
    fn word(&self, word: &[u8]) -> Result<Word, AllocError> {
        Word::new(self.alloc, word)
    }

    /// Reads the statement of the script's line with this number.
    pub fn take(&mut self, line: u64, text: &[u8]) -> Result<(), FaultyLine> {
        self.line = line;
        match self.take_statement(text) {
            Ok(()) => Ok(()),
            Err(why) => Err(FaultyLine { line, why }),
        }
    }

    /// Reads a statement.
    fn take_statement(&mut self, text: &[u8]) -> Result<(), ProgramFault> {
        if self.count >= LINES {
            return Err(ProgramFault::ManyLines { limit: LINES });
        }
        self.count = self.count.saturating_add(1);
        let mut words = Statement::new(self.alloc, text)?;
        let Some(first) = words.next_word() else {
            return Ok(());
        };
        match Keyword::of(first) {
            Some(keyword) => self.take_keyword(keyword, first, &mut words),
            None => self.take_other(first, &mut words),
        }
    }

    /// Reads a statement after its keyword.
    fn take_keyword(
        &mut self,
        keyword: Keyword,
        word: &[u8],
        words: &mut Statement<'_>,
    ) -> Result<(), ProgramFault> {
        match keyword {
            Keyword::Let => self.keep(words),
            Keyword::Forever => self.open_forever(words),
            Keyword::While => self.open_while(words),
            Keyword::Repeat => self.open_repeat(words),
            Keyword::If => self.open_if(words),
            Keyword::Open => self.open_plain(words),
            Keyword::Close => self.close(words),
            Keyword::Break => {
                words.end()?;
                self.leave_round(word)
            }
            Keyword::Continue => {
                words.end()?;
                self.begin_next_round(word)
            }
            Keyword::Stop => {
                words.end()?;
                self.code.clear(&self.slots, 0)?;
                self.code.jump(END)?;
                Ok(())
            }
        }
    }

    /// Reads a statement after its first word, which is no keyword.
    fn take_other(&mut self, word: &[u8], words: &mut Statement<'_>) -> Result<(), ProgramFault> {
        if let [name @ .., b':'] = word {
            return self.take_named(name, words);
        }
        if is_entry(word) {
            return self.give(word, words);
        }
        let next = words.peek().unwrap_or(&[]);
        match Change::of(next) {
            Some(change) => self.change(word, change, words),
            None => Err(ProgramFault::Unknown {
                word: self.word(word)?,
                there: KEYWORDS,
            }),
        }
    }

    /// Reads the rest of an entry.
    fn give(&mut self, key: &[u8], words: &mut Statement<'_>) -> Result<(), ProgramFault> {
        read_entry(
            self.alloc,
            self.thread,
            key,
            words,
            &mut self.code,
            &mut self.slots,
        )
    }

    /// Reads what follows a name: an entry, or the opening of a block. `NoEntry` if it is neither.
    fn take_named(&mut self, name: &[u8], words: &mut Statement<'_>) -> Result<(), ProgramFault> {
        let place = self.labels.len();
        self.add_label(name)?;
        let key = words.need("an entry or a block")?;
        if is_entry(key) {
            return self.give(key, words);
        }
        match Keyword::of(key) {
            Some(keyword) if keyword.opens() => {
                self.take_keyword(keyword, key, words)?;
                if let Some(block) = self.blocks.last_mut() {
                    block.label = Some(place);
                }
                Ok(())
            }
            _ => Err(ProgramFault::NoEntry {
                word: self.word(key)?,
            }),
        }
    }

    /// Names the next entry. `Not` if the word cannot be a name, `NamedTwice` if it is one already.
    fn add_label(&mut self, name: &[u8]) -> Result<(), ProgramFault> {
        let word = self.word(name)?;
        if !is_name(name) {
            return Err(ProgramFault::Not {
                word,
                wanted: "a name: a letter, and then letters, digits, _, - or .",
            });
        }
        for other in self.labels.iter() {
            if other.name.as_slice() == name {
                let number = other.first;
                return Err(ProgramFault::NamedTwice { word, number });
            }
        }
        let number = self.code.entries().saturating_add(1);
        self.labels.push(Label {
            thread: self.thread,
            name: Vec::from_slice(self.alloc, name)?,
            first: number,
            last: number,
        })?;
        Ok(())
    }

    /// Ends the block of a name here. `NamesNothing` if it has no entry.
    fn end_label(&mut self, place: Option<usize>) -> Result<(), ProgramFault> {
        let count = self.code.entries();
        let Some(place) = place else {
            return Ok(());
        };
        let Some(label) = self.labels.get_mut(place) else {
            return Ok(());
        };
        if count < label.first {
            return Err(ProgramFault::NamesNothing {
                word: Word::new(self.alloc, label.name.as_slice())?,
            });
        }
        label.last = count;
        Ok(())
    }

    /// Reads `let NAME = value`, which keeps a word.
    fn keep(&mut self, words: &mut Statement<'_>) -> Result<(), ProgramFault> {
        let name = words.need("a name")?;
        if !is_kept_name(name) {
            return Err(ProgramFault::NotAllowed {
                word: self.word(name)?,
            });
        }
        if self.slots.find(name).is_some() {
            return Err(ProgramFault::KeptTwice {
                word: self.word(name)?,
            });
        }
        words.expect("=")?;
        let source = read_value(words, &self.slots)?;
        words.end()?;
        let slot = self.slots.hold_name(name)?;
        self.code.push(Op::Keep(slot, source))?;
        Ok(())
    }

    /// Reads how a kept word changes, from the operator on.
    fn change(
        &mut self,
        name: &[u8],
        change: Change,
        words: &mut Statement<'_>,
    ) -> Result<(), ProgramFault> {
        let slot = self.slots.need(name)?;
        words.next_word();
        let op = match change {
            Change::Set => Op::Keep(slot, read_value(words, &self.slots)?),
            Change::Add => Op::Add(slot, words.number(0, u64::MAX, "a number")?),
            Change::Subtract => {
                let less = words.number(0, u64::MAX, "a number")?;
                Op::Add(slot, 0u64.wrapping_sub(less))
            }
        };
        words.end()?;
        self.code.push(op)?;
        Ok(())
    }

    /// Opens a block. `Deep` if too many are open.
    fn open(&mut self, kept: usize, shape: Shape) -> Result<(), ProgramFault> {
        if self.blocks.len() >= DEPTH {
            return Err(ProgramFault::Deep { limit: DEPTH });
        }
        self.blocks.push(Block {
            line: self.line,
            kept,
            label: None,
            shape,
        })?;
        Ok(())
    }

    /// Opens a block whose statements follow one another.
    fn open_plain(&mut self, words: &mut Statement<'_>) -> Result<(), ProgramFault> {
        words.end()?;
        let kept = self.slots.count();
        self.open(kept, Shape::Arms(Arms::plain(self.alloc)))
    }

    /// Opens a loop that begins here.
    fn open_forever(&mut self, words: &mut Statement<'_>) -> Result<(), ProgramFault> {
        words.open()?;
        let round = Round {
            start: self.code.ops().len(),
            exits: Vec::new(self.alloc),
            counter: None,
        };
        let kept = self.slots.count();
        self.open(kept, Shape::Loop(round))
    }

    /// Opens a loop with a condition.
    fn open_while(&mut self, words: &mut Statement<'_>) -> Result<(), ProgramFault> {
        let start = self.code.ops().len();
        let exits = self.open_condition(words)?;
        let round = Round {
            start,
            exits,
            counter: None,
        };
        let kept = self.slots.count();
        self.open(kept, Shape::Loop(round))
    }

    /// Opens a loop of `count` rounds, which a kept word counts.
    fn open_repeat(&mut self, words: &mut Statement<'_>) -> Result<(), ProgramFault> {
        let kept = self.slots.count();
        let rounds = words.number(1, u64::MAX, "a number of rounds, 1 or more")?;
        words.open()?;
        let slot = self.slots.hold_rounds()?;
        self.code.push(Op::Keep(slot, Source::Number(0)))?;
        let round = Round {
            start: self.code.ops().len(),
            exits: Vec::new(self.alloc),
            counter: Some(Counter { slot, rounds }),
        };
        self.open(kept, Shape::Loop(round))
    }

    /// Opens the first arm of an `if`.
    fn open_if(&mut self, words: &mut Statement<'_>) -> Result<(), ProgramFault> {
        let arms = Arms {
            skips: self.open_condition(words)?,
            ends: Vec::new(self.alloc),
            is_last: false,
        };
        let kept = self.slots.count();
        self.open(kept, Shape::Arms(arms))
    }

    /// Reads a condition, and returns the indices of the lines that jump if it fails.
    fn open_condition(&mut self, words: &mut Statement<'_>) -> Result<Vec<usize>, ProgramFault> {
        let checks = read_condition(self.alloc, words, &self.slots)?;
        let mut skips = Vec::new(self.alloc);
        self.code.checks(checks.as_slice(), &mut skips)?;
        Ok(skips)
    }

    /// Closes the block that was opened last, or opens its next arm.
    fn close(&mut self, words: &mut Statement<'_>) -> Result<(), ProgramFault> {
        let Some(block) = self.blocks.pop() else {
            return Err(ProgramFault::NoBlock {
                word: self.word(b"}")?,
            });
        };
        let Block {
            line,
            kept,
            label,
            shape,
        } = block;
        match shape {
            Shape::Arms(arms) if words.peek().is_some() => {
                let arms = self.next_arm(kept, arms, words)?;
                self.blocks.push(Block {
                    line,
                    kept,
                    label,
                    shape: Shape::Arms(arms),
                })?;
                return Ok(());
            }
            Shape::Arms(arms) => self.close_arms(kept, arms)?,
            Shape::Loop(round) => {
                words.end()?;
                self.close_loop(line, kept, round)?;
            }
        }
        self.end_label(label)
    }

    /// Closes a loop. `EmptyRound` if a round is possible that gives no entry.
    fn close_loop(&mut self, line: u64, kept: usize, round: Round) -> Result<(), ProgramFault> {
        let head = round.head(kept);
        self.code.release(&mut self.slots, head.kept)?;
        let exit = self.go_round(head)?;
        if goes_round(self.alloc, self.code.ops(), head.start)? {
            return Err(ProgramFault::EmptyRound { opened: line });
        }
        if let Some(at) = exit {
            self.code.aim_here(&[at]);
        }
        self.code.aim_here(round.exits.as_slice());
        self.code.release(&mut self.slots, kept)?;
        Ok(())
    }

    /// Closes the arms of an `if`.
    fn close_arms(&mut self, kept: usize, arms: Arms) -> Result<(), ProgramFault> {
        self.code.release(&mut self.slots, kept)?;
        self.code.aim_here(arms.skips.as_slice());
        self.code.aim_here(arms.ends.as_slice());
        Ok(())
    }

    /// Closes an arm and begins the next: `else {` or `else if CONDITION {`.
    fn next_arm(
        &mut self,
        kept: usize,
        arms: Arms,
        words: &mut Statement<'_>,
    ) -> Result<Arms, ProgramFault> {
        let Arms {
            skips,
            mut ends,
            is_last,
        } = arms;
        words.expect("else")?;
        if is_last {
            return Err(ProgramFault::NoArm {
                word: self.word(b"else")?,
            });
        }
        self.code.release(&mut self.slots, kept)?;
        ends.push(self.code.jump(END)?)?;
        self.code.aim_here(skips.as_slice());
        let is_last = !words.take(b"if");
        let skips = if is_last {
            words.open()?;
            Vec::new(self.alloc)
        } else {
            self.open_condition(words)?
        };
        Ok(Arms {
            skips,
            ends,
            is_last,
        })
    }

    /// Adds the lines that begin the next round of a loop, if one is left. Returns the index of the
    /// line that leaves the loop, if its rounds are counted.
    fn go_round(&mut self, head: RoundHead) -> Result<Option<usize>, AllocError> {
        let mut exit = None;
        if let Some(counter) = head.counter {
            self.code.push(Op::Add(counter.slot, 1))?;
            exit = Some(self.code.ops().len());
            let count = Source::Saved(counter.slot);
            let test = Test::IsLess(count, Source::Number(counter.rounds));
            self.code.push(Op::Unless(test, END))?;
        }
        self.code.jump(head.start)?;
        Ok(exit)
    }

    /// Returns the index of the innermost loop among the open blocks, and the loop. `NoLoop` if
    /// none is open.
    fn innermost_loop(&self, word: &[u8]) -> Result<(usize, RoundHead), ProgramFault> {
        for place in (0..self.blocks.len()).rev() {
            if let Some(head) = self.blocks.get(place).and_then(|block| block.head()) {
                return Ok((place, head));
            }
        }
        Err(ProgramFault::NoLoop {
            word: self.word(word)?,
        })
    }

    /// Adds a line that leaves the loop at an index among the blocks.
    fn add_exit(&mut self, place: usize, at: usize) -> Result<(), AllocError> {
        match self.blocks.get_mut(place) {
            Some(block) => block.add_exit(at),
            None => Ok(()),
        }
    }

    /// Leaves the innermost loop.
    fn leave_round(&mut self, word: &[u8]) -> Result<(), ProgramFault> {
        let (place, head) = self.innermost_loop(word)?;
        self.code.clear(&self.slots, head.kept)?;
        let at = self.code.jump(END)?;
        self.add_exit(place, at)?;
        Ok(())
    }

    /// Begins the next round of the innermost loop.
    fn begin_next_round(&mut self, word: &[u8]) -> Result<(), ProgramFault> {
        let (place, head) = self.innermost_loop(word)?;
        self.code.clear(&self.slots, head.kept)?;
        if let Some(at) = self.go_round(head)? {
            self.add_exit(place, at)?;
        }
        Ok(())
    }

    /// Ends the program after its last line. `Open` if a block is open, `NoEntries` if there is no
    /// entry.
    pub fn end(self) -> Result<Program, FaultyLine>
        ensures { IfOk result IsProgram }
    {
        let line = self.line;
        if let Some(block) = self.blocks.last() {
            let line = block.line;
            let why = ProgramFault::Open;
            return Err(FaultyLine { line, why });
        }
        if self.code.entries() == 0 {
            let why = ProgramFault::NoEntries;
            return Err(FaultyLine { line, why });
        }
        match self.finish() {
            Ok(program) => Ok(program),
            Err(_) => Err(FaultyLine {
                line,
                why: ProgramFault::OutOfMemory,
            }),
        }
    }

    /// Returns the program, if no block is open.
    fn finish(mut self) -> Result<Program, AllocError>
        requires { 0 < length self.code.entries }
        ensures { IfOk result IsProgram }
    {
        self.code.release(&mut self.slots, 0)?;
        let (ops, entries, fills) = self.code.into_parts(self.alloc)?;
        Ok(Program {
            thread: self.thread,
            entries,
            ops,
            fills,
            labels: self.labels,
        })
    }
}
