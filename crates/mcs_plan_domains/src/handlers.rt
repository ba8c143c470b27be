//! Lowers the statements of handlers to those of programs.
use crate::badges::CHANNEL_MAX;
use crate::cursor::Cursor;
use crate::ends::End;
use crate::inputs::{Input, put_receive, put_reply, put_send_receive};
use crate::lowered::Lowered;
use crate::parser::program_error;
use crate::statements::Statement;
use crate::system::{Channel, Domain, Event, System};
use crate::words::has;
use mcs_plan_source::{PlanError, Shown, not};
use std::alloc::{AllocError, Global};

/// An open block of a handler.
#[derive(Clone, Copy)]
struct Block {
    is_loop: bool,
    is_if: bool,
    has_else: bool,
    /// Whether all earlier arms of the `if` leave the handler.
    arms_end: bool,
    /// Whether the last statement leaves the handler or the loop.
    is_ended: bool,
}

/// The outermost block of a handler.
const HANDLER: Block = Block {
    is_loop: false,
    is_if: false,
    has_else: false,
    arms_end: true,
    is_ended: false,
};

/// The translation of a domain's handlers to statements of its program.
#[derive(Drop)]
pub struct Lowerer<'s, 'a> {
    alloc: Global,
    system: &'s System<'a>,
    pub domain: &'s Domain<'a>,
    place: usize,
    pub is_called: bool,
    event: Event,
    pub depth: usize,
    blocks: Vec<Block>,
    /// How many entries receive so far: they are named `input1` and so on.
    pub inputs: u64,
}

/// Returns whether a word names what follows it.
fn is_label(word: &str) -> bool {
    word.ends_with(":")
}

/// Returns whether one of the first two words of a statement is this one.
fn begins(statement: &Statement<'_>, wanted: &str) -> bool {
    has(statement.words.get(..2).unwrap_or(&statement.words), wanted)
}

/// Returns whether a statement begins a loop.
fn is_loop(statement: &Statement<'_>) -> bool {
    begins(statement, "forever") || begins(statement, "while") || begins(statement, "repeat")
}

/// Returns the fault for a word that is not allowed in its place.
fn misplaced(alloc: Global, word: &str, why: &'static str) -> PlanError {
    let shown = Shown { text: word };
    program_error(format!(in alloc; "{shown} {why}"))
}

impl<'s, 'a> Lowerer<'s, 'a> {
    /// Returns the translation for the domain at an index, if it exists.
    pub fn new(alloc: Global, system: &'s System<'a>, place: usize) -> Option<Lowerer<'s, 'a>> {
        let domain = system.domains.get(place)?;
        Some(Lowerer {
            alloc,
            system,
            domain,
            place,
            is_called: domain.is_called,
            event: Event::Init,
            depth: 1,
            blocks: Vec::new(alloc),
            inputs: 0,
        })
    }

    /// Returns the name and the depth of the next entry that receives.
    fn next_input(&mut self) -> Input {
        self.inputs = self.inputs.saturating_add(1);
        Input {
            depth: self.depth,
            number: self.inputs,
        }
    }

    /// Appends an entry that only receives.
    pub fn put_receive(&mut self, out: &mut Lowered, line: u64) -> Result<(), AllocError> {
        let input = self.next_input();
        put_receive(out, input, self.domain, line)
    }

    /// Appends an entry that notifies with this capability, and receives.
    pub fn put_send_receive(
        &mut self,
        out: &mut Lowered,
        line: u64,
        capability: &str,
        channel: Option<u64>,
    ) -> Result<(), AllocError> {
        let input = self.next_input();
        put_send_receive(out, input, self.domain, line, capability, channel)
    }

    /// Appends an entry that replies with these words, and receives.
    pub fn put_reply(
        &mut self,
        out: &mut Lowered,
        line: u64,
        words: &[&str],
    ) -> Result<(), AllocError> {
        let input = self.next_input();
        put_reply(out, input, self.domain, line, words)
    }

    /// Begins the statements of a handler.
    pub fn begin(&mut self, event: Event) -> Result<(), PlanError> {
        self.event = event;
        self.blocks.clear();
        self.blocks.push(HANDLER)?;
        Ok(())
    }

    /// Returns whether the statements so far leave the handler.
    pub fn is_ended(&self) -> bool {
        match self.blocks.last() {
            Some(block) => block.is_ended,
            None => false,
        }
    }

    /// Notes whether the last statement of the open block leaves it.
    fn note_end(&mut self, is_ended: bool) {
        if let Some(block) = self.blocks.last_mut() {
            block.is_ended = is_ended;
        }
    }

    /// Returns whether a loop of the handler is open.
    fn is_in_loop(&self) -> bool {
        for block in &self.blocks {
            if block.is_loop {
                return true;
            }
        }
        false
    }

    /// Returns whether a block of the handler is open.
    fn is_in_block(&self) -> bool {
        self.blocks.len() > 1
    }

    /// Opens a block, which may be the next arm of an `if`.
    fn open(&mut self, statement: &Statement<'_>, before: Option<Block>) -> Result<(), AllocError> {
        self.blocks.push(block_of(statement, before))?;
        self.depth = self.depth.saturating_add(1);
        Ok(())
    }

    /// Closes a block.
    fn close(&mut self) -> Option<Block> {
        self.depth = self.depth.saturating_sub(1);
        self.blocks.pop()
    }

    /// Appends a statement unchanged.
    fn put_words(&self, out: &mut Lowered, statement: &Statement<'_>) -> Result<(), AllocError> {
        let mut between = "";
        out.indent(self.depth)?;
        for word in statement.words.iter() {
            out.put(between)?;
            out.put(word)?;
            between = " ";
        }
        out.end(statement.line)
    }

    /// Puts a statement that opens or closes a block.
    fn put_block(
        &mut self,
        out: &mut Lowered,
        statement: &Statement<'_>,
    ) -> Result<(), AllocError> {
        if !statement.closes() {
            self.put_words(out, statement)?;
            return self.open(statement, None);
        }
        let closed = self.close();
        self.put_words(out, statement)?;
        if statement.opens() {
            return self.open(statement, closed);
        }
        self.note_end(match closed {
            Some(block) => is_left_by(block),
            None => false,
        });
        Ok(())
    }

    /// Returns the channel with a number. Fails if the domain has none.
    fn channel(&self, end: End) -> Result<Channel, PlanError> {
        match self.system.channel(end) {
            Some(channel) => Ok(channel),
            None => Err(self.no_channel(end.channel)),
        }
    }

    /// Returns the fault of a missing channel.
    fn no_channel(&self, number: u64) -> PlanError {
        let shown = Shown {
            text: self.domain.name,
        };
        program_error(format!(in self.alloc; "{shown} has no channel {number}"))
    }

    /// Returns the fault of a channel over which the domain may call nothing.
    fn no_procedures(&self, number: u64) -> PlanError {
        let shown = Shown {
            text: self.domain.name,
        };
        program_error(format!(in self.alloc;
            "{shown} has no protected procedures to call over channel {number}"
        ))
    }

    /// Reads the number of a channel that the domain has.
    fn need_channel(&self, words: &mut Cursor<'_>) -> Result<(End, Channel), PlanError> {
        let channel = words.number("a channel, from 0 to 62", CHANNEL_MAX)?;
        let own = End {
            domain: self.place,
            channel,
        };
        Ok((own, self.channel(own)?))
    }

    /// Appends the beginning of an entry: its name, if it has one, and what it invokes.
    fn put_entry(
        &self,
        out: &mut Lowered,
        label: Option<&str>,
        text: &str,
        number: u64,
    ) -> Result<(), AllocError> {
        out.indent(self.depth)?;
        put_label(out, label)?;
        out.counted(text, number)
    }

    /// Appends `notify CHANNEL`.
    fn put_notify(
        &self,
        out: &mut Lowered,
        line: u64,
        label: Option<&str>,
        words: &mut Cursor<'_>,
    ) -> Result<(), PlanError> {
        let (own, _channel) = self.need_channel(words)?;
        words.end()?;
        self.put_entry(out, label, "signal notify.", own.channel)?;
        Ok(out.end(line)?)
    }

    /// Appends `ppcall CHANNEL LABEL WORDS`.
    fn put_ppcall(
        &self,
        out: &mut Lowered,
        line: u64,
        label: Option<&str>,
        words: &mut Cursor<'_>,
    ) -> Result<(), PlanError> {
        let (own, channel) = self.need_channel(words)?;
        if !channel.is_called || channel.first != own {
            return Err(self.no_procedures(own.channel));
        }
        self.put_entry(out, label, "call ppcall.", own.channel)?;
        out.words(words.rest())?;
        Ok(out.end(line)?)
    }

    /// Appends `deferred notify CHANNEL`: the channel is kept until the next entry that receives.
    fn put_deferred(
        &self,
        out: &mut Lowered,
        line: u64,
        words: &mut Cursor<'_>,
    ) -> Result<(), PlanError> {
        words.expect("notify")?;
        let (own, _channel) = self.need_channel(words)?;
        words.end()?;
        self.put_entry(out, None, "deferred = ", own.channel.saturating_add(1))?;
        Ok(out.end(line)?)
    }

    /// Appends `reply LABEL WORDS`, which leaves the handler: the domain replies and receives.
    fn put_answer(
        &mut self,
        out: &mut Lowered,
        line: u64,
        words: &[&str],
        is_last: bool,
    ) -> Result<(), PlanError> {
        if !answers(self.event) {
            return Err(misplaced(self.alloc, "reply", "stands in no protected handler"));
        }
        if self.is_in_loop() {
            return Err(misplaced(
                self.alloc,
                "reply",
                "stands in a loop of its handler: keep a word, and break",
            ));
        }
        self.put_reply(out, line, words)?;
        if !is_last || self.is_in_block() {
            out.line(line, self.depth, "continue")?;
        }
        Ok(())
    }

    /// Appends a statement that neither opens nor closes a block.
    fn put_simple(
        &mut self,
        out: &mut Lowered,
        statement: &Statement<'a>,
        is_last: bool,
    ) -> Result<(), PlanError> {
        let first = statement.first();
        let label = if is_label(first) { Some(first) } else { None };
        let mut words = Cursor::new(self.alloc, &statement.words, usize::from(label.is_some()));
        self.put_named(out, statement, label, &mut words, is_last)
    }

    /// Puts such a statement, whose other words are these, with its name.
    fn put_named(
        &mut self,
        out: &mut Lowered,
        statement: &Statement<'a>,
        label: Option<&str>,
        words: &mut Cursor<'_>,
        is_last: bool,
    ) -> Result<(), PlanError> {
        let keyword = words.need("a statement")?;
        self.note_end(is_ending(keyword));
        if keyword == "notify" {
            return self.put_notify(out, statement.line, label, words);
        }
        if keyword == "ppcall" {
            return self.put_ppcall(out, statement.line, label, words);
        }
        self.put_other(out, statement, keyword, label, is_last)
    }

    /// Appends a statement that is not an entry over a channel.
    fn put_other(
        &mut self,
        out: &mut Lowered,
        statement: &Statement<'a>,
        keyword: &str,
        label: Option<&str>,
        is_last: bool,
    ) -> Result<(), PlanError> {
        if keyword != "deferred" && keyword != "reply" {
            return self.put_kept_words(out, statement, keyword);
        }
        if let Some(label) = label {
            return Err(not(self.alloc, label, "the name of an entry or a block"));
        }
        let mut words = Cursor::new(self.alloc, &statement.words, 1);
        if keyword == "deferred" {
            return self.put_deferred(out, statement.line, &mut words);
        }
        self.put_answer(out, statement.line, words.rest(), is_last)
    }

    /// Puts a statement that begins with this word as it is. Fails if the statement leaves a loop
    /// but is in none.
    fn put_kept_words(
        &self,
        out: &mut Lowered,
        statement: &Statement<'_>,
        keyword: &str,
    ) -> Result<(), PlanError> {
        let leaves = keyword == "break" || keyword == "continue";
        if leaves && !self.is_in_loop() {
            return Err(misplaced(self.alloc, keyword, "stands in no loop of its handler"));
        }
        Ok(self.put_words(out, statement)?)
    }

    /// Appends a statement of a handler, which may be its last.
    pub fn put_statement(
        &mut self,
        out: &mut Lowered,
        statement: &Statement<'a>,
        is_last: bool,
    ) -> Result<(), PlanError> {
        if statement.opens() || statement.closes() {
            return Ok(self.put_block(out, statement)?);
        }
        self.put_simple(out, statement, is_last)
    }
}

/// Puts the name of an entry, if it has one.
fn put_label(out: &mut Lowered, label: Option<&str>) -> Result<(), AllocError> {
    match label {
        Some(label) => {
            out.put(label)?;
            out.put(" ")
        }
        None => Ok(()),
    }
}

/// Returns the block that a statement opens, which may be the next arm of an `if`.
fn block_of(statement: &Statement<'_>, before: Option<Block>) -> Block {
    let is_loop = is_loop(statement);
    match before {
        Some(block) => Block {
            is_loop,
            is_if: true,
            has_else: !has(&statement.words, "if"),
            arms_end: block.arms_end && block.is_ended,
            is_ended: false,
        },
        None => Block {
            is_loop,
            is_if: begins(statement, "if"),
            has_else: false,
            arms_end: true,
            is_ended: false,
        },
    }
}

/// Returns whether a handler is that of a protected procedure, which answers.
pub fn answers(event: Event) -> bool {
    match event {
        Event::Protected(_) => true,
        Event::Init | Event::Notified(_) => false,
    }
}

/// Returns whether what follows a block is unreachable.
fn is_left_by(block: Block) -> bool {
    if block.is_loop {
        return false;
    }
    if block.is_if {
        return block.has_else && block.arms_end && block.is_ended;
    }
    block.is_ended
}

/// Returns whether a statement leaves its handler or its loop.
fn is_ending(keyword: &str) -> bool {
    keyword == "reply" || keyword == "stop" || keyword == "break" || keyword == "continue"
}

/// Returns whether a statement becomes an entry.
pub fn is_entry(statement: &Statement<'_>) -> bool {
    let label = usize::from(is_label(statement.first()));
    let keyword = statement.word(label);
    if statement.opens() || statement.closes() || is_ending(keyword) {
        return keyword == "reply";
    }
    !changes(statement.word(label.saturating_add(1))) && !keeps(keyword)
}

/// Returns whether a word says that the one before it changes.
fn changes(word: &str) -> bool {
    word == "=" || word == "+=" || word == "-="
}

/// Returns whether a statement keeps a word or a channel.
fn keeps(keyword: &str) -> bool {
    keyword == "let" || keyword == "deferred"
}
