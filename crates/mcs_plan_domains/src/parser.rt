//! Reads a plan with protection domains.
ghost use Rattle.std.specs.Prelude.{◌≡◌, ◌<◌, IfOk, IfSome, OnOk, length};
ghost use Rattle.mcs_plan_domains.specs.Joins.{AddsChannel, AllJoin, HasEnds, JoinsMore, called_at, with_line};

use crate::badges::CHANNEL_MAX;
use crate::cursor::Cursor;
use crate::ends::End;
use crate::statements::{Statement, statements_of};
use crate::system::{Channel, Domain, Event, Handler, Plain, System};
use mcs_plan_source::{
    PlanError, PlanFault, Shown, add_word, is_name, not, number, split_comment, split_words,
};
use std::alloc::{AllocError, Global};

/// The greatest priority of a domain; the monitor has the next one (manual of Microkit).
const PRIORITY_MAX: u64 = 254;

/// The greatest number of a core.
const CORE_MAX: u64 = 15;

/// What faults say about an end of a channel.
const END: &str = "an end of a channel: a domain and a number from 0 to 62, as client.1";

/// What is open while a plan is read.
#[derive(Clone, Copy)]
enum Open {
    Plan,
    Domain,
    /// A handler with this many blocks.
    Handler { blocks: usize },
}

/// The reader of a plan, line by line.
#[derive(Drop)]
struct Reader<'a> {
    alloc: Global,
    system: System<'a>,
    /// The lines of channels, which may name domains that come later.
    channels: Vec<Statement<'a>>,
    open: Open,
}

/// Returns the fault with this text; OutOfMemory if the text could not be allocated.
pub fn program_error(text: Result<String, AllocError>) -> PlanError {
    match text {
        Ok(message) => PlanError::Program { message },
        Err(AllocError) => PlanError::OutOfMemory,
    }
}

/// Returns the fault of a name that exists already.
fn twice(alloc: Global, word: &str) -> PlanError {
    match String::from_str(alloc, word) {
        Ok(word) => PlanError::Twice { word },
        Err(AllocError) => PlanError::OutOfMemory,
    }
}

/// Returns whether a line begins entries of users.
fn begins_entries(words: &[&str]) -> bool {
    match words.first() {
        Some(word) => *word == "program" || *word == "user" || word.ends_with(":"),
        None => false,
    }
}

/// Returns whether a line begins a domain or a channel; a thread may have such a name, as in `pd
/// has ..` or `pd on core 1: ..`.
fn begins_system(words: &[&str]) -> bool {
    match words {
        [first, second, ..] => is_system(first) && *second != "has" && *second != "on",
        [first] => is_system(first),
        [] => false,
    }
}

/// Returns whether a word begins a domain or a channel.
fn is_system(word: &str) -> bool {
    word == "pd" || word == "channel"
}

/// Reads when a handler runs.
fn read_event(alloc: Global, first: &str, words: &mut Cursor<'_>) -> Result<Event, PlanError> {
    if first == "init" {
        return Ok(Event::Init);
    }
    let is_protected = first == "protected";
    let is_notified = first == "notified";
    if !is_protected && !is_notified {
        return Err(not(alloc, first, "init, protected, notified, let or }"));
    }
    let channel = words.number("a channel, from 0 to 62", CHANNEL_MAX)?;
    if is_protected {
        return Ok(Event::Protected(channel));
    }
    Ok(Event::Notified(channel))
}

/// Reads the `{` at the end of a statement.
fn read_opening(words: &mut Cursor<'_>) -> Result<(), PlanError> {
    words.expect("{")?;
    words.end()
}

/// Reads when a handler runs, and what opens it.
fn read_handler(alloc: Global, first: &str, words: &mut Cursor<'_>) -> Result<Event, PlanError> {
    let event = read_event(alloc, first, words)?;
    read_opening(words)?;
    Ok(event)
}

/// Returns when a handler runs that this statement begins.
fn event_of(alloc: Global, statement: &Statement<'_>) -> Result<Event, PlanError> {
    let mut words = Cursor::new(alloc, &statement.words, 1);
    read_handler(alloc, statement.first(), &mut words)
}

/// What the line of a domain says after its name.
#[derive(Clone, Copy)]
struct Parts {
    priority: u64,
    core: u64,
    is_passive: bool,
}

/// Reads `on core N`, if the line says it.
fn read_core(words: &mut Cursor<'_>) -> Result<u64, PlanError> {
    if !words.takes("on") {
        return Ok(0);
    }
    words.expect("core")?;
    words.number("a core, from 0 to 15", CORE_MAX)
}

/// Reads the parts of a domain after its name: `prio P`, `on core N`, `passive`.
fn read_parts(words: &mut Cursor<'_>) -> Result<Parts, PlanError> {
    words.expect("prio")?;
    let priority = words.number("a priority, from 0 to 254", PRIORITY_MAX)?;
    let core = read_core(words)?;
    Ok(Parts {
        priority,
        core,
        is_passive: words.takes("passive"),
    })
}

/// Reads what the line of a domain says after its name.
fn read_after(words: &mut Cursor<'_>) -> Result<Parts, PlanError> {
    let parts = read_parts(words)?;
    read_opening(words)?;
    Ok(parts)
}

/// Reads the name of a domain.
fn read_name<'a>(alloc: Global, statement: &Statement<'a>) -> Result<&'a str, PlanError> {
    let Some(name) = statement.words.get(1) else {
        return Err(PlanError::Missing {
            wanted: "the name of a domain",
        });
    };
    if !is_name(name) {
        return Err(not(
            alloc,
            name,
            "a name: a letter, and then letters, digits, -, _ or .",
        ));
    }
    Ok(*name)
}

/// Reads the line that begins a domain, which has this number.
fn read_domain<'a>(
    alloc: Global,
    statement: &Statement<'a>,
    number: u64,
) -> Result<Domain<'a>, PlanError> {
    let name = read_name(alloc, statement)?;
    let mut words = Cursor::new(alloc, &statement.words, 2);
    let parts = read_after(&mut words)?;
    Ok(Domain {
        name,
        line: statement.line,
        priority: parts.priority,
        core: parts.core,
        is_passive: parts.is_passive,
        is_called: false,
        number,
        kept: Vec::new(alloc),
        handlers: Vec::new(alloc),
    })
}

impl<'a> System<'a> {
    /// Returns a system without domains.
    fn new(alloc: Global) -> System<'a> {
        System {
            domains: Vec::new(alloc),
            channels: Vec::new(alloc),
            heads: Vec::new(alloc),
            tails: Vec::new(alloc),
            questions: Vec::new(alloc),
        }
    }

    /// Adds a line that says nothing of domains.
    fn add_plain(
        &mut self,
        alloc: Global,
        plain: Plain<'a>,
        words: &[&str],
    ) -> Result<(), AllocError> {
        if plain.text.trim().starts_with("#!") {
            return self.add_question(alloc, plain);
        }
        if begins_entries(words) || !self.tails.is_empty() {
            self.tails.push(plain)?;
            return Ok(());
        }
        self.heads.push(plain)?;
        Ok(())
    }

    /// Adds a question.
    fn add_question(&mut self, alloc: Global, plain: Plain<'a>) -> Result<(), AllocError> {
        let words = split_words(alloc, plain.text)?;
        let line = plain.line;
        self.questions.push(Statement { words, line })?;
        Ok(())
    }

    /// Returns the names of all domains.
    fn names(&self, alloc: Global) -> Result<String, AllocError> {
        let mut there = String::new(alloc);
        for domain in self.domains.iter() {
            add_word(&mut there, domain.name)?;
        }
        Ok(there)
    }

    /// Returns the fault of a name that no domain has.
    fn no_domain(&self, alloc: Global, name: &str) -> Result<PlanError, AllocError> {
        Ok(PlanError::NoName {
            word: String::from_str(alloc, name)?,
            wanted: "a domain",
            there: self.names(alloc)?,
        })
    }

    /// Reads an end of a channel. `Twice` if another channel has it.
    fn end_of(&self, alloc: Global, word: &str) -> Result<End, PlanError>
        ensures { IfOk result (λ e. e.domain < length self.now.domains.items) }
    {
        let Some((name, digits)) = word.rsplit_once('.') else {
            return Err(not(alloc, word, END));
        };
        let Some(domain) = self.find(name) else {
            return Err(self.no_domain(alloc, name)?);
        };
        let Some(channel) = number(digits) else {
            return Err(not(alloc, word, END));
        };
        if channel > CHANNEL_MAX {
            return Err(not(alloc, word, END));
        }
        let end = End { domain, channel };
        if self.channel(end).is_some() {
            return Err(twice(alloc, word));
        }
        Ok(end)
    }

    /// Returns the priority of the domain at an index.
    fn priority(&self, place: usize) -> u64 {
        match self.domains.get(place) {
            Some(domain) => domain.priority,
            None => 0,
        }
    }

    /// Adds a channel between two ends.
    fn add_channel(
        &mut self,
        alloc: Global,
        channel: Channel,
        second: &str,
    ) -> Result<(), PlanError>
        ensures { OnOk result (AddsChannel self.old channel self.new) }
    {
        if channel.first == channel.second {
            return Err(twice(alloc, second));
        }
        if channel.first.domain == channel.second.domain {
            return Err(program_error(String::from_str(alloc, "a channel joins two domains")));
        }
        self.channels.push(channel)?;
        if channel.is_called {
            self.note_called(channel.second.domain);
        }
        Ok(())
    }

    /// Notes that the domain in a place may be called.
    #[tactic(auto, using(crate::proofs::Joins::called_nowhere))]
    fn note_called(&mut self, place: usize)
        ensures domains { self.new.domains.items ≡ called_at self.old.domains.items place }
        ensures channels { self.new.channels.items ≡ self.old.channels.items }
    {
        if let Some(domain) = self.domains.get_mut(place) {
            domain.be_called();
        }
    }

    /// Reads an end of a channel, the next word.
    fn read_end<'w>(
        &self,
        alloc: Global,
        words: &mut Cursor<'w>,
    ) -> Result<(End, &'w str), PlanError>
        ensures { IfOk result (λ e. e.0.domain < length self.now.domains.items) }
    {
        let word = words.need(END)?;
        Ok((self.end_of(alloc, word)?, word))
    }

    /// Reads whether a channel has protected procedures: `pp`, or `pp any priority`. A fault where
    /// the domain at its second end, which this word names, may not be called from the first.
    fn read_called(
        &self,
        alloc: Global,
        words: &mut Cursor<'_>,
        (first, second): (End, End),
        word: &str,
    ) -> Result<bool, PlanError> {
        if !words.takes("pp") {
            return Ok(false);
        }
        let allows_any = is_any(words)?;
        if !allows_any && self.priority(second.domain) <= self.priority(first.domain) {
            return Err(no_higher(alloc, word));
        }
        Ok(true)
    }

    /// Reads what a line says of a channel: `client.1 server.1 pp`. Returns the word of its second
    /// end, too.
    fn channel_said<'w>(
        &self,
        alloc: Global,
        line: u64,
        words: &mut Cursor<'w>,
    ) -> Result<(Channel, &'w str), PlanError>
        ensures { IfOk result (λ c. HasEnds self.now c.0) }
    {
        let (first, _word) = self.read_end(alloc, words)?;
        let (second, word) = self.read_end(alloc, words)?;
        let is_called = self.read_called(alloc, words, (first, second), word)?;
        words.end()?;
        let channel = Channel {
            line,
            first,
            second,
            is_called,
        };
        Ok((channel, word))
    }

    /// Reads a line of a channel: `channel client.1 server.1 pp`.
    #[tactic(auto, using(crate::proofs::Joins::adds_more))]
    fn read_channel(&mut self, alloc: Global, statement: &Statement<'a>) -> Result<(), PlanError>
        ensures { OnOk result (JoinsMore self.old self.new) }
    {
        let mut words = Cursor::new(alloc, &statement.words, 1);
        let (channel, word) = self.channel_said(alloc, statement.line, &mut words)?;
        self.add_channel(alloc, channel, word)
    }

    /// Reads the lines of all channels.
    #[tactic(auto, using(crate::proofs::Joins::join_more, crate::proofs::Joins::none_join))]
    fn read_channels(&mut self, alloc: Global, channels: &[Statement<'a>]) -> Result<(), PlanFault>
        ensures { OnOk result (AllJoin self.new) }
    {
        self.channels.clear();
        for channel in channels {
            at(channel.line, self.read_channel(alloc, channel))?;
        }
        Ok(())
    }
}

/// Takes `any priority`, if these words are next, and returns whether they were.
fn is_any(words: &mut Cursor<'_>) -> Result<bool, PlanError> {
    if !words.takes("any") {
        return Ok(false);
    }
    words.expect("priority")?;
    Ok(true)
}

/// Returns the fault of a call to a domain without higher priority.
fn no_higher(alloc: Global, word: &str) -> PlanError {
    let shown = Shown { text: word };
    program_error(format!(in alloc;
        "{shown} is called by a domain of no lower priority; `pp any priority` allows that"
    ))
}

impl<'a> Reader<'a> {
    /// Reads a line.
    fn read_line(&mut self, line: u64, text: &'a str) -> Result<(), PlanError> {
        let (code, _comment) = split_comment(text);
        let words = split_words(self.alloc, code)?;
        self.read_words(Plain { line, text }, &words)
    }

    /// Reads a line of these words.
    fn read_words(&mut self, plain: Plain<'a>, words: &[&'a str]) -> Result<(), PlanError> {
        if self.is_plain(words) {
            return Ok(self.system.add_plain(self.alloc, plain, words)?);
        }
        self.take_all(statements_of(self.alloc, plain.line, words)?)
    }

    /// Takes statements of a system.
    fn take_all(&mut self, statements: Vec<Statement<'a>>) -> Result<(), PlanError> {
        for statement in statements {
            self.take(statement)?;
        }
        Ok(())
    }

    /// Returns whether a line says nothing of domains.
    fn is_plain(&self, words: &[&str]) -> bool {
        match self.open {
            Open::Plan => !begins_system(words),
            Open::Domain | Open::Handler { .. } => false,
        }
    }

    /// Takes a statement of a system.
    fn take(&mut self, statement: Statement<'a>) -> Result<(), PlanError> {
        match self.open {
            Open::Plan => self.take_outside(statement),
            Open::Domain => self.take_part(statement),
            Open::Handler { blocks } => self.take_inside(statement, blocks),
        }
    }

    /// Takes a statement outside of domains.
    fn take_outside(&mut self, statement: Statement<'a>) -> Result<(), PlanError> {
        if statement.first() == "channel" {
            self.channels.push(statement)?;
            return Ok(());
        }
        self.begin_domain(&statement)
    }

    /// Takes the statement that begins a domain.
    fn begin_domain(&mut self, statement: &Statement<'a>) -> Result<(), PlanError> {
        let first = statement.first();
        if first != "pd" {
            return Err(not(self.alloc, first, "pd or channel"));
        }
        let number = (self.system.domains.len() as u64).saturating_add(1);
        let domain = read_domain(self.alloc, statement, number)?;
        if self.system.find(domain.name).is_some() {
            return Err(twice(self.alloc, domain.name));
        }
        self.system.domains.push(domain)?;
        self.open = Open::Domain;
        Ok(())
    }

    /// Takes a statement of a domain outside of handlers.
    fn take_part(&mut self, statement: Statement<'a>) -> Result<(), PlanError> {
        if statement.closes() {
            return self.close(&statement, Open::Plan);
        }
        if statement.first() == "let" {
            return Ok(self.keep(statement)?);
        }
        self.begin_handler(&statement)
    }

    /// Takes the statement that closes the innermost block. `open` is what is open after it.
    fn close(&mut self, statement: &Statement<'a>, open: Open) -> Result<(), PlanError> {
        Cursor::new(self.alloc, &statement.words, 1).end()?;
        self.open = open;
        Ok(())
    }

    /// Takes a word that the domain keeps.
    fn keep(&mut self, statement: Statement<'a>) -> Result<(), AllocError> {
        if let Some(domain) = self.system.domains.last_mut() {
            domain.kept.push(statement)?;
        }
        Ok(())
    }

    /// Takes the statement that begins a handler.
    fn begin_handler(&mut self, statement: &Statement<'a>) -> Result<(), PlanError> {
        let Some(domain) = self.system.domains.last_mut() else {
            return Ok(());
        };
        let event = event_of(self.alloc, statement)?;
        if domain.handler(event).is_some() {
            return Err(twice(self.alloc, statement.first()));
        }
        domain.handlers.push(Handler {
            event,
            line: statement.line,
            statements: Vec::new(self.alloc),
        })?;
        self.open = Open::Handler { blocks: 0 };
        Ok(())
    }

    /// Takes a statement of a handler in which this many blocks are open.
    fn take_inside(&mut self, statement: Statement<'a>, blocks: usize) -> Result<(), PlanError> {
        if statement.closes() && blocks == 0 {
            return self.close(&statement, Open::Domain);
        }
        let still = blocks.saturating_sub(usize::from(statement.closes()));
        let blocks = still.saturating_add(usize::from(statement.opens()));
        self.open = Open::Handler { blocks };
        Ok(self.add_inside(statement)?)
    }

    /// Adds a statement to the last handler.
    fn add_inside(&mut self, statement: Statement<'a>) -> Result<(), AllocError> {
        let Some(domain) = self.system.domains.last_mut() else {
            return Ok(());
        };
        if let Some(handler) = domain.handlers.last_mut() {
            handler.statements.push(statement)?;
        }
        Ok(())
    }

    /// Reads all lines of a plan.
    fn read_all(&mut self, plan: &'a str) -> Result<(), PlanFault> {
        let mut line: u64 = 0;
        for text in plan.lines() {
            line = line.saturating_add(1);
            at(line, self.read_line(line, text))?;
        }
        self.end()
    }

    /// Ends the plan. Unclosed where a domain is open.
    fn end(&self) -> Result<(), PlanFault> {
        match self.open {
            Open::Plan => Ok(()),
            Open::Domain | Open::Handler { .. } => Err(self.unclosed()),
        }
    }

    /// Returns the fault of the last domain, which is not closed.
    fn unclosed(&self) -> PlanFault {
        let opened = match self.system.domains.last() {
            Some(domain) => domain.line,
            None => 0,
        };
        PlanFault {
            line: opened,
            why: PlanError::Unclosed { opened },
        }
    }
}

/// Returns a fault with its line.
fn at<T: Drop>(line: u64, done: Result<T, PlanError>) -> Result<T, PlanFault>
    ensures { result ≡ with_line line done }
{
    match done {
        Ok(value) => Ok(value),
        Err(why) => Err(PlanFault { line, why }),
    }
}

/// Returns what was read of all lines of a plan.
fn read_lines<'a>(alloc: Global, plan: &'a str) -> Result<Reader<'a>, PlanFault> {
    let mut reader = Reader {
        alloc,
        system: System::new(alloc),
        channels: Vec::new(alloc),
        open: Open::Plan,
    };
    reader.read_all(plan)?;
    Ok(reader)
}

/// Reads a plan. None if it has neither a domain nor a channel. Each channel joins two domains
/// (`Joins`). The faults name the line and the word.
pub fn read_system<'a>(alloc: Global, plan: &'a str) -> Result<Option<System<'a>>, PlanFault>
    ensures { IfOk result (λ o. IfSome o (λ s. AllJoin s)) }
{
    let Reader {
        alloc: _,
        mut system,
        channels,
        open: _,
    } = read_lines(alloc, plan)?;
    if system.domains.is_empty() && channels.is_empty() {
        return Ok(None);
    }
    system.read_channels(alloc, &channels)?;
    Ok(Some(system))
}
