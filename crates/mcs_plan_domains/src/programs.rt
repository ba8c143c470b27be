//! The program of a domain: the loop of libmicrokit around its handlers.
use crate::badges::{CHANNEL_MAX, called_badge};
use crate::fault::{Refused, at};
use crate::handlers::{Lowerer, answers, is_entry};
use crate::lowered::Lowered;
use crate::statements::Statement;
use crate::system::{Domain, Event, Handler, System};
use crate::words::is;
use mcs_plan_source::number;
use std::alloc::{AllocError, Global};

/// Returns whether a statement keeps a channel to be notified later: this one, if one is asked for.
fn is_deferred(words: &[&str], channel: Option<u64>) -> bool {
    if !is(words.first(), "deferred") {
        return false;
    }
    if channel.is_none() {
        return true;
    }
    match words.get(2) {
        Some(word) => number(word) == channel,
        None => false,
    }
}

/// Returns whether one of these statements keeps such a channel.
fn any_deferred(statements: &[Statement<'_>], channel: Option<u64>) -> bool {
    for statement in statements {
        if is_deferred(&statement.words, channel) {
            return true;
        }
    }
    false
}

/// Returns whether a domain has a deferred notification: of this channel, if one is asked for.
fn defers(handlers: &[Handler<'_>], channel: Option<u64>) -> bool {
    for handler in handlers {
        if any_deferred(&handler.statements, channel) {
            return true;
        }
    }
    false
}

/// Returns whether one of these statements becomes an entry.
fn has_entry(statements: &[Statement<'_>]) -> bool {
    for statement in statements {
        if is_entry(statement) {
            return true;
        }
    }
    false
}

/// Puts the name of an event.
fn put_event_name(out: &mut Lowered, event: Event) -> Result<(), AllocError> {
    match event {
        Event::Init => out.put("init"),
        Event::Protected(channel) => out.counted("protected.", channel),
        Event::Notified(channel) => out.counted("notified.", channel),
    }
}

/// Returns the handler of an event, if there is one that has statements.
fn full_handler<'s, 'a>(domain: &'s Domain<'a>, event: Event) -> Option<&'s Handler<'a>> {
    let handler = domain.handler(event)?;
    if handler.statements.is_empty() {
        return None;
    }
    Some(handler)
}

impl<'s, 'a> Lowerer<'s, 'a> {
    /// Appends the name of a handler's block.
    fn put_name(&self, out: &mut Lowered, event: Event) -> Result<(), AllocError> {
        out.indent(self.depth)?;
        put_event_name(out, event)?;
        out.put(": ")
    }

    /// Puts where the block of a handler begins, with its name if it has an entry.
    fn put_head(&self, out: &mut Lowered, handler: &Handler<'_>) -> Result<(), AllocError> {
        if !answers(handler.event) && !has_entry(&handler.statements) {
            return out.line(handler.line, self.depth, "{");
        }
        self.put_name(out, handler.event)?;
        out.last(handler.line, "{")
    }

    /// Puts where a block ends, which is one deeper.
    fn put_close(&mut self, out: &mut Lowered, line: u64, text: &str) -> Result<(), AllocError> {
        self.depth = self.depth.saturating_sub(1);
        out.line(line, self.depth, text)
    }

    /// Puts the line that opens a block; the following lines are in it.
    fn put_open(&mut self, out: &mut Lowered, line: u64, text: &str) -> Result<(), AllocError> {
        out.line(line, self.depth, text)?;
        self.depth = self.depth.saturating_add(1);
        Ok(())
    }

    /// Puts the statements of a handler.
    fn put_statements(
        &mut self,
        out: &mut Lowered,
        handler: &'s Handler<'a>,
    ) -> Result<(), Refused> {
        let last = handler.statements.len().saturating_sub(1);
        for (place, statement) in handler.statements.iter().enumerate() {
            at(
                statement.line,
                self.put_statement(out, statement, place == last),
            )?;
        }
        Ok(())
    }

    /// Appends a handler as a block, which has a name if it has an entry. The block of a protected
    /// procedure ends with a reply of label 0 and no words, unless the handler replied before.
    fn put_handler(&mut self, out: &mut Lowered, handler: &'s Handler<'a>) -> Result<(), Refused> {
        let line = handler.line;
        at(line, self.begin(handler.event))?;
        self.put_head(out, handler)?;
        self.depth = self.depth.saturating_add(1);
        self.put_body(out, handler)?;
        Ok(self.put_close(out, line, "}")?)
    }

    /// Puts the contents of the block of a handler.
    fn put_body(&mut self, out: &mut Lowered, handler: &'s Handler<'a>) -> Result<(), Refused> {
        self.put_statements(out, handler)?;
        Ok(self.put_last_reply(out, handler)?)
    }

    /// Puts the answer at the end of a protected procedure that did not answer before.
    fn put_last_reply(
        &mut self,
        out: &mut Lowered,
        handler: &Handler<'_>,
    ) -> Result<(), AllocError> {
        if !answers(handler.event) || self.is_ended() {
            return Ok(());
        }
        self.put_reply(out, handler.line, &["0"])
    }

    /// Appends the handler of an event, if there is one that has statements.
    fn put_event(&mut self, out: &mut Lowered, event: Event) -> Result<(), Refused> {
        let domain = self.domain;
        match full_handler(domain, event) {
            Some(handler) => self.put_handler(out, handler),
            None => Ok(()),
        }
    }

    /// Appends the entry that receives after handlers of notifications: it notifies the deferred
    /// channel, if there is one.
    fn put_next(&mut self, out: &mut Lowered) -> Result<(), AllocError> {
        let line = self.domain.line;
        if self.put_all_deferred(out)? {
            self.put_open(out, line, "} else {")?;
            self.put_receive(out, line)?;
            return self.put_close(out, line, "}");
        }
        self.put_receive(out, line)
    }

    /// Puts the arms that notify deferred channels, and returns whether there are some.
    fn put_all_deferred(&mut self, out: &mut Lowered) -> Result<bool, AllocError> {
        let domain = self.domain;
        let mut has_some = false;
        for number in 0..=CHANNEL_MAX {
            if defers(&domain.handlers, Some(number)) {
                self.put_deferred_of(out, number, !has_some)?;
                has_some = true;
            }
        }
        Ok(has_some)
    }

    /// Appends the arm that notifies a deferred channel and receives.
    fn put_deferred_of(
        &mut self,
        out: &mut Lowered,
        number: u64,
        is_first: bool,
    ) -> Result<(), AllocError> {
        let line = self.domain.line;
        out.indent(self.depth)?;
        out.counted(deferred_word(is_first), number.saturating_add(1))?;
        out.last(line, " {")?;
        self.depth = self.depth.saturating_add(1);
        self.put_notify_of(out, number)?;
        self.depth = self.depth.saturating_sub(1);
        Ok(())
    }

    /// Puts that no channel is deferred any more, and the entry that notifies it and receives.
    fn put_notify_of(&mut self, out: &mut Lowered, number: u64) -> Result<(), AllocError> {
        let line = self.domain.line;
        out.line(line, self.depth, "deferred = 0")?;
        self.put_send_receive(out, line, "notify.", Some(number))
    }

    /// Puts the first entry that receives. A passive domain also reports to the monitor with it
    /// that it has begun. A notification that it deferred before is lost, as in libmicrokit.
    fn put_first(&mut self, out: &mut Lowered) -> Result<(), AllocError> {
        let line = self.domain.line;
        if !self.domain.is_passive {
            return self.put_next(out);
        }
        if defers(&self.domain.handlers, None) {
            out.line(line, self.depth, "deferred = 0")?;
        }
        self.put_send_receive(out, line, "microkit.monitor", None)
    }

    /// Appends the handlers of protected procedures: that of the channel in the badge, or a reply
    /// with label 0 if the channel has none.
    fn put_protected(&mut self, out: &mut Lowered) -> Result<(), Refused> {
        let domain = self.domain;
        out.indent(self.depth)?;
        for number in 0..=CHANNEL_MAX {
            if let Some(handler) = domain.handler(Event::Protected(number)) {
                put_badge_test(out, called_badge(number), handler.line)?;
                self.put_protected_arm(out, handler)?;
            }
        }
        Ok(self.put_no_handler(out)?)
    }

    /// Puts the arm of a protected procedure, and the beginning of the next.
    fn put_protected_arm(
        &mut self,
        out: &mut Lowered,
        handler: &'s Handler<'a>,
    ) -> Result<(), Refused> {
        self.depth = self.depth.saturating_add(1);
        self.put_handler(out, handler)?;
        self.depth = self.depth.saturating_sub(1);
        out.indent(self.depth)?;
        Ok(out.put("} else ")?)
    }

    /// Puts the arm that answers where a channel has no protected procedure.
    fn put_no_handler(&mut self, out: &mut Lowered) -> Result<(), AllocError> {
        let line = self.domain.line;
        out.last(line, "{")?;
        self.depth = self.depth.saturating_add(1);
        self.put_reply(out, line, &["0"])?;
        self.put_close(out, line, "}")
    }

    /// Appends the handlers of notifications, from the lowest channel up, and the next entry that
    /// receives.
    fn put_notified(&mut self, out: &mut Lowered) -> Result<(), Refused> {
        let domain = self.domain;
        let is_kept = domain.count_notified() > 1;
        if is_kept {
            out.line(domain.line, self.depth, "let bits = $badge")?;
        }
        for number in 0..=CHANNEL_MAX {
            if let Some(handler) = full_handler(domain, Event::Notified(number)) {
                self.put_bit_test(out, is_kept, number, handler.line)?;
                self.put_notified_arm(out, handler)?;
            }
        }
        Ok(self.put_next(out)?)
    }

    /// Puts the test of the bit of a channel.
    fn put_bit_test(
        &self,
        out: &mut Lowered,
        is_kept: bool,
        number: u64,
        line: u64,
    ) -> Result<(), AllocError> {
        out.indent(self.depth)?;
        out.counted(bit_word(is_kept), number)?;
        out.last(line, " {")
    }

    /// Puts the arm in which the handler of notifications runs.
    fn put_notified_arm(
        &mut self,
        out: &mut Lowered,
        handler: &'s Handler<'a>,
    ) -> Result<(), Refused> {
        self.depth = self.depth.saturating_add(1);
        self.put_handler(out, handler)?;
        Ok(self.put_close(out, handler.line, "}")?)
    }

    /// Puts one round of the loop: what came is handled, and the domain receives again.
    fn put_round(&mut self, out: &mut Lowered) -> Result<(), Refused> {
        let line = self.domain.line;
        if !self.is_called {
            return self.put_notified(out);
        }
        self.put_open(out, line, "if $badge has bit 63 {")?;
        self.put_protected(out)?;
        self.put_not_called(out)
    }

    /// Puts the arm of a round in which no protected procedure was called.
    fn put_not_called(&mut self, out: &mut Lowered) -> Result<(), Refused> {
        let line = self.domain.line;
        self.put_close(out, line, "} else {")?;
        self.depth = self.depth.saturating_add(1);
        self.put_notified(out)?;
        Ok(self.put_close(out, line, "}")?)
    }

    /// Appends the statements `let` of the words that the domain keeps.
    fn put_kept(&self, out: &mut Lowered) -> Result<(), AllocError> {
        if defers(&self.domain.handlers, None) {
            out.line(self.domain.line, self.depth, "let deferred = 0")?;
        }
        for statement in &self.domain.kept {
            self.put_let(out, statement)?;
        }
        Ok(())
    }

    /// Puts a word that the domain keeps.
    fn put_let(&self, out: &mut Lowered, statement: &Statement<'_>) -> Result<(), AllocError> {
        out.indent(self.depth)?;
        out.put("let")?;
        out.words(statement.words.get(1..).unwrap_or(&[]))?;
        out.end(statement.line)
    }

    /// Puts the program of the domain.
    fn put_program(&mut self, out: &mut Lowered) -> Result<(), Refused> {
        let line = self.domain.line;
        out.last_name(line, "program ", self.domain.name, " {")?;
        self.put_kept(out)?;
        self.put_entries(out)?;
        Ok(out.last(line, "}")?)
    }

    /// Puts what the domain does once, and all rounds.
    fn put_entries(&mut self, out: &mut Lowered) -> Result<(), Refused> {
        self.put_event(out, Event::Init)?;
        self.put_rounds(out)
    }

    /// Puts the first entry that receives, and all rounds.
    fn put_rounds(&mut self, out: &mut Lowered) -> Result<(), Refused> {
        let line = self.domain.line;
        self.put_first(out)?;
        self.put_open(out, line, "forever {")?;
        self.put_round(out)?;
        Ok(self.put_close(out, line, "}")?)
    }

    /// Puts that the domain may wait for ever where it receives.
    fn put_idle(&self, out: &mut Lowered) -> Result<(), AllocError> {
        for before in 0..self.inputs {
            put_idle(out, self.domain, before.saturating_add(1))?;
        }
        Ok(())
    }
}

/// Puts that a domain may wait for ever in an entry that receives.
fn put_idle(out: &mut Lowered, domain: &Domain<'_>, input: u64) -> Result<(), AllocError> {
    out.put("#! idle ")?;
    out.put(domain.name)?;
    out.last_number(domain.line, " input", input)
}

/// Puts the test of a badge.
fn put_badge_test(out: &mut Lowered, badge: u64, line: u64) -> Result<(), AllocError> {
    out.put("if $badge == ")?;
    out.hex(badge)?;
    out.last(line, " {")
}

/// Returns how the test of a bit begins, of the word that was kept or of the badge.
fn bit_word(is_kept: bool) -> &'static str {
    if is_kept {
        "if $bits has bit "
    } else {
        "if $badge has bit "
    }
}

/// Returns how the arm of a deferred channel begins.
fn deferred_word(is_first: bool) -> &'static str {
    if is_first {
        "if $deferred == "
    } else {
        "} else if $deferred == "
    }
}

/// Puts the programs of all domains, and where each may wait for ever.
pub fn put_programs(alloc: Global, out: &mut Lowered, system: &System<'_>) -> Result<(), Refused> {
    for place in 0..system.domains.len() {
        let Some(mut lowerer) = Lowerer::new(alloc, system, place) else {
            break;
        };
        lowerer.put_program(out)?;
        lowerer.put_idle(out)?;
    }
    Ok(())
}
