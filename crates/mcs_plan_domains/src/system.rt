//! A system of protection domains.
ghost use Rattle.std.specs.Prelude.{◌≡◌, ◌<◌, true, IfSome, length};

use crate::ends::End;
use crate::statements::Statement;

/// When a handler runs.
#[derive(Clone, Copy, PartialEq, Eq)]
pub enum Event {
    /// Once, at the beginning.
    Init,
    /// When a protected procedure is called over a channel.
    Protected(u64),
    /// When a channel is notified.
    Notified(u64),
}

/// What a domain does at an event.
#[derive(Drop)]
pub struct Handler<'a> {
    pub event: Event,
    pub line: u64,
    pub statements: Vec<Statement<'a>>,
}

/// A protection domain.
#[derive(Drop)]
pub struct Domain<'a> {
    pub name: &'a str,
    pub line: u64,
    pub priority: u64,
    pub core: u64,
    pub is_passive: bool,
    /// Whether another domain may call it.
    pub is_called: bool,
    /// Its number among the domains, from 1 on.
    pub number: u64,
    /// The words that it keeps, as `let NAME = VALUE`.
    pub kept: Vec<Statement<'a>>,
    pub handlers: Vec<Handler<'a>>,
}

/// A channel. If it has protected procedures, its first end may call the domain at its second.
#[derive(Clone, Copy)]
pub struct Channel {
    pub line: u64,
    pub first: End,
    pub second: End,
    pub is_called: bool,
}

/// A line that says nothing of domains.
#[derive(Clone, Copy)]
pub struct Plain<'a> {
    pub line: u64,
    pub text: &'a str,
}

/// A system, and the other lines of its plan.
#[derive(Drop)]
pub struct System<'a> {
    pub domains: Vec<Domain<'a>>,
    pub channels: Vec<Channel>,
    /// The lines before the first one of a user or a program.
    pub heads: Vec<Plain<'a>>,
    /// The lines from the first one of a user or a program on.
    pub tails: Vec<Plain<'a>>,
    /// The questions of all orders.
    pub questions: Vec<Statement<'a>>,
}

impl Channel {
    /// Returns the other end of the channel, if one end is this.
    pub fn other(self, end: End) -> Option<End> {
        if self.first == end {
            Some(self.second)
        } else if self.second == end {
            Some(self.first)
        } else {
            None
        }
    }
}

impl<'a> Handler<'a> {
    /// Returns whether it is that of notifications of a channel, and has statements.
    fn is_notified(&self) -> bool {
        match self.event {
            Event::Notified(_) => !self.statements.is_empty(),
            Event::Init | Event::Protected(_) => false,
        }
    }
}

impl<'a> Domain<'a> {
    /// Notes that other domains may call it.
    pub fn be_called(&mut self)
        ensures { self.new ≡ record self.old { is_called = true } }
    {
        self.is_called = true;
    }

    /// Returns the handler of an event, if there is one.
    pub fn handler(&self, event: Event) -> Option<&Handler<'a>> {
        for handler in &self.handlers {
            if handler.event == event {
                return Some(handler);
            }
        }
        None
    }

    /// Returns how many channels have a handler of notifications with statements.
    pub fn count_notified(&self) -> usize {
        let mut count: usize = 0;
        for handler in &self.handlers {
            count = count.saturating_add(usize::from(handler.is_notified()));
        }
        count
    }
}

impl<'a> System<'a> {
    /// Returns the index of the domain with a name.
    pub fn find(&self, name: &str) -> Option<usize>
        ensures { IfSome result (λ k. k < length self.now.domains.items) }
    {
        for (place, domain) in self.domains.iter().enumerate() {
            if domain.name == name {
                return Some(place);
            }
        }
        None
    }

    /// Returns the channel with this end.
    pub fn channel(&self, end: End) -> Option<Channel> {
        for channel in &self.channels {
            if channel.other(end).is_some() {
                return Some(*channel);
            }
        }
        None
    }
}
