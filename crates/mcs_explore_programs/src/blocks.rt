//! The open blocks of a program.
use mcs_turns::Slot;
use std::alloc::{AllocError, Global};

/// A slot that counts the rounds of a loop, and how many rounds there are.
#[derive(Clone, Copy, Drop)]
pub struct Counter {
    pub slot: Slot,
    pub rounds: u64,
}

/// A loop: where a round begins, the lines that leave the loop, and what counts its rounds.
#[derive(Drop)]
pub struct Round {
    pub start: usize,
    pub exits: Vec<usize>,
    pub counter: Option<Counter>,
}

/// The arms of an `if`: the lines that skip the open arm, and those that end the arms before it. A
/// plain block is one arm that nothing skips.
#[derive(Drop)]
pub struct Arms {
    pub skips: Vec<usize>,
    pub ends: Vec<usize>,
    pub is_last: bool,
}

/// What a block is.
#[derive(Drop)]
pub enum Shape {
    Loop(Round),
    Arms(Arms),
}

/// A block: its kind, the script's line that opened it, how many words were kept before it, and the
/// index of its name, if it has one.
#[derive(Drop)]
pub struct Block {
    pub line: u64,
    pub kept: usize,
    pub label: Option<usize>,
    pub shape: Shape,
}

/// Where a round of a loop begins, what counts the rounds, and how many words are kept at that
/// point.
#[derive(Clone, Copy, Drop)]
pub struct RoundHead {
    pub start: usize,
    pub counter: Option<Counter>,
    pub kept: usize,
}

impl Round {
    /// Returns how a round begins, if this many words were kept before the loop.
    pub fn head(&self, before: usize) -> RoundHead {
        let own = usize::from(self.counter.is_some());
        RoundHead {
            start: self.start,
            counter: self.counter,
            kept: before.saturating_add(own),
        }
    }
}

impl Arms {
    /// Returns the arm that a plain block is.
    pub fn plain(alloc: Global) -> Arms {
        Arms {
            skips: Vec::new(alloc),
            ends: Vec::new(alloc),
            is_last: true,
        }
    }
}

impl Block {
    /// Returns how a round begins, if the block is a loop.
    pub fn head(&self) -> Option<RoundHead> {
        match &self.shape {
            Shape::Loop(round) => Some(round.head(self.kept)),
            Shape::Arms(_) => None,
        }
    }

    /// Adds a line that leaves the block, if it is a loop.
    pub fn add_exit(&mut self, at: usize) -> Result<(), AllocError> {
        match &mut self.shape {
            Shape::Loop(round) => round.exits.push(at)?,
            Shape::Arms(_) => {}
        }
        Ok(())
    }
}
