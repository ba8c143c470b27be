//! The origins of the steps of a drawing: their lines in the file that was given, and their texts.
use std::alloc::{AllocError, Global};

/// The origin of a step: its line in the given file, and its text there. If the text is empty, a
/// picture shows the step as a script spells it.
#[derive(Drop)]
pub struct Origin {
    pub line: u64,
    pub text: String,
}

/// The origins of the steps of a drawing, in order: of those in its book, and of the skipped ones.
#[derive(Drop)]
pub struct Steps {
    entered: Vec<Origin>,
    skipped: Vec<Origin>,
}

impl Steps {
    /// Returns an empty list of steps.
    pub fn new(alloc: Global) -> Steps {
        Steps {
            entered: Vec::new(alloc),
            skipped: Vec::new(alloc),
        }
    }

    /// Adds a step after which the book has `lines` lines, the boot's not counted. It was skipped
    /// unless the book has more lines than steps were added to it. `AllocError` if an allocation
    /// fails.
    pub fn add(&mut self, origin: Origin, lines: usize) -> Result<(), AllocError> {
        if lines > self.entered.len() {
            self.entered.push(origin)?;
        } else {
            self.skipped.push(origin)?;
        }
        Ok(())
    }

    /// Returns the origin of a line of the book, by its number from 1.
    pub fn of_line(&self, number: usize) -> Option<&Origin> {
        self.entered.get(number.checked_sub(1)?)
    }

    /// Returns the origin of a skipped step, by its index among them from 0.
    pub fn of_skipped(&self, place: usize) -> Option<&Origin> {
        self.skipped.get(place)
    }
}
