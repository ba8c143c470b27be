//! Boxes on a page, and the boxes around the line of an arrow.
use std::alloc::AllocError;

/// A box on the page.
#[derive(Clone, Copy)]
pub struct Place {
    pub left: u64,
    pub right: u64,
    pub top: u64,
    pub bottom: u64,
}

impl Place {
    /// Returns whether two boxes overlap.
    pub fn is_on(self, other: Place) -> bool {
        self.left < other.right
            && other.left < self.right
            && self.top < other.bottom
            && other.top < self.bottom
    }
}

/// The length of an arrow's tip, and its extent to each side of the line.
const TIP: u64 = 10;

const HALF_TIP: u64 = 4;

/// A pen that follows the line of an arrow.
#[derive(Clone, Copy)]
pub struct Pen {
    x: u64,
    y: u64,
    command: char,
    /// The number before the comma, if there was one.
    first: Option<u64>,
    number: u64,
    is_to_right: bool,
}

impl Pen {
    /// Returns a pen before its first command.
    pub fn new() -> Pen {
        Pen {
            x: 0,
            y: 0,
            command: 'M',
            first: None,
            number: 0,
            is_to_right: true,
        }
    }

    /// Moves to a position, and adds the box around the line, whose width is 1.
    fn line_to(&mut self, marks: &mut Vec<Place>, x: u64, y: u64) -> Result<(), AllocError> {
        marks.push(Place {
            left: self.x.min(x).saturating_sub(1),
            right: self.x.max(x).saturating_add(1),
            top: self.y.min(y).saturating_sub(1),
            bottom: self.y.max(y).saturating_add(1),
        })?;
        self.is_to_right = x >= self.x;
        self.x = x;
        self.y = y;
        Ok(())
    }

    /// Performs the command whose numbers were read.
    fn obey(&mut self, marks: &mut Vec<Place>) -> Result<(), AllocError> {
        let (x, y) = match (self.command, self.first) {
            ('H', _) => (self.number, self.y),
            ('V', _) => (self.x, self.number),
            (_, Some(x)) => (x, self.number),
            (_, None) => (self.x, self.y),
        };
        if self.command == 'M' {
            self.x = x;
            self.y = y;
            return Ok(());
        }
        self.line_to(marks, x, y)
    }

    /// Reads a character of the path: M, L, H and V begin a command, and numbers follow.
    fn read(&mut self, marks: &mut Vec<Place>, letter: char) -> Result<(), AllocError> {
        match letter.to_digit(10) {
            Some(digit) => {
                let tens = self.number.saturating_mul(10);
                self.number = tens.saturating_add(digit as u64);
            }
            None if letter == ',' => {
                self.first = Some(self.number);
                self.number = 0;
            }
            None => {
                self.obey(marks)?;
                self.command = letter;
                self.first = None;
                self.number = 0;
            }
        }
        Ok(())
    }

    /// Follows a path to its end, where the arrow's tip is.
    pub fn follow(&mut self, marks: &mut Vec<Place>, line: &str) -> Result<(), AllocError> {
        for letter in line.chars() {
            self.read(marks, letter)?;
        }
        self.obey(marks)?;
        let (left, right) = if self.is_to_right {
            (self.x.saturating_sub(TIP), self.x.saturating_add(1))
        } else {
            (self.x.saturating_sub(1), self.x.saturating_add(TIP))
        };
        marks.push(Place {
            left,
            right,
            top: self.y.saturating_sub(HALF_TIP),
            bottom: self.y.saturating_add(HALF_TIP),
        })?;
        Ok(())
    }
}
