//! The statements of lines: `{` ends one, `}` begins one, and so does what follows `;`.
use crate::words::is;
use std::alloc::{AllocError, Global};
use std::mem;

/// A statement: its words, and the line of the plan.
#[derive(Drop)]
pub struct Statement<'a> {
    pub words: Vec<&'a str>,
    pub line: u64,
}

impl<'a> Statement<'a> {
    /// Returns the first word; an empty one if there is none.
    pub fn first(&self) -> &'a str {
        self.word(0)
    }

    /// Returns the word in a place; an empty one where there is none.
    pub fn word(&self, place: usize) -> &'a str {
        match self.words.get(place) {
            Some(word) => *word,
            None => "",
        }
    }

    /// Returns whether it opens a block.
    pub fn opens(&self) -> bool {
        is(self.words.last(), "{")
    }

    /// Returns whether it closes a block.
    pub fn closes(&self) -> bool {
        self.first() == "}"
    }
}

/// The statements of a line so far, and the words of the next.
#[derive(Drop)]
struct Splitter<'a> {
    alloc: Global,
    line: u64,
    done: Vec<Statement<'a>>,
    words: Vec<&'a str>,
}

impl<'a> Splitter<'a> {
    /// Ends the statement, if it has words.
    fn end(&mut self) -> Result<(), AllocError> {
        if self.words.is_empty() {
            return Ok(());
        }
        let words = mem::replace(&mut self.words, Vec::new(self.alloc));
        let line = self.line;
        self.done.push(Statement { words, line })?;
        Ok(())
    }

    /// Returns whether the statement so far is `}`, which only `else` continues.
    fn is_closed(&self) -> bool {
        is(self.words.first(), "}") && self.words.len() == 1
    }

    /// Takes a word without a semicolon.
    fn take(&mut self, word: &'a str) -> Result<(), AllocError> {
        if word == "}" || (self.is_closed() && word != "else") {
            self.end()?;
        }
        self.words.push(word)?;
        if word == "{" {
            self.end()?;
        }
        Ok(())
    }

    /// Takes a word, after which a semicolon may end the statement.
    fn take_word(&mut self, word: &'a str) -> Result<(), AllocError> {
        let Some(front) = word.strip_suffix(";") else {
            return self.take(word);
        };
        if !front.is_empty() {
            self.take(front)?;
        }
        self.end()
    }
}

/// Returns the statements of a line.
pub fn statements_of<'a>(
    alloc: Global,
    line: u64,
    words: &[&'a str],
) -> Result<Vec<Statement<'a>>, AllocError> {
    let mut splitter = Splitter {
        alloc,
        line,
        done: Vec::new(alloc),
        words: Vec::new(alloc),
    };
    for word in words {
        splitter.take_word(word)?;
    }
    splitter.end()?;
    Ok(splitter.done)
}
