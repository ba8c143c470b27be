//! The plan's line for each line of its script.
use crate::compiled::Compiled;
use mcs_plan_compile::Script;
use mcs_plan_source::{split_comment, split_words};
use std::alloc::{AllocError, Global};

/// The plan's lines from which the lines of a script came, so far.
#[derive(Drop)]
struct Origins {
    all: Vec<u64>,
    /// How many lines the plan has before its first step.
    before: u64,
    /// How many blocks are open in the current program, if there is one.
    blocks: Option<usize>,
}

/// Returns whether words close a block or a program.
fn closes(words: &[&str]) -> bool {
    words.first().is_some_and(|word| *word == "}")
}

/// Returns whether words open a block.
fn opens(words: &[&str]) -> bool {
    words.last().is_some_and(|word| *word == "{")
}

/// Returns whether the words of a line begin a program.
fn begins_program(code: &str, words: &[&str]) -> bool {
    code.split_once(": ").is_none() && words.first().is_some_and(|word| *word == "program")
}

/// Returns whether a line is the first of the steps: it has `: ` in it, begins with `?`, or begins
/// a program.
fn begins_steps(code: &str, words: &[&str]) -> bool {
    code.split_once(": ").is_some()
        || words.first().is_some_and(|word| word.starts_with("?"))
        || begins_program(code, words)
}

/// Returns the number of a line after `before` others.
fn number_after(before: usize) -> u64 {
    (before as u64).saturating_add(1)
}

impl Origins {
    /// Adds a line of the script that came from this line of the plan.
    fn add(&mut self, number: u64) -> Result<(), AllocError> {
        self.all.push(number)?;
        Ok(())
    }

    /// Adds `count` lines that came from this one.
    fn add_many(&mut self, number: u64, count: usize) -> Result<(), AllocError> {
        for _ in 0..count {
            self.add(number)?;
        }
        Ok(())
    }

    /// Takes a line before the first step; a line of only a comment adds one to the front, which
    /// has this many. Returns whether the line is the first of the steps.
    fn take_before(
        &mut self,
        alloc: Global,
        number: u64,
        line: &str,
        comments: usize,
    ) -> Result<bool, AllocError> {
        let (code, comment) = split_comment(line);
        let words = split_words(alloc, code)?;
        if begins_steps(code, &words) {
            return Ok(true);
        }
        if words.is_empty() && comment.is_some() && self.all.len() < comments {
            self.add(number)?;
        }
        self.before = number;
        Ok(false)
    }

    /// Takes the lines before the first step.
    fn take_front(
        &mut self,
        alloc: Global,
        lines: &[&str],
        comments: usize,
    ) -> Result<(), AllocError> {
        for (before, line) in lines.iter().enumerate() {
            if self.take_before(alloc, number_after(before), line, comments)? {
                break;
            }
        }
        Ok(())
    }

    /// Adds the names and the boot, which come from the last line before the first step.
    fn add_boot(&mut self, script: &Script) -> Result<(), AllocError> {
        let names = script.laid.plan.names.len();
        let count = names.saturating_add(script.boot.len()).saturating_add(1);
        self.add_many(self.before.max(1), count)
    }

    /// Adds the steps that make threads passive, and the last step of the starter.
    fn add_openings(&mut self, script: &Script) -> Result<(), AllocError> {
        let passives = &script.laid.plan.passives;
        for passive in passives {
            self.add_many(passive.line, 2)?;
        }
        match passives.last() {
            Some(passive) => self.add(passive.line),
            None => Ok(()),
        }
    }

    /// Takes the words of a line inside of a program, with this many open blocks.
    fn take_statement(
        &mut self,
        number: u64,
        words: &[&str],
        blocks: usize,
    ) -> Result<(), AllocError> {
        let still = if closes(words) {
            match blocks.checked_sub(1) {
                Some(still) => still,
                None => {
                    self.blocks = None;
                    return Ok(());
                }
            }
        } else {
            blocks
        };
        self.blocks = Some(still.saturating_add(usize::from(opens(words))));
        self.add(number)
    }

    /// Takes the words of a line from the first step on. The first and the last line of a program
    /// have no line in the script.
    fn take_words(&mut self, number: u64, code: &str, words: &[&str]) -> Result<(), AllocError> {
        if let Some(blocks) = self.blocks {
            return self.take_statement(number, words, blocks);
        }
        if begins_program(code, words) {
            self.blocks = Some(0);
            return Ok(());
        }
        self.add(number)
    }

    /// Takes a line from the first step on; its comment precedes it in the script.
    fn take_step(&mut self, alloc: Global, number: u64, line: &str) -> Result<(), AllocError> {
        let (code, comment) = split_comment(line);
        if comment.is_some() {
            self.add(number)?;
        }
        let words = split_words(alloc, code)?;
        if words.is_empty() {
            return Ok(());
        }
        self.take_words(number, code, &words)
    }

    /// Takes the lines from the first step on.
    fn take_steps(&mut self, alloc: Global, lines: &[&str]) -> Result<(), AllocError> {
        let before = self.before;
        for (count, line) in lines.iter().enumerate() {
            let number = number_after(count);
            if number > before {
                self.take_step(alloc, number, line)?;
            }
        }
        Ok(())
    }
}

/// Returns the lines of a plan; none if it is no text.
fn lines_of<'a>(alloc: Global, plan: &'a [u8]) -> Result<Vec<&'a str>, AllocError> {
    match std::str::from_utf8(plan) {
        Ok(text) => text.lines().collect(alloc),
        Err(_) => Ok(Vec::new(alloc)),
    }
}

/// Returns for each line of the script of a plan the plan's line from which it came: for the boot,
/// the last one before the first step.
pub fn origins_of(alloc: Global, plan: &[u8], compiled: &Compiled) -> Result<Vec<u64>, AllocError> {
    let script = &compiled.script;
    let lines = lines_of(alloc, plan)?;
    let comments = script
        .front
        .len()
        .saturating_sub(script.laid.plan.names.len());
    let mut origins = Origins {
        all: Vec::new(alloc),
        before: 0,
        blocks: None,
    };
    origins.take_front(alloc, &lines, comments)?;
    origins.add_boot(script)?;
    origins.add_openings(script)?;
    origins.take_steps(alloc, &lines)?;
    Ok(origins.all)
}
