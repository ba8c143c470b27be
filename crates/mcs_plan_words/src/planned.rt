//! A plan, its script, and reports on the script as reports on the plan.
ghost use Rattle.std.specs.Prelude.{◌≡◌, ◌++◌, IfOk, IfSome};
ghost use Rattle.mcs_plan_validate.specs.Reading.{IsVouched};
ghost use Rattle.mcs_plan_words.specs.Alignment.{HasLinesOf};
ghost use Rattle.mcs_plan_words.specs.Scripts.{IsScriptOfPlan};

use crate::alignment::has_lines_of;
use crate::line_numbers::{Form, last_line};
use crate::numbers::{Spelling, hexadecimals};
use crate::reports::Reworded;
use crate::stranger::Stranger;
use crate::texts::{Voice, step_texts};
use mcs_plan_compile::Script;
use mcs_plan_validate::{CompileFault, Compiled, Loaded, Numbered, align_questions, load};
use std::alloc::{AllocError, Global};

/// A plan, and the script that it became, with the numbers of the plan's lines of which its lines
/// came.
#[derive(Drop)]
pub struct Planned<'a> {
    plan: &'a [u8],
    /// The values that the plan writes in hexadecimal.
    hexadecimals: Vec<u64>,
    made: Script,
    /// The script.
    pub script: Numbered,
    /// How many lines the script has up to the end of its boot.
    boot: usize,
    /// The line of the plan with its first step or line of a user, where it has one.
    first: Option<u64>,
    /// How many lines the plan has.
    count: u64,
}

/// Returns how many lines a text has.
fn count_lines(text: &[u8]) -> u64 {
    let ends = text.iter().filter(|byte| **byte == b'\n').count() as u64;
    match text.last() {
        None | Some(b'\n') => ends,
        Some(_) => ends.saturating_add(1),
    }
}

/// Returns whether the first word of a text ends with a colon.
fn begins_with_colon(text: &[u8]) -> bool {
    let word = text.split(|byte| *byte == b' ').next();
    word.is_some_and(|word| word.ends_with(b":"))
}

/// Returns whether a line of a script is a step, or says what a user does.
fn is_entry(line: &String) -> bool {
    match line.as_bytes() {
        [b'0'..=b'9', ..] => true,
        [b'#', b'!', b' ', text @ ..] => begins_with_colon(text),
        line => line.starts_with(b"user "),
    }
}

/// Returns how many lines a script has up to the end of its boot.
fn boot_of(script: &Script) -> usize {
    let boot = script.boot.len().saturating_add(1);
    script.front.len().saturating_add(boot)
}

/// Returns the line of the plan with its first step or line of a user, where it has one.
fn first_of(script: &Script, numbers: &[u64], boot: usize) -> Option<u64> {
    let place = script.lines.iter().position(is_entry)?;
    numbers.get(boot.saturating_add(place)).copied()
}

/// Returns the whole text of a script: what of it was read back, and the lines of users.
fn whole_text(read: Vec<u8>, users: &[u8]) -> Result<Vec<u8>, AllocError>
    ensures { IfOk result (λ t. t.items ≡ read.items ++ users.now) }
{
    let mut text = read;
    text.extend_from_slice(users)?;
    Ok(text)
}

/// Returns a text with its numbers once more.
fn copied(alloc: Global, script: &Numbered) -> Result<Numbered, AllocError>
    ensures { IfOk result (λ n. n.text.items ≡ script.now.text.items) }
{
    let text = Vec::from_slice(alloc, &script.text)?;
    let numbers = Vec::from_slice(alloc, &script.numbers)?;
    Ok(Numbered { text, numbers })
}

/// Returns a script of users with each question in the line in which the plan has it; None where it
/// had not all lines, which nobody has seen.
fn aligned(alloc: Global, script: &Numbered) -> Result<Option<Numbered>, AllocError>
    ensures { IfOk result (λ aligned. IfSome aligned
        (λ n. HasLinesOf script.now.text.items n.text.items)) }
{
    let aligned = align_questions(alloc, &script.text, &script.numbers)?;
    if has_lines_of(alloc, &script.text, &aligned.text)? {
        return Ok(Some(aligned));
    }
    Ok(None)
}

/// Returns a plan that was loaded, and its script.
#[tactic(auto, using(crate::proofs::Scripts::script_of_plan))]
fn with_script<'a>(alloc: Global, loaded: Loaded, plan: &'a [u8]) -> Result<Planned<'a>, AllocError>
    requires { IsVouched loaded.compiled.read.items loaded.compiled.script.laid }
    ensures { IfOk result (λ p. IsScriptOfPlan p.script.text.items) }
{
    let Loaded { compiled, numbers } = loaded;
    let Compiled {
        script: made,
        read,
        users,
    } = compiled;
    let boot = boot_of(&made);
    let first = first_of(&made, &numbers, boot);
    let text = whole_text(read, &users)?;
    Ok(Planned {
        plan,
        hexadecimals: hexadecimals(alloc, plan)?,
        made,
        script: Numbered { text, numbers },
        boot,
        first,
        count: count_lines(plan),
    })
}

impl<'a> Planned<'a> {
    /// Returns a plan with its script. Its faults are those of `load`.
    pub fn read(alloc: Global, plan: &'a [u8]) -> Result<Planned<'a>, CompileFault>
        ensures { IfOk result (λ p. IsScriptOfPlan p.script.text.items) }
    {
        let loaded = load(alloc, plan)?;
        Ok(with_script(alloc, loaded, plan)?)
    }

    /// Returns the script as a command reads it that goes through the orders of users: each
    /// question stands in the line in which the plan has it.
    #[tactic(auto, using(crate::proofs::Scripts::own_lines))]
    pub fn asked(&self, alloc: Global) -> Result<Numbered, AllocError>
        ensures { IfOk result (λ n. HasLinesOf self.now.script.text.items n.text.items) }
    {
        if self.made.is_users
            && let Some(aligned) = aligned(alloc, &self.script)?
        {
            return Ok(aligned);
        }
        copied(alloc, &self.script)
    }

    /// Returns the line of the plan with its first step or line of a user, where it has one.
    pub fn first(&self) -> Option<u64> {
        self.first
    }

    /// Returns how many lines the plan has.
    pub fn count(&self) -> u64 {
        self.count
    }

    /// Returns what this is for a command that reads the other kind.
    pub fn stranger(&self, reads_users: bool) -> Option<Stranger> {
        self.first?;
        match (self.made.is_users, reads_users) {
            (true, false) => Some(Stranger::Users),
            (false, true) => Some(Stranger::Steps),
            (true, true) | (false, false) => None,
        }
    }

    /// Returns the last line of the script that came of this line of the plan or of one before it,
    /// but none before the end of its boot.
    pub fn last_line(&self, line: u64) -> u64 {
        last_line(&self.script.numbers, self.boot, line)
    }

    /// Returns what tells of the script in the plan's words.
    fn voice(&self) -> Voice<'_> {
        Voice {
            script: &self.made,
            spelling: Spelling {
                values: &self.hexadecimals,
            },
        }
    }

    /// Returns for each line of the script the plan's text of its step; an empty one where it is
    /// none.
    pub fn step_texts(&self, alloc: Global) -> Result<Vec<String>, AllocError> {
        step_texts(alloc, self.voice(), &self.script.text)
    }

    /// Returns a report of this form on a script of the plan as one on the plan.
    pub fn retell(
        &self,
        alloc: Global,
        script: &Numbered,
        report: &[u8],
        form: Form,
    ) -> Result<Vec<u8>, AllocError> {
        let Numbered { text, numbers } = script;
        Reworded::new(alloc, self.voice(), text, numbers, self.plan)?.retell(alloc, report, form)
    }
}
