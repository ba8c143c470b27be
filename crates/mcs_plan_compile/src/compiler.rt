//! Compiles a plan to a script, line by line.
ghost use Rattle.std.specs.Prelude.{◌≡◌, ◌≤◌, ◌<◌, ◌+◌, ◌^◌, true, None, Some, Ok, Err, IfOk, IfErr, OnOk, length, drop, string_bytes};
ghost use Rattle.std.specs.Str.{is_utf8};
ghost use Rattle.std.specs.Str.Lines.{lines};
ghost use Rattle.mcs_plan_source.specs.Naming.{texts};
ghost use Rattle.mcs_plan_source.specs.Refusals.{Refuses, need, no_step, refusal_by};
ghost use Rattle.mcs_plan_source.specs.Saying.{said, said_passive, nothing_said};
ghost use Rattle.mcs_plan_layout.specs.Fitting.{boot_fits};
ghost use Rattle.mcs_plan_layout.specs.Laid.{laid_said};
ghost use Rattle.mcs_plan_compile.specs.declared.compiler.Entries.TheVariants.{Nothing};
ghost use Rattle.mcs_plan_compile.specs.Mixing.{is_steps, goes_on};
ghost use Rattle.mcs_plan_compile.specs.Opening.{receive_text, receive_head, starter_head, name_or_none, context_in, unbind_text, step_added, both_added, IsOpeningOf, IsOpeningAt};
ghost use Rattle.mcs_plan_compile.specs.Opening.{opened_at, openings_said, left_said, opened_said, steps_said, after_said, are_users};
ghost use Rattle.mcs_plan_compile.specs.Programs.{all_closed, program_begun, program_ended, program_taken, statement_taken};
ghost use Rattle.mcs_plan_compile.specs.Reading.{RefusesAt, at_line, line_said, lines_said, plan_said};
ghost use Rattle.mcs_plan_compile.specs.Scripts.{HasBootOfPlan, HasStepsOf, HasPlanOfLines, HasPlanOf};
ghost use Rattle.mcs_plan_compile.specs.StepLines.{entry_taken, headed_taken, wanted_taken, words_taken, code_taken, line_taken, lines_taken};
ghost use Rattle.mcs_plan_compile.specs.Stepping.{count_before, cut_at_colon};
ghost use Rattle.mcs_plan_compile.specs.Telling.{RefusesLaid, TellsLines, TellsPlan, few_lines, lines_in};

use crate::expectations::read_wanted;
use crate::lines::{add_comment, count_before, is_short, line_of, lines_of, split_colon};
use crate::programs::{
    fault_of, is_end, open_after, open_still, program_head, program_line, statement_text,
};
use crate::script::Script;
use crate::steps::{Head, object_text, read_head, write_entry};
use mcs_explore_programs::{FaultyLine, ProgramLines};
use mcs_plan_layout::PlanLayout;
use mcs_plan_source::{
    Passive, Plan, PlanError, PlanFault, Symbols, Tokens, split_comment, split_words,
};
use mcs_types::{CoreId, Kind, ObjId};
use std::alloc::{AllocError, Global};

/// How many lines a plan may have (own); a script may have 2,000,000.
const LINES: usize = 900_000;

/// What follows the boot so far: steps, or lines and programs of users.
#[derive(Clone, Copy)]
enum Entries {
    Nothing,
    Steps,
    Users,
    /// A program, and how many of its blocks are open.
    Program { thread: ObjId, blocks: usize },
}

/// A program that is open, and the line in which it begins.
#[derive(Drop)]
struct OpenProgram {
    opened: u64,
    lines: ProgramLines,
}

/// A plan whose boot was read, and the script's lines after the boot so far.
#[derive(Drop)]
struct Compiler {
    laid: PlanLayout,
    lines: Vec<String>,
    entries: Entries,
    program: Option<OpenProgram>,
    /// The threads that have a program, and those with lines of users.
    programs: Vec<ObjId>,
    users: Vec<ObjId>,
}

/// Returns whether a thread is in this list.
fn has_thread(threads: &[ObjId], thread: ObjId) -> bool {
    threads.iter().any(|other| other.is_same(thread))
}

/// Fails with the fault that the reader of programs gives for a line.
fn program_error(alloc: Global, done: Result<(), FaultyLine>) -> Result<(), PlanError>
    ensures { IfErr result (λ w. refusal_by w ≡ None) }
{
    match done {
        Ok(()) => Ok(()),
        Err(fault) => Err(fault_of(alloc, fault.why)),
    }
}

/// Adds the line to a fault.
fn at<T: Drop>(line: u64, done: Result<T, PlanError>) -> Result<T, PlanFault>
    ensures ok { IfOk result (λ value. done ≡ Ok value) }
    ensures err { IfErr result (λ fault. (fault.line ≡ line) × (done ≡ Err fault.why)) }
{
    match done {
        Ok(value) => Ok(value),
        Err(why) => Err(PlanFault { line, why }),
    }
}

/// Takes a line before the first step; a line of only a comment goes to the front of the script.
fn read_before(
    alloc: Global,
    plan: &mut Plan,
    front: &mut Vec<String>,
    number: u64,
    line: &str,
) -> Result<(), PlanError>
    ensures said { OnOk result
        (line_said number line.now (said plan.old) ≡ Ok (said plan.new)) }
    ensures error { IfErr result (Refuses (line_said number line.now (said plan.old))) }
{
    is_short(line)?;
    let (code, comment) = split_comment(line);
    let words = split_words(alloc, code)?;
    if words.is_empty() {
        add_comment(alloc, front, comment)?;
    }
    plan.read(alloc, number, &words)
}

/// Adds the lines of names: `#@ OBJECT NAME`.
fn add_names(alloc: Global, names: &Symbols, to: &mut Vec<String>) -> Result<(), AllocError> {
    for i in 0..names.len() {
        if let Some((name, object)) = names.at(i) {
            let mut line = String::from_str(alloc, "#@ ")?;
            let text = object_text(alloc, object)?;
            line.push_str(text.as_str())?;
            line.push_str(" ")?;
            line.push_str(name)?;
            to.push(line)?;
        }
    }
    Ok(())
}

/// The steps that make a thread passive: its receive, and then the removal of its context.
#[derive(Drop)]
struct PassiveSetup {
    /// The number of the line of the plan that declares the thread.
    line: u64,
    head: Head,
    receive: String,
    unbind: String,
}

/// Returns the text of the entry by which a passive thread receives.
fn receive_text(alloc: Global, passive: &Passive) -> Result<String, AllocError>
    ensures { IfOk result (λ text. string_bytes text
        ≡ receive_text (said_passive passive.now)) }
{
    let mut text = String::from_str(alloc, "recv ")?;
    text.push_str(passive.endpoint.as_str())?;
    text.push_str(" ")?;
    text.push_str(passive.reply.as_str())?;
    Ok(text)
}

/// Returns the name of the context that a thread has at boot.
fn context_name(plan: &Plan, thread: ObjId) -> &str
    ensures { result.now ≡ name_or_none (said plan.now) (context_in (said plan.now) thread) }
{
    match plan.context_of(thread) {
        Some(context) => plan.names.name_of(context),
        None => "",
    }
}

/// Returns the text of the entry that takes the context of a passive thread away.
fn unbind_text(alloc: Global, plan: &Plan, passive: &Passive) -> Result<String, AllocError>
    ensures { IfOk result (λ text. string_bytes text
        ≡ unbind_text (said plan.now) (said_passive passive.now)) }
{
    let mut text = String::from_str(alloc, "unbind ")?;
    text.push_str(context_name(plan, passive.thread))?;
    Ok(text)
}

/// Returns the steps that make a thread passive.
fn opening_of(alloc: Global, plan: &Plan, passive: &Passive) -> Result<PassiveSetup, PlanError>
    ensures opening { IfOk result (IsOpeningOf (said plan.now) (said_passive passive.now)) }
    ensures error { IfErr result (λ w. refusal_by w ≡ None) }
{
    Ok(PassiveSetup {
        line: passive.line,
        head: Head {
            thread: passive.thread,
            core: Some(plan.core_of(passive.thread)),
        },
        receive: receive_text(alloc, passive)?,
        unbind: unbind_text(alloc, plan, passive)?,
    })
}

/// Returns the steps that make the passive thread at this index passive.
#[tactic(auto, using(crate::proofs::Opened::opening_there))]
fn opening_at(alloc: Global, plan: &Plan, place: usize) -> Result<PassiveSetup, PlanFault>
    requires { place < length plan.now.passives.items }
    ensures opening { IfOk result (IsOpeningAt (said plan.now) place) }
    ensures error { IfErr result (λ fault. refusal_by fault.why ≡ None) }
{
    at(0, opening_of(alloc, plan, &plan.passives[place]))
}

/// Returns the head of the thread that takes the contexts of passive threads away: the last one.
fn starter_head(plan: &Plan) -> Head
    ensures { result ≡ starter_head (said plan.now) }
{
    Head {
        thread: ObjId {
            kind: Kind::Thread,
            serial: plan.threads.len().min(256) as u32,
        },
        core: Some(CoreId(0)),
    }
}

impl Compiler {
    /// Adds a step that is not in the plan.
    fn add_step(&mut self, alloc: Global, head: Head, text: &str) -> Result<(), PlanError>
        ensures added { OnOk result (step_added (laid_said self.old.laid) head text.now ≡ Ok tt) }
        ensures error { IfErr result
            (Refuses (step_added (laid_said self.old.laid) head text.now)) }
        ensures laid { self.new.laid ≡ self.old.laid }
        ensures entries { self.new.entries ≡ self.old.entries }
    {
        let words = split_words(alloc, text)?;
        let line = write_entry(alloc, &self.laid, head, &words)?;
        self.lines.push(line)?;
        Ok(())
    }

    /// Adds the steps that make a thread passive.
    fn add_opening(&mut self, alloc: Global, opening: &PassiveSetup) -> Result<(), PlanError>
        ensures added { OnOk result (both_added (laid_said self.old.laid) opening.now.head
            (string_bytes opening.now.receive) (string_bytes opening.now.unbind) ≡ Ok tt) }
        ensures error { IfErr result (Refuses (both_added (laid_said self.old.laid) opening.now.head
            (string_bytes opening.now.receive) (string_bytes opening.now.unbind))) }
        ensures laid { self.new.laid ≡ self.old.laid }
        ensures entries { self.new.entries ≡ self.old.entries }
    {
        self.add_step(alloc, opening.head, opening.receive.as_str())?;
        let starter = starter_head(&self.laid.plan);
        self.add_step(alloc, starter, opening.unbind.as_str())
    }

    /// Adds the steps that make a thread passive; a fault is reported at the thread's line.
    fn do_opening(&mut self, alloc: Global, opening: &PassiveSetup) -> Result<(), PlanFault>
        ensures added { OnOk result (at_line opening.now.line
            (both_added (laid_said self.old.laid) opening.now.head
            (string_bytes opening.now.receive) (string_bytes opening.now.unbind)) ≡ Ok tt) }
        ensures error { IfErr result (RefusesAt (at_line opening.now.line
            (both_added (laid_said self.old.laid) opening.now.head
            (string_bytes opening.now.receive) (string_bytes opening.now.unbind)))) }
        ensures laid { self.new.laid ≡ self.old.laid }
        ensures entries { self.new.entries ≡ self.old.entries }
    {
        at(opening.line, self.add_opening(alloc, opening))
    }

    /// Adds the steps that make the passive thread at this index passive; a fault is reported at
    /// the line that declares it.
    fn open(&mut self, alloc: Global, place: usize) -> Result<(), PlanFault>
        requires { place < length self.old.laid.plan.passives.items }
        ensures added { OnOk result (opened_at (laid_said self.old.laid) place ≡ Ok tt) }
        ensures error { IfErr result (RefusesAt (opened_at (laid_said self.old.laid) place)) }
        ensures laid { self.new.laid ≡ self.old.laid }
        ensures entries { self.new.entries ≡ self.old.entries }
    {
        let opening = opening_at(alloc, &self.laid.plan, place)?;
        self.do_opening(alloc, &opening)
    }

    /// Adds the steps for each passive thread.
    fn open_each(&mut self, alloc: Global) -> Result<(), PlanFault>
        ensures added { OnOk result
            (openings_said (laid_said self.old.laid) (said self.old.laid.plan).passives ≡ Ok tt) }
        ensures error { IfErr result (RefusesAt
            (openings_said (laid_said self.old.laid) (said self.old.laid.plan).passives)) }
        ensures laid { self.new.laid ≡ self.old.laid }
        ensures entries { self.new.entries ≡ self.old.entries }
    {
        for place in 0..self.laid.plan.passives.len() {
            self.open(alloc, place)?;
        }
        Ok(())
    }

    /// Adds the step by which `starter`, which made others passive, suspends itself, if there is
    /// one.
    fn leave(&mut self, alloc: Global) -> Result<(), PlanFault>
        ensures added { OnOk result
            (left_said (laid_said self.old.laid) (said self.old.laid.plan).passives ≡ Ok tt) }
        ensures error { IfErr result
            (RefusesAt (left_said (laid_said self.old.laid) (said self.old.laid.plan).passives)) }
        ensures laid { self.new.laid ≡ self.old.laid }
        ensures entries { self.new.entries ≡ self.old.entries }
    {
        if self.laid.plan.passives.is_empty() {
            return Ok(());
        }
        let starter = starter_head(&self.laid.plan);
        at(0, self.add_step(alloc, starter, "suspend starter"))
    }

    /// Adds the steps before the first of the plan: each passive thread receives, and its context
    /// is taken away; then `starter`, which did this, suspends itself.
    fn open_all(&mut self, alloc: Global) -> Result<(), PlanFault>
        ensures added { OnOk result (opened_said (laid_said self.old.laid) ≡ Ok tt) }
        ensures error { IfErr result (RefusesAt (opened_said (laid_said self.old.laid))) }
        ensures laid { self.new.laid ≡ self.old.laid }
        ensures entries { self.new.entries ≡ self.old.entries }
    {
        self.open_each(alloc)?;
        self.leave(alloc)
    }

    /// Checks the kind of a line: `Mixed` if lines of the other kind came before, `PassiveUser` for
    /// a line of a user if a thread is passive.
    fn goes_with(&mut self, head: Head) -> Result<(), PlanError>
        ensures goes { OnOk result
            (goes_on (laid_said self.old.laid) self.old.entries head.core ≡ Ok self.new.entries) }
        ensures error { IfErr result
            (Refuses (goes_on (laid_said self.old.laid) self.old.entries head.core)) }
        ensures laid { self.new.laid ≡ self.old.laid }
    {
        match (self.entries, head.core) {
            (Entries::Users, Some(_)) | (Entries::Steps, None) => Err(PlanError::Mixed),
            (_, Some(_)) => {
                self.entries = Entries::Steps;
                Ok(())
            }
            (_, None) if !self.laid.plan.passives.is_empty() => Err(PlanError::PassiveUser),
            (_, None) => {
                self.entries = Entries::Users;
                Ok(())
            }
        }
    }

    /// Notes that a thread has a line of a user. Fails if it has a program.
    fn note_user(&mut self, alloc: Global, head: Head) -> Result<(), PlanError>
        ensures error { IfErr result (λ w. refusal_by w ≡ None) }
        ensures laid { self.new.laid ≡ self.old.laid }
        ensures entries { self.new.entries ≡ self.old.entries }
    {
        if head.core.is_some() {
            return Ok(());
        }
        if has_thread(&self.programs, head.thread) {
            return Err(both_kinds(alloc)?);
        }
        if !has_thread(&self.users, head.thread) {
            self.users.push(head.thread)?;
        }
        Ok(())
    }

    /// Adds the line of a step or of a user.
    fn add_entry(&mut self, alloc: Global, head: &str, text: &str) -> Result<(), PlanError>
        ensures taken { OnOk result (entry_taken (laid_said self.old.laid) self.old.entries
            (head.now, text.now) ≡ Ok self.new.entries) }
        ensures error { IfErr result
            (Refuses (entry_taken (laid_said self.old.laid) self.old.entries
            (head.now, text.now))) }
        ensures laid { self.new.laid ≡ self.old.laid }
    {
        let head = read_head(alloc, &self.laid, head)?;
        let words = split_words(alloc, text)?;
        let line = write_entry(alloc, &self.laid, head, &words)?;
        self.goes_with(head)?;
        self.note_user(alloc, head)?;
        self.lines.push(line)?;
        Ok(())
    }

    /// Begins the program of a thread. Fails if it has one already, or lines of a user.
    fn open_program(&mut self, alloc: Global, thread: ObjId, number: u64) -> Result<(), PlanError>
        ensures error { IfErr result (λ w. refusal_by w ≡ None) }
        ensures laid { self.new.laid ≡ self.old.laid }
    {
        if has_thread(&self.programs, thread) || has_thread(&self.users, thread) {
            return Err(both_kinds(alloc)?);
        }
        self.programs.push(thread)?;
        self.program = Some(OpenProgram {
            opened: number,
            lines: ProgramLines::new(alloc, thread),
        });
        Ok(())
    }

    /// Takes the first line of a program, by the words after `program`.
    fn begin_program(&mut self, alloc: Global, number: u64, words: &[&str]) -> Result<(), PlanError>
        ensures taken { OnOk result (program_begun (laid_said self.old.laid) self.old.entries
            (texts words.now) ≡ Ok self.new.entries) }
        ensures error { IfErr result
            (Refuses (program_begun (laid_said self.old.laid) self.old.entries (texts words.now))) }
        ensures laid { self.new.laid ≡ self.old.laid }
    {
        let mut words = Tokens::new(words);
        let thread = program_head(alloc, &self.laid, &mut words)?;
        self.goes_with(Head { thread, core: None })?;
        self.open_program(alloc, thread, number)?;
        self.entries = Entries::Program { thread, blocks: 0 };
        Ok(())
    }

    /// Adds a statement to the program of a thread, and its line, at this depth of blocks.
    fn add_statement(
        &mut self,
        alloc: Global,
        number: u64,
        within: (ObjId, usize),
        text: &str,
    ) -> Result<(), PlanError>
        ensures error { IfErr result (λ w. refusal_by w ≡ None) }
        ensures laid { self.new.laid ≡ self.old.laid }
        ensures entries { self.new.entries ≡ self.old.entries }
    {
        if let Some(program) = &mut self.program {
            program_error(alloc, program.lines.take(number, text.as_bytes()))?;
        }
        let name = self.laid.plan.names.name_of(within.0);
        let line = program_line(alloc, name, within.1, text)?;
        self.lines.push(line)?;
        Ok(())
    }

    /// Takes a statement inside of a program.
    fn take_statement(
        &mut self,
        alloc: Global,
        number: u64,
        within: (ObjId, usize),
        words: &[&str],
    ) -> Result<(), PlanError>
        ensures taken { OnOk result (statement_taken (laid_said self.old.laid) within.0 within.1
            (texts words.now) ≡ Ok self.new.entries) }
        ensures error { IfErr result (Refuses
            (statement_taken (laid_said self.old.laid) within.0 within.1 (texts words.now))) }
        ensures laid { self.new.laid ≡ self.old.laid }
    {
        let (thread, blocks) = within;
        let text = statement_text(alloc, &self.laid, thread, words)?;
        let still = open_still(blocks, words);
        let blocks = open_after(blocks, words)?;
        self.add_statement(alloc, number, (thread, still), text.as_str())?;
        self.entries = Entries::Program { thread, blocks };
        Ok(())
    }

    /// Ends the program. Fails if it has no entry.
    fn close_program(&mut self, alloc: Global) -> Result<(), PlanError>
        ensures error { IfErr result (λ w. refusal_by w ≡ None) }
        ensures laid { self.new.laid ≡ self.old.laid }
    {
        let Some(program) = self.program.take() else {
            return Ok(());
        };
        match program.lines.end() {
            Ok(_) => Ok(()),
            Err(fault) => Err(fault_of(alloc, fault.why)),
        }
    }

    /// Takes the last line of a program.
    fn end_program(&mut self, alloc: Global, words: &[&str]) -> Result<(), PlanError>
        ensures taken { OnOk result (program_ended (texts words.now) ≡ Ok self.new.entries) }
        ensures error { IfErr result (Refuses (program_ended (texts words.now))) }
        ensures laid { self.new.laid ≡ self.old.laid }
    {
        let mut left = Tokens::new(words);
        left.next();
        left.end(alloc)?;
        self.close_program(alloc)?;
        self.entries = Entries::Users;
        Ok(())
    }

    /// Takes a line of a program.
    fn take_program(
        &mut self,
        alloc: Global,
        number: u64,
        within: (ObjId, usize),
        words: &[&str],
    ) -> Result<(), PlanError>
        ensures taken { OnOk result (program_taken (laid_said self.old.laid) within.0 within.1
            (texts words.now) ≡ Ok self.new.entries) }
        ensures error { IfErr result (Refuses
            (program_taken (laid_said self.old.laid) within.0 within.1 (texts words.now))) }
        ensures laid { self.new.laid ≡ self.old.laid }
    {
        if is_end(within.1, words) {
            self.end_program(alloc, words)
        } else {
            self.take_statement(alloc, number, within, words)
        }
    }

    /// Fails with `Unclosed` if a program is open.
    fn has_closed(&self) -> Result<(), PlanError>
        ensures closed { OnOk result (all_closed self.now.entries ≡ Ok self.now.entries) }
        ensures error { IfErr result (Refuses (all_closed self.now.entries)) }
    {
        match self.entries {
            Entries::Program { .. } => Err(PlanError::Unclosed {
                opened: self.program.as_ref().map_or(0, |program| program.opened),
            }),
            Entries::Nothing | Entries::Steps | Entries::Users => Ok(()),
        }
    }

    /// Fails with `NoStep` if there was no step yet.
    fn has_step(&self) -> Result<(), PlanError>
        ensures ok { OnOk result (need (is_steps self.now.entries) no_step ≡ Ok tt) }
        ensures error { IfErr result (Refuses (need (is_steps self.now.entries) no_step)) }
    {
        match self.entries {
            Entries::Steps => Ok(()),
            Entries::Nothing | Entries::Users | Entries::Program { .. } => Err(PlanError::NoStep),
        }
    }

    /// Adds an expectation of the step before.
    fn add_wanted(&mut self, alloc: Global, words: &[&str]) -> Result<(), PlanError>
        ensures taken { OnOk result (wanted_taken (laid_said self.old.laid) self.old.entries
            (texts words.now) ≡ Ok self.new.entries) }
        ensures error { IfErr result
            (Refuses (wanted_taken (laid_said self.old.laid) self.old.entries (texts words.now))) }
        ensures laid { self.new.laid ≡ self.old.laid }
    {
        self.has_step()?;
        let wanted = read_wanted(alloc, &self.laid.plan.names, words)?;
        is_short(wanted.as_str())?;
        self.lines.push(wanted)?;
        Ok(())
    }

    /// Adds a line with `: ` in it, or begins a program. `Late` if it is neither.
    fn add_headed(
        &mut self,
        alloc: Global,
        number: u64,
        code: &str,
        first: &str,
        rest: &[&str],
    ) -> Result<(), PlanError>
        ensures taken { OnOk result (headed_taken (laid_said self.old.laid) self.old.entries
            first.now (texts rest.now) (cut_at_colon code.now) ≡ Ok self.new.entries) }
        ensures error { IfErr result (Refuses (headed_taken (laid_said self.old.laid)
            self.old.entries first.now (texts rest.now) (cut_at_colon code.now))) }
        ensures laid { self.new.laid ≡ self.old.laid }
    {
        match split_colon(code) {
            Some((head, text)) => self.add_entry(alloc, head, text),
            None if first == "program" => self.begin_program(alloc, number, rest),
            None => Err(PlanError::Late),
        }
    }

    /// Adds the code of a line outside of programs, by its words.
    fn add_words(
        &mut self,
        alloc: Global,
        number: u64,
        code: &str,
        first: &str,
        rest: &[&str],
    ) -> Result<(), PlanError>
        ensures taken { OnOk result (words_taken (laid_said self.old.laid) self.old.entries
            code.now first.now (texts rest.now) ≡ Ok self.new.entries) }
        ensures error { IfErr result (Refuses (words_taken (laid_said self.old.laid)
            self.old.entries code.now first.now (texts rest.now))) }
        ensures laid { self.new.laid ≡ self.old.laid }
    {
        if first == "?" {
            return self.add_wanted(alloc, rest);
        }
        self.add_headed(alloc, number, code, first, rest)
    }

    /// Adds the code of a line after the boot, without its comment.
    fn add_code(&mut self, alloc: Global, number: u64, code: &str) -> Result<(), PlanError>
        ensures taken { OnOk result (code_taken (laid_said self.old.laid) self.old.entries
            code.now ≡ Ok self.new.entries) }
        ensures error { IfErr result
            (Refuses (code_taken (laid_said self.old.laid) self.old.entries code.now)) }
        ensures laid { self.new.laid ≡ self.old.laid }
    {
        let words = split_words(alloc, code)?;
        let Some((first, rest)) = words.split_first() else {
            return Ok(());
        };
        match self.entries {
            Entries::Program { thread, blocks } => {
                self.take_program(alloc, number, (thread, blocks), &words)
            }
            Entries::Nothing | Entries::Steps | Entries::Users => {
                self.add_words(alloc, number, code, first, rest)
            }
        }
    }

    /// Adds the line with this number after the boot, with its comment before it.
    fn add_line(&mut self, alloc: Global, number: u64, line: &str) -> Result<(), PlanError>
        ensures taken { OnOk result (line_taken (laid_said self.old.laid) self.old.entries
            line.now ≡ Ok self.new.entries) }
        ensures error { IfErr result
            (Refuses (line_taken (laid_said self.old.laid) self.old.entries line.now)) }
        ensures laid { self.new.laid ≡ self.old.laid }
    {
        is_short(line)?;
        let (code, comment) = split_comment(line);
        add_comment(alloc, &mut self.lines, comment)?;
        self.add_code(alloc, number, code)
    }
}

/// Returns the fault of a thread with two programs, or with a program and lines of a user.
fn both_kinds(alloc: Global) -> Result<PlanError, AllocError>
    ensures { IfOk result (λ w. refusal_by w ≡ None) }
{
    let message = String::from_str(
        alloc,
        "this thread has lines of a user or a program already",
    )?;
    Ok(PlanError::Program { message })
}

/// Returns whether lines or programs of users came.
fn are_users(entries: Entries) -> bool
    ensures { result ≡ are_users entries }
{
    match entries {
        Entries::Users | Entries::Program { .. } => true,
        Entries::Nothing | Entries::Steps => false,
    }
}

/// Takes the line after the first `count` lines, before the first step.
fn read_next(
    alloc: Global,
    plan: &mut Plan,
    front: &mut Vec<String>,
    count: usize,
    line: &str,
) -> Result<(), PlanFault>
    requires { count + 1 < 2 ^ 64 }
    ensures said { OnOk result
        (line_said (count + 1) line.now (said plan.old) ≡ Ok (said plan.new)) }
    ensures error { IfErr result
        (RefusesAt (at_line (count + 1) (line_said (count + 1) line.now (said plan.old)))) }
{
    let number = count as u64 + 1;
    at(number, read_before(alloc, plan, front, number, line))
}

/// Returns the plan that the lines declare, with the comments among them.
#[tactic(auto, using(crate::proofs::Said::next_said, crate::proofs::Said::line_refused, crate::proofs::Said::all_said))]
fn read_plan(alloc: Global, lines: &[&str]) -> Result<(Plan, Vec<String>), PlanFault>
    ensures said { IfOk result
        (λ read. lines_said 0 (texts lines.now) nothing_said ≡ Ok (said read.0)) }
    ensures error { IfErr result (RefusesAt (lines_said 0 (texts lines.now) nothing_said)) }
{
    let mut plan = Plan::new(alloc);
    let mut front = Vec::new(alloc);
    for count in 0..lines.len() {
        if let Err(fault) = read_next(alloc, &mut plan, &mut front, count, lines[count]) {
            return Err(fault);
        }
    }
    Ok((plan, front))
}

/// Returns the plan that the lines before the first step declare, how many they are, and the
/// comments among them.
fn read_front(alloc: Global, lines: &[&str]) -> Result<(Plan, Vec<String>, usize), PlanFault>
    ensures said { IfOk result (λ read. plan_said (texts lines.now) ≡ Ok (said read.0)) }
    ensures before { IfOk result (λ read. read.2 ≡ count_before (texts lines.now)) }
    ensures error { IfErr result (RefusesAt (plan_said (texts lines.now))) }
{
    let before = count_before(lines);
    let (plan, front) = read_plan(alloc, &lines[..before])?;
    Ok((plan, front, before))
}

/// Takes the next line from the first step on.
fn take_next(
    alloc: Global,
    compiler: &mut Compiler,
    count: usize,
    line: &str,
) -> Result<(), PlanFault>
    requires { count + 1 < 2 ^ 64 }
    ensures taken { OnOk result (line_taken (laid_said compiler.old.laid) compiler.old.entries
        line.now ≡ Ok compiler.new.entries) }
    ensures error { IfErr result (RefusesAt (at_line (count + 1)
        (line_taken (laid_said compiler.old.laid) compiler.old.entries line.now))) }
    ensures laid { compiler.new.laid ≡ compiler.old.laid }
{
    let number = count as u64 + 1;
    at(number, compiler.add_line(alloc, number, line))
}

/// Reads the lines of a plan from its first step on.
fn read_steps(
    alloc: Global,
    compiler: &mut Compiler,
    lines: &[&str],
    before: usize,
) -> Result<(), PlanFault>
    ensures taken { OnOk result (lines_taken (laid_said compiler.old.laid) before
        (drop before (texts lines.now)) compiler.old.entries ≡ Ok compiler.new.entries) }
    ensures error { IfErr result (RefusesAt (lines_taken (laid_said compiler.old.laid) before
        (drop before (texts lines.now)) compiler.old.entries)) }
    ensures laid { compiler.new.laid ≡ compiler.old.laid }
{
    for count in before..lines.len() {
        take_next(alloc, compiler, count, lines[count])?;
    }
    Ok(())
}

/// Returns the script of a plan after its last line.
fn finish(alloc: Global, compiler: Compiler, comments: Vec<String>) -> Result<Script, PlanError>
    ensures boot { IfOk result HasBootOfPlan }
    ensures laid { IfOk result (λ s. s.laid ≡ compiler.laid) }
    ensures users { IfOk result (λ s. s.is_users ≡ are_users compiler.entries) }
    ensures error { IfErr result (Refuses (boot_fits (said compiler.laid.plan))) }
{
    let Compiler {
        laid,
        lines,
        entries,
        ..
    } = compiler;
    let mut front = comments;
    add_names(alloc, &laid.plan.names, &mut front)?;
    let boot = laid.boot_lines(alloc)?;
    Ok(Script {
        front,
        cores: laid.cores(),
        boot,
        lines,
        is_users: are_users(entries),
        laid,
    })
}

/// Takes the lines from the first step on; no program may be open at the end.
fn read_all_steps(
    alloc: Global,
    compiler: &mut Compiler,
    lines: &[&str],
    before: usize,
) -> Result<(), PlanFault>
    requires before { before ≡ count_before (texts lines.now) }
    requires nothing { compiler.old.entries ≡ Nothing }
    ensures taken { OnOk result
        (steps_said (laid_said compiler.old.laid) (texts lines.now) ≡ Ok compiler.new.entries) }
    ensures error { IfErr result
        (RefusesAt (steps_said (laid_said compiler.old.laid) (texts lines.now))) }
    ensures laid { compiler.new.laid ≡ compiler.old.laid }
{
    read_steps(alloc, compiler, lines, before)?;
    at(lines.len() as u64, compiler.has_closed())
}

/// Adds the steps that make threads passive, and takes the lines from the first step on.
fn read_after(
    alloc: Global,
    compiler: &mut Compiler,
    lines: &[&str],
    before: usize,
) -> Result<(), PlanFault>
    requires before { before ≡ count_before (texts lines.now) }
    requires nothing { compiler.old.entries ≡ Nothing }
    ensures taken { OnOk result
        (after_said (laid_said compiler.old.laid) (texts lines.now) ≡ Ok compiler.new.entries) }
    ensures error { IfErr result
        (RefusesAt (after_said (laid_said compiler.old.laid) (texts lines.now))) }
    ensures laid { compiler.new.laid ≡ compiler.old.laid }
{
    compiler.open_all(alloc)?;
    read_all_steps(alloc, compiler, lines, before)
}

/// Returns the script of a plan that is laid out.
fn compile_laid(
    alloc: Global,
    laid: PlanLayout,
    lines: &[&str],
    before: usize,
    front: Vec<String>,
) -> Result<Script, PlanFault>
    requires { before ≡ count_before (texts lines.now) }
    ensures boot { IfOk result HasBootOfPlan }
    ensures laid { IfOk result (λ s. s.laid ≡ laid) }
    ensures steps { IfOk result (HasStepsOf (texts lines.now)) }
    ensures error { IfErr result (RefusesLaid (laid_said laid) (texts lines.now)) }
{
    let mut compiler = Compiler {
        laid,
        lines: Vec::new(alloc),
        entries: Entries::Nothing,
        program: None,
        programs: Vec::new(alloc),
        users: Vec::new(alloc),
    };
    read_after(alloc, &mut compiler, lines, before)?;
    at(lines.len() as u64, finish(alloc, compiler, front))
}

/// Returns the script of a plan's lines.
fn compile_lines(alloc: Global, lines: &[&str]) -> Result<Script, PlanFault>
    ensures boot { IfOk result HasBootOfPlan }
    ensures plan { IfOk result (HasPlanOfLines (texts lines.now)) }
    ensures error { IfErr result (TellsLines (texts lines.now)) }
{
    let (plan, front, before) = read_front(alloc, lines)?;
    let laid = PlanLayout::new(alloc, plan)?;
    compile_laid(alloc, laid, lines, before, front)
}

/// Returns bytes as text. `NotText` at the line of the first byte that is no UTF-8.
fn text_of(bytes: &[u8]) -> Result<&str, PlanFault>
    ensures text { IfOk result (λ text. text.now ≡ bytes.now) }
    ensures utf8 { OnOk result (is_utf8 bytes.now ≡ true) }
    ensures error { IfErr result (RefusesAt (lines_in bytes.now)) }
{
    match std::str::from_utf8(bytes) {
        Ok(text) => Ok(text),
        Err(error) => Err(PlanFault {
            line: line_of(bytes, error.valid_up_to()),
            why: PlanError::NotText,
        }),
    }
}

/// Returns the lines of a text. `Limit` if there are too many.
fn few_lines(alloc: Global, text: &str) -> Result<Vec<&str>, PlanFault>
    ensures few { IfOk result (λ found. few_lines (lines text.now) ≡ Ok (texts found.items)) }
    ensures error { IfErr result (RefusesAt (few_lines (lines text.now))) }
{
    let Ok(lines) = lines_of(alloc, text) else {
        return Err(PlanFault {
            line: 0,
            why: PlanError::OutOfMemory,
        });
    };
    if lines.len() > LINES {
        return Err(PlanFault {
            line: LINES as u64 + 1,
            why: PlanError::Limit {
                what: "lines",
                limit: LINES as u32,
            },
        });
    }
    Ok(lines)
}

/// The lines of bytes.
fn lines_in(alloc: Global, bytes: &[u8]) -> Result<Vec<&str>, PlanFault>
    ensures lines { IfOk result (λ found. lines_in bytes.now ≡ Ok (texts found.items)) }
    ensures error { IfErr result (RefusesAt (lines_in bytes.now)) }
{
    let text = text_of(bytes)?;
    few_lines(alloc, text)
}

/// Compiles a plan to a script (own), whose boot is the plan's. A fault names the first refused
/// line, and the reason.
#[tactic(auto, using(crate::proofs::Said::has_plan_of, crate::proofs::Said::refused_lines))]
pub fn compile(alloc: Global, bytes: &[u8]) -> Result<Script, PlanFault>
    ensures boot { IfOk result HasBootOfPlan }
    ensures plan { IfOk result (HasPlanOf bytes.now) }
    ensures error { IfErr result (TellsPlan bytes.now) }
{
    let lines = lines_in(alloc, bytes)?;
    compile_lines(alloc, &lines)
}
