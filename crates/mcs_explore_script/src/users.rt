//! The users of a script.
ghost use Rattle.std.specs.Prelude.{◌≡◌, ◌++◌, ◌∷◌, [], IfOk, OnOk};
ghost use Rattle.std.specs.List.{list_any};
ghost use Rattle.mcs_users.specs.Users.{with_entry};
ghost use Rattle.mcs_explore_script.specs.Programs.{labels_of, with_one_program, with_program_entries, with_programs};
ghost use Rattle.mcs_explore_script.specs.UserLists.{all_changed, changed_by, ruled, ruled_by, tells_once, with_entries};

use crate::marks::EntryText;
use crate::questions::AskedLine;
use mcs_explore_programs::{Label, Program, ProgramEntry};
use mcs_explore_questions::{Asked, ExploreFault, QuestionFault, Rule, comes_once, goes_on_once};
use mcs_lab_check::LabFault;
use mcs_text::UserEntry;
use mcs_types::{ObjId, OutOfMemory};
use mcs_users::Users;
use std::alloc::Global;

/// Returns the users of these entries. `OutOfMemory` if an allocation fails.
pub fn users_of(alloc: Global, entries: Vec<UserEntry>) -> Result<Users, OutOfMemory>
    ensures { IfOk result (λ u. u ≡ with_entries [] entries.items) }
{
    let mut users = Users::new(alloc);
    for said in entries {
        users.add(said.thread, said.entry)?;
    }
    Ok(users)
}

/// Adds an entry of a program, and its text. `OutOfMemory` if an allocation fails.
fn add_entry(
    users: &mut Users,
    texts: &mut Vec<EntryText>,
    thread: ObjId,
    given: ProgramEntry,
) -> Result<(), OutOfMemory>
    ensures { OnOk result (users.new ≡ with_entry users.old thread given.entry) }
{
    let ProgramEntry { entry, text } = given;
    users.add(thread, entry)?;
    match texts.push(EntryText { thread, text }) {
        Ok(()) => Ok(()),
        Err(_) => Err(OutOfMemory),
    }
}

/// Adds the entries of a program, and their texts. `OutOfMemory` if an allocation fails.
fn add_entries(
    users: &mut Users,
    texts: &mut Vec<EntryText>,
    thread: ObjId,
    entries: Vec<ProgramEntry>,
) -> Result<(), OutOfMemory>
    ensures { OnOk result (users.new ≡ with_program_entries users.old thread entries.items) }
{
    for given in entries {
        add_entry(users, texts, thread, given)?;
    }
    Ok(())
}

/// Appends a label. `OutOfMemory` if an allocation fails.
fn add_label(all: &mut Vec<Label>, label: Label) -> Result<(), OutOfMemory>
    ensures { OnOk result (all.new.items ≡ all.old.items ++ label ∷ []) }
{
    match all.push(label) {
        Ok(()) => Ok(()),
        Err(_) => Err(OutOfMemory),
    }
}

/// Appends labels. `OutOfMemory` if an allocation fails.
fn add_labels(all: &mut Vec<Label>, more: Vec<Label>) -> Result<(), OutOfMemory>
    ensures { OnOk result (all.new.items ≡ all.old.items ++ more.items) }
{
    for label in more {
        add_label(all, label)?;
    }
    Ok(())
}

/// Adds a program, the texts of its entries, and their names. `OutOfMemory` if an allocation fails.
fn add_program(
    users: &mut Users,
    texts: &mut Vec<EntryText>,
    labels: &mut Vec<Label>,
    program: Program,
) -> Result<(), OutOfMemory>
    ensures users { OnOk result (users.new ≡ with_one_program users.old program) }
    ensures labels { OnOk result (labels.new.items ≡ labels.old.items ++ program.labels.items) }
{
    let Program {
        thread,
        entries,
        ops,
        fills,
        labels: more,
    } = program;
    add_labels(labels, more)?;
    add_entries(users, texts, thread, entries)?;
    users.program(thread, ops, fills);
    Ok(())
}

/// Adds programs, the texts of their entries, and their names. `OutOfMemory` if an allocation
/// fails.
pub fn add_programs(
    users: &mut Users,
    texts: &mut Vec<EntryText>,
    labels: &mut Vec<Label>,
    programs: Vec<Program>,
) -> Result<(), OutOfMemory>
    ensures users { OnOk result (users.new ≡ with_programs users.old programs.items) }
    ensures labels { OnOk result
        (labels.new.items ≡ labels.old.items ++ labels_of programs.items) }
{
    for program in programs {
        add_program(users, texts, labels, program)?;
    }
    Ok(())
}

/// Makes all users follow a rule. The rule of entries answered once works by giving all users
/// programs.
fn set_rule(users: &mut Users, rule: Rule)
    ensures { users.new ≡ ruled_by rule users.old }
{
    match rule {
        Rule::By(schedule) => users.set_schedule(schedule),
        Rule::ResumedGoesOn => {}
    }
}

/// Makes a list repeat, or all users follow a rule, if a line says so.
fn change(users: &mut Users, asked: &Asked)
    ensures { users.new ≡ changed_by users.old asked.now }
{
    match asked {
        Asked::Again { event } => users.repeat(event.thread, event.number.saturating_sub(1)),
        Asked::Ruled { rule } => set_rule(users, *rule),
        Asked::Idle { .. }
        | Asked::Live { .. }
        | Asked::Answer { .. }
        | Asked::AnswerIf { .. }
        | Asked::Some { .. }
        | Asked::Never { .. }
        | Asked::Apart { .. }
        | Asked::Before { .. } => {}
    }
}

/// Makes the lists of users repeat, and sets the schedule of all users, if lines ask for it.
/// `AgainTwice` if a list repeats already.
fn change_all(alloc: Global, users: &mut Users, asked: &[AskedLine]) -> Result<(), ExploreFault>
    ensures { OnOk result (users.new ≡ all_changed users.old asked.now) }
{
    for line in asked {
        if let Err(why) = goes_on_once(alloc, users, &line.asked) {
            return Err(ExploreFault::of_line(line.line, why));
        }
        change(users, &line.asked);
    }
    Ok(())
}

/// Returns whether a line says that no user repeats an answered entry.
fn tells_once(asked: &Asked) -> bool
    ensures { result ≡ tells_once asked.now }
{
    match asked {
        Asked::Ruled { rule } => match rule {
            Rule::By(_) => false,
            Rule::ResumedGoesOn => true,
        },
        Asked::Idle { .. }
        | Asked::Live { .. }
        | Asked::Answer { .. }
        | Asked::AnswerIf { .. }
        | Asked::Some { .. }
        | Asked::Never { .. }
        | Asked::Apart { .. }
        | Asked::Before { .. }
        | Asked::Again { .. } => false,
    }
}

/// Returns whether one of these lines says that no user repeats an answered entry.
fn any_tells_once(asked: &[AskedLine]) -> bool
    ensures { result ≡ list_any (λ q. tells_once q.asked) asked.now }
{
    asked.iter().any(|line| tells_once(&line.asked))
}

/// Returns users that follow what all lines say. `AgainTwice` if a list repeats already;
/// `OutOfMemory` if an allocation fails.
pub fn ruled(alloc: Global, users: Users, asked: &[AskedLine]) -> Result<Users, ExploreFault>
    ensures { IfOk result (λ u. u ≡ ruled users asked.now) }
{
    let mut users = users;
    change_all(alloc, &mut users, asked)?;
    if !any_tells_once(asked) {
        return Ok(users);
    }
    match users.straightened() {
        Ok(users) => Ok(users),
        Err(_) => Err(ExploreFault::Lab(LabFault::OutOfMemory)),
    }
}

/// Returns whether two rules are of one kind.
fn are_of_one_kind(one: Rule, other: Rule) -> bool {
    match (one, other) {
        (Rule::By(_), Rule::By(_)) | (Rule::ResumedGoesOn, Rule::ResumedGoesOn) => true,
        (Rule::By(_), Rule::ResumedGoesOn) | (Rule::ResumedGoesOn, Rule::By(_)) => false,
    }
}

/// Returns the rule that a line sets, if it sets one.
fn rule_of(line: &AskedLine) -> Option<Rule> {
    match &line.asked {
        Asked::Ruled { rule } => Some(*rule),
        Asked::Idle { .. }
        | Asked::Live { .. }
        | Asked::Answer { .. }
        | Asked::AnswerIf { .. }
        | Asked::Some { .. }
        | Asked::Never { .. }
        | Asked::Apart { .. }
        | Asked::Before { .. }
        | Asked::Again { .. } => None,
    }
}

/// Fails with `RuleTwice` if a line sets a rule of a kind that an earlier line set.
pub fn rules_once(asked: &[AskedLine]) -> Result<(), ExploreFault> {
    for (place, line) in asked.iter().enumerate() {
        let Some(rule) = rule_of(line) else {
            continue;
        };
        let mut before = asked[..place].iter().filter_map(rule_of);
        if before.any(|other| are_of_one_kind(rule, other)) {
            return Err(ExploreFault::of_line(line.line, QuestionFault::RuleTwice));
        }
    }
    Ok(())
}

/// Fails with `ComesAgain` if a question is about the first time of something that repeats.
pub fn come_once(alloc: Global, users: &Users, asked: &[AskedLine]) -> Result<(), ExploreFault> {
    for line in asked {
        if let Err(why) = comes_once(alloc, users, &line.asked) {
            return Err(ExploreFault::of_line(line.line, why));
        }
    }
    Ok(())
}
