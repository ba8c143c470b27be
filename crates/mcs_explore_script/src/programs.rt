//! The programs of a script: lines `#! THREAD: STATEMENT`.
ghost use Rattle.std.specs.Prelude.{◌≡◌, ◌+◌, [], false, length, option_copied, IfOk, OnOk};
ghost use Rattle.std.specs.List.{All};
ghost use Rattle.mcs_text.specs.Reading.{words_of};
ghost use Rattle.mcs_explore_programs.specs.Programs.{IsProgram};
ghost use Rattle.mcs_explore_script.specs.Programs.{ArePrograms, begins_program, ends_with_colon, is_program_line, mark_text};

use mcs_explore_programs::{FaultyLine, Program, ProgramFault, ProgramLines};
use mcs_explore_questions::{ExploreFault, There, id_text};
use mcs_text::{Lines, Words};
use mcs_types::ObjId;
use mcs_users::Users;
use std::alloc::Global;

/// Returns the text after `#! ` of a line that begins so.
fn mark_text(line: &[u8]) -> Option<&[u8]>
    ensures { option_copied result ≡ mark_text line.now }
{
    match line {
        [b'#', b'!', b' ', text @ ..] => Some(text),
        _ => None,
    }
}

/// Returns whether a word ends with a colon.
fn ends_with_colon(word: &[u8]) -> bool
    ensures { result ≡ ends_with_colon word.now }
{
    match word.last() {
        Some(byte) => *byte == b':',
        None => false,
    }
}

/// Returns whether the first word of a text ends with a colon.
fn begins_program(text: &[u8]) -> bool
    ensures { result ≡ begins_program (words_of text.now) }
{
    match Words::new(text).next_word() {
        Some(word) => ends_with_colon(word),
        None => false,
    }
}

/// Returns whether a line is one of a program.
pub fn is_program_line(line: &[u8]) -> bool
    ensures { result ≡ is_program_line line.now }
{
    match mark_text(line) {
        Some(text) => begins_program(text),
        None => false,
    }
}

/// Returns the word before the colon of a line of a program, and the statement after it.
fn parts_of(line: &[u8]) -> Option<(&[u8], &[u8])> {
    let mut words = Words::new(mark_text(line)?);
    match words.next_word()? {
        [name @ .., b':'] => Some((name, words.left().unwrap_or(&[]))),
        _ => None,
    }
}

/// Returns the index of the program of a thread, which begins here if it has none yet. `HasUser` if
/// it has lines of a user.
fn place_of(
    alloc: Global,
    users: &Users,
    thread: ObjId,
    all: &mut Vec<ProgramLines>,
) -> Result<usize, ProgramFault> {
    for place in 0..all.len() {
        if all
            .get(place)
            .is_some_and(|lines| lines.thread().is_same(thread))
        {
            return Ok(place);
        }
    }
    if users.find(thread).is_some() {
        return Err(ProgramFault::HasUser {
            thread: id_text(alloc, thread)?,
        });
    }
    all.push(ProgramLines::new(alloc, thread))?;
    Ok(all.len().saturating_sub(1))
}

/// Takes the program's line with this number.
fn take_line(
    alloc: Global,
    there: There<'_>,
    number: u64,
    line: &[u8],
    all: &mut Vec<ProgramLines>,
) -> Result<(), FaultyLine> {
    let Some((name, statement)) = parts_of(line) else {
        return Ok(());
    };
    let found = match there.thread(alloc, name) {
        Ok(thread) => place_of(alloc, there.users, thread, all),
        Err(why) => Err(why),
    };
    match found {
        Ok(place) => match all.get_mut(place) {
            Some(lines) => lines.take(number, statement),
            None => Ok(()),
        },
        Err(why) => Err(FaultyLine { line: number, why }),
    }
}

/// Takes a line, if it is one of a program.
fn add_line(
    alloc: Global,
    there: There<'_>,
    number: u64,
    line: &[u8],
    all: &mut Vec<ProgramLines>,
) -> Result<(), ExploreFault>
    ensures { OnOk result (is_program_line line.now ≡ false → all.new.items ≡ all.old.items) }
{
    if !is_program_line(line) {
        return Ok(());
    }
    match take_line(alloc, there, number, line, all) {
        Ok(()) => Ok(()),
        Err(fault) => Err(ExploreFault::of_program(fault)),
    }
}

/// Adds a program whose lines were all taken. Fails if the program does not end there.
fn push_ended(programs: &mut Vec<Program>, lines: ProgramLines) -> Result<(), ExploreFault>
    ensures count { OnOk result (length programs.new.items ≡ length programs.old.items + 1) }
    ensures each { OnOk result
        (All IsProgram programs.old.items → All IsProgram programs.new.items) }
{
    match lines.end() {
        Ok(program) => {
            programs.push(program)?;
            Ok(())
        }
        Err(fault) => Err(ExploreFault::of_program(fault)),
    }
}

/// Returns the programs whose lines were all taken. Fails if one does not end there.
fn ended(alloc: Global, all: Vec<ProgramLines>) -> Result<Vec<Program>, ExploreFault>
    ensures count { IfOk result (λ programs. length programs.items ≡ length all.items) }
    ensures each { IfOk result (λ programs. All IsProgram programs.items) }
{
    let mut programs = Vec::new(alloc);
    for lines in all {
        push_ended(&mut programs, lines)?;
    }
    Ok(programs)
}

/// Reads the programs of a text.
pub fn read_programs(
    alloc: Global,
    there: There<'_>,
    text: &[u8],
) -> Result<Vec<Program>, ExploreFault>
    ensures { IfOk result (λ programs. ArePrograms text.now programs.items) }
{
    let mut all = Vec::new(alloc);
    let mut lines = Lines::new(text);
    let mut number: u64 = 1;
    while let Some(line) = lines.next_line() {
        add_line(alloc, there, number, line, &mut all)?;
        number += 1;
    }
    ended(alloc, all)
}
