//! Users that must not get stuck.
ghost use Rattle.std.specs.Prelude.{◌≡◌, ◌++◌, IfOk, OnOk};
ghost use Rattle.std.specs.List.{list_any};
ghost use Rattle.mcs_explore_questions.specs.Asking.{is_of_waits};
ghost use Rattle.mcs_explore_script.specs.Lives.{asked_live, asked_lives, entry_asked, last_entry, live_of, lives_of, other_live, other_lives};

use crate::questions::AskedLine;
use mcs_explore_questions::{Asked, ExploreFault};
use mcs_types::ObjId;
use mcs_users::{UserList, Users};
use std::alloc::Global;

/// A user, and one of its entries, counted from 0: can it still be answered? Without an entry: can
/// any of them?
#[derive(Clone, Copy, Drop)]
pub struct Live {
    pub user: usize,
    pub entry: Option<usize>,
}

/// Returns the entry that some order can answer as long as the user is not stuck: the last one,
/// which comes after all others; None if the user repeats entries or has a program.
fn last_entry(list: &UserList) -> Option<usize>
    ensures { result ≡ last_entry list.now }
{
    if list.has_program() {
        return None;
    }
    match list.again {
        Some(_) => None,
        None => Some(list.entries.len().saturating_sub(1)),
    }
}

/// Returns an entry, counted from 0, that is asked about by its number from 1; the last one if no
/// number is given.
fn entry_asked(number: Option<usize>, list: &UserList) -> Option<usize>
    ensures { result ≡ entry_asked number list.now }
{
    match number {
        Some(number) => Some(number.saturating_sub(1)),
        None => last_entry(list),
    }
}

/// Adds the user at an index, if there is one, as one that must not get stuck before this entry.
fn push_live(
    lives: &mut Vec<Live>,
    users: &Users,
    number: Option<usize>,
    place: Option<usize>,
) -> Result<(), ExploreFault>
    ensures { OnOk result (lives.new.items ≡ lives.old.items ++ live_of users.now number place) }
{
    let Some(user) = place else {
        return Ok(());
    };
    if let Some(list) = users.at(user) {
        let entry = entry_asked(number, list);
        lives.push(Live { user, entry })?;
    }
    Ok(())
}

/// Adds the users that a question says must not get stuck.
fn push_asked(lives: &mut Vec<Live>, users: &Users, asked: &Asked) -> Result<(), ExploreFault>
    ensures { OnOk result (lives.new.items ≡ lives.old.items ++ asked_live users.now asked.now) }
{
    match asked {
        Asked::Live { thread, number } => push_live(lives, users, *number, users.find(*thread)),
        Asked::Idle { .. }
        | Asked::Answer { .. }
        | Asked::AnswerIf { .. }
        | Asked::Some { .. }
        | Asked::Never { .. }
        | Asked::Apart { .. }
        | Asked::Before { .. }
        | Asked::Again { .. }
        | Asked::Ruled { .. } => Ok(()),
    }
}

/// Returns what the lines `live` ask, in order.
fn asked_lives(alloc: Global, users: &Users, asked: &[AskedLine]) -> Result<Vec<Live>, ExploreFault>
    ensures { IfOk result (λ lives. lives.items ≡ asked_lives users.now asked.now) }
{
    let mut lives = Vec::new(alloc);
    for line in asked {
        push_asked(&mut lives, users, &line.asked)?;
    }
    Ok(lives)
}

/// Returns whether a question is about the waits of a user.
fn are_of_waits(asked: &[AskedLine], thread: ObjId) -> bool
    ensures { result ≡ list_any (λ q. is_of_waits q.asked thread) asked.now }
{
    asked.iter().any(|line| line.asked.is_of_waits(thread))
}

/// Adds a user, by its number, if no question is about its waits.
fn push_other(
    lives: &mut Vec<Live>,
    asked: &[AskedLine],
    user: usize,
    list: &UserList,
) -> Result<(), ExploreFault>
    ensures { OnOk result (lives.new.items
        ≡ lives.old.items ++ other_live asked.now user list.now) }
{
    if are_of_waits(asked, list.thread) {
        return Ok(());
    }
    let entry = last_entry(list);
    lives.push(Live { user, entry })?;
    Ok(())
}

/// Returns the users that must not get stuck: those of questions, then all whose waits no question
/// is about. `OutOfMemory` if an allocation fails.
pub fn lives_of(
    alloc: Global,
    users: &Users,
    asked: &[AskedLine],
) -> Result<Vec<Live>, ExploreFault>
    ensures { IfOk result (λ lives. lives.items ≡ lives_of users.now asked.now) }
{
    let mut lives = asked_lives(alloc, users, asked)?;
    let lists = users.lists();
    for user in 0..lists.len() {
        if let Some(list) = lists.get(user) {
            push_other(&mut lives, asked, user, list)?;
        }
    }
    Ok(lives)
}
