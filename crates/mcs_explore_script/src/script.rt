//! The contents of a script of users.
ghost use Rattle.std.specs.Prelude.{◌≡◌, map, IfOk};
ghost use Rattle.mcs_text.specs.Reading.{lines_of};
ghost use Rattle.mcs_explore_script.specs.Questions.{questions_from, said_by};
ghost use Rattle.mcs_explore_script.specs.Scripts.{AreUsers, IsScript, SaysScript, scene};

use crate::lives::{Live, lives_of};
use crate::marks::{EntryText, entry_texts, read_names};
use crate::programs::read_programs;
use crate::questions::{AskedLine, read_questions};
use crate::text::{UsersText, read_text};
use crate::users::{add_programs, come_once, ruled, rules_once, users_of};
use mcs_explore_programs::Label;
use mcs_explore_questions::{ExploreFault, There};
use mcs_kernel::Boot;
use mcs_lab_check::{LabFault, Labels};
use mcs_sim::Source;
use mcs_text::UserEntry;
use mcs_users::Users;
use std::alloc::Global;
use std::io::Read;

/// The contents of a script of users.
#[derive(Drop)]
pub struct UserScript {
    pub boot: Boot,
    pub users: Users,
    pub texts: Vec<EntryText>,
    pub asked: Vec<AskedLine>,
    /// The users that must not get stuck: those of the lines `live`, in order, and then each user
    /// that no line `idle` or `live` names.
    pub lives: Vec<Live>,
    pub names: Labels,
}

/// The users of a script, the texts of their entries, and the names of entries of programs.
#[derive(Drop)]
struct UserTexts {
    users: Users,
    texts: Vec<EntryText>,
    labels: Vec<Label>,
}

/// Reads the programs of a text, and returns its users with the texts of their entries. The faults
/// are those of `entry_texts`, then of `read_programs`; `OutOfMemory` if an allocation fails.
fn read_users(
    alloc: Global,
    text: &[u8],
    boot: &Boot,
    entries: Vec<UserEntry>,
    names: &Labels,
) -> Result<UserTexts, ExploreFault>
    ensures { IfOk result (λ s. AreUsers text.now entries.items s.users s.labels.items) }
{
    let mut texts = entry_texts(alloc, text, &entries)?;
    let Ok(mut users) = users_of(alloc, entries) else {
        return Err(ExploreFault::Lab(LabFault::OutOfMemory));
    };
    let there = There {
        boot: boot.lines(),
        users: &users,
        names,
        labels: &[],
    };
    let programs = read_programs(alloc, there, text)?;
    let mut labels = Vec::new(alloc);
    let Ok(()) = add_programs(&mut users, &mut texts, &mut labels, programs) else {
        return Err(ExploreFault::Lab(LabFault::OutOfMemory));
    };
    Ok(UserTexts {
        users,
        texts,
        labels,
    })
}

/// Reads the questions of a text, which may name entries of any program. Faults come in the order
/// of the lines.
fn read_asked(
    alloc: Global,
    text: &[u8],
    boot: &Boot,
    names: &Labels,
    said: &UserTexts,
) -> Result<Vec<AskedLine>, ExploreFault>
    ensures { IfOk result (λ asked. map said_by asked.items
        ≡ questions_from (scene boot.now said.now.users names.now said.now.labels.items) 1
        (lines_of text.now)) }
{
    let there = There {
        boot: boot.lines(),
        users: &said.users,
        names,
        labels: said.labels.as_slice(),
    };
    read_questions(alloc, there, text)
}

/// Reads the names, programs and questions of a script of users, whose boot and entries were read
/// before. Their faults come in this order.
fn read_said(alloc: Global, said: UsersText) -> Result<UserScript, ExploreFault>
    ensures boot { IfOk result (λ s. s.boot ≡ said.boot) }
    ensures says { IfOk result (λ s. SaysScript said.text.items said.entries.items s) }
{
    let UsersText {
        text,
        boot,
        entries,
    } = said;
    let names = read_names(alloc, &text)?;
    let users_read = read_users(alloc, &text, &boot, entries, &names)?;
    let asked = read_asked(alloc, &text, &boot, &names, &users_read)?;
    let UserTexts {
        users: given,
        texts,
        ..
    } = users_read;
    rules_once(&asked)?;
    let users = ruled(alloc, given, &asked)?;
    come_once(alloc, &users, &asked)?;
    let lives = lives_of(alloc, &users, &asked)?;
    Ok(UserScript {
        boot,
        users,
        texts,
        asked,
        lives,
        names,
    })
}

/// Reads a source to its end. The faults of `mcssim run` come first, in the order of lines, then
/// those of names, of programs, and of questions, which may name entries of any program.
pub fn read_script<R: Read>(alloc: Global, from: &mut Source<R>) -> Result<UserScript, ExploreFault>
    ensures { IfOk result (λ s. IsScript (R.remaining from.old.reader)
        (R.remaining from.new.reader) s) }
{
    let said = match read_text(alloc, from) {
        Ok(said) => said,
        Err(fault) => return Err(ExploreFault::Lab(LabFault::from(fault))),
    };
    let script = read_said(alloc, said)?;
    Ok(script)
}
