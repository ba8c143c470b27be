//! The script of a plan, after reading it back.
ghost use Rattle.std.specs.Prelude.{◌≡◌, true, IfOk, OnOk};
ghost use Rattle.mcs_plan_compile.specs.Scripts.{HasBootOfPlan};
ghost use Rattle.mcs_plan_validate.specs.Reading.{IsBootOf, IsVouched};

use crate::fault::CompileFault;
use crate::resolution::first_unresolved;
use crate::script::{booted, take_script};
use mcs_book::Book;
use mcs_kernel::are_same_lines;
use mcs_plan_compile::{Script, compile, write_boot, write_lines, write_script};
use mcs_text::read_user;
use mcs_types::{OutOfMemory, Room};
use std::alloc::Global;

/// How many threads there may be.
const THREADS: usize = 256;

/// The script of a plan, and its text.
#[derive(Drop)]
pub struct Compiled {
    pub script: Script,
    /// What of the text was read back: all of it, or its boot if lines of users follow.
    pub read: Vec<u8>,
    /// The users' lines; none if the script is one of steps.
    pub users: Vec<u8>,
}

/// Returns whether a book has the boot that a script gives.
fn has_boot(book: &Book, script: &Script) -> bool
    ensures { result ≡ true → IsBootOf script.now book.now.book.boot }
{
    book.cores() == script.cores && are_same_lines(book.boot(), &script.boot)
}

/// Fails with `OtherBoot` if the boot of a book is not the one that a script gives.
fn keeps_boot(book: &Book, script: &Script) -> Result<(), CompileFault>
    ensures { OnOk result (IsBootOf script.now book.now.book.boot) }
{
    if has_boot(book, script) {
        return Ok(());
    }
    Err(CompileFault::OtherBoot)
}

/// Reads a text as a script, compares its boot with the plan's, and looks up each name after the
/// boot.
fn vouch(alloc: Global, text: &[u8], script: &Script) -> Result<(), CompileFault>
    requires { HasBootOfPlan script.now }
    ensures { OnOk result (IsVouched text.now script.now.laid) }
{
    let tables = &script.laid.tables;
    if tables.len() > THREADS {
        return Err(CompileFault::OutOfMemory);
    }
    let run = take_script(alloc, text)?;
    let Some(book) = run.book() else {
        return Err(CompileFault::OutOfMemory);
    };
    keeps_boot(book, script)?;
    let kernel = booted(alloc, book)?;
    match first_unresolved(&kernel, tables) {
        None => Ok(()),
        Some(named) => Err(CompileFault::Astray(named.name.clone()?)),
    }
}

/// Returns whether a line after the boot is skipped, or one of a user.
fn is_user(alloc: Global, threads: u32, line: &[u8]) -> Result<bool, OutOfMemory> {
    if matches!(line, [] | [b'#', ..]) {
        return Ok(true);
    }
    let mut room = Some(Room::new(alloc)?);
    Ok(read_user(alloc, threads, line, &mut room).is_ok())
}

/// Reads the lines after a boot as lines of users.
fn vouch_users(alloc: Global, threads: u32, lines: &[String]) -> Result<(), CompileFault> {
    for line in lines {
        if !is_user(alloc, threads, line.as_bytes())? {
            return Err(CompileFault::User(line.clone()?));
        }
    }
    Ok(())
}

/// Returns the script of a plan, with what of its text was read back.
fn read_back(alloc: Global, script: Script) -> Result<Compiled, CompileFault>
    requires { HasBootOfPlan script }
    ensures { IfOk result (λ c. IsVouched c.read.items c.script.laid) }
{
    let (read, users) = if script.is_users {
        (write_boot(alloc, &script)?, write_lines(alloc, &script)?)
    } else {
        (write_script(alloc, &script)?, Vec::new(alloc))
    };
    vouch(alloc, &read, &script)?;
    Ok(Compiled {
        script,
        read,
        users,
    })
}

/// Compiles a plan (own), and reads the result back: the text is a script of steps without a fault,
/// its boot is the plan's, and after the boot each name of each thread leads to what its slot
/// holds. Of a plan of users this holds of the boot, and each line after it is read as a line of a
/// user. Fault `Plan` names the first refused line of the plan; Script, Boot, OtherBoot, Astray and
/// User come only from a fault of this program.
pub fn compile_text(alloc: Global, plan: &[u8]) -> Result<Compiled, CompileFault>
    ensures { IfOk result (λ c. IsVouched c.read.items c.script.laid) }
{
    let script = compile(alloc, plan)?;
    if script.is_users {
        let threads = script.laid.tables.len().min(THREADS) as u32;
        vouch_users(alloc, threads, &script.lines)?;
    }
    read_back(alloc, script)
}
