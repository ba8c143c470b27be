//! A script of users, from bytes to bytes: runs them on a machine, and writes the trace of its
//! book.
ghost use Rattle.std.specs.Prelude.{◌≡◌, ◌≤◌, IfOk, IfErr, OnOk, Err};
ghost use Rattle.mcs_book.specs.History.{IsLegal};
ghost use Rattle.mcs_book.specs.Fair.{IsFair};
ghost use Rattle.mcs_trace.specs.Output.{Rose};
ghost use Rattle.mcs_sim.specs.Running.{Reads, EndsUsers, IsOfMachine, IsBookOf, RunFinished, RunEndedBy, run_fault, finish_fault};

use crate::trace_text::trace;
use crate::users::UserLines;
use mcs_cores::{FinishFault, Gate, Machine, RunFault, Settled, Users};
use mcs_kernel::{Boot, Kernel};
use mcs_phases::SimFault;
use mcs_queues::LinkedLines;
use mcs_source::{PIECE, Source};
use mcs_text::UserEntry;
use mcs_trace::Sink;
use mcs_types::{CORES, OutOfMemory};
use std::alloc::{AllocGlobal, Global};
use std::io::{Read, Write};
use std::marker::Brand;
use std::sync::Wait;
use std::sync::ledger::{Blank, Ledger};
use std::thread::Threads;

/// Reads the boot and the entries of users from a source, to its end or to a fault. A fault is
/// reported with the piece that contains it.
fn read_users<R: Read>(
    alloc: Global,
    from: &mut Source<R>,
    cores: Option<u8>,
) -> Result<(Boot, Vec<UserEntry>), SimFault>
    ensures ok { IfOk result (λ r. Reads cores (R.remaining from.old.reader)
        (R.remaining from.new.reader) r.0 r.1.items) }
    ensures err { IfErr result (λ e. EndsUsers e cores (R.remaining from.old.reader)
        (R.remaining from.new.reader)) }
    ensures failed { result ≡ Err SimFault.Read → Rose from.old.failed from.new.failed }
    ensures count { from.old.failed ≤ from.new.failed }
{
    let Ok(mut users) = UserLines::new(alloc, cores) else {
        return Err(SimFault::OutOfMemory);
    };
    let mut piece = [0; PIECE];
    loop {
        let Ok(n) = from.read_piece(&mut piece) else {
            return Err(SimFault::Read);
        };
        if n == 0 {
            return users.end(alloc);
        }
        users.feed(alloc, &piece[..n])?;
    }
}

/// The users of these entries.
fn users_of(alloc: Global, entries: Vec<UserEntry>) -> Result<Users, OutOfMemory> {
    let mut users = Users::new(alloc);
    for UserEntry { thread, entry } in entries {
        users.add(thread, entry)?;
    }
    Ok(users)
}

/// Returns the program's fault for a fault of a run.
fn run_fault(fault: RunFault) -> SimFault
    ensures { result ≡ run_fault fault }
{
    match fault {
        RunFault::BookFull => SimFault::BookFull,
        RunFault::OutOfMemory => SimFault::OutOfMemory,
        RunFault::NoThread => SimFault::NotStarted,
    }
}

/// Returns the program's fault for a machine that did not settle.
fn finish_fault(fault: FinishFault) -> SimFault
    ensures { result ≡ finish_fault fault }
{
    match fault {
        FinishFault::MissingSeat | FinishFault::OtherBoot | FinishFault::Torn { .. } => {
            SimFault::Failed
        }
        FinishFault::OutOfMemory => SimFault::OutOfMemory,
    }
}

/// Runs users on a machine with this ledger, and settles it.
fn settle_run<G: Ledger + Send + Sync, X: Threads + Wait + Sync, T: Gate>(
    rt: &X,
    alloc: Global,
    blank: Blank,
    boot: &Boot,
    users: &Users,
    gate: &T,
) -> Result<Settled<LinkedLines>, SimFault>
    requires name { blank.name ≡ G.name }
    requires parts { blank.parts ≡ G.parts }
    requires sixteen { blank.parts ≡ CORES }
    ensures booted { IfOk result (λ s. s.boot ≡ boot.now) }
    ensures legal { IfOk result (λ s. IsLegal s) }
    ensures fair { IfOk result (λ s. IsFair s) }
    ensures fault { IfErr result IsOfMachine }
{
    let Ok(kernel) = Kernel::new(alloc, boot) else {
        return Err(SimFault::OutOfMemory);
    };
    let mut machine = Machine::<G, LinkedLines>::new(kernel, blank);
    let Ok(seats) = machine.seats(rt, alloc) else {
        return Err(SimFault::OutOfMemory);
    };
    let (seats, ended) = machine.run(rt, alloc, seats, users, gate);
    ended.map_err(run_fault)?;
    machine.finish(alloc, boot, seats).map_err(finish_fault)
}

/// Runs the users of these entries on a machine of this boot, and settles it.
fn run_users<X: Threads + Wait + Sync, T: Gate>(
    rt: &X,
    alloc: Global,
    boot: &Boot,
    entries: Vec<UserEntry>,
    gate: &T,
) -> Result<Settled<LinkedLines>, SimFault>
    ensures settled { IfOk result (λ s. IsBookOf boot.now s) }
    ensures fault { IfErr result IsOfMachine }
{
    let Ok(users) = users_of(alloc, entries) else {
        return Err(SimFault::OutOfMemory);
    };
    let blank = Blank::new(u64::from(CORES));
    settle_run::<Brand, X, T>(rt, alloc, blank, boot, &users, gate)
}

/// Reads a boot and the entries of users, runs them on a machine with a host thread for each core,
/// settles it, and writes the trace of its book. If a number of cores is asked for, a script with
/// another number is refused with fault Number at the line that says it. After Ok the whole trace
/// is written, of a legal and fair book that begins with the boot read. After Write a prefix of
/// such a trace is written, and after any other fault nothing: `Script` if a line is faulty,
/// `OutOfMemory` if an allocation fails, `BookFull` if the book had no room for an entry,
/// `NotStarted` if a host thread was not started, and `Failed` if the book does not agree with the
/// calls of the cores. Nothing is read after the piece of at most 4,096 bytes that contains a
/// fault: that of a line comes with its newline, its 4,097th byte, or the first byte of line
/// 2,000,001. The gate is called as `Machine::run` says. Reads and writes are retried as `simulate`
/// does.
pub fn run_text<R: Read, W: Write, X: AllocGlobal + Threads + Wait + Sync, T: Gate>(
    rt: &X,
    from: &mut Source<R>,
    to: &mut Sink<W>,
    cores: Option<u8>,
    gate: &T,
) -> Result<(), SimFault>
    ensures ok { OnOk result (RunFinished R.remaining W.contents cores from.old from.new
        to.old to.new) }
    ensures err { IfErr result (RunEndedBy R.remaining W.contents cores from.old from.new
        to.old to.new) }
    ensures read_failed { result ≡ Err SimFault.Read → Rose from.old.failed from.new.failed }
    ensures write_failed { result ≡ Err SimFault.Write → Rose to.old.failed to.new.failed }
    ensures counts { (from.old.failed ≤ from.new.failed) × (to.old.failed ≤ to.new.failed) }
{
    let alloc = rt.alloc();
    let (boot, entries) = read_users(alloc, from, cores)?;
    let settled = run_users(rt, alloc, &boot, entries, gate)?;
    trace(settled.book(), to)
}
