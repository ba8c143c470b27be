//! The boot, the initial state of a machine (own).
ghost use Rattle.std.specs.Prelude.{◌≡◌, ◌<◌, ◌⊎◌, ◌↔◌, [], IsTrue, IfOk, IfErr, OnOk, OnErr, Err, is_ok, reverse};
ghost use Rattle.mcs_types.specs.declared.boot.BootFault.{BootFault};
ghost use Rattle.mcs_book.specs.Logs.{counted};
ghost use Rattle.mcs_book.specs.Objects.{makes_kind};
ghost use Rattle.mcs_types.specs.Limits.{core_limit};
ghost use Rattle.mcs_book.specs.Boots.{boot_log, IsFaultless};
ghost use Rattle.mcs_boots.specs.Booted.{adds_line, line_check, radix_made, IsOfCheck};

mod checks;
mod lines;

use checks::{check, exists_as};
use lines::takes_line;
use mcs_book::Book;
use mcs_object_queues::{ObjectQueues, Waiting};
use mcs_queues::PlainLines;
use mcs_slots::Tallied;
use mcs_state::State;
use mcs_types::{BootFault, BootLine, CORES, Kind, ObjId, OutOfMemory};
use std::alloc::Global;
use std::marker::Model;

/// The initial state of a machine: the number of cores, and checked lines (own). Clauses see the
/// lines newest first.
#[derive(Drop)]
pub struct Boot {
    // No thread waits yet, so these lines stay empty, and the memory for links and tallies is not
    // cleared twice.
    state: State<ObjectQueues<PlainLines>>,
}

impl Model for Boot {
    ghost use Rattle.std.specs.Prelude.{◌≡◌, []};
    ghost use Rattle.mcs_book.specs.Boots.{Boot, IsFaultless};

    ghost Value = { Boot };

    ghost view = { λ b. b.state.book.boot };

    ghost invariant = { λ b. (b.state.hand ≡ []) × (b.state.book.lines ≡ [])
        × IsFaultless b.state.book.boot };
}

impl Boot {
    /// A boot with this number of cores and no other line. Number (3) exactly if there is no core,
    /// or there are more than 16; otherwise it fails only out of memory (10).
    pub fn new(alloc: Global, cores: u8) -> Result<Boot, BootFault>
        ensures cores { IfOk result (λ b. b.cores ≡ cores) }
        ensures lines { IfOk result (λ b. b.lines ≡ []) }
        ensures number { (result ≡ Err BootFault.Number) ↔ ((cores < 1) ⊎ (core_limit < cores)) }
        ensures fault { IfErr result (λ f. (f ≡ BootFault.Number) ⊎ (f ≡ BootFault.OutOfMemory)) }
    {
        if cores < 1 || cores > CORES {
            return Err(BootFault::Number);
        }
        match State::new(alloc, cores, Tallied::First) {
            Ok(state) => Ok(Boot { state }),
            Err(OutOfMemory) => Err(BootFault::OutOfMemory),
        }
    }

    /// Adds a line. The boot is as it was where a number is out of its range (3), an object that
    /// the line names was not made (4), there are too many objects (5), or a slot is filled, a
    /// context is held, or a thread or a notification is bound already (6): the first of these; or
    /// if an allocation fails (10).
    pub fn add(&mut self, line: BootLine) -> Result<(), BootFault>
        ensures ok { OnOk result (self.new ≡ adds_line self.old line) }
        ensures err { OnErr result (self.new ≡ self.old) }
        ensures passed { OnOk result (IsTrue (is_ok (line_check self.old line))) }
        ensures wrong { IfErr (line_check self.old line) (λ f. result ≡ Err f) }
        ensures fault { IfErr result (IsOfCheck (line_check self.old line)) }
    {
        check(&self.state, &line)?;
        match takes_line(&mut self.state, line) {
            Ok(()) => Ok(()),
            Err(OutOfMemory) => Err(BootFault::OutOfMemory),
        }
    }

    /// The number of cores.
    pub fn cores(&self) -> u8
        ensures { result ≡ self.now.cores }
    {
        self.state.book().cores()
    }

    /// The lines after that of the cores, in order.
    pub fn lines(&self) -> &[BootLine]
        ensures { result.now ≡ reverse self.now.lines }
    {
        self.state.book().boot()
    }

    /// Returns how many objects of a kind were made.
    pub fn made(&self, kind: Kind) -> u32
        ensures { result ≡ counted (makes_kind kind) (boot_log self.now.lines) }
    {
        self.state.made(kind)
    }

    /// Returns how many bits name a slot of a CNode; None if it was not made.
    pub fn radix(&self, cnode: ObjId) -> Option<u8>
        ensures { result ≡ radix_made self.now cnode }
    {
        if !exists_as(&self.state, Kind::CNode, cnode) {
            return None;
        }
        Some(self.state.radix(cnode))
    }

    /// Proves that each line of the boot passed all checks.
    pub fn is_faultless(&self)
        ensures { IsFaultless self.now }
    {
        let _ = &self.state;
    }

    /// Returns the book of the boot, which has no line of an entry.
    pub fn book(&self) -> &Book
        ensures boot { result.now.book.boot ≡ self.now }
        ensures faultless { IsFaultless self.now }
    {
        self.is_faultless();
        self.state.book()
    }

    /// Returns the book of the boot, and drops the tables.
    pub fn into_book(self) -> Book
        ensures boot { result.book.boot ≡ self }
        ensures faultless { IsFaultless self }
    {
        self.is_faultless();
        let Boot { state } = self;
        state.into_book()
    }
}

/// Returns a state after the boot lines of a book.
pub fn boot_state<W: Waiting>(alloc: Global, book: &Book) -> Result<State<W>, OutOfMemory>
    requires { IsFaultless book.now.book.boot }
    ensures book { IfOk result (λ s. s.book ≡ record { boot = book.now.book.boot; lines = [] }) }
    ensures hand { IfOk result (λ s. s.hand ≡ []) }
{
    let mut state = State::new(alloc, book.cores(), Tallied::All)?;
    for line in book.boot() {
        takes_line(&mut state, *line)?;
    }
    Ok(state)
}
