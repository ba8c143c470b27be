//! Reads the lists of users from text that comes in pieces.
ghost use Rattle.std.specs.Prelude.{◌≡◌, ◌≤◌, ◌∷◌, [], ◌++◌, IfOk, IfErr, OnOk, Ok, Some, None};
ghost use Rattle.mcs_phases.specs.Feeds.{HasNoNewline};
ghost use Rattle.mcs_phases.specs.Script.{of_users, read_line};
ghost use Rattle.mcs_sim.specs.Users.{TakesUsers, IsFaultIn, IsFaultOfLine, IsFaultAtEnd, IsKept, no_users, read_to_end};

use mcs_kernel::Boot;
use mcs_phases::{Script, ScriptFault, SimFault};
use mcs_text::{LineFault, UserEntry};
use mcs_types::{OutOfMemory, SCRIPT_LINE_BYTES, SCRIPT_LINES};
use memchr::memchr;
use std::alloc::Global;
use std::marker::Model;

/// The boot and entries of the lines so far, the number of cores asked for, if any, and of the text
/// only the current line.
#[derive(Drop)]
pub struct UserLines {
    asked: Option<u8>,
    script: Script<UserEntry>,
    lines: u64,
    line: Vec<u8>,
}

impl Model for UserLines {
    ghost use Rattle.mcs_sim.specs.Users.{Users, IsKept};

    ghost Value = { Users };

    ghost view = { λ u. record {
      asked = u.asked;
      script = u.script;
      lines = u.lines;
      line = u.line.items;
    } };

    ghost invariant = { λ u. IsKept u.lines u.line.items };
}

/// Reads the line of this number.
fn read_user_line(
    script: &mut Script<UserEntry>,
    alloc: Global,
    asked: Option<u8>,
    number: u64,
    line: &[u8],
) -> Result<(), SimFault>
    ensures ok { OnOk result
        (read_line (of_users asked) script.old number line.now ≡ Ok script.new) }
    ensures err { IfErr result
        (IsFaultOfLine number (read_line (of_users asked) script.old number line.now)) }
    ensures numbered { OnOk result (number ≤ SCRIPT_LINES) }
{
    match script.read_line(alloc, asked, number, line) {
        Ok(()) => Ok(()),
        Err(ScriptFault::Line(why)) => Err(SimFault::Script { line: number, why }),
        Err(ScriptFault::OutOfMemory) => Err(SimFault::OutOfMemory),
    }
}

impl UserLines {
    /// Returns the state before any input, with the number of cores asked for, if any. It allocates
    /// room for one line.
    pub fn new(alloc: Global, asked: Option<u8>) -> Result<UserLines, OutOfMemory>
        ensures { IfOk result (λ u. u ≡ no_users asked) }
    {
        let line = Vec::with_capacity(alloc, SCRIPT_LINE_BYTES).map_err(|_| OutOfMemory)?;
        Ok(UserLines {
            asked,
            script: Script::new(alloc),
            lines: 0,
            line,
        })
    }

    /// Keeps a part of a line.
    fn keep(&mut self, part: &[u8]) -> Result<(), SimFault>
        requires one_line { HasNoNewline part.now }
        ensures ok { OnOk result (TakesUsers part.now self.old self.new) }
        ensures err { IfErr result (IsFaultIn part.now self.old) }
        ensures kept { OnOk result (IsKept self.new.lines self.new.line) }
    {
        let line = self.lines + 1;
        if part.is_empty() {
            return Ok(());
        }
        if line > SCRIPT_LINES {
            let why = LineFault::ManyLines;
            return Err(SimFault::Script { line, why });
        }
        if part.len() > SCRIPT_LINE_BYTES - self.line.len() {
            let why = LineFault::LongLine;
            return Err(SimFault::Script { line, why });
        }
        let Ok(()) = self.line.extend_from_slice(part) else {
            return Err(SimFault::OutOfMemory);
        };
        Ok(())
    }

    /// Takes a line that came whole, and its newline.
    fn take_whole(&mut self, alloc: Global, line: &[u8]) -> Result<(), SimFault>
        requires begins { self.old.line ≡ [] }
        requires one_line { HasNoNewline line.now }
        ensures ok { OnOk result (TakesUsers (line.now ++ 10 ∷ []) self.old self.new) }
        ensures err { IfErr result (IsFaultIn (line.now ++ 10 ∷ []) self.old) }
    {
        let number = self.lines + 1;
        read_user_line(&mut self.script, alloc, self.asked, number, line)?;
        self.lines = number;
        Ok(())
    }

    /// Takes the newline of the line that was kept.
    fn take_kept(&mut self, alloc: Global) -> Result<(), SimFault>
        ensures ok { OnOk result (TakesUsers (10 ∷ []) self.old self.new) }
        ensures empty { OnOk result (self.new.line ≡ []) }
        ensures err { IfErr result (IsFaultIn (10 ∷ []) self.old) }
    {
        let number = self.lines + 1;
        read_user_line(&mut self.script, alloc, self.asked, number, &self.line)?;
        self.lines = number;
        self.line.clear();
        Ok(())
    }

    /// Takes the rest of a line, and its newline.
    fn end_line(&mut self, alloc: Global, part: &[u8]) -> Result<(), SimFault>
        requires one_line { HasNoNewline part.now }
        ensures ok { OnOk result (TakesUsers (part.now ++ 10 ∷ []) self.old self.new) }
        ensures err { IfErr result (IsFaultIn (part.now ++ 10 ∷ []) self.old) }
    {
        if self.line.is_empty() {
            return self.take_whole(alloc, part);
        }
        self.keep(part)?;
        self.take_kept(alloc)
    }

    /// Takes a piece of the input, which may end within a line. Fault Script comes at the latest
    /// with the newline of its line, its 4,097th byte, or the first byte of line 2,000,001.
    pub fn feed(&mut self, alloc: Global, piece: &[u8]) -> Result<(), SimFault>
        ensures ok { OnOk result (TakesUsers piece.now self.old self.new) }
        ensures err { IfErr result (IsFaultIn piece.now self.old) }
        ensures kept { OnOk result (IsKept self.new.lines self.new.line) }
    {
        let mut rest = piece;
        while let Some(i) = memchr(b'\n', rest) {
            self.end_line(alloc, &rest[..i])?;
            rest = &rest[i + 1..];
        }
        self.keep(rest)
    }

    /// Takes the last line, if the input ends without a newline.
    fn end_last(&mut self, alloc: Global) -> Result<(), SimFault>
        ensures ok { OnOk result (read_to_end self.old ≡ read_to_end self.new) }
        ensures empty { OnOk result (self.new.line ≡ []) }
        ensures err { IfErr result (IsFaultAtEnd self.old) }
    {
        if self.line.is_empty() {
            return Ok(());
        }
        self.take_kept(alloc)
    }

    /// Returns the boot and the entries of all lines. Fault `Script` with `NoCores` (1) if no line
    /// said the number of cores.
    fn into_said(self) -> Result<(Boot, Vec<UserEntry>), SimFault>
        requires { self.line ≡ [] }
        ensures ok { IfOk result (λ r. read_to_end self
            ≡ (record { boot = Some r.0; items = r.1.items }, None)) }
        ensures err { IfErr result (IsFaultAtEnd self) }
    {
        let UserLines {
            asked: _,
            script,
            lines,
            line: _,
        } = self;
        let Script {
            boot,
            items,
            room: _,
        } = script;
        match boot {
            Some(boot) => Ok((boot, items)),
            None => Err(SimFault::Script {
                line: lines + 1,
                why: LineFault::NoCores,
            }),
        }
    }

    /// Ends the input, and returns its boot and entries. A last line may lack its newline.
    pub fn end(mut self, alloc: Global) -> Result<(Boot, Vec<UserEntry>), SimFault>
        ensures ok { IfOk result (λ r. read_to_end self
            ≡ (record { boot = Some r.0; items = r.1.items }, None)) }
        ensures err { IfErr result (IsFaultAtEnd self) }
    {
        self.end_last(alloc)?;
        self.into_said()
    }
}
