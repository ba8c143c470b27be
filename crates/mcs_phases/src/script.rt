//! The contents of a script, line by line.
ghost use Rattle.std.specs.Prelude.{◌≡◌, ◌≤◌, ℕ, List, Result, Ok, Err, Some, IsSome, IfOk, OnOk, OnErr};
ghost use Rattle.mcs_book.specs.Boots.{boot_log, is_object};
ghost use Rattle.mcs_text.specs.Reading.{Gives, words_of, step_of, user_of};
ghost use Rattle.mcs_text.specs.BootLines.{raw_line};
ghost use Rattle.mcs_phases.specs.BootLines.{object_of, cores_of, cap_of, index_of, fitted, with_line};
ghost use Rattle.mcs_phases.specs.Script.{Grammar, Reads, is_skipped, says_something, asked_cores, boot_in, first_boot, next_boot, next_items, later_line};

use mcs_kernel::Boot;
use mcs_text::{
    Key, LineFault, RawBootLine, RawCap, RawNumber, UserEntry, Words, address, byte, find_boot_key,
    read_boot_line, read_step, read_user,
};
use mcs_types::{
    Badge, BootFault, BootLine, CORES, Cap, CoreId, Guard, Kind, ObjId, OutOfMemory, Prio, Room,
    SCRIPT_LINE_BYTES, SCRIPT_LINES, Step,
};
use std::alloc::Global;
use std::marker::Model;

/// What a line after the boot of a script contains.
pub trait Item: Sized + Drop {
    ghost use Rattle.std.specs.Prelude.{IsSome};
    ghost use Rattle.mcs_text.specs.declared.fault.LineFault.{LineFault};

    /// The item that a line spells, with these numbers of cores and threads.
    ghost item: { ℕ → ℕ → List ℕ → Result Self LineFault };

    /// Reads the item that a line spells, with these numbers of cores and threads. Fault `Form` if
    /// it spells none; `Number` if a number is out of its range; `NoObject` if the thread does not
    /// exist.
    fn read(
        alloc: Global,
        cores: u8,
        threads: u32,
        line: &[u8],
        room: &mut Option<Room>,
    ) -> Result<Self, LineFault>
        requires { IsSome room.old }
        ensures { Gives (λ x. x) result (item cores threads line.now) };
}

impl Item for Step {
    ghost item = { step_of };

    fn read(
        alloc: Global,
        cores: u8,
        threads: u32,
        line: &[u8],
        room: &mut Option<Room>,
    ) -> Result<Step, LineFault> {
        read_step(alloc, cores, threads, line, room)
    }
}

impl Item for UserEntry {
    ghost item = { λ cores threads line. user_of threads line };

    fn read(
        alloc: Global,
        _cores: u8,
        threads: u32,
        line: &[u8],
        room: &mut Option<Room>,
    ) -> Result<UserEntry, LineFault> {
        read_user(alloc, threads, line, room)
    }
}

/// The boot and the items of a script's lines so far.
#[derive(Drop)]
pub struct Script<T> {
    pub boot: Option<Boot>,
    pub items: Vec<T>,
    pub room: Option<Room>,
}

/// Allocates room for the words of any message, if there is none. `OutOfMemory` if that fails.
pub fn make_ready(alloc: Global, room: &mut Option<Room>) -> Result<(), OutOfMemory>
    ensures ready { OnOk result (IsSome room.new) }
{
    if room.is_none() {
        *room = Some(Room::new(alloc)?);
    }
    Ok(())
}

impl<T> Model for Script<T> {
    ghost use Rattle.mcs_phases.specs.Script.{Script};

    ghost Value = { Script T };

    ghost view = { λ s. record { boot = s.boot; items = s.items.items } };
}

/// Why a line could not be taken.
#[derive(Clone, Copy)]
pub enum ScriptFault {
    Line(LineFault),
    OutOfMemory,
}

impl From<LineFault> for ScriptFault {
    ghost use Rattle.std.specs.Prelude.{◌≡◌};
    ghost use Rattle.mcs_phases.specs.declared.script.ScriptFault.TheVariants.{Line};

    ghost from_gives = { λ fault e. e ≡ Line fault };

    fn from(fault: LineFault) -> ScriptFault {
        ScriptFault::Line(fault)
    }
}

impl From<BootFault> for ScriptFault {
    ghost use Rattle.std.specs.Prelude.{◌≡◌};
    ghost use Rattle.mcs_phases.specs.Script.{script_fault_of};

    ghost from_gives = { λ fault e. e ≡ script_fault_of fault };

    fn from(fault: BootFault) -> ScriptFault {
        match fault {
            BootFault::Number => ScriptFault::Line(LineFault::Number),
            BootFault::NoObject => ScriptFault::Line(LineFault::NoObject),
            BootFault::Limit => ScriptFault::Line(LineFault::Limit),
            BootFault::Taken => ScriptFault::Line(LineFault::Taken),
            BootFault::OutOfMemory => ScriptFault::OutOfMemory,
        }
    }
}

/// Returns whether a line is skipped.
fn is_skipped(line: &[u8]) -> bool
    ensures { result ≡ is_skipped line.now }
{
    matches!(line, [] | [b'#' | b'=' | b'+', ..])
}

/// Returns whether a line is not skipped. Fault ManyLines (9) or LongLine (7) if such a line is not
/// allowed.
pub fn says_something(number: u64, line: &[u8]) -> Result<bool, LineFault>
    ensures says { Gives (λ says. says) result (says_something number line.now) }
    ensures numbered { OnOk result (number ≤ SCRIPT_LINES) }
{
    if number > SCRIPT_LINES {
        return Err(LineFault::ManyLines);
    }
    if line.len() > SCRIPT_LINE_BYTES {
        return Err(LineFault::LongLine);
    }
    Ok(!is_skipped(line))
}

/// Returns the object of a kind with this serial; an id that is never made, serial 0, if the serial
/// is too large.
fn object(kind: Kind, serial: RawNumber) -> ObjId
    ensures { result ≡ object_of kind serial }
{
    let serial = match serial {
        Some(n) if n <= u32::MAX as u64 => n as u32,
        _ => 0,
    };
    ObjId { kind, serial }
}

/// The number of cores.
#[tactic(auto, unfolding(crate::specs::BootLines::cores_of))]
fn cores_of(cores: RawNumber) -> Result<u8, LineFault>
    ensures { Gives (λ n. n) result (cores_of cores) }
{
    match cores {
        Some(n) if n >= 1 && n <= CORES as u64 => Ok(n as u8),
        _ => Err(LineFault::Number),
    }
}

/// A capability of a slot.
#[tactic(auto, unfolding(crate::specs::BootLines::cap_of))]
fn cap_of(cap: RawCap) -> Result<Cap, LineFault>
    ensures { Gives (λ c. c) result (cap_of cap) }
{
    Ok(Cap {
        obj: object(cap.kind, cap.serial),
        rights: cap.rights,
        badge: Badge(address(cap.badge)?),
        guard: Guard {
            bits: byte(cap.bits)?,
            value: address(cap.value)?,
        },
    })
}

/// Returns an index of a slot. If the CNode was not made, its range is not tested here.
fn index_in(boot: &Boot, cnode: RawNumber, index: RawNumber) -> Result<u8, LineFault>
    ensures { Gives (λ i. i) result
        (index_of (is_object (boot_log boot.now.lines) Kind.CNode (object_of Kind.CNode cnode))
        index) }
{
    match boot.radix(object(Kind::CNode, cnode)) {
        Some(_) => byte(index),
        None => Ok(0),
    }
}

/// Returns the line of the boot that is spelled, if each number fits its type. Nothing else is
/// tested.
#[tactic(auto, unfolding(crate::specs::BootLines::fitted))]
fn fitted(boot: &Boot, line: RawBootLine) -> Result<BootLine, LineFault>
    ensures { Gives (λ l. l) result (fitted (boot_log boot.now.lines) line) }
{
    match line {
        RawBootLine::Cores { cores } => {
            cores_of(cores)?;
            Err(LineFault::Taken)
        }
        RawBootLine::CNode { radix } => Ok(BootLine::CNode {
            radix: byte(radix)?,
        }),
        RawBootLine::Endpoint => Ok(BootLine::Endpoint),
        RawBootLine::Notification => Ok(BootLine::Notification),
        RawBootLine::Reply => Ok(BootLine::Reply),
        RawBootLine::Context { core } => Ok(BootLine::Context {
            core: CoreId(byte(core)?),
        }),
        RawBootLine::Thread {
            priority,
            maximum,
            root,
            bits,
            value,
            runs,
            context,
        } => Ok(BootLine::Thread {
            priority: Prio(byte(priority)?),
            maximum: Prio(byte(maximum)?),
            root: object(Kind::CNode, root),
            guard: Guard {
                bits: byte(bits)?,
                value: address(value)?,
            },
            runs,
            context: context.map(|serial| object(Kind::Context, serial)),
        }),
        RawBootLine::Slot { cnode, index, cap } => Ok(BootLine::Slot {
            cnode: object(Kind::CNode, cnode),
            index: index_in(boot, cnode, index)?,
            cap: cap_of(cap)?,
        }),
        RawBootLine::Tie {
            thread,
            notification,
        } => Ok(BootLine::Tie {
            thread: object(Kind::Thread, thread),
            notification: object(Kind::Notification, notification),
        }),
    }
}

/// Returns the number of cores, if it is the one asked for.
fn asked_cores(asked: Option<u8>, cores: u8) -> Result<u8, LineFault>
    ensures { Gives (λ n. n) result (asked_cores asked cores) }
{
    match asked {
        Some(asked) if cores != asked => Err(LineFault::Number),
        _ => Ok(cores),
    }
}

/// Begins the boot with its first line, by the key of its first word and the words after it.
#[tactic(auto, unfolding(crate::specs::Script::first_boot))]
fn first_boot(
    alloc: Global,
    asked: Option<u8>,
    key: Option<Key>,
    words: &mut Words<'_>,
) -> Result<Boot, ScriptFault>
    ensures { Reads (λ b. b) result (first_boot asked key words.old) }
{
    let Some(Key::Cores) = key else {
        return Err(ScriptFault::Line(LineFault::NoCores));
    };
    match read_boot_line(Key::Cores, words)? {
        RawBootLine::Cores { cores } => {
            let cores = asked_cores(asked, cores_of(cores)?)?;
            // the number was tested, so only an allocation can fail
            Boot::new(alloc, cores).map_err(|_| ScriptFault::OutOfMemory)
        }
        _ => Err(ScriptFault::Line(LineFault::Form)),
    }
}

/// Adds a line to the boot.
#[tactic(auto, unfolding(crate::specs::BootLines::with_line))]
fn add_line(boot: &mut Boot, line: BootLine) -> Result<(), ScriptFault>
    ensures reads { Reads (λ u. boot.new) result (with_line boot.old line) }
    ensures unchanged { OnErr result (boot.new ≡ boot.old) }
{
    boot.add(line)?;
    Ok(())
}

/// Adds to the boot the line that the words after a key spell.
#[tactic(auto, unfolding(crate::specs::Script::next_boot))]
fn read_next_boot(boot: &mut Boot, key: Key, words: &mut Words<'_>) -> Result<(), ScriptFault>
    ensures reads { Reads (λ u. boot.new) result (next_boot boot.old key words.old) }
    ensures unchanged { OnErr result (boot.new ≡ boot.old) }
{
    let spelled = read_boot_line(key, words)?;
    let line = fitted(boot, spelled)?;
    add_line(boot, line)
}

/// Adds the item that a line spells.
#[tactic(auto, unfolding(crate::specs::Script::next_items))]
fn read_next_item<T: Item>(
    alloc: Global,
    boot: &Boot,
    items: &mut Vec<T>,
    line: &[u8],
    room: &mut Option<Room>,
) -> Result<(), ScriptFault>
    ensures reads { Reads (λ u. items.new.items) result
        (next_items T.item boot.now items.old.items line.now) }
    ensures unchanged { OnErr result (items.new.items ≡ items.old.items) }
{
    if make_ready(alloc, room).is_err() {
        return Err(ScriptFault::OutOfMemory);
    }
    let item = T::read(alloc, boot.cores(), boot.made(Kind::Thread), line, room)?;
    match items.push(item) {
        Ok(()) => Ok(()),
        Err(_) => Err(ScriptFault::OutOfMemory),
    }
}

/// Takes a line after the first: one of the boot, or an item.
#[tactic(auto, unfolding(crate::specs::Script::later_line))]
fn read_later_line<T: Item>(
    alloc: Global,
    boot: &mut Boot,
    items: &mut Vec<T>,
    line: &[u8],
    room: &mut Option<Room>,
    key: Option<Key>,
    words: &mut Words<'_>,
) -> Result<(), ScriptFault>
    ensures reads { Reads (λ u. record { boot = Some boot.new; items = items.new.items }) result
        (later_line T.item boot.old items.old.items line.now key words.old) }
    ensures boot_unchanged { OnErr result (boot.new ≡ boot.old) }
    ensures items_unchanged { OnErr result (items.new.items ≡ items.old.items) }
{
    match key {
        Some(_) if !items.is_empty() => Err(ScriptFault::Line(LineFault::LateBoot)),
        Some(key) => read_next_boot(boot, key, words),
        None => read_next_item(alloc, boot, items, line, room),
    }
}

impl<T: Item> Script<T> {
    ghost use Rattle.mcs_phases.specs.Script.{no_script, read_line, spelled};

    /// The script of no line.
    pub fn new(alloc: Global) -> Script<T>
        ensures { result ≡ no_script }
    {
        Script {
            boot: None,
            items: Vec::new(alloc),
            room: None,
        }
    }

    /// Takes the line with this number; `asked` is the number of cores asked for, if any. The
    /// faults are tested in the order 9, 7, 1, 8, 2, 3, 4, 5, 6, and a faulty line leaves the
    /// script unchanged.
    #[tactic(auto, unfolding(crate::specs::Script::read_line))]
    pub fn read_line(
        &mut self,
        alloc: Global,
        asked: Option<u8>,
        number: u64,
        line: &[u8],
    ) -> Result<(), ScriptFault>
        ensures reads { Reads (λ u. self.new) result
            (read_line (record { cores = asked; item = T.item }) self.old number line.now) }
        ensures numbered { OnOk result (number ≤ SCRIPT_LINES) }
        ensures unchanged { OnErr result (self.new ≡ self.old) }
    {
        if says_something(number, line)? {
            return self.read_words(alloc, asked, line);
        }
        Ok(())
    }

    /// Takes a line that is not skipped.
    #[tactic(auto, unfolding(crate::specs::Script::spelled, crate::specs::Script::by_boot))]
    fn read_words(
        &mut self,
        alloc: Global,
        asked: Option<u8>,
        line: &[u8],
    ) -> Result<(), ScriptFault>
        ensures reads { Reads (λ u. self.new) result
            (spelled (record { cores = asked; item = T.item }) self.old line.now
            (words_of line.now)) }
        ensures unchanged { OnErr result (self.new ≡ self.old) }
    {
        let mut words = Words::new(line);
        let first = words.next_word().ok_or(LineFault::Form)?;
        let key = find_boot_key(first);
        match &mut self.boot {
            None => {
                self.boot = Some(first_boot(alloc, asked, key, &mut words)?);
                Ok(())
            }
            Some(boot) => read_later_line(
                alloc,
                boot,
                &mut self.items,
                line,
                &mut self.room,
                key,
                &mut words,
            ),
        }
    }
}
