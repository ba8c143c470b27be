//! The declarations of a plan before its first step.
ghost use Rattle.std.specs.Prelude.{◌≡◌, ◌≤◌, ◌++◌, ◌∷◌, [], None, Ok, IfOk, IfErr, OnOk, OnErr, is_some, min, option_copied, option_and_then, option_map};
ghost use Rattle.std.specs.Option.{unwrap_or};
ghost use Rattle.mcs_plan_source.specs.Naming.{find, limit_of};
ghost use Rattle.mcs_plan_source.specs.Saying.{nothing_said, said};
ghost use Rattle.mcs_plan_source.specs.Making.{all_leaves, is_of_thread, of_starter, of_spaces, made_of, keeps_limit};
ghost use Rattle.mcs_plan_source.specs.Order.{IsInOrder, IsWhole};
ghost use Rattle.mcs_plan_source.specs.Refusals.{Refuses};
ghost use Rattle.mcs_plan_source.specs.Slots.{most_slots, slots_of, slot_count, cap_at, leaves_of, AddsSlot};
ghost use Rattle.mcs_plan_source.specs.SlotRefusals.{MayNotHave};
ghost use Rattle.mcs_plan_source.specs.Threads.{thread_in, space_of};

use crate::{PlanError, Symbols, add_word, limit_of, plural};
use indexmap::IndexMap;
use mcs_types::{Cap, CoreId, Kind, ObjId, Prio};
use std::alloc::{AllocError, Global};

/// A slot of a space: a capability, or none; and how the plan wrote it.
#[derive(Drop)]
pub struct Slot {
    pub cap: Option<Cap>,
    pub written: String,
}

/// A capability space: its slots by their names, from index 1 on. Slot 0 stays empty.
#[derive(Drop)]
pub struct Space {
    /// The radix of its CNode, if the plan gives one.
    pub radix: Option<u8>,
    pub slots: IndexMap<String, Slot>,
}

/// A thread. Its number is its place in the list, from 1.
#[derive(Drop)]
pub struct Thread {
    pub priority: Prio,
    pub maximum: Prio,
    /// The place of its space in the list of spaces.
    pub space: usize,
    pub runs: bool,
    pub context: Option<ObjId>,
    /// The core of its steps.
    pub core: CoreId,
}

/// A thread that receives before the first step, and whose context is then taken away.
#[derive(Drop)]
pub struct Passive {
    /// The line that declares it passive.
    pub line: u64,
    pub thread: ObjId,
    /// The names of two capabilities in its space.
    pub endpoint: String,
    pub reply: String,
}

/// A binding of a notification to a thread.
#[derive(Clone, Copy)]
pub struct Tie {
    pub thread: ObjId,
    pub notification: ObjId,
}

/// The declarations of a plan before its first step. Serials follow the order of the lines.
#[derive(Drop)]
pub struct Plan {
    /// The number of cores, if the plan gives one.
    pub cores: Option<u8>,
    pub names: Symbols,
    /// The core of each context.
    pub contexts: Vec<CoreId>,
    pub threads: Vec<Thread>,
    /// The spaces, each a CNode.
    pub spaces: Vec<Space>,
    pub passives: Vec<Passive>,
    pub ties: Vec<Tie>,
}

/// The thread that takes away the contexts of passive threads.
pub const STARTER: &str = "starter";

/// Returns how many slots a space may have, beside slot 0.
fn most_slots(radix: Option<u8>) -> u32
    ensures { result ≡ most_slots radix }
{
    match radix {
        Some(radix) => (1u32 << radix.min(8)) - 1,
        None => 16_383,
    }
}

impl Space {
    /// Returns a space without slots.
    pub fn new(alloc: Global, radix: Option<u8>) -> Space
        ensures radix { result.radix ≡ radix }
        ensures slots { slots_of result ≡ [] }
    {
        Space {
            radix,
            slots: IndexMap::new(alloc),
        }
    }

    /// Returns whether it has a slot of this name.
    pub fn has(&self, name: &str) -> bool
        ensures { result ≡ is_some (find (slots_of self.now) name.now) }
    {
        self.slots.contains_key(name)
    }

    /// Adds a slot after the others, with a new name.
    #[tactic(auto, using(crate::proofs::SlotNames::put))]
    fn put(&mut self, alloc: Global, name: &str, slot: Slot) -> Result<(), AllocError>
        requires { find (slots_of self.old) name.now ≡ None }
        ensures ok { OnOk result (slots_of self.new ≡ slots_of self.old ++ (name.now, slot) ∷ []) }
        ensures unchanged { OnErr result (slots_of self.new ≡ slots_of self.old) }
        ensures radix { self.new.radix ≡ self.old.radix }
    {
        let key = String::from_str(alloc, name)?;
        self.slots.insert(key, slot)?;
        Ok(())
    }

    /// Adds a slot after the others. `Twice` if its name exists, and `Limit` if the space is full.
    #[tactic(auto, using(crate::proofs::SlotNames::counted))]
    pub fn add(&mut self, alloc: Global, name: &str, slot: Slot) -> Result<(), PlanError>
        ensures added { OnOk result (AddsSlot self.old name.now slot self.new) }
        ensures error { IfErr result (MayNotHave self.old name.now) }
        ensures unchanged { OnErr result (slots_of self.new ≡ slots_of self.old) }
        ensures radix { self.new.radix ≡ self.old.radix }
    {
        if self.has(name) {
            return Err(PlanError::Twice {
                word: String::from_str(alloc, name)?,
            });
        }
        let most = most_slots(self.radix);
        if self.slots.len() >= most as usize {
            return Err(PlanError::Limit {
                what: "slots in this space",
                limit: most,
            });
        }
        self.put(alloc, name, slot)?;
        Ok(())
    }

    /// Returns how many slots it has, with slot 0, up to 65,536.
    #[tactic(auto, using(crate::proofs::SlotNames::counted))]
    pub fn slots(&self) -> u32
        ensures { result ≡ slot_count self.now }
    {
        self.slots.len().min(65_535) as u32 + 1
    }

    /// The capability in a slot; slot 0 is empty.
    #[tactic(auto, using(crate::proofs::SlotNames::held, crate::proofs::SlotNames::held_none))]
    pub fn cap_at(&self, index: u32) -> Option<Cap>
        ensures { result ≡ cap_at self.now index }
    {
        if index == 0 {
            return None;
        }
        let (_, slot) = self.slots.get_index((index - 1) as usize)?;
        slot.cap
    }

    /// Returns how many further CNodes it takes beside its root: none if the root has all slots.
    pub fn leaves(&self) -> u32
        ensures { result ≡ leaves_of self.now }
    {
        let slots = self.slots();
        if self.radix.is_some() || slots <= 256 {
            return 0;
        }
        (slots - 1) / 256 + 1
    }

    /// Returns all its slots, as the plan wrote them.
    pub fn listed(&self, alloc: Global) -> Result<String, AllocError> {
        let mut there = String::new(alloc);
        for slot in self.slots.values() {
            add_word(&mut there, slot.written.as_str())?;
        }
        Ok(there)
    }
}

impl Plan {
    /// An empty plan.
    pub fn new(alloc: Global) -> Plan
        ensures nothing { said result ≡ nothing_said }
        ensures in_order { IsInOrder (said result) }
        ensures whole { IsWhole (said result) }
    {
        Plan {
            cores: None,
            names: Symbols::new(alloc),
            contexts: Vec::new(alloc),
            threads: Vec::new(alloc),
            spaces: Vec::new(alloc),
            passives: Vec::new(alloc),
            ties: Vec::new(alloc),
        }
    }

    /// Returns how many further CNodes its larger spaces take, up to 2^32 - 1.
    pub fn leaves(&self) -> u32
        ensures { result ≡ min (all_leaves self.now) 4294967295 }
    {
        let mut count: u32 = 0;
        for space in &self.spaces {
            count = count.saturating_add(space.leaves());
        }
        count
    }

    /// Returns how many objects of a kind the starter adds: one if a thread is passive.
    fn of_starter(&self, kind: Kind) -> u32
        ensures { result ≡ of_starter (said self.now) kind }
    {
        if is_of_thread(kind) && !self.passives.is_empty() {
            return 1;
        }
        0
    }

    /// Returns how many objects of a kind larger spaces add: their further CNodes.
    fn of_spaces(&self, kind: Kind) -> u32
        ensures { result ≡ min (of_spaces (said self.now) kind) 4294967295 }
    {
        match kind {
            Kind::CNode => self.leaves(),
            _ => 0,
        }
    }

    /// Returns how many objects of a kind the script makes, up to 2^32 - 1: the plan's, the starter
    /// with its context and its space, and the further CNodes of larger spaces.
    pub fn made(&self, kind: Kind) -> u32
        ensures { result ≡ min (made_of (said self.now) kind) 4294967295 }
    {
        let count = self.names.count(kind);
        count
            .saturating_add(self.of_starter(kind))
            .saturating_add(self.of_spaces(kind))
    }

    /// Fails with `Limit` if the script would make more objects of a kind than there may be.
    pub fn keeps_limit(&self, kind: Kind) -> Result<(), PlanError>
        ensures within { OnOk result (made_of (said self.now) kind ≤ limit_of kind) }
        ensures ok { OnOk result (keeps_limit kind (said self.now) ≡ Ok tt) }
        ensures error { IfErr result (Refuses (keeps_limit kind (said self.now))) }
    {
        let limit = limit_of(kind);
        if self.made(kind) <= limit {
            return Ok(());
        }
        Err(PlanError::Limit {
            what: plural(kind),
            limit,
        })
    }

    /// Returns the index of a thread's space.
    pub fn space_of(&self, thread: ObjId) -> usize
        ensures { result ≡ space_of self.now thread }
    {
        match self.thread(thread) {
            Some(thread) => thread.space,
            None => 0,
        }
    }

    /// Returns the thread with this id; None if the plan has none.
    pub fn thread(&self, thread: ObjId) -> Option<&Thread>
        ensures { option_copied result ≡ thread_in self.now thread }
    {
        self.threads.get(thread.place(Kind::Thread)?)
    }

    /// The context that a thread has at the boot.
    pub fn context_of(&self, thread: ObjId) -> Option<ObjId>
        ensures { result ≡ option_and_then (λ t. t.context) (thread_in self.now thread) }
    {
        self.thread(thread)?.context
    }

    /// The core of a thread's steps.
    pub fn core_of(&self, thread: ObjId) -> CoreId
        ensures { result ≡ unwrap_or (option_map (λ t. t.core) (thread_in self.now thread))
            (record { 0 = 0 }) }
    {
        match self.thread(thread) {
            Some(thread) => thread.core,
            None => CoreId(0),
        }
    }
}

/// Returns whether a thread comes with one object of this kind: itself, a context or a CNode.
fn is_of_thread(kind: Kind) -> bool
    ensures { result ≡ is_of_thread kind }
{
    matches!(kind, Kind::Thread | Kind::Context | Kind::CNode)
}
