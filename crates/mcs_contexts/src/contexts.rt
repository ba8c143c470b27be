//! The scheduling contexts and their holders.
ghost use Rattle.std.specs.Prelude.{◌≡◌, IfOk, IfSome, OnOk, OnErr, IsSome, false, Some, None};
ghost use Rattle.std.specs.Bool.{OnTrue, OnFalse};
ghost use Rattle.mcs_types.specs.declared.id.ObjId.{ObjId};
ghost use Rattle.mcs_types.specs.Ids.{IsThread, ChangesAt};
ghost use Rattle.mcs_types.specs.declared.id.Kind.{Kind};
ghost use Rattle.mcs_objects.specs.Store.{shape, empty_shape, one_more, is_full, IsOneFewer};
ghost use Rattle.mcs_contexts.specs.Holding.{counts, no_room, next_context, core_at, holder_at, home_at, core_in, holder_in, home_in, context_in, is_holder, bound, unbound, homed, unhomed, may_lend, may_wake, SetsHolder, SetsContext, SetsHome, FreesHolder, GivesTo, LendsHolders, LendsContexts, HoldersDiffer, IsOneToOne};

use mcs_objects::{Store, keep, kept_at};
use mcs_types::{CoreId, Kind, ObjId, OutOfMemory, Refusal, copy_rows};
use std::alloc::Global;
use std::marker::Model;
use std::mem;

/// A scheduling context: its core, the thread that holds it (manual: Threads and Execution), and
/// the notification at which it is homed (own).
#[derive(Clone, Copy)]
pub struct ContextRow {
    core: CoreId,
    holder: Option<ObjId>,
    home: Option<ObjId>,
}

/// Up to 256 scheduling contexts, which come and go under serials that count from 1, and the
/// threads of the serials 1 to 256 that hold them (manual: Threads and Execution). A context has at
/// most one holder and a thread at most one context. All memory is taken when they are made (own).
pub struct Contexts {
    rows: Store<ContextRow>,
    held: Vec<Option<ObjId>>,
}

// Written by hand as a separate function: a derived drop would be proved again wherever it is
// dropped.
impl Drop for Contexts {
    fn drop(self) {
        let Contexts { rows: _, held: _ } = self;
    }
}

impl Model for Contexts {
    ghost use Rattle.mcs_contexts.specs.Holding.{Holding, IsHolding};

    ghost Value = { Holding };

    ghost view = { λ s. record { rows = s.rows; held = s.held.items } };

    ghost invariant = { λ s. IsHolding (record { rows = s.rows; held = s.held.items }) };
}

/// Sets the holder of an existing context, and returns the one before.
#[inline(always)]
fn replace_holder(
    rows: &mut Store<ContextRow>,
    context: ObjId,
    holder: Option<ObjId>,
) -> Option<ObjId>
    requires { IsSome (core_at rows.old context) }
    ensures before { result ≡ holder_at rows.old context }
    ensures shape { shape rows.new ≡ shape rows.old }
    ensures cores { (x : ObjId) → core_at rows.new x ≡ core_at rows.old x }
    ensures holders { ChangesAt (holder_at rows.old) (holder_at rows.new) context holder }
    ensures homes { (x : ObjId) → home_at rows.new x ≡ home_at rows.old x }
{
    match rows.get_mut(context) {
        None => unreachable!(),
        Some(row) => mem::replace(&mut row.holder, holder),
    }
}

/// Sets the home of an existing context.
#[inline(always)]
fn set_home(rows: &mut Store<ContextRow>, context: ObjId, home: Option<ObjId>)
    requires { IsSome (core_at rows.old context) }
    ensures shape { shape rows.new ≡ shape rows.old }
    ensures cores { (x : ObjId) → core_at rows.new x ≡ core_at rows.old x }
    ensures holders { (x : ObjId) → holder_at rows.new x ≡ holder_at rows.old x }
    ensures homes { ChangesAt (home_at rows.old) (home_at rows.new) context home }
{
    match rows.get_mut(context) {
        None => unreachable!(),
        Some(row) => row.home = home,
    }
}

/// Returns whether this is a thread with a serial from 1 to 256: only these may hold a context.
fn is_holder(thread: ObjId) -> bool
    ensures value { result ≡ is_holder thread }
    ensures thread { OnTrue result (IsThread thread) }
{
    matches!(thread.kind, Kind::Thread) && 1 <= thread.serial && thread.serial <= 256
}

impl Contexts {
    /// Returns a table with no context, and room for 256 (own).
    pub fn new(alloc: Global) -> Result<Contexts, OutOfMemory>
        ensures counts { IfOk result (λ v. counts v ≡ empty_shape Kind.Context 256) }
        ensures cores { IfOk result (λ v. (x : ObjId) → core_in v x ≡ None) }
        ensures holders { IfOk result (λ v. (x : ObjId) → holder_in v x ≡ None) }
        ensures homes { IfOk result (λ v. (x : ObjId) → home_in v x ≡ None) }
        ensures contexts { IfOk result (λ v. (x : ObjId) → context_in v x ≡ None) }
    {
        let nothing: Option<ObjId> = None;
        Ok(Contexts {
            rows: Store::with_room(alloc, Kind::Context, 256)?,
            held: vec![in alloc; nothing; 256]?,
        })
    }

    /// The rows, and the holders of contexts.
    fn into_parts(self) -> (Store<ContextRow>, Vec<Option<ObjId>>) {
        let Contexts { rows, held } = self;
        (rows, held)
    }

    /// Clones the table in the memory of a spare one (own). `OutOfMemory` if an allocation fails.
    pub fn copy(&self, alloc: Global, spare: Option<Contexts>) -> Result<Contexts, OutOfMemory>
        ensures { IfOk result (λ t. t ≡ self.now) }
    {
        let (rows, held) = match spare {
            Some(spare) => {
                let (rows, held) = spare.into_parts();
                (Some(rows), held)
            }
            None => (None, Vec::new(alloc)),
        };
        Ok(Contexts {
            rows: self.rows.copy(alloc, rows)?,
            held: copy_rows(held, &self.held, self.held.len())?,
        })
    }

    /// Returns the row of each context; it tells how many were made and exist, and whether there is
    /// room for one more (own).
    pub fn rows(&self) -> &Store<ContextRow>
        ensures { result.now ≡ self.now.rows }
    {
        &self.rows
    }

    /// Adds a context of this core, with the next serial and no holder (own). There must be room,
    /// which `rows` tells.
    pub fn add(&mut self, core: CoreId) -> ObjId
        requires { no_room self.old ≡ false }
        ensures id { result ≡ next_context self.old }
        ensures counts { counts self.new ≡ one_more (counts self.old) }
        ensures cores { ChangesAt (core_in self.old) (core_in self.new) result (Some core) }
        ensures holders { (x : ObjId) → holder_in self.new x ≡ holder_in self.old x }
        ensures contexts { (x : ObjId) → context_in self.new x ≡ context_in self.old x }
        ensures homes { (x : ObjId) → home_in self.new x ≡ home_in self.old x }
    {
        self.rows.are_apart();
        self.rows.add(ContextRow {
            core,
            holder: None,
            home: None,
        })
    }

    /// Removes a context that exists and that no thread holds. Its serial is never reused (manual:
    /// Kernel Services and Objects).
    pub fn close(&mut self, context: ObjId)
        requires there { IsSome (core_in self.old context) }
        requires free { holder_in self.old context ≡ None }
        requires homeless { home_in self.old context ≡ None }
        ensures counts { IsOneFewer (counts self.old) (counts self.new) }
        ensures cores { ChangesAt (core_in self.old) (core_in self.new) context None }
        ensures holders { (x : ObjId) → holder_in self.new x ≡ holder_in self.old x }
        ensures contexts { (x : ObjId) → context_in self.new x ≡ context_in self.old x }
        ensures homes { (x : ObjId) → home_in self.new x ≡ home_in self.old x }
    {
        self.rows.remove(context);
    }

    /// The core of a context, or None if it was not made or was closed (manual: Threads and
    /// Execution).
    pub fn core(&self, context: ObjId) -> Option<CoreId>
        ensures { result ≡ core_in self.now context }
    {
        let row = self.rows.get(context)?;
        Some(row.core)
    }

    /// The thread that holds a context, or None if no thread does (manual: Threads and Execution).
    pub fn holder(&self, context: ObjId) -> Option<ObjId>
        ensures { result ≡ holder_in self.now context }
    {
        let row = self.rows.get(context)?;
        row.holder
    }

    /// The notification at which a context is homed, or None if it is homed nowhere (own).
    pub fn home_of(&self, context: ObjId) -> Option<ObjId>
        ensures { result ≡ home_in self.now context }
    {
        let row = self.rows.get(context)?;
        row.home
    }

    /// The context that a thread holds, or None if it holds none (manual: Threads and Execution).
    pub fn of(&self, thread: ObjId) -> Option<ObjId>
        ensures { result ≡ context_in self.now thread }
    {
        let context = kept_at(Kind::Thread, &self.held, thread)?;
        Some(*context)
    }

    /// Proves that holding is one to one: two contexts with one holder are one context. What is
    /// held was made, and the holder is a thread of a serial from 1 to 256 (own).
    pub fn is_one_to_one(&self)
        ensures pairs { IsOneToOne self.now }
        ensures one_context { HoldersDiffer self.now }
        ensures made { (s t : ObjId) → holder_in self.now s ≡ Some t → IsSome (core_in self.now s) }
        ensures threads { (s t : ObjId) → holder_in self.now s ≡ Some t → IsThread t }
    {
        let _ = &self.held;
    }

    /// Gives an existing context to a thread that holds none, or takes it from its holder (manual:
    /// Threads and Execution).
    // inlined: callers know whether a thread is given
    #[inline(always)]
    pub fn give(&mut self, context: ObjId, thread: Option<ObjId>)
        requires made { IsSome (core_in self.old context) }
        requires thread { IfSome thread IsThread }
        requires idle { IfSome thread (λ t. context_in self.old t ≡ None) }
        ensures holders { SetsHolder self.old self.new context thread }
        ensures contexts { GivesTo self.old self.new context thread }
        ensures counts { counts self.new ≡ counts self.old }
        ensures cores { (x : ObjId) → core_in self.new x ≡ core_in self.old x }
        ensures homes { (x : ObjId) → home_in self.new x ≡ home_in self.old x }
    {
        match (replace_holder(&mut self.rows, context, thread), thread) {
            (None, None) => {}
            (None, Some(to)) => keep(Kind::Thread, &mut self.held, to, Some(context)),
            (Some(from), None) => keep(Kind::Thread, &mut self.held, from, None),
            (Some(from), Some(to)) => {
                keep(Kind::Thread, &mut self.held, from, None);
                keep(Kind::Thread, &mut self.held, to, Some(context));
            }
        }
    }

    /// Gives a context to a thread. Refused, in this order, if the context was not made or was
    /// closed (Missing; own), if the thread is none of a serial from 1 to 256 (Range; own), and
    /// where the context has a holder or a home, or the thread has a context (AlreadyBound): then
    /// nothing changes (manual: Threads and Execution).
    pub fn bind(&mut self, context: ObjId, thread: ObjId) -> Result<(), Refusal>
        ensures answer { result ≡ bound self.old context thread }
        ensures refused { OnErr result (self.new ≡ self.old) }
        ensures holders { OnOk result (SetsHolder self.old self.new context (Some thread)) }
        ensures contexts { OnOk result (SetsContext self.old self.new thread (Some context)) }
        ensures counts { counts self.new ≡ counts self.old }
        ensures cores { (x : ObjId) → core_in self.new x ≡ core_in self.old x }
        ensures homes { (x : ObjId) → home_in self.new x ≡ home_in self.old x }
    {
        if self.core(context).is_none() {
            return Err(Refusal::Missing);
        }
        if !is_holder(thread) {
            return Err(Refusal::Range);
        }
        if self.holder(context).is_some()
            || self.home_of(context).is_some()
            || self.of(thread).is_some()
        {
            return Err(Refusal::AlreadyBound);
        }
        self.give(context, Some(thread));
        Ok(())
    }

    /// Gives a context to a thread, whether it is homed or not. Returns false, and changes nothing,
    /// if the context does not exist or has a holder, or the thread has a serial beyond 256 or
    /// holds a context (own).
    pub fn wake(&mut self, context: ObjId, thread: ObjId) -> bool
        ensures answer { result ≡ may_wake self.old context thread }
        ensures refused { OnFalse result (self.new ≡ self.old) }
        ensures holders { OnTrue result (SetsHolder self.old self.new context (Some thread)) }
        ensures contexts { OnTrue result (SetsContext self.old self.new thread (Some context)) }
        ensures counts { counts self.new ≡ counts self.old }
        ensures cores { (x : ObjId) → core_in self.new x ≡ core_in self.old x }
        ensures homes { (x : ObjId) → home_in self.new x ≡ home_in self.old x }
    {
        if self.core(context).is_none()
            || self.holder(context).is_some()
            || !is_holder(thread)
            || self.of(thread).is_some()
        {
            return false;
        }
        self.give(context, Some(thread));
        true
    }

    /// Takes a context from its holder. `NotBound` if no thread holds it: then nothing changes
    /// (manual: Threads and Execution).
    pub fn unbind(&mut self, context: ObjId) -> Result<(), Refusal>
        ensures answer { result ≡ unbound self.old context }
        ensures refused { OnErr result (self.new ≡ self.old) }
        ensures holders { OnOk result (SetsHolder self.old self.new context None) }
        ensures contexts { OnOk result (FreesHolder self.old self.new context) }
        ensures counts { counts self.new ≡ counts self.old }
        ensures cores { (x : ObjId) → core_in self.new x ≡ core_in self.old x }
        ensures homes { (x : ObjId) → home_in self.new x ≡ home_in self.old x }
    {
        match self.holder(context) {
            None => Err(Refusal::NotBound),
            Some(_) => {
                self.is_one_to_one();
                self.give(context, None);
                Ok(())
            }
        }
    }

    /// Homes a context at a notification, whether it is held or not. Refused if the context was not
    /// made or was closed (Missing), and where it is homed (AlreadyBound): then nothing changes
    /// (own).
    pub fn home(&mut self, context: ObjId, notification: ObjId) -> Result<(), Refusal>
        ensures answer { result ≡ homed self.old context }
        ensures refused { OnErr result (self.new ≡ self.old) }
        ensures homes { OnOk result (SetsHome self.old self.new context (Some notification)) }
        ensures counts { counts self.new ≡ counts self.old }
        ensures cores { (x : ObjId) → core_in self.new x ≡ core_in self.old x }
        ensures holders { (x : ObjId) → holder_in self.new x ≡ holder_in self.old x }
        ensures contexts { (x : ObjId) → context_in self.new x ≡ context_in self.old x }
    {
        match self.core(context) {
            None => Err(Refusal::Missing),
            Some(_) if self.home_of(context).is_some() => Err(Refusal::AlreadyBound),
            Some(_) => {
                set_home(&mut self.rows, context, Some(notification));
                Ok(())
            }
        }
    }

    /// Takes a context from its home. `NotBound` if it is homed nowhere: then nothing changes
    /// (own).
    pub fn unhome(&mut self, context: ObjId) -> Result<(), Refusal>
        ensures answer { result ≡ unhomed self.old context }
        ensures refused { OnErr result (self.new ≡ self.old) }
        ensures homes { OnOk result (SetsHome self.old self.new context None) }
        ensures counts { counts self.new ≡ counts self.old }
        ensures cores { (x : ObjId) → core_in self.new x ≡ core_in self.old x }
        ensures holders { (x : ObjId) → holder_in self.new x ≡ holder_in self.old x }
        ensures contexts { (x : ObjId) → context_in self.new x ≡ context_in self.old x }
    {
        match self.home_of(context) {
            None => Err(Refusal::NotBound),
            Some(_) => {
                set_home(&mut self.rows, context, None);
                Ok(())
            }
        }
    }

    /// Moves the context of one thread to another. Returns false, and changes nothing, if the first
    /// holds none, or the second holds one or has a serial beyond 256 (manual: Threads and
    /// Execution).
    pub fn lend(&mut self, from: ObjId, to: ObjId) -> bool
        ensures answer { result ≡ may_lend self.old from to }
        ensures refused { OnFalse result (self.new ≡ self.old) }
        ensures holders { OnTrue result (LendsHolders self.old self.new from to) }
        ensures contexts { OnTrue result (LendsContexts self.old self.new from to) }
        ensures counts { counts self.new ≡ counts self.old }
        ensures cores { (x : ObjId) → core_in self.new x ≡ core_in self.old x }
        ensures homes { (x : ObjId) → home_in self.new x ≡ home_in self.old x }
    {
        match self.of(from) {
            Some(context) if is_holder(to) && self.of(to).is_none() => {
                self.is_one_to_one();
                self.give(context, Some(to));
                true
            }
            _ => false,
        }
    }
}
