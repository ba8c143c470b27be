//! The table of reply objects.
ghost use Rattle.std.specs.Prelude.{◌≡◌, ◌≤◌, true, false, [], Some, None, IsSome, IfOk, IfSome, IfNone, option_map};
ghost use Rattle.std.specs.Bool.{OnTrue, OnFalse};
ghost use Rattle.std.specs.Option.{option_or};
ghost use Rattle.mcs_types.specs.declared.id.ObjId.{ObjId};
ghost use Rattle.mcs_types.specs.declared.id.Kind.{Kind};
ghost use Rattle.mcs_types.specs.declared.record.Ending.TheVariants.{Deleted};
ghost use Rattle.mcs_types.specs.Ids.{ChangesAt};
ghost use Rattle.mcs_types.specs.Chains.{head_of};
ghost use Rattle.mcs_types.specs.Limits.{object_limit};
ghost use Rattle.mcs_objects.specs.Store.{shape, empty_shape, one_more, is_full, IsOneFewer, place_at};
ghost use Rattle.mcs_replies.specs.Owing.{counts, no_room, next_reply, has_row, receiver_at, owed_at, is_there, receiver_in, owed_in, chain_in, may_owe, SetsOwed, LiesOnTop, NamesTopped, TakesOff, EndsDebt, IsChained, link_changes};
ghost use Rattle.mcs_replies.specs.Places.{place_number};
ghost use Rattle.mcs_replies.specs.Rest.{rest_of};

use crate::links::{self, Chain, Link};
use crate::places::PlaceNo;
use crate::tops::Tops;
use mcs_objects::Store;
use mcs_types::{Ending, Kind, OBJECTS, ObjId, OutOfMemory, copy_rows};
use std::alloc::Global;
use std::marker::Model;

/// A reply object: the receiver queued with it, and the caller that it owes a reply (manual:
/// Message Passing).
#[derive(Clone, Copy)]
pub struct ReplyRow {
    receiver: Option<ObjId>,
    caller: Option<ObjId>,
}

/// A debt that ended: the caller that was owed, and the context whose chain the reply object
/// topped, if any (own).
#[derive(Clone, Copy, PartialEq, Eq, Debug)]
pub struct Ended {
    pub caller: ObjId,
    pub topped: Option<ObjId>,
}

/// Up to 256 reply objects, with serials from 1: the receiver queued with each, the caller that it
/// owes, and the chain of each context (manual: Message Passing; chains are own). A reply object in
/// a chain owes, and is in no other chain. All memory is allocated when the table is made.
pub struct Replies {
    rows: Store<ReplyRow>,
    links: Vec<Option<Link>>,
    tops: Tops,
}

// Written by hand as a separate function: a derived drop would be proved again wherever it is
// dropped.
impl Drop for Replies {
    fn drop(self) {
        let Replies {
            rows: _,
            links: _,
            tops: _,
        } = self;
    }
}

impl Model for Replies {
    ghost use Rattle.mcs_replies.specs.Owing.{Owing, IsOwing};

    ghost Value = { Owing };

    ghost view = { λ s. record { rows = s.rows; links = s.links.items; tops = s.tops } };

    ghost invariant = { λ s. IsOwing
        (record { rows = s.rows; links = s.links.items; tops = s.tops }) };
}

/// Sets or clears the receiver of an existing reply object.
fn keep_receiver(rows: &mut Store<ReplyRow>, reply: ObjId, receiver: Option<ObjId>)
    requires { has_row rows.old reply ≡ true }
    ensures shape { shape rows.new ≡ shape rows.old }
    ensures there { (r : ObjId) → has_row rows.new r ≡ has_row rows.old r }
    ensures places { (r : ObjId) → place_at rows.new r ≡ place_at rows.old r }
    ensures receivers { ChangesAt (receiver_at rows.old) (receiver_at rows.new) reply receiver }
    ensures owed { (r : ObjId) → owed_at rows.new r ≡ owed_at rows.old r }
{
    match rows.get_mut(reply) {
        None => unreachable!(),
        Some(row) => row.receiver = receiver,
    }
}

/// Sets the caller of a reply object that has this place.
#[inline(always)]
fn keep_caller(rows: &mut Store<ReplyRow>, reply: ObjId, place: PlaceNo, caller: Option<ObjId>)
    requires { place_at rows.old reply ≡ Some place.0 }
    ensures shape { shape rows.new ≡ shape rows.old }
    ensures there { (r : ObjId) → has_row rows.new r ≡ has_row rows.old r }
    ensures places { (r : ObjId) → place_at rows.new r ≡ place_at rows.old r }
    ensures receivers { (r : ObjId) → receiver_at rows.new r ≡ receiver_at rows.old r }
    ensures owed { ChangesAt (owed_at rows.old) (owed_at rows.new) reply caller }
{
    match rows.get_mut_at(reply, place.0) {
        None => unreachable!(),
        Some(row) => row.caller = caller,
    }
}

/// The place of a reply object, or None if it does not exist.
#[inline(always)]
fn place_of(rows: &Store<ReplyRow>, reply: ObjId) -> Option<PlaceNo>
    ensures { place_number result ≡ place_at rows.now reply }
{
    let number = rows.place(reply)?;
    Some(PlaceNo(number))
}

/// Returns the caller that the reply object of this place owes.
// by its place, so that its row is looked up once for both reading and writing
#[inline(always)]
fn owed_from(rows: &Store<ReplyRow>, reply: ObjId, place: PlaceNo) -> Option<ObjId>
    requires { place_at rows.now reply ≡ Some place.0 }
    ensures { result ≡ owed_at rows.now reply }
{
    rows.get_at(reply, place.0)?.caller
}

impl Replies {
    /// Returns a table without reply objects, with room for 256 (own).
    pub fn new(alloc: Global) -> Result<Replies, OutOfMemory>
        ensures counts { IfOk result (λ v. counts v ≡ empty_shape Kind.Reply object_limit) }
        ensures there { IfOk result (λ v. (r : ObjId) → is_there v r ≡ false) }
        ensures receivers { IfOk result (λ v. (r : ObjId) → receiver_in v r ≡ None) }
        ensures owed { IfOk result (λ v. (r : ObjId) → owed_in v r ≡ None) }
        ensures chains { IfOk result (λ v. (s : ObjId) → chain_in v s ≡ []) }
    {
        let nothing: Option<Link> = None;
        Ok(Replies {
            rows: Store::with_room(alloc, Kind::Reply, OBJECTS)?,
            links: Vec::from_elem(alloc, nothing, OBJECTS as usize)?,
            tops: Tops::new(alloc)?,
        })
    }

    /// The rows, the links and the tops.
    fn into_parts(self) -> (Store<ReplyRow>, Vec<Option<Link>>, Tops) {
        let Replies { rows, links, tops } = self;
        (rows, links, tops)
    }

    /// Clones the table in the memory of a spare one (own). `OutOfMemory` if an allocation fails.
    pub fn copy(&self, alloc: Global, spare: Option<Replies>) -> Result<Replies, OutOfMemory>
        ensures { IfOk result (λ t. t ≡ self.now) }
    {
        let (rows, links, tops) = match spare {
            Some(spare) => {
                let (rows, links, tops) = spare.into_parts();
                (Some(rows), links, Some(tops))
            }
            None => (None, Vec::new(alloc), None),
        };
        Ok(Replies {
            rows: self.rows.copy(alloc, rows)?,
            links: copy_rows(links, &self.links, OBJECTS as usize)?,
            tops: self.tops.copy(alloc, tops)?,
        })
    }

    /// Returns the row of each reply object; it tells how many were made and exist, and whether
    /// there is room for one more (own).
    pub fn rows(&self) -> &Store<ReplyRow>
        ensures { result.now ≡ self.now.rows }
    {
        &self.rows
    }

    /// Adds a reply object; there must be room. Its serial is the next, it owes no thread, and no
    /// receiver is queued with it (own).
    pub fn add(&mut self) -> ObjId
        requires { no_room self.old ≡ false }
        ensures id { result ≡ next_reply self.old }
        ensures counts { counts self.new ≡ one_more (counts self.old) }
        ensures there { ChangesAt (is_there self.old) (is_there self.new) result true }
        ensures alone { receiver_in self.new result ≡ None }
        ensures free { owed_in self.new result ≡ None }
        ensures receivers { (r : ObjId) → receiver_in self.new r ≡ receiver_in self.old r }
        ensures owed { (r : ObjId) → owed_in self.new r ≡ owed_in self.old r }
        ensures chains { (s : ObjId) → chain_in self.new s ≡ chain_in self.old s }
    {
        // For the proof: existing objects were given serials, so the next serial is new.
        self.rows.are_apart();
        self.rows.add(ReplyRow {
            receiver: None,
            caller: None,
        })
    }

    /// Returns whether a reply object was made and not closed (own).
    pub fn is_there(&self, reply: ObjId) -> bool
        ensures { result ≡ is_there self.now reply }
    {
        self.rows.get(reply).is_some()
    }

    /// The receiver that is queued with a reply object, or None if none is (manual: Message
    /// Passing).
    pub fn receiver(&self, reply: ObjId) -> Option<ObjId>
        ensures { result ≡ receiver_in self.now reply }
    {
        self.rows.get(reply)?.receiver
    }

    /// Sets or clears the receiver queued with an existing reply object (manual: Message Passing).
    pub fn set_receiver(&mut self, reply: ObjId, receiver: Option<ObjId>)
        requires { is_there self.old reply ≡ true }
        ensures counts { counts self.new ≡ counts self.old }
        ensures there { (r : ObjId) → is_there self.new r ≡ is_there self.old r }
        ensures receivers { ChangesAt (receiver_in self.old) (receiver_in self.new) reply receiver }
        ensures owed { (r : ObjId) → owed_in self.new r ≡ owed_in self.old r }
        ensures chains { (s : ObjId) → chain_in self.new s ≡ chain_in self.old s }
    {
        keep_receiver(&mut self.rows, reply, receiver);
    }

    /// The caller that a reply object owes, or None if it owes no thread (manual: Message Passing).
    pub fn owed(&self, reply: ObjId) -> Option<ObjId>
        ensures { result ≡ owed_in self.now reply }
    {
        self.rows.get(reply)?.caller
    }

    /// Returns the user of a reply object: the caller that it owes, or else the receiver queued
    /// with it; None if it has neither (manual: Message Passing).
    pub fn user(&self, reply: ObjId) -> Option<ObjId>
        ensures { result ≡ option_or (owed_in self.now reply) (receiver_in self.now reply) }
    {
        let row = self.rows.get(reply)?;
        row.caller.or(row.receiver)
    }

    /// Proves that each reply object in a chain exists and owes, is in no other chain, and only
    /// once in its own (own).
    pub fn are_chained(&self)
        ensures { IsChained self.now }
    {
        self.rows.are_apart();
        let _ = &self.links;
    }

    /// Begins a debt of a reply object that has this place and owes none.
    fn begin(&mut self, reply: ObjId, place: PlaceNo, caller: ObjId, brought: Option<ObjId>)
        requires place { place_at self.old.rows reply ≡ Some place.0 }
        requires free { owed_in self.old reply ≡ None }
        ensures owed { SetsOwed self.old self.new reply (Some caller) }
        ensures chains { LiesOnTop self.old self.new reply brought }
        ensures counts { counts self.new ≡ counts self.old }
        ensures there { (r : ObjId) → is_there self.new r ≡ is_there self.old r }
        ensures receivers { (r : ObjId) → receiver_in self.new r ≡ receiver_in self.old r }
    {
        // For the proof: reply objects that owe have different places, so there is room for a debt.
        self.rows.are_apart();
        keep_caller(&mut self.rows, reply, place, Some(caller));
        let Some(context) = brought else {
            return;
        };
        links::lay(&mut self.links, &mut self.tops, place, reply, context);
    }

    /// Makes a reply object owe a caller, and puts it on top of the chain of the context that the
    /// caller brought. Returns false, and changes nothing, if it owes already or does not exist
    /// (manual: Message Passing; chains are own).
    pub fn owe(&mut self, reply: ObjId, caller: ObjId, brought: Option<ObjId>) -> bool
        ensures answer { result ≡ may_owe self.old reply }
        ensures refused { OnFalse result (self.new ≡ self.old) }
        ensures owed { OnTrue result (SetsOwed self.old self.new reply (Some caller)) }
        ensures chains { OnTrue result (LiesOnTop self.old self.new reply brought) }
        ensures counts { counts self.new ≡ counts self.old }
        ensures there { (r : ObjId) → is_there self.new r ≡ is_there self.old r }
        ensures receivers { (r : ObjId) → receiver_in self.new r ≡ receiver_in self.old r }
    {
        let Some(place) = place_of(&self.rows, reply) else {
            return false;
        };
        if owed_from(&self.rows, reply, place).is_some() {
            return false;
        }
        self.begin(reply, place, caller, brought);
        true
    }

    /// Pays the debt of a reply object. On top of a chain it is taken off; else it and all below
    /// leave the chain, and those below still owe. Returns None, and changes nothing, if it owes
    /// none (manual: Message Passing; chains are own). On top of a chain at most three links
    /// change, however long the chain is (own).
    pub fn pay(&mut self, reply: ObjId) -> Option<Ended>
        ensures caller { option_map (λ e. e.caller) result ≡ owed_in self.old reply }
        ensures topped { IfSome result (λ e. NamesTopped self.old reply e.topped) }
        ensures none { IfNone result (self.new ≡ self.old) }
        ensures owed { SetsOwed self.old self.new reply None }
        ensures chains { TakesOff self.old self.new reply }
        ensures changes { IfSome result
            (λ e. IsSome e.topped → link_changes self.old self.new ≤ 3) }
        ensures counts { counts self.new ≡ counts self.old }
        ensures there { (r : ObjId) → is_there self.new r ≡ is_there self.old r }
        ensures receivers { (r : ObjId) → receiver_in self.new r ≡ receiver_in self.old r }
    {
        // A debt that is paid leaves its chain as one whose reply object is deleted.
        self.void(reply, Ending::Deleted)
    }

    /// Voids the debt of a reply object. If it is deleted, it leaves its chain as if it had paid;
    /// if it is cancelled, it and all below leave the chain, also from the top. Returns None, and
    /// changes nothing, if it owes none (manual: Message Passing; chains are own).
    // inlined: callers know how the debt ends
    #[inline(always)]
    pub fn void(&mut self, reply: ObjId, how: Ending) -> Option<Ended>
        ensures caller { option_map (λ e. e.caller) result ≡ owed_in self.old reply }
        ensures topped { IfSome result (λ e. NamesTopped self.old reply e.topped) }
        ensures none { IfNone result (self.new ≡ self.old) }
        ensures owed { SetsOwed self.old self.new reply None }
        ensures chains { EndsDebt self.old self.new how reply }
        ensures changes { how ≡ Deleted
            → IfSome result (λ e. IsSome e.topped → link_changes self.old self.new ≤ 3) }
        ensures counts { counts self.new ≡ counts self.old }
        ensures there { (r : ObjId) → is_there self.new r ≡ is_there self.old r }
        ensures receivers { (r : ObjId) → receiver_in self.new r ≡ receiver_in self.old r }
    {
        let place = place_of(&self.rows, reply)?;
        let caller = owed_from(&self.rows, reply, place)?;
        self.rows.are_apart();
        keep_caller(&mut self.rows, reply, place, None);
        let topped = links::leave(&mut self.links, &mut self.tops, place, how);
        Some(Ended { caller, topped })
    }

    /// Returns the reply objects in the chain of a context, from the top; none if the chain is
    /// empty (own).
    pub fn chain_of(&self, context: ObjId) -> Chain<'_>
        ensures { rest_of result ≡ chain_in self.now context }
    {
        Chain {
            links: &self.links,
            at: self.tops.top(context),
            left: OBJECTS,
        }
    }

    /// The reply object on top of the chain of a context, or None if the chain is empty (own).
    pub fn top_of(&self, context: ObjId) -> Option<ObjId>
        ensures { result ≡ head_of (chain_in self.now context) }
    {
        self.chain_of(context).next()
    }

    /// Empties the chain of a context; its reply objects still owe (own).
    pub fn drop_chain(&mut self, context: ObjId)
        ensures chains { ChangesAt (chain_in self.old) (chain_in self.new) context [] }
        ensures owed { (r : ObjId) → owed_in self.new r ≡ owed_in self.old r }
        ensures counts { counts self.new ≡ counts self.old }
        ensures there { (r : ObjId) → is_there self.new r ≡ is_there self.old r }
        ensures receivers { (r : ObjId) → receiver_in self.new r ≡ receiver_in self.old r }
    {
        links::drop_links(&mut self.links, &mut self.tops, context);
    }

    /// Removes a reply object that owes none and has no receiver. Its serial is never reused
    /// (manual: Kernel Services and Objects).
    pub fn close(&mut self, reply: ObjId)
        requires there { is_there self.old reply ≡ true }
        requires alone { receiver_in self.old reply ≡ None }
        requires free { owed_in self.old reply ≡ None }
        ensures counts { IsOneFewer (counts self.old) (counts self.new) }
        ensures there { ChangesAt (is_there self.old) (is_there self.new) reply false }
        ensures receivers { (r : ObjId) → receiver_in self.new r ≡ receiver_in self.old r }
        ensures owed { (r : ObjId) → owed_in self.new r ≡ owed_in self.old r }
        ensures chains { (s : ObjId) → chain_in self.new s ≡ chain_in self.old s }
    {
        self.rows.are_apart();
        self.rows.remove(reply);
    }
}
