//! Questions to the tables, also about missing objects: each returns what its definition says of
//! all records so far.
ghost use Rattle.std.specs.Prelude.{◌≡◌, ◌≤◌, true, nat_lt, IfSome, Some, option_copied, length, option_map};
ghost use Rattle.mcs_types.specs.Limits.{object_limit};
ghost use Rattle.mcs_types.specs.declared.id.Kind.{Kind};
ghost use Rattle.mcs_book.specs.Logs.{counted};
ghost use Rattle.mcs_book.specs.Objects.{makes_kind, number_of, was_made, form_of, is_alive};
ghost use Rattle.mcs_book.specs.Slots.{slot, count_of};
ghost use Rattle.mcs_book.specs.Threads.{prio_of, maximum_of, mode_of, root_of};
ghost use Rattle.mcs_book.specs.Queues.{queue_of, reply_with, first_in, queued_in};
ghost use Rattle.mcs_book.specs.Messages.{next_message, open_of};
ghost use Rattle.mcs_book.specs.Contexts.{holder_of, context_of};
ghost use Rattle.mcs_types.specs.Chains.{head_of};
ghost use Rattle.mcs_book.specs.Chains.{chain_of, is_unlent};
ghost use Rattle.mcs_book.specs.Replies.{receiver_with, owed_by, user_of};
ghost use Rattle.mcs_book.specs.Statuses.{status_of, mail_of, is_on_core};
ghost use Rattle.mcs_book.specs.Lookup.{radix_kept, capability, slot_named};
ghost use Rattle.mcs_cspace.specs.Spaces.{named_by};
ghost use Rattle.mcs_book.specs.Sound.{Sound, IsThere};
ghost use Rattle.mcs_state.specs.Now.{so_far};
ghost use Rattle.mcs_state.specs.Tables.{HAND, ROOM, core_said};
ghost use Rattle.mcs_state.specs.Making.{has_limit};
ghost use Rattle.mcs_state.specs.Following.{attended};
ghost use Rattle.mcs_state.specs.Nexts.{next_of, behind};
ghost use Rattle.mcs_replies.specs.Rest.{rest_of};
ghost use Rattle.mcs_state.specs.Questions.{priority_of, word_of, named_for, placed_for, root_said};
ghost use Rattle.mcs_state.specs.Saying.{row_said};

use super::State;
use crate::queued::Queued;
use crate::receivers::attended;
use mcs_cspace::{lookup, lookup_slot, radix_in};
use mcs_object_queues::Waiting;
use mcs_replies::Chain;
use mcs_slots::SlotId;
use mcs_threads::{Block, ThreadRow};
use mcs_types::{
    Cap, CoreId, Kind, Letter, Mail, Mode, OBJECTS, ObjId, Place, Prio, Queue, Refusal, Status,
};

impl<W: Waiting> State<W> {
    /// Returns how many objects of a kind were made.
    pub fn made(&self, kind: Kind) -> u32
        ensures { result ≡ counted (makes_kind kind) (so_far self.now) }
    {
        match kind {
            Kind::CNode => {
                self.slots.are_pages();
                self.slots.len() as u32
            }
            Kind::Thread => self.threads.made() as u32,
            Kind::Endpoint | Kind::Notification => self.queues.made(kind),
            Kind::Reply => self.replies.rows().given(),
            Kind::Context => self.contexts.rows().given(),
        }
    }

    /// Returns whether fewer endpoints, notifications, reply objects or contexts exist than are
    /// allowed.
    pub fn has_room(&self, kind: Kind) -> bool
        requires { has_limit kind ≡ true }
        ensures { result ≡ nat_lt (number_of (so_far self.now) kind) object_limit }
    {
        let count = match kind {
            Kind::Endpoint | Kind::Notification => self.queues.count(kind),
            Kind::Reply => self.replies.rows().len(),
            Kind::Context => self.contexts.rows().len(),
            Kind::CNode | Kind::Thread => unreachable!(),
        };
        count < OBJECTS as usize
    }

    /// Returns how many messages were accepted.
    pub fn next_message(&self) -> u32
        ensures { result ≡ next_message (so_far self.now) }
    {
        self.sent
    }

    /// The mode of an existing thread (manual: Threads and Execution).
    pub fn mode(&self, thread: ObjId) -> Mode
        requires { IsThere (so_far self.now) Kind.Thread thread }
        ensures { result ≡ mode_of (so_far self.now) thread }
    {
        match self.threads.get(thread) {
            None => unreachable!(),
            Some(row) => row.mode,
        }
    }

    /// The queue in which a thread is.
    pub fn queue(&self, thread: ObjId) -> Option<Queue>
        ensures { result ≡ queue_of (so_far self.now) thread }
    {
        match self.threads.get(thread) {
            None => None,
            Some(row) => row.queue(),
        }
    }

    /// The reply object with which a thread is in a queue.
    pub fn reply_with(&self, thread: ObjId, queue: Queue) -> Option<ObjId>
        requires { queue_of (so_far self.now) thread ≡ Some queue }
        ensures { result ≡ attended queue (reply_with (so_far self.now) thread) }
    {
        match self.threads.get(thread) {
            None => unreachable!(),
            Some(row) => match row.block {
                Some(Block::Queued { queue: _, reply }) => attended(queue, reply),
                _ => unreachable!(),
            },
        }
    }

    /// The priority of an existing thread (manual: Threads and Execution).
    pub fn priority(&self, thread: ObjId) -> Prio
        requires { IsThere (so_far self.now) Kind.Thread thread }
        ensures { result.0 ≡ prio_of (so_far self.now) thread }
    {
        match self.threads.get(thread) {
            None => unreachable!(),
            Some(row) => row.priority,
        }
    }

    /// The maximum controlled priority of an existing thread (manual: Threads and Execution).
    pub fn maximum(&self, thread: ObjId) -> Prio
        requires { IsThere (so_far self.now) Kind.Thread thread }
        ensures { result.0 ≡ maximum_of (so_far self.now) thread }
    {
        match self.threads.get(thread) {
            None => unreachable!(),
            Some(row) => row.maximum,
        }
    }

    /// Returns what last reached a thread; None if nothing did, or if it does not exist (manual:
    /// Message Passing).
    pub fn mail(&self, id: ObjId) -> Option<&Mail>
        ensures { option_copied result ≡ mail_of (so_far self.now) id }
    {
        self.threads.mail(id)
    }

    /// The capability to the root of the capability space of an existing thread.
    fn root(&self, thread: ObjId) -> &Cap
        requires { IsThere (so_far self.now) Kind.Thread thread }
        ensures { root_of (so_far self.now) thread ≡ Some result.now }
    {
        match self.threads.get(thread) {
            None => unreachable!(),
            Some(row) => &row.root,
        }
    }

    /// The thread that holds a context.
    pub fn holder(&self, context: ObjId) -> Option<ObjId>
        ensures { result ≡ holder_of (so_far self.now) context }
    {
        self.contexts.holder(context)
    }

    /// The capability in a slot, or None if the slot is empty or not there.
    pub fn slot(&self, at: SlotId) -> Option<Cap>
        ensures { result ≡ slot (so_far self.now) at.cnode at.index }
    {
        self.slots.get(at)
    }

    /// Returns how many slots hold a capability to an object.
    pub fn count_of(&self, object: ObjId) -> u32
        ensures { result ≡ count_of (so_far self.now) object }
    {
        self.slots.count_of(object)
    }

    /// Returns how many bits name a slot of a CNode; 0 if it is not made.
    pub fn radix(&self, cnode: ObjId) -> u8
        ensures value { result ≡ radix_kept (form_of (so_far self.now) cnode) }
        ensures few { result ≤ 8 }
    {
        radix_in(&self.slots, cnode)
    }

    /// The open message of a thread.
    pub fn letter(&self, thread: ObjId) -> Option<&Letter>
        ensures { option_copied result ≡ open_of (so_far self.now) thread }
    {
        self.letters.of(thread)
    }

    /// Proves that each record was allowed when it was made, that few threads were made, and that
    /// the open line has at most as many records as a line may have.
    pub fn is_sound(&self)
        ensures few { length self.now.hand ≤ HAND }
        ensures threads { counted (makes_kind Kind.Thread) (so_far self.now) ≤ ROOM }
        ensures sound { Sound (so_far self.now) }
    {
        let _made = self.threads.made();
    }

    /// Returns whether an object was ever made.
    pub fn was_made(&self, id: ObjId) -> bool
        ensures { result ≡ was_made (so_far self.now) id }
    {
        self.is_sound();
        if id.serial == 0 {
            return false;
        }
        id.serial <= self.made(id.kind)
    }

    /// Returns the status of a thread; None if no such thread was made.
    pub fn status(&self, id: ObjId) -> Option<Status>
        ensures { result ≡ status_of (so_far self.now) id }
    {
        self.is_sound();
        match self.threads.get(id) {
            Some(row) => Some(row.status()),
            None if id.kind.is_same(Kind::Thread) && self.was_made(id) => Some(Status::Closed),
            None => None,
        }
    }

    /// The context that a thread holds.
    pub fn context(&self, thread: ObjId) -> Option<ObjId>
        ensures context { result ≡ context_of (so_far self.now) thread }
        ensures there { IfSome result (λ s. IsThere (so_far self.now) Kind.Context s) }
    {
        self.contexts.is_one_to_one();
        self.contexts.of(thread)
    }

    /// Returns whether an existing context is of this core.
    pub fn runs_on(&self, context: ObjId, core: CoreId) -> bool
        requires { IsThere (so_far self.now) Kind.Context context }
        ensures { result ≡ is_on_core core (form_of (so_far self.now) context) }
    {
        match self.contexts.core(context) {
            Some(own) => own.0 == core.0,
            None => unreachable!(),
        }
    }

    /// The first thread of a queue; None if its object does not exist.
    pub fn first(&self, queue: Queue) -> Option<ObjId>
        ensures { result ≡ first_in (so_far self.now) queue }
    {
        self.is_sound();
        self.queues.first(queue)
    }

    /// The thread after another in its queue. None if it is the last of it or is in no queue (own).
    pub fn next(&self, thread: ObjId) -> Option<ObjId>
        ensures { result ≡ next_of (so_far self.now) thread }
    {
        self.is_sound();
        self.queues.next(thread)
    }

    /// The thread that receives with a reply object, or None if none is (manual: Message Passing).
    pub fn receiver_with(&self, reply: ObjId) -> Option<ObjId>
        ensures { result ≡ receiver_with (so_far self.now) reply }
    {
        self.replies.receiver(reply)
    }

    /// The caller that a reply object owes an answer, or None if it owes no thread (manual: Message
    /// Passing).
    pub fn owed(&self, reply: ObjId) -> Option<ObjId>
        ensures { result ≡ owed_by (so_far self.now) reply }
    {
        self.replies.owed(reply)
    }

    /// Returns the user of a reply object: the caller that it owes, or the receiver queued with it;
    /// None if it has neither (manual: Message Passing).
    pub fn user_of(&self, reply: ObjId) -> Option<ObjId>
        ensures { result ≡ user_of (so_far self.now) reply }
    {
        self.replies.user(reply)
    }

    /// The reply object on top of the chain of a context, or None if the chain is empty (own).
    pub fn top_of(&self, context: ObjId) -> Option<ObjId>
        ensures { result ≡ head_of (chain_of (so_far self.now) context) }
    {
        self.replies.top_of(context)
    }

    /// Returns whether the chain of a context is empty (own).
    pub fn is_unlent(&self, context: ObjId) -> bool
        ensures { result ≡ is_unlent (so_far self.now) context }
    {
        self.top_of(context).is_none()
    }

    /// Returns the capability that an existing thread names by an address: `Missing` if the slot is
    /// empty, GuardMismatch or `DepthMismatch` if the address leads nowhere.
    // inlined, so that the capability is moved once less
    #[inline(always)]
    pub fn capability(&self, thread: ObjId, address: u64) -> Result<Cap, Refusal>
        requires { IsThere (so_far self.now) Kind.Thread thread }
        ensures { result ≡ capability (so_far self.now) thread address }
    {
        lookup(&self.slots, self.root(thread), address)
    }

    /// Returns the slot that an existing thread names by an index and a depth: Range for a depth of
    /// 0 or above 64, which comes first, GuardMismatch or `DepthMismatch` if the bits lead to no
    /// slot.
    pub fn slot_named(&self, thread: ObjId, place: Place) -> Result<SlotId, Refusal>
        requires { IsThere (so_far self.now) Kind.Thread thread }
        ensures { named_by result ≡ slot_named (so_far self.now) thread place }
    {
        lookup_slot(&self.slots, self.root(thread), place)
    }

    /// The threads in a queue, first to last; none if its object does not exist.
    pub fn queued(&self, queue: Queue) -> Queued<'_, W>
        ensures { behind result.left (so_far result.state.now) result.at
            ≡ queued_in (so_far self.now) queue }
    {
        self.is_sound();
        Queued {
            state: self,
            at: self.first(queue),
            left: OBJECTS,
        }
    }

    /// The reply objects in the chain of a context, from the top; none if the context does not
    /// exist (own).
    pub fn chain(&self, context: ObjId) -> Chain<'_>
        ensures { rest_of result ≡ chain_of (so_far self.now) context }
    {
        self.is_sound();
        self.replies.chain_of(context)
    }

    /// Returns whether an object exists: it was made and not closed (own).
    pub fn is_there(&self, object: ObjId) -> bool
        ensures { result ≡ is_alive (so_far self.now) object }
    {
        self.is_sound();
        match object.kind {
            Kind::CNode => self.was_made(object),
            Kind::Thread => self.threads.get(object).is_some(),
            Kind::Endpoint => self.queues.is_there(Queue::Senders(object)),
            Kind::Notification => self.queues.is_there(Queue::Waiters(object)),
            Kind::Reply => self.replies.is_there(object),
            Kind::Context => self.contexts.core(object).is_some(),
        }
    }

    /// Returns the row of a thread; None if it does not exist (manual: Threads and Execution).
    pub fn thread(&self, thread: ObjId) -> Option<&ThreadRow>
        ensures { option_copied result ≡ row_said (so_far self.now) thread }
    {
        self.threads.get(thread)
    }

    /// The priority of a thread; None if it does not exist (manual: Threads and Execution).
    pub fn priority_of(&self, thread: ObjId) -> Option<Prio>
        ensures { result ≡ priority_of (so_far self.now) thread }
    {
        match self.threads.get(thread) {
            None => None,
            Some(row) => Some(row.priority),
        }
    }

    /// The pending word of a notification; None if no badge was raised since it was heard last, and
    /// if the notification does not exist (manual: Notifications).
    pub fn word(&self, notification: ObjId) -> Option<u64>
        ensures { result ≡ word_of (so_far self.now) notification }
    {
        self.is_sound();
        self.notifications.word(notification)
    }

    /// Returns the capability that an address of a thread names; None if the thread does not exist
    /// (manual: Capability Spaces).
    pub fn named(&self, thread: ObjId, address: u64) -> Option<Result<Cap, Refusal>>
        ensures { result ≡ named_for (so_far self.now) thread address }
    {
        match self.threads.get(thread) {
            None => None,
            Some(row) => Some(lookup(&self.slots, &row.root, address)),
        }
    }

    /// The slot that a place of a thread names; None if the thread does not exist (manual:
    /// Capability Spaces).
    pub fn placed(&self, thread: ObjId, place: Place) -> Option<Result<SlotId, Refusal>>
        ensures { option_map (λ r. named_by r) result ≡ placed_for (so_far self.now) thread place }
    {
        match self.threads.get(thread) {
            None => None,
            Some(row) => Some(lookup_slot(&self.slots, &row.root, place)),
        }
    }

    /// The capability to the root of a thread's space; None if the thread does not exist (manual:
    /// Capability Spaces).
    pub fn root_of(&self, thread: ObjId) -> Option<Cap>
        ensures { result ≡ root_said (so_far self.now) thread }
    {
        match self.threads.get(thread) {
            None => None,
            Some(row) => Some(row.root.again()),
        }
    }

    /// The core of a context; None if it does not exist (manual: Threads and Execution).
    pub fn core_of(&self, context: ObjId) -> Option<CoreId>
        ensures { result ≡ core_said (so_far self.now) context }
    {
        self.contexts.core(context)
    }
}
