//! Questions to the kernel: the state of each thread, what last reached it, holders, debts, what
//! capabilities name, and which thread runs next. None allocates.
ghost use Rattle.std.specs.Prelude.{◌≡◌, option_copied, option_map};
ghost use Rattle.mcs_book.specs.History.{log_of};
ghost use Rattle.mcs_book.specs.Statuses.{status_of, mail_of};
ghost use Rattle.mcs_book.specs.Picking.{IsPick};
ghost use Rattle.mcs_book.specs.Logs.{counted};
ghost use Rattle.mcs_book.specs.Objects.{form_of, is_alive, makes_kind};
ghost use Rattle.mcs_book.specs.Lookup.{radix_kept};
ghost use Rattle.mcs_book.specs.Queues.{queued_in};
ghost use Rattle.mcs_book.specs.Chains.{chain_of};
ghost use Rattle.mcs_book.specs.Contexts.{holder_of, context_of, home_of};
ghost use Rattle.mcs_book.specs.Messages.{next_message, open_of};
ghost use Rattle.mcs_book.specs.Notifications.{bound_of, tied_to};
ghost use Rattle.mcs_book.specs.Replies.{owed_by, receiver_with};
ghost use Rattle.mcs_book.specs.Slots.{count_of, slot};
ghost use Rattle.mcs_replies.specs.Rest.{rest_of};
ghost use Rattle.mcs_state.specs.Now.{so_far};
ghost use Rattle.mcs_state.specs.Nexts.{behind};
ghost use Rattle.mcs_state.specs.Questions.{priority_of, word_of, named_for, placed_for, root_said};
ghost use Rattle.mcs_state.specs.Saying.{row_said};
ghost use Rattle.mcs_state.specs.Tables.{core_said};
ghost use Rattle.mcs_cspace.specs.Spaces.{named_by};

use super::Kernel;
use mcs_object_queues::ObjectQueues;
use mcs_queues::Lines;
use mcs_slots::SlotId;
use mcs_state::{Chain, Queued, ThreadRow};
use mcs_types::{
    Cap, CoreId, Kind, Letter, Mail, ObjId, Place, Prio, Queue, Refusal, Status, ThreadSet,
};

impl<L: Lines> Kernel<L> {
    /// Returns the status of a thread: the queue that it is in, the reply object that owes it a
    /// reply, or else its mode; None if no such thread was made (manual: Threads and Execution).
    pub fn status(&self, id: ObjId) -> Option<Status>
        ensures { result ≡ status_of (log_of self.now) id }
    {
        self.state.status(id)
    }

    /// Returns what last reached a thread, a message with the badge of the capability that its
    /// sender invoked; None if nothing did, or if no such thread was made (manual: Message
    /// Passing).
    pub fn mail(&self, id: ObjId) -> Option<&Mail>
        ensures { option_copied result ≡ mail_of (log_of self.now) id }
    {
        self.state.mail(id)
    }

    /// Returns, of the threads that may enter on a core and are not in `passed`, the one of
    /// greatest priority, then of lowest serial; None if there is none (own).
    pub fn pick(&self, core: CoreId, passed: &ThreadSet) -> Option<ObjId>
        ensures { IsPick (log_of self.now) core passed.now result }
    {
        self.state.pick(core, passed)
    }

    /// Returns how many objects of a kind were made: their serials are 1 to this number (own).
    pub fn made(&self, kind: Kind) -> u32
        ensures { result ≡ counted (makes_kind kind) (log_of self.now) }
    {
        self.state.made(kind)
    }

    /// Returns whether an object exists: it was made and not closed (own).
    pub fn is_there(&self, object: ObjId) -> bool
        ensures { result ≡ is_alive (log_of self.now) object }
    {
        self.state.is_there(object)
    }

    /// Returns the row of a thread; None if it does not exist (manual: Threads and Execution).
    pub fn thread(&self, thread: ObjId) -> Option<&ThreadRow>
        ensures { option_copied result ≡ row_said (log_of self.now) thread }
    {
        self.state.thread(thread)
    }

    /// Returns how many slots hold a capability to an object (manual: Capability Spaces).
    pub fn held(&self, object: ObjId) -> u32
        ensures { result ≡ count_of (log_of self.now) object }
    {
        self.state.count_of(object)
    }

    /// The priority of a thread; None if it does not exist (manual: Threads and Execution).
    pub fn priority(&self, thread: ObjId) -> Option<Prio>
        ensures { result ≡ priority_of (log_of self.now) thread }
    {
        self.state.priority_of(thread)
    }

    /// Returns the threads in a queue, first to last; none if its object does not exist (manual:
    /// Message Passing).
    pub fn queue(&self, queue: Queue) -> Queued<'_, ObjectQueues<L>>
        ensures { behind result.left (so_far result.state.now) result.at
            ≡ queued_in (log_of self.now) queue }
    {
        self.state.queued(queue)
    }

    /// Returns the message of a thread that no thread has received yet; None if there is none
    /// (manual: Message Passing).
    pub fn open(&self, thread: ObjId) -> Option<&Letter>
        ensures { option_copied result ≡ open_of (log_of self.now) thread }
    {
        self.state.letter(thread)
    }

    /// Returns how many messages were sent (own).
    pub fn sent(&self) -> u32
        ensures { result ≡ next_message (log_of self.now) }
    {
        self.state.next_message()
    }

    /// The thread that holds a context; None if none does (manual: Threads and Execution).
    pub fn holder(&self, context: ObjId) -> Option<ObjId>
        ensures { result ≡ holder_of (log_of self.now) context }
    {
        self.state.holder(context)
    }

    /// The context that a thread holds; None if it holds none (manual: Threads and Execution).
    pub fn context(&self, thread: ObjId) -> Option<ObjId>
        ensures { result ≡ context_of (log_of self.now) thread }
    {
        self.state.context(thread)
    }

    /// The notification at which a context is homed; None if it is homed nowhere (own).
    pub fn home(&self, context: ObjId) -> Option<ObjId>
        ensures { result ≡ home_of (log_of self.now) context }
    {
        self.state.home_of(context)
    }

    /// The reply objects in the chain of a context, from the top; none if the context does not
    /// exist (own).
    pub fn chain(&self, context: ObjId) -> Chain<'_>
        ensures { rest_of result ≡ chain_of (log_of self.now) context }
    {
        self.state.chain(context)
    }

    /// The caller that a reply object owes an answer; None if it owes no thread (manual: Message
    /// Passing).
    pub fn owed(&self, reply: ObjId) -> Option<ObjId>
        ensures { result ≡ owed_by (log_of self.now) reply }
    {
        self.state.owed(reply)
    }

    /// The thread that receives with a reply object; None if none does (manual: Message Passing).
    pub fn receiver(&self, reply: ObjId) -> Option<ObjId>
        ensures { result ≡ receiver_with (log_of self.now) reply }
    {
        self.state.receiver_with(reply)
    }

    /// Returns the pending word of a notification; None if no badge was raised since it was last
    /// heard, or if it does not exist (manual: Notifications).
    pub fn word(&self, notification: ObjId) -> Option<u64>
        ensures { result ≡ word_of (log_of self.now) notification }
    {
        self.state.word(notification)
    }

    /// The notification that is bound to a thread; None if none is (manual: Notifications).
    pub fn bound(&self, thread: ObjId) -> Option<ObjId>
        ensures { result ≡ bound_of (log_of self.now) thread }
    {
        self.state.bound_of(thread)
    }

    /// The thread to which a notification is bound; None if it is bound to none (manual:
    /// Notifications).
    pub fn tied(&self, notification: ObjId) -> Option<ObjId>
        ensures { result ≡ tied_to (log_of self.now) notification }
    {
        self.state.tied_to(notification)
    }

    /// Returns how many bits name a slot of a CNode; 0 if it is not made (manual: Capability
    /// Spaces).
    pub fn radix(&self, cnode: ObjId) -> u8
        ensures { result ≡ radix_kept (form_of (log_of self.now) cnode) }
    {
        self.state.radix(cnode)
    }

    /// The capability in a slot; None if the slot is empty or not there (manual: Capability
    /// Spaces).
    pub fn capability(&self, cnode: ObjId, index: u8) -> Option<Cap>
        ensures { result ≡ slot (log_of self.now) cnode index }
    {
        self.state.slot(SlotId { cnode, index })
    }

    /// Returns the capability that an address of a thread names, or Missing, GuardMismatch or
    /// DepthMismatch; None if the thread does not exist (manual: Capability Spaces).
    pub fn named(&self, thread: ObjId, address: u64) -> Option<Result<Cap, Refusal>>
        ensures { result ≡ named_for (log_of self.now) thread address }
    {
        self.state.named(thread, address)
    }

    /// Returns the slot that a place of a thread names, or Range, GuardMismatch or DepthMismatch;
    /// None if the thread does not exist (manual: Capability Spaces).
    pub fn placed(&self, thread: ObjId, place: Place) -> Option<Result<SlotId, Refusal>>
        ensures { option_map (λ r. named_by r) result ≡ placed_for (log_of self.now) thread place }
    {
        self.state.placed(thread, place)
    }

    /// The capability to the root of a thread's space; None if the thread does not exist (manual:
    /// Capability Spaces).
    pub fn root(&self, thread: ObjId) -> Option<Cap>
        ensures { result ≡ root_said (log_of self.now) thread }
    {
        self.state.root_of(thread)
    }

    /// The core of a context; None if it does not exist (manual: Threads and Execution).
    pub fn core(&self, context: ObjId) -> Option<CoreId>
        ensures { result ≡ core_said (log_of self.now) context }
    {
        self.state.core_of(context)
    }
}
