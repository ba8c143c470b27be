//! The interface of the queues, by ids.
ghost use Rattle.std.specs.Prelude.{ℕ, ◌≡◌, ◌+◌, ◌||◌, Bool, true, false, List, [], Option, Some, None, IfOk};
ghost use Rattle.mcs_types.specs.declared.id.ObjId.{ObjId};
ghost use Rattle.mcs_types.specs.declared.id.Kind.{Kind};
ghost use Rattle.mcs_types.specs.declared.record.Queue.{Queue};
ghost use Rattle.mcs_types.specs.Ids.{IsThread, ChangesAt};
ghost use Rattle.mcs_types.specs.Chains.{head_of};
ghost use Rattle.mcs_book.specs.Growing.{Waiter, threads_in, without, shifted};
ghost use Rattle.mcs_object_queues.specs.Queues.{has_queues, is_queue_of, no_room, behind_in, CountsOneMore, LosesQueues, JoinsQueue};

use mcs_types::{Kind, ObjId, OutOfMemory, Prio, Queue};
use std::alloc::Global;

/// The endpoints and the notifications, 256 of each at most, with the threads that wait in their
/// queues (manual: Message Passing; Notifications). An endpoint has two queues and a notification
/// one; the greatest priority is first, and within one priority the thread that came first. The
/// threads are those of the serials 1 to 256, and each is in at most one queue (own).
///
/// All is seen by ids. `new` takes the memory for all calls.
pub trait Waiting: Sized + Drop {
    /// The threads of a queue with their priorities, first to last; none if its object does not
    /// exist.
    ghost line: { Self → Queue → List Waiter };

    /// The queue in which a thread is.
    ghost queue: { Self → ObjId → Option Queue };

    /// Whether the object of a queue exists.
    ghost has: { Self → Queue → Bool };

    /// How many objects of a kind were made: their serials count from 1.
    ghost given: { Self → Kind → ℕ };

    /// How many objects of a kind exist.
    ghost there: { Self → Kind → ℕ };

    /// Returns queues without objects and threads. `OutOfMemory` if an allocation fails: no later
    /// call allocates (own).
    fn new(alloc: Global) -> Result<Self, OutOfMemory>
        ensures line { IfOk result (λ s. (q : Queue) → line s q ≡ []) }
        ensures queue { IfOk result (λ s. (t : ObjId) → queue s t ≡ None) }
        ensures has { IfOk result (λ s. (q : Queue) → has s q ≡ false) }
        ensures given { IfOk result (λ s. (k : Kind) → given s k ≡ 0) }
        ensures there { IfOk result (λ s. (k : Kind) → there s k ≡ 0) };

    /// Returns how many objects of a kind were made; 0 of a kind that has no queues (own).
    fn made(&self, kind: Kind) -> u32
        ensures { result ≡ given self.now kind };

    /// Returns how many objects of a kind exist; 0 of a kind that has no queues (own).
    fn count(&self, kind: Kind) -> usize
        ensures { result ≡ there self.now kind };

    /// Returns whether no object of a kind can be made: 256 exist, or the last serial was given
    /// (own).
    fn is_full(&self, kind: Kind) -> bool
        ensures { result ≡ no_room (given self.now kind) (there self.now kind) };

    /// Returns whether the object of a queue exists (own).
    fn is_there(&self, of: Queue) -> bool
        ensures { result ≡ has self.now of };

    /// Clones the queues in the memory of spare ones. `OutOfMemory` if an allocation fails.
    fn copy(&self, alloc: Global, spare: Option<Self>) -> Result<Self, OutOfMemory>
        ensures line { IfOk result (λ s. (q : Queue) → line s q ≡ line self.now q) }
        ensures queue { IfOk result (λ s. (t : ObjId) → queue s t ≡ queue self.now t) }
        ensures has { IfOk result (λ s. (q : Queue) → has s q ≡ has self.now q) }
        ensures given { IfOk result (λ s. (k : Kind) → given s k ≡ given self.now k) }
        ensures there { IfOk result (λ s. (k : Kind) → there s k ≡ there self.now k) };

    /// Makes an endpoint or a notification; there must be room. Its serial is the next of its kind,
    /// and its queues are empty (own).
    fn open(&mut self, kind: Kind) -> ObjId
        requires queued { has_queues kind ≡ true }
        requires room { no_room (given self.old kind) (there self.old kind) ≡ false }
        ensures id { result ≡ record { kind = kind; serial = given self.old kind + 1 } }
        ensures empty { (q : Queue) → is_queue_of result q ≡ true → line self.new q ≡ [] }
        ensures line { (q : Queue) → line self.new q ≡ line self.old q }
        ensures queue { (t : ObjId) → queue self.new t ≡ queue self.old t }
        ensures has { (q : Queue) → has self.new q ≡ (is_queue_of result q || has self.old q) }
        ensures given { CountsOneMore (given self.old) (given self.new) kind }
        ensures there { CountsOneMore (there self.old) (there self.new) kind };

    /// Removes an existing endpoint or notification whose queues are empty. Its serial is never
    /// reused (manual: Kernel Services and Objects).
    fn close(&mut self, object: ObjId)
        requires queued { has_queues object.kind ≡ true }
        requires there { (q : Queue) → is_queue_of object q ≡ true → has self.old q ≡ true }
        requires empty { (q : Queue) → is_queue_of object q ≡ true → line self.old q ≡ [] }
        ensures line { (q : Queue) → line self.new q ≡ line self.old q }
        ensures queue { (t : ObjId) → queue self.new t ≡ queue self.old t }
        ensures has { LosesQueues (has self.old) (has self.new) object }
        ensures given { (k : Kind) → given self.new k ≡ given self.old k }
        // One less exists, and at least one did.
        ensures there { CountsOneMore (there self.new) (there self.old) object.kind };

    /// Queues a thread that is in no queue, after all of its priority; the queue's object must
    /// exist (manual: Message Passing).
    fn join(&mut self, thread: ObjId, into: Queue, priority: Prio)
        requires known { IsThread thread }
        requires there { has self.old into ≡ true }
        requires idle { queue self.old thread ≡ None }
        ensures line { JoinsQueue (line self.old) (line self.new) thread into priority }
        ensures queue { ChangesAt (queue self.old) (queue self.new) thread (Some into) }
        ensures has { (q : Queue) → has self.new q ≡ has self.old q }
        ensures given { (k : Kind) → given self.new k ≡ given self.old k }
        ensures there { (k : Kind) → there self.new k ≡ there self.old k };

    /// Takes a thread out of its queue, if it is in one (manual: Message Passing).
    fn part(&mut self, thread: ObjId)
        ensures line { (q : Queue) → line self.new q ≡ without thread (line self.old q) }
        ensures queue { ChangesAt (queue self.old) (queue self.new) thread None }
        ensures has { (q : Queue) → has self.new q ≡ has self.old q }
        ensures given { (k : Kind) → given self.new k ≡ given self.old k }
        ensures there { (k : Kind) → there self.new k ≡ there self.old k };

    /// Sets the priority of a thread in its queue, if it is in one: it goes after all of that
    /// priority, even if it had that priority before (own).
    fn shift(&mut self, thread: ObjId, priority: Prio)
        ensures line { (q : Queue) → line self.new q ≡ shifted thread priority.0 (line self.old q) }
        ensures queue { (t : ObjId) → queue self.new t ≡ queue self.old t }
        ensures has { (q : Queue) → has self.new q ≡ has self.old q }
        ensures given { (k : Kind) → given self.new k ≡ given self.old k }
        ensures there { (k : Kind) → there self.new k ≡ there self.old k };

    /// Returns the first thread of a queue; None if the queue is empty or its object does not exist
    /// (manual: Message Passing).
    fn first(&self, of: Queue) -> Option<ObjId>
        ensures { result ≡ head_of (threads_in (line self.now of)) };

    /// The thread after another in its queue. None if it is the last of it or is in no queue (own).
    fn next(&self, thread: ObjId) -> Option<ObjId>
        ensures { result ≡ behind_in (queue self.now thread) (line self.now) thread };
}
