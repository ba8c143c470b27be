//! The kernel.
ghost use Rattle.std.specs.Prelude.{◌≡◌, ◌<◌, [], IfOk, OnOk, OnErr, IfSome, IfNone, length, Err, None};
ghost use Rattle.mcs_types.specs.declared.entry.Answer.TheVariants.{Done};
ghost use Rattle.mcs_types.specs.Brings.{message_of};
ghost use Rattle.mcs_types.specs.Messages.{IsSpare};
ghost use Rattle.mcs_book.specs.History.{IsLegal, log_of};
ghost use Rattle.mcs_book.specs.Each.{EachRecord, EachLine, AfterEachLine};
ghost use Rattle.mcs_book.specs.Fair.{EndsOpen, IsWholeLine, TakesFirst, TakesInOrder, TakesAlive, SendersAreOpen, AnswersOwed, AnswersWhole, NoneWaitBeside, IsFair};
ghost use Rattle.mcs_book.specs.Statuses.{may_enter};
ghost use Rattle.mcs_caps.specs.NewObjects.{HasSerials};
ghost use Rattle.mcs_book.specs.Table.{does};
ghost use Rattle.mcs_types.specs.declared.entry.Entry.{Entry};
ghost use Rattle.mcs_ipc.specs.Rows.{send_answer, send_entry, exchange_entry};
ghost use Rattle.mcs_state.specs.Now.{so_far};
ghost use Rattle.mcs_state.specs.Doing.{Does, Fits, plain_answer};
ghost use Rattle.mcs_state.specs.Entering.{IsEntering, OpenStand, OnlyBoundWait};
ghost use Rattle.mcs_kernel.specs.Faults.{fault_of, entered, with_entry, FailsForMemory};

mod queries;

use crate::fault::EnterFault;
use mcs_book::Book;
use mcs_boots::{Boot, boot_state};
use mcs_cancel::{cancel_badged, resume, set_priority, suspend};
use mcs_caps::{copy_cap, delete_cap, make, mint_cap, move_cap};
use mcs_ipc::{Ends, bind_context, call, exchange, receive, reply_receive, send, unbind_context};
use mcs_notify::{bind, signal_at, unbind};
use mcs_object_queues::{ObjectQueues, Waiting};
use mcs_queues::Lines;
use mcs_state::State;
use mcs_types::{
    Answer, BOOK_LINES, CORES, Copied, Copies, CoreId, Entry, Kind, Message, ObjId, OutOfMemory,
    Refusal, Status, Step,
};
use std::alloc::Global;
use std::marker::Model;

/// The kernel: a book, and the tables that cache it. Clauses see the book.
#[derive(Drop)]
pub struct Kernel<L: Lines> {
    state: State<ObjectQueues<L>>,
}

impl<L: Lines> Model for Kernel<L> {
    ghost use Rattle.mcs_book.specs.History.{Book};
    ghost use Rattle.mcs_kernel.specs.Resting.{IsResting};

    ghost Value = { Book };

    ghost view = { λ k. k.state.book };

    ghost invariant = { λ k. IsResting k.state };
}

// The answer is Done before the entry, so that an entry which is done writes none.

/// Writes the answer of an entry that is done or refused.
#[inline(always)]
fn answer_plain(answer: &mut Answer, ended: Result<(), Refusal>)
    requires { answer.old ≡ Done }
    ensures { answer.new ≡ plain_answer ended }
{
    match ended {
        Ok(()) => {}
        Err(refusal) => *answer = Answer::Refused(refusal),
    }
}

/// Answers a send: whether its thread waits, or the refusal.
#[inline(always)]
fn answer_send(answer: &mut Answer, waits: Result<bool, Refusal>)
    requires { answer.old ≡ Done }
    ensures { answer.new ≡ send_answer waits }
{
    match waits {
        Ok(true) => *answer = Answer::Waits,
        Ok(false) => {}
        Err(refusal) => *answer = Answer::Refused(refusal),
    }
}

/// The thread that enters, and the core on which it does.
#[derive(Clone, Copy)]
struct Caller {
    core: CoreId,
    thread: ObjId,
}

// An entry that sends a message is a separate function, so that only it clears memory for what it
// lends.

/// Performs Send and NBSend, with the copies of a long message.
#[inline(always)]
fn do_send<W: Waiting>(
    state: &mut State<W>,
    caller: Caller,
    cap: u64,
    message: &Message,
    long: Option<Box<Copied>>,
    blocks: bool,
    answer: &mut Answer,
)
    requires copies { IsSpare long message.now }
    requires entering { IsEntering (so_far state.old) caller.thread }
    requires stand { OpenStand (so_far state.old) }
    requires waiting { OnlyBoundWait (so_far state.old) }
    requires few { length state.old.book.lines < BOOK_LINES }
    requires room { Fits state.old caller.core caller.thread (send_entry blocks cap message.now) }
    requires done { answer.old ≡ Done }
    ensures { Does state.old caller.core caller.thread (send_entry blocks cap message.now)
        answer.new state.new }
{
    let copies = Copies { message, long };
    answer_send(
        answer,
        send(state, caller.core, caller.thread, cap, copies, blocks),
    )
}

/// Performs Call, with the copies of a long message.
#[inline(always)]
fn do_call<W: Waiting>(
    state: &mut State<W>,
    caller: Caller,
    cap: u64,
    message: &Message,
    long: Option<Box<Copied>>,
    answer: &mut Answer,
)
    requires copies { IsSpare long message.now }
    requires entering { IsEntering (so_far state.old) caller.thread }
    requires stand { OpenStand (so_far state.old) }
    requires few { length state.old.book.lines < BOOK_LINES }
    requires room { Fits state.old caller.core caller.thread (Entry.Call cap message.now) }
    requires done { answer.old ≡ Done }
    ensures { Does state.old caller.core caller.thread (Entry.Call cap message.now) answer.new
        state.new }
{
    let copies = Copies { message, long };
    answer_send(answer, call(state, caller.core, caller.thread, cap, copies))
}

/// Performs ReplyRecv, with the copies of a long message.
#[inline]
fn do_reply_receive<W: Waiting>(
    state: &mut State<W>,
    caller: Caller,
    cap: u64,
    reply: u64,
    message: &Message,
    long: Option<Box<Copied>>,
    answer: &mut Answer,
)
    requires copies { IsSpare long message.now }
    requires entering { IsEntering (so_far state.old) caller.thread }
    requires stand { OpenStand (so_far state.old) }
    requires room { Fits state.old caller.core caller.thread
        (Entry.ReplyRecv cap reply message.now) }
    ensures { Does state.old caller.core caller.thread (Entry.ReplyRecv cap reply message.now)
        answer.new state.new }
{
    let copies = Copies { message, long };
    reply_receive(
        state,
        caller.core,
        caller.thread,
        cap,
        reply,
        copies,
        answer,
    )
}

/// Performs NBSendRecv if a reply object is named, and NBSendWait if not, with the copies of a long
/// message.
fn do_exchange<W: Waiting>(
    state: &mut State<W>,
    caller: Caller,
    ends: Ends,
    reply: Option<u64>,
    message: &Message,
    long: Option<Box<Copied>>,
    answer: &mut Answer,
)
    requires copies { IsSpare long message.now }
    requires entering { IsEntering (so_far state.old) caller.thread }
    requires stand { OpenStand (so_far state.old) }
    requires waiting { OnlyBoundWait (so_far state.old) }
    requires few { length state.old.book.lines < BOOK_LINES }
    requires room { Fits state.old caller.core caller.thread
        (exchange_entry ends.target ends.source reply message.now) }
    ensures { Does state.old caller.core caller.thread
        (exchange_entry ends.target ends.source reply message.now) answer.new state.new }
{
    let copies = Copies { message, long };
    exchange(
        state,
        caller.core,
        caller.thread,
        ends,
        reply,
        copies,
        answer,
    )
}

/// Performs an entry of a thread that may enter: a table, with an arm for each entry. The copies of
/// a long message were made before, so it allocates nothing.
#[inline(always)]
fn operate<W: Waiting>(
    state: &mut State<W>,
    core: CoreId,
    thread: ObjId,
    entry: &Entry,
    long: Option<Box<Copied>>,
    answer: &mut Answer,
)
    requires core { core.0 < CORES }
    requires copies { IfSome (message_of entry.now) (IsSpare long) }
    requires entering { IsEntering (so_far state.old) thread }
    requires stand { OpenStand (so_far state.old) }
    requires waiting { OnlyBoundWait (so_far state.old) }
    requires serials { HasSerials (so_far state.old) }
    requires few { length state.old.book.lines < BOOK_LINES }
    requires room { Fits state.old core thread entry.now }
    requires done { answer.old ≡ Done }
    ensures { Does state.old core thread entry.now answer.new state.new }
{
    let caller = Caller { core, thread };
    match entry {
        Entry::Send { cap, message } => do_send(state, caller, *cap, message, long, true, answer),
        Entry::NbSend { cap, message } => do_send(
            state, caller, *cap, message, long, false, answer,
        ),
        Entry::Call { cap, message } => do_call(state, caller, *cap, message, long, answer),
        Entry::Recv { cap, reply } => receive(
            state,
            core,
            thread,
            *cap,
            Some(*reply),
            true,
            answer,
        ),
        Entry::NbRecv { cap, reply } => receive(
            state,
            core,
            thread,
            *cap,
            Some(*reply),
            false,
            answer,
        ),
        Entry::Wait { cap } => receive(state, core, thread, *cap, None, true, answer),
        Entry::NbWait { cap } => receive(state, core, thread, *cap, None, false, answer),
        Entry::ReplyRecv {
            cap,
            reply,
            message,
        } => do_reply_receive(state, caller, *cap, *reply, message, long, answer),
        Entry::NbSendRecv {
            cap,
            source,
            reply,
            message,
        } => do_exchange(
            state,
            caller,
            Ends {
                target: *cap,
                source: *source,
            },
            Some(*reply),
            message,
            long,
            answer,
        ),
        Entry::NbSendWait {
            cap,
            source,
            message,
        } => do_exchange(
            state,
            caller,
            Ends {
                target: *cap,
                source: *source,
            },
            None,
            message,
            long,
            answer,
        ),
        Entry::Signal { cap } => answer_plain(answer, signal_at(state, core, thread, *cap)),
        Entry::SetPriority {
            thread: holder,
            authority,
            priority,
        } => answer_plain(
            answer,
            set_priority(state, core, thread, *holder, *authority, *priority),
        ),
        Entry::Suspend { thread: other } => answer_plain(
            answer,
            suspend(state, core, thread, *other),
        ),
        Entry::Resume { thread: other } => answer_plain(
            answer,
            resume(state, core, thread, *other),
        ),
        Entry::BindNtfn {
            thread: holder,
            notification,
        } => answer_plain(answer, bind(state, core, thread, *holder, *notification)),
        Entry::UnbindNtfn { thread: holder } => answer_plain(
            answer,
            unbind(state, core, thread, *holder),
        ),
        Entry::BindCtx {
            context,
            thread: holder,
        } => answer_plain(answer, bind_context(state, core, thread, *context, *holder)),
        Entry::UnbindCtx { context } => answer_plain(
            answer,
            unbind_context(state, core, thread, *context),
        ),
        Entry::CancelBadged { endpoint } => answer_plain(
            answer,
            cancel_badged(state, core, thread, *endpoint),
        ),
        Entry::CopyCap {
            source,
            dest,
            rights,
        } => answer_plain(
            answer,
            copy_cap(state, core, thread, *source, *dest, *rights),
        ),
        Entry::MintCap {
            source,
            dest,
            rights,
            badge,
        } => answer_plain(
            answer,
            mint_cap(state, core, thread, *source, *dest, *rights, *badge),
        ),
        Entry::MoveCap { source, dest } => answer_plain(
            answer,
            move_cap(state, core, thread, *source, *dest),
        ),
        Entry::DeleteCap { place } => answer_plain(answer, delete_cap(state, core, thread, *place)),
        Entry::MakeEndpoint { place } => answer_plain(
            answer,
            make(state, core, thread, Kind::Endpoint, *place),
        ),
        Entry::MakeNotification { place } => answer_plain(
            answer,
            make(state, core, thread, Kind::Notification, *place),
        ),
        Entry::MakeReply { place } => answer_plain(
            answer,
            make(state, core, thread, Kind::Reply, *place),
        ),
        Entry::MakeContext { place } => answer_plain(
            answer,
            make(state, core, thread, Kind::Context, *place),
        ),
    }
}

impl<L: Lines> Kernel<L> {
    /// Returns a kernel whose book has only line 0: the boot with the records of its lines. It
    /// allocates all tables.
    pub fn new(alloc: Global, boot: &Boot) -> Result<Kernel<L>, OutOfMemory>
        ensures { IfOk result (λ k. k ≡ record { boot = boot.now; lines = [] }) }
    {
        let state = boot_state(alloc, boot.book())?;
        Ok(Kernel { state })
    }

    /// Returns a kernel after a boot, whose tables are dropped first, so that the memory of one
    /// kernel is enough.
    pub(crate) fn after(alloc: Global, boot: Boot) -> Result<Kernel<L>, OutOfMemory>
        ensures { IfOk result (λ k. k ≡ record { boot = boot; lines = [] }) }
    {
        let book = boot.into_book();
        let state = boot_state(alloc, &book)?;
        Ok(Kernel { state })
    }

    /// Clones the kernel in the memory of a spare one. `OutOfMemory` if an allocation fails.
    pub fn copy(&self, alloc: Global, spare: Option<Kernel<L>>) -> Result<Kernel<L>, OutOfMemory>
        ensures { IfOk result (λ k. k ≡ self.now) }
    {
        let spare = match spare {
            Some(Kernel { state }) => Some(state),
            None => None,
        };
        let state = self.state.copy(alloc, spare)?;
        Ok(Kernel { state })
    }

    /// Returns the book of all accepted entries. It is legal and fair, and has at most 1,000,000
    /// lines.
    pub fn book(&self) -> &Book
        ensures lent { result.now.book ≡ self.now }
        ensures legal { IsLegal self.now }
        ensures few { length self.now.lines < BOOK_LINES }
        ensures fair { IsFair self.now }
    {
        self.state.book()
    }

    /// Proves that the book is legal and fair, and has at most 1,000,000 lines.
    pub fn is_fair(&self)
        ensures legal { IsLegal self.now }
        ensures few { length self.now.lines < BOOK_LINES }
        ensures fair { IsFair self.now }
    {
        let _ = &self.state;
    }

    /// Returns why an entry of a thread on a core would be skipped now, allocations aside.
    #[inline(always)]
    #[tactic(auto, unfolding(crate::specs::Faults::fault_of))]
    pub fn fault(&self, core: CoreId, thread: ObjId) -> Option<EnterFault>
        ensures { result ≡ fault_of self.now core thread }
    {
        match self.state.status(thread) {
            Some(Status::Running | Status::Restart) => {}
            _ => return Some(EnterFault::NotRunning),
        }
        let context = match self.state.context(thread) {
            None => return Some(EnterFault::NoContext),
            Some(context) => context,
        };
        if !self.state.runs_on(context, core) {
            return Some(EnterFault::WrongCore);
        }
        if self.state.book().lines() < BOOK_LINES {
            None
        } else {
            Some(EnterFault::BookFull)
        }
    }

    /// Performs an accepted step, and adds its line. `OutOfMemory` if the allocation of the line or
    /// of a copy of its message fails; all memory is allocated before the first change.
    // inlined into `admit`, so that the answer of 72 bytes is moved once less
    #[inline(always)]
    fn serve(&mut self, alloc: Global, step: &Step) -> Result<Answer, OutOfMemory>
        requires let_in { fault_of self.old step.now.core step.now.thread ≡ None }
        ensures line { OnOk result (self.new ≡ entered self.old step.now) }
        ensures answer { IfOk result (λ a.
            a ≡ (does (log_of self.old) step.now.core step.now.thread step.now.entry).answer) }
        ensures err { OnErr result (self.new ≡ self.old) }
    {
        self.state.reserve()?;
        let long = step.entry.copied(alloc)?;
        step.entry.is_in_range();
        self.state.is_sound();
        let mut answer = Answer::Done;
        operate(
            &mut self.state,
            step.core,
            step.thread,
            &step.entry,
            long,
            &mut answer,
        );
        self.state.is_sound();
        self.state.close(step, &answer);
        Ok(answer)
    }

    /// Performs the entry of a step and adds its line to the book, even if the answer is a refusal;
    /// or skips it for the first of EnterFault's reasons, and changes nothing. OutOfMemory is the
    /// last of these. The thread need not be the one of greatest priority.
    // inlined, so that the answer of 72 bytes is not moved
    #[inline(always)]
    pub fn admit(&mut self, alloc: Global, step: &Step) -> Result<Answer, EnterFault>
        ensures turned { IfSome (fault_of self.old step.now.core step.now.thread)
            (λ f. result ≡ Err f) }
        ensures let_in { OnOk result (fault_of self.old step.now.core step.now.thread ≡ None) }
        ensures memory { IfNone (fault_of self.old step.now.core step.now.thread)
            (FailsForMemory result) }
        ensures line { OnOk result (self.new ≡ entered self.old step.now) }
        ensures answer { IfOk result (λ a.
            a ≡ (does (log_of self.old) step.now.core step.now.thread step.now.entry).answer) }
        ensures err { OnErr result (self.new ≡ self.old) }
        ensures legal { IsLegal self.new }
        ensures fair { IsFair self.new }
    {
        let result = match self.fault(step.core, step.thread) {
            Some(fault) => Err(fault),
            None => match self.serve(alloc, step) {
                Ok(answer) => Ok(answer),
                Err(OutOfMemory) => Err(EnterFault::OutOfMemory),
            },
        };
        self.is_fair();
        result
    }

    /// Performs or skips an entry of a thread on a core, as `admit` does.
    pub fn enter(
        &mut self,
        alloc: Global,
        core: CoreId,
        thread: ObjId,
        entry: Entry,
    ) -> Result<Answer, EnterFault>
        ensures turned { IfSome (fault_of self.old core thread) (λ f. result ≡ Err f) }
        ensures let_in { OnOk result (fault_of self.old core thread ≡ None) }
        ensures memory { IfNone (fault_of self.old core thread) (FailsForMemory result) }
        ensures line { OnOk result (self.new ≡ with_entry self.old core thread entry) }
        ensures answer { IfOk result (λ a. a ≡ (does (log_of self.old) core thread entry).answer) }
        ensures err { OnErr result (self.new ≡ self.old) }
        ensures legal { IsLegal self.new }
        ensures taken_once { EachRecord EndsOpen self.new }
        ensures whole { EachLine IsWholeLine self.new }
        ensures by_priority { EachRecord TakesFirst self.new }
        ensures in_order { EachRecord TakesInOrder self.new }
        ensures not_deleted { EachRecord TakesAlive self.new }
        ensures not_cancelled { AfterEachLine SendersAreOpen self.new }
        ensures answered_once { EachRecord AnswersOwed self.new }
        ensures answered_whole { EachLine AnswersWhole self.new }
        ensures none_beside { AfterEachLine NoneWaitBeside self.new }
    {
        let step = Step {
            core,
            thread,
            entry,
        };
        self.admit(alloc, &step)
    }
}
