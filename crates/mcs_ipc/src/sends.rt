//! Send, NBSend and Call.
ghost use Rattle.std.specs.Prelude.{◌≡◌, ◌<◌, true, Some, None, length};
ghost use Rattle.mcs_types.specs.declared.entry.Entry.{Entry};
ghost use Rattle.mcs_types.specs.declared.id.Kind.{Kind};
ghost use Rattle.mcs_types.specs.declared.record.Queue.{Queue};
ghost use Rattle.mcs_book.specs.Queues.{first_in};
ghost use Rattle.mcs_book.specs.Rights.{call_mode};
ghost use Rattle.mcs_book.specs.Sound.{IsThere};
ghost use Rattle.mcs_state.specs.Now.{so_far};
ghost use Rattle.mcs_state.specs.Doing.{Acts, FitsAct, Does, Fits};
ghost use Rattle.mcs_state.specs.Entering.{IsEntering, OpenStand, OnlyBoundWait};
ghost use Rattle.mcs_notify.specs.Rows.{signal_act};
ghost use Rattle.mcs_ipc.specs.Ready.{IsSending, IsSendingOver};
ghost use Rattle.mcs_ipc.specs.Rows.{answer_to, said, send_entry, send_act, pay_act, target_act, send_answer};

use crate::checks::{Target, cap_to_call, target_to_send};
use crate::replies::pay;
use crate::transfer::settle;
use mcs_notify::signal;
use mcs_object_queues::Waiting;
use mcs_state::{State, wake};
use mcs_types::{BOOK_LINES, Badge, Cap, Copies, CoreId, Mode, ObjId, Queue, Refusal, SendMode};

/// The way that a message goes: over which endpoint, with which badge, and how it is sent.
#[derive(Clone, Copy)]
struct Way {
    endpoint: ObjId,
    badge: Badge,
    mode: SendMode,
}

/// Returns how a call over a capability is sent: without Grant and GrantReply it can get no reply
/// (manual: Message Passing).
fn call_mode(cap: &Cap) -> SendMode
    ensures { result ≡ call_mode cap.now }
{
    if cap.rights.can_be_answered() {
        SendMode::Call
    } else {
        SendMode::Mute
    }
}

/// Returns whether a thread blocks even if its message is taken at once: a caller waits for the
/// reply.
fn waits(mode: SendMode) -> bool
    ensures { said result ≡ answer_to mode }
{
    match mode {
        SendMode::Plain | SendMode::Give => false,
        SendMode::Call | SendMode::Mute => true,
    }
}

/// Sends a message, and queues the thread, as no thread receives.
fn send_alone<W: Waiting>(
    state: &mut State<W>,
    thread: ObjId,
    endpoint: ObjId,
    badge: Badge,
    mode: SendMode,
    message: Copies<'_>,
) -> bool
    requires sending { IsSending (so_far state.old) thread endpoint }
    requires few { length state.old.book.lines < BOOK_LINES }
    requires none { first_in (so_far state.old) (Queue.Receivers endpoint) ≡ None }
    requires room { FitsAct (send_act true mode thread endpoint badge message) state.old }
    ensures { Acts (send_act true mode thread endpoint badge message.entry) state.old
        (said result) state.new }
{
    state.sends(thread, endpoint, mode, badge, message);
    state.joins(thread, Queue::Senders(endpoint), None);
    true
}

/// Hands a message that is being sent to the first receiver.
fn send_to<W: Waiting>(
    state: &mut State<W>,
    thread: ObjId,
    way: Way,
    message: Copies<'_>,
    receiver: ObjId,
    blocks: bool,
) -> bool
    requires sending { IsSending (so_far state.old) thread way.endpoint }
    requires few { length state.old.book.lines < BOOK_LINES }
    requires first { first_in (so_far state.old) (Queue.Receivers way.endpoint) ≡ Some receiver }
    requires room { FitsAct (send_act blocks way.mode thread way.endpoint way.badge message)
        state.old }
    ensures { Acts (send_act blocks way.mode thread way.endpoint way.badge message.entry) state.old
        (said result) state.new }
{
    let queue = Queue::Receivers(way.endpoint);
    state.is_sound();
    let reply = state.reply_with(receiver, queue);
    state.hands(thread, way.endpoint, way.mode, way.badge, message, receiver);
    state.parts(receiver, queue);
    settle(state, way.mode, thread, receiver, reply, false);
    state.turns(receiver, Mode::Running);
    waits(way.mode)
}

/// Sends to an endpoint with a badge, or calls: the first receiver takes the message. If no thread
/// receives, the thread waits if it blocks, and otherwise the message is dropped.
fn send_over<W: Waiting>(
    state: &mut State<W>,
    thread: ObjId,
    endpoint: ObjId,
    badge: Badge,
    mode: SendMode,
    message: Copies<'_>,
    blocks: bool,
) -> bool
    requires sending { IsSending (so_far state.old) thread endpoint }
    requires few { length state.old.book.lines < BOOK_LINES }
    requires room { FitsAct (send_act blocks mode thread endpoint badge message) state.old }
    ensures { Acts (send_act blocks mode thread endpoint badge message.entry) state.old
        (said result) state.new }
{
    match state.first(Queue::Receivers(endpoint)) {
        Some(receiver) => send_to(
            state,
            thread,
            Way {
                endpoint,
                badge,
                mode,
            },
            message,
            receiver,
            blocks,
        ),
        None if blocks => send_alone(state, thread, endpoint, badge, mode, message),
        None => false,
    }
}

/// Replies to the caller that a reply object owes, if any.
fn send_reply<W: Waiting>(state: &mut State<W>, reply: ObjId, message: Copies<'_>) -> bool
    requires { FitsAct (pay_act reply message) state.old }
    ensures { Acts (pay_act reply message.entry) state.old (said result)
        state.new }
{
    pay(state, reply, message);
    false
}

/// Signals a notification over a capability.
fn send_signal<W: Waiting>(state: &mut State<W>, cap: Cap) -> bool
    requires there { IsThere (so_far state.old) Kind.Notification cap.obj }
    requires waiting { OnlyBoundWait (so_far state.old) }
    requires room { FitsAct (signal_act cap) state.old }
    ensures { Acts (signal_act cap) state.old (said result)
        state.new }
{
    signal(state, cap.obj, cap.badge);
    false
}

/// Sends over an endpoint, a notification or a reply object.
#[inline(always)]
pub fn send_target<W: Waiting>(
    state: &mut State<W>,
    thread: ObjId,
    target: Target,
    mode: SendMode,
    message: Copies<'_>,
    blocks: bool,
) -> bool
    requires sending { IsSendingOver (so_far state.old) thread target }
    requires waiting { OnlyBoundWait (so_far state.old) }
    requires few { length state.old.book.lines < BOOK_LINES }
    requires room { FitsAct (target_act blocks mode thread message target) state.old }
    ensures { Acts (target_act blocks mode thread message.entry target) state.old (said result)
        state.new }
{
    match target {
        Target::Endpoint(cap) => send_over(
            state, thread, cap.obj, cap.badge, mode, message, blocks,
        ),
        Target::Notification(cap) => send_signal(state, cap),
        Target::Reply(reply) => send_reply(state, reply, message),
    }
}

/// Performs Send if it blocks, and NBSend if not. Over an endpoint the first receiver takes the
/// message; if no thread receives, the thread waits among the senders if it blocks, and otherwise
/// the message is dropped, with no record and the same answer. Over a notification the message is
/// left out, and the notification is signalled with the badge of the capability; over a reply
/// object the caller that it owes is answered, if it owes one. The refusals are 1 to 3 of the
/// lookup, 4 for a capability of another kind, and 5 if one to an endpoint or a notification lacks
/// Write; they change nothing (manual: Message Passing; Notifications).
pub fn send<W: Waiting>(
    state: &mut State<W>,
    core: CoreId,
    thread: ObjId,
    address: u64,
    message: Copies<'_>,
    blocks: bool,
) -> Result<bool, Refusal>
    requires entering { IsEntering (so_far state.old) thread }
    requires stand { OpenStand (so_far state.old) }
    requires waiting { OnlyBoundWait (so_far state.old) }
    requires few { length state.old.book.lines < BOOK_LINES }
    requires room { Fits state.old core thread (send_entry blocks address message) }
    ensures { Does state.old core thread (send_entry blocks address message.entry)
        (send_answer result) state.new }
{
    state.is_sound();
    let target = target_to_send(state, thread, address)?;
    wake(state, thread);
    Ok(send_target(state, thread, target, SendMode::Plain, message, blocks))
}

/// Performs Call: over an endpoint the first receiver takes the message, and its reply object owes
/// the thread an answer, or else the thread waits among the senders. A call that cannot be
/// answered, since Grant and GrantReply are missing or the receiver names no reply object, leaves
/// the thread inactive once it is taken. A receiver that holds no context is lent the thread's
/// (own). The refusals are 1 to 3 of the lookup, 4 for a capability of another kind, and 5 if Write
/// is missing; they change nothing (manual: Message Passing).
pub fn call<W: Waiting>(
    state: &mut State<W>,
    core: CoreId,
    thread: ObjId,
    address: u64,
    message: Copies<'_>,
) -> Result<bool, Refusal>
    requires entering { IsEntering (so_far state.old) thread }
    requires stand { OpenStand (so_far state.old) }
    requires few { length state.old.book.lines < BOOK_LINES }
    requires room { Fits state.old core thread (Entry.Call address message) }
    ensures { Does state.old core thread (Entry.Call address message.entry) (send_answer result)
        state.new }
{
    state.is_sound();
    let cap = cap_to_call(state, thread, address)?;
    wake(state, thread);
    let mode = call_mode(&cap);
    Ok(send_over(state, thread, cap.obj, cap.badge, mode, message, true))
}
