//! Takes messages, and makes reply objects owe callers.
ghost use Rattle.std.specs.Prelude.{◌≡◌, true, IfSome, Some};
ghost use Rattle.mcs_types.specs.declared.id.Kind.{Kind};
ghost use Rattle.mcs_types.specs.declared.record.Queue.{Queue};
ghost use Rattle.mcs_book.specs.Messages.{open_of};
ghost use Rattle.mcs_book.specs.Queues.{first_in};
ghost use Rattle.mcs_book.specs.Sound.{IsThere};
ghost use Rattle.mcs_book.specs.Taking.{owe as owed_by, give as given_by, settle as settled};
ghost use Rattle.mcs_state.specs.Now.{so_far, IsNumberOf};
ghost use Rattle.mcs_state.specs.Doing.{Makes, HasRoomFor};
ghost use Rattle.mcs_ipc.specs.Ready.{IsReady, IsSettling, IsCalling};
ghost use Rattle.mcs_ipc.specs.Rows.{lent, resumes, taken_by};

use mcs_object_queues::Waiting;
use mcs_state::{State, give_back};
use mcs_types::{Message, Mode, ObjId, Queue, SendMode};

/// A message that is taken: its number, its sender, the endpoint, and how it was sent.
#[derive(Clone, Copy)]
pub struct Delivery {
    pub number: u32,
    pub sender: ObjId,
    pub endpoint: ObjId,
    pub mode: SendMode,
}

/// Returns the context that a caller lends: its own, if the receiver holds none (own).
fn context_to_lend<W: Waiting>(state: &State<W>, caller: ObjId, receiver: ObjId) -> Option<ObjId>
    ensures { result ≡ lent (so_far state.now) caller receiver }
{
    match state.context(receiver) {
        Some(_) => None,
        None => state.context(caller),
    }
}

/// Makes a reply object owe a caller a reply, which the receiver has to give. A receiver that holds
/// no context is lent the caller's (own).
fn owe<W: Waiting>(state: &mut State<W>, reply: ObjId, caller: ObjId, receiver: ObjId)
    requires calling { IsCalling (so_far state.old) reply caller receiver }
    requires room { HasRoomFor (owed_by reply caller receiver) state.old }
    ensures { Makes (owed_by reply caller receiver) state.old state.new }
{
    state.is_sound();
    let context = context_to_lend(state, caller, receiver);
    state.owes(reply, caller, context);
    match context {
        None => {}
        Some(context) => state.holds(context, Some(receiver)),
    }
}

/// Passes the context of a sender to the receiver, if that holds none (own).
fn give<W: Waiting>(state: &mut State<W>, sender: ObjId, receiver: ObjId)
    requires receiver { IsThere (so_far state.old) Kind.Thread receiver }
    requires room { HasRoomFor (given_by sender receiver) state.old }
    ensures { Makes (given_by sender receiver) state.old state.new }
{
    let own = state.context(sender);
    give_back(state, own, receiver);
}

/// Completes a send whose message was taken. A caller is owed a reply, or becomes Inactive if no
/// thread can give one. After a plain send a queued sender runs again. A sender of mode `Give`
/// passes its context (manual: Message Passing; own).
// inlined: callers know whether the sender was in a queue
#[inline(always)]
pub fn settle<W: Waiting>(
    state: &mut State<W>,
    mode: SendMode,
    sender: ObjId,
    receiver: ObjId,
    reply: Option<ObjId>,
    queued: bool,
)
    requires settling { IsSettling (so_far state.old) sender receiver reply }
    requires room { HasRoomFor (settled mode sender receiver reply (resumes queued sender))
        state.old }
    ensures { Makes (settled mode sender receiver reply (resumes queued sender))
        state.old state.new }
{
    match mode {
        SendMode::Plain if queued => state.turns(sender, Mode::Running),
        SendMode::Plain => {}
        SendMode::Call => match reply {
            Some(reply) => owe(state, reply, sender, receiver),
            None => state.turns(sender, Mode::Inactive),
        },
        SendMode::Mute => state.turns(sender, Mode::Inactive),
        SendMode::Give => give(state, sender, receiver),
    }
}

/// Takes the open message of the first sender for a thread that receives, with a reply object or
/// without. Returns an equal message.
// inlined, so that the message is moved once less
#[inline(always)]
pub fn take<W: Waiting>(
    state: &mut State<W>,
    delivery: Delivery,
    thread: ObjId,
    reply: Option<ObjId>,
) -> Message
    requires ready { IsReady (so_far state.old) thread delivery.endpoint reply }
    requires first { first_in (so_far state.old) (Queue.Senders delivery.endpoint)
        ≡ Some delivery.sender }
    requires open { IsNumberOf delivery.number (open_of (so_far state.old) delivery.sender) }
    requires room { HasRoomFor (taken_by delivery thread reply) state.old }
    ensures taken { Makes (taken_by delivery thread reply) state.old state.new }
    ensures message { IfSome (open_of (so_far state.old) delivery.sender)
        (λ l. result ≡ l.message) }
{
    let Delivery {
        number,
        sender,
        endpoint,
        mode,
    } = delivery;
    state.is_sound();
    let message = state.took(number, sender, thread);
    state.parts(sender, Queue::Senders(endpoint));
    settle(state, mode, sender, thread, reply, true);
    message
}
