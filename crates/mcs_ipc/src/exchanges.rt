//! NBSendRecv and NBSendWait.
ghost use Rattle.std.specs.Prelude.{◌<◌, length};
ghost use Rattle.mcs_state.specs.Now.{so_far};
ghost use Rattle.mcs_state.specs.Doing.{Acts, FitsAct, Does, Fits};
ghost use Rattle.mcs_state.specs.Entering.{IsEntering, OpenStand, OnlyBoundWait};
ghost use Rattle.mcs_ipc.specs.Ready.{IsSendingOver, IsReceivingFrom};
ghost use Rattle.mcs_ipc.specs.Rows.{exchange_entry, exchange_act};

use crate::checks::{Exchange, ends_of_exchange};
use crate::receives::receive_from;
use crate::sends::send_target;
use mcs_object_queues::Waiting;
use mcs_state::{State, wake};
use mcs_types::{Answer, BOOK_LINES, Copies, CoreId, ObjId, SendMode};

/// The addresses of the two capabilities of an exchange: what a thread sends over, and what it then
/// receives from.
#[derive(Clone, Copy)]
pub struct Ends {
    pub target: u64,
    pub source: u64,
}

/// Sends without blocking, with the thread's context, and then receives.
fn send_and_receive<W: Waiting>(
    state: &mut State<W>,
    thread: ObjId,
    at: Exchange,
    message: Copies<'_>,
    answer: &mut Answer,
)
    requires sending { IsSendingOver (so_far state.old) thread at.target }
    requires receiving { IsReceivingFrom (so_far state.old) thread at.source }
    requires waiting { OnlyBoundWait (so_far state.old) }
    requires few { length state.old.book.lines < BOOK_LINES }
    requires room { FitsAct (exchange_act message thread at) state.old }
    ensures { Acts (exchange_act message.entry thread at) state.old answer.new state.new }
{
    state.is_sound();
    send_target(state, thread, at.target, SendMode::Give, message, false);
    receive_from(state, thread, at.source, true, answer)
}

/// Performs NBSendRecv if a reply object is named, and NBSendWait if not. The thread sends as by
/// NBSend; then it receives as by Recv or Wait over a second capability, which gives the answer. If
/// a receiver that holds no context takes the message, the thread's context goes along, and no
/// thread owes anything for it. All tests come first, those of the send before those of the
/// receive: the refusals are those of NBSend and of Recv, and change nothing (own).
pub fn exchange<W: Waiting>(
    state: &mut State<W>,
    core: CoreId,
    thread: ObjId,
    ends: Ends,
    reply: Option<u64>,
    message: Copies<'_>,
    answer: &mut Answer,
)
    requires entering { IsEntering (so_far state.old) thread }
    requires stand { OpenStand (so_far state.old) }
    requires waiting { OnlyBoundWait (so_far state.old) }
    requires few { length state.old.book.lines < BOOK_LINES }
    requires room { Fits state.old core thread
        (exchange_entry ends.target ends.source reply message) }
    ensures { Does state.old core thread
        (exchange_entry ends.target ends.source reply message.entry) answer.new state.new }
{
    state.is_sound();
    match ends_of_exchange(state, thread, ends.target, ends.source, reply) {
        Err(refusal) => *answer = Answer::Refused(refusal), // Nothing is sent yet.
        Ok(at) => {
            wake(state, thread);
            send_and_receive(state, thread, at, message, answer)
        }
    }
}
