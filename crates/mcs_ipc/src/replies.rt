//! Replies to callers.
ghost use Rattle.mcs_book.specs.Taking.{pay as paid};
ghost use Rattle.mcs_state.specs.Now.{so_far};
ghost use Rattle.mcs_state.specs.Doing.{Makes, HasRoomFor};

use mcs_object_queues::Waiting;
use mcs_state::{State, give_back};
use mcs_types::{Copies, Mode, ObjId};

/// Answers the caller that a reply object owes, if it owes one: the caller runs again. A reply
/// object on top of a chain returns the context of that chain (manual: Message Passing; own).
pub fn pay<W: Waiting>(state: &mut State<W>, reply: ObjId, message: Copies<'_>)
    requires { HasRoomFor (paid reply message) state.old }
    ensures { Makes (paid reply message.entry) state.old state.new }
{
    state.is_sound();
    match state.owed(reply) {
        None => {}
        Some(caller) => {
            let lent = state.paid(reply, caller, message);
            state.turns(caller, Mode::Running);
            give_back(state, lent, caller);
        }
    }
}
