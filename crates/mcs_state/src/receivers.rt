//! Sets the receivers of reply objects.
ghost use Rattle.std.specs.Prelude.{◌≡◌, true, IfSome};
ghost use Rattle.mcs_replies.specs.Owing.{is_there};
ghost use Rattle.mcs_state.specs.Following.{SetsAny, attended};

use mcs_replies::Replies;
use mcs_types::{ObjId, Queue};

/// Returns the reply object with which a thread is queued: only receivers have one.
pub fn attended(queue: Queue, reply: Option<ObjId>) -> Option<ObjId>
    ensures { result ≡ attended queue reply }
{
    match queue {
        Queue::Receivers(_) => reply,
        Queue::Senders(_) | Queue::Waiters(_) => None,
    }
}

/// Sets the receiver of an existing reply object, if one is named.
// inlined: callers know whether a reply object is named
#[inline(always)]
pub fn attend(replies: &mut Replies, reply: Option<ObjId>, receiver: Option<ObjId>)
    requires { IfSome reply (λ r. is_there replies.old r ≡ true) }
    ensures { SetsAny reply receiver replies.old replies.new }
{
    match reply {
        None => {}
        Some(reply) => replies.set_receiver(reply, receiver),
    }
}
