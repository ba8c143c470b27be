//! The table of reply objects.
use super::names::{context, reply, thread};
use super::rows::{named, row_of};
use crate::tests::texts::NONE;
use mcs_replies::{Ended, Replies};
use mcs_types::{Ending, Kind, ObjId};
use std::test::Fail;

/// Returns the debt of a caller that ended, and topped the chain of a context or none.
fn ended(caller: u32, topped: u32) -> Option<Ended> {
    Some(Ended {
        caller: thread(caller),
        topped: named(Kind::Context, topped),
    })
}

/// Sets or clears the receiver of a reply object. Returns whether the object exists.
fn stand(replies: &mut Replies, id: ObjId, receiver: Option<ObjId>) -> bool {
    if !replies.is_there(id) {
        return false;
    }
    replies.set_receiver(id, receiver);
    replies.receiver(id) == receiver && replies.user(id) == replies.owed(id).or(receiver)
}

/// Closes a reply object without a user. Returns whether it was one.
fn close(replies: &mut Replies, id: ObjId) -> bool {
    if replies.receiver(id).is_some() || replies.owed(id).is_some() {
        return false;
    }
    if !replies.is_there(id) {
        return false;
    }
    replies.close(id);
    true
}

/// Returns whether a call is done, with the result that its numbers say.
fn is_done(replies: &mut Replies, call: &str, serial: u32, given: (u32, u32)) -> bool {
    let (id, (one, two)) = (reply(serial), given);
    match call {
        "add" => !replies.rows().is_full() && replies.add() == id,
        "owe" => replies.owe(id, thread(one), Some(context(two))),
        "pay" => replies.pay(id) == ended(one, two),
        "void" => replies.void(id, Ending::Deleted) == ended(one, two),
        "cancel" => replies.void(id, Ending::Cancelled) == ended(one, two),
        "stand" => stand(replies, id, named(Kind::Thread, one)),
        "close" => close(replies, id),
        _ => {
            replies.drop_chain(context(serial));
            true
        }
    }
}

/// Returns whether the chain of the first context is this, from the top.
fn is_chain(replies: &Replies, chain: &[u32]) -> bool {
    let mut links = replies.chain_of(context(1));
    for serial in chain {
        if links.next() != named(Kind::Reply, *serial) {
            return false;
        }
    }
    true
}

/// Returns whether these are the callers that the first three reply objects owe, and the chain of
/// the first context.
fn are_kept(replies: &Replies, kept: [u32; 12]) -> bool {
    replies.top_of(context(1)) == named(Kind::Reply, kept[3])
        && replies.owed(reply(1)) == named(Kind::Thread, kept[0])
        && replies.owed(reply(2)) == named(Kind::Thread, kept[1])
        && replies.owed(reply(3)) == named(Kind::Thread, kept[2])
        && is_chain(replies, &kept[3..])
}

/// Calls, whether they are done, then the callers that the first three reply objects owe, and the
/// chain of the first context. A reply object is made; owes a caller with a context; is paid,
/// deleted or cancelled, and topped the chain of a context; has a receiver or none; is closed. Or
/// the chain of a context is emptied. One on top is taken off; one below the top leaves with those
/// below.
const CALLS: &str = "\
add 1 = done - - -
add 2 = done - - -
add 3 = done - - -
owe 1 1 1 = done 1 - - 1
owe 2 2 1 = done 1 2 - 2 1
pay 2 2 1 = done 1 - - 1
owe 2 2 1 = done 1 2 - 2 1
cancel 2 2 1 = done 1 - -
pay 1 1 - = done - - -
owe 1 1 1 = done 1 - - 1
owe 2 2 1 = done 1 2 - 2 1
owe 3 3 1 = done 1 2 3 3 2 1
owe 2 3 2 = not 1 2 3 3 2 1
pay 2 2 - = done 1 - 3 3
pay 2 2 - = not 1 - 3 3
owe 2 2 1 = done 1 2 3 2 3
drop 1 = done 1 2 3
stand 2 4 = done 1 2 3
void 2 2 - = done 1 - 3
close 2 = not 1 - 3
stand 2 - = done 1 - 3
close 2 = done 1 - 3
";

/// Returns whether the call of a line is done or not, and the table agrees with it afterwards.
fn is_row(replies: &mut Replies, line: &str) -> bool {
    let Some(row) = row_of(line) else {
        return false;
    };
    let (call, answer) = (row.0, row.2);
    let given = row.1;
    let kept = row.3;
    is_done(replies, call, given[0], (given[1], given[2])) == (answer == "done")
        && are_kept(replies, kept)
}

#[test]
fn calls_on_reply_objects_answer(rt: HostRuntime) -> Result<(), Fail> {
    let mut replies = Replies::new(rt.alloc())?;
    for line in CALLS.lines() {
        assert!(rt; is_row(&mut replies, line), "{line}");
    }
    replies.are_chained();
    assert!(rt; replies.rows().given() == 3 && !replies.is_there(reply(2)));
    assert!(rt; is_done(&mut replies, "add", 4, (NONE, NONE)));
    Ok(())
}
