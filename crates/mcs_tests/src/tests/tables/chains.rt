//! Chains of reply objects, beside a plain list of debts.
use super::names::{next_number, object};
use mcs_replies::{Ended, Replies};
use mcs_types::{Ending, Kind, OBJECTS, ObjId};
use std::alloc::Global;
use std::test::Fail;

/// How many calls the linked chains and the plain list get.
const CALLS: u32 = 10_000;

/// A debt: the caller, the reply object, and the context in whose chain it is.
#[derive(Clone, Copy)]
struct Debt {
    reply: ObjId,
    caller: ObjId,
    context: Option<ObjId>,
}

/// Returns one of 256 contexts. The serials of the last 64 are those of the first 64 plus 256.
fn context(number: u32) -> ObjId {
    let number = number % 256;
    let serial = if number < 192 {
        number + 1
    } else {
        number + 65
    };
    object(Kind::Context, serial)
}

/// A call on reply objects, which are named by their indices in a list; None is one that does not
/// exist.
#[derive(Clone, Copy)]
enum Call {
    Owe(Debt),
    Pay(ObjId),
    Void(ObjId, Ending),
    /// The chain of a context is emptied.
    Drop(ObjId),
    /// A new reply object replaces one that owes none.
    Renew(usize),
}

/// The model with which the links are compared: the debts of 256 reply objects, oldest first.
#[derive(Drop)]
struct Plain {
    replies: Vec<ObjId>,
    debts: Vec<Debt>,
}

/// Removes those of the oldest debts that are in the chain of a context from the chain.
fn unlink(debts: &mut [Debt], context: ObjId) {
    for debt in debts.iter_mut() {
        if debt.context == Some(context) {
            debt.context = None;
        }
    }
}

impl Plain {
    /// Makes 256 reply objects that owe none.
    fn new(alloc: Global, replies: &mut Replies) -> Result<Plain, Fail> {
        let mut made = Vec::new(alloc);
        for _ in 0..OBJECTS {
            if replies.rows().is_full() {
                return Err(Fail::from("no room for 256 reply objects"));
            }
            made.push(replies.add())?;
        }
        Ok(Plain {
            replies: made,
            debts: Vec::with_capacity(alloc, OBJECTS as usize)?,
        })
    }

    /// Returns the reply object at an index; one that does not exist if the index is too large.
    fn reply(&self, number: usize) -> ObjId {
        match self.replies.get(number) {
            Some(reply) => *reply,
            None => object(Kind::Reply, u32::MAX),
        }
    }

    /// Returns whether a reply object owes a caller.
    fn owes(&self, reply: ObjId) -> bool {
        self.debts.iter().any(|debt| debt.reply.is_same(reply))
    }

    /// The reply object on top of the chain of a context.
    fn top_of(&self, context: ObjId) -> Option<ObjId> {
        for debt in self.debts.iter().rev() {
            if debt.context == Some(context) {
                return Some(debt.reply);
            }
        }
        None
    }

    /// Adds a debt, unless its reply object owes already or does not exist.
    fn owe(&mut self, debt: Debt) -> bool {
        let is_there = self.replies.iter().any(|reply| reply.is_same(debt.reply));
        is_there && !self.owes(debt.reply) && self.debts.push(debt).is_ok()
    }

    /// Ends a debt in the chain of this context, with `older` debts before it, and returns what it
    /// leaves.
    fn leave(&mut self, context: ObjId, older: usize, how: Ending) -> Option<ObjId> {
        let middle = older.min(self.debts.len());
        let (below, above) = self.debts.split_at_mut(middle);
        let is_top = !above.iter().any(|debt| debt.context == Some(context));
        if how == Ending::Cancelled || !is_top {
            unlink(below, context);
        }
        is_top.then_some(context)
    }

    /// Ends the debt of a reply object, if there is one.
    fn end(&mut self, reply: ObjId, how: Ending) -> Option<Ended> {
        let at = self
            .debts
            .iter()
            .position(|debt| debt.reply.is_same(reply))?;
        let debt = self.debts.remove(at);
        let topped = match debt.context {
            Some(context) => self.leave(context, at, how),
            None => None,
        };
        Some(Ended {
            caller: debt.caller,
            topped,
        })
    }

    /// Replaces the reply object at an index.
    fn put(&mut self, number: usize, reply: ObjId) {
        if let Some(place) = self.replies.get_mut(number) {
            *place = reply;
        }
    }

    /// Returns the call for a random number. One chain in a thousand calls grows long, and in the
    /// next thousand there are many chains. One ending in four is of any reply object, the others
    /// are at the top.
    fn call(&self, call: u32, n: u64) -> Call {
        let many = if call / 1_000 % 2 == 0 { 1 } else { 256 };
        let context = context((n >> 36) as u32 % many);
        let number = (n >> 20) as usize % 256;
        let is_any = (n >> 44) % 4 == 0;
        let ending = if is_any {
            self.reply(number)
        } else {
            self.top_of(context).unwrap_or(self.reply(256))
        };
        match (n >> 56) % 16 {
            0..=9 => Call::Owe(Debt {
                reply: self.reply(number),
                caller: object(Kind::Thread, call),
                context: ((n >> 48) % 16 != 0).then_some(context),
            }),
            10..=13 => Call::Pay(ending),
            14 if is_any => Call::Void(ending, Ending::Cancelled),
            14 => Call::Void(ending, Ending::Deleted),
            _ if (n >> 44) % 16 == 0 => Call::Drop(context),
            _ => Call::Renew(number),
        }
    }

    /// Returns whether the chain of a context and its top agree.
    fn agrees(&self, replies: &Replies, context: ObjId) -> bool {
        let mut chain = replies.chain_of(context);
        for debt in self.debts.iter().rev() {
            if debt.context == Some(context) && chain.next() != Some(debt.reply) {
                return false;
            }
        }
        chain.next().is_none() && replies.top_of(context) == self.top_of(context)
    }
}

/// Replaces a reply object that owes none with a new one, if there is room. Returns whether the
/// links and the list agree about its debt.
fn renew(replies: &mut Replies, plain: &mut Plain, number: usize) -> bool {
    let reply = plain.reply(number);
    if replies.receiver(reply).is_none()
        && replies.owed(reply).is_none()
        && replies.is_there(reply)
    {
        replies.close(reply);
        if !replies.rows().is_full() {
            plain.put(number, replies.add());
        }
    }
    let reply = plain.reply(number);
    replies.owed(reply).is_some() == plain.owes(reply)
}

impl Call {
    /// Returns whether the links and the list give the call the same result.
    fn is_same(self, replies: &mut Replies, plain: &mut Plain) -> bool {
        match self {
            Call::Owe(debt) => {
                replies.owe(debt.reply, debt.caller, debt.context) == plain.owe(debt)
            }
            Call::Pay(reply) => replies.pay(reply) == plain.end(reply, Ending::Deleted),
            Call::Void(reply, how) => replies.void(reply, how) == plain.end(reply, how),
            Call::Drop(context) => {
                replies.drop_chain(context);
                unlink(&mut plain.debts, context);
                true
            }
            Call::Renew(number) => renew(replies, plain, number),
        }
    }
}

#[test]
fn links_and_a_list_agree(rt: HostRuntime) -> Result<(), Fail> {
    let mut replies = Replies::new(rt.alloc())?;
    let mut plain = Plain::new(rt.alloc(), &mut replies)?;
    let mut n = 1;
    for call in 0..CALLS {
        n = next_number(n);
        assert!(rt;
            plain.call(call, n).is_same(&mut replies, &mut plain),
            "call {call}"
        );
        for number in 0..256 {
            assert!(rt;
                plain.agrees(&replies, context(number)),
                "chain {number} after call {call}"
            );
        }
    }
    Ok(())
}
