//! Debts of reply objects, from a call to its reply or its end.
ghost use Rattle.std.specs.Prelude.{◌≡◌, ◌<◌, true, IsSome, option_and_then, length, ◌+◌};
ghost use Rattle.mcs_types.specs.declared.record.Mail.{Mail};
ghost use Rattle.mcs_types.specs.declared.record.Rec.{Rec};
ghost use Rattle.mcs_book.specs.Chains.{topped_by};
ghost use Rattle.mcs_book.specs.Sound.{Allowed};
ghost use Rattle.mcs_replies.specs.Owing.{may_owe};
ghost use Rattle.mcs_threads.specs.Tables.{row_of};
ghost use Rattle.mcs_state.specs.Following.{AddsDebt, MailsFreed};
ghost use Rattle.mcs_state.specs.Now.{so_far, adds};

use super::State;
use mcs_object_queues::Waiting;
use mcs_packing::Lent;
use mcs_replies::{Ended, Replies};
use mcs_threads::{Block, Threads};
use mcs_types::{Badge, Copied, Copies, Ending, Mail, Message, ObjId, Rec};

/// Makes a reply object owe this caller; it must be free to.
fn owe(replies: &mut Replies, reply: ObjId, caller: ObjId, brought: Option<ObjId>)
    requires { may_owe replies.old reply ≡ true }
    ensures { AddsDebt reply caller brought replies.old replies.new }
{
    if !replies.owe(reply, caller, brought) {
        unreachable!();
    }
}

/// Returns the context whose chain the reply object of a debt topped, if any.
fn topped(ended: Option<Ended>) -> Option<ObjId>
    requires { IsSome ended }
    ensures { result ≡ option_and_then (λ e. e.topped) ended }
{
    ended.unwrap().topped
}

/// Gives an existing thread a reply, with badge 0 (own), and unblocks it.
fn answers(threads: &mut Threads, caller: ObjId, message: Message)
    requires { IsSome (row_of threads.old caller) }
    ensures { MailsFreed caller (Mail.Message (record { 0 = 0 }) message) threads.old threads.new }
{
    let badge = Badge(0);
    let mail = Mail::Message { badge, message };
    threads.set_mail(caller, mail).unwrap();
    threads.unblock(caller).unwrap();
}

impl<W: Waiting> State<W> {
    /// Makes a reply object owe a caller a reply; `brought` is the context that the caller brought
    /// (manual: Message Passing).
    pub fn owes(&mut self, reply: ObjId, caller: ObjId, brought: Option<ObjId>)
        requires allowed { Allowed (so_far self.old) (Rec.Owes reply caller brought) }
        requires room { length self.old.hand + 1 < self.old.room }
        ensures { self.new ≡ adds (Rec.Owes reply caller brought) self.old }
    {
        self.book.note(Rec::Owes {
            reply,
            caller,
            context: brought,
        });
        let block = Block::OnReply { reply };
        self.threads.block(caller, block).unwrap();
        owe(&mut self.replies, reply, caller, brought);
    }

    /// Replies to the caller that a reply object owes. Returns the context whose chain the reply
    /// object topped, if any (manual: Message Passing; chains are own).
    pub fn paid(&mut self, reply: ObjId, caller: ObjId, message: Copies<'_>) -> Option<ObjId>
        requires allowed { Allowed (so_far self.old) (Rec.Paid reply caller message) }
        requires room { length self.old.hand + 1 < self.old.room }
        ensures paid { self.new ≡ adds (Rec.Paid reply caller message.entry) self.old }
        ensures topped { result ≡ topped_by (so_far self.old) reply }
    {
        let given = message.message;
        let Copied {
            noted,
            mail,
            answer: _,
        } = message.made();
        let lent = Lent {
            message: given,
            spare: noted,
        };
        self.book.note_paid(reply, caller, lent);
        answers(&mut self.threads, caller, mail);
        topped(self.replies.pay(reply))
    }

    /// Voids the debt of a reply object. Returns what `paid` returns (manual: Message Passing;
    /// chains are own).
    pub fn voids(&mut self, reply: ObjId, caller: ObjId, how: Ending) -> Option<ObjId>
        requires allowed { Allowed (so_far self.old) (Rec.Void reply caller how) }
        requires room { length self.old.hand + 1 < self.old.room }
        ensures void { self.new ≡ adds (Rec.Void reply caller how) self.old }
        ensures topped { result ≡ topped_by (so_far self.old) reply }
    {
        self.book.note(Rec::Void {
            reply,
            caller,
            ending: how,
        });
        self.threads.unblock(caller).unwrap();
        topped(self.replies.void(reply, how))
    }
}
