//! Passes a message directly to a receiver.
ghost use Rattle.std.specs.Prelude.{◌≡◌, ◌<◌, ◌∷◌, length, ◌+◌};
ghost use Rattle.mcs_types.specs.declared.record.Rec.{Rec};
ghost use Rattle.mcs_book.specs.Messages.{next_message};
ghost use Rattle.mcs_book.specs.Sound.{Allowed};
ghost use Rattle.mcs_state.specs.Now.{so_far, adds};

use super::State;
use mcs_object_queues::Waiting;
use mcs_packing::Lent;
use mcs_types::{BOOK_LINES, Badge, Copied, Copies, Mail, ObjId, Rec, SendMode};

impl<W: Waiting> State<W> {
    /// Passes a message of a thread on an endpoint directly to a receiver: it is never among the
    /// open messages.
    // inlined, so that the message is moved once, into the mail
    #[inline(always)]
    pub fn hands(
        &mut self,
        sender: ObjId,
        endpoint: ObjId,
        mode: SendMode,
        badge: Badge,
        message: Copies<'_>,
        receiver: ObjId,
    )
        requires sent { Allowed (so_far self.old) (Rec.Sent sender endpoint mode badge message) }
        requires taken { Allowed (Rec.Sent sender endpoint mode badge message ∷ so_far self.old)
            (Rec.Took (next_message (so_far self.old)) receiver) }
        requires few { length self.old.book.lines < BOOK_LINES }
        requires room { length self.old.hand + 2 < self.old.room }
        ensures { self.new ≡ adds (Rec.Took (next_message (so_far self.old)) receiver)
            (adds (Rec.Sent sender endpoint mode badge message.entry) self.old) }
    {
        let given = message.message;
        let Copied {
            noted,
            mail,
            answer: _,
        } = message.made();
        let lent = Lent {
            message: given,
            spare: noted,
        };
        self.book.note_sent(sender, endpoint, mode, badge, lent);
        self.book.note(Rec::Took {
            message: self.sent,
            thread: receiver,
        });
        self.sent += 1;
        let mail = Mail::Message {
            badge,
            message: mail,
        };
        self.threads.set_mail(receiver, mail).unwrap();
    }
}
