//! Messages lent to their record, so that only an unpacked record needs a copy.
ghost use Rattle.std.specs.Prelude.{◌≡◌};

use mcs_types::Message;
use std::marker::Model;

/// A borrowed message, with a spare copy if copying it would allocate. Clauses see the message.
#[derive(Drop)]
pub struct Lent<'a> {
    pub message: &'a Message,
    pub spare: Option<Box<Message>>,
}

impl<'a> Model for Lent<'a> {
    ghost use Rattle.mcs_types.specs.Messages.{IsSpare};
    ghost use Rattle.mcs_types.specs.Views.{Content};

    ghost Value = { Content };

    ghost view = { λ l. l.message.now };

    ghost invariant = { λ l. IsSpare l.spare l.message.now };
}

impl<'a> Lent<'a> {
    /// Returns an equal message, the spare one if there is one. It allocates nothing.
    #[inline(always)]
    pub fn into_message(self) -> Message
        ensures { result ≡ self.entry }
    {
        let Lent { message, spare } = self;
        message.spared(spare)
    }
}
