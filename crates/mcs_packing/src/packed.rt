//! Packed records, of 12 bytes: objects by serial, the words of messages by position.
ghost use Rattle.std.specs.Prelude.{◌≡◌, ◌+◌, IfSome, Some};
ghost use Rattle.mcs_types.specs.declared.record.Rec.{Rec};
ghost use Rattle.mcs_packing.specs.Packing.{FitsIn, Grew, HasRoom, IsPlain, Packs, object, queue_on, record_in};

use crate::arena::{Arena, length_of};
use crate::lent::Lent;
use mcs_types::{
    Badge, Cap, CoreId, Ending, Form, Kind, Message, Mode, OBJECTS, ObjId, Prio, Queue, Rec,
    Rights, SendMode,
};

/// Which queue of an object.
#[derive(Clone, Copy)]
pub enum Side {
    Senders,
    Receivers,
    Waiters,
}

/// A packed record. An object whose kind follows from the record is its serial, a thread its serial
/// less 1, and `at` is a position among the words.
#[derive(Clone, Copy)]
pub enum Packed {
    /// An object without properties was made.
    Made {
        kind: Kind,
        serial: u32,
    },
    /// A scheduling context of a core was made.
    MadeOn {
        core: CoreId,
        context: u32,
    },
    Closed {
        kind: Kind,
        serial: u32,
    },
    /// A slot holds no capability now.
    Emptied {
        index: u8,
        cnode: u32,
    },
    /// A slot holds a capability without a badge and a guard.
    Filled {
        index: u8,
        rights: Rights,
        kind: Kind,
        cnode: u32,
        serial: u32,
    },
    /// A slot holds a capability with a badge; the badge is among the words, followed by the serial
    /// of the slot's CNode.
    FilledBadged {
        index: u8,
        rights: Rights,
        kind: Kind,
        serial: u32,
        at: u32,
    },
    /// A slot holds a capability to a CNode with a guard of this many bits; the guard's value is
    /// among the words, followed by the serial of the slot's CNode.
    FilledGuarded {
        index: u8,
        rights: Rights,
        bits: u8,
        serial: u32,
        at: u32,
    },
    Prio {
        priority: Prio,
        thread: u8,
    },
    Turns {
        mode: Mode,
        thread: u8,
    },
    Joins {
        side: Side,
        thread: u8,
        object: u32,
    },
    /// A thread is in a queue with a reply object.
    JoinsWith {
        side: Side,
        thread: u8,
        object: u32,
        reply: u32,
    },
    Parts {
        side: Side,
        thread: u8,
        object: u32,
    },
    Sent {
        mode: SendMode,
        len: u8,
        sender: u8,
        endpoint: u32,
        at: u32,
    },
    Took {
        thread: u8,
        message: u32,
    },
    Dropped {
        message: u32,
    },
    /// A reply object owes a caller that brought no context.
    Owes {
        caller: u8,
        reply: u32,
    },
    /// A reply object owes a caller that brought a context.
    OwesWith {
        caller: u8,
        reply: u32,
        context: u32,
    },
    Paid {
        len: u8,
        caller: u8,
        reply: u32,
        at: u32,
    },
    Void {
        ending: Ending,
        caller: u8,
        reply: u32,
    },
    Held {
        thread: u8,
        context: u32,
    },
    /// No thread holds a context now.
    Unheld {
        context: u32,
    },
    /// A badge of at most 32 bits was signalled.
    Raised {
        notification: u32,
        badge: u32,
    },
    /// A larger badge was signalled, which is among the words.
    RaisedAt {
        notification: u32,
        at: u32,
    },
    Heard {
        thread: u8,
        notification: u32,
        at: u32,
    },
    Tied {
        thread: u8,
        notification: u32,
    },
    /// A thread is bound to no notification now.
    Untied {
        thread: u8,
    },
    Homed {
        context: u32,
        notification: u32,
    },
    /// A context is homed at no notification now.
    Unhomed {
        context: u32,
    },
    /// A record that fits none of these forms, at a position among the wide records.
    Wide {
        at: u32,
    },
}

const _: () = prove!(size_of::<Packed>() == 12);

/// The serial of an object of a kind.
#[inline(always)]
fn serial_of(id: &ObjId, kind: Kind) -> Option<u32>
    ensures { IfSome result (λ n. id.now ≡ record { kind = kind; serial = n }) }
{
    if id.kind.is_same(kind) {
        Some(id.serial)
    } else {
        None
    }
}

/// Returns the serial of a thread less 1, if it fits a byte: threads of legal books have the
/// serials 1 to 256.
#[inline(always)]
fn thread_of(id: &ObjId) -> Option<u8>
    ensures { IfSome result (λ t. id.now ≡ object Kind.Thread (t + 1)) }
{
    let before = id.serial.wrapping_sub(1);
    if id.kind.is_same(Kind::Thread) && before < OBJECTS as u32 {
        Some(before as u8)
    } else {
        None
    }
}

/// Returns which queue of its object it is, and the object's serial.
#[inline(always)]
fn side_of(queue: &Queue) -> Option<(Side, u32)>
    ensures { IfSome result (λ s. queue.now ≡ queue_on s.0 s.1) }
{
    Some(match queue {
        Queue::Senders(id) => (Side::Senders, serial_of(id, Kind::Endpoint)?),
        Queue::Receivers(id) => (Side::Receivers, serial_of(id, Kind::Endpoint)?),
        Queue::Waiters(id) => (Side::Waiters, serial_of(id, Kind::Notification)?),
    })
}

/// Packs a record of an object made or closed.
#[inline(always)]
fn pack_object(fact: &Rec) -> Option<Packed>
    ensures { IsPlain result fact.now }
{
    match fact {
        Rec::Made {
            object,
            form: Form::Plain,
        } => Some(Packed::Made {
            kind: object.kind,
            serial: object.serial,
        }),
        Rec::Made {
            object,
            form: Form::OnCore { core },
        } => Some(Packed::MadeOn {
            core: *core,
            context: serial_of(object, Kind::Context)?,
        }),
        Rec::Closed { object } => Some(Packed::Closed {
            kind: object.kind,
            serial: object.serial,
        }),
        _ => None,
    }
}

/// Packs a Joins record.
#[inline(always)]
fn pack_joins(thread: &ObjId, queue: &Queue, reply: &Option<ObjId>) -> Option<Packed>
    ensures { IsPlain result (Rec.Joins thread.now queue.now reply.now) }
{
    let thread = thread_of(thread)?;
    let (side, object) = side_of(queue)?;
    Some(match reply {
        None => Packed::Joins {
            side,
            thread,
            object,
        },
        Some(reply) => Packed::JoinsWith {
            side,
            thread,
            object,
            reply: serial_of(reply, Kind::Reply)?,
        },
    })
}

/// Packs an Owes record.
#[inline(always)]
fn pack_owes(reply: &ObjId, caller: &ObjId, context: &Option<ObjId>) -> Option<Packed>
    ensures { IsPlain result (Rec.Owes reply.now caller.now context.now) }
{
    let reply = serial_of(reply, Kind::Reply)?;
    let caller = thread_of(caller)?;
    Some(match context {
        None => Packed::Owes { caller, reply },
        Some(context) => Packed::OwesWith {
            caller,
            reply,
            context: serial_of(context, Kind::Context)?,
        },
    })
}

/// Packs a record of a thread's priority, mode or queue.
#[inline(always)]
fn pack_thread(fact: &Rec) -> Option<Packed>
    ensures { IsPlain result fact.now }
{
    Some(match fact {
        Rec::Prio { thread, priority } => Packed::Prio {
            priority: *priority,
            thread: thread_of(thread)?,
        },
        Rec::Turns { thread, mode } => Packed::Turns {
            mode: *mode,
            thread: thread_of(thread)?,
        },
        Rec::Joins {
            thread,
            queue,
            reply,
        } => return pack_joins(thread, queue, reply),
        Rec::Parts { thread, queue } => {
            let (side, object) = side_of(queue)?;
            Packed::Parts {
                side,
                thread: thread_of(thread)?,
                object,
            }
        }
        _ => return None,
    })
}

/// Packs a record of a message taken or dropped, or of a debt.
#[inline(always)]
fn pack_debt(fact: &Rec) -> Option<Packed>
    ensures { IsPlain result fact.now }
{
    Some(match fact {
        Rec::Took { message, thread } => Packed::Took {
            thread: thread_of(thread)?,
            message: *message,
        },
        Rec::Dropped { message } => Packed::Dropped { message: *message },
        Rec::Owes {
            reply,
            caller,
            context,
        } => return pack_owes(reply, caller, context),
        Rec::Void {
            reply,
            caller,
            ending,
        } => Packed::Void {
            ending: *ending,
            caller: thread_of(caller)?,
            reply: serial_of(reply, Kind::Reply)?,
        },
        _ => return None,
    })
}

/// Packs the holder of a context.
#[inline(always)]
fn pack_holds(context: &ObjId, thread: &Option<ObjId>) -> Option<Packed>
    ensures { IsPlain result (Rec.Holds context.now thread.now) }
{
    let context = serial_of(context, Kind::Context)?;
    Some(match thread {
        None => Packed::Unheld { context },
        Some(thread) => Packed::Held {
            thread: thread_of(thread)?,
            context,
        },
    })
}

/// Packs which notification a thread is bound to.
fn pack_tied(thread: &ObjId, notification: &Option<ObjId>) -> Option<Packed>
    ensures { IsPlain result (Rec.Tied thread.now notification.now) }
{
    let thread = thread_of(thread)?;
    Some(match notification {
        None => Packed::Untied { thread },
        Some(notification) => Packed::Tied {
            thread,
            notification: serial_of(notification, Kind::Notification)?,
        },
    })
}

/// Packs at which notification a context is homed.
fn pack_homed(context: &ObjId, notification: &Option<ObjId>) -> Option<Packed>
    ensures { IsPlain result (Rec.Homed context.now notification.now) }
{
    let context = serial_of(context, Kind::Context)?;
    Some(match notification {
        None => Packed::Unhomed { context },
        Some(notification) => Packed::Homed {
            context,
            notification: serial_of(notification, Kind::Notification)?,
        },
    })
}

/// Packs a badge of at most 32 bits that was signalled.
#[inline(always)]
fn pack_raised(notification: &ObjId, badge: Badge) -> Option<Packed>
    ensures { IsPlain result (Rec.Raised notification.now badge) }
{
    if badge.0 > u32::MAX as u64 {
        return None;
    }
    Some(Packed::Raised {
        notification: serial_of(notification, Kind::Notification)?,
        badge: badge.0 as u32,
    })
}

/// Packs a record of a context's holder or home, of a notification's thread, or of a small signal.
#[inline(always)]
fn pack_bond(fact: &Rec) -> Option<Packed>
    ensures { IsPlain result fact.now }
{
    match fact {
        Rec::Holds { context, thread } => pack_holds(context, thread),
        Rec::Raised {
            notification,
            badge,
        } => pack_raised(notification, *badge),
        Rec::Tied {
            thread,
            notification,
        } => pack_tied(thread, notification),
        Rec::Homed {
            context,
            notification,
        } => pack_homed(context, notification),
        _ => None,
    }
}

/// Packs a slot without a capability, or with one that has no badge and no guard.
#[inline(always)]
fn pack_filled(cnode: &ObjId, index: u8, cap: &Option<Cap>) -> Option<Packed>
    ensures { IsPlain result (Rec.Slot cnode.now index cap.now) }
{
    let cnode = serial_of(cnode, Kind::CNode)?;
    match cap {
        None => Some(Packed::Emptied { index, cnode }),
        Some(cap) => {
            if cap.badge.0 == 0 && cap.guard.bits == 0 && cap.guard.value == 0 {
                Some(Packed::Filled {
                    index,
                    rights: cap.rights,
                    kind: cap.obj.kind,
                    cnode,
                    serial: cap.obj.serial,
                })
            } else {
                None
            }
        }
    }
}

/// Packs a record that needs no words.
#[inline(always)]
fn pack_small(fact: &Rec) -> Option<Packed>
    ensures { IsPlain result fact.now }
{
    match fact {
        Rec::Made { .. } | Rec::Closed { .. } => pack_object(fact),
        Rec::Slot { cnode, index, cap } => pack_filled(cnode, *index, cap),
        Rec::Prio { .. } | Rec::Turns { .. } | Rec::Joins { .. } | Rec::Parts { .. } => {
            pack_thread(fact)
        }
        Rec::Took { .. } | Rec::Dropped { .. } | Rec::Owes { .. } | Rec::Void { .. } => {
            pack_debt(fact)
        }
        Rec::Holds { .. } | Rec::Raised { .. } | Rec::Tied { .. } | Rec::Homed { .. } => {
            pack_bond(fact)
        }
        _ => None,
    }
}

impl Arena {
    /// Packs a message that was sent.
    fn pack_sent(
        &mut self,
        sender: &ObjId,
        endpoint: &ObjId,
        mode: SendMode,
        badge: Badge,
        message: &Message,
    ) -> Option<Packed>
        requires { HasRoom self.old 1 }
        ensures { Packs self.old self.new result
            (Rec.Sent sender.now endpoint.now mode badge message.now) }
    {
        let sender = thread_of(sender)?;
        let endpoint = serial_of(endpoint, Kind::Endpoint)?;
        let len = length_of(message);
        let at = self.keep_with_badge(message, badge)?;
        Some(Packed::Sent {
            mode,
            len,
            sender,
            endpoint,
            at,
        })
    }

    /// Packs an answer to a caller.
    fn pack_paid(&mut self, reply: &ObjId, caller: &ObjId, message: &Message) -> Option<Packed>
        requires { HasRoom self.old 1 }
        ensures { Packs self.old self.new result (Rec.Paid reply.now caller.now message.now) }
    {
        let reply = serial_of(reply, Kind::Reply)?;
        let caller = thread_of(caller)?;
        let len = length_of(message);
        let at = self.keep(message)?;
        Some(Packed::Paid {
            len,
            caller,
            reply,
            at,
        })
    }

    /// Packs a word that was heard.
    fn pack_heard(&mut self, thread: &ObjId, notification: &ObjId, word: u64) -> Option<Packed>
        requires { HasRoom self.old 1 }
        ensures { Packs self.old self.new result (Rec.Heard thread.now notification.now word) }
    {
        let thread = thread_of(thread)?;
        let notification = serial_of(notification, Kind::Notification)?;
        let at = self.keep_word(word);
        Some(Packed::Heard {
            thread,
            notification,
            at,
        })
    }

    /// Packs a badge that was signalled, of any number of bits.
    fn pack_raised_at(&mut self, notification: &ObjId, badge: Badge) -> Option<Packed>
        requires { HasRoom self.old 1 }
        ensures { Packs self.old self.new result (Rec.Raised notification.now badge) }
    {
        let notification = serial_of(notification, Kind::Notification)?;
        let at = self.keep_word(badge.0);
        Some(Packed::RaisedAt { notification, at })
    }

    /// Packs a record of a slot with a capability that has either a badge, or is to a CNode and has
    /// a guard.
    fn pack_marked(&mut self, cnode: &ObjId, index: u8, cap: &Cap) -> Option<Packed>
        requires { HasRoom self.old 1 }
        ensures { Packs self.old self.new result (Rec.Slot cnode.now index (Some cap.now)) }
    {
        let cnode = serial_of(cnode, Kind::CNode)?;
        if cap.guard.bits == 0 && cap.guard.value == 0 {
            let at = self.keep_pair(cap.badge.0, cnode);
            return Some(Packed::FilledBadged {
                index,
                rights: cap.rights,
                kind: cap.obj.kind,
                serial: cap.obj.serial,
                at,
            });
        }
        if cap.badge.0 != 0 {
            return None;
        }
        let serial = serial_of(&cap.obj, Kind::CNode)?;
        let at = self.keep_pair(cap.guard.value, cnode);
        Some(Packed::FilledGuarded {
            index,
            rights: cap.rights,
            bits: cap.guard.bits,
            serial,
            at,
        })
    }

    /// Packs a record that needs words.
    #[inline(always)]
    fn pack_large(&mut self, fact: &Rec) -> Option<Packed>
        requires { HasRoom self.old 1 }
        ensures { Packs self.old self.new result fact.now }
    {
        match fact {
            Rec::Sent {
                sender,
                endpoint,
                mode,
                badge,
                message,
            } => self.pack_sent(sender, endpoint, *mode, *badge, message),
            Rec::Paid {
                reply,
                caller,
                message,
            } => self.pack_paid(reply, caller, message),
            Rec::Heard {
                thread,
                notification,
                word,
            } => self.pack_heard(thread, notification, *word),
            Rec::Raised {
                notification,
                badge,
            } => self.pack_raised_at(notification, *badge),
            Rec::Slot {
                cnode,
                index,
                cap: Some(cap),
            } => self.pack_marked(cnode, *index, cap),
            _ => None,
        }
    }

    /// Stores a Sent record unpacked.
    // not inlined, as `keep_paid`: so that a packed record stays in registers
    #[cold]
    #[inline(never)]
    fn keep_sent(
        &mut self,
        sender: ObjId,
        endpoint: ObjId,
        mode: SendMode,
        badge: Badge,
        message: Message,
    ) -> Packed
        requires { HasRoom self.old 1 }
        ensures value { record_in result self.new ≡ Rec.Sent sender endpoint mode badge message }
        ensures fits { FitsIn result self.new }
        ensures grew { Grew self.old self.new }
    {
        self.keep_wide(Rec::Sent {
            sender,
            endpoint,
            mode,
            badge,
            message,
        })
    }

    /// Stores a Paid record unpacked.
    #[cold]
    #[inline(never)]
    fn keep_paid(&mut self, reply: ObjId, caller: ObjId, message: Message) -> Packed
        requires { HasRoom self.old 1 }
        ensures value { record_in result self.new ≡ Rec.Paid reply caller message }
        ensures fits { FitsIn result self.new }
        ensures grew { Grew self.old self.new }
    {
        self.keep_wide(Rec::Paid {
            reply,
            caller,
            message,
        })
    }

    /// Packs a Sent record, as `pack` does; the message's words go to the arena without another
    /// copy.
    #[inline(always)]
    pub fn pack_lent_sent(
        &mut self,
        sender: ObjId,
        endpoint: ObjId,
        mode: SendMode,
        badge: Badge,
        message: Lent<'_>,
    ) -> Packed
        requires { HasRoom self.old 1 }
        ensures value { record_in result self.new
            ≡ Rec.Sent sender endpoint mode badge message.entry }
        ensures fits { FitsIn result self.new }
        ensures grew { Grew self.old self.new }
    {
        match self.pack_sent(&sender, &endpoint, mode, badge, message.message) {
            Some(packed) => packed,
            None => self.keep_sent(sender, endpoint, mode, badge, message.into_message()),
        }
    }

    /// Packs a Paid record, as `pack` does; the message's words go to the arena without another
    /// copy.
    #[inline(always)]
    pub fn pack_lent_paid(&mut self, reply: ObjId, caller: ObjId, message: Lent<'_>) -> Packed
        requires { HasRoom self.old 1 }
        ensures value { record_in result self.new ≡ Rec.Paid reply caller message.entry }
        ensures fits { FitsIn result self.new }
        ensures grew { Grew self.old self.new }
    {
        match self.pack_paid(&reply, &caller, message.message) {
            Some(packed) => packed,
            None => self.keep_paid(reply, caller, message.into_message()),
        }
    }

    /// Packs a record; there must be room. Earlier packed values keep their meaning. If the caller
    /// knows the kind of the record, the compiler keeps only that part of this function.
    #[inline(always)]
    pub fn pack(&mut self, fact: Rec) -> Packed
        requires { HasRoom self.old 1 }
        ensures value { record_in result self.new ≡ fact }
        ensures fits { FitsIn result self.new }
        ensures grew { Grew self.old self.new }
    {
        if let Some(packed) = pack_small(&fact) {
            return packed;
        }
        match self.pack_large(&fact) {
            Some(packed) => packed,
            None => self.keep_wide(fact),
        }
    }
}
