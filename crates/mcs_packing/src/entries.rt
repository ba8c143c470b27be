//! Packed entries, of 16 bytes; messages, badges and large addresses are among the words.
ghost use Rattle.std.specs.Prelude.{◌≡◌, IfOk};
ghost use Rattle.mcs_types.specs.declared.entry.Entry.{Entry};
ghost use Rattle.mcs_packing.specs.Packing.{GrewHead, HasMessageRoom};
ghost use Rattle.mcs_packing.specs.Addresses.{AddressFits, address_of};
ghost use Rattle.mcs_packing.specs.Entries.{EntryFits, IsInvocation, sending, over_pair, over_address, over_place, place_of, entry_of};

use crate::addresses::{PackedAddress, address_at};
use crate::arena::{Arena, length_of, message_at};
use mcs_types::{Badge, Entry, Message, OutOfMemory, Place, Prio, Rights};
use std::alloc::Global;

/// The entries that send a message over one capability.
#[derive(Clone, Copy)]
pub enum Sending {
    Send,
    NbSend,
    Call,
}

/// The entries with two addresses.
#[derive(Clone, Copy)]
pub enum OverPair {
    Recv,
    NbRecv,
    BindNtfn,
    BindCtx,
}

/// The entries with one address.
#[derive(Clone, Copy)]
pub enum OverAddress {
    Wait,
    NbWait,
    Signal,
    Suspend,
    Resume,
    UnbindNtfn,
    UnbindCtx,
    CancelBadged,
}

/// The entries with one place, an index and a depth.
#[derive(Clone, Copy)]
pub enum OverPlace {
    DeleteCap,
    MakeEndpoint,
    MakeNotification,
    MakeReply,
    MakeContext,
}

/// A packed entry: `at` is the position among the words of a message with `len` words, or of a
/// badge. Addresses are in the order in which the entry has them, and a place is its depth and its
/// index.
#[derive(Clone, Copy)]
pub enum PackedEntry {
    Sends {
        form: Sending,
        len: u8,
        at: u32,
        cap: PackedAddress,
    },
    ReplyRecv {
        len: u8,
        at: u32,
        cap: PackedAddress,
        reply: PackedAddress,
    },
    /// The address of the reply object follows the message, as a badge would.
    NbSendRecv {
        len: u8,
        at: u32,
        cap: PackedAddress,
        source: PackedAddress,
    },
    NbSendWait {
        len: u8,
        at: u32,
        cap: PackedAddress,
        source: PackedAddress,
    },
    Pair(OverPair, PackedAddress, PackedAddress),
    Address(OverAddress, PackedAddress),
    AtPlace(OverPlace, u8, PackedAddress),
    SetPriority {
        priority: Prio,
        thread: PackedAddress,
        authority: PackedAddress,
    },
    CopyCap {
        source_depth: u8,
        dest_depth: u8,
        rights: Rights,
        source: PackedAddress,
        dest: PackedAddress,
    },
    MintCap {
        source_depth: u8,
        dest_depth: u8,
        rights: Rights,
        at: u32,
        source: PackedAddress,
        dest: PackedAddress,
    },
    MoveCap {
        source_depth: u8,
        dest_depth: u8,
        source: PackedAddress,
        dest: PackedAddress,
    },
}

const _: () = prove!(size_of::<PackedEntry>() == 16);

// Each form is inlined into `pack_entry`, but for the one that three entries share. The message is
// packed first, so that no packed address has to be saved across its call.

impl Arena {
    /// Packs an entry that sends a message.
    #[inline]
    fn pack_sending(
        &mut self,
        form: Sending,
        cap: u64,
        message: &Message,
        place: u32,
        into: &mut PackedEntry,
    )
        requires { HasMessageRoom self.old 1 }
        ensures value { entry_of into.new self.new.words.items ≡ sending form cap message.now }
        ensures fits { EntryFits into.new self.new.words.items }
        ensures grew { GrewHead self.old self.new }
    {
        let len = length_of(message);
        let at = self.share_plain(message, place);
        let cap = self.pack_address(cap);
        *into = PackedEntry::Sends { form, len, at, cap };
    }

    /// Packs an entry that answers a caller and receives.
    #[inline]
    fn pack_reply_recv(
        &mut self,
        cap: u64,
        reply: u64,
        message: &Message,
        place: u32,
        into: &mut PackedEntry,
    )
        requires { HasMessageRoom self.old 1 }
        ensures value { entry_of into.new self.new.words.items
            ≡ Entry.ReplyRecv cap reply message.now }
        ensures fits { EntryFits into.new self.new.words.items }
        ensures grew { GrewHead self.old self.new }
    {
        let len = length_of(message);
        let at = self.share_plain(message, place);
        let (cap, reply) = self.pack_two(cap, reply);
        *into = PackedEntry::ReplyRecv {
            len,
            at,
            cap,
            reply,
        };
    }

    /// Packs an entry that sends and receives, with the reply object after the message.
    fn pack_send_recv(
        &mut self,
        cap: u64,
        source: u64,
        reply: u64,
        message: &Message,
        place: u32,
        into: &mut PackedEntry,
    )
        requires { HasMessageRoom self.old 1 }
        ensures value { entry_of into.new self.new.words.items
            ≡ Entry.NbSendRecv cap source reply message.now }
        ensures fits { EntryFits into.new self.new.words.items }
        ensures grew { GrewHead self.old self.new }
    {
        let len = length_of(message);
        let at = self.share(message, Badge(reply), place);
        let (cap, source) = self.pack_two(cap, source);
        *into = PackedEntry::NbSendRecv {
            len,
            at,
            cap,
            source,
        };
    }

    /// Packs an entry that sends and waits.
    fn pack_send_wait(
        &mut self,
        cap: u64,
        source: u64,
        message: &Message,
        place: u32,
        into: &mut PackedEntry,
    )
        requires { HasMessageRoom self.old 1 }
        ensures value { entry_of into.new self.new.words.items
            ≡ Entry.NbSendWait cap source message.now }
        ensures fits { EntryFits into.new self.new.words.items }
        ensures grew { GrewHead self.old self.new }
    {
        let len = length_of(message);
        let at = self.share_plain(message, place);
        let (cap, source) = self.pack_two(cap, source);
        *into = PackedEntry::NbSendWait {
            len,
            at,
            cap,
            source,
        };
    }

    /// Packs an entry of two addresses.
    #[inline(always)]
    fn pack_pair(&mut self, form: OverPair, first: u64, second: u64, into: &mut PackedEntry)
        requires { HasMessageRoom self.old 1 }
        ensures value { entry_of into.new self.new.words.items ≡ over_pair form first second }
        ensures fits { EntryFits into.new self.new.words.items }
        ensures grew { GrewHead self.old self.new }
    {
        let (first, second) = self.pack_two(first, second);
        *into = PackedEntry::Pair(form, first, second);
    }

    /// Packs an entry of one address.
    #[inline(always)]
    fn pack_over(&mut self, form: OverAddress, address: u64, into: &mut PackedEntry)
        requires { HasMessageRoom self.old 1 }
        ensures value { entry_of into.new self.new.words.items ≡ over_address form address }
        ensures fits { EntryFits into.new self.new.words.items }
        ensures grew { GrewHead self.old self.new }
    {
        *into = PackedEntry::Address(form, self.pack_address(address));
    }

    /// Packs an entry of one place.
    #[inline(always)]
    fn pack_at(&mut self, form: OverPlace, place: &Place, into: &mut PackedEntry)
        requires { HasMessageRoom self.old 1 }
        ensures value { entry_of into.new self.new.words.items ≡ over_place form place.now }
        ensures fits { EntryFits into.new self.new.words.items }
        ensures grew { GrewHead self.old self.new }
    {
        *into = PackedEntry::AtPlace(form, place.depth, self.pack_address(place.index));
    }

    /// Packs an entry that sets a priority.
    #[inline(always)]
    fn pack_priority(&mut self, thread: u64, authority: u64, priority: Prio, into: &mut PackedEntry)
        requires { HasMessageRoom self.old 1 }
        ensures value { entry_of into.new self.new.words.items
            ≡ Entry.SetPriority thread authority priority }
        ensures fits { EntryFits into.new self.new.words.items }
        ensures grew { GrewHead self.old self.new }
    {
        let (thread, authority) = self.pack_two(thread, authority);
        *into = PackedEntry::SetPriority {
            priority,
            thread,
            authority,
        };
    }

    /// Packs an entry that copies a capability.
    #[inline(always)]
    fn pack_copy(&mut self, source: &Place, dest: &Place, rights: Rights, into: &mut PackedEntry)
        requires { HasMessageRoom self.old 1 }
        ensures value { entry_of into.new self.new.words.items
            ≡ Entry.CopyCap source.now dest.now rights }
        ensures fits { EntryFits into.new self.new.words.items }
        ensures grew { GrewHead self.old self.new }
    {
        let (from, to) = self.pack_two(source.index, dest.index);
        *into = PackedEntry::CopyCap {
            source_depth: source.depth,
            dest_depth: dest.depth,
            rights,
            source: from,
            dest: to,
        };
    }

    /// Packs an entry that copies a capability and gives it a badge.
    #[inline(always)]
    fn pack_mint(
        &mut self,
        source: &Place,
        dest: &Place,
        rights: Rights,
        badge: Badge,
        place: u32,
        into: &mut PackedEntry,
    )
        requires { HasMessageRoom self.old 1 }
        ensures value { entry_of into.new self.new.words.items
            ≡ Entry.MintCap source.now dest.now rights badge }
        ensures fits { EntryFits into.new self.new.words.items }
        ensures grew { GrewHead self.old self.new }
    {
        let at = self.share_word(badge.0, place);
        let (from, to) = self.pack_two(source.index, dest.index);
        *into = PackedEntry::MintCap {
            source_depth: source.depth,
            dest_depth: dest.depth,
            rights,
            at,
            source: from,
            dest: to,
        };
    }

    /// Packs an entry that moves a capability.
    #[inline(always)]
    fn pack_move(&mut self, source: &Place, dest: &Place, into: &mut PackedEntry)
        requires { HasMessageRoom self.old 1 }
        ensures value { entry_of into.new self.new.words.items ≡ Entry.MoveCap source.now dest.now }
        ensures fits { EntryFits into.new self.new.words.items }
        ensures grew { GrewHead self.old self.new }
    {
        let (from, to) = self.pack_two(source.index, dest.index);
        *into = PackedEntry::MoveCap {
            source_depth: source.depth,
            dest_depth: dest.depth,
            source: from,
            dest: to,
        };
    }

    /// Packs an invocation of an object into `into`.
    fn pack_invocation(&mut self, entry: &Entry, place: u32, into: &mut PackedEntry)
        requires room { HasMessageRoom self.old 1 }
        requires of { IsInvocation entry.now }
        ensures value { entry_of into.new self.new.words.items ≡ entry.now }
        ensures fits { EntryFits into.new self.new.words.items }
        ensures grew { GrewHead self.old self.new }
    {
        match entry {
            Entry::BindNtfn {
                thread,
                notification,
            } => self.pack_pair(OverPair::BindNtfn, *thread, *notification, into),
            Entry::BindCtx { context, thread } => {
                self.pack_pair(OverPair::BindCtx, *context, *thread, into)
            }
            Entry::Suspend { thread } => self.pack_over(OverAddress::Suspend, *thread, into),
            Entry::Resume { thread } => self.pack_over(OverAddress::Resume, *thread, into),
            Entry::UnbindNtfn { thread } => self.pack_over(OverAddress::UnbindNtfn, *thread, into),
            Entry::UnbindCtx { context } => self.pack_over(OverAddress::UnbindCtx, *context, into),
            Entry::CancelBadged { endpoint } => {
                self.pack_over(OverAddress::CancelBadged, *endpoint, into)
            }
            Entry::DeleteCap { place } => self.pack_at(OverPlace::DeleteCap, place, into),
            Entry::MakeEndpoint { place } => self.pack_at(OverPlace::MakeEndpoint, place, into),
            Entry::MakeNotification { place } => self.pack_at(
                OverPlace::MakeNotification,
                place,
                into,
            ),
            Entry::MakeReply { place } => self.pack_at(OverPlace::MakeReply, place, into),
            Entry::MakeContext { place } => self.pack_at(OverPlace::MakeContext, place, into),
            Entry::SetPriority {
                thread,
                authority,
                priority,
            } => self.pack_priority(*thread, *authority, *priority, into),
            Entry::CopyCap {
                source,
                dest,
                rights,
            } => self.pack_copy(source, dest, *rights, into),
            Entry::MintCap {
                source,
                dest,
                rights,
                badge,
            } => self.pack_mint(source, dest, *rights, *badge, place, into),
            Entry::MoveCap { source, dest } => self.pack_move(source, dest, into),
            _ => unreachable!(),
        }
    }

    /// Packs an entry into `into`; there must be room. Its message or its badge may already be at
    /// `place`. Earlier packed values keep their meaning.
    // inlined, except for invocations: so the entry is packed in its final place, and no pointer to
    // it is passed on
    #[inline(always)]
    pub fn pack_entry(&mut self, entry: &Entry, place: u32, into: &mut PackedEntry)
        requires { HasMessageRoom self.old 1 }
        ensures value { entry_of into.new self.new.words.items ≡ entry.now }
        ensures fits { EntryFits into.new self.new.words.items }
        ensures grew { GrewHead self.old self.new }
    {
        match entry {
            Entry::Send { cap, message } => self.pack_sending(
                Sending::Send,
                *cap,
                message,
                place,
                into,
            ),
            Entry::NbSend { cap, message } => self.pack_sending(
                Sending::NbSend,
                *cap,
                message,
                place,
                into,
            ),
            Entry::Call { cap, message } => self.pack_sending(
                Sending::Call,
                *cap,
                message,
                place,
                into,
            ),
            Entry::ReplyRecv {
                cap,
                reply,
                message,
            } => self.pack_reply_recv(*cap, *reply, message, place, into),
            Entry::NbSendRecv {
                cap,
                source,
                reply,
                message,
            } => self.pack_send_recv(*cap, *source, *reply, message, place, into),
            Entry::NbSendWait {
                cap,
                source,
                message,
            } => self.pack_send_wait(*cap, *source, message, place, into),
            Entry::Recv { cap, reply } => self.pack_pair(OverPair::Recv, *cap, *reply, into),
            Entry::NbRecv { cap, reply } => self.pack_pair(OverPair::NbRecv, *cap, *reply, into),
            Entry::Wait { cap } => self.pack_over(OverAddress::Wait, *cap, into),
            Entry::NbWait { cap } => self.pack_over(OverAddress::NbWait, *cap, into),
            Entry::Signal { cap } => self.pack_over(OverAddress::Signal, *cap, into),
            _ => self.pack_invocation(entry, place, into),
        }
    }
}

/// Returns the place with a packed index.
#[inline(always)]
pub fn place_at(words: &[u64], index: PackedAddress, depth: u8) -> Place
    requires { AddressFits index words.now }
    ensures { result ≡ place_of (address_of index words.now) depth }
{
    Place {
        index: address_at(words, index),
        depth,
    }
}

/// Returns the entry of this form that sends a message.
fn unpack_sending(form: Sending, cap: u64, message: Message) -> Entry
    ensures { result ≡ sending form cap message }
{
    match form {
        Sending::Send => Entry::Send { cap, message },
        Sending::NbSend => Entry::NbSend { cap, message },
        Sending::Call => Entry::Call { cap, message },
    }
}

/// Returns the entry of this form with two addresses.
fn unpack_pair(form: OverPair, first: u64, second: u64) -> Entry
    ensures { result ≡ over_pair form first second }
{
    match form {
        OverPair::Recv => Entry::Recv {
            cap: first,
            reply: second,
        },
        OverPair::NbRecv => Entry::NbRecv {
            cap: first,
            reply: second,
        },
        OverPair::BindNtfn => Entry::BindNtfn {
            thread: first,
            notification: second,
        },
        OverPair::BindCtx => Entry::BindCtx {
            context: first,
            thread: second,
        },
    }
}

/// Returns the entry of this form with one address.
fn unpack_address(form: OverAddress, address: u64) -> Entry
    ensures { result ≡ over_address form address }
{
    match form {
        OverAddress::Wait => Entry::Wait { cap: address },
        OverAddress::NbWait => Entry::NbWait { cap: address },
        OverAddress::Signal => Entry::Signal { cap: address },
        OverAddress::Suspend => Entry::Suspend { thread: address },
        OverAddress::Resume => Entry::Resume { thread: address },
        OverAddress::UnbindNtfn => Entry::UnbindNtfn { thread: address },
        OverAddress::UnbindCtx => Entry::UnbindCtx { context: address },
        OverAddress::CancelBadged => Entry::CancelBadged { endpoint: address },
    }
}

/// Returns the entry of this form over a place, the index and depth of a slot.
fn unpack_at(form: OverPlace, place: Place) -> Entry
    ensures { result ≡ over_place form place }
{
    match form {
        OverPlace::DeleteCap => Entry::DeleteCap { place },
        OverPlace::MakeEndpoint => Entry::MakeEndpoint { place },
        OverPlace::MakeNotification => Entry::MakeNotification { place },
        OverPlace::MakeReply => Entry::MakeReply { place },
        OverPlace::MakeContext => Entry::MakeContext { place },
    }
}

/// Unpacks an entry: a table, with a row for each form. A message of at most four words allocates
/// nothing.
pub fn unpack_entry(alloc: Global, entry: &PackedEntry, words: &[u64]) -> Result<Entry, OutOfMemory>
    requires { EntryFits entry.now words.now }
    ensures { IfOk result (λ e. e ≡ entry_of entry.now words.now) }
{
    Ok(match entry {
        PackedEntry::Sends { form, len, at, cap } => {
            unpack_sending(
                *form,
                address_at(words, *cap),
                message_at(alloc, words, *at, *len)?,
            )
        }
        PackedEntry::ReplyRecv {
            len,
            at,
            cap,
            reply,
        } => Entry::ReplyRecv {
            cap: address_at(words, *cap),
            reply: address_at(words, *reply),
            message: message_at(alloc, words, *at, *len)?,
        },
        PackedEntry::NbSendRecv {
            len,
            at,
            cap,
            source,
        } => Entry::NbSendRecv {
            cap: address_at(words, *cap),
            source: address_at(words, *source),
            reply: words[*at as usize + 1 + *len as usize],
            message: message_at(alloc, words, *at, *len)?,
        },
        PackedEntry::NbSendWait {
            len,
            at,
            cap,
            source,
        } => Entry::NbSendWait {
            cap: address_at(words, *cap),
            source: address_at(words, *source),
            message: message_at(alloc, words, *at, *len)?,
        },
        PackedEntry::Pair(form, first, second) => unpack_pair(
            *form,
            address_at(words, *first),
            address_at(words, *second),
        ),
        PackedEntry::Address(form, address) => unpack_address(*form, address_at(words, *address)),
        PackedEntry::AtPlace(form, depth, index) => unpack_at(
            *form,
            place_at(words, *index, *depth),
        ),
        PackedEntry::SetPriority {
            priority,
            thread,
            authority,
        } => Entry::SetPriority {
            thread: address_at(words, *thread),
            authority: address_at(words, *authority),
            priority: *priority,
        },
        PackedEntry::CopyCap {
            source_depth,
            dest_depth,
            rights,
            source,
            dest,
        } => Entry::CopyCap {
            source: place_at(words, *source, *source_depth),
            dest: place_at(words, *dest, *dest_depth),
            rights: *rights,
        },
        PackedEntry::MintCap {
            source_depth,
            dest_depth,
            rights,
            at,
            source,
            dest,
        } => Entry::MintCap {
            source: place_at(words, *source, *source_depth),
            dest: place_at(words, *dest, *dest_depth),
            rights: *rights,
            badge: Badge(words[*at as usize]),
        },
        PackedEntry::MoveCap {
            source_depth,
            dest_depth,
            source,
            dest,
        } => Entry::MoveCap {
            source: place_at(words, *source, *source_depth),
            dest: place_at(words, *dest, *dest_depth),
        },
    })
}
