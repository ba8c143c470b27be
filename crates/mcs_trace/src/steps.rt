//! Writes the lines of packed steps.
ghost use Rattle.std.specs.Prelude.{◌≡◌, ◌≤◌, ◌+◌, ◌++◌, length};
ghost use Rattle.mcs_trace.specs.Room.{HasRoom};
ghost use Rattle.mcs_text.specs.Table.{step_by, step_text};
ghost use Rattle.mcs_packing.specs.Entries.{EntryFits, entry_of, over_address, over_pair, over_place, sending};

use crate::line::Line;
use crate::records::words_at;
use crate::rooms::LINE;
use mcs_packing::{OverAddress, OverPair, OverPlace, PackedEntry, Sending, address_at, place_at};
use mcs_text::{Entrant, Key};
use mcs_types::{Badge, MESSAGE_WORDS, Place};

/// Writes the line of an entry that sends a message.
#[inline(always)]
fn write_sending(line: &mut Line, from: Entrant, form: Sending, cap: u64, label: u64, words: &[u64])
    requires few { length words.now ≤ MESSAGE_WORDS }
    requires room { HasRoom line.old LINE }
    ensures { line.new ≡ line.old ++ step_text (step_by from
        (sending form cap (record { label = label; words = words.now }))) }
{
    match form {
        Sending::Send => line.send(from, Key::Send, cap, label, words),
        Sending::NbSend => line.send(from, Key::NbSend, cap, label, words),
        Sending::Call => line.send(from, Key::Call, cap, label, words),
    }
}

/// Writes the line of an entry of two addresses.
#[inline(always)]
fn write_pair(line: &mut Line, from: Entrant, form: OverPair, first: u64, second: u64)
    requires { HasRoom line.old LINE }
    ensures { line.new ≡ line.old ++ step_text (step_by from (over_pair form first second)) }
{
    match form {
        OverPair::Recv => line.addresses(from, Key::Recv, first, second),
        OverPair::NbRecv => line.addresses(from, Key::NbRecv, first, second),
        OverPair::BindNtfn => line.addresses(from, Key::BindNtfn, first, second),
        OverPair::BindCtx => line.addresses(from, Key::Bind, first, second),
    }
}

/// Writes the line of an entry of one address.
#[inline(always)]
fn write_over_address(line: &mut Line, from: Entrant, form: OverAddress, address: u64)
    requires { HasRoom line.old LINE }
    ensures { line.new ≡ line.old ++ step_text (step_by from (over_address form address)) }
{
    match form {
        OverAddress::Wait => line.address(from, Key::Wait, address),
        OverAddress::NbWait => line.address(from, Key::NbWait, address),
        OverAddress::Signal => line.address(from, Key::Signal, address),
        OverAddress::Suspend => line.address(from, Key::Suspend, address),
        OverAddress::Resume => line.address(from, Key::Resume, address),
        OverAddress::UnbindNtfn => line.address(from, Key::UnbindNtfn, address),
        OverAddress::UnbindCtx => line.address(from, Key::Unbind, address),
        OverAddress::CancelBadged => line.address(from, Key::Cancel, address),
    }
}

/// Writes the line of an entry of one place.
fn write_at_place(line: &mut Line, from: Entrant, form: OverPlace, place: Place)
    requires { HasRoom line.old LINE }
    ensures { line.new ≡ line.old ++ step_text (step_by from (over_place form place)) }
{
    match form {
        OverPlace::DeleteCap => line.delete(from, place),
        OverPlace::MakeEndpoint => line.make(from, Key::Endpoint, place),
        OverPlace::MakeNotification => line.make(from, Key::Notification, place),
        OverPlace::MakeReply => line.make(from, Key::Reply, place),
        OverPlace::MakeContext => line.make(from, Key::Context, place),
    }
}

/// Writes the line of a packed entry: a table, with an arm for each form.
#[inline(always)]
pub fn write_kept_step(line: &mut Line, from: Entrant, entry: &PackedEntry, words: &[u64])
    requires fits { EntryFits entry.now words.now }
    requires room { HasRoom line.old LINE }
    ensures { line.new ≡ line.old ++ step_text (step_by from (entry_of entry.now words.now)) }
{
    match entry {
        PackedEntry::Sends { form, len, at, cap } => {
            let label = words[*at as usize];
            let rest = words_at(words, *at, *len);
            write_sending(line, from, *form, address_at(words, *cap), label, rest)
        }
        PackedEntry::ReplyRecv {
            len,
            at,
            cap,
            reply,
        } => {
            let label = words[*at as usize];
            let rest = words_at(words, *at, *len);
            let (cap, reply) = (address_at(words, *cap), address_at(words, *reply));
            line.send_receive(from, Key::ReplyRecv, cap, reply, label, rest)
        }
        PackedEntry::NbSendRecv {
            len,
            at,
            cap,
            source,
        } => {
            let label = words[*at as usize];
            let rest = words_at(words, *at, *len);
            let reply = words[*at as usize + 1 + *len as usize];
            let (cap, source) = (address_at(words, *cap), address_at(words, *source));
            line.exchange(from, cap, source, reply, label, rest)
        }
        PackedEntry::NbSendWait {
            len,
            at,
            cap,
            source,
        } => {
            let label = words[*at as usize];
            let rest = words_at(words, *at, *len);
            let (cap, source) = (address_at(words, *cap), address_at(words, *source));
            line.send_receive(from, Key::NbSendWait, cap, source, label, rest)
        }
        PackedEntry::Pair(form, first, second) => {
            let (first, second) = (address_at(words, *first), address_at(words, *second));
            write_pair(line, from, *form, first, second)
        }
        PackedEntry::Address(form, address) => {
            write_over_address(line, from, *form, address_at(words, *address))
        }
        PackedEntry::AtPlace(form, depth, index) => {
            write_at_place(line, from, *form, place_at(words, *index, *depth))
        }
        PackedEntry::SetPriority {
            priority,
            thread,
            authority,
        } => {
            let (thread, authority) = (address_at(words, *thread), address_at(words, *authority));
            line.priority(from, thread, authority, *priority)
        }
        PackedEntry::CopyCap {
            source_depth,
            dest_depth,
            rights,
            source,
            dest,
        } => {
            let places = (
                place_at(words, *source, *source_depth),
                place_at(words, *dest, *dest_depth),
            );
            line.copy(from, places, *rights)
        }
        PackedEntry::MintCap {
            source_depth,
            dest_depth,
            rights,
            at,
            source,
            dest,
        } => {
            let places = (
                place_at(words, *source, *source_depth),
                place_at(words, *dest, *dest_depth),
            );
            line.mint(from, places, *rights, Badge(words[*at as usize]))
        }
        PackedEntry::MoveCap {
            source_depth,
            dest_depth,
            source,
            dest,
        } => {
            let (source, dest) = (
                place_at(words, *source, *source_depth),
                place_at(words, *dest, *dest_depth),
            );
            line.move_cap(from, source, dest)
        }
    }
}
