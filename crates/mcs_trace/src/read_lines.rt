//! Lines that were read: the text of a message is copied from there.
ghost use Rattle.std.specs.Prelude.{◌≡◌, ◌≤◌, ◌∷◌, [], ◌++◌, IfSome, length};
ghost use Rattle.mcs_types.specs.declared.entry.Entry.{Entry};
ghost use Rattle.mcs_packing.specs.Entries.{sending};
ghost use Rattle.mcs_text.specs.Table.{step_by, step_text};
ghost use Rattle.mcs_text.specs.Keys.{key_text};
ghost use Rattle.mcs_trace.specs.Reading.{IsMessageText, IsAfter, front_text, sending_key};

use crate::numbers::number_length;
use crate::records::words_at;
use crate::rooms::{FRONT, KEY, MESSAGE};
use mcs_packing::{KeptStep, PackedEntry, Sending, address_at, id_of};
use mcs_text::{Entrant, Key};
use std::marker::Model;

/// A message as it is written: its label, its words, and the text of both if that was read.
#[derive(Clone, Copy)]
pub struct Wording<'a> {
    pub label: u64,
    pub words: &'a [u64],
    pub text: Option<&'a [u8]>,
}

/// Returns how many bytes a fixed word has.
#[inline(always)]
fn key_length(key: Key) -> usize
    ensures value { result ≡ length (key_text key) }
    ensures few { result ≤ KEY }
{
    key.text().len()
}

/// Returns how many bytes precede the message of an entry: the entering thread, the entry's word,
/// and an address.
#[inline(always)]
fn front_length(from: Entrant, key: Key, address: u64) -> usize
    ensures value { result ≡ length (front_text from key address) }
    ensures few { result ≤ FRONT }
{
    let core = number_length(from.core.0 as u64);
    let thread = number_length(from.thread.serial as u64);
    core + 2 + thread + 1 + key_length(key) + 1 + number_length(address)
}

/// Returns the key of an entry that sends a message.
#[inline(always)]
fn sending_key(form: Sending) -> Key
    ensures { result ≡ sending_key form }
{
    match form {
        Sending::Send => Key::Send,
        Sending::NbSend => Key::NbSend,
        Sending::Call => Key::Call,
    }
}

/// Returns the text of a message, if it is that of a line, after `front` bytes.
#[inline(always)]
fn text_after<'a>(
    line: &'a [u8],
    front: usize,
    read: (u64, &[u64]),
    label: u64,
    words: &[u64],
) -> Option<&'a [u8]>
    requires { IsAfter line.now front read.0 read.1.now }
    ensures { IfSome result (λ t. IsMessageText t.now label words.now) }
{
    let text = &line[front..];
    if label == read.0 && words == read.1 && text.len() <= MESSAGE {
        Some(text)
    } else {
        None
    }
}

/// Returns the text of a message, if it is that of the line of a step that sends.
#[inline(always)]
fn sent_text<'a>(
    line: &'a [u8],
    from: Entrant,
    form: Sending,
    address: u64,
    read: (u64, &[u64]),
    label: u64,
    words: &[u64],
) -> Option<&'a [u8]>
    requires { step_text (step_by from (sending form address
        (record { label = read.0; words = read.1.now }))) ≡ line.now ++ 10 ∷ [] }
    ensures { IfSome result (λ t. IsMessageText t.now label words.now) }
{
    let front = front_length(from, sending_key(form), address);
    text_after(line, front, read, label, words)
}

/// Returns the text of a message, if it is that of the line of a step that replies and receives.
#[inline(always)]
fn replied_text<'a>(
    line: &'a [u8],
    from: Entrant,
    cap: u64,
    reply: u64,
    read: (u64, &[u64]),
    label: u64,
    words: &[u64],
) -> Option<&'a [u8]>
    requires { step_text (step_by from (Entry.ReplyRecv cap reply
        (record { label = read.0; words = read.1.now }))) ≡ line.now ++ 10 ∷ [] }
    ensures { IfSome result (λ t. IsMessageText t.now label words.now) }
{
    let first = front_length(from, Key::ReplyRecv, cap);
    let last = number_length(reply);
    text_after(line, first + 1 + last, read, label, words)
}

/// A packed step, and the line from which it was read. Clauses see the step.
#[derive(Drop)]
pub struct ReadStep<'a> {
    pub step: KeptStep<'a>,
    pub line: &'a [u8],
}

impl<'a> Model for ReadStep<'a> {
    ghost use Rattle.std.specs.Prelude.{◌≡◌, ◌∷◌, [], ◌++◌};
    ghost use Rattle.mcs_types.specs.declared.entry.Step.{Step};
    ghost use Rattle.mcs_text.specs.Table.{step_text};

    ghost Value = { Step };

    ghost view = { λ r. r.step };

    ghost invariant = { λ r. step_text r.step ≡ r.line.now ++ 10 ∷ [] };
}

impl<'a> ReadStep<'a> {
    /// Returns the text of a message, if it is that of the step and follows one or two addresses.
    /// None claims nothing.
    #[inline(always)]
    pub fn message_text(&self, label: u64, words: &[u64]) -> Option<&[u8]>
        ensures { IfSome result (λ t. IsMessageText t.now label words.now) }
    {
        let from = Entrant {
            core: self.step.core,
            thread: id_of(self.step.kind, self.step.serial),
        };
        let kept = self.step.words;
        match self.step.entry {
            PackedEntry::Sends { form, len, at, cap } => {
                let read = (kept[*at as usize], words_at(kept, *at, *len));
                sent_text(
                    self.line,
                    from,
                    *form,
                    address_at(kept, *cap),
                    read,
                    label,
                    words,
                )
            }
            PackedEntry::ReplyRecv {
                len,
                at,
                cap,
                reply,
            } => {
                let read = (kept[*at as usize], words_at(kept, *at, *len));
                let (cap, reply) = (address_at(kept, *cap), address_at(kept, *reply));
                replied_text(self.line, from, cap, reply, read, label, words)
            }
            _ => None,
        }
    }
}
