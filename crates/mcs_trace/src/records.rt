//! Writes the lines of packed records and answers.
ghost use Rattle.std.specs.Prelude.{◌≡◌, ◌≤◌, ◌+◌, ◌++◌, IfSome, length};
ghost use Rattle.mcs_trace.specs.Room.{HasRoom};
ghost use Rattle.mcs_trace.specs.Reading.{IsMessageText};
ghost use Rattle.mcs_text.specs.Table.{record_text, answer_text};
ghost use Rattle.mcs_packing.specs.Packing.{Fits, IsMessageAt, IsOfBond, IsOfDebt, IsOfMarked, IsOfMessage, IsOfObject, IsOfSlot, IsOfThread, IsOfWord, content_at, record_of, object};
ghost use Rattle.mcs_packing.specs.Heads.{AnswerFits, answer_of};

use crate::line::Line;
use crate::read_lines::{ReadStep, Wording};
use crate::rooms::LINE;
use mcs_packing::{
    AnswerForm, KeptStep, Packed, guarded, id_of, plain, queue_of, serial_behind, thread_id,
};
use mcs_text::Key;
use mcs_types::{Cap, Kind, MESSAGE_WORDS, Message, Rec};

/// Returns the words of a message at a position.
#[inline(always)]
pub fn words_at(words: &[u64], at: u32, len: u8) -> &[u64]
    requires { IsMessageAt words.now at len }
    ensures value { result.now ≡ (content_at words.now at len).words }
    ensures few { length result.now ≤ MESSAGE_WORDS }
{
    let start = at as usize + 1;
    &words[start..start + len as usize]
}

/// Writes the line of a slot.
// inlined: callers know which fields of a capability are 0
#[inline(always)]
fn write_slot(line: &mut Line, cnode: u32, index: u8, cap: Option<Cap>)
    requires { HasRoom line.old LINE }
    ensures { line.new ≡ line.old ++ record_text 0 (Rec.Slot (object Kind.CNode cnode) index cap) }
{
    line.slot(id_of(Kind::CNode, cnode), index, cap)
}

/// Writes the record of what was made or ended.
fn write_object(line: &mut Line, sent: u128, packed: &Packed, words: &[u64], wide: &[Rec])
    requires of { IsOfObject packed.now }
    requires room { HasRoom line.old LINE }
    ensures { line.new ≡ line.old ++ record_text sent (record_of packed.now words.now wide.now) }
{
    match packed {
        Packed::Made { kind, serial } => line.named(Key::Made, id_of(*kind, *serial)),
        Packed::MadeOn { core: _, context } => {
            line.named(Key::Made, id_of(Kind::Context, *context))
        }
        Packed::Closed { kind, serial } => line.named(Key::Closed, id_of(*kind, *serial)),
        _ => unreachable!(),
    }
}

/// Writes the record of a slot without a capability, or with one that has no badge and no guard.
fn write_plain_slot(line: &mut Line, sent: u128, packed: &Packed, words: &[u64], wide: &[Rec])
    requires of { IsOfSlot packed.now }
    requires room { HasRoom line.old LINE }
    ensures { line.new ≡ line.old ++ record_text sent (record_of packed.now words.now wide.now) }
{
    match packed {
        Packed::Emptied { index, cnode } => write_slot(line, *cnode, *index, None),
        Packed::Filled {
            index,
            rights,
            kind,
            cnode,
            serial,
        } => {
            let cap = plain(id_of(*kind, *serial), *rights, 0);
            write_slot(line, *cnode, *index, Some(cap))
        }
        _ => unreachable!(),
    }
}

/// Writes the record of a thread's mode or queue.
#[inline(always)]
fn write_thread(line: &mut Line, sent: u128, packed: &Packed, words: &[u64], wide: &[Rec])
    requires of { IsOfThread packed.now }
    requires room { HasRoom line.old LINE }
    ensures { line.new ≡ line.old ++ record_text sent (record_of packed.now words.now wide.now) }
{
    match packed {
        Packed::Prio { priority, thread } => {
            let thread = thread_id(*thread);
            line.object_number(Key::Prio, thread, priority.0 as u64)
        }
        Packed::Turns { mode, thread } => line.turns(thread_id(*thread), *mode),
        Packed::Joins {
            side,
            thread,
            object,
        } => {
            let thread = thread_id(*thread);
            line.joins(thread, queue_of(*side, *object), None)
        }
        Packed::JoinsWith {
            side,
            thread,
            object,
            reply,
        } => {
            let thread = thread_id(*thread);
            let reply = id_of(Kind::Reply, *reply);
            line.joins(thread, queue_of(*side, *object), Some(reply))
        }
        Packed::Parts {
            side,
            thread,
            object,
        } => {
            let thread = thread_id(*thread);
            line.stands(Key::Parts, thread, queue_of(*side, *object))
        }
        _ => unreachable!(),
    }
}

/// Writes the record of what became of a message, and of the debt for it.
#[inline(always)]
fn write_debt(line: &mut Line, sent: u128, packed: &Packed, words: &[u64], wide: &[Rec])
    requires of { IsOfDebt packed.now }
    requires room { HasRoom line.old LINE }
    ensures { line.new ≡ line.old ++ record_text sent (record_of packed.now words.now wide.now) }
{
    match packed {
        Packed::Took { thread, message } => { line.took(*message, thread_id(*thread)) }
        Packed::Dropped { message } => line.dropped(*message),
        Packed::Owes { caller, reply } => {
            let (reply, caller) = (id_of(Kind::Reply, *reply), thread_id(*caller));
            line.owes(reply, caller, None)
        }
        Packed::OwesWith {
            caller,
            reply,
            context,
        } => {
            let (reply, caller) = (id_of(Kind::Reply, *reply), thread_id(*caller));
            line.owes(reply, caller, Some(id_of(Kind::Context, *context)))
        }
        Packed::Void {
            ending,
            caller,
            reply,
        } => {
            let (reply, caller) = (id_of(Kind::Reply, *reply), thread_id(*caller));
            line.void(reply, caller, *ending)
        }
        _ => unreachable!(),
    }
}

/// Writes the record of which thread holds a context, is bound to a notification, or of what was
/// signalled.
fn write_bond(line: &mut Line, sent: u128, packed: &Packed, words: &[u64], wide: &[Rec])
    requires of { IsOfBond packed.now }
    requires room { HasRoom line.old LINE }
    ensures { line.new ≡ line.old ++ record_text sent (record_of packed.now words.now wide.now) }
{
    match packed {
        Packed::Held { thread, context } => {
            let thread = thread_id(*thread);
            line.bound(Key::Holds, id_of(Kind::Context, *context), Some(thread))
        }
        Packed::Unheld { context } => {
            line.bound(Key::Holds, id_of(Kind::Context, *context), None)
        }
        Packed::Raised {
            notification,
            badge,
        } => {
            let notification = id_of(Kind::Notification, *notification);
            line.object_number(Key::Raised, notification, *badge as u64)
        }
        Packed::Tied {
            thread,
            notification,
        } => {
            let notification = id_of(Kind::Notification, *notification);
            line.bound(Key::Tied, thread_id(*thread), Some(notification))
        }
        Packed::Untied { thread } => { line.bound(Key::Tied, thread_id(*thread), None) }
        Packed::Homed {
            context,
            notification,
        } => {
            let notification = id_of(Kind::Notification, *notification);
            line.bound(
                Key::Homed,
                id_of(Kind::Context, *context),
                Some(notification),
            )
        }
        Packed::Unhomed { context } => {
            line.bound(Key::Homed, id_of(Kind::Context, *context), None)
        }
        _ => unreachable!(),
    }
}

/// Writes the record of a slot with a capability that has a badge or a guard.
fn write_marked_slot(line: &mut Line, sent: u128, packed: &Packed, words: &[u64], wide: &[Rec])
    requires of { IsOfMarked packed.now }
    requires fits { Fits packed.now words.now wide.now }
    requires room { HasRoom line.old LINE }
    ensures { line.new ≡ line.old ++ record_text sent (record_of packed.now words.now wide.now) }
{
    match packed {
        Packed::FilledBadged {
            index,
            rights,
            kind,
            serial,
            at,
        } => {
            let cap = plain(id_of(*kind, *serial), *rights, words[*at as usize]);
            write_slot(line, serial_behind(words, *at), *index, Some(cap))
        }
        Packed::FilledGuarded {
            index,
            rights,
            bits,
            serial,
            at,
        } => {
            let cap = guarded(*serial, *rights, *bits, words[*at as usize]);
            write_slot(line, serial_behind(words, *at), *index, Some(cap))
        }
        _ => unreachable!(),
    }
}

/// Writes a record that keeps one word: what was signalled or heard.
fn write_word(line: &mut Line, sent: u128, packed: &Packed, words: &[u64], wide: &[Rec])
    requires of { IsOfWord packed.now }
    requires fits { Fits packed.now words.now wide.now }
    requires room { HasRoom line.old LINE }
    ensures { line.new ≡ line.old ++ record_text sent (record_of packed.now words.now wide.now) }
{
    match packed {
        Packed::RaisedAt { notification, at } => {
            let notification = id_of(Kind::Notification, *notification);
            line.object_number(Key::Raised, notification, words[*at as usize])
        }
        Packed::Heard {
            thread,
            notification,
            at,
        } => {
            let thread = thread_id(*thread);
            let notification = id_of(Kind::Notification, *notification);
            line.heard(thread, notification, words[*at as usize])
        }
        _ => unreachable!(),
    }
}

/// Returns the text of a message, if an equal one was read.
#[inline(always)]
fn text_of<'a>(read: Option<&'a ReadStep<'_>>, label: u64, words: &[u64]) -> Option<&'a [u8]>
    ensures { IfSome result (λ t. IsMessageText t.now label words.now) }
{
    match read {
        Some(read) => read.message_text(label, words),
        None => None,
    }
}

/// Writes the record of a message sent or of a reply. Its text is copied from this step's line, if
/// it is the same.
#[inline(never)]
fn write_message_of(
    line: &mut Line,
    sent: u128,
    packed: &Packed,
    words: &[u64],
    wide: &[Rec],
    read: Option<&ReadStep<'_>>,
)
    requires of { IsOfMessage packed.now }
    requires fits { Fits packed.now words.now wide.now }
    requires room { HasRoom line.old LINE }
    ensures { line.new ≡ line.old ++ record_text sent (record_of packed.now words.now wide.now) }
{
    match packed {
        Packed::Sent {
            mode,
            len,
            sender,
            endpoint,
            at,
        } => {
            let between = (thread_id(*sender), id_of(Kind::Endpoint, *endpoint));
            let badge = words[*at as usize + 1 + *len as usize];
            let label = words[*at as usize];
            let words = words_at(words, *at, *len);
            let text = text_of(read, label, words);
            let message = Wording { label, words, text };
            line.sent(sent, between, *mode, badge, message)
        }
        Packed::Paid {
            len,
            caller,
            reply,
            at,
        } => {
            let (reply, caller) = (id_of(Kind::Reply, *reply), thread_id(*caller));
            let label = words[*at as usize];
            let words = words_at(words, *at, *len);
            let text = text_of(read, label, words);
            let message = Wording { label, words, text };
            line.paid(reply, caller, message)
        }
        _ => unreachable!(),
    }
}

/// Writes the record of a message sent or of a reply, without a step that was read.
#[inline(never)]
fn write_message(line: &mut Line, sent: u128, packed: &Packed, words: &[u64], wide: &[Rec])
    requires of { IsOfMessage packed.now }
    requires fits { Fits packed.now words.now wide.now }
    requires room { HasRoom line.old LINE }
    ensures { line.new ≡ line.old ++ record_text sent (record_of packed.now words.now wide.now) }
{
    write_message_of(line, sent, packed, words, wide, None)
}

/// Writes the record of a message sent or of a reply. Its text is copied from the line of this
/// step, which was read, if it is the same.
// copies the step for the call, so that its parts stay in registers for other records
#[inline(always)]
fn write_read_message(
    line: &mut Line,
    sent: u128,
    packed: &Packed,
    words: &[u64],
    wide: &[Rec],
    read: &ReadStep<'_>,
)
    requires of { IsOfMessage packed.now }
    requires fits { Fits packed.now words.now wide.now }
    requires room { HasRoom line.old LINE }
    ensures { line.new ≡ line.old ++ record_text sent (record_of packed.now words.now wide.now) }
{
    let step = KeptStep {
        core: read.step.core,
        kind: read.step.kind,
        serial: read.step.serial,
        entry: read.step.entry,
        words: read.step.words,
    };
    let copy = ReadStep {
        step,
        line: read.line,
    };
    write_message_of(line, sent, packed, words, wide, Some(&copy))
}

/// Returns a message of which no text was read.
#[inline(always)]
fn unread(message: &Message) -> Wording<'_>
    ensures label { result.label ≡ message.now.label }
    ensures words { result.words.now ≡ message.now.words }
    ensures few { length result.words.now ≤ MESSAGE_WORDS }
    ensures text { result.text ≡ None }
{
    message.is_in_range();
    Wording {
        label: message.label(),
        words: message.words(),
        text: None,
    }
}

/// Writes the line of an unpacked record, before which `sent` messages were sent: a table, with an
/// arm for each record.
fn write_record(line: &mut Line, sent: u128, fact: &Rec)
    requires { HasRoom line.old LINE }
    ensures { line.new ≡ line.old ++ record_text sent fact.now }
{
    match fact {
        Rec::Made { object, form: _ } => line.named(Key::Made, *object),
        Rec::Closed { object } => line.named(Key::Closed, *object),
        Rec::Slot { cnode, index, cap } => line.slot(*cnode, *index, *cap),
        Rec::Prio { thread, priority } => line.object_number(Key::Prio, *thread, priority.0 as u64),
        Rec::Turns { thread, mode } => line.turns(*thread, *mode),
        Rec::Joins {
            thread,
            queue,
            reply,
        } => line.joins(*thread, *queue, *reply),
        Rec::Parts { thread, queue } => { line.stands(Key::Parts, *thread, *queue) }
        Rec::Sent {
            sender,
            endpoint,
            mode,
            badge,
            message,
        } => {
            let between = (*sender, *endpoint);
            line.sent(sent, between, *mode, badge.0, unread(message))
        }
        Rec::Took { message, thread } => { line.took(*message, *thread) }
        Rec::Dropped { message } => line.dropped(*message),
        Rec::Owes {
            reply,
            caller,
            context,
        } => line.owes(*reply, *caller, *context),
        Rec::Paid {
            reply,
            caller,
            message,
        } => line.paid(*reply, *caller, unread(message)),
        Rec::Void {
            reply,
            caller,
            ending,
        } => line.void(*reply, *caller, *ending),
        Rec::Holds { context, thread } => { line.bound(Key::Holds, *context, *thread) }
        Rec::Raised {
            notification,
            badge,
        } => line.object_number(Key::Raised, *notification, badge.0),
        Rec::Heard {
            thread,
            notification,
            word,
        } => line.heard(*thread, *notification, *word),
        Rec::Tied {
            thread,
            notification,
        } => line.bound(Key::Tied, *thread, *notification),
        Rec::Homed {
            context,
            notification,
        } => line.bound(Key::Homed, *context, *notification),
    }
}

/// Writes the line of a packed record, before which `sent` messages were sent. The text of a
/// message that was read is copied.
#[inline(always)]
pub fn write_kept(
    line: &mut Line,
    sent: u128,
    packed: &Packed,
    words: &[u64],
    wide: &[Rec],
    read: Option<&ReadStep<'_>>,
)
    requires fits { Fits packed.now words.now wide.now }
    requires room { HasRoom line.old LINE }
    ensures { line.new ≡ line.old ++ record_text sent (record_of packed.now words.now wide.now) }
{
    match packed {
        Packed::Made { .. } | Packed::MadeOn { .. } | Packed::Closed { .. } => {
            write_object(line, sent, packed, words, wide)
        }
        Packed::Emptied { .. } | Packed::Filled { .. } => {
            write_plain_slot(line, sent, packed, words, wide)
        }
        Packed::Prio { .. }
        | Packed::Turns { .. }
        | Packed::Joins { .. }
        | Packed::JoinsWith { .. }
        | Packed::Parts { .. } => write_thread(line, sent, packed, words, wide),
        Packed::Took { .. }
        | Packed::Dropped { .. }
        | Packed::Owes { .. }
        | Packed::OwesWith { .. }
        | Packed::Void { .. } => write_debt(line, sent, packed, words, wide),
        Packed::Held { .. }
        | Packed::Unheld { .. }
        | Packed::Raised { .. }
        | Packed::Tied { .. }
        | Packed::Untied { .. }
        | Packed::Homed { .. }
        | Packed::Unhomed { .. } => write_bond(line, sent, packed, words, wide),
        Packed::FilledBadged { .. } | Packed::FilledGuarded { .. } => {
            write_marked_slot(line, sent, packed, words, wide)
        }
        Packed::RaisedAt { .. } | Packed::Heard { .. } => {
            write_word(line, sent, packed, words, wide)
        }
        Packed::Sent { .. } | Packed::Paid { .. } => match read {
            None => write_message(line, sent, packed, words, wide),
            Some(read) => write_read_message(line, sent, packed, words, wide, read),
        },
        Packed::Wide { at } => write_record(line, sent, &wide[*at as usize]),
    }
}

/// Writes the line of a packed answer.
#[inline(always)]
pub fn write_kept_answer(line: &mut Line, form: AnswerForm, at: u32, words: &[u64])
    requires fits { AnswerFits form at words.now }
    requires room { HasRoom line.old LINE }
    ensures { line.new ≡ line.old ++ answer_text (answer_of form at words.now) }
{
    match form {
        AnswerForm::Done => line.bare(Key::Done),
        AnswerForm::Got { len } => {
            let badge = words[at as usize + 1 + len as usize];
            let label = words[at as usize];
            line.got(badge, label, words_at(words, at, len))
        }
        AnswerForm::Heard => line.numbered(Key::HeardWord, words[at as usize]),
        AnswerForm::Empty => line.bare(Key::Empty),
        AnswerForm::Waits => line.bare(Key::Waits),
        AnswerForm::Refused(refusal) => line.numbered(Key::Refused, refusal.number() as u64),
    }
}
