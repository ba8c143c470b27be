//! The kernel's answers to questions, spelled as questions are.
ghost use Rattle.std.specs.Prelude.{◌≡◌, ◌++◌, OnOk, option_copied};
ghost use Rattle.std.specs.List.{flat_map};
ghost use Rattle.mcs_text.specs.Spelling.{name_text, maybe_text, then_text};
ghost use Rattle.mcs_book.specs.History.{log_of};
ghost use Rattle.mcs_book.specs.Chains.{chain_of};
ghost use Rattle.mcs_book.specs.Queues.{queued_in};
ghost use Rattle.mcs_lab_check.specs.Seen.{begin, names_or_dash, number_or_dash, content_text, owed_text, status_text, mail_text, answered_text, level, seen};

use crate::fault::LabFault;
use crate::questions::Question;
use crate::text::Text;
use mcs_kernel::Kernel;
use mcs_queues::LinkedLines;
use mcs_text::{Key, Token};
use mcs_types::{Mail, Message, ObjId, Prio, Queue, Status};

/// Appends a name and a word.
fn begin(to: &mut Text, object: ObjId, word: &[u8]) -> Result<(), LabFault>
    ensures { OnOk result (to.new ≡ to.old ++ begin object word.now) }
{
    to.word(&Token::Name(object))?;
    to.put(b" ")?;
    to.put(word)
}

/// Appends a name, a word, and a name or a dash.
fn put_relation(
    to: &mut Text,
    object: ObjId,
    word: &[u8],
    other: Option<ObjId>,
) -> Result<(), LabFault>
    ensures { OnOk result
        (to.new ≡ to.old ++ begin object word.now ++ then_text (maybe_text other)) }
{
    begin(to, object, word)?;
    to.spaced(&Token::Maybe(other))
}

/// Appends a number, or a dash.
fn put_number_or_dash(to: &mut Text, number: Option<u64>) -> Result<(), LabFault>
    ensures { OnOk result (to.new ≡ to.old ++ number_or_dash number) }
{
    match number {
        Some(number) => to.spaced(&Token::Number(number)),
        None => to.put(b" -"),
    }
}

/// The number of a priority.
fn level(priority: Option<Prio>) -> Option<u64>
    ensures { result ≡ level priority }
{
    let priority = priority?;
    Some(priority.0 as u64)
}

/// Appends the words before the reply object that owes a thread a reply.
fn put_owed(to: &mut Text, by: bool) -> Result<(), LabFault>
    ensures { OnOk result (to.new ≡ to.old ++ owed_text by) }
{
    if by {
        return to.put(b" owed by");
    }
    to.put(b" owed")
}

/// Appends what a thread does.
fn put_status(to: &mut Text, status: Option<Status>, by: bool) -> Result<(), LabFault>
    ensures { OnOk result (to.new ≡ to.old ++ status_text by status) }
{
    match status {
        Some(Status::Queued(queue)) => {
            to.put(b" waits")?;
            to.spaced(&Token::Line(queue))
        }
        Some(Status::OnReply(reply)) => {
            put_owed(to, by)?;
            to.spaced(&Token::Name(reply))
        }
        Some(Status::Running) => to.put(b" running"),
        Some(Status::Restart) => to.put(b" restart"),
        Some(Status::Inactive) => to.put(b" inactive"),
        Some(Status::Closed) => to.put(b" closed"),
        None => to.put(b" is not there"),
    }
}

/// Appends the label and the words of a message.
fn put_content(to: &mut Text, message: &Message) -> Result<(), LabFault>
    ensures { OnOk result (to.new ≡ to.old ++ content_text message.now) }
{
    to.spaced(&Token::Number(message.label()))?;
    let words = message.words();
    for word in words {
        to.spaced(&Token::Number(*word))?;
    }
    Ok(())
}

/// Appends what last reached a thread.
fn put_mail(to: &mut Text, mail: Option<&Mail>) -> Result<(), LabFault>
    ensures { OnOk result (to.new ≡ to.old ++ mail_text (option_copied mail.entry)) }
{
    match mail {
        Some(Mail::Message { badge, message }) => {
            to.put(b" got")?;
            to.spaced(&Token::Number(badge.0))?;
            put_content(to, message)
        }
        Some(Mail::Word { word }) => {
            to.put(b" heard")?;
            to.spaced(&Token::Number(*word))
        }
        None => to.put(b" got nothing"),
    }
}

/// Appends what last reached a thread as a reply, whose message has no badge.
fn put_answered(to: &mut Text, mail: Option<&Mail>) -> Result<(), LabFault>
    ensures { OnOk result (to.new ≡ to.old ++ answered_text (option_copied mail.entry)) }
{
    match mail {
        Some(Mail::Message { badge, message }) if badge.0 == 0 => {
            to.put(b" answered")?;
            put_content(to, message)
        }
        _ => put_mail(to, mail),
    }
}

/// Appends the reply objects in a context's chain, or a dash.
fn put_chain(to: &mut Text, kernel: &Kernel<LinkedLines>, context: ObjId) -> Result<(), LabFault>
    ensures { OnOk result
        (to.new ≡ to.old ++ names_or_dash (chain_of (log_of kernel.now) context)) }
{
    let mut chain = kernel.chain(context);
    let Some(top) = chain.next() else {
        return to.put(b" -");
    };
    to.spaced(&Token::Name(top))?;
    for reply in chain {
        to.spaced(&Token::Name(reply))?;
    }
    Ok(())
}

/// Puts the threads in a queue, or a dash.
fn put_queue(to: &mut Text, kernel: &Kernel<LinkedLines>, queue: Queue) -> Result<(), LabFault>
    ensures { OnOk result (to.new ≡ to.old ++ names_or_dash (queued_in (log_of kernel.now) queue)) }
{
    let mut threads = kernel.queue(queue);
    let Some(first) = threads.next() else {
        return to.put(b" -");
    };
    to.spaced(&Token::Name(first))?;
    for thread in threads {
        to.spaced(&Token::Name(thread))?;
    }
    Ok(())
}

/// Appends the kernel's answer to a question, spelled as the question is.
pub fn see(to: &mut Text, kernel: &Kernel<LinkedLines>, question: &Question) -> Result<(), LabFault>
    ensures { OnOk result (to.new ≡ to.old ++ seen (log_of kernel.now) question.now) }
{
    match *question {
        Question::Status { thread, by } => {
            to.word(&Token::Name(thread))?;
            put_status(to, kernel.status(thread), by)
        }
        Question::Mail { thread } => {
            to.word(&Token::Name(thread))?;
            put_mail(to, kernel.mail(thread))
        }
        Question::Answered { thread } => {
            to.word(&Token::Name(thread))?;
            put_answered(to, kernel.mail(thread))
        }
        Question::Bound { thread } => put_relation(to, thread, b"bound", kernel.bound(thread)),
        Question::Context { thread } => put_relation(to, thread, b"holds", kernel.context(thread)),
        Question::Priority { thread } => {
            begin(to, thread, b"priority")?;
            put_number_or_dash(to, level(kernel.priority(thread)))
        }
        Question::Held { context } => put_relation(to, context, b"held", kernel.holder(context)),
        Question::Chain { context } => {
            begin(to, context, b"chain")?;
            put_chain(to, kernel, context)
        }
        Question::Homed { context } => put_relation(to, context, b"homed", kernel.home(context)),
        Question::Owes { reply } => put_relation(to, reply, b"owes", kernel.owed(reply)),
        Question::With { reply } => put_relation(to, reply, b"with", kernel.receiver(reply)),
        Question::Pending { notification } => {
            begin(to, notification, b"pending")?;
            put_number_or_dash(to, kernel.word(notification))
        }
        Question::Queue { queue } => {
            to.word(&Token::Line(queue))?;
            put_queue(to, kernel, queue)
        }
        Question::Slot { cnode, index } => {
            to.word(&Token::Name(cnode))?;
            to.spaced(&Token::Number(index as u64))?;
            to.put(b" holds")?;
            to.spaced(&Token::Held(kernel.capability(cnode, index)))
        }
    }
}
