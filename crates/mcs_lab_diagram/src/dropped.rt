//! Sends that reached no thread: over an endpoint without receivers, or over a reply object that
//! owes no reply.
ghost use Rattle.std.specs.Prelude.{◌≡◌, IfOk};
ghost use Rattle.mcs_lab_diagram.specs.Dropped.{accepts, accepts_none, is_dropped, is_passed, may_be_dropped};

use mcs_book::Line;
use mcs_packing::KeptRecord;
use mcs_types::{Answer, Entry, Rec};
use std::alloc::{AllocError, Global};

/// Returns whether an entry may send without a receiver. A call never does: its caller waits.
fn may_be_dropped(entry: &Entry) -> bool
    ensures { result ≡ may_be_dropped entry.now }
{
    match entry {
        Entry::Send { .. }
        | Entry::NbSend { .. }
        | Entry::ReplyRecv { .. }
        | Entry::NbSendRecv { .. }
        | Entry::NbSendWait { .. } => true,
        Entry::Call { .. }
        | Entry::Recv { .. }
        | Entry::NbRecv { .. }
        | Entry::Wait { .. }
        | Entry::NbWait { .. }
        | Entry::Signal { .. }
        | Entry::SetPriority { .. }
        | Entry::Suspend { .. }
        | Entry::Resume { .. }
        | Entry::BindNtfn { .. }
        | Entry::UnbindNtfn { .. }
        | Entry::BindCtx { .. }
        | Entry::UnbindCtx { .. }
        | Entry::CancelBadged { .. }
        | Entry::CopyCap { .. }
        | Entry::MintCap { .. }
        | Entry::MoveCap { .. }
        | Entry::DeleteCap { .. }
        | Entry::MakeEndpoint { .. }
        | Entry::MakeNotification { .. }
        | Entry::MakeReply { .. }
        | Entry::MakeContext { .. } => false,
    }
}

/// Returns whether an answer is no refusal.
fn is_passed(answer: &Answer) -> bool
    ensures { result ≡ is_passed answer.now }
{
    match answer {
        Answer::Refused(_) => false,
        Answer::Done | Answer::Got { .. } | Answer::Heard { .. } | Answer::Empty | Answer::Waits =>
            true,
    }
}

/// Returns whether a record shows that what a thread sent was accepted.
fn accepts(fact: &Rec) -> bool
    ensures { result ≡ accepts fact.now }
{
    match fact {
        Rec::Sent { .. } | Rec::Paid { .. } | Rec::Raised { .. } => true,
        Rec::Made { .. }
        | Rec::Closed { .. }
        | Rec::Slot { .. }
        | Rec::Prio { .. }
        | Rec::Turns { .. }
        | Rec::Joins { .. }
        | Rec::Parts { .. }
        | Rec::Took { .. }
        | Rec::Dropped { .. }
        | Rec::Owes { .. }
        | Rec::Void { .. }
        | Rec::Holds { .. }
        | Rec::Heard { .. }
        | Rec::Tied { .. }
        | Rec::Homed { .. } => false,
    }
}

/// Returns whether a packed record shows that what a thread sent was accepted.
fn kept_accepts(alloc: Global, kept: &KeptRecord<'_>) -> Result<bool, AllocError>
    ensures { IfOk result (λ b. b ≡ accepts kept.now) }
{
    match kept.unpack(alloc) {
        Ok(fact) => Ok(accepts(&fact)),
        Err(_) => Err(AllocError),
    }
}

/// Returns whether the entry of a line may send without a receiver.
fn entry_may(alloc: Global, line: &Line<'_>) -> Result<bool, AllocError>
    ensures { IfOk result (λ b. b ≡ may_be_dropped line.now.step.entry) }
{
    match line.step(alloc) {
        Ok(step) => Ok(may_be_dropped(&step.entry)),
        Err(_) => Err(AllocError),
    }
}

/// Returns whether the answer of a line is not a refusal.
fn line_passed(alloc: Global, line: &Line<'_>) -> Result<bool, AllocError>
    ensures { IfOk result (λ b. b ≡ is_passed line.now.answer) }
{
    match line.answer(alloc) {
        Ok(answer) => Ok(is_passed(&answer)),
        Err(_) => Err(AllocError),
    }
}

/// Returns whether no record of a line shows that something sent was accepted.
#[tactic(auto, using(crate::proofs::DroppedLaws::accepts_none_stops))]
fn accepts_none(alloc: Global, line: &Line<'_>) -> Result<bool, AllocError>
    ensures { IfOk result (λ b. b ≡ accepts_none line.now.records) }
{
    for i in 0..line.record_count() {
        match line.kept_record(i) {
            Some(kept) => {
                if kept_accepts(alloc, &kept)? {
                    return Ok(false);
                }
            }
            None => unreachable!(),
        }
    }
    Ok(true)
}

/// Returns whether the entry of a line sent something that reached no thread: it was not refused,
/// and no message, reply or signal was accepted.
pub fn is_dropped(alloc: Global, line: &Line<'_>) -> Result<bool, AllocError>
    ensures { IfOk result (λ b. b ≡ is_dropped line.now) }
{
    if !entry_may(alloc, line)? {
        return Ok(false);
    }
    if !line_passed(alloc, line)? {
        return Ok(false);
    }
    accepts_none(alloc, line)
}
