//! Where questions fail: in a state, or at a turn.
ghost use Rattle.std.specs.Prelude.{◌≡◌, ◌==◌, ◌&&◌, ◌+◌, ◌-◌, ◌<◌, ◌^◌, nat_le, nat_lt, option_copied, length};
ghost use Rattle.std.specs.List.{list_all, list_any};
ghost use Rattle.mcs_book.specs.History.{line_of_number, log_of};
ghost use Rattle.mcs_book.specs.Messages.{next_message};
ghost use Rattle.mcs_sim.specs.Trace.{sent_after};
ghost use Rattle.mcs_explore_report.specs.Judging.{answered, answered_by, bare, ended_by, fails, fails_by, fails_in, gave_by, given_by, gives, has_given, is_at, is_in, is_line, is_within, line_texts, record_lines, last_texts};
ghost use Rattle.mcs_explore_report.specs.Judged.{AreJudgedBy, judged};

use mcs_book::Line as BookLine;
use mcs_explore_orders::{Turn, Users, Walk};
use mcs_explore_questions::{Asked, Event, Span, Until, is_match};
use mcs_explore_script::AskedLine;
use mcs_explore_walk::newest;
use mcs_kernel::Kernel;
use mcs_lab_check::with_sent;
use mcs_packing::KeptRecord;
use mcs_queues::PlainLines;
use mcs_trace::{Line, spell_answer, spell_record};
use mcs_turns::Position;
use mcs_types::Status;

/// Where something is seen: in a state, or at a turn from it.
#[derive(Clone, Copy, Drop)]
pub struct Sighting {
    pub place: usize,
    pub turn: Option<Turn>,
}

/// Returns how many entries of a user at a position have a final answer, by the status of its
/// thread.
pub fn answered_by(status: Option<Status>, place: Position) -> usize
    ensures { result ≡ answered_by status place }
{
    match (status, place.waited) {
        (Some(Status::Running), _) | (_, None) => place.next,
        (_, Some(number)) => number,
    }
}

/// Returns how many entries of a user have a final answer.
pub fn answered(users: &Users, walk: &Walk<PlainLines>, user: usize) -> usize
    ensures { result ≡ answered users.now walk.now user }
{
    let Some(list) = users.at(user) else {
        return 0;
    };
    match walk.place(user) {
        Some(place) => answered_by(walk.kernel().status(list.thread), place),
        None => 0,
    }
}

/// Returns whether a user at a position gave fewer entries than `number`, by the status of its
/// thread: a blocked one has given its last.
fn gave_fewer(status: Option<Status>, place: Position, number: usize) -> bool
    ensures { result ≡ nat_lt (given_by status place) number }
{
    match (status, place.waited) {
        (Some(Status::Running), _) | (_, None) => place.next < number,
        (_, Some(last)) => last < number && last + 1 < number,
    }
}

/// Returns whether a user at a position is before the end of a span, by the status of its thread.
fn is_before_end(span: Span, status: Option<Status>, place: Position) -> bool
    ensures { result ≡ nat_lt (ended_by span.until status place) span.to }
{
    match span.until {
        Until::Given => gave_fewer(status, place, span.to),
        Until::Answered => answered_by(status, place) < span.to,
    }
}

/// Returns whether a user at a position is in a span, by the status of its thread.
fn is_within(span: Span, status: Option<Status>, place: Position) -> bool
    ensures { result ≡ is_within span status place }
{
    span.from <= answered_by(status, place) && is_before_end(span, status, place)
}

/// Returns whether the user at an index is in a span.
fn is_at(users: &Users, walk: &Walk<PlainLines>, span: Span, user: usize) -> bool
    ensures { result ≡ is_at users.now walk.now span user }
{
    let Some(list) = users.at(user) else {
        return false;
    };
    match walk.place(user) {
        Some(place) => is_within(span, walk.kernel().status(list.thread), place),
        None => false,
    }
}

/// Returns whether the user of a span is in it.
fn is_in(users: &Users, walk: &Walk<PlainLines>, span: Span) -> bool
    ensures { result ≡ is_in users.now walk.now span }
{
    match users.find(span.thread) {
        Some(user) => is_at(users, walk, span, user),
        None => false,
    }
}

/// Returns whether the entry at index `number` is the one with number `next`, counted from 1.
fn is_next(number: usize, next: usize) -> bool
    ensures { result ≡ (next == number + 1) }
{
    number < next && next - 1 == number
}

/// Returns whether a turn gives an entry.
fn gives(users: &Users, turn: Turn, event: Event) -> bool
    ensures { result ≡ gives users.now turn event }
{
    match users.find(event.thread) {
        Some(user) => user == turn.pick.user && is_next(turn.pick.number, event.number),
        None => false,
    }
}

/// Returns whether a user at a position gave this many entries: a program that waits, up to the one
/// in which it waits.
fn gave(place: Position, number: usize) -> bool
    ensures { result ≡ nat_le number (gave_by place) }
{
    match place.waited {
        None => number <= place.next,
        Some(last) => number <= last || number - 1 == last,
    }
}

/// Returns whether a user has given an entry.
fn has_given(users: &Users, walk: &Walk<PlainLines>, event: Event) -> bool
    ensures { result ≡ has_given users.now walk.now event }
{
    match users.find(event.thread) {
        Some(user) => match walk.place(user) {
            Some(place) => gave(place, event.number),
            None => false,
        },
        None => false,
    }
}

/// Returns how many messages a line sent.
fn sent_in(line: &BookLine<'_>) -> u128
    ensures { result ≡ sent_after 0 line.now.records }
{
    let mut sent = 0;
    for i in 0..line.record_count() {
        let Some(fact) = line.kept_record(i) else {
            unreachable!();
        };
        sent = with_sent(sent, &fact);
    }
    sent
}

/// Returns how many messages were sent before the newest line.
fn sent_before(kernel: &Kernel<PlainLines>, line: &BookLine<'_>) -> u128
    ensures few { result < 2 ^ 32 }
    ensures sent { result ≡ next_message (log_of kernel.now) - sent_after 0 line.now.records }
{
    (kernel.sent() as u128).saturating_sub(sent_in(line))
}

/// A line without its newline.
fn bare(line: &[u8]) -> &[u8]
    ensures { result.now ≡ bare line.now }
{
    match line {
        [text @ .., _] => text,
        [] => line,
    }
}

/// Returns whether a pattern matches a line.
fn is_line(pattern: &[u8], line: &[u8]) -> bool
    ensures { result ≡ is_line pattern.now line.now }
{
    is_match(pattern, bare(line))
}

/// Returns whether a pattern matches the text of some record of a line of the book. `before` is the
/// number of messages sent before the line.
fn has_record(text: &mut Line, line: &BookLine<'_>, before: u128, pattern: &[u8]) -> bool
    requires { before + 2 ^ 64 < 2 ^ 128 }
    ensures { result ≡ list_any (is_line pattern.now) (record_lines before line.now.records) }
{
    let mut sent = before;
    for i in 0..line.record_count() {
        let Some(fact) = line.kept_record(i) else {
            unreachable!();
        };
        spell_record(text, sent, &fact);
        if is_line(pattern, text.text()) {
            return true;
        }
        sent = with_sent(sent, &fact);
    }
    false
}

/// Returns whether a pattern matches a line of the trace for a line of the book, before which
/// `before` messages were sent.
fn has_match(text: &mut Line, line: &BookLine<'_>, before: u128, pattern: &[u8]) -> bool
    requires { before + 2 ^ 64 < 2 ^ 128 }
    ensures { result ≡ list_any (is_line pattern.now) (line_texts before line.now) }
{
    spell_answer(text, &line.kept_answer());
    is_line(pattern, text.text()) || has_record(text, line, before, pattern)
}

/// Returns whether a pattern matches a line of the trace for the newest line of the book.
fn tells(text: &mut Line, kernel: &Kernel<PlainLines>, pattern: &[u8]) -> bool
    ensures { result ≡ list_any (is_line pattern.now) (last_texts kernel.now) }
{
    let Some(line) = newest(kernel) else {
        return false;
    };
    has_match(text, &line, sent_before(kernel, &line), pattern)
}

/// Returns whether the users of all these spans are in them.
fn are_in(users: &Users, walk: &Walk<PlainLines>, spans: &[Span]) -> bool
    ensures { result ≡ list_all (is_in users.now walk.now) spans.now }
{
    spans.iter().all(|span| is_in(users, walk, *span))
}

/// Returns whether a question fails in a state.
fn fails_in(users: &Users, asked: &Asked, walk: &Walk<PlainLines>) -> bool
    ensures { result ≡ fails_in users.now asked.now walk.now }
{
    match asked {
        Asked::Apart { spans } => are_in(users, walk, spans),
        _ => false,
    }
}

/// Returns whether a question fails at a turn that led to a state.
fn fails_by(
    text: &mut Line,
    users: &Users,
    asked: &Asked,
    turn: Turn,
    walk: &Walk<PlainLines>,
) -> bool
    ensures { result ≡ fails_by users.now asked.now turn walk.now }
{
    match asked {
        Asked::Never { pattern } => tells(text, walk.kernel(), pattern),
        Asked::Before { first, second } => {
            gives(users, turn, *second) && !has_given(users, walk, *first)
        }
        _ => false,
    }
}

/// Returns whether a question fails at the turn that led to this state; without a turn, whether it
/// fails in the state.
fn fails(
    text: &mut Line,
    users: &Users,
    asked: &Asked,
    turn: Option<Turn>,
    walk: &Walk<PlainLines>,
) -> bool
    ensures { result ≡ fails users.now asked.now turn walk.now }
{
    match turn {
        Some(turn) => fails_by(text, users, asked, turn, walk),
        None => fails_in(users, asked, walk),
    }
}

/// Returns where a question failed first, after looking at one more state or turn.
fn judged(
    text: &mut Line,
    users: &Users,
    asked: &Asked,
    seen: Sighting,
    walk: &Walk<PlainLines>,
    failed: Option<Sighting>,
) -> Option<Sighting>
    ensures { result ≡ judged users.now asked.now seen walk.now failed }
{
    if failed.is_some() {
        return failed;
    }
    if fails(text, users, asked, seen.turn, walk) {
        Some(seen)
    } else {
        None
    }
}

/// Judges all questions in one more state or turn.
pub fn judge(
    text: &mut Line,
    users: &Users,
    asked: &[AskedLine],
    seen: Sighting,
    walk: &Walk<PlainLines>,
    failed: &mut Vec<Option<Sighting>>,
)
    ensures { AreJudgedBy users.now asked.now seen walk.now failed.old.items failed.new.items }
{
    for number in 0..failed.len() {
        if let Some(line) = asked.get(number) {
            failed[number] = judged(text, users, &line.asked, seen, walk, failed[number]);
        }
    }
}
