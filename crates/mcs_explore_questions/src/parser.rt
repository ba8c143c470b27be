//! Reads the questions of a script.
ghost use Rattle.std.specs.Prelude.{ℕ, ◌≡◌, ◌≢◌, ◌<◌, ◌≤◌, ◌∷◌, ◌++◌, [], false, true, Some, IfOk, IfErr, OnOk, OnErr, length, option_copied, option_map, bytes_eq};
ghost use Rattle.mcs_text.specs.Reading.{words_of};
ghost use Rattle.mcs_explore_questions.specs.Forms.{pattern_of};
ghost use Rattle.mcs_explore_questions.specs.Questions.{AddsSpan, are_of_lists, answers_asked, after_blank, last_of, answer_pattern, answer_then, answered_asked, and_span, apart_asked, asked_by, asks, again_asked, before_asked, begin_with_waits, bound_by, bounds_by, dots_len, entries_from, entries_of, entries_then, event_then, fits, has_dot, idle_asked, is_of_answers, is_of_list, lines_of, live_asked, never_asked, never_of, number_then, question_of, range_of, range_to, range_words, resumed_asked, said_of, schedule_asked, schedule_by, small_number, span_after, span_from, span_of, span_then, spans_from, spans_of, user_is_program, user_then};
ghost use Rattle.mcs_explore_questions.specs.Reading.{Refuses, is_of_memory, texts, word_then};
ghost use Rattle.mcs_explore_questions.specs.There.{labelled, scene_of, user_of};

use crate::fault::QuestionFault;
use crate::forms::{Lines, pattern_of};
use crate::questions::{Asked, Entries, Event, Rule, Span, Until};
use crate::there::{There, id_text, list_of, no_entry};
use crate::words::{Reader, trimmed, words_of};
use mcs_explore_programs::Word;
use mcs_lab_forms::number_of;
use mcs_text::Words;
use mcs_turns::Schedule;
use mcs_types::ObjId;
use mcs_users::{UserList, Users};
use std::alloc::{AllocError, Global};

/// The words with which questions begin.
const FIRSTS: &str = "idle, live, answer, answer?, some, never, before, again, schedule, resumed";

/// The words of schedules.
const SCHEDULES: &str = "serial, equal or any";

/// A range that a word writes.
#[derive(Clone, Copy)]
struct Range {
    from: usize,
    to: usize,
    until: Until,
}

/// The first and the last word of a range of entries.
#[derive(Clone, Copy)]
struct Ends<'a> {
    from: &'a [u8],
    to: &'a [u8],
    until: Until,
}

/// Returns the fault for a word that is not the expected one.
fn not(alloc: Global, word: &[u8], wanted: &'static str) -> Result<QuestionFault, AllocError>
    ensures { IfOk result (λ e. is_of_memory e ≡ false) }
{
    Ok(QuestionFault::Not {
        word: Word::new(alloc, word)?,
        wanted,
    })
}

/// Returns the fault for a word that means no entry.
fn empty(alloc: Global, word: &[u8]) -> Result<QuestionFault, AllocError>
    ensures { IfOk result (λ e. is_of_memory e ≡ false) }
{
    Ok(QuestionFault::Empty {
        word: Word::new(alloc, word)?,
    })
}

/// Reads the user that the next word names.
#[tactic(auto, unfolding(crate::specs::Questions::user_then))]
fn user<'a>(
    alloc: Global,
    there: There<'a>,
    words: &mut Reader<'_>,
) -> Result<&'a UserList, QuestionFault>
    ensures said { IfOk result (λ l.
        user_then (scene_of there.entry) words.old ≡ Some (l.now, words.new)) }
    ensures error { IfErr result (Refuses (user_then (scene_of there.entry) words.old)) }
    ensures shorter { OnOk result (length words.new < length words.old) }
{
    let word = words.need("a thread")?;
    there.user(alloc, word)
}

/// Reads the entry that the next two words name.
#[tactic(auto, unfolding(crate::specs::Questions::event_then))]
fn event(alloc: Global, there: There<'_>, words: &mut Reader<'_>) -> Result<Event, QuestionFault>
    ensures said { IfOk result (λ e.
        event_then (scene_of there.entry) words.old ≡ Some (e, words.new)) }
    ensures error { IfErr result (Refuses (event_then (scene_of there.entry) words.old)) }
{
    let list = user(alloc, there, words)?;
    let word = words.need("the number of an entry, or its name")?;
    there.entry(alloc, list, word)
}

/// Returns how many bytes are before the first `..` of a word; all if it has none.
fn dots_len(word: &[u8]) -> usize
    ensures { result ≡ dots_len false word.now }
{
    let mut dotted = false;
    for (place, byte) in word.iter().enumerate() {
        if dotted && *byte == b'.' {
            return place;
        }
        dotted = *byte == b'.';
    }
    word.len()
}

/// Returns the ends of a range; `=` may precede the second.
fn range_to<'a>(from: &'a [u8], after: &'a [u8]) -> Ends<'a>
    ensures { range_words result ≡ range_to from.entry.now after.entry.now }
{
    if let [b'=', to @ ..] = after {
        return Ends {
            from,
            to,
            until: Until::Answered,
        };
    }
    Ends {
        from,
        to: after,
        until: Until::Given,
    }
}

/// Returns the words at the ends of a range, with `..` or `..=` between them.
fn range_of(word: &[u8]) -> Option<Ends<'_>>
    ensures { option_map range_words result ≡ range_of word.entry.now }
{
    let dots = dots_len(word);
    if dots >= word.len() {
        return None;
    }
    Some(range_to(&word[..dots.saturating_sub(1)], &word[dots + 1..]))
}

/// The number that a word of at most 9 digits writes.
fn small_number(word: &[u8]) -> Option<usize>
    ensures { result ≡ small_number word.now }
{
    if word.len() > 9 {
        return None;
    }
    Some(number_of(word)? as usize)
}

/// Returns the number at the end of a range: at most 9 digits, or an entry of a user by its name.
fn bound(there: There<'_>, list: &UserList, word: &[u8]) -> Option<usize>
    ensures { result ≡ bound_by (scene_of there.entry) list.now word.now }
{
    let Some(Entries { first, last }) = there.labelled(list, word) else {
        return small_number(word);
    };
    if first == last { Some(first) } else { None }
}

/// The range of entries of a user that a word writes.
#[tactic(auto, unfolding(crate::specs::Questions::bounds_by))]
fn range_in(there: There<'_>, list: &UserList, word: &[u8]) -> Option<Range>
    ensures { result ≡ bounds_by (scene_of there.entry) list.now word.now }
{
    let ends = range_of(word)?;
    let from = bound(there, list, ends.from)?;
    let to = bound(there, list, ends.to)?;
    Some(Range {
        from,
        to,
        until: ends.until,
    })
}

/// Returns the span of a user between two entries. `NoEntry` if the user has no such last entry,
/// `Empty` if the last is not after the first.
fn span_from(
    alloc: Global,
    list: &UserList,
    word: &[u8],
    range: Range,
) -> Result<Span, QuestionFault>
    ensures said { IfOk result (λ s. span_from list.now range ≡ Some s) }
    ensures error { IfErr result (Refuses (span_from list.now range)) }
{
    if range.to > list.entries.len() {
        return Err(no_entry(alloc, list, word)?);
    }
    if range.from >= range.to {
        return Err(empty(alloc, word)?);
    }
    Ok(Span {
        thread: list.thread,
        from: range.from,
        to: range.to,
        until: range.until,
    })
}

/// Returns the span of a user that a word means: a range, or a name of entries.
fn span_of(
    alloc: Global,
    there: There<'_>,
    list: &UserList,
    word: &[u8],
) -> Result<Span, QuestionFault>
    ensures said { IfOk result (λ s. span_of (scene_of there.entry) list.now word.now
        (labelled (scene_of there.entry) list.now word.now) ≡ Some s) }
    ensures error { IfErr result (Refuses (span_of (scene_of there.entry) list.now word.now
        (labelled (scene_of there.entry) list.now word.now))) }
{
    if let Some(Entries { first, last }) = there.labelled(list, word) {
        return Ok(Span {
            thread: list.thread,
            from: first.saturating_sub(1),
            to: last,
            until: Until::Given,
        });
    }
    match range_in(there, list, word) {
        Some(range) => span_from(alloc, list, word, range),
        None => Err(not(alloc, word, "a span, as 1..2 or 1..=2, or a name")?),
    }
}

/// Reads the span of a user that the next two words name: `in 1..2`, or `in NAME`.
#[tactic(auto, unfolding(crate::specs::Questions::span_after))]
fn span_after(
    alloc: Global,
    there: There<'_>,
    list: &UserList,
    words: &mut Reader<'_>,
) -> Result<Span, QuestionFault>
    ensures said { IfOk result (λ s.
        span_after (scene_of there.entry) list.now words.old ≡ Some (s, words.new)) }
    ensures error { IfErr result (Refuses
        (span_after (scene_of there.entry) list.now words.old)) }
    ensures shorter { OnOk result (length words.new < length words.old) }
{
    words.expect(alloc, "in")?;
    let word = words.need("a span, as 1..2 or 1..=2, or a name")?;
    span_of(alloc, there, list, word)
}

/// Reads the span that the next three words name: `t2 in 1..2`, or `t2 in NAME`.
#[tactic(auto, unfolding(crate::specs::Questions::span_then))]
fn span(alloc: Global, there: There<'_>, words: &mut Reader<'_>) -> Result<Span, QuestionFault>
    ensures said { IfOk result (λ s.
        span_then (scene_of there.entry) words.old ≡ Some (s, words.new)) }
    ensures error { IfErr result (Refuses (span_then (scene_of there.entry) words.old)) }
    ensures shorter { OnOk result (length words.new < length words.old) }
{
    let list = user(alloc, there, words)?;
    span_after(alloc, there, list, words)
}

/// Reads `and` and a span.
#[tactic(auto, unfolding(crate::specs::Questions::and_span))]
fn and_span(alloc: Global, there: There<'_>, words: &mut Reader<'_>) -> Result<Span, QuestionFault>
    ensures said { IfOk result (λ s.
        and_span (scene_of there.entry) words.old ≡ Some (s, words.new)) }
    ensures error { IfErr result (Refuses (and_span (scene_of there.entry) words.old)) }
    ensures shorter { OnOk result (length words.new < length words.old) }
{
    words.expect(alloc, "and")?;
    span(alloc, there, words)
}

/// Reads `and` and a span, and adds that to others.
fn push_span(
    alloc: Global,
    there: There<'_>,
    words: &mut Reader<'_>,
    spans: &mut Vec<Span>,
) -> Result<(), QuestionFault>
    ensures said { OnOk result (AddsSpan (scene_of there.entry) words.old words.new
        spans.old.items spans.new.items) }
    ensures error { IfErr result (Refuses (and_span (scene_of there.entry) words.old)) }
    ensures shorter { OnOk result (length words.new < length words.old) }
{
    let span = and_span(alloc, there, words)?;
    spans.push(span)?;
    Ok(())
}

/// Reads the spans of all remaining words, each after `and`, and adds them to others.
fn push_spans(
    alloc: Global,
    there: There<'_>,
    words: &mut Reader<'_>,
    spans: &mut Vec<Span>,
) -> Result<(), QuestionFault>
    ensures said { OnOk result (spans_from (length words.old) (scene_of there.entry)
        spans.old.items words.old ≡ Some spans.new.items) }
    ensures error { IfErr result (Refuses (spans_from (length words.old) (scene_of there.entry)
        spans.old.items words.old)) }
{
    'turns: while words.has_more() {
        push_span(alloc, there, words, spans)?;
    }
    Ok(())
}

/// Reads spans: one after a first word, and the rest, each after `and`.
#[tactic(auto, unfolding(crate::specs::Questions::apart_asked, crate::specs::Questions::spans_of, crate::specs::Questions::span_then, crate::specs::Questions::user_then))]
fn apart(
    alloc: Global,
    there: There<'_>,
    first: &[u8],
    words: &mut Reader<'_>,
) -> Result<Asked, QuestionFault>
    ensures said { IfOk result (λ a. apart_asked (scene_of there.entry) (first.now ∷ words.old)
        ≡ Some (said_of a)) }
    ensures error { IfErr result (Refuses
        (apart_asked (scene_of there.entry) (first.now ∷ words.old))) }
{
    let list = there.user(alloc, first)?;
    let span = span_after(alloc, there, list, words)?;
    let mut spans = one_span(alloc, span)?;
    push_spans(alloc, there, words, &mut spans)?;
    Ok(Asked::Apart { spans })
}

/// Returns a list of one span.
fn one_span(alloc: Global, span: Span) -> Result<Vec<Span>, AllocError>
    ensures { IfOk result (λ spans. spans.items ≡ span ∷ []) }
{
    let mut spans = Vec::new(alloc);
    spans.push(span)?;
    Ok(spans)
}

/// Returns which lines a pattern is about, by its first word.
fn lines_of(word: &[u8]) -> Option<Lines>
    ensures { result ≡ lines_of word.now }
{
    if word == b"=".as_slice() {
        return Some(Lines::Answers);
    }
    if word == b"+".as_slice() {
        return Some(Lines::Records);
    }
    None
}

/// Returns a text after a sign and a blank.
fn signed(alloc: Global, sign: &[u8], text: Vec<u8>) -> Result<Vec<u8>, AllocError>
    ensures { IfOk result (λ v. v.items ≡ sign.now ++ 32 ∷ text.items) }
{
    let mut whole = Vec::from_slice(alloc, sign)?;
    whole.extend_from_slice(b" ")?;
    whole.extend_from_slice(text.as_slice())?;
    Ok(whole)
}

/// Reads a pattern for lines with this sign.
#[tactic(auto, unfolding(crate::specs::Questions::never_of))]
fn never_of(
    alloc: Global,
    there: There<'_>,
    sign: &[u8],
    words: &[&[u8]],
    lines: Lines,
) -> Result<Asked, QuestionFault>
    ensures said { IfOk result (λ a. never_of (scene_of there.entry) sign.now
        (texts words.entry.now) lines ≡ Some (said_of a)) }
    ensures error { IfErr result (Refuses (never_of (scene_of there.entry) sign.now
        (texts words.entry.now) lines)) }
{
    let text = pattern_of(alloc, there, lines, words)?;
    let pattern = signed(alloc, sign, text)?;
    Ok(Asked::Never { pattern })
}

/// Reads what must never be: a line that matches a pattern, or users in their spans at once.
#[tactic(auto, unfolding(crate::specs::Questions::never_asked))]
fn never(alloc: Global, there: There<'_>, words: &mut Reader<'_>) -> Result<Asked, QuestionFault>
    ensures said { IfOk result (λ a. never_asked (scene_of there.entry) words.old
        ≡ Some (said_of a)) }
    ensures error { IfErr result (Refuses (never_asked (scene_of there.entry) words.old)) }
{
    let word = words.need("a thread")?;
    match lines_of(word) {
        Some(lines) => never_of(alloc, there, word, words.left(), lines),
        None => apart(alloc, there, word, words),
    }
}

/// Returns whether a byte of a word is a dot.
fn has_dot(word: &[u8]) -> bool
    ensures { result ≡ has_dot word.now }
{
    for byte in word {
        if *byte == b'.' {
            return true;
        }
    }
    false
}

/// The last entry of a range.
fn last_of(range: Range) -> usize
    ensures { result ≡ last_of range }
{
    match range.until {
        Until::Given => range.to.saturating_sub(1),
        Until::Answered => range.to,
    }
}

/// Returns the entries of a user in a range. `NoEntry` if the user lacks one of them, `Empty` if
/// there is none.
fn entries_from(
    alloc: Global,
    list: &UserList,
    word: &[u8],
    range: Range,
) -> Result<Entries, QuestionFault>
    ensures said { IfOk result (λ es. entries_from list.now range ≡ Some es) }
    ensures error { IfErr result (Refuses (entries_from list.now range)) }
{
    let last = last_of(range);
    if range.from == 0 || last > list.entries.len() {
        return Err(no_entry(alloc, list, word)?);
    }
    if range.from > last {
        return Err(empty(alloc, word)?);
    }
    Ok(Entries {
        first: range.from,
        last,
    })
}

/// The entries of a user that a word names, as `2`, `1..=2` or a name.
fn entries_of(
    alloc: Global,
    there: There<'_>,
    list: &UserList,
    word: &[u8],
) -> Result<Entries, QuestionFault>
    ensures said { IfOk result (λ es. entries_of (scene_of there.entry) list.now word.now
        (labelled (scene_of there.entry) list.now word.now) ≡ Some es) }
    ensures error { IfErr result (Refuses (entries_of (scene_of there.entry) list.now word.now
        (labelled (scene_of there.entry) list.now word.now))) }
{
    if let Some(entries) = there.labelled(list, word) {
        return Ok(entries);
    }
    if !has_dot(word) {
        return there.entries(alloc, list, word);
    }
    match range_in(there, list, word) {
        Some(range) => entries_from(alloc, list, word, range),
        None => Err(not(alloc, word, "entries, as 2 or 1..=2")?),
    }
}

/// Reads the entries that the next word names, or all if none is left.
#[tactic(auto, unfolding(crate::specs::Questions::entries_then))]
fn entries(
    alloc: Global,
    there: There<'_>,
    list: &UserList,
    words: &mut Reader<'_>,
) -> Result<Entries, QuestionFault>
    ensures said { IfOk result (λ es.
        entries_then (scene_of there.entry) list.now words.old ≡ Some (es, words.new)) }
    ensures error { IfErr result (Refuses
        (entries_then (scene_of there.entry) list.now words.old)) }
{
    let Some(word) = words.next() else {
        let last = list.entries.len();
        return Ok(Entries { first: 1, last });
    };
    entries_of(alloc, there, list, word)
}

/// Reads the thread that may wait for ever.
#[tactic(auto, unfolding(crate::specs::Questions::idle_asked))]
fn idle(alloc: Global, there: There<'_>, words: &mut Reader<'_>) -> Result<Asked, QuestionFault>
    ensures said { IfOk result (λ a. idle_asked (scene_of there.entry) words.old
        ≡ Some (said_of a)) }
    ensures error { IfErr result (Refuses (idle_asked (scene_of there.entry) words.old)) }
{
    let list = user(alloc, there, words)?;
    let entries = entries(alloc, there, list, words)?;
    words.end(alloc)?;
    Ok(Asked::Idle {
        thread: list.thread,
        entries,
    })
}

/// Reads the number of the entry that the next word names, if there is one.
#[tactic(auto, unfolding(crate::specs::Questions::number_then))]
fn number(
    alloc: Global,
    there: There<'_>,
    list: &UserList,
    words: &mut Reader<'_>,
) -> Result<Option<usize>, QuestionFault>
    ensures said { IfOk result (λ n.
        number_then (scene_of there.entry) list.now words.old ≡ Some (n, words.new)) }
    ensures error { IfErr result (Refuses
        (number_then (scene_of there.entry) list.now words.old)) }
{
    let Some(word) = words.next() else {
        return Ok(None);
    };
    let event = there.entry(alloc, list, word)?;
    Ok(Some(event.number))
}

/// Reads the user that must never be stuck, and the entry that is asked about, if the line names
/// one.
#[tactic(auto, unfolding(crate::specs::Questions::live_asked))]
fn live(alloc: Global, there: There<'_>, words: &mut Reader<'_>) -> Result<Asked, QuestionFault>
    ensures said { IfOk result (λ a. live_asked (scene_of there.entry) words.old
        ≡ Some (said_of a)) }
    ensures error { IfErr result (Refuses (live_asked (scene_of there.entry) words.old)) }
{
    let list = user(alloc, there, words)?;
    let number = number(alloc, there, list, words)?;
    words.end(alloc)?;
    Ok(Asked::Live {
        thread: list.thread,
        number,
    })
}

/// Returns whether the first word is the answer `waits`.
fn begin_with_waits(words: &[&[u8]]) -> bool
    ensures { result ≡ begin_with_waits (texts words.entry.now) }
{
    match words {
        [word, ..] => *word == b"waits".as_slice(),
        [] => false,
    }
}

/// Reads words as the pattern of the answers of an entry. `Waits` if it is `waits`, which is no
/// final answer.
#[tactic(auto, unfolding(crate::specs::Questions::answer_pattern))]
fn answer(alloc: Global, there: There<'_>, words: &[&[u8]]) -> Result<Vec<u8>, QuestionFault>
    ensures said { IfOk result (λ p.
        answer_pattern (scene_of there.entry) (texts words.entry.now) ≡ Some p.items) }
    ensures error { IfErr result (Refuses
        (answer_pattern (scene_of there.entry) (texts words.entry.now))) }
{
    if begin_with_waits(words) {
        return Err(QuestionFault::Waits {
            word: Word::new(alloc, b"waits")?,
        });
    }
    pattern_of(alloc, there, Lines::Answers, words)
}

/// Reads an entry and the pattern of its answers.
#[tactic(auto, unfolding(crate::specs::Questions::answer_then))]
fn event_answer(
    alloc: Global,
    there: There<'_>,
    words: &mut Reader<'_>,
) -> Result<(Event, Vec<u8>), QuestionFault>
    ensures said { IfOk result (λ r. answer_then (scene_of there.entry) words.old
        ≡ Some (record { event = r.0; pattern = r.1.items })) }
    ensures error { IfErr result (Refuses (answer_then (scene_of there.entry) words.old)) }
{
    let event = event(alloc, there, words)?;
    let pattern = answer(alloc, there, words.left())?;
    Ok((event, pattern))
}

/// Returns the question with this first word about the answers of an entry.
fn answered_asked(first: &[u8], event: Event, pattern: Vec<u8>) -> Asked
    ensures { said_of result
        ≡ answered_asked first.now (record { event = event; pattern = pattern.items }) }
{
    if first == b"answer".as_slice() {
        return Asked::Answer { event, pattern };
    }
    if first == b"answer?".as_slice() {
        return Asked::AnswerIf { event, pattern };
    }
    Asked::Some { event, pattern }
}

/// Returns whether a first word asks something of the answers of an entry.
fn is_of_answers(first: &[u8]) -> bool
    ensures { result ≡ is_of_answers first.now }
{
    first == b"answer".as_slice() || first == b"answer?".as_slice() || first == b"some".as_slice()
}

/// Reads a question about the answers of an entry, by its first word.
#[tactic(auto, unfolding(crate::specs::Questions::answers_asked))]
fn of_answers(
    alloc: Global,
    there: There<'_>,
    first: &[u8],
    words: &mut Reader<'_>,
) -> Result<Asked, QuestionFault>
    ensures said { IfOk result (λ a. answers_asked (scene_of there.entry) first.now words.old
        ≡ Some (said_of a)) }
    ensures error { IfErr result (Refuses
        (answers_asked (scene_of there.entry) first.now words.old)) }
{
    let (event, pattern) = event_answer(alloc, there, words)?;
    Ok(answered_asked(first, event, pattern))
}

/// Reads an entry that is given before another.
#[tactic(auto, unfolding(crate::specs::Questions::before_asked))]
fn before(alloc: Global, there: There<'_>, words: &mut Reader<'_>) -> Result<Asked, QuestionFault>
    ensures said { IfOk result (λ a. before_asked (scene_of there.entry) words.old
        ≡ Some (said_of a)) }
    ensures error { IfErr result (Refuses (before_asked (scene_of there.entry) words.old)) }
{
    let first = event(alloc, there, words)?;
    let second = event(alloc, there, words)?;
    words.end(alloc)?;
    Ok(Asked::Before { first, second })
}

/// Reads the entry with which a list continues after its last.
#[tactic(auto, unfolding(crate::specs::Questions::again_asked))]
fn again(alloc: Global, there: There<'_>, words: &mut Reader<'_>) -> Result<Asked, QuestionFault>
    ensures said { IfOk result (λ a. again_asked (scene_of there.entry) words.old
        ≡ Some (said_of a)) }
    ensures error { IfErr result (Refuses (again_asked (scene_of there.entry) words.old)) }
{
    let event = event(alloc, there, words)?;
    words.end(alloc)?;
    Ok(Asked::Again { event })
}

/// The schedule that a word names.
fn schedule_by(word: &[u8]) -> Option<Schedule>
    ensures { result ≡ schedule_by word.now }
{
    if is(word, b"serial") {
        return Some(Schedule::Serial);
    }
    if is(word, b"equal") {
        return Some(Schedule::Equal);
    }
    if is(word, b"any") {
        return Some(Schedule::Any);
    }
    None
}

/// Reads the schedule by which cores pick threads.
#[tactic(auto, unfolding(crate::specs::Questions::schedule_asked))]
fn schedule(alloc: Global, words: &mut Reader<'_>) -> Result<Asked, QuestionFault>
    ensures said { IfOk result (λ a. schedule_asked words.old ≡ Some (said_of a)) }
    ensures error { IfErr result (Refuses (schedule_asked words.old)) }
{
    let word = words.need(SCHEDULES)?;
    let Some(by) = schedule_by(word) else {
        return Err(not(alloc, word, SCHEDULES)?);
    };
    words.end(alloc)?;
    Ok(Asked::Ruled { rule: Rule::By(by) })
}

/// Reads the words after `resumed`.
#[tactic(auto, unfolding(crate::specs::Questions::resumed_asked))]
fn resumed(alloc: Global, words: &mut Reader<'_>) -> Result<Asked, QuestionFault>
    ensures said { IfOk result (λ a. resumed_asked words.old ≡ Some (said_of a)) }
    ensures error { IfErr result (Refuses (resumed_asked words.old)) }
{
    words.expect(alloc, "goes")?;
    words.expect(alloc, "on")?;
    words.end(alloc)?;
    Ok(Asked::Ruled {
        rule: Rule::ResumedGoesOn,
    })
}

/// The fault of a word with which no question begins.
fn unknown(alloc: Global, word: &[u8]) -> Result<QuestionFault, AllocError>
    ensures { IfOk result (λ e. is_of_memory e ≡ false) }
{
    Ok(QuestionFault::Unknown {
        word: Word::new(alloc, word)?,
        there: FIRSTS,
    })
}

/// Returns whether a word is this one.
fn is(word: &[u8], text: &[u8]) -> bool
    ensures { result ≡ bytes_eq word.now text.now }
{
    word == text
}

/// Reads the question whose first word was taken.
#[tactic(auto, unfolding(crate::specs::Questions::asked_by))]
fn asked(
    alloc: Global,
    there: There<'_>,
    first: &[u8],
    words: &mut Reader<'_>,
) -> Result<Asked, QuestionFault>
    ensures said { IfOk result (λ a. asked_by (scene_of there.entry) first.now words.old
        ≡ Some (said_of a)) }
    ensures error { IfErr result (Refuses
        (asked_by (scene_of there.entry) first.now words.old)) }
{
    if is(first, b"idle") {
        return idle(alloc, there, words);
    }
    if is(first, b"live") {
        return live(alloc, there, words);
    }
    if is_of_answers(first) {
        return of_answers(alloc, there, first, words);
    }
    if is(first, b"never") {
        return never(alloc, there, words);
    }
    if is(first, b"before") {
        return before(alloc, there, words);
    }
    if is(first, b"again") {
        return again(alloc, there, words);
    }
    if is(first, b"schedule") {
        return schedule(alloc, words);
    }
    if is(first, b"resumed") {
        return resumed(alloc, words);
    }
    Err(unknown(alloc, first)?)
}

/// Returns the text after the blank with which it begins.
fn after_blank(text: &[u8]) -> Option<&[u8]>
    ensures { option_copied result ≡ after_blank text.entry.now }
{
    match text {
        [b' ', rest @ ..] => Some(rest),
        _ => None,
    }
}

/// Returns why the text after `#!` does not begin with a blank.
fn no_blank(alloc: Global, text: &[u8]) -> Result<QuestionFault, AllocError>
    ensures { IfOk result (λ e. is_of_memory e ≡ false) }
{
    if text.is_empty() {
        return Ok(QuestionFault::Nothing { there: FIRSTS });
    }
    Ok(QuestionFault::NoBlank {
        word: Word::new(alloc, first_word(text))?,
    })
}

/// Returns the question of a line `#!`, without its newline: what follows the blank, trimmed at its
/// end. `NoBlank` without the blank, `Nothing` without a text.
pub fn question_of(alloc: Global, line: &[u8]) -> Result<&[u8], QuestionFault>
    ensures said { IfOk result (λ text. question_of line.entry.now ≡ Some text.now) }
    ensures error { IfErr result (Refuses (question_of line.entry.now)) }
{
    let [_, _, after @ ..] = line else {
        return Err(QuestionFault::Nothing { there: FIRSTS });
    };
    let text = trimmed(after);
    match after_blank(text) {
        Some(question) => Ok(question),
        None => Err(no_blank(alloc, text)?),
    }
}

/// The first word of a text.
fn first_word(text: &[u8]) -> &[u8] {
    match Words::new(text).next_word() {
        Some(word) => word,
        None => text,
    }
}

/// Reads a question about what the script has.
#[tactic(auto, unfolding(crate::specs::Questions::asks))]
fn asked_in(alloc: Global, there: There<'_>, words: &mut Reader<'_>) -> Result<Asked, QuestionFault>
    ensures said { IfOk result (λ a. asks (scene_of there.entry) words.old ≡ Some (said_of a)) }
    ensures error { IfErr result (Refuses (asks (scene_of there.entry) words.old)) }
{
    let first = words.need("a question")?;
    let asked = asked(alloc, there, first, words)?;
    fits_programs(alloc, there.users, &asked)?;
    Ok(asked)
}

/// Reads the question of a text. Fails if it has no form of a question, or names what does not
/// exist.
pub fn asked_of(alloc: Global, there: There<'_>, text: &[u8]) -> Result<Asked, QuestionFault>
    ensures said { IfOk result (λ a.
        asks (scene_of there.entry) (words_of text.now) ≡ Some (said_of a)) }
    ensures error { IfErr result (Refuses (asks (scene_of there.entry) (words_of text.now))) }
{
    let words = words_of(alloc, text)?;
    asked_in(alloc, there, &mut Reader::new(words.as_slice()))
}

/// Returns whether the user of a thread has a program.
fn has_program(users: &Users, thread: ObjId) -> bool
    ensures { result ≡ user_is_program (user_of users.now thread) }
{
    match list_of(users, thread) {
        Some(list) => list.has_program(),
        None => false,
    }
}

/// Fails with `OfProgram` if an entry is one of a program.
fn is_of_list(
    alloc: Global,
    users: &Users,
    event: Event,
    instead: &'static str,
) -> Result<(), QuestionFault>
    ensures said { OnOk result (is_of_list users.now event ≡ true) }
    ensures error { IfErr result
        (λ e. is_of_memory e ≡ false → is_of_list users.now event ≡ false) }
{
    if !has_program(users, event.thread) {
        return Ok(());
    }
    Err(QuestionFault::OfProgram {
        thread: id_text(alloc, event.thread)?,
        number: event.number,
        instead,
    })
}

/// Fails with `AgainProgram` if the user of a thread has a program, which decides what comes next.
fn goes_on_again(alloc: Global, users: &Users, event: Event) -> Result<(), QuestionFault>
    ensures said { OnOk result (is_of_list users.now event ≡ true) }
    ensures error { IfErr result
        (λ e. is_of_memory e ≡ false → is_of_list users.now event ≡ false) }
{
    if !has_program(users, event.thread) {
        return Ok(());
    }
    Err(QuestionFault::AgainProgram {
        thread: id_text(alloc, event.thread)?,
    })
}

/// Fails with `OfProgram` if one of two entries is one of a program.
fn are_of_lists(
    alloc: Global,
    users: &Users,
    first: Event,
    second: Event,
) -> Result<(), QuestionFault>
    ensures said { OnOk result (are_of_lists users.now first second ≡ true) }
    ensures error { IfErr result (λ e.
        is_of_memory e ≡ false → are_of_lists users.now first second ≡ false) }
{
    is_of_list(alloc, users, first, "never")?;
    is_of_list(alloc, users, second, "never")
}

/// Fails if a question about a program needs to know whether the program came to an entry before,
/// which a state does not say: with AgainProgram for `again`, and else with OfProgram.
fn fits_programs(alloc: Global, users: &Users, asked: &Asked) -> Result<(), QuestionFault>
    ensures said { OnOk result (fits users.now (said_of asked.now) ≡ true) }
    ensures error { IfErr result (λ e.
        is_of_memory e ≡ false → fits users.now (said_of asked.now) ≡ false) }
{
    match asked {
        Asked::Again { event } => goes_on_again(alloc, users, *event),
        Asked::Before { first, second } => are_of_lists(alloc, users, *first, *second),
        Asked::Answer { event, .. } => is_of_list(alloc, users, *event, "answer?"),
        Asked::Idle { .. }
        | Asked::Live { .. }
        | Asked::AnswerIf { .. }
        | Asked::Some { .. }
        | Asked::Never { .. }
        | Asked::Apart { .. }
        | Asked::Ruled { .. } => Ok(()),
    }
}

/// Returns the repeating list of a thread, and the entry with which it repeats, counted from 0.
fn again_of(users: &Users, thread: ObjId) -> Option<usize> {
    users.at(users.find(thread)?)?.again
}
/// Fails with `AgainTwice` if a question makes a list repeat that repeats already.
pub fn goes_on_once(alloc: Global, users: &Users, asked: &Asked) -> Result<(), QuestionFault> {
    match asked {
        Asked::Again { event } if again_of(users, event.thread).is_some() => {
            Err(QuestionFault::AgainTwice {
                thread: id_text(alloc, event.thread)?,
            })
        }
        _ => Ok(()),
    }
}

/// Fails with `ComesAgain` if a question is about the first time that an entry is given or
/// answered, and the entry repeats.
pub fn comes_once(alloc: Global, users: &Users, asked: &Asked) -> Result<(), QuestionFault> {
    let (event, instead) = match asked {
        Asked::Before { first, .. } => (*first, "never"),
        Asked::Answer { event, .. } => (*event, "answer?"),
        Asked::Idle { .. }
        | Asked::Live { .. }
        | Asked::AnswerIf { .. }
        | Asked::Some { .. }
        | Asked::Never { .. }
        | Asked::Apart { .. }
        | Asked::Again { .. }
        | Asked::Ruled { .. } => return Ok(()),
    };
    match again_of(users, event.thread) {
        Some(number) if number < event.number => Err(QuestionFault::ComesAgain {
            thread: id_text(alloc, event.thread)?,
            number: event.number,
            instead,
        }),
        _ => Ok(()),
    }
}
