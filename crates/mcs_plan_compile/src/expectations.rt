//! Expectations of a step: lines that begin with `?`.
ghost use Rattle.std.specs.Prelude.{◌≡◌, ◌++◌, Ok, IfOk, IfErr, OnOk, codes, option_map, string_bytes};
ghost use Rattle.mcs_plan_source.specs.Naming.{texts};
ghost use Rattle.mcs_plan_source.specs.Refusals.{Refuses};
ghost use Rattle.mcs_plan_compile.specs.Heads.{object_text};
ghost use Rattle.mcs_plan_compile.specs.Wanting.{begins_answer, asks_state, asks_tie, asks_debt, is_asked, cut_at_dot, has_queue, queue_named, subject_text, subject_more, answer_more, answers_more};
ghost use Rattle.mcs_plan_compile.specs.Wanting.{answer_read, asked_more, question_read, is_reason, away_read, wanted_read};

use crate::entries::{add_number, read_words};
use crate::steps::object_text;
use mcs_plan_source::{PlanError, Symbols, Tokens, add_word, not, number};
use mcs_types::{Kind, ObjId};
use std::alloc::{AllocError, Global};

/// Returns whether a word begins an answer.
fn begins_answer(word: &str) -> bool
    ensures { result ≡ begins_answer word.now }
{
    matches!(
        word,
        "done" | "got" | "heard" | "empty" | "waits" | "refused"
    )
}

/// Returns whether a word asks about a thread's state, or what it has.
fn asks_state(word: &str) -> bool
    ensures { result ≡ asks_state word.now }
{
    matches!(
        word,
        "waits" | "owed" | "running" | "restart" | "inactive" | "closed" | "got" | "heard"
    )
}

/// Returns whether a word asks what reached a thread, or what is bound to an object.
fn asks_tie(word: &str) -> bool
    ensures { result ≡ asks_tie word.now }
{
    matches!(
        word,
        "answered" | "bound" | "holds" | "priority" | "held" | "chain" | "homed"
    )
}

/// Returns whether a word asks what an object owes or holds.
fn asks_debt(word: &str) -> bool
    ensures { result ≡ asks_debt word.now }
{
    matches!(word, "owes" | "with" | "pending")
}

/// Returns whether a word is one that follows the subject of a question.
fn is_asked(word: &str) -> bool
    ensures { result ≡ is_asked word.now }
{
    asks_state(word) || asks_tie(word) || asks_debt(word)
}

/// Returns whether an object has a queue of this name.
fn has_queue(object: ObjId, end: &str) -> bool
    ensures { result ≡ has_queue object.kind end.now }
{
    match object.kind {
        Kind::Endpoint => end == "send" || end == "recv",
        Kind::Notification => end == "wait",
        _ => false,
    }
}

/// Returns a word before its last dot, and what follows the dot.
fn cut_at_dot(word: &str) -> Option<(&str, &str)>
    ensures { option_map (λ p. (p.0.now, p.1.now)) result ≡ cut_at_dot word.now }
{
    word.rsplit_once('.')
}

/// A queue of an object: `e1.recv`.
fn queue_text(alloc: Global, object: ObjId, end: &str) -> Result<String, AllocError>
    ensures { IfOk result
        (λ text. string_bytes text ≡ (object_text object ++ codes ".") ++ end.now) }
{
    let mut text = object_text(alloc, object)?;
    text.push_str(".")?;
    text.push_str(end)?;
    Ok(text)
}

/// The queue that a word names: `fs.ep.recv`, `.send` and `.wait`.
fn queue_named(alloc: Global, names: &Symbols, word: &str) -> Result<Option<String>, AllocError>
    ensures { IfOk result (λ text. option_map (λ t. string_bytes t) text
        ≡ queue_named names.now (cut_at_dot word.now)) }
{
    let Some((name, end)) = cut_at_dot(word) else {
        return Ok(None);
    };
    let Some(object) = names.find(name) else {
        return Ok(None);
    };
    if !has_queue(object, end) {
        return Ok(None);
    }
    Ok(Some(queue_text(alloc, object, end)?))
}

/// Returns the object or the queue that a word of a plan names.
fn subject_of(alloc: Global, names: &Symbols, word: &str) -> Result<Option<String>, AllocError>
    ensures { IfOk result (λ text. option_map (λ t. string_bytes t) text
        ≡ subject_text names.now word.now) }
{
    match names.find(word) {
        Some(object) => Ok(Some(object_text(alloc, object)?)),
        None => queue_named(alloc, names, word),
    }
}

/// Appends the subject of a question. `NoName` if the word names nothing.
fn add_subject(alloc: Global, names: &Symbols, to: &mut String, word: &str) -> Result<(), PlanError>
    ensures put { OnOk result
        (subject_more names.now word.now (string_bytes to.old) ≡ Ok (string_bytes to.new)) }
    ensures error { IfErr result
        (Refuses (subject_more names.now word.now (string_bytes to.old))) }
{
    match subject_of(alloc, names, word)? {
        Some(text) => Ok(add_word(to, text.as_str())?),
        None => Err(names.not_there(alloc, word)?),
    }
}

/// Appends a word of a question's answer: a name, a number, `-` or `nothing`. `NoName` for any
/// other word.
fn add_answer(alloc: Global, names: &Symbols, to: &mut String, word: &str) -> Result<(), PlanError>
    ensures put { OnOk result
        (answer_more names.now word.now (string_bytes to.old) ≡ Ok (string_bytes to.new)) }
    ensures error { IfErr result (Refuses (answer_more names.now word.now (string_bytes to.old))) }
{
    if let Some(n) = number(word) {
        return Ok(add_number(alloc, to, n)?);
    }
    if word == "-" || word == "nothing" {
        return Ok(add_word(to, word)?);
    }
    add_subject(alloc, names, to, word)
}

/// Appends the words of a question's answer, to the end of the line.
#[tactic(auto, using(crate::proofs::Answered::answer_turn, crate::proofs::Answered::answer_refused, crate::proofs::Answered::no_answers))]
fn add_answers(
    alloc: Global,
    names: &Symbols,
    to: &mut String,
    words: &mut Tokens<'_>,
) -> Result<(), PlanError>
    ensures put { OnOk result
        (answers_more names.now words.old (string_bytes to.old) ≡ Ok (string_bytes to.new)) }
    ensures error { IfErr result
        (Refuses (answers_more names.now words.old (string_bytes to.old))) }
{
    for _ in 0..words.len() {
        if let Some(word) = words.next() {
            add_answer(alloc, names, to, word)?;
        }
    }
    Ok(())
}

/// Reads an answer, whose words are numbers.
fn read_answer(alloc: Global, first: &str, words: &mut Tokens<'_>) -> Result<String, PlanError>
    ensures text { IfOk result (λ t. answer_read first.now words.old ≡ Ok (string_bytes t)) }
    ensures error { IfErr result (Refuses (answer_read first.now words.old)) }
{
    let mut text = String::from_str(alloc, "= ")?;
    text.push_str(first)?;
    read_words(alloc, &mut text, words, "a number")?;
    Ok(text)
}

/// Appends the word of a question, and those after it.
fn add_asked(
    alloc: Global,
    names: &Symbols,
    to: &mut String,
    words: &mut Tokens<'_>,
) -> Result<(), PlanError>
    ensures put { OnOk result
        (asked_more names.now words.old (string_bytes to.old) ≡ Ok (string_bytes to.new)) }
    ensures error { IfErr result (Refuses (asked_more names.now words.old (string_bytes to.old))) }
{
    let word = words.need("what is asked")?;
    if !is_asked(word) {
        return Err(not(alloc, word, "a word of a question"));
    }
    add_word(to, word)?;
    add_answers(alloc, names, to, words)
}

/// Reads a question: its subject, then `waits` or another word of questions, then names and
/// numbers.
fn read_question(
    alloc: Global,
    names: &Symbols,
    first: &str,
    words: &mut Tokens<'_>,
) -> Result<String, PlanError>
    ensures text { IfOk result
        (λ t. question_read names.now first.now words.old ≡ Ok (string_bytes t)) }
    ensures error { IfErr result (Refuses (question_read names.now first.now words.old)) }
{
    let mut text = String::from_str(alloc, "#?")?;
    add_subject(alloc, names, &mut text, first)?;
    if names.find(first).is_none() {
        add_answers(alloc, names, &mut text, words)?;
        return Ok(text);
    }
    add_asked(alloc, names, &mut text, words)?;
    Ok(text)
}

/// Returns whether a word is a reason why a step is skipped.
fn is_reason(word: &str) -> bool
    ensures { result ≡ is_reason word.now }
{
    matches!(word, "NotRunning" | "NoContext" | "WrongCore")
}

/// Reads that the step is skipped, and the reason.
fn read_away(alloc: Global, words: &mut Tokens<'_>) -> Result<String, PlanError>
    ensures text { IfOk result (λ t. away_read words.old ≡ Ok (string_bytes t)) }
    ensures error { IfErr result (Refuses (away_read words.old)) }
{
    let mut text = String::from_str(alloc, "#? away")?;
    let Some(reason) = words.next() else {
        return Ok(text);
    };
    if !is_reason(reason) {
        return Err(not(alloc, reason, "NotRunning, NoContext or WrongCore"));
    }
    words.end(alloc)?;
    add_word(&mut text, reason)?;
    Ok(text)
}

/// Returns what follows `?`, as a script has it: an answer, as `got 1 2 17`, a question, as `fs
/// waits fs.ep.recv`, or `away` with its reason.
pub fn read_wanted(alloc: Global, names: &Symbols, words: &[&str]) -> Result<String, PlanError>
    ensures text { IfOk result
        (λ t. wanted_read names.now (texts words.now) ≡ Ok (string_bytes t)) }
    ensures error { IfErr result (Refuses (wanted_read names.now (texts words.now))) }
{
    let mut words = Tokens::new(words);
    let first = words.need("what is wanted")?;
    if first == "away" {
        return read_away(alloc, &mut words);
    }
    if begins_answer(first) && names.find(first).is_none() {
        return read_answer(alloc, first, &mut words);
    }
    read_question(alloc, names, first, &mut words)
}
