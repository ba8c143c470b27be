//! Messages about a refused line of a plan: its fault, and a hint.
use crate::entry_forms::{form_of, missing_of};
use mcs_lab_forms::meant_by;
use mcs_plan_source::{
    Plan, PlanError, PlanFault, Shown, add_word, singular, split_comment, split_words,
};
use std::alloc::{AllocError, Global};
use std::str;

/// How many names are listed at most.
const LISTED: usize = 8;

/// Returns a line without the carriage return at its end.
fn without_return(line: &[u8]) -> &[u8] {
    match line {
        [text @ .., b'\r'] => text,
        _ => line,
    }
}

/// Returns the words of a line of a plan without its comment; None if it is no text, or memory is
/// refused.
pub fn plan_words<'a>(alloc: Global, line: &'a [u8]) -> Option<Vec<&'a str>> {
    let text = str::from_utf8(without_return(line)).ok()?;
    let (code, _) = split_comment(text);
    split_words(alloc, code).ok()
}

/// Returns the words of the line with this number, from 1.
fn words_at<'a>(alloc: Global, plan: &'a [u8], line: u64) -> Option<Vec<&'a str>> {
    let before = usize::try_from(line.checked_sub(1)?).ok()?;
    let text = plan.split(|byte| *byte == b'\n').nth(before)?;
    plan_words(alloc, text)
}

/// Returns alternatives as faults list them: at most eight, or `nothing`.
fn listed(alloc: Global, there: &str) -> Result<String, AllocError> {
    let mut text = String::new(alloc);
    let mut count: usize = 0;
    let mut is_renamed = false;
    for word in there.split(' ') {
        let goes_on = is_renamed || word == "as";
        is_renamed = word == "as";
        if !goes_on {
            count = count.saturating_add(1);
        }
        if count > LISTED {
            text.push_str(" ..")?;
            return Ok(text);
        }
        add_word(&mut text, word)?;
    }
    if text.is_empty() {
        return String::from_str(alloc, "nothing");
    }
    Ok(text)
}

/// Returns the message about an unknown name of a wanted kind.
fn no_name(
    alloc: Global,
    word: &str,
    wanted: &'static str,
    there: &str,
) -> Result<String, AllocError> {
    let shown = Shown { text: word };
    let there = listed(alloc, there)?;
    format!(in alloc; "{shown} is not the name of {wanted}; there are: {there}")
}

/// Returns the message about a capability that a thread or a space does not have.
fn no_capability(
    alloc: Global,
    holder: &str,
    word: &str,
    there: &str,
) -> Result<String, AllocError> {
    let holder = Shown { text: holder };
    let shown = Shown { text: word };
    let there = listed(alloc, there)?;
    format!(in alloc; "{holder} has no capability {shown}; it has: {there}")
}

/// Returns the index of the entry's word in a line: after the word that ends with a colon, or the
/// first.
fn entry_place(words: &[&str]) -> usize {
    match words.iter().position(|word| word.ends_with(":")) {
        Some(place) => place.saturating_add(1),
        None => 0,
    }
}

/// What an entry lacks, and its form.
#[derive(Clone, Copy)]
struct Lack {
    form: &'static str,
    what: &'static str,
}

/// Returns what the entry of a line lacks, if anything.
fn lack_of(words: &[&str]) -> Option<Lack> {
    let (key, given) = words.get(entry_place(words)..)?.split_first()?;
    let form = form_of(key)?;
    let what = missing_of(form, given)?;
    Some(Lack { form, what })
}

/// Returns the message about a line that ends too soon.
fn missing(
    alloc: Global,
    words: Option<Vec<&str>>,
    wanted: &'static str,
) -> Result<String, AllocError> {
    let lack = match words {
        Some(words) => lack_of(&words),
        None => None,
    };
    match lack {
        Some(Lack { form, what }) => format!(in alloc; "{form}: {what} is missing"),
        None => format!(in alloc; "{wanted} is missing at the end"),
    }
}

/// Returns the word that a misspelled one is near to: an entry of a plan, or else the first word of
/// another line.
fn meant(word: &str, is_entry: bool) -> Option<&'static str> {
    let key = str::from_utf8(meant_by(word.as_bytes())?).ok()?;
    if form_of(key).is_some() == is_entry && key != "slot" {
        Some(key)
    } else {
        None
    }
}

/// Returns the message about a word that begins no line.
fn unknown(alloc: Global, word: &str) -> Result<String, AllocError> {
    let shown = Shown { text: word };
    match meant(word, false) {
        Some(key) => format!(in alloc; "{shown} begins no line of a plan: did you mean {key}?"),
        None => format!(in alloc; "{shown} begins no line of a plan"),
    }
}

/// Returns the message about a word that is not what is wanted.
fn not_wanted(alloc: Global, word: &str, wanted: &'static str) -> Result<String, AllocError> {
    let shown = Shown { text: word };
    if wanted == "an entry"
        && let Some(key) = meant(word, true)
    {
        return format!(in alloc; "{shown} is not an entry: did you mean {key}?");
    }
    format!(in alloc; "{shown} is not {wanted}")
}

/// Where a name was given first, and to what: an object of this kind, with its article.
#[derive(Clone, Copy)]
struct First {
    line: u64,
    kind: &'static str,
}

/// Returns where a plan gave a name before a line, if it did.
fn first_of(alloc: Global, plan: &[u8], before: u64, name: &str) -> Option<First> {
    let mut read = Plan::new(alloc);
    let mut line: u64 = 0;
    for text in plan.split(|byte| *byte == b'\n') {
        line = line.saturating_add(1);
        if line >= before {
            return None;
        }
        let words = plan_words(alloc, text)?;
        let _ = read.read(alloc, line, &words);
        if let Some(object) = read.names.find(name) {
            let kind = singular(object.kind);
            return Some(First { line, kind });
        }
    }
    None
}

/// Returns whether a line names slots of a space, not objects.
fn names_slots(words: Option<Vec<&str>>) -> bool {
    match words {
        Some(words) => words.get(1).is_some_and(|word| *word == "has"),
        None => false,
    }
}

/// Returns the message about a name that is given again.
fn twice(alloc: Global, plan: &[u8], line: u64, word: &str) -> Result<String, AllocError> {
    let shown = Shown { text: word };
    if !names_slots(words_at(alloc, plan, line))
        && let Some(First { line, kind }) = first_of(alloc, plan, line, word)
    {
        return format!(in alloc; "{shown} is named twice; first named in line {line}, {kind}");
    }
    format!(in alloc; "{shown} is named twice")
}

/// Returns the message about a refused line of a plan.
pub fn message_of(alloc: Global, plan: &[u8], fault: &PlanFault) -> Result<String, AllocError> {
    let line = fault.line;
    match &fault.why {
        PlanError::NoName {
            word,
            wanted,
            there,
        } => no_name(alloc, word.as_str(), wanted, there.as_str()),
        PlanError::NoCapability {
            holder,
            word,
            there,
        } => no_capability(alloc, holder.as_str(), word.as_str(), there.as_str()),
        PlanError::Missing { wanted } => missing(alloc, words_at(alloc, plan, line), wanted),
        PlanError::Unknown { word } => unknown(alloc, word.as_str()),
        PlanError::Not { word, wanted } => not_wanted(alloc, word.as_str(), wanted),
        PlanError::Twice { word } => twice(alloc, plan, line, word.as_str()),
        why => format!(in alloc; "{why}"),
    }
}
