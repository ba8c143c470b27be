//! The forms of the entries of a plan, and which operand a line lacks.
use mcs_plan_source::number;

/// The entries, each with the names of its operands: one word each, or any number of words for one
/// that ends in `..`. SLOT is a name, or an index and a depth.
pub const ENTRIES: &[&str] = &[
    "send ENDPOINT LABEL WORD..",
    "nbsend ENDPOINT LABEL WORD..",
    "call ENDPOINT LABEL WORD..",
    "recv ENDPOINT REPLY",
    "nbrecv ENDPOINT REPLY",
    "replyrecv ENDPOINT REPLY LABEL WORD..",
    "nbsendrecv TARGET SOURCE REPLY LABEL WORD..",
    "nbsendwait TARGET SOURCE LABEL WORD..",
    "wait NOTIFICATION",
    "nbwait NOTIFICATION",
    "signal NOTIFICATION",
    "setprio THREAD AUTHORITY PRIORITY",
    "suspend THREAD",
    "resume THREAD",
    "bindntfn THREAD NOTIFICATION",
    "unbindntfn THREAD",
    "bind CONTEXT THREAD",
    "unbind CONTEXT",
    "cancel ENDPOINT",
    "copy SLOT SLOT RIGHTS",
    "mint SLOT SLOT RIGHTS BADGE",
    "move SLOT SLOT",
    "delete SLOT",
    "make KIND SLOT",
];

/// Returns the form of the entry with this word, if there is one.
pub(crate) fn form_of(key: &str) -> Option<&'static str> {
    for &form in ENTRIES {
        if let Some((first, _)) = form.split_once(' ')
            && first == key
        {
            return Some(form);
        }
    }
    None
}

/// Returns what an operand is called in a message; None for one that may be left out.
fn name_of(operand: &str) -> Option<&'static str> {
    match operand {
        "ENDPOINT" => Some("the endpoint"),
        "REPLY" => Some("the reply object"),
        "LABEL" => Some("the label"),
        "TARGET" => Some("the endpoint of the message"),
        "SOURCE" => Some("the endpoint to receive from"),
        "NOTIFICATION" => Some("the notification"),
        "THREAD" => Some("the thread"),
        "AUTHORITY" => Some("the thread that gives the authority"),
        "PRIORITY" => Some("the priority"),
        "CONTEXT" => Some("the scheduling context"),
        "SLOT" => Some("the slot"),
        "RIGHTS" => Some("the set of rights"),
        "BADGE" => Some("the badge"),
        "KIND" => Some("the kind"),
        _ => None,
    }
}

/// Returns how many words an operand takes that begins with this word: two for an index and a
/// depth.
fn count_words(operand: &str, word: &str) -> usize {
    if operand == "SLOT" && number(word).is_some() {
        2
    } else {
        1
    }
}

/// Returns which operand of this form is missing, given the words after the entry's own; None if
/// none is.
pub(crate) fn missing_of(form: &'static str, given: &[&str]) -> Option<&'static str> {
    let (_, operands) = form.split_once(' ')?;
    let mut taken: usize = 0;
    for operand in operands.split(' ') {
        let Some(word) = given.get(taken) else {
            return name_of(operand);
        };
        taken = taken.saturating_add(count_words(operand, word));
        if taken > given.len() {
            return Some("the depth of the slot");
        }
    }
    None
}
