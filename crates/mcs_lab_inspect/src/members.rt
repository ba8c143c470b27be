//! The words of a line as the members of an object of JSON, in the order of their names.
use crate::page::TextBuffer;
use mcs_lab_forms::{Field, Fields, number_of};
use mcs_text::Words;
use std::alloc::Global;

/// A member of a JSON object: its name, and the words of its value.
#[derive(Clone, Copy)]
pub struct Member<'a> {
    pub name: &'static [u8],
    pub value: &'a [u8],
    /// Whether each word of its value is an item of a list.
    pub is_list: bool,
    /// Whether its numbers have up to 64 bits.
    pub is_wide: bool,
}

/// Returns whether the numbers of a field have up to 64 bits: those of an address, of an index with
/// a depth, of a badge, and of a word of a message or a notification. A label has 52 bits, any
/// other number fewer.
fn is_wide(field: &Field<'_>) -> bool {
    field.is_looked_up()
        || field.name == b"badge".as_slice()
        || field.name == b"word".as_slice()
        || field.name == b"words".as_slice()
}

/// Returns whether a name sorts before another.
fn is_before(name: &[u8], other: &[u8]) -> bool {
    for i in 0..name.len().min(other.len()) {
        if name[i] != other[i] {
            return name[i] < other[i];
        }
    }
    name.len() < other.len()
}

/// Returns the member whose name sorts next after a name.
fn next_after<'a>(members: &[Member<'a>], name: &[u8]) -> Option<Member<'a>> {
    let mut next: Option<Member<'a>> = None;
    for member in members {
        if !is_before(name, member.name) {
            continue;
        }
        next = match next {
            Some(found) if !is_before(member.name, found.name) => Some(found),
            _ => Some(*member),
        };
    }
    next
}

/// Appends a value of one word: a number, which may be wide, `null` for a dash, or a text.
pub fn put_value(page: &mut TextBuffer, text: &[u8], is_wide: bool) {
    if text == b"-".as_slice() {
        return page.put(b"null");
    }
    match number_of(text) {
        Some(number) if is_wide => page.wide(number),
        Some(number) => page.number(number),
        None => page.quoted(text),
    }
}

/// Appends words as a list.
fn put_list(page: &mut TextBuffer, text: &[u8], is_wide: bool) {
    page.put(b"[");
    let mut words = Words::new(text);
    for i in 0..=text.len() {
        let Some(word) = words.next_word() else {
            break;
        };
        page.between(i == 0);
        put_value(page, word, is_wide);
    }
    page.put(b"]");
}

/// Appends a member, with a comma unless it is the first.
fn put_member(page: &mut TextBuffer, member: Member<'_>, is_first: bool) {
    page.between(is_first);
    page.quoted(member.name);
    page.put(b":");
    if member.is_list {
        put_list(page, member.value, member.is_wide);
    } else {
        put_value(page, member.value, member.is_wide);
    }
}

/// Appends an object of these members.
pub fn put_members(page: &mut TextBuffer, members: &[Member<'_>]) {
    page.put(b"{");
    let mut before = b"".as_slice();
    for i in 0..members.len() {
        let Some(member) = next_after(members, before) else {
            break;
        };
        put_member(page, member, i == 0);
        before = member.name;
    }
    page.put(b"}");
}

/// Returns the words of a text as members under the names of a form, and the rest under `more`.
/// None if an allocation fails.
pub fn members_of<'a>(
    alloc: Global,
    kind: Option<Member<'a>>,
    fields: &mut Fields<'static>,
    text: Option<&'a [u8]>,
) -> Option<Vec<Member<'a>>> {
    let mut members = Vec::new(alloc);
    if let Some(kind) = kind
        && members.push(kind).is_err()
    {
        return None;
    }
    let Some(text) = text else {
        return Some(members);
    };
    let mut rest = text;
    // each round but the last takes a word
    for _ in 0..=text.len() {
        let (member, after) = member_of(fields, rest);
        if members.push(member).is_err() {
            return None;
        }
        match after {
            Some(after) => rest = after,
            None => break,
        }
    }
    Some(members)
}

/// The word with which a text begins, and what follows the space after it.
pub fn split_word(text: &[u8]) -> (&[u8], Option<&[u8]>) {
    for (i, byte) in text.iter().enumerate() {
        if *byte == b' '
            && let Some((word, [_, after @ ..])) = text.split_at_checked(i)
        {
            return (word, Some(after));
        }
    }
    (text, None)
}

/// Returns the member with which a text begins, and what follows it.
fn member_of<'a>(fields: &mut Fields<'static>, text: &'a [u8]) -> (Member<'a>, Option<&'a [u8]>) {
    let Some(field) = fields.next_field() else {
        let more = Member {
            name: b"more".as_slice(),
            value: text,
            is_list: true,
            is_wide: true,
        };
        return (more, None);
    };
    let (value, after) = if field.is_last {
        (text, None)
    } else {
        split_word(text)
    };
    let member = Member {
        name: field.name,
        value,
        is_list: field.is_last && field.name == b"words".as_slice(),
        is_wide: is_wide(&field),
    };
    (member, after)
}
