//! The names of objects as a member of an object of JSON: `"names":{"t1":"client"}`.
use crate::page::TextBuffer;
use crate::spaces::object;
use mcs_lab_check::Labels;
use mcs_text::Token;
use mcs_types::{Kind, ObjId};

/// The kinds of objects, by their words.
pub const KINDS: &[Kind] = &[
    Kind::CNode,
    Kind::Context,
    Kind::Endpoint,
    Kind::Notification,
    Kind::Reply,
    Kind::Thread,
];

/// The member with the names of objects, as far as it is written; there is none if no object has a
/// name.
#[derive(Drop)]
pub struct NamesMember<'a> {
    names: &'a Labels,
    is_first: bool,
    is_begun: bool,
}

impl<'a> NamesMember<'a> {
    /// Returns an empty member, the first of its object or a later one.
    pub fn new(names: &'a Labels, is_first: bool) -> NamesMember<'a> {
        NamesMember {
            names,
            is_first,
            is_begun: false,
        }
    }

    /// Appends the beginning of the member, or the separator between two names.
    fn put_between(&mut self, page: &mut TextBuffer) {
        if self.is_begun {
            return page.put(b",");
        }
        page.between(self.is_first);
        page.put(b"\"names\":{");
        self.is_begun = true;
    }

    /// Appends the name of an object under its id, if it has one.
    pub fn put(&mut self, page: &mut TextBuffer, object: ObjId) {
        let names = self.names;
        let Some(name) = names.of(object) else {
            return;
        };
        self.put_between(page);
        page.quoted_word(&Token::Name(object));
        page.put(b":");
        page.quoted(name);
    }

    /// Appends the names of the first `count` objects of a kind.
    pub fn put_kind(&mut self, page: &mut TextBuffer, kind: Kind, count: u32) {
        for serial in 1..=count {
            self.put(page, object(kind, serial));
        }
    }

    /// Closes the member `names` if it was begun, and returns whether it was.
    pub fn end(&self, page: &mut TextBuffer) -> bool {
        if self.is_begun {
            page.put(b"}");
        }
        self.is_begun
    }
}
