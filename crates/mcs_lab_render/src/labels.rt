//! The names of objects in a picture.
use mcs_lab_inspect::TextBuffer;
use mcs_text::letter;
use mcs_types::{ObjId, Queue};

/// Names for objects.
pub trait Naming: Drop {
    /// The name of an object, if it has one.
    fn name(&self, object: ObjId) -> Option<&str>;
}

/// Appends the id of an object, as `t1`.
pub fn put_id(to: &mut TextBuffer, object: ObjId) {
    to.put(&[letter(object.kind)]);
    to.number(object.serial as u64);
}

/// Appends the name of an object, or its id where it has none.
pub fn put_name<N: Naming>(to: &mut TextBuffer, names: &N, object: ObjId) {
    match names.name(object) {
        Some(name) => to.put(name.as_bytes()),
        None => put_id(to, object),
    }
}

/// Appends the id of an object, with its name where it has one, as `client (t1)`.
pub fn put_full_name<N: Naming>(to: &mut TextBuffer, names: &N, object: ObjId) {
    let Some(name) = names.name(object) else {
        return put_id(to, object);
    };
    to.put(name.as_bytes());
    to.put(b" (");
    put_id(to, object);
    to.put(b")");
}

/// Appends the name of a queue, such as `fs.recv`.
pub fn put_queue<N: Naming>(to: &mut TextBuffer, names: &N, queue: Queue) {
    let (object, end) = match queue {
        Queue::Senders(object) => (object, ".send"),
        Queue::Receivers(object) => (object, ".recv"),
        Queue::Waiters(object) => (object, ".wait"),
    };
    put_name(to, names, object);
    to.put(end.as_bytes());
}
