//! The state of each thread, as JSON. The members of an object are in the order of their names.
use crate::named::{KINDS, NamesMember};
use crate::page::TextBuffer;
use crate::spaces::object;
use crate::stuck::Waits;
use mcs_kernel::Kernel;
use mcs_lab_check::Labels;
use mcs_queues::LinkedLines;
use mcs_text::Token;
use mcs_types::{Kind, Letter, Mail, Message, ObjId, Queue, Status};

/// Writes the state of a kernel as JSON.
#[derive(Drop)]
struct Values<'a> {
    kernel: &'a Kernel<LinkedLines>,
    names: &'a Labels,
}

/// Appends the words of a message.
fn put_words(page: &mut TextBuffer, message: &Message) {
    page.put(b"\"words\":[");
    let mut is_first = true;
    for word in message.words() {
        page.between(is_first);
        is_first = false;
        page.wide(*word);
    }
    page.put(b"]");
}

/// Appends what a thread is blocked on, and its status: the last members of an object.
fn put_status(page: &mut TextBuffer, status: Option<Status>) {
    let word = match status {
        Some(Status::Running) => b"running".as_slice(),
        Some(Status::Restart) => b"restart".as_slice(),
        Some(Status::Inactive) => b"inactive".as_slice(),
        Some(Status::Closed) | None => b"closed".as_slice(),
        Some(Status::Queued(queue)) => {
            page.put(b",\"queue\":");
            page.quoted_word(&Token::Line(queue));
            b"waits".as_slice()
        }
        Some(Status::OnReply(reply)) => {
            page.put(b",\"reply\":");
            page.quoted_word(&Token::Name(reply));
            b"owed".as_slice()
        }
    };
    page.put(b",\"status\":");
    page.quoted(word);
}

impl<'a> Values<'a> {
    /// Appends what last reached a thread.
    fn put_mail(&self, page: &mut TextBuffer, thread: ObjId) {
        match self.kernel.mail(thread) {
            None => page.put(b"null"),
            Some(Mail::Word { word }) => {
                page.put(b"{\"heard\":");
                page.wide(*word);
                page.put(b"}");
            }
            Some(Mail::Message { badge, message }) => {
                page.put(b"{\"badge\":");
                page.wide(badge.0);
                page.put(b",\"label\":");
                page.number(message.label());
                page.put(b",");
                put_words(page, message);
                page.put(b"}");
            }
        }
    }

    /// Puts a thread.
    fn put_thread(&self, page: &mut TextBuffer, thread: ObjId) {
        page.put(b"{\"bound\":");
        page.maybe(self.kernel.bound(thread));
        page.put(b",\"context\":");
        page.maybe(self.kernel.context(thread));
        page.put(b",\"id\":");
        page.quoted_word(&Token::Name(thread));
        page.put(b",\"mail\":");
        self.put_mail(page, thread);
        page.name_member(self.names, thread);
        if let Some(priority) = self.kernel.priority(thread) {
            page.put(b",\"priority\":");
            page.number(priority.0 as u64);
        }
        put_status(page, self.kernel.status(thread));
        page.put(b"}");
    }

    /// Appends a queued thread, with the message that it sent.
    fn put_letter(&self, page: &mut TextBuffer, thread: ObjId, letter: &Letter) {
        page.put(b"{\"badge\":");
        page.wide(letter.badge.0);
        page.put(b",\"id\":");
        page.quoted_word(&Token::Name(thread));
        page.put(b",\"label\":");
        page.number(letter.message.label());
        page.put(b",\"message\":");
        page.quoted_word(&Token::Message(letter.number as u128));
        page.name_member(self.names, thread);
        page.put(b",");
        put_words(page, &letter.message);
        page.put(b"}");
    }

    /// Appends a queued thread.
    fn put_standing(&self, page: &mut TextBuffer, thread: ObjId) {
        match self.kernel.open(thread) {
            Some(letter) => self.put_letter(page, thread, letter),
            None => {
                page.put(b"{\"id\":");
                page.quoted_word(&Token::Name(thread));
                page.name_member(self.names, thread);
                page.put(b"}");
            }
        }
    }

    /// Appends a queue, with a comma unless it is the first; nothing if it is empty. Returns
    /// whether it was appended.
    fn put_queue(&self, page: &mut TextBuffer, queue: Queue, is_first: bool) -> bool {
        let mut is_empty = true;
        for thread in self.kernel.queue(queue) {
            if is_empty {
                page.between(is_first);
                page.put(b"{\"queue\":");
                page.quoted_word(&Token::Line(queue));
                page.put(b",\"threads\":[");
            } else {
                page.put(b",");
            }
            is_empty = false;
            self.put_standing(page, thread);
        }
        if !is_empty {
            page.put(b"]}");
        }
        !is_empty
    }

    /// Appends all queues that are not empty.
    fn put_queues(&self, page: &mut TextBuffer) {
        let mut is_first = true;
        for serial in 1..=self.kernel.made(Kind::Endpoint) {
            let endpoint = object(Kind::Endpoint, serial);
            if self.put_queue(page, Queue::Senders(endpoint), is_first) {
                is_first = false;
            }
            if self.put_queue(page, Queue::Receivers(endpoint), is_first) {
                is_first = false;
            }
        }
        for serial in 1..=self.kernel.made(Kind::Notification) {
            let notification = object(Kind::Notification, serial);
            if self.put_queue(page, Queue::Waiters(notification), is_first) {
                is_first = false;
            }
        }
    }

    /// Appends the chain of a context.
    fn put_chain(&self, page: &mut TextBuffer, context: ObjId) {
        let mut is_first = true;
        for reply in self.kernel.chain(context) {
            page.between(is_first);
            is_first = false;
            page.quoted_word(&Token::Name(reply));
        }
    }

    /// Appends an object that was closed.
    fn put_closed(&self, page: &mut TextBuffer, object: ObjId) {
        page.put(b"{\"id\":");
        page.quoted_word(&Token::Name(object));
        page.name_member(self.names, object);
        page.text_member("status", b"closed");
        page.put(b"}");
    }

    /// Appends a context.
    fn put_context(&self, page: &mut TextBuffer, context: ObjId) {
        let Some(core) = self.kernel.core(context) else {
            return self.put_closed(page, context);
        };
        page.put(b"{\"chain\":[");
        self.put_chain(page, context);
        page.put(b"],\"core\":");
        page.number(core.0 as u64);
        page.put(b",\"holder\":");
        page.maybe(self.kernel.holder(context));
        page.put(b",\"home\":");
        page.maybe(self.kernel.home(context));
        page.put(b",\"id\":");
        page.quoted_word(&Token::Name(context));
        page.name_member(self.names, context);
        page.put(b"}");
    }

    /// Appends a reply object.
    fn put_reply(&self, page: &mut TextBuffer, reply: ObjId) {
        page.put(b"{\"id\":");
        page.quoted_word(&Token::Name(reply));
        page.name_member(self.names, reply);
        page.put(b",\"owes\":");
        page.maybe(self.kernel.owed(reply));
        page.put(b",\"receiver\":");
        page.maybe(self.kernel.receiver(reply));
        page.put(b"}");
    }

    /// Appends a notification.
    fn put_notification(&self, page: &mut TextBuffer, notification: ObjId) {
        page.put(b"{\"bound\":");
        page.maybe(self.kernel.tied(notification));
        page.put(b",\"id\":");
        page.quoted_word(&Token::Name(notification));
        page.name_member(self.names, notification);
        page.put(b",\"pending\":");
        match self.kernel.word(notification) {
            Some(word) => page.wide(word),
            None => page.put(b"null"),
        }
        page.put(b"}");
    }

    /// Appends the filled slots of a CNode.
    fn put_cnode(&self, page: &mut TextBuffer, cnode: ObjId) {
        page.put(b"{\"id\":");
        page.quoted_word(&Token::Name(cnode));
        page.name_member(self.names, cnode);
        page.put(b",\"slots\":[");
        let mut is_first = true;
        for index in 0..=u8::MAX {
            let Some(cap) = self.kernel.capability(cnode, index) else {
                continue;
            };
            page.between(is_first);
            is_first = false;
            page.put(b"{\"capability\":");
            page.quoted_word(&Token::Cap(cap));
            page.put(b",\"index\":");
            page.number(index as u64);
            page.put(b"}");
        }
        page.put(b"]}");
    }

    /// Appends an endpoint; its threads are among those of all queues.
    fn put_endpoint(&self, page: &mut TextBuffer, endpoint: ObjId) {
        page.put(b"{\"id\":");
        page.quoted_word(&Token::Name(endpoint));
        page.name_member(self.names, endpoint);
        page.put(b"}");
    }

    /// Appends an object of a kind. A thread has its members even if it was closed.
    fn put_object(&self, page: &mut TextBuffer, object: ObjId) {
        if !self.kernel.is_there(object) && !object.kind.is_same(Kind::Thread) {
            return self.put_closed(page, object);
        }
        match object.kind {
            Kind::Thread => self.put_thread(page, object),
            Kind::Context => self.put_context(page, object),
            Kind::Reply => self.put_reply(page, object),
            Kind::Notification => self.put_notification(page, object),
            Kind::CNode => self.put_cnode(page, object),
            Kind::Endpoint => self.put_endpoint(page, object),
        }
    }

    /// Appends all objects of a kind, after the name of the list.
    fn put_all(&self, page: &mut TextBuffer, name: &[u8], kind: Kind) {
        page.put(name);
        for serial in 1..=self.kernel.made(kind) {
            page.between(serial == 1);
            self.put_object(page, object(kind, serial));
        }
        page.put(b"],");
    }

    /// Appends the names of all objects, if there are some, and a comma.
    fn put_names(&self, page: &mut TextBuffer) {
        let mut member = NamesMember::new(self.names, true);
        for kind in KINDS {
            member.put_kind(page, *kind, self.kernel.made(*kind));
        }
        if member.end(page) {
            page.put(b",");
        }
    }

    /// Appends the threads for which a thread waits.
    fn put_waited(&self, page: &mut TextBuffer, waits: &Waits, thread: ObjId) {
        let mut is_first = true;
        for serial in 1..=self.kernel.made(Kind::Thread) {
            let other = object(Kind::Thread, serial);
            if waits.is_waited(thread, other) {
                page.between(is_first);
                is_first = false;
                page.quoted_word(&Token::Name(other));
            }
        }
    }

    /// Appends the stuck threads, and the threads that each waits for.
    fn put_stuck(&self, page: &mut TextBuffer, waits: &Waits) {
        page.put(b"\"stuck\":[");
        let mut is_first = true;
        for serial in 1..=self.kernel.made(Kind::Thread) {
            let thread = object(Kind::Thread, serial);
            if !waits.is_stuck(thread) {
                continue;
            }
            page.between(is_first);
            is_first = false;
            page.put(b"{\"id\":");
            page.quoted_word(&Token::Name(thread));
            page.put(b",\"kind\":");
            page.quoted(waits.kind(thread).as_bytes());
            page.name_member(self.names, thread);
            put_status(page, self.kernel.status(thread));
            page.put(b",\"waits_for\":[");
            self.put_waited(page, waits, thread);
            page.put(b"]}");
        }
        page.put(b"]");
    }
}

/// Appends the state of each thread as one JSON object, or only the stuck threads.
pub fn put_values(
    page: &mut TextBuffer,
    kernel: &Kernel<LinkedLines>,
    names: &Labels,
    waits: &Waits,
    only_stuck: bool,
) {
    let values = Values { kernel, names };
    page.put(b"{");
    if !only_stuck {
        values.put_all(page, b"\"cnodes\":[", Kind::CNode);
        values.put_all(page, b"\"contexts\":[", Kind::Context);
    }
    values.put_names(page);
    if !only_stuck {
        values.put_all(page, b"\"notifications\":[", Kind::Notification);
        page.put(b"\"queues\":[");
        values.put_queues(page);
        page.put(b"],");
        values.put_all(page, b"\"replies\":[", Kind::Reply);
    }
    values.put_stuck(page, waits);
    if !only_stuck {
        page.put(b",");
        page.put(b"\"threads\":[");
        for serial in 1..=kernel.made(Kind::Thread) {
            page.between(serial == 1);
            values.put_thread(page, object(Kind::Thread, serial));
        }
        page.put(b"]");
    }
    page.put(b"}\n");
}
