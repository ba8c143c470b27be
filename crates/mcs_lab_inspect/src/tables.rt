//! The state of each thread, as text.
use crate::page::TextBuffer;
use crate::spaces::object;
use mcs_kernel::Kernel;
use mcs_lab_check::Labels;
use mcs_queues::LinkedLines;
use mcs_text::Token;
use mcs_types::{Kind, Mail, Message, ObjId, Queue, Status};

/// Writes the tables of a kernel as text.
#[derive(Drop)]
struct Tables<'a> {
    kernel: &'a Kernel<LinkedLines>,
    names: &'a Labels,
}

/// Appends the label and the words of a message.
fn put_message(page: &mut TextBuffer, message: &Message) {
    page.put(b" ");
    page.number(message.label());
    for word in message.words() {
        page.put(b" ");
        page.number(*word);
    }
}

impl<'a> Tables<'a> {
    /// Appends an object after some words, if it exists.
    fn put_some(&self, page: &mut TextBuffer, before: &[u8], object: Option<ObjId>) {
        if let Some(object) = object {
            page.put(before);
            page.object(self.names, object);
        }
    }

    /// Appends what a thread does.
    fn put_status(&self, page: &mut TextBuffer, status: Option<Status>) {
        match status {
            Some(Status::Running) => page.put(b"running"),
            Some(Status::Restart) => page.put(b"restart"),
            Some(Status::Inactive) => page.put(b"inactive"),
            Some(Status::Closed) | None => page.put(b"closed"),
            Some(Status::Queued(queue)) => {
                page.put(b"waits in ");
                page.queue(self.names, queue);
            }
            Some(Status::OnReply(reply)) => {
                page.put(b"waits for the answer that ");
                page.object(self.names, reply);
                page.put(b" owes");
            }
        }
    }

    /// Appends the message or the word that last reached a thread.
    fn put_mail(&self, page: &mut TextBuffer, thread: ObjId) {
        match self.kernel.mail(thread) {
            None => {}
            Some(Mail::Word { word }) => {
                page.put(b"; heard ");
                page.number(*word);
            }
            Some(Mail::Message { badge, message }) => {
                page.put(b"; got ");
                page.number(badge.0);
                put_message(page, message);
            }
        }
    }

    /// Appends a line on a thread: its priority, status, context, bound notification and mail.
    fn put_thread(&self, page: &mut TextBuffer, thread: ObjId) {
        page.put(b"  ");
        page.object(self.names, thread);
        if let Some(priority) = self.kernel.priority(thread) {
            page.put(b" (priority ");
            page.number(priority.0 as u64);
            page.put(b")");
        }
        page.put(b": ");
        self.put_status(page, self.kernel.status(thread));
        match self.kernel.context(thread) {
            None => page.put(b"; holds no context"),
            context => self.put_some(page, b"; holds ", context),
        }
        self.put_some(page, b"; bound to ", self.kernel.bound(thread));
        self.put_mail(page, thread);
        page.put(b"\n");
    }

    /// Appends a queued thread, with the message that it sent.
    fn put_standing(&self, page: &mut TextBuffer, thread: ObjId) {
        page.put(b" ");
        page.object(self.names, thread);
        if let Some(letter) = self.kernel.open(thread) {
            page.put(b" [m");
            page.number(letter.number as u64);
            page.put(b": ");
            page.number(letter.badge.0);
            put_message(page, &letter.message);
            page.put(b"]");
        }
    }

    /// Appends a queue with its threads and their messages, if it is not empty.
    fn put_queue(&self, page: &mut TextBuffer, queue: Queue) {
        let mut is_first = true;
        for thread in self.kernel.queue(queue) {
            if is_first {
                page.put(b"  ");
                page.queue(self.names, queue);
                page.put(b":");
                is_first = false;
            }
            self.put_standing(page, thread);
        }
        if !is_first {
            page.put(b"\n");
        }
    }

    /// Appends the chain of a context.
    fn put_chain(&self, page: &mut TextBuffer, context: ObjId) {
        let mut is_first = true;
        for reply in self.kernel.chain(context) {
            if is_first {
                page.put(b"; chain ");
            } else {
                page.put(b" ");
            }
            page.object(self.names, reply);
            is_first = false;
        }
    }

    /// Appends a context, if it exists.
    fn put_context(&self, page: &mut TextBuffer, context: ObjId) {
        let Some(core) = self.kernel.core(context) else {
            return;
        };
        page.put(b"  ");
        page.object(self.names, context);
        page.put(b": core ");
        page.number(core.0 as u64);
        match self.kernel.holder(context) {
            None => page.put(b"; held by -"),
            holder => self.put_some(page, b"; held by ", holder),
        }
        self.put_some(page, b"; homed at ", self.kernel.home(context));
        self.put_chain(page, context);
        page.put(b"\n");
    }

    /// Appends a thread that uses a reply object, after words for how, if there is one.
    fn put_user(&self, page: &mut TextBuffer, reply: ObjId, words: &[u8], thread: Option<ObjId>) {
        if thread.is_some() {
            page.put(b"  ");
            page.object(self.names, reply);
            self.put_some(page, words, thread);
            page.put(b"\n");
        }
    }

    /// Appends a notification, if its word is pending or a thread is bound to it.
    fn put_notification(&self, page: &mut TextBuffer, notification: ObjId) {
        let word = self.kernel.word(notification);
        let tied = self.kernel.tied(notification);
        if word.is_none() && tied.is_none() {
            return;
        }
        page.put(b"  ");
        page.object(self.names, notification);
        page.put(b":");
        if let Some(word) = word {
            page.put(b" pending ");
            page.number(word);
        }
        self.put_some(page, b" bound to ", tied);
        page.put(b"\n");
    }

    /// Appends the filled slots of a CNode.
    fn put_slots(&self, page: &mut TextBuffer, cnode: ObjId) {
        for index in 0..=u8::MAX {
            if let Some(cap) = self.kernel.capability(cnode, index) {
                page.put(b"  ");
                page.object(self.names, cnode);
                page.put(b" ");
                page.number(index as u64);
                page.put(b": ");
                page.word(&Token::Cap(cap));
                page.put(b"\n");
            }
        }
    }

    /// Appends an object of a kind.
    fn put_object(&self, page: &mut TextBuffer, object: ObjId) {
        match object.kind {
            Kind::Thread => self.put_thread(page, object),
            Kind::Endpoint => {
                self.put_queue(page, Queue::Senders(object));
                self.put_queue(page, Queue::Receivers(object));
            }
            Kind::Context => self.put_context(page, object),
            Kind::Reply => {
                self.put_user(page, object, b" owes ", self.kernel.owed(object));
                self.put_user(page, object, b" with ", self.kernel.receiver(object));
            }
            Kind::Notification => self.put_notification(page, object),
            Kind::CNode => self.put_slots(page, object),
        }
    }

    /// Appends all objects of a kind, under a title.
    fn put_kind(&self, page: &mut TextBuffer, title: &[u8], kind: Kind) {
        page.put(title);
        for serial in 1..=self.kernel.made(kind) {
            self.put_object(page, object(kind, serial));
        }
    }
}

/// Appends the state of each thread and object.
pub fn put_tables(page: &mut TextBuffer, kernel: &Kernel<LinkedLines>, names: &Labels) {
    let tables = Tables { kernel, names };
    tables.put_kind(page, b"threads\n", Kind::Thread);
    tables.put_kind(page, b"queues\n", Kind::Endpoint);
    for serial in 1..=kernel.made(Kind::Notification) {
        tables.put_queue(page, Queue::Waiters(object(Kind::Notification, serial)));
    }
    tables.put_kind(page, b"contexts\n", Kind::Context);
    tables.put_kind(page, b"reply objects\n", Kind::Reply);
    tables.put_kind(page, b"notifications\n", Kind::Notification);
    tables.put_kind(page, b"slots\n", Kind::CNode);
}
