//! The tables, and a primitive for each kind of record.
ghost use Rattle.std.specs.Prelude.{◌≡◌, ◌<◌, ◌≤◌, ◌∷◌, ◌++◌, [], IfOk, IfSome, OnOk, length, vec_len, vec_capacity, reverse, ◌+◌};
ghost use Rattle.mcs_types.specs.declared.record.Rec.{Rec};
ghost use Rattle.mcs_book.specs.Logs.{onto};
ghost use Rattle.mcs_book.specs.Boots.{boot_line};
ghost use Rattle.mcs_book.specs.History.{log_of, with_boot_line, with_line};
ghost use Rattle.mcs_book.specs.Messages.{open_of};
ghost use Rattle.mcs_book.specs.Sound.{Allowed};
ghost use Rattle.mcs_state.specs.Now.{so_far, adds, IsNumberOf};
ghost use Rattle.mcs_state.specs.Tables.{HAND};

mod creation;
mod debts;
mod handover;
mod notifications;
mod picks;
mod queries;
mod removal;

use crate::letters::{Letters, OpenLetter, deliver};
use crate::receivers::{attend, attended};
use mcs_book::Book;
use mcs_contexts::Contexts;
use mcs_notifications::Notifications;
use mcs_object_queues::Waiting;
use mcs_packing::Lent;
use mcs_replies::Replies;
use mcs_slots::{SlotId, Slots, Tallied};
use mcs_threads::{Block, Threads};
use mcs_types::{
    Answer, BOOK_LINES, Badge, BootLine, Cap, Copied, Copies, Kind, LINE_RECORDS, Letter, Message,
    Mode, OBJECTS, ObjId, OutOfMemory, Prio, Queue, Rec, SendMode, Step, cap_again,
};
pub use picks::is_ready;
use std::alloc::Global;
use std::marker::Model;

/// All tables, beside the book, whose open line has the records made so far by the current entry.
pub struct State<W: Waiting> {
    book: Book,
    threads: Threads,
    letters: Letters,
    contexts: Contexts,
    queues: W,
    replies: Replies,
    notifications: Notifications,
    slots: Slots,
    sent: u32,
}

// Written by hand as a separate function: a derived drop would be proved again wherever a state, a
// boot or a kernel is dropped.
impl<W: Waiting> Drop for State<W> {
    fn drop(self) {
        let State {
            book: _,
            threads: _,
            letters: _,
            contexts: _,
            queues: _,
            replies: _,
            notifications: _,
            slots: _,
            sent: _,
        } = self;
    }
}

/// The tables of a dropped state, for their memory.
#[derive(Drop)]
struct Spare<W: Waiting> {
    book: Option<Book>,
    threads: Option<Threads>,
    letters: Option<Letters>,
    contexts: Option<Contexts>,
    queues: Option<W>,
    replies: Option<Replies>,
    notifications: Option<Notifications>,
    slots: Option<Slots>,
}

/// Returns an empty `Spare`.
fn no_tables<W: Waiting>() -> Spare<W> {
    Spare {
        slots: None,
        threads: None,
        contexts: None,
        replies: None,
        notifications: None,
        queues: None,
        letters: None,
        book: None,
    }
}

impl<W: Waiting> Model for State<W> {
    ghost use Rattle.std.specs.Prelude.{◌≤◌, ◌+◌, ◌++◌, length};
    ghost use Rattle.mcs_book.specs.History.{log_of};
    ghost use Rattle.mcs_state.specs.Now.{Now};
    ghost use Rattle.mcs_state.specs.Tables.{HAND, IsKept, Tables, Queueing};

    ghost Value = { Now };

    ghost view = { λ s. record {
      book = s.book.book;
      hand = s.book.hand;
      boot_room = s.book.boot_room;
      room = s.book.room + length s.book.hand;
    } };

    ghost invariant = { λ s. (s.book.room + length s.book.hand ≤ HAND + 1)
        × IsKept (record {
          threads = s.threads;
          letters = s.letters;
          contexts = s.contexts;
          queues = record {
            line = W.line s.queues;
            queue = W.queue s.queues;
            has = W.has s.queues;
            made = W.given s.queues;
            there = W.there s.queues;
          };
          replies = s.replies;
          notifications = s.notifications;
          slots = s.slots;
          sent = s.sent;
        }) (length s.book.book.lines) s.book.hand (s.book.hand ++ log_of s.book.book) };
}

impl<W: Waiting> State<W> {
    /// Returns a state with no objects, and all tables allocated. `tallied` changes no result.
    pub fn new(alloc: Global, cores: u8, tallied: Tallied) -> Result<State<W>, OutOfMemory>
        ensures cores { IfOk result (λ s. s.book.boot.cores ≡ cores) }
        ensures boot { IfOk result (λ s. s.book.boot.lines ≡ []) }
        ensures lines { IfOk result (λ s. s.book.lines ≡ []) }
        ensures hand { IfOk result (λ s. s.hand ≡ []) }
    {
        // Fields whose drop takes long to prove come last.
        Ok(State {
            slots: Slots::new(alloc, &[], tallied)?,
            threads: Threads::new(alloc)?,
            contexts: Contexts::new(alloc)?,
            replies: Replies::new(alloc)?,
            notifications: Notifications::new(alloc)?,
            queues: W::new(alloc)?,
            letters: Letters::new(alloc)?,
            book: Book::new(alloc, cores),
            sent: 0,
        })
    }

    /// The tables.
    fn into_tables(self) -> Spare<W> {
        let State {
            book,
            threads,
            letters,
            contexts,
            queues,
            replies,
            notifications,
            slots,
            sent: _,
        } = self;
        Spare {
            slots: Some(slots),
            threads: Some(threads),
            contexts: Some(contexts),
            replies: Some(replies),
            notifications: Some(notifications),
            queues: Some(queues),
            letters: Some(letters),
            book: Some(book),
        }
    }

    /// Clones the state in the memory of a spare one. `OutOfMemory` if an allocation fails.
    pub fn copy(&self, alloc: Global, spare: Option<State<W>>) -> Result<State<W>, OutOfMemory>
        ensures book { IfOk result (λ s. s.book ≡ self.now.book) }
        ensures hand { IfOk result (λ s. s.hand ≡ self.now.hand) }
    {
        let spare = match spare {
            Some(spare) => spare.into_tables(),
            None => no_tables(),
        };
        // Fields whose drop takes long to prove come last.
        Ok(State {
            slots: self.slots.copy_all(alloc, spare.slots)?,
            threads: self.threads.copy(alloc, spare.threads)?,
            contexts: self.contexts.copy(alloc, spare.contexts)?,
            replies: self.replies.copy(alloc, spare.replies)?,
            notifications: self.notifications.copy(alloc, spare.notifications)?,
            queues: self.queues.copy(alloc, spare.queues)?,
            letters: self.letters.copy(alloc, spare.letters)?,
            book: self.book.copy(alloc, spare.book)?,
            sent: self.sent,
        })
    }

    /// The book.
    pub fn book(&self) -> &Book
        ensures { result.now.book ≡ self.now.book }
    {
        &self.book
    }

    /// Returns the book, and drops the tables.
    pub fn into_book(self) -> Book
        ensures { result.book ≡ self.book }
    {
        let State {
            book,
            threads: _threads,
            letters: _letters,
            contexts: _contexts,
            queues: _queues,
            replies: _replies,
            notifications: _notifications,
            slots: _slots,
            sent: _,
        } = self;
        book
    }

    /// Allocates room for one line of the boot, but none for its records.
    pub fn reserve_boot_line(&mut self) -> Result<(), OutOfMemory>
        ensures room { OnOk result (0 < self.new.boot_room) }
        ensures book { self.new.book ≡ self.old.book }
        ensures hand { self.new.hand ≡ self.old.hand }
        ensures line_room { self.new.room ≡ self.old.room }
    {
        self.book.reserve_boot_line()
    }

    /// Allocates room for one line with as many records as a line may have.
    pub fn reserve(&mut self) -> Result<(), OutOfMemory>
        ensures room { OnOk result (HAND < self.new.room) }
        ensures book { self.new.book ≡ self.old.book }
        ensures hand { self.new.hand ≡ self.old.hand }
    {
        self.is_sound();
        self.book.reserve(LINE_RECORDS - self.book.open_records())
    }

    /// Moves the open line's records to a line of the boot.
    pub fn close_boot_line(&mut self, line: BootLine)
        requires room { 0 < self.old.boot_room }
        requires boot { self.old.book.lines ≡ [] }
        requires records { self.old.hand ≡ onto (boot_line (log_of self.old.book) line) [] }
        ensures book { self.new.book ≡ with_boot_line self.old.book line }
        ensures hand { self.new.hand ≡ [] }
    {
        self.book.add_boot_line(line);
    }

    // The primitives of most lines are inlined, so that the compiler keeps only the arm for their
    // record.

    /// Moves the open line's records to a line of the book.
    #[inline(always)]
    pub fn close(&mut self, step: &Step, answer: &Answer)
        requires { length self.old.hand < self.old.room }
        ensures book { self.new.book
            ≡ with_line self.old.book step.now answer.now (reverse self.old.hand) }
        ensures hand { self.new.hand ≡ [] }
    {
        self.book.close(step, answer);
    }

    /// Puts a capability into a slot, or empties the slot.
    #[inline(always)]
    pub fn fills(&mut self, at: SlotId, cap: Option<Cap>)
        requires allowed { Allowed (so_far self.old) (Rec.Slot at.cnode at.index cap) }
        requires room { length self.old.hand + 1 < self.old.room }
        ensures { self.new ≡ adds (Rec.Slot at.cnode at.index cap) self.old }
    {
        self.slots.are_pages();
        self.slots.set(at, cap_again(&cap));
        let SlotId { cnode, index } = at;
        self.book.note(Rec::Slot { cnode, index, cap });
    }

    /// Sets the priority of a thread. A queued thread is queued anew.
    pub fn prio(&mut self, thread: ObjId, priority: Prio)
        requires allowed { Allowed (so_far self.old) (Rec.Prio thread priority) }
        requires room { length self.old.hand + 1 < self.old.room }
        ensures { self.new ≡ adds (Rec.Prio thread priority) self.old }
    {
        self.book.note(Rec::Prio { thread, priority });
        self.threads.set_prio(thread, priority).unwrap();
        self.queues.shift(thread, priority);
    }

    /// Sets the mode of a thread.
    pub fn turns(&mut self, thread: ObjId, mode: Mode)
        requires allowed { Allowed (so_far self.old) (Rec.Turns thread mode) }
        requires room { length self.old.hand + 1 < self.old.room }
        ensures { self.new ≡ adds (Rec.Turns thread mode) self.old }
    {
        self.book.note(Rec::Turns { thread, mode });
        self.threads.set_mode(thread, mode).unwrap();
    }

    /// Puts a thread into a queue; a receiver names its reply object.
    // inlined, as `parts` is: callers know the kind of the queue
    #[inline(always)]
    pub fn joins(&mut self, thread: ObjId, queue: Queue, reply: Option<ObjId>)
        requires allowed { Allowed (so_far self.old) (Rec.Joins thread queue reply) }
        requires room { length self.old.hand + 1 < self.old.room }
        ensures { self.new ≡ adds (Rec.Joins thread queue reply) self.old }
    {
        self.threads.are_few();
        let priority = self.priority(thread);
        self.book.note(Rec::Joins {
            thread,
            queue,
            reply,
        });
        let block = Block::Queued { queue, reply };
        self.threads.block(thread, block).unwrap();
        self.queues.join(thread, queue, priority);
        attend(&mut self.replies, attended(queue, reply), Some(thread));
    }

    /// Takes a thread out of its queue.
    #[inline(always)]
    pub fn parts(&mut self, thread: ObjId, queue: Queue)
        requires allowed { Allowed (so_far self.old) (Rec.Parts thread queue) }
        requires room { length self.old.hand + 1 < self.old.room }
        ensures { self.new ≡ adds (Rec.Parts thread queue) self.old }
    {
        let reply = self.reply_with(thread, queue);
        self.book.note(Rec::Parts { thread, queue });
        self.threads.unblock(thread).unwrap();
        self.queues.part(thread);
        attend(&mut self.replies, reply, None);
    }

    /// Sends a message of a thread on an endpoint.
    #[inline(always)]
    pub fn sends(
        &mut self,
        sender: ObjId,
        endpoint: ObjId,
        mode: SendMode,
        badge: Badge,
        message: Copies<'_>,
    )
        requires allowed { Allowed (so_far self.old) (Rec.Sent sender endpoint mode badge message) }
        requires few { length self.old.book.lines < BOOK_LINES }
        requires room { length self.old.hand + 1 < self.old.room }
        ensures { self.new ≡ adds (Rec.Sent sender endpoint mode badge message.entry) self.old }
    {
        self.threads.are_few();
        let given = message.message;
        let Copied {
            noted,
            mail,
            answer,
        } = message.made();
        let lent = Lent {
            message: given,
            spare: noted,
        };
        self.book.note_sent(sender, endpoint, mode, badge, lent);
        let letter = OpenLetter {
            letter: Letter {
                number: self.sent,
                sender,
                endpoint,
                mode,
                badge,
                message: mail,
            },
            answer,
        };
        self.sent += 1;
        self.letters.open(sender, letter);
    }

    /// Moves the open message of a sender, which has this number, to the mail of its receiver.
    /// Returns an equal message.
    #[inline(always)]
    pub fn took(&mut self, number: u32, sender: ObjId, receiver: ObjId) -> Message
        requires allowed { Allowed (so_far self.old) (Rec.Took number receiver) }
        requires open { IsNumberOf number (open_of (so_far self.old) sender) }
        requires room { length self.old.hand + 1 < self.old.room }
        ensures took { self.new ≡ adds (Rec.Took number receiver) self.old }
        ensures message { IfSome (open_of (so_far self.old) sender) (λ l. result ≡ l.message) }
    {
        self.threads.are_few();
        self.book.note(Rec::Took {
            message: number,
            thread: receiver,
        });
        match self.letters.close(sender) {
            None => unreachable!(),
            Some(letter) => deliver(&mut self.threads, receiver, letter),
        }
    }

    /// Drops the open message of a sender, which has this number: no thread receives it (own).
    pub fn drops(&mut self, number: u32, sender: ObjId)
        requires allowed { Allowed (so_far self.old) (Rec.Dropped number) }
        requires open { IsNumberOf number (open_of (so_far self.old) sender) }
        requires room { length self.old.hand + 1 < self.old.room }
        ensures { self.new ≡ adds (Rec.Dropped number) self.old }
    {
        self.book.note(Rec::Dropped { message: number });
        self.letters.close(sender);
    }

    /// Gives a context to this thread, or to none.
    #[inline(always)]
    pub fn holds(&mut self, context: ObjId, thread: Option<ObjId>)
        requires allowed { Allowed (so_far self.old) (Rec.Holds context thread) }
        requires room { length self.old.hand + 1 < self.old.room }
        ensures { self.new ≡ adds (Rec.Holds context thread) self.old }
    {
        self.threads.are_few();
        self.contexts.is_one_to_one();
        self.contexts.give(context, thread);
        self.book.note(Rec::Holds { context, thread });
    }
}
