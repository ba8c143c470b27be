//! Laws of the book, each the contract of a function that does nothing.
ghost use Rattle.std.specs.Prelude.{◌≡◌, ℕ, Ok};
ghost use Rattle.mcs_types.specs.declared.cap.Cap.{Cap};
ghost use Rattle.mcs_types.specs.declared.id.ObjId.{ObjId};
ghost use Rattle.mcs_types.specs.declared.record.Queue.{Queue};
ghost use Rattle.mcs_book.specs.Logs.{Log};
ghost use Rattle.mcs_book.specs.Queues.{queued_in};
ghost use Rattle.mcs_book.specs.Chains.{chain_of};
ghost use Rattle.mcs_book.specs.Lookup.{capability};
ghost use Rattle.mcs_book.specs.Messages.{open_of};
ghost use Rattle.mcs_book.specs.Notifications.{pending};
ghost use Rattle.mcs_book.specs.Paths.{IsNamed};
ghost use Rattle.mcs_book.specs.Growing.{growing_queue, threads_in, growing_chain, growing_open, growing_word};
ghost use Rattle.mcs_book.specs.Serials.{TakesNextId, MadeOnce};
ghost use Rattle.mcs_book.specs.Sound.{Sound};
ghost use Rattle.mcs_book.specs.History.{Book, IsLegal, log_of, steps_of, book_of};
ghost use Rattle.mcs_book.specs.Each.{EachRecord, EachLine, AfterEachLine};
ghost use Rattle.mcs_book.specs.Fair.{EndsOpen, NoneWaitBeside, SendersAreOpen, AnswersOwed, AnswersWhole, TakesAlive, TakesFirst, TakesInOrder, IsFair};

/// Law: a legal book takes or drops each message at most once.
pub fn taken_once()
    ghost book: { Book }
    requires { IsLegal book }
    ensures { EachRecord EndsOpen book }
{}

/// Law: after each line of a legal book no sender waits beside a waiting receiver.
pub fn none_beside()
    ghost book: { Book }
    requires { IsLegal book }
    ensures { AfterEachLine NoneWaitBeside book }
{}

/// Law: after each line of a legal book a thread is queued among the senders of an endpoint exactly
/// if a message of it is open there, and no thread has two.
pub fn not_cancelled()
    ghost book: { Book }
    requires { IsLegal book }
    ensures { AfterEachLine SendersAreOpen book }
{}

/// Law: each record of a legal book was allowed when it was made: the condition for its kind held.
pub fn sound()
    ghost book: { Book }
    requires { IsLegal book }
    ensures { Sound (log_of book) }
{}

/// Law: in a legal book a reply object that is paid or void owed that caller, and one that comes to
/// owe owed no thread.
pub fn answered_once()
    ghost book: { Book }
    requires { IsLegal book }
    ensures { EachRecord AnswersOwed book }
{}

/// Law: after the line of a reply in a legal book the caller's mail is the message of the line's
/// entry. If the reply object topped a chain and the caller held no context, it holds the one that
/// it brought.
pub fn answered_whole()
    ghost book: { Book }
    requires { IsLegal book }
    ensures { EachLine AnswersWhole book }
{}

/// Law: when a legal book takes a message, its endpoint exists.
pub fn not_deleted()
    ghost book: { Book }
    requires { IsLegal book }
    ensures { EachRecord TakesAlive book }
{}

/// Law: when a message of a legal book is taken, its sender is the first of the senders in the
/// queue, or its taker the first of the receivers, never both.
pub fn by_priority()
    ghost book: { Book }
    requires { IsLegal book }
    ensures { EachRecord TakesFirst book }
{}

/// Law: when a message of a legal book is taken, no later message of its sender was taken before.
pub fn sent_in_order()
    ghost book: { Book }
    requires { IsLegal book }
    ensures { EachRecord TakesInOrder book }
{}

/// Law: in a legal book an object that is made has the next id of its kind.
pub fn serials_counted()
    ghost book: { Book }
    requires { IsLegal book }
    ensures { EachRecord TakesNextId book }
{}

/// Law: in a legal book no object is made twice.
pub fn made_once()
    ghost book: { Book }
    requires { IsLegal book }
    ensures { EachRecord MadeOnce book }
{}

/// Law: a legal book is fair: all its laws at once.
pub fn fair()
    ghost book: { Book }
    requires { IsLegal book }
    ensures { IsFair book }
{}

/// Law: the steps of a legal book, taken again after its boot, make the book.
pub fn replayed()
    ghost book: { Book }
    requires { IsLegal book }
    ensures { book_of book.boot (steps_of book) ≡ book }
{}

/// Law: the queue built by joins, parts and priority changes is in order.
pub fn queue_in_order()
    ghost at: { Log × Queue }
    requires { Sound at.0 }
    ensures { queued_in at.0 at.1 ≡ threads_in (growing_queue at.0 at.1) }
{}

/// Law: the word that signals build up is the bits of all badges raised since it was last heard.
pub fn word_joined()
    ghost at: { Log × ObjId }
    ensures { pending at.0 at.1 ≡ growing_word at.0 at.1 }
{}

/// Law: the open message that the records leave to a thread is the one found among those sent.
pub fn open_found()
    ghost at: { Log × ObjId }
    requires { Sound at.0 }
    ensures { open_of at.0 at.1 ≡ growing_open at.0 at.1 }
{}

/// Law: a capability that lookup finds at an address is the one that a path names.
pub fn found_named()
    ghost at: { Log × ObjId × ℕ × Cap }
    requires { capability at.0 at.1 at.2 ≡ Ok at.3 }
    ensures { IsNamed at.0 at.1 at.2 at.3 }
{}

/// Law: the chain that debts push to and endings cut is the chain of the debts that remain.
pub fn chain_kept()
    ghost at: { Log × ObjId }
    requires { Sound at.0 }
    ensures { chain_of at.0 at.1 ≡ growing_chain at.0 at.1 }
{}
