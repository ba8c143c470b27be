//! No law of fair books is vacuous: small books that break one, and small books that keep all. Each
//! statement is the contract of a function that does nothing.
ghost use Rattle.mcs_book.specs.Each.{EachLine, AfterEachLine, EachRecord};
ghost use Rattle.mcs_book.specs.Fair.{EndsOpen, IsWholeLine, TakesFirst, TakesInOrder, TakesAlive, SendersAreOpen, AnswersOwed, AnswersWhole, NoneWaitBeside, IsFair};
ghost use Rattle.mcs_book.specs.History.{IsLegal};
ghost use Rattle.mcs_book.specs.SmallBooks.{answered, taken_in_turn, second_take, wrong_badge, not_the_first, out_of_order, after_the_end, nothing_sent, paid_twice, kept_context, both_wait};

/// Law: each law of fair books refuses a small book. In these books, in this order, a message is
/// taken twice; it is taken with another badge than it was sent with; it is taken from a sender
/// that is not first in the queue; the later of two messages of one sender is taken first; a
/// message is taken after its endpoint was closed; a sender is queued without an open message; a
/// call is answered twice; the context that a call brought does not return with its answer; and a
/// sender waits beside a receiver.
pub fn each_law_refuses()
    ensures second_take { EachRecord EndsOpen second_take → ⊥ }
    ensures wrong_badge { EachLine IsWholeLine wrong_badge → ⊥ }
    ensures not_the_first { EachRecord TakesFirst not_the_first → ⊥ }
    ensures out_of_order { EachRecord TakesInOrder out_of_order → ⊥ }
    ensures after_the_end { EachRecord TakesAlive after_the_end → ⊥ }
    ensures nothing_sent { AfterEachLine SendersAreOpen nothing_sent → ⊥ }
    ensures paid_twice { EachRecord AnswersOwed paid_twice → ⊥ }
    ensures kept_context { EachLine AnswersWhole kept_context → ⊥ }
    ensures both_wait { AfterEachLine NoneWaitBeside both_wait → ⊥ }
{}

/// Law: a book with a call, its answer and the returning context is legal and fair.
pub fn answered_is_fair()
    ensures legal { IsLegal answered }
    ensures fair { IsFair answered }
{}

/// Law: a book in which two senders are in their queues and are taken by priority is legal, and
/// fair.
pub fn taken_in_turn_is_fair()
    ensures legal { IsLegal taken_in_turn }
    ensures fair { IsFair taken_in_turn }
{}
