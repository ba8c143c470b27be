//! Laws of whole messages, each the contract of a function that does nothing.
ghost use Rattle.mcs_book.specs.History.{Book, IsLegal};
ghost use Rattle.mcs_book.specs.Each.{EachLine};
ghost use Rattle.mcs_book.specs.Fair.{IsWholeLine};

/// Law: each message of a legal book is whole: when sent, of the line's thread and entry and over
/// the capability that a path names; when taken, in the answer of the line's thread or in the mail
/// of another.
pub fn messages_whole()
    ghost book: { Book }
    requires { IsLegal book }
    ensures { EachLine IsWholeLine book }
{}
