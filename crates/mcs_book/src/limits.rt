//! Laws about the size of a line, each the contract of a function that does nothing.
ghost use Rattle.std.specs.Prelude.{false, length, ◌≡◌, ◌≤◌};
ghost use Rattle.mcs_types.specs.Brings.{receives, IsPlain};
ghost use Rattle.mcs_types.specs.declared.id.CoreId.{CoreId};
ghost use Rattle.mcs_types.specs.declared.id.ObjId.{ObjId};
ghost use Rattle.mcs_types.specs.declared.entry.Entry.{Entry};
ghost use Rattle.mcs_book.specs.Logs.{Log};
ghost use Rattle.mcs_book.specs.Threads.{threads};
ghost use Rattle.mcs_book.specs.Table.{does};
ghost use Rattle.mcs_book.specs.History.{Book, IsLegal};
ghost use Rattle.mcs_book.specs.Each.{EachLine};
ghost use Rattle.mcs_book.specs.Limits.{threads_of, most_records, HasAtMost};

/// Law: an entry makes at most 32 records, and four more for each thread that exists, after any
/// log.
pub fn entry_short()
    ghost at: { Log × CoreId × ObjId × Entry }
    ensures { length (does at.0 at.1 at.2 at.3).records ≤ most_records (length (threads at.0)) }
{}

/// Law: no line of a legal book after the boot's has more than 32 records, and four more for each
/// thread of the boot.
pub fn lines_short()
    ghost book: { Book }
    requires { IsLegal book }
    ensures { EachLine (HasAtMost (most_records (threads_of book.boot.lines))) book }
{}

/// Law: the answer to an entry that does not receive has no message.
pub fn answered_plain()
    ghost at: { Log × CoreId × ObjId × Entry }
    requires { receives at.3 ≡ false }
    ensures { IsPlain (does at.0 at.1 at.2 at.3).answer }
{}
