//! Laws about the lines of a core, each the contract of a function that does nothing.
ghost use Rattle.mcs_types.specs.declared.id.CoreId.{CoreId};
ghost use Rattle.mcs_book.specs.History.{Line, Book, IsLegal, of_core};
ghost use Rattle.mcs_book.specs.Each.{EachLine};
ghost use Rattle.mcs_book.specs.Merging.{HasLinesOf, IsLineOf, IsOfFirst};

/// Law: the lines of a core are of that core; merged with those of the other cores, each in order,
/// they are the book's.
pub fn core_lines()
    ghost at: { Book × CoreId }
    ensures { HasLinesOf at.0 at.1 }
{}

/// Law: each line of a book after the boot is among the lines of its core.
pub fn own_core()
    ghost at: { Book × Line }
    requires { IsLineOf at.1 at.0.lines }
    ensures { IsLineOf at.1 (of_core at.0 at.1.step.core) }
{}

/// Law: each line of a legal book after the boot is of a core of the boot.
pub fn known_cores()
    ghost book: { Book }
    requires { IsLegal book }
    ensures { EachLine (IsOfFirst book.boot.cores) book }
{}
