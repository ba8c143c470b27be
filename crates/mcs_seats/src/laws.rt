//! Laws of settled books, each the contract of a function that does nothing.
ghost use Rattle.std.specs.Prelude.{◌≡◌, map, reverse};
ghost use Rattle.mcs_book.specs.History.{of_core};
ghost use Rattle.mcs_seats.specs.Settling.{Agreement, entered_notes, notes_of, entered_entry, entry_of};

/// Law: a seat that agrees with a book has the lines of its core and no others, in order, with
/// their numbers, threads, entries and answers.
pub fn entered_lines()
    ghost it: { Agreement }
    ensures { entered_notes (reverse it.seat.calls) ≡ notes_of it.book it.seat.core }
{}

/// Law: the entries of a seat's calls, with their answers, are the lines of its core in order.
pub fn entered_of_core()
    ghost it: { Agreement }
    ensures { map (entered_entry it.seat.core) (entered_notes (reverse it.seat.calls))
        ≡ map entry_of (reverse (of_core it.book it.seat.core)) }
{}
