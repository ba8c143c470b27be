//! Laws of the round trip, each the contract of a function that does nothing.
ghost use Rattle.std.specs.Prelude.{◌≡◌, Some, None};
ghost use Rattle.mcs_book.specs.History.{Book, steps_of};
ghost use Rattle.mcs_sim.specs.Trace.{trace};
ghost use Rattle.mcs_phases.specs.Script.{steps};
ghost use Rattle.mcs_sim.specs.Runs.{written};
ghost use Rattle.mcs_round_trip.specs.Readable.{IsReadable};

/// Law: the trace of a legal book, read as a script of at most 2,000,000 lines, has no faulty line
/// and gives the book's boot and steps.
pub fn read_again()
    ghost book: { Book }
    requires { IsReadable book }
    ensures { steps (trace book) ≡ (record { boot = Some book.boot; items = steps_of book }, None) }
{}

/// Law: such a trace, replayed as a script, gives the same trace.
pub fn written_again()
    ghost book: { Book }
    requires { IsReadable book }
    ensures { written (trace book) ≡ trace book }
{}
