//! How many lines the seats have in all, by their ledger (own).
ghost use Rattle.std.specs.Prelude.{◌≡◌, ◌≤◌, ◌+◌, length};
ghost use Rattle.mcs_seats.specs.Seats.{count_entered_by};

use crate::seat::CoreSeat;
use std::sync::ledger::{Book, Ledger, Share};

/// Adds the shares of seats to the ledger's own share, and audits the sum: if no share is missing,
/// the seats have as many lines as the ledger counts.
pub fn audit_seats<G: Ledger>(book: &mut Book<G>, kept: Share<G>, seats: Vec<CoreSeat<G>>)
    requires { kept.amount ≡ 0 }
    ensures parts { kept.parts + length seats.items ≤ G.parts }
    ensures whole { kept.parts + length seats.items ≡ G.parts
        → count_entered_by seats.items ≡ book.old.total }
{
    let mut kept = kept;
    // An empty share first, so that the number of parts is right even without a seat.
    let mut all = kept.empty();
    all.merge(kept);
    for seat in seats {
        all.merge(seat.into_share());
    }
    book.audit(&mut all);
}
