//! Seats: the calls of each core of a machine, and whether they agree with a book.
#![tactic(auto)]

mod audit;
mod call;
mod laws;
mod prepared;
mod retrace;
mod seat;
mod settle;

pub use audit::audit_seats;
pub use call::{Answered, Call, Outcome, Turned};
pub use laws::{entered_lines, entered_of_core};
pub use prepared::Prepared;
pub use seat::CoreSeat;
pub use settle::{FinishFault, Settled, settle_seats};
