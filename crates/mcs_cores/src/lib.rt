//! The running machine: one kernel under a lock, entered by the host threads of its cores.
#![tactic(auto)]

mod candidates;
mod core_set;
mod gate;
mod machine;
mod positions;
mod run;
mod shared;

pub use gate::{Gate, Open};
pub use machine::{Machine, SeatsFault};
pub use mcs_seats::{
    Answered, Call, CoreSeat, FinishFault, Outcome, Settled, Turned, entered_lines,
    entered_of_core, settle_seats,
};
pub use mcs_users::Users;
pub use run::RunFault;
