//! The kernel: each accepted entry is one line of the book.
#![tactic(auto)]

mod fault;
mod kernel;
mod step_list;
mod stepper;

pub use fault::{EnterFault, ReplayFault};
pub use kernel::Kernel;
pub use mcs_boots::{Boot, are_same_lines};
pub use mcs_state::is_ready;
pub use mcs_types::Step;
pub use step_list::replay;
pub use stepper::Replay;
