//! Operations on capabilities in slots. Each call adds the records of its row of the table, and
//! gives that row's answer (manual: Capability Spaces).
#![tactic(auto)]

mod checks;
mod copies;
mod creation;
mod deletion;

pub use copies::{copy_cap, mint_cap, move_cap};
pub use creation::make;
pub use deletion::delete_cap;
