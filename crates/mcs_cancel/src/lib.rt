//! Cancelling what a thread is blocked on, and setting its mode and its priority (manual: Threads
//! and Execution).
#![tactic(auto)]

mod badged;
mod cancellation;
mod checks;
mod destruction;
mod modes;
mod priority;

pub use badged::cancel_badged;
pub use cancellation::cancel;
pub use destruction::{destroy, unbind};
pub use modes::{resume, suspend};
pub use priority::set_priority;
