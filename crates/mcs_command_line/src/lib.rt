//! The arguments of `mcssim`: what they ask for, and how the program ends if they ask for no run.
#![tactic(auto)]

mod choice;
mod command_line;
mod startup;

pub use choice::{Options, Task};
pub use command_line::{VERSION, options};
pub use startup::{answer_status, arguments};
