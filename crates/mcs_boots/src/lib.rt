//! The boot, the initial state of a machine.
#![tactic(auto)]

mod boot;
mod same;

pub use boot::{Boot, boot_state};
pub use same::are_same_lines;
