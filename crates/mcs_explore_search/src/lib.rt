//! All orders at once: a search through the states of a system, the nearest first, which expands
//! one state of all that have one key (own).
#![tactic(auto)]

mod likeness;
mod reachability;
mod search;

pub use likeness::{Likeness, every_run, near_run};
pub use reachability::mark_all_led;
pub use search::{Budget, Edge, Found, Search, System, explore};
