//! Reports on a script: why a step did nothing, what is stuck, the state of each thread, and its
//! book as JSON.
#![tactic(auto)]

mod hints;
mod json;
mod members;
mod named;
mod needs;
mod page;
mod path;
mod spaces;
mod state;
mod stuck;
mod tables;
mod values;
mod whole;
mod why;

pub use json::write_json;
pub use named::{KINDS, NamesMember};
pub use page::{Numbers, TextBuffer};
pub use state::{Wanted, show_state};
pub use whole::{Whole, read_whole};
pub use why::explain;
