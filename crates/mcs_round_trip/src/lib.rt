//! A trace is a script: read again, it gives its book's boot and steps.
#![tactic(auto)]

mod laws;

pub use laws::{read_again, written_again};
