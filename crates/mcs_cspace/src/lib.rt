//! Guarded lookup in capability spaces: over the slots of all CNodes, by shifts and masks of a
//! word.
#![tactic(auto)]

mod levels;
mod lookups;
mod paths;

pub use lookups::{in_range, lookup, lookup_slot};
pub use paths::radix_in;
