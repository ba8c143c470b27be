//! Stores of objects of one kind, under ids that are never reused, and tables indexed by serials.
#![tactic(auto)]

mod full;
mod places;
mod store;

pub use full::NoRoom;
pub use places::{empty_places, keep, kept_at, take};
pub use store::Store;
