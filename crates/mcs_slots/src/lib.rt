//! The capability slots of CNodes.
#![tactic(auto)]

mod caps;
mod cell;
mod laws;
mod page;
mod pages;
mod slots;
mod tallies;

pub use caps::{by_fields, takes_badge, with_badge, with_mask};
pub use laws::one_slot_changes;
pub use page::Page;
pub use slots::{SlotId, Slots};
pub use tallies::Tallied;
