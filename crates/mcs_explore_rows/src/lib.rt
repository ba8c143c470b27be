//! The exact rows of a state, whose numbers are its exact key (own): states with the same rows are
//! alike.
//!
//! ```text
//! a state ── exact ──> all its answers, in rows of numbers
//!     ── interner ──> the numbers of these rows
//!     ── codec ──> its key, in bytes
//! ```
#![tactic(auto)]

mod codec;
mod exact;
mod hashed;
mod interner;
mod numbers;

pub use codec::{Key, key_of};
pub use exact::exact_numbers;
pub use interner::{Numbers, RowInterner};
pub use numbers::{Row, kind_number, send_number};
