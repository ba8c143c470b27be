//! The keys of states: two states with one key have the same future (own). For exact keys this is
//! proved: such states are alike. Canonical keys merge more states, and are only tested.
//!
//! ```text
//! a state ── mcs_explore_rows ──> all its answers, in rows ── its exact key
//!         ── names, rows ──> what decides its future       ── its canonical key
//! ```
#![tactic(auto)]

mod keys;
mod laws;
mod names;
mod rows;

pub use keys::Keys;
pub use laws::{key_decides, key_stays, rows_decide};
pub use mcs_explore_rows::Key;
