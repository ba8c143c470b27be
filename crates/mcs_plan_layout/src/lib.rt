//! Lays out the spaces of a plan: the guard of each, the address of each slot, the lines of the
//! boot, and the table of names of each thread.
//!
//! ```text
//! Plan ── starter ──> Plan with the thread that makes others passive
//!      ── layouts ──> a layout for each space ── boot ──> the lines of the boot
//!                                             ── tables ──> for each thread its names, with the
//!                                                           address and the place of each
//! ```
//!
//! An address of a space:
//!
//! ```text
//! | guard, all 0 | index of the slot: `root` bits, `leaf` bits | `within` |
//! ```
//!
//! A space of up to 256 slots is one CNode; a larger one has a CNode of CNodes (`leaf`). If the
//! space holds capabilities to other CNodes, the last `within` bits name the slots in these.
#![tactic(auto)]

mod boot;
mod laid;
mod layout;
mod layouts;
mod limits;
mod spaces;
mod starter;
mod tables;

pub use laid::PlanLayout;
pub use layout::{LEAF, Layout};
pub use tables::Named;
