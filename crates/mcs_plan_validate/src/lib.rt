//! Reads the script of a plan back: it has no fault, its boot is the plan's, and each name leads to
//! what it means.
//!
//! ```text
//! plan with domains ── mcs_plan_domains ──> plan; loaded: the original line for each line
//! plan ── mcs_plan_compile ──> Script ── text ── script ──> the book that the text makes
//!                            │                           │ its boot, alone in a kernel
//!                            └─ names ──── resolution ───┘ each place and address is looked up
//! ```
#![tactic(auto)]

mod aligned;
mod compiled;
mod fault;
mod loaded;
mod origins;
mod resolution;
mod script;

pub use aligned::{Numbered, align_questions};
pub use compiled::{Compiled, compile_text};
pub use fault::CompileFault;
pub use loaded::{Loaded, load};
pub use origins::origins_of;
