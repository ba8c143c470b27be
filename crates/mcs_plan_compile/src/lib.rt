//! Compiles a plan to a script, line by line.
//!
//! ```text
//! bytes ── lines ──> lines
//! lines before the first step ── mcs_plan_source ──> Plan ── mcs_plan_layout ──> PlanLayout: the
//!     boot, and the table of names of each thread
//! lines of steps and of users ── steps, entries ──> the same lines, with addresses for names
//! lines of programs ── programs ──> lines `#! THREAD: STATEMENT`, with addresses for names
//! lines that begin with `?`   ── expectations ──> what `mcslab check` reads
//! all of these are a Script   ── script_text ──> the text; address_map ──> the table of names
//! ```
#![tactic(auto)]

mod address_map;
mod compiler;
mod entries;
mod expectations;
mod fields;
mod lines;
mod programs;
mod script;
mod script_text;
mod steps;

pub use address_map::write_map;
pub use compiler::compile;
pub use script::Script;
pub use script_text::{write_boot, write_lines, write_script};
