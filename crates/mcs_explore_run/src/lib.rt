//! Random runs of the users of a script: each turn is drawn among the possible ones.
//!
//! ```text
//! a script ── draws ──> one of the turns that the rule allows, with equal probability
//!     ── run ──> a run of a limited number of turns: its script, or a watch sees it
//!     ── samples ──> many runs, each with its own seed, and what is collected of them
//!     ── evidence ──> what they show of each question ── report ──> a report
//! ```
#![tactic(auto)]

mod draws;
mod evidence;
mod report;
mod run;
mod samples;

pub use report::tell_runs;
pub use run::{Drawn, draw_run};
pub use samples::{Chances, Sample, draw_runs};
