//! The contents of a script's lines, and the phase of its replay.
//!
//! `script` reads lines, of steps and of users; `phase` takes a line of steps: the boot so far, or
//! the run of the steps after it. `fault` says why a program ends early.
#![tactic(auto)]

mod fault;
mod phase;
mod script;

pub use fault::SimFault;
pub use phase::Phase;
pub use script::{Item, Script, ScriptFault};
