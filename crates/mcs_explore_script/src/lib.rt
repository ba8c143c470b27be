//! Scripts for exploring. Reads a script of users: its boot, the entries of its users, the names of
//! its objects, and its questions. Writes the steps of a book as a script.
//!
//! ```text
//! source ── text ──> its bytes, the boot and the entries, as `mcssim run` reads them
//!     ── marks ──> the names (`#@`), and the text of each entry
//!     ── programs ──> the lines `#! THREAD: STATEMENT`, by `mcs_explore_programs`
//!     ── questions ──> the other lines `#!`
//!     ── users ──> a list of entries for each thread, the entry from which it repeats, or
//!          its program
//! a book ── steps ──> its boot and its steps, each with its answer
//!     ── run_texts ──> the script of a run
//! ```
#![tactic(auto)]

mod lives;
mod marks;
mod programs;
mod questions;
mod run_texts;
mod script;
mod steps;
mod text;
mod users;

pub use lives::Live;
pub use marks::EntryText;
pub use questions::AskedLine;
pub use run_texts::{fault_of, run_text};
pub use script::{UserScript, read_script};
pub use steps::write_steps;
