//! Programs of users in scripts: they branch and loop on the result of their last entry. Each line
//! is a statement; this crate reads them, thread by thread.
//!
//! ```text
//! `if $label == 2 {` ── statement ──> its words, without the comment
//!     ── program ──> its meaning, by keywords, and a `ProgramFault` that names the word
//!         values, conditions ──> `Source`, `Test`: constants, the last result, kept words
//!         slots ──> the kept words, of which each block clears its own
//!         blocks ──> open loops and arms
//!         entries ──> an entry as users have them, and what is filled into its message
//!     ── code ──> `Op`: the lines that a user runs
//!         rounds ──> no loop goes round without an entry
//! ```
#![tactic(auto)]

mod alternatives;
mod blocks;
mod code;
mod conditions;
mod entries;
mod fault;
mod keywords;
mod program;
mod rounds;
mod slots;
mod statement;
mod values;

pub use alternatives::{Listed, Word};
pub use code::ProgramEntry;
pub use fault::{FaultyLine, ProgramFault};
pub use program::{DEPTH, Label, Program, ProgramLines};
