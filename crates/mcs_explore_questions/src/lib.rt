//! The questions of a script of users: what they ask of all orders, how they are read, and the
//! patterns by which they name answers and records.
//!
//! ```text
//! `answer t1 2 got 9 *` ── words ──> the words, one after another
//!     ── parser ──> `Asked`, or a `QuestionFault` that names the word
//!     ── there ──> threads, their entries, objects and their names: what a word may name
//!     ── forms ──> whether a pattern can match a line of a trace
//!     ── patterns ──> whether it matches one
//! ```
#![tactic(auto)]

mod fault;
mod forms;
mod parser;
mod patterns;
mod questions;
mod there;
mod words;

pub use fault::{ExploreFault, QuestionFault};
pub use parser::{asked_of, comes_once, goes_on_once, question_of};
pub use patterns::is_match;
pub use questions::{Asked, Entries, Event, Rule, Span, Until};
pub use there::{There, id_text};
