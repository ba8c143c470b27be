//! The source of a plan: objects by name, the words of lines, the declarations before the first
//! step (objects, threads, spaces and their contents), and the faults.
#![tactic(auto)]

mod capabilities;
mod fault;
mod names;
mod parser;
mod plan;
mod rights;
mod shown;
mod trace_names;
mod words;

pub use fault::{PlanError, PlanFault};
pub use names::{Symbols, add_word, limit_of, plural, singular};
pub use plan::{Passive, Plan, STARTER, Slot, Space, Thread, Tie};
pub use rights::rights_of;
pub use shown::Shown;
pub use trace_names::tell_names;
pub use words::{Tokens, is_like_id, is_name, is_white, not, number, split_comment, split_words};
