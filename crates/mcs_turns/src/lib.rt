//! The rule of a turn: which entry a user gives now, what a core may enter, and how a line advances
//! users (own). Machines that run lists of entries follow it, and so does the search through all
//! orders.
#![tactic(auto)]

mod answer_ref;
mod laws;
mod position;
mod program;
mod reached;

pub use answer_ref::{AnswerRef, Form};
pub use laws::{one_pick, one_turn, run_legal, run_long};
pub use position::{Pick, Position, Schedule};
pub use program::{Fill, Op, Saved, Settled, Slot, Source, Test, filled, goes_on, starts};
pub use reached::Reached;
