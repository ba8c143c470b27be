//! A plan in its own words: a report on the script that it became is told with the plan's lines and
//! names, and a line that is refused, of a plan or of a script, with what may help.
//!
//! ```text
//! plan ── planned ──> Planned: its script, the lines of which this came, the texts of its steps
//! script of users ── alignment ──> whether it has the lines that it had
//! report on the script ── reports ──> the report by the plan's lines (line_numbers) and names
//!     (texts), with numbers as the plan spells them (numbers)
//! fault of a plan ── refusals ──> a line that says why there is no script: advice, entry_forms
//! fault of a file ── messages ──> FILE:LINE: (place), the fault (line_message), and what is odd in
//!     the line (oddities), or a hint (hints), or for which other command it is right (stranger)
//! lines that a command names ── range, steps ──> the steps between them, or why it is refused
//! ```
#![tactic(auto)]

mod advice;
mod alignment;
mod entry_forms;
mod hints;
mod line_message;
mod line_numbers;
mod messages;
mod numbers;
mod oddities;
mod path;
mod place;
mod planned;
mod range;
mod refusals;
mod reports;
mod steps;
mod stranger;
mod texts;

pub use advice::{message_of, plan_words};
pub use entry_forms::ENTRIES;
pub use line_message::line_of;
pub use line_numbers::{Form, number_in};
pub use messages::{
    write_fault, write_plan_fault, write_script_fault, write_stranger, write_there, write_unopened,
};
pub use path::Path;
pub use place::Place;
pub use planned::Planned;
pub use range::{RangeFault, beyond, crossed};
pub use refusals::{bail_line, line_of_plan, reason_line};
pub use steps::Steps;
pub use stranger::Stranger;
