//! The report on all orders of a script of users: its ends, the answers of its entries, and the
//! results of its questions.
//!
//! ```text
//! source ── mcs_explore_script ──> the boot, the users, their entries, the questions (`#!`)
//!     ── mcs_explore_orders ──> each state and each turn, reported to `watcher`
//!     ── watcher ──> ends, answers, failures
//!     ── report ──> `text` or `json`, and scripts of steps (`saver`)
//! ```
#![tactic(auto)]

mod again;
mod answer_texts;
mod answers;
mod bounds;
mod endings;
mod ends;
mod exploration;
mod findings;
mod frontier;
mod header;
mod json;
mod judgement;
mod live;
mod mail;
mod modes;
mod outcomes;
mod references;
mod report;
mod saver;
mod scripts;
mod slots;
mod stuck_users;
mod text;
mod verdicts;
mod watcher;

pub use answer_texts::{put, text_of};
pub use answers::{Answers, Witness};
pub use endings::{Ending, are_idle, ending_of};
pub use ends::{End, Ends, Standing, standings};
pub use exploration::{Wanted, are_in_range, watched};
pub use judgement::Sighting;
pub use live::{Lives, Notes, stuck_at};
pub use mail::reached_by;
pub use mcs_explore_script::UserScript;
pub use modes::{Mode, make_objects, mode_of};
pub use references::{names_later, names_message};
pub use report::{Explored, Output, explore_all, explore_and_tell, explore_script};
pub use saver::{MARK, Saves, is_script_name};
pub use slots::{Origin, Slot};
pub use stuck_users::first_stuck;
pub use text::{put_asked, put_event, put_standing};
pub use verdicts::{Grounds, Verdict, verdict_on};
pub use watcher::{Progress, Quiet, Stop, Watched};
