//! The simulator and its tools as a library for C, and for a page (`web/`): bytes in, bytes out.
//!
//! ```text
//! C ── script ──> mcs_replay ── trace ──> C        the whole text
//! C ── text so far, line ──> mcs_step ── what it adds ──> C
//! C ── text so far, entry ──> mcs_step_entry ── what it adds; answer, records ──> C
//! C ── entry ──> mcs_step_line ── its line ──> C
//! C ── script, core ──> mcs_pick ── the thread that runs next ──> C
//! C ── script ──> mcs_check ── verdicts ──> C
//! C ── plan ──> mcs_compile ── script ──> C
//! C ── plan ──> mcs_number ── the plan's line for each line of the script ──> C
//! C ── script ──> mcs_why, mcs_state, mcs_draw ── explanation, state, picture ──> C
//! C ── script of users, states ──> mcs_explore, mcs_search ── report; with scripts ──> C
//! C ── plan ──> mcs_check_plan, mcs_why_plan, .. ── the same in the plan's words ──> C
//! ```
//!
//! No call keeps state or calls C back. `ports/c/mcs.h` declares the same functions for C. Each
//! writes as much of its text as fits into the caller's buffer, and how it ended into an `McsEnd`;
//! if an allocation fails, it writes nothing.
#![tactic(auto)]

mod answers;
mod checks;
mod compilation;
mod entries;
mod exploration;
mod judgement;
mod laws;
mod output;
mod picks;
mod pieces;
mod plan_orders;
mod plan_words;
mod plans;
mod replays;
mod steps;
mod views;

pub use answers::{McsAnswer, McsRecord};
pub use entries::McsEntry;
pub use laws::steps_encoded;
pub use output::McsEnd;
