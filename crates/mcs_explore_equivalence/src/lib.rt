//! Observational equivalence: logs that no later entry can distinguish, and runs that no later turn
//! can (own).
#![tactic(auto)]

mod logs;
mod runs;

pub use logs::{
    after_but_numbers, alike_after, alike_entry, alike_line, alike_on, alike_onto, alike_weaker,
    answers_alike, answers_but_numbers, entry_but_numbers, line_after_but_numbers,
    line_but_numbers, numbers_alike, on_but_numbers, onto_but_numbers, pick_but_numbers,
    same_entry, same_line, same_line_but_numbers, same_pick, same_status, status_but_numbers,
    steps_respect,
};
pub use runs::{alike_back, alike_unnumbered, over_alike, turns_respect};
