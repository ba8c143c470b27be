//! The forms of lines, and the numbers in their words.
#![tactic(auto)]

mod forms;
mod numbers;

pub use forms::{FORMS, Field, Fields, Forms, LooksUp, form_of, meant_by};
pub use numbers::number_of;
