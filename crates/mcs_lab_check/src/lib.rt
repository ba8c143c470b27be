//! Scripts that test themselves: checks what each expects of its steps, by questions to the kernel.
#![tactic(auto)]

mod by_name;
mod checker;
mod fault;
mod flaw;
mod input;
mod judge;
mod last;
mod latest;
mod names;
mod outcome;
mod questions;
mod seen_answers;
mod tap;
mod text;
mod words;

pub use checker::check;
pub use fault::LabFault;
pub use flaw::{Flaw, flaw_of};
pub use input::{TakesLines, take_lines};
pub use judge::{Judge, entrant_of, with_sent};
pub use last::{Last, LineResult};
pub use names::{Labels, Named};
pub use outcome::Outcome;
pub use tap::{bare, put_shown};
pub use words::{object_of, queue_of};
