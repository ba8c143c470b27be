//! Texts that another command reads.
use crate::advice::plan_words;
use mcs_plan_source::Plan;
use mcs_text::LineFault;
use std::alloc::Global;

/// What a command is given that another command reads.
#[derive(Clone, Copy, PartialEq, Eq)]
pub enum Stranger {
    Plan,
    Users,
    Steps,
}

impl Stranger {
    /// Returns what is said of it.
    pub fn text(self) -> &'static str {
        match self {
            Stranger::Plan => "this is a plan: name its file NAME.plan, or give --plan",
            Stranger::Users => "this is a line of users: mcslab explore, mcslab walk or mcssim run",
            Stranger::Steps => {
                "this is a step: mcslab check, why, state, json or draw, or mcssim replay"
            }
        }
    }
}

/// Returns whether a line looks like the first of a plan.
fn begins_plan(alloc: Global, line: &[u8]) -> bool {
    match plan_words(alloc, line) {
        Some(words) => !words.is_empty() && Plan::new(alloc).read(alloc, 1, &words).is_ok(),
        None => false,
    }
}

/// Returns for which other command a refused line would be right, if for any.
pub(crate) fn stranger_of(
    alloc: Global,
    reads_users: bool,
    why: LineFault,
    line: &[u8],
) -> Option<Stranger> {
    if why == LineFault::NoCores && begins_plan(alloc, line) {
        return Some(Stranger::Plan);
    }
    match (reads_users, line) {
        (false, _) if line.starts_with(b"user ") => Some(Stranger::Users),
        (true, [b'0'..=b'9', ..]) => Some(Stranger::Steps),
        _ => None,
    }
}
