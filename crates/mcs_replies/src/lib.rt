//! Reply objects, the callers that they owe, and the chain of each context.
#![tactic(auto)]

mod links;
mod places;
mod replies;
mod tops;

pub use links::Chain;
pub use replies::{Ended, Replies};
