//! Threads that wait in the queues of endpoints and notifications.
#![tactic(auto)]

mod interface;
mod queues;

pub use interface::Waiting;
pub use queues::ObjectQueues;
