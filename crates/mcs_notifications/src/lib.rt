//! Notifications, their pending words, and the threads bound to them.
#![tactic(auto)]

mod notifications;

pub use notifications::Notifications;
