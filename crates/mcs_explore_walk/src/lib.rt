//! One execution of the users' entries: a kernel, the position of each user, and what each core may
//! enter. The rule allows each of its turns, so it is a run (own).
#![tactic(auto)]

mod copies;
mod fault;
mod mail;
mod schedule;
mod turns;
mod walk;

pub use fault::OrdersFault;
pub use mail::newest;
pub use mcs_turns::{Pick, Position};
pub use mcs_users::{Picks, UserList, Users};
pub use walk::{Turn, Walk, has, picked};
