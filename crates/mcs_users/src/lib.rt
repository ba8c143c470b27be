//! The users of a script: the entries, the program and the position of each, and the picks of
//! cores.
#![tactic(auto)]

mod lists;
mod picks;
mod places;
mod users;

pub use lists::{UserList, push};
pub use picks::Picks;
pub use places::{first_place, is_send_at, place_after, place_answered};
pub use users::Users;
