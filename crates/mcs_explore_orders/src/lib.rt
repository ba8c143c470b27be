//! All orders of the entries of users: a search through the states of a kernel and its users,
//! nearest first, which expands one state of all that have the same future (own).
//!
//! ```text
//! users ── walk ──> a kernel, the position of each user, and what each core may enter
//!     ── path_cache ──> states cached along a path of turns; a turn is made on a copy of the last
//!     ── keys ──> the key of a state, which decides its future
//!     ── explorer ──> the system that `mcs_explore_search` searches; it reports to a `Watch`
//! ```
#![tactic(auto)]

mod explorer;
mod nobody;
mod packed;
mod path_cache;
mod replay;
mod search;

pub use explorer::{Explorer, Watch};
pub use mcs_explore_search::{Budget, Edge};
pub use mcs_explore_walk::{OrdersFault, Pick, Position, Turn, UserList, Users, Walk};
pub use nobody::Nobody;
pub use packed::PackedTurn;
pub use search::{Orders, explore, retrace};
