//! The state of the kernel: tables that agree with the book and with the records of its open line.
//!
//! ```text
//! operations of mcs_cancel, mcs_notify, mcs_ipc, mcs_caps
//!    |  primitives: turns, joins, sends, ..         ^  queries: status, mail, pick, ..
//!    v                                              |
//! a record of the line, and with it  ------->  threads, letters, contexts, queues,
//! the change that it is in the tables          replies, notifications, slots
//! ```
//!
//! A primitive adds exactly its record (`hands` its two), and requires only that the record is
//! allowed; a query returns what the definition says of all records so far. The invariant of
//! `State` is that the tables say of each id what the records say, so the crates above name no
//! table. `state` has the primitives and the queries, by what they change or return; `changes`,
//! `receivers`, `contexts` and `wakeup` are steps that operations share; `letters` and `queued` are
//! the open messages and the threads of a queue.
#![tactic(auto)]

mod changes;
mod checks;
mod contexts;
mod letters;
mod queued;
mod receivers;
mod state;
mod wakeup;

pub use changes::{Change, change_awake};
pub use checks::{find_object, object_at, of_kind, with_read, with_write};
pub use contexts::{give_back, stand};
pub use mcs_replies::Chain;
pub use mcs_threads::ThreadRow;
pub use queued::Queued;
pub use state::{State, is_ready};
pub use wakeup::wake;
