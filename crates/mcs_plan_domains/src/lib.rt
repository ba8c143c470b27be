//! Protection domains of Microkit in plans: they become objects, capabilities and programs.
//!
//! ```text
//! a plan ── statements ──> the statements of its lines
//!     ── parser ──> a `System`: domains with their handlers, channels, and all other lines
//!     ── capabilities ──> objects, threads, and each domain's capabilities
//!     ── handlers, inputs, programs ──> a program for each domain: the loop of libmicrokit
//!     ── monitors ──> a program for each monitor; questions ──> the questions to all orders
//!     ── lowered ──> the lines of a plan without domains, each with its original line
//!     ── passives ──> passive threads among users, made passive by a further thread
//! ```
#![tactic(auto)]

mod badges;
mod capabilities;
mod cursor;
mod ends;
mod fault;
mod handlers;
mod inputs;
mod lowered;
mod lowering;
mod monitors;
mod parser;
mod passives;
mod programs;
mod questions;
mod statements;
mod system;
mod words;

pub use badges::{called_badge, notified_badge};
pub use ends::End;
pub use lowered::Lowered;
pub use lowering::{lower, lower_system};
pub use parser::read_system;
pub use statements::Statement;
pub use system::{Channel, Domain, Event, Handler, Plain, System};
