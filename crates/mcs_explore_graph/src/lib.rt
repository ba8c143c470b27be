//! The graph of all orders of a script of users: its states, and the turns between them, as text
//! for tools that read graphs (own).
//!
//! ```text
//! a script ── exploring ──> states, and edges with their turns
//!     ── labels ──> the text of each turn: its step, its answer, and what it delivered
//!     ── lines ──> a graph in Aldebaran's form, or for Graphviz
//! ```
#![tactic(auto)]

mod graph;
mod labels;
mod lines;

pub use graph::write_graph;
pub use lines::Form;
