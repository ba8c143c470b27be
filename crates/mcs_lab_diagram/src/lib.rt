//! The drawing of a run: its arrows and its bars, as functions of the book.
#![tactic(auto)]

mod arrows;
mod drawn;
mod dropped;
mod looks;

pub use arrows::{Arrow, Point, Shown, Strokes};
pub use drawn::{Away, DrawFault, Drawing, Window};
pub use dropped::is_dropped;
pub use looks::Look;
