//! Reading from any reader.
#![tactic(auto)]

mod source;

pub use source::{PIECE, ReadFault, Source};
