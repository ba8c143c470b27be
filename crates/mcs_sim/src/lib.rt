//! From the bytes of a script to the bytes of its trace.
//!
//! ```text
//! reader -> Source -> pieces -+-> TracedRun -> ReplayRun -> lines -> Phase --+-> Book
//!                             +-> UserLines -> lines -> Script -> Users       |
//!                                                        -> Machine ---------+
//! Book -> Sink -> writer
//! ```
//!
//! The upper path is `simulate`: `feed` cuts pieces into lines and keeps the first fault, `Phase`
//! takes a line (of the boot, or a step after it), and `replay` writes what each piece adds to the
//! trace before it reads on. The lower path is `run_text`: `users` reads to the end, and `run` runs
//! all users on a machine and then writes. `Source` retries interrupted reads, `Script` reads
//! lines, and `trace_text` writes the trace of a book, or what of it was not written yet. `laws`
//! has what holds of all texts, however they are cut.
#![tactic(auto)]

mod feed;
mod laws;
mod replay;
mod run;
mod trace_text;
mod users;

pub use feed::ReplayRun;
pub use laws::{fed_as_read, fed_in_pieces, replayed_legal, too_long_stands};
pub use mcs_cores::{Gate, Open};
pub use mcs_phases::SimFault;
pub use mcs_source::{ReadFault, Source};
pub use mcs_trace::Sink;
pub use replay::{TracedRun, simulate};
pub use run::run_text;
pub use trace_text::{put_boot, trace};
pub use users::UserLines;
