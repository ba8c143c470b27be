//! The lines of a trace, written into a sink. Steps, answers and records are written from their
//! packed form, without unpacking. The writers of parts of a line are inlined, so that the compiler
//! removes the arms that do not apply; it does not inline what grows too large.
#![tactic(auto)]

mod boot;
mod entries;
mod facts;
mod line;
mod line_text;
mod numbers;
mod put;
mod read_lines;
mod records;
mod rooms;
mod sink;
mod steps;
mod words;

pub use line::Line;
pub use line_text::{spell, spell_answer, spell_record, spell_step};
pub use put::{
    put_boot_line, put_cores, put_kept_answer, put_kept_record, put_kept_step, put_read_record,
    put_spelled,
};
pub use read_lines::ReadStep;
pub use rooms::LINE;
pub use sink::{Sink, WriteFault};
