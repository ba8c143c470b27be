//! The message about a line of a script, after its place.
use mcs_explore_questions::ExploreFault;
use mcs_lab_check::{Flaw, LabFault};
use mcs_text::LineFault;
use std::fmt;

/// The message for a line of a question or of a name without its form.
const NO_FORM: &str = "no question and no name has this form";

/// The message about a line, after its place.
#[derive(Clone, Copy)]
pub(crate) struct OfLine<'a>(pub(crate) &'a ExploreFault);

impl fmt::Display for OfLine<'_> {
    fn fmt<W: fmt::Write>(&self, f: &mut fmt::Formatter<W>) -> fmt::Result {
        match self.0 {
            ExploreFault::Question { why, .. } => write!(f, "question: {why}"),
            ExploreFault::Program { why, .. } => write!(f, "program: {why}"),
            ExploreFault::Lab(fault) => put_lab(f, *fault),
        }
    }
}

/// Writes the message about a line of a script, or about a fault without a line.
fn put_lab<W: fmt::Write>(f: &mut fmt::Formatter<W>, fault: LabFault) -> fmt::Result {
    match fault {
        LabFault::Script { why, .. } => {
            let number = why.number();
            write!(f, "fault {number}: {why}")
        }
        LabFault::Form { .. } => f.write_str(NO_FORM),
        LabFault::Flawed {
            why: Some(why),
            flaw,
            ..
        } => {
            let number = why.number();
            write!(f, "fault {number}: {why}: {flaw}")
        }
        LabFault::Flawed {
            why: None,
            flaw,
            ..
        } => write!(f, "{NO_FORM}: {flaw}"),
        LabFault::NoLine { .. }
        | LabFault::NoBookLine { .. }
        | LabFault::Read
        | LabFault::Write
        | LabFault::BookFull
        | LabFault::OutOfMemory => write!(f, "{fault}"),
    }
}

/// Returns the line of a fault, if it has one.
pub fn line_of(fault: &ExploreFault) -> Option<u64> {
    match fault {
        ExploreFault::Question { line, .. } | ExploreFault::Program { line, .. } => Some(*line),
        ExploreFault::Lab(LabFault::Script { line, .. })
        | ExploreFault::Lab(LabFault::Form { line })
        | ExploreFault::Lab(LabFault::Flawed { line, .. }) => Some(*line),
        ExploreFault::Lab(
            LabFault::NoLine { .. }
            | LabFault::NoBookLine { .. }
            | LabFault::Read
            | LabFault::Write
            | LabFault::BookFull
            | LabFault::OutOfMemory,
        ) => None,
    }
}

/// Returns the position of the flaw that a fault reports, in a line without its newline.
pub(crate) fn flaw_place(fault: &ExploreFault, line: &[u8]) -> Option<usize> {
    match fault {
        ExploreFault::Lab(LabFault::Flawed { flaw, .. }) => match flaw {
            Flaw::ByteOrderMark => Some(0),
            Flaw::CarriageReturn => line.len().checked_sub(1),
        },
        ExploreFault::Lab(_) | ExploreFault::Question { .. } | ExploreFault::Program { .. } => None,
    }
}

/// Returns whether a line of a script fits no form, without a flaw that its fault reports.
pub(crate) fn has_no_form(fault: &ExploreFault) -> bool {
    match fault {
        ExploreFault::Lab(LabFault::Script { why, .. }) => *why == LineFault::Form,
        ExploreFault::Lab(_) | ExploreFault::Question { .. } | ExploreFault::Program { .. } =>
            false,
    }
}
