//! The last step of a script, and the result of a line.

/// The last step of a script, as the lines after it need it.
#[derive(Clone, Copy)]
pub enum Last {
    /// There was none.
    NoStep,
    /// It was skipped.
    Away,
    /// It was accepted. Its records are compared from index `next` on; `sent` messages were sent
    /// before that.
    LetIn { next: usize, sent: u128 },
}

/// The result of a line: a verdict, if it expects something.
#[derive(Clone, Copy)]
pub enum LineResult {
    /// It expects nothing: it is empty, a comment, or of the boot.
    Nothing,
    /// It is a step.
    Step,
    /// The last step should have this answer.
    Answer { holds: bool },
    /// The last step should have this record.
    Record { holds: bool },
    /// A question about the state after the last step.
    Asked { holds: bool },
    /// It begins as a question, but is none.
    NoQuestion,
}
