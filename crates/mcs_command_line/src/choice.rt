//! What the program can do.

/// What the program does with what it reads.
#[derive(Clone, Copy, PartialEq, Eq, Debug)]
pub enum Task {
    /// Takes the steps of a script one after the other, and writes the trace.
    Replay,
    /// Runs the users of a script on a machine of this many cores (whatever number the script says,
    /// if it is None), and writes the trace of its book.
    Run { cores: Option<u8> },
}

/// What the words of a command line ask for.
#[derive(Clone, Copy, Debug)]
pub struct Options<'a> {
    /// What the program does.
    pub task: Task,
    /// The file to read; the standard input if None.
    pub file: Option<&'a str>,
    /// Whether a fault is explained on a second line.
    pub explain: bool,
}
