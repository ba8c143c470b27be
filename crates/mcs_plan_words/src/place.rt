//! The place of a fault, as compilers write it.
use crate::path::Path;
use std::fmt;

/// The place of a fault: the file, None for the standard input, and the line, if there is one.
#[derive(Clone, Copy)]
pub struct Place<'a> {
    pub file: Option<&'a str>,
    pub line: Option<u64>,
}

impl fmt::Display for Place<'_> {
    fn fmt<W: fmt::Write>(&self, f: &mut fmt::Formatter<W>) -> fmt::Result {
        match (self.file, self.line) {
            (Some(file), line) => put_place(f, Path(file), line),
            (None, Some(line)) => write!(f, "mcslab: line {line}: "),
            (None, None) => f.write_str("mcslab: "),
        }
    }
}

/// Writes a place in a file.
fn put_place<W: fmt::Write>(
    f: &mut fmt::Formatter<W>,
    file: Path<'_>,
    line: Option<u64>,
) -> fmt::Result {
    match line {
        Some(line) => write!(f, "{file}:{line}: "),
        None => write!(f, "{file}: "),
    }
}
