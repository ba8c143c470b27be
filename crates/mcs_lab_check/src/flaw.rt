//! Invisible flaws of a line.
ghost use Rattle.std.specs.Prelude.{◌≡◌};
ghost use Rattle.mcs_lab_check.specs.Flaws.{has_mark, has_return, flaw_of};

use std::fmt;

/// Bytes in a line that an editor does not show.
#[derive(Clone, Copy, PartialEq, Eq, Debug)]
pub enum Flaw {
    /// The line begins with the byte order mark of UTF-8.
    ByteOrderMark,
    /// A carriage return stands before the newline.
    CarriageReturn,
}

/// Returns whether a line begins with the byte order mark of UTF-8.
fn has_mark(line: &[u8]) -> bool
    ensures { result ≡ has_mark line.now }
{
    line.starts_with(b"\xef\xbb\xbf")
}

/// Returns whether a carriage return stands before the newline of a line.
fn has_return(line: &[u8]) -> bool
    ensures { result ≡ has_return line.now }
{
    line.ends_with(b"\r\n")
}

/// Returns the invisible flaw of a line: a byte order mark, or else a carriage return.
pub fn flaw_of(line: &[u8]) -> Option<Flaw>
    ensures { result ≡ flaw_of line.now }
{
    if has_mark(line) {
        return Some(Flaw::ByteOrderMark);
    }
    if has_return(line) {
        return Some(Flaw::CarriageReturn);
    }
    None
}

impl fmt::Display for Flaw {
    fn fmt<W: fmt::Write>(&self, f: &mut fmt::Formatter<W>) -> fmt::Result {
        match *self {
            Flaw::ByteOrderMark => f.write_str("a byte order mark stands at its beginning"),
            Flaw::CarriageReturn => f.write_str("a carriage return stands at its end"),
        }
    }
}
