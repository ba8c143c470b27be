//! The names of files, as messages show them.
use std::fmt;

/// The name of a file as messages show it, with `\u{..}` for control characters.
#[derive(Clone, Copy)]
pub struct Path<'a>(pub &'a str);

/// Returns whether a terminal would obey the character instead of showing it: a control character,
/// or one that changes the direction of a text.
fn is_obeyed(code: u32) -> bool {
    code < 32
        || (127 <= code && code < 160)
        || (0x200e <= code && code <= 0x200f)
        || (0x202a <= code && code <= 0x202e)
        || (0x2066 <= code && code <= 0x2069)
}

/// Writes a character of a name.
fn put_letter<W: fmt::Write>(f: &mut fmt::Formatter<W>, letter: char) -> fmt::Result {
    let code = u32::from(letter);
    if !is_obeyed(code) {
        return f.write_char(letter);
    }
    f.write_str("\\u{")?;
    write!(f, "{code:x}")?;
    f.write_str("}")
}

impl fmt::Display for Path<'_> {
    fn fmt<W: fmt::Write>(&self, f: &mut fmt::Formatter<W>) -> fmt::Result {
        for letter in self.0.chars() {
            put_letter(f, letter)?;
        }
        Ok(())
    }
}
