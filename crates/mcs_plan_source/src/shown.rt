//! Texts of a plan, as faults show them.
ghost use Rattle.std.specs.Prelude.{◌≡◌, ◌<◌, ◌∷◌, [], Some};
ghost use Rattle.std.specs.Fmt.{WritesOnOk};
ghost use Rattle.std.specs.List.{list_any};
ghost use Rattle.mcs_plan_source.specs.Showing.{is_seen, digit_of, shown_byte, shown_bytes, has_byte, begins_with_mark, note, notes_of, shown};

use std::fmt;

/// A text of a plan as faults show it: in quotes, with `\x` and two digits for each byte that is
/// not printable ASCII, and then the names of easily overlooked characters in it.
#[derive(Clone, Copy)]
pub struct Shown<'a> {
    pub text: &'a str,
}

/// Returns whether a byte is shown as it is.
fn is_seen(byte: u8) -> bool
    ensures { result ≡ is_seen byte }
{
    32 <= byte && byte <= 126
}

/// A digit of base 16.
fn digit_of(n: u8) -> u8
    requires { n < 16 }
    ensures value { result ≡ digit_of n }
    ensures ascii { result < 128 }
{
    if n < 10 { 48 + n } else { 87 + n }
}

/// Writes a byte of ASCII.
fn write_ascii<W: fmt::Write>(f: &mut fmt::Formatter<W>, byte: u8) -> fmt::Result
    requires { byte < 128 }
    ensures { WritesOnOk W.write_str_gives f.old result (byte ∷ []) f.new }
{
    f.write_char(byte as char)
}

/// Writes a byte: as it is, or `\x` and its two digits.
fn write_byte<W: fmt::Write>(f: &mut fmt::Formatter<W>, byte: u8) -> fmt::Result
    ensures { WritesOnOk W.write_str_gives f.old result (shown_byte byte) f.new }
{
    if is_seen(byte) {
        return write_ascii(f, byte);
    }
    f.write_str("\\x")?;
    write_ascii(f, digit_of(byte / 16))?;
    write_ascii(f, digit_of(byte % 16))
}

/// Writes the bytes of a text.
fn write_bytes<W: fmt::Write>(f: &mut fmt::Formatter<W>, bytes: &[u8]) -> fmt::Result
    ensures { WritesOnOk W.write_str_gives f.old result (shown_bytes bytes.now) f.new }
{
    for byte in bytes {
        write_byte(f, *byte)?;
    }
    Ok(())
}

/// Returns whether a text has this byte.
fn has_byte(text: &[u8], wanted: u8) -> bool
    ensures { result ≡ has_byte wanted text.now }
{
    text.iter().any(|byte| *byte == wanted)
}

/// Returns whether a text begins with the byte order mark of UTF-8.
fn begins_with_mark(text: &[u8]) -> bool
    ensures { result ≡ begins_with_mark text.now }
{
    match text {
        [first, second, third, ..] => *first == 239 && *second == 187 && *third == 191,
        _ => false,
    }
}

/// Returns this note if `holds`, else an empty one.
fn note(holds: bool, what: &'static str) -> &'static str
    ensures { result.now ≡ note holds what.now }
{
    if holds { what } else { "" }
}

/// Writes the names of easily overlooked characters in a text.
fn write_notes<W: fmt::Write>(f: &mut fmt::Formatter<W>, text: &[u8]) -> fmt::Result
    ensures { WritesOnOk W.write_str_gives f.old result (notes_of text.now) f.new }
{
    f.write_str(note(begins_with_mark(text), " (byte order mark)"))?;
    f.write_str(note(has_byte(text, 13), " (carriage return)"))?;
    f.write_str(note(has_byte(text, 9), " (tab)"))
}

impl<'a> fmt::Display for Shown<'a> {
    ghost output = { λ s. Some (shown s.text.now) };

    fn fmt<W: fmt::Write>(&self, f: &mut fmt::Formatter<W>) -> fmt::Result {
        f.write_str("\"")?;
        write_bytes(f, self.text.as_bytes())?;
        f.write_str("\"")?;
        write_notes(f, self.text.as_bytes())
    }
}
