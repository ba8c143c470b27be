//! Verdicts as TAP; after those that fail, YAML says what was seen.
ghost use Rattle.std.specs.Prelude.{◌≡◌, ◌<◌, OnOk};
ghost use Rattle.std.specs.Io.KnownBytes.{Appends};
ghost use Rattle.mcs_lab_check.specs.Shown.{hex_digit, is_printable, shown_byte, shown};

use crate::names::Labels;
use mcs_text::Words;
use std::io::{self, Write};

/// A line without its newline.
pub fn bare(line: &[u8]) -> &[u8] {
    match line {
        [rest @ .., b'\n'] => rest,
        _ => line,
    }
}

/// Returns the hexadecimal digit of a number below 16, in lower case.
fn hex_digit(number: u8) -> u8
    requires { number < 16 }
    ensures { result ≡ hex_digit number }
{
    if number < 10 {
        b'0' + number
    } else {
        b'a' + (number - 10)
    }
}

/// Returns whether a byte is printable ASCII, which messages show as it is.
pub fn is_printable(byte: u8) -> bool
    ensures { result ≡ is_printable byte }
{
    byte >= b' ' && byte <= b'~'
}

/// Writes a byte as messages show it.
fn put_byte<W: Write>(to: &mut W, byte: u8) -> io::Result<()>
    ensures { OnOk result (Appends (W.contents to.old) (W.contents to.new) (shown_byte byte)) }
{
    if is_printable(byte) {
        return to.write_all(&[byte]);
    }
    to.write_all(&[b'\\', b'x', hex_digit(byte / 16), hex_digit(byte % 16)])
}

/// Writes bytes of the input as messages show them: unprintable ones as `\x1b`, with two digits.
/// The error is that of the writer.
pub fn put_shown<W: Write>(to: &mut W, bytes: &[u8]) -> io::Result<()>
    ensures { OnOk result (Appends (W.contents to.old) (W.contents to.new) (shown bytes.now)) }
{
    for byte in bytes {
        put_byte(to, *byte)?;
    }
    Ok(())
}

/// Writes the bytes of a word as messages show them; `before` precedes each byte of the two
/// `kinds`.
fn put_word<W: Write>(to: &mut W, word: &[u8], before: u8, kinds: [u8; 2]) -> io::Result<()> {
    for byte in word {
        if *byte == kinds[0] || *byte == kinds[1] {
            to.write_all(&[before, *byte])?;
        } else {
            put_byte(to, *byte)?;
        }
    }
    Ok(())
}

/// Returns whether a text needs no escape in a description of TAP.
pub fn is_plain(text: &[u8]) -> bool {
    text.iter().all(|byte| is_printable(*byte) && *byte != b'#' && *byte != b'\\')
}

/// Writes a description of TAP, in which `\` precedes `#` and `\`.
pub fn put_description<W: Write>(to: &mut W, text: &[u8]) -> io::Result<()> {
    put_word(to, text, b'\\', [b'#', b'\\'])
}

/// Writes a YAML text in single quotes, doubling quotes, with the names of the objects that its
/// words mean.
pub fn put_quoted<W: Write>(to: &mut W, names: &Labels, text: &[u8]) -> io::Result<()> {
    to.write_all(b"'")?;
    let mut words = Words::new(text);
    for i in 0..=text.len() {
        let Some(word) = words.next_word() else {
            break;
        };
        if i > 0 {
            to.write_all(b" ")?;
        }
        put_word(to, word, b'\'', [b'\'', b'\''])?;
        names.put_name_of(to, word)?;
    }
    to.write_all(b"'\n")
}
