//! The line that is written: bytes at the front of a buffer.
ghost use Rattle.std.specs.Prelude.{◌≡◌, ◌<◌, ◌≤◌, ◌+◌, ◌∷◌, [], ◌++◌, length, take, drop};
ghost use Rattle.mcs_trace.specs.Room.{Adds, HasRoom};

use crate::rooms::LINE;
use std::marker::Model;
use std::simd::Simd;

/// The size of the line buffer in bytes.
pub const SIZE: usize = 65_536;

/// How many bytes of a long text are moved at once.
const PART: usize = 16;

/// A buffer with a text at its front. Clauses see only the text, as a list of its bytes.
#[derive(Drop)]
pub struct Line {
    pub(crate) end: usize,
    pub(crate) bytes: [u8; SIZE],
}

impl Model for Line {
    ghost use Rattle.std.specs.Prelude.{◌≤◌, ℕ, List, take};
    ghost use Rattle.mcs_trace.specs.declared.line.TheConstants.{SIZE};

    ghost Value = { List ℕ };

    ghost view = { λ l. take l.end l.bytes };

    ghost invariant = { λ l. l.end ≤ SIZE };
}

impl Line {
    /// Returns an empty buffer.
    pub fn new() -> Line
        ensures { result ≡ [] }
    {
        Line {
            end: 0,
            bytes: [0; SIZE],
        }
    }

    /// Returns how many bytes there are.
    #[inline(always)]
    pub fn len(&self) -> usize
        ensures { result ≡ length self.now }
    {
        self.end
    }

    /// Returns the text.
    pub fn text(&self) -> &[u8]
        ensures { result.now ≡ self.now }
    {
        &self.bytes[..self.end]
    }

    /// Empties the buffer.
    pub fn clear(&mut self)
        ensures { self.new ≡ [] }
    {
        self.end = 0;
    }

    // The end is read once, before the bytes are written, so that it stays in a register from word
    // to word.

    /// Appends a byte.
    #[inline(always)]
    pub fn byte(&mut self, byte: u8)
        requires { HasRoom self.old 1 }
        ensures { Adds self.old self.new 1 (byte ∷ []) }
    {
        let end = self.end;
        self.bytes[end] = byte;
        self.end = end + 1;
    }

    /// Stores `N` bytes of a text, from a position on, after the front of a buffer.
    // takes only the buffer, so that the end is stored once, not with each part
    #[inline(always)]
    fn part<const N: usize>(buffer: &mut [u8], front: usize, text: &[u8], at: usize)
        requires room { front + N ≤ length buffer.old }
        requires within { at + N ≤ length text.now }
        ensures { take (front + N) buffer.new
            ≡ take front buffer.old ++ take N (drop at text.now) }
    {
        Simd::<u8, N>::from_slice(&text[at..]).copy_to_slice(&mut buffer[front..]);
    }

    /// Appends N to 2 N bytes: the first N, and then the last N, which may overlap them.
    #[inline(always)]
    fn ends<const N: usize>(&mut self, bytes: &[u8])
        requires least { N ≤ length bytes.now }
        requires most { length bytes.now ≤ N + N }
        requires room { HasRoom self.old (length bytes.now) }
        ensures { Adds self.old self.new (length bytes.now) bytes.now }
    {
        let front = self.end;
        let last = bytes.len() - N;
        Line::part::<N>(&mut self.bytes, front, bytes, 0);
        Line::part::<N>(&mut self.bytes, front + last, bytes, last);
        self.end = front + bytes.len();
    }

    /// Appends bytes. They are moved 4, 8 or 16 at a time; the last such part may overlap the one
    /// before.
    // a copy of unknown length would go byte by byte
    #[inline(always)]
    pub fn bytes(&mut self, bytes: &[u8])
        requires { HasRoom self.old (length bytes.now) }
        ensures { Adds self.old self.new (length bytes.now) bytes.now }
    {
        let count = bytes.len();
        if count < 4 {
            return self.few_bytes(bytes);
        }
        if count <= 8 {
            return self.ends::<4>(bytes);
        }
        if count <= 16 {
            return self.ends::<8>(bytes);
        }
        if count <= 32 {
            return self.ends::<16>(bytes);
        }
        self.many_bytes(bytes);
    }

    /// Appends more than 32 bytes.
    #[inline(always)]
    fn many_bytes(&mut self, bytes: &[u8])
        requires many { PART ≤ length bytes.now }
        requires room { HasRoom self.old (length bytes.now) }
        ensures { Adds self.old self.new (length bytes.now) bytes.now }
    {
        let front = self.end;
        let last = bytes.len() - PART;
        let mut at = 0;
        while at < last {
            Line::part::<PART>(&mut self.bytes, front + at, bytes, at);
            at += PART;
        }
        Line::part::<PART>(&mut self.bytes, front + last, bytes, last);
        self.end = front + bytes.len();
    }

    /// Appends a line that is spelled already, with its newline.
    #[inline(always)]
    pub fn spelled(&mut self, line: &[u8])
        requires short { length line.now < LINE }
        requires room { HasRoom self.old LINE }
        ensures { Adds self.old self.new LINE (line.now ++ 10 ∷ []) }
    {
        self.bytes(line);
        self.byte(b'\n');
    }

    /// Appends a few bytes, one after the other. Constant bytes are stored together, and no call
    /// compares addresses.
    #[inline(always)]
    pub fn few_bytes(&mut self, bytes: &[u8])
        requires { HasRoom self.old (length bytes.now) }
        ensures { Adds self.old self.new (length bytes.now) bytes.now }
    {
        for byte in bytes {
            self.byte(*byte);
        }
    }
}
