//! Numbers on a line.
ghost use Rattle.std.specs.Prelude.{◌≡◌, ◌<◌, ◌≤◌, ◌+◌, ◌-◌, ◌*◌, ◌/◌, ◌%◌, ◌∷◌, [], ◌++◌, IfSome, length, take, drop, decimal};
ghost use Rattle.std.specs.List.{flat_map};
ghost use Rattle.mcs_trace.specs.Room.{Adds, HasRoom};
ghost use Rattle.mcs_trace.specs.Reading.{IsMessageText, message_text};
ghost use Rattle.mcs_text.specs.Spelling.{pair, four, eight, then_text};

use crate::line::Line;
use crate::read_lines::Wording;
use crate::rooms::{COUNT, MESSAGE, NUMBER};
use itoa::Buffer;
use mcs_types::MESSAGE_WORDS;

// Several writers of digits: with `itoa` instead, a script takes 11% to 18% more instructions.
/// The two digits of each number below 100.
static PAIRS: [u8; 200] =
    *b"00010203040506070809101112131415161718192021222324252627282930313233343536373839404142434445464748495051525354555657585960616263646566676869707172737475767778798081828384858687888990919293949596979899";

/// The first of the two digits of a number below 100.
#[inline(always)]
fn tens(n: u64) -> u8
    requires { n < 100 }
    ensures { result ≡ 48 + n / 10 }
{
    PAIRS[n as usize * 2]
}

/// The last digit of a number below 100.
#[inline(always)]
fn ones(n: u64) -> u8
    requires { n < 100 }
    ensures { result ≡ 48 + n % 10 }
{
    PAIRS[n as usize * 2 + 1]
}

/// Returns how many digits a number below 10,000 has.
#[inline(always)]
fn digit_count(n: u64) -> usize
    ensures one { n < 10 → result ≡ 1 }
    ensures two { 10 ≤ n → n < 100 → result ≡ 2 }
    ensures three { 100 ≤ n → n < 1000 → result ≡ 3 }
    ensures four { 1000 ≤ n → result ≡ 4 }
{
    if n < 10 {
        1
    } else if n < 100 {
        2
    } else if n < 1000 {
        3
    } else {
        4
    }
}

/// Returns the last `count` digits of `high` and `low`, two digits each, at the front of four
/// bytes; the rest is arbitrary.
#[inline(always)]
fn last_digits(high: u64, low: u64, count: usize) -> [u8; 4]
    requires high { high < 100 }
    requires low { low < 100 }
    requires some { 1 ≤ count }
    requires few { count ≤ 4 }
    ensures { take count result ≡ drop (4 - count) (pair high ++ pair low) }
{
    let digits = u32::from_le_bytes([tens(high), ones(high), tens(low), ones(low)]);
    let shift = 8 * (4 - count as u32);
    (digits >> shift).to_le_bytes()
}

/// Returns how many digits a number of five or more has.
#[cold]
#[inline(never)]
fn long_length(n: u64) -> usize
    ensures value { result ≡ length (decimal n) }
    ensures few { result ≤ NUMBER }
{
    let mut digits = Buffer::new();
    digits.format(n).len()
}

/// Returns how many digits a number has.
#[inline(always)]
pub fn number_length(n: u64) -> usize
    ensures value { result ≡ length (decimal n) }
    ensures few { result ≤ NUMBER }
{
    if n < 10_000 {
        digit_count(n)
    } else {
        long_length(n)
    }
}

/// Writes the two digits of a number below 100, also a leading 0. Returns the position after them.
#[inline(always)]
fn put_pair(buffer: &mut [u8], at: usize, n: u64) -> usize
    requires small { n < 100 }
    requires room { at + 2 ≤ length buffer.old }
    ensures text { take result buffer.new ≡ take at buffer.old ++ pair n }
    ensures end { result ≡ at + 2 }
{
    buffer[at] = tens(n);
    buffer[at + 1] = ones(n);
    at + 2
}

/// Writes the four digits of a number below 10,000, also leading zeros.
#[inline(always)]
fn put_four(buffer: &mut [u8], at: usize, n: u64) -> usize
    requires small { n < 10000 }
    requires room { at + 4 ≤ length buffer.old }
    ensures text { take result buffer.new ≡ take at buffer.old ++ four n }
    ensures end { result ≡ at + 4 }
{
    let at = put_pair(buffer, at, n / 100);
    put_pair(buffer, at, n % 100)
}

/// Writes the eight digits of a number below 100,000,000, also leading zeros.
fn put_eight(buffer: &mut [u8], at: usize, n: u64) -> usize
    requires small { n < 100000000 }
    requires room { at + 8 ≤ length buffer.old }
    ensures text { take result buffer.new ≡ take at buffer.old ++ eight n }
    ensures end { result ≡ at + 8 }
{
    let at = put_four(buffer, at, n / 10_000);
    put_four(buffer, at, n % 10_000)
}

/// Writes the first `count` of four bytes. All four are stored, so nothing branches on the count.
#[inline(always)]
fn put_first_of(buffer: &mut [u8], at: usize, bytes: [u8; 4], count: usize) -> usize
    requires few { count ≤ 4 }
    requires room { at + 4 ≤ length buffer.old }
    ensures text { take result buffer.new ≡ take at buffer.old ++ take count bytes }
    ensures end { result ≡ at + count }
{
    buffer[at..at + 4].copy_from_slice(&bytes);
    at + count
}

/// Writes a number below 10,000. Its four digits are stored together and shifted over the leading
/// zeros, so nothing branches on how many there are.
#[inline(always)]
fn put_short(buffer: &mut [u8], at: usize, n: u64) -> usize
    requires small { n < 10000 }
    requires room { at + 4 ≤ length buffer.old }
    ensures text { take result buffer.new ≡ take at buffer.old ++ decimal n }
    ensures end { result ≤ at + 4 }
{
    let count = digit_count(n);
    put_first_of(buffer, at, last_digits(n / 100, n % 100, count), count)
}

/// Writes a number below 100,000,000.
#[inline(always)]
fn put_middle(buffer: &mut [u8], at: usize, n: u64) -> usize
    requires small { n < 100000000 }
    requires room { at + 8 ≤ length buffer.old }
    ensures text { take result buffer.new ≡ take at buffer.old ++ decimal n }
    ensures end { result ≤ at + 8 }
{
    if n < 10_000 {
        return put_short(buffer, at, n);
    }
    let at = put_short(buffer, at, n / 10_000);
    put_four(buffer, at, n % 10_000)
}

/// Writes a number of nine digits or more. It is never inlined into `put_long`, which thus saves no
/// registers for it.
#[inline(never)]
fn put_huge(buffer: &mut [u8], at: usize, n: u64) -> usize
    requires large { 100000000 ≤ n }
    requires room { at + NUMBER ≤ length buffer.old }
    ensures text { take result buffer.new ≡ take at buffer.old ++ decimal n }
    ensures end { result ≤ at + NUMBER }
{
    if n < 10_000_000_000_000_000 {
        let at = put_middle(buffer, at, n / 100_000_000);
        return put_eight(buffer, at, n % 100_000_000);
    }
    let high = n / 100_000_000;
    let at = put_short(buffer, at, high / 100_000_000);
    let at = put_eight(buffer, at, high % 100_000_000);
    put_eight(buffer, at, n % 100_000_000)
}

/// Writes a number of 10 or more. It is a separate function, since most numbers of a trace have one
/// digit. It returns the number's end in a register, so that no caller reads it back from the line.
#[inline(never)]
fn put_long(buffer: &mut [u8], at: usize, n: u64) -> usize
    requires large { 10 ≤ n }
    requires room { at + NUMBER ≤ length buffer.old }
    ensures text { take result buffer.new ≡ take at buffer.old ++ decimal n }
    ensures end { result ≤ at + NUMBER }
{
    if n < 10_000 {
        put_short(buffer, at, n)
    } else if n < 100_000_000 {
        put_middle(buffer, at, n)
    } else {
        put_huge(buffer, at, n)
    }
}

impl Line {
    /// Appends a digit.
    #[inline(always)]
    #[tactic(auto, using(std::proofs::lemmas::Fmt::decimal_digit))]
    fn digit(&mut self, n: u64)
        requires small { n < 10 }
        requires room { HasRoom self.old 1 }
        ensures { Adds self.old self.new 1 (decimal n) }
    {
        self.byte(b'0' + n as u8);
    }

    /// Appends a number of 10 or more.
    #[inline(always)]
    fn long(&mut self, n: u64)
        requires large { 10 ≤ n }
        requires room { HasRoom self.old NUMBER }
        ensures { Adds self.old self.new NUMBER (decimal n) }
    {
        self.end = put_long(&mut self.bytes, self.end, n);
    }

    /// Appends a number in decimal digits.
    #[inline(always)]
    pub fn number(&mut self, n: u64)
        requires { HasRoom self.old NUMBER }
        ensures { Adds self.old self.new NUMBER (decimal n) }
    {
        if n < 10 {
            self.digit(n);
        } else {
            self.long(n);
        }
    }

    /// Appends a space and a number.
    #[inline(always)]
    pub fn spaced(&mut self, n: u64)
        requires { HasRoom self.old (1 + NUMBER) }
        ensures { Adds self.old self.new (1 + NUMBER) (then_text (decimal n)) }
    {
        self.byte(b' ');
        self.number(n);
    }

    /// Appends a number of 128 bits.
    #[cold]
    #[inline(never)]
    fn wide(&mut self, n: u128)
        requires { HasRoom self.old COUNT }
        ensures { Adds self.old self.new COUNT (decimal n) }
    {
        let mut digits = Buffer::new();
        self.bytes(digits.format(n).as_bytes());
    }

    /// Appends a count of messages.
    pub fn count(&mut self, count: u128)
        requires { HasRoom self.old COUNT }
        ensures { Adds self.old self.new COUNT (decimal count) }
    {
        if count <= u64::MAX as u128 {
            self.number(count as u64);
        } else {
            self.wide(count);
        }
    }

    /// Appends numbers, with a space before each.
    #[inline(always)]
    fn numbers(&mut self, numbers: &[u64])
        requires { HasRoom self.old ((1 + NUMBER) * length numbers.now) }
        ensures { Adds self.old self.new ((1 + NUMBER) * length numbers.now)
            (flat_map (λ n. then_text (decimal n)) numbers.now) }
    {
        for number in numbers {
            self.spaced(*number);
        }
    }

    /// Appends the label and the words of a message, with a space before each.
    #[inline(always)]
    pub fn message(&mut self, label: u64, words: &[u64])
        requires few { length words.now ≤ MESSAGE_WORDS }
        requires room { HasRoom self.old MESSAGE }
        ensures { Adds self.old self.new MESSAGE
            (flat_map (λ n. then_text (decimal n)) (label ∷ words.now)) }
    {
        self.spaced(label);
        self.numbers(words);
    }

    /// Appends the label and the words of a message, copied from their text if that was read.
    #[inline(always)]
    pub fn message_or_text(&mut self, message: Wording<'_>)
        requires few { length message.words.now ≤ MESSAGE_WORDS }
        requires text { IfSome message.text
            (λ t. IsMessageText t.now message.label message.words.now) }
        requires room { HasRoom self.old MESSAGE }
        ensures { Adds self.old self.new MESSAGE
            (message_text message.entry.label message.entry.words.now) }
    {
        match message.text {
            Some(text) => self.bytes(text),
            None => self.message(message.label, message.words),
        }
    }
}
