//! The line numbers in reports on a plan: the plan's, not the script's.
/// How a command writes the number of a line at the beginning of a line of its report, where no
/// text of a script can be.
#[derive(Clone, Copy)]
pub enum Form {
    /// `ok 3 - line 12: ..`, `  line: 12`, `Bail out! line 12: ..`, as `mcslab check`.
    Tap,
    /// `line 12: ..`, as `mcslab why`.
    Lines,
    /// `{"line":12,..`, as `mcslab json`.
    Json,
    /// None, as `mcslab state`.
    State,
    /// None: `mcslab explore` reads its questions in the plan's lines.
    Orders,
    /// `mcslab: line 12: ..`, why there is no report on all orders.
    NoOrders,
}

/// A line number in a line of a report, and the text before and after it.
#[derive(Clone, Copy)]
pub(crate) struct Found<'a> {
    pub(crate) before: &'a [u8],
    pub(crate) number: u64,
    pub(crate) after: &'a [u8],
}

/// Returns how many digits a text begins with.
fn count_digits(text: &[u8]) -> usize {
    text.iter()
        .position(|byte| !byte.is_ascii_digit())
        .unwrap_or(text.len())
}

/// Returns the number that digits spell; None if there are none, or too many.
fn number_of(digits: &[u8]) -> Option<u64> {
    if digits.is_empty() {
        return None;
    }
    let mut number: u64 = 0;
    for digit in digits {
        let value = u64::from(digit.saturating_sub(b'0'));
        number = number.checked_mul(10)?.checked_add(value)?;
    }
    Some(number)
}

/// Returns the number at this position of a line.
fn found_at(line: &[u8], place: usize) -> Option<Found<'_>> {
    let (before, rest) = line.split_at_checked(place)?;
    let (digits, after) = rest.split_at_checked(count_digits(rest))?;
    Some(Found {
        before,
        number: number_of(digits)?,
        after,
    })
}

/// Returns how many bytes precede the number in a line of a verdict.
fn verdict_place(line: &[u8]) -> Option<usize> {
    let rest = line.strip_prefix(b"not ".as_slice()).unwrap_or(line);
    let rest = rest.strip_prefix(b"ok ".as_slice())?;
    let rest = rest.get(count_digits(rest)..)?;
    let rest = rest.strip_prefix(b" - line ".as_slice())?;
    line.len().checked_sub(rest.len())
}

/// Returns how many bytes precede the number in a line that begins with `head`.
fn place_after(line: &[u8], head: &[u8]) -> Option<usize> {
    line.strip_prefix(head)?;
    Some(head.len())
}

/// Returns how many bytes precede the number in a line of a report, if it has one.
fn place_of(form: Form, line: &[u8]) -> Option<usize> {
    match form {
        Form::Lines => place_after(line, b"line "),
        Form::Json => place_after(line, b"{\"line\":"),
        Form::NoOrders => place_after(line, b"mcslab: line "),
        Form::State | Form::Orders => None,
        Form::Tap => {
            if let Some(place) = verdict_place(line) {
                return Some(place);
            }
            if let Some(place) = place_after(line, b"  line: ") {
                return Some(place);
            }
            place_after(line, b"Bail out! line ")
        }
    }
}

/// Returns the line number in a line of a report, if it has one.
pub(crate) fn found_in(form: Form, line: &[u8]) -> Option<Found<'_>> {
    found_at(line, place_of(form, line)?)
}

/// Returns the number of the plan's line from which a line of the script came; `line` if `numbers`
/// has none for it.
pub fn number_in(numbers: &[u64], line: u64) -> u64 {
    let place = line.saturating_sub(1) as usize;
    numbers.get(place).copied().unwrap_or(line)
}

/// Returns the last line of a script, from the end of its boot on, that came from this line of a
/// plan or an earlier one.
pub(crate) fn last_line(numbers: &[u64], boot: usize, line: u64) -> u64 {
    let mut last = boot;
    for (before, number) in numbers.iter().enumerate() {
        if *number <= line && before >= boot {
            last = before.saturating_add(1);
        }
    }
    last as u64
}
