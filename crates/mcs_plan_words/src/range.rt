//! The lines of a file that a command names, and why it is refused for them.
ghost use Rattle.std.specs.Prelude.{◌≡◌};
ghost use Rattle.mcs_plan_words.specs.Ranges.{beyond, crossed, past};

use std::fmt;

/// Why a command is refused for the lines that it names.
#[derive(Clone, Copy, PartialEq, Eq, Debug)]
pub enum RangeFault {
    /// A line is beyond the end of the plan, which has this many.
    Beyond { line: u64, count: u64 },
    /// The first line is behind the last.
    Crossed { from: u64, to: u64 },
    /// No step in the lines took effect.
    Idle,
}

impl fmt::Display for RangeFault {
    fn fmt<W: fmt::Write>(&self, f: &mut fmt::Formatter<W>) -> fmt::Result {
        match *self {
            RangeFault::Beyond { line, count } => write!(
                f,
                "mcslab: there is no line {line} in the plan, which has {count}"
            ),
            RangeFault::Crossed { from, to } => {
                write!(f, "mcslab: --from {from} is behind --to {to}")
            }
            RangeFault::Idle => f.write_str("mcslab: no step in these lines took effect"),
        }
    }
}

/// Returns the fault of a line beyond the end of a plan, if it is.
fn past(line: Option<u64>, count: u64) -> Option<RangeFault>
    ensures { result ≡ past line count }
{
    match line {
        Some(line) if line > count => Some(RangeFault::Beyond { line, count }),
        Some(_) | None => None,
    }
}

/// Returns the fault of the first line that is named beyond the end of a plan, if one is.
pub fn beyond(one: Option<u64>, other: Option<u64>, count: u64) -> Option<RangeFault>
    ensures { result ≡ beyond one other count }
{
    match past(one, count) {
        Some(fault) => Some(fault),
        None => past(other, count),
    }
}

/// Returns the fault of a first line behind the last one, if it is.
pub fn crossed(from: Option<u64>, to: Option<u64>) -> Option<RangeFault>
    ensures { result ≡ crossed from to }
{
    match (from, to) {
        (Some(from), Some(to)) if from > to => Some(RangeFault::Crossed { from, to }),
        _ => None,
    }
}
