//! Whether boots have the same lines.
ghost use Rattle.std.specs.Prelude.{◌≡◌, ◌↔◌, IsTrue};

use mcs_types::BootLine;

/// Returns whether two lines of a boot are the same.
fn is_same_line(one: &BootLine, other: &BootLine) -> bool
    ensures { IsTrue result ↔ (one.now ≡ other.now) }
{
    *one == *other
}

/// Returns whether two boots have the same lines.
pub fn are_same_lines(one: &[BootLine], other: &[BootLine]) -> bool
    ensures { IsTrue result ↔ (one.now ≡ other.now) }
{
    if one.len() != other.len() {
        return false;
    }
    for i in 0..one.len() {
        if !is_same_line(&one[i], &other[i]) {
            return false;
        }
    }
    true
}
