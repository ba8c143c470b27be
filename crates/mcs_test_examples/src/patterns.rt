//! Patterns, and whether each matches a text.
use mcs_explore_questions::is_match;
use mcs_lab_check::LabFault;
use std::io::Write;

/// Patterns and texts. An empty text has one empty word; single spaces separate words.
const PATTERNS: &[(&str, &str)] = &[
    ("got * 7", "got 9 7"),
    ("got * 7", "got 9 7 5"),
    ("got * 7 5", "got 9 7"),
    ("got **", "got 9 7"),
    ("got 9 7 **", "got 9 7"),
    ("**", ""),
    ("", ""),
    ("*", ""),
    (" ", " "),
    ("   ", "   "),
    ("   ", "  "),
    ("", "got"),
];

/// Writes for each pattern whether it matches its text.
pub fn tell_patterns<W: Write>(to: &mut W) -> Result<(), LabFault> {
    for &(pattern, text) in PATTERNS {
        let stands = is_match(pattern.as_bytes(), text.as_bytes());
        writeln!(to, "# '{pattern}' for '{text}': {stands}")?;
    }
    Ok(())
}
