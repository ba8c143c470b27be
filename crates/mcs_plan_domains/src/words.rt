//! Questions about the words of a line.

/// Returns whether a word is there and is this.
pub fn is(word: Option<&&str>, wanted: &str) -> bool {
    match word {
        Some(word) => *word == wanted,
        None => false,
    }
}

/// Returns whether one of these words is this.
pub fn has(words: &[&str], wanted: &str) -> bool {
    for word in words {
        if *word == wanted {
            return true;
        }
    }
    false
}
