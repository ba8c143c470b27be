//! The forms of lines that Mermaid's documentation of sequence diagrams names, as far as pictures
//! use them:
//!
//! ```text
//! sequenceDiagram
//! participant ID as TEXT
//! ID->>ID: TEXT        or -->>, or -)
//! Note over ID: TEXT
//! ```

/// Returns whether a word looks like an id in a picture: a lowercase letter, then digits.
fn is_id(word: &str) -> bool {
    let mut letters = word.chars();
    match letters.next() {
        Some(first) => {
            first.is_ascii_lowercase()
                && !letters.as_str().is_empty()
                && letters.all(|letter| letter.is_ascii_digit())
        }
        None => false,
    }
}

/// Returns whether it is a text: some letters, and none that ends a statement; a letter may be
/// written as its code or name, `#59;`.
fn is_text(text: &str) -> bool {
    let mut is_within = false;
    for letter in text.chars() {
        match letter {
            '#' if !is_within => is_within = true,
            ';' if is_within => is_within = false,
            '#' | ';' => return false,
            _ if is_within && !letter.is_ascii_alphanumeric() => return false,
            _ => {}
        }
    }
    !is_within && !text.trim().is_empty()
}

/// Returns whether it is an arrow between two ids.
fn is_arrow(ends: &str) -> bool {
    for sign in ["-->>", "->>", "-)"] {
        if let Some((from, to)) = ends.split_once(sign) {
            return is_id(from) && is_id(to);
        }
    }
    false
}

/// Returns whether a line is a statement.
fn is_statement(line: &str) -> bool {
    let Some(line) = line.strip_prefix("    ") else {
        return false;
    };
    if let Some(named) = line.strip_prefix("participant ") {
        return match named.split_once(" as ") {
            Some((id, name)) => is_id(id) && is_text(name),
            None => false,
        };
    }
    let Some((ends, text)) = line.split_once(": ") else {
        return false;
    };
    match ends.strip_prefix("Note over ") {
        Some(id) => is_id(id) && is_text(text),
        None => is_arrow(ends) && is_text(text),
    }
}

/// Returns whether each line of a text is well-formed, and the first begins a sequence diagram.
pub fn is_sequence(page: &str) -> bool {
    let mut lines = page.lines();
    let Some("sequenceDiagram") = lines.next() else {
        return false;
    };
    for line in lines {
        if !is_statement(line) {
            return false;
        }
    }
    true
}
