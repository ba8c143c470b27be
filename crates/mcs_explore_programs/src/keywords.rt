//! The words with which statements begin.
use mcs_lab_forms::{FORMS, Fields, form_of};
use mcs_text::find_boot_key;

/// The keywords of statements that are no entries, as a fault lists them.
pub const KEYWORDS: &str = "let, forever, while, repeat, if, {, }, break, continue, stop";

/// A keyword of a statement that is no entry.
#[derive(Clone, Copy)]
pub enum Keyword {
    Let,
    Forever,
    While,
    Repeat,
    If,
    Open,
    Close,
    Break,
    Continue,
    Stop,
}

impl Keyword {
    /// The keyword that a word is.
    pub fn of(word: &[u8]) -> Option<Keyword> {
        match word {
            b"let" => Some(Keyword::Let),
            b"forever" => Some(Keyword::Forever),
            b"while" => Some(Keyword::While),
            b"repeat" => Some(Keyword::Repeat),
            b"if" => Some(Keyword::If),
            b"{" => Some(Keyword::Open),
            b"}" => Some(Keyword::Close),
            b"break" => Some(Keyword::Break),
            b"continue" => Some(Keyword::Continue),
            b"stop" => Some(Keyword::Stop),
            _ => None,
        }
    }

    /// Returns whether it opens a block.
    pub fn opens(self) -> bool {
        match self {
            Keyword::Forever | Keyword::While | Keyword::Repeat | Keyword::If | Keyword::Open => {
                true
            }
            Keyword::Let | Keyword::Close | Keyword::Break | Keyword::Continue | Keyword::Stop =>
                false,
        }
    }
}

/// How a kept word changes.
#[derive(Clone, Copy)]
pub enum Change {
    Set,
    Add,
    Subtract,
}

impl Change {
    /// Returns the change that an operator means.
    pub fn of(word: &[u8]) -> Option<Change> {
        match word {
            b"=" => Some(Change::Set),
            b"+=" => Some(Change::Add),
            b"-=" => Some(Change::Subtract),
            _ => None,
        }
    }
}

/// The form of the entries that a word begins; None if it begins none.
fn entry_form(word: &[u8]) -> Option<Fields<'static>> {
    if matches!(word, b"=" | b"+") || find_boot_key(word).is_some() {
        return None;
    }
    form_of(None, word)
}

/// Returns whether a word begins an entry.
pub fn is_entry(word: &[u8]) -> bool {
    entry_form(word).is_some()
}

/// Returns the position of the label among the words of an entry with this first word; None if it
/// has no message.
pub fn label_place(word: &[u8]) -> Option<usize> {
    let mut fields = entry_form(word)?;
    for place in 1..=FORMS.len() {
        if matches!(fields.next_field()?.name, b"label") {
            return Some(place);
        }
    }
    None
}

/// Returns whether a name may have this byte.
fn is_of_name(byte: u8) -> bool {
    byte.is_ascii_alphanumeric() || byte == b'_' || byte == b'-' || byte == b'.'
}

/// Returns whether a word may be a name: it begins with a letter.
pub fn is_name(word: &[u8]) -> bool {
    match word {
        [first, rest @ ..] => {
            first.is_ascii_alphabetic() && rest.iter().all(|byte| is_of_name(*byte))
        }
        [] => false,
    }
}

/// Returns whether a word may name a kept word: it has no other meaning.
pub fn is_kept_name(word: &[u8]) -> bool {
    let is_taken = matches!(word, b"badge" | b"word" | b"label" | b"else");
    is_name(word) && !is_taken && !is_entry(word) && Keyword::of(word).is_none()
}
