//! Hints for a line of a script that fits no form.
use mcs_lab_forms::{Fields, form_of, meant_by};
use mcs_text::Words;
use std::alloc::{AllocError, Global};
use std::str;

/// How many words at the beginning of a line may precede or be its key: `send`, `0 t1 send`, `user
/// t1 send`.
const KEYS: usize = 3;

/// Adds a word that is text.
fn add_word(to: &mut String, word: &[u8]) -> Result<(), AllocError> {
    match str::from_utf8(word) {
        Ok(word) => to.push_str(word),
        Err(_) => Ok(()),
    }
}

/// Returns a form as text: its key and the names of its words.
fn form_text(alloc: Global, key: &[u8], mut fields: Fields<'static>) -> Result<String, AllocError> {
    let mut text = String::from_str(alloc, "the form is: ")?;
    add_word(&mut text, key)?;
    // a form has fewer words than this
    for _ in 0..100 {
        let Some(field) = fields.next_field() else {
            break;
        };
        text.push_str(" ")?;
        add_word(&mut text, field.name)?;
        if field.is_last {
            text.push_str("..")?;
        }
    }
    Ok(text)
}

/// Returns the message about a misspelled key.
fn meant_text(alloc: Global, key: &[u8]) -> Result<String, AllocError> {
    let mut text = String::from_str(alloc, "did you mean ")?;
    add_word(&mut text, key)?;
    text.push_str("?")?;
    Ok(text)
}

/// Returns a hint for a line that fits no form: the key that was meant, or the form of its key.
/// None if nothing is known, or an allocation fails.
pub(crate) fn hint_of(alloc: Global, line: &[u8]) -> Option<String> {
    let mut words = Words::new(line);
    for place in 0..KEYS {
        let word = words.next_word()?;
        if let Some(key) = meant_by(word) {
            return meant_text(alloc, key).ok();
        }
        if place != 1
            && let Some(fields) = form_of(None, word)
        {
            return form_text(alloc, word, fields).ok();
        }
    }
    None
}
