//! Patterns: lines of words, in which `*` matches a word and `**`, at the end, the rest.
ghost use Rattle.std.specs.Prelude.{◌≡◌};
ghost use Rattle.mcs_explore_questions.specs.Patterns.{is_match, is_rest, is_word};

use mcs_text::Words;

/// Returns whether a word of a pattern is the wildcard for the rest.
pub(crate) fn is_rest(wanted: &[u8]) -> bool
    ensures { result ≡ is_rest wanted.now }
{
    wanted == b"**".as_slice()
}

/// Returns whether a word of a pattern matches a word.
fn is_word(wanted: &[u8], word: &[u8]) -> bool
    ensures { result ≡ is_word wanted.now word.now }
{
    wanted == b"*".as_slice() || wanted == word
}

/// Returns whether a text is one of those that a pattern matches (own), both cut into words at
/// single spaces.
pub fn is_match(pattern: &[u8], text: &[u8]) -> bool
    ensures { result ≡ is_match pattern.now text.now }
{
    let mut left = Words::new(pattern);
    let mut words = Words::new(text);
    while let Some(wanted) = left.next_word() {
        if is_rest(wanted) {
            return true;
        }
        let Some(word) = words.next_word() else {
            return false;
        };
        if !is_word(wanted, word) {
            return false;
        }
    }
    !words.has_more()
}
