//! Questions in the words of Microkit: `in protected 1` is in the block `protected.1`.
ghost use Rattle.std.specs.Prelude.{◌≡◌, OnOk};
ghost use Rattle.mcs_plan_domains.specs.Pages.{page_of};
ghost use Rattle.mcs_plan_domains.specs.Questions.{after_word, between, is_channel, is_event, question_put, questions_put, word_put, words_asked};
ghost use Rattle.mcs_plan_domains.specs.declared.questions.Before.TheVariants as stands;

use crate::lowered::Lowered;
use crate::statements::Statement;
use std::alloc::AllocError;

/// What precedes a word of a question.
#[derive(Clone, Copy)]
pub enum Before {
    Nothing,
    Word,
    /// `in`.
    In,
    /// `in protected` or `in notified`.
    Event,
}

/// Returns whether a word is that of a handler of a channel.
fn is_event(word: &str) -> bool
    ensures { result ≡ is_event word.now }
{
    word == "protected" || word == "notified"
}

/// Returns whether a word begins with a digit.
fn is_channel(word: &str) -> bool
    ensures { result ≡ is_channel word.now }
{
    match word.as_bytes() {
        [first, ..] => *first >= b'0' && *first <= b'9',
        [] => false,
    }
}

/// Returns what precedes the word after this one.
fn after_word(before: Before, word: &str) -> Before
    ensures { result ≡ after_word before word.now }
{
    if word == "in" {
        return Before::In;
    }
    match before {
        Before::In => if is_event(word) {
            Before::Event
        } else {
            Before::Word
        },
        Before::Nothing | Before::Word | Before::Event => Before::Word,
    }
}

/// Returns the separator before a word: the number of a handler's channel follows a dot.
fn between(before: Before, word: &str) -> &'static str
    ensures { result.now ≡ between before word.now }
{
    match before {
        Before::Nothing => "",
        Before::Event => if is_channel(word) { "." } else { " " },
        Before::Word | Before::In => " ",
    }
}

/// Appends a word of a question.
fn put_word(out: &mut Lowered, before: Before, word: &str) -> Result<(), AllocError>
    ensures { OnOk result
        (page_of out.new ≡ word_put (page_of out.old) before word.now) }
{
    out.put(between(before, word))?;
    out.put(word)
}

/// Appends the words of a question.
fn put_words(out: &mut Lowered, words: &[&str]) -> Result<(), AllocError>
    ensures { OnOk result
        (page_of out.new ≡ words_asked (page_of out.old) stands.Nothing words.now) }
{
    let mut before = Before::Nothing;
    for word in words {
        put_word(out, before, word)?;
        before = after_word(before, word);
    }
    Ok(())
}

/// Appends a question.
fn put_question(out: &mut Lowered, question: &Statement<'_>) -> Result<(), AllocError>
    ensures { OnOk result (page_of out.new ≡ question_put (page_of out.old) question.now) }
{
    put_words(out, &question.words)?;
    out.end(question.line)
}

/// Appends all questions.
pub fn put_questions(out: &mut Lowered, questions: &[Statement<'_>]) -> Result<(), AllocError>
    ensures { OnOk result (page_of out.new ≡ questions_put (page_of out.old) questions.now) }
{
    for question in questions {
        put_question(out, question)?;
    }
    Ok(())
}
