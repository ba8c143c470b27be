//! Checks whether a pattern can match a line of an answer or a record, by the forms of these lines,
//! and replaces names by ids.
ghost use Rattle.std.specs.Prelude.{ℕ, ◌≡◌, ◌++◌, ◌∷◌, List, false, true, Some, None, IfOk, IfErr, OnOk, bytes_eq, option_copied, option_map};
ghost use Rattle.mcs_text.specs.Reading.{words_of};
ghost use Rattle.mcs_text.specs.Spelling.{name_text};
ghost use Rattle.mcs_explore_questions.specs.Forms.{answer_form, are_rights, begun, after_letter, end_of, firsts_of, fit_of, fitted, fitted_any, fitted_by, form_of, held, is_any, is_between, is_ending, is_message, is_mode, is_of, is_of_others, is_of_receivers, is_rest_last, is_status, kept, kind_named, may_be_none, message_record, names_in, object_record, object_taken, object_text, object_there, other_record, pattern_by, pattern_of, plain_sort, queue_text, record_form, sort_by, sort_of, sort_text, take_any_rights, take_capability, take_field, take_fields, take_numbers, take_reply, take_rest_of, take_sort, take_two, taken, whole_of};
ghost use Rattle.mcs_explore_questions.specs.Patterns.{is_rest};
ghost use Rattle.mcs_explore_questions.specs.declared.forms.WordKind.TheVariants as of_sort;
ghost use Rattle.mcs_explore_questions.specs.Reading.{Refuses, has_words, is_of_memory, texts};
ghost use Rattle.mcs_explore_questions.specs.There.{scene_of};

use crate::fault::QuestionFault;
use crate::patterns::is_rest;
use crate::there::{There, id_text};
use crate::words::Reader;
use mcs_explore_programs::{Listed, Word};
use mcs_lab_check::queue_of;
use mcs_lab_forms::number_of;
use mcs_text::Words;
use mcs_types::{Kind, LABEL_BITS, MESSAGE_WORDS, ObjId};
use std::alloc::{AllocError, Global};

/// Which lines a pattern is about.
#[derive(Clone, Copy)]
pub enum Lines {
    Answers,
    Records,
}

/// What kind of word a form has at a position.
#[derive(Clone, Copy)]
enum WordKind {
    /// An object of this kind, or of any.
    Object(Option<Kind>),
    /// The same, or a dash for none.
    Maybe(Kind),
    /// A number from one to another.
    Number(u64, u64),
    /// A message, as `m4`.
    Message,
    /// A queue of an object, as `e1.send`.
    Queue,
    /// Rights, such as `rw`, or a dash for none.
    Rights,
    /// Rights, or the bits of a guard.
    Either,
    /// What a thread does.
    Status,
    /// How a message was sent.
    Mode,
    /// Why a reply object became void.
    Ending,
}

/// Returns whether a word is this one.
fn is(word: &[u8], text: &[u8]) -> bool
    ensures { result ≡ bytes_eq word.now text.now }
{
    word == text
}

/// Returns the kind of object for words with this name in a form.
#[tactic(auto, unfolding(crate::specs::Forms::kind_named))]
fn kind_named(name: &[u8]) -> Option<Kind>
    ensures { result ≡ kind_named name.now }
{
    if is(name, b"thread") {
        return Some(Kind::Thread);
    }
    if is(name, b"endpoint") {
        return Some(Kind::Endpoint);
    }
    if is(name, b"notification") {
        return Some(Kind::Notification);
    }
    if is(name, b"reply") {
        return Some(Kind::Reply);
    }
    if is(name, b"context") {
        return Some(Kind::Context);
    }
    if is(name, b"cnode") {
        return Some(Kind::CNode);
    }
    None
}

/// Returns whether a dash may mean no object of this name, in a line with this first word.
#[tactic(auto, unfolding(crate::specs::Forms::may_be_none))]
fn may_be_none(first: &[u8], name: &[u8]) -> bool
    ensures { result ≡ may_be_none first.now name.now }
{
    if is(first, b"owes") {
        return is(name, b"context");
    }
    if is(first, b"holds") {
        return is(name, b"thread");
    }
    if is(first, b"tied") || is(first, b"homed") {
        return is(name, b"notification");
    }
    false
}

/// Returns the kind of word for this name in a form, if it names no object of one kind.
#[tactic(auto, unfolding(crate::specs::Forms::plain_sort))]
fn plain_sort(first: &[u8], name: &[u8]) -> WordKind
    ensures { result ≡ plain_sort first.now name.now }
{
    if is(name, b"object") {
        return WordKind::Object(None);
    }
    if is(name, b"message") {
        return WordKind::Message;
    }
    if is(name, b"queue") {
        return WordKind::Queue;
    }
    if is(name, b"ending") {
        return WordKind::Ending;
    }
    if is(name, b"mode") {
        return if is(first, b"turns") {
            WordKind::Status
        } else {
            WordKind::Mode
        };
    }
    if is(name, b"priority") || is(name, b"index") {
        return WordKind::Number(0, 255);
    }
    if is(name, b"label") {
        return WordKind::Number(0, (1 << LABEL_BITS) - 1);
    }
    if is(name, b"reason") {
        return WordKind::Number(1, 13);
    }
    WordKind::Number(0, u64::MAX)
}

/// Returns the kind of word for which a name stands in the form of the lines that begin with
/// `first`.
#[tactic(auto, unfolding(crate::specs::Forms::sort_of))]
fn sort_of(first: &[u8], name: &[u8]) -> WordKind
    ensures { result ≡ sort_of first.now name.now }
{
    match kind_named(name) {
        Some(kind) if may_be_none(first, name) => WordKind::Maybe(kind),
        Some(kind) => WordKind::Object(Some(kind)),
        None => plain_sort(first, name),
    }
}

/// Returns the expected words that a fault names for a kind of word.
fn wanted_of(sort: WordKind) -> &'static str {
    match sort {
        WordKind::Object(kind) => wanted_kind(kind),
        WordKind::Maybe(kind) => wanted_kind(Some(kind)),
        WordKind::Number(1, 13) => "the number of a refusal, 1 to 13",
        WordKind::Number(_, 255) => "a number up to 255",
        WordKind::Number(_, _) | WordKind::Either => "a number",
        WordKind::Message => "a message, as m4",
        WordKind::Queue => "a queue, as e1.send, e1.recv or n1.wait",
        WordKind::Rights => "rights, as rw",
        WordKind::Status => "running, restart or inactive",
        WordKind::Mode => "send, call, mute or give",
        WordKind::Ending => "deleted or cancelled",
    }
}

/// Returns the expected words that a fault names for an object of a kind.
fn wanted_kind(kind: Option<Kind>) -> &'static str {
    match kind {
        None => "an object",
        Some(Kind::CNode) => "a CNode",
        Some(Kind::Thread) => "a thread",
        Some(Kind::Endpoint) => "an endpoint",
        Some(Kind::Notification) => "a notification",
        Some(Kind::Reply) => "a reply object",
        Some(Kind::Context) => "a scheduling context",
    }
}

/// Returns whether a word is the wildcard for one word.
fn is_any(word: &[u8]) -> bool
    ensures { result ≡ is_any word.now }
{
    is(word, b"*")
}

/// Returns the bytes after a letter, if a word begins with it.
fn after_letter(letter: u8, word: &[u8]) -> &[u8]
    ensures { result.now ≡ after_letter letter word.entry.now }
{
    match word {
        [first, rest @ ..] if *first == letter => rest,
        _ => word,
    }
}

/// Returns whether a word gives rights: letters of `rwgp` in this order, or a dash.
fn are_rights(word: &[u8]) -> bool
    ensures { result ≡ are_rights word.now }
{
    let read = after_letter(b'r', word);
    let written = after_letter(b'w', read);
    let granted = after_letter(b'g', written);
    is(word, b"-") || (!word.is_empty() && after_letter(b'p', granted).is_empty())
}

/// Returns whether there is a number, and it is between two bounds.
fn is_between(least: u64, most: u64, number: Option<u64>) -> bool
    ensures { result ≡ is_between least most number }
{
    match number {
        Some(n) => least <= n && n <= most,
        None => false,
    }
}

/// Returns whether a word names a message, as `m4`.
fn is_message(word: &[u8]) -> bool
    ensures { result ≡ is_message word.now }
{
    match word {
        [letter, digits @ ..] => *letter == b'm' && number_of(digits).is_some(),
        [] => false,
    }
}

/// Returns whether a word is a status of a thread.
fn is_status(word: &[u8]) -> bool
    ensures { result ≡ is_status word.now }
{
    is(word, b"running") || is(word, b"restart") || is(word, b"inactive")
}

/// Returns whether a word says how a message was sent.
fn is_mode(word: &[u8]) -> bool
    ensures { result ≡ is_mode word.now }
{
    (is(word, b"send") || is(word, b"call")) || (is(word, b"mute") || is(word, b"give"))
}

/// Returns whether a word says why a reply object became void.
fn is_ending(word: &[u8]) -> bool
    ensures { result ≡ is_ending word.now }
{
    is(word, b"deleted") || is(word, b"cancelled")
}

/// Returns the fault for a word that is not the expected one.
fn not(alloc: Global, word: &[u8], wanted: &'static str) -> Result<QuestionFault, AllocError>
    ensures { IfOk result (λ e. is_of_memory e ≡ false) }
{
    Ok(QuestionFault::Not {
        word: Word::new(alloc, word)?,
        wanted,
    })
}

/// Returns the fault for a missing word.
fn short(alloc: Global, name: &[u8]) -> Result<QuestionFault, AllocError>
    ensures { IfOk result (λ e. is_of_memory e ≡ false) }
{
    Ok(QuestionFault::Short {
        field: Word::new(alloc, name)?,
    })
}

/// Returns the object of a kind that a word names, if it can exist.
#[tactic(auto, unfolding(crate::specs::Forms::object_there))]
fn object_there(
    alloc: Global,
    there: There<'_>,
    kind: Option<Kind>,
    word: &[u8],
) -> Result<ObjId, QuestionFault>
    ensures said { IfOk result (λ o. object_there (scene_of there.entry) kind word.now ≡ Some o) }
    ensures error { IfErr result (Refuses (object_there (scene_of there.entry) kind word.now)) }
{
    let Some(object) = there.object(alloc, word)? else {
        return Err(not(alloc, word, wanted_kind(kind))?);
    };
    if !is_of(kind, object) {
        return Err(not(alloc, word, wanted_kind(kind))?);
    }
    there.expect(alloc, word, object)?;
    Ok(object)
}

/// Returns whether an object is of a kind; true if no kind is given.
fn is_of(kind: Option<Kind>, object: ObjId) -> bool
    ensures { result ≡ is_of kind object }
{
    match kind {
        Some(kind) => kind.is_same(object.kind),
        None => true,
    }
}

/// The bytes of an id.
fn id_bytes(alloc: Global, object: ObjId) -> Result<Vec<u8>, AllocError>
    ensures { IfOk result (λ v. v.items ≡ name_text object) }
{
    let text = id_text(alloc, object)?;
    Vec::from_slice(alloc, text.as_bytes())
}

/// Returns the text for the name of an object: its id.
#[tactic(auto, unfolding(crate::specs::Forms::object_text))]
fn object_text(
    alloc: Global,
    there: There<'_>,
    kind: Option<Kind>,
    word: &[u8],
) -> Result<Vec<u8>, QuestionFault>
    ensures said { IfOk result (λ v. object_text (scene_of there.entry) kind word.now
        ≡ Some v.items) }
    ensures error { IfErr result (Refuses (object_text (scene_of there.entry) kind word.now)) }
{
    let object = object_there(alloc, there, kind, word)?;
    Ok(id_bytes(alloc, object)?)
}

/// Returns the id of an object with a suffix.
fn with_end(alloc: Global, object: ObjId, end: &[u8]) -> Result<Vec<u8>, AllocError>
    ensures { IfOk result (λ v. v.items ≡ name_text object ++ end.now) }
{
    let mut text = id_bytes(alloc, object)?;
    text.extend_from_slice(end)?;
    Ok(text)
}

/// Returns the text for the name of a queue: the id of its object, and its suffix.
#[tactic(auto, unfolding(crate::specs::Forms::queue_text))]
fn queue_text(alloc: Global, there: There<'_>, word: &[u8]) -> Result<Vec<u8>, QuestionFault>
    ensures said { IfOk result (λ v. queue_text (scene_of there.entry) word.now ≡ Some v.items) }
    ensures error { IfErr result (Refuses (queue_text (scene_of there.entry) word.now)) }
{
    let at = word.len().saturating_sub(5);
    let Some(object) = there.object(alloc, &word[..at])? else {
        return Err(not(alloc, word, wanted_of(WordKind::Queue))?);
    };
    let text = with_end(alloc, object, &word[at..])?;
    if queue_of(text.as_slice()).is_none() {
        return Err(not(alloc, word, wanted_of(WordKind::Queue))?);
    }
    there.expect(alloc, word, object)?;
    Ok(text)
}

/// Returns a word as it is, if it is allowed.
fn kept(
    alloc: Global,
    is_so: bool,
    word: &[u8],
    wanted: &'static str,
) -> Result<Vec<u8>, QuestionFault>
    ensures said { IfOk result (λ v. kept is_so word.now ≡ Some v.items) }
    ensures error { IfErr result (Refuses (kept is_so word.now)) }
{
    if is_so {
        return Ok(Vec::from_slice(alloc, word)?);
    }
    Err(not(alloc, word, wanted)?)
}

/// Returns the text that replaces a word of a kind in a pattern.
#[tactic(auto, unfolding(crate::specs::Forms::sort_text))]
fn sort_text(
    alloc: Global,
    there: There<'_>,
    sort: WordKind,
    word: &[u8],
) -> Result<Vec<u8>, QuestionFault>
    ensures said { IfOk result (λ v. sort_text (scene_of there.entry) sort word.now
        ≡ Some v.items) }
    ensures error { IfErr result (Refuses (sort_text (scene_of there.entry) sort word.now)) }
{
    let is_so = match sort {
        WordKind::Object(kind) => return object_text(alloc, there, kind, word),
        WordKind::Maybe(kind) => {
            if !is(word, b"-") {
                return object_text(alloc, there, Some(kind), word);
            }
            true
        }
        WordKind::Queue => return queue_text(alloc, there, word),
        WordKind::Number(least, most) => is_between(least, most, number_of(word)),
        WordKind::Message => is_message(word),
        WordKind::Rights => are_rights(word),
        WordKind::Either => are_rights(word) || is_between(0, 64, number_of(word)),
        WordKind::Status => is_status(word),
        WordKind::Mode => is_mode(word),
        WordKind::Ending => is_ending(word),
    };
    kept(alloc, is_so, word, wanted_of(sort))
}

/// A pattern as far as it is read: the last word taken, the text so far, and whether the wildcard
/// for the rest was taken.
#[derive(Drop)]
struct Pattern<'a> {
    last: &'a [u8],
    text: Vec<u8>,
    ended: bool,
}

impl<'a> Pattern<'a> {
    /// Adds a word that was taken, with the text for it.
    fn put(&mut self, word: &'a [u8], text: &[u8]) -> Result<(), AllocError>
        ensures last { OnOk result (self.new.last.now ≡ word.entry.now) }
        ensures text { OnOk result (self.new.text.items ≡ self.old.text.items ++ 32 ∷ text.now) }
        ensures ended { OnOk result (self.new.ended ≡ self.old.ended) }
    {
        self.last = word;
        self.text.extend_from_slice(b" ")?;
        self.text.extend_from_slice(text)
    }

    /// Adds the wildcard for all the remaining words.
    fn put_rest(&mut self, word: &'a [u8]) -> Result<(), AllocError>
        ensures last { OnOk result (self.new.last.now ≡ word.entry.now) }
        ensures text { OnOk result
            (self.new.text.items ≡ self.old.text.items ++ 32 ∷ word.entry.now) }
        ensures ended { OnOk result (self.new.ended ≡ true) }
    {
        self.put(word, word)?;
        self.ended = true;
        Ok(())
    }
}

/// Adds a word of a kind, or a wildcard, that was taken.
fn taken<'a>(
    alloc: Global,
    there: There<'_>,
    sort: WordKind,
    word: &'a [u8],
    pattern: &mut Pattern<'a>,
) -> Result<(), QuestionFault>
    ensures said { OnOk result ((f : List (List ℕ)) (words : List (List ℕ))
        → taken (scene_of there.entry) sort (fit_of pattern.old f) word.entry.now words
        ≡ Some (fit_of pattern.new words)) }
    ensures error { IfErr result (λ e. (f : List (List ℕ)) (words : List (List ℕ))
        → Refuses (taken (scene_of there.entry) sort
        (fit_of pattern.old f) word.entry.now words) e) }
{
    if is_rest(word) {
        pattern.put_rest(word)?;
        return Ok(());
    }
    if is_any(word) {
        pattern.put(word, word)?;
        return Ok(());
    }
    let text = sort_text(alloc, there, sort, word)?;
    pattern.put(word, text.as_slice())?;
    Ok(())
}

/// Takes a word of a kind, or a wildcard, into the pattern. `Short` if no word is left. After the
/// wildcard for the rest it takes nothing.
fn take<'a>(
    alloc: Global,
    there: There<'_>,
    sort: WordKind,
    name: &[u8],
    words: &mut Reader<'a>,
    pattern: &mut Pattern<'a>,
) -> Result<(), QuestionFault>
    ensures said { OnOk result (take_sort (scene_of there.entry) sort (fit_of pattern.old words.old)
        ≡ Some (fit_of pattern.new words.new)) }
    ensures error { IfErr result (Refuses (take_sort (scene_of there.entry) sort
        (fit_of pattern.old words.old))) }
{
    if pattern.ended {
        return Ok(());
    }
    let Some(word) = words.next() else {
        return Err(short(alloc, name)?);
    };
    taken(alloc, there, sort, word, pattern)
}

/// Takes the rights and the badge of a capability.
#[tactic(auto, unfolding(crate::specs::Forms::take_two))]
fn take_badged<'a>(
    alloc: Global,
    there: There<'_>,
    words: &mut Reader<'a>,
    pattern: &mut Pattern<'a>,
) -> Result<(), QuestionFault>
    ensures said { OnOk result (take_two (scene_of there.entry) of_sort.Rights
        (of_sort.Number 0 18446744073709551615) (fit_of pattern.old words.old)
        ≡ Some (fit_of pattern.new words.new)) }
    ensures error { IfErr result (Refuses (take_two (scene_of there.entry) of_sort.Rights
        (of_sort.Number 0 18446744073709551615) (fit_of pattern.old words.old))) }
{
    take(alloc, there, WordKind::Rights, b"rights", words, pattern)?;
    take(
        alloc,
        there,
        WordKind::Number(0, u64::MAX),
        b"badge",
        words,
        pattern,
    )
}

/// Takes the bits and the value of a guard.
#[tactic(auto, unfolding(crate::specs::Forms::take_two))]
fn take_guarded<'a>(
    alloc: Global,
    there: There<'_>,
    words: &mut Reader<'a>,
    pattern: &mut Pattern<'a>,
) -> Result<(), QuestionFault>
    ensures said { OnOk result (take_two (scene_of there.entry) (of_sort.Number 0 64)
        (of_sort.Number 0 18446744073709551615) (fit_of pattern.old words.old)
        ≡ Some (fit_of pattern.new words.new)) }
    ensures error { IfErr result (Refuses (take_two (scene_of there.entry) (of_sort.Number 0 64)
        (of_sort.Number 0 18446744073709551615) (fit_of pattern.old words.old))) }
{
    take(
        alloc,
        there,
        WordKind::Number(0, 64),
        b"guard bits",
        words,
        pattern,
    )?;
    take(
        alloc,
        there,
        WordKind::Number(0, u64::MAX),
        b"guard",
        words,
        pattern,
    )
}

/// Takes the words after the object of a capability: by its kind rights and a badge, a guard, or
/// none.
#[tactic(auto, unfolding(crate::specs::Forms::take_rest_of))]
fn take_rest_of<'a>(
    alloc: Global,
    there: There<'_>,
    kind: Kind,
    words: &mut Reader<'a>,
    pattern: &mut Pattern<'a>,
) -> Result<(), QuestionFault>
    ensures said { OnOk result (take_rest_of (scene_of there.entry) kind
        (fit_of pattern.old words.old)
        ≡ Some (fit_of pattern.new words.new)) }
    ensures error { IfErr result (Refuses (take_rest_of (scene_of there.entry) kind
        (fit_of pattern.old words.old))) }
{
    match kind {
        Kind::Thread | Kind::Reply | Kind::Context => Ok(()),
        Kind::Endpoint | Kind::Notification => take_badged(alloc, there, words, pattern),
        Kind::CNode => take_guarded(alloc, there, words, pattern),
    }
}

/// Takes what follows a capability whose object is a wildcard: nothing, or two more words.
#[tactic(auto, unfolding(crate::specs::Forms::take_any_rights))]
fn take_any_rights<'a>(
    alloc: Global,
    there: There<'_>,
    words: &mut Reader<'a>,
    pattern: &mut Pattern<'a>,
) -> Result<(), QuestionFault>
    ensures said { OnOk result (take_any_rights (scene_of there.entry)
        (fit_of pattern.old words.old) words.old
        ≡ Some (fit_of pattern.new words.new)) }
    ensures error { IfErr result (Refuses
        (take_any_rights (scene_of there.entry) (fit_of pattern.old words.old) words.old)) }
{
    let Some(word) = words.next() else {
        return Ok(());
    };
    taken(alloc, there, WordKind::Either, word, pattern)?;
    take(
        alloc,
        there,
        WordKind::Number(0, u64::MAX),
        b"badge",
        words,
        pattern,
    )
}

/// Takes a capability from the word of its object on, which was taken.
#[tactic(auto, unfolding(crate::specs::Forms::object_taken))]
fn take_object<'a>(
    alloc: Global,
    there: There<'_>,
    word: &'a [u8],
    words: &mut Reader<'a>,
    pattern: &mut Pattern<'a>,
) -> Result<(), QuestionFault>
    ensures said { OnOk result ((f : List (List ℕ))
        → object_taken (scene_of there.entry) (fit_of pattern.old f) word.entry.now words.old
        ≡ Some (fit_of pattern.new words.new)) }
    ensures error { IfErr result (λ e. (f : List (List ℕ))
        → Refuses (object_taken (scene_of there.entry)
        (fit_of pattern.old f) word.entry.now words.old) e) }
{
    let object = object_there(alloc, there, None, word)?;
    let id = id_bytes(alloc, object)?;
    pattern.put(word, id.as_slice())?;
    take_rest_of(alloc, there, object.kind, words, pattern)
}

/// Takes a capability from its first word on, which was taken.
#[tactic(auto, unfolding(crate::specs::Forms::held))]
fn take_held<'a>(
    alloc: Global,
    there: There<'_>,
    word: &'a [u8],
    words: &mut Reader<'a>,
    pattern: &mut Pattern<'a>,
) -> Result<(), QuestionFault>
    ensures said { OnOk result ((f : List (List ℕ))
        → held (scene_of there.entry) (fit_of pattern.old f) word.entry.now words.old
        ≡ Some (fit_of pattern.new words.new)) }
    ensures error { IfErr result (λ e. (f : List (List ℕ))
        → Refuses (held (scene_of there.entry) (fit_of pattern.old f) word.entry.now words.old) e) }
{
    if is_rest(word) {
        pattern.put_rest(word)?;
        return Ok(());
    }
    if is_any(word) {
        pattern.put(word, word)?;
        return take_any_rights(alloc, there, words, pattern);
    }
    if is(word, b"-") {
        pattern.put(word, word)?;
        return Ok(());
    }
    take_object(alloc, there, word, words, pattern)
}

/// Takes a capability: a dash, a wildcard, or an object, with two more words if its kind has them.
#[tactic(auto, unfolding(crate::specs::Forms::take_capability))]
fn take_capability<'a>(
    alloc: Global,
    there: There<'_>,
    words: &mut Reader<'a>,
    pattern: &mut Pattern<'a>,
) -> Result<(), QuestionFault>
    ensures said { OnOk result (take_capability (scene_of there.entry)
        (fit_of pattern.old words.old)
        ≡ Some (fit_of pattern.new words.new)) }
    ensures error { IfErr result (Refuses (take_capability (scene_of there.entry)
        (fit_of pattern.old words.old))) }
{
    if pattern.ended {
        return Ok(());
    }
    let Some(word) = words.next() else {
        return Err(short(alloc, b"capability")?);
    };
    take_held(alloc, there, word, words, pattern)
}

/// Takes the words of a message.
fn take_numbers<'a>(
    alloc: Global,
    there: There<'_>,
    words: &mut Reader<'a>,
    pattern: &mut Pattern<'a>,
) -> Result<(), QuestionFault>
    ensures said { OnOk result (take_numbers (scene_of there.entry) 120
        (fit_of pattern.old words.old) words.old
        ≡ Some (fit_of pattern.new words.new)) }
    ensures error { IfErr result (Refuses
        (take_numbers (scene_of there.entry) 120 (fit_of pattern.old words.old) words.old)) }
{
    let mut room = MESSAGE_WORDS;
    'numbers: while room > 0 && !pattern.ended && words.has_more() {
        take(
            alloc,
            there,
            WordKind::Number(0, u64::MAX),
            b"word",
            words,
            pattern,
        )?;
        room -= 1;
    }
    Ok(())
}

/// The last five bytes of a word.
fn end_of(word: &[u8]) -> &[u8]
    ensures { result.now ≡ end_of word.entry.now }
{
    &word[word.len().saturating_sub(5)..]
}

/// Returns whether a word names a queue of receivers, by its suffix.
fn is_of_receivers(word: &[u8]) -> bool
    ensures { result ≡ is_of_receivers word.now }
{
    is(end_of(word), b".recv")
}

/// Returns whether a word names another kind of queue, by its suffix.
fn is_of_others(word: &[u8]) -> bool
    ensures { result ≡ is_of_others word.now }
{
    is(end_of(word), b".send") || is(end_of(word), b".wait")
}

/// Takes the reply object of a thread that joins a queue, or a dash: only receivers have one.
#[tactic(auto, unfolding(crate::specs::Forms::take_reply))]
fn take_reply<'a>(
    alloc: Global,
    there: There<'_>,
    words: &mut Reader<'a>,
    pattern: &mut Pattern<'a>,
) -> Result<(), QuestionFault>
    ensures said { OnOk result (take_reply (scene_of there.entry) (fit_of pattern.old words.old)
        ≡ Some (fit_of pattern.new words.new)) }
    ensures error { IfErr result (Refuses (take_reply (scene_of there.entry)
        (fit_of pattern.old words.old))) }
{
    let is_of_receivers = is_of_receivers(pattern.last);
    if !is_of_receivers && (is_of_others(pattern.last) || !words.has_more()) {
        return Ok(());
    }
    take(
        alloc,
        there,
        WordKind::Maybe(Kind::Reply),
        b"reply",
        words,
        pattern,
    )
}

/// Takes the words for one name of a form, in a line with this first word.
#[tactic(auto, unfolding(crate::specs::Forms::take_field))]
fn take_field<'a>(
    alloc: Global,
    there: There<'_>,
    first: &[u8],
    name: &[u8],
    words: &mut Reader<'a>,
    pattern: &mut Pattern<'a>,
) -> Result<(), QuestionFault>
    ensures said { OnOk result (take_field (scene_of there.entry) first.now name.now
        (fit_of pattern.old words.old)
        ≡ Some (fit_of pattern.new words.new)) }
    ensures error { IfErr result (Refuses (take_field (scene_of there.entry) first.now name.now
        (fit_of pattern.old words.old))) }
{
    if is(name, b"words") {
        return take_numbers(alloc, there, words, pattern);
    }
    if is(name, b"capability") {
        return take_capability(alloc, there, words, pattern);
    }
    if is(name, b"reply") && is(first, b"joins") {
        return take_reply(alloc, there, words, pattern);
    }
    take(alloc, there, sort_of(first, name), name, words, pattern)
}

/// Takes the words for the remaining names of a form, in a line with this first word.
fn take_fields<'a>(
    alloc: Global,
    there: There<'_>,
    first: &[u8],
    names: &mut Words<'_>,
    words: &mut Reader<'a>,
    pattern: &mut Pattern<'a>,
) -> Result<(), QuestionFault>
    ensures said { OnOk result (take_fields (scene_of there.entry) first.now names.old
        (fit_of pattern.old words.old)
        ≡ Some (fit_of pattern.new words.new)) }
    ensures error { IfErr result (Refuses
        (take_fields (scene_of there.entry) first.now names.old (fit_of pattern.old words.old))) }
{
    while let Some(name) = names.next_word() {
        take_field(alloc, there, first, name, words, pattern)?;
    }
    Ok(())
}

/// Returns the text of a pattern after its last word, or after the wildcard for the rest. `TooMany`
/// if another word is left.
fn whole_of(
    alloc: Global,
    words: &mut Reader<'_>,
    pattern: Pattern<'_>,
) -> Result<Vec<u8>, QuestionFault>
    ensures said { IfOk result (λ v. whole_of (fit_of pattern.entry words.old) ≡ Some v.items) }
    ensures error { IfErr result (Refuses (whole_of (fit_of pattern.entry words.old))) }
{
    let Pattern { text, .. } = pattern;
    match words.next() {
        None => Ok(text),
        Some(word) if is_rest(word) => Ok(with_rest(text, word)?),
        Some(word) => Err(too_many(alloc, word)?),
    }
}

/// Returns a text with the wildcard for the rest.
fn with_rest(text: Vec<u8>, word: &[u8]) -> Result<Vec<u8>, AllocError>
    ensures { IfOk result (λ v. v.items ≡ text.items ++ 32 ∷ word.now) }
{
    let mut whole = text;
    whole.extend_from_slice(b" ")?;
    whole.extend_from_slice(word)?;
    Ok(whole)
}

/// Returns the fault for a word after the last one.
fn too_many(alloc: Global, word: &[u8]) -> Result<QuestionFault, AllocError>
    ensures { IfOk result (λ e. is_of_memory e ≡ false) }
{
    Ok(QuestionFault::TooMany {
        word: Word::new(alloc, word)?,
    })
}

/// Returns the names in the form of an answer with this first word.
#[tactic(auto, unfolding(crate::specs::Forms::answer_form))]
fn answer_form(word: &[u8]) -> Option<&'static [u8]>
    ensures { option_copied result ≡ answer_form word.now }
{
    if is(word, b"done") || is(word, b"empty") || is(word, b"waits") {
        return Some(b"");
    }
    if is(word, b"got") {
        return Some(b"badge label words");
    }
    if is(word, b"heard") {
        return Some(b"word");
    }
    if is(word, b"refused") {
        return Some(b"reason");
    }
    None
}

/// Returns the names in the form of a record of an object, a slot or a thread.
#[tactic(auto, unfolding(crate::specs::Forms::object_record))]
fn object_record(word: &[u8]) -> Option<&'static [u8]>
    ensures { option_copied result ≡ object_record word.now }
{
    if is(word, b"made") {
        return Some(b"object");
    }
    if is(word, b"closed") {
        return Some(b"object");
    }
    if is(word, b"slot") {
        return Some(b"cnode index capability");
    }
    if is(word, b"prio") {
        return Some(b"thread priority");
    }
    if is(word, b"turns") {
        return Some(b"thread mode");
    }
    None
}

/// Returns the names in the form of a record of a queue or a message.
#[tactic(auto, unfolding(crate::specs::Forms::message_record))]
fn message_record(word: &[u8]) -> Option<&'static [u8]>
    ensures { option_copied result ≡ message_record word.now }
{
    if is(word, b"joins") {
        return Some(b"thread queue reply");
    }
    if is(word, b"parts") {
        return Some(b"thread queue");
    }
    if is(word, b"sent") {
        return Some(b"message thread endpoint mode badge label words");
    }
    if is(word, b"took") {
        return Some(b"message thread");
    }
    if is(word, b"dropped") {
        return Some(b"message");
    }
    if is(word, b"owes") {
        return Some(b"reply thread context");
    }
    None
}

/// Returns the names in the form of a record of a reply, a context or a notification.
#[tactic(auto, unfolding(crate::specs::Forms::other_record))]
fn other_record(word: &[u8]) -> Option<&'static [u8]>
    ensures { option_copied result ≡ other_record word.now }
{
    if is(word, b"paid") {
        return Some(b"reply thread label words");
    }
    if is(word, b"void") {
        return Some(b"reply thread ending");
    }
    if is(word, b"holds") {
        return Some(b"context thread");
    }
    if is(word, b"raised") {
        return Some(b"notification badge");
    }
    if is(word, b"heard") {
        return Some(b"thread notification word");
    }
    if is(word, b"tied") {
        return Some(b"thread notification");
    }
    if is(word, b"homed") {
        return Some(b"context notification");
    }
    None
}

/// Returns the names in the form of a record with this first word.
#[tactic(auto, unfolding(crate::specs::Forms::record_form))]
fn record_form(word: &[u8]) -> Option<&'static [u8]>
    ensures { option_copied result ≡ record_form word.now }
{
    if let Some(form) = object_record(word) {
        return Some(form);
    }
    if let Some(form) = message_record(word) {
        return Some(form);
    }
    other_record(word)
}

/// Returns the names in the form of a line with this first word.
#[tactic(auto, unfolding(crate::specs::Forms::form_of))]
fn form_of(lines: Lines, word: &[u8]) -> Option<&'static [u8]>
    ensures { option_copied result ≡ form_of lines word.now }
{
    match lines {
        Lines::Answers => answer_form(word),
        Lines::Records => record_form(word),
    }
}

/// Returns the possible first words of lines.
fn firsts_of(lines: Lines) -> &'static [u8]
    ensures { result.now ≡ firsts_of lines }
{
    match lines {
        Lines::Answers => b"done got heard empty waits refused",
        Lines::Records => {
            b"made closed slot prio turns joins parts sent took dropped owes paid void holds raised heard tied homed"
        }
    }
}

/// Returns a pattern before its second word.
fn begun<'a>(alloc: Global, word: &'a [u8]) -> Result<Pattern<'a>, AllocError>
    ensures { IfOk result (λ p. (words : List (List ℕ))
        → fit_of p words ≡ begun word.entry.now words) }
{
    Ok(Pattern {
        last: word,
        text: Vec::from_slice(alloc, word)?,
        ended: false,
    })
}

/// Takes a word of the pattern for each name in a form, that of the lines that begin with `first`.
fn take_form<'a>(
    alloc: Global,
    there: There<'_>,
    first: &[u8],
    form: &[u8],
    words: &mut Reader<'a>,
    pattern: &mut Pattern<'a>,
) -> Result<(), QuestionFault>
    ensures said { OnOk result (take_fields (scene_of there.entry) first.now (names_in form.now)
        (fit_of pattern.old words.old) ≡ Some (fit_of pattern.new words.new)) }
    ensures error { IfErr result (Refuses (take_fields (scene_of there.entry) first.now
        (names_in form.now)
        (fit_of pattern.old words.old))) }
{
    if form.is_empty() {
        return Ok(());
    }
    take_fields(alloc, there, first, &mut Words::new(form), words, pattern)
}

/// Returns the text of a pattern, with ids for names. `form` is that of the lines that begin with
/// `first`; `word` is the first word of the pattern, which may be a wildcard, and `rest` the
/// others.
#[tactic(auto, unfolding(crate::specs::Forms::fitted_by))]
fn fitted_by<'x>(
    alloc: Global,
    there: There<'_>,
    first: &[u8],
    form: &[u8],
    word: &'x [u8],
    rest: &'x [&'x [u8]],
) -> Result<Vec<u8>, QuestionFault>
    ensures said { IfOk result (λ v. fitted_by (scene_of there.entry) first.now form.now
        (begun word.entry.now (texts rest.entry.now)) ≡ Some v.items) }
    ensures error { IfErr result (Refuses (fitted_by (scene_of there.entry) first.now form.now
        (begun word.entry.now (texts rest.entry.now)))) }
{
    let mut pattern = begun(alloc, word)?;
    let mut words = Reader::new(rest);
    take_form(alloc, there, first, form, &mut words, &mut pattern)?;
    whole_of(alloc, &mut words, pattern)
}

/// Returns the fault for a word with which no line of this kind begins.
fn no_line(alloc: Global, lines: Lines, first: &[u8]) -> Result<QuestionFault, AllocError>
    ensures { IfOk result (λ e. is_of_memory e ≡ false) }
{
    let word = Word::new(alloc, first)?;
    let there = listed(alloc, lines)?;
    Ok(match lines {
        Lines::Answers => QuestionFault::NoAnswer { word, there },
        Lines::Records => QuestionFault::NoRecord { word, there },
    })
}

/// Returns the possible first words of lines as a list for a fault.
fn listed(alloc: Global, lines: Lines) -> Result<Listed, AllocError> {
    let mut listed = Listed::new(alloc);
    let mut firsts = Words::new(firsts_of(lines));
    while let Some(first) = firsts.next_word() {
        listed.add(first)?;
    }
    Ok(listed)
}

/// Returns the text of a pattern by the form of the lines that begin with `first`. `word` is the
/// first word of the pattern, which may be a wildcard, and `rest` the others.
#[tactic(auto, unfolding(crate::specs::Forms::fitted))]
fn fitted(
    alloc: Global,
    there: There<'_>,
    lines: Lines,
    first: &[u8],
    word: &[u8],
    rest: &[&[u8]],
) -> Result<Vec<u8>, QuestionFault>
    ensures said { IfOk result (λ v. fitted (scene_of there.entry) lines first.now
        (begun word.now (texts rest.entry.now)) ≡ Some v.items) }
    ensures error { IfErr result (Refuses (fitted (scene_of there.entry) lines first.now
        (begun word.now (texts rest.entry.now)))) }
{
    match form_of(lines, first) {
        Some(form) => fitted_by(alloc, there, first, form, word, rest),
        None => Err(no_line(alloc, lines, first)?),
    }
}

/// Returns the text of a pattern that begins with a wildcard, by this form; None if it does not
/// fit.
fn fitted_if(
    alloc: Global,
    there: There<'_>,
    lines: Lines,
    first: &[u8],
    word: &[u8],
    rest: &[&[u8]],
) -> Result<Option<Vec<u8>>, AllocError>
    ensures { IfOk result (λ o. option_map (λ v. v.items) o ≡ fitted
        (scene_of there.entry) lines first.now
        (begun word.now (texts rest.entry.now))) }
{
    match fitted(alloc, there, lines, first, word, rest) {
        Ok(text) => Ok(Some(text)),
        Err(QuestionFault::OutOfMemory) => Err(AllocError),
        Err(_) => Ok(None),
    }
}

/// Returns the text of a pattern whose first word is a wildcard, by the first form that fits.
/// `NoLine` if no form does.
fn fitted_any(
    alloc: Global,
    there: There<'_>,
    lines: Lines,
    word: &[u8],
    rest: &[&[u8]],
) -> Result<Vec<u8>, QuestionFault>
    ensures said { IfOk result (λ v. fitted_any (scene_of there.entry) lines (words_of
        (firsts_of lines))
        (begun word.now (texts rest.entry.now)) ≡ Some v.items) }
    ensures error { IfErr result (Refuses (fitted_any (scene_of there.entry) lines (words_of
        (firsts_of lines))
        (begun word.now (texts rest.entry.now)))) }
{
    let mut firsts = Words::new(firsts_of(lines));
    while let Some(first) = firsts.next_word() {
        if let Some(text) = fitted_if(alloc, there, lines, first, word, rest)? {
            return Ok(text);
        }
    }
    Err(QuestionFault::NoLine {
        count: rest.len().saturating_add(1),
    })
}

/// Fails with `AfterRest` if a word is left.
fn nothing_after(alloc: Global, words: &mut Reader<'_>) -> Result<(), QuestionFault>
    ensures said { OnOk result (has_words words.old ≡ false) }
    ensures error { IfErr result (λ e. is_of_memory e ≡ false → has_words words.old ≡ true) }
{
    match words.next() {
        None => Ok(()),
        Some(word) => Err(QuestionFault::AfterRest {
            word: Word::new(alloc, word)?,
        }),
    }
}

/// Fails with `AfterRest` if a word follows the wildcard for the rest.
fn rest_is_last(alloc: Global, words: &[&[u8]]) -> Result<(), QuestionFault>
    ensures said { OnOk result (is_rest_last (texts words.entry.now) ≡ true) }
    ensures error { IfErr result (λ e.
        is_of_memory e ≡ false → is_rest_last (texts words.entry.now) ≡ false) }
{
    let mut left = Reader::new(words);
    while let Some(word) = left.next() {
        if is_rest(word) {
            return nothing_after(alloc, &mut left);
        }
    }
    Ok(())
}

/// Returns the text of a pattern that begins with this word.
#[tactic(auto, unfolding(crate::specs::Forms::pattern_by))]
fn pattern_by(
    alloc: Global,
    there: There<'_>,
    lines: Lines,
    word: &[u8],
    rest: &[&[u8]],
) -> Result<Vec<u8>, QuestionFault>
    ensures said { IfOk result (λ v. pattern_by (scene_of there.entry) lines word.now
        (texts rest.entry.now)
        ≡ Some v.items) }
    ensures error { IfErr result (Refuses (pattern_by (scene_of there.entry) lines word.now
        (texts rest.entry.now))) }
{
    if is_rest(word) {
        return Ok(Vec::from_slice(alloc, word)?);
    }
    if is_any(word) {
        return fitted_any(alloc, there, lines, word, rest);
    }
    fitted(alloc, there, lines, word, word, rest)
}

/// Returns the pattern of these words for lines, without their sign and with ids for names. Fails
/// if no line can match it.
#[tactic(auto, unfolding(crate::specs::Forms::pattern_of))]
pub fn pattern_of(
    alloc: Global,
    there: There<'_>,
    lines: Lines,
    words: &[&[u8]],
) -> Result<Vec<u8>, QuestionFault>
    ensures said { IfOk result (λ p. pattern_of (scene_of there.entry) lines (texts words.entry.now)
        ≡ Some p.items) }
    ensures error { IfErr result (Refuses (pattern_of (scene_of there.entry) lines
        (texts words.entry.now))) }
{
    let [word, rest @ ..] = words else {
        return Err(QuestionFault::Missing {
            wanted: "a pattern",
        });
    };
    rest_is_last(alloc, words)?;
    pattern_by(alloc, there, lines, *word, rest)
}
