//! Heads of lines, in 32 bytes each.
ghost use Rattle.std.specs.Prelude.{◌≡◌, IfOk};
ghost use Rattle.mcs_packing.specs.Packing.{GrewHead, HasMessageRoom};
ghost use Rattle.mcs_packing.specs.Heads.{AnswerFits, answer_of};

use crate::arena::{Arena, length_of, message_at};
use crate::entries::PackedEntry;
use mcs_types::{Answer, Badge, CoreId, Kind, OutOfMemory, Refusal};
use std::alloc::Global;

/// The kind of a packed answer, with the number of a message's words.
#[derive(Clone, Copy)]
pub enum AnswerForm {
    Done,
    Got { len: u8 },
    Heard,
    Empty,
    Waits,
    Refused(Refusal),
}

/// A packed answer: `at` is the position among the words of a received message or of a notification
/// word.
#[derive(Clone, Copy)]
pub struct PackedAnswer {
    pub form: AnswerForm,
    pub at: u32,
}

/// The head of a line: who entered on which core, the entry, the answer in the fields of
/// `PackedAnswer`, and where the line's records end among all.
#[derive(Clone, Copy)]
pub struct Head {
    pub entry: PackedEntry,
    pub end: u32,
    pub serial: u32,
    pub answer_at: u32,
    pub answer: AnswerForm,
    pub kind: Kind,
    pub core: CoreId,
}

const _: () = prove!(size_of::<Head>() == 32);

/// Returns an answer without a position.
fn placeless(form: AnswerForm) -> PackedAnswer
    ensures form { result.form ≡ form }
    ensures at { result.at ≡ 0 }
{
    PackedAnswer { form, at: 0 }
}

impl Arena {
    /// Packs an answer; there must be room. Its message or its word may already be at `place`.
    /// Earlier packed values keep their meaning.
    pub fn pack_answer(&mut self, answer: &Answer, place: u32) -> PackedAnswer
        requires { HasMessageRoom self.old 1 }
        ensures value { answer_of result.form result.at self.new.words.items ≡ answer.now }
        ensures fits { AnswerFits result.form result.at self.new.words.items }
        ensures grew { GrewHead self.old self.new }
    {
        match answer {
            Answer::Done => placeless(AnswerForm::Done),
            Answer::Got { badge, message } => PackedAnswer {
                form: AnswerForm::Got {
                    len: length_of(message),
                },
                at: self.share(message, *badge, place),
            },
            Answer::Heard { word } => PackedAnswer {
                form: AnswerForm::Heard,
                at: self.share_word(*word, place),
            },
            Answer::Empty => placeless(AnswerForm::Empty),
            Answer::Waits => placeless(AnswerForm::Waits),
            Answer::Refused(refusal) => placeless(AnswerForm::Refused(*refusal)),
        }
    }
}

/// Unpacks an answer. A message of at most four words allocates nothing.
pub fn unpack_answer(
    alloc: Global,
    form: AnswerForm,
    at: u32,
    words: &[u64],
) -> Result<Answer, OutOfMemory>
    requires { AnswerFits form at words.now }
    ensures { IfOk result (λ a. a ≡ answer_of form at words.now) }
{
    Ok(match form {
        AnswerForm::Done => Answer::Done,
        AnswerForm::Got { len } => Answer::Got {
            badge: Badge(words[at as usize + 1 + len as usize]),
            message: message_at(alloc, words, at, len)?,
        },
        AnswerForm::Heard => Answer::Heard {
            word: words[at as usize],
        },
        AnswerForm::Empty => Answer::Empty,
        AnswerForm::Waits => Answer::Waits,
        AnswerForm::Refused(refusal) => Answer::Refused(refusal),
    })
}
