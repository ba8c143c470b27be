//! The lines of steps and of users.
ghost use Rattle.std.specs.Prelude.{◌≡◌, Ok, IfOk, IfErr, string_bytes};
ghost use Rattle.mcs_types.specs.declared.id.Kind.TheVariants as kind;
ghost use Rattle.mcs_plan_source.specs.Cutting.{words_of};
ghost use Rattle.mcs_plan_source.specs.Naming.{texts};
ghost use Rattle.mcs_plan_source.specs.Objects.{named_as};
ghost use Rattle.mcs_plan_source.specs.Refusals.{Refuses};
ghost use Rattle.mcs_plan_source.specs.Words.{number_then};
ghost use Rattle.mcs_plan_layout.specs.Laid.{laid_said};
ghost use Rattle.mcs_plan_compile.specs.Heads.{object_text, core_text, head_text, step_read};
ghost use Rattle.mcs_plan_compile.specs.StepLines.{last_core, core_said, core_read, step_head, user_head, is_user, head_read};

use crate::entries::{Speaker, add_number};
use mcs_plan_layout::PlanLayout;
use mcs_plan_source::{PlanError, Tokens, add_word, split_words};
use mcs_text::letter;
use mcs_types::{CoreId, Kind, ObjId};
use std::alloc::{AllocError, Global};

/// The entering thread, and its core: None for a user.
#[derive(Clone, Copy)]
pub struct Head {
    pub thread: ObjId,
    pub core: Option<CoreId>,
}

/// Returns the id of an object as text.
pub fn object_text(alloc: Global, object: ObjId) -> Result<String, AllocError>
    ensures { IfOk result (λ text. string_bytes text ≡ object_text object) }
{
    let serial = object.serial;
    let mut text = String::new(alloc);
    text.push(letter(object.kind) as char)?;
    let digits = format!(in alloc; "{serial}")?;
    text.push_str(digits.as_str())?;
    Ok(text)
}

/// The last core.
fn last_core(laid: &PlanLayout) -> u8
    ensures { result ≡ last_core (laid_said laid.now) }
{
    laid.cores().saturating_sub(1)
}

/// Reads the number of a core.
fn core_number(alloc: Global, words: &mut Tokens<'_>, last: u8) -> Result<u8, PlanError>
    ensures core { IfOk result (λ n. number_then last words.old ≡ Ok (n, words.new)) }
    ensures error { IfErr result (Refuses (number_then last words.old)) }
{
    let core = words.number(alloc, "the number of a core", last as u64)?;
    Ok(core.min(255) as u8)
}

/// Reads `on core N`.
fn core_said(alloc: Global, laid: &PlanLayout, words: &mut Tokens<'_>) -> Result<CoreId, PlanError>
    ensures core { IfOk result (λ c. core_said (laid_said laid.now) words.old ≡ Ok (c, words.new)) }
    ensures error { IfErr result (Refuses (core_said (laid_said laid.now) words.old)) }
{
    words.expect(alloc, "on")?;
    words.expect(alloc, "core")?;
    let core = core_number(alloc, words, last_core(laid))?;
    Ok(CoreId(core))
}

/// Reads the core of a step: the one on the line, or the thread's.
fn read_core(
    alloc: Global,
    laid: &PlanLayout,
    thread: ObjId,
    words: &mut Tokens<'_>,
) -> Result<CoreId, PlanError>
    ensures core { IfOk result
        (λ c. core_read (laid_said laid.now) thread words.old ≡ Ok (c, words.new)) }
    ensures error { IfErr result (Refuses (core_read (laid_said laid.now) thread words.old)) }
{
    if words.peek().is_none() {
        return Ok(laid.plan.core_of(thread));
    }
    core_said(alloc, laid, words)
}

/// The thread of this name.
pub fn thread_named(alloc: Global, laid: &PlanLayout, name: &str) -> Result<ObjId, PlanError>
    ensures thread { IfOk result
        (λ t. named_as kind.Thread name.now laid.now.plan.names ≡ Ok t) }
    ensures error { IfErr result (Refuses (named_as kind.Thread name.now laid.now.plan.names)) }
{
    laid.plan.names.of_kind(alloc, Kind::Thread, name)
}

/// Reads `NAME` or `NAME on core N`.
fn step_head(
    alloc: Global,
    laid: &PlanLayout,
    name: &str,
    words: &mut Tokens<'_>,
) -> Result<Head, PlanError>
    ensures head { IfOk result (λ h. step_head (laid_said laid.now) name.now words.old ≡ Ok h) }
    ensures error { IfErr result (Refuses (step_head (laid_said laid.now) name.now words.old)) }
{
    let thread = thread_named(alloc, laid, name)?;
    let core = read_core(alloc, laid, thread, words)?;
    words.end(alloc)?;
    Ok(Head {
        thread,
        core: Some(core),
    })
}

/// Reads `NAME`, which follows `user`.
fn user_head(alloc: Global, laid: &PlanLayout, words: &mut Tokens<'_>) -> Result<Head, PlanError>
    ensures head { IfOk result (λ h. user_head (laid_said laid.now) words.old ≡ Ok h) }
    ensures error { IfErr result (Refuses (user_head (laid_said laid.now) words.old)) }
{
    let name = words.need("the name of a thread")?;
    let thread = thread_named(alloc, laid, name)?;
    words.end(alloc)?;
    Ok(Head { thread, core: None })
}

/// Returns whether a line gives an entry of a user: its first word is `user`, and a name follows.
fn is_user(first: &str, words: &Tokens<'_>) -> bool
    ensures { result ≡ is_user first.now words.now }
{
    first == "user" && words.peek().is_some()
}

/// Returns what is before the colon: `NAME`, `NAME on core N`, or `user NAME`.
pub fn read_head(alloc: Global, laid: &PlanLayout, text: &str) -> Result<Head, PlanError>
    ensures head { IfOk result (λ h. head_read (laid_said laid.now) (words_of text.now) ≡ Ok h) }
    ensures error { IfErr result (Refuses (head_read (laid_said laid.now) (words_of text.now))) }
{
    let all = split_words(alloc, text)?;
    let mut words = Tokens::new(&all);
    let first = words.need("the name of a thread")?;
    if is_user(first, &words) {
        return user_head(alloc, laid, &mut words);
    }
    step_head(alloc, laid, first, &mut words)
}

/// Returns the core of a step as text, or the word `user`.
fn core_text(alloc: Global, core: Option<CoreId>) -> Result<String, AllocError>
    ensures { IfOk result (λ text. string_bytes text ≡ core_text core) }
{
    let Some(core) = core else {
        return String::from_str(alloc, "user");
    };
    let core = core.0;
    format!(in alloc; "{core}")
}

/// Returns the entering thread and its core as text.
fn head_text(alloc: Global, head: Head) -> Result<String, AllocError>
    ensures { IfOk result (λ text. string_bytes text ≡ head_text head) }
{
    let mut text = core_text(alloc, head.core)?;
    let name = object_text(alloc, head.thread)?;
    add_word(&mut text, name.as_str())?;
    Ok(text)
}

/// Returns the line of a step, or of a user: the entering thread, and the entry that words spell.
pub fn write_entry(
    alloc: Global,
    laid: &PlanLayout,
    head: Head,
    words: &[&str],
) -> Result<String, PlanError>
    ensures put { IfOk result
        (λ line. step_read (laid_said laid.now) head (texts words.now) ≡ Ok (string_bytes line)) }
    ensures error { IfErr result (Refuses (step_read (laid_said laid.now) head (texts words.now))) }
{
    let mut line = head_text(alloc, head)?;
    let mut words = Tokens::new(words);
    let speaker = Speaker {
        laid,
        thread: head.thread,
    };
    speaker.read(alloc, &mut line, &mut words)?;
    Ok(line)
}
