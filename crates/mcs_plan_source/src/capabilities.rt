//! Capabilities, as words of a plan.
ghost use Rattle.std.specs.Prelude.{◌≡◌, ◌<◌, ◌==◌, Ok, IfOk, IfErr, option_map, option_copied, string_bytes};
ghost use Rattle.mcs_plan_source.specs.Capabilities.{front_of, rest_of, name_in, rights_in, badge_in, is_badged, rights_said, badge_said, may_say, cap_to, cap_read};
ghost use Rattle.mcs_plan_source.specs.Refusals.{Refuses};

use crate::rights::rights_of;
use crate::{PlanError, Symbols, not, number};
use mcs_types::{Badge, Cap, Guard, Kind, ObjId, Rights};
use std::alloc::{AllocError, Global};

/// Returns whether a capability to this kind carries rights and a badge.
fn is_badged(kind: Kind) -> bool
    ensures { result ≡ is_badged kind }
{
    matches!(kind, Kind::Endpoint | Kind::Notification)
}

/// Returns a text before the first occurrence of a mark, and what follows it.
#[tactic(auto, using(crate::proofs::PlanWords::no_rest, crate::proofs::PlanWords::one_rest))]
fn cut<'a>(text: &'a str, mark: char) -> (&'a str, Option<&'a str>)
    requires { mark < 128 }
    ensures front { result.0.now ≡ front_of mark text.now }
    ensures rest { option_copied result.1 ≡ rest_of mark text.now }
{
    match text.split_once(mark) {
        None => (text, None),
        Some((front, rest)) => (front, Some(rest)),
    }
}

/// The parts of a capability's word: `name:rights=badge`.
pub fn parts_of<'a>(word: &'a str) -> (&'a str, Option<&'a str>, Option<&'a str>)
    ensures name { result.0.now ≡ name_in word.now }
    ensures rights { option_copied result.1 ≡ rights_in word.now }
    ensures badge { option_copied result.2 ≡ badge_in word.now }
{
    let (front, badge) = cut(word, '=');
    let (name, rights) = cut(front, ':');
    (name, rights, badge)
}

/// Returns the rights that are written: all if none are. None if they are no rights.
fn rights_said(kind: Kind, rights: Option<&str>) -> Option<Rights>
    ensures { result ≡ rights_said kind (option_copied rights.entry) }
{
    match rights {
        Some(rights) => rights_of(rights),
        None => Rights::new(if is_badged(kind) { 15 } else { 0 }),
    }
}

/// Returns the badge that is written: 0 if none is. None if it is no number.
fn badge_said(badge: Option<&str>) -> Option<u64>
    ensures { result ≡ badge_said (option_copied badge.entry) }
{
    match badge {
        Some(badge) => number(badge),
        None => Some(0),
    }
}

/// Returns whether a word has only parts that a capability of this kind carries.
fn may_say(kind: Kind, word: &str) -> bool
    ensures { result ≡ may_say kind word.now }
{
    let (_, rights, badge) = parts_of(word);
    is_badged(kind) || (rights.is_none() && badge.is_none())
}

/// The capability to an object that a word spells.
fn cap_to(obj: ObjId, word: &str) -> Option<Cap>
    ensures { result ≡ cap_to obj word.now }
{
    if !may_say(obj.kind, word) {
        return None;
    }
    let (_, rights, badge) = parts_of(word);
    let rights = rights_said(obj.kind, rights)?;
    let badge = badge_said(badge)?;
    Some(Cap {
        obj,
        rights,
        badge: Badge(badge),
        guard: Guard { bits: 0, value: 0 },
    })
}

/// Returns what a fault wants for a word that spells no capability of this kind.
fn wanted_of(kind: Kind, word: &str) -> &'static str {
    let (_, rights, _) = parts_of(word);
    if !may_say(kind, word) {
        return "a capability: only endpoints and notifications have rights";
    }
    if rights_said(kind, rights).is_none() {
        return "a capability: its rights are some of rwgp, or -";
    }
    "a capability: its badge is a number of 64 bits"
}

/// Returns the capability that a word spells: an object, and for an endpoint or a notification its
/// rights (all if none are written) and its badge. `NoName` if there is no such object, `Not` if
/// the rights or the badge are wrong.
pub fn cap_of(alloc: Global, names: &Symbols, word: &str) -> Result<Cap, PlanError>
    ensures spelt { IfOk result (λ c. cap_read names.now word.now ≡ Ok c) }
    ensures error { IfErr result (Refuses (cap_read names.now word.now)) }
{
    let (name, _, _) = parts_of(word);
    let obj = names.object(alloc, name)?;
    match cap_to(obj, word) {
        Some(cap) => Ok(cap),
        None => Err(not(alloc, word, wanted_of(obj.kind, word))),
    }
}

/// Returns how a plan wrote a slot: its word, and its name unless that follows from the word.
pub fn written_as(alloc: Global, word: &str, name: &str) -> Result<String, AllocError> {
    let mut written = String::from_str(alloc, word)?;
    if name != word && name != parts_of(word).0 {
        written.push_str(" as ")?;
        written.push_str(name)?;
    }
    Ok(written)
}
