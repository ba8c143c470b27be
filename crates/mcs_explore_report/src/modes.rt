//! How states are distinguished: by all that decides the future, or by less if the questions allow
//! it.
ghost use Rattle.std.specs.Prelude.{◌≡◌};
ghost use Rattle.std.specs.List.{list_any};
ghost use Rattle.mcs_types.specs.Changes.{makes_object};
ghost use Rattle.mcs_explore_report.specs.Modes.{any_later, any_message, are_numbered, is_proved, makes_objects, mode_of};

use crate::references::{names_later, names_message};
use mcs_explore_orders::Users;
use mcs_explore_script::AskedLine;
use mcs_kernel::Boot;
use mcs_types::Entry;

/// How a search distinguishes states.
#[derive(Clone, Copy, PartialEq, Eq, Debug)]
pub enum Mode {
    /// By all that decides the future, and by message numbers only if `numbered`. Then the claims
    /// about whole searches are proved.
    Proved { numbered: bool },
    /// With objects named by slots, and without message numbers. That states with one key have the
    /// same future is only tested.
    Canonical,
}

impl Mode {
    /// Returns whether states with one key are proved to have the same future.
    pub fn is_proved(self) -> bool
        ensures { result ≡ is_proved self }
    {
        match self {
            Mode::Proved { .. } => true,
            Mode::Canonical => false,
        }
    }

    /// Returns whether it distinguishes message numbers.
    pub fn are_numbered(self) -> bool
        ensures { result ≡ are_numbered self }
    {
        match self {
            Mode::Proved { numbered } => numbered,
            Mode::Canonical => false,
        }
    }
}

/// Returns whether one of these entries makes an object.
fn makes_object(entries: &[Entry]) -> bool
    ensures { result ≡ list_any makes_object entries.now }
{
    entries.iter().any(|entry| entry.makes_object())
}

/// Returns whether an entry of a user makes an object.
pub fn make_objects(users: &Users) -> bool
    ensures { result ≡ makes_objects users.now }
{
    users.lists().iter().any(|list| makes_object(&list.entries))
}

/// Returns whether a question names a message.
fn any_message(asked: &[AskedLine]) -> bool
    ensures { result ≡ any_message asked.now }
{
    asked.iter().any(|line| names_message(&line.asked))
}

/// Returns whether a question names an object that the boot did not make.
fn any_later(boot: &Boot, asked: &[AskedLine]) -> bool
    ensures { result ≡ any_later boot.now asked.now }
{
    asked.iter().any(|line| names_later(boot, &line.asked))
}

/// Returns how a search distinguishes states. Unless it has to be exact, it leaves out what no
/// question names: message numbers, and, if users make objects, the serials of these.
pub fn mode_of(boot: &Boot, users: &Users, asked: &[AskedLine], is_exact: bool) -> Mode
    ensures { result ≡ mode_of boot.now users.now asked.now is_exact }
{
    if is_exact || any_message(asked) {
        return Mode::Proved { numbered: true };
    }
    if make_objects(users) && !any_later(boot, asked) {
        return Mode::Canonical;
    }
    Mode::Proved { numbered: false }
}
