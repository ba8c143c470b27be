//! The results of questions.
ghost use Rattle.std.specs.Prelude.{◌≡◌};
ghost use Rattle.mcs_explore_report.specs.Outcomes.{fails, holds, missed};

use crate::judgement::Sighting;

/// What no order showed.
#[derive(Clone, Copy, PartialEq, Eq)]
pub enum Unseen {
    /// An answer of the entry.
    NeverAnswered,
    /// The entry itself.
    NeverGiven,
    /// A line that matches the pattern.
    NothingMatched,
}

impl Unseen {
    /// Returns the words for it.
    pub fn text(self) -> &'static str {
        match self {
            Unseen::NeverAnswered => "never answered",
            Unseen::NeverGiven => "never given",
            Unseen::NothingMatched => "nothing matched it",
        }
    }
}

/// The result of a question.
#[derive(Clone, Copy, PartialEq, Eq)]
pub enum Outcome {
    Holds,
    /// It holds, but says little, for this reason.
    HoldsSince(Unseen),
    Fails,
    /// A budget ended the search before it was seen.
    NotSeen,
}

impl Outcome {
    /// Returns whether it holds so far.
    pub fn holds(self) -> bool
        ensures { result ≡ holds self }
    {
        match self {
            Outcome::Holds | Outcome::HoldsSince(_) => true,
            Outcome::Fails | Outcome::NotSeen => false,
        }
    }

    /// Returns whether something shows that it does not hold.
    pub fn fails(self) -> bool
        ensures { result ≡ fails self }
    {
        match self {
            Outcome::Fails => true,
            Outcome::Holds | Outcome::HoldsSince(_) | Outcome::NotSeen => false,
        }
    }

    /// Returns why the verdict that it holds says little; None if it does not.
    pub fn since(self) -> Option<Unseen> {
        match self {
            Outcome::HoldsSince(why) => Some(why),
            Outcome::Holds | Outcome::Fails | Outcome::NotSeen => None,
        }
    }

    /// Returns the word for it.
    pub fn text(self) -> &'static str {
        match self {
            Outcome::Holds | Outcome::HoldsSince(_) => "holds",
            Outcome::Fails => "fails",
            Outcome::NotSeen => "not seen",
        }
    }
}

/// Returns the result of a question that fails by what was found, and where that is seen;
/// `is_whole` says whether the search was whole.
pub fn missed(is_whole: bool, seen: Option<Sighting>) -> Outcome
    ensures { result ≡ missed is_whole seen }
{
    if seen.is_none() && !is_whole {
        Outcome::NotSeen
    } else {
        Outcome::Fails
    }
}
