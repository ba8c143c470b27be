//! Questions about all orders, and the rules that a script sets.
ghost use Rattle.std.specs.Prelude.{◌≡◌};
ghost use Rattle.mcs_explore_questions.specs.Asking.{contain, excuses, is_live, is_of_waits, is_question};

use mcs_turns::Schedule;
use mcs_types::ObjId;

/// The entry of a user, by its number, counted from 1.
#[derive(Clone, Copy)]
pub struct Event {
    pub thread: ObjId,
    pub number: usize,
}

/// Entries of a user, by the numbers of the first and the last.
#[derive(Clone, Copy)]
pub struct Entries {
    pub first: usize,
    pub last: usize,
}

/// When a span ends.
#[derive(Clone, Copy)]
pub enum Until {
    /// The second entry is given.
    Given,
    /// A span of a user's entries: it lasts from the answer to entry `from` (from the beginning, if
    /// that is 0) until entry `to` is given or answered.
    Answered,
}

/// A user that has been answered the first of these entries, or has begun where that is 0, until
/// the second is given or answered.
#[derive(Clone, Copy)]
pub struct Span {
    pub thread: ObjId,
    pub from: usize,
    pub to: usize,
    pub until: Until,
}

/// A rule of all users.
#[derive(Clone, Copy)]
pub enum Rule {
    /// Cores pick threads by this schedule.
    By(Schedule),
    /// No user gives an entry again after its answer, even if its thread was restarted before it
    /// ran.
    ResumedGoesOn,
}

/// A question.
#[derive(Drop)]
pub enum Asked {
    /// A thread may wait for ever in these of its entries: that is not reported as a deadlock.
    Idle {
        thread: ObjId,
        entries: Entries,
    },
    /// From each state some order answers this entry of a user, or it was answered and does not
    /// come again. Without a number: some order answers some entry of it, or all were answered.
    Live {
        thread: ObjId,
        number: Option<usize>,
    },
    /// All answers of an entry match the pattern, and each run that ends has had one.
    Answer {
        event: Event,
        pattern: Vec<u8>,
    },
    /// All answers of an entry match the pattern; it may have none.
    AnswerIf {
        event: Event,
        pattern: Vec<u8>,
    },
    /// Some answer of an entry matches the pattern.
    Some {
        event: Event,
        pattern: Vec<u8>,
    },
    /// No line of a trace matches the pattern.
    Never {
        pattern: Vec<u8>,
    },
    /// These users are never all in their spans at once.
    Apart {
        spans: Vec<Span>,
    },
    /// An entry is given before another one is.
    Before {
        first: Event,
        second: Event,
    },
    /// The list of a user continues with this entry after its last.
    Again {
        event: Event,
    },
    /// All users follow this rule.
    Ruled {
        rule: Rule,
    },
}

impl Entries {
    /// Returns whether an entry is in this range, by its number, counted from 1.
    pub fn contain(self, number: usize) -> bool
        ensures { result ≡ contain self number }
    {
        self.first <= number && number <= self.last
    }
}

impl Asked {
    /// Returns whether it is a question that holds or fails.
    pub fn is_question(&self) -> bool
        ensures { result ≡ is_question self.now }
    {
        match self {
            Asked::Idle { .. } | Asked::Again { .. } | Asked::Ruled { .. } => false,
            Asked::Live { .. }
            | Asked::Answer { .. }
            | Asked::AnswerIf { .. }
            | Asked::Some { .. }
            | Asked::Never { .. }
            | Asked::Apart { .. }
            | Asked::Before { .. } => true,
        }
    }

    /// Returns whether it asks that a user never gets stuck.
    pub fn is_live(&self) -> bool
        ensures { result ≡ is_live self.now }
    {
        match self {
            Asked::Live { .. } => true,
            Asked::Idle { .. }
            | Asked::Answer { .. }
            | Asked::AnswerIf { .. }
            | Asked::Some { .. }
            | Asked::Never { .. }
            | Asked::Apart { .. }
            | Asked::Before { .. }
            | Asked::Again { .. }
            | Asked::Ruled { .. } => false,
        }
    }

    /// Returns whether it lets a user wait for ever in an entry, by the entry's number, counted
    /// from 1.
    pub fn excuses(&self, user: ObjId, number: usize) -> bool
        ensures { result ≡ excuses self.now user number }
    {
        match self {
            Asked::Idle { thread, entries } => thread.is_same(user) && entries.contain(number),
            Asked::Live { .. }
            | Asked::Answer { .. }
            | Asked::AnswerIf { .. }
            | Asked::Some { .. }
            | Asked::Never { .. }
            | Asked::Apart { .. }
            | Asked::Before { .. }
            | Asked::Again { .. }
            | Asked::Ruled { .. } => false,
        }
    }

    /// Returns whether it is about the waits of a user: it excuses some, or asks that the user
    /// never gets stuck.
    pub fn is_of_waits(&self, user: ObjId) -> bool
        ensures { result ≡ is_of_waits self.now user }
    {
        match self {
            Asked::Idle { thread, .. } | Asked::Live { thread, .. } => thread.is_same(user),
            Asked::Answer { .. }
            | Asked::AnswerIf { .. }
            | Asked::Some { .. }
            | Asked::Never { .. }
            | Asked::Apart { .. }
            | Asked::Before { .. }
            | Asked::Again { .. }
            | Asked::Ruled { .. } => false,
        }
    }
}
