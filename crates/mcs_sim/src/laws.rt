//! Laws of runs, each the contract of a function that does nothing.
ghost use Rattle.std.specs.Prelude.{◌≡◌, ℕ, List, Option, ◌++◌};
ghost use Rattle.mcs_types.specs.declared.entry.Step.{Step};
ghost use Rattle.mcs_book.specs.Boots.{Boot, IsFaultless};
ghost use Rattle.mcs_book.specs.History.{AllInRange, IsLegal, book_of};
ghost use Rattle.mcs_sim.specs.Input.{IsTooLong};
ghost use Rattle.mcs_phases.specs.Script.{steps, users};
ghost use Rattle.mcs_phases.specs.Feeds.{FeedState, at_line, ended, fed, no_line};
ghost use Rattle.mcs_sim.specs.Outcomes.{ComesOfScript};

/// Law: the book of steps after a boot is legal, if each line of the boot passes all checks and the
/// numbers of each step are in their ranges.
pub fn replayed_legal()
    ghost run: { Boot × List Step }
    requires boot { IsFaultless run.0 }
    requires steps { AllInRange run.1 }
    ensures { IsLegal (book_of run.0 run.1) }
{}

/// Law: a text that is too long for a script gives the same boot, steps and fault whatever bytes
/// follow it; so do texts of users.
pub fn too_long_stands()
    ghost at: { List ℕ × List ℕ }
    requires { IsTooLong at.0 }
    ensures steps { steps (at.0 ++ at.1) ≡ steps at.0 }
    ensures users { (asked : Option ℕ) → users asked (at.0 ++ at.1) ≡ users asked at.0 }
{}

/// Law: feeding a text and then another gives what feeding both together gives, so the cuts of a
/// script do not matter.
pub fn fed_in_pieces()
    ghost at: { FeedState × List ℕ × List ℕ }
    ensures { fed at.0 (at.1 ++ at.2) ≡ fed (fed at.0 at.1) at.2 }
{}

/// Law: a script fed byte by byte gives what it gives as a whole: the book of its steps, its first
/// faulty line, or the step for which the book is full.
pub fn fed_as_read()
    ghost text: { List ℕ }
    ensures { ComesOfScript (steps text) (ended (fed (at_line no_line) text)) }
{}
