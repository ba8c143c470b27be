//! Logs that no later entry can distinguish: each question of an entry has the same answer in both
//! (own). Each law is about definitions, and its function does nothing.
ghost use Rattle.std.specs.Prelude.{◌≡◌, ◌∷◌, Bool, List, Option};
ghost use Rattle.mcs_types.specs.declared.entry.Entry.{Entry};
ghost use Rattle.mcs_types.specs.declared.id.CoreId.{CoreId};
ghost use Rattle.mcs_types.specs.declared.id.Kind.{Kind};
ghost use Rattle.mcs_types.specs.declared.id.ObjId.{ObjId};
ghost use Rattle.mcs_types.specs.declared.record.Rec.{Rec};
ghost use Rattle.mcs_book.specs.Logs.{Log, onto};
ghost use Rattle.mcs_book.specs.Sound.{Allowed, Sound, IsThere};
ghost use Rattle.mcs_book.specs.Messages.{next_message, open_of};
ghost use Rattle.mcs_book.specs.Picking.{IsPick};
ghost use Rattle.mcs_book.specs.Statuses.{status_of};
ghost use Rattle.mcs_book.specs.Table.{does};
ghost use Rattle.mcs_explore_equivalence.specs.Alike.{Alike};
ghost use Rattle.mcs_explore_equivalence.specs.ButNumbers.{AlikeButNumbers, SameButNumbers, MatchAll};
ghost use Rattle.mcs_explore_equivalence.specs.Answers.{AnswerAlike, AnswerButNumbers};
ghost use Rattle.mcs_explore_equivalence.specs.Likeness.{AlikeBy, IsLogLikeness};
ghost use Rattle.mcs_explore_equivalence.specs.Books.{with_one, after_entry, line_in, outcome_of};
ghost use Rattle.mcs_book.specs.History.{Book, Line, IsLegal, log_of};

/// Law: two alike logs (at.1, at.2) are alike after the same record (at.0), if the record is
/// allowed in both (own).
pub fn alike_after()
    ghost at: { Rec × Log × Log }
    requires alike { Alike at.1 at.2 }
    requires left { Allowed at.1 at.0 }
    requires right { Allowed at.2 at.0 }
    ensures { Alike (at.0 ∷ at.1) (at.0 ∷ at.2) }
{}

/// Law: two alike logs are alike after the same list of records (at.0, oldest first), if the result
/// is sound (own).
pub fn alike_onto()
    ghost at: { List Rec × Log × Log }
    requires alike { Alike at.1 at.2 }
    requires left { Sound (onto at.0 at.1) }
    requires right { Sound (onto at.0 at.2) }
    ensures { Alike (onto at.0 at.1) (onto at.0 at.2) }
{}

/// Law: two sound logs (at.0, at.1) are alike if as many objects of each kind were made and as many
/// messages sent, and each question of a kernel about existing objects has the same answer in both
/// (own).
pub fn answers_alike()
    ghost at: { Log × Log }
    requires left { Sound at.0 }
    requires right { Sound at.1 }
    requires answers { AnswerAlike at.0 at.1 }
    ensures { Alike at.0 at.1 }
{}

/// Law: an entry (at.4) of an existing thread (at.3) on a core (at.2) has the same answer and
/// records in two alike logs (at.0, at.1): for all 27 entries, also for the first one after a
/// restart (own).
pub fn same_entry()
    ghost at: { Log × Log × CoreId × ObjId × Entry }
    requires alike { Alike at.0 at.1 }
    requires there { IsThere at.0 Kind.Thread at.3 }
    requires left { Sound (after_entry at.0 at.2 at.3 at.4) }
    requires right { Sound (after_entry at.1 at.2 at.3 at.4) }
    ensures { does at.0 at.2 at.3 at.4 ≡ does at.1 at.2 at.3 at.4 }
{}

/// Law: alike logs remain alike after the same entry (own).
pub fn alike_entry()
    ghost at: { Log × Log × CoreId × ObjId × Entry }
    requires alike { Alike at.0 at.1 }
    requires there { IsThere at.0 Kind.Thread at.3 }
    requires left { Sound (after_entry at.0 at.2 at.3 at.4) }
    requires right { Sound (after_entry at.1 at.2 at.3 at.4) }
    ensures { Alike (after_entry at.0 at.2 at.3 at.4) (after_entry at.1 at.2 at.3 at.4) }
{}

/// Law: a core (at.2) picks the same thread, or none (at.4), in two alike logs, whichever threads
/// are passed over (at.3; own).
pub fn same_pick()
    ghost at: { Log × Log × CoreId × List Bool × Option ObjId }
    requires alike { Alike at.0 at.1 }
    requires pick { IsPick at.0 at.2 at.3 at.4 }
    ensures { IsPick at.1 at.2 at.3 at.4 }
{}

/// Law: a thread (at.2) has the same status in two alike logs (own).
pub fn same_status()
    ghost at: { Log × Log × ObjId }
    requires { Alike at.0 at.1 }
    ensures { status_of at.0 at.2 ≡ status_of at.1 at.2 }
{}

/// Law: a line (at.2) that may follow one of two legal books (at.0, at.1) with alike logs may
/// follow the other (own).
pub fn same_line()
    ghost at: { Book × Book × Line }
    requires left { IsLegal (with_one at.2 at.0) }
    requires right { IsLegal at.1 }
    requires alike { Alike (log_of at.0) (log_of at.1) }
    ensures { IsLegal (with_one at.2 at.1) }
{}

/// Law: alike books remain alike after the same line (own).
pub fn alike_line()
    ghost at: { Book × Book × Line }
    requires left { IsLegal (with_one at.2 at.0) }
    requires right { IsLegal at.1 }
    requires alike { Alike (log_of at.0) (log_of at.1) }
    ensures { Alike (log_of (with_one at.2 at.0)) (log_of (with_one at.2 at.1)) }
{}

/// Law: likeness is transitive (own).
pub fn alike_on()
    ghost at: { Log × Log × Log }
    requires first { Alike at.0 at.1 }
    requires second { Alike at.1 at.2 }
    ensures { Alike at.0 at.2 }
{}

/// Law: alike logs (at.0, at.1) are also alike up to message numbers (own).
pub fn alike_weaker()
    ghost at: { Log × Log }
    requires { Alike at.0 at.1 }
    ensures { AlikeButNumbers at.0 at.1 }
{}

/// Law: two sound logs (at.0, at.1) are alike up to message numbers if each question of a kernel
/// about existing objects has the same answer in both, up to the numbers of messages; how many
/// messages were sent is not asked (own).
pub fn answers_but_numbers()
    ghost at: { Log × Log }
    requires left { Sound at.0 }
    requires right { Sound at.1 }
    requires answers { AnswerButNumbers at.0 at.1 }
    ensures { AlikeButNumbers at.0 at.1 }
{}

/// Law: two logs that are alike up to message numbers (at.2, at.3) remain so after matching records
/// (at.0, at.1), if the results are sound (own).
pub fn onto_but_numbers()
    ghost at: { List Rec × List Rec × Log × Log }
    requires alike { AlikeButNumbers at.2 at.3 }
    requires same { MatchAll at.2 at.3 at.0 at.1 }
    requires left { Sound (onto at.0 at.2) }
    requires right { Sound (onto at.1 at.3) }
    ensures { AlikeButNumbers (onto at.0 at.2) (onto at.1 at.3) }
{}

/// Law: an entry (at.4) of an existing thread (at.3) on a core (at.2) has the same answer, and the
/// same records up to message numbers, in two logs that are alike up to message numbers (at.0,
/// at.1; own).
pub fn entry_but_numbers()
    ghost at: { Log × Log × CoreId × ObjId × Entry }
    requires alike { AlikeButNumbers at.0 at.1 }
    requires there { IsThere at.0 Kind.Thread at.3 }
    requires left { Sound (after_entry at.0 at.2 at.3 at.4) }
    requires right { Sound (after_entry at.1 at.2 at.3 at.4) }
    ensures { SameButNumbers (does at.0 at.2 at.3 at.4) (does at.1 at.2 at.3 at.4) }
{}

/// Law: logs that are alike up to message numbers remain so after the same entry (own).
pub fn after_but_numbers()
    ghost at: { Log × Log × CoreId × ObjId × Entry }
    requires alike { AlikeButNumbers at.0 at.1 }
    requires there { IsThere at.0 Kind.Thread at.3 }
    requires left { Sound (after_entry at.0 at.2 at.3 at.4) }
    requires right { Sound (after_entry at.1 at.2 at.3 at.4) }
    ensures { AlikeButNumbers (after_entry at.0 at.2 at.3 at.4) (after_entry at.1 at.2 at.3 at.4) }
{}

/// Law: a core (at.2) picks the same thread, or none (at.4), in two logs that are alike up to
/// message numbers, whichever threads are passed over (at.3; own).
pub fn pick_but_numbers()
    ghost at: { Log × Log × CoreId × List Bool × Option ObjId }
    requires alike { AlikeButNumbers at.0 at.1 }
    requires pick { IsPick at.0 at.2 at.3 at.4 }
    ensures { IsPick at.1 at.2 at.3 at.4 }
{}

/// Law: a thread (at.2) has the same status in two logs that are alike up to message numbers (own).
pub fn status_but_numbers()
    ghost at: { Log × Log × ObjId }
    requires { AlikeButNumbers at.0 at.1 }
    ensures { status_of at.0 at.2 ≡ status_of at.1 at.2 }
{}

/// Law: if a line (at.2) may follow one of two legal books (at.0, at.1) whose logs are alike up to
/// message numbers, the line of the same step may follow the other (own).
pub fn line_but_numbers()
    ghost at: { Book × Book × Line }
    requires left { IsLegal (with_one at.2 at.0) }
    requires right { IsLegal at.1 }
    requires alike { AlikeButNumbers (log_of at.0) (log_of at.1) }
    ensures { IsLegal (with_one (line_in at.1 at.2.step) at.1) }
{}

/// Law: that line has the same answer, and the same records up to message numbers (own).
pub fn same_line_but_numbers()
    ghost at: { Book × Book × Line }
    requires left { IsLegal (with_one at.2 at.0) }
    requires right { IsLegal at.1 }
    requires alike { AlikeButNumbers (log_of at.0) (log_of at.1) }
    ensures { SameButNumbers (outcome_of at.2) (outcome_of (line_in at.1 at.2.step)) }
{}

/// Law: that line leaves logs that are alike up to message numbers (own).
pub fn line_after_but_numbers()
    ghost at: { Book × Book × Line }
    requires left { IsLegal (with_one at.2 at.0) }
    requires right { IsLegal at.1 }
    requires alike { AlikeButNumbers (log_of at.0) (log_of at.1) }
    ensures { AlikeButNumbers (log_of (with_one at.2 at.0))
        (log_of (with_one (line_in at.1 at.2.step) at.1)) }
{}

/// Law: likeness up to message numbers is transitive (own).
pub fn on_but_numbers()
    ghost at: { Log × Log × Log }
    requires first { AlikeButNumbers at.0 at.1 }
    requires second { AlikeButNumbers at.1 at.2 }
    ensures { AlikeButNumbers at.0 at.2 }
{}

/// Law: two logs that are alike up to message numbers (at.0, at.1) are alike if the numbers of the
/// open messages and of the next message are also the same (own).
pub fn numbers_alike()
    ghost at: { Log × Log }
    requires but_numbers { AlikeButNumbers at.0 at.1 }
    requires letters { (x : ObjId) → open_of at.0 x ≡ open_of at.1 x }
    requires sent { next_message at.0 ≡ next_message at.1 }
    ensures { Alike at.0 at.1 }
{}

/// Law: steps respect both likenesses: the one that distinguishes message numbers, and the one that
/// does not (at; own).
pub fn steps_respect()
    ghost at: { Bool }
    ensures { IsLogLikeness (AlikeBy at) }
{}
