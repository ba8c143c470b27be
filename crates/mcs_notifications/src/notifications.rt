//! The table of notifications.
ghost use Rattle.std.specs.Prelude.{◌≡◌, true, false, Some, None, IfOk};
ghost use Rattle.mcs_types.specs.declared.id.ObjId.{ObjId};
ghost use Rattle.mcs_types.specs.declared.id.Kind.{Kind};
ghost use Rattle.mcs_types.specs.Ids.{ChangesAt};
ghost use Rattle.mcs_types.specs.Limits.{object_limit};
ghost use Rattle.mcs_types.specs.Words.{with_badge};
ghost use Rattle.mcs_objects.specs.Store.{value_at, empty_shape, one_more, IsOneFewer};
ghost use Rattle.mcs_notifications.specs.Signals.{counts, no_room, next_notification, is_there, word_in, thread_in, homed_in, SetsWord, GainsBadge, SetsThread, SetsHomed};

use mcs_objects::Store;
use mcs_types::{Badge, Kind, OBJECTS, ObjId, OutOfMemory};
use std::alloc::Global;
use std::marker::Model;

/// A notification: its pending word, the thread bound to it (manual: Notifications), and the
/// context homed at it (own).
#[derive(Clone, Copy)]
pub struct NotificationRow {
    word: Option<u64>,
    thread: Option<ObjId>,
    homed: Option<ObjId>,
}

/// Up to 256 notifications, which come and go under serials that count from 1: the pending word of
/// each, and the thread bound to it. A word is pending as soon as one badge was raised, also badge
/// 0 (manual: Notifications). All memory is taken when they are made (own).
pub struct Notifications {
    rows: Store<NotificationRow>,
}

// Written by hand as a separate function: a derived drop would be proved again wherever it is
// dropped.
impl Drop for Notifications {
    fn drop(self) {
        let Notifications { rows: _ } = self;
    }
}

impl Model for Notifications {
    ghost use Rattle.mcs_notifications.specs.Signals.{Signals, AreSignals};

    ghost Value = { Signals };

    ghost view = { λ s. record { rows = s.rows } };

    ghost invariant = { λ s. AreSignals (record { rows = s.rows }) };
}

/// Returns a word with the bits of one more badge.
fn with_badge(badge: Badge, word: Option<u64>) -> u64
    ensures { result ≡ with_badge badge.0 word }
{
    match word {
        None => badge.0,
        Some(word) => word | badge.0,
    }
}

impl Notifications {
    /// Returns a table without notifications, with room for 256 (own).
    pub fn new(alloc: Global) -> Result<Notifications, OutOfMemory>
        ensures counts { IfOk result (λ v. counts v ≡ empty_shape Kind.Notification object_limit) }
        ensures there { IfOk result (λ v. (n : ObjId) → is_there v n ≡ false) }
        ensures words { IfOk result (λ v. (n : ObjId) → word_in v n ≡ None) }
        ensures threads { IfOk result (λ v. (n : ObjId) → thread_in v n ≡ None) }
        ensures homed { IfOk result (λ v. (n : ObjId) → homed_in v n ≡ None) }
    {
        Ok(Notifications {
            rows: Store::with_room(alloc, Kind::Notification, OBJECTS)?,
        })
    }

    /// The rows.
    fn into_rows(self) -> Store<NotificationRow> {
        let Notifications { rows } = self;
        rows
    }

    /// Clones the table in the memory of a spare one (own). `OutOfMemory` if an allocation fails.
    pub fn copy(
        &self,
        alloc: Global,
        spare: Option<Notifications>,
    ) -> Result<Notifications, OutOfMemory>
        ensures { IfOk result (λ t. t ≡ self.now) }
    {
        let rows = match spare {
            Some(spare) => Some(spare.into_rows()),
            None => None,
        };
        Ok(Notifications {
            rows: self.rows.copy(alloc, rows)?,
        })
    }

    /// Adds a notification; there must be room. Its serial is the next, no word is pending, and it
    /// is bound to no thread (own).
    pub fn add(&mut self) -> ObjId
        requires { no_room self.old ≡ false }
        ensures id { result ≡ next_notification self.old }
        ensures counts { counts self.new ≡ one_more (counts self.old) }
        ensures there { ChangesAt (is_there self.old) (is_there self.new) result true }
        ensures quiet { word_in self.new result ≡ None }
        ensures words { (n : ObjId) → word_in self.new n ≡ word_in self.old n }
        ensures unbound { thread_in self.new result ≡ None }
        ensures threads { (n : ObjId) → thread_in self.new n ≡ thread_in self.old n }
        ensures homed { (n : ObjId) → homed_in self.new n ≡ homed_in self.old n }
    {
        // For the proof: existing objects were given serials, so the next serial is new.
        self.rows.are_apart();
        self.rows.add(NotificationRow {
            word: None,
            thread: None,
            homed: None,
        })
    }

    /// Removes a notification that is bound to no thread, with its word. Its serial is never reused
    /// (manual: Kernel Services and Objects).
    pub fn close(&mut self, notification: ObjId)
        requires there { is_there self.old notification ≡ true }
        requires unbound { thread_in self.old notification ≡ None }
        requires homeless { homed_in self.old notification ≡ None }
        ensures counts { IsOneFewer (counts self.old) (counts self.new) }
        ensures there { ChangesAt (is_there self.old) (is_there self.new) notification false }
        ensures words { SetsWord self.old self.new notification None }
        ensures threads { (n : ObjId) → thread_in self.new n ≡ thread_in self.old n }
        ensures homed { (n : ObjId) → homed_in self.new n ≡ homed_in self.old n }
    {
        self.rows.remove(notification);
    }

    /// Returns the row of each notification; it tells how many were made and exist, and whether
    /// there is room for one more (own).
    pub fn rows(&self) -> &Store<NotificationRow>
        ensures { result.now ≡ self.now.rows }
    {
        &self.rows
    }

    /// Returns the row of an existing notification.
    fn row(&self, notification: ObjId) -> NotificationRow
        requires { is_there self.now notification ≡ true }
        ensures { value_at self.now.rows notification ≡ Some result }
    {
        match self.rows.get(notification) {
            None => unreachable!(),
            Some(row) => *row,
        }
    }

    /// Returns whether a notification was made and not closed (own).
    pub fn is_there(&self, notification: ObjId) -> bool
        ensures { result ≡ is_there self.now notification }
    {
        self.rows.get(notification).is_some()
    }

    /// Returns the pending word of a notification; None if none is pending, or if the notification
    /// does not exist (manual: Notifications).
    pub fn word(&self, notification: ObjId) -> Option<u64>
        ensures { result ≡ word_in self.now notification }
    {
        self.rows.get(notification)?.word
    }

    /// Adds the bits of a badge to the pending word of an existing notification. If no word was
    /// pending, the badge is the word, even if it is 0 (manual: Notifications).
    pub fn raise(&mut self, notification: ObjId, badge: Badge)
        requires { is_there self.old notification ≡ true }
        ensures counts { counts self.new ≡ counts self.old }
        ensures there { (n : ObjId) → is_there self.new n ≡ is_there self.old n }
        ensures words { GainsBadge self.old self.new notification badge.0 }
        ensures threads { (n : ObjId) → thread_in self.new n ≡ thread_in self.old n }
        ensures homed { (n : ObjId) → homed_in self.new n ≡ homed_in self.old n }
    {
        let row = self.row(notification);
        let word = Some(with_badge(badge, row.word));
        self.rows.set(notification, NotificationRow { word, ..row });
    }

    /// Clears and returns the pending word of a notification. Returns None, and changes nothing, if
    /// none was pending or the notification does not exist (manual: Notifications).
    pub fn hear(&mut self, notification: ObjId) -> Option<u64>
        ensures word { result ≡ word_in self.old notification }
        ensures counts { counts self.new ≡ counts self.old }
        ensures there { (n : ObjId) → is_there self.new n ≡ is_there self.old n }
        ensures words { SetsWord self.old self.new notification None }
        ensures threads { (n : ObjId) → thread_in self.new n ≡ thread_in self.old n }
        ensures homed { (n : ObjId) → homed_in self.new n ≡ homed_in self.old n }
    {
        let row = *self.rows.get(notification)?;
        let word = None;
        self.rows.set(notification, NotificationRow { word, ..row });
        row.word
    }

    /// The thread to which a notification is bound, or None if it is bound to none, and if it does
    /// not exist (manual: Notifications).
    pub fn bound(&self, notification: ObjId) -> Option<ObjId>
        ensures { result ≡ thread_in self.now notification }
    {
        self.rows.get(notification)?.thread
    }

    /// Binds an existing notification to this thread, or to none (manual: Notifications).
    pub fn set_bound(&mut self, notification: ObjId, thread: Option<ObjId>)
        requires { is_there self.old notification ≡ true }
        ensures counts { counts self.new ≡ counts self.old }
        ensures there { (n : ObjId) → is_there self.new n ≡ is_there self.old n }
        ensures words { (n : ObjId) → word_in self.new n ≡ word_in self.old n }
        ensures threads { SetsThread self.old self.new notification thread }
        ensures homed { (n : ObjId) → homed_in self.new n ≡ homed_in self.old n }
    {
        let row = self.row(notification);
        self.rows
            .set(notification, NotificationRow { thread, ..row });
    }

    /// The context that is homed at a notification, or None if none is, and if it does not exist
    /// (own).
    pub fn homed(&self, notification: ObjId) -> Option<ObjId>
        ensures { result ≡ homed_in self.now notification }
    {
        self.rows.get(notification)?.homed
    }

    /// Sets the context that is homed at an existing notification, or clears it (own).
    pub fn set_homed(&mut self, notification: ObjId, homed: Option<ObjId>)
        requires { is_there self.old notification ≡ true }
        ensures counts { counts self.new ≡ counts self.old }
        ensures there { (n : ObjId) → is_there self.new n ≡ is_there self.old n }
        ensures words { (n : ObjId) → word_in self.new n ≡ word_in self.old n }
        ensures threads { (n : ObjId) → thread_in self.new n ≡ thread_in self.old n }
        ensures homed { SetsHomed self.old self.new notification homed }
    {
        let row = self.row(notification);
        self.rows
            .set(notification, NotificationRow { homed, ..row });
    }
}
