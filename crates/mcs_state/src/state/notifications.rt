//! Signals, the threads that hear them, bindings and homes.
ghost use Rattle.std.specs.Prelude.{◌≡◌, ◌<◌, true, IfSome, IsSome, is_some, is_none, length, ◌+◌};
ghost use Rattle.mcs_types.specs.declared.id.Kind.{Kind};
ghost use Rattle.mcs_types.specs.declared.record.Rec.{Rec};
ghost use Rattle.mcs_book.specs.Contexts.{home_of, homed_at};
ghost use Rattle.mcs_contexts.specs.Holding.{core_in, home_in};
ghost use Rattle.mcs_book.specs.Notifications.{bound_of, tied_to, pending};
ghost use Rattle.mcs_book.specs.Sound.{Allowed, IsThere};
ghost use Rattle.mcs_notifications.specs.Signals.{is_there};
ghost use Rattle.mcs_threads.specs.Rows.{with_notification};
ghost use Rattle.mcs_threads.specs.Tables.{ChangesRow};
ghost use Rattle.mcs_state.specs.Following.{Rebinds, HomesContext, Rehomes};
ghost use Rattle.mcs_state.specs.Now.{so_far, adds};

use super::State;
use mcs_contexts::Contexts;
use mcs_notifications::Notifications;
use mcs_object_queues::Waiting;
use mcs_threads::Threads;
use mcs_types::{Badge, Mail, ObjId, Rec};

/// Binds a thread to this notification, or to none.
fn tie(threads: &mut Threads, thread: ObjId, notification: Option<ObjId>)
    ensures { ChangesRow (with_notification notification) threads.old threads.new thread }
{
    match notification {
        Some(notification) => threads.tie(thread, notification),
        None => threads.untie(thread),
    };
}

/// Binds an existing notification to a thread; if None, unbinds the one that was bound to the
/// thread.
fn rebind(notifications: &mut Notifications, thread: ObjId, from: Option<ObjId>, to: Option<ObjId>)
    requires from { IfSome from (λ n. is_there notifications.old n ≡ true) }
    requires to { IfSome to (λ n. is_there notifications.old n ≡ true) }
    ensures { Rebinds thread from to notifications.old notifications.new }
{
    match (from, to) {
        (_, Some(to)) => notifications.set_bound(to, Some(thread)),
        (Some(from), None) => notifications.set_bound(from, None),
        (None, None) => {}
    }
}

/// Homes an existing, unhomed context at a notification; if None, unhomes a homed context.
// inlined, so that ids stay in registers
#[inline(always)]
fn home(contexts: &mut Contexts, context: ObjId, notification: Option<ObjId>)
    requires made { IsSome (core_in contexts.old context) }
    requires changes { is_some (home_in contexts.old context) ≡ is_none notification }
    ensures { HomesContext context notification contexts.old contexts.new }
{
    let is_changed = match notification {
        Some(notification) => contexts.home(context, notification).is_ok(),
        None => contexts.unhome(context).is_ok(),
    };
    prove!(is_changed);
}

/// Makes an existing notification the home of a context; if None, clears the former home.
fn rehome(notifications: &mut Notifications, context: ObjId, from: Option<ObjId>, to: Option<ObjId>)
    requires from { IfSome from (λ n. is_there notifications.old n ≡ true) }
    requires to { IfSome to (λ n. is_there notifications.old n ≡ true) }
    ensures { Rehomes context from to notifications.old notifications.new }
{
    match (from, to) {
        (_, Some(to)) => notifications.set_homed(to, Some(context)),
        (Some(from), None) => notifications.set_homed(from, None),
        (None, None) => {}
    }
}

impl<W: Waiting> State<W> {
    /// Signals a notification: its word gains the bits of the badge (manual: Notifications).
    pub fn raises(&mut self, notification: ObjId, badge: Badge)
        requires allowed { Allowed (so_far self.old) (Rec.Raised notification badge) }
        requires room { length self.old.hand + 1 < self.old.room }
        ensures { self.new ≡ adds (Rec.Raised notification badge) self.old }
    {
        self.book.note(Rec::Raised {
            notification,
            badge,
        });
        self.notifications.raise(notification, badge);
    }

    /// Gives a thread the pending word of a notification, and clears the word (manual:
    /// Notifications).
    pub fn hears(&mut self, thread: ObjId, notification: ObjId, word: u64)
        requires allowed { Allowed (so_far self.old) (Rec.Heard thread notification word) }
        requires room { length self.old.hand + 1 < self.old.room }
        ensures { self.new ≡ adds (Rec.Heard thread notification word) self.old }
    {
        self.book.note(Rec::Heard {
            thread,
            notification,
            word,
        });
        self.threads.set_mail(thread, Mail::Word { word }).unwrap();
        self.notifications.hear(notification);
    }

    /// Binds a notification to a thread, or unbinds the thread's (manual: Notifications).
    pub fn ties(&mut self, thread: ObjId, notification: Option<ObjId>)
        requires allowed { Allowed (so_far self.old) (Rec.Tied thread notification) }
        requires room { length self.old.hand + 1 < self.old.room }
        ensures { self.new ≡ adds (Rec.Tied thread notification) self.old }
    {
        let bound = self.bound_of(thread);
        self.book.note(Rec::Tied {
            thread,
            notification,
        });
        tie(&mut self.threads, thread, notification);
        rebind(&mut self.notifications, thread, bound, notification);
    }

    /// Homes a context at a notification, or nowhere (own).
    pub fn homes(&mut self, context: ObjId, notification: Option<ObjId>)
        requires allowed { Allowed (so_far self.old) (Rec.Homed context notification) }
        requires room { length self.old.hand + 1 < self.old.room }
        ensures { self.new ≡ adds (Rec.Homed context notification) self.old }
    {
        let old = self.home_of(context);
        self.book.note(Rec::Homed {
            context,
            notification,
        });
        home(&mut self.contexts, context, notification);
        rehome(&mut self.notifications, context, old, notification);
    }

    /// The notification at which a context is homed; None if it is homed nowhere (own).
    pub fn home_of(&self, context: ObjId) -> Option<ObjId>
        ensures { result ≡ home_of (so_far self.now) context }
    {
        self.contexts.home_of(context)
    }

    /// The context that is homed at a notification; None if none is (own).
    pub fn homed_at(&self, notification: ObjId) -> Option<ObjId>
        ensures { result ≡ homed_at (so_far self.now) notification }
    {
        self.notifications.homed(notification)
    }

    /// The notification that is bound to a thread; None if none is, and for what is no thread
    /// (manual: Notifications).
    pub fn bound_of(&self, thread: ObjId) -> Option<ObjId>
        ensures { result ≡ bound_of (so_far self.now) thread }
    {
        match self.threads.get(thread) {
            None => None,
            Some(row) => row.notification,
        }
    }

    /// The thread to which a notification is bound; None if it is bound to none (manual:
    /// Notifications).
    pub fn tied_to(&self, notification: ObjId) -> Option<ObjId>
        ensures { result ≡ tied_to (so_far self.now) notification }
    {
        self.notifications.bound(notification)
    }

    /// The pending word of an existing notification; None if no badge was raised since it was heard
    /// last (manual: Notifications).
    pub fn pending(&self, notification: ObjId) -> Option<u64>
        requires { IsThere (so_far self.now) Kind.Notification notification }
        ensures { result ≡ pending (so_far self.now) notification }
    {
        self.notifications.word(notification)
    }
}
