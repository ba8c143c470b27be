//! Closes objects.
ghost use Rattle.std.specs.Prelude.{◌≡◌, ◌<◌, true, None, length, ◌+◌};
ghost use Rattle.mcs_types.specs.declared.record.Rec.{Rec};
ghost use Rattle.mcs_book.specs.Sound.{Allowed};
ghost use Rattle.mcs_notifications.specs.Signals.{is_there, thread_in, homed_in};
ghost use Rattle.mcs_state.specs.Following.{ClosesNotification};
ghost use Rattle.mcs_state.specs.Now.{so_far, adds};

use super::State;
use mcs_notifications::Notifications;
use mcs_object_queues::Waiting;
use mcs_types::{Kind, ObjId, Rec};

/// Closes an existing notification to which no thread is bound and at which no context is homed.
/// Its word is lost.
fn end_notification(notifications: &mut Notifications, notification: ObjId)
    requires there { is_there notifications.old notification ≡ true }
    requires unbound { thread_in notifications.old notification ≡ None }
    requires homeless { homed_in notifications.old notification ≡ None }
    ensures { ClosesNotification notification notifications.old notifications.new }
{
    notifications.close(notification);
}

impl<W: Waiting> State<W> {
    /// Closes an object that no thread uses and no slot names (own).
    pub fn closes(&mut self, object: ObjId)
        requires allowed { Allowed (so_far self.old) (Rec.Closed object) }
        requires room { length self.old.hand + 1 < self.old.room }
        ensures { self.new ≡ adds (Rec.Closed object) self.old }
    {
        self.book.note(Rec::Closed { object });
        match object.kind {
            Kind::Endpoint => self.queues.close(object),
            Kind::Notification => {
                self.queues.close(object);
                end_notification(&mut self.notifications, object);
            }
            Kind::Reply => self.replies.close(object),
            Kind::Context => {
                self.contexts.close(object);
                self.replies.drop_chain(object);
            }
            Kind::Thread => {
                self.threads.close(object);
            }
            // A CNode stays as long as the state.
            Kind::CNode => unreachable!(),
        }
    }
}
