//! The table of notifications.
use super::names::notification;
use super::rows::{named, row_of};
use crate::tests::texts::NONE;
use mcs_notifications::Notifications;
use mcs_types::{Badge, Kind, ObjId};
use std::test::Fail;

/// Closes a notification that is bound to no thread and home to no context. Returns whether it was
/// one.
fn close(notifications: &mut Notifications, id: ObjId) -> bool {
    if notifications.bound(id).is_some() || notifications.homed(id).is_some() {
        return false;
    }
    if !notifications.is_there(id) {
        return false;
    }
    notifications.close(id);
    true
}

/// Changes an existing notification. Returns whether it exists.
fn change(notifications: &mut Notifications, call: &str, id: ObjId, number: u32) -> bool {
    if !notifications.is_there(id) {
        return false;
    }
    match call {
        "raise" => notifications.raise(id, Badge(number as u64)),
        "bind" => notifications.set_bound(id, named(Kind::Thread, number)),
        "home" => notifications.set_homed(id, named(Kind::Context, number)),
        _ => return false,
    }
    true
}

/// Returns the word for a number; NONE stands for none.
fn word_of(number: u32) -> Option<u64> {
    if number == NONE {
        None
    } else {
        Some(number as u64)
    }
}

/// Returns whether a call is done, with the result that its numbers say.
fn is_done(notifications: &mut Notifications, call: &str, id: ObjId, number: u32) -> bool {
    match call {
        "add" => !notifications.rows().is_full() && notifications.add() == id,
        "hear" => notifications.hear(id) == word_of(number),
        "close" => close(notifications, id),
        _ => change(notifications, call, id, number),
    }
}

/// Returns whether a notification has this word, is bound to this thread, and is home to this
/// context.
fn is_kept(notifications: &Notifications, serial: u32, kept: [u32; 3]) -> bool {
    let id = notification(serial);
    notifications.word(id) == word_of(kept[0])
        && notifications.bound(id) == named(Kind::Thread, kept[1])
        && notifications.homed(id) == named(Kind::Context, kept[2])
}

/// Calls, whether they are done, and then the word, the thread and the context of the first two
/// notifications. A notification is made, with this serial; a word is raised, or taken; it is bound
/// to a thread, is home to a context, or is closed.
const CALLS: &str = "\
home 1 9 = not - - - - - -
add 1 = done - - - - - -
raise 1 0 = done 0 - - - - -
raise 1 5 = done 5 - - - - -
raise 1 6 = done 7 - - - - -
hear 1 7 = done - - - - - -
hear 1 - = done - - - - - -
raise 2 1 = not - - - - - -
hear 2 - = done - - - - - -
add 2 = done - - - - - -
home 1 9 = done - - 9 - - -
raise 1 4 = done 4 - 9 - - -
bind 1 7 = done 4 7 9 - - -
bind 1 - = done 4 - 9 - - -
close 1 = not 4 - 9 - - -
home 1 - = done 4 - - - - -
close 1 = done - - - - - -
bind 2 7 = done - - - - 7 -
close 2 = not - - - - 7 -
bind 2 - = done - - - - - -
raise 2 3 = done - - - 3 - -
close 2 = done - - - - - -
add 3 = done - - - - - -
";

/// Returns whether the call of a line is done or not, and the table agrees with it afterwards.
fn is_row(notifications: &mut Notifications, line: &str) -> bool {
    let Some(row) = row_of(line) else {
        return false;
    };
    let (call, answer) = (row.0, row.2);
    let given = row.1;
    let kept = row.3;
    is_done(notifications, call, notification(given[0]), given[1]) == (answer == "done")
        && is_kept(notifications, 1, [kept[0], kept[1], kept[2]])
        && is_kept(notifications, 2, [kept[3], kept[4], kept[5]])
}

#[test]
fn calls_on_notifications_answer(rt: HostRuntime) -> Result<(), Fail> {
    let mut notifications = Notifications::new(rt.alloc())?;
    for line in CALLS.lines() {
        assert!(rt; is_row(&mut notifications, line), "{line}");
    }
    assert!(rt; notifications.rows().given() == 3);
    Ok(())
}
