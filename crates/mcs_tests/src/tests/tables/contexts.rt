//! The table of scheduling contexts.
use super::names::{context, notification, thread};
use super::rows::{done, named, row_of, word_of};
use crate::tests::texts::{NONE, byte};
use mcs_contexts::Contexts;
use mcs_types::{CoreId, Kind, ObjId, Refusal};
use std::test::Fail;

/// Adds a context if there is room. Returns whether it has this serial.
fn add_context(contexts: &mut Contexts, core: u8, serial: u32) -> bool {
    !contexts.rows().is_full() && contexts.add(CoreId(core)) == context(serial)
}

/// Closes a context that no thread holds and that is homed nowhere. Returns whether it was one.
fn close_context(contexts: &mut Contexts, id: ObjId) -> bool {
    if contexts.holder(id).is_some() || contexts.home_of(id).is_some() {
        return false;
    }
    if contexts.core(id).is_none() {
        return false;
    }
    contexts.close(id);
    true
}

/// Gives an existing context to a thread that may hold it and holds none, or to no thread. Returns
/// whether it did.
fn give_context(contexts: &mut Contexts, id: ObjId, serial: u32) -> bool {
    if contexts.core(id).is_none() {
        return false;
    }
    if serial == NONE {
        contexts.give(id, None);
        return true;
    }
    let thread = ObjId {
        kind: Kind::Thread,
        serial,
    };
    if serial == 0 || serial > 256 || contexts.of(thread).is_some() {
        return false;
    }
    contexts.give(id, Some(thread));
    true
}

/// Returns whether a call is done, or its refusal.
fn on(contexts: &mut Contexts, call: &str, one: u32, two: u32) -> Result<bool, Refusal> {
    match call {
        "add" => Ok(add_context(contexts, byte(one), two)),
        "bind" => done(contexts.bind(context(one), thread(two))),
        "unbind" => done(contexts.unbind(context(one))),
        "home" => done(contexts.home(context(one), notification(two))),
        "unhome" => done(contexts.unhome(context(one))),
        "wake" => Ok(contexts.wake(context(one), thread(two))),
        "lend" => Ok(contexts.lend(thread(one), thread(two))),
        "give" => Ok(give_context(contexts, context(one), two)),
        _ => Ok(close_context(contexts, context(one))),
    }
}

/// Returns whether a context has this core, holder and home, and its holder has the context.
fn is_kept(contexts: &Contexts, serial: u32, kept: [u32; 3]) -> bool {
    let id = context(serial);
    let Some(core) = contexts.core(id) else {
        return kept[0] == NONE;
    };
    let holder = named(Kind::Thread, kept[1]);
    let is_held = match holder {
        Some(thread) => contexts.of(thread) == Some(id),
        None => true,
    };
    is_held
        && core == CoreId(byte(kept[0]))
        && contexts.holder(id) == holder
        && contexts.home_of(id) == named(Kind::Notification, kept[2])
}

/// Calls, their results, and then the core, the holder and the home of the first two contexts. A
/// context of a core is made, with this serial; bound to a thread, unbound, homed at a
/// notification, unhomed, woken for a thread, given to a thread or to none, closed; or that of a
/// thread is lent to another. It is not woken if it is held, its thread holds one, or there is no
/// such thread.
const CALLS: &str = "\
home 1 1 = missing - - - - - -
wake 1 1 = not - - - - - -
add 3 1 = done 3 - - - - -
bind 2 1 = missing 3 - - - - -
bind 1 257 = range 3 - - - - -
bind 1 1 = done 3 1 - - - -
bind 1 256 = bound 3 1 - - - -
lend 1 257 = not 3 1 - - - -
lend 1 256 = done 3 256 - - - -
lend 1 256 = not 3 256 - - - -
close 1 = not 3 256 - - - -
unbind 1 = done 3 - - - - -
unbind 1 = free 3 - - - - -
give 1 2 = done 3 2 - - - -
give 1 2 = not 3 2 - - - -
give 1 3 = done 3 3 - - - -
give 1 - = done 3 - - - - -
give 2 - = not 3 - - - - -
add 0 2 = done 3 - - 0 - -
unhome 1 = free 3 - - 0 - -
home 1 1 = done 3 - 1 0 - -
home 1 2 = bound 3 - 1 0 - -
bind 1 1 = bound 3 - 1 0 - -
wake 1 1 = done 3 1 1 0 - -
wake 1 2 = not 3 1 1 0 - -
wake 2 1 = not 3 1 1 0 - -
wake 2 257 = not 3 1 1 0 - -
wake 2 2 = done 3 1 1 0 2 -
unbind 1 = done 3 - 1 0 2 -
close 1 = not 3 - 1 0 2 -
unhome 1 = done 3 - - 0 2 -
close 1 = done - - - 0 2 -
wake 1 1 = not - - - 0 2 -
close 1 = not - - - 0 2 -
unbind 2 = done - - - 0 - -
close 2 = done - - - - - -
unbind 2 = free - - - - - -
";

/// Returns whether the call of a line has its result, and the table agrees with it afterwards.
fn is_row(contexts: &mut Contexts, line: &str) -> bool {
    let Some(row) = row_of(line) else {
        return false;
    };
    let (call, answer) = (row.0, row.2);
    let given = row.1;
    let kept = row.3;
    word_of(on(contexts, call, given[0], given[1])) == answer
        && is_kept(contexts, 1, [kept[0], kept[1], kept[2]])
        && is_kept(contexts, 2, [kept[3], kept[4], kept[5]])
}

#[test]
fn calls_on_contexts_answer(rt: HostRuntime) -> Result<(), Fail> {
    let mut contexts = Contexts::new(rt.alloc())?;
    for line in CALLS.lines() {
        assert!(rt; is_row(&mut contexts, line), "{line}");
    }
    contexts.is_one_to_one();
    assert!(rt; contexts.of(thread(1)).is_none() && contexts.rows().given() == 2);
    Ok(())
}
