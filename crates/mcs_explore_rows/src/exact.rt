//! The exact rows of a state: if those of two states are equal, no later turn can distinguish the
//! states.
ghost use Rattle.std.specs.Prelude.{ℕ, List, ◌≡◌, ◌+◌, ◌++◌, ◌∷◌, [], IfOk, OnOk, option_copied, map, slice_get};
ghost use Rattle.mcs_book.specs.History.{log_of};
ghost use Rattle.mcs_book.specs.Queues.{queued_in};
ghost use Rattle.mcs_book.specs.Chains.{chain_of};
ghost use Rattle.mcs_explore_rows.specs.Naming.{Adds, Keeps};
ghost use Rattle.mcs_explore_rows.specs.Numbers.{one, list_numbers, option_numbers, id_numbers, letter_numbers, row_numbers, cap_numbers};
ghost use Rattle.mcs_explore_rows.specs.Rows.{cnode_numbers, cnode_rows, context_numbers, core_numbers, count_numbers, endpoint_numbers, head_numbers, kind_numbers, notification_numbers, object_numbers, object_rows, pick_numbers, place_rows, position_numbers, rows_of_kind, NameRows, sent_kept, slots_numbers, choice_list_numbers, choice_rows, thread_numbers};
ghost use Rattle.mcs_turns.specs.Due.{choices};
ghost use Rattle.mcs_turns.specs.Turns.{ArePicks};

use crate::interner::{Numbers, RowInterner};
use crate::numbers::{Row, put, put_any_id, put_cap, put_flag, put_id, put_letter, put_thread};
use mcs_explore_walk::{Picks, Users, Walk, picked};
use mcs_kernel::Kernel;
use mcs_queues::Lines;
use mcs_threads::ThreadRow;
use mcs_turns::{Pick, Position};
use mcs_types::{Cap, CoreId, Kind, Letter, ObjId, OutOfMemory, Queue};
use std::alloc::{AllocError, Global};

/// Adds the threads of a queue, first to last.
fn put_queue<L: Lines>(row: &mut Row, kernel: &Kernel<L>, queue: Queue) -> Result<(), AllocError>
    ensures { OnOk result (row.new.items
        ≡ row.old.items ++ list_numbers id_numbers (queued_in (log_of kernel.now) queue)) }
{
    for thread in kernel.queue(queue) {
        put(row, 1)?;
        put_id(row, thread)?;
    }
    put(row, 0)
}

/// Adds the chain of a context, from the top.
fn put_chain<L: Lines>(row: &mut Row, kernel: &Kernel<L>, context: ObjId) -> Result<(), AllocError>
    ensures { OnOk result (row.new.items
        ≡ row.old.items ++ list_numbers id_numbers (chain_of (log_of kernel.now) context)) }
{
    for reply in kernel.chain(context) {
        put(row, 1)?;
        put_id(row, reply)?;
    }
    put(row, 0)
}

/// Adds a number, if there is one.
fn put_any(row: &mut Row, number: Option<u64>) -> Result<(), AllocError>
    ensures { OnOk result (row.new.items ≡ row.old.items ++ option_numbers one number) }
{
    match number {
        Some(number) => {
            put(row, 1)?;
            put(row, number)
        }
        None => put(row, 0),
    }
}

/// Adds a core, if there is one.
fn put_any_core(row: &mut Row, core: Option<CoreId>) -> Result<(), AllocError>
    ensures { OnOk result (row.new.items ≡ row.old.items ++ option_numbers core_numbers core) }
{
    match core {
        Some(core) => {
            put(row, 1)?;
            put(row, core.0 as u64)
        }
        None => put(row, 0),
    }
}

/// Adds a capability, if there is one.
fn put_any_cap(row: &mut Row, cap: Option<Cap>) -> Result<(), AllocError>
    ensures { OnOk result (row.new.items ≡ row.old.items ++ option_numbers cap_numbers cap) }
{
    match cap {
        Some(cap) => {
            put(row, 1)?;
            put_cap(row, &cap)
        }
        None => put(row, 0),
    }
}

/// Adds the row of a thread, if it exists.
fn put_any_thread(row: &mut Row, thread: Option<&ThreadRow>) -> Result<(), AllocError>
    ensures { OnOk result (row.new.items
        ≡ row.old.items ++ option_numbers row_numbers (option_copied thread.entry)) }
{
    match thread {
        Some(thread) => {
            put(row, 1)?;
            put_thread(row, thread)
        }
        None => put(row, 0),
    }
}

/// Adds a message, if there is one.
fn put_any_letter(row: &mut Row, letter: Option<&Letter>, numbered: bool) -> Result<(), AllocError>
    ensures { OnOk result (row.new.items
        ≡ row.old.items ++ option_numbers (letter_numbers numbered) (option_copied letter.entry)) }
{
    match letter {
        Some(letter) => {
            put(row, 1)?;
            put_letter(row, letter, numbered)
        }
        None => put(row, 0),
    }
}

/// Adds the slots of a CNode below an index.
fn put_slots<L: Lines>(
    row: &mut Row,
    kernel: &Kernel<L>,
    cnode: ObjId,
    last: u8,
) -> Result<(), AllocError>
    ensures { OnOk result (row.new.items
        ≡ row.old.items ++ slots_numbers (log_of kernel.now) cnode (last + 1)) }
{
    for index in 0..=last {
        put_any_cap(row, kernel.capability(cnode, index))?;
    }
    Ok(())
}

/// Adds the radix of a CNode and its slots.
fn put_cnode<L: Lines>(row: &mut Row, kernel: &Kernel<L>, cnode: ObjId) -> Result<(), AllocError>
    ensures { OnOk result (row.new.items
        ≡ row.old.items ++ cnode_numbers (log_of kernel.now) cnode) }
{
    put(row, kernel.radix(cnode) as u64)?;
    put_slots(row, kernel, cnode, u8::MAX)
}

/// Adds what is kept of a thread, and its message that no thread has received.
fn put_runner<L: Lines>(
    row: &mut Row,
    kernel: &Kernel<L>,
    thread: ObjId,
    numbered: bool,
) -> Result<(), AllocError>
    ensures { OnOk result (row.new.items
        ≡ row.old.items ++ thread_numbers numbered (log_of kernel.now) thread) }
{
    put_any_thread(row, kernel.thread(thread))?;
    put_any_letter(row, kernel.open(thread), numbered)
}

/// Adds the threads in both queues of an endpoint.
fn put_endpoint<L: Lines>(
    row: &mut Row,
    kernel: &Kernel<L>,
    endpoint: ObjId,
) -> Result<(), AllocError>
    ensures { OnOk result (row.new.items
        ≡ row.old.items ++ endpoint_numbers (log_of kernel.now) endpoint) }
{
    put_queue(row, kernel, Queue::Senders(endpoint))?;
    put_queue(row, kernel, Queue::Receivers(endpoint))
}

/// Adds the waiters of a notification and its pending word to the row.
fn put_notification<L: Lines>(
    row: &mut Row,
    kernel: &Kernel<L>,
    notification: ObjId,
) -> Result<(), AllocError>
    ensures { OnOk result (row.new.items
        ≡ row.old.items ++ notification_numbers (log_of kernel.now) notification) }
{
    put_queue(row, kernel, Queue::Waiters(notification))?;
    put_any(row, kernel.word(notification))
}

/// Adds the core of a context, its holder, its home and its chain.
fn put_context<L: Lines>(
    row: &mut Row,
    kernel: &Kernel<L>,
    context: ObjId,
) -> Result<(), AllocError>
    ensures { OnOk result (row.new.items
        ≡ row.old.items ++ context_numbers (log_of kernel.now) context) }
{
    put_any_core(row, kernel.core(context))?;
    put_any_id(row, kernel.holder(context))?;
    put_any_id(row, kernel.home(context))?;
    put_chain(row, kernel, context)
}

/// Adds the state of an object, by its kind.
fn put_kind<L: Lines>(
    row: &mut Row,
    kernel: &Kernel<L>,
    object: ObjId,
    numbered: bool,
) -> Result<(), AllocError>
    ensures { OnOk result (row.new.items
        ≡ row.old.items ++ kind_numbers numbered (log_of kernel.now) object.kind object) }
{
    match object.kind {
        Kind::CNode => put_cnode(row, kernel, object),
        Kind::Thread => put_runner(row, kernel, object, numbered),
        Kind::Endpoint => put_endpoint(row, kernel, object),
        Kind::Notification => put_notification(row, kernel, object),
        Kind::Reply => put_any_id(row, kernel.owed(object)),
        Kind::Context => put_context(row, kernel, object),
    }
}

/// Adds whether an object is there, and how many slots hold a capability to it, if users change
/// slots.
fn put_head<L: Lines>(
    row: &mut Row,
    kernel: &Kernel<L>,
    object: ObjId,
    changing: bool,
) -> Result<(), AllocError>
    ensures { OnOk result (row.new.items
        ≡ row.old.items ++ head_numbers changing (log_of kernel.now) object) }
{
    if !changing {
        return Ok(());
    }
    put_flag(row, kernel.is_there(object))?;
    put(row, kernel.held(object) as u64)
}

/// How many numbers a row has room for before it grows.
const ROOM: usize = 32;

/// Returns the row of an object.
fn object_row<L: Lines>(
    alloc: Global,
    kernel: &Kernel<L>,
    object: ObjId,
    changing: bool,
    numbered: bool,
) -> Result<Row, AllocError>
    ensures { IfOk result (λ r. r.items
        ≡ object_numbers changing numbered (log_of kernel.now) object) }
{
    let mut row = Vec::with_capacity(alloc, ROOM)?;
    put_head(&mut row, kernel, object, changing)?;
    put_kind(&mut row, kernel, object, numbered)?;
    Ok(row)
}

/// Returns how many messages were sent; 0 if message numbers are not distinguished.
fn sent_kept<L: Lines>(kernel: &Kernel<L>, numbered: bool) -> u64
    ensures { result ≡ sent_kept numbered (log_of kernel.now) }
{
    if numbered { kernel.sent() as u64 } else { 0 }
}

/// Returns the row of the counters.
fn count_row<L: Lines>(alloc: Global, kernel: &Kernel<L>, numbered: bool) -> Result<Row, AllocError>
    ensures { IfOk result (λ r. r.items ≡ count_numbers numbered (log_of kernel.now)) }
{
    let mut row = Vec::with_capacity(alloc, 7)?;
    put(&mut row, sent_kept(kernel, numbered))?;
    put(&mut row, kernel.made(Kind::CNode) as u64)?;
    put(&mut row, kernel.made(Kind::Thread) as u64)?;
    put(&mut row, kernel.made(Kind::Endpoint) as u64)?;
    put(&mut row, kernel.made(Kind::Notification) as u64)?;
    put(&mut row, kernel.made(Kind::Reply) as u64)?;
    put(&mut row, kernel.made(Kind::Context) as u64)?;
    Ok(row)
}

/// Adds the position of a user.
fn put_position(row: &mut Row, position: Position) -> Result<(), AllocError>
    ensures { OnOk result (row.new.items ≡ row.old.items ++ position_numbers position) }
{
    put(row, position.next as u64)?;
    put(row, position.saved.a)?;
    put(row, position.saved.b)?;
    put(row, position.saved.c)?;
    put(row, position.saved.d)?;
    match position.waited {
        Some(number) => put_any(row, Some(number as u64)),
        None => put_any(row, None),
    }
}

/// Adds picks.
fn put_picks(row: &mut Row, picks: &[Pick]) -> Result<(), AllocError>
    ensures { OnOk result (row.new.items
        ≡ row.old.items ++ list_numbers pick_numbers picks.now) }
{
    for pick in picks {
        put(row, 1)?;
        put(row, pick.user as u64)?;
        put(row, pick.number as u64)?;
    }
    put(row, 0)
}

/// Adds the position of a user, if there is one.
fn put_any_position(row: &mut Row, position: Option<Position>) -> Result<(), AllocError>
    ensures { OnOk result (row.new.items
        ≡ row.old.items ++ option_numbers position_numbers position) }
{
    match position {
        Some(position) => {
            put(row, 1)?;
            put_position(row, position)
        }
        None => put(row, 0),
    }
}

/// Adds the choices of a core: these picks and its stale ones, if it has a list of stale picks.
fn put_any_choices(
    alloc: Global,
    row: &mut Row,
    picks: &[Pick],
    stale: Option<&Picks>,
) -> Result<(), OutOfMemory>
    ensures { OnOk result (row.new.items
        ≡ row.old.items
        ++ option_numbers (choice_list_numbers picks.now) (option_copied stale.entry)) }
{
    match stale {
        Some(stale) => {
            put(row, 1)?;
            let choices = stale.with(alloc, picks)?;
            put_picks(row, choices.as_slice())?;
        }
        None => put(row, 0)?,
    }
    Ok(())
}

/// Returns the row of the position of a user.
fn place_row<L: Lines>(alloc: Global, walk: &Walk<L>, user: usize) -> Result<Row, AllocError>
    ensures { IfOk result (λ r. r.items
        ≡ option_numbers position_numbers (slice_get walk.now.places user)) }
{
    let mut row = Vec::with_capacity(alloc, ROOM)?;
    put_any_position(&mut row, walk.place(user))?;
    Ok(row)
}

/// Appends a row for the position of each user.
fn put_places<L: Lines>(
    alloc: Global,
    met: &mut RowInterner,
    numbers: &mut Numbers,
    users: &Users,
    walk: &Walk<L>,
) -> Result<(), OutOfMemory>
    ensures named { OnOk result (Adds met.old numbers.old.items met.new numbers.new.items
        (place_rows users.now walk.now)) }
    ensures kept { Keeps met.old met.new }
{
    for user in 0..users.lists().len() {
        let row = place_row(alloc, walk, user)?;
        met.put(numbers, row)?;
    }
    Ok(())
}

/// Returns the row of what a core may enter, where the cores have these picks.
fn choice_row<L: Lines>(
    alloc: Global,
    walk: &Walk<L>,
    picks: &[Picks],
    core: u8,
) -> Result<Row, OutOfMemory>
    ensures { IfOk result (λ r. r.items ≡ option_numbers (list_numbers pick_numbers)
        (slice_get (choices picks.now walk.now.stale) core)) }
{
    let mut row = Vec::with_capacity(alloc, ROOM)?;
    let picks = picked(picks, core as usize);
    put_any_choices(alloc, &mut row, picks, walk.stale(CoreId(core)))?;
    Ok(row)
}

/// Adds a row for what each core may enter, where the cores have these picks.
fn put_choices<L: Lines>(
    alloc: Global,
    met: &mut RowInterner,
    numbers: &mut Numbers,
    walk: &Walk<L>,
    picks: &[Picks],
) -> Result<(), OutOfMemory>
    ensures named { OnOk result (Adds met.old numbers.old.items met.new numbers.new.items
        (choice_rows walk.now picks.now)) }
    ensures kept { Keeps met.old met.new }
{
    for core in 0..walk.kernel().book().cores() {
        let row = choice_row(alloc, walk, picks, core)?;
        met.put(numbers, row)?;
    }
    Ok(())
}

/// Adds the rows of all objects of a kind.
fn put_rows<L: Lines>(
    alloc: Global,
    met: &mut RowInterner,
    numbers: &mut Numbers,
    kernel: &Kernel<L>,
    kind: Kind,
    changing: bool,
    numbered: bool,
) -> Result<(), OutOfMemory>
    ensures named { OnOk result (Adds met.old numbers.old.items met.new numbers.new.items
        (rows_of_kind changing numbered (log_of kernel.now) kind)) }
    ensures kept { Keeps met.old met.new }
{
    for place in 0..kernel.made(kind) {
        let object = ObjId {
            kind,
            serial: place + 1,
        };
        let row = object_row(alloc, kernel, object, changing, numbered)?;
        met.put(numbers, row)?;
    }
    Ok(())
}

/// Adds the rows of the CNodes, if users change slots.
fn put_cnodes<L: Lines>(
    alloc: Global,
    met: &mut RowInterner,
    numbers: &mut Numbers,
    kernel: &Kernel<L>,
    changing: bool,
    numbered: bool,
) -> Result<(), OutOfMemory>
    ensures named { OnOk result (Adds met.old numbers.old.items met.new numbers.new.items
        (cnode_rows changing numbered (log_of kernel.now))) }
    ensures kept { Keeps met.old met.new }
{
    if changing {
        return put_rows(alloc, met, numbers, kernel, Kind::CNode, true, numbered);
    }
    Ok(())
}

/// Adds the rows of all objects, those of CNodes only if users change slots.
fn put_objects<L: Lines>(
    alloc: Global,
    met: &mut RowInterner,
    numbers: &mut Numbers,
    kernel: &Kernel<L>,
    changing: bool,
    numbered: bool,
) -> Result<(), OutOfMemory>
    ensures named { OnOk result (Adds met.old numbers.old.items met.new numbers.new.items
        (object_rows changing numbered (log_of kernel.now))) }
    ensures kept { Keeps met.old met.new }
{
    put_cnodes(alloc, met, numbers, kernel, changing, numbered)?;
    put_rows(
        alloc,
        met,
        numbers,
        kernel,
        Kind::Thread,
        changing,
        numbered,
    )?;
    put_rows(
        alloc,
        met,
        numbers,
        kernel,
        Kind::Endpoint,
        changing,
        numbered,
    )?;
    put_rows(
        alloc,
        met,
        numbers,
        kernel,
        Kind::Notification,
        changing,
        numbered,
    )?;
    put_rows(alloc, met, numbers, kernel, Kind::Reply, changing, numbered)?;
    put_rows(
        alloc,
        met,
        numbers,
        kernel,
        Kind::Context,
        changing,
        numbered,
    )?;
    Ok(())
}

/// Returns the number in `met` of each row of a state, given the picks of its cores. Interns new
/// rows; the others keep their numbers. `numbered` says whether rows contain message numbers.
/// `OutOfMemory` if an allocation fails.
pub fn exact_numbers<L: Lines>(
    alloc: Global,
    met: &mut RowInterner,
    users: &Users,
    walk: &Walk<L>,
    picks: &[Picks],
    numbered: bool,
) -> Result<Numbers, OutOfMemory>
    requires { ArePicks users.now walk.now picks.now }
    ensures named { IfOk result (λ k. NameRows numbered met.new users.now walk.now k.items) }
    ensures kept { Keeps met.old met.new }
{
    let kernel = walk.kernel();
    let mut numbers = Vec::new(alloc);
    let counts = count_row(alloc, kernel, numbered)?;
    met.put(&mut numbers, counts)?;
    put_places(alloc, met, &mut numbers, users, walk)?;
    put_choices(alloc, met, &mut numbers, walk, picks)?;
    let changing = users.change_slots();
    put_objects(alloc, met, &mut numbers, kernel, changing, numbered)?;
    Ok(numbers)
}
