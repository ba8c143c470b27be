//! Encodings of values as numbers, each injective for its type.
ghost use Rattle.std.specs.Prelude.{◌≡◌, ◌++◌, OnOk};
ghost use Rattle.mcs_types.specs.Ids.{kind_number};
ghost use Rattle.mcs_explore_rows.specs.Numbers.{block_numbers, cap_numbers, flag_number, id_numbers, letter_numbers, mode_number, number_kept, one, list_numbers, option_numbers, queue_numbers, row_numbers, send_number};

use mcs_threads::{Block, ThreadRow};
use mcs_types::{Cap, Kind, Letter, Mode, ObjId, Queue, SendMode};
use std::alloc::AllocError;

/// A row: the numbers that encode a part of a state.
pub type Row = Vec<u64>;

/// The number of a kind.
pub fn kind_number(kind: Kind) -> u64
    ensures { result ≡ kind_number kind }
{
    match kind {
        Kind::CNode => 0,
        Kind::Thread => 1,
        Kind::Endpoint => 2,
        Kind::Notification => 3,
        Kind::Reply => 4,
        Kind::Context => 5,
    }
}

/// The number of a mode.
fn mode_number(mode: Mode) -> u64
    ensures { result ≡ mode_number mode }
{
    match mode {
        Mode::Running => 0,
        Mode::Restart => 1,
        Mode::Inactive => 2,
    }
}

/// The number of how a message was sent.
pub fn send_number(mode: SendMode) -> u64
    ensures { result ≡ send_number mode }
{
    match mode {
        SendMode::Plain => 0,
        SendMode::Call => 1,
        SendMode::Mute => 2,
        SendMode::Give => 3,
    }
}

/// Adds a number.
pub fn put(row: &mut Row, number: u64) -> Result<(), AllocError>
    ensures { OnOk result (row.new.items ≡ row.old.items ++ one number) }
{
    row.push(number)?;
    Ok(())
}

/// Adds 1 for true, and 0 for false.
pub fn put_flag(row: &mut Row, flag: bool) -> Result<(), AllocError>
    ensures { OnOk result (row.new.items ≡ row.old.items ++ one (flag_number flag)) }
{
    put(row, if flag { 1 } else { 0 })
}

/// Adds an object.
pub fn put_id(row: &mut Row, object: ObjId) -> Result<(), AllocError>
    ensures { OnOk result (row.new.items ≡ row.old.items ++ id_numbers object) }
{
    put(row, kind_number(object.kind))?;
    put(row, object.serial as u64)
}

/// Adds an object, if there is one.
pub fn put_any_id(row: &mut Row, object: Option<ObjId>) -> Result<(), AllocError>
    ensures { OnOk result (row.new.items ≡ row.old.items ++ option_numbers id_numbers object) }
{
    match object {
        Some(object) => {
            put(row, 1)?;
            put_id(row, object)
        }
        None => put(row, 0),
    }
}

/// Adds a capability.
pub fn put_cap(row: &mut Row, cap: &Cap) -> Result<(), AllocError>
    ensures { OnOk result (row.new.items ≡ row.old.items ++ cap_numbers cap.now) }
{
    put_id(row, cap.obj)?;
    put(row, cap.rights.bits() as u64)?;
    put(row, cap.badge.0)?;
    put(row, cap.guard.bits as u64)?;
    put(row, cap.guard.value)
}

/// Adds a queue.
fn put_queue(row: &mut Row, queue: Queue) -> Result<(), AllocError>
    ensures { OnOk result (row.new.items ≡ row.old.items ++ queue_numbers queue) }
{
    match queue {
        Queue::Senders(object) => {
            put(row, 0)?;
            put_id(row, object)
        }
        Queue::Receivers(object) => {
            put(row, 1)?;
            put_id(row, object)
        }
        Queue::Waiters(object) => {
            put(row, 2)?;
            put_id(row, object)
        }
    }
}

/// Adds what blocks a thread.
fn put_block(row: &mut Row, block: Block) -> Result<(), AllocError>
    ensures { OnOk result (row.new.items ≡ row.old.items ++ block_numbers block) }
{
    match block {
        Block::Queued { queue, reply } => {
            put(row, 0)?;
            put_queue(row, queue)?;
            put_any_id(row, reply)
        }
        Block::OnReply { reply } => {
            put(row, 1)?;
            put_id(row, reply)
        }
    }
}

/// Adds what blocks a thread, if anything does.
fn put_any_block(row: &mut Row, block: Option<Block>) -> Result<(), AllocError>
    ensures { OnOk result (row.new.items ≡ row.old.items ++ option_numbers block_numbers block) }
{
    match block {
        Some(block) => {
            put(row, 1)?;
            put_block(row, block)
        }
        None => put(row, 0),
    }
}

/// Adds the numbers of a thread's fields and state to a row.
pub fn put_thread(row: &mut Row, thread: &ThreadRow) -> Result<(), AllocError>
    ensures { OnOk result (row.new.items ≡ row.old.items ++ row_numbers thread.now) }
{
    put(row, thread.maximum.0 as u64)?;
    put(row, thread.priority.0 as u64)?;
    put(row, mode_number(thread.mode))?;
    put_cap(row, &thread.root)?;
    put_any_block(row, thread.block)?;
    put_any_id(row, thread.notification)
}

/// Adds the words of a message.
fn put_words(row: &mut Row, words: &[u64]) -> Result<(), AllocError>
    ensures { OnOk result (row.new.items ≡ row.old.items ++ list_numbers one words.now) }
{
    for word in words {
        put(row, 1)?;
        put(row, *word)?;
    }
    put(row, 0)
}

/// Returns the number of a message; 0 if message numbers are not distinguished.
fn number_kept(letter: &Letter, numbered: bool) -> u64
    ensures { result ≡ number_kept numbered letter.now }
{
    if numbered { letter.number as u64 } else { 0 }
}

/// Adds a message, with its number if message numbers are distinguished.
pub fn put_letter(row: &mut Row, letter: &Letter, numbered: bool) -> Result<(), AllocError>
    ensures { OnOk result (row.new.items ≡ row.old.items ++ letter_numbers numbered letter.now) }
{
    put(row, number_kept(letter, numbered))?;
    put(row, send_number(letter.mode))?;
    put(row, letter.badge.0)?;
    put(row, letter.message.label())?;
    put_id(row, letter.sender)?;
    put_id(row, letter.endpoint)?;
    put_words(row, letter.message.words())
}
