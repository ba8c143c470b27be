//! The threads that the user asks for, by names or ids.
use crate::labels::put_name;
use crate::script_names::ScriptNames;
use crate::texts::take_text;
use mcs_lab_check::{Judge, Labels, Named, object_of};
use mcs_lab_inspect::TextBuffer;
use mcs_types::{Kind, ObjId};
use std::alloc::{AllocError, Global};

/// How many threads a message lists at most.
const MOST: u32 = 8;

/// Why a list of threads is refused.
#[derive(Drop)]
pub enum NoThreads<'a> {
    /// This word is no name or id of a thread; `there` lists those that exist, at most eight.
    Word { word: &'a str, there: String },
    /// Memory was refused.
    OutOfMemory,
}

impl From<AllocError> for NoThreads<'_> {
    fn from(_error: AllocError) -> Self {
        NoThreads::OutOfMemory
    }
}

/// Returns how many threads a script has.
fn count_of(judge: &Judge) -> u32 {
    match judge.kernel() {
        Some(kernel) => kernel.made(Kind::Thread),
        None => 0,
    }
}

/// Returns the object with this id, or the only one with this name.
fn object_named(names: &Labels, word: &[u8]) -> Option<ObjId> {
    if let Some(object) = object_of(word) {
        return Some(object);
    }
    match names.find(word) {
        Named::One(object) => Some(object),
        Named::Nothing | Named::Several => None,
    }
}

/// Returns the thread that a word names, among `count` threads.
fn thread_of(names: &Labels, count: u32, word: &[u8]) -> Option<ObjId> {
    let object = object_named(names, word)?;
    let place = object.place(Kind::Thread)?;
    if place < count as usize {
        Some(object)
    } else {
        None
    }
}

/// Returns the names of the first threads, separated by commas.
fn names_of(alloc: Global, names: &Labels, count: u32) -> Result<String, AllocError> {
    let mut page = TextBuffer::new(alloc)?;
    for before in 0..count.min(MOST) {
        if before > 0 {
            page.put(b", ");
        }
        let thread = ObjId {
            kind: Kind::Thread,
            serial: before + 1,
        };
        put_name(&mut page, &ScriptNames(names), thread);
    }
    if count > MOST {
        page.put(b", ..");
    }
    take_text(alloc, &mut page)
}

/// Adds a thread to a list.
fn add(threads: &mut Vec<ObjId>, thread: ObjId) -> Result<(), AllocError> {
    threads.push(thread)?;
    Ok(())
}

/// Returns the threads of a list of names and ids separated by commas, in its order. Fault `Word`
/// if a word names no thread of the script.
pub fn threads_named<'a>(
    alloc: Global,
    judge: &Judge,
    names: &Labels,
    words: &'a str,
) -> Result<Vec<ObjId>, NoThreads<'a>> {
    let count = count_of(judge);
    let mut threads = Vec::new(alloc);
    for word in words.split(',') {
        match thread_of(names, count, word.as_bytes()) {
            Some(thread) => add(&mut threads, thread)?,
            None => {
                let there = names_of(alloc, names, count)?;
                return Err(NoThreads::Word { word, there });
            }
        }
    }
    Ok(threads)
}
