//! Boots as texts, and replays of texts.
use crate::tests::streams::run;
use mcs_book::Book;
use mcs_kernel::Boot;
use mcs_sim::{ReplayRun, Sink, trace};
use mcs_types::{Badge, Kind, Mail, ObjId};
use std::alloc::Global;
use std::test::Fail;

/// One core, a CNode, two endpoints, one with a badged capability to send, and two threads of
/// priorities 10 and 20 with capabilities to each other.
pub const ONE_CORE: &str = "\
cores 1
cnode 5
endpoint
endpoint
reply
reply
context 0
context 0
thread 10 255 c1 59 0 run s1
thread 20 255 c1 59 0 run s2
slot c1 1 e1 w 9
slot c1 2 e1 rwgp 0
slot c1 3 e2 rwgp 0
slot c1 8 r1
slot c1 9 r2
slot c1 11 t1
slot c1 12 t2
";

/// Five threads on a core each, and an endpoint.
pub const FIVE_CORES: &str = "\
cores 5
cnode 5
endpoint
reply
context 0
context 1
context 2
context 3
context 4
thread 10 255 c1 59 0 run s1
thread 20 255 c1 59 0 run s2
thread 10 255 c1 59 0 run s3
thread 20 255 c1 59 0 run s4
thread 30 255 c1 59 0 run s5
slot c1 1 e1 w 9
slot c1 2 e1 rwgp 0
slot c1 8 r1
";

/// A thread on each of two cores, and a capability to the first.
pub const TWO_CORES: &str = "\
cores 2
cnode 4
context 0
context 1
thread 10 255 c1 60 0 run s1
thread 10 255 c1 60 0 run s2
slot c1 1 t1
";

/// The same, with a free context of the second core, and capabilities to the first context, the
/// second thread and the free context.
pub const FREE_CONTEXT: &str = "\
cores 2
cnode 4
context 0
context 1
context 1
thread 10 255 c1 60 0 run s1
thread 10 255 c1 60 0 run s2
slot c1 1 t1
slot c1 2 s1
slot c1 3 t2
slot c1 4 s3
";

/// A CNode, an endpoint, a reply object, a notification, and five threads with a context each.
pub const FIVE_THREADS: &str = "\
cores 1
cnode 5
endpoint
reply
notification
context 0
thread 10 255 c1 59 0 run s1
context 0
thread 20 255 c1 59 0 run s2
context 0
thread 10 255 c1 59 0 run s3
context 0
thread 20 255 c1 59 0 run s4
context 0
thread 30 255 c1 59 0 run s5
slot c1 1 e1 w 9
slot c1 2 e1 rwgp 0
slot c1 4 n1 rw 5
slot c1 8 r1
slot c1 12 t2
slot c1 13 s2
";

/// Two cores, four contexts, and five threads, one without a context and one inactive.
pub const LOOSE_THREADS: &str = "\
cores 2
cnode 5
context 0
context 1
context 1
context 0
thread 10 255 c1 59 0 run s1
thread 30 255 c1 59 0 run s2
thread 20 255 c1 59 0 run s3
thread 40 255 c1 59 0 run -
thread 50 255 c1 59 0 stop s4
";

/// A CNode, two endpoints, five threads with a context each, and capabilities to them.
pub const BOOT: &str = "\
cores 1
cnode 5
endpoint
endpoint
notification
reply
reply
context 0
context 0
context 0
context 0
context 0
thread 10 255 c1 59 0 run s1
thread 20 255 c1 59 0 run s2
thread 10 255 c1 59 0 run s3
thread 20 255 c1 59 0 run s4
thread 30 255 c1 59 0 run s5
slot c1 1 e1 w 9
slot c1 2 e1 rwgp 0
slot c1 3 e2 rwgp 0
slot c1 4 n1 rw 0
slot c1 5 n1 w 1
slot c1 6 n1 w 2
slot c1 7 n1 w 4
slot c1 8 r1
slot c1 9 r2
slot c1 11 t1
slot c1 12 t2
slot c1 13 t3
slot c1 14 t4
slot c1 15 t5
slot c1 21 s1
slot c1 22 s2
slot c1 23 s3
slot c1 24 s4
slot c1 25 s5
";

pub fn thread(serial: u32) -> ObjId {
    ObjId {
        kind: Kind::Thread,
        serial,
    }
}

/// The value for `-`, and for a missing number.
pub const NONE: u32 = u32::MAX;

/// Returns the numbers of a text, one a word.
pub fn numbers(text: &str) -> [u32; 12] {
    let mut all = [NONE; 12];
    let mut words = text.split_whitespace();
    for place in &mut all {
        if let Some(word) = words.next() {
            *place = word.parse::<u32>().unwrap_or(NONE);
        }
    }
    all
}

/// Appends `count` copies of a piece to a text.
pub fn add_pieces(text: &mut Vec<u8>, piece: &str, count: u32) -> Result<(), Fail> {
    for _ in 0..count {
        text.extend_from_slice(piece.as_bytes())?;
    }
    Ok(())
}

/// Returns a text, `count` pieces, and an end.
pub fn repeated(
    alloc: Global,
    (text, piece, count, end): (&str, &str, u32, &str),
) -> Result<Vec<u8>, Fail> {
    let mut all = Vec::from_slice(alloc, text.as_bytes())?;
    add_pieces(&mut all, piece, count)?;
    all.extend_from_slice(end.as_bytes())?;
    Ok(all)
}

/// Returns how often these words are in a text.
pub fn occurrences(text: &[u8], words: &[u8]) -> usize {
    let parts = text.windows(words.len().max(1));
    parts.filter(|part| *part == words).count()
}

/// The replay of a script without fault.
pub fn replay_of(alloc: Global, script: &str) -> Result<ReplayRun, Fail> {
    let mut run = ReplayRun::new(alloc)?;
    if run.feed(alloc, script.as_bytes()).is_ok() && run.end(alloc).is_ok() {
        Ok(run)
    } else {
        Err(Fail::from("the script is read"))
    }
}

/// Adds the lines of a book's boot.
fn add_boot(boot: &mut Boot, book: &Book) -> Result<(), Fail> {
    for line in book.boot() {
        boot.add(*line)?;
    }
    Ok(())
}

/// The boot of a book.
pub fn boot_of(alloc: Global, book: &Book) -> Result<Boot, Fail> {
    let mut boot = Boot::new(alloc, book.cores())?;
    add_boot(&mut boot, book)?;
    Ok(boot)
}

/// The boot of a script.
pub fn boot_of_script(alloc: Global, script: &str) -> Result<Boot, Fail> {
    let replay = replay_of(alloc, script)?;
    match replay.book() {
        Some(book) => boot_of(alloc, book),
        None => Err(Fail::from("a book")),
    }
}

/// The trace of a book.
pub fn trace_of(alloc: Global, book: &Book) -> Result<Vec<u8>, Fail> {
    let mut written = Vec::new(alloc);
    trace(book, &mut Sink::new(alloc, &mut written)?)?;
    Ok(written)
}

/// Returns whether a trace replays to itself.
pub fn gives_itself(alloc: Global, trace: &[u8]) -> bool {
    let (result, written) = run(alloc, trace);
    result.is_ok() && written.as_slice() == trace
}

/// Returns whether a book has this trace after its boot, and the trace replays to itself.
pub fn has_trace(alloc: Global, book: &Book, boot: &str, trace: &str) -> Result<bool, Fail> {
    let want = format!(in alloc; "{boot}{trace}")?;
    let written = trace_of(alloc, book)?;
    Ok(written.as_slice() == want.as_bytes() && gives_itself(alloc, &written))
}

/// Returns whether this message reached a thread: badge 9, label 7, words 5 and 6.
pub fn is_mail(mail: Option<&Mail>) -> bool {
    match mail {
        Some(Mail::Message { badge, message }) => {
            *badge == Badge(9) && message.label() == 7 && message.words() == [5, 6].as_slice()
        }
        _ => false,
    }
}

/// Returns a number as a byte; the greatest byte if it does not fit.
pub fn byte(number: u32) -> u8 {
    match u8::try_from(number) {
        Ok(byte) => byte,
        Err(_) => u8::MAX,
    }
}
