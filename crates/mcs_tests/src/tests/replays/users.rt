//! Scripts of users, and endless lines: a fault is reported as soon as it is read.
use crate::tests::streams::{Output, pipe, pipe_users};
use crate::tests::texts::{BOOT, NONE, byte, numbers, repeated};
use mcs_sim::{Open, SimFault, Source};
use std::alloc::AllocGlobal;
use std::io::{self, Read};
use std::sync::Wait;
use std::test::Fail;
use std::thread::Threads;

/// A reader of a text, a line with each read, and then of one letter for ever; it counts the reads.
#[derive(Drop)]
struct Endless<'a> {
    text: &'a [u8],
    reads: u32,
}

impl<'a> Read for Endless<'a> {
    fn read(&mut self, buf: &mut [u8]) -> io::Result<usize> {
        self.reads = self.reads.saturating_add(1);
        if self.text.is_empty() {
            buf.fill(b'x');
            return Ok(buf.len());
        }
        let length = match self.text.iter().position(|byte| *byte == b'\n') {
            None => self.text.len(),
            Some(end) => end.saturating_add(1),
        };
        let count = buf.len().min(length);
        self.text.read(&mut buf[..count])
    }
}

/// Returns whether a text followed by an endless line ends, as a script of users and of steps, with
/// this fault at this line, after this many reads, and writes nothing.
fn ends<R: AllocGlobal + Threads + Wait + Sync>(
    rt: &R,
    text: &[u8],
    users: Option<Option<u8>>,
    (line, number): (u32, u32),
    reads: u32,
) -> bool {
    let mut input = Endless { text, reads: 0 };
    let mut output = Output::new(rt.alloc());
    let result = match users {
        Some(cores) => {
            let mut source = Source::new(&mut input);
            let (result, _) = pipe_users(rt, &mut source, &mut output, cores, &Open);
            result
        }
        None => pipe(rt.alloc(), &mut input, &mut output),
    };
    let is_reported = match result {
        Err(
            SimFault::Script {
                line: observed,
                why,
            },
        ) => { observed == u64::from(line) && u32::from(why.number()) == number }
        _ => false,
    };
    is_reported && output.taken.is_empty() && input.reads == reads
}

/// Texts, the number of the endless line, and the number of reads up to its 4,097th byte: one for
/// each line of the text, of which the boot has 36, and two of 4,096 bytes.
const ENDLESS: &[(&str, u32, u32)] = &[("", 1, 2), ("cores 1\n", 2, 3), (BOOT, 37, 38)];

#[test]
fn an_endless_line_is_reported_at_its_4097th_byte(rt: HostRuntime) {
    for &(text, line, reads) in ENDLESS {
        for users in [Some(None), None] {
            assert!(rt;
                ends(&rt, text.as_bytes(), users, (line, 7), reads),
                "line {line}"
            );
        }
    }
}

/// The faulty line of a script of users, its fault, and the number of cores asked for; then the
/// lines after the boot, each ended by `;`.
const FAULTS: &str = "\
1 3 2: #;
37 2 -: nonsense;
37 2 -: 0 t1 nbsend 1 7;
37 2 -: user t1;
37 2 -: user t1 nbsend;
37 2 -: user 1 nbsend 1 7;
37 2 -: users t1 nbsend 1 7;
37 6 -: cores 1;
37 2 -: endpoint 1;
37 3 -: slot c1 32 e1 w 9;
37 3 -: user t1 setprio 11 11 256;
37 4 -: user t6 nbsend 1 7;
38 8 -: user t1 nbsend 1 7;endpoint;
38 2 -: user t1 nbsend 1 7;user t1 send;
39 3 -: #;;user t1 setprio 11 11 256;
";

/// Returns whether the lines of a row end a run with its fault after this many lines were read.
fn is_faulty<R: AllocGlobal + Threads + Wait + Sync>(rt: &R, row: &str) -> Result<bool, Fail> {
    let Some((head, lines)) = row.split_once(": ") else {
        return Ok(false);
    };
    let head = numbers(head);
    let mut script = repeated(rt.alloc(), (BOOT, lines, 1, ""))?;
    for byte in script.iter_mut() {
        if *byte == b';' {
            *byte = b'\n';
        }
    }
    let cores = if head[2] == NONE {
        None
    } else {
        Some(byte(head[2]))
    };
    Ok(ends(rt, &script, Some(cores), (head[0], head[1]), head[0]))
}

#[test]
fn a_fault_is_reported_before_the_next_line_is_read(rt: HostRuntime) -> Result<(), Fail> {
    for row in FAULTS.lines() {
        assert!(rt; is_faulty(&rt, row)?, "{row}");
    }
    Ok(())
}
