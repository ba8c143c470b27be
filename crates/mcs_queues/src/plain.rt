ghost use Rattle.std.specs.Prelude.{◌≡◌, IfOk, ◌<◌, ◌≤◌, position, vec_len, vec_capacity, nat_lt, ◌&&◌, is_none};
ghost use Rattle.mcs_types.specs.Waiters.{first_waiter};
ghost use Rattle.mcs_queues.specs.Numbers.{thread_number, line_number};
ghost use Rattle.mcs_queues.specs.Rows.{is_of, is_lower, enters, leaves, line_in, place_in};

use crate::lines::{LineNo, Lines, ThreadNo};
use mcs_types::{OutOfMemory, Prio, copy_rows};
use std::alloc::Global;
use std::marker::Model;

/// A thread in its line. The priority takes four bytes, so that a row has eight and moves as one
/// word.
#[derive(Clone, Copy)]
struct Row {
    thread: ThreadNo,
    line: LineNo,
    priority: u32,
}

const _: () = prove!(size_of::<Row>() == 8);

/// All lines in one list of rows: a row for each queued thread, and the rows of a line in the
/// line's order. With a single list nothing can be inconsistent, and the code is short enough to
/// read; in exchange each call traverses it. `new` allocates a row for every thread.
pub struct PlainLines {
    rows: Vec<Row>,
    threads: u16,
    lines: u16,
}

// Written by hand as a separate function: a derived drop would be proved again wherever it is
// dropped.
impl Drop for PlainLines {
    fn drop(self) {
        let PlainLines {
            rows: _,
            threads: _,
            lines: _,
        } = self;
    }
}

impl Model for PlainLines {
    ghost use Rattle.std.specs.Prelude.{ℕ, ◌≤◌, vec_capacity, vec_len};
    ghost use Rattle.mcs_types.specs.Waiters.{NeverRises};
    ghost use Rattle.mcs_queues.specs.Rows.{Rows, Kept, line_in};

    ghost Value = { Rows };

    ghost view = { λ s. record { rows = s.rows.items; threads = s.threads; lines = s.lines } };

    ghost invariant = { λ s. (s.threads ≤ vec_capacity s.rows)
        × Kept s.threads s.lines s.rows.items
        × ((k : ℕ) → NeverRises (line_in s.rows.items k)) };
}

/// Returns the index of a thread's row; None if it has none.
fn row_of(rows: &[Row], t: ThreadNo) -> Option<usize>
    ensures { result ≡ position (is_of t.0) rows.now }
{
    rows.iter().position(|row| row.thread.0 == t.0)
}

/// Returns the index of the first row of a lower priority in a line.
fn first_lower(rows: &[Row], q: LineNo, p: u32) -> Option<usize>
    ensures { result ≡ position (is_lower q.0 p) rows.now }
{
    rows.iter()
        .position(|row| row.line.0 == q.0 && row.priority < p)
}

/// The line of a thread.
fn line_of(rows: &[Row], t: ThreadNo) -> Option<LineNo>
    ensures { line_number result ≡ place_in rows.now t.0 }
{
    for row in rows {
        if row.thread.0 == t.0 {
            return Some(row.line);
        }
    }
    None
}

/// Returns whether a thread may join a line.
fn may_enter(rows: &[Row], threads: u16, lines: u16, t: ThreadNo, q: LineNo) -> bool
    ensures { result ≡ (nat_lt t.0 threads && nat_lt q.0 lines && is_none (place_in rows.now t.0)) }
{
    t.0 < threads && q.0 < lines && line_of(rows, t).is_none()
}

/// Inserts a row after all of its line with its priority or a greater one; there must be room.
fn enter(rows: &mut Vec<Row>, row: Row)
    requires { vec_len rows.old < vec_capacity rows.old }
    ensures items { rows.new.items ≡ enters row rows.old.items }
    ensures capacity { vec_capacity rows.old ≤ vec_capacity rows.new }
{
    let place = first_lower(rows, row.line, row.priority).unwrap_or(rows.len());
    match rows.insert(place, row) {
        Ok(()) => {}
        Err(_) => unreachable!(),
    }
}

/// Removes the row of a thread, and returns its line.
fn leave(rows: &mut Vec<Row>, t: ThreadNo) -> Option<LineNo>
    ensures items { rows.new.items ≡ leaves t.0 rows.old.items }
    ensures capacity { vec_capacity rows.new ≡ vec_capacity rows.old }
    ensures line { line_number result ≡ place_in rows.old.items t.0 }
{
    let place = row_of(rows, t)?;
    let row = rows.remove(place);
    Some(row.line)
}

/// The first thread of a line.
fn first_in(rows: &[Row], q: LineNo) -> Option<ThreadNo>
    ensures { thread_number result ≡ first_waiter (line_in rows.now q.0) }
{
    for row in rows {
        if row.line.0 == q.0 {
            return Some(row.thread);
        }
    }
    None
}

impl PlainLines {
    /// The rows.
    fn into_rows(self) -> Vec<Row> {
        let PlainLines {
            rows,
            threads: _,
            lines: _,
        } = self;
        rows
    }
}

impl Lines for PlainLines {
    ghost use Rattle.std.specs.Prelude.{◌≡◌};
    ghost use Rattle.mcs_queues.specs.Rows.{Rows, line_in, place_in};

    ghost line = { λ s. line_in s.rows };

    ghost place = { λ s. place_in s.rows };

    ghost rooms = { λ s. record { threads = s.threads; lines = s.lines } };

    fn new(alloc: Global, threads: u16, lines: u16) -> Result<PlainLines, OutOfMemory> {
        Ok(PlainLines {
            rows: Vec::with_capacity(alloc, threads as usize)?,
            threads,
            lines,
        })
    }

    fn copy(&self, alloc: Global, spare: Option<PlainLines>) -> Result<PlainLines, OutOfMemory>
        ensures { IfOk result (λ s. s ≡ self.now) }
    {
        let rows = match spare {
            Some(spare) => spare.into_rows(),
            None => Vec::new(alloc),
        };
        Ok(PlainLines {
            rows: copy_rows(rows, &self.rows, self.threads as usize)?,
            threads: self.threads,
            lines: self.lines,
        })
    }

    fn join(&mut self, t: ThreadNo, q: LineNo, p: Prio) -> bool {
        let may = may_enter(&self.rows, self.threads, self.lines, t, q);
        if may {
            let row = Row {
                thread: t,
                line: q,
                priority: p.0 as u32,
            };
            enter(&mut self.rows, row);
        }
        may
    }

    fn first(&self, q: LineNo) -> Option<ThreadNo> {
        first_in(&self.rows, q)
    }

    fn next(&self, t: ThreadNo) -> Option<ThreadNo> {
        let place = row_of(&self.rows, t)?;
        let line = self.rows[place].line;
        first_in(&self.rows[place + 1..], line)
    }

    fn part(&mut self, t: ThreadNo) -> Option<LineNo> {
        leave(&mut self.rows, t)
    }

    fn shift(&mut self, t: ThreadNo, p: Prio) -> bool {
        match leave(&mut self.rows, t) {
            None => false,
            Some(line) => {
                let row = Row {
                    thread: t,
                    line,
                    priority: p.0 as u32,
                };
                enter(&mut self.rows, row);
                true
            }
        }
    }

    fn where_is(&self, t: ThreadNo) -> Option<LineNo> {
        line_of(&self.rows, t)
    }
}
