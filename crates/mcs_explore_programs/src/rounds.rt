//! Loops that go round without an entry.
use mcs_turns::Op;
use std::alloc::{AllocError, Global};

/// Some lines of a program, from an index on, and which of them are known to lead back to the first
/// one without an entry.
#[derive(Drop)]
struct Ways<'a> {
    ops: &'a [Op],
    start: usize,
    leads: Vec<bool>,
}

impl<'a> Ways<'a> {
    /// Returns whether the line at this index is known to lead back to the first line.
    fn is_back(&self, place: usize) -> bool {
        if place == self.start {
            return true;
        }
        match place.checked_sub(self.start) {
            Some(at) => self.leads.get(at).copied().unwrap_or(false),
            None => false,
        }
    }

    /// Returns whether a line is known to lead back: it gives no entry, and one of its successors
    /// leads back.
    fn leads_back(&self, op: Op, place: usize) -> bool {
        let next = place.saturating_add(1);
        match op {
            Op::Give(_) => false,
            Op::Unless(_, to) => self.is_back(next) || self.is_back(to),
            Op::Jump(to) => self.is_back(to),
            Op::Keep(..) | Op::Add(..) => self.is_back(next),
        }
    }

    /// Updates what is known of the line with a number, and returns whether that changed.
    fn look_at(&mut self, number: usize) -> bool {
        let Some(op) = self.ops.get(number).copied() else {
            return false;
        };
        let place = self.start.saturating_add(number);
        if !self.leads_back(op, place) || number >= self.leads.len() || self.leads[number] {
            return false;
        }
        self.leads[number] = true;
        true
    }

    /// Updates all lines once, last to first, and returns whether anything changed.
    fn look(&mut self) -> bool {
        let mut is_more = false;
        for number in (0..self.ops.len()).rev() {
            if self.look_at(number) {
                is_more = true;
            }
        }
        is_more
    }
}

/// Returns whether a loop without an entry leads from the line at an index, through later lines
/// only, back to it.
pub fn goes_round(alloc: Global, ops: &[Op], start: usize) -> Result<bool, AllocError> {
    let Some(ops) = ops.get(start..) else {
        return Ok(false);
    };
    let mut leads = Vec::new(alloc);
    for _ in ops {
        leads.push(false)?;
    }
    let mut ways = Ways { ops, start, leads };
    for _ in 0..=ops.len() {
        if !ways.look() {
            break;
        }
    }
    Ok(ways.leads.first().copied().unwrap_or(false))
}
