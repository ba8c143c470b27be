//! The path of lookup for an address, in words.
use crate::page::TextBuffer;
use mcs_kernel::Kernel;
use mcs_lab_check::Labels;
use mcs_queues::LinkedLines;
use mcs_types::{Cap, Kind};

/// Returns `count` bits of a number: those just above its lowest `behind` bits.
fn bits_of(number: u64, count: u32, after: u32) -> u64 {
    let shifted = number.checked_shr(after).unwrap_or(0);
    match 1u64.checked_shl(count) {
        None => shifted,
        Some(limit) => shifted & limit.saturating_sub(1),
    }
}

/// A CNode that lookup has reached, and how many bits of the address are left there.
#[derive(Clone, Copy)]
struct Level {
    cap: Cap,
    left: u32,
}

/// Appends that the guard of a level does not match.
fn put_guard(page: &mut TextBuffer, guard: u32) {
    page.put(b", whose guard of ");
    page.number(guard as u64);
    page.put(b" bits is another");
}

/// Appends that too few bits are left for the index of a level.
fn put_radix(page: &mut TextBuffer, radix: u32, after: u32) {
    page.put(b", whose index has ");
    page.number(radix as u64);
    page.put(b" bits, where ");
    page.number(after as u64);
    page.put(b" are left");
}

/// Appends the slot that lookup indexes at a level, and why lookup stops there, if it does. Returns
/// the next level, if lookup continues.
fn put_slot(page: &mut TextBuffer, index: u64, held: Option<Cap>, left: u32) -> Option<Level> {
    page.put(b" ");
    page.number(index);
    match held {
        None => {
            page.put(b" is empty");
            None
        }
        Some(next) if left > 0 && next.obj.kind == Kind::CNode => Some(Level { cap: next, left }),
        Some(_) => {
            if left > 0 {
                page.put(b" is no CNode, where ");
                page.number(left as u64);
                page.put(b" bits are left");
            }
            None
        }
    }
}

/// Appends the slot that lookup takes at a level, or why it takes none. Returns the next level, if
/// lookup continues.
fn put_level(
    page: &mut TextBuffer,
    kernel: &Kernel<LinkedLines>,
    names: &Labels,
    address: u64,
    level: Level,
) -> Option<Level> {
    let Level { cap, left } = level;
    page.object(names, cap.obj);
    let guard = cap.guard.bits as u32;
    let after = left.saturating_sub(guard);
    if guard > left || bits_of(address, guard, after) != cap.guard.value {
        put_guard(page, guard);
        return None;
    }
    let radix = kernel.radix(cap.obj) as u32;
    if radix > after {
        put_radix(page, radix, after);
        return None;
    }
    let left = after.saturating_sub(radix);
    let index = bits_of(address, radix, left);
    let held = match u8::try_from(index) {
        Ok(index) => kernel.capability(cap.obj, index),
        Err(_) => None,
    };
    put_slot(page, index, held, left)
}

/// Appends the slots that lookup passes from a root, and where it ends: `(c1 3, c2 1 is empty)`.
pub fn put_path(
    page: &mut TextBuffer,
    kernel: &Kernel<LinkedLines>,
    names: &Labels,
    root: Cap,
    address: u64,
    depth: u32,
) {
    let mut level = Level {
        cap: root,
        left: depth,
    };
    page.put(b" (");
    // each level but the first has fewer bits left
    for count in 0..=depth {
        if count > 0 {
            page.put(b", ");
        }
        match put_level(page, kernel, names, address, level) {
            Some(next) => level = next,
            None => break,
        }
    }
    page.put(b")");
}
