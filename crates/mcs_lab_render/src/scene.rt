//! The drawing, and which part of it is shown.
use crate::labels::Naming;
use crate::steps::Steps;
use mcs_lab_diagram::{Drawing, Window};
use mcs_plan_source::STARTER;
use mcs_types::{Kind, ObjId, Status};
use std::alloc::{AllocError, Global};

/// A run that is drawn: its names, the positions of its steps, the threads with lanes in their
/// order, and the existing lines of its book that are shown.
#[derive(Drop)]
pub struct Scene<'a, N> {
    pub drawing: &'a Drawing,
    pub names: &'a N,
    pub steps: &'a Steps,
    pub threads: &'a [ObjId],
    pub window: Window,
}

/// Returns the index of a thread among all threads, from 0.
pub fn place_of(thread: ObjId) -> usize {
    thread.serial.saturating_sub(1) as usize
}

/// Returns the lane of a thread among these, if it has one.
pub fn lane_in(threads: &[ObjId], thread: ObjId) -> Option<usize> {
    for (lane, other) in threads.iter().enumerate() {
        if other.is_same(thread) {
            return Some(lane);
        }
    }
    None
}

/// Returns whether a thread has nothing left to do after a line: it is the thread `starter`, by
/// which plans start others, and is inactive.
fn is_done<N: Naming>(drawing: &Drawing, names: &N, thread: ObjId, line: usize) -> bool {
    let Some(name) = names.name(thread) else {
        return false;
    };
    let look = drawing.look(line, place_of(thread));
    name == STARTER && look.status == Some(Status::Inactive)
}

/// Returns the threads that have lanes by default: all but the thread `starter`, if it is inactive
/// after this line.
fn busy_threads<N: Naming>(
    alloc: Global,
    drawing: &Drawing,
    names: &N,
    last: usize,
) -> Result<Vec<ObjId>, AllocError> {
    let mut threads = Vec::new(alloc);
    for place in 0..drawing.threads() {
        let thread = drawing.thread(place);
        if !is_done(drawing, names, thread, last) {
            threads.push(thread)?;
        }
    }
    Ok(threads)
}

/// Returns whether a drawing has a thread.
fn is_there(drawing: &Drawing, thread: ObjId) -> bool {
    match thread.place(Kind::Thread) {
        Some(place) => place < drawing.threads(),
        None => false,
    }
}

/// Returns these threads, each once, if they exist.
fn asked_threads(
    alloc: Global,
    drawing: &Drawing,
    wanted: &[ObjId],
) -> Result<Vec<ObjId>, AllocError> {
    let mut threads = Vec::new(alloc);
    for thread in wanted {
        if is_there(drawing, *thread) && lane_in(&threads, *thread).is_none() {
            threads.push(*thread)?;
        }
    }
    Ok(threads)
}

/// Returns the threads that have lanes, in order: those that were asked for. By default all have
/// one, except `starter`, by which plans start others, if it is inactive after the last shown line.
pub fn threads_shown<N: Naming>(
    alloc: Global,
    drawing: &Drawing,
    names: &N,
    wanted: &[ObjId],
    last: usize,
) -> Result<Vec<ObjId>, AllocError> {
    if wanted.is_empty() {
        return busy_threads(alloc, drawing, names, last);
    }
    asked_threads(alloc, drawing, wanted)
}
