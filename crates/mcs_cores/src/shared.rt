//! What the threads of a run share: the positions of users, and the messages to waiting cores
//! (own).
use crate::candidates::Turn;
use crate::core_set::CoreSet;
use crate::positions::Positions;
use mcs_types::{CORES, CoreId, OutOfMemory};
use mcs_users::Users;
use std::alloc::Global;
use std::sync::{Condvar, Mutex, Wait};

/// What a core does next.
#[derive(Clone, Copy, Drop)]
pub(crate) enum Next {
    /// It enters what it picked.
    Enters(Turn),
    /// It waits for a message from another core.
    Waits,
    /// It stops: the run is over.
    Stops,
}

/// The message to a core, and the condition on which it waits for one.
#[derive(Drop)]
struct News {
    notified: Mutex<Next>,
    changed: Condvar,
}

/// The positions of the users, and the messages to each core. Lock order: positions, then kernel,
/// then messages.
#[derive(Drop)]
pub(crate) struct SharedPositions {
    pub(crate) positions: Mutex<Positions>,
    news: Vec<News>,
}

impl News {
    /// Returns a `News` without a message.
    fn new() -> News {
        News {
            notified: Mutex::new(Next::Waits),
            changed: Condvar::new(),
        }
    }

    /// Waits for a message to the core, and takes it.
    fn hear<R: Wait>(&self, rt: &R) -> Next {
        let mut notified = self.changed.wait_while(
            rt,
            self.notified.lock(rt),
            |notified| matches!(notified, Next::Waits),
        );
        let next = *notified;
        *notified = Next::Waits;
        next
    }
}

impl SharedPositions {
    /// The beginning of a run of these users.
    pub(crate) fn new(alloc: Global, users: &Users) -> Result<SharedPositions, OutOfMemory> {
        let mut news = Vec::with_capacity(alloc, CORES as usize)?;
        for _ in 0..CORES {
            news.push(News::new()).map_err(|_| OutOfMemory)?;
        }
        Ok(SharedPositions {
            positions: Mutex::new(Positions::new(alloc, users)?),
            news,
        })
    }

    /// Sends a message to a core. The sender wakes it after releasing the locks, which the core
    /// would have to wait for.
    pub(crate) fn tell<R: Wait>(&self, rt: &R, core: CoreId, next: Next) {
        if let Some(news) = self.news.get(core.0 as usize) {
            *news.notified.lock(rt) = next;
        }
    }

    /// Waits for a message to a core. A core without a message box stops.
    pub(crate) fn hear<R: Wait>(&self, rt: &R, core: CoreId) -> Next {
        match self.news.get(core.0 as usize) {
            Some(news) => news.hear(rt),
            None => Next::Stops,
        }
    }

    /// Wakes cores that have a message.
    pub(crate) fn wake(&self, notified: CoreSet) {
        if notified.is_empty() {
            return;
        }
        for core in 0..CORES {
            if notified.contains(CoreId(core)) {
                if let Some(news) = self.news.get(core as usize) {
                    news.changed.notify_all();
                }
            }
        }
    }

    /// Ends the run for all cores: they stop at their next turn. Sends a message to those that
    /// wait, and returns them for the caller to wake.
    pub(crate) fn end<R: Wait>(&self, rt: &R, positions: &mut Positions) -> CoreSet {
        positions.over = true;
        for core in 0..CORES {
            if positions.asleep.contains(CoreId(core)) {
                self.tell(rt, CoreId(core), Next::Stops);
            }
        }
        positions.asleep
    }

    /// Ends the run as `end` does, for a caller without the lock, and wakes the cores.
    pub(crate) fn close<R: Wait>(&self, rt: &R) {
        let notified = self.end(rt, &mut self.positions.lock(rt));
        self.wake(notified);
    }
}
