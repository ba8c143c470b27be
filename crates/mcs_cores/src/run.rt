//! A run: each core enters the users' entries by a host thread of its own (own).
ghost use Rattle.std.specs.Prelude.{◌≡◌, ◌≤◌, vec_len, vec_capacity};

use crate::candidates::Turn;
use crate::core_set::CoreSet;
use crate::gate::Gate;
use crate::machine::Machine;
use crate::positions::Positions;
use crate::shared::{Next, SharedPositions};
use mcs_kernel::{EnterFault, Kernel};
use mcs_queues::Lines;
use mcs_seats::{Answered, CoreSeat, Prepared, Turned};
use mcs_types::{CORES, CoreId, Entry, OutOfMemory};
use mcs_users::Users;
use std::alloc::Global;
use std::sync::Wait;
use std::sync::ledger::Ledger;
use std::thread;
use std::thread::Threads;

/// Why a run ended while users had entries left.
#[derive(Clone, Copy, PartialEq, Eq, Debug)]
pub enum RunFault {
    /// The book was full for an entry that would have been accepted.
    BookFull = 1,
    /// An allocation failed: of the run, of a seat or of the kernel.
    OutOfMemory = 2,
    /// A host thread could not be started, or an allocation for it failed.
    NoThread = 3,
}

/// What the threads of a run share.
#[derive(Drop)]
struct RunContext<'a, G: Ledger, L: Lines, T: Gate> {
    alloc: Global,
    machine: &'a Machine<G, L>,
    users: &'a Users,
    gate: &'a T,
    shared: &'a SharedPositions,
}

/// The result of a core: its seat, and how it ended.
type Done<G> = (CoreSeat<G>, Result<(), RunFault>);

/// The handles of the cores' host threads.
type Running<G> = Vec<thread::JoinHandle<Done<G>>>;

/// Returns an entry of a user, by the numbers of both from 0.
fn entry_of(users: &Users, user: usize, number: usize) -> Option<&Entry> {
    users.at(user)?.at(number)
}

/// Returns whether a skipped entry ends the run. If the kernel skipped it because its thread may
/// not enter, the core picks again.
fn ends_run(turned: Turned) -> Result<(), RunFault> {
    match turned {
        Turned::OutOfMemory => Err(RunFault::OutOfMemory),
        Turned::Away { lines: _, fault } => match fault {
            EnterFault::BookFull => Err(RunFault::BookFull),
            EnterFault::OutOfMemory => Err(RunFault::OutOfMemory),
            EnterFault::NotRunning | EnterFault::NoContext | EnterFault::WrongCore => Ok(()),
        },
    }
}

impl<G: Ledger, L: Lines, T: Gate> RunContext<'_, G, L, T> {
    /// Gives each of the cores in `ready` that waits the turn that it picks now, and marks it as no
    /// longer waiting. Returns the cores that the caller has to wake.
    fn tell<R: Wait>(
        &self,
        rt: &R,
        positions: &mut Positions,
        kernel: &Kernel<L>,
        ready: CoreSet,
    ) -> CoreSet {
        let mut notified = CoreSet::new();
        let waiting = ready.common(&positions.asleep);
        if waiting.is_empty() {
            return notified;
        }
        for core in 0..CORES {
            let core = CoreId(core);
            if waiting.contains(core) {
                if let Some(turn) = positions.look(kernel, core).pick() {
                    self.shared.tell(rt, core, Next::Enters(turn));
                    positions.asleep.remove(core);
                    notified.insert(core);
                }
            }
        }
        notified
    }

    /// Decides what the core does next, and which cores have to be woken. If no core can pick
    /// anything, the run is over.
    fn look<R: Wait>(
        &self,
        rt: &R,
        positions: &mut Positions,
        kernel: &Kernel<L>,
        core: CoreId,
    ) -> (Next, CoreSet) {
        if positions.over {
            return (Next::Stops, CoreSet::new());
        }
        let candidates = positions.look(kernel, core);
        if candidates.ready().is_empty() {
            return (Next::Stops, self.shared.end(rt, positions));
        }
        let notified = self.tell(rt, positions, kernel, candidates.ready());
        match candidates.pick() {
            Some(turn) => (Next::Enters(turn), notified),
            None => {
                positions.asleep.insert(core);
                (Next::Waits, notified)
            }
        }
    }

    /// Decides what the core does next when it has entered nothing before.
    fn begin<R: Wait>(&self, rt: &R, core: CoreId) -> Next {
        let (next, notified) = {
            let mut positions = self.shared.positions.lock(rt);
            let kernel = self.machine.lock(rt);
            self.look(rt, &mut positions, kernel.kernel(), core)
        };
        self.shared.wake(notified);
        next
    }

    /// Enters what the core picked, if its user has not moved since, and decides what the core does
    /// next. The positions stay locked from the test whether the user moved until they are
    /// advanced. The locks are taken once for both; other cores are woken after they are released.
    fn enter<R: Wait>(
        &self,
        rt: &R,
        seat: &mut CoreSeat<G>,
        turn: Turn,
        prepared: Prepared,
    ) -> (Option<Result<Answered, Turned>>, Next) {
        let core = seat.core();
        let (entered, next, notified) = {
            let mut positions = self.shared.positions.lock(rt);
            let mut kernel = self.machine.lock(rt);
            let entered = positions.enter(
                self.alloc,
                self.users,
                &mut kernel,
                seat,
                turn,
                prepared,
            );
            let (next, notified) = self.look(rt, &mut positions, kernel.kernel(), core);
            (entered, next, notified)
        };
        self.shared.wake(notified);
        (entered, next)
    }

    /// Enters what the core picked, and calls the gate if it was accepted.
    fn give<R: Wait>(&self, rt: &R, seat: &mut CoreSeat<G>, turn: Turn) -> Result<Next, RunFault> {
        let Some(entry) = entry_of(self.users, turn.user, turn.number) else {
            return Ok(self.begin(rt, seat.core()));
        };
        let Ok(entry) = entry.copy(self.alloc) else {
            return Err(RunFault::OutOfMemory);
        };
        let Ok(prepared) = seat.prepare(self.alloc, entry) else {
            return Err(RunFault::OutOfMemory);
        };
        let (entered, next) = self.enter(rt, seat, turn, prepared);
        match entered {
            None => {}
            Some(Err(turned)) => ends_run(turned)?,
            Some(Ok(answered)) => self.gate.answered(seat.core(), answered.line as u64),
        }
        Ok(next)
    }

    /// Runs the turns of a core until the run is over.
    fn work<R: Wait>(&self, rt: &R, seat: &mut CoreSeat<G>) -> Result<(), RunFault> {
        let core = seat.core();
        let mut next = self.begin(rt, core);
        for _ in rt.forever() {
            next = match next {
                Next::Enters(turn) => {
                    self.gate.between(core, turn.thread);
                    self.give(rt, seat, turn)?
                }
                Next::Waits => self.shared.hear(rt, core),
                Next::Stops => return Ok(()),
            };
        }
        unreachable!()
    }
}

/// Runs the host thread of a core. Its fault ends the run.
fn serve<G: Ledger, L: Lines, T: Gate, R: Wait>(
    rt: &R,
    context: &RunContext<'_, G, L, T>,
    seat: CoreSeat<G>,
) -> Done<G> {
    let mut seat = seat;
    let result = context.work(rt, &mut seat);
    if result.is_err() {
        context.shared.close(rt);
    }
    (seat, result)
}

/// Returns the fault of the lowest core so far.
fn lowest_fault(
    fault: Option<(CoreId, RunFault)>,
    core: CoreId,
    other: RunFault,
) -> Option<(CoreId, RunFault)> {
    match fault {
        Some((lowest, _)) if lowest.0 <= core.0 => fault,
        _ => Some((core, other)),
    }
}

/// Starts a host thread for each seat. If one cannot be started, the run ends with the fault of the
/// lowest core.
fn start_all<
    's,
    E,
    G: Ledger + Send + Sync + 's,
    L: Lines + Send + Sync + 's,
    T: Gate + 's,
    R: Threads + Wait + Sync + 's,
>(
    scope: &thread::Scope<'s, E>,
    rt: &'s R,
    context: &'s RunContext<'s, G, L, T>,
    seats: Vec<CoreSeat<G>>,
    mut running: Running<G>,
) -> (Running<G>, Option<(CoreId, RunFault)>)
    requires room { vec_len seats ≤ vec_capacity running }
    requires empty { vec_len running ≡ 0 }
    ensures { vec_len result.0 ≤ vec_len seats }
{
    let mut fault = None;
    for seat in seats {
        let core = seat.core();
        match scope.spawn(move || serve(rt, context, seat)) {
            Ok(handle) => match running.push(handle) {
                Ok(()) => {}
                Err(_) => unreachable!(),
            },
            Err(_) => {
                context.shared.close(rt);
                fault = lowest_fault(fault, core, RunFault::NoThread);
            }
        }
    }
    (running, fault)
}

/// Joins all host threads, and collects their seats, with the fault of the lowest core.
fn join_all<G: Ledger, R: Threads>(
    rt: &R,
    running: Running<G>,
    refused: Option<(CoreId, RunFault)>,
    mut back: Vec<CoreSeat<G>>,
) -> (Vec<CoreSeat<G>>, Result<(), RunFault>)
    requires room { vec_len running ≤ vec_capacity back }
    requires empty { vec_len back ≡ 0 }
{
    let mut fault = refused;
    for handle in running {
        let (seat, result) = handle.join(rt);
        if let Err(found) = result {
            fault = lowest_fault(fault, seat.core(), found);
        }
        match back.push(seat) {
            Ok(()) => {}
            Err(_) => unreachable!(),
        }
    }
    match fault {
        Some((_, found)) => (back, Err(found)),
        None => (back, Ok(())),
    }
}

/// Starts a thread for each seat and joins them.
fn run_all<G: Ledger + Send + Sync, L: Lines + Send + Sync, T: Gate, R: Threads + Wait + Sync>(
    rt: &R,
    context: &RunContext<'_, G, L, T>,
    seats: Vec<CoreSeat<G>>,
    running: Running<G>,
    back: Vec<CoreSeat<G>>,
) -> (Vec<CoreSeat<G>>, Result<(), RunFault>)
    requires room { vec_len seats ≤ vec_capacity running }
    requires empty { vec_len running ≡ 0 }
    requires room_back { vec_len seats ≤ vec_capacity back }
    requires empty_back { vec_len back ≡ 0 }
{
    thread::scope(
        thread::scope_env(),
        rt,
        |scope|
            requires room { vec_len seats ≤ vec_capacity running }
            requires empty { vec_len running ≡ 0 }
            requires room_back { vec_len seats ≤ vec_capacity back }
            requires empty_back { vec_len back ≡ 0 }
        {
            let (running, refused) = start_all(scope, rt, context, seats, running);
            join_all(rt, running, refused, back)
        },
    )
}

impl<G: Ledger + Send + Sync, L: Lines + Send + Sync> Machine<G, L> {
    /// Runs the users' lists, each core on a host thread of its own, until no thread that can run
    /// has entries left; an entry that is to be repeated counts among them (own). A core picks its
    /// thread of greatest priority, then of lowest serial, among those with entries left. It gives
    /// the thread's next entry, or its last one again if that was answered Waits and the thread was
    /// restarted. If the user's position changed since the pick, the core enters nothing and picks
    /// again, as it does after a skipped entry. The gate is called between the pick and the entry,
    /// and after an entry that was accepted. Each core of the machine needs a seat: for a core
    /// without one that has entries left, the others wait. Programs and schedules of users are not
    /// followed.
    ///
    /// Returns all seats but those whose thread could not be started. BookFull (1) if the book has
    /// no room for an entry, OutOfMemory (2) if an allocation fails, NoThread (3) if a thread could
    /// not be started; of several faults that of the lowest core. The other cores then stop at
    /// their next turn.
    pub fn run<R: Threads + Wait + Sync, T: Gate>(
        &self,
        rt: &R,
        alloc: Global,
        seats: Vec<CoreSeat<G>>,
        users: &Users,
        gate: &T,
    ) -> (Vec<CoreSeat<G>>, Result<(), RunFault>) {
        let Ok(shared) = SharedPositions::new(alloc, users) else {
            return (seats, Err(RunFault::OutOfMemory));
        };
        let Ok(running) = Vec::with_capacity(alloc, seats.len()) else {
            return (seats, Err(RunFault::OutOfMemory));
        };
        let Ok(back) = Vec::with_capacity(alloc, seats.len()) else {
            return (seats, Err(RunFault::OutOfMemory));
        };
        let context = RunContext {
            alloc,
            machine: self,
            users,
            gate,
            shared: &shared,
        };
        run_all(rt, &context, seats, running, back)
    }
}
