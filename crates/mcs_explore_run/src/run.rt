//! A run, turn by turn, and the script that shows it.
ghost use Rattle.std.specs.Prelude.{◌≡◌, ◌≤◌, true, false, IfOk, OnOk};
ghost use Rattle.mcs_turns.specs.Turns.{ArePicks, Follows, IsOver, IsRun};
ghost use Rattle.mcs_explore_run.specs.Runs.{CanTurn, IsDrawn, IsRunUpTo};
ghost use Rattle.mcs_explore_run.specs.Samples.{SeesFrom, SeesRuns};

use crate::draws::draw;
use mcs_explore_orders::{Nobody, OrdersFault, Turn, Users, Walk, Watch};
use mcs_explore_script::{UserScript, fault_of, run_text};
use mcs_lab_check::LabFault;
use mcs_queues::PlainLines;
use mcs_users::Picks;
use rand_core::SeedableRng;
use rand_pcg::Pcg32;
use std::alloc::Global;

/// A run: how many turns it made, the state after them, and whether no turn is possible there. If
/// it is not over, it made the number of turns that was asked for.
#[derive(Drop)]
pub struct Run {
    walk: Walk<PlainLines>,
    turns: u64,
    pub is_over: bool,
}

/// A run that was drawn: the script that shows it, how many turns it made, and whether no turn is
/// possible at its end.
#[derive(Drop)]
pub struct Drawn {
    pub text: Vec<u8>,
    pub turns: u64,
    pub is_over: bool,
}

/// Shows the watch a state of the run with this number; `is_over` may be set only if no turn is
/// possible there.
fn show_state<W: Watch>(
    users: &Users,
    walk: &Walk<PlainLines>,
    is_over: bool,
    number: usize,
    watch: &mut W,
) -> Result<(), OrdersFault>
    requires { is_over ≡ true → IsOver users.now walk.now }
    ensures aim { OnOk result (W.aim watch.new ≡ W.aim watch.old) }
    ensures sees { OnOk result (SeesFrom W.HasSeen watch.old watch.new users.now walk.now) }
{
    watch.see_state(users, number, walk, is_over)
}

/// Makes a possible turn in the run with this number, and shows it to the watch.
fn make_turn<W: Watch>(
    alloc: Global,
    users: &Users,
    walk: &mut Walk<PlainLines>,
    picks: &[Picks],
    turn: Turn,
    number: usize,
    watch: &mut W,
) -> Result<(), OrdersFault>
    requires picks { ArePicks users.now walk.old picks.now }
    requires can { CanTurn users.now walk.old turn }
    ensures made { OnOk result (Follows users.now walk.old walk.new) }
    ensures aim { OnOk result (W.aim watch.new ≡ W.aim watch.old) }
    ensures sees { OnOk result (SeesFrom W.HasSeen watch.old watch.new users.now walk.old) }
{
    let from = Vec::from_slice(alloc, walk.places())?;
    match walk.turn(alloc, users, picks, turn)? {
        Some(answer) => watch.see_turn(users, number, turn, &answer, from.as_slice(), walk),
        None => unreachable!(),
    }
}

/// Shows the watch the state of the run with this number, draws one of the possible turns, makes it
/// and shows it. Returns whether there was one.
fn step<W: Watch>(
    alloc: Global,
    users: &Users,
    walk: &mut Walk<PlainLines>,
    random: &mut Pcg32,
    number: usize,
    watch: &mut W,
) -> Result<bool, OrdersFault>
    ensures made { IfOk result (λ b. b ≡ true → Follows users.now walk.old walk.new) }
    ensures over { IfOk result (λ b.
        b ≡ false → (walk.new ≡ walk.old) × IsOver users.now walk.old) }
    ensures aim { OnOk result (W.aim watch.new ≡ W.aim watch.old) }
    ensures sees { OnOk result (SeesFrom W.HasSeen watch.old watch.new users.now walk.old) }
{
    let picks = walk.picks(alloc, users)?;
    let turns = walk.turns(alloc, users, &picks)?;
    let Some(turn) = draw(walk, users, &picks, &turns, random) else {
        show_state(users, walk, true, number, watch)?;
        return Ok(false);
    };
    show_state(users, walk, false, number, watch)?;
    make_turn(alloc, users, walk, &picks, turn, number, watch)?;
    Ok(true)
}

/// Makes at most `most` random turns from the boot of a script on, and shows the watch each state
/// and turn as one of run `number`. `BookFull` if the book has 1,000,000 lines, `OutOfMemory` if an
/// allocation fails; else the faults of the watch.
pub fn make_turns<W: Watch>(
    alloc: Global,
    script: &UserScript,
    random: &mut Pcg32,
    most: u64,
    number: usize,
    watch: &mut W,
) -> Result<Run, OrdersFault>
    ensures run { IfOk result (λ r.
        IsRunUpTo script.now.users script.now.boot most r.turns r.is_over r.walk) }
    ensures aim { OnOk result (W.aim watch.new ≡ W.aim watch.old) }
    ensures sees { OnOk result
        (SeesRuns W.HasSeen watch.old watch.new script.now.users script.now.boot) }
{
    let mut walk = Walk::new(alloc, &script.boot, &script.users)?;
    for turns in 0..most {
        let is_made = step(alloc, &script.users, &mut walk, random, number, watch)?;
        if !is_made {
            return Ok(Run {
                walk,
                turns,
                is_over: true,
            });
        }
    }
    show_state(&script.users, &walk, false, number, watch)?;
    Ok(Run {
        walk,
        turns: most,
        is_over: false,
    })
}

/// Draws a run of a script by a seed, of at most `most` turns, and returns its script, after a
/// comment and the names. A seed gives the same run each time. `BookFull` if the book has 1,000,000
/// lines, `OutOfMemory` if an allocation fails.
pub fn draw_run(
    alloc: Global,
    script: &UserScript,
    comment: &[u8],
    seed: u64,
    most: u64,
) -> Result<Drawn, LabFault>
    ensures { IfOk result (IsDrawn script.now comment.now most) }
{
    let mut random = Pcg32::seed_from_u64(seed);
    let mut nobody = Nobody;
    let Run {
        walk,
        turns,
        is_over,
    } = match make_turns(alloc, script, &mut random, most, 0, &mut nobody) {
        Ok(run) => run,
        Err(fault) => return Err(fault_of(fault)),
    };
    let text = run_text(alloc, comment, &script.names, walk.kernel().book())?;
    Ok(Drawn {
        text,
        turns,
        is_over,
    })
}
