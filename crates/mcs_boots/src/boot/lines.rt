//! Adds a line of the boot (own).
ghost use Rattle.std.specs.Prelude.{◌≡◌, ◌≤◌, ◌<◌, ◌∷◌, ◌+◌, [], IsTrue, OnOk, OnErr, IfSome, Some, None, is_ok, length};
ghost use Rattle.mcs_types.specs.declared.id.Kind.{Kind};
ghost use Rattle.mcs_types.specs.declared.record.Rec.{Rec};
ghost use Rattle.mcs_types.specs.declared.record.Form.{Form};
ghost use Rattle.mcs_book.specs.Logs.{counted, onto};
ghost use Rattle.mcs_book.specs.Objects.{next_id, makes_kind};
ghost use Rattle.mcs_book.specs.Boots.{begins, begins_with, root_cap, boot_line, boot_check};
ghost use Rattle.mcs_types.specs.Limits.{core_limit};
ghost use Rattle.mcs_book.specs.Sound.{Allowed};
ghost use Rattle.mcs_state.specs.Now.{so_far, adds, adds_all};
ghost use Rattle.mcs_state.specs.Tables.{HAND, ROOM};
ghost use Rattle.mcs_boots.specs.Booted.{IsBooting};

use mcs_object_queues::Waiting;
use mcs_slots::SlotId;
use mcs_state::State;
use mcs_types::{Badge, BootLine, Cap, Guard, Kind, Mode, ObjId, OutOfMemory, Prio, Rights};

/// A capability to a CNode, with a guard.
fn cap_to(cnode: ObjId, guard: Guard) -> Cap
    ensures { result ≡ root_cap cnode guard }
{
    match Rights::new(0) {
        Some(rights) => Cap {
            obj: cnode,
            rights,
            badge: Badge(0),
            guard,
        },
        None => unreachable!(),
    }
}

/// The mode in which a thread begins.
fn first_mode(runs: bool) -> Mode
    ensures { result ≡ begins runs }
{
    if runs { Mode::Running } else { Mode::Inactive }
}

/// Makes a thread, which begins with this priority and in this mode.
fn takes_thread<W: Waiting>(
    state: &mut State<W>,
    priority: Prio,
    maximum: Prio,
    root: Cap,
    mode: Mode,
) -> ObjId
    requires booting { IsBooting (so_far state.old) }
    requires few { counted (makes_kind Kind.Thread) (so_far state.old) < ROOM }
    requires hand { state.old.hand ≡ [] }
    requires room { HAND < state.old.room }
    ensures thread { result ≡ next_id (so_far state.old) Kind.Thread }
    ensures made { state.new ≡ adds_all
        (Rec.Made (next_id (so_far state.old) Kind.Thread) (Form.Runner maximum root)
        ∷ Rec.Prio (next_id (so_far state.old) Kind.Thread) priority
        ∷ Rec.Turns (next_id (so_far state.old) Kind.Thread) mode ∷ []) state.old }
{
    state.is_sound();
    let thread = ObjId {
        kind: Kind::Thread,
        serial: state.made(Kind::Thread) + 1,
    };
    state.makes_thread(maximum, root);
    state.prio(thread, priority);
    state.turns(thread, mode);
    thread
}

/// Gives a thread the context with which it begins, if there is one.
fn takes_context<W: Waiting>(state: &mut State<W>, thread: ObjId, context: Option<ObjId>)
    requires allowed { IfSome context
        (λ s. Allowed (so_far state.old) (Rec.Holds s (Some thread))) }
    requires room { length state.old.hand + 1 < state.old.room }
    ensures { state.new ≡ adds_all (begins_with context thread) state.old }
{
    if let Some(context) = context {
        state.holds(context, Some(thread));
    }
}

/// Makes the records of a line that passed all checks. If an allocation fails, the state is
/// unchanged.
fn takes_records<W: Waiting>(state: &mut State<W>, line: &BootLine) -> Result<(), OutOfMemory>
    requires cores { state.old.book.boot.cores ≤ core_limit }
    requires faultless { IsTrue (is_ok
        (boot_check state.old.book.boot.cores (so_far state.old) line.now)) }
    requires booting { IsBooting (so_far state.old) }
    requires hand { state.old.hand ≡ [] }
    requires room { HAND < state.old.room }
    ensures made { OnOk result (state.new
        ≡ adds_all (boot_line (so_far state.old) line.now) state.old) }
    ensures unchanged { OnErr result (state.new ≡ state.old) }
{
    state.is_sound();
    match *line {
        BootLine::CNode { radix } => state.makes_cnode(radix)?,
        BootLine::Endpoint => state.makes(Kind::Endpoint),
        BootLine::Notification => state.makes(Kind::Notification),
        BootLine::Reply => state.makes(Kind::Reply),
        BootLine::Context { core } => state.makes_context(core),
        BootLine::Thread {
            priority,
            maximum,
            root,
            guard,
            runs,
            context,
        } => {
            let thread = takes_thread(
                state,
                priority,
                maximum,
                cap_to(root, guard),
                first_mode(runs),
            );
            takes_context(state, thread, context);
        }
        BootLine::Slot { cnode, index, cap } => state.fills(SlotId { cnode, index }, Some(cap)),
        BootLine::Tie {
            thread,
            notification,
        } => state.ties(thread, Some(notification)),
    }
    Ok(())
}

/// Adds a line of the boot that passed all checks. If an allocation fails, the boot is unchanged.
pub(crate) fn takes_line<W: Waiting>(
    state: &mut State<W>,
    line: BootLine,
) -> Result<(), OutOfMemory>
    requires cores { state.old.book.boot.cores ≤ core_limit }
    requires faultless { IsTrue (is_ok
        (boot_check state.old.book.boot.cores (so_far state.old) line)) }
    requires hand { state.old.hand ≡ [] }
    requires boot { state.old.book.lines ≡ [] }
    ensures ok { OnOk result (state.new.book
        ≡ record state.old.book {
          boot = record state.old.book.boot
              { lines = line ∷ state.old.book.boot.lines };
        }) }
    ensures unchanged { OnErr result (state.new.book ≡ state.old.book) }
    ensures hand { state.new.hand ≡ [] }
{
    state.reserve()?;
    state.reserve_boot_line()?;
    takes_records(state, &line)?;
    state.close_boot_line(line);
    Ok(())
}
