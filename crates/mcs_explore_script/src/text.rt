//! The bytes of a script of users, with its boot and entries.
ghost use Rattle.std.specs.Prelude.{◌≡◌, ◌++◌, IfErr, IfOk, None, OnOk};
ghost use Rattle.mcs_explore_script.specs.Texts.{IsText};
ghost use Rattle.mcs_sim.specs.Running.{EndsUsers};

use mcs_kernel::Boot;
use mcs_phases::SimFault;
use mcs_sim::{Source, UserLines};
use mcs_source::PIECE;
use mcs_text::UserEntry;
use std::alloc::Global;
use std::io::Read;

/// A text, with its boot and entries.
#[derive(Drop)]
pub struct UsersText {
    pub text: Vec<u8>,
    pub boot: Boot,
    pub entries: Vec<UserEntry>,
}

/// Adds a piece to a text. `OutOfMemory` if an allocation fails.
fn keep(text: &mut Vec<u8>, piece: &[u8]) -> Result<(), SimFault>
    ensures kept { OnOk result (text.new.items ≡ text.old.items ++ piece.now) }
    ensures fault { IfErr result (λ e. e ≡ SimFault.OutOfMemory) }
{
    match text.extend_from_slice(piece) {
        Ok(()) => Ok(()),
        Err(_) => Err(SimFault::OutOfMemory),
    }
}

/// Reads a source to its end, or to a fault: of a line, as `mcssim run` has them, `Read` if a read
/// failed, `OutOfMemory` if an allocation fails. A fault of a line comes with the piece of at most
/// 4,096 bytes that has it.
pub fn read_text<R: Read>(alloc: Global, from: &mut Source<R>) -> Result<UsersText, SimFault>
    ensures ok { IfOk result (λ t. IsText (R.remaining from.old.reader)
        (R.remaining from.new.reader) t.text.items t.boot t.entries.items) }
    ensures err { IfErr result (λ e. EndsUsers e None (R.remaining from.old.reader)
        (R.remaining from.new.reader)) }
{
    let Ok(mut users) = UserLines::new(alloc, None) else {
        return Err(SimFault::OutOfMemory);
    };
    let mut text = Vec::new(alloc);
    let mut piece = [0; PIECE];
    loop {
        let Ok(n) = from.read_piece(&mut piece) else {
            return Err(SimFault::Read);
        };
        if n == 0 {
            let (boot, entries) = users.end(alloc)?;
            return Ok(UsersText {
                text,
                boot,
                entries,
            });
        }
        users.feed(alloc, &piece[..n])?;
        keep(&mut text, &piece[..n])?;
    }
}
