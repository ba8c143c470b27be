//! The threads of a queue, one after the other.
use crate::state::State;
use mcs_object_queues::Waiting;
use mcs_types::ObjId;

/// An iterator over the threads of a queue, first to last. It allocates nothing.
#[derive(Drop)]
pub struct Queued<'a, W: Waiting> {
    pub(crate) state: &'a State<W>,
    pub(crate) at: Option<ObjId>,
    pub(crate) left: u16,
}

impl<'a, W: Waiting> Iterator for Queued<'a, W> {
    ghost use Rattle.std.specs.Iterator.{YieldsFirst, item_count};
    ghost use Rattle.mcs_state.specs.Now.{so_far};
    ghost use Rattle.mcs_state.specs.Nexts.{behind};

    type Item = ObjId;

    ghost next_gives = { YieldsFirst (λ q. behind q.left (so_far q.state.now) q.at) };

    ghost remaining = { item_count (λ q. behind q.left (so_far q.state.now) q.at) };

    fn next(&mut self) -> Option<ObjId> {
        if self.left == 0 {
            return None;
        }
        let thread = self.at?;
        self.left -= 1;
        self.at = self.state.next(thread);
        Some(thread)
    }
}
