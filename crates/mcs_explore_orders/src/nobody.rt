//! A watch that keeps nothing.
use crate::explorer::Watch;
use mcs_explore_walk::{OrdersFault, Turn, Users, Walk};
use mcs_queues::PlainLines;
use mcs_turns::Position;
use mcs_types::Answer;

/// A watch that keeps nothing.
#[derive(Drop)]
pub struct Nobody;

impl Watch for Nobody {
    ghost HasSeen = { λ w users shown. Unit {0} };

    ghost Aim = { Unit {0} };

    ghost aim = { λ w. tt };

    fn see_state(
        &mut self,
        _users: &Users,
        _place: usize,
        _walk: &Walk<PlainLines>,
        _is_over: bool,
    ) -> Result<(), OrdersFault> {
        Ok(())
    }

    fn see_turn(
        &mut self,
        _users: &Users,
        _place: usize,
        _turn: Turn,
        _answer: &Answer,
        _from: &[Position],
        _walk: &Walk<PlainLines>,
    ) -> Result<(), OrdersFault> {
        Ok(())
    }

    fn goes_on(&self) -> bool {
        true
    }
}
