//! The spaces of a plan.
ghost use Rattle.std.specs.Prelude.{◌≡◌, ◌<◌, ◌^◌, length, map, slice_get, is_some, option_map, option_and_then};
ghost use Rattle.mcs_plan_source.specs.Naming.{find};
ghost use Rattle.mcs_plan_source.specs.Saying.{said_space};
ghost use Rattle.mcs_plan_layout.specs.Layouts.{space_of_cnode};

use mcs_plan_source::{Slot, Space};
use mcs_types::{Kind, ObjId};

/// Returns how many slots a space has, beside slot 0.
#[tactic(auto, using(crate::proofs::SaidSpaces::counted))]
pub fn slot_count(space: &Space) -> usize
    ensures value { result ≡ length (said_space space.now).slots }
    ensures small { result < 2 ^ 63 }
{
    space.slots.len()
}

/// The slot at an index, from 0, with its name.
#[tactic(auto, using(crate::proofs::SaidSpaces::slot_there, crate::proofs::SaidSpaces::no_slot_there))]
pub fn slot_at(space: &Space, index: usize) -> Option<(&str, &Slot)>
    ensures { option_map (λ s. (s.0.now, s.1.now.cap)) result
        ≡ slice_get (said_space space.now).slots index }
{
    let (name, slot) = space.slots.get_index(index)?;
    Some((name.as_str(), slot))
}

/// Returns whether it has a slot of this name.
#[tactic(auto, using(crate::proofs::SaidSpaces::named_same))]
pub fn has_slot(space: &Space, name: &str) -> bool
    ensures { result ≡ is_some (find (said_space space.now).slots name.now) }
{
    space.has(name)
}

/// The space at a place.
#[tactic(auto, using(crate::proofs::SaidSpaces::space_there))]
pub fn space_at(spaces: &[Space], place: usize) -> Option<&Space>
    ensures { option_map (λ s. said_space s.now) result
        ≡ slice_get (map said_space spaces.now) place }
{
    spaces.get(place)
}

/// Returns the space whose root is a CNode.
pub fn space_of_cnode(spaces: &[Space], cnode: ObjId) -> Option<&Space>
    ensures { option_map (λ s. said_space s.now) result
        ≡ space_of_cnode (map said_space spaces.now) cnode }
{
    space_at(spaces, cnode.place(Kind::CNode)?)
}
