//! What a filled slot changes.
ghost use Rattle.mcs_slots.specs.Pages.{HasSlot, ArePages};
ghost use Rattle.mcs_slots.specs.Filling.{Filling, ChangesOne};

/// Law: a filled slot holds what it was given, every other slot and each radix is unchanged, and
/// the count of slots with a capability to an object changes by that slot alone.
pub fn one_slot_changes()
    ghost filling: { Filling }
    requires pages { ArePages filling.before }
    requires slot { HasSlot filling.before filling.at }
    ensures { ChangesOne filling }
{}
