//! The layout of a space (manual: Capability Spaces).
ghost use Rattle.std.specs.Prelude.{◌≡◌, ◌<◌, ◌≤◌, ◌+◌, ◌-◌, ◌*◌, ◌^◌, ◌↔◌, IsSome, IfSome, true};
ghost use Rattle.mcs_plan_layout.specs.SpaceLayouts.{index_bits, bits_for, has_slot, layout_of_radix, layout_of_slots, IsLaidOut, zero_guard};
ghost use Rattle.mcs_plan_layout.specs.Holding.{IsAddressOf};

use mcs_types::{Guard, Place};

/// How many bits of an index a further CNode of a larger space takes.
pub const LEAF: u8 = 8;

/// The bits of a space's addresses, after its guard.
#[derive(Clone, Copy, PartialEq, Eq, Debug)]
pub struct Layout {
    /// The radix of the root CNode, 1 to 8.
    pub root: u8,
    /// The radix of the CNodes in the root: 8, or 0 if the slots are in the root itself.
    pub leaf: u8,
    /// How many bits name a slot of a CNode to which a slot of the space holds a capability, 0 to
    /// 16.
    pub within: u8,
}

/// Returns how many bits name one of this many things, at least one: a table of powers of 2.
fn bits_for(count: u32) -> u8
    ensures value { result ≡ bits_for count }
    ensures some { 1 ≤ result }
    ensures few { result ≤ 8 }
    ensures enough { count ≤ 256 → count ≤ 2 ^ result }
{
    match count {
        0..=2 => 1,
        3..=4 => 2,
        5..=8 => 3,
        9..=16 => 4,
        17..=32 => 5,
        33..=64 => 6,
        65..=128 => 7,
        _ => 8,
    }
}

impl Layout {
    /// Returns the layout of a space with this many slots, up to 65,536: one CNode for up to 256.
    /// None of its slots leads to another space.
    #[tactic(auto, using(crate::proofs::Walks::larger_enough))]
    pub fn of_slots(slots: u32) -> Layout
        ensures value { result ≡ layout_of_slots slots }
        ensures laid_out { IsLaidOut result }
        ensures enough { slots ≤ 65536 → slots ≤ 2 ^ (result.root + result.leaf) }
        ensures within { result.within ≡ 0 }
    {
        if slots <= 256 {
            return Layout {
                root: bits_for(slots),
                leaf: 0,
                within: 0,
            };
        }
        Layout {
            root: bits_for((slots - 1) / 256 + 1),
            leaf: LEAF,
            within: 0,
        }
    }

    /// The layout of a space that is one CNode.
    pub fn of_radix(radix: u8) -> Layout
        ensures { result ≡ layout_of_radix radix }
    {
        Layout {
            root: radix,
            leaf: 0,
            within: 0,
        }
    }

    /// Returns whether a space with this layout has a slot at this index.
    #[tactic(auto, using(crate::proofs::Walks::few_slots))]
    pub fn has(&self, index: usize) -> bool
        ensures value { result ≡ has_slot self.now index }
        ensures laid_out { result ≡ true → IsLaidOut self.now }
        ensures within { result ≡ true → index < 2 ^ (self.now.root + self.now.leaf) }
        ensures few { result ≡ true → index < 65536 }
    {
        if self.root < 1 || self.root > 8 || self.leaf > 8 || self.within > 16 {
            return false;
        }
        index < 1usize << (self.root + self.leaf)
    }

    /// Returns how many bits name a slot.
    pub fn bits(&self) -> u8
        requires { IsLaidOut self.now }
        ensures { result ≡ self.now.root + self.now.leaf }
    {
        self.root + self.leaf
    }

    /// Returns the guard of its root: zeros in all bits before the index.
    pub fn guard(&self) -> Guard
        requires { IsLaidOut self.now }
        ensures { result ≡ zero_guard (64 - index_bits self.now) }
    {
        Guard {
            bits: 64 - self.root - self.leaf - self.within,
            value: 0,
        }
    }

    /// Returns the guard for a capability, in one of its slots, to the root of another space: it
    /// takes the bits of `within` that the other's slots do not use.
    pub fn guard_within(&self, other: &Layout) -> Guard
        requires here { IsLaidOut self.now }
        requires there { IsLaidOut other.now }
        requires fits { other.now.root + other.now.leaf ≤ self.now.within }
        ensures { result ≡ zero_guard (self.now.within - (other.now.root + other.now.leaf)) }
    {
        Guard {
            bits: self.within - other.bits(),
            value: 0,
        }
    }

    /// Returns the index of a slot, shifted left by the bits within.
    fn scaled(&self, slot: u32) -> u64
        requires laid_out { IsLaidOut self.now }
        requires within { slot < 2 ^ (self.now.root + self.now.leaf) }
        ensures { result ≡ slot * 2 ^ self.now.within }
    {
        (slot as u64) << self.within
    }

    /// Returns the address of a slot, which names what the slot holds in every space with this
    /// layout (manual: Capability Spaces).
    pub fn address(&self, slot: u32) -> u64
        requires laid_out { IsLaidOut self.now }
        requires within { slot < 2 ^ (self.now.root + self.now.leaf) }
        ensures value { result ≡ slot * 2 ^ self.now.within }
        ensures named { IsAddressOf self.now slot result }
    {
        self.scaled(slot)
    }

    /// Returns the place of a slot: its index, and the bits of an address up to the index.
    pub fn place(&self, slot: u32) -> Place
        requires { IsLaidOut self.now }
        ensures { result ≡ record { index = slot; depth = 64 - self.now.within } }
    {
        Place {
            index: slot as u64,
            depth: 64 - self.within,
        }
    }

    /// Returns the address of a slot in a CNode to which one of its slots holds a capability. As a
    /// place it has depth 64.
    pub fn address_within(&self, slot: u32, inner: u32) -> u64
        requires laid_out { IsLaidOut self.now }
        requires within { slot < 2 ^ (self.now.root + self.now.leaf) }
        requires inside { inner < 2 ^ self.now.within }
        ensures { result ≡ slot * 2 ^ self.now.within + inner }
    {
        self.address(slot) + inner as u64
    }
}
