//! Packed addresses, of four bytes; large ones are among the words.
ghost use Rattle.std.specs.Prelude.{◌≡◌};
ghost use Rattle.mcs_packing.specs.Addresses.{AddressFits, GrewWords, HasWordRoom, address_of};

use crate::arena::{Arena, keep_one};

/// Packed addresses from this one on stand for positions among the words; smaller ones stand for
/// themselves.
const FIRST_FAR: u32 = 1 << 30;

/// A packed address: the address itself if it is small, and else the position of its word.
#[derive(Clone, Copy)]
pub struct PackedAddress(pub u32);

/// Returns the address for a packed one.
#[inline(always)]
pub fn address_at(words: &[u64], address: PackedAddress) -> u64
    requires { AddressFits address words.now }
    ensures { result ≡ address_of address words.now }
{
    if address.0 < FIRST_FAR {
        address.0 as u64
    } else {
        words[(address.0 - FIRST_FAR) as usize]
    }
}

impl Arena {
    /// Stores a large address among the words.
    // not inlined, so that an entry with small ones pays only for the tests
    #[cold]
    #[inline(never)]
    fn keep_far(&mut self, address: u64) -> PackedAddress
        requires { HasWordRoom self.old 1 }
        ensures value { address_of result self.new.words.items ≡ address }
        ensures fits { AddressFits result self.new.words.items }
        ensures grew { GrewWords 1 self.old self.new }
    {
        PackedAddress(FIRST_FAR + keep_one(&mut self.words, address))
    }

    /// Packs an address; there must be room.
    #[inline(always)]
    pub(crate) fn pack_address(&mut self, address: u64) -> PackedAddress
        requires { HasWordRoom self.old 1 }
        ensures value { address_of result self.new.words.items ≡ address }
        ensures fits { AddressFits result self.new.words.items }
        ensures grew { GrewWords 1 self.old self.new }
    {
        if address < FIRST_FAR as u64 {
            PackedAddress(address as u32)
        } else {
            self.keep_far(address)
        }
    }

    /// Packs two addresses; there must be room.
    #[inline(always)]
    pub(crate) fn pack_two(&mut self, first: u64, second: u64) -> (PackedAddress, PackedAddress)
        requires { HasWordRoom self.old 2 }
        ensures first { address_of result.0 self.new.words.items ≡ first }
        ensures first_fits { AddressFits result.0 self.new.words.items }
        ensures second { address_of result.1 self.new.words.items ≡ second }
        ensures second_fits { AddressFits result.1 self.new.words.items }
        ensures grew { GrewWords 2 self.old self.new }
    {
        let first = self.pack_address(first);
        let second = self.pack_address(second);
        (first, second)
    }
}
