//! Rows that are hashed by their digest, one number of 64 bits.
ghost use Rattle.std.specs.Prelude.{◌≡◌};
ghost use Rattle.std.specs.Hash as fed;
ghost use Rattle.mcs_explore_rows.specs.Hashing.{digest, mixed, same-digest};

use crate::numbers::Row;
use std::hash::{Hash, Hasher};

/// The factor of a digest before the next number is added: odd, with about as many ones as zeros
/// among its 64 bits (own).
const FACTOR: u64 = 6_364_136_223_846_793_005;

/// Returns a digest with one number more.
fn mixed(digest: u64, number: u64) -> u64
    ensures { result ≡ mixed digest number }
{
    digest.wrapping_mul(FACTOR).wrapping_add(number)
}

/// Returns the digest of a row.
fn digest_of(row: &[u64]) -> u64
    ensures { result ≡ digest row.now }
{
    let mut digest: u64 = 0;
    for number in row {
        digest = mixed(digest, *number);
    }
    digest
}

/// An interned row. Its digest alone is hashed, since a hasher takes some 140 instructions for each
/// number.
#[derive(PartialEq, Eq, Drop)]
pub struct Hashed {
    pub row: Row,
}

impl Hash for Hashed {
    ghost hash_input = { λ h. fed.u64 (digest h.row.items) };

    ghost respects_eq = { λ x y same. same-digest x.row.items y.row.items same };

    fn hash<H: Hasher>(&self, state: &mut H) {
        state.write_u64(digest_of(&self.row));
    }
}
