//! Rights, as a word of a plan.
ghost use Rattle.std.specs.Prelude.{◌≡◌, ◌<◌, IfSome};
ghost use Rattle.mcs_plan_source.specs.Capabilities.{bit_of, with_letter, bits_after, rights_of};

use mcs_types::Rights;

/// The bit of a letter of rights, and 0 for any other.
fn bit_of(letter: u8) -> u8
    ensures { result ≡ bit_of letter }
{
    match letter {
        119 => 1,
        114 => 2,
        103 => 4,
        112 => 8,
        _ => 0,
    }
}

/// Returns rights with the right of a letter added. None if it is no letter of rights, or was
/// there.
#[tactic(auto, using(crate::proofs::PlanWords::few_bits))]
fn with_letter(bits: u8, letter: u8) -> Option<u8>
    requires { bits < 16 }
    ensures value { result ≡ with_letter bits letter }
    ensures few { IfSome result (λ b. b < 16) }
{
    let bit = bit_of(letter);
    if bit == 0 || bits & bit != 0 {
        return None;
    }
    Some(bits | bit)
}

/// The rights of letters, each of them once.
#[tactic(auto, using(crate::proofs::PlanWords::next_letter))]
fn bits_of(letters: &[u8]) -> Option<u8>
    ensures value { result ≡ bits_after 0 letters.now }
    ensures few { IfSome result (λ b. b < 16) }
{
    let mut bits: u8 = 0;
    for letter in letters {
        bits = with_letter(bits, *letter)?;
    }
    Some(bits)
}

/// The rights that a word spells: `-`, or letters of `rwgp`, each once, in any order.
pub fn rights_of(word: &str) -> Option<Rights>
    ensures { result ≡ rights_of word.now }
{
    if word == "-" {
        return Rights::new(0);
    }
    if word.as_bytes().is_empty() {
        return None;
    }
    Rights::new(bits_of(word.as_bytes())?)
}
