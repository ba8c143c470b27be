//! Laws of the entries of C, each the contract of a function that does nothing.
ghost use Rattle.std.specs.Prelude.{◌≡◌, Ok};
ghost use Rattle.mcs_types.specs.declared.entry.Step.{Step};
ghost use Rattle.mcs_c.specs.Encoding.{IsEncodable, IsHeld, encoded};
ghost use Rattle.mcs_c.specs.Entering.{step_said};

/// Law: each step whose numbers are in their ranges is the step of an entry that C can hold.
#[tactic(auto, using(crate::proofs::Encoded::held, crate::proofs::Encoded::said))]
pub fn steps_encoded()
    ghost step: { Step }
    requires { IsEncodable step }
    ensures held { IsHeld (encoded step) }
    ensures said { step_said (encoded step) ≡ Ok step }
{}
