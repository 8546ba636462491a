//! What holds of derivations and checks.
ghost use Rattle.std.specs.Prelude.{◌≡◌, ℕ, List, Result};
ghost use Rattle.derive_core.specs.Derivation.{IsCheck, IsDerivation};
ghost use Rattle.derive_core.specs.declared.betas.Betas.{Betas};
ghost use Rattle.derive_core.specs.declared.betas.Checked.{Checked};
ghost use Rattle.derive_core.specs.declared.fault.DeriveFault.{DeriveFault};

/// A file has one derivation to so many loops: the same lines, or the same refusal. `derive` answers it
/// but where it answers `Overflow` or `NoMemory`, which are no part of the definition.
#[tactic(auto, using(crate::proofs::OneAnswer::one_derivation))]
pub fn a_file_has_one_derivation()
    ensures { (loops : ℕ) (bytes : List ℕ) (first second : Result Betas DeriveFault) → IsDerivation loops bytes first → IsDerivation loops bytes second → first ≡ second }
{}

/// A file has one check: its acceptance, or the same refusal. `check` answers it but where it answers
/// `Overflow` or `NoMemory`.
#[tactic(auto, using(crate::proofs::OneAnswer::one_check))]
pub fn a_file_has_one_check()
    ensures { (bytes : List ℕ) (first second : Result Checked DeriveFault) → IsCheck bytes first → IsCheck bytes second → first ≡ second }
{}
