//! The law of the beta functions.
ghost use Rattle.std.specs.Prelude.{◌≡◌, List, IsPermutation};
ghost use Rattle.model_core.specs.declared.model.Model.{Model};
ghost use Rattle.model_core.specs.Scalar.{Coordinate};
ghost use Rattle.beta_formulas.specs.ScalarBeta.{scalar_beta};

/// The beta functions of scalar couplings don't change where their coordinates are permuted.
#[tactic(auto, using(crate::proofs::BetaLaws::scalar_beta_permuted))]
pub fn beta_functions_are_symmetric()
    ensures { (model : Model) (cs ds : List Coordinate) → IsPermutation cs ds → scalar_beta model cs ≡ scalar_beta model ds }
{}
