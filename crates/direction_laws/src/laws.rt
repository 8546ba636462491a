ghost use Rattle.std.specs.Prelude.{◌≡◌, ℕ, List, [], ◌∷◌, slice_get, Some};
ghost use Rattle.frac128.specs.Rational.{zero_ℚ};
ghost use Rattle.model_core.specs.declared.model.Model.{Model};
ghost use Rattle.model_core.specs.BlockSide.{IsComponentOf};
ghost use Rattle.model_core.specs.Directions.{Direction, directions};
ghost use Rattle.model_core.specs.Valid.{IsValid};

/// A direction of a valid model is 0 at every key that isn't a component of its block on its side.
///
/// A key has the side before the places of its legs; the key without a side is no component.
pub fn directions_stand_on_their_blocks()
    ensures component { (model : Model) (place : ℕ) (direction : Direction) → IsValid model → slice_get (directions model) place ≡ Some direction → (side : ℕ) (places : List ℕ) → (IsComponentOf model direction.kind direction.block side places → ⊥) → direction.numbers (side ∷ places) ≡ zero_ℚ }
    ensures no_side { (model : Model) (place : ℕ) (direction : Direction) → slice_get (directions model) place ≡ Some direction → direction.numbers [] ≡ zero_ℚ }
{}
