ghost use Rattle.std.specs.Prelude.{◌≡◌, ◌↔◌, ℕ, false, [], ◌∷◌, slice_get, Some};
ghost use Rattle.std.specs.List.{flat_map};
ghost use Rattle.su_reps.specs.Tuples.{AreValues};
ghost use Rattle.model_core.specs.declared.group.Group.{Group};
ghost use Rattle.model_core.specs.declared.model.Model.{Model};
ghost use Rattle.model_core.specs.declared.term.Term.{Term};
ghost use Rattle.model_core.specs.Directions.{Direction};
ghost use Rattle.model_core.specs.Groups.{is_abelian};
ghost use Rattle.model_core.specs.Invariance.{direction_failures, failures_under};
ghost use Rattle.model_core.specs.Valid.{IsValid};
ghost use Rattle.neighbour_laws.specs.Neighbours.{AreUnchanged, IsUnchanged, neighbours, special_generator};

/// What no neighbouring X_ij changes, no X_ij changes.
///
/// This holds of each SU(n) and on each side of a direction's block. So a direction has no failures
/// exactly where it has none under the charge and the neighbouring X_ij.
pub fn neighbours_suffice()
    ensures side { (model : Model) (direction : Direction) (side place : ℕ) (group : Group) → IsValid model → slice_get model.groups place ≡ Some group → is_abelian group ≡ false → AreUnchanged model direction side place group.n → (i j : ℕ) → AreValues group.n (i ∷ j ∷ []) → IsUnchanged model direction side (special_generator place i j) }
    ensures failures { (model : Model) (term : Term) (direction : Direction) → IsValid model → (flat_map (failures_under model term direction) (neighbours model) ≡ []) ↔ (direction_failures model term direction ≡ []) }
{}
