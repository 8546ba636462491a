//! The laws of tensors.
ghost use Rattle.sparse_tensor.specs.Laws.{TensorLaws, ContractionLaws, ProjectionLaws, SymmetryLaws};

/// Tensors are functions of their keys: one is known by its rank and by its values at the keys of so many
/// places. A contraction is linear in each of the two tensors, a projection on another leg of either may
/// come before or after it, and it is the sum over all pairs of places with the matrix of the links.
/// Projections and symmetrisations are linear, and a symmetrised function does not change where the places
/// at the legs are permuted.
#[tactic(auto, using(crate::proofs::FunctionLaws::tensor_laws, crate::proofs::FunctionLaws::contraction_laws, crate::proofs::FunctionLaws::projection_laws, crate::proofs::FunctionLaws::symmetry_laws))]
pub fn sparse_tensors_are_functions_of_keys()
    ensures tensors { TensorLaws }
    ensures contractions { ContractionLaws }
    ensures projections { ProjectionLaws }
    ensures symmetries { SymmetryLaws }
{}
