//! The beta functions of all Yukawa couplings of a model at one loop.
ghost use Rattle.std.specs.Prelude.{◌≡◌, ◌≤◌, length, IfOk, IfErr};
ghost use Rattle.beta_poly.specs.Polynomial.{zero_poly};
ghost use Rattle.sparse_tensor.specs.declared.fault.TensorFault.{TensorFault};
ghost use Rattle.sparse_tensor.specs.Refusals.{IsRefusalOf, IsTensorRefusal};
ghost use Rattle.sparse_tensor.specs.Tensor.{HasValues, entries_of};
ghost use Rattle.model_core.specs.Directions.{yukawa_at};
ghost use Rattle.model_core.specs.Scalar.{scalar_coordinates};
ghost use Rattle.model_core.specs.Valid.{IsValid};
ghost use Rattle.term_expand.specs.Expansion.{IsExpansion};
ghost use Rattle.beta_formulas.specs.YukawaBeta.{yukawa_beta_at};
ghost use Rattle.yukawa_one_loop.specs.Parts.{AreBetas, IsLines};

use crate::lines::{Lines, lines_of};
use crate::matrices::MatrixList;
use crate::parts::beta_matrix;
use crate::stacks::stack;
use contraction_workers::Gate;
use model_core::Model;
use sparse_tensor::{Sparse, TensorFault, ValueList};
use std::alloc::Global;
use std::thread::Threads;
use term_expand::Tensors;

/// The beta functions at all scalar coordinates, the dummy last.
fn beta_matrices(alloc: Global, lines: &Lines) -> Result<MatrixList, TensorFault>
    requires lines { IsLines lines.now }
    ensures value { IfOk result (AreBetas lines.now.model.now (length (scalar_coordinates lines.now.model.now))) }
    ensures refused { IfErr result IsTensorRefusal }
{
    let mut matrices = MatrixList::new(alloc);
    for a in 0..lines.dummy + 1 {
        matrices.push(beta_matrix(alloc, lines, a)?)?;
    }
    Ok(matrices)
}

/// The tensor that is 0 everywhere.
fn no_betas(alloc: Global) -> Result<Sparse, TensorFault>
    ensures value { IfOk result (HasValues 3 (λ key. zero_poly)) }
    ensures refused { IfErr result (λ fault. fault ≡ TensorFault.NoMemory) }
{
    Sparse::gather(alloc, 3, ValueList::new(alloc))
}

/// The beta functions at all scalar coordinates as one tensor.
fn all_betas(alloc: Global, model: &Model, yukawa: &Sparse) -> Result<Sparse, TensorFault>
    requires valid { IsValid model.now }
    requires yukawa { HasValues 3 (yukawa_at model.now) yukawa.now }
    ensures value { IfOk result (HasValues 3 (yukawa_beta_at model.now)) }
    ensures refused { IfErr result IsTensorRefusal }
{
    let lines = lines_of(alloc, model, yukawa)?;
    let matrices = beta_matrices(alloc, &lines)?;
    stack(alloc, &matrices)
}

/// The one-loop beta functions of a model's Yukawa couplings, without their factor 1/(16 pi^2): a tensor with keys
/// (j, k, a) of two fermion components and a scalar coordinate, the dummy last, as the Yukawa tensor has. `tensors` are
/// those that `expand` finds for the model. As the Yukawa tensor it is symmetric in j and k.
///
/// The formula is that of M. E. Machacek and M. T. Vaughn, Nucl. Phys. B236 (1984) 221, with products of groups as
/// in M. Luo, H. Wang and Y. Xiao, hep-ph/0211440. The dummy has no self-energy, so that at it the part of the scalar leg
/// is left out: its values are the beta functions of fermion masses.
///
/// `Overflow` carries two fractions whose sum or product is refused, and comes only where the Yukawa tensor has an entry.
/// One thread does the work yet: no result depends on `_workers`, and the gate is not told.
pub fn yukawa_betas<R: Threads + Sync, G: Gate>(
    _rt: &R,
    alloc: Global,
    model: &Model,
    tensors: &Tensors,
    _workers: u32,
    _gate: &G,
) -> Result<Sparse, TensorFault>
    requires valid { IsValid model.now }
    requires tensors { IsExpansion model.now tensors.now }
    requires low { 1 ≤ _workers }
    requires high { _workers ≤ 64 }
    ensures value { IfOk result (HasValues 3 (yukawa_beta_at model.now)) }
    ensures refused { IfErr result (IsRefusalOf (entries_of tensors.now.yukawa)) }
{
    if tensors.yukawa.len() == 0 {
        return no_betas(alloc);
    }
    all_betas(alloc, model, &tensors.yukawa)
}
