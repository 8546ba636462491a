//! The beta functions of all scalar couplings of a model at one loop.
ghost use Rattle.std.specs.Prelude.{◌≡◌, ◌≤◌, [], IfOk, IfErr};
ghost use Rattle.beta_poly.specs.Polynomial.{zero_poly};
ghost use Rattle.sparse_tensor.specs.declared.fault.TensorFault.{TensorFault};
ghost use Rattle.sparse_tensor.specs.Refusals.{IsTensorRefusal};
ghost use Rattle.sparse_tensor.specs.Tensor.{HasValues};
ghost use Rattle.model_core.specs.Valid.{IsValid};
ghost use Rattle.term_expand.specs.Expansion.{IsExpansion};
ghost use Rattle.beta_formulas.specs.ScalarBeta.{scalar_beta_at};
ghost use Rattle.quartic_one_loop.specs.FourLegs.{AddsFour, IsQuartic, IsScalarRefusal, IsYukawa};
ghost use Rattle.quartic_one_loop.specs.OrderShares.{order_share};

use crate::boxes::push_boxes;
use crate::charges::push_charges;
use crate::formed::formed_of;
use crate::gauges::push_gauges;
use crate::legs::push_legs;
use crate::loops::push_loops;
use contraction_workers::Gate;
use model_core::{Model, scalar_count};
use sparse_tensor::{Sparse, TensorFault, ValueList};
use std::alloc::Global;
use std::thread::Threads;
use term_expand::Tensors;

/// The values that add up to what one order of the legs gives.
fn share_values(
    alloc: Global,
    model: &Model,
    yukawa: &Sparse,
    quartic: &Sparse,
) -> Result<ValueList, TensorFault>
    requires valid { IsValid model.now }
    requires yukawa { IsYukawa model.now yukawa.now }
    requires quartic { IsQuartic model.now quartic.now }
    ensures value { IfOk result (AddsFour model.now (order_share model.now) []) }
    ensures refused { IfErr result IsTensorRefusal }
{
    let mut values = ValueList::new(alloc);
    push_loops(alloc, model, quartic, &mut values)?;
    push_boxes(alloc, model, yukawa, &mut values)?;
    push_legs(alloc, model, yukawa, quartic, &mut values)?;
    push_charges(alloc, model, quartic, &mut values)?;
    push_gauges(alloc, model, &mut values)?;
    Ok(values)
}

/// The beta functions from the Yukawa tensor and the scalar tensor: the sum over all orders of the legs, without the keys
/// that have more than two dummies.
fn all_betas(
    alloc: Global,
    model: &Model,
    yukawa: &Sparse,
    quartic: &Sparse,
) -> Result<Sparse, TensorFault>
    requires valid { IsValid model.now }
    requires yukawa { IsYukawa model.now yukawa.now }
    requires quartic { IsQuartic model.now quartic.now }
    ensures value { IfOk result (HasValues 4 (scalar_beta_at model.now)) }
    ensures refused { IfErr result IsTensorRefusal }
{
    let values = share_values(alloc, model, yukawa, quartic)?;
    let shares = Sparse::gather(alloc, 4, values)?;
    let sums = shares.symmetrise(alloc, &[0, 1, 2, 3])?;
    let dummy = scalar_count(model) - 1;
    formed_of(alloc, &sums, dummy)
}

/// The tensor that is 0 everywhere.
fn no_betas(alloc: Global) -> Result<Sparse, TensorFault>
    ensures value { IfOk result (HasValues 4 (λ key. zero_poly)) }
    ensures refused { IfErr result (λ fault. fault ≡ TensorFault.NoMemory) }
{
    Sparse::gather(alloc, 4, ValueList::new(alloc))
}

/// The one-loop beta functions of a model's scalar couplings, without their factor 1/(16 pi^2): a tensor with keys
/// (a, b, c, d) of four scalar coordinates, the dummy last, as the scalar tensor has. `tensors` are those that `expand` finds
/// for the model. As the scalar tensor it is symmetric in its legs. Keys with one dummy have the beta functions of cubic
/// couplings and those with two the ones of masses; at keys with more it is 0.
///
/// The formula is that of M. E. Machacek and M. T. Vaughn, Nucl. Phys. B249 (1985) 70, with products of groups as in
/// M. Luo, H. Wang and Y. Xiao, hep-ph/0211440.
///
/// `Overflow` carries two fractions whose sum or product is refused, and comes only where the model has a scalar field.
/// One thread does the work yet: no result depends on `_workers`, and the gate is not told.
pub fn quartic_betas<R: Threads + Sync, G: Gate>(
    _rt: &R,
    alloc: Global,
    model: &Model,
    tensors: &Tensors,
    _workers: u32,
    _gate: &G,
) -> Result<Sparse, TensorFault>
    requires valid { IsValid model.now }
    requires tensors { IsExpansion model.now tensors.now }
    requires low { 1 ≤ _workers }
    requires high { _workers ≤ 64 }
    ensures value { IfOk result (HasValues 4 (scalar_beta_at model.now)) }
    ensures refused { IfErr result (IsScalarRefusal model.now) }
{
    if model.scalars.len() == 0 {
        return no_betas(alloc);
    }
    all_betas(alloc, model, &tensors.yukawa, &tensors.scalar)
}
