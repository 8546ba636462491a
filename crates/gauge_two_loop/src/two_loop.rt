//! The two-loop beta functions of gauge couplings.
ghost use Rattle.std.specs.Prelude.{◌≡◌, ◌≤◌, map, slice_get, Some, IfOk, IfErr};
ghost use Rattle.std.specs.List.{enumerate_from};
ghost use Rattle.sparse_tensor.specs.Tensor.{HasValues};
ghost use Rattle.model_core.specs.Directions.{yukawa_at};
ghost use Rattle.model_core.specs.GaugeTwoLoop.{gauge_two_loop};
ghost use Rattle.model_core.specs.Valid.{IsValid};
ghost use Rattle.term_expand.specs.Expansion.{IsExpansion};
ghost use Rattle.gauge_two_loop.specs.Refused.{IsGaugeRefusal};

use crate::pieces::gauge_part;
use crate::yukawa::yukawa_part;
use beta_poly::Poly;
use contraction_workers::Gate;
use frac128::ItemList;
use model_core::{Group, Model};
use sparse_tensor::{Sparse, TensorFault};
use std::alloc::Global;
use std::thread::Threads;
use term_expand::Tensors;

/// Polynomials in order, which contracts see as a list.
pub type PolyList = ItemList<Poly>;

/// The two-loop beta function of the coupling of the group at a place.
fn group_two(
    alloc: Global,
    model: &Model,
    place: usize,
    group: &Group,
    yukawa: &Sparse,
) -> Result<Poly, TensorFault>
    requires valid { IsValid model.now }
    requires group { slice_get model.now.groups place ≡ Some group.now }
    requires yukawa { HasValues 3 (yukawa_at model.now) yukawa.now }
    ensures value { IfOk result (λ beta. beta ≡ gauge_two_loop model.now (place, group.now)) }
    ensures refused { IfErr result (IsGaugeRefusal model.now) }
{
    let left = gauge_part(alloc, model, place, group)?;
    let right = yukawa_part(alloc, model, place, group, yukawa)?;
    Ok(left.add(alloc, &right)?)
}

/// The two-loop beta functions of a model's gauge couplings, in the order of the groups, without their factor
/// 1/(16 pi^2)^2. `tensors` are those that `expand` finds for the model.
///
/// `Overflow` carries two fractions whose sum or product is refused. It never comes for a model without terms where each
/// charge is a multiple of 1/6 and at most 10 in size. One thread does the work yet: no result depends on `workers`, and
/// the gate is not told.
pub fn gauge_two<R: Threads + Sync, G: Gate>(
    _rt: &R,
    alloc: Global,
    model: &Model,
    tensors: &Tensors,
    _workers: u32,
    _gate: &G,
) -> Result<PolyList, TensorFault>
    requires valid { IsValid model.now }
    requires tensors { IsExpansion model.now tensors.now }
    requires low { 1 ≤ _workers }
    requires high { _workers ≤ 64 }
    ensures value { IfOk result (λ found. found ≡ map (gauge_two_loop model.now) (enumerate_from 0 model.now.groups)) }
    ensures refused { IfErr result (IsGaugeRefusal model.now) }
{
    let mut found = PolyList::new(alloc);
    let groups = model.groups.as_slice();
    for place in 0..groups.len() {
        found.push(group_two(alloc, model, place, &groups[place], &tensors.yukawa)?)?;
    }
    Ok(found)
}
