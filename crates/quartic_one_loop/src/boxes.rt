//! The loop of four Yukawa couplings.
ghost use Rattle.std.specs.Prelude.{◌≡◌, slice_get, Some, OnOk, IfOk, IfErr};
ghost use Rattle.sparse_tensor.specs.Refusals.{IsTensorRefusal};
ghost use Rattle.sparse_tensor.specs.Tensor.{HasValues, rank_of};
ghost use Rattle.model_core.specs.Component.{Component, fermion_components};
ghost use Rattle.model_core.specs.GaugeTwoLoop.{negative};
ghost use Rattle.model_core.specs.Valid.{IsValid};
ghost use Rattle.quartic_one_loop.specs.Boxes.{IsVertices, box_from, half_from_at, half_to_at};
ghost use Rattle.quartic_one_loop.specs.FourLegs.{AddsFour, AreWithin, IsYukawa};
ghost use Rattle.quartic_one_loop.specs.OrderShares.{box_share};

use crate::conjugates::conjugate_tensor;
use crate::pushes::push_scaled;
use crate::slices::slice_of;
use frac128::Frac;
use model_core::{Model, fermion_count};
use sparse_tensor::{LinkList, Sparse, TensorFault, ValueList};
use std::alloc::Global;
use yukawa_one_loop::identity_links;

/// The Yukawa couplings of a model as the loop takes them.
#[derive(Drop)]
struct Vertices<'a> {
    /// The model.
    model: &'a Model,
    /// Y[a] at each scalar coordinate a.
    yukawa: &'a Sparse,
    /// Yd[a], the conjugate of Y[a*].
    conjugate: Sparse,
    /// The links from each fermion component to itself.
    links: LinkList,
}

/// The Yukawa couplings of a valid model with this Yukawa tensor.
fn vertices_of<'a>(
    alloc: Global,
    model: &'a Model,
    yukawa: &'a Sparse,
) -> Result<Vertices<'a>, TensorFault>
    requires valid { IsValid model.now }
    requires yukawa { IsYukawa model.now yukawa.now }
    ensures value { IfOk result IsVertices }
    ensures model { IfOk result (λ vertices. vertices.model.now ≡ model.now) }
    ensures refused { IfErr result IsTensorRefusal }
{
    let conjugate = conjugate_tensor(alloc, model, yukawa)?;
    let links = identity_links(alloc, fermion_count(model))?;
    Ok(Vertices {
        model,
        yukawa,
        conjugate,
        links,
    })
}

/// The half of the loop that goes out from the fermion component i at a place: the entry of Y[a] Yd[b] at i and j, with the key
/// (a, j, b).
fn half_from(alloc: Global, vertices: &Vertices, place: u32) -> Result<Sparse, TensorFault>
    requires vertices { IsVertices vertices.now }
    ensures rank { IfOk result (λ half. rank_of half ≡ 3) }
    ensures value { (i : Component) → slice_get (fermion_components vertices.now.model.now) place ≡ Some i → IfOk result (HasValues 3 (half_from_at vertices.now.model.now i)) }
    ensures within { IfOk result (AreWithin 2) }
    ensures refused { IfErr result IsTensorRefusal }
{
    let slice = slice_of(alloc, vertices.yukawa, 0, place)?;
    slice.contract(alloc, 0, &vertices.conjugate, 0, &vertices.links)
}

/// The half of the loop that comes back to the fermion component i at a place: the entry of Y[c] Yd[d] at j and i, with the key
/// (j, c, d).
fn half_to(alloc: Global, vertices: &Vertices, place: u32) -> Result<Sparse, TensorFault>
    requires vertices { IsVertices vertices.now }
    ensures rank { IfOk result (λ half. rank_of half ≡ 3) }
    ensures value { (i : Component) → slice_get (fermion_components vertices.now.model.now) place ≡ Some i → IfOk result (HasValues 3 (half_to_at vertices.now.model.now i)) }
    ensures within { IfOk result (AreWithin 2) }
    ensures refused { IfErr result IsTensorRefusal }
{
    let slice = slice_of(alloc, &vertices.conjugate, 1, place)?;
    vertices
        .yukawa
        .contract(alloc, 1, &slice, 0, &vertices.links)
}

/// Adds minus what the fermion component at a place gives the trace of Y[a] Yd[b] Y[c] Yd[d].
fn push_box(
    alloc: Global,
    vertices: &Vertices,
    values: &mut ValueList,
    place: u32,
) -> Result<(), TensorFault>
    requires vertices { IsVertices vertices.now }
    ensures value { (i : Component) → slice_get (fermion_components vertices.now.model.now) place ≡ Some i → OnOk result (AddsFour vertices.now.model.now (λ a b c d. negative (box_from vertices.now.model.now i a b c d)) values.old values.new) }
    ensures refused { IfErr result IsTensorRefusal }
{
    let from = half_from(alloc, vertices, place)?;
    let to = half_to(alloc, vertices, place)?;
    let product = from.contract(alloc, 1, &to, 0, &vertices.links)?;
    push_scaled(alloc, values, Frac::one().negated(), &product)
}

/// Adds minus the trace of Y[a] Yd[b] Y[c] Yd[d], at each (a, b, c, d).
pub fn push_boxes(
    alloc: Global,
    model: &Model,
    yukawa: &Sparse,
    values: &mut ValueList,
) -> Result<(), TensorFault>
    requires valid { IsValid model.now }
    requires yukawa { IsYukawa model.now yukawa.now }
    ensures value { OnOk result (AddsFour model.now (box_share model.now) values.old values.new) }
    ensures refused { IfErr result IsTensorRefusal }
{
    let vertices = vertices_of(alloc, model, yukawa)?;
    for place in 0..fermion_count(model) {
        push_box(alloc, &vertices, values, place)?;
    }
    Ok(())
}
