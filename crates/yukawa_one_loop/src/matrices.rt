//! The Yukawa matrices of a model, one for each scalar coordinate.
ghost use Rattle.std.specs.Prelude.{◌≡◌, ◌<◌, ◌++◌, length, slice_get, Some, IfOk, IfErr, OnOk};
ghost use Rattle.beta_poly.specs.Polynomial.{conj_poly};
ghost use Rattle.sparse_tensor.specs.Refusals.{IsTensorRefusal};
ghost use Rattle.sparse_tensor.specs.Tensor.{HasValues, value, rank_of};
ghost use Rattle.model_core.specs.Directions.{yukawa_at};
ghost use Rattle.model_core.specs.Scalar.{Coordinate, scalar_coordinates};
ghost use Rattle.model_core.specs.Valid.{IsValid};
ghost use Rattle.beta_formulas.specs.YukawaBeta.{yukawa as plain_matrix, conjugate as conjugate_matrix};
ghost use Rattle.yukawa_one_loop.specs.Entries.{sliced, slice_at};
ghost use Rattle.yukawa_one_loop.specs.Matrices.{AreMatrices, HaveMatrices, IsLinear};

use beta_poly::Poly;
use frac128::ItemList;
use model_core::{Model, partner, scalar_count};
use sparse_tensor::{Sparse, TensorFault, Value, ValueList};
use std::alloc::{AllocError, Global};
use term_expand::copied;

/// Matrices over the fermion components, as tensors of two legs.
pub type MatrixList = ItemList<Sparse>;

/// The Yukawa matrices Y[a] and Yd[a], one for each scalar coordinate a, the dummy last.
#[derive(Drop)]
pub struct YukawaMatrices {
    /// Y[a].
    pub plain: MatrixList,
    /// Yd[a], the conjugate of Y[a*].
    pub conjugate: MatrixList,
}

/// Adds an entry of three legs without its third place, where that is the given one.
fn push_sliced(
    alloc: Global,
    values: &mut ValueList,
    place: u32,
    key: &[u32],
    value: &Poly,
) -> Result<(), AllocError>
    requires { length key.now ≡ 3 }
    ensures { OnOk result (values.new ≡ values.old ++ sliced place (key.now, value.now)) }
{
    if key[2] != place {
        return Ok(());
    }
    values.push(Value {
        key: copied(alloc, &key[..2])?,
        value: value.copy(alloc)?,
    })?;
    Ok(())
}

/// The slice of a tensor of three legs at a place of the third.
fn slice_of(alloc: Global, tensor: &Sparse, place: u32) -> Result<Sparse, TensorFault>
    requires { rank_of tensor.now ≡ 3 }
    ensures value { IfOk result (HasValues 2 (slice_at place (value tensor.now))) }
    ensures refused { IfErr result IsTensorRefusal }
{
    let mut values = ValueList::new(alloc);
    for at in 0..tensor.len() {
        let (key, entry) = tensor.item(at);
        push_sliced(alloc, &mut values, place, key, entry)?;
    }
    Sparse::gather(alloc, 2, values)
}

/// The tensor with the conjugate of each value.
fn conjugated(alloc: Global, tensor: &Sparse) -> Result<Sparse, TensorFault>
    ensures value { IfOk result (HasValues (rank_of tensor.now) (λ key. conj_poly (value tensor.now key))) }
    ensures refused { IfErr result IsTensorRefusal }
{
    let mut values = ValueList::new(alloc);
    for at in 0..tensor.len() {
        let (key, entry) = tensor.item(at);
        values.push(Value {
            key: copied(alloc, key)?,
            value: entry.conj(alloc)?,
        })?;
    }
    Sparse::gather(alloc, tensor.rank(), values)
}

/// Yd[a] for the coordinate a at a place.
fn conjugate_at(
    alloc: Global,
    model: &Model,
    yukawa: &Sparse,
    place: u32,
) -> Result<Sparse, TensorFault>
    requires valid { IsValid model.now }
    requires yukawa { HasValues 3 (yukawa_at model.now) yukawa.now }
    requires place { place < length (scalar_coordinates model.now) }
    ensures value { IfOk result (λ found. (a : Coordinate) → slice_get (scalar_coordinates model.now) place ≡ Some a → IsLinear model.now (conjugate_matrix model.now a) found) }
    ensures refused { IfErr result IsTensorRefusal }
{
    let slice = slice_of(alloc, yukawa, partner(model, place))?;
    conjugated(alloc, &slice)
}

/// Y[a] for each scalar coordinate a.
fn plain_matrices(alloc: Global, model: &Model, yukawa: &Sparse) -> Result<MatrixList, TensorFault>
    requires valid { IsValid model.now }
    requires yukawa { HasValues 3 (yukawa_at model.now) yukawa.now }
    ensures value { IfOk result (AreMatrices model.now (plain_matrix model.now) (scalar_coordinates model.now)) }
    ensures refused { IfErr result IsTensorRefusal }
{
    let mut matrices = MatrixList::new(alloc);
    for place in 0..scalar_count(model) {
        matrices.push(slice_of(alloc, yukawa, place)?)?;
    }
    Ok(matrices)
}

/// Yd[a] for each scalar coordinate a.
fn conjugate_matrices(
    alloc: Global,
    model: &Model,
    yukawa: &Sparse,
) -> Result<MatrixList, TensorFault>
    requires valid { IsValid model.now }
    requires yukawa { HasValues 3 (yukawa_at model.now) yukawa.now }
    ensures value { IfOk result (AreMatrices model.now (conjugate_matrix model.now) (scalar_coordinates model.now)) }
    ensures refused { IfErr result IsTensorRefusal }
{
    let mut matrices = MatrixList::new(alloc);
    for place in 0..scalar_count(model) {
        matrices.push(conjugate_at(alloc, model, yukawa, place)?)?;
    }
    Ok(matrices)
}

/// The Yukawa matrices of a model, from its Yukawa tensor.
pub fn yukawa_matrices(
    alloc: Global,
    model: &Model,
    yukawa: &Sparse,
) -> Result<YukawaMatrices, TensorFault>
    requires valid { IsValid model.now }
    requires yukawa { HasValues 3 (yukawa_at model.now) yukawa.now }
    ensures value { IfOk result (HaveMatrices model.now) }
    ensures refused { IfErr result IsTensorRefusal }
{
    let plain = plain_matrices(alloc, model, yukawa)?;
    let conjugate = conjugate_matrices(alloc, model, yukawa)?;
    Ok(YukawaMatrices { plain, conjugate })
}
