//! Matrices of all coordinates as one tensor.
ghost use Rattle.std.specs.Prelude.{◌≡◌, ◌++◌, ◌∷◌, [], map, IfOk, IfErr, OnOk};
ghost use Rattle.std.specs.List.{All};
ghost use Rattle.sparse_tensor.specs.Refusals.{IsTensorRefusal};
ghost use Rattle.sparse_tensor.specs.Tensor.{HasValues, entries_of, rank_of};
ghost use Rattle.yukawa_one_loop.specs.Entries.{entry_behind, stacked_at};

use crate::matrices::MatrixList;
use frac128::NumberList;
use sparse_tensor::{Sparse, TensorFault, Value, ValueList};
use std::alloc::{AllocError, Global};
use term_expand::copied;

/// A place of a list as a place of a key; a list that has more places than keys can tell counts as too large for the memory.
fn place_of(place: usize) -> Result<u32, TensorFault>
    ensures value { IfOk result (λ found. found ≡ place) }
    ensures refused { IfErr result IsTensorRefusal }
{
    match u32::try_from(place) {
        Ok(found) => Ok(found),
        Err(_) => Err(TensorFault::NoMemory),
    }
}

/// A key with one place more.
fn key_behind(alloc: Global, key: &[u32], place: u32) -> Result<NumberList, AllocError>
    ensures { IfOk result (λ found. found ≡ key.now ++ place ∷ []) }
{
    let mut found = copied(alloc, key)?;
    found.push(place)?;
    Ok(found)
}

/// Adds the entries of a matrix with one place more.
fn push_layer(
    alloc: Global,
    values: &mut ValueList,
    place: u32,
    matrix: &Sparse,
) -> Result<(), AllocError>
    ensures { OnOk result (values.new ≡ values.old ++ map (entry_behind place) (entries_of matrix.now)) }
{
    for at in 0..matrix.len() {
        let (key, entry) = matrix.item(at);
        values.push(Value {
            key: key_behind(alloc, key, place)?,
            value: entry.copy(alloc)?,
        })?;
    }
    Ok(())
}

/// The tensor that has at (j, k, a) the entry at (j, k) of the matrix at place a.
pub fn stack(alloc: Global, matrices: &MatrixList) -> Result<Sparse, TensorFault>
    requires { All (λ t. rank_of t ≡ 2) matrices.now }
    ensures value { IfOk result (HasValues 3 (stacked_at matrices.now)) }
    ensures refused { IfErr result IsTensorRefusal }
{
    let mut values = ValueList::new(alloc);
    for at in 0..matrices.len() {
        let place = place_of(at)?;
        push_layer(alloc, &mut values, place, matrices.item(at))?;
    }
    Sparse::gather(alloc, 3, values)
}
