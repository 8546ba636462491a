//! Slices of tensors at a place of a leg.
ghost use Rattle.std.specs.Prelude.{◌≤◌, ◌<◌, ◌-◌, ◌≡◌, ◌++◌, ℕ, length, IfOk, IfErr, OnOk};
ghost use Rattle.std.specs.List.{insert, remove};
ghost use Rattle.sparse_tensor.specs.Refusals.{IsTensorRefusal};
ghost use Rattle.sparse_tensor.specs.Tensor.{HasValues, value, rank_of};
ghost use Rattle.quartic_one_loop.specs.FourLegs.{AreWithin};
ghost use Rattle.quartic_one_loop.specs.SlicedEntries.{sliced};

use beta_poly::Poly;
use frac128::NumberList;
use sparse_tensor::{Sparse, TensorFault, Value, ValueList};
use std::alloc::{AllocError, Global};

/// The places but the one at a leg.
fn without(alloc: Global, key: &[u32], leg: u32) -> Result<NumberList, AllocError>
    requires { leg < length key.now }
    ensures { IfOk result (λ places. places ≡ remove key.now leg) }
{
    let mut places = Vec::from_slice(alloc, key)?;
    places.remove(leg as usize);
    Ok(NumberList::from_vec(places))
}

/// Adds an entry without its place at a leg, where that is the given one.
fn push_sliced(
    alloc: Global,
    values: &mut ValueList,
    leg: u32,
    place: u32,
    key: &[u32],
    value: &Poly,
) -> Result<(), AllocError>
    requires { leg < length key.now }
    ensures { OnOk result (values.new ≡ values.old ++ sliced leg place (key.now, value.now)) }
{
    if key[leg as usize] != place {
        return Ok(());
    }
    values.push(Value {
        key: without(alloc, key, leg)?,
        value: value.copy(alloc)?,
    })?;
    Ok(())
}

/// The slice of a tensor at a place of a leg: its values at the keys with that place there, without it.
pub fn slice_of(alloc: Global, tensor: &Sparse, leg: u32, place: u32) -> Result<Sparse, TensorFault>
    requires low { 2 ≤ rank_of tensor.now }
    requires leg { leg < rank_of tensor.now }
    ensures value { IfOk result (HasValues (rank_of tensor.now - 1) (λ key. value tensor.now (insert key leg place))) }
    ensures within { (n : ℕ) → AreWithin n tensor.now → IfOk result (AreWithin n) }
    ensures refused { IfErr result IsTensorRefusal }
{
    let mut values = ValueList::new(alloc);
    for at in 0..tensor.len() {
        let (key, entry) = tensor.item(at);
        push_sliced(alloc, &mut values, leg, place, key, entry)?;
    }
    Sparse::gather(alloc, tensor.rank() - 1, values)
}
