//! The beta functions that are formed: those with at most two dummies.
ghost use Rattle.std.specs.Prelude.{◌≡◌, ◌==◌, ◌++◌, count_by, IfOk, IfErr, OnOk};
ghost use Rattle.sparse_tensor.specs.Refusals.{IsTensorRefusal};
ghost use Rattle.sparse_tensor.specs.Tensor.{HasValues, value, rank_of};
ghost use Rattle.quartic_one_loop.specs.FewDummies.{formed, formed_at};

use beta_poly::Poly;
use sparse_tensor::{Sparse, TensorFault, Value, ValueList};
use std::alloc::{AllocError, Global};
use term_expand::copied;

/// How many places of a key are the given one.
fn count_of(key: &[u32], place: u32) -> usize
    ensures { result ≡ count_by (λ other. other == place) key.now }
{
    key.iter().filter(|other| **other == place).count()
}

/// Adds an entry where at most two of its places are the dummy's.
fn push_formed(
    alloc: Global,
    values: &mut ValueList,
    dummy: u32,
    key: &[u32],
    value: &Poly,
) -> Result<(), AllocError>
    ensures { OnOk result (values.new ≡ values.old ++ formed dummy (key.now, value.now)) }
{
    if count_of(key, dummy) > 2 {
        return Ok(());
    }
    values.push(Value {
        key: copied(alloc, key)?,
        value: value.copy(alloc)?,
    })?;
    Ok(())
}

/// The tensor without its entries with more than two dummies.
pub fn formed_of(alloc: Global, tensor: &Sparse, dummy: u32) -> Result<Sparse, TensorFault>
    ensures value { IfOk result (HasValues (rank_of tensor.now) (formed_at dummy (value tensor.now))) }
    ensures refused { IfErr result IsTensorRefusal }
{
    let mut values = ValueList::new(alloc);
    for at in 0..tensor.len() {
        let (key, entry) = tensor.item(at);
        push_formed(alloc, &mut values, dummy, key, entry)?;
    }
    Sparse::gather(alloc, tensor.rank(), values)
}
