//! The parts of a direction on the sides of its block, and how a generator changes them.
ghost use Rattle.std.specs.Prelude.{◌≡◌, ℕ, suc, ◌≤◌, ◌++◌, length, map, IfOk, OnOk, IfErr};
ghost use Rattle.sparse_tensor.specs.Tensor.{HasValues, rank_of, value, entries_of};
ghost use Rattle.sparse_tensor.specs.Refusals.{IsTensorRefusal};
ghost use Rattle.gauge_check.specs.Actions.{leg_links, acted_along, on_side, on_both, side_value, side_values, value_of, negated_values};

use crate::action::Action;
use beta_poly::Poly;
use frac128::Frac;
use model_core::TermKind;
use sparse_tensor::{LinkList, Sparse, TensorFault, Value, ValueList};
use std::alloc::{AllocError, Global};
use term_expand::copied;

/// Adds an entry without its side, where that is this one.
fn push_from_side(
    alloc: Global,
    values: &mut ValueList,
    side: u32,
    key: &[u32],
    number: &Poly,
) -> Result<(), AllocError>
    requires { 1 ≤ length key.now }
    ensures { OnOk result (values.new ≡ values.old ++ side_value side (key.now, number.now)) }
{
    if key[0] != side {
        return Ok(());
    }
    let (_, rest) = key.split_at(1);
    values.push(Value {
        key: copied(alloc, rest)?,
        value: number.copy(alloc)?,
    })
}

/// Adds the entries of a tensor on a side, without it.
fn push_side(
    alloc: Global,
    values: &mut ValueList,
    side: u32,
    tensor: &Sparse,
) -> Result<(), AllocError>
    ensures { OnOk result (values.new ≡ values.old ++ side_values side tensor.now) }
{
    for place in 0..tensor.len() {
        let (key, number) = tensor.item(place);
        push_from_side(alloc, values, side, key, number)?;
    }
    Ok(())
}

/// The part of a tensor on a side: its values at keys that begin with the side, without it.
pub fn side_part(alloc: Global, tensor: &Sparse, side: u32) -> Result<Sparse, TensorFault>
    requires { 2 ≤ rank_of tensor.now }
    ensures value { (rank : ℕ) → suc rank ≡ rank_of tensor.now → IfOk result (HasValues rank (on_side side (value tensor.now))) }
    ensures refused { IfErr result IsTensorRefusal }
{
    let mut values = ValueList::new(alloc);
    push_side(alloc, &mut values, side, tensor)?;
    Sparse::gather(alloc, tensor.rank() - 1, values)
}

/// The values of a tensor on both sides, added.
pub fn both_sides(alloc: Global, tensor: &Sparse) -> Result<Sparse, TensorFault>
    requires { 2 ≤ rank_of tensor.now }
    ensures value { (rank : ℕ) → suc rank ≡ rank_of tensor.now → IfOk result (HasValues rank (on_both (value tensor.now))) }
    ensures refused { IfErr result IsTensorRefusal }
{
    let mut values = ValueList::new(alloc);
    push_side(alloc, &mut values, 0, tensor)?;
    push_side(alloc, &mut values, 1, tensor)?;
    Sparse::gather(alloc, tensor.rank() - 1, values)
}

/// Adds the entries of a tensor.
pub fn push_entries(
    alloc: Global,
    values: &mut ValueList,
    tensor: &Sparse,
) -> Result<(), AllocError>
    ensures { OnOk result (values.new ≡ values.old ++ map value_of (entries_of tensor.now)) }
{
    for place in 0..tensor.len() {
        let (key, number) = tensor.item(place);
        values.push(Value {
            key: copied(alloc, key)?,
            value: number.copy(alloc)?,
        })?;
    }
    Ok(())
}

/// Adds the entries of a tensor, each times -1.
pub fn push_negated(
    alloc: Global,
    values: &mut ValueList,
    tensor: &Sparse,
) -> Result<(), TensorFault>
    ensures value { OnOk result (values.new ≡ values.old ++ negated_values tensor.now) }
    ensures refused { IfErr result IsTensorRefusal }
{
    let minus = Frac::one().negated();
    for place in 0..tensor.len() {
        let (key, number) = tensor.item(place);
        values.push(Value {
            key: copied(alloc, key)?,
            value: number.scale(alloc, minus)?,
        })?;
    }
    Ok(())
}

/// The links of a leg of a kind of terms, on a side of a block.
fn leg_links<'a>(action: &'a Action, kind: TermKind, side: u32, leg: u32) -> &'a LinkList
    ensures { result.now ≡ leg_links action.now kind side leg }
{
    match kind {
        TermKind::Fermion if leg < 2 => {
            if side == 0 {
                return &action.fermions;
            }
            &action.conjugates
        }
        _ => &action.scalars,
    }
}

/// The sum over legs of a generator's action on a part of a direction.
pub fn acted(
    alloc: Global,
    part: &Sparse,
    action: &Action,
    kind: TermKind,
    side: u32,
) -> Result<Sparse, TensorFault>
    ensures value { IfOk result (HasValues (rank_of part.now) (acted_along (leg_links action.now kind side) (rank_of part.now) (value part.now))) }
    ensures refused { IfErr result IsTensorRefusal }
{
    let mut values = ValueList::new(alloc);
    for leg in 0..part.rank() {
        let moved = part.project(alloc, leg, leg_links(action, kind, side, leg))?;
        push_entries(alloc, &mut values, &moved)?;
    }
    Sparse::gather(alloc, part.rank(), values)
}
