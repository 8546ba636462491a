//! The beta tensors of Yukawa couplings and of scalar couplings on blocks.
ghost use Rattle.std.specs.Prelude.{◌≡◌, ◌≤◌, ◌<◌, ◌∷◌, ◌++◌, [], suc, map, length, IfOk, OnOk, IfErr};
ghost use Rattle.sparse_tensor.specs.Operations.{entry, gathered_at};
ghost use Rattle.sparse_tensor.specs.Refusals.{IsTensorRefusal, IsRefusalOf};
ghost use Rattle.sparse_tensor.specs.Tensor.{HasValues, rank_of, entries_of};
ghost use Rattle.model_core.specs.Valid.{IsValid};
ghost use Rattle.term_expand.specs.Multiples.{entry_on_side};
ghost use Rattle.span_solver.specs.BlockDirections.{same_name};
ghost use Rattle.beta_formulas.specs.ScalarBeta.{scalar_beta_at};
ghost use Rattle.beta_formulas.specs.YukawaBeta.{yukawa_beta_at};
ghost use Rattle.derive_core.specs.BlockBetas.{IsLegCount, name_at, conjugate_beta_at, scalar_side_beta, block_beta};
ghost use Rattle.derive_core.specs.Components.{IsComponents};
ghost use Rattle.derive_core.specs.SideBetas.{AreSideBetas, where_it_belongs, side_values, named_values};

use crate::block_names::{Components, name_at, scalar_side};
use beta_poly::Poly;
use frac128::NumberList;
use model_core::Model;
use quartic_one_loop::conjugate_value;
use span_solver::same_name;
use sparse_tensor::{Sparse, TensorFault, Value, ValueList};
use std::alloc::{AllocError, Global};
use term_expand::Token;

/// The beta tensors on the sides of blocks, where a component of a block is one of its own content on side 0, and one of the
/// conjugate content on side 1.
#[derive(Drop)]
pub struct SideBetas {
    /// The Yukawa beta tensor, which is on side 0.
    pub yukawa: Sparse,
    /// Its conjugate, which is on side 1.
    pub conjugate_yukawa: Sparse,
    /// The components of the scalar beta tensor that are on side 0.
    pub scalar: Sparse,
    /// Those that are on side 1.
    pub conjugate_scalar: Sparse,
}

/// The conjugate of the Yukawa beta tensor.
fn conjugate_beta(alloc: Global, model: &Model, yukawa: &Sparse) -> Result<Sparse, TensorFault>
    requires valid { IsValid model.now }
    requires yukawa { HasValues 3 (yukawa_beta_at model.now) yukawa.now }
    ensures value { IfOk result (HasValues 3 (conjugate_beta_at model.now)) }
    ensures refused { IfErr result (IsRefusalOf (entries_of yukawa.now)) }
    ensures none { entries_of yukawa.now ≡ [] → IfOk result (λ found. entries_of found ≡ []) }
{
    let mut values = ValueList::new(alloc);
    for place in 0..yukawa.len() {
        let (key, value) = yukawa.item(place);
        values.push(conjugate_value(alloc, model, key, value)?)?;
    }
    Sparse::gather(alloc, 3, values)
}

/// Adds places to those of a key.
fn push_places(key: &mut NumberList, places: &[u32]) -> Result<(), AllocError>
    ensures { OnOk result (key.new ≡ key.old ++ places.now) }
{
    for place in places {
        key.push(*place)?;
    }
    Ok(())
}

/// Adds an entry of the scalar beta tensor to those on a side, where it is one of them.
fn push_on_side(
    alloc: Global,
    values: &mut ValueList,
    model: &Model,
    components: &Components,
    side: u32,
    key: &[u32],
    value: &Poly,
) -> Result<(), AllocError>
    requires components { IsComponents model.now components.now }
    ensures { OnOk result (values.new ≡ values.old ++ side_values model.now side (key.now, value.now)) }
{
    if scalar_side(alloc, model, components, key)? != side {
        return Ok(());
    }
    let mut places = NumberList::new(alloc);
    push_places(&mut places, key)?;
    values.push(Value {
        key: places,
        value: value.copy(alloc)?,
    })?;
    Ok(())
}

/// The part of the scalar beta tensor on a side.
fn scalar_part(
    alloc: Global,
    model: &Model,
    components: &Components,
    scalar: &Sparse,
    side: u32,
) -> Result<Sparse, TensorFault>
    requires components { IsComponents model.now components.now }
    requires scalar { HasValues 4 (scalar_beta_at model.now) scalar.now }
    ensures value { IfOk result (HasValues 4 (scalar_side_beta model.now side)) }
    ensures refused { IfErr result (IsRefusalOf (entries_of scalar.now)) }
    ensures none { entries_of scalar.now ≡ [] → IfOk result (λ found. entries_of found ≡ []) }
{
    let mut values = ValueList::new(alloc);
    for place in 0..scalar.len() {
        let (key, value) = scalar.item(place);
        push_on_side(alloc, &mut values, model, components, side, key, value)?;
    }
    Sparse::gather(alloc, 4, values)
}

/// The beta tensors on both sides of blocks.
pub fn side_betas(
    alloc: Global,
    model: &Model,
    components: &Components,
    yukawa: Sparse,
    scalar: &Sparse,
) -> Result<SideBetas, TensorFault>
    requires valid { IsValid model.now }
    requires components { IsComponents model.now components.now }
    requires yukawa { HasValues 3 (yukawa_beta_at model.now) yukawa }
    requires scalar { HasValues 4 (scalar_beta_at model.now) scalar.now }
    ensures value { IfOk result (AreSideBetas model.now) }
    ensures refused_where { IfErr result (IsRefusalOf (entries_of yukawa ++ entries_of scalar.now)) }
    ensures no_yukawa { entries_of yukawa ≡ [] → IfOk result (λ sides. (entries_of sides.yukawa ≡ []) × (entries_of sides.conjugate_yukawa ≡ [])) }
    ensures no_scalar { entries_of scalar.now ≡ [] → IfOk result (λ sides. (entries_of sides.scalar ≡ []) × (entries_of sides.conjugate_scalar ≡ [])) }
{
    let conjugate_yukawa = conjugate_beta(alloc, model, &yukawa)?;
    let own = scalar_part(alloc, model, components, scalar, 0)?;
    let conjugate = scalar_part(alloc, model, components, scalar, 1)?;
    Ok(SideBetas {
        yukawa,
        conjugate_yukawa,
        scalar: own,
        conjugate_scalar: conjugate,
    })
}

/// Whether the component at the places of a key on a side belongs to a block.
fn is_of_block(
    alloc: Global,
    model: &Model,
    components: &Components,
    name: &[Token],
    side: u32,
    key: &[u32],
) -> Result<bool, AllocError>
    requires components { IsComponents model.now components.now }
    ensures { IfOk result (λ found. found ≡ same_name (name_at model.now (side ∷ key.now)) name.now) }
{
    let own = name_at(alloc, model, components, side, key)?;
    Ok(same_name(own.as_slice(), name))
}

/// A value with a key behind a side.
fn value_on_side(alloc: Global, side: u32, key: &[u32], value: &Poly) -> Result<Value, AllocError>
    ensures { IfOk result (λ found. found ≡ entry_on_side side (key.now, value.now)) }
{
    let mut places = NumberList::new(alloc);
    places.push(side)?;
    push_places(&mut places, key)?;
    Ok(Value {
        key: places,
        value: value.copy(alloc)?,
    })
}

/// Adds an entry on a side where it belongs to a block.
fn push_where(
    alloc: Global,
    values: &mut ValueList,
    belongs: bool,
    side: u32,
    key: &[u32],
    value: &Poly,
) -> Result<(), AllocError>
    ensures { OnOk result (values.new ≡ values.old ++ where_it_belongs belongs side (key.now, value.now)) }
{
    if !belongs {
        return Ok(());
    }
    values.push(value_on_side(alloc, side, key, value)?)?;
    Ok(())
}

/// Adds the entries on a side that belong to a block.
fn push_side(
    alloc: Global,
    values: &mut ValueList,
    model: &Model,
    components: &Components,
    name: &[Token],
    side: u32,
    tensor: &Sparse,
) -> Result<(), AllocError>
    requires components { IsComponents model.now components.now }
    ensures { OnOk result (values.new ≡ values.old ++ named_values model.now name.now side (entries_of tensor.now)) }
{
    for place in 0..tensor.len() {
        let (key, value) = tensor.item(place);
        let belongs = is_of_block(alloc, model, components, name, side, key)?;
        push_where(alloc, values, belongs, side, key, value)?;
    }
    Ok(())
}

/// What belongs to a block of a tensor on side 0 and of one on side 1, at keys with the side first.
fn part_of_block(
    alloc: Global,
    model: &Model,
    components: &Components,
    name: &[Token],
    own: &Sparse,
    conjugate: &Sparse,
) -> Result<Sparse, TensorFault>
    requires components { IsComponents model.now components.now }
    requires few { rank_of own.now ≤ 4 }
    requires ranks { rank_of conjugate.now ≡ rank_of own.now }
    ensures value { IfOk result (HasValues (suc (rank_of own.now)) (gathered_at (map entry (named_values model.now name.now 0 (entries_of own.now) ++ named_values model.now name.now 1 (entries_of conjugate.now))))) }
    ensures refused { IfErr result IsTensorRefusal }
{
    let mut values = ValueList::new(alloc);
    push_side(alloc, &mut values, model, components, name, 0, own)?;
    push_side(alloc, &mut values, model, components, name, 1, conjugate)?;
    Sparse::gather(alloc, own.rank() + 1, values)
}

/// The beta tensor of a block of three or four legs, at keys with the side first.
pub fn block_beta(
    alloc: Global,
    model: &Model,
    components: &Components,
    sides: &SideBetas,
    name: &[Token],
) -> Result<Sparse, TensorFault>
    requires components { IsComponents model.now components.now }
    requires sides { AreSideBetas model.now sides.now }
    requires legs { IsLegCount (length name.now) }
    ensures value { IfOk result (HasValues (suc (length name.now)) (block_beta model.now name.now)) }
    ensures refused { IfErr result IsTensorRefusal }
{
    if name.len() == 3 {
        let own = &sides.yukawa;
        let conjugate = &sides.conjugate_yukawa;
        return part_of_block(alloc, model, components, name, own, conjugate);
    }
    let own = &sides.scalar;
    let conjugate = &sides.conjugate_scalar;
    part_of_block(alloc, model, components, name, own, conjugate)
}
