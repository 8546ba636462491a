//! The part of gauge betas at two loops that Yukawa couplings give.
ghost use Rattle.std.specs.Prelude.{◌≡◌, ◌≤◌, ◌<◌, ◌-◌, ◌*◌, ◌^◌, pos, [], true, length, map, get_or, slice_get, Some, IfOk, IfErr};
ghost use Rattle.frac128.specs.Rational.{whole, reciprocal, ◌/ℚ◌};
ghost use Rattle.beta_poly.specs.Exponents.{AllWithin};
ghost use Rattle.beta_poly.specs.Polynomial.{zero_poly, add_poly, mul_poly, scale_poly, conj_poly};
ghost use Rattle.sparse_tensor.specs.Refusals.{IsRefusalOf, IsTensorRefusal};
ghost use Rattle.sparse_tensor.specs.Tensor.{HasValues, entries_of};
ghost use Rattle.model_core.specs.Component.{fermion_components};
ghost use Rattle.model_core.specs.Directions.{yukawa_at};
ghost use Rattle.model_core.specs.GaugeBeta.{casimir_at, generator_count};
ghost use Rattle.model_core.specs.GaugeTwoLoop.{yukawa_trace};
ghost use Rattle.model_core.specs.Valid.{is_group, IsValid};
ghost use Rattle.gauge_two_loop.specs.Pieces.{IsYukawa, entry_share, shares, minus_cube, yukawa_part};

use crate::casimirs::casimir_of;
use crate::pieces::gauge_symbol;
use beta_poly::{Mono, Poly};
use frac128::{Frac, ItemList};
use model_core::{Group, Model, fermion_list, scalar_count};
use sparse_tensor::{Sparse, TensorFault};
use std::alloc::{AllocError, Global};

/// Numbers of fermion components, in the order of the components.
pub type FracList = ItemList<Frac>;

/// The quadratic Casimirs of all fermion components of a valid model under the group at a place, in the order of the
/// components: that of their representation under SU(n), and the charge squared under the U(1).
///
/// `Overflow` carries two fractions whose product is refused.
pub fn casimirs_of(
    alloc: Global,
    model: &Model,
    place: usize,
    group: &Group,
) -> Result<FracList, TensorFault>
    requires valid { IsValid model.now }
    requires group { slice_get model.now.groups place ≡ Some group.now }
    ensures value { IfOk result (λ found. found ≡ map (casimir_at group.now place) (fermion_components model.now)) }
    ensures refused { IfErr result IsTensorRefusal }
{
    let components = fermion_list(alloc, model)?;
    let groups = model.groups.as_slice();
    let mut casimirs = FracList::new(alloc);
    for component in components.as_slice() {
        let field = model.fermions.item(component.field as usize);
        casimirs.push(casimir_of(groups, place, group, field)?)?;
    }
    Ok(casimirs)
}

/// A sum, and a number times a value times the conjugate of another more.
fn add_share(
    alloc: Global,
    sum: &Poly,
    number: Frac,
    value: &Poly,
    other: &Poly,
) -> Result<Poly, TensorFault>
    requires value { AllWithin 1 value.now }
    requires other { AllWithin 1 other.now }
    ensures value { IfOk result (λ more. more ≡ add_poly sum.now (scale_poly number (mul_poly value.now (conj_poly other.now)))) }
    ensures refused { IfErr result IsTensorRefusal }
{
    let conjugate = other.conj(alloc)?;
    let product = value.mul(alloc, &conjugate)?;
    let share = product.scale(alloc, number)?;
    Ok(sum.add(alloc, &share)?)
}

/// A sum, and what an entry adds to the trace more: nothing where its scalar is the dummy, or where there is no entry with
/// the fermions exchanged.
fn add_entry(
    alloc: Global,
    casimirs: &[Frac],
    dummy: u32,
    yukawa: &Sparse,
    sum: Poly,
    key: &[u32],
    value: &Poly,
) -> Result<Poly, TensorFault>
    requires yukawa { IsYukawa (length casimirs.now) yukawa.now }
    requires key { length key.now ≡ 3 }
    requires inside { get_or key.now 0 0 < length casimirs.now }
    requires value { AllWithin 1 value.now }
    ensures value { IfOk result (λ more. more ≡ add_poly sum (entry_share casimirs.now dummy yukawa.now (key.now, value.now))) }
    ensures refused { IfErr result IsTensorRefusal }
{
    if key[2] == dummy {
        return Ok(sum);
    }
    match yukawa.at(&[key[1], key[0], key[2]]) {
        None => Ok(sum),
        Some(other) => add_share(alloc, &sum, casimirs[key[0] as usize], value, other),
    }
}

/// The trace of Casimirs and Yukawa matrices.
fn trace_of(
    alloc: Global,
    casimirs: &[Frac],
    dummy: u32,
    yukawa: &Sparse,
) -> Result<Poly, TensorFault>
    requires { IsYukawa (length casimirs.now) yukawa.now }
    ensures value { IfOk result (λ trace. trace ≡ shares casimirs.now dummy yukawa.now (entries_of yukawa.now)) }
    ensures refused { IfErr result IsTensorRefusal }
{
    let mut sum = Poly::zero(alloc);
    for place in 0..yukawa.len() {
        let (key, value) = yukawa.item(place);
        sum = add_entry(alloc, casimirs, dummy, yukawa, sum, key, value)?;
    }
    Ok(sum)
}

/// 1 over the number of generators of SU(n).
fn special_share(n: u32) -> Frac
    requires low { 2 ≤ n }
    requires high { n ≤ 6 }
    ensures { result ≡ whole (pos 1) /ℚ whole (pos (n * n - 1)) }
{
    let generators = u64::from(n * n - 1);
    Frac::new(1, i128::from(generators)).unwrap()
}

/// 1 over the number of a group's generators.
fn generator_share(group: &Group) -> Frac
    requires { is_group group.now ≡ true }
    ensures { result ≡ reciprocal (generator_count group.now) }
{
    if group.is_abelian() {
        return Frac::one();
    }
    special_share(group.n)
}

/// Minus g_k^3 over the number of the group's generators.
fn factor_of(alloc: Global, place: usize, group: &Group) -> Result<Poly, AllocError>
    requires place { place < 2 ^ 16 }
    requires group { is_group group.now ≡ true }
    ensures { IfOk result (λ factor. factor ≡ minus_cube (place, group.now)) }
{
    let cube = Mono::power(alloc, gauge_symbol(place), 3)?;
    Poly::term(alloc, &cube, generator_share(group).negated())
}

/// The part of a group's beta function that Yukawa couplings give.
pub fn yukawa_part(
    alloc: Global,
    model: &Model,
    place: usize,
    group: &Group,
    yukawa: &Sparse,
) -> Result<Poly, TensorFault>
    requires valid { IsValid model.now }
    requires group { slice_get model.now.groups place ≡ Some group.now }
    requires yukawa { HasValues 3 (yukawa_at model.now) yukawa.now }
    ensures value { IfOk result (λ part. part ≡ yukawa_part (place, group.now) (yukawa_trace model.now (place, group.now))) }
    ensures refused { IfErr result (IsRefusalOf (entries_of yukawa.now)) }
    ensures none { entries_of yukawa.now ≡ [] → IfOk result (λ part. part ≡ zero_poly) }
{
    if yukawa.len() == 0 {
        return Ok(Poly::zero(alloc));
    }
    let casimirs = casimirs_of(alloc, model, place, group)?;
    let dummy = scalar_count(model) - 1;
    let trace = trace_of(alloc, casimirs.as_slice(), dummy, yukawa)?;
    let factor = factor_of(alloc, place, group)?;
    Ok(factor.mul(alloc, &trace)?)
}
