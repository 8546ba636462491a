//! The gauge couplings of the legs.
ghost use Rattle.std.specs.Prelude.{◌≡◌, ◌<◌, ◌^◌, ◌++◌, length, map, get_or, slice_get, Some, IfOk, OnOk, IfErr};
ghost use Rattle.std.specs.List.{All};
ghost use Rattle.frac128.specs.Rational.{neg_ℚ};
ghost use Rattle.beta_poly.specs.Exponents.{AllWithin};
ghost use Rattle.beta_poly.specs.Polynomial.{mul_poly};
ghost use Rattle.sparse_tensor.specs.Refusals.{IsTensorRefusal};
ghost use Rattle.sparse_tensor.specs.Tensor.{entries_of, rank_of};
ghost use Rattle.su_reps.specs.Operators.{fraction};
ghost use Rattle.model_core.specs.Scalar.{scalar_coordinates};
ghost use Rattle.model_core.specs.Valid.{IsValid};
ghost use Rattle.quartic_one_loop.specs.FourLegs.{AddsFour, AreWithin, IsQuartic};
ghost use Rattle.quartic_one_loop.specs.ChargeParts.{StartsBelow, charge_at, charge_factor, charged_values, coordinate_casimir, group_share};
ghost use Rattle.quartic_one_loop.specs.OrderShares.{charge_share};

use beta_poly::{Mono, Poly};
use frac128::Frac;
use gauge_two_loop::{FracList, casimir_of, gauge_symbol};
use model_core::{Group, Model, scalar_list};
use sparse_tensor::{Sparse, TensorFault, Value, ValueList};
use std::alloc::{AllocError, Global};
use term_expand::copied;

/// The Casimirs of all scalar coordinates under the group at a place: 0 for the dummy, which has no charge.
fn scalar_casimirs(
    alloc: Global,
    model: &Model,
    place: usize,
    group: &Group,
) -> Result<FracList, TensorFault>
    requires valid { IsValid model.now }
    requires group { slice_get model.now.groups place ≡ Some group.now }
    ensures value { IfOk result (λ found. found ≡ map (coordinate_casimir (place, group.now)) (scalar_coordinates model.now)) }
    ensures refused { IfErr result IsTensorRefusal }
{
    let components = scalar_list(alloc, model)?;
    let groups = model.groups.as_slice();
    let mut casimirs = FracList::new(alloc);
    for component in components.as_slice() {
        let field = model.scalars.item(component.field as usize);
        casimirs.push(casimir_of(groups, place, group, field)?)?;
    }
    casimirs.push(Frac::zero())?;
    Ok(casimirs)
}

/// Minus one half.
fn minus_half() -> Frac
    ensures { result ≡ neg_ℚ (fraction 1 2) }
{
    Frac::new(1, 2).unwrap().negated()
}

/// Minus half the square of the coupling of the group at a place.
fn charge_factor(alloc: Global, place: usize) -> Result<Poly, AllocError>
    requires { place < 2 ^ 16 }
    ensures { IfOk result (λ factor. factor ≡ charge_factor place) }
{
    let square = Mono::power(alloc, gauge_symbol(place), 2)?;
    Poly::term(alloc, &square, minus_half())
}

/// A value times a factor and the Casimir at the first place of its key.
fn charged(
    alloc: Global,
    casimirs: &[Frac],
    factor: &Poly,
    key: &[u32],
    value: &Poly,
) -> Result<Poly, TensorFault>
    requires key { length key.now ≡ 4 }
    requires first { get_or key.now 0 0 < length casimirs.now }
    requires factor { AllWithin 2 factor.now }
    requires value { AllWithin 1 value.now }
    ensures value { IfOk result (λ product. product ≡ mul_poly (charge_at casimirs.now factor.now key.now) value.now) }
    ensures refused { IfErr result IsTensorRefusal }
{
    let casimir = casimirs[key[0] as usize];
    let weight = factor.scale(alloc, casimir)?;
    Ok(weight.mul(alloc, value)?)
}

/// Adds the entries of a tensor, each times a factor and the Casimir at its first place.
fn push_charged(
    alloc: Global,
    casimirs: &[Frac],
    factor: &Poly,
    tensor: &Sparse,
    values: &mut ValueList,
) -> Result<(), TensorFault>
    requires rank { rank_of tensor.now ≡ 4 }
    requires factor { AllWithin 2 factor.now }
    requires tensor { AreWithin 1 tensor.now }
    requires inside { All (StartsBelow (length casimirs.now)) (entries_of tensor.now) }
    ensures value { OnOk result (values.new ≡ values.old ++ charged_values casimirs.now factor.now tensor.now) }
    ensures refused { IfErr result IsTensorRefusal }
{
    for place in 0..tensor.len() {
        let (key, value) = tensor.item(place);
        values.push(Value {
            key: copied(alloc, key)?,
            value: charged(alloc, casimirs, factor, key, value)?,
        })?;
    }
    Ok(())
}

/// Adds what the group at a place gives.
fn push_group(
    alloc: Global,
    model: &Model,
    place: usize,
    group: &Group,
    quartic: &Sparse,
    values: &mut ValueList,
) -> Result<(), TensorFault>
    requires valid { IsValid model.now }
    requires group { slice_get model.now.groups place ≡ Some group.now }
    requires quartic { IsQuartic model.now quartic.now }
    ensures value { OnOk result (AddsFour model.now (group_share model.now (place, group.now)) values.old values.new) }
    ensures refused { IfErr result IsTensorRefusal }
{
    let casimirs = scalar_casimirs(alloc, model, place, group)?;
    let factor = charge_factor(alloc, place)?;
    push_charged(alloc, casimirs.as_slice(), &factor, quartic, values)
}

/// Adds -1/2 of the sum over the groups k of g_k^2 C_k(a) L(a,b,c,d), at each (a, b, c, d) where a isn't the dummy.
pub fn push_charges(
    alloc: Global,
    model: &Model,
    quartic: &Sparse,
    values: &mut ValueList,
) -> Result<(), TensorFault>
    requires valid { IsValid model.now }
    requires quartic { IsQuartic model.now quartic.now }
    ensures value { OnOk result (AddsFour model.now (charge_share model.now) values.old values.new) }
    ensures refused { IfErr result IsTensorRefusal }
{
    let groups = model.groups.as_slice();
    for place in 0..groups.len() {
        push_group(alloc, model, place, &groups[place], quartic, values)?;
    }
    Ok(())
}
