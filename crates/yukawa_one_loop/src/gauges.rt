//! The gauge part of the beta functions: minus three times the square of each gauge coupling times the Casimirs of both fermions.
ghost use Rattle.std.specs.Prelude.{◌≡◌, ◌<◌, ◌^◌, ◌++◌, pos, length, map, get_or, slice_get, Some, IfOk, OnOk, IfErr};
ghost use Rattle.std.specs.List.{All, enumerate_from};
ghost use Rattle.frac128.specs.Rational.{whole, neg_ℚ, ◌+ℚ◌};
ghost use Rattle.beta_poly.specs.Exponents.{AllWithin};
ghost use Rattle.beta_poly.specs.Polynomial.{mul_poly};
ghost use Rattle.sparse_tensor.specs.Refusals.{IsTensorRefusal};
ghost use Rattle.sparse_tensor.specs.Tensor.{entries_of, rank_of};
ghost use Rattle.model_core.specs.Valid.{IsValid};
ghost use Rattle.yukawa_one_loop.specs.Matrices.{AreWithin};
ghost use Rattle.yukawa_one_loop.specs.Parts.{IsInside, gauge_factor, gauge_line, weight_at, weighted_values};

use beta_poly::{Mono, Poly};
use frac128::{Frac, ItemList};
use gauge_two_loop::{FracList, casimirs_of, gauge_symbol};
use model_core::{Group, Model};
use sparse_tensor::{Sparse, TensorFault, Value, ValueList};
use std::alloc::{AllocError, Global};
use term_expand::copied;

/// What a group gives to the gauge part.
#[derive(Drop)]
pub struct GaugeLine {
    /// The Casimirs of all fermion components.
    pub casimirs: FracList,
    /// Minus three times the square of the coupling.
    pub factor: Poly,
}

/// What the groups of a model give, in their order.
pub type GaugeList = ItemList<GaugeLine>;

/// Minus three.
fn minus_three() -> Frac
    ensures { result ≡ neg_ℚ (whole (pos 3)) }
{
    Frac::whole(3).negated()
}

/// Minus three times the square of the coupling of the group at a place.
fn gauge_factor(alloc: Global, place: usize) -> Result<Poly, AllocError>
    requires { place < 2 ^ 16 }
    ensures { IfOk result (λ factor. factor ≡ gauge_factor place) }
{
    let square = Mono::power(alloc, gauge_symbol(place), 2)?;
    Poly::term(alloc, &square, minus_three())
}

/// What the group at a place gives.
fn gauge_line(
    alloc: Global,
    model: &Model,
    place: usize,
    group: &Group,
) -> Result<GaugeLine, TensorFault>
    requires valid { IsValid model.now }
    requires group { slice_get model.now.groups place ≡ Some group.now }
    ensures value { IfOk result (λ line. line ≡ gauge_line model.now (place, group.now)) }
    ensures refused { IfErr result IsTensorRefusal }
{
    let casimirs = casimirs_of(alloc, model, place, group)?;
    let factor = gauge_factor(alloc, place)?;
    Ok(GaugeLine { casimirs, factor })
}

/// What the groups of a model give.
pub fn gauge_lines(alloc: Global, model: &Model) -> Result<GaugeList, TensorFault>
    requires valid { IsValid model.now }
    ensures value { IfOk result (λ lines. lines ≡ map (gauge_line model.now) (enumerate_from 0 model.now.groups)) }
    ensures refused { IfErr result IsTensorRefusal }
{
    let mut lines = GaugeList::new(alloc);
    let groups = model.groups.as_slice();
    for place in 0..groups.len() {
        lines.push(gauge_line(alloc, model, place, &groups[place])?)?;
    }
    Ok(lines)
}

/// The sum of two Casimirs.
fn sum_of(left: &Frac, right: &Frac) -> Result<Frac, TensorFault>
    ensures value { IfOk result (λ sum. sum ≡ left.now +ℚ right.now) }
    ensures refused { IfErr result IsTensorRefusal }
{
    match left.add(right) {
        Ok(sum) => Ok(sum),
        Err(pair) => Err(TensorFault::Overflow(pair)),
    }
}

/// A value times a group's factor and the sum of the Casimirs at the two places of its key.
fn weighted(alloc: Global, line: &GaugeLine, key: &[u32], value: &Poly) -> Result<Poly, TensorFault>
    requires key { length key.now ≡ 2 }
    requires first { get_or key.now 0 0 < length line.now.casimirs }
    requires second { get_or key.now 1 0 < length line.now.casimirs }
    requires factor { AllWithin 2 line.now.factor }
    requires value { AllWithin 1 value.now }
    ensures value { IfOk result (λ product. product ≡ mul_poly (weight_at line.now key.now) value.now) }
    ensures refused { IfErr result IsTensorRefusal }
{
    let casimirs = line.casimirs.as_slice();
    let number = sum_of(&casimirs[key[0] as usize], &casimirs[key[1] as usize])?;
    let factor = line.factor.scale(alloc, number)?;
    Ok(factor.mul(alloc, value)?)
}

/// Adds the entries of a matrix, each times a group's factor and the sum of the Casimirs at its places.
pub fn push_group(
    alloc: Global,
    values: &mut ValueList,
    line: &GaugeLine,
    matrix: &Sparse,
) -> Result<(), TensorFault>
    requires rank { rank_of matrix.now ≡ 2 }
    requires factor { AllWithin 2 line.now.factor }
    requires matrix { AreWithin 1 matrix.now }
    requires inside { All (IsInside (length line.now.casimirs)) (entries_of matrix.now) }
    ensures value { OnOk result (values.new ≡ values.old ++ weighted_values line.now matrix.now) }
    ensures refused { IfErr result IsTensorRefusal }
{
    for place in 0..matrix.len() {
        let (key, value) = matrix.item(place);
        values.push(Value {
            key: copied(alloc, key)?,
            value: weighted(alloc, line, key, value)?,
        })?;
    }
    Ok(())
}
