//! The one-loop beta functions of gauge couplings; those of SU(n) from counts of components and Dynkin indices.
ghost use Rattle.std.specs.Prelude.{◌≡◌, ◌+◌, ◌*◌, ◌^◌, ◌<◌, ◌≤◌, true, length, slice_get, Some, pos, ◌-ℤ◌, IfOk, IfErr, OnErr};
ghost use Rattle.frac128.specs.Rational.{whole, ◌/ℚ◌};
ghost use Rattle.model_core.specs.GaugeBeta.{rep_at, gauge_one_loop};
ghost use Rattle.su_reps.specs.Operators.{doubled_index};
ghost use Rattle.model_core.specs.declared.group.Group.{Group};
ghost use Rattle.model_core.specs.Multiplet.{multiplicity, scalar_copies, doubled_index_sum};
ghost use Rattle.model_core.specs.Plain.{IsPlain};
ghost use Rattle.model_core.specs.Groups.{is_abelian};
ghost use Rattle.model_core.specs.Valid.{is_field, are_groups, are_scalars, IsValid};
ghost use Rattle.gauge_two_loop.specs.Refused.{IsRefused};

use crate::abelian::abelian_one;
use frac128::{Frac, Overflow};
use model_core::{Field, Group, Model, fermion_index, field_index};

/// Twice a scalar's share in the sum of Dynkin indices under the group at a place: a complex one counts twice, once for
/// its conjugate.
fn scalar_share(groups: &[Group], place: usize, group: &Group, field: &Field) -> u64
    requires groups { are_groups groups.now ≡ true }
    requires field { is_field groups.now field.now ≡ true }
    requires group { slice_get groups.now place ≡ Some group.now }
    requires special { 2 ≤ group.now.n }
    ensures value { result ≡ scalar_copies field.now * (multiplicity groups.now field.now place * doubled_index (rep_at field.now place) group.now.n) }
    ensures bound { result ≤ 2 ^ 51 }
{
    let share = field_index(groups, place, group, field);
    if field.real {
        return share;
    }
    2 * share
}

/// Twice the sum of the scalars' Dynkin indices under the group at a place.
pub fn scalar_index(groups: &[Group], place: usize, group: &Group, fields: &[Field]) -> u64
    requires groups { are_groups groups.now ≡ true }
    requires fields { are_scalars groups.now fields.now ≡ true }
    requires group { slice_get groups.now place ≡ Some group.now }
    requires special { 2 ≤ group.now.n }
    ensures value { result ≡ doubled_index_sum scalar_copies groups.now place group.now fields.now }
    ensures bound { result ≤ 2 ^ 55 }
{
    let mut sum = 0;
    for field in fields {
        sum += scalar_share(groups, place, group, field);
    }
    sum
}

/// A number of twelfths: 4 `fermions` and `scalars` less 44 times `n`.
fn twelfths(fermions: u64, scalars: u64, n: u32) -> Frac
    requires fermions { fermions ≤ 2 ^ 55 }
    requires scalars { scalars ≤ 2 ^ 55 }
    ensures { result ≡ whole (pos (4 * fermions + scalars) -ℤ pos (44 * n)) /ℚ whole (pos 12) }
{
    let count = i128::from(4 * fermions + scalars) - i128::from(44 * u64::from(n));
    Frac::new(count, 12).unwrap()
}

/// The one-loop coefficient of the cube of the gauge coupling of the group SU(n) at a place, without its factor
/// 1/(16 pi^2): 2/3 of the fermions' sum of Dynkin indices and 1/6 of the scalars' less 11/3 of n. With twice the
/// indices it is a number of twelfths.
fn special_one(model: &Model, place: usize, group: &Group) -> Frac
    requires valid { IsValid model.now }
    requires group { slice_get model.now.groups place ≡ Some group.now }
    requires special { 2 ≤ group.now.n }
    ensures { result ≡ gauge_one_loop model.now place group.now }
{
    let groups = model.groups.as_slice();
    let fermions = fermion_index(groups, place, group, model.fermions.as_slice());
    let scalars = scalar_index(groups, place, group, model.scalars.as_slice());
    twelfths(fermions, scalars, group.n)
}

/// The same for the U(1) or SU(n), as `gauge_one` answers it.
fn group_one(model: &Model, place: usize, group: &Group) -> Result<Frac, Overflow>
    requires valid { IsValid model.now }
    requires group { slice_get model.now.groups place ≡ Some group.now }
    ensures value { IfOk result (λ value. value ≡ gauge_one_loop model.now place group.now) }
    ensures refused { IfErr result IsRefused }
    ensures large { OnErr result (¬ IsPlain model.now) }
    ensures abelian { OnErr result (is_abelian group.now ≡ true) }
{
    if group.is_abelian() {
        return abelian_one(model);
    }
    Ok(special_one(model, place, group))
}

/// The one-loop coefficient of the cube of the gauge coupling of the group at a place, counted from 0, without its
/// factor 1/(16 pi^2).
///
/// `Overflow` carries two fractions whose sum or product is refused. It comes only for the U(1), and never where each
/// charge is a multiple of 1/6 and at most 10 in size. It takes no memory.
pub fn gauge_one(model: &Model, group: u32) -> Result<Frac, Overflow>
    requires valid { IsValid model.now }
    requires group { group < length model.now.groups }
    ensures value { (gauged : Group) → slice_get model.now.groups group ≡ Some gauged → IfOk result (λ value. value ≡ gauge_one_loop model.now group gauged) }
    ensures refused { IfErr result IsRefused }
    ensures large { OnErr result (¬ IsPlain model.now) }
    ensures abelian { (gauged : Group) → slice_get model.now.groups group ≡ Some gauged → OnErr result (is_abelian gauged ≡ true) }
{
    let place = group as usize;
    group_one(model, place, model.groups.item(place))
}
