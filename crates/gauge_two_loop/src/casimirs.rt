//! Sums over fields of products of Casimirs, and the numbers of gauge betas at two loops.
ghost use Rattle.std.specs.Prelude.{◌≡◌, ℕ, ◌+◌, ◌*◌, ◌^◌, ◌≤◌, true, length, slice_get, Some, pos, ◌-ℤ◌, IfOk, IfErr, OnErr};
ghost use Rattle.std.specs.List.{All, list_all};
ghost use Rattle.frac128.specs.Rational.{whole, neg_ℚ, ◌+ℚ◌, ◌*ℚ◌, ◌/ℚ◌};
ghost use Rattle.model_core.specs.GaugeTwoLoop.{own_number, mixed_number};
ghost use Rattle.model_core.specs.Plain.{IsPlainCharge, IsPlain};
ghost use Rattle.model_core.specs.Valid.{is_field, are_groups, IsValid};
ghost use Rattle.gauge_two_loop.specs.Refused.{IsRefused, IsShare};
ghost use Rattle.gauge_two_loop.specs.Casimirs.{field_casimir, copies, weight, pair_sum};

use crate::abelian::{product_of, scalar_copies, squares, sum_of, whole_of};
use crate::gauge::scalar_index;
use frac128::{Frac, Overflow};
use model_core::{Field, Group, Model, TermKind, fermion_index, field_index, field_size};
use su_reps::casimir;

/// The Casimir of a field's components under the group at a place, which is the charge squared for the U(1).
pub fn casimir_of(
    groups: &[Group],
    place: usize,
    group: &Group,
    field: &Field,
) -> Result<Frac, Overflow>
    requires groups { are_groups groups.now ≡ true }
    requires field { is_field groups.now field.now ≡ true }
    requires group { slice_get groups.now place ≡ Some group.now }
    ensures value { IfOk result (λ value. value ≡ field_casimir (place, group.now) field.now) }
    ensures refused { IfErr result IsRefused }
    ensures large { OnErr result (¬ IsPlainCharge field.now.charge) }
    ensures bound { IsPlainCharge field.now.charge → IfOk result (IsShare 360 36000) }
{
    if group.is_abelian() {
        return product_of(&field.charge, &field.charge);
    }
    let rep = field.reps.item(place);
    Ok(casimir(*rep, group.n))
}

/// How many copies of a field's components count: those of a complex scalar and of its conjugate.
fn copies(kind: TermKind, field: &Field) -> u64
    ensures value { result ≡ copies kind field.now }
    ensures bound { result ≤ 2 }
{
    match kind {
        TermKind::Fermion => 1,
        TermKind::Scalar => scalar_copies(field),
    }
}

/// Twice the trace of Casimirs over so many copies of a field, over the number of generators of the group at a place.
/// Under SU(n) it is how often the field has its representation, times twice the Dynkin index.
fn weight_of(
    groups: &[Group],
    place: usize,
    group: &Group,
    field: &Field,
    count: u64,
) -> Result<Frac, Overflow>
    requires groups { are_groups groups.now ≡ true }
    requires field { is_field groups.now field.now ≡ true }
    requires group { slice_get groups.now place ≡ Some group.now }
    requires count { count ≤ 2 }
    ensures value { IfOk result (λ value. value ≡ weight groups.now (place, group.now) count field.now) }
    ensures refused { IfErr result IsRefused }
    ensures large { OnErr result (¬ IsPlainCharge field.now.charge) }
    ensures bound { IsPlainCharge field.now.charge → IfOk result (IsShare 360 (2 ^ 60)) }
{
    if group.is_abelian() {
        return squares(field, 2 * (count * field_size(groups, field)));
    }
    Ok(whole_of(count * field_index(groups, place, group, field)))
}

/// A sum, and a product more.
fn add_product(sum: &Frac, left: &Frac, right: &Frac) -> Result<Frac, Overflow>
    ensures value { IfOk result (λ more. more ≡ sum.now +ℚ left.now *ℚ right.now) }
    ensures refused { IfErr result IsRefused }
    ensures large { OnErr result (¬ (IsShare 129600 (2 ^ 100) sum.now × IsShare 360 (2 ^ 60) left.now × IsShare 360 36000 right.now)) }
    ensures bound { (bound : ℕ) → IsShare 129600 bound sum.now → IsShare 360 (2 ^ 60) left.now → IsShare 360 36000 right.now →
        IfOk result (IsShare 129600 (bound + 2 ^ 76)) }
{
    let product = product_of(left, right)?;
    sum_of(sum, &product)
}

/// What a field adds to the sum for two groups at their places.
fn add_field(
    sum: &Frac,
    groups: &[Group],
    k: usize,
    first: &Group,
    l: usize,
    second: &Group,
    count: u64,
    field: &Field,
) -> Result<Frac, Overflow>
    requires groups { are_groups groups.now ≡ true }
    requires field { is_field groups.now field.now ≡ true }
    requires first { slice_get groups.now k ≡ Some first.now }
    requires second { slice_get groups.now l ≡ Some second.now }
    requires count { count ≤ 2 }
    ensures value { IfOk result (λ more. more ≡ sum.now +ℚ weight groups.now (k, first.now) count field.now *ℚ field_casimir (l, second.now) field.now) }
    ensures refused { IfErr result IsRefused }
    ensures large { OnErr result (¬ (IsShare 129600 (2 ^ 100) sum.now × IsPlainCharge field.now.charge)) }
    ensures bound { (bound : ℕ) → IsShare 129600 bound sum.now → IsPlainCharge field.now.charge → IfOk result (IsShare 129600 (bound + 2 ^ 76)) }
{
    let weight = weight_of(groups, k, first, field, count)?;
    let number = casimir_of(groups, l, second, field)?;
    add_product(sum, &weight, &number)
}

/// Twice the trace of the product of two groups' Casimirs over fields, over the number of generators of the first.
fn pair_sum(
    groups: &[Group],
    k: usize,
    first: &Group,
    l: usize,
    second: &Group,
    kind: TermKind,
    fields: &[Field],
) -> Result<Frac, Overflow>
    requires groups { are_groups groups.now ≡ true }
    requires fields { list_all (is_field groups.now) fields.now ≡ true }
    requires few { length fields.now ≤ 24 }
    requires first { slice_get groups.now k ≡ Some first.now }
    requires second { slice_get groups.now l ≡ Some second.now }
    ensures value { IfOk result (λ sum. sum ≡ pair_sum kind groups.now (k, first.now) (l, second.now) fields.now) }
    ensures refused { IfErr result IsRefused }
    ensures large { OnErr result (¬ All (λ field. IsPlainCharge field.charge) fields.now) }
    ensures bound { All (λ field. IsPlainCharge field.charge) fields.now → IfOk result (IsShare 129600 (2 ^ 90)) }
{
    let mut sum = Frac::zero();
    for field in fields {
        let count = copies(kind, field);
        sum = add_field(&sum, groups, k, first, l, second, count, field)?;
    }
    Ok(sum)
}

/// The coefficient of g_k^3 g_l^2 that the fields give to the beta function of the group at the place k.
pub fn mixed_of(
    model: &Model,
    k: usize,
    first: &Group,
    l: usize,
    second: &Group,
) -> Result<Frac, Overflow>
    requires valid { IsValid model.now }
    requires first { slice_get model.now.groups k ≡ Some first.now }
    requires second { slice_get model.now.groups l ≡ Some second.now }
    ensures value { IfOk result (λ value. value ≡ mixed_number model.now (k, first.now) (l, second.now)) }
    ensures refused { IfErr result IsRefused }
    ensures large { OnErr result (¬ IsPlain model.now) }
    ensures bound { IsPlain model.now → IfOk result (IsShare 129600 (2 ^ 91)) }
{
    let groups = model.groups.as_slice();
    let fermions = model.fermions.as_slice();
    let scalars = model.scalars.as_slice();
    let left = pair_sum(groups, k, first, l, second, TermKind::Fermion, fermions)?;
    let right = pair_sum(groups, k, first, l, second, TermKind::Scalar, scalars)?;
    sum_of(&left, &right)
}

/// A number of sixths: n times 10 `fermions` and `scalars`, less 68 n^2.
fn sixths(fermions: u64, scalars: u64, n: u32) -> Frac
    requires fermions { fermions ≤ 2 ^ 55 }
    requires scalars { scalars ≤ 2 ^ 55 }
    requires n { n ≤ 6 }
    ensures { result ≡ whole (pos (n * (10 * fermions + scalars)) -ℤ pos (68 * (n * n))) /ℚ whole (pos 6) }
{
    let n = u64::from(n);
    let count = i128::from(n * (10 * fermions + scalars)) - i128::from(68 * (n * n));
    Frac::new(count, 6).unwrap()
}

/// The coefficient of g_k^5 that the gauge bosons' own charges give to the beta function of the group at the place k:
/// none for the U(1).
pub fn own_of(model: &Model, k: usize, group: &Group) -> Frac
    requires valid { IsValid model.now }
    requires group { slice_get model.now.groups k ≡ Some group.now }
    ensures value { result ≡ neg_ℚ (own_number model.now (k, group.now)) }
    ensures bound { IsShare 129600 (2 ^ 91) result }
{
    if group.is_abelian() {
        return Frac::zero();
    }
    let groups = model.groups.as_slice();
    let fermions = fermion_index(groups, k, group, model.fermions.as_slice());
    let scalars = scalar_index(groups, k, group, model.scalars.as_slice());
    sixths(fermions, scalars, group.n)
}
