//! The traces with the charge, as sums over fields.
ghost use Rattle.std.specs.Prelude.{◌≡◌, ℕ, ◌+◌, ◌*◌, ◌^◌, ◌≤◌, true, pos, slice_get, Some, IfOk, IfErr, OnErr};
ghost use Rattle.std.specs.List.{All};
ghost use Rattle.frac128.specs.Rational.{whole, ◌+ℚ◌, ◌*ℚ◌};
ghost use Rattle.frac128.specs.Frac.{SumFits, IsSmall};
ghost use Rattle.beta_poly.specs.Refusals.{IsRefusedPair};
ghost use Rattle.model_core.specs.Multiplet.{field_size};
ghost use Rattle.model_core.specs.Plain.{IsPlainCharge};
ghost use Rattle.model_core.specs.Valid.{are_groups, are_fields};
ghost use Rattle.anomaly_check.specs.Counts.{index_share, weighted_sum, charge, charge_cubed, IsCubeSum};

use frac128::{Frac, Overflow};
use model_core::{Field, Group, field_index, field_size};

/// The sum, or the two fractions where it is refused.
fn sum_of(left: &Frac, right: &Frac) -> Result<Frac, Overflow>
    ensures value { IfOk result (λ sum. sum ≡ left.now +ℚ right.now) }
    ensures refused { IfErr result (λ pair. IsRefusedPair pair.a pair.b) }
    ensures large { OnErr result (¬ SumFits left.now right.now) }
{
    left.add(right)
}

/// The product, or the two fractions where it is refused.
fn product_of(left: &Frac, right: &Frac) -> Result<Frac, Overflow>
    ensures value { IfOk result (λ product. product ≡ left.now *ℚ right.now) }
    ensures refused { IfErr result (λ pair. IsRefusedPair pair.a pair.b) }
    ensures large { OnErr result (¬ IsSmall (left.now *ℚ right.now)) }
{
    left.mul(right)
}

/// A whole number as a fraction.
fn whole_of(count: u64) -> Frac
    requires { count ≤ 2 ^ 50 }
    ensures { result ≡ whole (pos count) }
{
    Frac::whole(count as i64)
}

/// So many times a number.
fn times(count: u64, number: &Frac) -> Result<Frac, Overflow>
    requires { count ≤ 2 ^ 50 }
    ensures value { IfOk result (λ product. product ≡ whole (pos count) *ℚ number.now) }
    ensures refused { IfErr result (λ pair. IsRefusedPair pair.a pair.b) }
    ensures large { OnErr result (¬ IsCubeSum 216000 number.now) }
{
    product_of(&whole_of(count), number)
}

/// A sum, and so many times a number more.
fn add_times(sum: &Frac, count: u64, number: &Frac) -> Result<Frac, Overflow>
    requires { count ≤ 2 ^ 50 }
    ensures value { IfOk result (λ more. more ≡ sum.now +ℚ whole (pos count) *ℚ number.now) }
    ensures refused { IfErr result (λ pair. IsRefusedPair pair.a pair.b) }
    ensures large { OnErr result (¬ (IsCubeSum (2 ^ 100) sum.now × IsCubeSum 216000 number.now)) }
    ensures bound { (bound : ℕ) → IsCubeSum bound sum.now → IsCubeSum 216000 number.now → IfOk result (IsCubeSum (bound + 2 ^ 68)) }
{
    let added = times(count, number)?;
    sum_of(sum, &added)
}

/// The cube of a field's charge.
fn charge_cubed(field: &Field) -> Result<Frac, Overflow>
    ensures value { IfOk result (λ cube. cube ≡ charge_cubed field.now) }
    ensures refused { IfErr result (λ pair. IsRefusedPair pair.a pair.b) }
    ensures large { OnErr result (¬ IsPlainCharge field.now.charge) }
{
    let square = product_of(&field.charge, &field.charge)?;
    product_of(&field.charge, &square)
}

/// The trace Tr(Q X_12 X_21) with the SU(n) at a place.
pub fn mixed_trace(
    groups: &[Group],
    place: usize,
    group: &Group,
    fields: &[Field],
) -> Result<Frac, Overflow>
    requires groups { are_groups groups.now ≡ true }
    requires fields { are_fields groups.now fields.now ≡ true }
    requires group { slice_get groups.now place ≡ Some group.now }
    requires special { 2 ≤ group.now.n }
    ensures value { IfOk result (λ sum. sum ≡ weighted_sum (index_share groups.now place group.now) charge fields.now) }
    ensures refused { IfErr result (λ pair. IsRefusedPair pair.a pair.b) }
    ensures large { OnErr result (¬ All (λ field. IsPlainCharge field.charge) fields.now) }
{
    let mut sum = Frac::zero();
    for field in fields {
        let count = field_index(groups, place, group, field);
        sum = add_times(&sum, count, &field.charge)?;
    }
    Ok(sum)
}

/// The trace Tr(Q).
pub fn gravity_trace(groups: &[Group], fields: &[Field]) -> Result<Frac, Overflow>
    requires groups { are_groups groups.now ≡ true }
    requires fields { are_fields groups.now fields.now ≡ true }
    ensures value { IfOk result (λ sum. sum ≡ weighted_sum (field_size groups.now) charge fields.now) }
    ensures refused { IfErr result (λ pair. IsRefusedPair pair.a pair.b) }
    ensures large { OnErr result (¬ All (λ field. IsPlainCharge field.charge) fields.now) }
{
    let mut sum = Frac::zero();
    for field in fields {
        sum = add_times(&sum, field_size(groups, field), &field.charge)?;
    }
    Ok(sum)
}

/// The trace Tr(Q^3).
pub fn abelian_trace(groups: &[Group], fields: &[Field]) -> Result<Frac, Overflow>
    requires groups { are_groups groups.now ≡ true }
    requires fields { are_fields groups.now fields.now ≡ true }
    ensures value { IfOk result (λ sum. sum ≡ weighted_sum (field_size groups.now) charge_cubed fields.now) }
    ensures refused { IfErr result (λ pair. IsRefusedPair pair.a pair.b) }
    ensures large { OnErr result (¬ All (λ field. IsPlainCharge field.charge) fields.now) }
{
    let mut sum = Frac::zero();
    for field in fields {
        sum = add_times(&sum, field_size(groups, field), &charge_cubed(field)?)?;
    }
    Ok(sum)
}
