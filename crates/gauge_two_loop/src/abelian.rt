//! The one-loop beta function of the U(1)'s gauge coupling, from charges.
ghost use Rattle.std.specs.Prelude.{◌≡◌, ℕ, ◌+◌, ◌*◌, ◌^◌, ◌≤◌, pos, true, IfOk, IfErr, OnErr};
ghost use Rattle.std.specs.List.{All};
ghost use Rattle.frac128.specs.Rational.{whole, reciprocal, ◌+ℚ◌, ◌*ℚ◌};
ghost use Rattle.frac128.specs.Frac.{SumFits, IsSmall};
ghost use Rattle.su_reps.specs.Operators.{fraction};
ghost use Rattle.model_core.specs.Multiplet.{field_size, fermion_copies, scalar_copies, charge_square_sum, abelian_sixths};
ghost use Rattle.model_core.specs.Plain.{IsPlainCharge, IsPlain};
ghost use Rattle.model_core.specs.Valid.{is_field, are_groups, are_fields, are_scalars, IsValid};
ghost use Rattle.gauge_two_loop.specs.Refused.{IsRefused, IsSquareSum};

use frac128::{Frac, Overflow};
use model_core::{Field, Group, Model, field_size};

/// The sum, or the two fractions where it is refused.
pub fn sum_of(left: &Frac, right: &Frac) -> Result<Frac, Overflow>
    ensures value { IfOk result (λ sum. sum ≡ left.now +ℚ right.now) }
    ensures refused { IfErr result IsRefused }
    ensures large { OnErr result (¬ SumFits left.now right.now) }
{
    left.add(right)
}

/// The product, or the two fractions where it is refused.
pub fn product_of(left: &Frac, right: &Frac) -> Result<Frac, Overflow>
    ensures value { IfOk result (λ product. product ≡ left.now *ℚ right.now) }
    ensures refused { IfErr result IsRefused }
    ensures large { OnErr result (¬ IsSmall (left.now *ℚ right.now)) }
{
    left.mul(right)
}

/// A whole number as a fraction.
pub fn whole_of(count: u64) -> Frac
    requires { count ≤ 2 ^ 51 }
    ensures { result ≡ whole (pos count) }
{
    Frac::whole(count as i64)
}

/// One sixth.
fn one_sixth() -> Frac
    ensures { result ≡ fraction 1 6 }
{
    Frac::new(1, 6).unwrap()
}

/// So many times the square of a field's charge.
pub fn squares(field: &Field, count: u64) -> Result<Frac, Overflow>
    requires { count ≤ 40310784 }
    ensures value { IfOk result (λ squares. squares ≡ whole (pos count) *ℚ (field.now.charge *ℚ field.now.charge)) }
    ensures refused { IfErr result IsRefused }
    ensures large { OnErr result (¬ IsPlainCharge field.now.charge) }
{
    let square = product_of(&field.charge, &field.charge)?;
    product_of(&whole_of(count), &square)
}

/// A sum, and the squared charges of the components of so many copies of a field.
fn add_squares(sum: &Frac, groups: &[Group], field: &Field, copies: u64) -> Result<Frac, Overflow>
    requires groups { are_groups groups.now ≡ true }
    requires field { is_field groups.now field.now ≡ true }
    requires copies { copies ≤ 2 }
    ensures value { IfOk result (λ more.
        more ≡ sum.now +ℚ whole (pos (copies * field_size groups.now field.now)) *ℚ (field.now.charge *ℚ field.now.charge)) }
    ensures refused { IfErr result IsRefused }
    ensures large { OnErr result (¬ (IsSquareSum (2 ^ 60) sum.now × IsPlainCharge field.now.charge)) }
    ensures bound { (bound : ℕ) → IsSquareSum bound sum.now → IsPlainCharge field.now.charge →
        IfOk result (IsSquareSum (bound + 72559411200)) }
{
    let added = squares(field, copies * field_size(groups, field))?;
    sum_of(sum, &added)
}

/// The sum of the fermions' squared charges, component by component.
fn fermion_squares(groups: &[Group], fields: &[Field]) -> Result<Frac, Overflow>
    requires groups { are_groups groups.now ≡ true }
    requires fields { are_fields groups.now fields.now ≡ true }
    ensures value { IfOk result (λ sum. sum ≡ charge_square_sum fermion_copies groups.now fields.now) }
    ensures refused { IfErr result IsRefused }
    ensures large { OnErr result (¬ All (λ field. IsPlainCharge field.charge) fields.now) }
    ensures bound { All (λ field. IsPlainCharge field.charge) fields.now → IfOk result (IsSquareSum (2 ^ 50)) }
{
    let mut sum = Frac::zero();
    for field in fields {
        sum = add_squares(&sum, groups, field, 1)?;
    }
    Ok(sum)
}

/// How many copies of a scalar count: those of a complex one and of its conjugate.
pub fn scalar_copies(field: &Field) -> u64
    ensures { result ≡ scalar_copies field.now }
{
    if field.real {
        return 1;
    }
    2
}

/// The sum of the scalars' squared charges, component by component.
fn scalar_squares(groups: &[Group], fields: &[Field]) -> Result<Frac, Overflow>
    requires groups { are_groups groups.now ≡ true }
    requires fields { are_scalars groups.now fields.now ≡ true }
    ensures value { IfOk result (λ sum. sum ≡ charge_square_sum scalar_copies groups.now fields.now) }
    ensures refused { IfErr result IsRefused }
    ensures large { OnErr result (¬ All (λ field. IsPlainCharge field.charge) fields.now) }
    ensures bound { All (λ field. IsPlainCharge field.charge) fields.now → IfOk result (IsSquareSum (2 ^ 50)) }
{
    let mut sum = Frac::zero();
    for field in fields {
        sum = add_squares(&sum, groups, field, scalar_copies(field))?;
    }
    Ok(sum)
}

/// One sixth of four times the fermions' sum and the scalars'.
fn sixth_of(fermions: &Frac, scalars: &Frac) -> Result<Frac, Overflow>
    ensures value { IfOk result (λ sixth. sixth ≡ (whole (pos 4) *ℚ fermions.now +ℚ scalars.now) *ℚ reciprocal (whole (pos 6))) }
    ensures refused { IfErr result IsRefused }
    ensures large { OnErr result (¬ (IsSquareSum (2 ^ 60) fermions.now × IsSquareSum (2 ^ 60) scalars.now)) }
{
    let weighted = product_of(&whole_of(4), fermions)?;
    let sixths = sum_of(&weighted, scalars)?;
    product_of(&sixths, &one_sixth())
}

/// The one-loop coefficient of the cube of the U(1)'s gauge coupling, without its factor 1/(16 pi^2): 2/3 of the
/// fermions' squared charges and 1/6 of the scalars', where a complex scalar counts twice.
pub fn abelian_one(model: &Model) -> Result<Frac, Overflow>
    requires { IsValid model.now }
    ensures value { IfOk result (λ value. value ≡ abelian_sixths model.now *ℚ reciprocal (whole (pos 6))) }
    ensures refused { IfErr result IsRefused }
    ensures large { OnErr result (¬ IsPlain model.now) }
{
    let groups = model.groups.as_slice();
    let fermions = fermion_squares(groups, model.fermions.as_slice())?;
    let scalars = scalar_squares(groups, model.scalars.as_slice())?;
    sixth_of(&fermions, &scalars)
}
