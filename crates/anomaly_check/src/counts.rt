//! The traces of an SU(n) alone, as whole numbers.
ghost use Rattle.std.specs.Prelude.{◌≡◌, ◌+◌, ◌*◌, ◌^◌, ◌≤◌, ℕ, true, pos, unsigned_abs, ◌+ℤ◌, ◌*ℤ◌, slice_get, Some};
ghost use Rattle.frac128.specs.Rational.{whole};
ghost use Rattle.su_reps.specs.Operators.{cubic};
ghost use Rattle.model_core.specs.GaugeBeta.{rep_at};
ghost use Rattle.model_core.specs.Multiplet.{fermion_copies, doubled_index_sum};
ghost use Rattle.model_core.specs.Valid.{is_field, are_groups, are_fields};
ghost use Rattle.anomaly_check.specs.Counts.{cubic_share, cubic_sum};

use frac128::Frac;
use model_core::{Field, Group, fermion_index, multiplicity};
use su_reps::cubic;

/// The anomaly coefficient of a field's representation under the group at a place.
fn coefficient(groups: &[Group], place: usize, group: &Group, field: &Field) -> i64
    requires groups { are_groups groups.now ≡ true }
    requires field { is_field groups.now field.now ≡ true }
    requires group { slice_get groups.now place ≡ Some group.now }
    requires special { 3 ≤ group.now.n }
    ensures value { result ≡ cubic (rep_at field.now place) group.now.n }
    ensures bound { unsigned_abs result ≤ 10 }
{
    let rep = field.reps.item(place);
    cubic(*rep, group.n)
}

/// So many times a coefficient.
fn multiple(count: u64, coefficient: i64) -> i64
    requires count { count ≤ 6 * (1679616 * 1679616) }
    requires coefficient { unsigned_abs coefficient ≤ 10 }
    ensures value { result ≡ pos count *ℤ coefficient }
    ensures bound { unsigned_abs result ≤ 2 ^ 50 }
{
    count as i64 * coefficient
}

/// A field's share in the cubic trace of the group at a place.
fn cubic_share(groups: &[Group], place: usize, group: &Group, field: &Field) -> i64
    requires groups { are_groups groups.now ≡ true }
    requires field { is_field groups.now field.now ≡ true }
    requires group { slice_get groups.now place ≡ Some group.now }
    requires special { 3 ≤ group.now.n }
    ensures value { result ≡ cubic_share groups.now place group.now field.now }
    ensures bound { unsigned_abs result ≤ 2 ^ 50 }
{
    let count = multiplicity(groups, field, place);
    multiple(count, coefficient(groups, place, group, field))
}

/// A sum and a share more.
fn sum_of(sum: i64, share: i64) -> i64
    requires sum { unsigned_abs sum ≤ 2 ^ 60 }
    requires share { unsigned_abs share ≤ 2 ^ 50 }
    ensures value { result ≡ sum +ℤ share }
    ensures bound { (bound : ℕ) → unsigned_abs sum ≤ bound → unsigned_abs result ≤ bound + 2 ^ 50 }
{
    sum + share
}

/// The cubic trace of the group at a place.
fn cubic_sum(groups: &[Group], place: usize, group: &Group, fields: &[Field]) -> i64
    requires groups { are_groups groups.now ≡ true }
    requires fields { are_fields groups.now fields.now ≡ true }
    requires group { slice_get groups.now place ≡ Some group.now }
    requires special { 3 ≤ group.now.n }
    ensures value { result ≡ cubic_sum groups.now place group.now fields.now }
{
    let mut sum = 0;
    for field in fields {
        sum = sum_of(sum, cubic_share(groups, place, group, field));
    }
    sum
}

/// The trace Tr(X_12 (X_23 X_31 + X_31 X_23)) of an SU(n) with n of at least 3.
pub fn cubic_trace(groups: &[Group], place: usize, group: &Group, fields: &[Field]) -> Frac
    requires groups { are_groups groups.now ≡ true }
    requires fields { are_fields groups.now fields.now ≡ true }
    requires group { slice_get groups.now place ≡ Some group.now }
    requires special { 3 ≤ group.now.n }
    ensures { result ≡ whole (cubic_sum groups.now place group.now fields.now) }
{
    Frac::whole(cubic_sum(groups, place, group, fields))
}

/// The trace Tr(X_12 X_21).
pub fn index_trace(groups: &[Group], place: usize, group: &Group, fields: &[Field]) -> Frac
    requires groups { are_groups groups.now ≡ true }
    requires fields { are_fields groups.now fields.now ≡ true }
    requires group { slice_get groups.now place ≡ Some group.now }
    requires special { 2 ≤ group.now.n }
    ensures { result ≡ whole (pos (doubled_index_sum fermion_copies groups.now place group.now fields.now)) }
{
    Frac::whole(fermion_index(groups, place, group, fields) as i64)
}
