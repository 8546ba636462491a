//! How many components the multiplets of a field have, and their Dynkin indices.
ghost use Rattle.std.specs.Prelude.{◌≡◌, ◌*◌, ◌^◌, ◌<◌, ◌≤◌, true, length, slice_get, Some};
ghost use Rattle.std.specs.List.{list_all};
ghost use Rattle.su_reps.specs.Operators.{dimension, doubled_index};
ghost use Rattle.model_core.specs.GaugeBeta.{rep_at};
ghost use Rattle.model_core.specs.Multiplet.{dimensions, field_size, multiplicity, fermion_copies, doubled_index_sum};
ghost use Rattle.model_core.specs.Valid.{is_group, is_rep, are_reps, is_field, are_fields, are_groups};

use crate::field::Field;
use crate::group::Group;
use su_reps::{Rep, dimension, doubled_index};

/// The dimension of a representation: 1 under the U(1), which has the singlet alone.
fn dimension_of(group: &Group, rep: Rep) -> u32
    requires group { is_group group.now ≡ true }
    requires rep { is_rep group.now rep ≡ true }
    ensures value { result ≡ dimension rep group.now.n }
    ensures bound { result ≤ 36 }
{
    if group.is_abelian() {
        return 1;
    }
    dimension(rep, group.n)
}

/// The product of the dimensions of representations, one for each group.
fn dimensions(groups: &[Group], reps: &[Rep]) -> u64
    requires small { list_all is_group groups.now ≡ true }
    requires few { length groups.now ≤ 4 }
    requires reps { are_reps groups.now reps.now ≡ true }
    ensures value { result ≡ dimensions groups.now reps.now }
    ensures bound { result ≤ 36 ^ length groups.now }
{
    match groups {
        [] => 1,
        [group, groups @ ..] => match reps {
            [] => 1,
            [rep, reps @ ..] => { u64::from(dimension_of(group, *rep)) * dimensions(groups, reps) }
        },
    }
}

/// How many independent components a field has in all its generations.
pub fn field_size(groups: &[Group], field: &Field) -> u64
    requires groups { are_groups groups.now ≡ true }
    requires field { is_field groups.now field.now ≡ true }
    ensures value { result ≡ field_size groups.now field.now }
    ensures bound { result ≤ 10077696 }
{
    u64::from(field.generations) * dimensions(groups, field.reps.as_slice())
}

/// How often a field has its representation under the group at a place: its generations times the dimensions under the
/// other groups.
pub fn multiplicity(groups: &[Group], field: &Field, place: usize) -> u64
    requires groups { are_groups groups.now ≡ true }
    requires field { is_field groups.now field.now ≡ true }
    requires place { place < length groups.now }
    ensures value { result ≡ multiplicity groups.now field.now place }
    ensures bound { result ≤ 6 * (1679616 * 1679616) }
{
    let reps = field.reps.as_slice();
    let (groups_before, _) = groups.split_at(place);
    let (reps_before, _) = reps.split_at(place);
    let (_, groups_after) = groups.split_at(place + 1);
    let (_, reps_after) = reps.split_at(place + 1);
    let others = dimensions(groups_before, reps_before) * dimensions(groups_after, reps_after);
    u64::from(field.generations) * others
}

/// Twice a field's share in the sum of Dynkin indices under the group at a place.
pub fn field_index(groups: &[Group], place: usize, group: &Group, field: &Field) -> u64
    requires groups { are_groups groups.now ≡ true }
    requires field { is_field groups.now field.now ≡ true }
    requires group { slice_get groups.now place ≡ Some group.now }
    requires special { 2 ≤ group.now.n }
    ensures value { result ≡ multiplicity groups.now field.now place * doubled_index (rep_at field.now place) group.now.n }
    ensures bound { result ≤ 2 ^ 50 }
{
    let rep = field.reps.item(place);
    multiplicity(groups, field, place) * u64::from(doubled_index(*rep, group.n))
}

/// Twice the sum of the fermions' Dynkin indices under the group at a place.
pub fn fermion_index(groups: &[Group], place: usize, group: &Group, fields: &[Field]) -> u64
    requires groups { are_groups groups.now ≡ true }
    requires fields { are_fields groups.now fields.now ≡ true }
    requires group { slice_get groups.now place ≡ Some group.now }
    requires special { 2 ≤ group.now.n }
    ensures value { result ≡ doubled_index_sum fermion_copies groups.now place group.now fields.now }
    ensures bound { result ≤ 2 ^ 55 }
{
    let mut sum = 0;
    for field in fields {
        sum += field_index(groups, place, group, field);
    }
    sum
}
