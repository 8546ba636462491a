//! The fermion components and scalar coordinates of a model: how many there are, which stands at a place, and partners.
ghost use Rattle.std.specs.Prelude.{◌≡◌, ◌+◌, ◌*◌, ◌^◌, ◌<◌, ◌≤◌, ◌++◌, true, false, length, replicate, slice_get, map, option_map, Some, Bool};
ghost use Rattle.std.specs.List.{flat_map, list_all};
ghost use Rattle.model_core.specs.Component.{slot_sizes, tuples, copies_of, components_of, fermion_components};
ghost use Rattle.model_core.specs.Scalar.{coordinates_of, scalar_coordinates, swapped_pairs, IsPartner, partner};
ghost use Rattle.model_core.specs.Leg.{printed_generation, leg_of, scalar_leg_of, fermion_legs, scalar_legs};
ghost use Rattle.model_core.specs.Place.{tuple_at, are_pairs};
ghost use Rattle.model_core.specs.Groups.{is_between};
ghost use Rattle.model_core.specs.Valid.{is_group, are_groups, are_fields, is_real_rep, is_scalar, are_scalars, IsValid};

use crate::field::Field;
use crate::group::Group;
use crate::leg::{Leg, Slots};
use crate::model::Model;
use su_reps::{Rep, slots};

/// Adds slots with this number of values.
fn push_slots(sizes: &mut Slots, n: u8, count: u32)
    requires { length sizes.old + count ≤ 12 }
    ensures { sizes.new ≡ sizes.old ++ replicate count n }
{
    for _i in 0..count {
        sizes.extend(&[n]);
    }
}

/// Adds how many values each slot of these representations has.
fn push_sizes(sizes: &mut Slots, groups: &[Group], reps: &[Rep])
    requires small { list_all is_group groups.now ≡ true }
    requires room { length sizes.old + 2 * length groups.now ≤ 12 }
    ensures { sizes.new ≡ sizes.old ++ slot_sizes groups.now reps.now }
{
    match (groups, reps) {
        ([group, groups @ ..], [rep, reps @ ..]) => {
            push_slots(sizes, group.n as u8, slots(*rep));
            push_sizes(sizes, groups, reps);
        }
        _ => {}
    }
}

/// How many tuples of values there are for slots with these numbers of values.
fn tuple_count(sizes: &[u8]) -> u32
    requires small { list_all (is_between 1 6) sizes.now ≡ true }
    requires few { length sizes.now ≤ 12 }
    ensures value { result ≡ length (tuples sizes.now) }
    ensures positive { 1 ≤ result }
    ensures bound { result ≤ 6 ^ length sizes.now }
{
    match sizes {
        [] => 1,
        [n, sizes @ ..] => u32::from(*n) * tuple_count(sizes),
    }
}

/// How many values each slot of a field has.
fn slot_sizes(groups: &[Group], reps: &[Rep]) -> Slots
    requires small { list_all is_group groups.now ≡ true }
    requires few { length groups.now ≤ 4 }
    ensures value { result ≡ slot_sizes groups.now reps.now }
    ensures small { list_all (is_between 1 6) result ≡ true }
    ensures few { length result ≤ 8 }
{
    let mut sizes = Slots::new();
    push_sizes(&mut sizes, groups, reps);
    sizes
}

/// How many components a field has.
pub fn field_count(groups: &[Group], field: &Field) -> u32
    requires small { list_all is_group groups.now ≡ true }
    requires few { length groups.now ≤ 4 }
    requires generations { field.now.generations ≤ 6 }
    ensures value { result ≡ length (components_of groups.now field.now) }
    ensures bound { result ≤ 10077696 }
{
    let sizes = slot_sizes(groups, field.reps.as_slice());
    field.generations * tuple_count(sizes.as_slice())
}

/// How many components some fermions of a valid model's groups have. It takes no memory.
pub fn component_count(groups: &[Group], fields: &[Field]) -> u32
    requires groups { are_groups groups.now ≡ true }
    requires fields { are_fields groups.now fields.now ≡ true }
    ensures { result ≡ length (flat_map (components_of groups.now) fields.now) }
{
    let mut count = 0;
    for field in fields {
        count += field_count(groups, field);
    }
    count
}

/// How many components a scalar and, where it is complex, its conjugate have.
fn scalar_count_of(groups: &[Group], field: &Field) -> u32
    requires small { list_all is_group groups.now ≡ true }
    requires few { length groups.now ≤ 4 }
    requires generations { field.now.generations ≤ 6 }
    ensures value { result ≡ length (coordinates_of groups.now field.now) }
    ensures bound { result ≤ 20155392 }
{
    let count = field_count(groups, field);
    if field.real {
        return count;
    }
    2 * count
}

/// How many coordinates some scalars of a valid model's groups have, without the dummy. It takes no memory.
pub fn coordinate_count(groups: &[Group], fields: &[Field]) -> u32
    requires groups { are_groups groups.now ≡ true }
    requires fields { are_scalars groups.now fields.now ≡ true }
    ensures value { result ≡ length (flat_map (coordinates_of groups.now) fields.now) }
    ensures bound { result ≤ 241864704 }
{
    let mut count = 0;
    for field in fields {
        count += scalar_count_of(groups, field);
    }
    count
}

/// The number of fermion components of a valid model. It takes no memory.
pub fn fermion_count(model: &Model) -> u32
    requires { IsValid model.now }
    ensures { result ≡ length (fermion_components model.now) }
{
    component_count(model.groups.as_slice(), model.fermions.as_slice())
}

/// The number of scalar coordinates of a valid model, the dummy included. It takes no memory.
pub fn scalar_count(model: &Model) -> u32
    requires { IsValid model.now }
    ensures { result ≡ length (scalar_coordinates model.now) }
{
    coordinate_count(model.groups.as_slice(), model.scalars.as_slice()) + 1
}

/// The tuple of slot values at a place of the list of all tuples.
fn tuple_at(sizes: &[u8], place: u32) -> Slots
    requires small { list_all (is_between 1 6) sizes.now ≡ true }
    requires few { length sizes.now ≤ 12 }
    requires place { place < length (tuples sizes.now) }
    ensures { result ≡ tuple_at sizes.now place }
{
    let mut values = Slots::new();
    let mut count = tuple_count(sizes);
    let mut rest = place;
    for size in sizes {
        count /= u32::from(*size);
        values.extend(&[(rest / count + 1) as u8]);
        rest %= count;
    }
    values
}

/// A generation as it is printed: 0 where the field has one generation.
fn printed_generation(field: &Field, generation: u32) -> u32
    ensures { result ≡ printed_generation field.now generation }
{
    if field.generations == 1 {
        return 0;
    }
    generation
}

/// Where a component stands among those of its field.
#[derive(Drop)]
pub struct Position {
    pub generation: u32,
    pub slots: Slots,
}

/// The generation and the slot values of the component at a place of a field's components, or of its conjugate's.
pub fn position_of(groups: &[Group], field: &Field, place: u32) -> Position
    requires small { list_all is_group groups.now ≡ true }
    requires few { length groups.now ≤ 4 }
    requires generations { field.now.generations ≤ 6 }
    requires place { place < length (components_of groups.now field.now) }
    ensures { (conj : Bool) → slice_get (copies_of conj groups.now field.now) place ≡
        Some (record { field = field.now; conj = conj; generation = result.generation; values = result.slots }) }
{
    let sizes = slot_sizes(groups, field.reps.as_slice());
    let count = tuple_count(sizes.as_slice());
    let generation = place / count + 1;
    Position {
        generation,
        slots: tuple_at(sizes.as_slice(), place % count),
    }
}

/// The leg at a place of a fermion's components.
fn leg_at(groups: &[Group], field: &Field, place: u32) -> Leg
    requires small { list_all is_group groups.now ≡ true }
    requires few { length groups.now ≤ 4 }
    requires generations { field.now.generations ≤ 6 }
    requires place { place < length (components_of groups.now field.now) }
    ensures { slice_get (map leg_of (components_of groups.now field.now)) place ≡ Some result }
{
    let Position { generation, slots } = position_of(groups, field, place);
    Leg::Fermion {
        name: field.name.copy(),
        conj: false,
        generation: printed_generation(field, generation),
        slots,
    }
}

/// The leg of the fermion component at a place, counted from 0, of a valid model: components go by field, generation
/// and then tuple in lexicographic order. It takes no memory.
pub fn fermion_leg(model: &Model, place: u32) -> Leg
    requires valid { IsValid model.now }
    requires place { place < length (fermion_components model.now) }
    ensures { slice_get (fermion_legs model.now) place ≡ Some result }
{
    let groups = model.groups.as_slice();
    let mut rest = place;
    for field in model.fermions.as_slice() {
        let count = field_count(groups, field);
        if rest < count {
            return leg_at(groups, field, rest);
        }
        rest -= count;
    }
    unreachable!()
}

/// The leg at a place of a scalar's plain components, or of its conjugate ones.
fn scalar_copy_at(groups: &[Group], field: &Field, conj: bool, place: u32) -> Leg
    requires small { list_all is_group groups.now ≡ true }
    requires few { length groups.now ≤ 4 }
    requires generations { field.now.generations ≤ 6 }
    requires place { place < length (components_of groups.now field.now) }
    ensures { slice_get (map scalar_leg_of (copies_of conj groups.now field.now)) place ≡ Some result }
{
    let Position { generation, slots } = position_of(groups, field, place);
    Leg::Scalar {
        name: field.name.copy(),
        conj,
        generation: printed_generation(field, generation),
        slots,
    }
}

/// The leg at a place of a scalar's coordinates.
fn scalar_leg_at(groups: &[Group], field: &Field, place: u32) -> Leg
    requires small { list_all is_group groups.now ≡ true }
    requires few { length groups.now ≤ 4 }
    requires generations { field.now.generations ≤ 6 }
    requires place { place < length (coordinates_of groups.now field.now) }
    ensures { slice_get (map scalar_leg_of (coordinates_of groups.now field.now)) place ≡ Some result }
{
    let count = field_count(groups, field);
    if place < count {
        return scalar_copy_at(groups, field, false, place);
    }
    scalar_copy_at(groups, field, true, place - count)
}

/// The leg of the scalar coordinate at a place, counted from 0, of a valid model. Coordinates go by field; a complex
/// field has first all plain and then all conjugate ones, each by generation and tuple; the dummy is last. It takes no
/// memory.
pub fn scalar_leg(model: &Model, place: u32) -> Leg
    requires valid { IsValid model.now }
    requires place { place < length (scalar_coordinates model.now) }
    ensures { slice_get (scalar_legs model.now) place ≡ Some result }
{
    let groups = model.groups.as_slice();
    let mut rest = place;
    for field in model.scalars.as_slice() {
        let count = scalar_count_of(groups, field);
        if rest < count {
            return scalar_leg_at(groups, field, rest);
        }
        rest -= count;
    }
    Leg::Dummy
}

/// The place of the tuple with the two values of each pair swapped.
fn swapped_place(sizes: &[u8], place: u32) -> u32
    requires small { list_all (is_between 1 6) sizes.now ≡ true }
    requires few { length sizes.now ≤ 12 }
    requires pairs { are_pairs sizes.now ≡ true }
    requires place { place < length (tuples sizes.now) }
    ensures value { tuple_at sizes.now result ≡ swapped_pairs (tuple_at sizes.now place) }
    ensures within { result < length (tuples sizes.now) }
{
    match sizes {
        [n, _, rest @ ..] => {
            let count = tuple_count(rest);
            let n = u32::from(*n);
            let pair = place / count;
            (pair % n * n + pair / n) * count + swapped_place(rest, place % count)
        }
        _ => place,
    }
}

/// The place of the partner among a real scalar's coordinates: the component with each pair of slot values swapped.
fn real_partner(groups: &[Group], field: &Field, place: u32) -> u32
    requires small { list_all is_group groups.now ≡ true }
    requires few { length groups.now ≤ 4 }
    requires generations { field.now.generations ≤ 6 }
    requires real { field.now.real ≡ true }
    requires reps { list_all is_real_rep field.now.reps ≡ true }
    requires place { place < length (coordinates_of groups.now field.now) }
    ensures { IsPartner (coordinates_of groups.now field.now) place result }
{
    let sizes = slot_sizes(groups, field.reps.as_slice());
    let count = tuple_count(sizes.as_slice());
    let swapped = swapped_place(sizes.as_slice(), place % count);
    place / count * count + swapped
}

/// The place of the partner among a complex scalar's coordinates: the same component on the other side.
fn complex_partner(groups: &[Group], field: &Field, place: u32) -> u32
    requires small { list_all is_group groups.now ≡ true }
    requires few { length groups.now ≤ 4 }
    requires generations { field.now.generations ≤ 6 }
    requires complex { field.now.real ≡ false }
    requires place { place < length (coordinates_of groups.now field.now) }
    ensures { IsPartner (coordinates_of groups.now field.now) place result }
{
    let count = field_count(groups, field);
    if place < count {
        return place + count;
    }
    place - count
}

/// The place of the partner among a scalar's coordinates.
fn partner_in(groups: &[Group], field: &Field, place: u32) -> u32
    requires small { list_all is_group groups.now ≡ true }
    requires few { length groups.now ≤ 4 }
    requires scalar { is_scalar groups.now field.now ≡ true }
    requires place { place < length (coordinates_of groups.now field.now) }
    ensures { IsPartner (coordinates_of groups.now field.now) place result }
{
    if field.real {
        return real_partner(groups, field, place);
    }
    complex_partner(groups, field, place)
}

/// The place of the partner a* of the scalar coordinate a at a place of a valid model: the conjugate one of a complex
/// field's, the one with the two values of each adjoint slot pair swapped of a real field's, and the dummy's own. It
/// takes no memory.
pub fn partner(model: &Model, place: u32) -> u32
    requires valid { IsValid model.now }
    requires place { place < length (scalar_coordinates model.now) }
    ensures { slice_get (scalar_coordinates model.now) result ≡ option_map partner (slice_get (scalar_coordinates model.now) place) }
{
    let groups = model.groups.as_slice();
    let mut before = 0;
    for field in model.scalars.as_slice() {
        let count = scalar_count_of(groups, field);
        if place - before < count {
            return before + partner_in(groups, field, place - before);
        }
        before += count;
    }
    place
}
