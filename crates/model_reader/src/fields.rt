//! Fermions and scalars.
ghost use Rattle.std.specs.Prelude.{◌≡◌, ◌∷◌, ◌++◌, ◌≤◌, [], Some, map, length, IfOk, true, false, codes};
ghost use Rattle.toml.specs.Data.{get_member};
ghost use Rattle.toml.specs.View.{view, table_view};
ghost use Rattle.model_core.specs.Valid.{field_name, are_distinct, is_field, is_scalar, are_fields, are_scalars};
ghost use Rattle.model_core.specs.Document.{field_of, fermion_of, scalar_of};
ghost use Rattle.model_core.specs.Walk.{fermion_places, scalar_places, fermion_after, scalar_after, places_after};
ghost use Rattle.model_reader.specs.Tables.{table_views};
ghost use Rattle.model_reader.specs.Walked.{Walked};
ghost use Rattle.model_reader.specs.FieldValues.{field_value_places};

use crate::error::ReadError;
use crate::keys::{only_keys, required};
use crate::names::Names;
use crate::reps::reps_at;
use crate::values::{charge, generations, new_name, real_or};
use model_core::{FaultPlace, Field, FieldList, GroupList, Part};
use std::alloc::Global;
use toml::{Table, Value};

/// The field of this name that a table is, which isn't real.
#[tactic(auto, using(crate::proofs::Firsts::first_before), unfolding(crate::specs::FieldValues::field_value_places))]
fn field_with(
    alloc: Global,
    place: FaultPlace,
    groups: &GroupList,
    names: &mut Names,
    name: &Value,
    table: &Table,
) -> Result<Field, ReadError>
    requires distinct { are_distinct names.old ≡ true }
    requires name { get_member (codes "name") (table_view table.now) ≡ Some (view name.now) }
    ensures walked { Walked (λ field. field) (field_value_places place groups.now names.old (table_view table.now)) (field_of false groups.now (table_view table.now)) result }
    ensures added { IfOk result (λ field. names.new ≡ names.old ++ field_name field ∷ []) }
    ensures distinct { IfOk result (λ _. are_distinct names.new ≡ true) }
    ensures valid { IfOk result (λ field. is_field groups.now field ≡ true) }
{
    let name = new_name(place.key(1), names, name)?;
    let generations = generations(place.key(2), table)?;
    let charge = charge(place.key(3), groups.as_slice(), table)?;
    let reps = reps_at(alloc, place.key(4), groups.as_slice(), table)?;
    Ok(Field {
        name,
        generations,
        charge,
        reps,
        real: false,
    })
}

/// The fermion that a table is.
#[tactic(auto, using(crate::proofs::Firsts::first_before), unfolding(model_core::specs::Document::fermion_of, model_core::specs::Walk::fermion_places, crate::specs::FieldValues::field_value_places))]
fn fermion_of(
    alloc: Global,
    groups: &GroupList,
    index: u32,
    names: &mut Names,
    table: &Table,
) -> Result<Field, ReadError>
    requires { are_distinct names.old ≡ true }
    ensures walked { Walked (λ field. field) (fermion_places groups.now index names.old (table_view table.now)) (fermion_of groups.now (table_view table.now)) result }
    ensures added { IfOk result (λ field. names.new ≡ names.old ++ field_name field ∷ []) }
    ensures distinct { IfOk result (λ _. are_distinct names.new ≡ true) }
    ensures valid { IfOk result (λ field. is_field groups.now field ≡ true) }
{
    let place = FaultPlace::new(Part::Fermion, index);
    only_keys(place, table, &["name", "generations", "charge", "reps"])?;
    let name = required(place.key(1), table, "name")?;
    field_with(alloc, place, groups, names, name, table)
}

/// The scalar that a table is.
#[tactic(auto, using(crate::proofs::Firsts::first_before, crate::proofs::ScalarPlaces::scalar_places_split), unfolding(model_core::specs::Document::scalar_of))]
fn scalar_of(
    alloc: Global,
    groups: &GroupList,
    index: u32,
    names: &mut Names,
    table: &Table,
) -> Result<Field, ReadError>
    requires { are_distinct names.old ≡ true }
    ensures walked { Walked (λ field. field) (scalar_places groups.now index names.old (table_view table.now)) (scalar_of groups.now (table_view table.now)) result }
    ensures added { IfOk result (λ field. names.new ≡ names.old ++ field_name field ∷ []) }
    ensures distinct { IfOk result (λ _. are_distinct names.new ≡ true) }
    ensures valid { IfOk result (λ field. is_scalar groups.now field ≡ true) }
{
    let place = FaultPlace::new(Part::Scalar, index);
    only_keys(
        place,
        table,
        &["name", "generations", "charge", "reps", "real"],
    )?;
    let name = required(place.key(1), table, "name")?;
    let mut scalar = field_with(alloc, place, groups, names, name, table)?;
    scalar.real = real_or(place.key(5), &scalar, table)?;
    Ok(scalar)
}

/// The fermions that tables are, after names that were met.
#[tactic(auto, using(crate::proofs::Firsts::first_before, model_core::proofs::ValidParts::list_all_push))]
pub fn fermions_of(
    alloc: Global,
    groups: &GroupList,
    names: &mut Names,
    tables: &[&Table],
) -> Result<FieldList, ReadError>
    requires distinct { are_distinct names.old ≡ true }
    requires few { length tables.now ≤ 24 }
    ensures walked { Walked (λ fields. fields) (places_after (fermion_after groups.now names.old) (fermion_of groups.now) [] (table_views tables.now))
        (map (fermion_of groups.now) (table_views tables.now)) result }
    ensures added { IfOk result (λ fields. names.new ≡ names.old ++ map field_name fields) }
    ensures distinct { IfOk result (λ _. are_distinct names.new ≡ true) }
    ensures valid { IfOk result (λ fields. are_fields groups.now fields ≡ true) }
{
    let mut fermions = FieldList::new(alloc);
    for table in tables {
        let index = fermions.len() as u32 + 1;
        let fermion = fermion_of(alloc, groups, index, names, table)?;
        fermions.push(fermion)?;
    }
    Ok(fermions)
}

/// The scalars that tables are, after names that were met.
#[tactic(auto, using(crate::proofs::Firsts::first_before, model_core::proofs::ValidParts::list_all_push))]
pub fn scalars_of(
    alloc: Global,
    groups: &GroupList,
    names: &mut Names,
    tables: &[&Table],
) -> Result<FieldList, ReadError>
    requires distinct { are_distinct names.old ≡ true }
    requires few { length tables.now ≤ 12 }
    ensures walked { Walked (λ fields. fields) (places_after (scalar_after groups.now names.old) (scalar_of groups.now) [] (table_views tables.now))
        (map (scalar_of groups.now) (table_views tables.now)) result }
    ensures added { IfOk result (λ fields. names.new ≡ names.old ++ map field_name fields) }
    ensures distinct { IfOk result (λ _. are_distinct names.new ≡ true) }
    ensures valid { IfOk result (λ fields. are_scalars groups.now fields ≡ true) }
{
    let mut scalars = FieldList::new(alloc);
    for table in tables {
        let index = scalars.len() as u32 + 1;
        let scalar = scalar_of(alloc, groups, index, names, table)?;
        scalars.push(scalar)?;
    }
    Ok(scalars)
}
