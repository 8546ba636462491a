//! Groups.
ghost use Rattle.std.specs.Prelude.{◌≡◌, ◌++◌, [], true, false, ◌&&◌, map, length, ◌<◌, ◌≤◌, IfOk};
ghost use Rattle.std.specs.List.{flat_map, list_any};
ghost use Rattle.toml.specs.View.{table_view};
ghost use Rattle.model_core.specs.Groups.{is_abelian};
ghost use Rattle.model_core.specs.Valid.{group_names, is_group, are_groups, are_distinct};
ghost use Rattle.model_core.specs.Document.{group_of};
ghost use Rattle.model_core.specs.Fault.{key_place};
ghost use Rattle.model_core.specs.Walk.{group_places, key_places, group_keys, value_places, places_after};
ghost use Rattle.model_reader.specs.Tables.{table_views};
ghost use Rattle.model_reader.specs.Walked.{Walked, Passes};
ghost use Rattle.model_reader.specs.Required.{HasValues};

use crate::error::ReadError;
use crate::keys::{only_keys, required};
use crate::names::Names;
use crate::values::{dimension, latex_or, new_name};
use model_core::{FaultPlace, Group, GroupList, Part};
use std::alloc::Global;
use toml::{Table, Value};

/// The values of the keys that a group has to have.
#[derive(Clone, Copy)]
struct GroupValues<'a> {
    name: &'a Value,
    n: &'a Value,
    coupling: &'a Value,
}

/// Asks that a group has the keys that it has to have, and no others than it may have.
fn group_values<'a>(place: FaultPlace, table: &'a Table) -> Result<GroupValues<'a>, ReadError>
    ensures walked { Passes (key_places place (group_keys [] (table_view table.now)) (table_view table.now)) result }
    ensures values { IfOk result (λ values. HasValues (table_view table.now) values) }
{
    only_keys(place, table, &["name", "n", "coupling", "latex"])?;
    let name = required(place.key(1), table, "name")?;
    let n = required(place.key(2), table, "n")?;
    let coupling = required(place.key(3), table, "coupling")?;
    Ok(GroupValues { name, n, coupling })
}

/// The group with these values, after earlier ones whose names were met.
#[tactic(auto, using(crate::proofs::Firsts::first_before), unfolding(model_core::specs::Document::group_of))]
fn group_with(
    place: FaultPlace,
    earlier: &GroupList,
    names: &mut Names,
    values: &GroupValues,
    table: &Table,
) -> Result<Group, ReadError>
    requires names { names.old ≡ flat_map group_names earlier.now }
    requires distinct { are_distinct names.old ≡ true }
    requires values { HasValues (table_view table.now) values.now }
    ensures walked { Walked (λ group. group) (value_places (key_place place 1) (group_keys earlier.now (table_view table.now)) (table_view table.now)) (group_of (table_view table.now)) result }
    ensures added { IfOk result (λ group. names.new ≡ names.old ++ group_names group) }
    ensures distinct { IfOk result (λ _. are_distinct names.new ≡ true) }
    ensures valid { IfOk result (λ group. is_group group ≡ true) }
    ensures single { IfOk result (λ group. (is_abelian group && list_any is_abelian earlier.now) ≡ false) }
{
    let name = new_name(place.key(1), names, values.name)?;
    let n = dimension(place.key(2), earlier.as_slice(), values.n)?;
    let coupling = new_name(place.key(3), names, values.coupling)?;
    let latex = latex_or(place.key(4), table, &coupling)?;
    Ok(Group {
        name,
        n,
        coupling,
        latex,
    })
}

/// The group that a table is, after earlier ones whose names were met.
#[tactic(auto, using(crate::proofs::Firsts::first_before), unfolding(model_core::specs::Walk::group_places))]
fn group_of(earlier: &GroupList, names: &mut Names, table: &Table) -> Result<Group, ReadError>
    requires few { length earlier.now < 4 }
    requires names { names.old ≡ flat_map group_names earlier.now }
    requires distinct { are_distinct names.old ≡ true }
    ensures walked { Walked (λ group. group) (group_places earlier.now (table_view table.now)) (group_of (table_view table.now)) result }
    ensures added { IfOk result (λ group. names.new ≡ names.old ++ group_names group) }
    ensures distinct { IfOk result (λ _. are_distinct names.new ≡ true) }
    ensures valid { IfOk result (λ group. is_group group ≡ true) }
    ensures single { IfOk result (λ group. (is_abelian group && list_any is_abelian earlier.now) ≡ false) }
{
    let place = FaultPlace::new(Part::Group, earlier.len() as u32 + 1);
    let values = group_values(place, table)?;
    group_with(place, earlier, names, &values, table)
}

/// The groups that tables are. Their names are the first that are met.
#[tactic(auto, using(crate::proofs::Firsts::first_before, model_core::proofs::ValidParts::list_all_push, model_core::proofs::ValidParts::abelian_push))]
pub fn groups_of(
    alloc: Global,
    names: &mut Names,
    tables: &[&Table],
) -> Result<GroupList, ReadError>
    requires few { length tables.now ≤ 4 }
    requires names { names.old ≡ [] }
    ensures walked { Walked (λ groups. groups) (places_after group_places group_of [] (table_views tables.now)) (map group_of (table_views tables.now)) result }
    ensures added { IfOk result (λ groups. names.new ≡ flat_map group_names groups) }
    ensures distinct { IfOk result (λ _. are_distinct names.new ≡ true) }
    ensures valid { IfOk result (λ groups. are_groups groups ≡ true) }
{
    let mut groups = GroupList::new(alloc);
    for table in tables {
        let group = group_of(&groups, names, table)?;
        groups.push(group)?;
    }
    Ok(groups)
}
