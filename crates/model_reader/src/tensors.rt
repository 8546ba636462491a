//! Tables: tensors of fractions.
ghost use Rattle.std.specs.Prelude.{◌≡◌, ◌∷◌, ◌++◌, ◌≤◌, [], map, length, IfOk, true};
ghost use Rattle.toml.specs.View.{table_view};
ghost use Rattle.model_core.specs.Valid.{table_name, are_distinct, is_table, are_tables};
ghost use Rattle.model_core.specs.Document.{table_of};
ghost use Rattle.model_core.specs.Fault.{key_place};
ghost use Rattle.model_core.specs.Walk.{key_places, value_places, table_keys, tensor_places, tensors_places};
ghost use Rattle.model_reader.specs.Tables.{table_views};
ghost use Rattle.model_reader.specs.TensorValues.{HasTensorValues};
ghost use Rattle.model_reader.specs.Walked.{Walked, Passes};

use crate::entries::entries;
use crate::error::ReadError;
use crate::keys::{only_keys, required};
use crate::names::Names;
use crate::slots::slots;
use crate::values::new_name;
use model_core::{FaultPlace, GroupList, Part, Table as Tensor, TableList};
use std::alloc::Global;
use toml::{Table, Value};

/// The values of a table's keys.
#[derive(Clone, Copy)]
struct TensorValues<'a> {
    name: &'a Value,
    slots: &'a Value,
    entries: &'a Value,
}

/// Asks that a table has its three keys, and no others.
fn tensor_values<'a>(place: FaultPlace, table: &'a Table) -> Result<TensorValues<'a>, ReadError>
    ensures walked { Passes (key_places place (table_keys [] [] (table_view table.now)) (table_view table.now)) result }
    ensures values { IfOk result (λ values. HasTensorValues (table_view table.now) values) }
{
    only_keys(place, table, &["name", "slots", "entries"])?;
    let name = required(place.key(1), table, "name")?;
    let slots = required(place.key(2), table, "slots")?;
    let entries = required(place.key(3), table, "entries")?;
    Ok(TensorValues {
        name,
        slots,
        entries,
    })
}

/// The table with these values.
#[tactic(auto, using(crate::proofs::Firsts::first_before), unfolding(model_core::specs::Document::table_of))]
fn tensor_with(
    alloc: Global,
    place: FaultPlace,
    groups: &GroupList,
    names: &mut Names,
    values: &TensorValues,
    table: &Table,
) -> Result<Tensor, ReadError>
    requires few { length groups.now ≤ 4 }
    requires distinct { are_distinct names.old ≡ true }
    requires values { HasTensorValues (table_view table.now) values.now }
    ensures walked { Walked (λ tensor. tensor) (value_places (key_place place 1) (table_keys groups.now names.old (table_view table.now)) (table_view table.now)) (table_of groups.now (table_view table.now)) result }
    ensures added { IfOk result (λ tensor. names.new ≡ names.old ++ table_name tensor ∷ []) }
    ensures distinct { IfOk result (λ _. are_distinct names.new ≡ true) }
    ensures valid { IfOk result (λ tensor. is_table groups.now tensor ≡ true) }
{
    let groups = groups.as_slice();
    let name = new_name(place.key(1), names, values.name)?;
    let slots = slots(alloc, place.key(2), groups, values.slots)?;
    let entries = entries(
        alloc,
        place.key(3),
        groups,
        slots.as_slice(),
        values.entries,
    )?;
    Ok(Tensor {
        name,
        slots,
        entries,
    })
}

/// The table of the part `table` that a table is.
#[tactic(auto, using(crate::proofs::Firsts::first_before), unfolding(model_core::specs::Walk::tensor_places))]
fn tensor_of(
    alloc: Global,
    groups: &GroupList,
    index: u32,
    names: &mut Names,
    table: &Table,
) -> Result<Tensor, ReadError>
    requires few { length groups.now ≤ 4 }
    requires distinct { are_distinct names.old ≡ true }
    ensures walked { Walked (λ tensor. tensor) (tensor_places groups.now index names.old (table_view table.now)) (table_of groups.now (table_view table.now)) result }
    ensures added { IfOk result (λ tensor. names.new ≡ names.old ++ table_name tensor ∷ []) }
    ensures distinct { IfOk result (λ _. are_distinct names.new ≡ true) }
    ensures valid { IfOk result (λ tensor. is_table groups.now tensor ≡ true) }
{
    let place = FaultPlace::new(Part::Table, index);
    let values = tensor_values(place, table)?;
    tensor_with(alloc, place, groups, names, &values, table)
}

/// The tables of the part `table` that tables are, after names that were met.
#[tactic(auto, using(crate::proofs::Firsts::first_before, model_core::proofs::ValidParts::list_all_push), unfolding(model_core::specs::Walk::tensors_places))]
pub fn tensors_of(
    alloc: Global,
    groups: &GroupList,
    names: &mut Names,
    tables: &[&Table],
) -> Result<TableList, ReadError>
    requires groups { length groups.now ≤ 4 }
    requires distinct { are_distinct names.old ≡ true }
    requires few { length tables.now ≤ 16 }
    ensures walked { Walked (λ tensors. tensors) (tensors_places groups.now names.old (table_views tables.now))
        (map (table_of groups.now) (table_views tables.now)) result }
    ensures added { IfOk result (λ tensors. names.new ≡ names.old ++ map table_name tensors) }
    ensures distinct { IfOk result (λ _. are_distinct names.new ≡ true) }
    ensures valid { IfOk result (λ tensors. are_tables groups.now tensors ≡ true) }
{
    let mut tensors = TableList::new(alloc);
    for table in tables {
        let index = tensors.len() as u32 + 1;
        let tensor = tensor_of(alloc, groups, index, names, table)?;
        tensors.push(tensor)?;
    }
    Ok(tensors)
}
