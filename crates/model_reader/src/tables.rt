//! The tables of arrays.
ghost use Rattle.std.specs.Prelude.{◌≡◌, ◌≤◌, IfOk, [], length};
ghost use Rattle.toml.specs.Data.{get_member};
ghost use Rattle.toml.specs.Data as toml_data;
ghost use Rattle.toml.specs.View.{table_view, array_view};
ghost use Rattle.model_core.specs.Document.{tables_among, tables_of, value_or};
ghost use Rattle.model_core.specs.Fault.{place_of, over_limit};
ghost use Rattle.model_core.specs.Walk.{are_tables, tables_places, found_places};
ghost use Rattle.model_reader.specs.Tables.{table_views};
ghost use Rattle.model_reader.specs.Walked.{Walked, Passes};

use crate::error::{ReadError, refused};
use crate::keys::value_at;
use model_core::{FaultPlace, Part, ReadKind};
use std::alloc::{AllocError, Global};
use toml::Table;
use toml::value::Array;

/// Whether each element is a table.
fn are_tables(array: &Array) -> bool
    ensures { result ≡ are_tables (array_view array.now) }
{
    for value in array {
        if value.as_table().is_none() {
            return false;
        }
    }
    true
}

/// The elements that are tables.
fn tables_among<'a>(alloc: Global, array: &'a Array) -> Result<Vec<&'a Table>, AllocError>
    ensures { IfOk result (λ found. table_views found.items ≡ tables_among (array_view array.now)) }
{
    let mut found = Vec::new(alloc);
    for value in array {
        if let Some(table) = value.as_table() {
            found.push(table)?;
        }
    }
    Ok(found)
}

/// Asks for an array of at most so many tables.
#[tactic(auto, using(crate::proofs::TableLaws::tables_count))]
fn checked_tables(place: FaultPlace, limit: usize, array: &Array) -> Result<(), ReadError>
    ensures { Passes (tables_places limit place (toml_data.array (array_view array.now))) result }
{
    if !are_tables(array) {
        return refused(place, ReadKind::WrongType);
    }
    if array.len() > limit {
        return Err(ReadError::Fault(place.over(array.len())));
    }
    Ok(())
}

/// The tables under a key, at most so many: none where the key isn't there.
pub fn tables_at<'a>(
    alloc: Global,
    place: FaultPlace,
    limit: usize,
    file: &'a Table,
    key: &str,
) -> Result<Vec<&'a Table>, ReadError>
    ensures walked { Walked (λ found. table_views found.items) (found_places (tables_places limit place) (get_member key.now (table_view file.now)))
        (value_or tables_of [] (get_member key.now (table_view file.now))) result }
    ensures few { IfOk result (λ found. length found.items ≤ limit) }
{
    let Some(value) = value_at(file, key) else {
        return Ok(Vec::new(alloc));
    };
    let Some(array) = value.as_array() else {
        return refused(place, ReadKind::WrongType);
    };
    checked_tables(place, limit, array)?;
    Ok(tables_among(alloc, array)?)
}

/// Asks that a part doesn't have more of something in all than a model may have.
pub fn few_in_all(part: Part, limit: u32, count: u32) -> Result<(), ReadError>
    ensures walked { Passes (over_limit limit count (place_of part 0 0)) result }
    ensures few { IfOk result (λ _. count ≤ limit) }
{
    if count > limit {
        return Err(ReadError::Fault(FaultPlace::new(part, 0).over(count as usize)));
    }
    Ok(())
}
