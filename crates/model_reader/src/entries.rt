//! The entries of a table.
ghost use Rattle.std.specs.Prelude.{◌≡◌, IfOk, [], true, false, not, length, map};
ghost use Rattle.std.specs.List.{list_all, list_any};
ghost use Rattle.std.specs.Str.{bytes_eq};
ghost use Rattle.toml.specs.View.{view};
ghost use Rattle.model_core.specs.Valid.{are_values, entry_at, is_entry, are_entries, are_distinct};
ghost use Rattle.model_core.specs.Document.{number_of, elements_of, numbers_of, members_of, entry_of, entries_of};
ghost use Rattle.model_core.specs.Fault.{bad_where};
ghost use Rattle.model_core.specs.Walk.{is_integer, are_integers, is_literal, is_entry_table, slot_value, are_slot_values, at_places, entry_places, entry_list_places, entries_places, places_after};
ghost use Rattle.model_reader.specs.EntryValues.{HasEntryValues};
ghost use Rattle.model_reader.specs.Walked.{Walked, Passes};

use crate::error::{ReadError, refused};
use crate::keys::{keys_are_among, value_at};
use crate::literal::within;
use crate::values::fraction;
use frac128::NumberList;
use model_core::{Entry, EntryList, FaultPlace, Group, ReadKind, has_entry_at, slot_size};
use std::alloc::Global;
use toml::Value;

/// The most entries of a table.
const MOST_ENTRIES: usize = 512;

/// The elements of an array: none where the value is none.
#[tactic(auto, using(crate::proofs::TableLaws::elements_back))]
fn elements_of(value: &Value) -> &[Value]
    ensures { map view result.now ≡ elements_of (view value.now) }
{
    match value.as_array() {
        Some(array) => array.as_slice(),
        None => &[],
    }
}

/// Whether each value is an integer.
fn are_all_integers(values: &[Value]) -> bool
    ensures { result ≡ list_all is_integer (map view values.now) }
{
    for value in values {
        if value.as_integer().is_none() {
            return false;
        }
    }
    true
}

/// Whether a value is an array of integers.
#[tactic(auto, using(crate::proofs::TableLaws::elements_back))]
fn are_integers(value: &Value) -> bool
    ensures { result ≡ are_integers (view value.now) }
{
    match value.as_array() {
        Some(array) => are_all_integers(array.as_slice()),
        None => false,
    }
}

/// Whether a value is an integer or a text.
fn is_literal(value: &Value) -> bool
    ensures { result ≡ is_literal (view value.now) }
{
    matches!(value, Value::Integer(_) | Value::String(_))
}

/// The values of an entry's two keys.
#[derive(Clone, Copy)]
struct EntryValues<'a> {
    at: &'a Value,
    value: &'a Value,
}

/// Asks that an entry is a table with integers under `at`, an integer or a text under `value`, and no other key.
fn entry_values<'a>(place: FaultPlace, entry: &'a Value) -> Result<EntryValues<'a>, ReadError>
    ensures walked { Passes (bad_where (not (is_entry_table (view entry.now))) place ReadKind.WrongType) result }
    ensures values { IfOk result (λ values. HasEntryValues (members_of (view entry.now)) values) }
{
    let Some(table) = entry.as_table() else {
        return refused(place, ReadKind::WrongType);
    };
    if !keys_are_among(table, &["at", "value"]) {
        return refused(place, ReadKind::WrongType);
    }
    let Some(at) = value_at(table, "at") else {
        return refused(place, ReadKind::WrongType);
    };
    if !are_integers(at) {
        return refused(place, ReadKind::WrongType);
    }
    let Some(value) = value_at(table, "value") else {
        return refused(place, ReadKind::WrongType);
    };
    if !is_literal(value) {
        return refused(place, ReadKind::WrongType);
    }
    Ok(EntryValues { at, value })
}

/// The number from 1 to n that a value is.
fn slot_value(n: u32, value: &Value) -> Option<u32>
    ensures { result ≡ slot_value n (view value.now) }
{
    match value.as_integer() {
        Some(number) => match u32::try_from(number) {
            Ok(small) => within(1, n, small),
            Err(_) => None,
        },
        None => None,
    }
}

/// The numbers that values are, each from 1 to the n of its slot.
#[tactic(auto, using(crate::proofs::SlotLaws::no_values))]
fn numbers_of(
    alloc: Global,
    place: FaultPlace,
    groups: &[Group],
    slots: &[u32],
    values: &[Value],
) -> Result<NumberList, ReadError>
    ensures { Walked (λ at. at) (bad_where (not (are_slot_values groups.now slots.now (map view values.now))) place ReadKind.BadNumber)
        (map number_of (map view values.now)) result }
{
    if values.len() != slots.len() {
        return refused(place, ReadKind::BadNumber);
    }
    let mut numbers = NumberList::new(alloc);
    for value in values {
        let n = slot_size(groups, slots[numbers.len()]);
        let Some(number) = slot_value(n, value) else {
            return refused(place, ReadKind::BadNumber);
        };
        numbers.push(number)?;
    }
    Ok(numbers)
}

/// The numbers under an entry's `at`.
#[tactic(auto, using(crate::proofs::SlotLaws::values_fit))]
fn numbers_at(
    alloc: Global,
    place: FaultPlace,
    groups: &[Group],
    slots: &[u32],
    value: &Value,
) -> Result<NumberList, ReadError>
    ensures walked { Walked (λ at. at) (at_places groups.now slots.now place (view value.now)) (numbers_of (view value.now)) result }
    ensures fit { IfOk result (λ at. are_values groups.now slots.now at ≡ true) }
{
    numbers_of(alloc, place, groups, slots, elements_of(value))
}

/// The entry that a value is, after earlier ones.
#[tactic(auto, using(crate::proofs::Firsts::first_before), unfolding(model_core::specs::Document::entry_of, model_core::specs::Walk::entry_places))]
fn entry_of(
    alloc: Global,
    place: FaultPlace,
    groups: &[Group],
    slots: &[u32],
    earlier: &EntryList,
    entry: &Value,
) -> Result<Entry, ReadError>
    ensures walked { Walked (λ entry. entry) (entry_places groups.now slots.now place earlier.now (view entry.now)) (entry_of (view entry.now)) result }
    ensures fit { IfOk result (λ entry. is_entry groups.now slots.now entry ≡ true) }
    ensures fresh { IfOk result (λ entry. list_any (bytes_eq entry.at) (map entry_at earlier.now) ≡ false) }
{
    let values = entry_values(place, entry)?;
    let at = numbers_at(alloc, place, groups, slots, values.at)?;
    let value = fraction(place, values.value)?;
    if has_entry_at(earlier.as_slice(), at.as_slice()) {
        return refused(place, ReadKind::RepeatedName);
    }
    Ok(Entry { at, value })
}

/// The entries that values are.
#[tactic(auto, using(crate::proofs::Firsts::first_before, model_core::proofs::ValidParts::list_all_push, model_core::proofs::ValidParts::entry_push))]
fn entries_of(
    alloc: Global,
    place: FaultPlace,
    groups: &[Group],
    slots: &[u32],
    values: &[Value],
) -> Result<EntryList, ReadError>
    ensures walked { Walked (λ entries. entries) (places_after (entry_places groups.now slots.now place) entry_of [] (map view values.now)) (map entry_of (map view values.now)) result }
    ensures fit { IfOk result (λ entries. list_all (is_entry groups.now slots.now) entries ≡ true) }
    ensures distinct { IfOk result (λ entries. are_distinct (map entry_at entries) ≡ true) }
    ensures length { IfOk result (λ entries. length entries ≡ length values.now) }
{
    let mut entries = EntryList::new(alloc);
    for value in values {
        let entry = entry_of(alloc, place, groups, slots, &entries, value)?;
        entries.push(entry)?;
    }
    Ok(entries)
}

/// The entries that values are, at most 512.
#[tactic(auto, using(crate::proofs::Firsts::first_before))]
fn limited_entries(
    alloc: Global,
    place: FaultPlace,
    groups: &[Group],
    slots: &[u32],
    values: &[Value],
) -> Result<EntryList, ReadError>
    ensures walked { Walked (λ entries. entries) (entry_list_places groups.now slots.now place (map view values.now)) (map entry_of (map view values.now)) result }
    ensures valid { IfOk result (λ entries. are_entries groups.now slots.now entries ≡ true) }
{
    if values.len() > MOST_ENTRIES {
        return Err(ReadError::Fault(place.over(values.len())));
    }
    entries_of(alloc, place, groups, slots, values)
}

/// The entries of the array that a value is.
#[tactic(auto, using(crate::proofs::TableLaws::elements_back))]
pub fn entries(
    alloc: Global,
    place: FaultPlace,
    groups: &[Group],
    slots: &[u32],
    value: &Value,
) -> Result<EntryList, ReadError>
    ensures walked { Walked (λ entries. entries) (entries_places groups.now slots.now place (view value.now)) (entries_of (view value.now)) result }
    ensures valid { IfOk result (λ entries. are_entries groups.now slots.now entries ≡ true) }
{
    let Some(array) = value.as_array() else {
        return refused(place, ReadKind::WrongType);
    };
    limited_entries(alloc, place, groups, slots, array.as_slice())
}
