//! The slots of a table.
ghost use Rattle.std.specs.Prelude.{◌≡◌, ◌<◌, ◌≤◌, IfOk, IfSome, true, length, map, position};
ghost use Rattle.std.specs.List.{list_all};
ghost use Rattle.toml.specs.View.{view};
ghost use Rattle.model_core.specs.Valid.{are_slots};
ghost use Rattle.model_core.specs.Document.{text_of, is_named, slot_of, slots_of};
ghost use Rattle.model_core.specs.Walk.{is_text, names_special, slot_list_places, slots_places};
ghost use Rattle.model_reader.specs.Walked.{Walked, Passes};

use crate::error::{ReadError, refused};
use crate::reps::names_special;
use frac128::NumberList;
use model_core::{FaultPlace, Group, ReadKind};
use std::alloc::{AllocError, Global};
use toml::Value;

/// Whether each value is a text.
pub fn are_texts(values: &[Value]) -> bool
    ensures { result ≡ list_all is_text (map view values.now) }
{
    for value in values {
        if value.as_str().is_none() {
            return false;
        }
    }
    true
}

/// The text that a value is: an empty one where it is none.
pub fn text_of(value: &Value) -> &[u8]
    ensures { result.now ≡ text_of (view value.now) }
{
    match value.as_str() {
        Some(text) => text.as_bytes(),
        None => b"",
    }
}

/// Whether each value is the name of a group SU(n).
fn are_named(groups: &[Group], values: &[Value]) -> bool
    ensures { result ≡ list_all (λ value. names_special groups.now (text_of value)) (map view values.now) }
{
    for value in values {
        if !names_special(groups, text_of(value)) {
            return false;
        }
    }
    true
}

/// Asks for 1 to 8 names of groups SU(n).
fn checked_slots(place: FaultPlace, groups: &[Group], values: &[Value]) -> Result<(), ReadError>
    ensures { Passes (slot_list_places groups.now place (map view values.now)) result }
{
    if !are_texts(values) {
        return refused(place, ReadKind::WrongType);
    }
    if !are_named(groups, values) {
        return refused(place, ReadKind::BadGroup);
    }
    if values.is_empty() {
        return Err(ReadError::Fault(place.over(0)));
    }
    if values.len() > 8 {
        return Err(ReadError::Fault(place.over(values.len())));
    }
    Ok(())
}

/// The place of the group SU(n) with this name.
fn place_of(groups: &[Group], name: &[u8]) -> Option<usize>
    ensures value { result ≡ position (is_named name.now) groups.now }
    ensures within { IfSome result (λ place. place < length groups.now) }
{
    groups.iter().position(|group| !group.is_abelian() && name == group.name.as_bytes())
}

/// The place of the group SU(n) that a value names.
fn slot_of(groups: &[Group], value: &Value) -> u32
    requires { length groups.now ≤ 4 }
    ensures { result ≡ slot_of groups.now (view value.now) }
{
    match place_of(groups, text_of(value)) {
        Some(place) => place as u32,
        None => 0,
    }
}

/// The place of the group SU(n) that each value names.
fn slots_of(alloc: Global, groups: &[Group], values: &[Value]) -> Result<NumberList, AllocError>
    requires { length groups.now ≤ 4 }
    ensures { IfOk result (λ slots. slots ≡ map (slot_of groups.now) (map view values.now)) }
{
    let mut slots = NumberList::new(alloc);
    for value in values {
        slots.push(slot_of(groups, value))?;
    }
    Ok(slots)
}

/// The slots that a value names.
#[tactic(auto, using(crate::proofs::SlotLaws::slots_places_array, crate::proofs::SlotLaws::slots_of_array, crate::proofs::SlotLaws::slots_fit))]
pub fn slots(
    alloc: Global,
    place: FaultPlace,
    groups: &[Group],
    value: &Value,
) -> Result<NumberList, ReadError>
    requires { length groups.now ≤ 4 }
    ensures walked { Walked (λ slots. slots) (slots_places groups.now place (view value.now)) (slots_of groups.now (view value.now)) result }
    ensures fit { IfOk result (λ slots. are_slots groups.now slots ≡ true) }
{
    let Some(array) = value.as_array() else {
        return refused(place, ReadKind::WrongType);
    };
    checked_slots(place, groups, array.as_slice())?;
    Ok(slots_of(alloc, groups, array.as_slice())?)
}
