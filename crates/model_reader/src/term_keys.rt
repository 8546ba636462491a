//! The values of a term's keys but for its text.
ghost use Rattle.std.specs.Prelude.{◌≡◌, ◌∷◌, [], IfOk, map, true, false, codes};
ghost use Rattle.toml.specs.Data.{get_member};
ghost use Rattle.toml.specs.View.{view, table_view};
ghost use Rattle.model_core.specs.declared.term.Shape.TheVariants.{One};
ghost use Rattle.model_core.specs.Document.{text_of, truth_of, value_or};
ghost use Rattle.model_core.specs.TermMeaning.{is_real_word, shape_of, texts_of};
ghost use Rattle.model_core.specs.Walk.{word_places, texts_places, truth_places, found_places};
ghost use Rattle.model_reader.specs.Tables.{texts};
ghost use Rattle.model_reader.specs.Walked.{Walked};

use crate::error::{ReadError, refused};
use crate::keys::{is_among, value_at};
use crate::slots::{are_texts, text_of};
use model_core::{FaultPlace, ReadKind, Shape};
use std::alloc::{AllocError, Global};
use toml::{Table, Value};

/// The word that a value is, which is one of these.
fn word<'a>(place: FaultPlace, words: &[&str], value: &'a Value) -> Result<&'a str, ReadError>
    ensures { Walked (λ word. word.now) (word_places (texts words.now) place (view value.now)) (text_of (view value.now)) result }
{
    let Some(text) = value.as_str() else {
        return refused(place, ReadKind::WrongType);
    };
    if !is_among(text, words) {
        return refused(place, ReadKind::WrongType);
    }
    Ok(text)
}

/// Whether a coupling is real, as the word `real` or `complex` says.
fn is_real(place: FaultPlace, value: &Value) -> Result<bool, ReadError>
    ensures { Walked (λ real. real) (word_places (codes "real" ∷ codes "complex" ∷ []) place (view value.now)) (is_real_word (view value.now)) result }
{
    let word = word(place, &["real", "complex"], value)?;
    Ok(word != "complex")
}

/// Whether a coupling is real: it is where nothing is said.
pub fn is_real_or(place: FaultPlace, table: &Table) -> Result<bool, ReadError>
    ensures { Walked (λ real. real) (found_places (word_places (codes "real" ∷ codes "complex" ∷ []) place) (get_member (codes "value") (table_view table.now)))
        (value_or is_real_word true (get_member (codes "value") (table_view table.now))) result }
{
    match value_at(table, "value") {
        Some(value) => is_real(place, value),
        None => Ok(true),
    }
}

/// The shape of a coupling, by the word `one`, `matrix` or `symmetric`.
fn shape(place: FaultPlace, value: &Value) -> Result<Shape, ReadError>
    ensures { Walked (λ shape. shape) (word_places (codes "one" ∷ codes "matrix" ∷ codes "symmetric" ∷ []) place (view value.now)) (shape_of (view value.now)) result }
{
    let word = word(place, &["one", "matrix", "symmetric"], value)?;
    if word == "matrix" {
        return Ok(Shape::Matrix);
    }
    if word == "symmetric" {
        return Ok(Shape::Symmetric);
    }
    Ok(Shape::One)
}

/// The shape of a coupling: one symbol where nothing is said.
pub fn shape_or(place: FaultPlace, table: &Table) -> Result<Shape, ReadError>
    ensures { Walked (λ shape. shape) (found_places (word_places (codes "one" ∷ codes "matrix" ∷ codes "symmetric" ∷ []) place) (get_member (codes "shape") (table_view table.now)))
        (value_or shape_of One (get_member (codes "shape") (table_view table.now))) result }
{
    match value_at(table, "shape") {
        Some(value) => shape(place, value),
        None => Ok(Shape::One),
    }
}

/// The texts that values are.
fn texts_of<'a>(alloc: Global, values: &'a [Value]) -> Result<Vec<&'a [u8]>, AllocError>
    ensures { IfOk result (λ found. texts found.items ≡ map text_of (map view values.now)) }
{
    let mut found = Vec::new(alloc);
    for value in values {
        found.push(text_of(value))?;
    }
    Ok(found)
}

/// The texts of the array that a value is.
#[tactic(auto, using(crate::proofs::TableLaws::elements_back))]
fn flavour<'a>(
    alloc: Global,
    place: FaultPlace,
    value: &'a Value,
) -> Result<Vec<&'a [u8]>, ReadError>
    ensures { Walked (λ found. texts found.items) (texts_places place (view value.now)) (texts_of (view value.now)) result }
{
    let Some(array) = value.as_array() else {
        return refused(place, ReadKind::WrongType);
    };
    let values = array.as_slice();
    if !are_texts(values) {
        return refused(place, ReadKind::WrongType);
    }
    Ok(texts_of(alloc, values)?)
}

/// The flavour labels of a term: none where nothing is said.
pub fn flavour_or<'a>(
    alloc: Global,
    place: FaultPlace,
    table: &'a Table,
) -> Result<Vec<&'a [u8]>, ReadError>
    ensures { Walked (λ found. texts found.items) (found_places (texts_places place) (get_member (codes "flavour") (table_view table.now)))
        (value_or texts_of [] (get_member (codes "flavour") (table_view table.now))) result }
{
    match value_at(table, "flavour") {
        Some(value) => flavour(alloc, place, value),
        None => Ok(Vec::new(alloc)),
    }
}

/// Whether a value is true.
fn truth(place: FaultPlace, value: &Value) -> Result<bool, ReadError>
    ensures { Walked (λ truth. truth) (truth_places place (view value.now)) (truth_of (view value.now)) result }
{
    match value.as_bool() {
        Some(truth) => Ok(truth),
        None => refused(place, ReadKind::WrongType),
    }
}

/// Whether the conjugate of a term is added: it isn't where nothing is said.
pub fn conjugate_or(place: FaultPlace, table: &Table) -> Result<bool, ReadError>
    ensures { Walked (λ truth. truth) (found_places (truth_places place) (get_member (codes "hc") (table_view table.now)))
        (value_or truth_of false (get_member (codes "hc") (table_view table.now))) result }
{
    match value_at(table, "hc") {
        Some(value) => truth(place, value),
        None => Ok(false),
    }
}
