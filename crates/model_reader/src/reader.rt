//! From the bytes of a file to its model.
ghost use Rattle.std.specs.Prelude.{◌≡◌, ◌&&◌, ◌++◌, ◌≤◌, [], IfOk, length, map, true, codes};
ghost use Rattle.std.specs.List.{flat_map};
ghost use Rattle.toml.specs.View.{table_view};
ghost use Rattle.model_core.specs.Component.{components_of};
ghost use Rattle.model_core.specs.Scalar.{coordinates_of};
ghost use Rattle.model_core.specs.Valid.{IsValid, has_valid_names, has_valid_parts, has_few_components, are_groups, are_fields, are_scalars, are_distinct, field_name};
ghost use Rattle.model_core.specs.Document.{tables_at, fermion_of, scalar_of};
ghost use Rattle.model_core.specs.TermRules.{are_terms};
ghost use Rattle.model_core.specs.Fault.{key_place};
ghost use Rattle.model_core.specs.Walk.{key_places, value_places, file_keys, part_keys, fermions_places, scalars_places, part_places, part_names, bad_places};
ghost use Rattle.model_core.specs.Reading.{reading, model_of};
ghost use Rattle.model_reader.specs.Gives.{Gives};
ghost use Rattle.model_reader.specs.Parts.{document_or_fault, HasHead, part_lists, ArePartsFew, model_with, places_of, whole_places, whole_model};
ghost use Rattle.model_reader.specs.Walked.{Walked, Passes};
ghost use Rattle.model_reader.specs.Tables.{table_views};

use crate::error::{ReadError, refused};
use crate::fields::{fermions_of, scalars_of};
use crate::groups::groups_of;
use crate::keys::{only_keys, required};
use crate::names::Names;
use crate::tables::{few_in_all, tables_at};
use crate::tensors::tensors_of;
use crate::terms::terms_of;
use crate::values::{name, profile};
use model_core::{
    FaultPlace, FieldList, GroupList, Model, Name, Part, ReadKind, TermList, component_count,
    coordinate_count,
};
use std::alloc::Global;
use toml::{Table, Value};

/// The most fermion components of a model.
const MOST_COMPONENTS: u32 = 512;

/// The most scalar coordinates of a model, without the dummy.
const MOST_COORDINATES: u32 = 256;

/// The document that the bytes are.
fn document(alloc: Global, bytes: &[u8]) -> Result<Table, ReadError>
    ensures { Gives table_view result (document_or_fault bytes.now) }
{
    match toml::table_from_slice(alloc, bytes) {
        Ok(table) => Ok(table),
        Err(error) => {
            if error.is_memory() {
                return Err(ReadError::NoMemory);
            }
            refused(FaultPlace::new(Part::File, 0), ReadKind::NotToml)
        }
    }
}

/// The values of the keys that a file has to have.
#[derive(Clone, Copy)]
struct FileValues<'a> {
    profile: &'a Value,
    name: &'a Value,
}

/// Asks that a file has the keys that it has to have, and no others than it may have.
fn file_values<'a>(place: FaultPlace, file: &'a Table) -> Result<FileValues<'a>, ReadError>
    ensures walked { Passes (key_places place file_keys (table_view file.now)) result }
    ensures values { IfOk result (λ values. HasHead (table_view file.now) values) }
{
    only_keys(
        place,
        file,
        &[
            "profile", "name", "group", "fermion", "scalar", "table", "term",
        ],
    )?;
    let profile = required(place.key(1), file, "profile")?;
    let name = required(place.key(2), file, "name")?;
    Ok(FileValues { profile, name })
}

/// The tables of a file's groups, fermions, scalars, tables and terms.
#[derive(Drop)]
struct PartTables<'a> {
    groups: Vec<&'a Table>,
    fermions: Vec<&'a Table>,
    scalars: Vec<&'a Table>,
    tables: Vec<&'a Table>,
    terms: Vec<&'a Table>,
}

/// The tables of a file's parts.
#[tactic(auto, using(crate::proofs::Firsts::first_before))]
fn part_tables<'a>(
    alloc: Global,
    place: FaultPlace,
    file: &'a Table,
) -> Result<PartTables<'a>, ReadError>
    ensures walked { Walked part_lists (value_places (key_place place 3) part_keys (table_view file.now))
        (tables_at (codes "group") (table_view file.now), (tables_at (codes "fermion") (table_view file.now), (tables_at (codes "scalar") (table_view file.now), (tables_at (codes "table") (table_view file.now), tables_at (codes "term") (table_view file.now))))) result }
    ensures few { IfOk result (λ parts. ArePartsFew parts) }
{
    let groups = tables_at(alloc, place.key(3), 4, file, "group")?;
    let fermions = tables_at(alloc, place.key(4), 24, file, "fermion")?;
    let scalars = tables_at(alloc, place.key(5), 12, file, "scalar")?;
    let tables = tables_at(alloc, place.key(6), 16, file, "table")?;
    let terms = tables_at(alloc, place.key(7), 64, file, "term")?;
    Ok(PartTables {
        groups,
        fermions,
        scalars,
        tables,
        terms,
    })
}

/// The fermions that tables are, with no more components than a model may have.
#[tactic(auto, using(crate::proofs::Firsts::first_before), unfolding(model_core::specs::Walk::fermions_places))]
fn limited_fermions(
    alloc: Global,
    groups: &GroupList,
    names: &mut Names,
    tables: &[&Table],
) -> Result<FieldList, ReadError>
    requires groups { are_groups groups.now ≡ true }
    requires distinct { are_distinct names.old ≡ true }
    requires few { length tables.now ≤ 24 }
    ensures walked { Walked (λ fields. fields) (fermions_places groups.now names.old (table_views tables.now)) (map (fermion_of groups.now) (table_views tables.now)) result }
    ensures added { IfOk result (λ fields. names.new ≡ names.old ++ map field_name fields) }
    ensures distinct { IfOk result (λ _. are_distinct names.new ≡ true) }
    ensures valid { IfOk result (λ fields. are_fields groups.now fields ≡ true) }
    ensures few { IfOk result (λ fields. length (flat_map (components_of groups.now) fields) ≤ 512) }
{
    let fermions = fermions_of(alloc, groups, names, tables)?;
    let count = component_count(groups.as_slice(), fermions.as_slice());
    few_in_all(Part::Fermion, MOST_COMPONENTS, count)?;
    Ok(fermions)
}

/// The scalars that tables are, with no more coordinates than a model may have.
#[tactic(auto, using(crate::proofs::Firsts::first_before), unfolding(model_core::specs::Walk::scalars_places))]
fn limited_scalars(
    alloc: Global,
    groups: &GroupList,
    names: &mut Names,
    tables: &[&Table],
) -> Result<FieldList, ReadError>
    requires groups { are_groups groups.now ≡ true }
    requires distinct { are_distinct names.old ≡ true }
    requires few { length tables.now ≤ 12 }
    ensures walked { Walked (λ fields. fields) (scalars_places groups.now names.old (table_views tables.now)) (map (scalar_of groups.now) (table_views tables.now)) result }
    ensures added { IfOk result (λ fields. names.new ≡ names.old ++ map field_name fields) }
    ensures distinct { IfOk result (λ _. are_distinct names.new ≡ true) }
    ensures valid { IfOk result (λ fields. are_scalars groups.now fields ≡ true) }
    ensures few { IfOk result (λ fields. length (flat_map (coordinates_of groups.now) fields) ≤ 256) }
{
    let scalars = scalars_of(alloc, groups, names, tables)?;
    let count = coordinate_count(groups.as_slice(), scalars.as_slice());
    few_in_all(Part::Scalar, MOST_COORDINATES, count)?;
    Ok(scalars)
}

/// The model with these tables of parts, as yet without terms, and the names of its parts.
#[tactic(auto, using(crate::proofs::Firsts::first_before), unfolding(model_core::specs::Walk::part_places))]
fn parts_with(
    alloc: Global,
    profile: u32,
    name: Name,
    names: &mut Names,
    parts: &PartTables,
) -> Result<Model, ReadError>
    requires few { ArePartsFew parts.now }
    requires fresh { names.old ≡ [] }
    ensures walked { Walked (λ model. model) (places_of (part_lists parts.now)) (model_with profile name (part_lists parts.now)) result }
    ensures names { IfOk result (λ model. names.new ≡ part_names model) }
    ensures distinct { IfOk result (λ _. are_distinct names.new ≡ true) }
    ensures valid { IfOk result (λ model. (has_valid_parts model && has_few_components model) ≡ true) }
{
    let groups = groups_of(alloc, names, parts.groups.as_slice())?;
    let fermions = limited_fermions(alloc, &groups, names, parts.fermions.as_slice())?;
    let scalars = limited_scalars(alloc, &groups, names, parts.scalars.as_slice())?;
    let tables = tensors_of(alloc, &groups, names, parts.tables.as_slice())?;
    Ok(Model {
        profile,
        name,
        groups,
        fermions,
        scalars,
        tables,
        terms: TermList::new(alloc),
    })
}

/// The model with these tables of parts and terms.
#[tactic(auto, using(crate::proofs::Firsts::first_before, crate::proofs::TermsKept::terms_with))]
fn model_with(
    alloc: Global,
    profile: u32,
    name: Name,
    parts: &PartTables,
) -> Result<Model, ReadError>
    requires { ArePartsFew parts.now }
    ensures walked { Walked (λ model. model) (whole_places profile name (part_lists parts.now)) (whole_model profile name (part_lists parts.now)) result }
    ensures valid { IfOk result (λ model. has_valid_names model ≡ true) }
    ensures terms { IfOk result (λ model. are_terms model model.terms ≡ true) }
{
    let mut names = Names::new(alloc);
    let mut model = parts_with(alloc, profile, name, &mut names, parts)?;
    let terms = terms_of(alloc, &model, &mut names, parts.terms.as_slice())?;
    model.terms = terms;
    Ok(model)
}

/// The model that a document names.
#[tactic(auto, using(crate::proofs::Firsts::first_before), unfolding(model_core::specs::Walk::bad_places, model_core::specs::Document::parts_of, model_core::specs::Reading::model_of))]
fn model_of(alloc: Global, file: &Table) -> Result<Model, ReadError>
    ensures walked { Walked (λ model. model) (bad_places (table_view file.now)) (model_of (table_view file.now)) result }
    ensures valid { IfOk result (λ model. has_valid_names model ≡ true) }
    ensures terms { IfOk result (λ model. are_terms model model.terms ≡ true) }
{
    let place = FaultPlace::new(Part::File, 0);
    let values = file_values(place, file)?;
    let profile = profile(place.key(1), values.profile)?;
    let name = name(place.key(2), values.name)?;
    let parts = part_tables(alloc, place, file)?;
    model_with(alloc, profile, name, &parts)
}

/// The model that a document names, which is valid.
#[tactic(auto, using(crate::proofs::FileRules::values_read))]
fn valid_model(alloc: Global, file: &Table) -> Result<Model, ReadError>
    ensures walked { Walked (λ model. model) (bad_places (table_view file.now)) (model_of (table_view file.now)) result }
    ensures valid { IfOk result (λ model. IsValid model) }
{
    let model = model_of(alloc, file)?;
    Ok(model)
}

/// The model that the bytes of a file stand for, which is valid.
///
/// The fault is `NotToml` at the file exactly where the bytes are no TOML document, and else the document's first bad place
/// in the order of the walk: the file's own table, then groups, fermions, scalars, tables and terms in file order.
#[tactic(auto, unfolding(model_core::specs::Reading::reading), using(crate::proofs::Readings::reading_of_walked))]
pub fn read_model(alloc: Global, bytes: &[u8]) -> Result<Model, ReadError>
    ensures value { Gives (λ model. model) result (reading bytes.now) }
    ensures valid { IfOk result (λ model. IsValid model) }
{
    let file = document(alloc, bytes)?;
    valid_model(alloc, &file)
}
