//! Representations.
ghost use Rattle.std.specs.Prelude.{◌≡◌, IfOk, true, is_some, ◌&&◌, codes};
ghost use Rattle.toml.specs.Data.{get_member, no_members};
ghost use Rattle.toml.specs.Data as toml_data;
ghost use Rattle.toml.specs.View.{view, table_view};
ghost use Rattle.su_reps.specs.declared.rep.Rep.TheVariants.{Singlet};
ghost use Rattle.model_core.specs.Valid.{are_reps};
ghost use Rattle.model_core.specs.Document.{text_of, members_of, rep_named, rep_of, rep_under, reps_of, value_or};
ghost use Rattle.model_core.specs.Walk.{are_texts, names_special, are_reps_named, reps_places, found_places};
ghost use Rattle.model_reader.specs.Walked.{Walked, Passes};

use crate::error::{ReadError, refused};
use crate::keys::{value_at, value_at_bytes};
use model_core::{FaultPlace, Group, ReadKind, RepList};
use std::alloc::{AllocError, Global};
use su_reps::Rep;
use toml::{Table, Value};

/// The representation that a word stands for.
fn rep_named(word: &str) -> Option<Rep>
    ensures { result ≡ rep_named word.now }
{
    match word {
        "singlet" => Some(Rep::Singlet),
        "fund" => Some(Rep::Fund),
        "conj" => Some(Rep::Conj),
        "adjoint" => Some(Rep::Adjoint),
        "sym2" => Some(Rep::Sym2),
        "sym2conj" => Some(Rep::Sym2Conj),
        "anti2" => Some(Rep::Anti2),
        "anti2conj" => Some(Rep::Anti2Conj),
        _ => None,
    }
}

/// Whether each value of the table is a text.
fn are_texts(table: &Table) -> bool
    ensures { result ≡ are_texts (table_view table.now) }
{
    for (_, value) in table {
        if value.as_str().is_none() {
            return false;
        }
    }
    true
}

/// Whether a group SU(n) has this name.
pub fn names_special(groups: &[Group], name: &[u8]) -> bool
    ensures { result ≡ names_special groups.now name.now }
{
    groups.iter().any(|group| !group.is_abelian() && name == group.name.as_bytes())
}

/// Whether a value is the word for a representation.
fn is_rep_word(value: &Value) -> bool
    ensures { result ≡ is_some (rep_named (text_of (view value.now))) }
{
    match value.as_str() {
        Some(word) => rep_named(word).is_some(),
        None => false,
    }
}

/// Whether each key of the table is the name of a group SU(n), and each value the word for a representation.
fn are_reps_named(groups: &[Group], table: &Table) -> bool
    ensures { result ≡ are_reps_named groups.now (table_view table.now) }
{
    for (key, value) in table {
        if !names_special(groups, key.as_bytes()) {
            return false;
        }
        if !is_rep_word(value) {
            return false;
        }
    }
    true
}

/// Asks that a value is a table of words for representations under names of groups SU(n).
fn checked_reps(place: FaultPlace, groups: &[Group], table: &Table) -> Result<(), ReadError>
    ensures { Passes (reps_places groups.now place (toml_data.table (table_view table.now))) result }
{
    if !are_texts(table) {
        return refused(place, ReadKind::WrongType);
    }
    if !are_reps_named(groups, table) {
        return refused(place, ReadKind::BadRep);
    }
    Ok(())
}

/// The representation that a value names.
fn rep_of(value: &Value) -> Rep
    ensures { result ≡ rep_of (view value.now) }
{
    match value.as_str() {
        Some(word) => rep_named(word).unwrap_or(Rep::Singlet),
        None => Rep::Singlet,
    }
}

/// The representation under a group.
fn rep_under(table: &Table, group: &Group) -> Rep
    ensures { result ≡ rep_under (table_view table.now) group.now }
{
    if group.is_abelian() {
        return Rep::Singlet;
    }
    match value_at_bytes(table, group.name.as_bytes()) {
        Some(value) => rep_of(value),
        None => Rep::Singlet,
    }
}

/// The representation under each group.
fn reps_of(alloc: Global, groups: &[Group], table: &Table) -> Result<RepList, AllocError>
    ensures { IfOk result (λ reps. reps ≡ reps_of groups.now (table_view table.now)) }
{
    let mut reps = RepList::new(alloc);
    for group in groups {
        reps.push(rep_under(table, group))?;
    }
    Ok(reps)
}

/// The singlet of each group.
fn singlets(alloc: Global, groups: &[Group]) -> Result<RepList, AllocError>
    ensures { IfOk result (λ reps. reps ≡ reps_of groups.now no_members) }
{
    let mut reps = RepList::new(alloc);
    for _ in groups {
        reps.push(Rep::Singlet)?;
    }
    Ok(reps)
}

/// A field's representations: singlets where nothing is said.
#[tactic(auto, using(model_core::proofs::ValidParts::reps_fit))]
pub fn reps_at(
    alloc: Global,
    place: FaultPlace,
    groups: &[Group],
    field: &Table,
) -> Result<RepList, ReadError>
    ensures walked { Walked (λ reps. reps) (found_places (reps_places groups.now place) (get_member (codes "reps") (table_view field.now)))
        (reps_of groups.now (value_or members_of no_members (get_member (codes "reps") (table_view field.now)))) result }
    ensures fit { IfOk result (λ reps. are_reps groups.now reps ≡ true) }
{
    let Some(value) = value_at(field, "reps") else {
        return Ok(singlets(alloc, groups)?);
    };
    let Some(table) = value.as_table() else {
        return refused(place, ReadKind::WrongType);
    };
    checked_reps(place, groups, table)?;
    Ok(reps_of(alloc, groups, table)?)
}
