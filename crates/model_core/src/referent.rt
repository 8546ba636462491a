//! What the words of a term's text name.
ghost use Rattle.std.specs.Prelude.{◌≡◌, ◌≤◌, true, codes, length, position};
ghost use Rattle.std.specs.Str.{bytes_eq};
ghost use Rattle.model_core.specs.Valid.{has_valid_parts};
ghost use Rattle.model_core.specs.TermMeaning.{field_has_name, table_has_name, referent_of};

use crate::field::Field;
use crate::model::Model;
use crate::table::Table;

/// What a word of a term's text names.
#[derive(Clone, Copy, Debug, PartialEq, Eq)]
pub enum Referent {
    /// A fermion, by its place among the model's fermions.
    Fermion(u32),
    /// A scalar, by its place among the model's scalars.
    Scalar(u32),
    /// The totally antisymmetric tensor.
    Eps,
    /// A table, by its place among the model's tables.
    Table(u32),
}

/// Whether the word is that of the totally antisymmetric tensor.
fn is_eps(word: &[u8]) -> bool
    ensures { result ≡ bytes_eq word.now (codes "eps") }
{
    word == b"eps".as_slice()
}

/// The place of the first field of this name.
fn find_field(fields: &[Field], word: &[u8]) -> Option<usize>
    ensures { result ≡ position (field_has_name word.now) fields.now }
{
    fields
        .iter()
        .position(|field| word == field.name.as_bytes())
}

/// The place of the first table of this name.
fn find_table(tables: &[Table], word: &[u8]) -> Option<usize>
    ensures { result ≡ position (table_has_name word.now) tables.now }
{
    tables
        .iter()
        .position(|table| word == table.name.as_bytes())
}

/// The place of the first field of this name, among few fields.
fn field_of_name(fields: &[Field], word: &[u8]) -> Option<u32>
    requires { length fields.now ≤ 24 }
    ensures { result ≡ position (field_has_name word.now) fields.now }
{
    let place = find_field(fields, word)?;
    Some(place as u32)
}

/// The place of the first table of this name, among few tables.
fn table_of_name(tables: &[Table], word: &[u8]) -> Option<u32>
    requires { length tables.now ≤ 16 }
    ensures { result ≡ position (table_has_name word.now) tables.now }
{
    let place = find_table(tables, word)?;
    Some(place as u32)
}

/// What a word of a term's text names in a model: the totally antisymmetric tensor, or else the first fermion, scalar or
/// table of this name, in this order. It takes no memory.
#[tactic(auto, unfolding(crate::specs::TermMeaning::referent_of))]
pub fn referent_of(model: &Model, word: &[u8]) -> Option<Referent>
    requires { has_valid_parts model.now ≡ true }
    ensures { result ≡ referent_of model.now word.now }
{
    if is_eps(word) {
        return Some(Referent::Eps);
    }
    if let Some(place) = field_of_name(model.fermions.as_slice(), word) {
        return Some(Referent::Fermion(place));
    }
    if let Some(place) = field_of_name(model.scalars.as_slice(), word) {
        return Some(Referent::Scalar(place));
    }
    let place = table_of_name(model.tables.as_slice(), word)?;
    Some(Referent::Table(place))
}
