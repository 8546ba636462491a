//! What the words of a term's text name: its conjugate, generations, slots and factor.
ghost use Rattle.std.specs.Prelude.{◌≡◌, true, length, slice_get, Some};
ghost use Rattle.std.specs.List.{list_all};
ghost use Rattle.model_core.specs.Factors.{slots_of_field, slots_of_table};
ghost use Rattle.model_core.specs.TermMeaning.{factor_named};
ghost use Rattle.model_core.specs.TermWalk.{has_conjugate, generations_in, referent_size, fits_slots};
ghost use Rattle.model_core.specs.Valid.{has_valid_parts};
ghost use Rattle.model_core.specs.Factors.{has_few_reps};

use frac128::NumberList;
use model_core::{Factor, Field, Generation, Model, Referent, Table, slot_count};

/// Whether what is named may be written with `~`: all but fermions and real scalars.
pub fn has_conjugate(model: &Model, named: Referent) -> bool
    ensures { result ≡ has_conjugate model.now named }
{
    match named {
        Referent::Fermion(_) => false,
        Referent::Scalar(place) => match model.scalars.as_slice().get(place as usize) {
            Some(field) => !field.real,
            None => true,
        },
        Referent::Eps => true,
        Referent::Table(_) => true,
    }
}

/// The generations of the field at a place: 1 where there is none.
fn generations_at(fields: &[Field], place: u32) -> u32
    ensures { result ≡ generations_in (slice_get fields.now place) }
{
    match fields.get(place as usize) {
        Some(field) => field.generations,
        None => 1,
    }
}

/// The generations of what is named: 1 of a tensor.
pub fn referent_size(model: &Model, named: Referent) -> u32
    ensures { result ≡ referent_size model.now named }
{
    match named {
        Referent::Fermion(place) => generations_at(model.fermions.as_slice(), place),
        Referent::Scalar(place) => generations_at(model.scalars.as_slice(), place),
        Referent::Eps => 1,
        Referent::Table(_) => 1,
    }
}

/// The number of slots of the field at a place: 0 where there is none.
#[tactic(auto, using(model_core::proofs::FactorLaws::few_at))]
fn slots_at(fields: &[Field], place: u32) -> u32
    requires { list_all has_few_reps fields.now ≡ true }
    ensures { result ≡ length (slots_of_field (slice_get fields.now place)) }
{
    match fields.get(place as usize) {
        Some(field) => slot_count(field.reps.as_slice()),
        None => 0,
    }
}

/// The number of slots of the table at a place: 0 where there is none.
fn table_slots(tables: &[Table], place: u32) -> usize
    ensures { result ≡ length (slots_of_table (slice_get tables.now place)) }
{
    match tables.get(place as usize) {
        Some(table) => table.slots.len(),
        None => 0,
    }
}

/// Whether what is named has so many slots: 2 to 6 in an `eps`.
#[tactic(auto, using(model_core::proofs::FactorLaws::few_reps_fermions, model_core::proofs::FactorLaws::few_reps_scalars))]
pub fn fits_slots(model: &Model, named: Referent, count: usize) -> bool
    requires { has_valid_parts model.now ≡ true }
    ensures { result ≡ fits_slots model.now named count }
{
    match named {
        Referent::Fermion(place) => count == slots_at(model.fermions.as_slice(), place) as usize,
        Referent::Scalar(place) => count == slots_at(model.scalars.as_slice(), place) as usize,
        Referent::Eps => 2 <= count && count <= 6,
        Referent::Table(place) => count == table_slots(model.tables.as_slice(), place),
    }
}

/// The factor of what is named.
pub fn factor_named(
    named: Referent,
    conj: bool,
    generation: Generation,
    labels: NumberList,
) -> Factor
    ensures { result ≡ factor_named (Some named) conj generation labels }
{
    match named {
        Referent::Fermion(field) => Factor::Fermion {
            field,
            generation,
            labels,
        },
        Referent::Scalar(field) => Factor::Scalar {
            field,
            conj,
            generation,
            labels,
        },
        Referent::Eps => Factor::Eps { labels },
        Referent::Table(table) => Factor::Table { table, labels },
    }
}
