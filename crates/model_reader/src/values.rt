//! The values at keys, each in its form.
ghost use Rattle.std.specs.Prelude.{◌≡◌, ◌∷◌, [], ◌++◌, true, false, ◌&&◌, ◌||◌, not, ◌==◌, IfOk, codes};
ghost use Rattle.std.specs.List.{list_any};
ghost use Rattle.toml.specs.Data.{integer, get_member};
ghost use Rattle.toml.specs.View.{view, table_view};
ghost use Rattle.frac128.specs.Rational.{eq_ℚ, zero_ℚ};
ghost use Rattle.model_core.specs.Groups.{is_between, is_abelian};
ghost use Rattle.model_core.specs.Valid.{are_distinct};
ghost use Rattle.model_core.specs.Document.{text_of, number_of, fraction_of, truth_of, value_or};
ghost use Rattle.model_core.specs.Walk.{integer_places, name_places, latex_places, dimension_places, fraction_places, charge_places, real_places, found_places};
ghost use Rattle.model_core.specs.Valid.{is_own_conjugate};
ghost use Rattle.model_reader.specs.Walked.{Walked};

use crate::error::{ReadError, refused};
use crate::keys::value_at;
use crate::literal::{text_fraction, whole_fraction};
use crate::names::Names;
use frac128::Frac;
use model_core::{FaultPlace, Field, Group, Latex, Name, ReadKind, is_own_conjugate};
use toml::{Table, Value};

/// A whole number from `low` to `high`, or the refusal of this kind.
fn checked_number(
    place: FaultPlace,
    low: u32,
    high: u32,
    kind: ReadKind,
    number: i64,
) -> Result<u32, ReadError>
    ensures { Walked (λ n. n) (integer_places low high kind place (integer number)) (number_of (integer number)) result }
{
    match u32::try_from(number) {
        Ok(small) => {
            if small < low {
                return refused(place, kind);
            }
            if small > high {
                return refused(place, kind);
            }
            Ok(small)
        }
        Err(_) => refused(place, kind),
    }
}

/// The whole number from `low` to `high` that a value is, or the refusal of this kind.
fn number(
    place: FaultPlace,
    low: u32,
    high: u32,
    kind: ReadKind,
    value: &Value,
) -> Result<u32, ReadError>
    ensures walked { Walked (λ n. n) (integer_places low high kind place (view value.now)) (number_of (view value.now)) result }
    ensures within { IfOk result (λ n. is_between low high n ≡ true) }
{
    match value.as_integer() {
        Some(number) => checked_number(place, low, high, kind, number),
        None => refused(place, ReadKind::WrongType),
    }
}

/// The version of the format, which is 1.
pub fn profile(place: FaultPlace, value: &Value) -> Result<u32, ReadError>
    ensures { Walked (λ n. n) (integer_places 1 1 ReadKind.BadNumber place (view value.now)) (number_of (view value.now)) result }
{
    number(place, 1, 1, ReadKind::BadNumber, value)
}

/// The number of generations, from 1 to 6: 1 where nothing is said.
pub fn generations(place: FaultPlace, table: &Table) -> Result<u32, ReadError>
    ensures walked { Walked (λ n. n) (found_places (integer_places 1 6 ReadKind.BadNumber place) (get_member (codes "generations") (table_view table.now)))
        (value_or number_of 1 (get_member (codes "generations") (table_view table.now))) result }
    ensures within { IfOk result (λ n. is_between 1 6 n ≡ true) }
{
    match value_at(table, "generations") {
        Some(value) => number(place, 1, 6, ReadKind::BadNumber, value),
        None => Ok(1),
    }
}

/// Whether one of these groups is a U(1).
pub fn has_abelian(groups: &[Group]) -> bool
    ensures { result ≡ list_any is_abelian groups.now }
{
    groups.iter().any(|group| group.is_abelian())
}

/// The n of a group after earlier ones: from 1 to 6, and no second 1.
pub fn dimension(place: FaultPlace, earlier: &[Group], value: &Value) -> Result<u32, ReadError>
    ensures walked { Walked (λ n. n) (dimension_places earlier.now place (view value.now)) (number_of (view value.now)) result }
    ensures within { IfOk result (λ n. is_between 1 6 n ≡ true) }
    ensures single { IfOk result (λ n. (n == 1 && list_any is_abelian earlier.now) ≡ false) }
{
    let n = number(place, 1, 6, ReadKind::BadGroup, value)?;
    if n != 1 {
        return Ok(n);
    }
    if has_abelian(earlier) {
        return refused(place, ReadKind::SecondAbelian);
    }
    Ok(n)
}

/// The name that a value is.
pub fn name(place: FaultPlace, value: &Value) -> Result<Name, ReadError>
    ensures { Walked (λ name. name) (name_places [] place (view value.now)) (text_of (view value.now)) result }
{
    let Some(text) = value.as_str() else {
        return refused(place, ReadKind::WrongType);
    };
    match Name::new(text.as_bytes()) {
        Ok(name) => Ok(name),
        Err(_) => refused(place, ReadKind::BadName),
    }
}

/// The name that a value is, which none of the earlier ones repeats. It is added to these.
#[tactic(auto, using(model_core::proofs::ValidParts::distinct_push, crate::proofs::NameLaws::name_after))]
pub fn new_name(place: FaultPlace, names: &mut Names, value: &Value) -> Result<Name, ReadError>
    requires { are_distinct names.old ≡ true }
    ensures walked { Walked (λ name. name) (name_places names.old place (view value.now)) (text_of (view value.now)) result }
    ensures added { IfOk result (λ _. names.new ≡ names.old ++ text_of (view value.now) ∷ []) }
    ensures distinct { IfOk result (λ _. are_distinct names.new ≡ true) }
{
    let name = name(place, value)?;
    if !names.add(&name)? {
        return refused(place, ReadKind::RepeatedName);
    }
    Ok(name)
}

/// The text in LaTeX that a value is.
fn latex(place: FaultPlace, value: &Value) -> Result<Latex, ReadError>
    ensures { Walked (λ text. text) (latex_places place (view value.now)) (text_of (view value.now)) result }
{
    let Some(text) = value.as_str() else {
        return refused(place, ReadKind::WrongType);
    };
    match Latex::new(text.as_bytes()) {
        Ok(latex) => Ok(latex),
        Err(_) => refused(place, ReadKind::BadName),
    }
}

/// A coupling's text in LaTeX: its name where there is none.
pub fn latex_or(place: FaultPlace, table: &Table, coupling: &Name) -> Result<Latex, ReadError>
    ensures { Walked (λ text. text) (found_places (latex_places place) (get_member (codes "latex") (table_view table.now)))
        (value_or text_of coupling.now (get_member (codes "latex") (table_view table.now))) result }
{
    match value_at(table, "latex") {
        Some(value) => latex(place, value),
        None => Ok(coupling.to_latex()),
    }
}

/// The fraction that a value is.
pub fn fraction(place: FaultPlace, value: &Value) -> Result<Frac, ReadError>
    ensures { Walked (λ x. x) (fraction_places place (view value.now)) (fraction_of (view value.now)) result }
{
    let found = match value {
        Value::Integer(number) => whole_fraction(*number),
        Value::String(text) => text_fraction(text.as_str()),
        _ => return refused(place, ReadKind::WrongType),
    };
    match found {
        Some(fraction) => Ok(fraction),
        None => refused(place, ReadKind::BadNumber),
    }
}

/// The charge that a value is, which is 0 where no group is a U(1).
fn checked_charge(place: FaultPlace, groups: &[Group], value: &Value) -> Result<Frac, ReadError>
    ensures walked { Walked (λ x. x) (charge_places groups.now place (view value.now)) (fraction_of (view value.now)) result }
    ensures of_group { IfOk result (λ x. (list_any is_abelian groups.now || eq_ℚ x zero_ℚ) ≡ true) }
{
    let charge = fraction(place, value)?;
    if charge == Frac::zero() {
        return Ok(charge);
    }
    if !has_abelian(groups) {
        return refused(place, ReadKind::BadGroup);
    }
    Ok(charge)
}

/// A field's charge: 0 where nothing is said.
pub fn charge(place: FaultPlace, groups: &[Group], table: &Table) -> Result<Frac, ReadError>
    ensures walked { Walked (λ x. x) (found_places (charge_places groups.now place) (get_member (codes "charge") (table_view table.now)))
        (value_or fraction_of zero_ℚ (get_member (codes "charge") (table_view table.now))) result }
    ensures of_group { IfOk result (λ x. (list_any is_abelian groups.now || eq_ℚ x zero_ℚ) ≡ true) }
{
    match value_at(table, "charge") {
        Some(value) => checked_charge(place, groups, value),
        None => Ok(Frac::zero()),
    }
}

/// Whether a scalar is real, as a value says.
fn checked_real(place: FaultPlace, field: &Field, value: &Value) -> Result<bool, ReadError>
    ensures walked { Walked (λ real. real) (real_places field.now place (view value.now)) (truth_of (view value.now)) result }
    ensures allowed { IfOk result (λ real. (not real || is_own_conjugate field.now) ≡ true) }
{
    let Some(real) = value.as_bool() else {
        return refused(place, ReadKind::WrongType);
    };
    if !real {
        return Ok(false);
    }
    if !is_own_conjugate(field) {
        return refused(place, ReadKind::BadRealScalar);
    }
    Ok(true)
}

/// Whether a scalar is real: it is complex where nothing is said.
pub fn real_or(place: FaultPlace, field: &Field, table: &Table) -> Result<bool, ReadError>
    ensures walked { Walked (λ real. real) (found_places (real_places field.now place) (get_member (codes "real") (table_view table.now)))
        (value_or truth_of false (get_member (codes "real") (table_view table.now))) result }
    ensures allowed { IfOk result (λ real. (not real || is_own_conjugate field.now) ≡ true) }
{
    match value_at(table, "real") {
        Some(value) => checked_real(place, field, value),
        None => Ok(false),
    }
}
