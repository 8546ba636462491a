//! The value of a monomial where the slots of its fields have values.
ghost use Rattle.std.specs.Prelude.{◌≡◌, ◌==◌, ◌++◌, map, slice_get, option_map, unwrap_or, IfOk, OnOk, IfErr};
ghost use Rattle.std.specs.List.{find, list_any, count_by};
ghost use Rattle.frac128.specs.Rational.{◌*ℚ◌, zero_ℚ};
ghost use Rattle.model_core.specs.MonomialValue.{label_values, value_of, are_equal, is_less, inversions, has_repeat, levi_civita, same_values, stands_at, value_of_entry, entry_at, factor_at, factors_at};
ghost use Rattle.sparse_tensor.specs.Refusals.{IsTensorRefusal};
ghost use Rattle.term_expand.specs.Parity.{is_odd};

use frac128::{ByteList, Frac};
use model_core::{Entry, Factor, LabelValue, LabelValueList, Model, Monomial, Table};
use sparse_tensor::TensorFault;
use std::alloc::{AllocError, Global};

/// Adds the labels of a field's slots with the values that a component has there.
pub fn push_values(
    slots: &mut LabelValueList,
    labels: &[u32],
    values: &[u8],
) -> Result<(), AllocError>
    ensures { OnOk result (slots.new ≡ slots.old ++ label_values labels.now values.now) }
{
    match labels {
        [] => Ok(()),
        [label, labels @ ..] => match values {
            [] => Ok(()),
            [value, values @ ..] => {
                slots.push(LabelValue {
                    label: *label,
                    value: *value,
                })?;
                push_values(slots, labels, values)
            }
        },
    }
}

/// The value of a label: that of the first slot which has it.
pub fn value_of(slots: &[LabelValue], label: u32) -> u8
    ensures { result ≡ value_of slots.now label }
{
    match slots.iter().find(|slot| slot.label == label) {
        Some(slot) => slot.value,
        None => 0,
    }
}

/// Whether all slots of a label have one value.
pub fn are_equal(slots: &[LabelValue]) -> bool
    ensures { result ≡ are_equal slots.now }
{
    slots
        .iter()
        .all(|slot| slot.value == value_of(slots, slot.label))
}

/// The values of labels.
fn values_of(alloc: Global, slots: &[LabelValue], labels: &[u32]) -> Result<ByteList, AllocError>
    ensures { IfOk result (λ found. found ≡ map (value_of slots.now) labels.now) }
{
    let mut values = ByteList::new(alloc);
    for label in labels {
        values.push(value_of(slots, *label))?;
    }
    Ok(values)
}

/// Whether a value stands among others.
fn stands_in(value: u8, values: &[u8]) -> bool
    ensures { result ≡ list_any (λ other. value == other) values.now }
{
    values.iter().any(|other| value == *other)
}

/// Whether a value stands twice.
fn has_repeat(values: &[u8]) -> bool
    ensures { result ≡ has_repeat values.now }
{
    match values {
        [] => false,
        [value, values @ ..] => {
            if stands_in(*value, values) {
                return true;
            }
            has_repeat(values)
        }
    }
}

/// Whether the number of values less than a value is odd.
fn is_odd_below(value: u8, values: &[u8]) -> bool
    ensures { result ≡ is_odd (count_by (is_less value) values.now) }
{
    let mut odd = false;
    for other in values {
        if *other < value {
            odd = !odd;
        }
    }
    odd
}

/// Whether the number of pairs of values in the wrong order is odd.
fn is_odd(values: &[u8]) -> bool
    ensures { result ≡ is_odd (inversions values.now) }
{
    match values {
        [] => false,
        [value, values @ ..] => {
            if is_odd_below(*value, values) {
                return !is_odd(values);
            }
            is_odd(values)
        }
    }
}

/// The totally antisymmetric tensor of SU(n) at n values.
fn levi_civita(values: &[u8]) -> Frac
    ensures { result ≡ levi_civita values.now }
{
    if has_repeat(values) {
        return Frac::zero();
    }
    if is_odd(values) {
        return Frac::one().negated();
    }
    Frac::one()
}

/// Whether an entry of a table stands at these values.
fn same_values(values: &[u8], at: &[u32]) -> bool
    ensures { result ≡ same_values values.now at.now }
{
    match values {
        [] => at.is_empty(),
        [value, values @ ..] => match at {
            [] => false,
            [place, places @ ..] => u32::from(*value) == *place && same_values(values, places),
        },
    }
}

/// The value of the first entry that stands at these values, and 0 where none does.
fn entry_value(entries: &[Entry], values: &[u8]) -> Frac
    ensures { result ≡ unwrap_or (option_map value_of_entry (find (stands_at values.now) entries.now)) zero_ℚ }
{
    for entry in entries {
        if same_values(values, entry.at.as_slice()) {
            return entry.value;
        }
    }
    Frac::zero()
}

/// The entry of the table at a place, which is 0 where none is written.
fn entry_at(tables: &[Table], place: u32, values: &[u8]) -> Frac
    ensures { result ≡ entry_at (slice_get tables.now place) values.now }
{
    match tables.get(place as usize) {
        Some(table) => entry_value(table.entries.as_slice(), values),
        None => Frac::zero(),
    }
}

/// The number that a factor is where its labels have values.
fn factor_at(
    alloc: Global,
    model: &Model,
    slots: &[LabelValue],
    factor: &Factor,
) -> Result<Frac, AllocError>
    ensures { IfOk result (λ value. value ≡ factor_at model.now slots.now factor.now) }
{
    match factor {
        Factor::Eps { labels } => {
            let values = values_of(alloc, slots, labels.as_slice())?;
            Ok(levi_civita(values.as_slice()))
        }
        Factor::Table { table, labels } => {
            let values = values_of(alloc, slots, labels.as_slice())?;
            Ok(entry_at(model.tables.as_slice(), *table, values.as_slice()))
        }
        Factor::Fermion { .. } | Factor::Scalar { .. } => Ok(Frac::one()),
    }
}

/// The value of a monomial where the slots of its fields have values: its coefficient times the numbers that its factors
/// are.
pub fn monomial_value(
    alloc: Global,
    model: &Model,
    monomial: &Monomial,
    slots: &[LabelValue],
) -> Result<Frac, TensorFault>
    ensures value { IfOk result (λ value. value ≡ monomial.now.coefficient *ℚ factors_at model.now monomial.now.factors slots.now) }
    ensures refused { IfErr result IsTensorRefusal }
{
    let mut value = monomial.coefficient;
    for factor in monomial.factors.as_slice() {
        let number = factor_at(alloc, model, slots, factor)?;
        value = value.mul(&number)?;
    }
    Ok(value)
}
