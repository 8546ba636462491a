//! The factors of a monomial: which labels they have, which slots, and how labels join these.
ghost use Rattle.std.specs.Prelude.{◌≡◌, ◌+◌, ◌*◌, ◌≤◌, ◌++◌, ◌==◌, ◌||◌, not, true, length, replicate, slice_get, Some, IfOk};
ghost use Rattle.std.specs.List.{list_all, list_any, count_by};
ghost use Rattle.model_core.specs.Valid.{has_valid_parts};
ghost use Rattle.model_core.specs.Factors.{labels_of, all_labels, rep_slots, has_few_reps, slots_of_field, slots_of_table, labelled, labelled_slots_of, labelled_slots, is_in_field, joins_two, has_label, group_of_label, joins_one_group, spans_group, eps_fits};

use crate::content::{LabelledSlot, LabelledSlotList};
use crate::field::Field;
use crate::group::{Group, slot_size};
use crate::model::Model;
use crate::table::Table;
use crate::term::Factor;
use frac128::NumberList;
use std::alloc::{AllocError, Global};
use su_reps::{Rep, slots};

/// The labels of a factor, one for each of its slots.
pub fn labels_of(factor: &Factor) -> &[u32]
    ensures { result.now ≡ labels_of factor.now }
{
    match factor {
        Factor::Fermion { labels, .. }
        | Factor::Scalar { labels, .. }
        | Factor::Eps { labels }
        | Factor::Table { labels, .. } => labels.as_slice(),
    }
}

/// How many slots a field of these representations has, of at most 4. It takes no memory.
pub fn slot_count(reps: &[Rep]) -> u32
    requires { length reps.now ≤ 4 }
    ensures value { result ≡ length (rep_slots 0 reps.now) }
    ensures bound { result ≤ 2 * length reps.now }
{
    match reps {
        [] => 0,
        [rep, reps @ ..] => slots(*rep) + slot_count(reps),
    }
}

/// Adds slots of a group.
fn push_slots(groups: &mut NumberList, place: u32, count: u32) -> Result<(), AllocError>
    ensures { IfOk result (λ _. groups.new ≡ groups.old ++ replicate count place) }
{
    for _i in 0..count {
        groups.push(place)?;
    }
    Ok(())
}

/// Adds the group of each slot that these representations give, of which the first is under the group at this place.
fn push_rep_slots(groups: &mut NumberList, place: u32, reps: &[Rep]) -> Result<(), AllocError>
    requires { place + length reps.now ≤ 4 }
    ensures { IfOk result (λ _. groups.new ≡ groups.old ++ rep_slots place reps.now) }
{
    match reps {
        [] => Ok(()),
        [rep, reps @ ..] => {
            push_slots(groups, place, slots(*rep))?;
            push_rep_slots(groups, place + 1, reps)
        }
    }
}

/// The group of each slot of a field.
fn rep_slots(alloc: Global, reps: &[Rep]) -> Result<NumberList, AllocError>
    requires { length reps.now ≤ 4 }
    ensures { IfOk result (λ groups. groups ≡ rep_slots 0 reps.now) }
{
    let mut groups = NumberList::new(alloc);
    push_rep_slots(&mut groups, 0, reps)?;
    Ok(groups)
}

/// Adds slots with these labels and these groups.
fn push_labelled(
    slots: &mut LabelledSlotList,
    labels: &[u32],
    groups: &[u32],
) -> Result<(), AllocError>
    ensures { IfOk result (λ _. slots.new ≡ slots.old ++ labelled labels.now groups.now) }
{
    match labels {
        [] => Ok(()),
        [label, labels @ ..] => match groups {
            [] => Ok(()),
            [group, groups @ ..] => {
                let (label, group) = (*label, *group);
                slots.push(LabelledSlot { label, group })?;
                push_labelled(slots, labels, groups)
            }
        },
    }
}

/// Adds the slots of a field with these labels.
fn push_slots_of_field(
    alloc: Global,
    slots: &mut LabelledSlotList,
    field: &Field,
    labels: &[u32],
) -> Result<(), AllocError>
    requires { length field.now.reps ≤ 4 }
    ensures { IfOk result (λ _. slots.new ≡ slots.old ++ labelled labels.now (slots_of_field (Some field.now))) }
{
    let groups = rep_slots(alloc, field.reps.as_slice())?;
    push_labelled(slots, labels, groups.as_slice())
}

/// Adds the slots of a field with these labels, where the model has the field.
#[tactic(auto, using(crate::proofs::FactorLaws::few_at))]
fn push_field_slots(
    alloc: Global,
    slots: &mut LabelledSlotList,
    fields: &[Field],
    place: u32,
    labels: &[u32],
) -> Result<(), AllocError>
    requires { list_all has_few_reps fields.now ≡ true }
    ensures { IfOk result (λ _. slots.new ≡ slots.old ++ labelled labels.now (slots_of_field (slice_get fields.now place))) }
{
    match fields.get(place as usize) {
        Some(field) => push_slots_of_field(alloc, slots, field, labels),
        None => Ok(()),
    }
}

/// Adds the slots of a table with these labels, where the model has the table.
fn push_table_slots(
    slots: &mut LabelledSlotList,
    tables: &[Table],
    place: u32,
    labels: &[u32],
) -> Result<(), AllocError>
    ensures { IfOk result (λ _. slots.new ≡ slots.old ++ labelled labels.now (slots_of_table (slice_get tables.now place))) }
{
    match tables.get(place as usize) {
        Some(table) => push_labelled(slots, labels, table.slots.as_slice()),
        None => Ok(()),
    }
}

/// Adds the slots of a field's or a table's factor.
#[tactic(auto, using(crate::proofs::FactorLaws::labelled_none, crate::proofs::FactorLaws::few_reps_fermions, crate::proofs::FactorLaws::few_reps_scalars))]
fn push_slots_of(
    alloc: Global,
    slots: &mut LabelledSlotList,
    model: &Model,
    factor: &Factor,
) -> Result<(), AllocError>
    requires { has_valid_parts model.now ≡ true }
    ensures { IfOk result (λ _. slots.new ≡ slots.old ++ labelled_slots_of model.now factor.now) }
{
    match factor {
        Factor::Fermion { field, labels, .. } => push_field_slots(
            alloc,
            slots,
            model.fermions.as_slice(),
            *field,
            labels.as_slice(),
        ),
        Factor::Scalar { field, labels, .. } => push_field_slots(
            alloc,
            slots,
            model.scalars.as_slice(),
            *field,
            labels.as_slice(),
        ),
        Factor::Eps { .. } => Ok(()),
        Factor::Table { table, labels } => {
            push_table_slots(slots, model.tables.as_slice(), *table, labels.as_slice())
        }
    }
}

/// The slots of a monomial's fields and tables in order, each with its label and its group. The model meets its rules,
/// its terms and names apart. Only want of memory is an error.
pub fn labelled_slots(
    alloc: Global,
    model: &Model,
    factors: &[Factor],
) -> Result<LabelledSlotList, AllocError>
    requires { has_valid_parts model.now ≡ true }
    ensures { IfOk result (λ slots. slots ≡ labelled_slots model.now factors.now) }
{
    let mut slots = LabelledSlotList::new(alloc);
    for factor in factors {
        push_slots_of(alloc, &mut slots, model, factor)?;
    }
    Ok(slots)
}

/// Whether one of the labels is this one.
fn has_label(labels: &[u32], label: u32) -> bool
    ensures { result ≡ list_any (λ l. label == l) labels.now }
{
    labels.iter().any(|other| label == *other)
}

/// Whether the factor is a field with the label.
fn is_in_field(label: u32, factor: &Factor) -> bool
    ensures { result ≡ is_in_field label factor.now }
{
    match factor {
        Factor::Fermion { labels, .. } | Factor::Scalar { labels, .. } => {
            has_label(labels.as_slice(), label)
        }
        _ => false,
    }
}

/// Whether a field has the label.
fn is_in_a_field(factors: &[Factor], label: u32) -> bool
    ensures { result ≡ list_any (is_in_field label) factors.now }
{
    factors.iter().any(|factor| is_in_field(label, factor))
}

/// How often a label stands among some labels.
fn count_in(labels: &[u32], label: u32) -> usize
    ensures { result ≡ count_by (λ l. label == l) labels.now }
{
    labels.iter().filter(|other| label == **other).count()
}

/// Whether a label stands so many times among those of the factors.
fn stands_times(factors: &[Factor], label: u32, times: usize) -> bool
    ensures { result ≡ (count_by (λ l. label == l) (all_labels factors.now) == times) }
{
    match factors {
        [] => times == 0,
        [factor, factors @ ..] => {
            let here = count_in(labels_of(factor), label);
            here <= times && stands_times(factors, label, times - here)
        }
    }
}

/// Whether a label joins two slots, of which a field has one. It takes no memory.
pub fn joins_two(factors: &[Factor], label: u32) -> bool
    ensures { result ≡ joins_two factors.now label }
{
    stands_times(factors, label, 2) && is_in_a_field(factors, label)
}

/// The group of a label: that of the first slot that it has, and 0 where it has none.
fn group_of_label(slots: &[LabelledSlot], label: u32) -> u32
    ensures { result ≡ group_of_label slots.now label }
{
    match slots.iter().find(|slot| label == slot.label) {
        Some(slot) => slot.group,
        None => 0,
    }
}

/// Whether each slot of a label is of this group.
fn are_of_group(slots: &[LabelledSlot], label: u32, group: u32) -> bool
    ensures { result ≡ list_all (λ slot. not (has_label label slot) || slot.group == group) slots.now }
{
    slots
        .iter()
        .all(|slot| label != slot.label || slot.group == group)
}

/// Whether all slots of a label have the same group. It takes no memory.
pub fn joins_one_group(slots: &[LabelledSlot], label: u32) -> bool
    ensures { result ≡ joins_one_group slots.now label }
{
    are_of_group(slots, label, group_of_label(slots, label))
}

/// Whether each label is of this group.
fn have_group(slots: &[LabelledSlot], labels: &[u32], group: u32) -> bool
    ensures { result ≡ list_all (λ label. group_of_label slots.now label == group) labels.now }
{
    labels
        .iter()
        .all(|label| group_of_label(slots, *label) == group)
}

/// Whether the labels of an `eps` are of one group SU(n), with n equal to their number.
fn spans_group(groups: &[Group], slots: &[LabelledSlot], labels: &[u32]) -> bool
    ensures { result ≡ spans_group groups.now slots.now labels.now }
{
    match labels {
        [] => false,
        [first, others @ ..] => {
            let group = group_of_label(slots, *first);
            slot_size(groups, group) as usize == labels.len() && have_group(slots, others, group)
        }
    }
}

/// Whether a factor is no `eps`, or one whose labels are of one group SU(n), with n equal to their number. It takes no
/// memory.
pub fn eps_fits(groups: &[Group], slots: &[LabelledSlot], factor: &Factor) -> bool
    ensures { result ≡ eps_fits groups.now slots.now factor.now }
{
    match factor {
        Factor::Eps { labels } => spans_group(groups, slots, labels.as_slice()),
        _ => true,
    }
}
