//! Components given to the fields of a monomial, field by field, with equal values at the slots that a label joins.
ghost use Rattle.std.specs.Prelude.{◌≡◌, ◌++◌, IfOk, OnOk};
ghost use Rattle.model_core.specs.Valid.{IsValid};
ghost use Rattle.term_expand.specs.Projectors.{IsBasis};
ghost use Rattle.term_expand.specs.Assignments.{with_candidate, extended, extended_all, after_factor, assignments};

use crate::basis::Basis;
use crate::candidates::{Candidate, candidates};
use crate::values::{are_equal, push_values};
use frac128::{ItemList, NumberList};
use model_core::{Factor, LabelValueList, Model, TermKind, generation_at};
use std::alloc::{AllocError, Global};

/// Components given to some fields of a monomial: the places of the fermions, those of the scalars, and the slots of the
/// fields with their values.
#[derive(Drop)]
pub struct Assignment {
    pub fermions: NumberList,
    pub scalars: NumberList,
    pub slots: LabelValueList,
}

/// Assignments in order.
pub type AssignmentList = ItemList<Assignment>;

/// The same numbers.
pub fn copied(alloc: Global, numbers: &[u32]) -> Result<NumberList, AllocError>
    ensures { IfOk result (λ copy. copy ≡ numbers.now) }
{
    let mut copy = NumberList::new(alloc);
    for number in numbers {
        copy.push(*number)?;
    }
    Ok(copy)
}

/// An assignment with a component given to one more field.
fn with_candidate(
    alloc: Global,
    assignment: &Assignment,
    kind: TermKind,
    labels: &[u32],
    candidate: &Candidate,
) -> Result<Assignment, AllocError>
    ensures { IfOk result (λ found. found ≡ with_candidate kind labels.now assignment.now candidate.now) }
{
    let mut fermions = copied(alloc, assignment.fermions.as_slice())?;
    let mut scalars = copied(alloc, assignment.scalars.as_slice())?;
    match kind {
        TermKind::Fermion => fermions.push(candidate.place)?,
        TermKind::Scalar => scalars.push(candidate.place)?,
    }
    let mut slots = LabelValueList::new(alloc);
    for slot in assignment.slots.as_slice() {
        slots.push(*slot)?;
    }
    push_values(&mut slots, labels, candidate.slots.as_slice())?;
    Ok(Assignment {
        fermions,
        scalars,
        slots,
    })
}

/// Adds the assignments that extend one by a field's candidates.
fn push_extended(
    alloc: Global,
    found: &mut AssignmentList,
    assignment: &Assignment,
    kind: TermKind,
    labels: &[u32],
    candidates: &[Candidate],
) -> Result<(), AllocError>
    ensures { OnOk result (found.new ≡ found.old ++ extended kind labels.now candidates.now assignment.now) }
{
    for candidate in candidates {
        let next = with_candidate(alloc, assignment, kind, labels, candidate)?;
        if are_equal(next.slots.as_slice()) {
            found.push(next)?;
        }
    }
    Ok(())
}

/// The assignments that extend others by a field's candidates.
fn extended_all(
    alloc: Global,
    assignments: &[Assignment],
    kind: TermKind,
    labels: &[u32],
    candidates: &[Candidate],
) -> Result<AssignmentList, AllocError>
    ensures { IfOk result (λ found. found ≡ extended_all kind labels.now candidates.now assignments.now) }
{
    let mut found = AssignmentList::new(alloc);
    for assignment in assignments {
        push_extended(alloc, &mut found, assignment, kind, labels, candidates)?;
    }
    Ok(found)
}

/// The assignments that extend others by the field of a factor, if it has one.
fn after_factor(
    alloc: Global,
    model: &Model,
    basis: &Basis,
    row: u32,
    column: u32,
    factor: &Factor,
    assignments: AssignmentList,
) -> Result<AssignmentList, AllocError>
    requires valid { IsValid model.now }
    requires basis { IsBasis model.now basis.now }
    ensures { IfOk result (λ found. found ≡ after_factor model.now row column factor.now assignments) }
{
    match factor {
        Factor::Fermion {
            field,
            generation,
            labels,
        } => {
            let generation = generation_at(row, column, *generation);
            let fermions = basis.fermions.as_slice();
            let fields = model.fermions.as_slice();
            let all = candidates(alloc, fermions, fields, *field, false, generation)?;
            extended_all(
                alloc,
                assignments.as_slice(),
                TermKind::Fermion,
                labels.as_slice(),
                all.as_slice(),
            )
        }
        Factor::Scalar {
            field,
            conj,
            generation,
            labels,
        } => {
            let generation = generation_at(row, column, *generation);
            let scalars = basis.scalars.as_slice();
            let fields = model.scalars.as_slice();
            let all = candidates(alloc, scalars, fields, *field, *conj, generation)?;
            extended_all(
                alloc,
                assignments.as_slice(),
                TermKind::Scalar,
                labels.as_slice(),
                all.as_slice(),
            )
        }
        Factor::Eps { .. } | Factor::Table { .. } => Ok(assignments),
    }
}

/// All ways to give components to the fields of a monomial in order, at an entry of its coupling.
pub fn assignments(
    alloc: Global,
    model: &Model,
    basis: &Basis,
    row: u32,
    column: u32,
    factors: &[Factor],
) -> Result<AssignmentList, AllocError>
    requires valid { IsValid model.now }
    requires basis { IsBasis model.now basis.now }
    ensures { IfOk result (λ found. found ≡ assignments model.now row column factors.now) }
{
    let mut found = AssignmentList::new(alloc);
    found.push(Assignment {
        fermions: NumberList::new(alloc),
        scalars: NumberList::new(alloc),
        slots: LabelValueList::new(alloc),
    })?;
    for factor in factors {
        found = after_factor(alloc, model, basis, row, column, factor, found)?;
    }
    Ok(found)
}
