//! The check of all terms in their order.
ghost use Rattle.std.specs.Prelude.{◌≡◌, ◌≢◌, ◌==◌, ◌<◌, ◌∷◌, [], List, length};
ghost use Rattle.std.specs.List.{flat_map, prefix_len};
ghost use Rattle.model_core.specs.Directions.{Direction as Meant, CouplingEntry, entry_directions, moves_both};
ghost use Rattle.model_core.specs.Generators.{generators};
ghost use Rattle.model_core.specs.Invariance.{change, direction_failures, failures_under, hermitian_failures, term_failures, failures};
ghost use Rattle.model_core.specs.Valid.{IsValid};
ghost use Rattle.term_expand.specs.Expansion.{IsExpansion};
ghost use Rattle.gauge_check.specs.Actions.{IsAction, AreActions};
ghost use Rattle.gauge_check.specs.Faults.{Checks, Tells, found_none};
ghost use Rattle.gauge_check.specs.Steps.{HasKeyNumbers, HasSomeKeyNumbers, AreDirectionsOf, AreTermDirections, IsDirectionOf, IsTermDirection, side_failures, is_neighbour, near_failures};

use crate::action::{Action, actions_of, legs_of};
use crate::component::component_at;
use crate::difference::first_difference;
use crate::fault::{CheckError, TermFault};
use crate::parts::{acted, side_part};
use model_core::{Generator, Model, Term, TermKind};
use sparse_tensor::Sparse;
use std::alloc::Global;
use term_expand::{Direction, Tensors, no_symbols};

/// Refuses a change that isn't 0, at its first component on a side of the block.
fn check_change(
    alloc: Global,
    model: &Model,
    place: u32,
    term: &Term,
    generator: Generator,
    side: u32,
    changed: &Sparse,
) -> Result<(), CheckError>
    requires valid { IsValid model.now }
    requires group { generator.place < length model.now.groups }
    requires numbers { HasSomeKeyNumbers model.now term.now.kind changed.now }
    ensures { (meant : Meant) → meant.place ≡ place → meant.kind ≡ term.now.kind → HasKeyNumbers model.now term.now.kind (λ key. change model.now meant generator (side ∷ key)) changed.now → Checks model.now (side_failures model.now term.now meant generator side) result }
{
    if changed.len() == 0 {
        return Ok(());
    }
    let (key, number) = changed.item(0);
    let one = no_symbols(alloc)?;
    Err(CheckError::Fault(TermFault::NotInvariant {
        term: place,
        coupling: term.coupling.copy(),
        group: model.groups.item(generator.place as usize).name.copy(),
        i: generator.i,
        j: generator.j,
        component: component_at(model, term.kind, side, key),
        value: number.coefficient(&one),
    }))
}

/// Checks the part of a direction on a side under a generator.
fn check_side(
    alloc: Global,
    model: &Model,
    place: u32,
    term: &Term,
    action: &Action,
    side: u32,
    part: &Sparse,
) -> Result<(), CheckError>
    requires valid { IsValid model.now }
    requires terms { model.now.terms ≢ [] }
    requires action { IsAction model.now action.now.generator action.now }
    requires group { action.now.generator.place < length model.now.groups }
    requires part { HasSomeKeyNumbers model.now term.now.kind part.now }
    ensures { (meant : Meant) → meant.place ≡ place → meant.kind ≡ term.now.kind → HasKeyNumbers model.now term.now.kind (λ key. meant.numbers (side ∷ key)) part.now → Checks model.now (side_failures model.now term.now meant action.now.generator side) result }
{
    let changed = acted(alloc, part, action, term.kind, side)?;
    check_change(alloc, model, place, term, action.generator, side, &changed)
}

/// Checks both parts of a direction under a generator.
fn check_sides(
    alloc: Global,
    model: &Model,
    place: u32,
    term: &Term,
    action: &Action,
    plain: &Sparse,
    conjugate: &Sparse,
) -> Result<(), CheckError>
    requires valid { IsValid model.now }
    requires terms { model.now.terms ≢ [] }
    requires action { IsAction model.now action.now.generator action.now }
    requires group { action.now.generator.place < length model.now.groups }
    requires plain { HasSomeKeyNumbers model.now term.now.kind plain.now }
    requires conjugate { HasSomeKeyNumbers model.now term.now.kind conjugate.now }
    ensures { (meant : Meant) → meant.place ≡ place → meant.kind ≡ term.now.kind → HasKeyNumbers model.now term.now.kind (λ key. meant.numbers (0 ∷ key)) plain.now → HasKeyNumbers model.now term.now.kind (λ key. meant.numbers (1 ∷ key)) conjugate.now → Checks model.now (failures_under model.now term.now meant action.now.generator) result }
{
    check_side(alloc, model, place, term, action, 0, plain)?;
    check_side(alloc, model, place, term, action, 1, conjugate)
}

/// Whether a generator is the charge, or an X_ij with j = i + 1 or i = j + 1.
fn is_neighbour(generator: Generator) -> bool
    ensures { result ≡ is_neighbour generator }
{
    let (i, j) = (u32::from(generator.i), u32::from(generator.j));
    i == 0 || i + 1 == j || j + 1 == i
}

/// Whether a check found no failure. An error that isn't a failure is handed on.
fn found_none(checked: Result<(), CheckError>) -> Result<bool, CheckError>
    ensures { result ≡ found_none checked }
{
    match checked {
        Ok(()) => Ok(true),
        Err(CheckError::Fault(_)) => Ok(false),
        Err(error) => Err(error),
    }
}

/// Whether both parts of a direction are invariant under a generator. One that isn't a neighbour isn't asked.
fn is_invariant(
    alloc: Global,
    model: &Model,
    place: u32,
    term: &Term,
    action: &Action,
    plain: &Sparse,
    conjugate: &Sparse,
) -> Result<bool, CheckError>
    requires valid { IsValid model.now }
    requires terms { model.now.terms ≢ [] }
    requires action { IsAction model.now action.now.generator action.now }
    requires group { action.now.generator.place < length model.now.groups }
    requires plain { HasSomeKeyNumbers model.now term.now.kind plain.now }
    requires conjugate { HasSomeKeyNumbers model.now term.now.kind conjugate.now }
    ensures { (meant : Meant) → meant.place ≡ place → meant.kind ≡ term.now.kind → HasKeyNumbers model.now term.now.kind (λ key. meant.numbers (0 ∷ key)) plain.now → HasKeyNumbers model.now term.now.kind (λ key. meant.numbers (1 ∷ key)) conjugate.now → Tells model.now (near_failures model.now term.now meant action.now.generator) result }
{
    if !is_neighbour(action.generator) {
        return Ok(true);
    }
    found_none(check_sides(alloc, model, place, term, action, plain, conjugate))
}

/// Whether both parts of a direction are invariant under the neighbours. Then they are invariant under all generators.
fn are_invariant(
    alloc: Global,
    model: &Model,
    place: u32,
    term: &Term,
    actions: &[Action],
    plain: &Sparse,
    conjugate: &Sparse,
) -> Result<bool, CheckError>
    requires valid { IsValid model.now }
    requires terms { model.now.terms ≢ [] }
    requires actions { AreActions model.now (generators model.now) actions.now }
    requires plain { HasSomeKeyNumbers model.now term.now.kind plain.now }
    requires conjugate { HasSomeKeyNumbers model.now term.now.kind conjugate.now }
    ensures { (meant : Meant) → meant.place ≡ place → meant.kind ≡ term.now.kind → HasKeyNumbers model.now term.now.kind (λ key. meant.numbers (0 ∷ key)) plain.now → HasKeyNumbers model.now term.now.kind (λ key. meant.numbers (1 ∷ key)) conjugate.now → Tells model.now (direction_failures model.now term.now meant) result }
{
    for action in actions {
        if !is_invariant(alloc, model, place, term, action, plain, conjugate)? {
            return Ok(false);
        }
    }
    Ok(true)
}

/// Checks both parts of a direction under all generators.
fn check_generators(
    alloc: Global,
    model: &Model,
    place: u32,
    term: &Term,
    actions: &[Action],
    plain: &Sparse,
    conjugate: &Sparse,
) -> Result<(), CheckError>
    requires valid { IsValid model.now }
    requires terms { model.now.terms ≢ [] }
    requires actions { AreActions model.now (generators model.now) actions.now }
    requires plain { HasSomeKeyNumbers model.now term.now.kind plain.now }
    requires conjugate { HasSomeKeyNumbers model.now term.now.kind conjugate.now }
    ensures { (meant : Meant) → meant.place ≡ place → meant.kind ≡ term.now.kind → HasKeyNumbers model.now term.now.kind (λ key. meant.numbers (0 ∷ key)) plain.now → HasKeyNumbers model.now term.now.kind (λ key. meant.numbers (1 ∷ key)) conjugate.now → Checks model.now (direction_failures model.now term.now meant) result }
{
    for action in actions {
        check_sides(alloc, model, place, term, action, plain, conjugate)?;
    }
    Ok(())
}

/// Checks both parts of a direction: under the neighbours first, and under all generators only where these don't suffice.
fn check_parts(
    alloc: Global,
    model: &Model,
    place: u32,
    term: &Term,
    actions: &[Action],
    plain: &Sparse,
    conjugate: &Sparse,
) -> Result<(), CheckError>
    requires valid { IsValid model.now }
    requires terms { model.now.terms ≢ [] }
    requires actions { AreActions model.now (generators model.now) actions.now }
    requires plain { HasSomeKeyNumbers model.now term.now.kind plain.now }
    requires conjugate { HasSomeKeyNumbers model.now term.now.kind conjugate.now }
    ensures { (meant : Meant) → meant.place ≡ place → meant.kind ≡ term.now.kind → HasKeyNumbers model.now term.now.kind (λ key. meant.numbers (0 ∷ key)) plain.now → HasKeyNumbers model.now term.now.kind (λ key. meant.numbers (1 ∷ key)) conjugate.now → Checks model.now (direction_failures model.now term.now meant) result }
{
    if are_invariant(alloc, model, place, term, actions, plain, conjugate)? {
        return Ok(());
    }
    check_generators(alloc, model, place, term, actions, plain, conjugate)
}

/// Checks a direction under all generators.
fn check_direction(
    alloc: Global,
    model: &Model,
    place: u32,
    term: &Term,
    actions: &[Action],
    direction: &Direction,
) -> Result<(), CheckError>
    requires valid { IsValid model.now }
    requires terms { model.now.terms ≢ [] }
    requires actions { AreActions model.now (generators model.now) actions.now }
    requires direction { IsTermDirection model.now place term.now direction.now }
    ensures { (meant : Meant) → IsDirectionOf model.now place term.now meant direction.now → Checks model.now (direction_failures model.now term.now meant) result }
{
    let plain = side_part(alloc, &direction.tensor, 0)?;
    let conjugate = side_part(alloc, &direction.tensor, 1)?;
    check_parts(alloc, model, place, term, actions, &plain, &conjugate)
}

/// Checks the directions of the term at a place under all generators.
fn check_directions(
    alloc: Global,
    model: &Model,
    place: u32,
    term: &Term,
    actions: &[Action],
    directions: &[Direction],
) -> Result<(), CheckError>
    requires valid { IsValid model.now }
    requires terms { model.now.terms ≢ [] }
    requires actions { AreActions model.now (generators model.now) actions.now }
    requires directions { AreTermDirections model.now place term.now directions.now }
    ensures { (es : List CouplingEntry) → AreDirectionsOf model.now place term.now es directions.now → Checks model.now (flat_map (direction_failures model.now term.now) (flat_map (entry_directions model.now) es)) result }
{
    for direction in directions {
        check_direction(alloc, model, place, term, actions, direction)?;
    }
    Ok(())
}

/// Whether a term is of fermions, or its conjugate is added.
fn moves_both(term: &Term) -> bool
    ensures { result ≡ moves_both term.now }
{
    term.kind == TermKind::Fermion || term.hc
}

/// Checks that a scalar term to which no conjugate is added is its own conjugate.
fn check_hermitian(
    alloc: Global,
    model: &Model,
    place: u32,
    term: &Term,
    directions: &[Direction],
) -> Result<(), CheckError>
    requires valid { IsValid model.now }
    requires terms { model.now.terms ≢ [] }
    requires directions { AreTermDirections model.now place term.now directions.now }
    ensures { (es : List CouplingEntry) → AreDirectionsOf model.now place term.now es directions.now → Checks model.now (hermitian_failures model.now place term.now es) result }
{
    if moves_both(term) {
        return Ok(());
    }
    match first_difference(alloc, model, directions)? {
        None => Ok(()),
        Some(key) => Err(CheckError::Fault(TermFault::NotHermitian {
            term: place,
            coupling: term.coupling.copy(),
            component: component_at(model, TermKind::Scalar, 0, key.as_slice()),
        })),
    }
}

/// Checks the term at a place, which counts from 1.
fn check_term(
    alloc: Global,
    model: &Model,
    place: u32,
    term: &Term,
    actions: &[Action],
    directions: &[Direction],
) -> Result<(), CheckError>
    requires valid { IsValid model.now }
    requires terms { model.now.terms ≢ [] }
    requires actions { AreActions model.now (generators model.now) actions.now }
    requires directions { AreTermDirections model.now place term.now directions.now }
    ensures { (es : List CouplingEntry) → AreDirectionsOf model.now place term.now es directions.now → Checks model.now (term_failures model.now place term.now es) result }
{
    check_directions(alloc, model, place, term, actions, directions)?;
    check_hermitian(alloc, model, place, term, directions)
}

/// How many directions there are of the term at a place before one of another term.
fn run_length(directions: &[Direction], place: u32) -> usize
    ensures { result ≡ prefix_len (λ d. d.term == place) directions.now }
{
    let mut count = 0;
    for direction in directions {
        if direction.term != place {
            return count;
        }
        count += 1;
    }
    count
}

/// Refuses the first failure of a model's terms, in their order: a direction of the term that changes under a generator, by
/// symbol, then by generator, then by component; then, of a scalar term to which no conjugate is added, the first component at
/// which it isn't its own conjugate.
///
/// `Overflow` comes only where the model has a term.
pub fn check_terms(alloc: Global, model: &Model, tensors: &Tensors) -> Result<(), CheckError>
    requires valid { IsValid model.now }
    requires tensors { IsExpansion model.now tensors.now }
    ensures { Checks model.now (failures model.now) result }
{
    let legs = legs_of(alloc, model)?;
    let actions = actions_of(alloc, model, &legs)?;
    let mut rest = tensors.directions.as_slice();
    for place in 0..model.terms.len() {
        let number = place as u32 + 1;
        let (own, others) = rest.split_at(run_length(rest, number));
        check_term(
            alloc,
            model,
            number,
            model.terms.item(place),
            actions.as_slice(),
            own,
        )?;
        rest = others;
    }
    Ok(())
}
