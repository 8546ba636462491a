//! The lines of Yukawa and scalar couplings.
ghost use Rattle.std.specs.Prelude.{◌≡◌, ◌++◌, length, slice_get, Some, None, MatchOption, OnOk};
ghost use Rattle.model_core.specs.declared.model.Model.{Model as ModelValue};
ghost use Rattle.model_core.specs.Directions.{directions as directions_in};
ghost use Rattle.span_solver.specs.BlockDirections.{block_directions};
ghost use Rattle.term_expand.specs.Expansion.{AreDirections};
ghost use Rattle.derive_core.specs.LineSteps.{found_has_line, found_line};
ghost use Rattle.derive_core.specs.Lines.{outcome_in, line_of, coordinate_line, coupling_lines};

use crate::betas::{Line, LineList};
use crate::outcomes::{Outcome, Told};
use beta_poly::Poly;
use span_solver::{PolyList, same_name};
use std::alloc::{AllocError, Global};
use term_expand::{Direction, Token};

/// What the block of a name has.
fn outcome_in<'a>(told: &'a [Told], name: &[Token]) -> Option<&'a Outcome>
    ensures { MatchOption result (outcome_in name.now told.now ≡ None) (λ found. outcome_in name.now told.now ≡ Some found.now) }
{
    match told {
        [] => None,
        [first, others @ ..] => {
            if same_name(first.block.as_slice(), name) {
                return Some(&first.outcome);
            }
            outcome_in(others, name)
        }
    }
}

/// How many of some directions are in a block.
fn count_of(directions: &[Direction], name: &[Token]) -> usize
    ensures { result ≡ length (block_directions directions.now name.now) }
{
    directions
        .iter()
        .filter(|direction| same_name(direction.block.as_slice(), name))
        .count()
}

/// Whether a direction has a line: a plain one has.
fn has_line(direction: &Direction) -> bool
    ensures { result ≡ found_has_line direction.now }
{
    !direction.symbol.conj
}

/// Adds the line of a symbol with its beta function.
fn push_value(alloc: Global, lines: &mut LineList, id: u16, value: &Poly) -> Result<(), AllocError>
    ensures { OnOk result (lines.new ≡ lines.old ++ line_of id (Some value.now)) }
{
    lines.push(Line::Beta {
        symbol: id,
        loops: 1,
        value: value.copy(alloc)?,
    })
}

/// Adds the line of a symbol with the coordinate at a place, where there is one.
fn push_coordinate(
    alloc: Global,
    lines: &mut LineList,
    id: u16,
    place: usize,
    coordinates: &PolyList,
) -> Result<(), AllocError>
    ensures { OnOk result (lines.new ≡ lines.old ++ line_of id (slice_get coordinates.now place)) }
{
    match coordinates.as_slice().get(place) {
        Some(coordinate) => push_value(alloc, lines, id, coordinate),
        None => Ok(()),
    }
}

/// Adds the line of a symbol, where its block has coordinates.
fn push_spanned(
    alloc: Global,
    lines: &mut LineList,
    id: u16,
    place: usize,
    outcome: &Outcome,
) -> Result<(), AllocError>
    ensures { OnOk result (lines.new ≡ lines.old ++ coordinate_line id place (Some outcome.now)) }
{
    match outcome {
        Outcome::Spanned(coordinates) => push_coordinate(alloc, lines, id, place, coordinates),
        Outcome::Unspanned { .. } => Ok(()),
    }
}

/// Adds the line of a direction behind earlier ones.
fn push_direction(
    alloc: Global,
    lines: &mut LineList,
    told: &[Told],
    earlier: &[Direction],
    direction: &Direction,
) -> Result<(), AllocError>
    ensures { OnOk result (lines.new ≡ lines.old ++ found_line told.now earlier.now direction.now) }
{
    if !has_line(direction) {
        return Ok(());
    }
    let name = direction.block.as_slice();
    match outcome_in(told, name) {
        Some(outcome) => {
            let place = count_of(earlier, name);
            push_spanned(alloc, lines, direction.symbol.id, place, outcome)
        }
        None => Ok(()),
    }
}

/// Adds the lines of all directions.
pub fn push_couplings(
    alloc: Global,
    lines: &mut LineList,
    told: &[Told],
    directions: &[Direction],
) -> Result<(), AllocError>
    ensures { (model : ModelValue) → AreDirections (directions_in model) directions.now → OnOk result (lines.new ≡ lines.old ++ coupling_lines model told.now) }
{
    for place in 0..directions.len() {
        push_direction(alloc, lines, told, &directions[..place], &directions[place])?;
    }
    Ok(())
}
