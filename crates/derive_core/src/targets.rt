//! The targets of symbols, by their ids.
ghost use Rattle.std.specs.Prelude.{◌≡◌, ◌≤◌, ◌++◌, map, IfOk, OnOk};
ghost use Rattle.std.specs.List.{flat_map};
ghost use Rattle.model_core.specs.Valid.{IsValid};
ghost use Rattle.model_core.specs.Directions.{cells_in};
ghost use Rattle.derive_core.specs.Targets.{gauge_target, index_in, cell_target, term_targets, targets};

use crate::betas::{Target, TargetList};
use model_core::{Group, Model, Shape, Term, first_column};
use std::alloc::{AllocError, Global};

/// The target of a gauge coupling.
fn gauge_target(group: &Group) -> Target
    ensures { result ≡ gauge_target group.now }
{
    Target {
        name: group.coupling.copy(),
        latex: group.latex.copy(),
        row: 0,
        column: 0,
    }
}

/// A row or a column of a symbol, 0 for a coupling that is one symbol.
fn index_in(shape: Shape, index: u32) -> u32
    ensures { result ≡ index_in shape index }
{
    match shape {
        Shape::One => 0,
        Shape::Matrix | Shape::Symmetric => index,
    }
}

/// The target of a term's symbol at a row and a column.
fn cell_target(term: &Term, row: u32, column: u32) -> Target
    ensures { result ≡ cell_target term.now (row, column) }
{
    Target {
        name: term.coupling.copy(),
        latex: term.latex.copy(),
        row: index_in(term.shape, row),
        column: index_in(term.shape, column),
    }
}

/// Adds the targets of a term's symbols in a row.
fn push_row(targets: &mut TargetList, term: &Term, row: u32) -> Result<(), AllocError>
    requires row { 1 ≤ row }
    requires columns { term.now.columns ≤ 6 }
    ensures { OnOk result (targets.new ≡ targets.old ++ map (cell_target term.now) (cells_in term.now row)) }
{
    let first = first_column(term, row);
    let count = (term.columns + 1).saturating_sub(first);
    for step in 0..count {
        targets.push(cell_target(term, row, first + step))?;
    }
    Ok(())
}

/// Adds the targets of a term's symbols, row by row.
fn push_term(targets: &mut TargetList, term: &Term) -> Result<(), AllocError>
    requires columns { term.now.columns ≤ 6 }
    requires rows { term.now.rows ≤ 6 }
    ensures { OnOk result (targets.new ≡ targets.old ++ term_targets term.now) }
{
    for row in 0..term.rows {
        push_row(targets, term, row + 1)?;
    }
    Ok(())
}

/// Adds the targets of the symbols of terms.
fn push_terms(targets: &mut TargetList, model: &Model) -> Result<(), AllocError>
    requires { IsValid model.now }
    ensures { OnOk result (targets.new ≡ targets.old ++ flat_map term_targets model.now.terms) }
{
    for place in 0..model.terms.len() {
        push_term(targets, model.terms.item(place))?;
    }
    Ok(())
}

/// A target for each id of a symbol: those of gauge couplings, then those of the terms' symbols.
pub fn targets_of(alloc: Global, model: &Model) -> Result<TargetList, AllocError>
    requires { IsValid model.now }
    ensures { IfOk result (λ found. found ≡ targets model.now) }
{
    let mut targets = gauge_targets(alloc, model.groups.as_slice())?;
    push_terms(&mut targets, model)?;
    Ok(targets)
}

/// The targets of the gauge couplings.
fn gauge_targets(alloc: Global, groups: &[Group]) -> Result<TargetList, AllocError>
    ensures { IfOk result (λ found. found ≡ map gauge_target groups.now) }
{
    let mut targets = TargetList::new(alloc);
    for group in groups {
        targets.push(gauge_target(group))?;
    }
    Ok(targets)
}
