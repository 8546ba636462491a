//! The rows and columns of a term's coupling.
ghost use Rattle.std.specs.Prelude.{◌≡◌, ◌==◌, ◌&&◌, IfOk};
ghost use Rattle.std.specs.List.{list_all, count_by};
ghost use Rattle.model_core.specs.declared.term.Generation.TheVariants.{Row, Column};
ghost use Rattle.model_core.specs.Flavour.{fields_of, use_size, is_row, is_column, is_at, flavour_size, flavour_count, has_flavour, monomial_has_flavour, has_sizes, is_symmetric, has_square_shape, have_sizes};

use crate::content::{FieldUse, uses};
use crate::field::Field;
use crate::model::Model;
use crate::term::{Generation, Monomial, Shape, Term, TermKind};
use std::alloc::{AllocError, Global};

/// The fields of a kind.
fn fields_of(model: &Model, kind: TermKind) -> &[Field]
    ensures { result.now ≡ fields_of model.now kind }
{
    match kind {
        TermKind::Fermion => model.fermions.as_slice(),
        TermKind::Scalar => model.scalars.as_slice(),
    }
}

/// How many generations the field of a use has: 1 where the model doesn't have the field.
fn use_size(model: &Model, used: &FieldUse) -> u32
    ensures { result ≡ use_size model.now used.now }
{
    match fields_of(model, used.kind).get(used.field as usize) {
        Some(field) => field.generations,
        None => 1,
    }
}

/// Whether a generation is the row.
fn is_row(generation: Generation) -> bool
    ensures { result ≡ is_row generation }
{
    matches!(generation, Generation::Row)
}

/// Whether a generation is the column.
fn is_column(generation: Generation) -> bool
    ensures { result ≡ is_column generation }
{
    matches!(generation, Generation::Column)
}

/// Whether a field has the row, or the column, as its generation.
fn is_at(generation: Generation, used: &FieldUse) -> bool
    ensures { result ≡ is_at generation used.now }
{
    match generation {
        Generation::Row => is_row(used.generation),
        Generation::Column => is_column(used.generation),
        Generation::Fixed(_) => false,
    }
}

/// The number of rows, or of columns: the generations of the field that has these, and 1 where none has.
pub fn flavour_size(model: &Model, generation: Generation, used: &[FieldUse]) -> u32
    ensures { result ≡ flavour_size model.now generation used.now }
{
    match used.iter().find(|used| is_at(generation, used)) {
        Some(used) => use_size(model, used),
        None => 1,
    }
}

/// In how many fields of a monomial a coupling of this shape has its row, and its column.
fn flavour_count(shape: Shape) -> usize
    ensures { result ≡ flavour_count shape }
{
    match shape {
        Shape::One => 0,
        Shape::Matrix | Shape::Symmetric => 1,
    }
}

/// How many fields have the row, or the column.
fn count_at(generation: Generation, used: &[FieldUse]) -> usize
    ensures { result ≡ count_by (is_at generation) used.now }
{
    used.iter().filter(|used| is_at(generation, used)).count()
}

/// Whether a monomial's fields have the row and the column once each, or not at all where the coupling has one symbol.
pub fn has_flavour(shape: Shape, used: &[FieldUse]) -> bool
    ensures { result ≡ has_flavour shape used.now }
{
    if count_at(Generation::Row, used) != flavour_count(shape) {
        return false;
    }
    count_at(Generation::Column, used) == flavour_count(shape)
}

/// Whether the fields of each monomial have the row and the column as the shape asks. Only want of memory is an error.
pub fn monomials_have_flavour(
    alloc: Global,
    shape: Shape,
    monomials: &[Monomial],
) -> Result<bool, AllocError>
    ensures { IfOk result (λ found. found ≡ list_all (monomial_has_flavour shape) monomials.now) }
{
    for monomial in monomials {
        let used = uses(alloc, monomial.factors.as_slice())?;
        if !has_flavour(shape, used.as_slice()) {
            return Ok(false);
        }
    }
    Ok(true)
}

/// Whether a monomial's fields have this many rows and columns.
fn has_sizes(model: &Model, rows: u32, columns: u32, used: &[FieldUse]) -> bool
    ensures { result ≡ (flavour_size model.now Row used.now == rows && flavour_size model.now Column used.now == columns) }
{
    if flavour_size(model, Generation::Row, used) != rows {
        return false;
    }
    flavour_size(model, Generation::Column, used) == columns
}

/// Whether the fields of each monomial have this many rows and columns.
fn monomials_have_sizes(
    alloc: Global,
    model: &Model,
    rows: u32,
    columns: u32,
    monomials: &[Monomial],
) -> Result<bool, AllocError>
    ensures { IfOk result (λ found. found ≡ list_all (has_sizes model.now rows columns) monomials.now) }
{
    for monomial in monomials {
        let used = uses(alloc, monomial.factors.as_slice())?;
        if !has_sizes(model, rows, columns, used.as_slice()) {
            return Ok(false);
        }
    }
    Ok(true)
}

/// Whether a shape is the symmetric one.
pub(crate) fn is_symmetric(shape: Shape) -> bool
    ensures { result ≡ is_symmetric shape }
{
    matches!(shape, Shape::Symmetric)
}

/// Whether the coupling isn't symmetric, or has as many rows as columns.
fn has_square_shape(term: &Term) -> bool
    ensures { result ≡ has_square_shape term.now }
{
    !is_symmetric(term.shape) || term.rows == term.columns
}

/// Whether each monomial of a term has as many rows and columns as the coupling, and a symmetric coupling as many rows
/// as columns. Only want of memory is an error.
pub fn have_sizes(alloc: Global, model: &Model, term: &Term) -> Result<bool, AllocError>
    ensures { IfOk result (λ found. found ≡ have_sizes model.now term.now) }
{
    if !monomials_have_sizes(
        alloc,
        model,
        term.rows,
        term.columns,
        term.monomials.as_slice(),
    )? {
        return Ok(false);
    }
    Ok(has_square_shape(term))
}
