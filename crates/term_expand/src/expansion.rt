//! The terms of a model become tensors.
ghost use Rattle.std.specs.Prelude.{◌≡◌, ◌+◌, ◌^◌, ◌<◌, ◌≤◌, ◌++◌, ◌∷◌, [], true, false, List, length, IsTrue, IfOk, OnOk, IfErr};
ghost use Rattle.sparse_tensor.specs.Refusals.{IsRefusalOf, IsTensorRefusal};
ghost use Rattle.model_core.specs.declared.model.Model.{Model as ModelValue};
ghost use Rattle.model_core.specs.Directions.{CouplingEntry, Direction as Meant, symbol_of, numbered, cells_in, cells, entries, entry_directions};
ghost use Rattle.model_core.specs.Content.{columns_at, symbol_count};
ghost use Rattle.model_core.specs.TermRules.{is_term};
ghost use Rattle.model_core.specs.Valid.{IsValid};
ghost use Rattle.term_expand.specs.Expansion.{AreDirections, Adds, entry_of, no_sums, IsExpansion};
ghost use Rattle.term_expand.specs.Moves.{HaveRanks, IsMoves, plain_multiples, text_multiples, scalar_multiples, yukawa_values, scalar_values};
ghost use Rattle.term_expand.specs.Projectors.{IsBasis};

use crate::basis::{Basis, basis_of};
use crate::directions::{DirectionList, push_complex, push_real};
use crate::moves::{Moves, Text, moves_of};
use crate::multiples::push_multiples;
use beta_poly::Symbol;
use model_core::{Model, Term, TermKind, first_column, symbol_count};
use sparse_tensor::{Sparse, TensorFault, ValueList};
use std::alloc::{AllocError, Global};

/// The tensors of a model.
#[derive(Drop)]
pub struct Tensors {
    /// Y at keys (j, k, a): two fermion components and a scalar coordinate.
    pub yukawa: Sparse,
    /// L at keys (a, b, c, d) of four scalar coordinates.
    pub scalar: Sparse,
    pub directions: DirectionList,
}

/// What the symbols so far give to the tensors.
#[derive(Drop)]
struct Sums {
    yukawa: ValueList,
    scalar: ValueList,
    directions: DirectionList,
}

/// A term by its place, which counts from 1, and the id of a symbol of its coupling.
#[derive(Clone, Copy)]
struct Place {
    term: u32,
    id: u16,
}

/// Adds the multiples of a scalar term's tensor by a symbol and, where the conjugate is added, those of the conjugate.
fn push_scalar(
    alloc: Global,
    values: &mut ValueList,
    hc: bool,
    symbol: Symbol,
    plain: &Sparse,
    other: &Sparse,
) -> Result<(), AllocError>
    requires { IsTrue symbol.real → symbol.conj ≡ false }
    ensures { OnOk result (values.new ≡ values.old ++ text_multiples hc symbol plain.now other.now) }
{
    push_multiples(alloc, values, symbol, plain)?;
    if hc {
        return push_multiples(alloc, values, symbol.conjugate(), other);
    }
    Ok(())
}

/// Adds the multiples of the tensors of texts by a symbol.
fn push_plain_multiples(
    alloc: Global,
    values: &mut ValueList,
    symbol: Symbol,
    texts: &[Text],
) -> Result<(), AllocError>
    requires { IsTrue symbol.real → symbol.conj ≡ false }
    ensures { OnOk result (values.new ≡ values.old ++ plain_multiples symbol texts.now) }
{
    for text in texts {
        push_multiples(alloc, values, symbol, &text.plain)?;
    }
    Ok(())
}

/// The same of scalar terms, with those of the conjugates that are added.
fn push_scalar_multiples(
    alloc: Global,
    values: &mut ValueList,
    hc: bool,
    symbol: Symbol,
    texts: &[Text],
) -> Result<(), AllocError>
    requires { IsTrue symbol.real → symbol.conj ≡ false }
    ensures { OnOk result (values.new ≡ values.old ++ scalar_multiples hc symbol texts.now) }
{
    for text in texts {
        push_scalar(alloc, values, hc, symbol, &text.plain, &text.conjugate)?;
    }
    Ok(())
}

/// Adds the multiples of the tensors of a symbol's texts to the sums of its kind of terms.
fn add_values(
    alloc: Global,
    sums: &mut Sums,
    term: &Term,
    symbol: Symbol,
    texts: &[Text],
) -> Result<(), AllocError>
    requires { IsTrue symbol.real → symbol.conj ≡ false }
    ensures yukawa { OnOk result (sums.new.yukawa ≡ sums.old.yukawa ++ yukawa_values term.now symbol texts.now) }
    ensures scalar { OnOk result (sums.new.scalar ≡ sums.old.scalar ++ scalar_values term.now symbol texts.now) }
    ensures directions { sums.new.directions ≡ sums.old.directions }
{
    match term.kind {
        TermKind::Fermion => push_plain_multiples(alloc, &mut sums.yukawa, symbol, texts),
        TermKind::Scalar => {
            push_scalar_multiples(alloc, &mut sums.scalar, term.hc, symbol, texts)
        }
    }
}

/// Adds the directions of a symbol.
fn add_directions(
    alloc: Global,
    found: &mut DirectionList,
    place: u32,
    term: &Term,
    symbol: Symbol,
    moves: &Moves,
) -> Result<(), TensorFault>
    requires { HaveRanks term.now.kind moves.now.texts }
    ensures value { (model : ModelValue) (e : CouplingEntry) (before : List Meant) → e.term ≡ term.now → e.place ≡ place → symbol_of e ≡ symbol → IsMoves model e.term e.row e.column moves.now → AreDirections before found.old → OnOk result (AreDirections (before ++ entry_directions model e) found.new) }
    ensures refused { IfErr result IsTensorRefusal }
{
    if term.real {
        return push_real(alloc, found, place, term, symbol, moves);
    }
    push_complex(alloc, found, place, term, symbol, moves)
}

/// Adds what the symbol at a row and a column gives.
fn add_entry(
    alloc: Global,
    model: &Model,
    basis: &Basis,
    sums: &mut Sums,
    place: &Place,
    term: &Term,
    row: u32,
    column: u32,
) -> Result<(), TensorFault>
    requires valid { IsValid model.now }
    requires basis { IsBasis model.now basis.now }
    requires term { is_term model.now term.now ≡ true }
    ensures value { OnOk result (Adds model.now (entry_of place.now term.now row column ∷ []) sums.old sums.new) }
    ensures refused { IfErr result IsTensorRefusal }
{
    let symbol = Symbol {
        id: place.id,
        real: term.real,
        conj: false,
    };
    let moves = moves_of(alloc, model, basis, term, row, column)?;
    add_values(alloc, sums, term, symbol, moves.texts.as_slice())?;
    add_directions(
        alloc,
        &mut sums.directions,
        place.term,
        term,
        symbol,
        &moves,
    )
}

/// Adds what the symbols of a row give, and answers the id of the next symbol.
fn add_row(
    alloc: Global,
    model: &Model,
    basis: &Basis,
    sums: &mut Sums,
    place: &Place,
    term: &Term,
    row: u32,
) -> Result<u16, TensorFault>
    requires valid { IsValid model.now }
    requires basis { IsBasis model.now basis.now }
    requires term { is_term model.now term.now ≡ true }
    requires row { 1 ≤ row }
    requires columns { term.now.columns ≤ 6 }
    requires ids { place.now.id + length (columns_at term.now row) < 2 ^ 16 }
    ensures id { IfOk result (λ next. next ≡ place.now.id + length (columns_at term.now row)) }
    ensures value { OnOk result (Adds model.now (numbered place.now.term place.now.id term.now (cells_in term.now row)) sums.old sums.new) }
    ensures refused { IfErr result IsTensorRefusal }
{
    let mut id = place.id;
    let first = first_column(term, row);
    let count = (term.columns + 1).saturating_sub(first);
    for step in 0..count {
        let next = Place {
            term: place.term,
            id,
        };
        add_entry(alloc, model, basis, sums, &next, term, row, first + step)?;
        id += 1;
    }
    Ok(id)
}

/// Adds what the symbols of a term give, and answers the id of the next symbol.
fn add_term(
    alloc: Global,
    model: &Model,
    basis: &Basis,
    sums: &mut Sums,
    place: &Place,
    term: &Term,
) -> Result<u16, TensorFault>
    requires valid { IsValid model.now }
    requires basis { IsBasis model.now basis.now }
    requires term { is_term model.now term.now ≡ true }
    requires rows { term.now.rows ≤ 6 }
    requires columns { term.now.columns ≤ 6 }
    requires ids { place.now.id + symbol_count term.now < 2 ^ 16 }
    ensures id { IfOk result (λ next. next ≡ place.now.id + symbol_count term.now) }
    ensures value { OnOk result (Adds model.now (numbered place.now.term place.now.id term.now (cells term.now)) sums.old sums.new) }
    ensures refused { IfErr result IsTensorRefusal }
{
    let mut id = place.id;
    for row in 0..term.rows {
        let next = Place {
            term: place.term,
            id,
        };
        id = add_row(alloc, model, basis, sums, &next, term, row + 1)?;
    }
    Ok(id)
}

/// Adds what all symbols give.
fn add_terms(
    alloc: Global,
    model: &Model,
    basis: &Basis,
    sums: &mut Sums,
) -> Result<(), TensorFault>
    requires valid { IsValid model.now }
    requires basis { IsBasis model.now basis.now }
    ensures value { OnOk result (Adds model.now (entries model.now) sums.old sums.new) }
    ensures refused { IfErr result IsTensorRefusal }
{
    let mut id = model.groups.len() as u16;
    let terms = model.terms.as_slice();
    for place in 0..terms.len() {
        let next = Place {
            term: place as u32 + 1,
            id,
        };
        id = add_term(alloc, model, basis, sums, &next, &terms[place])?;
    }
    Ok(())
}

/// What all symbols give to the tensors.
fn sums_of(alloc: Global, model: &Model) -> Result<Sums, TensorFault>
    requires { IsValid model.now }
    ensures value { IfOk result (λ sums. Adds model.now (entries model.now) no_sums sums) }
    ensures none { IfOk result (λ sums. model.now.terms ≡ [] → sums ≡ no_sums) }
    ensures refused { IfErr result (IsRefusalOf model.now.terms) }
{
    let mut sums = Sums {
        yukawa: ValueList::new(alloc),
        scalar: ValueList::new(alloc),
        directions: DirectionList::new(alloc),
    };
    if !model.terms.is_empty() {
        let basis = basis_of(alloc, model)?;
        add_terms(alloc, model, &basis, &mut sums)?;
    }
    Ok(sums)
}

/// The Yukawa tensor and the scalar tensor of a model, and the directions of its symbols.
///
/// The condition is that the model is valid. `Overflow` carries two fractions whose sum or product is refused, and comes
/// only where the model has a term.
pub fn expand(alloc: Global, model: &Model) -> Result<Tensors, TensorFault>
    requires { IsValid model.now }
    ensures value { IfOk result (IsExpansion model.now) }
    ensures refused { IfErr result (IsRefusalOf model.now.terms) }
{
    let sums = sums_of(alloc, model)?;
    let yukawa = Sparse::gather(alloc, 3, sums.yukawa)?;
    let scalar = Sparse::gather(alloc, 4, sums.scalar)?;
    Ok(Tensors {
        yukawa,
        scalar,
        directions: sums.directions,
    })
}
