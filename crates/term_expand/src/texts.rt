//! The tensor of a term's text.
ghost use Rattle.std.specs.Prelude.{◌≡◌, ◌++◌, ◌-◌, true, length, replicate, IfOk, OnOk, IfErr};
ghost use Rattle.beta_poly.specs.Monomial.{one_monomial};
ghost use Rattle.beta_poly.specs.Polynomial.{constant};
ghost use Rattle.sparse_tensor.specs.Refusals.{IsTensorRefusal};
ghost use Rattle.sparse_tensor.specs.Tensor.{HasValues, rank_of, value};
ghost use Rattle.model_core.specs.TermRules.{is_term};
ghost use Rattle.model_core.specs.TermTensor.{text_tensor};
ghost use Rattle.model_core.specs.Valid.{IsValid};
ghost use Rattle.term_expand.specs.Multiples.{HasNumbers};
ghost use Rattle.term_expand.specs.Projectors.{IsBasis};
ghost use Rattle.term_expand.specs.Steps.{fermion_steps, scalar_steps, steps};
ghost use Rattle.term_expand.specs.Texts.{leg_count, given_places, key_of, value_of_assignment, monomial_values, text_values};

use crate::assignments::{Assignment, assignments, copied};
use crate::basis::Basis;
use crate::values::monomial_value;
use beta_poly::{Mono, Poly, Symbol};
use frac128::{Frac, NumberList};
use model_core::{Model, Monomial, Term, TermKind};
use sparse_tensor::{Sparse, TensorFault, Value, ValueList};
use std::alloc::{AllocError, Global};

/// How many legs a term's tensor has: three where it is a fermion term, and four where it is a scalar term.
pub fn leg_count(kind: TermKind) -> u32
    ensures { result ≡ leg_count kind }
{
    match kind {
        TermKind::Fermion => 3,
        TermKind::Scalar => 4,
    }
}

/// The monomial without symbols.
#[tactic(auto, using(crate::proofs::Constants::no_power))]
pub fn no_symbols(alloc: Global) -> Result<Mono, AllocError>
    ensures { IfOk result (λ m. m ≡ one_monomial) }
{
    let symbol = Symbol {
        id: 0,
        real: true,
        conj: false,
    };
    Mono::power(alloc, symbol, 0)
}

/// A number as a polynomial.
#[tactic(auto, using(crate::proofs::Constants::constant_term))]
fn constant(alloc: Global, number: Frac) -> Result<Poly, AllocError>
    ensures { IfOk result (λ p. p ≡ constant number) }
{
    let one = no_symbols(alloc)?;
    Poly::term(alloc, &one, number)
}

/// The places of the fermions of an assignment, then those of its scalars.
fn given_places(alloc: Global, given: &Assignment) -> Result<NumberList, AllocError>
    ensures { IfOk result (λ places. places ≡ given_places given.now) }
{
    let mut places = copied(alloc, given.fermions.as_slice())?;
    for place in given.scalars.as_slice() {
        places.push(*place)?;
    }
    Ok(places)
}

/// Fills a key with the dummy up to so many legs.
fn fill(key: &mut NumberList, legs: u32, dummy: u32) -> Result<(), AllocError>
    ensures { OnOk result (key.new ≡ key.old ++ replicate (legs - length key.old) dummy) }
{
    while key.len() < legs as usize {
        key.push(dummy)?;
    }
    Ok(())
}

/// The key of an assignment: the places of the fermions, those of the scalars, and that of the dummy on the legs that are
/// left.
fn key_of(
    alloc: Global,
    given: &Assignment,
    legs: u32,
    dummy: u32,
) -> Result<NumberList, AllocError>
    ensures { IfOk result (λ key. key ≡ key_of legs dummy given.now) }
{
    let mut key = given_places(alloc, given)?;
    fill(&mut key, legs, dummy)?;
    Ok(key)
}

/// The value that an assignment gives.
fn value_of(
    alloc: Global,
    model: &Model,
    basis: &Basis,
    term: &Term,
    monomial: &Monomial,
    given: &Assignment,
) -> Result<Value, TensorFault>
    requires valid { IsValid model.now }
    requires basis { IsBasis model.now basis.now }
    ensures value { IfOk result (λ found. found ≡ value_of_assignment model.now term.now monomial.now given.now) }
    ensures refused { IfErr result IsTensorRefusal }
{
    let number = monomial_value(alloc, model, monomial, given.slots.as_slice())?;
    let dummy = basis.scalars.len() as u32;
    let key = key_of(alloc, given, leg_count(term.kind), dummy)?;
    let value = constant(alloc, number)?;
    Ok(Value { key, value })
}

/// Adds the values of a monomial at an entry of its coupling.
fn push_monomial(
    alloc: Global,
    values: &mut ValueList,
    model: &Model,
    basis: &Basis,
    term: &Term,
    row: u32,
    column: u32,
    monomial: &Monomial,
) -> Result<(), TensorFault>
    requires valid { IsValid model.now }
    requires basis { IsBasis model.now basis.now }
    ensures value { OnOk result (values.new ≡ values.old ++ monomial_values model.now term.now row column monomial.now) }
    ensures refused { IfErr result IsTensorRefusal }
{
    let all = assignments(
        alloc,
        model,
        basis,
        row,
        column,
        monomial.factors.as_slice(),
    )?;
    for given in all.as_slice() {
        let value = value_of(alloc, model, basis, term, monomial, given)?;
        values.push(value)?;
    }
    Ok(())
}

/// Adds the values of a term's text at an entry of its coupling, with one way to give the legs to the fields.
fn push_text(
    alloc: Global,
    values: &mut ValueList,
    model: &Model,
    basis: &Basis,
    term: &Term,
    row: u32,
    column: u32,
) -> Result<(), TensorFault>
    requires valid { IsValid model.now }
    requires basis { IsBasis model.now basis.now }
    ensures value { OnOk result (values.new ≡ values.old ++ text_values model.now term.now row column) }
    ensures refused { IfErr result IsTensorRefusal }
{
    for monomial in term.monomials.as_slice() {
        push_monomial(alloc, values, model, basis, term, row, column, monomial)?;
    }
    Ok(())
}

/// The tensor of two fermions and a scalar, projected on each leg, all ways to give the legs added.
fn fermion_tensor(alloc: Global, basis: &Basis, raw: &Sparse) -> Result<Sparse, TensorFault>
    requires { rank_of raw.now ≡ 3 }
    ensures value { IfOk result (HasValues 3 (fermion_steps basis.now (value raw.now))) }
    ensures refused { IfErr result IsTensorRefusal }
{
    let all = raw.symmetrise(alloc, &[0, 1])?;
    let first = all.project(alloc, 2, &basis.scalar_links)?;
    let second = first.project(alloc, 1, &basis.fermion_links)?;
    second.project(alloc, 0, &basis.fermion_links)
}

/// The same of four scalars.
fn scalar_tensor(alloc: Global, basis: &Basis, raw: &Sparse) -> Result<Sparse, TensorFault>
    requires { rank_of raw.now ≡ 4 }
    ensures value { IfOk result (HasValues 4 (scalar_steps basis.now (value raw.now))) }
    ensures refused { IfErr result IsTensorRefusal }
{
    let all = raw.symmetrise(alloc, &[0, 1, 2, 3])?;
    let first = all.project(alloc, 3, &basis.scalar_links)?;
    let second = first.project(alloc, 2, &basis.scalar_links)?;
    let third = second.project(alloc, 1, &basis.scalar_links)?;
    third.project(alloc, 0, &basis.scalar_links)
}

/// The tensor of a kind of terms.
fn tensor_of(
    alloc: Global,
    kind: TermKind,
    basis: &Basis,
    raw: &Sparse,
) -> Result<Sparse, TensorFault>
    requires { rank_of raw.now ≡ leg_count kind }
    ensures value { IfOk result (HasValues (leg_count kind) (steps kind basis.now (value raw.now))) }
    ensures refused { IfErr result IsTensorRefusal }
{
    match kind {
        TermKind::Fermion => fermion_tensor(alloc, basis, raw),
        TermKind::Scalar => scalar_tensor(alloc, basis, raw),
    }
}

/// The values of a term's text at an entry of its coupling, with one way to give the legs to the fields.
fn text_values(
    alloc: Global,
    model: &Model,
    basis: &Basis,
    term: &Term,
    row: u32,
    column: u32,
) -> Result<ValueList, TensorFault>
    requires valid { IsValid model.now }
    requires basis { IsBasis model.now basis.now }
    ensures value { IfOk result (λ values. values ≡ text_values model.now term.now row column) }
    ensures refused { IfErr result IsTensorRefusal }
{
    let mut values = ValueList::new(alloc);
    push_text(alloc, &mut values, model, basis, term, row, column)?;
    Ok(values)
}

/// The tensor of a term's text at a row and a column.
pub fn text_tensor(
    alloc: Global,
    model: &Model,
    basis: &Basis,
    term: &Term,
    row: u32,
    column: u32,
) -> Result<Sparse, TensorFault>
    requires valid { IsValid model.now }
    requires basis { IsBasis model.now basis.now }
    requires term { is_term model.now term.now ≡ true }
    ensures value { IfOk result (HasNumbers model.now term.now.kind (text_tensor model.now term.now row column)) }
    ensures refused { IfErr result IsTensorRefusal }
{
    let values = text_values(alloc, model, basis, term, row, column)?;
    let raw = Sparse::gather(alloc, leg_count(term.kind), values)?;
    tensor_of(alloc, term.kind, basis, &raw)
}
