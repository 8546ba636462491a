//! Conjugates of tensors of numbers, and their multiples by symbols.
ghost use Rattle.std.specs.Prelude.{◌≡◌, ◌<◌, ◌≤◌, ◌++◌, false, length, option_map, IsTrue, IfOk, OnOk, IfErr};
ghost use Rattle.sparse_tensor.specs.Refusals.{IsTensorRefusal};
ghost use Rattle.model_core.specs.Directions.{conjugated};
ghost use Rattle.model_core.specs.Scalar.{scalar_coordinates};
ghost use Rattle.model_core.specs.TermTensor.{Numbers, legs_of, coordinates_at};
ghost use Rattle.model_core.specs.Valid.{IsValid};
ghost use Rattle.term_expand.specs.Multiples.{HasNumbers, HasSomeNumbers, HasCoordinates, IsPlace, first_scalar, partners, multiples};

use crate::assignments::copied;
use crate::texts::no_symbols;
use beta_poly::{Mono, Poly, Symbol};
use frac128::NumberList;
use model_core::{Model, TermKind, partner};
use sparse_tensor::{Sparse, TensorFault, Value, ValueList};
use std::alloc::{AllocError, Global};

/// The first leg of a term's tensor that is a scalar's.
fn first_scalar(kind: TermKind) -> usize
    ensures { result ≡ first_scalar kind }
{
    match kind {
        TermKind::Fermion => 2,
        TermKind::Scalar => 0,
    }
}

/// The place of a key at a leg, or that of its partner where the leg is a scalar's.
fn place_at(model: &Model, first: usize, leg: usize, place: u32) -> u32
    requires valid { IsValid model.now }
    requires inside { first ≤ leg → place < length (scalar_coordinates model.now) }
    ensures { IsPlace (scalar_coordinates model.now) first leg place result }
{
    if leg < first {
        return place;
    }
    partner(model, place)
}

/// A key with the partners of its scalars.
fn partners(
    alloc: Global,
    model: &Model,
    kind: TermKind,
    key: &[u32],
) -> Result<NumberList, AllocError>
    requires valid { IsValid model.now }
    requires inside { HasCoordinates model.now kind key.now }
    ensures { IfOk result (λ found. coordinates_at (legs_of model.now kind) found ≡ option_map (partners kind) (coordinates_at (legs_of model.now kind) key.now)) }
{
    let first = first_scalar(kind);
    let mut found = NumberList::new(alloc);
    for leg in 0..key.len() {
        found.push(place_at(model, first, leg, key[leg]))?;
    }
    Ok(found)
}

/// The conjugate of a tensor of numbers: its value at the partners of scalars.
pub fn conjugate(
    alloc: Global,
    model: &Model,
    kind: TermKind,
    tensor: &Sparse,
) -> Result<Sparse, TensorFault>
    requires valid { IsValid model.now }
    requires numbers { HasSomeNumbers model.now kind tensor.now }
    ensures value { (f : Numbers) → HasNumbers model.now kind f tensor.now → IfOk result (HasNumbers model.now kind (conjugated kind f)) }
    ensures refused { IfErr result IsTensorRefusal }
{
    let mut values = ValueList::new(alloc);
    for place in 0..tensor.len() {
        let (key, number) = tensor.item(place);
        values.push(Value {
            key: partners(alloc, model, kind, key)?,
            value: number.copy(alloc)?,
        })?;
    }
    Sparse::gather(alloc, tensor.rank(), values)
}

/// Adds a tensor of numbers times a symbol.
pub fn push_multiples(
    alloc: Global,
    values: &mut ValueList,
    symbol: Symbol,
    tensor: &Sparse,
) -> Result<(), AllocError>
    requires { IsTrue symbol.real → symbol.conj ≡ false }
    ensures { OnOk result (values.new ≡ values.old ++ multiples symbol tensor.now) }
{
    let one = no_symbols(alloc)?;
    let mono = Mono::power(alloc, symbol, 1)?;
    for place in 0..tensor.len() {
        let (key, number) = tensor.item(place);
        values.push(Value {
            key: copied(alloc, key)?,
            value: Poly::term(alloc, &mono, number.coefficient(&one))?,
        })?;
    }
    Ok(())
}
