//! Directions: where a symbol moves its block.
ghost use Rattle.std.specs.Prelude.{◌≡◌, ◌+◌, ◌∷◌, ◌++◌, [], true, false, List, length, IfOk, OnOk, IfErr};
ghost use Rattle.std.specs.List.{All};
ghost use Rattle.sparse_tensor.specs.Refusals.{IsTensorRefusal};
ghost use Rattle.model_core.specs.declared.model.Model.{Model as ModelValue};
ghost use Rattle.model_core.specs.Directions.{CouplingEntry, Direction as Meant, symbol_of, moves_both, entry_directions};
ghost use Rattle.term_expand.specs.Expansion.{AreDirections, IsMeant};
ghost use Rattle.term_expand.specs.Moves.{HaveRanks, IsMoves, plain_values, conjugate_values, real_values};
ghost use Rattle.term_expand.specs.Texts.{leg_count};
ghost use Rattle.term_expand.specs.Multiples.{values_on_side};

use crate::moves::{Moves, Text};
use crate::texts::leg_count;
use crate::token::{BlockName, block_name};
use beta_poly::Symbol;
use frac128::{ItemList, NumberList};
use model_core::{FieldToken, Term, TermKind};
use sparse_tensor::{Sparse, TensorFault, Value, ValueList};
use std::alloc::{AllocError, Global};

/// Where a symbol moves its block: the coefficient of the symbol at each component of the block.
#[derive(Drop)]
pub struct Direction {
    /// The place of the symbol's term, which counts from 1.
    pub term: u32,
    pub symbol: Symbol,
    pub block: BlockName,
    /// Numbers at keys that begin with 0 for the block's content or 1 for the conjugate one. The places of the legs
    /// follow: two fermion components and a scalar coordinate, or four scalar coordinates.
    pub tensor: Sparse,
}

/// Directions in the order of terms, then symbols, the plain symbol before its conjugate.
pub type DirectionList = ItemList<Direction>;

/// A key behind a side.
fn key_on_side(alloc: Global, side: u32, key: &[u32]) -> Result<NumberList, AllocError>
    ensures { IfOk result (λ found. found ≡ side ∷ key.now) }
{
    let mut found = NumberList::new(alloc);
    found.push(side)?;
    for place in key {
        found.push(*place)?;
    }
    Ok(found)
}

/// Adds a tensor of numbers on a side.
fn push_on_side(
    alloc: Global,
    values: &mut ValueList,
    side: u32,
    tensor: &Sparse,
) -> Result<(), AllocError>
    ensures { OnOk result (values.new ≡ values.old ++ values_on_side side tensor.now) }
{
    for place in 0..tensor.len() {
        let (key, number) = tensor.item(place);
        values.push(Value {
            key: key_on_side(alloc, side, key)?,
            value: number.copy(alloc)?,
        })?;
    }
    Ok(())
}

/// Adds the tensors of texts on the sides of their contents.
fn push_plain(alloc: Global, values: &mut ValueList, texts: &[Text]) -> Result<(), AllocError>
    ensures { OnOk result (values.new ≡ values.old ++ plain_values texts.now) }
{
    for text in texts {
        push_on_side(alloc, values, text.plain_side, &text.plain)?;
    }
    Ok(())
}

/// Adds the conjugate tensors of texts on the sides of the conjugate contents.
fn push_conjugate(alloc: Global, values: &mut ValueList, texts: &[Text]) -> Result<(), AllocError>
    ensures { OnOk result (values.new ≡ values.old ++ conjugate_values texts.now) }
{
    for text in texts {
        push_on_side(alloc, values, text.conjugate_side, &text.conjugate)?;
    }
    Ok(())
}

/// The numbers of the direction of a symbol that isn't real.
fn plain_values(alloc: Global, texts: &[Text]) -> Result<ValueList, AllocError>
    ensures { IfOk result (λ values. values ≡ plain_values texts.now) }
{
    let mut values = ValueList::new(alloc);
    push_plain(alloc, &mut values, texts)?;
    Ok(values)
}

/// Those of the direction of its conjugate.
fn conjugate_values(alloc: Global, texts: &[Text]) -> Result<ValueList, AllocError>
    ensures { IfOk result (λ values. values ≡ conjugate_values texts.now) }
{
    let mut values = ValueList::new(alloc);
    push_conjugate(alloc, &mut values, texts)?;
    Ok(values)
}

/// Adds a direction with these numbers.
fn push_direction(
    alloc: Global,
    found: &mut DirectionList,
    term: u32,
    kind: TermKind,
    symbol: Symbol,
    block: &[FieldToken],
    values: ValueList,
) -> Result<(), TensorFault>
    requires { All (λ v. length v.key ≡ 1 + leg_count kind) values }
    ensures value { OnOk result ((meant : Meant) (before : List Meant) → IsMeant term kind symbol block.now values meant → AreDirections before found.old → AreDirections (before ++ meant ∷ []) found.new) }
    ensures refused { IfErr result IsTensorRefusal }
{
    let legs = leg_count(kind);
    found.push(Direction {
        term,
        symbol,
        block: block_name(alloc, block, legs as usize)?,
        tensor: Sparse::gather(alloc, legs + 1, values)?,
    })?;
    Ok(())
}

/// Whether a real symbol of a term moves both contents of its block.
fn moves_both(term: &Term) -> bool
    ensures { result ≡ moves_both term.now }
{
    term.kind == TermKind::Fermion || term.hc
}

/// The numbers of the direction of a real symbol.
fn real_values(alloc: Global, term: &Term, texts: &[Text]) -> Result<ValueList, AllocError>
    ensures { IfOk result (λ values. values ≡ real_values term.now texts.now) }
{
    let mut values = ValueList::new(alloc);
    push_plain(alloc, &mut values, texts)?;
    if moves_both(term) {
        push_conjugate(alloc, &mut values, texts)?;
        return Ok(values);
    }
    Ok(values)
}

/// Adds the direction of a real symbol.
pub fn push_real(
    alloc: Global,
    found: &mut DirectionList,
    place: u32,
    term: &Term,
    symbol: Symbol,
    moves: &Moves,
) -> Result<(), TensorFault>
    requires { HaveRanks term.now.kind moves.now.texts }
    ensures value { (model : ModelValue) (e : CouplingEntry) (before : List Meant) → e.term ≡ term.now → e.place ≡ place → symbol_of e ≡ symbol → e.term.real ≡ true → IsMoves model e.term e.row e.column moves.now → AreDirections before found.old → OnOk result (AreDirections (before ++ entry_directions model e) found.new) }
    ensures refused { IfErr result IsTensorRefusal }
{
    let values = real_values(alloc, term, moves.texts.as_slice())?;
    push_direction(
        alloc,
        found,
        place,
        term.kind,
        symbol,
        moves.block.as_slice(),
        values,
    )
}

/// Adds the directions of a complex symbol and of its conjugate.
pub fn push_complex(
    alloc: Global,
    found: &mut DirectionList,
    place: u32,
    term: &Term,
    symbol: Symbol,
    moves: &Moves,
) -> Result<(), TensorFault>
    requires { HaveRanks term.now.kind moves.now.texts }
    ensures value { (model : ModelValue) (e : CouplingEntry) (before : List Meant) → e.term ≡ term.now → e.place ≡ place → symbol_of e ≡ symbol → e.term.real ≡ false → IsMoves model e.term e.row e.column moves.now → AreDirections before found.old → OnOk result (AreDirections (before ++ entry_directions model e) found.new) }
    ensures refused { IfErr result IsTensorRefusal }
{
    let block = moves.block.as_slice();
    let plain = plain_values(alloc, moves.texts.as_slice())?;
    push_direction(alloc, found, place, term.kind, symbol, block, plain)?;
    let other = conjugate_values(alloc, moves.texts.as_slice())?;
    push_direction(
        alloc,
        found,
        place,
        term.kind,
        symbol.conjugate(),
        block,
        other,
    )
}
