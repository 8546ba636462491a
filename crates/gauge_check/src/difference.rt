//! How a scalar term's tensor differs from its conjugate.
ghost use Rattle.std.specs.Prelude.{◌≡◌, List, map, IfOk, IfErr};
ghost use Rattle.exact_algebra.specs.TensorContraction.{places_cmp};
ghost use Rattle.frac128.specs.Rational.{◌-ℚ◌};
ghost use Rattle.sparse_tensor.specs.Tensor.{entries_of};
ghost use Rattle.sparse_tensor.specs.Refusals.{IsTensorRefusal};
ghost use Rattle.model_core.specs.declared.term.TermKind.TheVariants.{Scalar};
ghost use Rattle.model_core.specs.Scalar.{partner};
ghost use Rattle.model_core.specs.TermTensor.{Numbers};
ghost use Rattle.model_core.specs.Valid.{IsValid};
ghost use Rattle.term_expand.specs.Multiples.{HasNumbers, HasSomeNumbers};
ghost use Rattle.gauge_check.specs.Steps.{IsWhole, HasWhole, AreWhole, HaveWhole, differs_at, any_differs_at, IsFirstKey, first_key, earlier};

use crate::parts::{both_sides, push_entries, push_negated};
use frac128::NumberList;
use model_core::{Model, TermKind};
use sparse_tensor::{Sparse, TensorFault, ValueList};
use std::alloc::{AllocError, Global};
use std::cmp::Ordering;
use term_expand::{Direction, conjugate, copied};

/// A tensor of numbers of scalars less its conjugate.
fn difference(alloc: Global, model: &Model, tensor: &Sparse) -> Result<Sparse, TensorFault>
    requires valid { IsValid model.now }
    requires numbers { HasSomeNumbers model.now Scalar tensor.now }
    ensures value { (f : Numbers) → HasNumbers model.now Scalar f tensor.now → IfOk result (HasNumbers model.now Scalar (λ cs. f cs -ℚ f (map partner cs))) }
    ensures refused { IfErr result IsTensorRefusal }
{
    let other = conjugate(alloc, model, TermKind::Scalar, tensor)?;
    let mut values = ValueList::new(alloc);
    push_entries(alloc, &mut values, tensor)?;
    push_negated(alloc, &mut values, &other)?;
    Sparse::gather(alloc, tensor.rank(), values)
}

/// The key of a tensor's first entry.
fn first_key(alloc: Global, tensor: &Sparse) -> Result<Option<NumberList>, AllocError>
    ensures { IfOk result (λ found. found ≡ first_key (entries_of tensor.now)) }
{
    if tensor.len() == 0 {
        return Ok(None);
    }
    let (key, _) = tensor.item(0);
    Ok(Some(copied(alloc, key)?))
}

/// The order of keys: the first place at which they differ decides.
fn compare(a: &[u32], b: &[u32]) -> Ordering
    ensures { result ≡ places_cmp a.now b.now }
{
    a.cmp(b)
}

/// Of two keys the one that comes first.
fn earlier(first: Option<NumberList>, second: Option<NumberList>) -> Option<NumberList>
    ensures { result ≡ earlier first second }
{
    let Some(mine) = first else {
        return second;
    };
    let Some(other) = second else {
        return Some(mine);
    };
    match compare(mine.as_slice(), other.as_slice()) {
        Ordering::Greater => Some(other),
        _ => Some(mine),
    }
}

/// The first key at which the direction of a scalar term isn't its own conjugate.
fn difference_key(
    alloc: Global,
    model: &Model,
    direction: &Direction,
) -> Result<Option<NumberList>, TensorFault>
    requires valid { IsValid model.now }
    requires whole { HasWhole model.now direction.now }
    ensures value { (f : Numbers) → IsWhole model.now f direction.now → IfOk result (IsFirstKey model.now (differs_at model.now f)) }
    ensures refused { IfErr result IsTensorRefusal }
{
    let whole = both_sides(alloc, &direction.tensor)?;
    let other = difference(alloc, model, &whole)?;
    let first = first_key(alloc, &other)?;
    Ok(first)
}

/// The first key at which a direction of a scalar term isn't its own conjugate.
pub fn first_difference(
    alloc: Global,
    model: &Model,
    directions: &[Direction],
) -> Result<Option<NumberList>, TensorFault>
    requires valid { IsValid model.now }
    requires wholes { HaveWhole model.now directions.now }
    ensures value { (fs : List Numbers) → AreWhole model.now fs directions.now → IfOk result (IsFirstKey model.now (any_differs_at model.now fs)) }
    ensures refused { IfErr result IsTensorRefusal }
{
    let mut first = None;
    for direction in directions {
        first = earlier(first, difference_key(alloc, model, direction)?);
    }
    Ok(first)
}
