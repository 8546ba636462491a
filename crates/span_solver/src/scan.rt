//! The scan of a tensor: the coordinates that the rows at the pivots give, and the first key that they fail.
ghost use Rattle.std.specs.Prelude.{◌≡◌, ◌<◌, ◌≢◌, ◌↔◌, IsTrue, IsNone, length, IfOk, IfErr, IfSome, MatchOption, Some};
ghost use Rattle.exact_algebra.specs.TensorContraction.{places_cmp};
ghost use Rattle.frac128.specs.Rational.{zero_ℚ, reciprocal};
ghost use Rattle.sparse_tensor.specs.Tensor.{rank_of, entries_of, value};
ghost use Rattle.sparse_tensor.specs.Refusals.{IsTensorRefusal};
ghost use Rattle.span_solver.specs.Algebra.{polynomials};
ghost use Rattle.span_solver.specs.Block.{Ascend};
ghost use Rattle.span_solver.specs.Combine.{Each, scaled};
ghost use Rattle.span_solver.specs.Elimination.{HaveLength, select, GapsFit};
ghost use Rattle.span_solver.specs.Systems.{SolvesRow, Solves};
ghost use Rattle.span_solver.specs.Scan.{FailsFirst};
ghost use Rattle.span_solver.specs.Scanned.{valued, AreKnown, IsFirstStray, IsOpenKey, earlier};

use crate::keys::{compare, copy_of, has_key};
use crate::numbers::{is_nothing, poly_step};
use crate::rows::Entries;
use crate::systems::{Row, Solution, combine};
use beta_poly::Poly;
use frac128::{Frac, NumberList};
use sparse_tensor::{Sparse, TensorFault};
use std::alloc::{AllocError, Global};
use std::cmp::Ordering;

/// The value at a key.
fn value_at(alloc: Global, tensor: &Sparse, key: &[u32]) -> Result<Poly, AllocError>
    requires { length key.now ≡ rank_of tensor.now }
    ensures { IfOk result (λ p. p ≡ value tensor.now key.now) }
{
    match tensor.at(key) {
        Some(there) => there.copy(alloc),
        None => Ok(Poly::zero(alloc)),
    }
}

/// A copy of the entries at a key, with the value there.
fn row_of(
    alloc: Global,
    key: &NumberList,
    entries: &Entries,
    tensor: &Sparse,
) -> Result<Row, AllocError>
    requires { length key.now ≡ rank_of tensor.now }
    ensures { IfOk result (λ r. r ≡ (entries.now, value tensor.now key.now)) }
{
    let items = Vec::from_slice(alloc, entries.as_slice())?;
    let there = value_at(alloc, tensor, key.as_slice())?;
    Ok((Entries::from_vec(items), there))
}

/// The rows at the pivots, with their values.
pub(crate) fn selected(
    alloc: Global,
    keys: &[NumberList],
    rows: &[Entries],
    gaps: &[usize],
    tensor: &Sparse,
) -> Result<Vec<Row>, AllocError>
    requires same { length keys.now ≡ length rows.now }
    requires rank { Each (λ key. length key ≡ rank_of tensor.now) keys.now }
    requires fit { GapsFit gaps.now (length rows.now) }
    ensures { IfOk result (λ v. v.items ≡ select gaps.now (valued (value tensor.now) keys.now rows.now)) }
{
    let mut out = Vec::new(alloc);
    let mut place: usize = 0;
    for gap in gaps {
        let at = place + *gap;
        let row = row_of(alloc, &keys[at], &rows[at], tensor)?;
        out.push(row)?;
        place = at + 1;
    }
    Ok(out)
}

/// Whether the coordinates add up to the value at a key: t times the value is the sum of the multiples times the
/// entries.
fn holds(
    alloc: Global,
    key: &[u32],
    entries: &[Frac],
    tensor: &Sparse,
    solution: &Solution,
) -> Result<bool, TensorFault>
    requires rank { length key.now ≡ rank_of tensor.now }
    requires many { length entries.now ≡ length solution.now.multiples }
    requires other { solution.now.number ≢ zero_ℚ }
    ensures value { IfOk result (λ b. IsTrue b ↔ SolvesRow polynomials (scaled polynomials (reciprocal solution.now.number) solution.now.multiples) (entries.now, value tensor.now key.now)) }
    ensures refused { IfErr result IsTensorRefusal }
{
    let total = combine(alloc, entries, solution.multiples.as_slice())?;
    match tensor.at(key) {
        Some(there) => {
            let rest = poly_step(alloc, &Frac::one(), &total, &solution.number, there)?;
            Ok(is_nothing(&rest))
        }
        None => Ok(is_nothing(&total)),
    }
}

/// The place of the first row that the coordinates fail.
pub(crate) fn first_failing(
    alloc: Global,
    keys: &[NumberList],
    rows: &[Entries],
    tensor: &Sparse,
    solution: &Solution,
) -> Result<Option<usize>, TensorFault>
    requires same { length keys.now ≡ length rows.now }
    requires rank { Each (λ key. length key ≡ rank_of tensor.now) keys.now }
    requires many { HaveLength (length solution.now.multiples) rows.now }
    requires other { solution.now.number ≢ zero_ℚ }
    ensures value { IfOk result (λ o. MatchOption o (Solves polynomials (scaled polynomials (reciprocal solution.now.number) solution.now.multiples) (valued (value tensor.now) keys.now rows.now)) (λ m. FailsFirst polynomials (scaled polynomials (reciprocal solution.now.number) solution.now.multiples) m (valued (value tensor.now) keys.now rows.now))) }
    ensures within { IfOk result (λ o. IfSome o (λ m. m < length keys.now)) }
    ensures refused { IfErr result IsTensorRefusal }
{
    for (i, row) in rows.iter().enumerate() {
        if !holds(alloc, keys[i].as_slice(), row.as_slice(), tensor, solution)? {
            return Ok(Some(i));
        }
    }
    Ok(None)
}

/// The place of the tensor's first entry whose key doesn't stand in an ascending list.
pub(crate) fn first_stray(keys: &[NumberList], tensor: &Sparse) -> Option<usize>
    requires { Ascend keys.now }
    ensures value { MatchOption result (AreKnown keys.now (entries_of tensor.now)) (λ m. IsFirstStray keys.now (entries_of tensor.now) m) }
    ensures within { IfSome result (λ m. m < length (entries_of tensor.now)) }
{
    for place in 0..tensor.len() {
        let (key, _) = tensor.item(place);
        if !has_key(keys, key) {
            return Some(place);
        }
    }
    None
}

/// The first key where it comes before the second, and else the second.
fn earlier<'a>(first: &'a [u32], second: &'a [u32]) -> &'a [u32]
    ensures { result.now ≡ earlier (places_cmp first.now second.now) first.now second.now }
{
    match compare(first, second) {
        Ordering::Less => first,
        Ordering::Equal => second,
        Ordering::Greater => second,
    }
}

/// The earlier of the keys of a failing row and of a stray entry, where there is one.
pub(crate) fn open_key(
    alloc: Global,
    keys: &[NumberList],
    failing: Option<usize>,
    tensor: &Sparse,
    stray: Option<usize>,
) -> Result<Option<NumberList>, AllocError>
    requires failing { IfSome failing (λ m. m < length keys.now) }
    requires stray { IfSome stray (λ m. m < length (entries_of tensor.now)) }
    ensures { IfOk result (λ o. MatchOption o (IsNone failing × IsNone stray) (IsOpenKey keys.now (entries_of tensor.now) failing stray)) }
{
    match (failing, stray) {
        (None, None) => Ok(None),
        (Some(m), None) => Ok(Some(copy_of(alloc, keys[m].as_slice())?)),
        (None, Some(place)) => {
            let (key, _) = tensor.item(place);
            Ok(Some(copy_of(alloc, key)?))
        }
        (Some(m), Some(place)) => {
            let (key, _) = tensor.item(place);
            let first = earlier(key, keys[m].as_slice());
            Ok(Some(copy_of(alloc, first)?))
        }
    }
}
