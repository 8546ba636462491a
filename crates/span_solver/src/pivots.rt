//! Pivots: the first rows that tell the directions apart.
ghost use Rattle.std.specs.Prelude.{◌≡◌, ◌<◌, length, IfOk, IfErr, IfSome, map, MatchOption, Some, None};
ghost use Rattle.sparse_tensor.specs.Refusals.{IsTensorRefusal};
ghost use Rattle.span_solver.specs.Combine.{Each};
ghost use Rattle.span_solver.specs.Elimination.{leading, reduced, pivots, HaveLength, IsFirstRow};

use crate::rows::{Entries, leading, reduced};
use sparse_tensor::TensorFault;
use std::alloc::Global;

/// The place of the first row with an entry other than 0, and that entry's place.
fn first_row(rows: &[Entries]) -> Option<(usize, usize)>
    ensures found { MatchOption result (Each (λ e. leading e ≡ None) rows.now) (λ found. IsFirstRow rows.now found.0 found.1) }
    ensures within { IfSome result (λ found. found.0 < length rows.now) }
{
    for (i, row) in rows.iter().enumerate() {
        if let Some(j) = leading(row.as_slice()) {
            return Some((i, j));
        }
    }
    None
}

/// The later rows after the pivot's direction is taken out.
fn reduced_rows(
    alloc: Global,
    pivot: &Entries,
    j: usize,
    rows: &[Entries],
) -> Result<Vec<Entries>, TensorFault>
    requires within { j < length pivot.now }
    requires same { HaveLength (length pivot.now) rows.now }
    ensures value { IfOk result (λ v. v.items ≡ map (reduced pivot.now j) rows.now) }
    ensures refused { IfErr result IsTensorRefusal }
{
    let mut out = Vec::new(alloc);
    for row in rows {
        let left = reduced(alloc, pivot.as_slice(), j, row.as_slice())?;
        out.push(left)?;
    }
    Ok(out)
}

/// How many rows are passed over before each pivot, where there is one for each of k directions.
pub(crate) fn pivots(
    alloc: Global,
    rows: &[Entries],
    k: usize,
) -> Result<Option<Vec<usize>>, TensorFault>
    requires { HaveLength k rows.now }
    ensures value { IfOk result (λ o. MatchOption o (pivots k rows.now ≡ None) (λ v. pivots k rows.now ≡ Some v.items)) }
    ensures refused { IfErr result IsTensorRefusal }
{
    if k == 0 {
        return Ok(Some(Vec::new(alloc)));
    }
    let (i, j) = match first_row(rows) {
        Some(found) => found,
        None => return Ok(None),
    };
    let (_, rest) = rows.split_at(i + 1);
    let smaller = reduced_rows(alloc, &rows[i], j, rest)?;
    let mut gaps = match pivots(alloc, smaller.as_slice(), k - 1)? {
        Some(gaps) => gaps,
        None => return Ok(None),
    };
    gaps.insert(0, i)?;
    Ok(Some(gaps))
}
