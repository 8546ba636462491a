//! The first direction that is dependent on earlier ones.
ghost use Rattle.std.specs.Prelude.{◌≡◌, ◌<◌, ◌≤◌, length, IfOk, IfErr, MatchOption, take, is_some};
ghost use Rattle.sparse_tensor.specs.Refusals.{IsTensorRefusal};
ghost use Rattle.span_solver.specs.Elimination.{HaveLength, pivots};
ghost use Rattle.span_solver.specs.RowDependence.{firsts, AreIndependent, IsFirstDependent};

use crate::pivots::pivots;
use crate::rows::Entries;
use sparse_tensor::TensorFault;
use std::alloc::{AllocError, Global};

/// The first n entries of a row.
fn first_entries(alloc: Global, n: usize, row: &Entries) -> Result<Entries, AllocError>
    requires { n ≤ length row.now }
    ensures { IfOk result (λ e. e ≡ take n row.now) }
{
    let (front, _) = row.as_slice().split_at(n);
    let items = Vec::from_slice(alloc, front)?;
    Ok(Entries::from_vec(items))
}

/// The rows of the first n directions.
fn firsts(
    alloc: Global,
    n: usize,
    count: usize,
    rows: &[Entries],
) -> Result<Vec<Entries>, AllocError>
    requires few { n ≤ count }
    requires many { HaveLength count rows.now }
    ensures { IfOk result (λ v. v.items ≡ firsts n rows.now) }
{
    let mut out = Vec::new(alloc);
    for row in rows {
        let front = first_entries(alloc, n, row)?;
        out.push(front)?;
    }
    Ok(out)
}

/// Whether there are pivots for the first n directions.
fn have_pivots(alloc: Global, n: usize, count: usize, rows: &[Entries]) -> Result<bool, TensorFault>
    requires few { n ≤ count }
    requires many { HaveLength count rows.now }
    ensures value { IfOk result (λ b. b ≡ is_some (pivots n (firsts n rows.now))) }
    ensures refused { IfErr result IsTensorRefusal }
{
    let front = firsts(alloc, n, count, rows)?;
    let gaps = pivots(alloc, front.as_slice(), n)?;
    Ok(gaps.is_some())
}

/// The first dependent direction, where there is one.
pub(crate) fn first_dependent(
    alloc: Global,
    rows: &[Entries],
    count: usize,
) -> Result<Option<usize>, TensorFault>
    requires { HaveLength count rows.now }
    ensures value { IfOk result (λ o. MatchOption o (AreIndependent count rows.now) (λ n. (n < count) × IsFirstDependent rows.now n)) }
    ensures refused { IfErr result IsTensorRefusal }
{
    for n in 0..count {
        if !have_pivots(alloc, n + 1, count, rows)? {
            return Ok(Some(n));
        }
    }
    Ok(None)
}
