//! Rows: the numbers of the directions at a key.
ghost use Rattle.std.specs.Prelude.{◌≡◌, ◌<◌, length, IfOk, IfErr, IfSome};
ghost use Rattle.sparse_tensor.specs.Refusals.{IsTensorRefusal};
ghost use Rattle.span_solver.specs.Combine.{mixed};
ghost use Rattle.span_solver.specs.Elimination.{is_zero, leading, reduced};

use crate::numbers::step;
use frac128::{Frac, ItemList};
use sparse_tensor::TensorFault;
use std::alloc::Global;

/// The entries of a row, one for each direction.
pub(crate) type Entries = ItemList<Frac>;

/// Whether a fraction is 0.
fn is_zero(x: &Frac) -> bool
    ensures { result ≡ is_zero x.now }
{
    x.num() == 0
}

/// The place of the first entry that isn't 0.
pub(crate) fn leading(entries: &[Frac]) -> Option<usize>
    ensures value { result ≡ leading entries.now }
    ensures within { IfSome result (λ j. j < length entries.now) }
{
    for (i, x) in entries.iter().enumerate() {
        if !is_zero(x) {
            return Some(i);
        }
    }
    None
}

/// p times the first entries minus a times the second ones.
fn mixed(
    alloc: Global,
    p: &Frac,
    a: &Frac,
    first: &[Frac],
    second: &[Frac],
) -> Result<Vec<Frac>, TensorFault>
    requires { length first.now ≡ length second.now }
    ensures value { IfOk result (λ v. v.items ≡ mixed p.now a.now first.now second.now) }
    ensures refused { IfErr result IsTensorRefusal }
{
    let mut out = Vec::new(alloc);
    for (i, b) in first.iter().enumerate() {
        let x = step(p, b, a, &second[i])?;
        out.push(x)?;
    }
    Ok(out)
}

/// A row after the pivot's direction is taken out.
pub(crate) fn reduced(
    alloc: Global,
    pivot: &[Frac],
    j: usize,
    row: &[Frac],
) -> Result<Entries, TensorFault>
    requires same { length row.now ≡ length pivot.now }
    requires within { j < length pivot.now }
    ensures value { IfOk result (λ e. e ≡ reduced pivot.now j row.now) }
    ensures refused { IfErr result IsTensorRefusal }
{
    let mut items = mixed(alloc, &pivot[j], &row[j], row, pivot)?;
    let _ = items.remove(j);
    Ok(Entries::from_vec(items))
}
