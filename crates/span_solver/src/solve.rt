//! Coordinates, or the first key up to which there are none.
ghost use Rattle.std.specs.Prelude.{◌≡◌, ◌<◌, ◌≢◌, List, length, IfOk, IfErr, Some, replicate};
ghost use Rattle.beta_poly.specs.Polynomial.{zero_poly};
ghost use Rattle.frac128.specs.Rational.{zero_ℚ, reciprocal};
ghost use Rattle.sparse_tensor.specs.Tensor.{rank_of, value};
ghost use Rattle.sparse_tensor.specs.Refusals.{IsTensorRefusal};
ghost use Rattle.span_solver.specs.Algebra.{polynomials};
ghost use Rattle.span_solver.specs.Block.{Ascend, IsBlock, IsSolved, block_rows};
ghost use Rattle.span_solver.specs.Combine.{Each, scaled};
ghost use Rattle.span_solver.specs.Dependence.{Numbers};
ghost use Rattle.span_solver.specs.Elimination.{HaveLength, pivots};

use crate::numbers::inverse;
use crate::rows::Entries;
use crate::scan::{first_failing, first_stray, open_key, selected};
use crate::solved::{PolyList, Solved};
use crate::systems::{Solution, scaled, steps};
use beta_poly::Poly;
use frac128::NumberList;
use sparse_tensor::{Sparse, TensorFault};
use std::alloc::{AllocError, Global};

/// As many polynomials 0 as there are directions.
pub(crate) fn nothings(alloc: Global, count: usize) -> Result<PolyList, AllocError>
    ensures { IfOk result (λ xs. xs ≡ replicate count zero_poly) }
{
    let mut out = PolyList::new(alloc);
    for _i in 0..count {
        out.push(Poly::zero(alloc))?;
    }
    Ok(out)
}

/// The coordinates: the multiples divided by the number.
fn coordinates_of(alloc: Global, solution: &Solution) -> Result<PolyList, TensorFault>
    requires { solution.now.number ≢ zero_ℚ }
    ensures value { IfOk result (λ xs. xs ≡ scaled polynomials (reciprocal solution.now.number) solution.now.multiples) }
    ensures refused { IfErr result IsTensorRefusal }
{
    let factor = inverse(&solution.number);
    let items = scaled(alloc, factor, solution.multiples.as_slice())?;
    Ok(PolyList::from_vec(items))
}

/// The coordinates of the tensor, or the first key up to which there are none.
pub(crate) fn solved(
    alloc: Global,
    count: usize,
    keys: &[NumberList],
    rows: &[Entries],
    gaps: &[usize],
    tensor: &Sparse,
) -> Result<Solved, TensorFault>
    requires same { length keys.now ≡ length rows.now }
    requires rank { Each (λ key. length key ≡ rank_of tensor.now) keys.now }
    requires many { HaveLength count rows.now }
    requires pivots { pivots count rows.now ≡ Some gaps.now }
    requires ascend { Ascend keys.now }
    ensures answer { (directions : List Numbers) → IsBlock directions (block_rows count keys.now rows.now) → IfOk result (IsSolved directions tensor.now) }
    ensures refused { IfErr result IsTensorRefusal }
{
    let system = selected(alloc, keys, rows, gaps, tensor)?;
    let solution = steps(alloc, system.as_slice(), count)?;
    let failing = first_failing(alloc, keys, rows, tensor, &solution)?;
    let stray = first_stray(keys, tensor);
    match open_key(alloc, keys, failing, tensor, stray)? {
        Some(key) => Ok(Solved::NotSpanned { key }),
        None => {
            let coordinates = coordinates_of(alloc, &solution)?;
            Ok(Solved::Coordinates(coordinates))
        }
    }
}
