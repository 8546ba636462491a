//! The steps that solve as many rows as there are directions.
ghost use Rattle.std.specs.Prelude.{◌≡◌, ◌<◌, [], ◌∷◌, suc, length, IfOk, IfErr, map};
ghost use Rattle.sparse_tensor.specs.Refusals.{IsTensorRefusal};
ghost use Rattle.span_solver.specs.Algebra.{polynomials};
ghost use Rattle.span_solver.specs.Combine.{combine, entry, without, scaled};
ghost use Rattle.span_solver.specs.Elimination.{leading, reduced, HaveLength};
ghost use Rattle.span_solver.specs.Systems.{entries, IsRegular, reduced_row, steps, one_step, two_steps, step_back};

use crate::numbers::{multiple, poly_step, step, sum, times};
use crate::rows::{Entries, leading, reduced};
use crate::solved::PolyList;
use beta_poly::Poly;
use frac128::Frac;
use sparse_tensor::TensorFault;
use std::alloc::{AllocError, Global};

/// The entries of a row, and the value that the directions are to add up to there.
pub(crate) type Row = (Entries, Poly);

/// A row after the pivot's direction is taken out.
fn reduced_row(alloc: Global, pivot: &Row, j: usize, row: &Row) -> Result<Row, TensorFault>
    requires same { length row.now.0 ≡ length pivot.now.0 }
    requires within { j < length pivot.now.0 }
    ensures value { IfOk result (λ r. r ≡ reduced_row polynomials pivot.now j row.now) }
    ensures refused { IfErr result IsTensorRefusal }
{
    let own = row.0.as_slice();
    let other = pivot.0.as_slice();
    let entries = reduced(alloc, other, j, own)?;
    let value = poly_step(alloc, &other[j], &row.1, &own[j], &pivot.1)?;
    Ok((entries, value))
}

/// The later rows after the pivot's direction is taken out.
fn reduced_rows(alloc: Global, pivot: &Row, j: usize, rows: &[Row]) -> Result<Vec<Row>, TensorFault>
    requires within { j < length pivot.now.0 }
    requires same { HaveLength (length pivot.now.0) (entries polynomials rows.now) }
    ensures value { IfOk result (λ v. v.items ≡ map (reduced_row polynomials pivot.now j) rows.now) }
    ensures refused { IfErr result IsTensorRefusal }
{
    let mut out = Vec::new(alloc);
    for row in rows {
        let left = reduced_row(alloc, pivot, j, row)?;
        out.push(left)?;
    }
    Ok(out)
}

/// A number t other than 0, and for each direction t times its coordinate.
#[derive(Drop)]
pub(crate) struct Solution {
    pub(crate) number: Frac,
    pub(crate) multiples: PolyList,
}

/// The sum of the values times the entries.
pub(crate) fn combine(alloc: Global, entries: &[Frac], values: &[Poly]) -> Result<Poly, TensorFault>
    requires { length entries.now ≡ length values.now }
    ensures value { IfOk result (λ x. x ≡ combine polynomials entries.now values.now) }
    ensures refused { IfErr result IsTensorRefusal }
{
    let mut total = Poly::zero(alloc);
    for (i, x) in values.iter().enumerate() {
        let product = multiple(alloc, entries[i], x)?;
        total = sum(alloc, &total, &product)?;
    }
    Ok(total)
}

/// Each value times p.
pub(crate) fn scaled(alloc: Global, p: Frac, values: &[Poly]) -> Result<Vec<Poly>, TensorFault>
    ensures value { IfOk result (λ v. v.items ≡ scaled polynomials p values.now) }
    ensures refused { IfErr result IsTensorRefusal }
{
    let mut out = Vec::new(alloc);
    for x in values {
        out.push(multiple(alloc, p, x)?)?;
    }
    Ok(out)
}

/// The entries without the one at a place.
fn without(alloc: Global, j: usize, items: &[Frac]) -> Result<Vec<Frac>, AllocError>
    requires { j < length items.now }
    ensures { IfOk result (λ v. v.items ≡ without j items.now) }
{
    let mut out = Vec::from_slice(alloc, items)?;
    let _ = out.remove(j);
    Ok(out)
}

/// The step for no direction.
fn no_step(alloc: Global) -> Solution
    ensures { (result.number, result.multiples) ≡ steps polynomials 0 [] }
{
    Solution {
        number: Frac::one(),
        multiples: PolyList::new(alloc),
    }
}

/// The step for one direction.
fn one_step(alloc: Global, row: &Row) -> Result<Solution, TensorFault>
    requires { length row.now.0 ≡ 1 }
    ensures value { IfOk result (λ s. (s.number ≡ entry 0 row.now.0) × (s.multiples ≡ row.now.1 ∷ [])) }
    ensures refused { IfErr result IsTensorRefusal }
{
    let mut multiples = PolyList::new(alloc);
    multiples.push(row.1.copy(alloc)?)?;
    let number = row.0.as_slice()[0];
    Ok(Solution { number, multiples })
}

/// The steps for two directions.
fn two_steps(alloc: Global, first: &Row, second: &Row) -> Result<Solution, TensorFault>
    requires first { length first.now.0 ≡ 2 }
    requires second { length second.now.0 ≡ 2 }
    ensures value { IfOk result (λ s. (s.number, s.multiples) ≡ two_steps polynomials (first.now ∷ second.now ∷ [])) }
    ensures refused { IfErr result IsTensorRefusal }
{
    let a = first.0.as_slice();
    let b = second.0.as_slice();
    let number = step(&a[0], &b[1], &a[1], &b[0])?;
    let one = poly_step(alloc, &b[1], &first.1, &a[1], &second.1)?;
    let two = poly_step(alloc, &a[0], &second.1, &b[0], &first.1)?;
    let mut multiples = PolyList::new(alloc);
    multiples.push(one)?;
    multiples.push(two)?;
    Ok(Solution { number, multiples })
}

/// The steps with the pivot's own direction, from those of the others.
fn step_back(alloc: Global, row: &Row, j: usize, rest: &Solution) -> Result<Solution, TensorFault>
    requires within { j < length row.now.0 }
    requires many { suc (length rest.now.multiples) ≡ length row.now.0 }
    ensures value { IfOk result (λ s. (s.number, s.multiples) ≡ step_back polynomials row.now j (rest.now.number, rest.now.multiples)) }
    ensures refused { IfErr result IsTensorRefusal }
{
    let entries = row.0.as_slice();
    let p = entries[j];
    let number = times(&p, &rest.number)?;
    let others = without(alloc, j, entries)?;
    let total = combine(alloc, others.as_slice(), rest.multiples.as_slice())?;
    let own = poly_step(alloc, &rest.number, &row.1, &Frac::one(), &total)?;
    let mut multiples = scaled(alloc, p, rest.multiples.as_slice())?;
    multiples.insert(j, own)?;
    Ok(Solution {
        number,
        multiples: PolyList::from_vec(multiples),
    })
}

/// The steps that solve as many rows as there are directions.
pub(crate) fn steps(alloc: Global, rows: &[Row], k: usize) -> Result<Solution, TensorFault>
    requires regular { IsRegular k (entries polynomials rows.now) }
    requires many { HaveLength k (entries polynomials rows.now) }
    ensures value { IfOk result (λ s. (s.number, s.multiples) ≡ steps polynomials k rows.now) }
    ensures refused { IfErr result IsTensorRefusal }
{
    if k == 0 {
        return Ok(no_step(alloc));
    }
    if k == 1 {
        return one_step(alloc, &rows[0]);
    }
    if k == 2 {
        return two_steps(alloc, &rows[0], &rows[1]);
    }
    let pivot = &rows[0];
    let (_, later) = rows.split_at(1);
    let j = leading(pivot.0.as_slice()).unwrap();
    let smaller = reduced_rows(alloc, pivot, j, later)?;
    let rest = steps(alloc, smaller.as_slice(), k - 1)?;
    let all = step_back(alloc, pivot, j, &rest)?;
    Ok(all)
}
