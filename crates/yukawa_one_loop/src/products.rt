//! Products, traces and multiples of matrices.
ghost use Rattle.std.specs.Prelude.{◌≡◌, ◌∷◌, [], length, IfOk, IfErr, OnOk};
ghost use Rattle.beta_poly.specs.Exponents.{AllWithin};
ghost use Rattle.beta_poly.specs.Polynomial.{add_poly, mul_poly, scale_poly};
ghost use Rattle.sparse_tensor.specs.Refusals.{IsTensorRefusal};
ghost use Rattle.sparse_tensor.specs.Tensor.{rank_of, value};
ghost use Rattle.model_core.specs.declared.model.Model.{Model};
ghost use Rattle.model_core.specs.Component.{fermion_components};
ghost use Rattle.beta_formulas.specs.YukawaBeta.{Matrix, times, trace};
ghost use Rattle.yukawa_one_loop.specs.Matrices.{AddsMatrix, AreWithin, IsMatrix, identity_links};

use beta_poly::Poly;
use frac128::Frac;
use sparse_tensor::{Link, LinkList, Sparse, TensorFault, Value, ValueList};
use std::alloc::{AllocError, Global};
use term_expand::copied;

/// The links from each of the first places to itself.
pub fn identity_links(alloc: Global, count: u32) -> Result<LinkList, AllocError>
    ensures { IfOk result (λ links. links ≡ identity_links count) }
{
    let mut links = LinkList::new(alloc);
    for place in 0..count {
        links.push(Link {
            from: place,
            to: place,
            value: Frac::one(),
        })?;
    }
    Ok(links)
}

/// The product of two matrices, along the links from each fermion component to itself.
pub fn times(
    alloc: Global,
    links: &LinkList,
    left: &Sparse,
    right: &Sparse,
) -> Result<Sparse, TensorFault>
    requires left_rank { rank_of left.now ≡ 2 }
    requires right_rank { rank_of right.now ≡ 2 }
    requires left { AreWithin 2 left.now }
    requires right { AreWithin 2 right.now }
    ensures value { (model : Model) (a b : Matrix) → links.now ≡ identity_links (length (fermion_components model)) → IsMatrix model a left.now → IsMatrix model b right.now → IfOk result (IsMatrix model (times model a b)) }
    ensures within { AreWithin 1 left.now → AreWithin 1 right.now → IfOk result (AreWithin 2) }
    ensures refused { IfErr result IsTensorRefusal }
{
    left.contract(alloc, 1, right, 0, links)
}

/// A sum, and the value on the diagonal at a place more.
fn add_diagonal(alloc: Global, matrix: &Sparse, sum: Poly, place: u32) -> Result<Poly, TensorFault>
    requires { rank_of matrix.now ≡ 2 }
    ensures value { IfOk result (λ more. more ≡ add_poly sum (value matrix.now (place ∷ place ∷ []))) }
    ensures refused { IfErr result IsTensorRefusal }
{
    match matrix.at(&[place, place]) {
        None => Ok(sum),
        Some(entry) => Ok(sum.add(alloc, entry)?),
    }
}

/// The trace of a matrix over so many fermion components.
pub fn trace(alloc: Global, count: u32, matrix: &Sparse) -> Result<Poly, TensorFault>
    requires rank { rank_of matrix.now ≡ 2 }
    ensures value { (model : Model) (a : Matrix) → count ≡ length (fermion_components model) → IsMatrix model a matrix.now → IfOk result (λ p. p ≡ trace model a) }
    ensures within { AreWithin 2 matrix.now → IfOk result (AllWithin 2) }
    ensures refused { IfErr result IsTensorRefusal }
{
    let mut sum = Poly::zero(alloc);
    for place in 0..count {
        sum = add_diagonal(alloc, matrix, sum, place)?;
    }
    Ok(sum)
}

/// Adds a polynomial times a matrix.
pub fn push_multiple(
    alloc: Global,
    values: &mut ValueList,
    factor: &Poly,
    matrix: &Sparse,
) -> Result<(), TensorFault>
    requires rank { rank_of matrix.now ≡ 2 }
    requires factor { AllWithin 2 factor.now }
    requires matrix { AreWithin 2 matrix.now }
    ensures value { (model : Model) (a : Matrix) → IsMatrix model a matrix.now → OnOk result (AddsMatrix model (λ j k. mul_poly factor.now (a j k)) values.old values.new) }
    ensures refused { IfErr result IsTensorRefusal }
{
    for place in 0..matrix.len() {
        let (key, entry) = matrix.item(place);
        values.push(Value {
            key: copied(alloc, key)?,
            value: factor.mul(alloc, entry)?,
        })?;
    }
    Ok(())
}

/// Adds a number times a matrix.
pub fn push_scaled(
    alloc: Global,
    values: &mut ValueList,
    number: Frac,
    matrix: &Sparse,
) -> Result<(), TensorFault>
    requires rank { rank_of matrix.now ≡ 2 }
    ensures value { (model : Model) (a : Matrix) → IsMatrix model a matrix.now → OnOk result (AddsMatrix model (λ j k. scale_poly number (a j k)) values.old values.new) }
    ensures refused { IfErr result IsTensorRefusal }
{
    for place in 0..matrix.len() {
        let (key, entry) = matrix.item(place);
        values.push(Value {
            key: copied(alloc, key)?,
            value: entry.scale(alloc, number)?,
        })?;
    }
    Ok(())
}
