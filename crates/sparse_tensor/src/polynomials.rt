//! Totals, multiples and products of values, with the refusals of tensors.
ghost use Rattle.std.specs.Prelude.{◌≡◌, IfOk, IfErr};
ghost use Rattle.exact_algebra.specs.Sums.{sum};
ghost use Rattle.beta_poly.specs.Polynomial.{poly_ring, mul_poly, scale_poly, ProductsFit};
ghost use Rattle.sparse_tensor.specs.Tensor.{poly_zero_test};
ghost use Rattle.sparse_tensor.specs.Refusals.{IsTensorRefusal, IsRefusedSum};

use crate::fault::TensorFault;
use beta_poly::Poly;
use frac128::Frac;
use std::alloc::Global;

/// Whether a value is 0.
#[tactic(auto, using(crate::proofs::Kept::zero_by_length))]
pub(crate) fn is_zero(value: &Poly) -> bool
    ensures { result ≡ poly_zero_test.is_zero value.now }
{
    value.len() == 0
}

/// The sum of values.
#[tactic(auto, using(crate::proofs::Faults::total_refused))]
pub(crate) fn total(alloc: Global, values: Vec<Poly>) -> Result<Poly, TensorFault>
    ensures value { IfOk result (λ p. p ≡ sum poly_ring.semiring values.items (λ q. q)) }
    ensures refused { IfErr result IsRefusedSum }
{
    let total = Poly::total(alloc, values)?;
    Ok(total)
}

/// The multiple of a value.
#[tactic(auto, using(crate::proofs::Faults::multiple_refused))]
pub(crate) fn multiple(alloc: Global, by: Frac, a: &Poly) -> Result<Poly, TensorFault>
    ensures value { IfOk result (λ p. p ≡ scale_poly by a.now) }
    ensures refused { IfErr result IsTensorRefusal }
{
    let multiple = a.scale(alloc, by)?;
    Ok(multiple)
}

/// The multiple of a value that is given away. 1 leaves it as it is.
#[tactic(auto, using(beta_poly::proofs::Multiples::scale_one))]
pub(crate) fn scaled(alloc: Global, by: Frac, a: Poly) -> Result<Poly, TensorFault>
    ensures value { IfOk result (λ p. p ≡ scale_poly by a) }
    ensures refused { IfErr result IsTensorRefusal }
{
    if by == Frac::one() {
        return Ok(a);
    }
    multiple(alloc, by, &a)
}

/// The product of two values.
#[tactic(auto, using(crate::proofs::Faults::product_refused))]
pub(crate) fn product(alloc: Global, a: &Poly, b: &Poly) -> Result<Poly, TensorFault>
    requires { ProductsFit a.now b.now }
    ensures value { IfOk result (λ p. p ≡ mul_poly a.now b.now) }
    ensures refused { IfErr result IsTensorRefusal }
{
    let product = a.mul(alloc, b)?;
    Ok(product)
}
