//! Sums, multiples and differences of fractions and polynomials, with the refusals of tensors.
ghost use Rattle.std.specs.Prelude.{◌≡◌, ◌≢◌, ◌↔◌, IsTrue, IfOk, IfErr};
ghost use Rattle.frac128.specs.Rational.{zero_ℚ, ◌*ℚ◌, ◌-ℚ◌, reciprocal};
ghost use Rattle.beta_poly.specs.Polynomial.{add_poly, scale_poly, zero_poly, poly_ring};
ghost use Rattle.sparse_tensor.specs.Refusals.{IsTensorRefusal};

use beta_poly::Poly;
use frac128::Frac;
use sparse_tensor::TensorFault;
use std::alloc::Global;

/// The product of two fractions.
pub(crate) fn times(a: &Frac, b: &Frac) -> Result<Frac, TensorFault>
    ensures value { IfOk result (λ x. x ≡ a.now *ℚ b.now) }
    ensures refused { IfErr result IsTensorRefusal }
{
    match a.mul(b) {
        Ok(product) => Ok(product),
        Err(pair) => Err(TensorFault::Overflow(pair)),
    }
}

/// The difference of two fractions.
fn difference(a: &Frac, b: &Frac) -> Result<Frac, TensorFault>
    ensures value { IfOk result (λ x. x ≡ a.now -ℚ b.now) }
    ensures refused { IfErr result IsTensorRefusal }
{
    match a.add(&b.negated()) {
        Ok(difference) => Ok(difference),
        Err(pair) => Err(TensorFault::Overflow(pair)),
    }
}

/// p * b - a * q.
pub(crate) fn step(p: &Frac, b: &Frac, a: &Frac, q: &Frac) -> Result<Frac, TensorFault>
    ensures value { IfOk result (λ x. x ≡ p.now *ℚ b.now -ℚ a.now *ℚ q.now) }
    ensures refused { IfErr result IsTensorRefusal }
{
    let first = times(p, b)?;
    let second = times(a, q)?;
    let all = difference(&first, &second)?;
    Ok(all)
}

/// The reciprocal of a fraction other than 0, which always fits.
pub(crate) fn inverse(x: &Frac) -> Frac
    requires { x.now ≢ zero_ℚ }
    ensures { result ≡ reciprocal x.now }
{
    Frac::new(x.den(), x.num()).unwrap()
}

/// Whether a polynomial is 0.
pub(crate) fn is_nothing(p: &Poly) -> bool
    ensures { IsTrue result ↔ (p.now ≡ zero_poly) }
{
    p.len() == 0
}

/// The sum of two polynomials.
#[tactic(auto, using(crate::proofs::Faults::sum_refused))]
pub(crate) fn sum(alloc: Global, a: &Poly, b: &Poly) -> Result<Poly, TensorFault>
    ensures value { IfOk result (λ p. p ≡ add_poly a.now b.now) }
    ensures refused { IfErr result IsTensorRefusal }
{
    let sum = a.add(alloc, b)?;
    Ok(sum)
}

/// The multiple of a polynomial.
#[tactic(auto, using(crate::proofs::Faults::multiple_refused))]
pub(crate) fn multiple(alloc: Global, by: Frac, a: &Poly) -> Result<Poly, TensorFault>
    ensures value { IfOk result (λ p. p ≡ scale_poly by a.now) }
    ensures refused { IfErr result IsTensorRefusal }
{
    let multiple = a.scale(alloc, by)?;
    Ok(multiple)
}

/// p * v - a * w.
pub(crate) fn poly_step(
    alloc: Global,
    p: &Frac,
    v: &Poly,
    a: &Frac,
    w: &Poly,
) -> Result<Poly, TensorFault>
    ensures value { IfOk result (λ x. x ≡ add_poly (scale_poly p.now v.now) (poly_ring.neg (scale_poly a.now w.now))) }
    ensures refused { IfErr result IsTensorRefusal }
{
    let first = multiple(alloc, *p, v)?;
    let second = multiple(alloc, a.negated(), w)?;
    let all = sum(alloc, &first, &second)?;
    Ok(all)
}
