//! Polynomials: sums of terms with exact fractions as coefficients.
ghost use Rattle.std.specs.Prelude.{◌≡◌, ◌<◌, length, Some, IsOk, IfOk, IfErr, slice_get};
ghost use Rattle.exact_algebra.specs.Sums.{sum};
ghost use Rattle.beta_poly.specs.Polynomial.{polynomial, poly_ring, term, zero_poly, add_poly, mul_poly, scale_poly, conj_poly, coefficient_of, ProductsFit};
ghost use Rattle.beta_poly.specs.Refusals.{SumsFit, IsSumRefusal, MultiplesFit, IsMultipleRefusal, IsProductRefusal, IsRefusedSum};

use crate::fault::PolyFault;
use crate::monomial::Mono;
use crate::products::{conjugate_terms, gather, products, sort_terms};
use crate::terms::{add_terms, coefficient_in, push_copies, push_kept, scale_terms};
use frac128::Frac;
use std::alloc::{AllocError, Global};
use std::marker::Model;

/// A polynomial in symbols, which contracts see as the finite map from monomials to fractions.
///
/// The terms stand in the canonical order of monomials, and no coefficient is 0.
#[derive(Debug, Drop)]
pub struct Poly {
    terms: Vec<(Mono, Frac)>,
}

impl Model for Poly {
    ghost use Rattle.beta_poly.specs.Polynomial.{Polynomial, IsPolynomial, polynomial, polynomial_code};

    ghost Value = { Polynomial };

    ghost coded = { polynomial_code };

    ghost view = { λ p. polynomial p.terms.items };

    ghost invariant = { λ p. IsPolynomial p.terms.items };
}

/// The terms of polynomials, one polynomial after the other.
fn collected(alloc: Global, polynomials: Vec<Poly>) -> Result<Vec<(Mono, Frac)>, AllocError>
    ensures { IfOk result (λ v. polynomial v.items ≡ sum poly_ring.semiring polynomials.items (λ q. q)) }
{
    let mut out = Vec::new(alloc);
    let mut rest = polynomials.into_iter();
    while let Some(polynomial) = rest.next() {
        let Poly { mut terms } = polynomial;
        out.append(&mut terms)?;
    }
    Ok(out)
}

impl Poly {
    /// The polynomial 0. It takes no memory.
    pub fn zero(alloc: Global) -> Poly
        ensures { result ≡ zero_poly }
    {
        Poly {
            terms: Vec::new(alloc),
        }
    }

    /// One term; the coefficient 0 gives the polynomial 0.
    pub fn term(alloc: Global, mono: &Mono, value: Frac) -> Result<Poly, AllocError>
        ensures { IfOk result (λ p. p ≡ term mono.now value) }
    {
        let mut terms = Vec::new(alloc);
        push_kept(alloc, &mut terms, mono, value)?;
        Ok(Poly { terms })
    }

    /// The sum.
    ///
    /// `Overflow` comes exactly where the sum of the coefficients of a monomial that both have is
    /// refused, and carries the first such pair in the canonical order.
    pub fn add(&self, alloc: Global, other: &Poly) -> Result<Poly, PolyFault>
        ensures value { IfOk result (λ p. p ≡ add_poly self.now other.now) }
        ensures fits { IsOk result → SumsFit self.now other.now }
        ensures refused { IfErr result (IsSumRefusal self.now other.now) }
    {
        let terms = add_terms(alloc, self.terms.as_slice(), other.terms.as_slice())?;
        Ok(Poly { terms })
    }

    /// The product: the products of each term of the one and each term of the other are collected,
    /// put into the canonical order at once, and added where they have one monomial.
    ///
    /// The condition is that each sum of exponents is at most 1,000. `Overflow` carries two fractions
    /// whose product or sum is refused.
    pub fn mul(&self, alloc: Global, other: &Poly) -> Result<Poly, PolyFault>
        requires { ProductsFit self.now other.now }
        ensures value { IfOk result (λ p. p ≡ mul_poly self.now other.now) }
        ensures refused { IfErr result IsProductRefusal }
    {
        let mut all = products(alloc, self.terms.as_slice(), other.terms.as_slice())?;
        sort_terms(&mut all)?;
        let terms = gather(alloc, all)?;
        Ok(Poly { terms })
    }

    /// The sum of polynomials: their terms are collected, put into the canonical order at once, and added
    /// where they have one monomial.
    ///
    /// `Overflow` carries two fractions whose sum is refused.
    pub fn total(alloc: Global, polynomials: Vec<Poly>) -> Result<Poly, PolyFault>
        ensures value { IfOk result (λ p. p ≡ sum poly_ring.semiring polynomials.items (λ q. q)) }
        ensures refused { IfErr result IsRefusedSum }
    {
        let mut all = collected(alloc, polynomials)?;
        sort_terms(&mut all)?;
        let terms = gather(alloc, all)?;
        Ok(Poly { terms })
    }

    /// The conjugate: each complex symbol is swapped with its conjugate.
    pub fn conj(&self, alloc: Global) -> Result<Poly, AllocError>
        ensures { IfOk result (λ p. p ≡ conj_poly self.now) }
    {
        let mut terms = conjugate_terms(alloc, self.terms.as_slice())?;
        sort_terms(&mut terms)?;
        Ok(Poly { terms })
    }

    /// The multiple by a fraction.
    ///
    /// `Overflow` comes exactly where the product of a coefficient and `by` is refused, and carries
    /// the first such pair in the canonical order.
    pub fn scale(&self, alloc: Global, by: Frac) -> Result<Poly, PolyFault>
        ensures value { IfOk result (λ p. p ≡ scale_poly by self.now) }
        ensures fits { IsOk result → MultiplesFit self.now by }
        ensures refused { IfErr result (IsMultipleRefusal self.now by) }
    {
        let terms = scale_terms(alloc, self.terms.as_slice(), by)?;
        Ok(Poly { terms })
    }

    /// An equal polynomial.
    pub fn copy(&self, alloc: Global) -> Result<Poly, AllocError>
        ensures { IfOk result (λ p. p ≡ self.now) }
    {
        let mut terms = Vec::new(alloc);
        push_copies(alloc, &mut terms, self.terms.as_slice())?;
        Ok(Poly { terms })
    }

    /// The coefficient of a monomial, 0 where it isn't there. It takes no memory.
    pub fn coefficient(&self, mono: &Mono) -> Frac
        ensures { result ≡ coefficient_of self.now mono.now }
    {
        coefficient_in(self.terms.as_slice(), mono)
    }

    /// The number of terms.
    pub fn len(&self) -> usize
        ensures { result ≡ length self.now.0 }
    {
        self.terms.len()
    }

    /// The monomial and the coefficient at a place, counted from 0 in the canonical order.
    pub fn item(&self, place: usize) -> &(Mono, Frac)
        requires { place < length self.now.0 }
        ensures { slice_get self.now.0 place ≡ Some result.now }
    {
        &self.terms[place]
    }
}
