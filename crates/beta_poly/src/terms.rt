//! Lists of terms in the canonical order: sums, multiples and coefficients.
ghost use Rattle.std.specs.Prelude.{◌≡◌, ◌++◌, ◌∷◌, [], IsOk, IfOk, IfErr, OnOk};
ghost use Rattle.exact_algebra.specs.Formal.{scaled};
ghost use Rattle.exact_algebra.specs.Merge.{merge};
ghost use Rattle.frac128.specs.RationalLaws.{ring_ℚ};
ghost use Rattle.beta_poly.specs.Monomial.{monomial_keys};
ghost use Rattle.beta_poly.specs.Polynomial.{IsPolynomial, polynomial, zero_test, kept, coefficient_of};
ghost use Rattle.beta_poly.specs.Refusals.{SumsFit, IsSumRefusal, MultiplesFit, IsMultipleRefusal};

use crate::fault::PolyFault;
use crate::monomial::Mono;
use frac128::Frac;
use std::alloc::{AllocError, Global};
use std::cmp::Ordering;

/// Puts a copy of a term at the end.
pub(crate) fn push_copy(
    alloc: Global,
    out: &mut Vec<(Mono, Frac)>,
    mono: &Mono,
    value: Frac,
) -> Result<(), AllocError>
    ensures { OnOk result (out.new.items ≡ out.old.items ++ (mono.now, value) ∷ []) }
{
    let copy = mono.copy(alloc)?;
    out.push((copy, value))?;
    Ok(())
}

/// Puts a copy of a term at the end, or nothing where its coefficient is 0.
pub(crate) fn push_kept(
    alloc: Global,
    out: &mut Vec<(Mono, Frac)>,
    mono: &Mono,
    value: Frac,
) -> Result<(), AllocError>
    ensures { OnOk result (out.new.items ≡ out.old.items ++ kept mono.now value) }
{
    if value.is_zero() {
        return Ok(());
    }
    push_copy(alloc, out, mono, value)
}

/// Puts copies of terms at the end.
pub(crate) fn push_copies(
    alloc: Global,
    out: &mut Vec<(Mono, Frac)>,
    terms: &[(Mono, Frac)],
) -> Result<(), AllocError>
    ensures { OnOk result (out.new.items ≡ out.old.items ++ terms.now) }
{
    for term in terms {
        push_copy(alloc, out, &term.0, term.1)?;
    }
    Ok(())
}

/// The terms of the sum of two polynomials, by one walk along both.
pub(crate) fn add_terms(
    alloc: Global,
    a: &[(Mono, Frac)],
    b: &[(Mono, Frac)],
) -> Result<Vec<(Mono, Frac)>, PolyFault>
    requires a_polynomial { IsPolynomial a.now }
    requires b_polynomial { IsPolynomial b.now }
    ensures value { IfOk result (λ v. v.items ≡ merge monomial_keys ring_ℚ.semiring zero_test a.now b.now) }
    ensures fits { IsOk result → SumsFit (polynomial a.now) (polynomial b.now) }
    ensures refused { IfErr result (IsSumRefusal (polynomial a.now) (polynomial b.now)) }
{
    let mut out = Vec::new(alloc);
    let mut i: usize = 0;
    let mut j: usize = 0;
    while i < a.len() && j < b.len() {
        let d = &a[i];
        let e = &b[j];
        match d.0.cmp(&e.0) {
            Ordering::Less => {
                push_copy(alloc, &mut out, &d.0, d.1)?;
                i += 1;
            }
            Ordering::Greater => {
                push_copy(alloc, &mut out, &e.0, e.1)?;
                j += 1;
            }
            Ordering::Equal => {
                let sum = d.1.add(&e.1)?;
                push_kept(alloc, &mut out, &d.0, sum)?;
                i += 1;
                j += 1;
            }
        }
    }
    push_copies(alloc, &mut out, &a[i..])?;
    push_copies(alloc, &mut out, &b[j..])?;
    Ok(out)
}

/// The terms of the multiple of a polynomial.
pub(crate) fn scale_terms(
    alloc: Global,
    terms: &[(Mono, Frac)],
    by: Frac,
) -> Result<Vec<(Mono, Frac)>, PolyFault>
    requires { IsPolynomial terms.now }
    ensures value { IfOk result (λ v. v.items ≡ scaled monomial_keys ring_ℚ.semiring zero_test by terms.now) }
    ensures fits { IsOk result → MultiplesFit (polynomial terms.now) by }
    ensures refused { IfErr result (IsMultipleRefusal (polynomial terms.now) by) }
{
    let mut out = Vec::new(alloc);
    for term in terms {
        let value = term.1.mul(&by)?;
        push_kept(alloc, &mut out, &term.0, value)?;
    }
    Ok(out)
}

/// The coefficient of a monomial in the terms of a polynomial, found by halving.
pub(crate) fn coefficient_in(terms: &[(Mono, Frac)], mono: &Mono) -> Frac
    requires { IsPolynomial terms.now }
    ensures { result ≡ coefficient_of (polynomial terms.now) mono.now }
{
    match terms.binary_search_by(|term| term.0.cmp(mono)) {
        Ok(place) => terms[place].1,
        Err(_) => Frac::zero(),
    }
}
