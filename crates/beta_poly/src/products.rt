//! Terms in any order: products and conjugates, put into the canonical order.
ghost use Rattle.std.specs.Prelude.{◌≡◌, ◌++◌, ◌∷◌, [], map, IfOk, IfErr, OnOk, IsPermutation};
ghost use Rattle.std.specs.List.Sorted.{IsSortedByKey};
ghost use Rattle.beta_poly.specs.Monomial.{monomial_cmp, conj_monomial, ExponentsFit};
ghost use Rattle.beta_poly.specs.Polynomial.{IsPolynomial, polynomial, all_products, kept, TermsFit};
ghost use Rattle.beta_poly.specs.Refusals.{IsProductRefusal, IsRefusedSum};

use crate::fault::PolyFault;
use crate::monomial::Mono;
use frac128::Frac;
use std::alloc::{AllocError, Global};
use std::cmp::Ordering;

/// Puts the product of two terms at the end.
fn push_product(
    alloc: Global,
    out: &mut Vec<(Mono, Frac)>,
    a: &(Mono, Frac),
    b: &(Mono, Frac),
) -> Result<(), PolyFault>
    requires { ExponentsFit a.now.0 b.now.0 }
    ensures value { OnOk result (out.new.items ≡ out.old.items ++ all_products (a.now ∷ []) (b.now ∷ [])) }
    ensures refused { IfErr result IsProductRefusal }
{
    let value = a.1.mul(&b.1)?;
    let mono = a.0.times(alloc, &b.0)?;
    out.push((mono, value))?;
    Ok(())
}

/// Puts the products of one term and all terms of a list at the end.
fn push_products(
    alloc: Global,
    out: &mut Vec<(Mono, Frac)>,
    a: &(Mono, Frac),
    terms: &[(Mono, Frac)],
) -> Result<(), PolyFault>
    requires { TermsFit (a.now ∷ []) terms.now }
    ensures value { OnOk result (out.new.items ≡ out.old.items ++ all_products (a.now ∷ []) terms.now) }
    ensures refused { IfErr result IsProductRefusal }
{
    for b in terms {
        push_product(alloc, out, a, b)?;
    }
    Ok(())
}

/// The products of each term of the one list and each term of the other.
pub(crate) fn products(
    alloc: Global,
    a: &[(Mono, Frac)],
    b: &[(Mono, Frac)],
) -> Result<Vec<(Mono, Frac)>, PolyFault>
    requires { TermsFit a.now b.now }
    ensures value { IfOk result (λ v. v.items ≡ all_products a.now b.now) }
    ensures refused { IfErr result IsProductRefusal }
{
    let mut out = Vec::new(alloc);
    for term in a {
        push_products(alloc, &mut out, term, b)?;
    }
    Ok(out)
}

/// The conjugates of terms, in the terms' order.
pub(crate) fn conjugate_terms(
    alloc: Global,
    terms: &[(Mono, Frac)],
) -> Result<Vec<(Mono, Frac)>, AllocError>
    ensures { IfOk result (λ v. v.items ≡ map (λ e. (conj_monomial e.0, e.1)) terms.now) }
{
    let mut out = Vec::new(alloc);
    for term in terms {
        let mono = term.0.conjugate(alloc)?;
        out.push((mono, term.1))?;
    }
    Ok(out)
}

/// Puts terms into the canonical order of their monomials.
pub(crate) fn sort_terms(terms: &mut Vec<(Mono, Frac)>) -> Result<(), AllocError>
    ensures permutation { IsPermutation terms.old.items terms.new.items }
    ensures sorted { OnOk result (IsSortedByKey (λ e. e.0) monomial_cmp terms.new.items) }
{
    terms.sort_by(|a, b| a.0.cmp(&b.0))?;
    Ok(())
}

/// Puts a term at the end, or nothing where its coefficient is 0.
fn push_term(out: &mut Vec<(Mono, Frac)>, mono: Mono, value: Frac) -> Result<(), AllocError>
    ensures { OnOk result (out.new.items ≡ out.old.items ++ kept mono value) }
{
    if value.is_zero() {
        return Ok(());
    }
    out.push((mono, value))?;
    Ok(())
}

/// The canonical terms of the sum of terms that stand in the order of their monomials: neighbours
/// with one monomial are added, and what cancels is dropped.
pub(crate) fn gather(
    alloc: Global,
    terms: Vec<(Mono, Frac)>,
) -> Result<Vec<(Mono, Frac)>, PolyFault>
    requires { IsSortedByKey (λ e. e.0) monomial_cmp terms.items }
    ensures value { IfOk result (λ v. polynomial v.items ≡ polynomial terms.items) }
    ensures canonical { IfOk result (λ v. IsPolynomial v.items) }
    ensures refused { IfErr result IsRefusedSum }
{
    let mut out = Vec::new(alloc);
    let mut rest = terms.into_iter();
    let Some(first) = rest.next() else {
        return Ok(out);
    };
    let (mut mono, mut value) = first;
    while let Some(next) = rest.next() {
        let (next_mono, next_value) = next;
        match mono.cmp(&next_mono) {
            Ordering::Equal => value = value.add(&next_value)?,
            _ => {
                push_term(&mut out, mono, value)?;
                mono = next_mono;
                value = next_value;
            }
        }
    }
    push_term(&mut out, mono, value)?;
    Ok(out)
}
