//! Monomials: products of powers of symbols.
ghost use Rattle.std.specs.Prelude.{◌≡◌, ◌<◌, length, map, false, Some, IfOk, OnOk, IsTrue, IsPermutation, slice_get};
ghost use Rattle.std.specs.List.Sorted.{IsSortedByKey};
ghost use Rattle.exact_algebra.specs.Naturals.{nat_semiring, nat_zero};
ghost use Rattle.exact_algebra.specs.Merge.{merge};
ghost use Rattle.beta_poly.specs.Symbol.{symbol_keys, symbol_cmp, conj_symbol};
ghost use Rattle.beta_poly.specs.Monomial.{Monomial, IsMonomial, monomial, power_cmp, powers_cmp, monomial_cmp, power, times_monomial, conj_monomial, ExponentsFit};

use crate::symbol::Symbol;
use smallvec::SmallVec;
use std::alloc::{AllocError, Global};
use std::cmp::Ordering;
use std::marker::Model;

/// The powers of a monomial: up to six stand in the value itself, and more than that in an allocation.
type Powers = SmallVec<(Symbol, u32), 6>;

/// A product of powers of symbols, which contracts see as the finite map from symbols to exponents.
///
/// The powers stand in the order of the symbols, and each exponent is at least 1.
#[derive(Debug, Drop)]
pub struct Mono {
    powers: Powers,
}

impl Model for Mono {
    ghost use Rattle.beta_poly.specs.Monomial.{Monomial, IsMonomial, monomial, monomial_code};

    ghost Value = { Monomial };

    ghost coded = { monomial_code };

    ghost view = { λ m. monomial m.powers.items };

    ghost invariant = { λ m. IsMonomial m.powers.items };
}

/// Which of two powers at the first difference of two monomials makes its monomial come first.
fn compare_powers(a: &(Symbol, u32), b: &(Symbol, u32)) -> Ordering
    ensures { result ≡ power_cmp b.now a.now }
{
    let by_symbol = a.0.cmp(&b.0);
    let by_exponent = b.1.cmp(&a.1);
    by_symbol.then(by_exponent)
}

/// The canonical order of two monomials by their powers.
fn compare(a: &[(Symbol, u32)], b: &[(Symbol, u32)]) -> Ordering
    ensures { result ≡ powers_cmp a.now b.now }
{
    let mut i: usize = 0;
    while i < a.len() && i < b.len() {
        match compare_powers(&a[i], &b[i]) {
            Ordering::Less => return Ordering::Less,
            Ordering::Greater => return Ordering::Greater,
            Ordering::Equal => i += 1,
        }
    }
    if i < a.len() {
        Ordering::Less
    } else if i < b.len() {
        Ordering::Greater
    } else {
        Ordering::Equal
    }
}

/// The powers of the product of two monomials.
fn times_powers(
    alloc: Global,
    a: &[(Symbol, u32)],
    b: &[(Symbol, u32)],
) -> Result<Powers, AllocError>
    requires a_monomial { IsMonomial a.now }
    requires b_monomial { IsMonomial b.now }
    requires fits { ExponentsFit (monomial a.now) (monomial b.now) }
    ensures { IfOk result (λ v. v.items ≡ merge symbol_keys nat_semiring nat_zero a.now b.now) }
{
    let mut out = SmallVec::new(alloc);
    let mut i: usize = 0;
    let mut j: usize = 0;
    while i < a.len() && j < b.len() {
        let (symbol, exponent) = a[i];
        let (other_symbol, other_exponent) = b[j];
        match symbol.cmp(&other_symbol) {
            Ordering::Less => {
                out.push((symbol, exponent))?;
                i += 1;
            }
            Ordering::Greater => {
                out.push((other_symbol, other_exponent))?;
                j += 1;
            }
            Ordering::Equal => {
                out.push((symbol, exponent + other_exponent))?;
                i += 1;
                j += 1;
            }
        }
    }
    out.extend_from_slice(&a[i..])?;
    out.extend_from_slice(&b[j..])?;
    Ok(out)
}

/// The power at a place.
fn power_at(powers: &[(Symbol, u32)], place: usize) -> &(Symbol, u32)
    requires { place < length powers.now }
    ensures { slice_get powers.now place ≡ Some result.now }
{
    &powers[place]
}

/// The powers of the conjugates, in the order of the powers.
fn conjugate_powers(alloc: Global, powers: &[(Symbol, u32)]) -> Result<Powers, AllocError>
    ensures { IfOk result (λ v. v.items ≡ map (λ p. (conj_symbol p.0, p.1)) powers.now) }
{
    let mut out = SmallVec::new(alloc);
    for power in powers {
        out.push((power.0.conjugate(), power.1))?;
    }
    Ok(out)
}

/// Puts powers into the order of their symbols.
fn sort_powers(alloc: Global, powers: &mut Powers) -> Result<(), AllocError>
    ensures permutation { IsPermutation powers.old.items powers.new.items }
    ensures sorted { OnOk result (IsSortedByKey (λ p. p.0) symbol_cmp powers.new.items) }
{
    powers.as_mut_slice().sort_by(alloc, |a, b| a.0.cmp(&b.0))?;
    Ok(())
}

impl Mono {
    /// The power of a symbol; the exponent 0 gives the monomial 1.
    pub fn power(alloc: Global, symbol: Symbol, exponent: u32) -> Result<Mono, AllocError>
        requires { IsTrue symbol.real → symbol.conj ≡ false }
        ensures { IfOk result (λ m. m ≡ power symbol exponent) }
    {
        let mut powers = SmallVec::new(alloc);
        if exponent == 0 {
            return Ok(Mono { powers });
        }
        powers.push((symbol, exponent))?;
        Ok(Mono { powers })
    }

    /// The product, where each sum of exponents is at most 1,000.
    pub fn times(&self, alloc: Global, other: &Mono) -> Result<Mono, AllocError>
        requires { ExponentsFit self.now other.now }
        ensures { IfOk result (λ m. m ≡ times_monomial self.now other.now) }
    {
        let powers = times_powers(alloc, self.powers.as_slice(), other.powers.as_slice())?;
        Ok(Mono { powers })
    }

    /// The conjugate: each symbol is swapped with its conjugate.
    pub fn conjugate(&self, alloc: Global) -> Result<Mono, AllocError>
        ensures { IfOk result (λ m. m ≡ conj_monomial self.now) }
    {
        let mut powers = conjugate_powers(alloc, self.powers.as_slice())?;
        sort_powers(alloc, &mut powers)?;
        Ok(Mono { powers })
    }

    /// An equal monomial.
    pub fn copy(&self, alloc: Global) -> Result<Mono, AllocError>
        ensures { IfOk result (λ m. m ≡ self.now) }
    {
        let powers = SmallVec::from_slice(alloc, self.powers.as_slice())?;
        Ok(Mono { powers })
    }

    /// The canonical order of monomials, the descending lexicographic order of their vectors of
    /// exponents: the monomial that comes first is `Less`.
    pub fn cmp(&self, other: &Mono) -> Ordering
        ensures { result ≡ monomial_cmp self.now other.now }
    {
        compare(self.powers.as_slice(), other.powers.as_slice())
    }

    /// The number of symbols.
    pub fn len(&self) -> usize
        ensures { result ≡ length self.now.0 }
    {
        self.powers.len()
    }

    /// The symbol and the exponent at a place, counted from 0 in the order of the symbols.
    pub fn item(&self, place: usize) -> &(Symbol, u32)
        requires { place < length self.now.0 }
        ensures { slice_get self.now.0 place ≡ Some result.now }
    {
        power_at(self.powers.as_slice(), place)
    }
}
