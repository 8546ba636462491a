//! Polynomials, by values that are worked out by hand from the definitions.
ghost use Rattle.std.specs.Prelude.{◌≡◌, false, IsTrue};
ghost use Rattle.beta_poly.specs.Exponents.{AllWithin};

use beta_poly::{Mono, Poly, PolyFault, Symbol};
use frac128::Frac;
use std::alloc::{AllocError, Global};
use std::cmp::Ordering;
use std::process::Abort;
use std::test::Fail;

/// A symbol by its id, and whether it is a conjugate. The first three ids are real couplings.
type Factor = (u16, bool);

const LARGEST: i128 = i128::MAX;

/// The monomials of the one-loop beta function of the element 1,2 of a complex 3 by 3 matrix Yu, in a model with three gauge
/// couplings (0 to 2) and the matrices Yu (3 to 11), Yd (12 to 20) and Ye (21 to 29), row by row: in the canonical order,
/// read off the vectors of exponents by hand. So the first is g1^2 Yu[1,2], and the fourth Yu[1,1] conj(Yu[1,1]) Yu[1,2].
const LINE: &str = "
0 0 4
1 1 4
2 2 4
3 3~ 4
3 6~ 7
3 9~ 10
4 4~ 4
4 5 5~
4 6 6~
4 7 7~
4 8 8~
4 9 9~
4 10 10~
4 11 11~
4 12 12~
4 13 13~
4 14 14~
4 15 15~
4 16 16~
4 17 17~
4 18 18~
4 19 19~
4 20 20~
4 21 21~
4 22 22~
4 23 23~
4 24 24~
4 25 25~
4 26 26~
4 27 27~
4 28 28~
4 29 29~
5 7 8~
5 10 11~
7 12 15~
7 13 16~
7 14 17~
10 12 18~
10 13 19~
10 14 20~
";

fn symbol(factor: Factor) -> Symbol
    ensures { IsTrue result.real → result.conj ≡ false }
{
    let (id, conj) = factor;
    Symbol {
        id,
        real: id < 3 && !conj,
        conj,
    }
}

/// The product of three symbols.
fn product_of(alloc: Global, factors: [Factor; 3]) -> Result<Mono, AllocError> {
    let [a, b, c] = factors;
    let first = Mono::power(alloc, symbol(a), 1)?;
    let second = Mono::power(alloc, symbol(b), 1)?;
    let third = Mono::power(alloc, symbol(c), 1)?;
    let both = first.times(alloc, &second)?;
    both.times(alloc, &third)
}

/// A symbol with a coefficient.
fn linear(rt: &impl Abort, alloc: Global, factor: Factor, number: i128) -> Poly
    ensures { AllWithin 1 result }
{
    let mono = Mono::power(alloc, symbol(factor), 1).expect(rt, "memory");
    let value = Frac::new(number, 1).expect(rt, "a fraction");
    Poly::term(alloc, &mono, value).expect(rt, "memory")
}

fn sum_of(rt: &impl Abort, alloc: Global, a: &Poly, b: &Poly) -> Poly
    requires a_within { AllWithin 1 a.now }
    requires b_within { AllWithin 1 b.now }
    ensures { AllWithin 1 result }
{
    a.add(alloc, b).expect(rt, "the sum")
}

/// The coefficient of the product of two symbols.
fn at(rt: &impl Abort, alloc: Global, p: &Poly, a: Factor, b: Factor) -> i128 {
    let first = Mono::power(alloc, symbol(a), 1).expect(rt, "memory");
    let second = Mono::power(alloc, symbol(b), 1).expect(rt, "memory");
    let both = first.times(alloc, &second).expect(rt, "memory");
    p.coefficient(&both).num()
}

/// The symbol that a word names.
fn factor(rt: &impl Abort, word: &str) -> Factor {
    let conj = word.ends_with('~');
    let digits = word.strip_suffix('~').unwrap_or(word);
    (digits.parse::<u16>().ok().expect(rt, "a symbol"), conj)
}

/// The monomials of the rows, each built from its factors in another order.
fn monomials(rt: &impl Abort, alloc: Global) -> Result<Vec<Mono>, AllocError> {
    let mut monomials = Vec::new(alloc);
    for row in LINE.lines().skip(1) {
        let mut words = row.split(' ');
        let a = factor(rt, words.next().unwrap_or(""));
        let b = factor(rt, words.next().unwrap_or(""));
        let c = factor(rt, words.next().unwrap_or(""));
        monomials.push(product_of(alloc, [c, a, b])?)?;
    }
    Ok(monomials)
}

// They are added in a shuffled order.
#[test]
fn the_monomials_of_a_line_stand_in_the_canonical_order(rt: HostRuntime) -> Result<(), Fail> {
    let alloc = rt.alloc();
    let monomials = monomials(&rt, alloc)?;
    assert_eq!(rt; monomials.len(), 40);
    let mut sum = Poly::zero(alloc);
    for step in 0..40usize {
        let place = step * 17 % 40;
        let term = Poly::term(alloc, &monomials[place], Frac::whole(place as i64 + 1))?;
        sum = sum.add(alloc, &term).ok().expect(&rt, "the sum");
    }
    assert_eq!(rt; sum.len(), 40);
    for place in 0..sum.len() {
        assert_eq!(rt; sum.item(place).1.num(), place as i128 + 1);
    }
    Ok(())
}

// (x + y) (x - y) is x^2 - y^2, where x is real and y complex: the terms with both cancel.
#[test]
fn a_sum_times_a_difference(rt: HostRuntime) {
    let alloc = rt.alloc();
    let x = (0, false);
    let y = (7, false);
    let one = linear(&rt, alloc, x, 1);
    let sum = sum_of(&rt, alloc, &one, &linear(&rt, alloc, y, 1));
    let difference = sum_of(&rt, alloc, &one, &linear(&rt, alloc, y, -1));
    let product = product_of_two(&rt, alloc, &sum, &difference);
    assert_eq!(rt; product.len(), 2);
    assert_eq!(rt; at(&rt, alloc, &product, x, x), 1);
    assert_eq!(rt; at(&rt, alloc, &product, x, y), 0);
    assert_eq!(rt; at(&rt, alloc, &product, y, y), -1);
    let square = product_of_two(&rt, alloc, &sum, &sum);
    assert_eq!(rt; square.len(), 3);
    assert_eq!(rt; at(&rt, alloc, &square, y, x), 2);
}

fn product_of_two(rt: &impl Abort, alloc: Global, a: &Poly, b: &Poly) -> Poly
    requires a_within { AllWithin 1 a.now }
    requires b_within { AllWithin 1 b.now }
{
    a.mul(alloc, b).expect(rt, "the product")
}

// Of 2 x + 3 y the conjugate is 2 x + 3 conj(y), and the conjugate of that is 2 x + 3 y.
#[test]
fn a_conjugate_swaps_complex_symbols_only(rt: HostRuntime) {
    let alloc = rt.alloc();
    let mut p = linear(&rt, alloc, (0, false), 2);
    p = p
        .add(alloc, &linear(&rt, alloc, (7, false), 3))
        .expect(&rt, "the sum");
    let conjugate = p.conj(alloc).expect(&rt, "memory");
    let back = conjugate.conj(alloc).expect(&rt, "memory");
    for (poly, factor, want) in [
        (&conjugate, (0, false), 2),
        (&conjugate, (7, true), 3),
        (&conjugate, (7, false), 0),
        (&back, (7, false), 3),
        (&back, (7, true), 0),
    ] {
        let mono = Mono::power(alloc, symbol(factor), 1).expect(&rt, "memory");
        assert_eq!(rt; poly.coefficient(&mono).num(), want);
    }
}

#[test]
fn refusals_carry_the_first_pair_that_does_not_fit(rt: HostRuntime) {
    let alloc = rt.alloc();
    let small = linear(&rt, alloc, (0, false), 5);
    let large = linear(&rt, alloc, (1, false), LARGEST);
    let both = small.add(alloc, &large).expect(&rt, "the sum");
    let again = both.copy(alloc).expect(&rt, "memory");
    expect_pair(&rt, both.add(alloc, &again), (LARGEST, LARGEST));
    expect_pair(&rt, both.scale(alloc, Frac::whole(2)), (LARGEST, 2));
    assert!(rt; both.add(alloc, &linear(&rt, alloc, (1, false), -1)).is_ok());
    assert!(rt; both.scale(alloc, Frac::whole(-1)).is_ok());
    assert_eq!(rt; both.len(), 2);
    expect_shared(&both);
}

// Threads may share polynomials.
fn expect_shared<T: Send + Sync>(_value: &T) {}

fn expect_pair(rt: &impl Abort, answer: Result<Poly, PolyFault>, want: (i128, i128)) {
    match answer {
        Err(PolyFault::Overflow(pair)) => {
            assert_eq!(rt; (pair.a.num(), pair.b.num()), want);
        }
        _ => panic!(rt; "a pair was wanted"),
    }
}

#[test]
fn monomials_compare_by_their_vectors_of_exponents(rt: HostRuntime) {
    let alloc = rt.alloc();
    let power = |factor, exponent| Mono::power(alloc, symbol(factor), exponent);
    let x = power((0, false), 1).expect(&rt, "memory");
    let square = power((0, false), 2).expect(&rt, "memory");
    let y = power((7, false), 3).expect(&rt, "memory");
    let conjugate = y.conjugate(alloc).expect(&rt, "memory");
    let one = power((7, true), 0).expect(&rt, "memory");
    expect_before(&rt, &square, &x);
    expect_before(&rt, &x, &y);
    expect_before(&rt, &y, &conjugate);
    expect_before(&rt, &conjugate, &one);
    assert_eq!(rt; one.len(), 0);
    assert_eq!(rt; square.len(), 1);
    for place in 0..square.len() {
        assert_eq!(rt; square.item(place).1, 2);
    }
}

fn expect_before(rt: &impl Abort, a: &Mono, b: &Mono) {
    assert_eq!(rt; a.cmp(b), Ordering::Less);
    assert_eq!(rt; b.cmp(a), Ordering::Greater);
    assert_eq!(rt; a.cmp(a), Ordering::Equal);
}
