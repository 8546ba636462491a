ghost use Rattle.std.specs.Prelude.{◌≡◌, ◌≤◌, ◌<◌, ◌*◌, pos, unsigned_abs, [], ◌∷◌, length};
ghost use Rattle.std.specs.Str.{bytes_eq};
ghost use Rattle.frac128.specs.Rational.{ℚ, whole, ◌/ℚ◌};
ghost use Rattle.su_reps.specs.Tuples.{IsTuple, AreValues, projector, action};
ghost use Rattle.su_reps.specs.Entries.{are_swapped, are_diagonal, number_if, generator_numerator, slot_numerator, slots_numerator, projector_numerator, projector_denominator};

use crate::rep::{Rep, Side, sides};
use frac128::Frac;

/// Whether two tuples are equal.
fn are_equal(p: &[u8], q: &[u8]) -> bool
    ensures { result ≡ bytes_eq p.now q.now }
{
    p == q
}

/// Whether one pair is the other with its values swapped.
fn are_swapped(p: &[u8], q: &[u8]) -> bool
    ensures { result ≡ are_swapped p.now q.now }
{
    match (p, q) {
        ([a, b], [c, d]) => *a == *d && *b == *c,
        _ => false,
    }
}

/// Whether the two values of each pair are equal.
fn are_diagonal(p: &[u8], q: &[u8]) -> bool
    ensures { result ≡ are_diagonal p.now q.now }
{
    match (p, q) {
        ([a, b], [c, d]) => *a == *b && *c == *d,
        _ => false,
    }
}

/// A small number where something holds, else 0.
fn number_if(holds: bool, number: i64) -> i64
    ensures value { result ≡ number_if holds number }
    ensures size { unsigned_abs result ≤ unsigned_abs number }
{
    if holds { number } else { 0 }
}

/// n times the entry (a, b) of X_ij itself, the matrix unit minus the identity over n where i = j.
fn generator_numerator(n: u32, i: u8, j: u8, a: u8, b: u8) -> i64
    requires { n ≤ 6 }
    ensures value { result ≡ generator_numerator n i j a b }
    ensures size { unsigned_abs result ≤ 7 }
{
    number_if(a == i && b == j, n as i64) - number_if(i == j && a == b, 1)
}

/// n times the entry of X_ij at one index: above it is X_ij itself, below minus its transpose.
fn slot_numerator(side: Side, n: u32, i: u8, j: u8, a: u8, b: u8) -> i64
    requires { n ≤ 6 }
    ensures value { result ≡ slot_numerator side n i j a b }
    ensures size { unsigned_abs result ≤ 7 }
{
    match side {
        Side::Upper => generator_numerator(n, i, j, a, b),
        Side::Lower => -generator_numerator(n, i, j, b, a),
    }
}

/// n times the entry of X_ij at two tuples: the sum over the indices, with the identity on the
/// others.
fn slots_numerator(sides: &[Side], n: u32, i: u8, j: u8, p: &[u8], q: &[u8]) -> i64
    requires small { n ≤ 6 }
    requires few { length sides.now ≤ 3 }
    ensures value { result ≡ slots_numerator sides.now n i j p.now q.now }
    ensures size { unsigned_abs result ≤ 7 * length sides.now }
{
    match (sides, p, q) {
        ([side, sides @ ..], [a, p @ ..], [b, q @ ..]) => {
            let first = number_if(are_equal(p, q), slot_numerator(*side, n, i, j, *a, *b));
            let second = number_if(*a == *b, slots_numerator(sides, n, i, j, p, q));
            first + second
        }
        _ => 0,
    }
}

/// An entry: a small whole number over a denominator.
fn entry(num: i64, den: u32) -> Frac
    requires { 0 < den }
    ensures { result ≡ whole num /ℚ whole (pos den) }
{
    Frac::new(num as i128, den as i128).unwrap()
}

/// A denominator of all entries of the projector.
fn projector_denominator(rep: Rep, n: u32) -> u32
    requires { 1 ≤ n }
    ensures value { result ≡ projector_denominator rep n }
    ensures positive { 0 < result }
{
    match rep {
        Rep::Singlet | Rep::Fund | Rep::Conj => 1,
        Rep::Adjoint => n,
        Rep::Sym2 | Rep::Sym2Conj | Rep::Anti2 | Rep::Anti2Conj => 2,
    }
}

/// The projector's entry times that denominator.
fn projector_numerator(rep: Rep, n: u32, p: &[u8], q: &[u8]) -> i64
    requires { n ≤ 6 }
    ensures { result ≡ projector_numerator rep n p.now q.now }
{
    let same = are_equal(p, q);
    match rep {
        Rep::Singlet | Rep::Fund | Rep::Conj => number_if(same, 1),
        Rep::Adjoint => number_if(same, n as i64) - number_if(are_diagonal(p, q), 1),
        Rep::Sym2 | Rep::Sym2Conj => number_if(same, 1) + number_if(are_swapped(p, q), 1),
        Rep::Anti2 | Rep::Anti2Conj => number_if(same, 1) - number_if(are_swapped(p, q), 1),
    }
}

/// The entry at (p, q) of the projector on a representation of SU(n), among all tensors with its
/// indices.
///
/// Index tuples have one value from 1 to n for each index, in order. The projector is the identity
/// for vectors, subtracts the trace for the adjoint representation, and takes half of both orders
/// added or subtracted for the symmetric and the antisymmetric ones. It is symmetric in p and q and
/// commutes with every X_ij.
#[tactic(auto, using(crate::proofs::EntryLemmas::projector_entry))]
pub fn projector(rep: Rep, n: u32, p: &[u8], q: &[u8]) -> Frac
    requires low { 2 ≤ n }
    requires high { n ≤ 6 }
    requires first { IsTuple rep n p.now }
    requires second { IsTuple rep n q.now }
    ensures { result ≡ projector rep n p.now q.now }
{
    entry(
        projector_numerator(rep, n, p, q),
        projector_denominator(rep, n),
    )
}

/// The entry at (p, q) of the generator X_ij = E_ij - (δ_ij / n) 1 of SU(n), where E_ij is the
/// matrix unit, as it acts on tensors with the indices of a representation.
///
/// On an upper index it acts as itself, on a lower one as minus its transpose, and on a tensor as
/// the sum over indices. The projector is not in it. With T over the generators of Dynkin index
/// 1/2, the sum of T ⊗ T is one half of the sum of X_ij ⊗ X_ji over all i and j.
#[tactic(auto, using(crate::proofs::EntryLemmas::action_entry))]
pub fn action(rep: Rep, n: u32, i: u8, j: u8, p: &[u8], q: &[u8]) -> Frac
    requires low { 2 ≤ n }
    requires high { n ≤ 6 }
    requires indices { AreValues n (i ∷ j ∷ []) }
    requires first { IsTuple rep n p.now }
    requires second { IsTuple rep n q.now }
    ensures { result ≡ action rep n i j p.now q.now }
{
    entry(slots_numerator(sides(rep), n, i, j, p, q), n)
}
