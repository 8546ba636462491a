ghost use Rattle.std.specs.Prelude.{◌≡◌, ◌≤◌, ◌<◌, pos};
ghost use Rattle.frac128.specs.Rational.{ℚ, whole, ◌/ℚ◌};
ghost use Rattle.su_reps.specs.Operators.{P, trace, index_trace, cubic_trace, dimension, casimir, doubled_index, index, cubic, fraction};
ghost use Rattle.su_reps.specs.Laws.{IsCasimir};

use crate::rep::Rep;
use frac128::Frac;

// Each number is a private table, and a public function that shows the table's value to be a trace.

/// A fraction of small numbers.
fn fraction(num: u32, den: u32) -> Frac
    requires { 0 < den }
    ensures { result ≡ fraction num den }
{
    Frac::new(num as i128, den as i128).unwrap()
}

/// The table of `dimension`.
fn dimension_of(rep: Rep, n: u32) -> u32
    requires low { 2 ≤ n }
    requires high { n ≤ 6 }
    ensures { result ≡ dimension rep n }
{
    match rep {
        Rep::Singlet => 1,
        Rep::Fund | Rep::Conj => n,
        Rep::Adjoint => n * n - 1,
        Rep::Sym2 | Rep::Sym2Conj => n * (n + 1) / 2,
        Rep::Anti2 | Rep::Anti2Conj => n * (n - 1) / 2,
    }
}

/// The dimension d(R) of a representation of SU(n): the trace of its projector.
#[tactic(auto, using(crate::proofs::GroupNumbers::dimension_law))]
pub fn dimension(rep: Rep, n: u32) -> u32
    requires low { 2 ≤ n }
    requires high { n ≤ 6 }
    ensures value { result ≡ dimension rep n }
    ensures trace { trace rep n (P rep n) ≡ whole (pos result) }
{
    dimension_of(rep, n)
}

/// The table of `casimir`.
fn casimir_of(rep: Rep, n: u32) -> Frac
    requires low { 2 ≤ n }
    requires high { n ≤ 6 }
    ensures { result ≡ casimir rep n }
{
    match rep {
        Rep::Singlet => fraction(0, 1),
        Rep::Fund | Rep::Conj => fraction(n * n - 1, 2 * n),
        Rep::Adjoint => fraction(n, 1),
        Rep::Sym2 | Rep::Sym2Conj => fraction((n - 1) * (n + 2), n),
        Rep::Anti2 | Rep::Anti2Conj => fraction((n + 1) * (n - 2), n),
    }
}

/// The quadratic Casimir C(R) of a representation of SU(n): the sum of T T over the generators T is
/// C(R) times the identity.
///
/// The generators are normalised so that the fundamental representation has the Dynkin index 1/2.
/// The sum over them is then one half of the sum of X_ij X_ji over all i and j. `operator` says so
/// at each entry, with the projector for the identity.
#[tactic(auto, using(crate::proofs::GroupNumbers::casimir_law))]
pub fn casimir(rep: Rep, n: u32) -> Frac
    requires low { 2 ≤ n }
    requires high { n ≤ 6 }
    ensures value { result ≡ casimir rep n }
    ensures operator { IsCasimir rep n result }
{
    casimir_of(rep, n)
}

/// The table of `doubled_index`.
fn doubled_index_of(rep: Rep, n: u32) -> u32
    requires low { 2 ≤ n }
    requires high { n ≤ 6 }
    ensures { result ≡ doubled_index rep n }
{
    match rep {
        Rep::Singlet => 0,
        Rep::Fund | Rep::Conj => 1,
        Rep::Adjoint => 2 * n,
        Rep::Sym2 | Rep::Sym2Conj => n + 2,
        Rep::Anti2 | Rep::Anti2Conj => n - 2,
    }
}

/// Twice the Dynkin index of a representation of SU(n), which is a whole number: 1 for the
/// fundamental one.
///
/// It is the trace of X_12 X_21 on the representation, and the index that published tables list (R.
/// Slansky, Phys. Rept. 79 (1981) 1).
#[tactic(auto, using(crate::proofs::GroupNumbers::doubled_index_law))]
pub fn doubled_index(rep: Rep, n: u32) -> u32
    requires low { 2 ≤ n }
    requires high { n ≤ 6 }
    ensures value { result ≡ doubled_index rep n }
    ensures trace { index_trace rep n ≡ whole (pos result) }
{
    doubled_index_of(rep, n)
}

/// The Dynkin index T(R) of a representation of SU(n): the trace of T T for each generator T.
///
/// It is 1/2 for the fundamental representation, and one half of the trace of X_12 X_21. By the law
/// `casimir_trace` it is C(R) d(R) / (n^2 - 1), with the quadratic Casimir C(R) and the dimension
/// d(R).
#[tactic(auto, using(crate::proofs::GroupNumbers::index_law))]
pub fn index(rep: Rep, n: u32) -> Frac
    requires low { 2 ≤ n }
    requires high { n ≤ 6 }
    ensures value { result ≡ index rep n }
    ensures trace { result ≡ index_trace rep n /ℚ whole (pos 2) }
{
    fraction(doubled_index(rep, n), 2)
}

/// The table of `cubic`.
fn cubic_of(rep: Rep, n: u32) -> i64
    requires low { 3 ≤ n }
    requires high { n ≤ 6 }
    ensures { result ≡ cubic rep n }
{
    let size = n as i64;
    match rep {
        Rep::Singlet | Rep::Adjoint => 0,
        Rep::Fund => 1,
        Rep::Conj => -1,
        Rep::Sym2 => size + 4,
        Rep::Sym2Conj => -(size + 4),
        Rep::Anti2 => size - 4,
        Rep::Anti2Conj => -(size - 4),
    }
}

/// The anomaly coefficient A(R) of a representation of SU(n), with n at least 3: 1 for the
/// fundamental one, and the negative number for a conjugate one.
///
/// It is the trace of X_12 (X_23 X_31 + X_31 X_23) on the representation. By the law `triple_trace`
/// it is the factor between the symmetric traces of any three generators here and in the
/// fundamental representation.
#[tactic(auto, using(crate::proofs::GroupNumbers::cubic_law))]
pub fn cubic(rep: Rep, n: u32) -> i64
    requires low { 3 ≤ n }
    requires high { n ≤ 6 }
    ensures value { result ≡ cubic rep n }
    ensures trace { cubic_trace rep n ≡ whole result }
{
    cubic_of(rep, n)
}
