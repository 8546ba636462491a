ghost use Rattle.beta_poly.specs.Laws.{PolynomialRingLaws, ConstantLaws, ConjugateLaws, CoefficientLaws, EvaluationLaws, OrderLaws};

/// Polynomials, of which contracts speak, are a commutative ring that holds the fractions, and are known
/// by their coefficients. A value for each symbol gives each polynomial a value, which respects sums and
/// products. The conjugate is an involution that respects fractions, sums and products.
///
/// Equal polynomials are one value, so a crate above calculates with them by
/// `identity poly_ring values left right refl`.
#[tactic(auto, using(crate::proofs::PolynomialLaws::polynomial_ring_laws, crate::proofs::PolynomialLaws::constant_laws, crate::proofs::PolynomialLaws::conjugate_laws, crate::proofs::PolynomialLaws::coefficient_laws, crate::proofs::Evaluation::evaluation_laws))]
pub fn polynomials_are_a_commutative_ring()
    ensures ring { PolynomialRingLaws }
    ensures constants { ConstantLaws }
    ensures conjugates { ConjugateLaws }
    ensures coefficients { CoefficientLaws }
    ensures evaluation { EvaluationLaws }
{}

/// The canonical order of monomials is the descending lexicographic order of their vectors of exponents:
/// one comes before another where, at the first symbol at which their exponents differ, it has the
/// greater one.
#[tactic(auto, using(crate::proofs::OrderLaws::order_laws))]
pub fn monomials_stand_in_lexicographic_order()
    ensures { OrderLaws }
{}
