//! Symbols, monomials and polynomials with exact fractions as coefficients: a proved commutative ring.
#![tactic(auto)]

mod fault;
mod laws;
mod monomial;
mod polynomial;
mod products;
mod symbol;
mod terms;

pub use fault::PolyFault;
pub use laws::{monomials_stand_in_lexicographic_order, polynomials_are_a_commutative_ring};
pub use monomial::Mono;
pub use polynomial::Poly;
pub use symbol::Symbol;
