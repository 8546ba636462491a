//! The generators that suffice to test gauge invariance.
//!
//! A direction is invariant where no generator changes it at any component. Of the X_ij of an SU(n)
//! the neighbouring ones, with j = i + 1 or i = j + 1, are enough: the others are commutators of
//! these, as X_ik = [X_ij, X_jk] for different i and k and X_ii - X_jj = [X_ij, X_ji], and the X_ii
//! add up to 0.
#![tactic(auto)]

mod laws;

pub use laws::neighbours_suffice;
