//! The generators of the gauge groups.

/// A generator of the group at a place, counted from 0: X_ij of an SU(n), which is E_ij - (δ_ij / n) 1 in the fundamental
/// representation, or the charge of the U(1), for which i and j are 0.
#[derive(Clone, Copy, Debug, PartialEq, Eq)]
pub struct Generator {
    pub place: u32,
    pub i: u8,
    pub j: u8,
}
