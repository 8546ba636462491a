//! Anomalies, and why a check of them ends without an answer.
ghost use Rattle.std.specs.Prelude.{◌≡◌};

use frac128::{Frac, Overflow};
use model_core::Name;

/// Which trace over the left-handed fermions is bad. X_ij are the generators of an SU(n), E_ij - (δ_ij / n) 1 in the
/// fundamental representation, and Q is the charge of the U(1).
#[derive(Clone, Copy, Debug, PartialEq, Eq)]
pub enum AnomalyKind {
    /// Tr(X_12 (X_23 X_31 + X_31 X_23)) isn't 0.
    Cubic,
    /// Tr(X_12 X_21) of an SU(2), the number of doublets, is odd.
    Global,
    /// Tr(Q X_12 X_21) isn't 0.
    Mixed,
    /// Tr(Q) isn't 0.
    Gravity,
    /// Tr(Q^3) isn't 0.
    Abelian,
}

/// A bad trace.
#[derive(Drop)]
pub struct Anomaly {
    /// Which trace it is.
    pub kind: AnomalyKind,

    /// The name of the SU(n), or of the U(1) where the trace has the charge alone.
    pub group: Name,

    /// Its value.
    pub trace: Frac,
}

/// What is wrong with a model's fermions.
#[derive(Drop)]
pub enum AnomalyError {
    /// The first bad trace.
    Bad(Anomaly),
    /// The sum or the product of two fractions is refused, because its numbers are too large.
    Overflow(Overflow),
}

impl From<Overflow> for AnomalyError {
    ghost use Rattle.anomaly_check.specs.declared.anomaly.AnomalyError.TheVariants as fault;

    ghost from_gives = { λ pair e. e ≡ fault.Overflow pair };

    fn from(pair: Overflow) -> AnomalyError {
        AnomalyError::Overflow(pair)
    }
}
