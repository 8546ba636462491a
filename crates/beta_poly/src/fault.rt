//! Why a sum, a product or a multiple of polynomials is refused.
ghost use Rattle.std.specs.Prelude.{◌≡◌};

use frac128::Overflow;
use std::alloc::{AllocError, AllocFailed};

/// Why there is no sum, product or multiple. The operands stay as they were.
#[derive(Debug, Drop)]
pub enum PolyFault {
    /// Two fractions whose sum or product is refused.
    Overflow(Overflow),

    /// There is no memory.
    NoMemory,
}

impl From<AllocError> for PolyFault {
    ghost use Rattle.beta_poly.specs.declared.fault.PolyFault.{PolyFault};

    ghost from_gives = { λ _ fault. fault ≡ PolyFault.NoMemory };

    fn from(_error: AllocError) -> PolyFault {
        PolyFault::NoMemory
    }
}

impl<T: Drop> From<AllocFailed<T>> for PolyFault {
    ghost use Rattle.beta_poly.specs.declared.fault.PolyFault.{PolyFault};

    ghost from_gives = { λ _ fault. fault ≡ PolyFault.NoMemory };

    fn from(_failed: AllocFailed<T>) -> PolyFault {
        PolyFault::NoMemory
    }
}

impl From<Overflow> for PolyFault {
    ghost use Rattle.beta_poly.specs.declared.fault.PolyFault.{PolyFault};

    ghost from_gives = { λ pair fault. fault ≡ PolyFault.Overflow pair };

    fn from(pair: Overflow) -> PolyFault {
        PolyFault::Overflow(pair)
    }
}
