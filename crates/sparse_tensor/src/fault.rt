//! Why an operation on tensors is refused.
ghost use Rattle.std.specs.Prelude.{◌≡◌};

use beta_poly::PolyFault;
use frac128::Overflow;
use std::alloc::{AllocError, AllocFailed};

/// Why there is no tensor. The operands stay as they were.
#[derive(Debug, Drop)]
pub enum TensorFault {
    /// Two fractions whose sum or product is refused.
    Overflow(Overflow),

    /// There is no memory.
    NoMemory,
}

impl From<AllocError> for TensorFault {
    ghost use Rattle.sparse_tensor.specs.declared.fault.TensorFault.{TensorFault};

    ghost from_gives = { λ _ fault. fault ≡ TensorFault.NoMemory };

    fn from(_error: AllocError) -> TensorFault {
        TensorFault::NoMemory
    }
}

impl<T: Drop> From<AllocFailed<T>> for TensorFault {
    ghost use Rattle.sparse_tensor.specs.declared.fault.TensorFault.{TensorFault};

    ghost from_gives = { λ _ fault. fault ≡ TensorFault.NoMemory };

    fn from(_failed: AllocFailed<T>) -> TensorFault {
        TensorFault::NoMemory
    }
}

impl From<Overflow> for TensorFault {
    ghost use Rattle.sparse_tensor.specs.declared.fault.TensorFault.{TensorFault};

    ghost from_gives = { λ pair fault. fault ≡ TensorFault.Overflow pair };

    fn from(pair: Overflow) -> TensorFault {
        TensorFault::Overflow(pair)
    }
}

impl From<PolyFault> for TensorFault {
    ghost use Rattle.sparse_tensor.specs.Refusals.{tensor_fault};

    ghost from_gives = { λ refused fault. fault ≡ tensor_fault refused };

    fn from(refused: PolyFault) -> TensorFault {
        match refused {
            PolyFault::Overflow(pair) => TensorFault::Overflow(pair),
            PolyFault::NoMemory => TensorFault::NoMemory,
        }
    }
}
