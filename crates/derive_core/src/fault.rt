//! Why nothing is derived.
ghost use Rattle.std.specs.Prelude.{◌≡◌};

use anomaly_check::Anomaly;
use frac128::Overflow;
use gauge_check::{CheckError, TermFault};
use model_core::ReadFault;
use model_reader::ReadError;
use sparse_tensor::TensorFault;
use std::alloc::AllocError;

/// Why a file is refused.
#[derive(Drop)]
pub enum DeriveFault {
    /// What is wrong in the file, and where.
    Read(ReadFault),
    /// What is wrong with a term.
    Term(TermFault),
    /// The first anomaly.
    Anomalous(Anomaly),
    /// The sum or the product of two fractions is refused, because its numbers are too large.
    Overflow(Overflow),
    /// Memory ran out.
    NoMemory,
}

impl From<AllocError> for DeriveFault {
    ghost use Rattle.derive_core.specs.declared.fault.DeriveFault.TheVariants.{NoMemory};

    ghost from_gives = { λ _ fault. fault ≡ NoMemory };

    fn from(_: AllocError) -> DeriveFault {
        DeriveFault::NoMemory
    }
}

impl From<ReadError> for DeriveFault {
    ghost use Rattle.derive_core.specs.Faults.{of_read};

    ghost from_gives = { λ error fault. fault ≡ of_read error };

    fn from(error: ReadError) -> DeriveFault {
        match error {
            ReadError::Fault(fault) => DeriveFault::Read(fault),
            ReadError::NoMemory => DeriveFault::NoMemory,
        }
    }
}

impl From<TensorFault> for DeriveFault {
    ghost use Rattle.derive_core.specs.Faults.{of_tensors};

    ghost from_gives = { λ error fault. fault ≡ of_tensors error };

    fn from(error: TensorFault) -> DeriveFault {
        match error {
            TensorFault::Overflow(pair) => DeriveFault::Overflow(pair),
            TensorFault::NoMemory => DeriveFault::NoMemory,
        }
    }
}

impl From<CheckError> for DeriveFault {
    ghost use Rattle.derive_core.specs.Faults.{of_terms};

    ghost from_gives = { λ error fault. fault ≡ of_terms error };

    fn from(error: CheckError) -> DeriveFault {
        match error {
            CheckError::Fault(fault) => DeriveFault::Term(fault),
            CheckError::Overflow(pair) => DeriveFault::Overflow(pair),
            CheckError::NoMemory => DeriveFault::NoMemory,
        }
    }
}
