//! Why a call of the register is refused.

use crate::keeper::KeepFault;
use std::alloc::AllocError;
use thiserror::Error;

/// Why a call of the register is refused.
#[derive(Clone, Copy, Debug, PartialEq, Eq, Error)]
pub enum RegisterFault {
    /// The name has no version.
    #[error("no such name")]
    NoSuchName,
    /// The name has versions, so many, and not this one.
    #[error("no such version among {count}")]
    NoSuchVersion { count: u32 },
    /// The name has as many versions as it may have.
    #[error("the name is full, with {count} versions")]
    Full { count: u32 },
    /// The keeper failed, and its count of faults rose.
    #[error("the keeper failed")]
    Keeper,
    /// Memory ran out.
    #[error("out of memory")]
    NoMemory,
}

impl From<KeepFault> for RegisterFault {
    ghost use Rattle.std.specs.Prelude.{◌≡◌};
    ghost use Rattle.register_core.specs.Causes.{fault_of};

    ghost from_gives = { λ kept fault. fault ≡ fault_of kept };

    fn from(fault: KeepFault) -> RegisterFault {
        match fault {
            KeepFault::Failed => RegisterFault::Keeper,
            KeepFault::NoMemory => RegisterFault::NoMemory,
        }
    }
}

impl From<AllocError> for RegisterFault {
    ghost use Rattle.std.specs.Prelude.{◌≡◌};
    ghost use Rattle.register_core.specs.declared.register_fault.RegisterFault.{RegisterFault};

    ghost from_gives = { λ _ fault. fault ≡ RegisterFault.NoMemory };

    fn from(_error: AllocError) -> RegisterFault {
        RegisterFault::NoMemory
    }
}
