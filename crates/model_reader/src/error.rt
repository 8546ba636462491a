//! Why a file has no model.
ghost use Rattle.std.specs.Prelude.{◌≡◌, Err};
ghost use Rattle.model_core.specs.Fault.{fault};
ghost use Rattle.model_reader.specs.declared.error.ReadError.TheVariants.{Fault, NoMemory};

use model_core::{FaultPlace, ReadFault, ReadKind};
use std::alloc::AllocError;

/// Why a file has no model.
#[derive(Clone, Copy, Debug)]
pub enum ReadError {
    /// What is wrong in the file, and where: its first bad place.
    Fault(ReadFault),
    /// Memory ran out, which says nothing of the file.
    NoMemory,
}

impl From<AllocError> for ReadError {
    ghost from_gives = { λ _ e. e ≡ NoMemory };

    fn from(_: AllocError) -> ReadError {
        ReadError::NoMemory
    }
}

/// The refusal of a fault of this kind at this place.
pub fn refused<T>(place: FaultPlace, kind: ReadKind) -> Result<T, ReadError>
    ensures { result ≡ Err (Fault (fault place kind)) }
{
    Err(ReadError::Fault(place.fault(kind)))
}
