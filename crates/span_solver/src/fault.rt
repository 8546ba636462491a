//! Why there is no block.
use frac128::Overflow;
use sparse_tensor::TensorFault;
use std::alloc::AllocError;

/// Why there is no block.
#[derive(Drop)]
pub enum SpanFault {
    /// The direction at this place of the list is a combination, with fractions, of the block's earlier ones, and is the
    /// block's first such direction.
    Dependent {
        /// The place, counted from 0.
        place: u32,
    },
    /// The sum or the product of two fractions is refused, because its numbers are too large.
    Overflow(Overflow),
    /// Memory ran out.
    NoMemory,
}

impl From<AllocError> for SpanFault {
    ghost use Rattle.std.specs.Prelude.{◌≡◌};
    ghost use Rattle.span_solver.specs.declared.fault.SpanFault.{SpanFault};

    ghost from_gives = { λ _ fault. fault ≡ SpanFault.NoMemory };

    fn from(_error: AllocError) -> SpanFault {
        SpanFault::NoMemory
    }
}

impl From<TensorFault> for SpanFault {
    ghost use Rattle.std.specs.Prelude.{◌≡◌};
    ghost use Rattle.span_solver.specs.ChosenDirections.{span_fault};

    ghost from_gives = { λ refused fault. fault ≡ span_fault refused };

    fn from(refused: TensorFault) -> SpanFault {
        match refused {
            TensorFault::Overflow(pair) => SpanFault::Overflow(pair),
            TensorFault::NoMemory => SpanFault::NoMemory,
        }
    }
}
