//! What is wrong with a term, and why a check ends without an answer.
ghost use Rattle.std.specs.Prelude.{◌≡◌};

use crate::component::Component;
use beta_poly::Symbol;
use frac128::{Frac, Overflow};
use model_core::Name;
use sparse_tensor::TensorFault;
use std::alloc::AllocError;

/// What is wrong with a term, whose place counts from 1.
#[derive(Drop)]
pub enum TermFault {
    /// A generator changes a direction of the term: at the component the sum over legs of its action has this value,
    /// and not 0.
    NotInvariant {
        term: u32,
        coupling: Name,
        group: Name,
        /// The indices of X_ij, or 0 for the charge of the U(1).
        i: u8,
        j: u8,
        component: Component,
        value: Frac,
    },
    /// A scalar term to which no conjugate is added isn't its own conjugate: at the component its tensor isn't that at
    /// the partners of the four coordinates.
    NotHermitian {
        term: u32,
        coupling: Name,
        component: Component,
    },
    /// A direction of the term is a combination of earlier directions of its block.
    Dependent {
        term: u32,
        coupling: Name,
        symbol: Symbol,
        /// The symbol's row and column, or 0 for a coupling without them.
        row: u32,
        column: u32,
    },
}

/// Why terms are refused.
#[derive(Drop)]
pub enum CheckError {
    Fault(TermFault),
    /// The sum or the product of two fractions is refused, because its numbers are too large.
    Overflow(Overflow),
    /// Memory ran out.
    NoMemory,
}

impl From<TensorFault> for CheckError {
    ghost use Rattle.gauge_check.specs.Faults.{check_error};

    ghost from_gives = { λ fault e. e ≡ check_error fault };

    fn from(fault: TensorFault) -> CheckError {
        match fault {
            TensorFault::Overflow(pair) => CheckError::Overflow(pair),
            TensorFault::NoMemory => CheckError::NoMemory,
        }
    }
}

impl From<AllocError> for CheckError {
    ghost use Rattle.gauge_check.specs.declared.fault.CheckError.TheVariants.{NoMemory};

    ghost from_gives = { λ _ e. e ≡ NoMemory };

    fn from(_: AllocError) -> CheckError {
        CheckError::NoMemory
    }
}
