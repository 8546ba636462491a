//! Jobs that are done in pieces, by several workers.
#![tactic(auto)]

mod gate;

pub use gate::{Gate, NoGate};
