//! Representations of SU(n): index tuples, projectors, generators and group numbers.
//!
//! A component of a field in a representation has an index tuple, one value from 1 to n for each
//! index of its tensor (`slots`). Components of a symmetric, antisymmetric or traceless tensor are
//! not independent: sums run over all tuples, with the representation's `projector`. The generators
//! are X_ij = E_ij - (δ_ij / n) 1 with the matrix unit E_ij (`action`).
//!
//! The group numbers are `dimension`, `casimir` (the quadratic Casimir), `index` (the Dynkin index,
//! 1/2 for the fundamental representation) with `doubled_index`, and `cubic` (the anomaly
//! coefficient, 1 for the fundamental representation). The code looks them up in tables. Each
//! contract says that the number is the trace over all tuples that defines it, and
//! `representations_of_su_n` states the laws for every n.
//!
//! To add a representation: its line in each definition of `specs/`, its arm in each `match` of
//! `src/`, its line in each law of `proofs/`. The laws are identities of sums of Kronecker deltas,
//! which a solver proves for all n.
#![tactic(auto)]

mod entries;
mod laws;
mod numbers;
mod rep;

pub use entries::{action, projector};
pub use laws::representations_of_su_n;
pub use numbers::{casimir, cubic, dimension, doubled_index, index};
pub use rep::{Rep, slots};
