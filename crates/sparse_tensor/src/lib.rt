//! Sparse tensors of rank 1 to 8 with polynomials as values: sums, contractions, projections and symmetrisations.
#![tactic(auto)]

mod contractions;
mod entries;
mod fault;
mod key;
mod laws;
mod links;
mod polynomials;
mod projections;
mod sparse;
mod symmetries;
mod values;

pub use fault::TensorFault;
pub use laws::sparse_tensors_are_functions_of_keys;
pub use links::{Link, LinkList};
pub use sparse::Sparse;
pub use values::{Value, ValueList};
