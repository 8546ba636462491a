//! The beta functions of scalar couplings at one loop.
#![tactic(auto)]

mod betas;
mod boxes;
mod charges;
mod conjugates;
mod formed;
mod gauges;
mod laws;
mod legs;
mod loops;
mod pairs;
mod pushes;
mod slices;

pub use betas::quartic_betas;
pub use conjugates::conjugate_value;
pub use laws::beta_functions_are_symmetric;
