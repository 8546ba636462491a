//! The beta functions of Yukawa couplings at one loop.
#![tactic(auto)]

mod betas;
mod gauges;
mod lines;
mod matrices;
mod parts;
mod products;
mod stacks;

pub use betas::yukawa_betas;
pub use lines::{Lines, lines_of, scalar_square};
pub use matrices::{MatrixList, YukawaMatrices};
pub use products::identity_links;
