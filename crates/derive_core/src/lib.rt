//! What is derived from a model file: its beta functions, or the first thing for which it is refused.
#![tactic(auto)]

mod accept;
mod betas;
mod block_betas;
mod block_lines;
mod block_names;
mod component_blocks;
mod coupling_lines;
mod dependence;
mod fault;
mod gauge_lines;
mod laws;
mod lines;
mod outcomes;
mod pipeline;
mod survey;
mod targets;

pub use betas::{Betas, Checked, Line, LineList, Target, TargetList, TokenNames};
pub use fault::DeriveFault;
pub use laws::{a_file_has_one_check, a_file_has_one_derivation};
pub use pipeline::{check, derive};
