//! Coordinates along the directions of a block.
#![tactic(auto)]

mod block;
mod directions;
mod fault;
mod keys;
mod laws;
mod names;
mod numbers;
mod pivots;
mod prefixes;
mod rows;
mod scan;
mod solve;
mod solved;
mod systems;

pub use block::Block;
pub use fault::SpanFault;
pub use laws::{an_open_key_is_unique, coordinates_are_unique};
pub use names::same_name;
pub use solved::{PolyList, Solved};
