//! On which components directions stand.
//!
//! A direction is the sum of the tensors of texts, each on the side of its content. So it is 0 at
//! every key that isn't a component of its block on its side.
#![tactic(auto)]

mod laws;

pub use laws::directions_stand_on_their_blocks;
