//! The terms of a model become tensors: the Yukawa tensor, the scalar tensor, and the directions of the symbols.
#![tactic(auto)]

mod assignments;
mod basis;
mod candidates;
mod directions;
mod expansion;
mod links;
mod moves;
mod multiples;
mod texts;
mod token;
mod values;

pub use assignments::copied;
pub use basis::{Basis, basis_of};
pub use directions::{Direction, DirectionList};
pub use expansion::{Tensors, expand};
pub use links::push_link;
pub use multiples::conjugate;
pub use texts::no_symbols;
pub use token::{BlockName, Token, block_name};
