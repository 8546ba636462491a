//! The beta functions of gauge couplings at one loop and at two.
#![tactic(auto)]

mod abelian;
mod casimirs;
mod gauge;
mod pieces;
mod two_loop;
mod yukawa;

pub use casimirs::casimir_of;
pub use gauge::gauge_one;
pub use pieces::gauge_symbol;
pub use two_loop::{PolyList, gauge_two};
pub use yukawa::{FracList, casimirs_of};
