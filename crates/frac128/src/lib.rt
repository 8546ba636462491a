//! Exact fractions of 128-bit numbers, the rational numbers that they stand for, and lists of items.
#![tactic(auto)]

mod euclid;
mod frac;
mod laws;
mod lists;
mod small;

pub use frac::{Frac, FracFault, Overflow};
pub use laws::rational_numbers_are_an_ordered_field;
pub use lists::{ByteList, FailList, ItemList, NumberList};
