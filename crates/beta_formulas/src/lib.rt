//! The beta functions that the loop crates compute, as definitions: this crate has no code.
#![tactic(auto)]
