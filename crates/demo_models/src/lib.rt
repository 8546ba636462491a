//! Large valid model files.
#![tactic(auto)]

mod standard_model;

pub use standard_model::{demo, generations};
