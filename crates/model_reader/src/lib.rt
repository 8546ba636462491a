//! Reads a model file.
#![tactic(auto)]

mod entries;
mod error;
mod fields;
mod groups;
mod keys;
mod literal;
mod names;
mod reader;
mod reps;
mod slots;
mod tables;
mod tensors;
mod term_checks;
mod term_factors;
mod term_generations;
mod term_keys;
mod term_labels;
mod term_literals;
mod term_referents;
mod term_sum;
mod term_text;
mod term_tokens;
mod term_words;
mod terms;
mod values;

pub use error::ReadError;
pub use model_core::{Part, ReadFault, ReadKind};
pub use reader::read_model;
pub use term_text::{ParsedSum, parse_sum};
