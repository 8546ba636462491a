//! The printed forms of what is derived.
#![tactic(auto)]

mod csv_text;
mod forms;
mod latex;
mod latex_lines;
mod line_text;
mod sums;
mod text;
mod text_lines;

pub use forms::print;
pub use line_text::{LineText, push_component, push_fraction, push_number, short_line};
