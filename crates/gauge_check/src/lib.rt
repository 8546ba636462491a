//! Checks of the terms of a model: gauge invariance and hermiticity.
#![tactic(auto)]

mod action;
mod check;
mod component;
mod difference;
mod fault;
mod generators;
mod links;
mod parts;

pub use action::{Action, ActionList, Legs, actions_of, legs_of};
pub use check::check_terms;
pub use component::{Component, component_at};
pub use fault::{CheckError, TermFault};
pub use links::generator_links;
pub use parts::push_entries;
