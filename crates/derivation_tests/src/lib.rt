//! Tests on the way from a file to its beta functions: the tensors of small models, and the files of the demo. This crate has no code.
#![tactic(auto)]

#[cfg(test)]
mod demo;
#[cfg(test)]
mod symmetric;
#[cfg(test)]
mod tensors;
