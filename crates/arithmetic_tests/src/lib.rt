//! Tests of the arithmetic below the models: fractions, polynomials, tensors and representations. This crate has no code.
#![tactic(auto)]

#[cfg(test)]
mod fractions;
#[cfg(test)]
mod polynomials;
#[cfg(test)]
mod representations;
#[cfg(test)]
mod tables;
#[cfg(test)]
mod tensors;
