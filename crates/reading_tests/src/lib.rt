//! Tests of the reader: what well-formed files stand for. This crate has no code. Files that are refused stand in `cases/`.
#![tactic(auto)]

#[cfg(test)]
mod components;
#[cfg(test)]
mod models;
#[cfg(test)]
mod sums;
#[cfg(test)]
mod tables;
#[cfg(test)]
mod terms;
